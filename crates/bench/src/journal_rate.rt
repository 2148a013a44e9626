//! Measures how many blocks of orders a second are appended to a journal in a file, each synced twice.
ghost use Rattle.std.specs.Prelude.{◌≡◌, ◌≤◌, length};

use crate::fault::Fault;
use crate::fix_rate::ORDER;
use crate::rate::times_in;
use disks::SystemFolder;
use journal::{Journal, JournalDisk, open_journal};
use std::alloc::{AllocError, Global};
use std::fs::{self, File, Files};
use std::rt::Clock;
use std::time::{Duration, Instant};
use venue_model::Entry;

/// How many entries the blocks have that are measured.
const COUNTS: [usize; 4] = [1, 8, 64, 512];

/// No more blocks are appended than these.
const MOST_BLOCKS: u32 = 10_000;

/// Nor are more once so many seconds have passed.
const ENOUGH: u64 = 1;

/// Measures in this folder.
pub fn measure<R: Clock + Files<File = File> + Print + AllocGlobal>(
    rt: &R,
    folder: &str,
) -> Result<(), Fault> {
    let orders = orders(rt.alloc())?;
    for count in COUNTS {
        let Some(block) = orders.get(..count) else {
            return Err(Fault::Wrong);
        };
        measure_blocks(rt, folder, block)?;
    }
    Ok(())
}

/// Measures blocks of these entries in this folder.
fn measure_blocks<R: Clock + Files<File = File> + Print + AllocGlobal>(
    rt: &R,
    folder: &str,
    block: &[Entry],
) -> Result<(), Fault> {
    let count = block.len();
    let path = format!(in rt.alloc(); "{folder}/bench_journal.b{count}")?;
    let rate = rate_of(rt, path.as_str(), block)?;
    println!(rt; "journal.project.b{count}: {rate} blocks/s")?;
    Ok(())
}

/// As many copies of the order as the longest block has, of the first gateway.
fn orders(alloc: Global) -> Result<Vec<Entry>, AllocError> {
    let mut orders = Vec::new(alloc);
    for _ in 0..512 {
        orders.push(Entry::new(1, ORDER))?;
    }
    Ok(orders)
}

/// How often a second the block is appended to a journal that is made in this file and removed again. Where the file
/// hasn't the length of so many blocks, there is no figure.
fn rate_of<R: Clock + Files<File = File> + AllocGlobal>(
    rt: &R,
    path: &str,
    block: &[Entry],
) -> Result<u128, Fault> {
    let (blocks, took) = append_to_new(rt, path, block)?;
    let found = fs::metadata(rt, path)?.len();
    fs::remove_file(rt, path)?;
    if found != file_length(blocks, block.len() as u64) {
        return Err(Fault::Wrong);
    }
    Ok(times_in(1_000_000_000, blocks, took))
}

/// How many bytes a journal has with so many blocks of so many orders (docs/JOURNAL.md, "The bytes"): header and gate,
/// and for each block its length, its kind, its records, each with 3 bytes in front of the order, and the next gate.
fn file_length(blocks: u32, count: u64) -> u64 {
    let record = 3 + ORDER.len() as u64;
    let block = record.saturating_mul(count).saturating_add(4 + 1 + 1);
    u64::from(blocks).saturating_mul(block).saturating_add(17)
}

/// Appends the block to a new journal in this file, as `append_again` does.
fn append_to_new<R: Clock + Files<File = File> + AllocGlobal>(
    rt: &R,
    path: &str,
    block: &[Entry],
) -> Result<(u32, Duration), Fault> {
    if block.is_empty() || block.len() > 4_096 {
        return Err(Fault::Wrong);
    }
    let mut folder = SystemFolder::new(rt, path)?;
    let disk = open_journal(&mut folder)?;
    let (mut journal, base) = Journal::open(rt.alloc(), disk).map_err(|(fault, _)| fault)?;
    if !base.is_empty() {
        return Err(Fault::Device);
    }
    append_again(rt, &mut journal, block)
}

/// Appends the block for about a second, and once at least: how often, and how long that took.
fn append_again<D: JournalDisk, R: Clock>(
    rt: &R,
    journal: &mut Journal<D>,
    block: &[Entry],
) -> Result<(u32, Duration), Fault>
    requires block { (1 ≤ length block.now) × (length block.now ≤ 4096) }
    requires fresh { journal.old.count ≡ 0 }
{
    let begun = Instant::now(rt)?;
    for blocks in 0..MOST_BLOCKS {
        journal.append(block)?;
        let took = begun.elapsed(rt)?;
        if took.as_secs() >= ENOUGH {
            return Ok((blocks + 1, took));
        }
    }
    Ok((MOST_BLOCKS, begun.elapsed(rt)?))
}

//! Journals on a disk of which one call fails, or behind one of whose calls the program stops: what `open` finds behind
//! a crash.
ghost use Rattle.std.specs.Prelude.{◌≡◌, ◌≤◌, length};

use super::journals::{FRESH, ONE_ENTRY};
use disks::DiskFailed;
use journal::{Call, Journal, JournalDisk, JournalFault, MemDisk, entries};
use std::alloc::{AllocError, Global};
use std::process::Abort;
use std::test::Fail;
use venue_model::Entry;

/// What stands after a crash where bytes weren't synced: those that were written, or this one.
const FILLS: [Option<u8>; 4] = [None, Some(0x00), Some(0x01), Some(0xff)];

/// At which of the four device calls of the first append it is cut short, how many bytes that one puts if it fails, and
/// whether `open` then finds the block, by what stands after a crash.
type Cut = (usize, usize, [bool; 4]);

const NONE: [bool; 4] = [false; 4];

/// The gate's byte isn't synced: the block counts where that is `01`.
const BY_GATE: [bool; 4] = [true, false, true, false];

/// The call that fails.
const FAILS: [Cut; 7] = [
    (1, 0, NONE),
    (1, 3, NONE),
    (1, 100, NONE),
    (2, 0, NONE),
    (3, 0, [false, false, true, false]),
    (3, 1, BY_GATE),
    (4, 0, BY_GATE),
];

/// The call behind which the program stops.
const STOPS: [Cut; 4] = [
    (1, 0, NONE),
    (2, 0, NONE),
    (3, 0, BY_GATE),
    (4, 0, [true; 4]),
];

/// Whether both answers are 41.
fn are_device_faults(fault: JournalFault, again: Result<(), JournalFault>) -> bool {
    fault == JournalFault::Device && again == Err(JournalFault::Device)
}

/// Adds these entries to a journal without any, in blocks of this size, until one fails; behind that each answers 41.
/// Gives the number of entries that were answered.
fn add_blocks(journal: &mut Journal<MemDisk>, all: &[Entry], size: usize) -> Result<usize, Fail>
    requires empty { journal.old.count ≡ 0 }
    requires size { (1 ≤ size) × (size ≤ 100) }
    requires few { length all.now ≤ 100 }
{
    let mut rest = all;
    for number in 0..all.len() {
        let (block, others) = rest.split_at(size.min(rest.len()));
        if block.is_empty() {
            break;
        }
        if let Err(fault) = journal.append(block) {
            if !are_device_faults(fault, journal.append(block)) {
                return Err(Fail::from("not 41"));
            }
            break;
        }
        rest = others;
    }
    Ok(all.len().wrapping_sub(rest.len()))
}

/// A fresh journal's disk, whose call of this number fails, and puts so many bytes before if that is a write.
fn failing_disk(alloc: Global, call: usize, part: usize) -> Result<MemDisk, AllocError> {
    let mut disk = MemDisk::new(alloc, FRESH)?;
    disk.fail_at(call as u64, part);
    Ok(disk)
}

/// Adds them to a journal that had no entries, and gives the number of those that were answered, and the disk.
fn add_to_empty(
    mut journal: Journal<MemDisk>,
    all: &[Entry],
    size: usize,
) -> Result<(usize, MemDisk), Fail>
    requires empty { journal.count ≡ 0 }
    requires size { (1 ≤ size) × (size ≤ 100) }
    requires few { length all.now ≤ 100 }
{
    let answered = add_blocks(&mut journal, all, size)?;
    Ok((answered, journal.end()))
}

/// Adds them to a fresh journal, on a disk whose call of this number fails.
fn add_all(
    alloc: Global,
    all: &[Entry],
    size: usize,
    call: usize,
    part: usize,
) -> Result<(usize, MemDisk), Fail> {
    if size < 1 || 100 < size || 100 < all.len() {
        return Err(Fail::from("too many"));
    }
    match Journal::open(alloc, failing_disk(alloc, call, part)?) {
        Ok((journal, base)) if base.is_empty() => add_to_empty(journal, all, size),
        Ok(_) => Err(Fail::from("entries in a fresh journal")),
        Err((JournalFault::Device, disk)) => Ok((0, disk)),
        Err((fault, _)) => Err(fault)?,
    }
}

/// The disk of a fresh journal behind these calls.
fn behind(alloc: Global, calls: &[Call]) -> Result<MemDisk, Fail> {
    let mut disk = MemDisk::new(alloc, FRESH)?;
    for call in calls {
        make(&mut disk, call)?;
    }
    Ok(disk)
}

/// Makes a call of the disk again, other than a read.
fn make(disk: &mut MemDisk, call: &Call) -> Result<(), DiskFailed> {
    match call {
        Call::Read { .. } => Ok(()),
        Call::Write { at, bytes, .. } => disk.write_at(*at, bytes),
        Call::Sync { .. } => disk.sync(),
    }
}

/// Whether these entries are the first of those.
fn begin(some: &[Entry], all: &[Entry]) -> bool {
    if all.len() < some.len() {
        return false;
    }
    for k in 0..some.len() {
        if !is_same(&some[k], &all[k]) {
            return false;
        }
    }
    true
}

fn is_same(one: &Entry, other: &Entry) -> bool {
    one.gateway() == other.gateway() && one.bytes() == other.bytes()
}

/// Whether these entries are the first of those, and but one follows.
fn begin_before_one(some: &[Entry], all: &[Entry]) -> bool {
    begin(some, all) && all.len() == some.len().wrapping_add(1)
}

/// How many of these entries `open` finds after a crash: they are the first ones. Another one can be added to them.
fn found(alloc: Global, disk: &MemDisk, fill: Option<u8>, all: &[Entry]) -> Result<usize, Fail> {
    let Ok((journal, found)) = Journal::open(alloc, disk.crash(fill)?) else {
        return Err(Fail::from("not opened"));
    };
    if all.len() < found.len() || 100 < all.len() {
        return Err(Fail::from("too many"));
    }
    let more = with_another(alloc, journal)?;
    if !begin(&found, all) || !begin_before_one(&found, &more) {
        return Err(Fail::from("not a beginning"));
    }
    Ok(found.len())
}

/// The entries of a journal's disk behind another one that is added.
fn with_another(alloc: Global, mut journal: Journal<MemDisk>) -> Result<Vec<Entry>, Fail>
    requires few { journal.count ≤ 100 }
{
    journal.append(&[Entry::new(8, b"another")])?;
    Ok(entries(alloc, &mut journal.end())?)
}

/// So many entries `AB` of gateway 1.
fn alike(alloc: Global, count: usize) -> Result<Vec<Entry>, AllocError> {
    let mut all = Vec::new(alloc);
    for _ in 0..count {
        all.push(Entry::new(1, b"AB"))?;
    }
    Ok(all)
}

/// Whether `open` finds the block, and not just no entries, where this stands after a crash.
fn is_found(
    alloc: Global,
    disk: &MemDisk,
    fill: Option<u8>,
    block: &[Entry],
) -> Result<bool, Fail> {
    let count = found(alloc, disk, fill, block)?;
    if count != 0 && count != block.len() {
        return Err(Fail::from("a part of the block"));
    }
    Ok(count != 0)
}

/// The same by what stands after a crash.
fn finds(alloc: Global, disk: &MemDisk, block: &[Entry]) -> Result<[bool; 4], Fail> {
    let [first, second, third, fourth] = FILLS;
    Ok([
        is_found(alloc, disk, first, block)?,
        is_found(alloc, disk, second, block)?,
        is_found(alloc, disk, third, block)?,
        is_found(alloc, disk, fourth, block)?,
    ])
}

/// What `open` finds of the block on this disk, by what stands after a crash.
fn expect_finds<A: Abort>(
    rt: &A,
    alloc: Global,
    disk: &MemDisk,
    block: &[Entry],
    found: [bool; 4],
    cut: &str,
) -> Result<(), Fail> {
    let finds = finds(alloc, disk, block)?;
    assert_eq!(rt; finds, found, "{cut} {}", disk.calls().len());
    Ok(())
}

/// Looks behind the first append of the block, of which this call fails.
fn look_behind_fail<A: Abort>(
    rt: &A,
    alloc: Global,
    block: &[Entry],
    opening: usize,
    cut: Cut,
) -> Result<(), Fail> {
    let (call, part, found) = cut;
    let last = opening.wrapping_add(call);
    let (answered, disk) = add_all(alloc, block, block.len(), last, part)?;
    assert_eq!(rt; answered, 0);
    assert_eq!(rt; disk.calls().len(), last);
    expect_finds(rt, alloc, &disk, block, found, "failed:")
}

/// Looks behind the first append of the block, of whose calls the program makes these.
fn look_behind_stop<A: Abort>(
    rt: &A,
    alloc: Global,
    block: &[Entry],
    calls: &[Call],
    found: [bool; 4],
) -> Result<(), Fail> {
    let disk = behind(alloc, calls)?;
    expect_finds(rt, alloc, &disk, block, found, "behind")
}

/// Looks behind each cut of the first append, of so many entries as one block.
fn cut_short<A: Abort>(rt: &A, alloc: Global, count: usize) -> Result<(), Fail> {
    let block = alike(alloc, count)?;
    let (_, whole) = add_all(alloc, &block, count, 0, 0)?;
    look_behind_fails(rt, alloc, &block, whole.calls())?;
    look_behind_stops(rt, alloc, &block, whole.calls())
}

/// Looks behind each first append of the block of which a call fails, where the whole one makes these.
fn look_behind_fails<A: Abort>(
    rt: &A,
    alloc: Global,
    block: &[Entry],
    whole: &[Call],
) -> Result<(), Fail> {
    for cut in &FAILS {
        look_behind_fail(rt, alloc, block, whole.len().wrapping_sub(4), *cut)?;
    }
    Ok(())
}

/// Looks behind each first append of the block in which the program stops, where the whole one makes these calls.
fn look_behind_stops<A: Abort>(
    rt: &A,
    alloc: Global,
    block: &[Entry],
    whole: &[Call],
) -> Result<(), Fail> {
    let opening = whole.len().wrapping_sub(4);
    for (call, _, found) in &STOPS {
        let calls = whole.get(..opening.wrapping_add(*call)).ok_or("calls")?;
        look_behind_stop(rt, alloc, block, calls, *found)?;
    }
    Ok(())
}

#[test]
fn first_append_cut_short(rt: HostRuntime) -> Result<(), Fail> {
    for count in [1, 5] {
        cut_short(&rt, rt.alloc(), count)?;
    }
    Ok(())
}

/// A disk on which nothing is synced from the first gate on, and a read gives the journal of one entry.
fn half_synced(alloc: Global) -> Result<MemDisk, Fail> {
    let mut disk = MemDisk::new(alloc, FRESH)?;
    let file = ONE_ENTRY.as_slice();
    disk.write_at(8, &file[8..])?;
    Ok(disk)
}

/// What a crash leaves of it, by what stands there then.
fn left(alloc: Global, fill: Option<u8>) -> Result<Vec<u8>, AllocError> {
    let mut bytes = Vec::from_slice(alloc, ONE_ENTRY)?;
    if let Some(byte) = fill {
        bytes.truncate(8);
        bytes.resize(ONE_ENTRY.len(), byte)?;
    }
    Ok(bytes)
}

/// The disk on which a journal could not be opened, since this call failed, the write of the half synced one among
/// them.
fn unopened(alloc: Global, call: usize) -> Result<MemDisk, Fail> {
    let mut disk = half_synced(alloc)?;
    disk.fail_at((call as u64).wrapping_sub(1), 0);
    match Journal::open(alloc, disk) {
        Err((JournalFault::Device, disk)) => Ok(disk),
        _ => Err(Fail::from("not 41")),
    }
}

/// What a crash leaves of the disk, where this stands in place of what isn't synced: the journal of one entry, with
/// that in it.
fn expect_left<A: Abort>(
    rt: &A,
    alloc: Global,
    disk: &MemDisk,
    fill: Option<u8>,
    unsynced: Option<u8>,
) -> Result<(), Fail> {
    let crashed = disk.crash(fill)?;
    let expected = left(alloc, unsynced)?;
    assert_eq!(rt;
        crashed.bytes(),
        expected.as_slice(),
        "behind {}",
        disk.calls().len()
    );
    Ok(())
}

/// What a crash leaves of it is the journal of one entry, but for what isn't synced yet behind the first call.
fn is_left<A: Abort>(rt: &A, alloc: Global, disk: &MemDisk, call: usize) -> Result<(), Fail> {
    for fill in FILLS {
        let unsynced = if call == 2 { fill } else { None };
        expect_left(rt, alloc, disk, fill, unsynced)?;
    }
    Ok(())
}

/// Looks at the disk on which a journal could not be opened, since this call failed.
fn look_behind_opening<A: Abort>(rt: &A, alloc: Global, call: usize) -> Result<(), Fail> {
    let disk = unopened(alloc, call)?;
    assert_eq!(rt; disk.calls().len(), call);
    assert_eq!(rt; disk.bytes(), ONE_ENTRY.as_slice());
    is_left(rt, alloc, &disk, call)
}

#[test]
fn opening_fails(rt: HostRuntime) -> Result<(), Fail> {
    let mut disk = half_synced(rt.alloc())?;
    assert!(rt; entries(rt.alloc(), &mut disk).is_ok());
    let last = disk.calls().len();
    assert!(rt; last >= 3);
    for call in 2..=last {
        look_behind_opening(&rt, rt.alloc(), call)?;
    }
    Ok(())
}

/// Twenty blocks of two entries each.
const BLOCKS: usize = 20;

/// Whether a crash leaves a beginning of whole blocks with all entries that were answered, whatever it fills: at most
/// one block more.
fn are_kept(alloc: Global, disk: &MemDisk, answered: usize, all: &[Entry]) -> Result<bool, Fail> {
    for fill in FILLS {
        let found = found(alloc, disk, fill, all)?;
        if found != answered && found != answered.wrapping_add(2) {
            return Ok(false);
        }
    }
    Ok(true)
}

/// So many blocks are answered where this call fails, whatever it puts of its bytes, and a crash keeps them.
fn look_behind_call<A: Abort>(
    rt: &A,
    alloc: Global,
    all: &[Entry],
    call: usize,
    before: usize,
) -> Result<(), Fail> {
    for part in &[0, 1, 8] {
        let kept = is_kept_behind(alloc, all, call, *part, before)?;
        assert!(rt; kept, "{call} failed");
    }
    Ok(())
}

/// Whether so many entries are answered where this call fails behind so many bytes, and a crash keeps them.
fn is_kept_behind(
    alloc: Global,
    all: &[Entry],
    call: usize,
    part: usize,
    before: usize,
) -> Result<bool, Fail> {
    let (answered, disk) = add_all(alloc, all, 2, call, part)?;
    if answered != before || disk.calls().len() != call {
        return Ok(false);
    }
    are_kept(alloc, &disk, answered, all)
}

/// A crash behind these calls keeps the entries that were answered by then.
fn look_behind_calls<A: Abort>(
    rt: &A,
    alloc: Global,
    all: &[Entry],
    calls: &[Call],
    answered: usize,
) -> Result<(), Fail> {
    let disk = behind(alloc, calls)?;
    let kept = are_kept(alloc, &disk, answered, all)?;
    assert!(rt; kept, "behind {}", calls.len());
    Ok(())
}

/// The entries of all blocks, each with bytes of its own.
fn of_all_blocks(alloc: Global) -> Result<Vec<Entry>, AllocError> {
    let mut all = Vec::new(alloc);
    for number in 0..2 * BLOCKS as u8 {
        all.push(Entry::new(1 + number % 8, &[number]))?;
    }
    Ok(all)
}

#[test]
fn answered_blocks_are_kept(rt: HostRuntime) -> Result<(), Fail> {
    let all = of_all_blocks(rt.alloc())?;
    let (answered, whole) = add_all(rt.alloc(), &all, 2, 0, 0)?;
    assert_eq!(rt; answered, 2 * BLOCKS);
    look_behind_each(&rt, rt.alloc(), &all, whole.calls())
}

/// Looks behind each of the calls that add all blocks: it fails, or the program stops behind it.
fn look_behind_each<A: Abort>(
    rt: &A,
    alloc: Global,
    all: &[Entry],
    whole: &[Call],
) -> Result<(), Fail> {
    let opening = whole.len().wrapping_sub(4 * BLOCKS);
    for call in 1..=whole.len() {
        let before = 2 * ((call - 1).saturating_sub(opening) / 4);
        look_behind_call(rt, alloc, all, call, before)?;
        let answered = 2 * (call.saturating_sub(opening) / 4);
        look_behind_calls(rt, alloc, all, &whole[..call], answered)?;
    }
    Ok(())
}

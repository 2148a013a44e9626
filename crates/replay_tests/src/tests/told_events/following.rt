//! What is told of a journal in memory that others add to between two looks: each block as it comes, up to the last
//! look, and what ends it before.

use crate::tests::told_events::{ROWS, Row, SALE, SALE_TOLD, Said, words_after};
use disks::{DiskFailed, JournalDisk};
use events::{Waits, follow_events, refuse};
use std::alloc::Global;
use std::test::Fail;

/// A file in memory that others change between two looks. Nothing is told of it: what it does is seen by tests alone.
#[derive(Drop)]
struct Growing {
    bytes: Vec<u8>,
    failures: u64,
}

impl JournalDisk for Growing {
    ghost use Rattle.disks.specs.Unknown.{nothing};

    ghost honest = { λ disk. ⊥ };

    ghost tells = { λ disk. nothing };

    ghost failed = { λ disk. disk.failures };

    fn read(&mut self, at: u64, buf: &mut [u8]) -> Result<usize, DiskFailed> {
        let from = (at as usize).min(self.bytes.len());
        let count = (self.bytes.len() - from).min(buf.len());
        buf[..count].copy_from_slice(&self.bytes[from..from + count]);
        Ok(count)
    }

    fn write_at(&mut self, _at: u64, _bytes: &[u8]) -> Result<(), DiskFailed> {
        self.failures = self.failures.saturating_add(1);
        Err(DiskFailed)
    }

    fn sync(&mut self) -> Result<(), DiskFailed> {
        Ok(())
    }

    fn failures(&self) -> u64 {
        self.failures
    }

    ghost counts_now = { λ disk t c honest le now. absurd honest };

    ghost only_now = { λ disk c honest left. absurd honest };

    ghost may_stay = { λ disk honest. absurd honest };
}

/// The files that there are at the looks behind the first one, the last one of them first.
#[derive(Drop)]
struct Writer {
    files: Vec<Vec<u8>>,
}

impl Waits<Growing> for Writer {
    fn wait(&mut self, disk: &mut Growing) -> bool {
        if let Some(file) = self.files.pop() {
            disk.bytes = file;
        }
        !self.files.is_empty()
    }
}

/// A journal whose file is as these say at its looks, one after another, told but for so many first commands.
fn follow(alloc: Global, looks: &[&[u8]], after: u64) -> Result<Said, Fail> {
    let mut files = Vec::new(alloc);
    for look in looks.iter().rev() {
        files.push(Vec::from_slice(alloc, look)?)?;
    }
    let bytes = files.pop().ok_or("no look")?;
    let mut disk = Growing { bytes, failures: 0 };
    let mut writer = Writer { files };
    let words = words_after(alloc, after)?;
    let mut err = Vec::new(alloc);
    let (told, out) = follow_events(
        alloc,
        &words.limits,
        words.after,
        &mut disk,
        &mut writer,
        Vec::new(alloc),
    );
    let status = match told {
        Ok(()) => 0,
        Err(fault) => refuse(fault, &mut err),
    };
    Ok(Said { status, out, err })
}

/// The sale, and behind it these bytes.
fn sale_and(alloc: Global, parts: &[&[u8]]) -> Result<Vec<u8>, Fail> {
    let mut journal = Vec::from_slice(alloc, SALE)?;
    for part in parts {
        journal.extend_from_slice(part)?;
    }
    Ok(journal)
}

/// The block of a row, told at the look at which its gate is open.
fn is_followed(alloc: Global, row: &Row) -> Result<bool, Fail> {
    let all = format!(in alloc; "{SALE_TOLD}{}", row.told)?;
    let behind = row.block.get(1..).ok_or("no block")?;
    let first = sale_and(alloc, &[b"\0"])?;
    let written = sale_and(alloc, &[b"\0", behind, b"\0"])?;
    let opened = sale_and(alloc, &[row.block, b"\0"])?;
    let looks: [&[u8]; 5] = [&first, &first, &written, &opened, &opened];
    Ok(
        follow(alloc, &looks, 0)?.is(0, all.as_str(), "")
            && follow(alloc, &looks, 1)?.is(0, row.told, "")
            && follow(alloc, &looks[..3], 0)?.is(0, SALE_TOLD, ""),
    )
}

#[test]
fn each_row_is_followed(rt: HostRuntime) -> Result<(), Fail> {
    for row in &ROWS {
        let is_followed = is_followed(rt.alloc(), row)?;
        assert!(rt; is_followed, "{}", row.name);
    }
    Ok(())
}

/// A journal that is cut behind what was told, one whose gate goes on with no block, and one with another header.
#[test]
fn what_was_told_stands(rt: HostRuntime) -> Result<(), Fail> {
    let alloc = rt.alloc();
    let first = sale_and(alloc, &[b"\0"])?;
    let cut = sale_and(alloc, &[])?;
    let broken = sale_and(alloc, &[b"\x01\x00\x00\x00\x02\x09\x09\x00"])?;
    let mut other = sale_and(alloc, &[ROWS[0].block, b"\0"])?;
    *other.get_mut(15).ok_or("no header")? = 9;
    assert!(rt; ends(alloc, &[&first, &cut], SALE_TOLD, DAMAGE)?);
    assert!(rt; ends(alloc, &[&first, &first, &broken], SALE_TOLD, DAMAGE)?);
    assert!(rt; ends(alloc, &[&first, &other, &other], SALE_TOLD, NO_JOURNAL)?);
    assert!(rt; ends(alloc, &[b"VNJL"], "", NO_JOURNAL)?);
    Ok(())
}

const DAMAGE: &str = "venue-events: journal fault 42 at 150\n";

const NO_JOURNAL: &str = "venue-events: journal fault 43\n";

/// Whether these looks at a journal are told so, and end with status 1 and this line.
fn ends(alloc: Global, looks: &[&[u8]], told: &str, line: &str) -> Result<bool, Fail> {
    Ok(follow(alloc, looks, 0)?.is(1, told, line))
}

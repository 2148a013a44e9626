//! Doubles in memory, as tests ask them: what a disk was refused, and the file that a folder has.
use disks::{MemDisk, MemFolder, Script};
use journal::open_journal;
use std::test::Fail;

/// A file whose calls all do what they are asked.
const GOOD: Script = Script {
    most: u32::MAX,
    interrupts: false,
    good: u64::MAX,
};

#[test]
fn nothing_was_refused(rt: HostRuntime) -> Result<(), Fail> {
    let disk = MemDisk::new(rt.alloc(), b"AB")?;
    assert_eq!(rt; disk.refused(), 0);
    Ok(())
}

#[test]
fn a_new_journal_gets_its_name(rt: HostRuntime) -> Result<(), Fail> {
    let mut folder = MemFolder::new(rt.alloc(), None, GOOD, false);
    assert!(rt; folder.named().is_none());
    let disk = open_journal(&mut folder)?;
    drop(disk);
    assert_eq!(rt; folder.named().map(|bytes| bytes.len()), Some(17));
    Ok(())
}

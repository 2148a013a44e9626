//! A snapshot that is added to a journal: what a replay finds where the program stops behind one of the calls of the
//! disk, and how much of the journal a replay does again.

mod told_events;

use book::{Book, BookLogic, RestoreFault, Restored};
use disks::{Call, DiskFailed, JournalDisk, MemDisk, MemFile, MemFolder, Script};
use journal::snapshots;
use replay::{Answer, Recovered, replay, snapshot_file};
use std::alloc::Global;
use std::test::Fail;
use venue_model::{Limits, Order};

/// A journal of version 3 in which C1 buys 100 at 50: its gate stands at 150, and behind a snapshot at 285.
const ONE_ORDER: &[u8; 151] = b"VNJL\x00\x00\x00\x03\x00\x00\x00\x00\x00\x00\x00\x00\
    \x01\x00\x00\x00\x81\x01\x01\x00\x7d\
    8=FIX.4.4\x019=102\x0135=D\x0149=C1\x0156=VENUE\x0134=2\x0152=20250102-09:30:00\x01\
    11=1\x0155=ABC\x0154=1\x0160=20250102-09:30:00\x0138=100\x0140=2\x0144=50\x0110=098\x01\
    \x00";

/// The block of a sell of C2, 30 at 50, and the closed gate behind it.
const SELL: &[u8; 134] = b"\x01\x00\x00\x00\x80\x01\x02\x00\x7c\
    8=FIX.4.4\x019=101\x0135=D\x0149=C2\x0156=VENUE\x0134=2\x0152=20250102-09:30:00\x01\
    11=1\x0155=ABC\x0154=2\x0160=20250102-09:30:00\x0138=30\x0140=2\x0144=50\x0110=053\x01\
    \x00";

const GATE: u64 = 150;

const NEXT_GATE: u64 = 285;

/// What stands after a crash where bytes weren't synced: those that were written, or this one.
const FILLS: [Option<u8>; 4] = [None, Some(0x00), Some(0x01), Some(0xff)];

/// Behind which of the four calls of the disk the program stops, and whether a replay then begins at the snapshot, by
/// what stands after a crash: behind the third one the gate's byte isn't synced, and is open where it is `01`.
const STOPS: [(usize, [bool; 4]); 4] = [
    (1, [false; 4]),
    (2, [false; 4]),
    (3, [true, false, true, false]),
    (4, [true; 4]),
];

/// A file whose calls all do what they are asked.
const GOOD: Script = Script {
    most: u32::MAX,
    interrupts: false,
    good: u64::MAX,
};

/// One byte a call, and each second call is interrupted.
const RELUCTANT: Script = Script {
    most: 1,
    interrupts: true,
    ..GOOD
};

/// The table of the symbol ABC.
fn abc(alloc: Global) -> Result<Limits, Fail> {
    let names = [String::from_str(alloc, "ABC")?];
    Ok(Limits::new(alloc, &names)?)
}

/// The file of the journal with one order, behind the snapshot that was added to it by such calls.
fn added(alloc: Global, script: Script) -> Result<MemFile, Fail> {
    let limits = abc(alloc)?;
    let journal = Vec::from_slice(alloc, ONE_ORDER)?;
    let mut folder = MemFolder::new(alloc, Some(journal), script, false);
    let (answer, disk) = snapshot_file(alloc, &limits, &mut folder);
    if answer != Ok(Answer::SnapshotAt(GATE)) {
        return Err(Fail::from("no snapshot"));
    }
    match disk {
        Some(disk) => Ok(disk.file),
        None => Err(Fail::from("no disk")),
    }
}

/// The disk of the journal with one order behind these calls.
fn behind(alloc: Global, calls: &[Call]) -> Result<MemDisk, Fail> {
    let mut disk = MemDisk::new(alloc, ONE_ORDER)?;
    for call in calls {
        make(&mut disk, call)?;
    }
    Ok(disk)
}

/// Makes a call of the disk again, other than a read.
fn make(disk: &mut MemDisk, call: &Call) -> Result<(), DiskFailed> {
    match call {
        Call::Read { .. } => Ok(()),
        Call::Write { at, bytes, .. } => disk.write_at(*at, bytes),
        Call::Sync { .. } => disk.sync(),
    }
}

/// Whether it is the one order.
fn is_first(order: &Order) -> bool {
    order.id == 1
        && order.client == 1
        && order.price == 50
        && order.total == 100
        && order.cum == 0
        && order.notional == 0
        && order.stamp == 0
}

/// Replays what is left of the journal with one order, and says whether that began behind the snapshot.
fn begins_at_snapshot(alloc: Global, disk: &mut MemDisk) -> Result<bool, Fail> {
    let limits = abc(alloc)?;
    let found = replay(alloc, disk, &limits)?;
    if !is_of_one_order(&found) || !rests_alone(&found.book) {
        return Err(Fail::from("another book"));
    }
    Ok(found.told == 1)
}

/// Whether it is behind one command and one output.
fn is_of_one_order(found: &Recovered) -> bool {
    let outputs = found.told.wrapping_add(found.outputs.len() as u64);
    found.commands == 1 && outputs == 1
}

/// Whether the one order rests in a book, and no other.
fn rests_alone(book: &Book) -> bool {
    let Some(order) = book.after(None) else {
        return false;
    };
    book.resting() == 1 && is_first(&order)
}

/// Whether what a crash now leaves begins at the snapshot so, by what stands there then.
fn leaves(alloc: Global, disk: &MemDisk, begins: &[bool; 4]) -> Result<bool, Fail> {
    for k in 0..4 {
        if leaves_at_snapshot(alloc, disk, FILLS[k])? != begins[k] {
            return Ok(false);
        }
    }
    Ok(true)
}

fn leaves_at_snapshot(alloc: Global, disk: &MemDisk, fill: Option<u8>) -> Result<bool, Fail> {
    let mut left = disk.crash(fill)?;
    begins_at_snapshot(alloc, &mut left)
}

#[test]
fn stops_in_a_snapshot(rt: HostRuntime) -> Result<(), Fail> {
    let file = added(rt.alloc(), GOOD)?;
    let calls = file.disk().calls();
    let opening = calls.len().wrapping_sub(4);
    for (call, begins) in &STOPS {
        let first = calls.get(..opening.wrapping_add(*call)).ok_or("calls")?;
        assert!(rt; leaves_behind(rt.alloc(), first, begins)?);
    }
    Ok(())
}

/// Whether a crash behind these calls leaves what begins at the snapshot so.
fn leaves_behind(alloc: Global, calls: &[Call], begins: &[bool; 4]) -> Result<bool, Fail> {
    let disk = behind(alloc, calls)?;
    leaves(alloc, &disk, begins)
}

#[test]
fn added_bit_by_bit(rt: HostRuntime) -> Result<(), Fail> {
    let file = added(rt.alloc(), RELUCTANT)?;
    let at_once = added(rt.alloc(), GOOD)?;
    assert_eq!(rt; file.disk().bytes(), at_once.disk().bytes());
    Ok(())
}

/// How many reads began before this offset.
fn reads_before(disk: &MemDisk, end: u64) -> usize {
    let mut count = 0_usize;
    for call in disk.calls() {
        if let Call::Read { at, .. } = call {
            if *at < end {
                count = count.wrapping_add(1);
            }
        }
    }
    count
}

/// The journal with one order, the snapshot, and another order behind it.
fn with_another(alloc: Global) -> Result<Vec<u8>, Fail> {
    let file = added(alloc, GOOD)?;
    let mut bytes = Vec::from_slice(alloc, file.disk().bytes())?;
    bytes.truncate(NEXT_GATE as usize);
    bytes.extend_from_slice(SELL)?;
    Ok(bytes)
}

#[test]
fn one_order_is_done_again(rt: HostRuntime) -> Result<(), Fail> {
    let bytes = with_another(rt.alloc())?;
    let done = reads_of_replay(rt.alloc(), &bytes)?;
    let once = reads_of_look(rt.alloc(), &bytes)?;
    assert_eq!(rt; done, once);
    Ok(())
}

/// How many reads a replay makes before the snapshot's end: it does one of two commands again, which has three outputs.
fn reads_of_replay(alloc: Global, bytes: &[u8]) -> Result<usize, Fail> {
    let limits = abc(alloc)?;
    let mut disk = MemDisk::new(alloc, bytes)?;
    let found = replay(alloc, &mut disk, &limits)?;
    if found.commands != 2 || found.told != 1 || found.outputs.len() != 3 {
        return Err(Fail::from("another replay"));
    }
    Ok(reads_before(&disk, NEXT_GATE))
}

/// How many reads before the snapshot's end a look for snapshots makes, which finds one.
fn reads_of_look(alloc: Global, bytes: &[u8]) -> Result<usize, Fail> {
    let mut disk = MemDisk::new(alloc, bytes)?;
    let found = snapshots(alloc, &mut disk)?;
    if found.len() != 1 {
        return Err(Fail::from("not one snapshot"));
    }
    Ok(reads_before(&disk, NEXT_GATE))
}

/// The logic of the venue that trades ABC alone.
fn abc_logic(alloc: Global) -> Result<BookLogic, Fail> {
    let limits = abc(alloc)?;
    Ok(BookLogic::of(&limits))
}

/// Whether there is a snapshot without orders behind so many commands.
fn is_snapshot(alloc: Global, commands: u64) -> Result<bool, Fail> {
    let logic = abc_logic(alloc)?;
    let mut bytes = [0_u8; 82];
    bytes[..8].copy_from_slice(&commands.to_be_bytes());
    match Restored::of(alloc, &bytes, logic) {
        Ok(_) => Ok(true),
        Err(RestoreFault::BadSnapshot) => Ok(false),
        Err(RestoreFault::Memory) => Err(Fail::from("no memory")),
    }
}

#[test]
fn most_commands(rt: HostRuntime) -> Result<(), Fail> {
    assert_eq!(rt; is_snapshot(rt.alloc(), 1 << 48)?, true);
    assert_eq!(rt; is_snapshot(rt.alloc(), (1 << 48) + 1)?, false);
    Ok(())
}

//! Four members trade over a venue that listens: on a whole day, on days that end at each of the disk's calls, and on
//! the day behind one of those.

mod clients;
mod cut_off;
mod failing_sync;
mod judging;
mod meeting;
mod messages;
mod over_tcp;
mod slow_disk;
mod trading_days;
mod usher;

use clients::{Member, first_day, second_day};
use disks::{Call, JournalDisk, MemDisk};
use journal::format;
use judging::Ledger;
use slow_disk::SlowDisk;
use std::alloc::Global;
use std::process::Abort;
use std::rt::Clock;
use std::test::Fail;
use std::thread::Threads;
use trading_days::{Day, play};
use usher::Plan;
use workers::Parks;

/// How many blocks a day has at least.
const BLOCKS: u64 = 20;

/// How many calls add a block: it is written and synced, and then its gate.
const CALLS: u64 = 4;

/// How many calls open the journal.
const OPENING: u64 = 3;

/// How many days are played at most.
const MOST_DAYS: u64 = 500;

/// How many bytes a write that fails still puts, by turns.
const PARTS: [usize; 3] = [0, 1, 30];

/// What stands after a crash where bytes weren't synced: those that were written, or this one.
const FILLS: [Option<u8>; 2] = [None, Some(0xAA)];

/// A disk with an empty journal, and no calls yet.
fn fresh(alloc: Global) -> Result<MemDisk, Fail> {
    let mut disk = MemDisk::new(alloc, b"")?;
    format(&mut disk, 3)?;
    Ok(disk.crash(None)?)
}

/// How many calls there were before the first write: those that open the journal.
fn opening(disk: &MemDisk) -> u64 {
    let mut count = 0_u64;
    for call in disk.calls() {
        if let Call::Write { .. } = call {
            break;
        }
        count = count.wrapping_add(1);
    }
    count
}

/// The first day, of which this call of the disk takes long and fails, or none where it is 0.
fn first_day_until<R: Threads + Clock + Parks + AllocGlobal + Sync>(
    rt: &R,
    members: &[Member; 4],
    call: u64,
) -> Result<Day, Fail> {
    let mut disk = fresh(rt.alloc())?;
    disk.fail_at(call, PARTS[(call % 3) as usize]);
    let plan = Plan::of(members, 0, call == 0);
    play(rt, SlowDisk::new(rt, disk, call), members, plan)
}

/// All that the members sent on the day stands in the journal, in the order of each, and each was told all that it was
/// to be told.
fn all_is_told<A: Abort>(
    rt: &A,
    ledger: &Ledger,
    members: &[Member; 4],
    day: &Day,
) -> Result<(), Fail> {
    assert_eq!(rt; (day.status, day.ports.len()), (0, 4));
    for (member, port) in members.iter().zip(day.ports.as_slice()) {
        let number = member.number;
        let orders = ledger.orders_of(number)?;
        assert!(rt; orders.as_slice() == member.orders.as_slice(), "C{number}");
        let told = ledger.told(number, port.gone())?;
        assert_eq!(rt; told, ledger.outputs_to(number), "C{number}");
    }
    Ok(())
}

/// Of ABC the third member sells 25, one by one, and the fourth 2, and the others want more. In the afternoon each of
/// these two is bought from once.
#[test]
fn four_members_trade(rt: HostRuntime) -> Result<(), Fail> {
    let members = first_day(rt.alloc())?;
    let day = first_day_until(&rt, &members, 0)?;
    let ledger = Ledger::of(rt.alloc(), &day.disk, None)?;
    all_is_told(&rt, &ledger, &members, &day)?;
    let buyers = ledger.fills_to(1).wrapping_add(ledger.fills_to(2));
    assert_eq!(rt;
        (buyers, ledger.fills_to(3), ledger.fills_to(4)),
        (29, 26, 3)
    );
    Ok(())
}

/// What a crash leaves behind the day that failed at this call has all that brought about what members were told, and
/// of each the first of what it sent.
fn told_is_kept<A: Abort>(
    rt: &A,
    alloc: Global,
    members: &[Member; 4],
    day: &Day,
    call: u64,
) -> Result<(), Fail> {
    for fill in FILLS {
        let ledger = Ledger::of(alloc, &day.disk, fill)?;
        for (member, port) in members.iter().zip(day.ports.as_slice()) {
            let number = member.number;
            ledger.told(number, port.gone())?;
            let orders = ledger.orders_of(number)?;
            assert!(rt;
                member.orders.starts_with(&orders),
                "C{number} at call {call}"
            );
        }
    }
    Ok(())
}

/// Of each block this one of its calls fails, from the first block on, until a day has no such block; a day that came
/// to fewer than twenty blocks is played again. `rt try` wants some minutes for it (`--seconds 300`): with its checks
/// the room of each journal that is opened is made slowly.
fn crash_in_each_block<R: Threads + Clock + Parks + AllocGlobal + Sync + Abort>(
    rt: &R,
    call: u64,
) -> Result<(), Fail> {
    let members = first_day(rt.alloc())?;
    let mut last = OPENING.wrapping_add(call);
    for _ in 0..MOST_DAYS {
        let day = first_day_until(rt, &members, last)?;
        assert_eq!(rt; (opening(&day.disk), day.ports.len()), (OPENING, 4));
        told_is_kept(rt, rt.alloc(), &members, &day, last)?;
        if day.disk.failures() != 0 {
            assert_eq!(rt; (day.status, day.disk.calls().len() as u64), (2, last));
            last = last.wrapping_add(CALLS);
            continue;
        }
        assert_eq!(rt; day.status, 0);
        if OPENING + CALLS * BLOCKS < last {
            return Ok(());
        }
    }
    Err(Fail::new("too few blocks"))
}

#[test]
fn crash_at_each_block(rt: HostRuntime) -> Result<(), Fail> {
    crash_in_each_block(&rt, 1)
}

#[test]
fn crash_at_the_sync_of_each_block(rt: HostRuntime) -> Result<(), Fail> {
    crash_in_each_block(&rt, 2)
}

#[test]
fn crash_at_each_gate(rt: HostRuntime) -> Result<(), Fail> {
    crash_in_each_block(&rt, 3)
}

#[test]
fn crash_at_the_sync_of_each_gate(rt: HostRuntime) -> Result<(), Fail> {
    crash_in_each_block(&rt, 4)
}

/// The day behind a first one of which this call fails, over what a crash leaves of it: sequences, ExecIDs and the book
/// go on.
fn second_day_behind<R: Threads + Clock + Parks + AllocGlobal + Sync + Abort>(
    rt: &R,
    call: u64,
    fill: Option<u8>,
) -> Result<Ledger, Fail> {
    let alloc = rt.alloc();
    let first = first_day_until(rt, &first_day(alloc)?, call)?;
    assert_eq!(rt; first.disk.failures(), u64::from(call != 0));
    let before = Ledger::of(alloc, &first.disk, fill)?;
    let members = second_day(alloc)?;
    let plan = Plan::of(&members, before.commands(), true);
    let disk = SlowDisk::new(rt, first.disk.crash(fill)?, 0);
    let day = play(rt, disk, &members, plan)?;
    let ledger = Ledger::of(alloc, &day.disk, None)?.behind(&before);
    all_is_told(rt, &ledger, &members, &day)?;
    Ok(ledger)
}

/// The first day ends at the seventh block, whose gate isn't synced; at the gate of the tenth one; or whole.
#[test]
fn the_day_behind_a_crash(rt: HostRuntime) -> Result<(), Fail> {
    for (call, fill) in [(28, None), (39, Some(0xAA))] {
        second_day_behind(&rt, OPENING + call, fill)?;
    }
    let ledger = second_day_behind(&rt, 0, Some(0xAA))?;
    assert!(rt; ledger.has_old_fill());
    Ok(())
}

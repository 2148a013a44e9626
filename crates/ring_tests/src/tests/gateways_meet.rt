//! Two gateways and the stages, each on a thread of its own: each order comes through once and whole, and each gateway
//! takes the reports of its own orders, in its order and word for word, and passes over those of the other. Then they
//! meet, and the rings are closed behind them.
ghost use Rattle.std.specs.Prelude.{◌≡◌, ◌≤◌};
ghost use Rattle.ring_words.specs.At.{IsAt};
ghost use Rattle.stages.specs.Crews.{AreAt};
ghost use Rattle.small_venue.specs.Seats.{StaysSpent};
ghost use Rattle.std.specs.Thread.{IsSync};

use super::staff::{Staff, work_all};
use super::trading::{Day, Given, Seat, Two, trade_both};
use ring_words::Summary;
use small_venue::crew::open_venue;
use small_venue::member::{next_two, put_back};
use small_venue::orders::Good;
use small_venue::venue::TestRings;
use std::alloc::Global;
use std::rt::Clock;
use std::sync::atomic::{AtomicBool, Ordering};
use std::test::Fail;
use std::thread::{Threads, join};

/// Lets both trade, each on a thread of its own. Then the day is over. Gives the seats back, with what each was given.
fn trade_two<R: Threads + Clock + Sync, const N: usize, const M: usize, const G: usize>(
    rt: &R,
    rings: &TestRings<N, M, G>,
    seats: (Seat, Seat),
    day: Day,
    over: &AtomicBool,
) -> Two
    requires { (IsAt rings.now seats.0) × (IsAt rings.now seats.1) }
    ensures { StaysSpent seats.0 result.0.0 × StaysSpent seats.1 result.1.0 }
{
    let back = trade_both(rt, rings, seats, *b"12", day);
    over.store(true, Ordering::SeqCst);
    back
}

/// Lets both trade beside the stages, each on a thread of its own.
fn run<R: Threads + Clock + Sync, const N: usize, const M: usize, const G: usize>(
    rt: &R,
    rings: &TestRings<N, M, G>,
    staff: Staff,
    seats: (Seat, Seat),
    day: Day,
) -> (Staff, Two)
    requires staff { AreAt rings.now staff }
    requires seats { (IsAt rings.now seats.0) × (IsAt rings.now seats.1) }
    ensures staff { AreAt rings.now result.0 }
    ensures seats { StaysSpent seats.0 result.1.0.0 × StaysSpent seats.1 result.1.1.0 }
{
    let flag = AtomicBool::new(false);
    let over = &flag;
    join(
        rt,
        move || -> Staff
            requires { IsSync R.row × (AreAt rings.now staff) }
            ensures { AreAt rings.entry.now result }
        { work_all(rt, rings, staff, over) },
        move || -> Two
            requires { IsSync R.row × (IsAt rings.now seats.0) × (IsAt rings.now seats.1) }
            ensures { StaysSpent seats.0 result.0.0 × StaysSpent seats.1 result.1.0 }
        { trade_two(rt, rings, seats, day, over) },
    )
}

/// Lets two gateways at new rings trade. Then they meet, and the rings are closed. Answers what each gateway was given,
/// and what had been done.
fn close_behind<R: Threads + Clock + Sync, const N: usize, const M: usize, const G: usize>(
    rt: &R,
    alloc: Global,
    day: Day,
) -> Result<([Given; 2], Summary), Fail>
    requires { (1 ≤ G) × (G ≤ 8) }
{
    let (rings, stages, mut gateways) = open_venue::<N, M, G>(alloc)?;
    let Some((one, other)) = next_two(&rings, &mut gateways) else {
        return Err(Fail::from("no gateways"));
    };
    let (one, other) = (one.seat, other.seat);
    let (staff, back) = run(rt, &rings, Box::into_inner(stages), (one, other), day);
    let ((mut one, to_one), (mut other, to_other)) = back;
    rings.meet(&mut one, &mut other);
    put_back(&rings, &mut gateways, one)?;
    put_back(&rings, &mut gateways, other)?;
    let (summary, _) = staff.close(rings, gateways);
    Ok(([to_one, to_other], summary))
}

/// Each orders 20 times, immediately or cancelled.
#[test]
fn gateways_meet(rt: HostRuntime) -> Result<(), Fail> {
    let day = Day {
        each: 20,
        good: Good::Immediately,
        outputs: 80,
    };
    let each = Given {
        own: 40,
        passed: 40,
    };
    let done = Summary {
        commands: 40,
        outputs: 80,
    };
    assert_eq!(rt;
        close_behind::<HostRuntime, 4, 2, 2>(&rt, rt.alloc(), day)?,
        ([each; 2], done)
    );
    Ok(())
}

/// Each buys once for the day.
#[test]
fn two_day_orders(rt: HostRuntime) -> Result<(), Fail> {
    let day = Day {
        each: 1,
        good: Good::ForTheDay,
        outputs: 2,
    };
    let each = Given { own: 1, passed: 1 };
    let done = Summary {
        commands: 2,
        outputs: 2,
    };
    assert_eq!(rt;
        close_behind::<HostRuntime, 4, 2, 2>(&rt, rt.alloc(), day)?,
        ([each; 2], done)
    );
    Ok(())
}

//! Four gateways and the stages at small rings, each gateway on a thread of its own: every order passes full rings, and
//! each gateway takes its own reports, word for word in their order, and passes over those of the others.
ghost use Rattle.std.specs.Prelude.{◌≡◌, vec_len, IfSome, OnOk};
ghost use Rattle.ring_words.specs.At.{IsAt};
ghost use Rattle.stages.specs.Crews.{AreAt};
ghost use Rattle.small_venue.specs.Seats.{IsSpent, ComeBackSpent, StaysSpent};
ghost use Rattle.std.specs.Thread.{IsSync};

use super::staff::{Staff, Staffing, work_or_poll};
use super::trading::{Day, Given, Seat, Two, trade_both};
use ring_words::Summary;
use small_venue::crew::open_venue;
use small_venue::member::{next_two, put_back};
use small_venue::orders::Good;
use small_venue::venue::TestRings;
use std::alloc::{AllocError, Global};
use std::rt::Clock;
use std::sync::atomic::{AtomicBool, Ordering};
use std::test::Fail;
use std::thread::{Threads, join};

/// What each gateway orders: 1,000 times, with two reports each to one of them.
const DAY: Day = Day {
    each: 1_000,
    good: Good::Immediately,
    outputs: 8_000,
};

/// What each is given: both reports of each of its orders, and those of the others pass it by.
const EACH: Given = Given {
    own: 2_000,
    passed: 6_000,
};

/// What has been done then.
const DONE: Summary = Summary {
    commands: 4_000,
    outputs: 8_000,
};

/// Lets all four trade, each on a thread of its own. Then the day is over. Gives the seats back, with what each was
/// given.
fn trade_all<R: Threads + Clock + Sync, const N: usize, const M: usize>(
    rt: &R,
    rings: &TestRings<N, M, 4>,
    first: (Seat, Seat),
    last: (Seat, Seat),
    over: &AtomicBool,
) -> (Two, Two)
    requires first { (IsAt rings.now first.0) × (IsAt rings.now first.1) }
    requires last { (IsAt rings.now last.0) × (IsAt rings.now last.1) }
    ensures first { StaysSpent first.0 result.0.0.0 × StaysSpent first.1 result.0.1.0 }
    ensures last { StaysSpent last.0 result.1.0.0 × StaysSpent last.1 result.1.1.0 }
{
    let back = join(
        rt,
        move || -> Two
            requires { IsSync R.row × (IsAt rings.now first.0) × (IsAt rings.now first.1) }
            ensures { StaysSpent first.0 result.0.0 × StaysSpent first.1 result.1.0 }
        { trade_both(rt, rings, first, *b"12", DAY) },
        move || -> Two
            requires { IsSync R.row × (IsAt rings.now last.0) × (IsAt rings.now last.1) }
            ensures { StaysSpent last.0 result.0.0 × StaysSpent last.1 result.1.0 }
        { trade_both(rt, rings, last, *b"34", DAY) },
    );
    over.store(true, Ordering::SeqCst);
    back
}

/// Lets all four trade beside the stages.
fn run_all<R: Threads + Clock + Sync, const N: usize, const M: usize>(
    rt: &R,
    rings: &TestRings<N, M, 4>,
    staffing: Staffing,
    staff: Staff,
    first: (Seat, Seat),
    last: (Seat, Seat),
) -> (Staff, (Two, Two))
    requires staff { AreAt rings.now staff }
    requires first { (IsAt rings.now first.0) × (IsAt rings.now first.1) }
    requires last { (IsAt rings.now last.0) × (IsAt rings.now last.1) }
    ensures staff { AreAt rings.now result.0 }
    ensures first { StaysSpent first.0 result.1.0.0.0 × StaysSpent first.1 result.1.0.1.0 }
    ensures last { StaysSpent last.0 result.1.1.0.0 × StaysSpent last.1 result.1.1.1.0 }
{
    let day = AtomicBool::new(false);
    let over = &day;
    join(
        rt,
        move || -> Staff
            requires { IsSync R.row × (AreAt rings.now staff) }
            ensures { AreAt rings.entry.now result }
        { work_or_poll(rt, rings, staffing, staff, over) },
        move || -> (Two, Two)
            requires { IsSync R.row × (IsAt rings.now first.0) × (IsAt rings.now first.1)
                × (IsAt rings.now last.0) × (IsAt rings.now last.1) }
            ensures { StaysSpent first.0 result.0.0.0 × StaysSpent first.1 result.0.1.0
                × StaysSpent last.0 result.1.0.0 × StaysSpent last.1 result.1.1.0 }
        { trade_all(rt, rings, first, last, over) },
    )
}

/// The four gateways' seats, by their numbers.
fn four_seats<const N: usize, const M: usize>(
    rings: &TestRings<N, M, 4>,
    seats: &mut Vec<Seat>,
) -> Option<((Seat, Seat), (Seat, Seat))>
    requires four { (ComeBackSpent rings.now seats.old.items) × (vec_len seats.old ≡ 4) }
    ensures left { ComeBackSpent rings.now seats.new.items }
    ensures none { IfSome result (λ four. vec_len seats.new ≡ 0) }
    ensures first { IfSome result (λ four. IsSpent rings.now 1 four.0.0 × IsSpent rings.now 2 four.0.1) }
    ensures last { IfSome result (λ four. IsSpent rings.now 3 four.1.0 × IsSpent rings.now 4 four.1.1) }
{
    let (third, fourth) = next_two(rings, seats)?;
    let (first, second) = next_two(rings, seats)?;
    Some(((first.seat, second.seat), (third.seat, fourth.seat)))
}

/// Puts the four seats back, by their numbers, and answers what each gateway was given.
fn put_all_back<const N: usize, const M: usize>(
    rings: &TestRings<N, M, 4>,
    seats: &mut Vec<Seat>,
    back: (Two, Two),
) -> Result<[Given; 4], AllocError>
    requires none { (ComeBackSpent rings.now seats.old.items) × (vec_len seats.old ≡ 0) }
    requires first { IsSpent rings.now 1 back.0.0.0 × IsSpent rings.now 2 back.0.1.0 }
    requires last { IsSpent rings.now 3 back.1.0.0 × IsSpent rings.now 4 back.1.1.0 }
    ensures all { OnOk result (ComeBackSpent rings.now seats.new.items) }
    ensures count { OnOk result (vec_len seats.new ≡ 4) }
{
    let ((first, second), (third, fourth)) = back;
    put_back(rings, seats, first.0)?;
    put_back(rings, seats, second.0)?;
    put_back(rings, seats, third.0)?;
    put_back(rings, seats, fourth.0)?;
    Ok([first.1, second.1, third.1, fourth.1])
}

/// Lets the gateways trade beside the stages at new rings, and closes these. Answers what each gateway was given, and
/// what had been done.
fn close_behind<R: Threads + Clock + Sync, const N: usize, const M: usize>(
    rt: &R,
    alloc: Global,
    staffing: Staffing,
) -> Result<([Given; 4], Summary), Fail> {
    let (rings, stages, mut seats) = open_venue::<N, M, 4>(alloc)?;
    let Some((one, other)) = four_seats(&rings, &mut seats) else {
        return Err(Fail::from("no gateways"));
    };
    let (staff, back) = run_all(rt, &rings, staffing, Box::into_inner(stages), one, other);
    let given = put_all_back(&rings, &mut seats, back)?;
    let (summary, _) = staff.close(rings, seats);
    Ok((given, summary))
}

/// Rings of two rows each, and each stage on a thread of its own, too.
#[test]
fn small_rings(rt: HostRuntime) -> Result<(), Fail> {
    let came = close_behind::<HostRuntime, 2, 2>(&rt, rt.alloc(), Staffing::ThreadEach)?;
    assert_eq!(rt; came, ([EACH; 4], DONE));
    Ok(())
}

/// Four input rows, and a fifth thread that polls all stages: of the entries of each gateway none is read twice, none
/// is missing, and none comes out of its order.
#[test]
fn four_gateways(rt: HostRuntime) -> Result<(), Fail> {
    let came = close_behind::<HostRuntime, 4, 16>(&rt, rt.alloc(), Staffing::OneThread)?;
    assert_eq!(rt; came, ([EACH; 4], DONE));
    Ok(())
}

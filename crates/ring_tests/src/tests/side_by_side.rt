//! Two gateways and the stages as workers at rings of two rows: each of the six has a thread of its own, so that all of
//! them are at their first turns together.
ghost use Rattle.std.specs.Prelude.{◌≡◌};
ghost use Rattle.ring_words.specs.At.{IsAt};
ghost use Rattle.stages.specs.Crews.{AreAt};
ghost use Rattle.std.specs.Thread.{IsSync};

use super::staff::Staff;
use super::trading::Seat;
use small_venue::crew::open_venue;
use small_venue::meeting::{Entrance, Meeting};
use small_venue::member::{Member, next_two};
use small_venue::venue::TestRings;
use std::alloc::Global;
use std::rt::Clock;
use std::test::Fail;
use std::thread::{Threads, join};
use venue_model::LONGEST_MESSAGE;
use workers::{Ended, Gate, Outcome, Parks, Signals, Station, Worker, run, work};

/// A gateway that looks for an output once.
#[derive(Drop)]
struct Looker<'a, const N: usize, const M: usize, const G: usize> {
    gateway: Member<'a, N, M, G>,
}

impl<const N: usize, const M: usize, const G: usize> Worker for Looker<'_, N, M, G> {
    ghost goes = { λ x y. Unit {0} };

    ghost further = { λ x y z first second. tt };

    fn turn(&mut self) -> Outcome {
        self.gateway.take(&mut [0; LONGEST_MESSAGE]);
        Outcome::Over
    }
}

/// Lets the gateway of this seat work at the gate, and says why it took no more turns.
fn look<R: Clock + Parks, Q: Gate, const N: usize, const M: usize, const G: usize>(
    rt: &R,
    gate: &Q,
    rings: &TestRings<N, M, G>,
    station: Station,
    seat: Seat,
    signals: &Signals,
) -> Ended
    requires { IsAt rings.now seat }
{
    let mut looker = Looker {
        gateway: Member { rings, seat },
    };
    work(rt, gate, station, &mut looker, rt.parking(), signals)
}

/// Lets both gateways work, each on a thread of its own.
fn look_both<
    R: Threads + Clock + Parks + Sync,
    Q: Gate + Sync,
    const N: usize,
    const M: usize,
    const G: usize,
>(
    rt: &R,
    gate: &Q,
    rings: &TestRings<N, M, G>,
    seats: (Seat, Seat),
    signals: &Signals,
) -> (Ended, Ended)
    requires { (IsAt rings.now seats.0) × (IsAt rings.now seats.1) }
{
    let (one, other) = seats;
    join(
        rt,
        move || -> Ended
            requires { IsAt rings.now one }
        { look(rt, gate, rings, Station::Gateway(1), one, signals) },
        move || -> Ended
            requires { IsAt rings.now other }
        { look(rt, gate, rings, Station::Gateway(2), other, signals) },
    )
}

/// Lets all six work at the gate, each on a thread of its own. Says why the gateways took no more turns.
fn run_six<
    R: Threads + Clock + Parks + Sync,
    Q: Gate + Sync,
    const N: usize,
    const M: usize,
    const G: usize,
>(rt: &R, gate: &Q, rings: &TestRings<N, M, G>, staff: Staff, seats: (Seat, Seat)) -> (Ended, Ended)
    requires staff { AreAt rings.now staff }
    requires seats { (IsAt rings.now seats.0) × (IsAt rings.now seats.1) }
{
    let all = Signals::new(6);
    let signals = &all;
    let (_, ended) = run(
        rt,
        gate,
        rings,
        staff,
        move || -> (Ended, Ended)
            requires { IsSync R.row × IsSync Q.row × (IsAt rings.now seats.0) × (IsAt rings.now seats.1) }
        { look_both(rt, gate, rings, seats, signals) },
        signals,
    );
    ended
}

/// The same at new rings of two rows each.
fn meet<R: Threads + Clock + Parks + Sync, Q: Gate + Sync>(
    rt: &R,
    gate: &Q,
    alloc: Global,
) -> Result<(Ended, Ended), Fail> {
    let (rings, stages, mut gateways) = open_venue::<2, 2, 2>(alloc)?;
    let (one, other) = next_two(&rings, &mut gateways).ok_or("no gateways")?;
    let seats = (one.seat, other.seat);
    Ok(run_six(rt, gate, &rings, Box::into_inner(stages), seats))
}

#[test]
fn side_by_side(rt: HostRuntime) -> Result<(), Fail> {
    let meeting = Meeting::new();
    let entrance = Entrance {
        clock: &rt,
        meeting: &meeting,
    };
    let ended = meet(&rt, &entrance, rt.alloc())?;
    assert_eq!(rt; ended, (Ended::Over, Ended::Over));
    assert!(rt; meeting.was_held());
    Ok(())
}

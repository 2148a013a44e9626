//! A worker at the rings, a gateway or a stage, and the loop in which the worker takes its turns (Disruptor: an event
//! processor).
ghost use Rattle.std.specs.Prelude.{◌≡◌};
ghost use Rattle.workers.specs.Resting.{moments};
ghost use Rattle.workers.specs.Working.{Ends, TurnAndRest, thread};

use crate::gate::{Gate, Station};
use crate::parking::Parking;
use crate::rest::{Pauses, Rest};
use crate::signals::Signalling;
use crate::sleeper::Sleeper;
use mio::Waker;
use std::rt::Clock;

/// What one turn of a worker came to.
#[derive(Clone, Copy, Debug, PartialEq, Eq)]
pub enum Outcome {
    /// It did something, by which others may have work.
    Worked,
    /// It did something, by which nobody else has more to do.
    Moved,
    /// There was nothing to do.
    Idle,
    /// There was nothing to do, and it is to look again soon: nobody wakes it for what it waits for.
    Pressed,
    /// It has ended: no turn does anything more.
    Over,
}

/// Why a worker took no more turns.
#[derive(Clone, Copy, Debug, PartialEq, Eq)]
pub enum Ended {
    /// Its last turn said that it has ended.
    Over,
    /// The signals said stop.
    Told,
    /// It had taken 2^64 - 1 turns.
    TookAll,
}

/// A worker that has turns: a gateway, or a stage, at its rings.
pub trait Worker {
    ghost use Rattle.workers.specs.declared.worker.Outcome.{Outcome};

    /// What turns come to, one or many of them: for instance that it is at the same rings.
    ghost goes: { Self → Self → Type 0 };

    /// So it is behind more of them.
    ghost further: { (x y z : Self) → goes x y → goes y z → goes x z };

    /// That it took one turn, which came to this, and nothing else. Code over any worker knows this of its calls alone.
    ghost took: { Outcome → Self → Self → Type 0 } = { λ outcome x y. Unit {0} };

    /// What its `Gate` is told behind so many turns: that number, or of a stage its next sequence.
    fn number(&self, turns: u64) -> u64 {
        turns
    }

    /// Does what is next for it, if there is something. It doesn't wait.
    fn turn(&mut self) -> Outcome
        ensures goes { goes self.old self.new }
        ensures took { took result self.old self.new };
}

/// Lets the worker take a turn behind so many, and tells the `Gate` of it.
fn turn_at<Q: Gate, W: Worker>(gate: &Q, station: Station, worker: &mut W, turns: u64) -> Outcome
    ensures goes { W.goes worker.old worker.new }
    ensures took { W.took result worker.old worker.new }
{
    gate.enter(station, worker.number(turns));
    let outcome = worker.turn();
    gate.leave(station, worker.number(turns));
    outcome
}

/// Lets the worker of this station take turns, and its thread rest between them, until it is over or, behind a turn,
/// the signals say stop, and says why it took no more.
fn work_on<P: Pauses, Q: Gate, W: Worker, S: Signalling>(
    rest: &mut Rest<P>,
    gate: &Q,
    station: Station,
    worker: &mut W,
    signals: &S,
) -> Ended
    ensures goes { W.goes worker.old worker.new }
    ensures ends { Ends (TurnAndRest W.took (moments P.paused P.parked P.snoozed P.timed P.asked_until P.turned_shy))
        (S.told signals.now) result (thread worker.old rest.old) (thread worker.new rest.new) }
{
    for turns in 0..u64::MAX {
        let outcome = turn_at(gate, station, worker, turns);
        if !rest.goes_on(outcome) {
            return Ended::Over;
        }
        if signals.say_stop() {
            return Ended::Told;
        }
    }
    Ended::TookAll
}

/// Lets the worker of this station take turns until it is over or, behind a turn, the signals say stop, and says why it
/// took no more. Where its thread has a place to rest, it is woken there; else it sleeps for short.
pub fn work<C: Clock, Q: Gate, W: Worker, S: Signalling>(
    clock: &C,
    gate: &Q,
    station: Station,
    worker: &mut W,
    parking: Option<(Parking, Waker)>,
    signals: &S,
) -> Ended // promise 12
    ensures goes { W.goes worker.old worker.new }
    ensures ends { Ends W.took (S.told signals.now) result worker.old worker.new }
{
    let mut rest = Rest::new(Sleeper::of(clock, signals, station, parking));
    work_on(&mut rest, gate, station, worker, signals)
}

//! A stage, whichever of the four it is, at its station: the thread that calls lets the stage work as a worker until
//! the signals say stop.
ghost use Rattle.std.specs.Prelude.{◌≡◌};
ghost use Rattle.workers.specs.Working.{Ends};
ghost use Rattle.workers.specs.Polling.{outcome_of, PollsAs};

use crate::gate::{Gate, Station};
use crate::parking::Parks;
use crate::signals::Signalling;
use crate::worker::{Ended, Outcome, Worker, work};
use stages::{Stage, Turn};
use std::rt::Clock;

/// What a poll came to for its thread: where the output ring has no room, gateways make some, and wake nobody.
fn outcome(turn: Turn) -> Outcome
    ensures { result ≡ outcome_of turn }
{
    match turn {
        Turn::Did(_) => Outcome::Worked,
        Turn::Idle => Outcome::Idle,
        Turn::OutFull => Outcome::Pressed,
        Turn::JournalFailed => Outcome::Over,
    }
}

/// A stage at its rings and its station. A turn of it is a poll.
#[derive(Drop)]
struct Staffed<'a, R, S: Stage<R> + Drop, G: Signalling> {
    rings: &'a R,
    station: Station,
    stage: S,
    signals: &'a G,
    ghost sits: { S.sits rings.now stage } by { S.sits_once rings.now stage },
}

impl<R, S: Stage<R> + Drop, G: Signalling> Worker for Staffed<'_, R, S, G> {
    ghost use Rattle.std.specs.Prelude.{◌≡◌};
    ghost use Rattle.std.proofs.Common.{◌∙◌};
    ghost use Rattle.workers.specs.Polling.{PollsAs};

    ghost goes = { λ x y. (y.rings.now ≡ x.rings.now) × S.goes x.rings.now x.stage y.stage };

    ghost further = { λ x y z first second.
        (second.0 ∙ first.0, S.further x.rings.now x.stage y.stage z.stage first.1 (rw first.0 at second.1)) };

    ghost took = { λ outcome x y.
        (y.rings.now ≡ x.rings.now) × PollsAs (S.polled x.rings.now) outcome x.stage y.stage };

    fn number(&self, _turns: u64) -> u64 {
        self.stage.next_seq()
    }

    /// Polls the stage. A poll for which the output ring had no room may have published those of a command's outputs
    /// that there was room for: those who may have work by that are woken.
    fn turn(&mut self) -> Outcome {
        let outcome = outcome(self.stage.poll(self.rings));
        if outcome == Outcome::Pressed {
            self.signals.rouse(self.station);
        }
        outcome
    }
}

/// Lets the stage work until it is over or, behind a poll, the signals say stop, and says why it took no more polls.
/// Then the signals say stop.
pub(crate) fn staff<C: Clock + Parks, Q: Gate, R, S: Stage<R> + Drop, G: Signalling>(
    rt: &C,
    gate: &Q,
    rings: &R,
    station: Station,
    stage: S,
    signals: &G,
) -> (S, Ended)
    requires { S.sits rings.now stage }
    ensures sits { S.sits rings.now result.0 }
    ensures goes { S.goes rings.now stage result.0 }
    ensures ends { Ends (PollsAs (S.polled rings.now)) (G.told signals.now) result.1 stage result.0 }
    ensures stopped { G.stopped signals.now }
{
    let mut staffed = Staffed {
        rings,
        station,
        stage,
        signals,
    };
    let ended = work(rt, gate, station, &mut staffed, rt.parking(), signals);
    signals.stop();
    (staffed.stage, ended)
}

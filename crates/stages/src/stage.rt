//! What the four stages have in common: each sits at rings, is polled there, and knows how far it is.
ghost use Rattle.ring_words.specs.At.{IsAt};
ghost use Rattle.std.proofs.Props.{props};

use crate::journaller::Journaller;
use crate::marshaller::Marshaller;
use crate::processor::Processor;
use crate::turn::Turn;
use crate::unmarshaller::Unmarshaller;
use book::BookLogic;
use journal::JournalDisk;
use ring_words::Rings;

/// A stage, whichever it is, that can be polled at rings of this type.
pub trait Stage<R> {
    ghost use Rattle.stages.specs.declared.turn.Turn.{Turn};

    /// That it sits at these rings.
    ghost sits: { R → Self → Type 0 };

    /// That has one proof at most.
    ghost sits_once: { (rings : R) (x : Self) → IsProp (sits rings x) };

    /// What else polls at these rings come to, one or many of them.
    ghost goes: { R → Self → Self → Type 0 };

    /// So it is behind more of them.
    ghost further: { (rings : R) (x y z : Self) → goes rings x y → goes rings y z → goes rings x z };

    /// What one poll comes to, by what it answers, and nothing else.
    ghost polled: { R → Turn → Self → Self → Type 0 };

    /// The next sequence: all below it are done.
    fn next_seq(&self) -> u64;

    /// Does what is next for it, if there is something. It doesn't wait.
    fn poll(&mut self, rings: &R) -> Turn
        requires { sits rings.now self.old }
        ensures sits { sits rings.now self.new }
        ensures goes { goes rings.now self.old self.new }
        ensures polled { polled rings.now result self.old self.new };
}

impl<const N: usize, const M: usize, const G: usize> Stage<Rings<BookLogic, N, M, G>>
    for Unmarshaller {
    ghost use Rattle.stages.specs.Turns.{Unmarshals};

    ghost sits = { λ rings x. IsAt rings x };

    ghost sits_once = { λ rings x. Prim.hlevel props };

    ghost goes = { λ rings x y. Unit {0} };

    ghost further = { λ rings x y z first second. tt };

    ghost polled = { λ rings turn x y. Unmarshals N rings.logic turn x.who y.who };

    fn next_seq(&self) -> u64 {
        self.next_seq()
    }

    fn poll(&mut self, rings: &Rings<BookLogic, N, M, G>) -> Turn {
        self.poll(rings)
    }
}

impl<D: JournalDisk, const N: usize, const M: usize, const G: usize> Stage<
    Rings<BookLogic, N, M, G>,
> for Journaller<D> {
    ghost use Rattle.stages.specs.Devices.{device};
    ghost use Rattle.stages.specs.Journalling.{JournalsOn, PollsWith};
    ghost use Rattle.stages.specs.JournallingLaws.{goes_on};

    ghost sits = { λ rings x. IsAt rings x.seat };

    ghost sits_once = { λ rings x. Prim.hlevel props };

    ghost goes = { λ rings x y. JournalsOn N rings (device D.honest D.tells D.failed) x y };

    ghost further = { λ rings x y z first second. goes_on N (device D.honest D.tells D.failed) rings x y z first second };

    ghost polled = { λ rings turn x y. PollsWith N (device D.honest D.tells D.failed) turn x y };

    fn next_seq(&self) -> u64 {
        self.next_seq()
    }

    fn poll(&mut self, rings: &Rings<BookLogic, N, M, G>) -> Turn {
        self.poll(rings)
    }
}

impl<const N: usize, const M: usize, const G: usize> Stage<Rings<BookLogic, N, M, G>>
    for Processor {
    ghost use Rattle.stages.specs.Processes.{Processes, sizes, working};

    ghost sits = { λ rings x. IsAt rings x.seat };

    ghost sits_once = { λ rings x. Prim.hlevel props };

    ghost goes = { λ rings x y. Unit {0} };

    ghost further = { λ rings x y z first second. tt };

    ghost polled = { λ rings turn x y. Processes (sizes N M G) rings.logic turn (working x.seat.who x.applied) (working y.seat.who y.applied) };

    fn next_seq(&self) -> u64 {
        self.next_seq()
    }

    fn poll(&mut self, rings: &Rings<BookLogic, N, M, G>) -> Turn {
        self.poll(rings)
    }
}

impl<const N: usize, const M: usize, const G: usize> Stage<Rings<BookLogic, N, M, G>>
    for Marshaller {
    ghost use Rattle.stages.specs.Marshals.{Marshals};

    ghost sits = { λ rings x. IsAt rings x };

    ghost sits_once = { λ rings x. Prim.hlevel props };

    ghost goes = { λ rings x y. Unit {0} };

    ghost further = { λ rings x y z first second. tt };

    ghost polled = { λ rings turn x y. Marshals N M rings.logic turn x.who y.who };

    fn next_seq(&self) -> u64 {
        self.next_seq()
    }

    fn poll(&mut self, rings: &Rings<BookLogic, N, M, G>) -> Turn {
        self.poll(rings)
    }
}

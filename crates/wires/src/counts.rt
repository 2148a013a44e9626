//! What every wire counts of its own calls.
ghost use Rattle.std.specs.Prelude.{◌≡◌};
ghost use Rattle.venue_model.specs.Counts.{Rose};
ghost use Rattle.wires.specs.Counting.{CountsRead, CountsWrite, nothings_in};

use super::{TryRead, TryWrite};

/// How many calls failed, how many reads and how many writes answered `Nothing`, and how many reads answered `End`. A
/// count that is full stays.
#[derive(Clone, Copy, Debug, PartialEq, Eq)]
pub struct Counts {
    pub failures: u64,
    pub empty_reads: u64,
    pub full_writes: u64,
    pub ends: u64,
}

/// How many reads and how many writes answered `Nothing`.
#[derive(Clone, Copy, Debug, PartialEq, Eq)]
pub struct Nothings {
    pub reads: u64,
    pub writes: u64,
}

impl Counts {
    /// Nothing has been counted yet.
    pub fn new() -> Counts
        ensures { result ≡ record { failures = 0; empty_reads = 0; full_writes = 0; ends = 0 } }
    {
        Counts {
            failures: 0,
            empty_reads: 0,
            full_writes: 0,
            ends: 0,
        }
    }

    /// Counts a call that failed.
    pub fn failed(&mut self)
        ensures risen { Rose self.old.failures self.new.failures }
        ensures others { self.new ≡ record self.old { failures = self.new.failures } }
    {
        self.failures = self.failures.saturating_add(1);
    }

    /// Counts a read that answered `Nothing`.
    pub fn empty_read(&mut self)
        ensures risen { Rose self.old.empty_reads self.new.empty_reads }
        ensures others { self.new ≡ record self.old { empty_reads = self.new.empty_reads } }
    {
        self.empty_reads = self.empty_reads.saturating_add(1);
    }

    /// Counts a write that answered `Nothing`.
    pub fn full_write(&mut self)
        ensures risen { Rose self.old.full_writes self.new.full_writes }
        ensures others { self.new ≡ record self.old { full_writes = self.new.full_writes } }
    {
        self.full_writes = self.full_writes.saturating_add(1);
    }

    /// Counts a read that answered `End`.
    pub fn ended(&mut self)
        ensures risen { Rose self.old.ends self.new.ends }
        ensures others { self.new ≡ record self.old { ends = self.new.ends } }
    {
        self.ends = self.ends.saturating_add(1);
    }

    /// The calls that answered `Nothing`.
    pub fn nothings(&self) -> Nothings
        ensures { result ≡ nothings_in self.now }
    {
        Nothings {
            reads: self.empty_reads,
            writes: self.full_writes,
        }
    }

    /// Counts a read that answered so.
    pub fn count_read(&mut self, answer: TryRead)
        ensures { CountsRead self.old self.new answer }
    {
        match answer {
            TryRead::Got(_) => {}
            TryRead::Nothing => self.empty_read(),
            TryRead::End => self.ended(),
            TryRead::Failed => self.failed(),
        }
    }

    /// Counts a write that answered so.
    pub fn count_write(&mut self, answer: TryWrite)
        ensures { CountsWrite self.old self.new answer }
    {
        match answer {
            TryWrite::Put(_) => {}
            TryWrite::Nothing => self.full_write(),
            TryWrite::Failed => self.failed(),
        }
    }
}

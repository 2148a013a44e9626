//! How reads of resting orders are counted: no order is read but by a count, and no count is begun but by a counter.
ghost use Rattle.std.specs.Prelude.{◌≡◌, ◌<◌, ◌+◌, ◌-◌, ◌^◌};

use std::marker::Model;

/// The right to begin counts. Levels come with theirs, and nobody can make another: who isn't given it can read orders
/// by a count that was handed to him alone.
#[derive(Drop)]
pub struct ReadCounter {
    _sealed: (),
}

impl ReadCounter {
    /// That of new levels.
    pub(crate) fn new() -> ReadCounter {
        ReadCounter { _sealed: () }
    }

    /// A count of no reads.
    pub fn begin(&self) -> Reads
        ensures { result ≡ 0 }
    {
        Reads { count: 0 }
    }
}

/// How many orders were read since the count was begun. Each read raises it, and nothing else changes it.
#[derive(Drop)]
pub struct Reads {
    count: u64,
}

impl Model for Reads {
    ghost use Rattle.std.specs.Prelude.{ℕ, ⊤};

    ghost Value = { ℕ };

    ghost view = { λ reads. reads.count };

    ghost invariant = { λ reads. ⊤ };
}

impl Reads {
    /// The number of reads.
    pub fn count(&self) -> u64
        ensures { result ≡ self.now }
    {
        self.count
    }

    /// Counts a read.
    pub(crate) fn raise(&mut self)
        requires { self.old < 2 ^ 64 - 1 }
        ensures { self.new ≡ self.old + 1 }
    {
        self.count += 1;
    }
}

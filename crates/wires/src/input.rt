//! What was read of a wire, and is not yet used.
ghost use Rattle.std.specs.Prelude.{◌≡◌, ◌≤◌, [], length, drop, IsTrue, ◌↔◌};
ghost use Rattle.wires.specs.Inputs.{Fills};

use crate::wire::{TryRead, Wire};
use std::marker::Model;

/// How many bytes one read takes at most.
const SIZE: usize = 512;

/// The bytes of the last read that are left. They lie in place, and contracts see them as a list.
#[derive(Drop)]
pub struct Input {
    bytes: [u8; 512],
    from: usize,
    upto: usize,
}

impl Model for Input {
    ghost use Rattle.std.specs.Prelude.{List, ℕ, ◌≡◌, ◌≤◌, length, take, drop};
    ghost use Rattle.wires.specs.Inputs.{KeepsInput};

    ghost Value = { List ℕ };

    ghost view = { λ i. drop i.from (take i.upto i.bytes) };

    ghost invariant = { λ i. KeepsInput i.bytes i.from i.upto };
}

impl Input {
    /// Nothing read.
    pub fn new() -> Input
        ensures { result ≡ [] }
    {
        Input {
            bytes: [0; SIZE],
            from: 0,
            upto: 0,
        }
    }

    /// Whether none is left.
    pub fn is_empty(&self) -> bool
        ensures { IsTrue result ↔ (self.now ≡ []) }
    {
        self.as_slice().is_empty()
    }

    /// The bytes that are left.
    pub fn as_slice(&self) -> &[u8]
        ensures { result.now ≡ self.now }
    {
        &self.bytes[self.from..self.upto]
    }

    /// Forgets the first bytes, which were used.
    pub fn skip(&mut self, n: usize)
        requires { n ≤ length self.old }
        ensures { self.new ≡ drop n self.old }
    {
        self.from += n;
    }

    /// Reads once, where none is left.
    pub fn fill<W: Wire>(&mut self, wire: &mut W) -> TryRead
        requires { self.old ≡ [] }
        ensures fills { Fills self.new (W.tells wire.old) (W.tells wire.new) result }
        ensures most { length self.new ≤ 512 }
    {
        self.from = 0;
        self.upto = 0;
        let read = wire.try_read(&mut self.bytes);
        if let TryRead::Got(n) = read {
            self.upto = n;
        }
        read
    }
}

//! The wire of a client as its port hands it out: one that can be let go in good order, and one to build that of.
ghost use Rattle.std.specs.Prelude.{◌≡◌, ◌⊎◌, ℕ, true, List, [], Option};
ghost use Rattle.wires.specs.Wires.{grown};
ghost use Rattle.wires.specs.Flushing.{SendsFront};

use crate::wire::Wire;

/// A wire that holds nothing back: what it took has gone out.
pub trait DirectWire: Wire {
    /// That its client was told once that there is nothing more, and nothing else. Code over any wire knows this of its
    /// calls alone.
    ghost was_shut: { Self → Self → Type 0 };

    /// Says to the client that nothing more is written. The client may still send. An error is let go.
    fn shut(&mut self)
        ensures told { Self.tells self.new ≡ Self.tells self.old }
        ensures shut { was_shut self.old self.new };
}

/// A wire whose client can be told that there is nothing more, and be let go. It may hold back what it took until it is
/// flushed. No call moves the counts or what the wire told.
pub trait ClientWire: Wire {
    /// The bytes that have gone out, `None` where it tells none.
    ghost sent: { Self → Option (List ℕ) };

    /// The bytes that it took, and that haven't gone out yet.
    ghost holds: { Self → List ℕ };

    /// That what it holds can't go out any more: it failed, or its client was given up.
    ghost failed: { Self → Type 0 };

    /// That it was flushed once, and nothing else. Code over any wire knows this of its calls alone.
    ghost flushed: { Self → Self → Type 0 };

    /// That its client was told once that there is nothing more, and nothing else. So code over any wire knows this.
    ghost was_shut: { Self → Self → Type 0 };

    /// Sends what the wire holds, as far as it is taken now, and says whether it sends nothing more: it holds nothing
    /// any more, or can't send that.
    fn flush(&mut self) -> bool
        ensures told { Self.tells self.new ≡ Self.tells self.old }
        ensures flushed { flushed self.old self.new }
        ensures sends { SendsFront (sent self.old) (sent self.new) (holds self.old) (holds self.new) }
        ensures all { result ≡ true → (holds self.new ≡ []) ⊎ failed self.new };

    /// Says to the client that nothing more is written, once the wire sends nothing more. The client may still send. An
    /// error is let go.
    fn shut(&mut self)
        requires all { (holds self.old ≡ []) ⊎ failed self.old }
        ensures told { Self.tells self.new ≡ Self.tells self.old }
        ensures shut { was_shut self.old self.new }
        ensures holds { (holds self.new ≡ holds self.old) × (sent self.new ≡ sent self.old) };

    /// Lets go of the client: from now on each read and each write fails, where the wire sees to that. Nothing is said
    /// to the client: what is held isn't sent.
    fn give_up(&mut self)
        ensures told { Self.tells self.new ≡ Self.tells self.old }
        ensures holds { (holds self.new ≡ holds self.old) × (sent self.new ≡ sent self.old) };

    /// What it took is what has gone out, and then what it holds.
    ghost parts: { (w : Self) → (Self.tells w).took ≡ grown (sent w) (holds w) };
}

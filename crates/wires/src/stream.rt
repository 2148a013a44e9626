//! One end of a client's connection, as far as a wire needs it.
ghost use Rattle.std.specs.Prelude.{◌≡◌, ◌<◌, ℕ, List, Option, length};
ghost use Rattle.wires.specs.Streams.{MovesBytes};

use std::io;

/// One end of a client's connection, which never waits: a call that would have to is refused with an error that passes,
/// as `WouldBlock`. A call may move fewer bytes than there are, and one that fails moves none. A stream may keep its
/// bytes to itself, as a socket does.
pub trait Stream {
    /// The bytes that reads have given so far, `None` where it tells none.
    ghost gave: { Self → Option (List ℕ) };

    /// The bytes that writes have taken so far, `None` where it tells none.
    ghost took: { Self → Option (List ℕ) };

    /// That it was shut once, and nothing else. Code over any stream knows this of its calls alone.
    ghost was_shut: { Self → Self → Type 0 };

    /// Reads into the buffer's front, and says how many bytes: none where the other end has said that it writes no
    /// more. What stands behind them in the buffer is unspecified.
    fn read(&mut self, buf: &mut [u8]) -> io::Result<usize>
        requires { 0 < length buf.old }
        ensures gives { MovesBytes (gave self.old) (gave self.new) buf.new result }
        ensures takes_none { took self.new ≡ took self.old };

    /// Takes a front of the bytes, and says how many.
    fn write(&mut self, bytes: &[u8]) -> io::Result<usize>
        requires { 0 < length bytes.now }
        ensures takes { MovesBytes (took self.old) (took self.new) bytes.now result }
        ensures gives_none { gave self.new ≡ gave self.old };

    /// Says that nothing more is written: the other end then reads the end behind what was taken, and may still write.
    /// An error is let go.
    fn shut(&mut self)
        ensures shut { was_shut self.old self.new }
        ensures gives_none { gave self.new ≡ gave self.old }
        ensures takes_none { took self.new ≡ took self.old };
}

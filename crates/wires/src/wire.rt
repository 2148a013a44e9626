//! The wire, one session of a client at a time: who reads and writes knows no more of it than this trait.
ghost use Rattle.std.specs.Prelude.{◌≡◌, ◌<◌, length};
ghost use Rattle.wires.specs.Wires.{Told, ReadTells, WriteTells, nothings_of};

use crate::counts::Nothings;

/// What a read found. `Failed` is an error of the wire, `End` the end of what the client sends.
#[derive(Clone, Copy, Debug, PartialEq, Eq)]
pub enum TryRead {
    /// So many bytes, at least one, stand at the buffer's front.
    Got(usize),
    /// There is nothing yet.
    Nothing,
    End,
    Failed,
}

/// What a write came to. `Failed` is an error of the wire.
#[derive(Clone, Copy, Debug, PartialEq, Eq)]
pub enum TryWrite {
    /// So many bytes, at least one, were taken from the front.
    Put(usize),
    /// There is no room yet.
    Nothing,
    Failed,
}

/// A client's bytes in both directions. A call may move fewer bytes than there is room for, or none. A count that is
/// full stays.
pub trait Wire {
    /// The bytes that it gave and took, as far as it tells them, and its counts.
    ghost tells: { Self → Told };

    /// Moves some bytes into the buffer's front. What stands behind them in the buffer is unspecified.
    fn try_read(&mut self, buf: &mut [u8]) -> TryRead
        requires { 0 < length buf.old }
        ensures { ReadTells (tells self.old) (tells self.new) buf.new result };

    /// Sends a front of the bytes.
    fn try_write(&mut self, bytes: &[u8]) -> TryWrite
        requires { 0 < length bytes.now }
        ensures { WriteTells (tells self.old) (tells self.new) bytes.now result };

    /// Says whether to rest: nothing moved in the last turn. Before a wire whose read may wait, the caller says so only
    /// while nothing comes about until the client sends.
    fn rest(&mut self, quiet: bool)
        ensures { tells self.new ≡ record (tells self.old) { quiet = quiet } };

    /// How many of its calls failed.
    fn failures(&self) -> u64
        ensures { result ≡ (tells self.now).failures };

    /// How many of its reads, and how many of its writes, answered `Nothing`.
    fn nothings(&self) -> Nothings
        ensures { result ≡ nothings_of (tells self.now) };
}

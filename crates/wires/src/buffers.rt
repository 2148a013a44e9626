//! Bytes read ahead of the session, and bytes that wait to be sent. Each of the two buffers takes all its memory as it is
//! made.
ghost use Rattle.std.specs.Prelude.{◌≡◌, ◌≤◌, ◌-◌, ◌<◌, ◌↔◌, [], ◌++◌, length, take, drop, min, IfOk, IsTrue};
ghost use Rattle.wires.specs.Flushing.{Flushes};
ghost use Rattle.wires.specs.Gatherings.{ReadsAhead, HandsOut, SendsSome, Gathers, IfGot};
ghost use Rattle.wires.specs.StdWires.{AsksReader, TakesIn};

use crate::flushed::Flushed;
use crate::stream_wire::read_answer;
use crate::wire::{TryRead, TryWrite, Wire};
use std::alloc::{AllocError, Global};
use std::io::Read;
use std::marker::Model;

/// At most so many bytes are read ahead.
pub const AHEAD: usize = 16_384;

/// Where at least so many bytes wait, a write first lets the wire below take some.
pub const GATHERED: usize = 65_536;

/// At most so many bytes wait to be sent.
pub const BACKLOG: usize = 16_777_216;

/// Where fewer bytes wait, a client whose bytes filled the backlog has caught up.
pub const CAUGHT_UP: usize = 8_388_608;

/// Within so many writes it has to.
pub const MOST_LATE: u32 = 100_000;

/// At most so many reads in a row ask nobody: those behind turns in which something moved.
pub const MOST_SKIPPED: u32 = 32;

/// Bytes that were read, and are not yet handed out. Contracts see them in order.
#[derive(Drop)]
pub struct ReadAhead {
    bytes: Vec<u8>,
    from: usize,
    upto: usize,
}

impl Model for ReadAhead {
    ghost use Rattle.std.specs.Prelude.{ℕ, List, ◌<◌, ◌≤◌, length, slice_range};

    ghost Value = { List ℕ };

    ghost view = { λ a. slice_range a.bytes.items a.from a.upto };

    ghost invariant = { λ a. (a.from ≤ a.upto) × (a.upto ≤ length a.bytes.items) × (0 < length a.bytes.items) };
}

impl ReadAhead {
    /// Nothing is read ahead yet.
    pub fn new(alloc: Global) -> Result<ReadAhead, AllocError>
        ensures { IfOk result (λ ahead. ahead ≡ []) }
    {
        Ok(ReadAhead {
            bytes: vec![in alloc; 0; AHEAD]?,
            from: 0,
            upto: 0,
        })
    }

    pub fn is_empty(&self) -> bool
        ensures { IsTrue result ↔ (self.now ≡ []) }
    {
        self.from == self.upto
    }

    /// Reads the wire once.
    pub fn fill<W: Wire>(&mut self, wire: &mut W) -> TryRead
        requires { self.old ≡ [] }
        ensures { ReadsAhead (W.tells wire.old) (W.tells wire.new) self.new result }
    {
        let answer = wire.try_read(&mut self.bytes);
        if let TryRead::Got(count) = answer {
            self.from = 0;
            self.upto = count;
        }
        answer
    }

    /// Reads into a buffer that isn't empty: it is handed the first bytes held, and the wire is read where none is.
    pub fn read<W: Wire>(&mut self, wire: &mut W, buf: &mut [u8]) -> TryRead
        requires { 0 < length buf.old }
        ensures hands_out { HandsOut (W.tells wire.old) (W.tells wire.new) self.old self.new buf.new result }
        ensures count { IfGot result (λ n. (1 ≤ n) × (n ≤ length buf.new)) }
        ensures held { 0 < length self.old → wire.new ≡ wire.old }
    {
        if self.is_empty() {
            let answer = self.fill(wire);
            if !matches!(answer, TryRead::Got(_)) {
                return answer;
            }
        }
        TryRead::Got(self.give(buf))
    }

    /// Asks the reader once.
    pub fn fill_from<R: Read>(&mut self, reader: &mut R) -> TryRead
        requires { self.old ≡ [] }
        ensures { AsksReader (R.remaining reader.old) (R.remaining reader.new) self.new result }
    {
        let read = reader.read(&mut self.bytes);
        if let Ok(count) = read {
            (self.from, self.upto) = (0, count);
        }
        read_answer(read)
    }

    /// Reads into a buffer that isn't empty: it is handed the first bytes held, and the reader is asked where none is.
    pub fn read_from<R: Read>(&mut self, reader: &mut R, buf: &mut [u8]) -> TryRead
        requires { 0 < length buf.old }
        ensures takes_in { TakesIn (R.remaining reader.old) (R.remaining reader.new) self.old self.new buf.new result }
        ensures count { IfGot result (λ n. (1 ≤ n) × (n ≤ length buf.new)) }
        ensures gives { 0 < length self.old → result ≡ TryRead.Got (min (length self.old) (length buf.new)) }
        ensures held { 0 < length self.old → reader.new ≡ reader.old }
    {
        if !self.is_empty() {
            return TryRead::Got(self.give(buf));
        }
        match self.fill_from(reader) {
            TryRead::Got(_) => TryRead::Got(self.give(buf)),
            other => other,
        }
    }

    /// Hands out the first bytes, as many as there are or fit, and says how many.
    pub fn give(&mut self, buf: &mut [u8]) -> usize
        ensures count { result ≡ min (length self.old) (length buf.old) }
        ensures gives { self.old ≡ take result buf.new ++ self.new }
    {
        let held = &self.bytes[self.from..self.upto];
        let count = held.len().min(buf.len());
        buf[..count].copy_from_slice(&held[..count]);
        self.from += count;
        count
    }
}

/// Bytes that wait to be sent. Contracts see them in order. There is room for twice as many as may wait: those that
/// were sent stay in front of them until they are as many, so that no more bytes are moved than were sent.
#[derive(Drop)]
pub struct Waiting {
    bytes: Vec<u8>,
    from: usize,
}

impl Model for Waiting {
    ghost use Rattle.std.specs.Prelude.{ℕ, List, ◌+◌, ◌-◌, ◌*◌, ◌≤◌, drop, length, vec_capacity};
    ghost use Rattle.wires.specs.declared.buffers.TheConstants.{BACKLOG};

    ghost Value = { List ℕ };

    ghost view = { λ w. drop w.from w.bytes.items };

    ghost invariant = { λ w. (w.from + w.from ≤ length w.bytes.items) × (length w.bytes.items ≤ w.from + BACKLOG)
        × (2 * BACKLOG ≤ vec_capacity w.bytes) };
}

impl Waiting {
    /// Nothing waits yet.
    pub fn new(alloc: Global) -> Result<Waiting, AllocError>
        ensures { IfOk result (λ waiting. waiting ≡ []) }
    {
        Ok(Waiting {
            bytes: Vec::with_capacity(alloc, 2 * BACKLOG)?,
            from: 0,
        })
    }

    pub fn is_empty(&self) -> bool
        ensures { IsTrue result ↔ (self.now ≡ []) }
    {
        self.len() == 0
    }

    /// How many wait.
    pub fn len(&self) -> usize
        ensures len { result ≡ length self.now }
        ensures within { result ≤ BACKLOG }
    {
        self.bytes.len() - self.from
    }

    pub fn as_slice(&self) -> &[u8]
        ensures { result.now ≡ self.now }
    {
        &self.bytes[self.from..]
    }

    /// Writes some of the first of these bytes, which aren't none: they wait too, as far as there is room. Where many
    /// wait the wire is first to take some, by one write; it fails where that does, and where no room is left then.
    pub fn write<W: Wire>(&mut self, wire: &mut W, bytes: &[u8]) -> TryWrite
        requires { 0 < length bytes.now }
        ensures gathers { Gathers (W.tells wire.old) (W.tells wire.new) self.old self.new bytes.now result }
        ensures room { length self.old < GATHERED → wire.new ≡ wire.old }
    {
        let many = self.len() >= GATHERED;
        if many && self.send_some(wire) == TryWrite::Failed {
            return TryWrite::Failed;
        }
        if self.len() == BACKLOG {
            return TryWrite::Failed;
        }
        TryWrite::Put(self.put(bytes))
    }

    /// Sends until nothing waits, the wire takes no more, or it fails.
    pub fn send<W: Wire>(&mut self, wire: &mut W) -> Flushed
        ensures { Flushes self.old self.new (W.tells wire.old) (W.tells wire.new) result }
    {
        'bytes: while !self.is_empty() {
            match self.send_some(wire) {
                TryWrite::Put(_) => {}
                TryWrite::Nothing => return Flushed::Full,
                TryWrite::Failed => return Flushed::Failed,
            }
        }
        Flushed::All
    }

    /// Sends some of the first bytes, by one write of the wire.
    fn send_some<W: Wire>(&mut self, wire: &mut W) -> TryWrite
        requires { 0 < length self.old }
        ensures { SendsSome (W.tells wire.old) (W.tells wire.new) self.old self.new result }
    {
        let answer = wire.try_write(self.as_slice());
        if let TryWrite::Put(count) = answer {
            self.skip(count);
        }
        answer
    }

    /// Lets the first of these bytes wait too, as many as there is room for, and says how many.
    pub fn put(&mut self, bytes: &[u8]) -> usize
        ensures count { result ≡ min (BACKLOG - length self.old) (length bytes.now) }
        ensures puts { self.new ≡ self.old ++ take result bytes.now }
    {
        let count = (BACKLOG - self.len()).min(bytes.len());
        self.bytes.extend_from_slice(&bytes[..count]).unwrap();
        count
    }

    /// So many of the first bytes were sent: they wait no more.
    pub fn skip(&mut self, sent: usize)
        requires { sent ≤ length self.old }
        ensures { self.new ≡ drop sent self.old }
    {
        self.from += sent;
        let waits = self.bytes.len() - self.from;
        if waits <= self.from {
            self.bytes.copy_within(self.from.., 0);
            self.bytes.truncate(waits);
            self.from = 0;
        }
    }
}

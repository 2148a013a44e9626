//! A stream in memory, for tests: it gives the bytes that it was made with, keeps those that it takes, and tells both.
ghost use Rattle.std.specs.Prelude.{◌≡◌, ◌<◌, ◌≤◌, length, take, true, false, IfOk};
ghost use Rattle.wires.specs.MemStreams.{new_stream, gave_of, took_of, GivesBytes, TakesBytes, IsShut};
ghost use Rattle.wires.specs.Streams.{MovesBytes};

use crate::stream::Stream;
use std::alloc::{AllocError, Global};
use std::io;
use std::io::ErrorKind;
use std::marker::Model;

/// A stream in memory. It is set by calls that hand it on, as `MemStream::new(alloc,
/// input)?.in_pieces(1).staying_open()`.
#[derive(Drop)]
pub struct MemStream {
    input: Vec<u8>,
    given: usize,
    taken: Vec<u8>,
    piece: usize,
    closes: bool,
    room: usize,
    breaks: bool,
    shut: bool,
}

impl Model for MemStream {
    ghost use Rattle.wires.specs.MemStreams.{MemoryStream};

    ghost Value = { MemoryStream };

    ghost view = { λ s. record {
      input = s.input.items;
      given = s.given;
      taken = s.taken.items;
      piece = s.piece;
      closes = s.closes;
      room = s.room;
      breaks = s.breaks;
      shut = s.shut;
    } };

    ghost use Rattle.std.specs.Prelude.{◌≤◌, length};

    ghost invariant = { λ s. (s.given ≤ length s.input.items) × (1 ≤ s.piece) };
}

impl MemStream {
    /// A stream that is to give these bytes, whole, and then ends; it takes all bytes.
    pub fn new(alloc: Global, input: &[u8]) -> Result<MemStream, AllocError>
        ensures { IfOk result (λ stream. stream ≡ new_stream input.now) }
    {
        Ok(MemStream {
            input: Vec::from_slice(alloc, input)?,
            given: 0,
            taken: Vec::new(alloc),
            piece: usize::MAX,
            closes: true,
            room: usize::MAX,
            breaks: false,
            shut: false,
        })
    }

    /// Gives at most so many bytes a read.
    pub fn in_pieces(mut self, most: usize) -> MemStream
        requires { 1 ≤ most }
        ensures { result ≡ record self { piece = most } }
    {
        self.piece = most;
        self
    }

    /// Stays open behind its input: a read there would have to wait.
    pub fn staying_open(mut self) -> MemStream
        ensures { result ≡ record self { closes = false } }
    {
        self.closes = false;
        self
    }

    /// Takes so many bytes in all, and then fails each write.
    pub fn breaking_after(mut self, bytes: usize) -> MemStream
        ensures { result ≡ record self { room = bytes; breaks = true } }
    {
        self.room = bytes;
        self.breaks = true;
        self
    }

    /// Takes so many bytes in all; a write behind them would have to wait.
    pub fn full_after(mut self, bytes: usize) -> MemStream
        ensures { result ≡ record self { room = bytes; breaks = false } }
    {
        self.room = bytes;
        self.breaks = false;
        self
    }

    /// The bytes that reads have given.
    pub fn given(&self) -> &[u8]
        ensures { result.now ≡ take self.now.given self.now.input }
    {
        &self.input[..self.given]
    }

    /// The bytes that writes have taken.
    pub fn taken(&self) -> &[u8]
        ensures { result.now ≡ self.now.taken }
    {
        self.taken.as_slice()
    }

    /// Whether it was said that nothing more is written.
    pub fn is_shut(&self) -> bool
        ensures { result ≡ self.now.shut }
    {
        self.shut
    }
}

impl Stream for MemStream {
    ghost gave = { gave_of };

    ghost took = { took_of };

    ghost was_shut = { IsShut };

    fn read(&mut self, buf: &mut [u8]) -> io::Result<usize>
        requires { 0 < length buf.old }
        ensures gives { MovesBytes (gave_of self.old) (gave_of self.new) buf.new result }
        ensures takes_none { took_of self.new ≡ took_of self.old }
        ensures bytes { GivesBytes self.old self.new (length buf.new) result }
    {
        let rest = &self.input[self.given..];
        let count = rest.len().min(self.piece).min(buf.len());
        if count == 0 && !self.closes {
            return Err(io::Error::from(ErrorKind::WouldBlock));
        }
        buf[..count].copy_from_slice(&rest[..count]);
        self.given += count;
        Ok(count)
    }

    fn write(&mut self, bytes: &[u8]) -> io::Result<usize>
        requires { 0 < length bytes.now }
        ensures takes { MovesBytes (took_of self.old) (took_of self.new) bytes.now result }
        ensures gives_none { gave_of self.new ≡ gave_of self.old }
        ensures bytes { TakesBytes self.old self.new bytes.now result }
    {
        let count = self.room.saturating_sub(self.taken.len()).min(bytes.len());
        if count == 0 {
            let kind = if self.breaks {
                ErrorKind::BrokenPipe
            } else {
                ErrorKind::WouldBlock
            };
            return Err(io::Error::from(kind));
        }
        self.taken.extend_from_slice(&bytes[..count])?;
        Ok(count)
    }

    fn shut(&mut self)
        ensures { IsShut self.old self.new }
    {
        self.shut = true;
    }
}

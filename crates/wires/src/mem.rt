//! A wire in memory, for tests: a stream in memory, of whose answers it counts those that moved nothing. It tells all
//! bytes.
ghost use Rattle.std.specs.Prelude.{◌≡◌, ◌<◌, ◌≤◌, [], length, take, true, false, IfOk};
ghost use Rattle.std.proofs.Common.{sym};
ghost use Rattle.wires.specs.MemStreams.{took_of};
ghost use Rattle.wires.specs.WireLaws.{grown-nil};
ghost use Rattle.wires.specs.Wires.{ReadTells, WriteTells, nothings_of};
ghost use Rattle.wires.specs.MemWires.{new_memory, told_memory, ReadsMemory, WritesMemory, ShutsMemory};

use crate::client::ClientWire;
use crate::counts::{Counts, Nothings};
use crate::mem_stream::MemStream;
use crate::stream::Stream;
use crate::stream_wire::{read_answer, write_answer};
use crate::wire::{TryRead, TryWrite, Wire};
use std::alloc::{AllocError, Global};
use std::marker::Model;

/// A wire in memory. It is set by calls that hand it on, as `MemWire::new(alloc, input)?.in_pieces(1).staying_open()`.
#[derive(Drop)]
pub struct MemWire {
    stream: MemStream,
    counts: Counts,
    quiet: bool,
}

impl Model for MemWire {
    ghost use Rattle.wires.specs.MemWires.{Memory};

    ghost Value = { Memory };

    ghost view = { λ w. record { stream = w.stream; counts = w.counts; quiet = w.quiet } };
}

impl MemWire {
    /// A wire that is to give these bytes, whole, and then ends; it takes all bytes.
    pub fn new(alloc: Global, input: &[u8]) -> Result<MemWire, AllocError>
        ensures { IfOk result (λ wire. wire ≡ new_memory input.now) }
    {
        Ok(MemWire::over(MemStream::new(alloc, input)?))
    }

    /// A wire over this stream. Nothing is counted yet.
    fn over(stream: MemStream) -> MemWire
        ensures { result ≡ record (new_memory []) { stream = stream } }
    {
        MemWire {
            stream,
            counts: Counts::new(),
            quiet: true,
        }
    }

    /// Gives at most so many bytes a read.
    pub fn in_pieces(self, most: usize) -> MemWire
        requires { 1 ≤ most }
        ensures { result ≡ record self { stream = record self.stream { piece = most } } }
    {
        MemWire {
            stream: self.stream.in_pieces(most),
            counts: self.counts,
            quiet: self.quiet,
        }
    }

    /// Stays open behind its input: reads answer `Nothing` there.
    pub fn staying_open(self) -> MemWire
        ensures { result ≡ record self { stream = record self.stream { closes = false } } }
    {
        MemWire {
            stream: self.stream.staying_open(),
            counts: self.counts,
            quiet: self.quiet,
        }
    }

    /// Takes so many bytes in all, and then fails each write.
    pub fn breaking_after(self, bytes: usize) -> MemWire
        ensures { result ≡ record self { stream = record self.stream { room = bytes; breaks = true } } }
    {
        MemWire {
            stream: self.stream.breaking_after(bytes),
            counts: self.counts,
            quiet: self.quiet,
        }
    }

    /// Takes so many bytes in all, and then answers `Nothing` to each write.
    pub fn full_after(self, bytes: usize) -> MemWire
        ensures { result ≡ record self { stream = record self.stream { room = bytes; breaks = false } } }
    {
        MemWire {
            stream: self.stream.full_after(bytes),
            counts: self.counts,
            quiet: self.quiet,
        }
    }

    /// The bytes that reads have given.
    pub fn given(&self) -> &[u8]
        ensures { result.now ≡ take self.now.stream.given self.now.stream.input }
    {
        self.stream.given()
    }

    /// The bytes that writes have taken.
    pub fn taken(&self) -> &[u8]
        ensures { result.now ≡ self.now.stream.taken }
    {
        self.stream.taken()
    }

    /// Whether it was said that nothing more is written.
    pub fn is_shut(&self) -> bool
        ensures { result ≡ self.now.stream.shut }
    {
        self.stream.is_shut()
    }
}

impl Wire for MemWire {
    ghost tells = { told_memory };

    fn try_read(&mut self, buf: &mut [u8]) -> TryRead
        requires { 0 < length buf.old }
        ensures tells { ReadTells (told_memory self.old) (told_memory self.new) buf.new result }
        ensures gives { ReadsMemory self.old self.new (length buf.new) result }
    {
        let answer = read_answer(self.stream.read(buf));
        self.counts.count_read(answer);
        answer
    }

    fn try_write(&mut self, bytes: &[u8]) -> TryWrite
        requires { 0 < length bytes.now }
        ensures tells { WriteTells (told_memory self.old) (told_memory self.new) bytes.now result }
        ensures takes { WritesMemory self.old self.new bytes.now result }
    {
        let answer = write_answer(self.stream.write(bytes));
        self.counts.count_write(answer);
        answer
    }

    fn rest(&mut self, quiet: bool)
        ensures { self.new ≡ record self.old { quiet = quiet } }
    {
        self.quiet = quiet;
    }

    fn failures(&self) -> u64
        ensures { result ≡ (told_memory self.now).failures }
    {
        self.counts.failures
    }

    fn nothings(&self) -> Nothings
        ensures { result ≡ nothings_of (told_memory self.now) }
    {
        self.counts.nothings()
    }
}

impl ClientWire for MemWire {
    ghost sent = { λ m. took_of m.stream };

    ghost holds = { λ _. [] };

    ghost failed = { λ _. ⊥ };

    ghost flushed = { λ old new. new ≡ old };

    ghost was_shut = { ShutsMemory };

    ghost parts = { λ m. sym (grown-nil (took_of m.stream)) };

    fn flush(&mut self) -> bool
        ensures all { result ≡ true }
        ensures same { self.new ≡ self.old }
    {
        true
    }

    fn shut(&mut self)
        ensures { ShutsMemory self.old self.new }
    {
        self.stream.shut();
    }

    /// It stays as it is.
    fn give_up(&mut self)
        ensures { self.new ≡ self.old }
    {}
}

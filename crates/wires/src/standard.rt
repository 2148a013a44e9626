//! The program's own wire: standard input and output, or any reader and writer.
ghost use Rattle.std.specs.Prelude.{◌≡◌, ◌<◌, ◌↔◌, ◌⊎◌, [], true, false, length, min, IfOk, IsTrue};
ghost use Rattle.std.specs.IoError.{error_kind};
ghost use Rattle.wires.specs.Wires.{ReadTells, WriteTells, nothings_of, uncounted};
ghost use Rattle.wires.specs.StdWires.{told_standard, reader_of, writer_of, read_ahead_of, rested_of, IsPassing};
ghost use Rattle.wires.specs.StdWires.{TakesIn, SendsOut, RestsOnRead, RestsNot};

use crate::buffers::ReadAhead;
use crate::counts::{Counts, Nothings};
use crate::wire::{TryRead, TryWrite, Wire};
use std::alloc::{AllocError, Global};
use std::io;
use std::io::{ErrorKind, Read, Write};

/// A wire over a reader and a writer, which tells no bytes. Its reader may wait for the client, and the client for a
/// report before it sends more: so a read moves bytes only while the wire rests, and else answers `Nothing`. The wire
/// rests as it is made, and from when it is told to until bytes come or go, or it is told not to. The reader is asked
/// for more bytes than a read has room for, in fewer calls; those are held, and handed out at rest alone too, as if each
/// read had asked. A call that was interrupted, or refused since it would wait, answers `Nothing`: the next one tries
/// again. What is written is flushed at once, and a flush that fails fails the write.
#[derive(Drop)]
pub struct StdWire<R, W> {
    reader: R,
    writer: W,
    ahead: ReadAhead,
    counts: Counts,
    quiet: bool,
    rested: bool,
}

impl<R: Read + Drop, W: Write + Drop> StdWire<R, W> {
    /// A wire that reads from the one and writes to the other. Where there is no memory both are let go.
    pub fn new(alloc: Global, reader: R, writer: W) -> Result<StdWire<R, W>, AllocError>
        ensures reader { IfOk result (λ wire. reader_of wire ≡ reader) }
        ensures writer { IfOk result (λ wire. writer_of wire ≡ writer) }
        ensures held { IfOk result (λ wire. read_ahead_of wire ≡ []) }
        ensures counts { IfOk result (λ wire. told_standard wire ≡ uncounted None None) }
        ensures rested { IfOk result (λ wire. rested_of wire ≡ true) }
    {
        Ok(StdWire {
            reader,
            writer,
            ahead: ReadAhead::new(alloc)?,
            counts: Counts::new(),
            quiet: true,
            rested: true,
        })
    }
}

/// Whether the same call may succeed when it is tried again.
pub(super) fn is_passing(error: &io::Error) -> bool
    ensures { IsTrue result ↔ IsPassing (error_kind error.now) }
{
    matches!(error.kind(), ErrorKind::Interrupted | ErrorKind::WouldBlock)
}

impl<R: Read + Drop, W: Write + Drop> Wire for StdWire<R, W> {
    ghost tells = { told_standard };

    fn try_read(&mut self, buf: &mut [u8]) -> TryRead
        requires { 0 < length buf.old }
        ensures tells { ReadTells (told_standard self.old) (told_standard self.new) buf.new result }
        ensures takes_in { TakesIn (R.remaining (reader_of self.old)) (R.remaining (reader_of self.new))
            (read_ahead_of self.old) (read_ahead_of self.new) buf.new result }
        ensures gives { rested_of self.old ≡ true → 0 < length (read_ahead_of self.old) →
            result ≡ TryRead.Got (min (length (read_ahead_of self.old)) (length buf.new)) }
        ensures rests { RestsOnRead (rested_of self.old) (rested_of self.new) result }
        ensures unasked { (rested_of self.old ≡ false) ⊎ (0 < length (read_ahead_of self.old)) →
            reader_of self.new ≡ reader_of self.old }
        ensures writer { writer_of self.new ≡ writer_of self.old }
    {
        let answer = if self.rested {
            self.ahead.read_from(&mut self.reader, buf)
        } else {
            TryRead::Nothing
        };
        self.rested &= !matches!(answer, TryRead::Got(_));
        self.counts.count_read(answer);
        answer
    }

    fn try_write(&mut self, bytes: &[u8]) -> TryWrite
        requires { 0 < length bytes.now }
        ensures tells { WriteTells (told_standard self.old) (told_standard self.new) bytes.now result }
        ensures sends_out { SendsOut (W.contents (writer_of self.old))
            (W.contents (writer_of self.new)) bytes.now result }
        ensures reader { reader_of self.new ≡ reader_of self.old }
        ensures held { read_ahead_of self.new ≡ read_ahead_of self.old }
        ensures rests { RestsNot (rested_of self.old) (rested_of self.new) result }
    {
        match self.writer.write(bytes) {
            Ok(count) if count > 0 && self.writer.flush().is_ok() => {
                self.rested = false;
                TryWrite::Put(count)
            }
            Err(error) if is_passing(&error) => {
                self.counts.full_write();
                TryWrite::Nothing
            }
            Ok(_) | Err(_) => {
                self.counts.failed();
                TryWrite::Failed
            }
        }
    }

    fn rest(&mut self, quiet: bool)
        ensures tells { told_standard self.new ≡ record (told_standard self.old) { quiet = quiet } }
        ensures reader { reader_of self.new ≡ reader_of self.old }
        ensures writer { writer_of self.new ≡ writer_of self.old }
        ensures held { read_ahead_of self.new ≡ read_ahead_of self.old }
        ensures rested { rested_of self.new ≡ quiet }
    {
        self.quiet = quiet;
        self.rested = quiet;
    }

    fn failures(&self) -> u64
        ensures { result ≡ (told_standard self.now).failures }
    {
        self.counts.failures
    }

    fn nothings(&self) -> Nothings
        ensures { result ≡ nothings_of (told_standard self.now) }
    {
        self.counts.nothings()
    }
}

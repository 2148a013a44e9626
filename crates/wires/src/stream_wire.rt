//! A wire over a stream that never waits for the client, as a socket that was set so. It has no buffer.
ghost use Rattle.std.specs.Prelude.{◌≡◌, true};
ghost use Rattle.wires.specs.Wires.{uncounted};
ghost use Rattle.wires.specs.StreamWires.{told_stream, stream_of, MeansRead, MeansWrite, ShutsStream};

use crate::client::DirectWire;
use crate::counts::{Counts, Nothings};
use crate::standard::is_passing;
use crate::stream::Stream;
use crate::wire::{TryRead, TryWrite, Wire};
use std::io;

/// A wire over a stream, which tells the bytes that the stream tells. A call that was interrupted, or would have
/// waited, answers `Nothing`: a later one tries again.
#[derive(Drop)]
pub struct StreamWire<S> {
    stream: S,
    counts: Counts,
    quiet: bool,
}

impl<S: Stream + Drop> StreamWire<S> {
    /// A wire over this stream.
    pub fn new(stream: S) -> StreamWire<S>
        ensures stream { stream_of result ≡ stream }
        ensures told { told_stream S.gave S.took result ≡ uncounted (S.gave stream) (S.took stream) }
    {
        StreamWire {
            stream,
            counts: Counts::new(),
            quiet: true,
        }
    }

    /// The stream.
    pub fn stream(&self) -> &S
        ensures { result.now ≡ stream_of self.now }
    {
        &self.stream
    }
}

/// What a stream's answer to a read means.
pub(crate) fn read_answer(read: io::Result<usize>) -> TryRead
    ensures { MeansRead read result }
{
    match read {
        Ok(0) => TryRead::End,
        Ok(count) => TryRead::Got(count),
        Err(error) if is_passing(&error) => TryRead::Nothing,
        Err(_) => TryRead::Failed,
    }
}

/// What a stream's answer to a write means.
pub(crate) fn write_answer(written: io::Result<usize>) -> TryWrite
    ensures { MeansWrite written result }
{
    match written {
        Ok(0) => TryWrite::Failed,
        Ok(count) => TryWrite::Put(count),
        Err(error) if is_passing(&error) => TryWrite::Nothing,
        Err(_) => TryWrite::Failed,
    }
}

impl<S: Stream + Drop> Wire for StreamWire<S> {
    ghost tells = { told_stream S.gave S.took };

    fn try_read(&mut self, buf: &mut [u8]) -> TryRead {
        let answer = read_answer(self.stream.read(buf));
        self.counts.count_read(answer);
        answer
    }

    fn try_write(&mut self, bytes: &[u8]) -> TryWrite {
        let answer = write_answer(self.stream.write(bytes));
        self.counts.count_write(answer);
        answer
    }

    fn rest(&mut self, quiet: bool)
        ensures tells { told_stream S.gave S.took self.new ≡ record (told_stream S.gave S.took self.old) { quiet = quiet } }
        ensures stream { stream_of self.new ≡ stream_of self.old }
    {
        self.quiet = quiet;
    }

    fn failures(&self) -> u64 {
        self.counts.failures
    }

    fn nothings(&self) -> Nothings {
        self.counts.nothings()
    }
}

impl<S: Stream + Drop> DirectWire for StreamWire<S> {
    ghost was_shut = { ShutsStream S.was_shut };

    fn shut(&mut self) {
        self.stream.shut();
    }
}

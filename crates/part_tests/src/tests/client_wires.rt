//! What a session meets at standard input and output, and at a stream: readers and writers that do less than they are
//! asked for, or fail.
ghost use Rattle.std.specs.Prelude.{◌<◌, ◌≤◌, ⊤, None, length, IfOk};

use std::alloc::{AllocError, Global};
use std::cell::Cell;
use std::io;
use std::io::{ErrorKind, Read, Write};
use std::process::Abort;
use std::test::Fail;
use wires::{
    ClientWire, DirectWire, GatheringWire, Input, MemStream, MemWire, Nothings, StdWire, Stream,
    TcpWire, TryRead, TryWrite, Wire, wire_over,
};

/// A reader and a writer that go through a script: each read, write and flush takes the next step.
#[derive(Drop)]
struct Script<'a>(&'a [Step]);

#[derive(Clone, Copy)]
enum Step {
    Moves(usize),
    Fails(ErrorKind),
}

impl Script<'_> {
    fn step(&mut self, room: usize) -> io::Result<usize>
        ensures { IfOk result (λ n. n ≤ room) }
    {
        let Some((step, others)) = self.0.split_first() else {
            return Ok(0);
        };
        self.0 = others;
        match *step {
            Step::Moves(count) => Ok(count.min(room)),
            Step::Fails(kind) => Err(io::Error::from(kind)),
        }
    }
}

impl Read for Script<'_> {
    fn read(&mut self, buf: &mut [u8]) -> io::Result<usize> {
        self.step(buf.len())
    }
}

impl Write for Script<'_> {
    fn write(&mut self, buf: &[u8]) -> io::Result<usize> {
        self.step(buf.len())
    }

    fn flush(&mut self) -> io::Result<()> {
        self.step(0)?;
        Ok(())
    }
}

/// Reads into eight bytes, and is given this answer.
fn expect_read<A: Abort, W: Wire>(rt: &A, wire: &mut W, answer: TryRead) {
    assert_eq!(rt; wire.try_read(&mut [0; 8]), answer);
}

/// So many calls failed, and so many reads and writes answered Nothing.
fn expect_counts<A: Abort, W: Wire>(rt: &A, wire: &W, failures: u64, nothings: (u64, u64)) {
    let (reads, writes) = nothings;
    assert_eq!(rt; wire.failures(), failures);
    assert_eq!(rt; wire.nothings(), Nothings { reads, writes });
}

/// Rests before each such read.
fn expect_reads_at_rest<A: Abort, W: Wire>(rt: &A, wire: &mut W, answers: &[TryRead]) {
    for answer in answers {
        wire.rest(true);
        expect_read(rt, wire, *answer);
    }
}

/// Writes these bytes as often as there are answers, and is given those.
fn expect_writes<A: Abort, W: Wire>(rt: &A, wire: &mut W, bytes: &[u8], answers: &[TryWrite])
    requires { 0 < length bytes.now }
{
    for answer in answers {
        assert_eq!(rt; wire.try_write(bytes), *answer);
    }
}

#[test]
fn reads_on_after_a_failure(rt: HostRuntime) -> Result<(), Fail> {
    let steps = [
        Step::Moves(3),
        Step::Fails(ErrorKind::Interrupted),
        Step::Moves(8),
        Step::Fails(ErrorKind::WouldBlock),
        Step::Fails(ErrorKind::ConnectionReset),
        Step::Moves(1),
        Step::Moves(0),
    ];
    let answers = [
        TryRead::Got(3),
        TryRead::Nothing,
        TryRead::Got(8),
        TryRead::Nothing,
        TryRead::Failed,
        TryRead::Got(1),
        TryRead::End,
    ];
    let mut wire = StdWire::new(rt.alloc(), Script(&steps), Script(&[]))?;
    expect_reads_at_rest(&rt, &mut wire, &answers);
    expect_counts(&rt, &wire, 1, (2, 0));
    Ok(())
}

#[test]
fn a_reader_is_asked_only_at_rest(rt: HostRuntime) -> Result<(), Fail> {
    let reads = [Step::Moves(3), Step::Moves(2), Step::Moves(0)];
    let writes = [Step::Moves(8), Step::Moves(0)];
    let mut wire = StdWire::new(rt.alloc(), Script(&reads), Script(&writes))?;
    expect_read(&rt, &mut wire, TryRead::Got(3));
    expect_read(&rt, &mut wire, TryRead::Nothing);
    expect_read(&rt, &mut wire, TryRead::Nothing);
    wire.rest(true);
    expect_writes(&rt, &mut wire, b"8=FIX.4.", &[TryWrite::Put(8)]);
    expect_read(&rt, &mut wire, TryRead::Nothing);
    wire.rest(true);
    wire.rest(false);
    expect_read(&rt, &mut wire, TryRead::Nothing);
    expect_reads_at_rest(&rt, &mut wire, &[TryRead::Got(2)]);
    expect_read(&rt, &mut wire, TryRead::Nothing);
    expect_reads_at_rest(&rt, &mut wire, &[TryRead::End]);
    expect_counts(&rt, &wire, 0, (5, 0));
    Ok(())
}

/// A reader that gives its bytes, as many as there is room for, and counts how often it was asked.
#[derive(Drop)]
struct Asked<'a> {
    bytes: &'a [u8],
    calls: &'a Cell<u32>,
}

impl Read for Asked<'_> {
    fn read(&mut self, buf: &mut [u8]) -> io::Result<usize> {
        self.calls.set(self.calls.get().saturating_add(1));
        let count = self.bytes.len().min(buf.len());
        let (given, left) = self.bytes.split_at(count);
        buf[..count].copy_from_slice(given);
        self.bytes = left;
        Ok(count)
    }
}

/// At rest such a read gives the next so many of these bytes, or all there are. Behind it the wire gives none until it
/// rests again.
fn expect_piece<A: Abort, W: Wire>(rt: &A, wire: &mut W, bytes: &[u8], from: usize) {
    let mut buf = [0; 512];
    let piece = bytes.get(from..).unwrap_or(&[]);
    let count = piece.len().min(512);
    wire.rest(true);
    assert_eq!(rt; wire.try_read(&mut buf), TryRead::Got(count));
    assert_eq!(rt; &buf[..count], &piece[..count]);
    expect_read(rt, wire, TryRead::Nothing);
    wire.rest(false);
    expect_read(rt, wire, TryRead::Nothing);
}

/// 250 rows of 16 bytes each.
fn rows_of_16(alloc: Global) -> Result<Vec<u8>, AllocError> {
    let mut bytes = Vec::new(alloc);
    for row in 0..250 {
        bytes.extend_from_slice(&[row; 16])?;
    }
    Ok(bytes)
}

/// Where the pieces of them begin.
const PIECES: [usize; 8] = [0, 512, 1024, 1536, 2048, 2560, 3072, 3584];

#[test]
fn standard_input_is_read_ahead_and_handed_out_at_rest(rt: HostRuntime) -> Result<(), Fail> {
    let bytes = rows_of_16(rt.alloc())?;
    let calls = Cell::new(0);
    let reader = Asked {
        bytes: &bytes,
        calls: &calls,
    };
    let mut wire = StdWire::new(rt.alloc(), reader, Script(&[]))?;
    for from in &PIECES {
        expect_piece(&rt, &mut wire, &bytes, *from);
        assert_eq!(rt; calls.get(), 1);
    }
    expect_counts(&rt, &wire, 0, (16, 0));
    expect_reads_at_rest(&rt, &mut wire, &[TryRead::End]);
    assert_eq!(rt; calls.get(), 2);
    Ok(())
}

#[test]
fn a_session_reads_at_most_512_bytes(rt: HostRuntime) -> Result<(), Fail> {
    let mut wire = MemWire::new(rt.alloc(), &[b'0'; 1300])?;
    assert!(rt; fills(&mut wire, 512));
    assert!(rt; fills(&mut wire, 512));
    assert!(rt; fills(&mut wire, 276));
    Ok(())
}

/// Whether a session reads so many bytes at once.
fn fills(wire: &mut MemWire, count: usize) -> bool {
    let mut input = Input::new();
    input.fill(wire) == TryRead::Got(count) && input.as_slice().len() == count
}

#[test]
fn a_wire_counts_what_moved_nothing(rt: HostRuntime) -> Result<(), Fail> {
    let open = MemWire::new(rt.alloc(), b"8=FIX")?.staying_open();
    expect_full(&rt, &mut open.full_after(7));
    let mut breaks = MemWire::new(rt.alloc(), b"")?.breaking_after(7);
    expect_breaks(&rt, &mut breaks);
    Ok(())
}

/// Five bytes come and then none, and seven are taken and then none.
fn expect_full<A: Abort>(rt: &A, full: &mut MemWire) {
    expect_read(rt, full, TryRead::Got(5));
    expect_read(rt, full, TryRead::Nothing);
    expect_read(rt, full, TryRead::Nothing);
    let answers = [TryWrite::Put(7), TryWrite::Nothing];
    expect_writes(rt, full, b"8=FIX.4", &answers);
    expect_counts(rt, full, 0, (2, 1));
}

/// The client has nothing to say, and its stream breaks behind seven bytes.
fn expect_breaks<A: Abort>(rt: &A, breaks: &mut MemWire) {
    expect_read(rt, breaks, TryRead::End);
    let answers = [TryWrite::Put(7), TryWrite::Failed];
    expect_writes(rt, breaks, b"8=FIX.4", &answers);
    expect_counts(rt, breaks, 1, (0, 0));
}

#[test]
fn a_write_is_flushed_or_failed(rt: HostRuntime) -> Result<(), Fail> {
    let kept = Step::Moves(0);
    let steps = [
        Step::Moves(3),
        kept,
        Step::Fails(ErrorKind::Interrupted),
        Step::Moves(1000),
        kept,
        Step::Moves(3),
        Step::Fails(ErrorKind::StorageFull),
        Step::Fails(ErrorKind::BrokenPipe),
        Step::Moves(0),
        Step::Moves(1),
        kept,
    ];
    let answers = [
        TryWrite::Put(3),
        TryWrite::Nothing,
        TryWrite::Put(8),
        TryWrite::Failed,
        TryWrite::Failed,
        TryWrite::Failed,
        TryWrite::Put(1),
    ];
    let mut wire = StdWire::new(rt.alloc(), Script(&[]), Script(&steps))?;
    expect_writes(&rt, &mut wire, b"8=FIX.4.", &answers);
    expect_counts(&rt, &wire, 3, (0, 1));
    Ok(())
}

/// A stream that has bytes to give, and keeps those that it takes. Its reads and its writes go through a script each.
#[derive(Drop)]
struct Line<'a> {
    input: &'a [u8],
    reads: Script<'a>,
    writes: Script<'a>,
    sent: Vec<u8>,
}

impl<'a> Line<'a> {
    fn new(alloc: Global, input: &'a [u8], reads: &'a [Step], writes: &'a [Step]) -> Line<'a> {
        Line {
            input,
            reads: Script(reads),
            writes: Script(writes),
            sent: Vec::new(alloc),
        }
    }
}

impl Stream for Line<'_> {
    ghost gave = { λ _. None };

    ghost took = { λ _. None };

    ghost was_shut = { λ _ _. ⊤ };

    fn read(&mut self, buf: &mut [u8]) -> io::Result<usize> {
        let count = self.reads.step(buf.len().min(self.input.len()))?;
        let (given, left) = self.input.split_at(count);
        buf[..count].copy_from_slice(given);
        self.input = left;
        Ok(count)
    }

    fn write(&mut self, bytes: &[u8]) -> io::Result<usize> {
        let count = self.writes.step(bytes.len())?;
        self.sent.extend_from_slice(&bytes[..count])?;
        Ok(count)
    }

    fn shut(&mut self) {}
}

/// Reads two bytes at a time and keeps them, and is given these answers.
fn expect_reads_by_two<A: Abort, W: Wire>(
    rt: &A,
    wire: &mut W,
    answers: &[TryRead],
    bytes: &mut Vec<u8>,
) -> Result<(), AllocError> {
    for answer in answers {
        let mut buf = [0; 2];
        assert_eq!(rt; wire.try_read(&mut buf), *answer);
        if let TryRead::Got(count) = *answer {
            bytes.extend_from_slice(&buf[..count.min(2)])?;
        }
    }
    Ok(())
}

#[test]
fn what_is_read_ahead_is_handed_out_in_order(rt: HostRuntime) -> Result<(), Fail> {
    let steps = [
        Step::Fails(ErrorKind::WouldBlock),
        Step::Moves(5),
        Step::Fails(ErrorKind::Interrupted),
        Step::Moves(1000),
        Step::Fails(ErrorKind::ConnectionReset),
        Step::Moves(1000),
    ];
    let answers = [
        TryRead::Nothing,
        TryRead::Got(2),
        TryRead::Got(2),
        TryRead::Got(1),
        TryRead::Nothing,
        TryRead::Got(2),
        TryRead::Got(2),
        TryRead::Failed,
        TryRead::End,
    ];
    let line = Line::new(rt.alloc(), b"8=FIX.4.4", &steps, &[]);
    let mut wire = wire_over(rt.alloc(), line)?;
    expect_order(&rt, rt.alloc(), &mut wire, &answers)?;
    expect_counts(&rt, &wire, 1, (2, 0));
    expect_counts(&rt, wire.below(), 1, (2, 0));
    Ok(())
}

/// Such reads are given these answers, and the line's bytes in their order.
fn expect_order<A: Abort>(
    rt: &A,
    alloc: Global,
    wire: &mut TcpWire<Line<'_>>,
    answers: &[TryRead],
) -> Result<(), AllocError> {
    let mut bytes = Vec::new(alloc);
    expect_reads_by_two(rt, wire, answers, &mut bytes)?;
    assert_eq!(rt; bytes.as_slice(), b"8=FIX.4.4".as_slice());
    Ok(())
}

/// Writes each row, works, and flushes: says whether all was sent.
fn expect_flushes<A: Abort, W: DirectWire + Drop>(
    rt: &A,
    wire: &mut GatheringWire<W>,
    rows: &[(&[u8; 5], bool)],
) {
    for (bytes, sent) in rows {
        assert_eq!(rt; wire.try_write(*bytes), TryWrite::Put(5));
        wire.rest(false);
        assert_eq!(rt; wire.flush(), *sent);
    }
}

#[test]
fn what_is_written_waits_until_it_is_sent(rt: HostRuntime) -> Result<(), Fail> {
    let steps = [
        Step::Moves(3),
        Step::Fails(ErrorKind::WouldBlock),
        Step::Fails(ErrorKind::Interrupted),
        Step::Moves(1000),
        Step::Moves(1),
        Step::Moves(1000),
    ];
    let line = Line::new(rt.alloc(), b"", &[], &steps);
    let mut wire = wire_over(rt.alloc(), line)?;
    expect_all_sent(&rt, &mut wire);
    Ok(())
}

/// What is written three times before a flush, and once before a rest, is sent in order.
fn expect_all_sent<A: Abort>(rt: &A, wire: &mut TcpWire<Line<'_>>) {
    expect_flushes(
        rt,
        wire,
        &[(b"8=FIX", false), (b".4.4|", false), (b"9=5|3", true)],
    );
    expect_writes(rt, wire, b"5=0|1", &[TryWrite::Put(5)]);
    wire.rest(true);
    assert_eq!(rt;
        wire.below().stream().sent.as_slice(),
        b"8=FIX.4.4|9=5|35=0|1".as_slice()
    );
}

/// Whether these are 200 rows of 1,024 bytes each, in order.
fn are_rows(sent: &[u8]) -> bool {
    for row in 0..200 {
        if !is_row(sent, row) {
            return false;
        }
    }
    sent.len() == 204_800
}

fn is_row(sent: &[u8], row: u8) -> bool {
    let from = usize::from(row) * 1024;
    sent.get(from..from + 1024) == Some([row; 1024].as_slice())
}

#[test]
fn a_slow_client_gets_all_in_order(rt: HostRuntime) -> Result<(), Fail> {
    let steps = [
        Step::Fails(ErrorKind::WouldBlock),
        Step::Moves(100),
        Step::Fails(ErrorKind::Interrupted),
        Step::Moves(60_000),
        Step::Moves(100_000),
        Step::Moves(1),
        Step::Moves(1000),
        Step::Moves(100_000),
        Step::Moves(100_000),
    ];
    let line = Line::new(rt.alloc(), b"", &[], &steps);
    let mut wire = wire_over(rt.alloc(), line)?;
    for row in 0..200 {
        expect_writes(&rt, &mut wire, &[row; 1024], &[TryWrite::Put(1024)]);
    }
    assert_eq!(rt; wire.below().stream().sent.len(), 193_536);
    assert!(rt; wire.flush());
    assert!(rt; are_rows(&wire.below().stream().sent));
    expect_counts(&rt, &wire, 0, (0, 0));
    expect_counts(&rt, wire.below(), 0, (0, 2));
    Ok(())
}

/// Behind its first failure it holds nothing back, neither reads nor writes any more, and counts each try.
fn is_given_up<A: Abort, W: DirectWire + Drop>(rt: &A, wire: &mut GatheringWire<W>) {
    assert!(rt; wire.flush());
    expect_read(rt, wire, TryRead::Failed);
    expect_writes(rt, wire, b"8=FIX.4.4", &[TryWrite::Failed; 2]);
    expect_counts(rt, wire, 4, (0, 0));
}

#[test]
fn a_deaf_client_is_given_up_at_a_full_backlog(rt: HostRuntime) -> Result<(), Fail> {
    let stream = MemStream::new(rt.alloc(), b"8=FIX.4.4")?.full_after(100);
    let mut wire = wire_over(rt.alloc(), stream)?;
    let block = vec![in rt.alloc(); b'0'; 16_777_210]?;
    expect_writes(&rt, &mut wire, &block, &[TryWrite::Put(16_777_210)]);
    let answers = [TryWrite::Put(53), TryWrite::Put(53), TryWrite::Failed];
    expect_writes(&rt, &mut wire, &[b'1'; 53], &answers);
    assert_eq!(rt; wire.below().stream().taken(), [b'0'; 100].as_slice());
    is_given_up(&rt, &mut wire);
    Ok(())
}

/// A stream that takes a byte a write.
#[derive(Drop)]
struct Sips(usize);

impl Stream for Sips {
    ghost gave = { λ _. None };

    ghost took = { λ _. None };

    ghost was_shut = { λ _ _. ⊤ };

    fn read(&mut self, _buf: &mut [u8]) -> io::Result<usize> {
        Ok(0)
    }

    fn write(&mut self, _bytes: &[u8]) -> io::Result<usize> {
        self.0 = self.0.saturating_add(1);
        Ok(1)
    }

    fn shut(&mut self) {}
}

#[test]
fn a_client_that_never_catches_up_is_given_up(rt: HostRuntime) -> Result<(), Fail> {
    let mut wire = wire_over(rt.alloc(), Sips(0))?;
    let block = vec![in rt.alloc(); b'0'; 16_777_216]?;
    expect_writes(&rt, &mut wire, &block, &[TryWrite::Put(16_777_216)]);
    for _ in 1..100_000 {
        expect_writes(&rt, &mut wire, b"8=FIX.4.4", &[TryWrite::Put(1)]);
    }
    expect_writes(&rt, &mut wire, b"8=FIX.4.4", &[TryWrite::Failed]);
    assert_eq!(rt; wire.below().stream().0, 99_999);
    is_given_up(&rt, &mut wire);
    Ok(())
}

/// It holds nothing back, reads no more, and counts each try.
fn is_broken<A: Abort, W: DirectWire + Drop>(rt: &A, wire: &mut GatheringWire<W>) {
    for failures in 1..3 {
        assert!(rt; wire.flush());
        expect_read(rt, wire, TryRead::Failed);
        expect_counts(rt, wire, failures, (0, 0));
    }
}

#[test]
fn a_wire_whose_write_failed_is_broken(rt: HostRuntime) -> Result<(), Fail> {
    expect_broken_at(&rt, rt.alloc(), Step::Fails(ErrorKind::BrokenPipe))?;
    expect_broken_at(&rt, rt.alloc(), Step::Moves(0))
}

/// The first write goes so, and breaks the wire, over which nothing is sent.
fn expect_broken_at<A: Abort>(rt: &A, alloc: Global, step: Step) -> Result<(), Fail> {
    let steps = [step, Step::Moves(1000)];
    let line = Line::new(alloc, b"8=FIX.4.4", &[Step::Moves(3)], &steps);
    let mut wire = wire_over(alloc, line)?;
    expect_writes(rt, &mut wire, b"8=FIX", &[TryWrite::Put(5)]);
    is_broken(rt, &mut wire);
    expect_writes(rt, &mut wire, b".4.4", &[TryWrite::Failed]);
    assert!(rt; wire.below().stream().sent.is_empty());
    Ok(())
}

/// Reads all that the client has sent, two bytes at a time.
fn expect_all_read<A: Abort>(
    rt: &A,
    alloc: Global,
    wire: &mut TcpWire<MemStream>,
) -> Result<(), AllocError> {
    let mut bytes = Vec::new(alloc);
    let answers = [
        TryRead::Got(2),
        TryRead::Got(2),
        TryRead::Got(2),
        TryRead::Got(2),
        TryRead::Got(1),
    ];
    expect_reads_by_two(rt, wire, &answers, &mut bytes)?;
    expect_read(rt, wire, TryRead::Nothing);
    assert_eq!(rt; bytes.as_slice(), wire.below().stream().given());
    Ok(())
}

#[test]
fn a_client_that_leaves_is_sent_all_and_then_the_end(rt: HostRuntime) -> Result<(), Fail> {
    let stream = MemStream::new(rt.alloc(), b"8=FIX.4.4")?
        .in_pieces(4)
        .staying_open();
    let mut wire = wire_over(rt.alloc(), stream)?;
    expect_all_read(&rt, rt.alloc(), &mut wire)?;
    expect_writes(&rt, &mut wire, b"8=FIX.4", &[TryWrite::Put(7); 2]);
    assert!(rt; wire.flush());
    assert_eq!(rt; wire.below().stream().taken(), b"8=FIX.48=FIX.4".as_slice());
    assert!(rt; !wire.below().stream().is_shut());
    wire.shut();
    assert!(rt; wire.below().stream().is_shut());
    Ok(())
}

#[test]
fn what_a_client_does_not_take_is_held(rt: HostRuntime) -> Result<(), Fail> {
    let stream = MemStream::new(rt.alloc(), b"")?.full_after(12);
    let mut wire = wire_over(rt.alloc(), stream)?;
    expect_writes(&rt, &mut wire, b"8=FIX.4", &[TryWrite::Put(7); 2]);
    expect_flush(&rt, &mut wire, false);
    wire.give_up();
    expect_flush(&rt, &mut wire, true);
    Ok(())
}

/// A flush sends all or not, and the client has taken twelve bytes.
fn expect_flush<A: Abort>(rt: &A, wire: &mut TcpWire<MemStream>, sent: bool) {
    assert_eq!(rt; wire.flush(), sent);
    assert_eq!(rt; wire.below().stream().taken(), b"8=FIX.48=FIX".as_slice());
}

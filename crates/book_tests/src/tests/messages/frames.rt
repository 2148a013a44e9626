//! Bytes that come in, cut into frames.
use super::texts::{BUY, LOGON, LONGEST, bytes_of};
use fix_frame::{FrameFault, Framer, whole};
use std::alloc::{AllocError, Global};
use std::test::Fail;

/// Bytes whose last one is the first that no frame has there, and the number of the fault.
const FAULTS: [(&str, u8); 9] = [
    (
        "8=FIX.4.4|9=63|35=A|49=C1|56=VENUE|34=1|52=20250102-09:30:00|98=0|108=0|141=Y|10=027|",
        3,
    ),
    (
        "8=FIX.4.4|9=63|35=A|49=C1|56=VENUE|34=1|52=20250102-09:30:00|98=0|108=0|141=Y|10=26|8",
        3,
    ),
    ("8=FIX.4.4|9=0", 2),
    ("8=FIX.4.2", 1),
    ("8=FIX.4.4|9=4|", 2),
    ("8=FIX.4.4|9=5|35=AB10=245|", 2),
    ("8=FIX.4.4|9=1000", 4),
    ("8=FIX.4.4|9=298", 4),
    ("8=FIX.4.4|9=9|35=A|49=|10=099|", 5),
];

/// Whether the frame that stands is this one, if one stands.
fn is_next(framer: &mut Framer, wanted: Option<&&[u8]>) -> Option<bool> {
    let frame = framer.next()?;
    Some(Some(&frame.text()) == wanted)
}

/// Feeds a stream in pieces of this size, and says whether just these frames come of it.
fn reads(
    framer: &mut Framer,
    stream: &[u8],
    size: usize,
    wanted: &[&[u8]],
) -> Result<bool, FrameFault> {
    let mut rest = stream;
    let mut count = 0_usize;
    for _ in 0..stream.len() {
        let taken = framer.feed(&rest[..size.min(rest.len())])?;
        rest = &rest[taken..];
        match is_next(framer, wanted.get(count)) {
            Some(true) => count = count.wrapping_add(1),
            Some(false) => return Ok(false),
            None => {}
        }
    }
    Ok(count == wanted.len())
}

/// Feeds a stream in pieces of each size, and says whether just these frames come of it.
fn reads_in_each(
    framer: &mut Framer,
    stream: &[u8],
    sizes: &[usize],
    wanted: &[&[u8]],
) -> Result<bool, FrameFault> {
    for size in sizes {
        if !reads(framer, stream, *size, wanted)? {
            return Ok(false);
        }
    }
    Ok(true)
}

/// The bytes of one behind those of the other.
fn joined(alloc: Global, front: &[u8], rest: &[u8]) -> Result<Vec<u8>, AllocError> {
    let mut bytes = Vec::from_slice(alloc, front)?;
    bytes.extend_from_slice(rest)?;
    Ok(bytes)
}

#[test]
fn any_pieces(rt: HostRuntime) -> Result<(), Fail> {
    let logon = bytes_of(rt.alloc(), LOGON)?;
    let buy = bytes_of(rt.alloc(), BUY)?;
    let stream = joined(rt.alloc(), &logon, &buy)?;
    let mut framer = Framer::new(rt.alloc())?;
    assert!(rt; reads_in_each(&mut framer, &stream, &[1, 7, 85, 100, 210], &[&logon, &buy])?);
    Ok(())
}

/// Whether a frame comes of the first 85 bytes, and none is taken behind it until it was handed out.
fn waits(framer: &mut Framer, stream: &[u8]) -> bool {
    framer.feed(stream) == Ok(85) && framer.feed(b"8=FIX") == Ok(0) && is_one(framer)
}

/// Whether one frame stands, and then none.
fn is_one(framer: &mut Framer) -> bool {
    framer.next().is_some() && framer.next().is_none()
}

#[test]
fn none_is_taken_while_a_frame_stands(rt: HostRuntime) -> Result<(), Fail> {
    let logon = bytes_of(rt.alloc(), LOGON)?;
    let stream = joined(rt.alloc(), &logon, b"8=FIX")?;
    let mut framer = Framer::new(rt.alloc())?;
    assert!(rt; waits(&mut framer, &stream));
    assert_eq!(rt; framer.feed(b"8=FIX"), Ok(5));
    Ok(())
}

#[test]
fn longest_message(rt: HostRuntime) -> Result<(), Fail> {
    let longest = bytes_of(rt.alloc(), LONGEST)?;
    assert_eq!(rt; longest.len(), 320);
    let mut framer = Framer::new(rt.alloc())?;
    assert!(rt; reads_in_each(&mut framer, &longest, &[320, 1], &[&longest])?);
    assert!(rt; whole(&longest).is_some());
    Ok(())
}

/// Feeds bytes whose last one is at fault, and says which fault that is. It is told again, and no frame stands.
fn fault_of(framer: &mut Framer, bytes: &[u8]) -> Result<u8, Fail> {
    let Some((last, front)) = bytes.split_last() else {
        return Err(Fail::from("no bytes"));
    };
    if framer.feed(front) != Ok(front.len()) {
        return Err(Fail::from("a fault in front of the last byte"));
    }
    let Err(fault) = framer.feed(&[*last]) else {
        return Err(Fail::from("no fault"));
    };
    if !stays(framer, fault) {
        return Err(Fail::from("the fault doesn't stay"));
    }
    Ok(fault.number())
}

/// Whether the fault is told again, and no frame stands.
fn stays(framer: &mut Framer, fault: FrameFault) -> bool {
    framer.feed(b"8") == Err(fault) && framer.next().is_none()
}

/// Whether this fault comes at the last byte of the text.
fn has_fault(alloc: Global, framer: &mut Framer, text: &str, number: u8) -> Result<bool, Fail> {
    let bytes = bytes_of(alloc, text)?;
    let found = fault_of(framer, &bytes)?;
    Ok(found == number)
}

/// Whether the framer, once it is reset, reads a Logon.
fn reads_on(alloc: Global, framer: &mut Framer) -> Result<bool, Fail> {
    framer.reset();
    let logon = bytes_of(alloc, LOGON)?;
    Ok(reads(framer, &logon, 85, &[&logon])?)
}

#[test]
fn first_fault_wins(rt: HostRuntime) -> Result<(), Fail> {
    let mut framer = Framer::new(rt.alloc())?;
    for (text, number) in &FAULTS {
        let is_found = has_fault(rt.alloc(), &mut framer, text, *number)?;
        assert!(rt; is_found, "{text}");
        assert!(rt; reads_on(rt.alloc(), &mut framer)?);
    }
    Ok(())
}

#[test]
fn whole_is_one_frame_exactly(rt: HostRuntime) -> Result<(), Fail> {
    let bytes = bytes_of(rt.alloc(), LOGON)?;
    let longer = joined(rt.alloc(), &bytes, b"8")?;
    assert_eq!(rt; count_fields(&bytes), Some(8));
    let front = bytes.get(..84).ok_or("no front")?;
    assert!(rt; whole(front).is_none());
    assert!(rt; whole(&longer).is_none());
    Ok(())
}

/// How many fields a frame has.
fn count_fields(bytes: &[u8]) -> Option<usize> {
    let frame = whole(bytes)?;
    Some(frame.fields().count())
}

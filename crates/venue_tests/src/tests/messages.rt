//! Messages as bytes, with their lengths and sums, built by hand. In texts `|` stands for the byte 01.

use std::alloc::{AllocError, Global};

/// The bytes of a text.
fn bytes_of(alloc: Global, text: &str) -> Result<Vec<u8>, AllocError> {
    let mut bytes = Vec::new(alloc);
    for &byte in text.as_bytes() {
        bytes.push(if byte == b'|' { 1 } else { byte })?;
    }
    Ok(bytes)
}

/// The message of this body.
fn framed(alloc: Global, body: &[u8]) -> Result<Vec<u8>, AllocError> {
    let head = format!(in alloc; "8=FIX.4.4|9={}|", body.len())?;
    let mut message = bytes_of(alloc, head.as_str())?;
    message.extend_from_slice(body)?;
    let mut sum = 0_u8;
    for byte in message.as_slice() {
        sum = sum.wrapping_add(*byte);
    }
    let trailer = format!(in alloc; "10={sum:03}|")?;
    message.extend_from_slice(&bytes_of(alloc, trailer.as_str())?)?;
    Ok(message)
}

/// A member's message of this type and number, with these fields behind its header.
pub fn from_member(
    alloc: Global,
    member: u8,
    msg_type: char,
    number: u64,
    fields: &str,
) -> Result<Vec<u8>, AllocError> {
    let body = format!(in alloc;
        "35={msg_type}|49=C{member}|56=VENUE|34={number}|52=20250102-09:30:00|{fields}"
    )?;
    framed(alloc, &bytes_of(alloc, body.as_str())?)
}

/// The venue's message to a member of this type and number, with these bytes behind its header.
pub fn from_venue(
    alloc: Global,
    member: u8,
    msg_type: char,
    number: u64,
    bytes: &[u8],
) -> Result<Vec<u8>, AllocError> {
    let head = format!(in alloc;
        "35={msg_type}|49=VENUE|56=C{member}|34={number}|52=20250102-09:30:00|"
    )?;
    let mut body = bytes_of(alloc, head.as_str())?;
    body.extend_from_slice(bytes)?;
    framed(alloc, &body)
}

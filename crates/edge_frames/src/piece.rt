//! Fields as they are spelled, read off the front of a body.
ghost use Rattle.std.specs.Prelude.{◌≡◌, ◌≤◌, ◌==◌, false, [], length, drop, MatchOption, position};
ghost use Rattle.edge_frames.specs.Fields.{ended, is_spelled, tag_value, tag_of, value_text, may_stand, are_fields};
ghost use Rattle.std.specs.List.{list_all};
ghost use Rattle.edge_frames.specs.Pieces.{SplitsOff, ReadsField};

use crate::number::{are_digits, number};

/// The byte that ends each field.
pub(crate) const SOH: u8 = 1;

/// The tag of MsgType.
const MSG_TYPE: u32 = 35;

/// The first and the last of the three tags that frame a message.
const BEGIN_STRING: u32 = 8;

const CHECK_SUM: u32 = 10;

/// The piece at the front that SOH ends, and what stands behind it.
pub(crate) fn split(bytes: &[u8]) -> Option<(&[u8], &[u8])>
    ensures { MatchOption result (ended bytes.now ≡ []) (λ p. SplitsOff bytes.now p.0.now p.1.now) }
{
    match find(bytes, SOH) {
        Some(at) => Some((&bytes[..at], &bytes[at + 1..])),
        None => None,
    }
}

/// The tag of a field, 0 where its digits spell none, and its value; nothing where the piece is no field.
pub(crate) fn read(piece: &[u8]) -> Option<(u32, &[u8])>
    ensures { MatchOption result (is_spelled piece.now ≡ false) (λ f. ReadsField piece.now f.0 f.1.now) }
{
    let Some(at) = find(piece, b'=') else {
        return None;
    };
    let text = &piece[..at];
    if text.is_empty() || !are_digits(text) {
        return None;
    }
    Some((tag_number(text), &piece[at + 1..]))
}

/// Where the first byte stands that is the mark.
pub(crate) fn find(bytes: &[u8], mark: u8) -> Option<usize>
    ensures { result ≡ position (λ b. b == mark) bytes.now }
{
    bytes.iter().position(|byte| *byte == mark)
}

/// The number of a tag, 0 where the text is none.
fn tag_number(text: &[u8]) -> u32
    ensures { result ≡ tag_value text.now }
{
    match number(text, 5) {
        Some(tag) if text[0] != b'0' => tag,
        Some(_) | None => 0,
    }
}

/// The tag of a field, 0 where it has none.
pub(crate) fn tag_of(piece: &[u8]) -> u32
    ensures { result ≡ tag_of piece.now }
{
    match read(piece) {
        Some((tag, _)) => tag,
        None => 0,
    }
}

/// How many bytes of a piece stand before its value.
pub(crate) fn value_at(piece: &[u8]) -> usize
    ensures within { result ≤ length piece.now }
    ensures value { drop result piece.now ≡ value_text piece.now }
{
    match find(piece, b'=') {
        Some(at) => at + 1,
        None => piece.len(),
    }
}

/// Whether the piece is a field that can stand in a body.
fn may_stand(piece: &[u8]) -> bool
    ensures { result ≡ may_stand piece.now }
{
    let Some((tag, _)) = read(piece) else {
        return false;
    };
    tag < BEGIN_STRING || CHECK_SUM < tag
}

/// Whether what the bytes have of fields are such as stand in a body: MsgType first.
pub(crate) fn are_fields(bytes: &[u8]) -> bool
    ensures { result ≡ are_fields (ended bytes.now) }
{
    let Some((first, behind)) = split(bytes) else {
        return true;
    };
    let Some((tag, _)) = read(first) else {
        return false;
    };
    tag == MSG_TYPE && are_others(behind)
}

/// The same of those behind MsgType.
fn are_others(bytes: &[u8]) -> bool
    ensures { result ≡ list_all may_stand (ended bytes.now) }
{
    let mut rest = bytes;
    while let Some((piece, behind)) = split(rest) {
        if !may_stand(piece) {
            return false;
        }
        rest = behind;
    }
    true
}

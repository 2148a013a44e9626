//! What a message is that is right as a frame.
ghost use Rattle.std.specs.Prelude.{◌≡◌, take};
ghost use Rattle.edge_frames.specs.Fields.{ended};
ghost use Rattle.edge_frames.specs.Faults.{first_piece_fault, has_tag, has_header, is_good, message_verdict};

use crate::fault::piece_fault;
use crate::piece::{read, split};
use crate::reason::RejectReason;

/// A field that isn't taken.
#[derive(Clone, Copy, Debug, PartialEq, Eq)]
pub struct BadField {
    /// How many fields stand before it in the body.
    pub field: usize,
    /// What is wrong with it.
    pub reason: RejectReason,
}

/// What a message is that is right as a frame.
#[derive(Clone, Copy, Debug, PartialEq, Eq)]
pub enum Verdict {
    /// Each field is taken.
    Taken,
    /// A field isn't, and what a Reject has to name is there.
    Refused(BadField),
    /// A field isn't, and it can't be rejected either: as good as garbled.
    Garbled,
}

/// What a message of this body is, which may have so many fields.
pub(crate) fn judge(body: &[u8], most: usize) -> Verdict
    ensures { result ≡ message_verdict most (ended body.now) }
{
    match first_fault(body, most) {
        None => Verdict::Taken,
        Some(fault) => {
            if has_header(body, most) {
                Verdict::Refused(fault)
            } else {
                Verdict::Garbled
            }
        }
    }
}

/// The first field that isn't taken.
fn first_fault(body: &[u8], most: usize) -> Option<BadField>
    ensures { result ≡ first_piece_fault 0 most (ended body.now) }
{
    let mut rest = body;
    let mut field = 0;
    while let Some((piece, behind)) = split(rest) {
        if field >= most {
            let reason = RejectReason::TooMany;
            return Some(BadField { field, reason });
        }
        if let Some(reason) = piece_fault(piece) {
            return Some(BadField { field, reason });
        }
        rest = behind;
        field += 1;
    }
    None
}

/// Whether what a Reject has to name is among the first fields.
fn has_header(body: &[u8], most: usize) -> bool
    ensures { result ≡ has_header (take most (ended body.now)) }
{
    has(body, most, 35) && has(body, most, 34) && has(body, most, 49) && has(body, most, 56)
}

/// Whether a field of this tag is among them, and taken.
fn has(body: &[u8], most: usize, tag: u32) -> bool
    ensures { result ≡ has_tag tag (take most (ended body.now)) }
{
    let mut rest = body;
    let mut room = most;
    while room > 0 {
        let Some((piece, behind)) = split(rest) else {
            return false;
        };
        if is_good(piece, tag) {
            return true;
        }
        rest = behind;
        room -= 1;
    }
    false
}

/// Whether the piece is a field of this tag, 1 to 99,999, and taken.
fn is_good(piece: &[u8], tag: u32) -> bool
    ensures { result ≡ is_good tag piece.now }
{
    match read(piece) {
        Some((found, _)) => found == tag && piece_fault(piece).is_none(),
        None => false,
    }
}

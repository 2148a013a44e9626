//! What is wrong with a field.
ghost use Rattle.std.specs.Prelude.{◌≡◌};
ghost use Rattle.std.specs.List.{list_all};
ghost use Rattle.edge_frames.specs.Faults.{piece_fault, value_fault, number_fault};
ghost use Rattle.edge_frames.specs.Faults.{data_tags, counted_tags, is_one_of, prints};

use crate::number::{are_digits, number};
use crate::piece::read;
use crate::reason::RejectReason;

/// Why a field isn't taken, if it isn't.
pub(crate) fn piece_fault(piece: &[u8]) -> Option<RejectReason>
    ensures { result ≡ piece_fault piece.now }
{
    let Some((tag, value)) = read(piece) else {
        return Some(RejectReason::InvalidTag);
    };
    if tag == 0 || is_data(tag) {
        return Some(RejectReason::InvalidTag);
    }
    value_fault(tag, value)
}

/// The same of a value, where the tag is right.
fn value_fault(tag: u32, value: &[u8]) -> Option<RejectReason>
    ensures { result ≡ value_fault tag value.now }
{
    if value.is_empty() {
        return Some(RejectReason::NoValue);
    }
    if !do_print(value) {
        return Some(RejectReason::BadFormat);
    }
    if is_counted(tag) {
        return number_fault(value);
    }
    None
}

/// The same of a number of the session.
fn number_fault(value: &[u8]) -> Option<RejectReason>
    ensures { result ≡ number_fault value.now }
{
    if number(value, 9).is_some() {
        return None;
    }
    if are_digits(value) && 9 < value.len() {
        return Some(RejectReason::OutOfRange);
    }
    Some(RejectReason::BadFormat)
}

/// Whether each byte prints.
fn do_print(value: &[u8]) -> bool
    ensures { result ≡ list_all prints value.now }
{
    value.iter().all(|byte| 32 <= *byte && *byte <= 126)
}

/// Whether the value is data, which may have any bytes.
fn is_data(tag: u32) -> bool
    ensures { result ≡ is_one_of data_tags tag }
{
    matches!(
        tag,
        89 | 91 | 96 | 213 | 349 | 351 | 353 | 355 | 357 | 359 | 361 | 363 | 365 | 446 | 619 | 622
    )
}

/// Whether the value is a number that sessions go by.
fn is_counted(tag: u32) -> bool
    ensures { result ≡ is_one_of counted_tags tag }
{
    matches!(tag, 7 | 16 | 34 | 36 | 108)
}

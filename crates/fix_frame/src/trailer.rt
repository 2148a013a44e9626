//! The trailer of a frame, CheckSum, and what is wrong with a message once its trailer is there.
ghost use Rattle.std.specs.Prelude.{◌≡◌, ◌<◌, ◌≤◌, ◌↔◌, ◌%◌, ◌++◌, ℕ, length, sum, IsTrue, MatchResult};
ghost use Rattle.fix_frame.specs.Cuts.{EndsInSoh};
ghost use Rattle.fix_frame.specs.Grammar.{head, three_digits, trailer};
ghost use Rattle.fix_frame.specs.Stream.{IsBodyClosed, IsSummed, IsTyped, TailFault};
ghost use Rattle.fix_frame.specs.Endings.{IsRight};

use crate::fault::FrameFault;
use crate::field::{SOH, is_run, read_field};

/// How many bytes a trailer has.
pub(crate) const TRAILER: usize = 7;

/// The tag of MsgType.
const MSG_TYPE: u32 = 35;

/// The sum of the bytes, modulo 256.
fn checksum(bytes: &[u8]) -> u8
    requires { length bytes.now ≤ 1024 }
    ensures { result ≡ sum bytes.now % 256 }
{
    (bytes.iter().map(|byte| u32::from(*byte)).sum::<u32>() % 256) as u8
}

/// A number below 1,000 in exactly three digits.
pub(crate) fn three_digits(n: u16) -> [u8; 3]
    requires { n < 1000 }
    ensures { result ≡ three_digits n }
{
    [
        b'0' + (n / 100) as u8,
        b'0' + (n / 10 % 10) as u8,
        b'0' + (n % 10) as u8,
    ]
}

/// The trailer of these bytes.
pub(crate) fn trailer_of(front: &[u8]) -> [u8; TRAILER]
    requires { length front.now ≤ 1024 }
    ensures { result ≡ trailer front.now }
{
    let sum = checksum(front);
    [
        b'1',
        b'0',
        b'=',
        b'0' + sum / 100,
        b'0' + sum / 10 % 10,
        b'0' + sum % 10,
        SOH,
    ]
}

/// Whether the body ends a field, and CheckSum follows.
pub(crate) fn is_closed(body: &[u8], tail: &[u8]) -> bool
    ensures { IsTrue result ↔ IsBodyClosed body.now tail.now }
{
    body.ends_with(&[SOH]) && tail.starts_with(b"10=")
}

/// Whether CheckSum is that of the bytes before it.
pub(crate) fn is_summed(front: &[u8], tail: &[u8]) -> bool
    requires short { length front.now ≤ 1024 }
    requires tail { length tail.now ≡ 7 }
    ensures { IsTrue result ↔ IsSummed front.now tail.now }
{
    let due = trailer_of(front);
    tail.ends_with(&due[3..])
}

/// Whether the body, which SOH ends, is a run of fields, MsgType first.
pub(crate) fn is_typed(body: &[u8]) -> bool
    requires { EndsInSoh body.now }
    ensures { IsTrue result ↔ IsTyped body.now }
{
    match read_field(body) {
        Some((first, rest)) => first.tag == MSG_TYPE && is_run(rest),
        None => false,
    }
}

/// The first fault of a body and its trailer, where `front` is all that stands before the trailer.
pub(crate) fn judge(front: &[u8], body: &[u8], tail: &[u8]) -> Result<(), FrameFault>
    requires short { length front.now ≤ 1024 }
    requires tail { length tail.now ≡ 7 }
    ensures { (n : ℕ) → front.now ≡ head n ++ body.now →
        MatchResult result (λ _. IsRight n body.now tail.now) (TailFault n body.now tail.now) }
{
    if !is_closed(body, tail) {
        return Err(FrameFault::BadLength);
    }
    if !is_summed(front, tail) {
        return Err(FrameFault::BadChecksum);
    }
    if !is_typed(body) {
        return Err(FrameFault::BadField);
    }
    Ok(())
}

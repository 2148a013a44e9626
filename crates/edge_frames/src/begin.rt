//! Whether a message begins at the front of some bytes, whatever its fields are.
ghost use Rattle.std.specs.Prelude.{◌≡◌, ◌↔◌, ◌^◌, ◌<◌, ◌%◌, length, take, sum, IsTrue};
ghost use Rattle.fix_frame.specs.Cuts.{EndsInSoh};
ghost use Rattle.fix_frame.specs.Grammar.{trailer};
ghost use Rattle.edge_frames.specs.Heads.{IsBegun, HasWholeHead};

use crate::head::{Head, read_head};
use crate::piece::{SOH, are_fields};

/// How many bytes a trailer has.
pub(crate) const TRAILER: usize = 7;

/// What begins at the front of some bytes.
#[derive(Clone, Copy, Debug)]
pub(crate) enum Begin {
    /// No message, whatever comes.
    Nothing,
    /// Maybe one: more has to come.
    More,
    /// One, whose body begins here and has so many bytes.
    Whole(usize, usize),
}

/// What begins there, of at most `longest` bytes. A field that no body can have is seen as soon as it is whole.
pub(crate) fn read_begin(bytes: &[u8], longest: usize) -> Begin
    ensures { IsBegun longest bytes.now result }
{
    match read_head(bytes) {
        Head::Nothing => Begin::Nothing,
        Head::More => Begin::More,
        Head::Whole(at, n) => begin_body(bytes, longest, at, n),
    }
}

/// The same behind a head, where the body begins at `at` and is to have `n` bytes.
fn begin_body(bytes: &[u8], longest: usize, at: usize, n: usize) -> Begin
    requires { HasWholeHead bytes.now at n }
    ensures { IsBegun longest bytes.now result }
{
    let size = at + n + TRAILER;
    if longest < size {
        return Begin::Nothing;
    }
    let (_, behind) = bytes.split_at(at);
    let part = &behind[..n.min(behind.len())];
    if !are_fields(part) {
        return Begin::Nothing;
    }
    if bytes.len() < size {
        return Begin::More;
    }
    let (front, tail) = bytes.split_at(at + n);
    if !ends_in_soh(part) || !is_summed(front, tail) {
        return Begin::Nothing;
    }
    Begin::Whole(at, n)
}

/// Whether SOH is the last byte.
fn ends_in_soh(bytes: &[u8]) -> bool
    ensures { IsTrue result ↔ EndsInSoh bytes.now }
{
    !bytes.is_empty() && bytes[bytes.len() - 1] == SOH
}

/// Whether the trailer of these bytes follows.
fn is_summed(front: &[u8], tail: &[u8]) -> bool
    requires { length front.now < 2 ^ 32 }
    ensures { IsTrue result ↔ (take 7 tail.now ≡ trailer front.now) }
{
    tail.starts_with(&trailer_of(front))
}

/// The sum of the bytes, modulo 256.
fn checksum(bytes: &[u8]) -> u8
    requires { length bytes.now < 2 ^ 32 }
    ensures { result ≡ sum bytes.now % 256 }
{
    (bytes.iter().map(|byte| u64::from(*byte)).sum::<u64>() % 256) as u8
}

/// The trailer of these bytes.
fn trailer_of(front: &[u8]) -> [u8; TRAILER]
    requires { length front.now < 2 ^ 32 }
    ensures { result ≡ trailer front.now }
{
    let sum = checksum(front);
    [
        b'1',
        b'0',
        b'=',
        b'0' + sum / 100,
        b'0' + sum / 10 % 10,
        b'0' + sum % 10,
        SOH,
    ]
}

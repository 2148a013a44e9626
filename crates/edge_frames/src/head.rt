//! The head of a message, BeginString and BodyLength.
ghost use Rattle.std.specs.Prelude.{◌≡◌, ◌↔◌, ◌++◌, ℕ, length, take, IsTrue};
ghost use Rattle.fix_frame.specs.Stages.{opening};
ghost use Rattle.edge_frames.specs.Heads.{IsHead};
ghost use Rattle.edge_frames.specs.Stream.{begins_length};

use crate::number::number;
use crate::piece::{SOH, find};

/// What stands before the digits of each BodyLength.
const OPENING: &[u8] = b"8=FIX.4.4\x019=";

/// What the front of some bytes is as a head.
#[derive(Clone, Copy, Debug)]
pub(crate) enum Head {
    /// None, whatever comes.
    Nothing,
    /// The first of its bytes, and nothing else.
    More,
    /// One of so many bytes, and the BodyLength that it says.
    Whole(usize, usize),
}

/// The head at the front.
pub(crate) fn read_head(bytes: &[u8]) -> Head
    ensures { IsHead bytes.now result }
{
    if bytes.len() < OPENING.len() {
        if begins_opening(bytes) {
            return Head::More;
        }
        return Head::Nothing;
    }
    if !is_opened(bytes) {
        return Head::Nothing;
    }
    read_length(bytes, &bytes[OPENING.len()..])
}

/// The same, where the opening is there, and these bytes behind it.
fn read_length(bytes: &[u8], behind: &[u8]) -> Head
    requires { bytes.now ≡ opening ++ behind.now }
    ensures { IsHead bytes.now result }
{
    match find(behind, SOH) {
        Some(at) => match number(&behind[..at], 9) {
            Some(n) => Head::Whole(OPENING.len() + at + 1, n as usize),
            None => Head::Nothing,
        },
        None if begins_length(behind) => Head::More,
        None => Head::Nothing,
    }
}

/// Whether the bytes, fewer than the opening's, are its first ones.
fn begins_opening(bytes: &[u8]) -> bool
    ensures { IsTrue result ↔ (bytes.now ≡ take (length bytes.now) opening) }
{
    OPENING.starts_with(bytes)
}

/// Whether the opening stands at the front.
fn is_opened(bytes: &[u8]) -> bool
    ensures { IsTrue result ↔ (take 12 bytes.now ≡ opening) }
{
    bytes.starts_with(OPENING)
}

/// Whether these are the digits that have come of a length, if any.
fn begins_length(digits: &[u8]) -> bool
    ensures { result ≡ begins_length digits.now }
{
    digits.is_empty() || number(digits, 9).is_some()
}

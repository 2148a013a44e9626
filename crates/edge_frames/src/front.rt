//! What stands at the front of some bytes: a message with its verdict and its fields, the first of one, or nothing.
ghost use Rattle.std.specs.Prelude.{ℕ, ◌+◌, ◌≤◌, length};
ghost use Rattle.edge_frames.specs.Heads.{StandsThere};
ghost use Rattle.edge_frames.specs.Looks.{StandsInFront, ListsFront};

use crate::begin::{Begin, TRAILER, read_begin};
use crate::list::{FieldPlace, list};
use crate::verdict::{Verdict, judge};

/// A message that comes out.
#[derive(Clone, Copy, Debug, PartialEq, Eq)]
pub struct Message {
    /// How many bytes it has.
    pub size: usize,
    /// How many of its fields are listed: those of its body, MsgType first.
    pub fields: usize,
    /// Taken, or refused.
    pub verdict: Verdict,
}

/// What stands at the front of some bytes.
#[derive(Clone, Copy, Debug)]
pub(crate) enum Front {
    /// Nothing that comes out, whatever follows.
    Nothing,
    /// Maybe the first of a message.
    More,
    /// A message.
    Comes(Message),
}

/// What stands at the front. The fields of a message are listed.
pub(crate) fn read_front(bytes: &[u8], longest: usize, places: &mut [FieldPlace]) -> Front
    ensures front { StandsInFront longest (length places.old) bytes.now result }
    ensures lists { ListsFront bytes.now (length places.old) places.new result }
{
    match read_begin(bytes, longest) {
        Begin::Nothing => Front::Nothing,
        Begin::More => Front::More,
        Begin::Whole(at, n) => read_message(bytes, at, n, places),
    }
}

/// The same of a message that is right as a frame, whose body begins at `at` and has `n` bytes.
fn read_message(bytes: &[u8], at: usize, n: usize, places: &mut [FieldPlace]) -> Front
    requires { (longest : ℕ) × StandsThere longest bytes.now at n }
    ensures front { (longest : ℕ) → StandsThere longest bytes.now at n →
        StandsInFront longest (length places.old) bytes.now result }
    ensures lists { ListsFront bytes.now (length places.old) places.new result }
{
    let end = at + n;
    match judge(&bytes[at..end], places.len()) {
        Verdict::Garbled => Front::Nothing,
        verdict => {
            let size = end + TRAILER;
            let fields = list(&bytes[..size], at, end, places);
            Front::Comes(Message {
                size,
                fields,
                verdict,
            })
        }
    }
}

//! The first message of some bytes.
ghost use Rattle.std.specs.Prelude.{length};
ghost use Rattle.edge_frames.specs.Looks.{Finds, Lists};

use crate::front::{Front, Message, read_front};
use crate::list::FieldPlace;

/// What a look at some bytes finds.
#[derive(Clone, Copy, Debug, PartialEq, Eq)]
pub enum Found {
    /// No message yet: so many bytes are passed over for good, and one may begin behind them.
    Waits(usize),
    /// One, behind so many bytes that are passed over.
    Comes(usize, Message),
}

/// Looks for the first message of at most `longest` bytes. Where one comes out, its fields are listed in `places`: it
/// has no more of them than fit there, or is refused for that. The caller takes off what is passed over and the
/// message, and looks again; or keeps the rest until more comes. A look is linear in the bytes: no message begins among
/// the fields of another that is under way, so each byte is looked at for two of them at most. It keeps nothing: of a
/// message that comes in so many pieces the first bytes are looked at as many times, fewer than `longest` each time.
pub fn look(bytes: &[u8], longest: usize, places: &mut [FieldPlace]) -> Found
    ensures finds { Finds longest (length places.old) bytes.now result }
    ensures lists { Lists bytes.now (length places.old) places.new result }
{
    let mut passed = 0;
    while passed < bytes.len() {
        match read_front(&bytes[passed..], longest, places) {
            Front::Nothing => passed += 1,
            Front::More => return Found::Waits(passed),
            Front::Comes(message) => return Found::Comes(passed, message),
        }
    }
    Found::Waits(passed)
}

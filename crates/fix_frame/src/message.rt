//! Bytes that are exactly one frame, read at once: how a message is read again behind the framer.
ghost use Rattle.std.specs.Prelude.{List, MatchOption};
ghost use Rattle.fix_frame.specs.Grammar.{Field, IsFrame, most_in};
ghost use Rattle.fix_frame.specs.Borrowed.{frame_fields};

use crate::frame::Frame;
use crate::opening::open_body;
use crate::trailer::is_typed;

/// The frame that the bytes are, all of them, if they are one that may come in.
pub fn whole(bytes: &[u8]) -> Option<Frame<'_>> // promise 1
    ensures { MatchOption result ((fields : List Field) → IsFrame most_in bytes.now fields → ⊥)
        (λ frame. IsFrame most_in bytes.now (frame_fields frame)) }
{
    let body = open_body(bytes)?;
    if !is_typed(body.rest) {
        return None;
    }
    Some(Frame::of(bytes, body.rest))
}

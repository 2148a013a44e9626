//! A message opened: its frame is judged, but for what stands in its body. Behind the input ring this is the first
//! thing that happens to a message.
ghost use Rattle.std.specs.Prelude.{◌≡◌, List, MatchOption};
ghost use Rattle.fix_frame.specs.Grammar.{Field, IsFrame, most_in};
ghost use Rattle.fix_frame.specs.Bodies.{bytes_left, OpensTo, IsHeaded};

use crate::body::Body;
use crate::head::{head_step, head_stride};
use crate::stage::Stage;
use crate::trailer::{TRAILER, is_closed, is_summed};

/// The body of a message that is a frame if the body is a run of fields with MsgType (35) first; none where the bytes
/// are no frame, whatever stands in the body.
pub fn open_body(bytes: &[u8]) -> Option<Body<'_>>
    ensures { MatchOption result ((fields : List Field) → IsFrame most_in bytes.now fields → ⊥) (λ body. OpensTo bytes.now (bytes_left body)) }
{
    let mut so_far = 0;
    let mut at = 0;
    while at < bytes.len() {
        let (held, more) = bytes.split_at(at);
        let (length, count) = head_stride(so_far, held, more);
        at += count;
        let Ok(stage) = head_step(length, &bytes[..at]) else {
            return None;
        };
        match stage {
            Stage::Head(next) => so_far = next,
            Stage::Rest(body, count) => return body_behind_head(bytes, body, usize::from(count)),
            Stage::Whole(_) | Stage::Given | Stage::Faulty(_) => return None,
        }
    }
    None
}

/// The same behind a head, where the body begins at `body` and has so many bytes.
fn body_behind_head(bytes: &[u8], body: usize, count: usize) -> Option<Body<'_>>
    requires { IsHeaded bytes.now body count }
    ensures { MatchOption result ((fields : List Field) → IsFrame most_in bytes.now fields → ⊥) (λ body. OpensTo bytes.now (bytes_left body)) }
{
    let end = body + count;
    if bytes.len() != end + TRAILER {
        return None;
    }
    let (front, tail) = bytes.split_at(end);
    let rest = &front[body..];
    if !is_closed(rest, tail) {
        return None;
    }
    if !is_summed(front, tail) {
        return None;
    }
    Some(Body { rest })
}

//! How far a message has come, and what the next byte makes of it.
ghost use Rattle.std.specs.Prelude.{◌<◌, ◌≤◌, ◌+◌, ◌++◌, length, take, MatchResult};
ghost use Rattle.fix_frame.specs.Stream.{IsWrong};
ghost use Rattle.fix_frame.specs.Cuts.{all_but_last};
ghost use Rattle.fix_frame.specs.Stages.{IsResting, IsUnderWay, IsLive};

use crate::fault::FrameFault;
use crate::head::{head_step, head_stride};
use crate::trailer::{TRAILER, judge};

/// How far a message has come.
#[derive(Clone, Copy, Debug)]
pub(crate) enum Stage {
    /// In its head, with this value of the length's digits so far.
    Head(u16),
    /// Behind its head: where the body begins, and how many bytes it has.
    Rest(usize, u16),
    /// All of it is there and it is a frame, whose body begins here.
    Whole(usize),
    /// The frame was given.
    Given,
    /// It is no frame.
    Faulty(FrameFault),
}

/// How many of these bytes the next step takes, behind those that are held, and the stage at which it finds the last of
/// them: all of a head or a byte of it, and behind the head all up to the message's end.
pub(crate) fn stride(stage: Stage, held: &[u8], more: &[u8]) -> (Stage, usize)
    requires some { 0 < length more.now }
    requires under_way { IsUnderWay stage held.now }
    ensures some { 0 < result.1 }
    ensures within { result.1 ≤ length more.now }
    ensures room { length held.now + result.1 ≤ 320 }
    ensures under_way { IsUnderWay result.0 (all_but_last (held.now ++ take result.1 more.now)) }
{
    match stage {
        Stage::Head(so_far) => {
            let (length, count) = head_stride(so_far, held, more);
            (Stage::Head(length), count)
        }
        Stage::Rest(body, count) => {
            let end = body + usize::from(count) + TRAILER;
            (stage, more.len().min(end - held.len()))
        }
        Stage::Whole(_) | Stage::Given | Stage::Faulty(_) => (stage, 1),
    }
}

/// The stage after the last of these bytes.
pub(crate) fn step(stage: Stage, bytes: &[u8]) -> Result<Stage, FrameFault>
    requires some { 0 < length bytes.now }
    requires under_way { IsUnderWay stage (all_but_last bytes.now) }
    ensures { MatchResult result (λ next. IsLive next bytes.now) (IsWrong bytes.now) }
{
    match stage {
        Stage::Head(so_far) => head_step(so_far, bytes),
        Stage::Rest(body, count) => rest_step(body, count, bytes),
        Stage::Whole(_) | Stage::Given | Stage::Faulty(_) => Ok(stage),
    }
}

/// The same behind the head: a message is judged when all of it is there.
fn rest_step(body: usize, count: u16, bytes: &[u8]) -> Result<Stage, FrameFault>
    requires some { 0 < length bytes.now }
    requires resting { IsResting (all_but_last bytes.now) body count }
    ensures { MatchResult result (λ next. IsLive next bytes.now) (IsWrong bytes.now) }
{
    let end = body + usize::from(count);
    if bytes.len() < end + TRAILER {
        return Ok(Stage::Rest(body, count));
    }
    let (front, tail) = bytes.split_at(end);
    judge(front, &front[body..], tail)?;
    Ok(Stage::Whole(body))
}

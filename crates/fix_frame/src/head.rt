//! The head of a frame, BeginString and BodyLength, judged byte by byte as it comes in.
ghost use Rattle.std.specs.Prelude.{◌≡◌, ◌+◌, ◌-◌, ◌<◌, ◌≤◌, ◌++◌, length, take, slice_index, MatchResult};
ghost use Rattle.fix_frame.specs.Stream.{IsWrong};
ghost use Rattle.fix_frame.specs.Cuts.{all_but_last};
ghost use Rattle.fix_frame.specs.Stages.{opening, IsHeading, IsUnderWay};

use crate::fault::FrameFault;
use crate::field::SOH;
use crate::stage::Stage;

/// What stands before the length.
pub(crate) const OPENING: &[u8; 12] = b"8=FIX.4.4\x019=";

/// How many bytes of it BeginString is.
const BEGIN_STRING: usize = 10;

/// The least first digit of a length.
const LEAST_DIGIT: u16 = 1;

/// How many bytes a body that comes in has.
const LEAST_BODY: u16 = 5;

const MOST_BODY: u16 = 297;

/// The length that digits behind the opening spell, and how many bytes stand before the first that isn't one of them,
/// or before the last.
pub(crate) fn length_in_front(bytes: &[u8]) -> (u16, usize)
    requires more { 12 < length bytes.now }
    requires opens { take 12 bytes.now ≡ opening }
    ensures heading { IsHeading (take result.1 bytes.now) result.0 }
    ensures within { result.1 < length bytes.now }
{
    let mut so_far = 0;
    let mut at = OPENING.len();
    while at + 1 < bytes.len() && bytes[at].is_ascii_digit() {
        let length = so_far * 10 + u16::from(bytes[at] - b'0');
        if length < LEAST_DIGIT || length > MOST_BODY {
            return (so_far, at);
        }
        so_far = length;
        at += 1;
    }
    (so_far, at)
}

/// How many of these bytes the next step takes, behind those that are held, which begin a head whose digits spell
/// `so_far`: all of a head, or a byte of it. And what the digits spell before the last of them.
pub(crate) fn head_stride(so_far: u16, held: &[u8], more: &[u8]) -> (u16, usize)
    requires some { 0 < length more.now }
    requires heading { IsHeading held.now so_far }
    ensures some { 0 < result.1 }
    ensures within { result.1 ≤ length more.now }
    ensures room { length held.now + result.1 ≤ 320 }
    ensures heading { IsHeading (all_but_last (held.now ++ take result.1 more.now)) result.0 }
{
    if held.is_empty() && more.len() > OPENING.len() && more.starts_with(OPENING) {
        let (length, at) = length_in_front(more);
        return (length, at + 1);
    }
    (so_far, 1)
}

/// The stage after the last of these bytes, where the others begin a head whose digits spell `so_far`.
pub(crate) fn head_step(so_far: u16, bytes: &[u8]) -> Result<Stage, FrameFault>
    requires some { 0 < length bytes.now }
    requires heading { IsHeading (all_but_last bytes.now) so_far }
    ensures { MatchResult result (λ stage. IsUnderWay stage bytes.now) (IsWrong bytes.now) }
{
    let at = bytes.len() - 1;
    let byte = bytes[at];
    if at >= OPENING.len() {
        return length_step(so_far, bytes, byte);
    }
    if byte == OPENING[at] {
        return Ok(Stage::Head(0));
    }
    if at < BEGIN_STRING {
        return Err(FrameFault::BadBegin);
    }
    Err(FrameFault::BadLength)
}

/// The same behind the opening, where `byte` is the last.
fn length_step(so_far: u16, bytes: &[u8], byte: u8) -> Result<Stage, FrameFault>
    requires late { 12 < length bytes.now }
    requires last { byte ≡ slice_index bytes.now (length bytes.now - 1) }
    requires heading { IsHeading (all_but_last bytes.now) so_far }
    ensures { MatchResult result (λ stage. IsUnderWay stage bytes.now) (IsWrong bytes.now) }
{
    if byte == SOH && so_far >= LEAST_BODY {
        return Ok(Stage::Rest(bytes.len(), so_far));
    }
    if !byte.is_ascii_digit() {
        return Err(FrameFault::BadLength);
    }
    let length = so_far * 10 + u16::from(byte - b'0');
    if length < LEAST_DIGIT {
        return Err(FrameFault::BadLength);
    }
    if length > MOST_BODY {
        return Err(FrameFault::TooLong);
    }
    Ok(Stage::Head(length))
}

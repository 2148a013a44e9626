//! The header of a message: what a session looks at first, and a reader of orders too.
ghost use Rattle.std.specs.Prelude.{◌≡◌, ◌≤◌, ◌∷◌, IfSome, IsTrue, IsFalse, MatchOption};
ghost use Rattle.std.specs.Option.{option_map};
ghost use Rattle.fix_frame.specs.Bodies.{bytes_left, fields_in, TakesOff};
ghost use Rattle.fix_frame.specs.Borrowed.{fields_left};
ghost use Rattle.fix_frame.specs.Runs.{IsRun};
ghost use Rattle.fix_orders.specs.Formats.{is_time, value_of};
ghost use Rattle.fix_orders.specs.Header.{LacksFirst, LacksTime, is_seq_num, as_header, header_of};
ghost use Rattle.fix_orders.specs.Header.{BeginsNoHeader, TakesHeader};
ghost use Rattle.fix_orders.specs.Text.{field};

use crate::number::read_number;
use crate::time::{TIME, is_time};
use fix_frame::{Body, Fields};

/// The header of a message, and the fields behind it.
#[derive(Clone, Copy, Debug)]
pub struct Header<'a> {
    /// MsgType (35).
    pub msg_type: &'a [u8],
    /// SenderCompID (49).
    pub sender: &'a [u8],
    /// TargetCompID (56).
    pub target: &'a [u8],
    /// MsgSeqNum (34), 1 to 999,999,999.
    pub number: u32,
    /// SendingTime (52), 17 bytes.
    pub time: &'a [u8],
    /// The body's other fields.
    pub rest: Fields<'a>,
}

/// The five fields of a header, as in `Header`, without those behind them.
#[derive(Clone, Copy, Debug)]
pub struct HeaderFields<'a> {
    pub msg_type: &'a [u8],
    pub sender: &'a [u8],
    pub target: &'a [u8],
    pub number: u32,
    pub time: &'a [u8],
}

/// The header that the fields of a frame begin with, or `None` where it is wrong.
pub fn read_header<'a>(fields: Fields<'a>) -> Option<Header<'a>> // promise 2
    ensures value { header_of (fields_left fields.entry) ≡ option_map as_header result }
    ensures number { IfSome result (λ h. (1 ≤ h.number) × (h.number ≤ 999999999)) }
    ensures time { IfSome result (λ h. IsTrue (is_time h.time.now)) }
{
    let mut body = fields.body();
    let header = take_header(&mut body)?;
    Some(Header {
        msg_type: header.msg_type,
        sender: header.sender,
        target: header.target,
        number: header.number,
        time: header.time,
        rest: body.fields(),
    })
}

/// Takes a header off a body's front, or answers `None` where it doesn't begin with a right one.
#[inline(always)]
pub fn take_header<'a>(body: &mut Body<'a>) -> Option<HeaderFields<'a>>
    ensures value { MatchOption result (BeginsNoHeader body.old) (TakesHeader body.old body.new) }
    ensures number { IfSome result (λ h. (1 ≤ h.number) × (h.number ≤ 999999999)) }
    ensures time { IfSome result (λ h. IsTrue (is_time h.time.now)) }
{
    let msg_type = next_value(body, 35)?;
    let sender = next_value(body, 49)?;
    let target = next_value(body, 56)?;
    let number = seq_num(next_value(body, 34)?)?;
    let time = next_time(body)?;
    Some(HeaderFields {
        msg_type,
        sender,
        target,
        number,
        time,
    })
}

/// The value of the next field, where it has this tag.
#[inline(always)]
fn next_value<'a>(body: &mut Body<'a>, tag: u32) -> Option<&'a [u8]>
    ensures { MatchOption result (IsRun (bytes_left body.old) → LacksFirst tag (fields_in body.old))
        (λ v. TakesOff body.old body.new (field tag v.now)) }
{
    let field = body.next()?;
    if field.tag == tag {
        Some(field.value)
    } else {
        None
    }
}

/// SendingTime, where it is a time. All of these are as long, so that its end is known before it is looked for.
#[inline(always)]
fn next_time<'a>(body: &mut Body<'a>) -> Option<&'a [u8]>
    ensures { MatchOption result (IsRun (bytes_left body.old) → LacksTime (fields_in body.old))
        (λ v. TakesOff body.old body.new (field 52 v.now) × IsTrue (is_time v.now)) }
{
    let mut ahead = *body;
    if let Some(time) = ahead.next_sized(52, TIME)
        && is_time(time)
    {
        *body = ahead;
        return Some(time);
    }
    let time = next_value(body, 52)?;
    if is_time(time) { Some(time) } else { None }
}

/// MsgSeqNum.
#[inline(always)]
fn seq_num(value: &[u8]) -> Option<u32>
    ensures { MatchOption result (IsFalse (is_seq_num value.now))
        (λ n. IsTrue (is_seq_num value.now) × (n ≡ value_of value.now)) }
{
    match read_number(value) {
        Some(number) if 1 <= number && number <= 999_999_999 => Some(number as u32),
        _ => None,
    }
}

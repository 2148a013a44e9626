//! A whole frame, judged: what the session does with it.
ghost use Rattle.std.specs.Prelude.{◌≡◌, ◌<◌, ◌≤◌, IsTrue, length, drop};
ghost use Rattle.std.specs.Str.{bytes_eq};
ghost use Rattle.fix_frame.specs.Borrowed.{frame_fields, fields_left};
ghost use Rattle.fix_orders.specs.Formats.{time_text};
ghost use Rattle.fix_orders.specs.Header.{as_header as as_header};
ghost use Rattle.gateway.specs.Verdict.{Hold, client_name, venue_name, verdict, header_verdict, first_verdict, later_verdict, test_verdict, is_party, is_type, is_order, is_logon_body};
ghost use Rattle.gateway.specs.Answers.{time_after};
ghost use Rattle.gateway.specs.Judging.{verdict_of, CanCount, CanEcho, begins_with};

use crate::message::client_name;
use crate::refusal::Refusal;
use arrayvec::ArrayVec;
use fix_frame::{Fields, Frame};
use fix_orders::{Header, number_of_time, read_header};

/// What a session does with a frame.
#[derive(Drop)]
pub enum Judged {
    /// Answers the Logon.
    Welcome,
    /// Answers the TestRequest with its TestReqID (112), 1 to 32 bytes.
    Beat(ArrayVec<u8, 32>),
    /// Takes note of a Heartbeat or a Reject.
    Pass,
    /// Answers the Logout, and ends.
    Leave,
    /// Holds the message until it is published.
    Hold,
    /// Sends a Logout, and ends.
    Refuse(Refusal),
}

/// A frame judged, and SendingTime (52) of the last message with a right header, itself or one before.
#[derive(Drop)]
pub struct Heard {
    pub verdict: Judged,
    pub time: u64,
}

/// Judges a frame, when so many messages were accepted before it and the last right header had this time.
pub fn hear(frame: &Frame, gateway: u8, accepted: u32, last: u64) -> Heard
    ensures verdict { verdict_of result.verdict ≡ verdict gateway accepted (frame_fields frame.now) }
    ensures time { time_text result.time ≡ time_after (time_text last) (frame_fields frame.now) }
    ensures counts { CanCount accepted result.verdict }
    ensures echo { CanEcho result.verdict }
{
    let Some(header) = read_header(frame.fields()) else {
        return Heard {
            verdict: Judged::Refuse(Refusal::BadHeader),
            time: last,
        };
    };
    let time = number_of_time(header.time);
    if is_due_order(&header, gateway, accepted) {
        return Heard {
            verdict: Judged::Hold,
            time,
        };
    }
    Heard {
        verdict: judge(&header, gateway, accepted),
        time,
    }
}

/// Whether the message is an order message that is to be held. Most messages are, so this is told before all else.
fn is_due_order(header: &Header, gateway: u8, accepted: u32) -> bool
    requires { 1 ≤ header.now.number }
    ensures held { IsTrue result → header_verdict gateway accepted (as_header header.now) ≡ Hold }
    ensures counts { IsTrue result → accepted < header.now.number }
{
    accepted != 0 && header.number - 1 == accepted && is_order(header) && is_party(header, gateway)
}

/// Judges a frame with a right header.
#[inline(never)]
fn judge(header: &Header, gateway: u8, accepted: u32) -> Judged
    requires from { 1 ≤ header.now.number }
    requires upto { header.now.number ≤ 999999999 }
    ensures verdict { verdict_of result ≡ header_verdict gateway accepted (as_header header.now) }
    ensures counts { CanCount accepted result }
    ensures echo { CanEcho result }
{
    if !is_party(header, gateway) {
        Judged::Refuse(Refusal::WrongParty)
    } else if header.number - 1 != accepted {
        Judged::Refuse(Refusal::WrongNumber)
    } else if accepted == 0 {
        judge_first(header)
    } else {
        judge_later(header)
    }
}

/// Whether the message comes from the gateway's client, to the venue.
#[inline(always)]
fn is_party(header: &Header, gateway: u8) -> bool
    ensures { result ≡ is_party gateway (as_header header.now) }
{
    is_client(header.sender, gateway) && is_venue(header.target)
}

/// Whether this is the name of the gateway's client.
#[inline(always)]
fn is_client(name: &[u8], gateway: u8) -> bool
    ensures { result ≡ bytes_eq name.now (client_name gateway) }
{
    match name {
        [letter, digit] if gateway < 10 => *letter == b'C' && *digit == b'0' + gateway,
        _ => name == client_name(gateway).as_slice(),
    }
}

/// Whether this is the venue's name.
fn is_venue(name: &[u8]) -> bool
    ensures { result ≡ bytes_eq name.now venue_name }
{
    matches!(name, b"VENUE")
}

/// Whether MsgType (35) is this one.
fn is_type(header: &Header, msg_type: &[u8]) -> bool
    ensures { result ≡ is_type (as_header header.now) msg_type.now }
{
    header.msg_type == msg_type
}

/// Whether the message is a NewOrderSingle, an OrderCancelRequest or an OrderCancelReplaceRequest.
fn is_order(header: &Header) -> bool
    ensures { result ≡ is_order (as_header header.now) }
{
    matches!(header.msg_type, b"D" | b"F" | b"G")
}

/// Judges the first message, which has to be the Logon.
fn judge_first(header: &Header) -> Judged
    ensures { verdict_of result ≡ first_verdict (as_header header.now) }
{
    if !is_type(header, b"A") {
        Judged::Refuse(Refusal::NoLogon)
    } else if is_logon_body(header.rest) {
        Judged::Welcome
    } else {
        Judged::Refuse(Refusal::BadLogon)
    }
}

/// Judges a message behind the Logon, by its type. An order message is held, whatever it asks for.
fn judge_later(header: &Header) -> Judged
    ensures verdict { verdict_of result ≡ later_verdict (as_header header.now) }
    ensures echo { CanEcho result }
{
    if is_type(header, b"A") {
        Judged::Refuse(Refusal::BadLogon)
    } else if is_type(header, b"1") {
        judge_test(header.rest)
    } else if is_type(header, b"0") || is_type(header, b"3") {
        Judged::Pass
    } else if is_type(header, b"5") {
        Judged::Leave
    } else if is_order(header) {
        Judged::Hold
    } else {
        Judged::Refuse(Refusal::BadType)
    }
}

/// Judges a TestRequest, which has one TestReqID (112) of 1 to 32 bytes.
fn judge_test(mut fields: Fields) -> Judged
    ensures verdict { verdict_of result ≡ test_verdict (fields_left fields.entry) }
    ensures echo { CanEcho result }
{
    let Some(field) = fields.next() else {
        return Judged::Refuse(Refusal::BadTest);
    };
    if fields.next().is_some() || field.tag != 112 || field.value.len() > 32 {
        return Judged::Refuse(Refusal::BadTest);
    }
    Judged::Beat(echo_of(field.value))
}

/// A TestReqID (112), to be said again.
fn echo_of(value: &[u8]) -> ArrayVec<u8, 32>
    requires { length value.now ≤ 32 }
    ensures { result.items ≡ value.now }
{
    let mut echo = ArrayVec::new();
    let _ = echo.try_extend_from_slice(value);
    echo
}

/// Whether the fields are EncryptMethod (98) none, HeartBtInt (108) none and ResetSeqNumFlag (141), and no other.
fn is_logon_body(mut fields: Fields) -> bool
    ensures { result ≡ is_logon_body (fields_left fields.entry) }
{
    is_next(&mut fields, 98, b"0")
        && is_next(&mut fields, 108, b"0")
        && is_next(&mut fields, 141, b"Y")
        && fields.next().is_none()
}

/// Whether the next field is this one.
fn is_next(fields: &mut Fields, tag: u32, value: &[u8]) -> bool
    ensures is { result ≡ begins_with tag value.now (fields_left fields.old) }
    ensures rest { fields_left fields.new ≡ drop 1 (fields_left fields.old) }
{
    match fields.next() {
        Some(field) => field.tag == tag && field.value == value,
        None => false,
    }
}

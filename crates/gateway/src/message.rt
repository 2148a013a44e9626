//! The fields of a message to the client, with the two parties' names and its time: what happens to an answer or an
//! output before its frame is written.
ghost use Rattle.std.specs.Prelude.{◌≡◌, ◌<◌, ◌≤◌, [], ◌∷◌, ◌++◌, length, take};
ghost use Rattle.fix_orders.specs.Text.{field};
ghost use Rattle.fix_frame.specs.Grammar.{print_fields};
ghost use Rattle.fix_orders.specs.Writing.{PutsFields};
ghost use Rattle.gateway.specs.Messages.{IsTypeText, header_fields};
ghost use Rattle.fix_orders.specs.Formats.{time_text};
ghost use Rattle.gateway.specs.Verdict.{client_name, venue_name};

use arrayvec::ArrayVec;
use fix_orders::{put_bytes, put_field, put_number, time_text};

/// Writes the fields of a message from the gateway to its client at the buffer's front, the header's with this text of
/// SendingTime (52) and those of the body, and answers how many bytes they have.
pub fn put_fields(
    fields: &mut [u8; 512],
    gateway: u8,
    number: u64,
    msg_type: &[u8],
    moment: &[u8],
    body: &[u8],
) -> usize
    requires gateway { gateway < 10 }
    requires kind { IsTypeText msg_type.now }
    requires moment { length moment.now ≡ 17 }
    requires most { length body.now ≤ 320 }
    ensures puts { take result fields.new ≡ print_fields (header_fields gateway number msg_type.now moment.now) ++ body.now }
    ensures few { result ≤ 387 }
{
    let begun = put_header(fields, gateway, number, msg_type, moment);
    put_bytes(fields, begun, body)
}

/// Writes the header's fields at the buffer's front, and answers where they end.
fn put_header(fields: &mut [u8], gateway: u8, number: u64, msg_type: &[u8], moment: &[u8]) -> usize
    requires gateway { gateway < 10 }
    requires kind { IsTypeText msg_type.now }
    requires moment { length moment.now ≡ 17 }
    requires room { 100 ≤ length fields.old }
    ensures puts { PutsFields fields.old fields.new 0 result
        (header_fields gateway number msg_type.now moment.now) }
    ensures most { result ≤ 67 }
{
    let end = put_parties(fields, gateway, msg_type[0]);
    let end = put_number(fields, end, 34, number);
    put_field(fields, end, 52, moment)
}

/// Writes the first three of them, which are as long for each gateway: MsgType (35), SenderCompID (49) and TargetCompID
/// (56).
#[inline(always)]
fn put_parties(fields: &mut [u8], gateway: u8, msg_type: u8) -> usize
    requires gateway { gateway < 10 }
    requires room { 20 ≤ length fields.old }
    ensures puts { PutsFields fields.old fields.new 0 result
        (field 35 (msg_type ∷ []) ∷ field 49 venue_name ∷ field 56 (client_name gateway) ∷ []) }
    ensures most { result ≤ 20 }
{
    let mut front = *b"35=0\x0149=VENUE\x0156=C0\x01";
    front[3] = msg_type;
    front[18] = b'0' + gateway;
    put_bytes(fields, 0, &front)
}

/// A time, SendingTime (52), as the number of its 14 digits and as its text. Messages of one second share it, so it is
/// written out once.
#[derive(Drop)]
pub struct Moment {
    pub time: u64,
    pub text: [u8; 17],
    ghost same: { text ≡ time_text time },
}

impl Moment {
    /// The time of number 0.
    pub fn new() -> Moment {
        Moment {
            time: 0,
            text: time_text(0),
        }
    }

    /// Turns to this time.
    pub fn set(&mut self, time: u64)
        ensures { self.new.time ≡ time }
    {
        if time != self.time {
            self.text = time_text(time);
            self.time = time;
        }
    }
}

/// The name of a gateway's client: C and the gateway's number.
pub fn client_name(gateway: u8) -> ArrayVec<u8, 4>
    ensures { result.items ≡ client_name gateway }
{
    let mut name = ArrayVec::new();
    name.push(b'C');
    if 100 <= gateway {
        name.push(b'0' + gateway / 100);
    }
    if 10 <= gateway {
        name.push(b'0' + gateway / 10 % 10);
    }
    name.push(b'0' + gateway % 10);
    name
}

//! An output on its way through the marshaller, which has read it out of its row, and writes its text beside it.
ghost use Rattle.std.specs.Prelude.{◌≤◌, length};
ghost use Rattle.ring_words.specs.Texts.{text_words, IsPackableText};
ghost use Rattle.ring_words.specs.Places.{published};
ghost use Rattle.ring_words.specs.Seats.{wrote};
ghost use Rattle.ring_words.specs.At.{IsAt, Steps};
ghost use Rattle.ring_words.specs.Steps.{Shows, MayWriteText};

use ring_words::{MarshalSeat, Rings, TextHead, whole_word_at, word_at};
use venue_model::{Logic, OutputType};

/// Writes the text of an output that is published and not released into its row: MsgType, SendingTime and the body, at
/// most 320 bytes. Rows are written in order: the first that isn't released, the one under way again, or when that is
/// written whole the next one.
pub fn write_text<L: Logic, const N: usize, const M: usize, const G: usize>(
    rings: &Rings<L, N, M, G>,
    seat: &mut MarshalSeat<L>,
    place: u64,
    msg_type: OutputType,
    sending_time: u64,
    body: &[u8],
)
    requires at { IsAt rings.now seat.old }
    requires from { seat.old.who.sequence ≤ place }
    requires to { Shows published seat.old.who place }
    requires most { length body.now ≤ 320 }
    requires row { MayWriteText (L.outputs rings.now.logic) (L.text rings.now.logic) seat.old.who place }
    ensures step { Steps seat.old (wrote seat.old.who place (text_words (record { msg_type = msg_type; sending_time = sending_time; body = body.now }))) seat.new }
    ensures packable { IsPackableText (record { msg_type = msg_type; sending_time = sending_time; body = body.now }) }
{
    let head = TextHead {
        msg_type,
        len: body.len(),
    };
    rings.store_text(seat, place, 0, head.to_word());
    rings.store_text(seat, place, 1, sending_time);
    let whole = body.len() / 8;
    for index in 0..whole {
        rings.store_text(seat, place, index + 2, whole_word_at(body, index));
    }
    if body.len() % 8 > 0 {
        rings.store_text(seat, place, whole + 2, word_at(body, whole));
    }
}

//! Publications: a gateway writes its message into the row that it claimed, and makes it available to the stages.
ghost use Rattle.std.specs.Prelude.{◌≡◌, ◌<◌, ◌≤◌, length};
ghost use Rattle.ring_words.specs.Log.{times_in};
ghost use Rattle.ring_words.specs.Seats.{marked, wrote};
ghost use Rattle.ring_words.specs.At.{IsAt, Steps, number};
ghost use Rattle.sequencer.specs.Words.{message_words};

use crate::claim::Claim;
use ring_words::{GatewaySeat, Raw, Rings, whole_word_at, word_at};
use venue_model::Logic;

/// Stores all words of the message in the row of a sequence that the gateway claimed.
fn store_words<L: Logic, const N: usize, const M: usize, const G: usize>(
    rings: &Rings<L, N, M, G>,
    seat: &mut GatewaySeat<L>,
    sequence: u64,
    bytes: &[u8],
)
    requires at { IsAt rings.now seat.old }
    requires claimed { 0 < times_in sequence seat.old.who.claims }
    requires most { length bytes.now ≤ 320 }
    ensures number { (1 ≤ number seat.old) × (number seat.old ≤ 8) }
    ensures step { Steps seat.old (wrote seat.old.who sequence (message_words (record { gateway = number seat.old; bytes = bytes.now }))) seat.new }
{
    let head = Raw {
        gateway: seat.number() as u8,
        len: bytes.len(),
    };
    rings.store_raw(seat, sequence, 0, head.to_word());
    let whole = bytes.len() / 8;
    for index in 0..whole {
        rings.store_raw(seat, sequence, index + 1, whole_word_at(bytes, index));
    }
    if bytes.len() % 8 > 0 {
        rings.store_raw(seat, sequence, whole + 1, word_at(bytes, whole));
    }
}

impl Claim {
    /// Publishes these bytes as the gateway's message at the claimed sequence, which it answers: first the words of the
    /// message, then the availability word (docs/RINGS.md, "The twenty kinds of step", 4 and 5).
    pub fn publish<L: Logic, const N: usize, const M: usize, const G: usize>(
        self,
        rings: &Rings<L, N, M, G>,
        seat: &mut GatewaySeat<L>,
        bytes: &[u8],
    ) -> u64 // promise 4
        requires at { IsAt rings.now seat.old }
        requires claimed { 0 < times_in self seat.old.who.claims }
        requires bytes { (1 ≤ length bytes.now) × (length bytes.now ≤ 320) }
        ensures sequence { result ≡ self }
        ensures step { Steps seat.old (marked seat.old.who self (record { gateway = number seat.old; bytes = bytes.now })) seat.new }
    {
        let Claim { sequence } = self;
        store_words(rings, seat, sequence, bytes);
        rings.store_availability(seat, sequence);
        sequence
    }
}

//! How a stage reads the message of an entry that it knows, out of the entry's row.
ghost use Rattle.std.specs.Prelude.{◌≡◌, ◌<◌, ◌≤◌, length};
ghost use mathlib.Core.Option.{some};
ghost use lib.ListN.{get_elem?};
ghost use Rattle.venue_model.specs.History.{Message};
ghost use Rattle.ring_words.specs.Raw.{raw_count};
ghost use Rattle.ring_words.specs.At.{IsAt, Steps};
ghost use Rattle.barrier.specs.Reading.{IsMessageHead, ReadsMessage, after_loads};

use ring_words::{Raw, Reader, ReaderSeat, Rings};
use venue_model::{LONGEST_MESSAGE, Logic};

/// Loads word 0 of the row.
fn read_head<L: Logic, R: Reader, const N: usize, const M: usize, const G: usize>(
    rings: &Rings<L, N, M, G>,
    seat: &mut ReaderSeat<L, R>,
    sequence: u64,
) -> Raw
    requires at { IsAt rings.now seat.old }
    requires from { seat.old.who.sequence ≤ sequence }
    requires to { sequence < length seat.old.who.seen }
    ensures step { (e : Message) → get_elem? seat.old.who.seen sequence ≡ some e → Steps seat.old (after_loads N seat.old.who sequence e 1) seat.new }
    ensures head { (e : Message) → get_elem? seat.old.who.seen sequence ≡ some e → IsMessageHead e result }
{
    Raw::from_word(rings.load_raw(seat, sequence, 0))
}

/// Reads the message of a sequence that the seat knows and hasn't released into the front of the buffer, and answers
/// whose it is and how long. What stands behind the message is unspecified.
pub fn read_raw<L: Logic, R: Reader, const N: usize, const M: usize, const G: usize>(
    rings: &Rings<L, N, M, G>,
    seat: &mut ReaderSeat<L, R>,
    sequence: u64,
    buf: &mut [u8; LONGEST_MESSAGE],
) -> Raw
    requires at { IsAt rings.now seat.old }
    requires from { seat.old.who.sequence ≤ sequence }
    requires to { sequence < length seat.old.who.seen }
    ensures range { (1 ≤ result.gateway) × (result.gateway ≤ 8) × (1 ≤ result.len) × (result.len ≤ 320) }
    ensures entry { (e : Message) → get_elem? seat.old.who.seen sequence ≡ some e → ReadsMessage e result buf.new }
    ensures step { (e : Message) → get_elem? seat.old.who.seen sequence ≡ some e → Steps seat.old (after_loads N seat.old.who sequence e (raw_count e)) seat.new }
{
    let raw = read_head(rings, seat, sequence);
    for index in 0..raw.len.div_ceil(8) {
        let word = rings.load_raw(seat, sequence, index + 1);
        buf[8 * index..8 * index + 8].copy_from_slice(&word.to_be_bytes());
    }
    raw
}

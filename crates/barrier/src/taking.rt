//! Outputs on their way to a client: its gateway takes the next one, or passes it over where it goes to another's.
ghost use Rattle.std.specs.Prelude.{◌≡◌, ◌≢◌, ◌≤◌, List, length};
ghost use mathlib.Core.Option.{some};
ghost use lib.ListN.{get_elem?};
ghost use Rattle.venue_model.specs.History.{Message};
ghost use Rattle.venue_model.specs.declared.outputs.Output.{Output};
ghost use Rattle.ring_words.specs.Places.{marshalled};
ghost use Rattle.ring_words.specs.Seats.{looked};
ghost use Rattle.ring_words.specs.At.{IsAt, SamePlace};
ghost use Rattle.ring_words.specs.Steps.{Shows};
ghost use Rattle.barrier.specs.Taking.{OnlyLoads, IsTextHead, Carries, TakesNext, SaysOutput};

use crate::taken::{Head, Take};
use ring_words::{GatewaySeat, Rings, TextHead};
use venue_model::{LONGEST_MESSAGE, Logic};

/// Loads the words in front of the body. A length above 320 isn't one of a text, and is cut.
fn read_head<L: Logic, const N: usize, const M: usize, const G: usize>(
    rings: &Rings<L, N, M, G>,
    seat: &mut GatewaySeat<L>,
    place: u64,
) -> Head
    requires at { IsAt rings.now seat.old }
    requires from { seat.old.who.sequence ≤ place }
    requires to { Shows marshalled seat.old.who place }
    ensures step { OnlyLoads seat.old seat.new }
    ensures most { result.len ≤ 320 }
    ensures head { (o : Output) → get_elem? (L.outputs rings.now.logic seat.old.who.seen) place ≡ some o
        → IsTextHead result (L.text rings.now.logic o place) }
{
    let TextHead { msg_type, len } = TextHead::from_word(rings.load_text(seat, place, 0));
    let time = rings.load_text(seat, place, 1);
    Head {
        kind: msg_type,
        time,
        len: len.min(LONGEST_MESSAGE),
    }
}

/// Reads the text of an output that is marshalled and that the gateway hasn't taken: its body into the front of the
/// buffer. What stands behind the body is unspecified.
fn read_text<L: Logic, const N: usize, const M: usize, const G: usize>(
    rings: &Rings<L, N, M, G>,
    seat: &mut GatewaySeat<L>,
    place: u64,
    buf: &mut [u8; LONGEST_MESSAGE],
) -> Head
    requires at { IsAt rings.now seat.old }
    requires from { seat.old.who.sequence ≤ place }
    requires to { Shows marshalled seat.old.who place }
    ensures step { OnlyLoads seat.old seat.new }
    ensures text { (o : Output) → get_elem? (L.outputs rings.now.logic seat.old.who.seen) place ≡ some o
        → Carries result buf.new (L.text rings.now.logic o place) }
{
    let head = read_head(rings, seat, place);
    for index in 0..head.len.div_ceil(8) {
        let word = rings.load_text(seat, place, index + 2);
        buf[8 * index..8 * index + 8].copy_from_slice(&word.to_be_bytes());
    }
    head
}

/// Takes the next output: the one at the place that the gateway's count says. The count then rises by one. It is an
/// output of one history. That history is legal for this gateway, it begins with what the gateway had seen, and the
/// gateway has seen it afterwards. Where the marshalled word shows no output, the load of that word is all that is
/// done. Behind the body the buffer's bytes are unspecified. Takes no memory and never waits.
pub fn take<L: Logic, const N: usize, const M: usize, const G: usize>(
    rings: &Rings<L, N, M, G>,
    seat: &mut GatewaySeat<L>,
    buf: &mut [u8; LONGEST_MESSAGE],
) -> Take // promise 9
    requires at { IsAt rings.now seat.old }
    ensures step { SamePlace seat.old seat.new }
    ensures nothing { result ≡ Take.Nothing → seat.new.who ≡ looked seat.old.who marshalled seat.old.who.sequence }
    ensures taken { result ≢ Take.Nothing → (history : List Message) × TakesNext (length rings.now.base) seat.old.who history seat.new.who
        × SaysOutput (L.outputs rings.now.logic history) (L.text rings.now.logic) seat.old result buf.new }
{
    let place = seat.taken();
    if rings.load_marshalled(seat) <= place {
        return Take::Nothing;
    }
    if rings.load_address(seat, place) != seat.number() {
        rings.store_taken(seat);
        return Take::Passed;
    }
    let head = read_text(rings, seat, place, buf);
    rings.store_taken(seat);
    Take::Mine(head)
}

//! The single step that is the journaller's alone: it says how far entries are kept.
ghost use Rattle.std.specs.Prelude.{◌≤◌, length, take};
ghost use Rattle.ring_words.specs.Seats.{moved};
ghost use Rattle.ring_words.specs.At.{IsAt, Steps};

use crate::places::JOURNALLED;
use crate::plays::MoveOwn;
use crate::rings::Rings;
use crate::seats::reader::JournalSeat;
use venue_model::{Kept, Logic};

/// Hands all sequences below `upto` on to the processor, as far as the journaller is concerned: what a crash now may
/// leave begins with their entries.
pub fn release_kept<L: Logic, const N: usize, const M: usize, const G: usize, K: Kept>(
    rings: &Rings<L, N, M, G>,
    seat: &mut JournalSeat<L>,
    upto: u64,
    kept: &K,
)
    requires at { IsAt rings.now seat.old }
    requires from { seat.old.who.sequence ≤ upto }
    requires to { upto ≤ length seat.old.who.seen }
    requires kept { K.keeps kept.now (take upto seat.old.who.seen) } // promise 7
    ensures step { Steps seat.old (moved seat.old.who upto) seat.new }
{
    rings
        .table
        .shared
        .store::<MoveOwn>(&mut seat.seat, JOURNALLED, upto);
    seat.sequence = upto;
}

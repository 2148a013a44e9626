//! The single steps that unmarshaller and journaller have in common: each reads what gateways published, side by side
//! with the other.
ghost use Rattle.std.specs.Prelude.{◌≡◌, ◌<◌, ◌≤◌, ◌+◌, IsTrue, IsFalse};
ghost use mathlib.Core.Option.{some};
ghost use lib.ListN.{get_elem?};
ghost use Rattle.venue_model.specs.History.{Message};
ghost use Rattle.ring_words.specs.Places.{in_row};
ghost use Rattle.ring_words.specs.Log.{IsEntry};
ghost use Rattle.ring_words.specs.Raw.{raw_word, raw_count};
ghost use Rattle.ring_words.specs.Seats.{looked};
ghost use Rattle.ring_words.specs.At.{IsAt, Steps};
ghost use Rattle.ring_words.specs.Finds.{FindsEntry, FindsNone};

use crate::plays::{SeeAvailability, SeeRaw};
use crate::rings::Rings;
use crate::seats::reader::{Reader, ReaderSeat};
use venue_model::Logic;

impl<L: Logic, const N: usize, const M: usize, const G: usize> Rings<L, N, M, G> {
    /// Loads the availability word of the next sequence that the seat doesn't know. True where it was published: then
    /// the seat knows its entry.
    pub fn load_availability<R: Reader>(&self, seat: &mut ReaderSeat<L, R>) -> bool
        requires at { IsAt self.now seat.old }
        ensures fresh { IsTrue result → FindsEntry N seat.old seat.new }
        ensures other { IsFalse result → FindsNone N seat.old seat.new }
    {
        let place = self.row_word(seat.known, 0);
        let found = self
            .table
            .shared
            .load::<SeeAvailability>(&mut seat.seat, place);
        let fresh = found == seat.known + 1;
        if fresh {
            seat.known += 1;
        }
        fresh
    }

    /// Loads a raw word of an entry that the stage knows and hasn't released: word 0 has gateway and length, the bytes
    /// follow.
    pub fn load_raw<R: Reader>(
        &self,
        seat: &mut ReaderSeat<L, R>,
        sequence: u64,
        word: usize,
    ) -> u64
        requires at { IsAt self.now seat.old }
        requires from { seat.old.who.sequence ≤ sequence }
        requires word { word < 41 }
        ensures step { Steps seat.old (looked seat.old.who (in_row N sequence (word + 1)) result) seat.new }
        ensures raw { (e : Message) → get_elem? seat.old.who.seen sequence ≡ some e → word < raw_count e → (result ≡ raw_word e word) × IsEntry e }
    {
        let place = self.row_word(sequence, word + 1);
        self.table.shared.load::<SeeRaw<N>>(&mut seat.seat, place)
    }
}

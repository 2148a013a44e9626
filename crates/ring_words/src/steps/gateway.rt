//! The single steps of a gateway, each a load, a store or a compare-exchange of one word: it claims sequences and
//! publishes messages at the input ring, and at the output ring it reads every output's address, and the text of those
//! that go to its client.
ghost use Rattle.std.specs.Prelude.{◌≡◌, ◌≢◌, suc, ◌<◌, ◌≤◌, ◌^◌, ◌+◌, length};
ghost use Rattle.venue_model.specs.History.{Message};
ghost use Rattle.ring_words.specs.Places.{claim, processed, marshalled, out_row};
ghost use Rattle.ring_words.specs.Log.{IsEntry, times_in};
ghost use Rattle.ring_words.specs.Raw.{SpellsMessage};
ghost use Rattle.ring_words.specs.At.{IsAt, Steps, number};
ghost use Rattle.ring_words.specs.Seats.{looked, with_claim, stored, marked, moved};
ghost use Rattle.ring_words.specs.Steps.{ClaimsUpTo, HasRoom, GoesOnRow, Shows};
ghost use Rattle.ring_words.specs.Finds.{IsAddress, IsTextWord, FindsOutput};

use crate::places::{CLAIM, MARSHALLED, PROCESSED, TEXT};
use crate::plays::{
    ClaimNext, MoveOwn, SeeAddress, SeeClaim, SeeMarshalled, SeeProcessed, SeeText,
    StoreAvailability, StoreRaw,
};
use crate::rings::Rings;
use crate::seats::gateway::GatewaySeat;
use venue_model::Logic;

impl<L: Logic, const N: usize, const M: usize, const G: usize> Rings<L, N, M, G> {
    /// Loads the number of sequences that are claimed.
    pub fn load_claim(&self, seat: &mut GatewaySeat<L>) -> u64
        requires at { IsAt self.now seat.old }
        ensures step { Steps seat.old (looked seat.old.who claim result) seat.new }
        ensures seen { length seat.old.who.seen ≤ result }
        ensures most { result ≤ 2 ^ 48 }
    {
        self.table.shared.load::<SeeClaim>(&mut seat.seat, CLAIM)
    }

    /// Loads the number of sequences that are processed.
    pub fn load_processed(&self, seat: &mut GatewaySeat<L>) -> u64
        requires at { IsAt self.now seat.old }
        ensures step { Steps seat.old (looked seat.old.who processed result) seat.new }
        ensures claims { ClaimsUpTo seat.old.who (result + N) }
    {
        let found = self
            .table
            .shared
            .load::<SeeProcessed<N>>(&mut seat.seat, PROCESSED);
        seat.processed = Some(found);
        found
    }

    /// Claims the sequence `from`, if claim is still there. Answers the number of sequences that were claimed.
    pub fn exchange_claim(&self, seat: &mut GatewaySeat<L>, from: u64) -> u64
        requires at { IsAt self.now seat.old }
        requires room { HasRoom N seat.old.who from }
        requires small { from < 2 ^ 48 }
        ensures claimed { result ≡ from → Steps seat.old (with_claim (looked seat.old.who claim from) from) seat.new }
        ensures refused { result ≢ from → Steps seat.old (looked seat.old.who claim result) seat.new }
        ensures claims { ClaimsUpTo seat.old.who result }
    {
        self.table
            .shared
            .compare_exchange::<ClaimNext>(&mut seat.seat, CLAIM, from, from + 1)
    }

    /// Stores a word of the message in the row of a sequence that the gateway claimed: the first one, or one behind or
    /// among those stored so far.
    pub fn store_raw(&self, seat: &mut GatewaySeat<L>, sequence: u64, word: usize, value: u64)
        requires at { IsAt self.now seat.old }
        requires claimed { 0 < times_in sequence seat.old.who.claims }
        requires word { word < 41 }
        requires order { GoesOnRow seat.old.who.row sequence word }
        ensures step { Steps seat.old (stored seat.old.who sequence word value) seat.new }
    {
        let place = self.row_word(sequence, word + 1);
        self.table
            .shared
            .store::<StoreRaw<N>>(&mut seat.seat, place, value);
    }

    /// Stores the availability word of a sequence that the gateway claimed: what it stored in the row is published.
    pub fn store_availability(&self, seat: &mut GatewaySeat<L>, sequence: u64)
        requires at { IsAt self.now seat.old }
        requires claimed { 0 < times_in sequence seat.old.who.claims }
        requires small { sequence < 2 ^ 48 }
        requires row { seat.old.who.row.sequence ≡ sequence }
        requires message { (e : Message) × SpellsMessage seat.old.who.row.words e × IsEntry e × (e.gateway ≡ number seat.old) }
        ensures step { (e : Message) → SpellsMessage seat.old.who.row.words e → IsEntry e → Steps seat.old (marked seat.old.who sequence e) seat.new }
    {
        let place = self.row_word(sequence, 0);
        self.table
            .shared
            .store::<StoreAvailability>(&mut seat.seat, place, sequence + 1);
    }

    /// Loads marshalled. Where it lies above the gateway's own word there is an output at that place, and the gateway
    /// knows a history that has it and is legal: it has the gateway's messages exactly where these were published.
    pub fn load_marshalled(&self, seat: &mut GatewaySeat<L>) -> u64
        requires at { IsAt self.now seat.old }
        ensures own { seat.old.who.sequence ≤ result }
        ensures none { result ≡ seat.old.who.sequence → Steps seat.old (looked seat.old.who marshalled result) seat.new }
        ensures some { seat.old.who.sequence < result → FindsOutput (L.outputs self.now.logic) seat.old result seat.new }
    {
        self.table
            .shared
            .load::<SeeMarshalled>(&mut seat.seat, MARSHALLED)
    }

    /// Loads the address of an output that is marshalled and that the gateway hasn't taken: the gateway that it goes
    /// to.
    pub fn load_address(&self, seat: &mut GatewaySeat<L>, place: u64) -> u64
        requires at { IsAt self.now seat.old }
        requires from { seat.old.who.sequence ≤ place }
        requires to { Shows marshalled seat.old.who place }
        ensures step { Steps seat.old (looked seat.old.who (out_row N M place 0) result) seat.new }
        ensures address { IsAddress (L.outputs self.now.logic) seat.old.who place result }
    {
        let at = self.output_word(place, 0);
        self.table
            .shared
            .load::<SeeAddress<N, M>>(&mut seat.seat, at)
    }

    /// Loads a word of the text of an output that is marshalled and that the gateway hasn't taken.
    pub fn load_text(&self, seat: &mut GatewaySeat<L>, place: u64, word: usize) -> u64
        requires at { IsAt self.now seat.old }
        requires from { seat.old.who.sequence ≤ place }
        requires to { Shows marshalled seat.old.who place }
        requires word { word < 64 }
        ensures step { Steps seat.old (looked seat.old.who (out_row N M place (word + 64)) result) seat.new }
        ensures text { IsTextWord (L.outputs self.now.logic) (L.text self.now.logic) seat.old.who place word result }
    {
        let at = self.output_word(place, word + TEXT);
        self.table.shared.load::<SeeText<N, M>>(&mut seat.seat, at)
    }

    /// Stores the gateway's taken word: it took the next output, or passed it over, and no longer needs its row.
    pub fn store_taken(&self, seat: &mut GatewaySeat<L>)
        requires at { IsAt self.now seat.old }
        requires shown { Shows marshalled seat.old.who seat.old.who.sequence }
        requires small { seat.old.who.sequence + 1 < 18446744073709551616 }
        ensures step { Steps seat.old (moved seat.old.who (suc seat.old.who.sequence)) seat.new }
    {
        let next = seat.taken + 1;
        let place = self.taken_word(seat.number);
        self.table
            .shared
            .store::<MoveOwn>(&mut seat.seat, place, next);
        seat.taken = next;
    }
}

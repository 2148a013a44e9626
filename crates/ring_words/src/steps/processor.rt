//! The single steps of the processor: it stands behind unmarshaller and journaller, and puts outputs into rows that
//! every gateway has passed.
ghost use Rattle.std.specs.Prelude.{◌≡◌, suc, ◌<◌, ◌≤◌, ◌+◌, length, take};
ghost use mathlib.Core.Option.{some};
ghost use lib.ListN.{get_elem?};
ghost use Rattle.ring_words.specs.Places.{unmarshalled, journalled, taken, in_row};
ghost use Rattle.ring_words.specs.Rule.{at_place};
ghost use Rattle.ring_words.specs.Seats.{looked, moved};
ghost use Rattle.ring_words.specs.At.{IsAt, Steps};
ghost use Rattle.ring_words.specs.Steps.{lesser_of, HasPublished, HasOutputRoom, Shows};
ghost use Rattle.ring_words.specs.Finds.{IsCommandWord, FindsJournalled};

use crate::places::{COMMAND, JOURNALLED, PROCESSED, PUBLISHED, UNMARSHALLED};
use crate::plays::{
    MoveOwn, PublishOutput, PutAddress, SeeCommand, SeeJournalled, SeeTaken, SeeUnmarshalled,
};
use crate::report::PlacedOutput;
use crate::rings::Rings;
use crate::seats::processor::ProcessSeat;
use venue_model::{Logic, Output};

/// The lesser of two numbers.
fn lesser(one: u64, other: u64) -> u64
    ensures { result ≡ lesser_of one other }
{
    if one <= other { one } else { other }
}

impl<L: Logic, const N: usize, const M: usize, const G: usize> Rings<L, N, M, G> {
    /// Loads the unmarshaller's word.
    pub fn load_unmarshalled(&self, seat: &mut ProcessSeat<L>) -> u64
        requires at { IsAt self.now seat.old }
        ensures step { Steps seat.old (looked seat.old.who unmarshalled result) seat.new }
        ensures seen { length seat.old.who.seen ≤ result }
    {
        let found = self
            .table
            .shared
            .load::<SeeUnmarshalled>(&mut seat.seat, UNMARSHALLED);
        seat.last_unmarshalled = found;
        found
    }

    /// Loads the journaller's word: the processor then knows all entries below it and below the unmarshalled value that
    /// it loaded last.
    pub fn load_journalled(&self, seat: &mut ProcessSeat<L>) -> u64
        requires at { IsAt self.now seat.old }
        ensures found { FindsJournalled seat.old result seat.new }
        ensures seen { length seat.old.who.seen ≤ result }
    {
        let found = self
            .table
            .shared
            .load::<SeeJournalled>(&mut seat.seat, JOURNALLED);
        let reach = lesser(seat.last_unmarshalled, found);
        if seat.known < reach {
            seat.known = reach;
        }
        found
    }

    /// Loads a word of the command of an entry that the processor knows and hasn't released.
    pub fn load_command(&self, seat: &mut ProcessSeat<L>, sequence: u64, word: usize) -> u64
        requires at { IsAt self.now seat.old }
        requires from { seat.old.who.sequence ≤ sequence }
        requires word { word < 16 }
        ensures step { Steps seat.old (looked seat.old.who (in_row N sequence (word + 48)) result) seat.new }
        ensures command { IsCommandWord (L.reads self.now.logic) seat.old.who sequence word result }
    {
        let place = self.row_word(sequence, word + COMMAND);
        self.table
            .shared
            .load::<SeeCommand<N>>(&mut seat.seat, place)
    }

    /// Loads how many outputs a gateway took or passed over: not more than are published, and at most `M` fewer.
    pub fn load_taken(&self, seat: &mut ProcessSeat<L>, gateway: u64) -> u64
        requires at { IsAt self.now seat.old }
        requires gateway { (1 ≤ gateway) × (gateway ≤ G) }
        ensures step { Steps seat.old (looked seat.old.who (taken gateway) result) seat.new }
        ensures most { result ≤ seat.old.who.row.sequence }
        ensures near { seat.old.who.row.sequence ≤ result + M }
    {
        let shared = &self.table.shared;
        let place = self.taken_word(gateway);
        let found = shared.load::<SeeTaken<M>>(&mut seat.seat, place);
        seat.taken[gateway as usize - 1] = Some(found);
        found
    }
}

/// Gives the rows of all sequences below `upto` back to the gateways (Disruptor paper, "Sequencing": the sequence by
/// which a consumer says how far it is), when all their outputs are published. From then on the seat reads none of
/// them.
pub fn release<L: Logic, const N: usize, const M: usize, const G: usize>(
    rings: &Rings<L, N, M, G>,
    seat: &mut ProcessSeat<L>,
    upto: u64,
)
    requires at { IsAt rings.now seat.old }
    requires from { seat.old.who.sequence ≤ upto }
    requires to { upto ≤ length seat.old.who.seen }
    requires outputs { HasPublished (L.outputs rings.now.logic) seat.old.who upto }
    ensures step { Steps seat.old (moved seat.old.who upto) seat.new }
{
    rings
        .table
        .shared
        .store::<MoveOwn>(&mut seat.seat, PROCESSED, upto);
    seat.sequence = upto;
}

/// Puts the next output whole into the row of its place, and then raises published by one. It is the output at that
/// place of the entries that the processor has processed and of the next one, which it saw journalled.
pub fn put_output<L: Logic, const N: usize, const M: usize, const G: usize>(
    rings: &Rings<L, N, M, G>,
    seat: &mut ProcessSeat<L>,
    output: &Output,
) // promise 6
    requires at { IsAt rings.now seat.old }
    requires room { HasOutputRoom G M seat.old.who seat.old.who.row.sequence }
    requires synced { Shows journalled seat.old.who seat.old.who.sequence } // promise 7
    requires next { get_elem? (L.outputs rings.now.logic (take (suc seat.old.who.sequence) seat.old.who.seen)) seat.old.who.row.sequence ≡ some output.now }
    ensures step { Steps seat.old (at_place seat.old.who (suc seat.old.who.row.sequence)) seat.new }
{
    let place = seat.published;
    let next = place + 1;
    let row = rings.output_row(place);
    let word = rings.output_word(place, 0);
    Box::replace(
        &mut seat.spare,
        PlacedOutput {
            output: *output,
            place,
        },
    );
    let shared = &rings.table.shared;
    shared.store::<PutAddress<N, M>>(&mut seat.seat, word, u64::from(output.to));
    rings.exchange_report(&mut seat.seat, row, &mut seat.spare);
    shared.store::<PublishOutput>(&mut seat.seat, PUBLISHED, next);
    seat.published = next;
}

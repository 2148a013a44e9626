//! The single steps of the marshaller, which writes the text of each output that is published.
ghost use Rattle.std.specs.Prelude.{◌≡◌, suc, ◌<◌, ◌≤◌};
ghost use Rattle.venue_model.specs.declared.outputs.Output.{Output};
ghost use Rattle.ring_words.specs.Places.{published, out_row};
ghost use Rattle.ring_words.specs.Seats.{stored, moved};
ghost use Rattle.ring_words.specs.At.{IsAt, Steps};
ghost use Rattle.ring_words.specs.Steps.{GoesOnRow, Shows, WroteText, MayWriteText};
ghost use Rattle.ring_words.specs.Finds.{FindsPublished, FindsCopy};

use crate::places::{MARSHALLED, PUBLISHED, TEXT};
use crate::plays::{GiveReport, MoveOwn, SeePublished, StoreText, TakeReport};
use crate::rings::Rings;
use crate::seats::marshaller::MarshalSeat;
use venue_model::{Logic, Output};

impl<L: Logic, const N: usize, const M: usize, const G: usize> Rings<L, N, M, G> {
    /// Stores a word of the text of an output that is published and not released: the first one, or one behind or among
    /// those stored so far. Of a row behind the one under way that is the first one, when that row's text is written
    /// whole.
    pub fn store_text(&self, seat: &mut MarshalSeat<L>, place: u64, word: usize, value: u64)
        requires at { IsAt self.now seat.old }
        requires from { seat.old.who.sequence ≤ place }
        requires to { Shows published seat.old.who place }
        requires word { word < 64 }
        requires order { GoesOnRow seat.old.who.row place word }
        requires row { MayWriteText (L.outputs self.now.logic) (L.text self.now.logic) seat.old.who place }
        ensures step { Steps seat.old (stored seat.old.who place word value) seat.new }
    {
        let at = self.output_word(place, word + TEXT);
        self.table
            .shared
            .store::<StoreText<N, M>>(&mut seat.seat, at, value);
    }
}

/// How many outputs are published: the marshaller may read those from its own word on. Loads published; the marshaller
/// then knows a history that has so many outputs.
pub fn outputs_available<L: Logic, const N: usize, const M: usize, const G: usize>(
    rings: &Rings<L, N, M, G>,
    seat: &mut MarshalSeat<L>,
) -> u64
    requires at { IsAt rings.now seat.old }
    ensures found { FindsPublished (L.outputs rings.now.logic) seat.old result seat.new }
{
    rings
        .table
        .shared
        .load::<SeePublished>(&mut seat.seat, PUBLISHED)
}

/// Copies an output that is published and that the marshaller hasn't released to the place that is lent: `read_output`,
/// for who has a place where it stays.
pub fn copy_output<L: Logic, const N: usize, const M: usize, const G: usize>(
    rings: &Rings<L, N, M, G>,
    seat: &mut MarshalSeat<L>,
    place: u64,
    output: &mut Output,
)
    requires at { IsAt rings.now seat.old }
    requires from { seat.old.who.sequence ≤ place }
    requires to { Shows published seat.old.who place }
    ensures copied { FindsCopy (L.outputs rings.now.logic seat.old.who.seen) seat.old (out_row N M place 0) place output.new seat.new }
{
    let row = rings.output_row(place);
    let word = rings.output_word(place, 0);
    let shared = &rings.table.shared;
    shared.load::<TakeReport<N, M>>(&mut seat.seat, word);
    rings.exchange_report(&mut seat.seat, row, &mut seat.spare);
    *output = seat.spare.output;
    rings.exchange_report(&mut seat.seat, row, &mut seat.spare);
    shared.load::<GiveReport<N, M>>(&mut seat.seat, word);
}

/// Reads an output that is published and that the marshaller hasn't released, and gives it back.
pub fn read_output<L: Logic, const N: usize, const M: usize, const G: usize>(
    rings: &Rings<L, N, M, G>,
    seat: &mut MarshalSeat<L>,
    place: u64,
) -> Output
    requires at { IsAt rings.now seat.old }
    requires from { seat.old.who.sequence ≤ place }
    requires to { Shows published seat.old.who place }
    ensures copied { FindsCopy (L.outputs rings.now.logic seat.old.who.seen) seat.old (out_row N M place 0) place result seat.new }
{
    let mut output = seat.spare.output;
    copy_output(rings, seat, place, &mut output);
    output
}

/// Hands all outputs below `upto` on to the gateways, when their texts are written: the last of them is that of the row
/// under way.
pub fn release_marshalled<L: Logic, const N: usize, const M: usize, const G: usize>(
    rings: &Rings<L, N, M, G>,
    seat: &mut MarshalSeat<L>,
    upto: u64,
)
    requires at { IsAt rings.now seat.old }
    requires last { upto ≡ suc seat.old.who.row.sequence }
    requires text { (o : Output) × WroteText (L.outputs rings.now.logic) (L.text rings.now.logic) seat.old.who o }
    ensures step { Steps seat.old (moved seat.old.who upto) seat.new }
{
    rings
        .table
        .shared
        .store::<MoveOwn>(&mut seat.seat, MARSHALLED, upto);
    seat.sequence = upto;
}

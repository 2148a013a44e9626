//! The single steps of the unmarshaller, which writes the command of each entry beside its message.
ghost use Rattle.std.specs.Prelude.{◌≡◌, suc, ◌<◌, ◌≤◌, length};
ghost use Rattle.venue_model.specs.History.{Message};
ghost use Rattle.ring_words.specs.Seats.{stored, moved};
ghost use Rattle.ring_words.specs.At.{IsAt, Steps};
ghost use Rattle.ring_words.specs.Steps.{GoesOnRow, WroteCommand, MayWrite};

use crate::places::{COMMAND, UNMARSHALLED};
use crate::plays::{MoveOwn, StoreCommand};
use crate::rings::Rings;
use crate::seats::reader::UnmarshalSeat;
use venue_model::Logic;

impl<L: Logic, const N: usize, const M: usize, const G: usize> Rings<L, N, M, G> {
    /// Stores a word of the command of an entry that the unmarshaller knows and hasn't released: the first one, or one
    /// behind or among those stored so far. Of a row behind the one under way that is the first one, when that row's
    /// command is written whole.
    pub fn store_command(&self, seat: &mut UnmarshalSeat<L>, sequence: u64, word: usize, value: u64)
        requires at { IsAt self.now seat.old }
        requires from { seat.old.who.sequence ≤ sequence }
        requires to { sequence < length seat.old.who.seen }
        requires word { word < 16 }
        requires order { GoesOnRow seat.old.who.row sequence word }
        requires row { MayWrite (L.reads self.now.logic) seat.old.who sequence }
        ensures step { Steps seat.old (stored seat.old.who sequence word value) seat.new }
    {
        let place = self.row_word(sequence, word + COMMAND);
        self.table
            .shared
            .store::<StoreCommand<N>>(&mut seat.seat, place, value);
    }
}

/// Hands all sequences below `upto` on to the processor, as far as the unmarshaller is concerned, when their commands
/// are written: the last of them is the row under way.
pub fn release_written<L: Logic, const N: usize, const M: usize, const G: usize>(
    rings: &Rings<L, N, M, G>,
    seat: &mut UnmarshalSeat<L>,
    upto: u64,
)
    requires at { IsAt rings.now seat.old }
    requires last { upto ≡ suc seat.old.who.row.sequence }
    requires command { (e : Message) × WroteCommand (L.reads rings.now.logic) seat.old.who e }
    ensures step { Steps seat.old (moved seat.old.who upto) seat.new }
{
    rings
        .table
        .shared
        .store::<MoveOwn>(&mut seat.seat, UNMARSHALLED, upto);
    seat.sequence = upto;
}

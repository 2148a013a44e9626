//! A gateway's seat, in front of the input ring and behind the output ring.
ghost use Rattle.std.specs.Prelude.{None, ◌≡◌, ◌≤◌, []};
ghost use Rattle.ring_words.specs.declared.view.Role.TheVariants.{Gateway};
ghost use Rattle.ring_words.specs.Places.{processed as processed_word};
ghost use Rattle.ring_words.specs.Seats.{person, IsAlone, last_load};

use crate::report::Slot;
use crate::view::View;
use atomic_table::Seat;
use std::marker::Model;

/// A gateway's place at the table. It holds the gateway's number, how many outputs it took, and the processed value
/// that it loaded last, if any: the processed word only rises, so a claim that this value leaves room for needs no look
/// at the word.
#[derive(Drop)]
pub struct GatewaySeat<L> {
    pub(crate) seat: Seat<Slot, View<L>>,
    pub(crate) number: u64,
    pub(crate) taken: u64,
    pub(crate) processed: Option<u64>,
    ghost alone: { IsAlone seat.me.0 },
    ghost bare: { seat.me.1 ≡ [] },
    ghost role: { (person seat.me.0).role ≡ Gateway number },
    ghost numbered: { (1 ≤ number) × (number ≤ 8) },
    ghost counts: { taken ≡ (person seat.me.0).sequence },
    ghost kept: { processed ≡ last_load processed_word None (person seat.me.0).loads },
}

impl<L> Model for GatewaySeat<L> {
    ghost use Rattle.ring_words.specs.At.{At, seat_of};

    ghost Value = { At L };

    ghost view = { λ s. seat_of s.seat.table_id s.seat.me.0 };
}

impl<L> GatewaySeat<L> {
    ghost use Rattle.std.specs.Prelude.{None, ◌≡◌, ◌≤◌};
    ghost use Rattle.ring_words.specs.declared.view.Role.TheVariants.{Gateway};
    ghost use Rattle.ring_words.specs.At.{number};

    /// The gateway's number, 1 to 8.
    pub fn number(&self) -> u64
        ensures value { result ≡ number self.now }
        ensures role { self.now.who.role ≡ Gateway result }
        ensures range { (1 ≤ result) × (result ≤ 8) }
    {
        self.number
    }

    /// The processed value that the gateway loaded last: so many sequences were processed by then, and by now maybe
    /// more. None where none was loaded.
    pub fn processed(&self) -> Option<u64>
        ensures value { result ≡ last_load processed_word None self.now.who.loads }
    {
        self.processed
    }

    /// How many outputs the gateway took or passed over, with those given: the place of the next one.
    pub fn taken(&self) -> u64
        ensures value { result ≡ self.now.who.sequence }
    {
        self.taken
    }
}

//! The marshaller's seat, behind the processor's.
ghost use Rattle.std.specs.Prelude.{None, ◌≡◌, []};
ghost use Rattle.ring_words.specs.declared.view.Role.TheVariants.{Marshal};
ghost use Rattle.ring_words.specs.Seats.{person, IsAlone};

use crate::report::Slot;
use crate::view::View;
use atomic_table::Seat;
use std::marker::Model;

/// The marshaller's place at the table. It holds its own word, and a spare box, which lies in a row while the output
/// there is copied.
#[derive(Drop)]
pub struct MarshalSeat<L> {
    pub(crate) seat: Seat<Slot, View<L>>,
    pub(crate) sequence: u64,
    pub(crate) spare: Slot,
    ghost alone: { IsAlone seat.me.0 },
    ghost bare: { seat.me.1 ≡ [] },
    ghost role: { (person seat.me.0).role ≡ Marshal },
    ghost counts: { sequence ≡ (person seat.me.0).sequence },
    ghost home: { (person seat.me.0).out ≡ None },
}

impl<L> Model for MarshalSeat<L> {
    ghost use Rattle.ring_words.specs.At.{At, seat_of};

    ghost Value = { At L };

    ghost view = { λ s. seat_of s.seat.table_id s.seat.me.0 };
}

impl<L> MarshalSeat<L> {
    /// The marshaller's word: the texts of all outputs below it are written.
    pub fn sequence(&self) -> u64
        ensures value { result ≡ self.now.who.sequence }
    {
        self.sequence
    }
}

//! The slots of the output ring. Who has taken one out exchanges what it holds for a box of its own, before it brings
//! the slot back.
ghost use Rattle.std.specs.Prelude.{◌≡◌, ◌%◌, [], ◌∷◌};
ghost use Rattle.ring_words.specs.Slots.{Boxed};

use crate::report::Slot;
use crate::rings::Rings;
use crate::view::View;
use atomic_table::Seat;
use std::mem;
use venue_model::Logic;

impl<L: Logic, const N: usize, const M: usize, const G: usize> Rings<L, N, M, G> {
    /// The row of an output, which is the number of its slot.
    pub(crate) fn output_row(&self, place: u64) -> usize
        ensures row { result ≡ place % M }
    {
        let _table = &self.table; // its rule says that there are M rows
        (place % M as u64) as usize
    }

    /// Exchanges what the slot of a row holds, which the seat has out, for a spare box.
    pub(crate) fn exchange_report(
        &self,
        seat: &mut Seat<Slot, View<L>>,
        row: usize,
        spare: &mut Slot,
    )
        requires table { seat.old.table_id ≡ self.now.table }
        requires out { (x : Boxed) × (seat.old.me.1 ≡ (row, x) ∷ []) }
        ensures table { (seat.new.table_id ≡ seat.old.table_id) × (seat.new.id ≡ seat.old.id) }
        ensures found { seat.old.me.1 ≡ (row, spare.new) ∷ [] }
        ensures left { seat.new.me ≡ (seat.old.me.0, (row, spare.old) ∷ []) }
    {
        mem::swap(seat.slot_mut(&self.table.shared, row), spare);
    }
}

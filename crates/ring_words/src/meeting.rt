//! Meetings: two seats learn what either knew, so that what their holders saw is of one history. No word changes.
ghost use Rattle.std.specs.Prelude.{◌≡◌, ℕ, [], length, take};
ghost use Rattle.ring_words.specs.Seats.{IsAlone, together};
ghost use Rattle.ring_words.specs.At.{IsAt, Steps};
ghost use Rattle.ring_words.specs.Meeting.{longer, met, AreMet, MeetsJournal};

use crate::places::PROCESSED;
use crate::plays::{Meet, MeetJournal, Parted, Spare, Together};
use crate::report::Slot;
use crate::rings::Rings;
use crate::seats::gateway::GatewaySeat;
use crate::seats::reader::JournalSeat;
use crate::view::View;
use atomic_table::Seat;
use std::mem;
use venue_model::Logic;

impl<L: Logic, const N: usize, const M: usize, const G: usize> Rings<L, N, M, G> {
    /// The first seat takes in the persons of the second, which is then a seat of nobody.
    fn bring_together(&self, first: &mut Seat<Slot, View<L>>, second: &mut Seat<Slot, View<L>>)
        requires first { (first.old.table_id ≡ self.now.table) × (first.old.me.1 ≡ []) × IsAlone first.old.me.0 }
        requires second { (second.old.table_id ≡ self.now.table) × (second.old.me.1 ≡ []) }
        ensures first { (first.new.table_id ≡ first.old.table_id) × (first.new.me ≡ (together first.old.me.0 second.old.me.0, [])) }
        ensures second { (second.new.table_id ≡ second.old.table_id) × (second.new.me.1 ≡ []) }
    {
        let spare = self.table.shared.split_seat::<Spare>(first);
        let persons = mem::replace(second, spare);
        self.table.shared.join_seat::<Together>(first, persons);
    }

    /// Two gateways meet: of what they had seen one history begins the other, and afterwards both have seen the longer,
    /// which is legal for both. The processed word is loaded by both at once; the table's own moves, which join the two
    /// seats and split them again, load it too.
    pub fn meet(&self, one: &mut GatewaySeat<L>, other: &mut GatewaySeat<L>) // promise 9
        requires one { IsAt self.now one.old }
        requires other { IsAt self.now other.old }
        ensures met { AreMet (length self.now.base) one.old.who other.old.who }
        ensures steps { let history = longer one.old.who.seen other.old.who.seen in (r : ℕ)
            × Steps one.old (met one.old.who r history) one.new × Steps other.old (met other.old.who r history) other.new }
    {
        self.bring_together(&mut one.seat, &mut other.seat);
        let found = self.table.shared.load::<Meet>(&mut one.seat, PROCESSED);
        other.seat = self.table.shared.split_seat::<Parted>(&mut one.seat);
        one.processed = Some(found);
        other.processed = Some(found);
    }

    /// A gateway meets the journaller: what it had seen begins what the journaller has released, and afterwards it has
    /// seen all of that, which is legal for it.
    pub fn meet_journal(&self, gateway: &mut GatewaySeat<L>, journal: &mut JournalSeat<L>) // promise 9
        requires gateway { IsAt self.now gateway.old }
        requires journal { IsAt self.now journal.old }
        ensures met { MeetsJournal (length self.now.base) gateway.old.who journal.old.who }
        ensures steps { let old = journal.old.who in (r : ℕ)
            × Steps gateway.old (met gateway.old.who r (take old.sequence old.seen)) gateway.new × Steps journal.old (met old r old.seen) journal.new }
    {
        self.bring_together(&mut gateway.seat, &mut journal.seat);
        let found = self
            .table
            .shared
            .load::<MeetJournal>(&mut gateway.seat, PROCESSED);
        journal.seat = self.table.shared.split_seat::<Parted>(&mut gateway.seat);
        gateway.processed = Some(found);
    }
}

//! How the rings end: all seats come back, and the last words are read.
ghost use Rattle.std.specs.Prelude.{◌≡◌, ℕ, ◌<◌, false, true, slice_index_or};

use crate::places::{PROCESSED, PUBLISHED};
use crate::plays::Together;
use crate::report::Slot;
use crate::rings::Rings;
use crate::seats::Seats;
use crate::seats::gateway::GatewaySeat;
use crate::seats::marshaller::MarshalSeat;
use crate::seats::processor::ProcessSeat;
use crate::seats::reader::{JournalSeat, ReaderSeat, UnmarshalSeat};
use crate::view::View;
use atomic_table::{Closed, Seat};
use std::alloc::Global;
use venue_model::Logic;

/// What had been done when the rings were closed.
#[derive(Clone, Copy, Debug, PartialEq, Eq)]
pub struct Summary {
    /// How many sequences were processed, with those of the history at the start.
    pub commands: u64,
    /// How many outputs were published, with those of the history at the start.
    pub outputs: u64,
}

/// Takes the box out of each slot, and gives the table's memory back.
fn let_go(mut closed: Closed<Slot, Global>)
    requires full { (k : ℕ) → k < closed.slots.len → slice_index_or closed.slots.filled k false ≡ true }
{
    for row in 0..closed.slot_count() {
        drop(closed.take(row));
    }
    closed.free();
}

impl<L: Logic + Drop, const N: usize, const M: usize, const G: usize> Rings<L, N, M, G> {
    ghost use Rattle.std.specs.Prelude.{◌≡◌, ◌<◌, ◌≤◌, [], ◌∷◌, length};
    ghost use Rattle.ring_words.specs.declared.view.Role.TheVariants.{Process, Journal};
    ghost use Rattle.ring_words.specs.At.{IsAt};
    ghost use Rattle.ring_words.specs.Crew.{AreGateways, AreSeatsOf};
    ghost use Rattle.ring_words.specs.Gathered.{GathersPersons};
    ghost use Rattle.ring_words.specs.Ending.{AreSpent, Ended};

    /// The processor's seat takes in those of the other stages.
    fn gather_stages(
        &self,
        process: ProcessSeat<L>,
        unmarshal: UnmarshalSeat<L>,
        journal: JournalSeat<L>,
        marshal: MarshalSeat<L>,
    ) -> Seat<Slot, View<L>>
        requires process { IsAt self.now process }
        requires unmarshal { IsAt self.now unmarshal }
        requires journal { IsAt self.now journal }
        requires marshal { IsAt self.now marshal }
        ensures table { (result.table_id ≡ self.now.table) × (result.me.1 ≡ []) }
        ensures roles { (process.who.role ≡ Process) × (journal.who.role ≡ Journal) }
        ensures released { journal.who.sequence ≤ length journal.who.seen }
        ensures all { result.me.0.people ≡ process.who ∷ unmarshal.who ∷ journal.who ∷ marshal.who ∷ [] }
    {
        let ProcessSeat { seat: mut all, .. } = process;
        let ReaderSeat { seat: second, .. } = unmarshal;
        self.table.shared.join_seat::<Together>(&mut all, second);
        let ReaderSeat { seat: third, .. } = journal;
        self.table.shared.join_seat::<Together>(&mut all, third);
        let MarshalSeat { seat: fourth, .. } = marshal;
        self.table.shared.join_seat::<Together>(&mut all, fourth);
        all
    }

    /// The stages' seat takes in those of all gateways.
    fn gather(
        &self,
        mut gateways: Vec<GatewaySeat<L>>,
        stages: Seat<Slot, View<L>>,
    ) -> Seat<Slot, View<L>>
        requires table { (stages.table_id ≡ self.now.table) × (stages.me.1 ≡ []) }
        requires some { 0 < length stages.me.0.people }
        requires gateways { AreGateways self.now gateways.items }
        ensures table { result.table_id ≡ self.now.table }
        ensures all { GathersPersons gateways.items stages.me.0.people result.me.0 }
    {
        let mut all = stages;
        while let Some(gateway) = gateways.pop() {
            let GatewaySeat { seat, .. } = gateway;
            self.table.shared.join_seat::<Together>(&mut all, seat);
        }
        all
    }

    /// Ends the rings, when all seats have come back and each claim is published. It loads the processed word once with
    /// each seat but the processor's.
    pub fn close(self, seats: Seats<L>) -> Summary // promise 9
        requires seats { AreSeatsOf G self seats }
        requires spent { AreSpent seats.gateways.items }
        ensures commands { result.commands ≡ seats.process.who.sequence }
        ensures outputs { result.outputs ≡ seats.process.who.row.sequence }
        ensures log { Ended (L.outputs self.logic) self.base seats result }
    {
        let Seats {
            gateways,
            unmarshal,
            journal,
            process,
            marshal,
        } = seats;
        let stages = self.gather_stages(process, unmarshal, journal, marshal);
        let all = self.gather(gateways, stages);
        let Rings { table } = self;
        let closed = table.close_with(all);
        let summary = Summary {
            commands: closed.word(PROCESSED),
            outputs: closed.word(PUBLISHED),
        };
        let_go(closed);
        summary
    }
}

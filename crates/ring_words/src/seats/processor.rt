//! The processor's seat, behind those of unmarshaller and journaller.
ghost use Rattle.std.specs.Prelude.{None, ◌≡◌, ◌≤◌, ◌^◌, [], length, IfSome};
ghost use Rattle.ring_words.specs.declared.view.Role.TheVariants.{Process};
ghost use Rattle.ring_words.specs.Places.{unmarshalled, taken as taken_word};
ghost use Rattle.ring_words.specs.Seats.{person, IsAlone, last_from, last_load, AreTaken, AreUpTo, no_values};

use crate::report::Slot;
use crate::view::View;
use atomic_table::Seat;
use std::marker::Model;
use venue_model::MOST_GATEWAYS;

/// The processor's place at the table. It holds the length of the history that it knows, its own word, the unmarshalled
/// value that it loaded last, how many outputs are published, of each gateway the taken value that it loaded last, if
/// any, and a spare box for the next output. The taken words only rise, so outputs that these values leave room for
/// need no look at the words.
#[derive(Drop)]
pub struct ProcessSeat<L> {
    pub(crate) seat: Seat<Slot, View<L>>,
    pub(crate) known: u64,
    pub(crate) sequence: u64,
    pub(crate) last_unmarshalled: u64,
    pub(crate) published: u64,
    pub(crate) taken: [Option<u64>; MOST_GATEWAYS],
    pub(crate) spare: Slot,
    ghost alone: { IsAlone seat.me.0 },
    ghost bare: { seat.me.1 ≡ [] },
    ghost role: { (person seat.me.0).role ≡ Process },
    ghost counts: { (known ≡ length (person seat.me.0).seen) × (sequence ≡ (person seat.me.0).sequence) × (sequence ≤ known) × (known ≤ 2 ^ 48) },
    ghost loaded: { last_unmarshalled ≡ last_from unmarshalled 0 (person seat.me.0).loads },
    ghost put: { published ≡ (person seat.me.0).row.sequence },
    ghost kept: { AreTaken taken (person seat.me.0).loads },
    ghost home: { (person seat.me.0).out ≡ None },
    ghost below: { AreUpTo published taken },
}

/// No taken word was loaded yet.
pub(crate) fn no_values() -> [Option<u64>; MOST_GATEWAYS]
    ensures { result ≡ no_values }
{
    [None; MOST_GATEWAYS]
}

impl<L> Model for ProcessSeat<L> {
    ghost use Rattle.ring_words.specs.At.{At, seat_of};

    ghost Value = { At L };

    ghost view = { λ s. seat_of s.seat.table_id s.seat.me.0 };
}

impl<L> ProcessSeat<L> {
    /// How many entries the processor knows: all sequences below may be read.
    pub fn known(&self) -> u64
        ensures value { result ≡ length self.now.who.seen }
        ensures most { result ≤ 2 ^ 48 }
    {
        self.known
    }

    /// The processor's word: all sequences below it are processed.
    pub fn sequence(&self) -> u64
        ensures value { result ≡ self.now.who.sequence }
        ensures known { result ≤ length self.now.who.seen }
    {
        self.sequence
    }

    /// How many outputs are published: the place of the next one.
    pub fn published(&self) -> u64
        ensures value { result ≡ self.now.who.row.sequence }
    {
        self.published
    }

    /// The value of this gateway's taken word that the processor loaded last: so many outputs were taken by then, and
    /// by now maybe more. No more were taken than are published. None where none was loaded.
    pub fn taken(&self, gateway: u64) -> Option<u64>
        requires gateway { (1 ≤ gateway) × (gateway ≤ 8) }
        ensures value { result ≡ last_load (taken_word gateway) None self.now.who.loads }
        ensures most { IfSome result (λ taken. taken ≤ self.now.who.row.sequence) }
    {
        self.taken[gateway as usize - 1]
    }
}

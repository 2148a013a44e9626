//! The seats of unmarshaller and journaller, which stand side by side behind the gateways and read what these publish.
ghost use Rattle.std.specs.Prelude.{◌≡◌, ◌≤◌, ◌^◌, [], length};
ghost use Rattle.ring_words.specs.Seats.{person, IsAlone};

use crate::report::Slot;
use crate::view::View;
use atomic_table::Seat;
use std::marker::{Model, PhantomData};

/// A stage that reads what gateways published.
pub trait Reader {
    ghost use Rattle.ring_words.specs.declared.view.Role.{Role};
    ghost use Rattle.ring_words.specs.Seats.{IsReader};

    /// Which one.
    ghost role: { Role };

    /// It is one of those.
    ghost reads: { IsReader role };
}

/// The unmarshaller, which reads entries and writes their commands.
pub struct Unmarshalling;

impl Reader for Unmarshalling {
    ghost use Rattle.std.proofs.Common.{inl, refl};
    ghost use Rattle.ring_words.specs.declared.view.Role.TheVariants.{Unmarshal};

    ghost role = { Unmarshal };

    ghost reads = { inl refl };
}

/// The journaller, which reads entries and keeps them.
pub struct Journalling;

impl Reader for Journalling {
    ghost use Rattle.std.proofs.Common.{inr, refl};
    ghost use Rattle.ring_words.specs.declared.view.Role.TheVariants.{Journal};

    ghost role = { Journal };

    ghost reads = { inr refl };
}

/// The place at the table of a stage that reads what gateways published. It holds the length of the history that it
/// knows, and its own word.
#[derive(Drop)]
pub struct ReaderSeat<L, R: Reader> {
    pub(crate) seat: Seat<Slot, View<L>>,
    pub(crate) known: u64,
    pub(crate) sequence: u64,
    pub(crate) marker: PhantomData<R>,
    ghost alone: { IsAlone seat.me.0 },
    ghost bare: { seat.me.1 ≡ [] },
    ghost role: { (person seat.me.0).role ≡ R.role },
    ghost counts: { (known ≡ length (person seat.me.0).seen) × (sequence ≡ (person seat.me.0).sequence) × (sequence ≤ known) × (known ≤ 2 ^ 48) },
}

impl<L, R: Reader> Model for ReaderSeat<L, R> {
    ghost use Rattle.ring_words.specs.At.{At, seat_of};

    ghost Value = { At L };

    ghost view = { λ s. seat_of s.seat.table_id s.seat.me.0 };
}

/// The unmarshaller's place at the table.
pub type UnmarshalSeat<L> = ReaderSeat<L, Unmarshalling>;

/// The journaller's place at the table.
pub type JournalSeat<L> = ReaderSeat<L, Journalling>;

impl<L, R: Reader> ReaderSeat<L, R> {
    /// How many entries the stage knows: all sequences below may be read.
    pub fn known(&self) -> u64
        ensures value { result ≡ length self.now.who.seen }
        ensures most { result ≤ 2 ^ 48 }
    {
        self.known
    }

    /// The stage's word: all sequences below it are done.
    pub fn sequence(&self) -> u64
        ensures value { result ≡ self.now.who.sequence }
        ensures known { result ≤ length self.now.who.seen }
    {
        self.sequence
    }
}

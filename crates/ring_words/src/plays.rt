//! What each kind of step tells. These types are for the proofs alone.
ghost use Rattle.ring_words.specs.Steps.{readable, meaning, sees_claim, sees_processed, claims_next, stores_raw, marks_sent, sees_mark, sees_raw, stores_command, sees_unmarshalled, sees_journalled, sees_command, moves_own, sees_taken, puts_address, publishes, sees_address, takes_report, gives_report, sees_published, stores_text, sees_marshalled, sees_text};
ghost use Rattle.ring_words.specs.Places.{marshalled, published};

use crate::report::Slot;
use crate::view::View;
use atomic_table::{Join, Play, Split};
use venue_model::Logic;

pub(crate) struct SeeClaim;

impl<L> Play<Slot, View<L>> for SeeClaim {
    ghost then = { sees_claim };
}

pub(crate) struct SeeProcessed<const N: usize>;

impl<L, const N: usize> Play<Slot, View<L>> for SeeProcessed<N> {
    ghost then = { sees_processed N };
}

pub(crate) struct ClaimNext;

impl<L> Play<Slot, View<L>> for ClaimNext {
    ghost then = { claims_next };
}

pub(crate) struct StoreRaw<const N: usize>;

impl<L, const N: usize> Play<Slot, View<L>> for StoreRaw<N> {
    ghost then = { stores_raw N };
}

pub(crate) struct StoreAvailability;

impl<L> Play<Slot, View<L>> for StoreAvailability {
    ghost then = { marks_sent };
}

pub(crate) struct SeeAvailability;

impl<L> Play<Slot, View<L>> for SeeAvailability {
    ghost then = { sees_mark };
}

pub(crate) struct SeeRaw<const N: usize>;

impl<L, const N: usize> Play<Slot, View<L>> for SeeRaw<N> {
    ghost then = { sees_raw N };
}

pub(crate) struct StoreCommand<const N: usize>;

impl<L, const N: usize> Play<Slot, View<L>> for StoreCommand<N> {
    ghost then = { stores_command N };
}

pub(crate) struct SeeUnmarshalled;

impl<L> Play<Slot, View<L>> for SeeUnmarshalled {
    ghost then = { sees_unmarshalled };
}

pub(crate) struct SeeJournalled;

impl<L> Play<Slot, View<L>> for SeeJournalled {
    ghost then = { sees_journalled };
}

pub(crate) struct SeeCommand<const N: usize>;

impl<L: Logic, const N: usize> Play<Slot, View<L>> for SeeCommand<N> {
    ghost then = { sees_command N L.reads };
}

pub(crate) struct MoveOwn;

impl<L> Play<Slot, View<L>> for MoveOwn {
    ghost then = { moves_own };
}

pub(crate) struct SeeTaken<const M: usize>;

impl<L, const M: usize> Play<Slot, View<L>> for SeeTaken<M> {
    ghost then = { sees_taken M };
}

/// The slot of the row is taken out.
pub(crate) struct PutAddress<const N: usize, const M: usize>;

impl<L, const N: usize, const M: usize> Play<Slot, View<L>> for PutAddress<N, M> {
    ghost then = { puts_address N M };
}

/// The slot comes back.
pub(crate) struct PublishOutput;

impl<L> Play<Slot, View<L>> for PublishOutput {
    ghost then = { publishes };
}

pub(crate) struct SeePublished;

impl<L: Logic> Play<Slot, View<L>> for SeePublished {
    ghost then = { sees_published L.outputs };
}

/// The slot of the row is taken out.
pub(crate) struct TakeReport<const N: usize, const M: usize>;

impl<L: Logic, const N: usize, const M: usize> Play<Slot, View<L>> for TakeReport<N, M> {
    ghost then = { takes_report (readable N M published) L.outputs };
}

/// The slot comes back.
pub(crate) struct GiveReport<const N: usize, const M: usize>;

impl<L: Logic, const N: usize, const M: usize> Play<Slot, View<L>> for GiveReport<N, M> {
    ghost then = { gives_report (readable N M published) L.outputs };
}

pub(crate) struct StoreText<const N: usize, const M: usize>;

impl<L, const N: usize, const M: usize> Play<Slot, View<L>> for StoreText<N, M> {
    ghost then = { stores_text N M };
}

pub(crate) struct SeeMarshalled;

impl<L: Logic> Play<Slot, View<L>> for SeeMarshalled {
    ghost then = { sees_marshalled L.outputs };
}

pub(crate) struct SeeAddress<const N: usize, const M: usize>;

impl<L: Logic, const N: usize, const M: usize> Play<Slot, View<L>> for SeeAddress<N, M> {
    ghost then = { sees_address (readable N M marshalled) L.outputs };
}

pub(crate) struct SeeText<const N: usize, const M: usize>;

impl<L: Logic, const N: usize, const M: usize> Play<Slot, View<L>> for SeeText<N, M> {
    ghost then = { sees_text (readable N M marshalled) (meaning L.outputs L.text) };
}

/// The first person of a view gets a seat of its own.
pub(crate) struct Apart;

impl<L> Split<View<L>> for Apart {
    ghost use Rattle.ring_words.specs.Seats.{others_stay, apart};

    ghost left = { others_stay };

    ghost right = { apart };
}

/// One seat takes in the persons of another.
pub(crate) struct Together;

impl<L> Join<View<L>> for Together {
    ghost use Rattle.ring_words.specs.Seats.{together, nobody};

    ghost both = { together };

    ghost spent = { nobody };
}

pub(crate) struct Meet;

impl<L> Play<Slot, View<L>> for Meet {
    ghost use Rattle.ring_words.specs.Meeting.{sees_meeting};

    ghost then = { sees_meeting };
}

pub(crate) struct MeetJournal;

impl<L> Play<Slot, View<L>> for MeetJournal {
    ghost use Rattle.ring_words.specs.Meeting.{sees_journal};

    ghost then = { sees_journal };
}

/// A seat of nobody is split off, and the first one stays as it is.
pub(crate) struct Spare;

impl<L> Split<View<L>> for Spare {
    ghost use Rattle.ring_words.specs.Meeting.{nobody_else};

    ghost left = { λ v. v };

    ghost right = { nobody_else };
}

/// Of two persons the second gets a seat of its own.
pub(crate) struct Parted;

impl<L> Split<View<L>> for Parted {
    ghost use Rattle.ring_words.specs.Meeting.{first_alone, second_alone};

    ghost left = { first_alone };

    ghost right = { second_alone };
}

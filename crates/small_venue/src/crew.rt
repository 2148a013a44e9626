//! The stages of a venue in small rings.
ghost use Rattle.std.specs.Prelude.{◌≡◌, ◌≤◌, false, [], vec_len, IfOk};
ghost use Rattle.ring_words.specs.Crew.{AreNew};
ghost use Rattle.journal.specs.Journals.{Holds};
ghost use Rattle.stages.specs.Crews.{AreAt};
ghost use Rattle.small_venue.specs.Seats.{ComeBackSpent};

use crate::venue::{TestRings, abc, open};
use book::{Book, BookLogic};
use journal::{Journal, JournalDisk, NullDisk};
use ring_words::{GatewaySeat, Seats, Summary};
use stages::{Crew, Turn, Turns};
use std::alloc::Global;
use venue_model::Limits;

/// The stages over a journal on this disk, in a box: all of it is let go by one call.
pub type Stages<D> = Box<Crew<D>>;

/// Rings, the stages at them, and the gateways' seats.
pub type Venue<D, const N: usize, const M: usize, const G: usize> = (
    TestRings<N, M, G>,
    Stages<D>,
    Vec<GatewaySeat<BookLogic>>,
);

/// Why there is no venue: memory was refused, or the journal has entries, or can't be read.
#[derive(Clone, Copy, Debug)]
pub struct NoVenue;

/// A venue of the symbol ABC behind an empty history, over a journal that keeps nothing.
pub fn open_venue<const N: usize, const M: usize, const G: usize>(
    alloc: Global,
) -> Result<Venue<NullDisk, N, M, G>, NoVenue>
    requires { (1 ≤ G) × (G ≤ 8) }
    ensures stages { IfOk result (λ r. AreAt r.0 r.1.value) }
    ensures seats { IfOk result (λ r. ComeBackSpent r.0 r.2.items) }
    ensures count { IfOk result (λ r. vec_len r.2 ≡ G) }
{
    open_venue_over(alloc, NullDisk)
}

/// The same over the journal of this disk, which is to have no entries.
pub fn open_venue_over<D: JournalDisk + Drop, const N: usize, const M: usize, const G: usize>(
    alloc: Global,
    disk: D,
) -> Result<Venue<D, N, M, G>, NoVenue>
    requires { (1 ≤ G) × (G ≤ 8) }
    ensures stages { IfOk result (λ r. AreAt r.0 r.1.value) }
    ensures seats { IfOk result (λ r. ComeBackSpent r.0 r.2.items) }
    ensures count { IfOk result (λ r. vec_len r.2 ≡ G) }
{
    let Some(limits) = abc(alloc) else {
        return Err(NoVenue);
    };
    let journal = empty_journal(alloc, disk)?;
    let Ok((rings, seats)) = open::<N, M, G>(alloc, &limits) else {
        return Err(NoVenue);
    };
    let (stages, gateways) = stages_of(alloc, &rings, seats, &limits, journal)?;
    Ok((rings, stages, gateways))
}

/// The stages of these symbols at the seats of rings that were opened behind an empty history, over the journal of that
/// history, and the gateways' seats.
pub fn stages_of<D: JournalDisk + Drop, const N: usize, const M: usize, const G: usize>(
    alloc: Global,
    rings: &TestRings<N, M, G>,
    seats: Seats<BookLogic>,
    limits: &Limits,
    journal: Journal<D>,
) -> Result<(Stages<D>, Vec<GatewaySeat<BookLogic>>), NoVenue>
    requires opened { (rings.now.logic ≡ limits.now) × (rings.now.base ≡ []) × (rings.now.base_outputs ≡ 0) }
    requires seats { AreNew G rings.now seats }
    requires spent { ComeBackSpent rings.now seats.gateways.items }
    requires journal { (journal.failed ≡ false) × (journal.count ≡ 0) }
    requires holds { D.honest journal.disk → Holds (D.tells journal.disk) [] }
    ensures rings { IfOk result (λ r. AreAt rings.now r.0.value) }
    ensures gateways { IfOk result (λ r. r.1 ≡ seats.gateways) }
    ensures spent { IfOk result (λ r. ComeBackSpent rings.now r.1.items) }
{
    let Ok(book) = Book::new(alloc, limits) else {
        return Err(NoVenue);
    };
    let Ok((crew, gateways)) = Crew::new(alloc, rings, seats, limits, journal, book) else {
        return Err(NoVenue);
    };
    match Box::new(alloc, crew) {
        Ok(stages) => Ok((stages, gateways)),
        Err(_) => Err(NoVenue),
    }
}

/// Lets each stage poll once.
pub fn poll<D: JournalDisk, const N: usize, const M: usize, const G: usize>(
    rings: &TestRings<N, M, G>,
    stages: &mut Stages<D>,
) -> Turns
    requires { AreAt rings.now stages.old.value }
    ensures { AreAt rings.now stages.new.value }
{
    stages.poll(rings)
}

/// Closes the rings, to which all gateways' seats have come back, and answers what had been done, and the disk.
pub fn close<D: JournalDisk, const N: usize, const M: usize, const G: usize>(
    rings: TestRings<N, M, G>,
    stages: Stages<D>,
    gateways: Vec<GatewaySeat<BookLogic>>,
) -> (Summary, D)
    requires stages { AreAt rings stages.value }
    requires seats { ComeBackSpent rings gateways.items }
    requires count { vec_len gateways ≡ G }
{
    Box::into_inner(stages).close(rings, gateways)
}

/// The next sequence of the processor.
pub fn processed<D: JournalDisk>(stages: &Stages<D>) -> u64 {
    stages.processor.next_seq()
}

/// The stages' turns, in the order in which a message meets them.
pub fn turns_of(turns: [Turn; 4]) -> Turns {
    let [unmarshaller, journaller, processor, marshaller] = turns;
    Turns {
        unmarshaller,
        journaller,
        processor,
        marshaller,
    }
}

/// The journal of this disk, which is to have no entries.
pub fn empty_journal<D: JournalDisk + Drop>(alloc: Global, disk: D) -> Result<Journal<D>, NoVenue>
    ensures ready { IfOk result (λ journal. (journal.failed ≡ false) × (journal.count ≡ 0)) }
    ensures holds { IfOk result (λ journal. D.honest journal.disk → Holds (D.tells journal.disk) []) }
{
    let Ok((journal, entries)) = Journal::open(alloc, disk) else {
        return Err(NoVenue);
    };
    if !entries.is_empty() {
        return Err(NoVenue);
    }
    Ok(journal)
}

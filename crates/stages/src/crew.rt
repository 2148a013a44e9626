//! The four stages of one venue together, whoever lets them work: one thread, which polls them in the order in which a
//! message meets them, or a thread for each.
ghost use Rattle.std.specs.Prelude.{◌≡◌, ◌↔◌, length, vec_len, false, true, IfOk, IfErr};
ghost use Rattle.ring_words.specs.Crew.{AreGateways, AreNew};
ghost use Rattle.ring_words.specs.Ending.{AreSpent};
ghost use Rattle.journal.specs.Journals.{Holds};
ghost use Rattle.book.specs.Histories.{state_of, outputs_of};
ghost use Rattle.stages.specs.Kept.{KeepsDone, Fails, IsUntouched, LeavesBlock};
ghost use Rattle.stages.specs.Stations.{disk_of};
ghost use Rattle.stages.specs.Crews.{AreAt, AreIdle, new_crew, Polls};
ghost use Rattle.stages.specs.Processes.{sizes};
ghost use Rattle.stages.specs.Turns.{OnlyReadBlock};
ghost use Rattle.stages.specs.Finishing.{Finished};

use crate::journaller::Journaller;
use crate::marshaller::Marshaller;
use crate::processor::Processor;
use crate::turn::Turn;
use crate::unmarshaller::Unmarshaller;
use book::{Book, BookLogic};
use journal::{Journal, JournalDisk};
use ring_words::{GatewaySeat, Rings, Seats, Summary};
use std::alloc::Global;
use std::marker::Model;
use venue_model::Limits;

/// What the stages' polls came to.
#[derive(Clone, Copy, Debug, PartialEq, Eq)]
pub struct Turns {
    pub unmarshaller: Turn,
    pub journaller: Turn,
    pub processor: Turn,
    pub marshaller: Turn,
}

impl Turns {
    /// Whether no stage had anything to do.
    pub fn are_idle(&self) -> bool
        ensures { result ≡ true ↔ AreIdle self.now }
    {
        matches!(
            (
                self.unmarshaller,
                self.journaller,
                self.processor,
                self.marshaller
            ),
            (Turn::Idle, Turn::Idle, Turn::Idle, Turn::Idle)
        )
    }
}

/// The four stages, each at its seat. Contracts see a `OneCrew`.
#[derive(Drop)]
pub struct Crew<D: JournalDisk> {
    pub unmarshaller: Unmarshaller,
    pub journaller: Journaller<D>,
    pub processor: Processor,
    pub marshaller: Marshaller,
}

impl<D: JournalDisk> Model for Crew<D> {
    ghost use Rattle.stages.specs.Stations.{OneCrew};

    ghost Value = { OneCrew D };

    ghost view = { λ c. record { unmarshaller = c.unmarshaller; journaller = c.journaller; processor = c.processor; marshaller = c.marshaller } };
}

/// A crew, and its gateways' seats in the order of their numbers.
pub type CrewAndGateways<D> = (Crew<D>, Vec<GatewaySeat<BookLogic>>);

impl<D: JournalDisk> Crew<D> {
    /// The stages at the seats of rings that were just opened with these limits' logic, the journal of the history that
    /// they were opened with, and the book of that history, and the gateways' seats. Where memory for the outputs of
    /// one command or for the entries of one block is refused, the journal is given back.
    pub fn new<const N: usize, const M: usize, const G: usize>(
        alloc: Global,
        rings: &Rings<BookLogic, N, M, G>,
        seats: Seats<BookLogic>,
        limits: &Limits,
        journal: Journal<D>,
        book: Book,
    ) -> Result<CrewAndGateways<D>, Journal<D>> // promise 11
        requires seats { AreNew G rings.now seats }
        requires limits { limits.now ≡ rings.now.logic }
        requires book { (book.limits ≡ rings.now.logic) × (book.state ≡ state_of rings.now.logic rings.now.base) }
        requires given { rings.now.base_outputs ≡ length (outputs_of rings.now.logic rings.now.base) }
        requires journal { (journal.failed ≡ false) × (journal.count ≡ length rings.now.base) }
        requires holds { D.honest journal.disk → Holds (D.tells journal.disk) rings.now.base }
        ensures made { IfOk result (λ r. (r.0 ≡ new_crew rings.now journal book) × (r.1 ≡ seats.gateways)) }
        ensures refused { IfErr result (λ j. j ≡ journal) }
    {
        let Seats {
            gateways,
            unmarshal,
            journal: seat,
            process,
            marshal,
        } = seats;
        let Ok(processor) = Processor::new(alloc, process, book) else {
            return Err(journal);
        };
        let journaller = match Journaller::new(alloc, seat, journal) {
            Ok(journaller) => journaller,
            Err((_, _, journal)) => return Err(journal),
        };
        let crew = Crew {
            unmarshaller: Unmarshaller::new(unmarshal, limits),
            journaller,
            processor,
            marshaller: Marshaller::new(marshal),
        };
        Ok((crew, gateways))
    }

    /// Lets each stage poll once, in the order in which a message meets them, so that what was published is kept, one
    /// message processed, and one output marshalled. Where the journal failed, what isn't kept isn't processed. Takes
    /// no memory.
    pub fn poll<const N: usize, const M: usize, const G: usize>(
        &mut self,
        rings: &Rings<BookLogic, N, M, G>,
    ) -> Turns // promise 11
        requires at { AreAt rings.now self.old }
        ensures stays { AreAt rings.now self.new }
        ensures polls { Polls (sizes N M G) rings.now.logic self.old self.new result }
        ensures failed { Fails D.failed self.old.journaller.journal self.new.journaller.journal result.journaller }
        ensures untouched { IsUntouched self.old.journaller self.new.journaller result.journaller }
        ensures not_kept { self.old.journaller.journal.failed ≡ false → result.journaller ≡ Turn.JournalFailed →
            OnlyReadBlock N self.old.journaller.seat.who self.new.journaller.seat.who }
        ensures any_moment { LeavesBlock N D.honest D.tells self.old.journaller self.new.journaller }
        ensures keeps { D.honest (disk_of self.new) → KeepsDone (D.tells (disk_of self.new)) self.new.journaller.seat.who }
    {
        Turns {
            unmarshaller: self.unmarshaller.poll(rings),
            journaller: self.journaller.poll(rings),
            processor: self.processor.poll(rings),
            marshaller: self.marshaller.poll(rings),
        }
    }

    /// Ends the venue, when all gateways' seats have come back: the rings close, and the disk is given back.
    pub fn close<const N: usize, const M: usize, const G: usize>(
        self,
        rings: Rings<BookLogic, N, M, G>,
        gateways: Vec<GatewaySeat<BookLogic>>,
    ) -> (Summary, D) // promise 11
        requires at { AreAt rings self }
        requires gateways { AreGateways rings gateways.items }
        requires count { vec_len gateways ≡ G }
        requires spent { AreSpent gateways.items }
        ensures disk { result.1 ≡ disk_of self }
        ensures finished { Finished rings.entry gateways.items self (D.honest (disk_of self)) (D.tells (disk_of self)) result.0 }
    {
        let Crew {
            unmarshaller,
            journaller,
            processor,
            marshaller,
        } = self;
        let (journal, kept) = journaller.end();
        let (process, _) = processor.end();
        let seats = Seats {
            gateways,
            unmarshal: unmarshaller.end(),
            journal,
            process,
            marshal: marshaller.end(),
        };
        (rings.close(seats), kept.end())
    }
}

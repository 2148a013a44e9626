//! The whole path of a run: gateways and stages at the same rings.
ghost use Rattle.std.specs.Prelude.{◌≡◌, [], false, IfOk, IfSome};
ghost use Rattle.ring_words.specs.At.{IsAt};
ghost use Rattle.ring_words.specs.Crew.{AreNewGateways, AreNew};
ghost use Rattle.stages.specs.Crews.{AreAt};
ghost use Rattle.std.specs.Thread.{IsSync};

use crate::fault::Fault;
use crate::stages_rate::VenueRings;
use crate::stages_rate::gateway::Gateway;
use book::{Book, BookLogic};
use journal::{Journal, NullDisk};
use ring_words::{GatewaySeat, Seats};
use stages::{Crew, CrewAndGateways};
use std::alloc::{AllocError, Global};
use std::rt::Clock;
use std::thread::{Threads, join};
use std::time::{Duration, Instant};
use venue_model::Limits;
use workers::{NoGate, Outcome, Parks, Signals, Station, Worker, run, work};

/// Gateways with their messages, the last one first, and the stages.
#[derive(Drop)]
pub struct Path<'a, const G: usize> {
    rings: &'a VenueRings<G>,
    gateways: Vec<Gateway<'a, G>>,
    crew: Crew<NullDisk>,
    commands: u64,
    ghost fits: { AreAt rings.now crew },
}

/// How many stages there are.
const STAGES: u64 = 4;

/// An empty journal. Its disk keeps nothing, so that what the calls of a disk cost is left out of the figures.
fn empty_journal(alloc: Global) -> Result<Journal<NullDisk>, AllocError>
    ensures { IfOk result (λ journal. (journal.failed ≡ false) × (journal.count ≡ 0)) }
{
    let Ok((journal, entries)) = Journal::open(alloc, NullDisk) else {
        return Err(AllocError);
    };
    if !entries.is_empty() {
        return Err(AllocError);
    }
    Ok(journal)
}

/// The stages of new rings, with an empty book, and the gateways' seats.
fn crew_of<const G: usize>(
    alloc: Global,
    rings: &VenueRings<G>,
    seats: Seats<BookLogic>,
    limits: &Limits,
) -> Result<CrewAndGateways<NullDisk>, AllocError>
    requires opened { (rings.now.logic ≡ limits.now) × (rings.now.base ≡ []) × (rings.now.base_outputs ≡ 0) }
    requires seats { AreNew G rings.now seats }
    ensures crew { IfOk result (λ r. AreAt rings.now r.0) }
    ensures gateways { IfOk result (λ r. AreNewGateways rings.now r.1.items) }
{
    let journal = empty_journal(alloc)?;
    let book = Book::new(alloc, limits)?;
    match Crew::new(alloc, rings, seats, limits, journal, book) {
        Ok(made) => Ok(made),
        Err(_) => Err(AllocError),
    }
}

/// The next gateway, from the last seat on.
fn next_seat<const G: usize>(
    rings: &VenueRings<G>,
    seats: &mut Vec<GatewaySeat<BookLogic>>,
) -> Option<GatewaySeat<BookLogic>>
    requires { AreNewGateways rings.now seats.old.items }
    ensures left { AreNewGateways rings.now seats.new.items }
    ensures next { IfSome result (λ seat. IsAt rings.now seat) }
{
    let seat = seats.pop()?;
    Some(seat)
}

/// The gateways of all seats, the last one first, each with its share of the messages.
fn gateways<'a, const G: usize>(
    alloc: Global,
    rings: &'a VenueRings<G>,
    mut seats: Vec<GatewaySeat<BookLogic>>,
    commands: u32,
) -> Result<Vec<Gateway<'a, G>>, Fault>
    requires { AreNewGateways rings.now seats.items }
{
    let mut all = Vec::new(alloc);
    for _ in 0..G {
        if let Some(seat) = next_seat(rings, &mut seats) {
            let gateway = Gateway::new(alloc, rings, seat, commands)?;
            if all.push(gateway).is_err() {
                return Err(Fault::Memory);
            }
        }
    }
    Ok(all)
}

/// Lets the gateway work until it is over, and looks whether it has what is due to it.
fn trade<R: Clock + Parks, const G: usize>(
    rt: &R,
    mut gateway: Gateway<'_, G>,
    signals: &Signals,
) -> Result<(), Fault> {
    let station = Station::Gateway(gateway.number());
    work(rt, &NoGate, station, &mut gateway, rt.parking(), signals);
    gateway.check()
}

/// Lets each gateway do that on a thread of its own.
fn serve<R: Threads + Clock + Parks + Sync, const G: usize>(
    rt: &R,
    mut gateways: Vec<Gateway<'_, G>>,
    signals: &Signals,
) -> Result<(), Fault> {
    let Some(gateway) = gateways.pop() else {
        return Ok(());
    };
    let (one, others) = join(
        rt,
        move || -> Result<(), Fault>
            requires { IsSync R.row }
        { trade(rt, gateway, signals) },
        move || -> Result<(), Fault>
            requires { IsSync R.row }
        { serve(rt, gateways, signals) },
    );
    one.and(others)
}

/// Looks whether all commands were processed.
fn check_processed(crew: &Crew<NullDisk>, commands: u64) -> Result<(), Fault> {
    if crew.processor.next_seq() != commands {
        return Err(Fault::WrongOutputs);
    }
    Ok(())
}

/// Lets the gateway at this place take its turn, and says whether it did something.
fn turn_at<const G: usize>(gateways: &mut [Gateway<'_, G>], place: usize) -> bool {
    if gateways.len() <= place {
        return false;
    }
    matches!(gateways[place].turn(), Outcome::Worked)
}

/// Lets each gateway take its turn, and says whether all did something.
fn turn_all<const G: usize>(gateways: &mut [Gateway<'_, G>]) -> bool {
    let mut all = true;
    for gateway in gateways.iter_mut() {
        all = all && matches!(gateway.turn(), Outcome::Moved);
    }
    all
}

impl<'a, const G: usize> Path<'a, G> {
    /// The path of so many commands over new rings, with an empty book.
    pub fn new(
        alloc: Global,
        rings: &'a VenueRings<G>,
        seats: Seats<BookLogic>,
        limits: &Limits,
        commands: u32,
    ) -> Result<Path<'a, G>, Fault>
        requires opened { (rings.now.logic ≡ limits.now) × (rings.now.base ≡ []) × (rings.now.base_outputs ≡ 0) }
        requires seats { AreNew G rings.now seats }
    {
        let (crew, seats) = crew_of(alloc, rings, seats, limits)?;
        let gateways = gateways(alloc, rings, seats, commands)?;
        Ok(Path {
            rings,
            gateways,
            crew,
            commands: u64::from(commands),
        })
    }

    /// How long gateways and stages take for the commands, each on a thread of its own, until each gateway has what is
    /// due to it and all commands were processed.
    pub fn time_on_threads<R: Threads + Clock + Parks + Sync>(
        self,
        rt: &R,
    ) -> Result<Duration, Fault> {
        let begun = Instant::now(rt);
        self.run_on_threads(rt)?;
        Ok(begun?.elapsed(rt)?)
    }

    /// Lets them do that.
    fn run_on_threads<R: Threads + Clock + Parks + Sync>(self, rt: &R) -> Result<(), Fault> {
        let Path {
            rings,
            gateways,
            crew,
            commands,
        } = self;
        let all = Signals::new((G as u64).saturating_add(STAGES));
        let signals = &all;
        let (crew, served) = run(
            rt,
            &NoGate,
            rings,
            crew,
            move || -> Result<(), Fault>
                requires { IsSync R.row }
            { serve(rt, gateways, signals) },
            signals,
        );
        served.and(check_processed(&crew, commands))
    }

    /// How long they take on this thread, one command after another, each of the next gateway.
    pub fn time_on_one_thread<R: Clock>(&mut self, rt: &R) -> Result<Duration, Fault> {
        let begun = Instant::now(rt)?;
        self.pass_all()?;
        let took = begun.elapsed(rt)?;
        self.check()?;
        Ok(took)
    }

    /// Brings all commands through.
    fn pass_all(&mut self) -> Result<(), Fault> {
        for command in 0..self.commands {
            if !self.pass((command % (G as u64).max(1)) as usize) {
                return Err(Fault::GaveUp);
            }
        }
        Ok(())
    }

    /// Brings the next message of the gateway at this place through all stages, and what comes of it to all gateways,
    /// and says whether that went well.
    fn pass(&mut self, place: usize) -> bool {
        if !turn_at(self.gateways.as_mut_slice(), place) {
            return false;
        }
        self.crew.poll(self.rings);
        turn_all(self.gateways.as_mut_slice())
    }

    /// Looks whether each gateway has what is due to it and all commands were processed.
    fn check(&self) -> Result<(), Fault> {
        for gateway in &self.gateways {
            gateway.check()?;
        }
        check_processed(&self.crew, self.commands)
    }
}

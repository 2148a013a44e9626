//! The usher, whom each worker passes at each turn: it keeps a client from coming or leaving too early, whatever the
//! schedule, and sees when all is told. It lets nobody wait for ever.

use super::clients::Member;
use std::rt::Clock;
use std::sync::atomic::{AtomicBool, AtomicU64, Ordering};
use std::thread;
use std::time::Duration;
use venue::StopSign;
use workers::{Gate, Station};

/// A bit for each of the eight workers.
const ALL_WORKERS: u64 = 0xFF;

/// Behind so many turns the clients of the first two members are logged on.
const LOGGED_ON: u64 = 20;

/// At this turn the clients of the other two haven't sent an order yet.
const MORNING: u64 = 2;

/// Up to this turn the third member's client sends its orders, at most one in four turns.
const BUSY: u64 = 160;

/// At this turn each client of the first two members has sent its orders, and not yet its Logout.
const NOON: u64 = 100;

/// In so many turns a gateway takes all outputs that are there.
const SETTLED: u64 = 120;

/// One that has had so many, and few of them in the last looks, has taken all that there is, and rests: then it takes a
/// turn each tenth of a second.
const RESTING: u64 = 25;

/// How many turns one that rests takes at most in so many looks.
const WHILE_RESTING: u64 = 4;

/// In so many looks, some milliseconds apart.
const LOOKS: u64 = 60;

/// How long who waits sleeps between two looks, in microseconds. Who only lets others run waits for longer where other
/// programs keep the cores busy: each time until all of those have had their share.
const NAP: u64 = 50;

/// How often a gateway that waits looks at most, on a day on which nothing is to fail.
const PATIENCE: u64 = 100_000;

/// The same on a day on which the disk is to fail: then what it waits for may never come.
const LITTLE_PATIENCE: u64 = 200;

/// How many naps the journaller takes behind each turn in which it handed something on.
const LINGERING: u64 = 4;

/// How often the venue asks at most whether it is to stop: for some ten seconds.
const MOST_LOOKS: u64 = 2_000;

/// What is to come of a day.
#[derive(Clone, Copy)]
pub struct Plan {
    /// How many commands there are when the first clients leave.
    early: u64,
    /// How many there are in the end.
    all: u64,
    /// How often a gateway that waits looks at most.
    patience: u64,
}

impl Plan {
    /// The day of these members behind so many commands, and whether nothing is to fail.
    pub fn of(members: &[Member; 4], before: u64, is_whole: bool) -> Plan {
        let (mut early, mut all) = (before, before);
        for member in members {
            early = early.wrapping_add(member.early);
            all = all.wrapping_add(member.count);
        }
        Plan {
            early,
            all,
            patience: if is_whole { PATIENCE } else { LITTLE_PATIENCE },
        }
    }
}

/// What the usher has seen.
#[derive(Drop)]
pub struct Usher<'a, C: Clock> {
    clock: &'a C,
    plan: Plan,
    /// Which workers have come: a bit for each, by its number.
    here: AtomicU64,
    /// How many turns the journaller began, and ended.
    begun: AtomicU64,
    ended: AtomicU64,
    /// What it has handed on: the next sequence.
    journalled: AtomicU64,
    /// How many commands are processed, and how many were when the marshaller's turn began.
    processed: AtomicU64,
    telling: AtomicU64,
    /// Whether the marshaller has had a turn behind what is early, and behind all.
    early_told: AtomicBool,
    all_told: AtomicBool,
    /// The number of each gateway's last turn, and how many turns it has had since all was told.
    turns: [AtomicU64; 4],
    settled: [AtomicU64; 4],
}

/// The number of a worker among all eight; of a gateway it is that among the gateways too.
fn number_of(worker: Station) -> usize {
    match worker {
        Station::Gateway(member) => (member.wrapping_sub(1) % 4) as usize,
        Station::Unmarshaller => 4,
        Station::Journaller => 5,
        Station::Processor => 6,
        Station::Marshaller => 7,
    }
}

/// Four counts of nothing.
fn counts() -> [AtomicU64; 4] {
    [
        AtomicU64::new(0),
        AtomicU64::new(0),
        AtomicU64::new(0),
        AtomicU64::new(0),
    ]
}

impl<'a, C: Clock> Usher<'a, C> {
    /// Nobody has passed by yet.
    pub fn new(clock: &'a C, plan: Plan) -> Usher<'a, C> {
        Usher {
            clock,
            plan,
            here: AtomicU64::new(0),
            begun: AtomicU64::new(0),
            ended: AtomicU64::new(0),
            journalled: AtomicU64::new(0),
            processed: AtomicU64::new(0),
            telling: AtomicU64::new(0),
            early_told: AtomicBool::new(false),
            all_told: AtomicBool::new(false),
            turns: counts(),
            settled: counts(),
        }
    }

    /// Whether all workers have come.
    fn are_all_here(&self) -> bool {
        self.here.load(Ordering::SeqCst) == ALL_WORKERS
    }

    /// Whether the first two members are logged on.
    fn is_morning(&self) -> bool {
        let [first, second, _, _] = &self.turns;
        LOGGED_ON <= first.load(Ordering::SeqCst) && LOGGED_ON <= second.load(Ordering::SeqCst)
    }

    /// How many turns each gateway has had since all was told.
    fn turns_since(&self) -> [u64; 4] {
        let [first, second, third, fourth] = &self.settled;
        [
            first.load(Ordering::SeqCst),
            second.load(Ordering::SeqCst),
            third.load(Ordering::SeqCst),
            fourth.load(Ordering::SeqCst),
        ]
    }

    /// Whether the journaller has had a whole turn since it had begun so many.
    fn has_journalled(&self, begun: u64) -> bool {
        begun < self.ended.load(Ordering::SeqCst)
    }

    /// Whether a gateway may begin its turn of this number, before which the journaller had begun so many. No client
    /// comes before all workers are there. The third member's orders come into blocks of their own. Reports would be
    /// passed over where their client isn't logged on yet, or has left already.
    fn may_begin(&self, gateway: usize, turn: u64, begun: u64) -> bool {
        match turn {
            0 => self.are_all_here(),
            MORNING => gateway < 2 || self.is_morning(),
            NOON => 2 <= gateway || self.early_told.load(Ordering::SeqCst),
            _ => gateway != 2 || turn % 4 != 0 || BUSY < turn || self.has_journalled(begun),
        }
    }

    /// Lets the others go on for so many naps.
    fn nap(&self, naps: u64) {
        thread::sleep(self.clock, Duration::from_micros(naps.saturating_mul(NAP)));
    }

    /// Waits until the gateway may begin its turn of this number, or its patience is at an end.
    fn wait(&self, gateway: usize, turn: u64) {
        let begun = self.begun.load(Ordering::SeqCst);
        for _ in 0..self.plan.patience {
            if self.all_told.load(Ordering::SeqCst) || self.may_begin(gateway, turn, begun) {
                return;
            }
            self.nap(1);
        }
    }

    /// The journaller has had its turn, and this is its next sequence. What it has handed on is told, before all are to
    /// end where its journal has failed.
    fn linger(&self, seq: u64) {
        self.ended.fetch_add(1, Ordering::SeqCst);
        if self.journalled.load(Ordering::SeqCst) != seq {
            self.journalled.store(seq, Ordering::SeqCst);
            self.nap(LINGERING);
        }
    }

    /// The marshaller begins a turn: it tells what comes of all that is processed by now.
    fn begin_telling(&self) {
        let processed = self.processed.load(Ordering::SeqCst);
        self.telling.store(processed, Ordering::SeqCst);
    }

    /// The marshaller has had its turn.
    fn end_telling(&self) {
        let told = self.telling.load(Ordering::SeqCst);
        if self.plan.early <= told {
            self.early_told.store(true, Ordering::SeqCst);
        }
        if self.plan.all <= told {
            self.all_told.store(true, Ordering::SeqCst);
        }
    }

    /// A gateway has had its turn of this number.
    fn count(&self, gateway: usize, turn: u64) {
        let (turns, settled) = (&self.turns, &self.settled);
        turns[gateway % 4].store(turn, Ordering::SeqCst);
        if self.all_told.load(Ordering::SeqCst) {
            settled[gateway % 4].fetch_add(1, Ordering::SeqCst);
        }
    }
}

impl<C: Clock> Gate for Usher<'_, C> {
    fn enter(&self, worker: Station, seq: u64) {
        let number = number_of(worker);
        self.here.fetch_or(1 << (number % 8), Ordering::SeqCst);
        match worker {
            Station::Gateway(_) => self.wait(number, seq),
            Station::Journaller => {
                self.begun.fetch_add(1, Ordering::SeqCst);
            }
            Station::Marshaller => self.begin_telling(),
            Station::Unmarshaller | Station::Processor => {}
        }
    }

    fn leave(&self, worker: Station, seq: u64) {
        match worker {
            Station::Gateway(_) => self.count(number_of(worker), seq),
            Station::Journaller => self.linger(seq),
            Station::Processor => self.processed.store(seq, Ordering::SeqCst),
            Station::Marshaller => self.end_telling(),
            Station::Unmarshaller => {}
        }
    }
}

/// Whether each gateway has taken all, by how many turns each has had since all was told, and had some looks ago.
fn have_taken_all(before: &[u64; 4], turns: &[u64; 4]) -> bool {
    let mut all = true;
    for (before, turns) in before.iter().zip(turns.iter()) {
        let rests = RESTING <= *turns && turns.saturating_sub(*before) <= WHILE_RESTING;
        all = all && (SETTLED <= *turns || rests);
    }
    all
}

/// The venue is to stop when the usher has seen that the day is over, or behind so many looks.
#[derive(Drop)]
pub struct WhenOver<'a, C: Clock> {
    usher: &'a Usher<'a, C>,
    looks: u64,
    /// How many turns each gateway had had since all was told, some looks ago.
    before: [u64; 4],
}

impl<'a, C: Clock> WhenOver<'a, C> {
    /// The venue hasn't asked yet.
    pub fn of(usher: &'a Usher<'a, C>) -> WhenOver<'a, C> {
        WhenOver {
            usher,
            looks: 0,
            before: [0; 4],
        }
    }
}

impl<C: Clock> StopSign for WhenOver<'_, C> {
    fn clear(&mut self) {}

    fn is_up(&mut self) -> bool {
        self.looks = self.looks.saturating_add(1);
        if self.looks % LOOKS != 0 {
            return MOST_LOOKS < self.looks;
        }
        let turns = self.usher.turns_since();
        let is_over = have_taken_all(&self.before, &turns);
        self.before = turns;
        is_over
    }
}

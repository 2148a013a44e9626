//! Where the six workers of a venue of two gateways meet before their first turns. A worker that waits sleeps.
use std::rt::Clock;
use std::sync::atomic::{AtomicBool, Ordering};
use std::thread;
use std::time::Duration;
use workers::{Gate, Station};

/// How long a worker sleeps between two looks for the others, in microseconds.
const NAP: u64 = 100;

/// How often a worker looks for the others before it gives up: for fifteen seconds at least.
const MOST_LOOKS: u64 = 150_000;

/// Who has come: a flag for each of the six, and whether one of them waited in vain.
#[derive(Drop)]
pub struct Meeting {
    here: [AtomicBool; 6],
    in_vain: AtomicBool,
}

impl Meeting {
    /// Nobody is here.
    pub fn new() -> Meeting {
        Meeting {
            here: [
                AtomicBool::new(false),
                AtomicBool::new(false),
                AtomicBool::new(false),
                AtomicBool::new(false),
                AtomicBool::new(false),
                AtomicBool::new(false),
            ],
            in_vain: AtomicBool::new(false),
        }
    }

    /// Sets the worker's flag.
    fn come(&self, worker: Station) {
        let place = match worker {
            Station::Unmarshaller => 0,
            Station::Journaller => 1,
            Station::Processor => 2,
            Station::Marshaller => 3,
            Station::Gateway(1) => 4,
            Station::Gateway(_) => 5,
        };
        self.here[place].store(true, Ordering::SeqCst);
    }

    /// Whether all are here.
    fn is_full(&self) -> bool {
        let mut all = true;
        for flag in &self.here {
            all = all && flag.load(Ordering::SeqCst);
        }
        all
    }

    /// Whether all are here, or one waited in vain.
    pub fn is_over(&self) -> bool {
        self.is_full() || self.in_vain.load(Ordering::SeqCst)
    }

    /// Whether all came while the others waited. Who waited in vain lets the others come behind it.
    pub fn was_held(&self) -> bool {
        self.is_full() && !self.in_vain.load(Ordering::SeqCst)
    }

    /// Comes, and waits for the others.
    fn wait<C: Clock>(&self, clock: &C, worker: Station) {
        self.come(worker);
        for _ in 0..MOST_LOOKS {
            if self.is_over() {
                return;
            }
            thread::sleep(clock, Duration::from_micros(NAP));
        }
        self.in_vain.store(true, Ordering::SeqCst);
    }
}

/// The gate before a worker's first turn, where it waits for the others by this clock.
#[derive(Drop)]
pub struct Entrance<'a, C: Clock> {
    pub clock: &'a C,
    pub meeting: &'a Meeting,
}

impl<C: Clock> Gate for Entrance<'_, C> {
    fn enter(&self, worker: Station, seq: u64) {
        if seq == 0 {
            self.meeting.wait(self.clock, worker);
        }
    }

    fn leave(&self, _worker: Station, _seq: u64) {}
}

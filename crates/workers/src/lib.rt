//! Stages and gateways at the rings as workers: each takes its turns on a thread of its own until it is told to stop,
//! and all come back.
#![tactic(auto)]

mod counted;
mod crew;
mod gate;
mod parking;
mod rest;
mod signals;
mod sleeper;
mod station;
mod threads;
mod waking;
mod worker;

pub use counted::CountedPauses;
pub use gate::{Gate, NoGate, Station};
pub use parking::{Parking, Parks};
pub use rest::{Answer, Machine, Pause, Pauses, Rest};
pub use signals::{Signalling, Signals};
pub use threads::run;
pub use worker::{Ended, Outcome, Worker, work};

//! How a thread waits here: it sleeps for a moment. One that lets others run waits for longer where other programs keep
//! the cores busy: each time until all of those have had their share.
use std::rt::Clock;
use std::thread;
use std::time::Duration;

/// How long that moment is, in microseconds.
const NAP: u64 = 100;

/// How often a thread tries before it gives up: for a minute at least, if it sleeps each time.
pub const TRIES: u64 = 1_000_000;

/// Sleeps for a moment.
pub fn nap<C: Clock>(clock: &C) {
    thread::sleep(clock, Duration::from_micros(NAP));
}

//! A disk of which one call takes long, so that who doesn't wait for it goes on meanwhile.

use disks::{DiskFailed, JournalDisk};
use std::rt::Clock;
use std::thread;
use std::time::Duration;

/// How long that call sleeps before it does what it is asked, in microseconds.
const LONG: u64 = 1_000;

/// A disk of which one call takes long.
#[derive(Drop)]
pub struct SlowDisk<'a, D: JournalDisk, C: Clock> {
    pub disk: D,
    clock: &'a C,
    /// Which call that is from now on, 1 for the next one; none where it is 0.
    until: u64,
}

impl<'a, D: JournalDisk, C: Clock> SlowDisk<'a, D, C> {
    /// The nth call of this disk from now is to take long, or none where n is 0.
    pub fn new(clock: &'a C, disk: D, n: u64) -> SlowDisk<'a, D, C> {
        SlowDisk {
            disk,
            clock,
            until: n,
        }
    }
}

/// Counts a call, and sleeps if it is the one that takes long.
fn take_time(clock: &impl Clock, until: &mut u64) {
    if *until == 1 {
        thread::sleep(clock, Duration::from_micros(LONG));
    }
    *until = until.saturating_sub(1);
}

impl<D: JournalDisk, C: Clock> JournalDisk for SlowDisk<'_, D, C> {
    ghost honest = { λ slow. D.honest slow.disk };

    ghost tells = { λ slow. D.tells slow.disk };

    ghost failed = { λ slow. D.failed slow.disk };

    fn read(&mut self, at: u64, buf: &mut [u8]) -> Result<usize, DiskFailed> {
        take_time(self.clock, &mut self.until);
        self.disk.read(at, buf)
    }

    fn write_at(&mut self, at: u64, bytes: &[u8]) -> Result<(), DiskFailed> {
        take_time(self.clock, &mut self.until);
        self.disk.write_at(at, bytes)
    }

    fn sync(&mut self) -> Result<(), DiskFailed> {
        take_time(self.clock, &mut self.until);
        self.disk.sync()
    }

    fn failures(&self) -> u64 {
        self.disk.failures()
    }

    ghost counts_now = { λ slow t c honest le now. D.counts_now slow.disk t c honest le now };

    ghost only_now = { λ slow c honest left. D.only_now slow.disk c honest left };

    ghost may_stay = { λ slow honest. D.may_stay slow.disk honest };
}

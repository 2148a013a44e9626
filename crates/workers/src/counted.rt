//! A machine that doesn't wait, which nobody wakes, and counts what it was asked for: for tests. Its time stands still,
//! but for what others take where it lets them run. Until when threads are shy is what it was told last.
use crate::rest::Pauses;

/// How often each was asked for. The counts stay at `u64::MAX`.
#[derive(Clone, Copy, Debug, PartialEq, Eq)]
pub struct CountedPauses {
    pub wakes: u64,
    pub spins: u64,
    pub snoozes: u64,
    pub naps: u64,
    /// How long all naps together were, in microseconds.
    pub slept: u64,
    pub rouses: u64,
    pub dozes: u64,
    pub parks: u64,
    /// How often it was asked for the time.
    pub times: u64,
    /// How often it was asked until when threads are shy.
    pub looks: u64,
    /// How often it was told until when they are.
    pub tellings: u64,
    /// Until when they are, in nanoseconds.
    pub shy_until: u64,
    /// What time it is, in nanoseconds.
    pub now: u64,
    /// How long others run where it lets them, in nanoseconds.
    pub away: u64,
}

impl CountedPauses {
    /// Nothing was asked for.
    pub const NONE: CountedPauses = CountedPauses {
        wakes: 0,
        spins: 0,
        snoozes: 0,
        naps: 0,
        slept: 0,
        rouses: 0,
        dozes: 0,
        parks: 0,
        times: 0,
        looks: 0,
        tellings: 0,
        shy_until: 0,
        now: 0,
        away: 0,
    };
}

impl Pauses for CountedPauses {
    ghost use Rattle.std.specs.Prelude.{◌≡◌, false};
    ghost use Rattle.workers.specs.declared.rest.Pause.TheVariants.{Park, Snooze};
    ghost use Rattle.workers.specs.Counted.{counted, plus};

    ghost paused = { λ pause x y. y ≡ counted x pause };

    ghost parked = { λ millis woken x y. (y ≡ counted x (Park millis)) × (woken ≡ false) };

    ghost snoozed = { λ time x y. (y ≡ counted x Snooze) × (time ≡ y.now) };

    ghost timed = { λ time x y. (y ≡ record x { times = plus x.times 1 }) × (time ≡ x.now) };

    ghost asked_until = { λ until x y. (y ≡ record x { looks = plus x.looks 1 }) × (until ≡ x.shy_until) };

    ghost turned_shy = { λ until x y. y ≡ record x { tellings = plus x.tellings 1; shy_until = until } };

    fn wake(&mut self) {
        self.wakes = self.wakes.saturating_add(1);
    }

    fn rouse(&mut self) {
        self.rouses = self.rouses.saturating_add(1);
    }

    fn time(&mut self) -> u64 {
        self.times = self.times.saturating_add(1);
        self.now
    }

    fn shy_until(&mut self) -> u64 {
        self.looks = self.looks.saturating_add(1);
        self.shy_until
    }

    fn turn_shy(&mut self, until: u64) {
        self.tellings = self.tellings.saturating_add(1);
        self.shy_until = until;
    }

    fn spin(&mut self) {
        self.spins = self.spins.saturating_add(1);
    }

    fn snooze(&mut self) -> u64 {
        self.snoozes = self.snoozes.saturating_add(1);
        self.now = self.now.saturating_add(self.away);
        self.now
    }

    fn nap(&mut self, micros: u64) {
        self.naps = self.naps.saturating_add(1);
        self.slept = self.slept.saturating_add(micros);
    }

    fn doze(&mut self) {
        self.dozes = self.dozes.saturating_add(1);
    }

    fn park(&mut self, _millis: u64) -> bool {
        self.parks = self.parks.saturating_add(1);
        false
    }
}

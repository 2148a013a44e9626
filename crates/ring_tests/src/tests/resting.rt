//! How a thread rests where nothing comes, by a machine that counts what it is asked for, alone and beside another one.
use std::test::Fail;
use workers::{CountedPauses, Outcome, Pauses, Rest, Signalling, Signals};

/// The machine of one thread of several: it counts, and the signals of all tell until when they are shy.
#[derive(Drop)]
struct Neighbour<'a> {
    counted: CountedPauses,
    signals: &'a Signals,
}

impl Pauses for Neighbour<'_> {
    ghost paused = { λ pause x y. Unit {0} };

    ghost parked = { λ millis woken x y. Unit {0} };

    ghost snoozed = { λ time x y. Unit {0} };

    ghost timed = { λ time x y. Unit {0} };

    ghost asked_until = { λ until x y. Unit {0} };

    ghost turned_shy = { λ until x y. Unit {0} };

    fn wake(&mut self) {
        self.counted.wake();
    }

    fn rouse(&mut self) {
        self.counted.rouse();
    }

    fn time(&mut self) -> u64 {
        self.counted.time()
    }

    fn shy_until(&mut self) -> u64 {
        self.counted.shy_until();
        self.signals.shy_until()
    }

    fn turn_shy(&mut self, until: u64) {
        self.counted.turn_shy(until);
        self.signals.turn_shy(until);
    }

    fn spin(&mut self) {
        self.counted.spin();
    }

    fn snooze(&mut self) -> u64 {
        self.counted.snooze()
    }

    fn nap(&mut self, micros: u64) {
        self.counted.nap(micros);
    }

    fn doze(&mut self) {
        self.counted.doze();
    }

    fn park(&mut self, millis: u64) -> bool {
        self.counted.park(millis)
    }
}

/// What a thread has asked of its machine behind so many turns that found nothing.
fn rested<P: Pauses>(pauses: P, turns: u64) -> P {
    let mut rest = Rest::new(pauses);
    for _turn in 0..turns {
        rest.goes_on(Outcome::Idle);
    }
    let Rest { pauses, .. } = rest;
    pauses
}

/// A machine on which others run for so many nanoseconds each time that a thread lets them.
fn shared_with(away: u64) -> CountedPauses {
    CountedPauses {
        away,
        ..CountedPauses::NONE
    }
}

/// The same for one thread of several.
fn beside(away: u64, signals: &Signals) -> Neighbour<'_> {
    Neighbour {
        counted: shared_with(away),
        signals,
    }
}

/// Seven spins come first, then others run up to the 2,000th turn; then the thread says that it rests, and parks.
#[test]
fn patience_of_2_000_turns(rt: HostRuntime) -> Result<(), Fail> {
    let quiet = CountedPauses {
        spins: 7,
        snoozes: 1_993,
        dozes: 1,
        parks: 2,
        times: 1_996,
        looks: 1_996,
        ..CountedPauses::NONE
    };
    assert_eq!(rt; rested(shared_with(0), 2_003), quiet);
    Ok(())
}

/// Where others run for more than two milliseconds the thread says that it is shy for a hundred. It lets nobody run
/// behind that, and parks behind 14 turns.
#[test]
fn shy_behind_a_long_yield(rt: HostRuntime) -> Result<(), Fail> {
    let shy = CountedPauses {
        spins: 13,
        snoozes: 1,
        dozes: 1,
        parks: 2,
        times: 10,
        looks: 10,
        tellings: 1,
        shy_until: 103_000_000,
        now: 3_000_000,
        away: 3_000_000,
        ..CountedPauses::NONE
    };
    assert_eq!(rt; rested(shared_with(3_000_000), 17), shy);
    Ok(())
}

/// Two milliseconds are not too long, and nobody is told.
#[test]
fn two_milliseconds_are_no_stranger(rt: HostRuntime) -> Result<(), Fail> {
    let asked = rested(shared_with(2_000_000), 17);
    assert_eq!(rt; asked.snoozes, 10);
    assert_eq!(rt; asked.tellings, 0);
    Ok(())
}

/// Where one thread was away for long another is shy that wasn't: it lets nobody run, and parks behind 14 turns.
#[test]
fn shy_since_another_was_away(rt: HostRuntime) -> Result<(), Fail> {
    let all = Signals::new(2);
    let away = rested(beside(3_000_000, &all), 8).counted;
    assert_eq!(rt; away.snoozes, 1);
    assert_eq!(rt; away.tellings, 1);
    let shy = CountedPauses {
        spins: 14,
        dozes: 1,
        parks: 2,
        times: 10,
        looks: 10,
        ..CountedPauses::NONE
    };
    assert_eq!(rt; rested(beside(0, &all), 17).counted, shy);
    Ok(())
}

/// How often a thread lets others run in 17 turns that find nothing, at this time.
fn snoozes_at(now: u64, signals: &Signals) -> u64 {
    let mut machine = beside(0, signals);
    machine.counted.now = now;
    rested(machine, 17).counted.snoozes
}

/// An end that is told behind a later one changes nothing: threads are shy up to the later one, and no longer.
#[test]
fn the_later_end_stays(rt: HostRuntime) -> Result<(), Fail> {
    let all = Signals::new(2);
    all.turn_shy(103_000_000);
    all.turn_shy(102_000_000);
    assert_eq!(rt; all.shy_until(), 103_000_000);
    assert_eq!(rt; snoozes_at(102_999_999, &all), 0);
    assert_eq!(rt; snoozes_at(103_000_000, &all), 10);
    Ok(())
}

//! How a thread rests between the turns of its worker (Disruptor: a wait strategy).
ghost use Rattle.std.specs.Prelude.{◌≡◌, Some, false};
ghost use Rattle.workers.specs.Resting.{Asked, SaysUntil, Told, announced_after, has_more, idle_after, idle_pause, is_asked_for, patience, pause_after, pressed_pause, shy_after};
ghost use Rattle.workers.specs.Resting.{ThreadRests, moments};

use crate::worker::Outcome;
use crossbeam_utils::Backoff;
use std::rt::Clock;
use std::thread;
use std::time::Duration;

/// Behind so many turns in a row that found nothing a thread spins, and reads no clock.
const SPUN: u64 = 7;

/// After so many turns in a row that found nothing, a thread says that it rests. It looks once more, and then it
/// parks. They take about a millisecond: longer than the other stages, the disk among them, have a message, so that
/// none parks while messages are under way. It spins between the first of them, and then lets others run: there may be
/// fewer cores than workers, and one that only spins keeps theirs from those who have work.
const AWAKE: u64 = 2_000;

/// The same while it is shy. A spin lasts for a microsecond or two, so that they take some 10 to 25.
const SHY_AWAKE: u64 = 14;

/// Where it let others run, and was away for more than so many nanoseconds, another program has its core: the
/// system gives that one the rest of a time slice each time. Threads of this program keep a core for less.
const LONG: u64 = 2_000_000;

/// For so many nanoseconds threads are shy then, this one and all that its machine tells: they let nobody run, and park
/// soon. A thread that parks and is woken is put where there is room, and runs within microseconds.
const SHY: u64 = 100_000_000;

/// How long it parks at most, in milliseconds. It is woken where there may be something to do, so this is for what
/// nobody wakes it for.
const LONGEST_REST: u64 = 100;

/// After so many turns in a row a thread sleeps whose worker is to look again soon. So it has a share of the room that
/// others make in a full ring: one that lets them run, and looks again when its turn comes, finds that room taken by
/// who looked sooner, as long as that one has more.
const SPINS: u64 = 8;

/// How long it sleeps then, in microseconds.
const SHORT_NAP: u64 = 30;

/// How long a thread that can't park sleeps in its place, in microseconds.
const NAP: u64 = 2_000;

/// What a thread does between two turns.
#[derive(Clone, Copy, Debug, PartialEq, Eq)]
pub enum Pause {
    /// It goes on at once, and its next moment of waiting is the shortest.
    Wake,
    /// The same, and those that rest and may have work now are woken.
    Rouse,
    /// It spins for a moment: the more of these in a row, the longer.
    Spin,
    /// It lets other threads run.
    Snooze,
    /// It sleeps for so many microseconds.
    Nap(u64),
    /// It says that it rests, and is to be woken, and goes on at once: what came about before is still to be found.
    Doze,
    /// It rests until it is woken, for so many milliseconds at most.
    Park(u64),
}

/// What a machine answered to a pause: whether it woke a thread that parked, and what time it was, in nanoseconds,
/// behind one in which others ran. Of other pauses they are false and 0.
#[derive(Clone, Copy, Debug, PartialEq, Eq)]
pub struct Answer {
    pub is_woken: bool,
    pub time: u64,
}

impl Answer {
    /// Nothing is to be told.
    const NOTHING: Answer = Answer {
        is_woken: false,
        time: 0,
    };
}

/// What a machine offers to a thread that waits.
pub trait Pauses {
    ghost use Rattle.std.specs.Prelude.{ℕ, Bool};
    ghost use Rattle.workers.specs.declared.rest.Pause.{Pause};

    /// That it was asked for this pause, which isn't to park or to let others run, and for nothing else, and so became
    /// the other one. Code over any machine knows this of its calls alone.
    ghost paused: { Pause → Self → Self → Type 0 };

    /// That it was asked to park for so long, and for nothing else, whether it was woken, and that it became the other
    /// one.
    ghost parked: { ℕ → Bool → Self → Self → Type 0 };

    /// That it was asked to let others run, and for nothing else, what time it told behind that, in nanoseconds, and
    /// that it became the other one.
    ghost snoozed: { ℕ → Self → Self → Type 0 };

    /// That it was asked for the time, and for nothing else, what it told, in nanoseconds, and that it became the other
    /// one.
    ghost timed: { ℕ → Self → Self → Type 0 };

    /// That it was asked until when threads are shy, and for nothing else, what it told, in nanoseconds, and that it
    /// became the other one.
    ghost asked_until: { ℕ → Self → Self → Type 0 };

    /// That it was told until when threads are shy, in nanoseconds, and nothing else, and that it became the other one.
    ghost turned_shy: { ℕ → Self → Self → Type 0 };

    /// Begins anew with the shortest moments.
    fn wake(&mut self)
        ensures { paused Pause.Wake self.old self.new };

    /// The same, and wakes those that rest and may have work now.
    fn rouse(&mut self)
        ensures { paused Pause.Rouse self.old self.new };

    /// The time of a clock that never goes back, in nanoseconds.
    fn time(&mut self) -> u64
        ensures { timed result self.old self.new };

    /// Until when threads are shy, by that clock: they let nobody run, and park soon. Others may have told it.
    fn shy_until(&mut self) -> u64
        ensures { asked_until result self.old self.new };

    /// Threads are shy until then, by that clock.
    fn turn_shy(&mut self, until: u64)
        ensures { turned_shy until self.old self.new };

    /// Spins for a moment.
    fn spin(&mut self)
        ensures { paused Pause.Spin self.old self.new };

    /// Lets other threads run, and tells the time behind that.
    fn snooze(&mut self) -> u64
        ensures { snoozed result self.old self.new };

    /// Sleeps for so many microseconds.
    fn nap(&mut self, micros: u64)
        ensures { paused (Pause.Nap micros) self.old self.new };

    /// Says that it rests, and is to be woken.
    fn doze(&mut self)
        ensures { paused Pause.Doze self.old self.new };

    /// Rests until it is woken, for so many milliseconds at most, and says whether it was.
    fn park(&mut self, millis: u64) -> bool
        ensures { parked millis result self.old self.new };
}

/// The machine that programs run on. No clause says what it does when it is asked. Nobody wakes it, and nobody else
/// tells it until when its thread is shy.
#[derive(Drop)]
pub struct Machine<'a, C: Clock> {
    clock: &'a C,
    backoff: Backoff,
    shy_until: u64,
}

impl<'a, C: Clock> Machine<'a, C> {
    pub fn new(clock: &'a C) -> Machine<'a, C> {
        Machine {
            clock,
            backoff: Backoff::new(),
            shy_until: 0,
        }
    }
}

/// The nanoseconds of this clock, which never go back on this machine; 0 where it can't be read.
fn nanoseconds<C: Clock>(clock: &C) -> u64 {
    match clock.monotonic() {
        Ok(now) => u64::try_from(now.as_nanos()).unwrap_or(u64::MAX),
        Err(_) => 0,
    }
}

impl<C: Clock> Pauses for Machine<'_, C> {
    ghost paused = { λ pause x y. Unit {0} };

    ghost parked = { λ millis woken x y. Unit {0} };

    ghost snoozed = { λ time x y. Unit {0} };

    ghost timed = { λ time x y. Unit {0} };

    ghost asked_until = { λ until x y. Unit {0} };

    ghost turned_shy = { λ until x y. Unit {0} };

    fn wake(&mut self) {
        self.backoff.reset();
    }

    fn rouse(&mut self) {
        self.wake();
    }

    fn time(&mut self) -> u64 {
        nanoseconds(self.clock)
    }

    fn shy_until(&mut self) -> u64 {
        self.shy_until
    }

    /// Its one thread tells it ends that rise as its clock does.
    fn turn_shy(&mut self, until: u64) {
        self.shy_until = until;
    }

    fn spin(&mut self) {
        self.backoff.spin();
    }

    /// Behind the first spins `Backoff` lets others run.
    fn snooze(&mut self) -> u64 {
        self.backoff.snooze();
        nanoseconds(self.clock)
    }

    fn nap(&mut self, micros: u64) {
        thread::sleep(self.clock, Duration::from_micros(micros));
    }

    fn doze(&mut self) {}

    fn park(&mut self, _millis: u64) -> bool {
        self.nap(NAP);
        false
    }
}

/// What a thread does behind a turn that found nothing, as so many before it in a row, which has said that it rests or
/// not, and is shy or not.
fn idle_pause(before: u64, announced: bool, shy: bool) -> Pause
    ensures { result ≡ idle_pause before announced shy }
{
    if before < SPUN {
        Pause::Spin
    } else if before < patience(shy) {
        if shy { Pause::Spin } else { Pause::Snooze }
    } else if announced {
        Pause::Park(LONGEST_REST)
    } else {
        Pause::Doze
    }
}

/// After how many turns in a row that found nothing a thread says that it rests.
fn patience(shy: bool) -> u64
    ensures { result ≡ patience shy }
{
    if shy { SHY_AWAKE } else { AWAKE }
}

/// What it does behind a turn that found nothing, as so many before it in a row, where its worker is to look again
/// soon.
fn pressed_pause(before: u64) -> Pause
    ensures { result ≡ pressed_pause before }
{
    if before < SPINS {
        return Pause::Spin;
    }
    Pause::Nap(SHORT_NAP)
}

/// Waits so on this machine, and says what that answered.
fn pause_on<P: Pauses>(pauses: &mut P, pause: Pause) -> Answer
    ensures { Asked (moments P.paused P.parked P.snoozed P.timed P.asked_until P.turned_shy) (Some pause) result
        pauses.old pauses.new }
{
    match pause {
        Pause::Wake => pauses.wake(),
        Pause::Rouse => pauses.rouse(),
        Pause::Spin => pauses.spin(),
        Pause::Snooze => {
            return Answer {
                time: pauses.snooze(),
                ..Answer::NOTHING
            };
        }
        Pause::Nap(micros) => pauses.nap(micros),
        Pause::Doze => pauses.doze(),
        Pause::Park(millis) => {
            return Answer {
                is_woken: pauses.park(millis),
                ..Answer::NOTHING
            };
        }
    }
    Answer::NOTHING
}

/// Until when threads are shy where one did this at that time, if others ran meanwhile up to the time behind it; or
/// none, where that says nothing of it.
fn shy_after(pause: Pause, time: u64, behind: u64) -> Option<u64>
    ensures { result ≡ shy_after pause time behind }
{
    if pause == Pause::Snooze && behind.saturating_sub(time) > LONG {
        Some(behind.saturating_add(SHY))
    } else {
        None
    }
}

/// Tells this machine until when threads are shy, where that is said.
fn tell_on<P: Pauses>(pauses: &mut P, until: Option<u64>)
    ensures { SaysUntil (moments P.paused P.parked P.snoozed P.timed P.asked_until P.turned_shy) until
        pauses.old pauses.new }
{
    if let Some(until) = until {
        pauses.turn_shy(until);
    }
}

/// How long a worker has found nothing to do, and the machine on which its thread rests.
#[derive(Drop)]
pub struct Rest<P> {
    /// So many turns in a row have found nothing.
    pub idle: u64,
    /// Whether the last thing that it did was to say that it rests, or to park.
    pub announced: bool,
    pub pauses: P,
}

impl<P: Pauses> Rest<P> {
    /// Before the first turn.
    pub fn new(pauses: P) -> Rest<P>
        ensures idle { result.idle ≡ 0 }
        ensures announced { result.announced ≡ false }
        ensures pauses { result.pauses ≡ pauses }
    {
        Rest {
            idle: 0,
            announced: false,
            pauses,
        }
    }

    /// Counts what a turn came to, where the thread is shy or not, and says what it does before the next one: nothing
    /// more behind the last.
    pub fn count(&mut self, outcome: Outcome, shy: bool) -> Option<Pause> // promise 12
        ensures pause { result ≡ pause_after self.old.idle self.old.announced shy outcome }
        ensures idle { self.new.idle ≡ idle_after self.old.idle outcome }
        ensures announced { self.new.announced ≡ announced_after self.old.idle shy outcome }
        ensures others { self.new ≡ record self.old { idle = self.new.idle; announced = self.new.announced } }
    {
        let before = self.idle;
        let announced = self.announced;
        self.announced = false;
        match outcome {
            Outcome::Worked => {
                self.idle = 0;
                Some(Pause::Rouse)
            }
            Outcome::Moved => {
                self.idle = 0;
                Some(Pause::Wake)
            }
            Outcome::Idle => {
                self.idle = before.saturating_add(1);
                self.announced = before >= patience(shy);
                Some(idle_pause(before, announced, shy))
            }
            Outcome::Pressed => {
                self.idle = before.saturating_add(1);
                Some(pressed_pause(before))
            }
            Outcome::Over => None,
        }
    }

    /// The time, and until when threads are shy, behind a turn that found nothing and that isn't among the first in a
    /// row; else 0 and 0, and nothing is asked. The time is asked for first: who hears of a long yield meanwhile is shy
    /// at once.
    fn time_behind(&mut self, outcome: Outcome) -> (u64, u64)
        ensures told { Told (moments P.paused P.parked P.snoozed P.timed P.asked_until P.turned_shy)
            (is_asked_for self.old.idle outcome) result.0 result.1 self.old.pauses self.new.pauses }
        ensures others { self.new ≡ record self.old { pauses = self.new.pauses } }
    {
        if outcome == Outcome::Idle && self.idle >= SPUN {
            let time = self.pauses.time();
            (time, self.pauses.shy_until())
        } else {
            (0, 0)
        }
    }

    /// Lets the thread rest as what its last turn came to asks for, and says whether it is to go on. While there is
    /// nothing to do it spins, then lets other threads run, then says that it rests, looks once more, and parks; work
    /// makes it spin again, and so does who wakes it. Where it let others run and another program had its core, threads
    /// are shy for a tenth of a second, which it tells its machine: who is shy lets nobody run, and parks soon.
    pub fn goes_on(&mut self, outcome: Outcome) -> bool // promise 12
        ensures goes_on { result ≡ has_more outcome }
        ensures rests { ThreadRests (moments P.paused P.parked P.snoozed P.timed P.asked_until P.turned_shy)
            outcome self.old self.new }
    {
        let (time, until) = self.time_behind(outcome);
        let Some(pause) = self.count(outcome, time < until) else {
            return false;
        };
        let answer = pause_on(&mut self.pauses, pause);
        tell_on(&mut self.pauses, shy_after(pause, time, answer.time));
        if answer.is_woken {
            self.idle = 0;
            self.announced = false;
        }
        true
    }
}

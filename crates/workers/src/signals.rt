//! What the threads of a venue tell each other beside the rings: that all of them have begun, that one rests and is to
//! be woken, that another program has a core, and that all are to end.
ghost use Rattle.std.specs.Prelude.{◌≡◌, ◌<◌, true, false};
ghost use Rattle.workers.specs.declared.waking.TheConstants.{PLACES};

use crate::gate::Station;
use crate::waking::{PLACES, own, place, wakes};
use mio::Waker;
use std::sync::OnceLock;
use std::sync::atomic::{AtomicBool, AtomicU64, Ordering};

/// What workers and their watch tell each other. Code over any signals knows these facts of its calls alone.
pub trait Signalling {
    /// That it was asked whether all workers have begun, and answered that they have.
    ghost begun: { Self → Type 0 };

    /// That it was asked that, and answered that one hasn't.
    ghost awaited: { Self → Type 0 };

    /// That it was told that all workers are to end.
    ghost stopped: { Self → Type 0 };

    /// That it was asked whether all workers are to end, and answered that they are.
    ghost told: { Self → Type 0 };

    /// This worker has begun, and its thread is woken so, if it can be.
    fn begin(&self, worker: Station, waker: Option<Waker>);

    /// Whether all workers have begun. A worker for which the system makes no thread begins only when another has
    /// ended.
    fn have_all_begun(&self) -> bool
        ensures begun { result ≡ true → begun self.now }
        ensures awaited { result ≡ false → awaited self.now };

    /// This worker rests from now on: it is to be woken where there may be work for it.
    fn announce(&self, worker: Station);

    /// This worker did something, and rests no more: those that rest and may have work by that are woken.
    fn rouse(&self, worker: Station);

    /// Until when threads are shy, as one of them told, in nanoseconds of a clock that all of them read; 0 before that.
    fn shy_until(&self) -> u64;

    /// All threads are shy until then, by that clock.
    fn turn_shy(&self, until: u64);

    /// Tells all workers to end behind their turns. Those that rest are woken.
    fn stop(&self)
        ensures { stopped self.now };

    /// Whether all workers are to end.
    fn say_stop(&self) -> bool
        ensures { result ≡ true → told self.now };
}

/// The signals of a program. They are atomics, of which no clause says what they hold: that a stop which was said
/// stays said, the code shows, since nothing stores anything else there. It shows, too, that no wake-up is missed: all
/// words here and in the rings have one order, so of a worker that sets its bit and then looks at the rings once more,
/// and one that did something there and then looks at the bits, one sees what the other did.
#[derive(Drop)]
pub struct Signals {
    workers: u64,
    begun: AtomicU64,
    stop: AtomicBool,
    /// A bit for each worker that rests.
    asleep: AtomicU64,
    /// Until when threads are shy. It costs time alone where a thread reads this late, or what was told is lost: that
    /// thread lets others run once more, or parks sooner than it has to, and is woken as ever. No worker's work and no
    /// wake-up hangs on it.
    shy_until: AtomicU64,
    wakers: [OnceLock<Waker>; PLACES],
}

impl Signals {
    /// The signals for so many workers, of which none has begun.
    pub fn new(workers: u64) -> Signals {
        Signals {
            workers,
            begun: AtomicU64::new(0),
            stop: AtomicBool::new(false),
            asleep: AtomicU64::new(0),
            shy_until: AtomicU64::new(0),
            wakers: [
                OnceLock::new(),
                OnceLock::new(),
                OnceLock::new(),
                OnceLock::new(),
                OnceLock::new(),
                OnceLock::new(),
                OnceLock::new(),
                OnceLock::new(),
                OnceLock::new(),
                OnceLock::new(),
                OnceLock::new(),
                OnceLock::new(),
            ],
        }
    }

    /// Wakes those of these that rest, each of them once: who clears its bit wakes it.
    fn wake(&self, them: u64) {
        let rested = self.asleep.fetch_and(!them, Ordering::SeqCst) & them;
        for at in 0..PLACES {
            if rested & 1 << at != 0 {
                self.wake_at(at);
            }
        }
    }

    /// Wakes the thread of the worker that has this place, if it can be. One that can't wakes by itself soon.
    fn wake_at(&self, at: usize)
        requires { at < PLACES }
    {
        if let Some(waker) = self.wakers[at].get() {
            let _ = waker.wake();
        }
    }
}

impl Signalling for Signals {
    ghost begun = { λ signals. Unit {0} };

    ghost awaited = { λ signals. Unit {0} };

    ghost stopped = { λ signals. Unit {0} };

    ghost told = { λ signals. Unit {0} };

    /// The last one wakes the others, which wait for it.
    fn begin(&self, worker: Station, waker: Option<Waker>) {
        if let Some(waker) = waker {
            let _ = self.wakers[place(worker)].try_set(waker);
        }
        self.begun.fetch_add(1, Ordering::SeqCst);
        if self.have_all_begun() {
            self.wake(u64::MAX);
        }
    }

    fn have_all_begun(&self) -> bool {
        self.begun.load(Ordering::SeqCst) >= self.workers
    }

    fn announce(&self, worker: Station) {
        self.asleep.fetch_or(own(worker), Ordering::SeqCst);
    }

    /// Where none rests that may have work by that, this is one load.
    fn rouse(&self, worker: Station) {
        let resting = self.asleep.load(Ordering::SeqCst);
        if resting & own(worker) != 0 {
            self.asleep.fetch_and(!own(worker), Ordering::SeqCst);
        }
        if resting & wakes(worker) != 0 {
            self.wake(wakes(worker));
        }
    }

    fn shy_until(&self) -> u64 {
        self.shy_until.load(Ordering::SeqCst)
    }

    /// The latest end that was told stays: of two threads that tell at the same time, the one that was away for longer.
    fn turn_shy(&self, until: u64) {
        self.shy_until.fetch_max(until, Ordering::SeqCst);
    }

    fn stop(&self) {
        self.stop.store(true, Ordering::SeqCst);
        self.wake(u64::MAX);
    }

    fn say_stop(&self) -> bool {
        self.stop.load(Ordering::SeqCst)
    }
}

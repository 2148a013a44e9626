//! The watch over a venue that listens: one thread says when all workers have begun, and looks for the sign to stop.
ghost use Rattle.venue.specs.Watching.{AwaitsWorkers, EndsWatch, Watches, HasWatched, signals_say, watch_of};

use crate::stop::StopSign;
use std::io::Write;
use std::rt::Clock;
use workers::{Machine, Pauses, Signalling};

/// How long between two looks, in microseconds.
const LOOK: u64 = 5_000;

/// How many looks the workers have to begin: ten seconds. Where one hasn't by then, the system makes no thread for it.
const PATIENCE: u64 = 2_000;

/// Why a watch over workers that had begun came to its end.
#[derive(Clone, Copy, Debug, PartialEq, Eq)]
pub enum WatchEnd {
    /// The signals said stop.
    Told,
    /// The sign to stop was there.
    Seen,
    /// It had looked 2^64 - 1 times.
    LookedAll,
}

/// Waits until all workers have begun, and says whether they have.
fn all_begin<P: Pauses, G: Signalling>(pauses: &mut P, signals: &G) -> bool
    ensures { AwaitsWorkers P.paused (signals_say (G.begun signals.now) (G.awaited signals.now) (G.told signals.now))
        result pauses.old pauses.new }
{
    for looks in 0..PATIENCE {
        if signals.have_all_begun() {
            return true;
        }
        pauses.nap(LOOK);
    }
    false
}

/// Looks for the sign until it is there, or the signals say stop, and says which.
fn wait_for<P: Pauses, G: Signalling, S: StopSign>(
    pauses: &mut P,
    signals: &G,
    sign: &mut S,
) -> WatchEnd
    ensures { EndsWatch P.paused S.looked (G.told signals.now) result
        (watch_of sign.old pauses.old) (watch_of sign.new pauses.new) }
{
    for looks in 0..u64::MAX {
        if signals.say_stop() {
            return WatchEnd::Told;
        }
        if sign.is_up() {
            return WatchEnd::Seen;
        }
        pauses.nap(LOOK);
    }
    WatchEnd::LookedAll
}

/// What was recovered: how many commands the journal had, and how many outputs came of them.
#[derive(Clone, Copy)]
pub struct Recovered {
    pub commands: u64,
    pub outputs: u64,
}

/// Says that the venue is ready. A line that can't be printed is let go.
fn say_ready<O: Write>(out: &mut O, recovered: Recovered) {
    let Recovered { commands, outputs } = recovered;
    let _ = writeln!(out, "venued: ready, {commands} commands, {outputs} outputs");
    let _ = out.flush();
}

/// Waits until all workers have begun, and says whether they have. Where they have it says that the venue is ready, and
/// goes on until the signals say stop, or the sign is there.
fn watch_on<P: Pauses, G: Signalling, S: StopSign, O: Write>(
    pauses: &mut P,
    signals: &G,
    sign: &mut S,
    out: &mut O,
    recovered: Recovered,
) -> bool
    ensures { Watches P.paused S.looked (signals_say (G.begun signals.now) (G.awaited signals.now) (G.told signals.now))
        result (watch_of sign.old pauses.old) (watch_of sign.new pauses.new) }
{
    if !all_begin(pauses, signals) {
        return false;
    }
    say_ready(out, recovered);
    wait_for(pauses, signals, sign);
    true
}

/// Watches until the signals say stop, or the sign is there; then the signals say stop. Answers whether all workers
/// have begun: the line that says so is printed then, and is let go where it can't be.
pub fn watch<'a, C: Clock, G: Signalling, S: StopSign, O: Write>(
    clock: &'a C,
    signals: &G,
    sign: &mut S,
    out: &mut O,
    recovered: Recovered,
) -> bool // promise 12
    ensures watches { HasWatched ⟦<Machine<'a, C> as Pauses>⟧.paused S.looked
        (signals_say (G.begun signals.now) (G.awaited signals.now) (G.told signals.now)) result sign.old sign.new }
    ensures stopped { G.stopped signals.now }
{
    let ready = watch_on(&mut Machine::new(clock), signals, sign, out, recovered);
    signals.stop();
    ready
}

//! The stages, each on a thread of its own or all on one, until the day is over.
ghost use Rattle.stages.specs.Crews.{AreAt};
ghost use Rattle.ring_words.specs.At.{IsAt};
ghost use Rattle.std.specs.Thread.{IsSync};

use super::waiting::{TRIES, nap};
use journal::NullDisk;
use small_venue::venue::TestRings;
use stages::{Crew, Journaller, Marshaller, Processor, Stage, Turn, Turns, Unmarshaller};
use std::rt::Clock;
use std::sync::atomic::{AtomicBool, Ordering};
use std::thread::{Threads, join};

/// The stages over a journal that keeps nothing.
pub type Staff = Crew<NullDisk>;

/// Which threads the stages have.
#[derive(Clone, Copy)]
pub enum Staffing {
    /// Each has one of its own.
    ThreadEach,
    /// One thread polls them all.
    OneThread,
}

/// Polls the stage until the day is over, and sleeps where it didn't get on.
fn work<C: Clock, R, S: Stage<R>>(clock: &C, rings: &R, mut stage: S, over: &AtomicBool) -> S
    requires { S.sits rings.now stage }
    ensures { S.sits rings.now result }
{
    for _ in 0..TRIES {
        if over.load(Ordering::SeqCst) {
            return stage;
        }
        if !matches!(stage.poll(rings), Turn::Did(_)) {
            nap(clock);
        }
    }
    stage
}

/// Lets two stages work, each on a thread of its own.
fn work_both<
    T: Threads + Clock + Sync,
    R: Sync,
    A: Stage<R> + Drop + Send,
    B: Stage<R> + Drop + Send,
>(rt: &T, rings: &R, one: A, other: B, over: &AtomicBool) -> (A, B)
    requires one { A.sits rings.now one }
    requires other { B.sits rings.now other }
    ensures one { A.sits rings.now result.0 }
    ensures other { B.sits rings.now result.1 }
{
    join(
        rt,
        move || -> A
            requires { A.sits rings.now one }
            ensures { A.sits rings.entry.now result }
        { work(rt, rings, one, over) },
        move || -> B
            requires { B.sits rings.now other }
            ensures { B.sits rings.entry.now result }
        { work(rt, rings, other, over) },
    )
}

/// Lets all four work, each on a thread of its own, until the day is over.
pub fn work_all<T: Threads + Clock + Sync, const N: usize, const M: usize, const G: usize>(
    rt: &T,
    rings: &TestRings<N, M, G>,
    staff: Staff,
    over: &AtomicBool,
) -> Staff
    requires { AreAt rings.now staff }
    ensures { AreAt rings.now result }
{
    let Crew {
        unmarshaller,
        journaller,
        processor,
        marshaller,
    } = staff;
    let ((unmarshaller, journaller), (processor, marshaller)) = join(
        rt,
        move || -> (Unmarshaller, Journaller<NullDisk>)
            requires { IsSync T.row × (IsAt rings.now unmarshaller) × (IsAt rings.now journaller.seat) }
            ensures { (IsAt rings.entry.now result.0) × (IsAt rings.entry.now result.1.seat) }
        { work_both(rt, rings, unmarshaller, journaller, over) },
        move || -> (Processor, Marshaller)
            requires { IsSync T.row × (IsAt rings.now processor.seat) × (IsAt rings.now marshaller) }
            ensures { (IsAt rings.entry.now result.0.seat) × (IsAt rings.entry.now result.1) }
        { work_both(rt, rings, processor, marshaller, over) },
    );
    Crew {
        unmarshaller,
        journaller,
        processor,
        marshaller,
    }
}

/// Whether one of the stages got on. The processor doesn't where the output ring is full, and isn't idle then.
fn got_on(turns: &Turns) -> bool {
    let all = [
        turns.unmarshaller,
        turns.journaller,
        turns.processor,
        turns.marshaller,
    ];
    all.iter().any(|turn| matches!(turn, Turn::Did(_)))
}

/// Polls all four on this thread until the day is over, and sleeps where none of them got on.
fn poll_all<C: Clock, const N: usize, const M: usize, const G: usize>(
    clock: &C,
    rings: &TestRings<N, M, G>,
    mut staff: Staff,
    over: &AtomicBool,
) -> Staff
    requires { AreAt rings.now staff }
    ensures { AreAt rings.now result }
{
    for _ in 0..TRIES {
        if over.load(Ordering::SeqCst) {
            return staff;
        }
        if !got_on(&staff.poll(rings)) {
            nap(clock);
        }
    }
    staff
}

/// Lets all four work so, until the day is over.
pub fn work_or_poll<T: Threads + Clock + Sync, const N: usize, const M: usize, const G: usize>(
    rt: &T,
    rings: &TestRings<N, M, G>,
    staffing: Staffing,
    staff: Staff,
    over: &AtomicBool,
) -> Staff
    requires { AreAt rings.now staff }
    ensures { AreAt rings.now result }
{
    match staffing {
        Staffing::ThreadEach => work_all(rt, rings, staff, over),
        Staffing::OneThread => poll_all(rt, rings, staff, over),
    }
}

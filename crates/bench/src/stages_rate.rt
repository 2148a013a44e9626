//! Measures how many commands a second go from gateways through both rings and all stages, until each gateway has its
//! outputs, with a thread for each gateway and each stage, and how long a command takes where one thread does all.
ghost use Rattle.std.specs.Prelude.{◌≡◌, ◌≤◌, [], IfOk};
ghost use Rattle.ring_words.specs.Crew.{AreNew};

mod gateway;
mod messages;
mod path;

use crate::book_rate::limits_of;
use crate::fault::Fault;
use crate::rate::times_in;
use book::BookLogic;
use path::Path;
use ring_words::{OpenError, Rings, Seats};
use std::alloc::Global;
use std::rt::Clock;
use std::thread::Threads;
use std::time::Duration;
use venue_model::Limits;
use workers::Parks;

/// The rings of so many gateways. There are no others: each gateway must take or pass over each output, or the
/// processor would wait for it.
type VenueRings<const G: usize> = Rings<BookLogic, 1024, 1024, G>;

/// Measures so many commands, 1 to 10,000,000, of so many gateways, 1 to 8. The message of each takes some 340 bytes of
/// memory.
pub fn measure<R: Clock + Print + AllocGlobal + Threads + Parks + Sync>(
    rt: &R,
    commands: u32,
    gateways: u32,
) -> Result<(), Fault> {
    let (joined, alone) = times(rt, commands, gateways)?;
    let rate = times_in(100_000, commands, joined);
    println!(rt;
        "ring.venue.g{gateways}.joined.project: {}.{:02} Mmsg/s",
        rate / 100,
        rate % 100
    )?;
    let cost = alone.as_nanos() / u128::from(commands.max(1));
    println!(rt; "ring.turns.project: {cost} ns/message")?;
    Ok(())
}

/// How long the commands of so many gateways take on threads, and on one.
fn times<R: Clock + AllocGlobal + Threads + Parks + Sync>(
    rt: &R,
    commands: u32,
    gateways: u32,
) -> Result<(Duration, Duration), Fault> {
    match gateways {
        1 => times_of::<R, 1>(rt, commands),
        2 => times_of::<R, 2>(rt, commands),
        3 => times_of::<R, 3>(rt, commands),
        4 => times_of::<R, 4>(rt, commands),
        5 => times_of::<R, 5>(rt, commands),
        6 => times_of::<R, 6>(rt, commands),
        7 => times_of::<R, 7>(rt, commands),
        _ => times_of::<R, 8>(rt, commands),
    }
}

/// The same of this many gateways.
fn times_of<R: Clock + AllocGlobal + Threads + Parks + Sync, const G: usize>(
    rt: &R,
    commands: u32,
) -> Result<(Duration, Duration), Fault>
    requires { (1 ≤ G) × (G ≤ 8) }
{
    let joined = time::<R, G>(rt, commands, true)?;
    let alone = time::<R, G>(rt, commands, false)?;
    Ok((joined, alone))
}

/// How long the commands take, with a thread for each gateway and each stage or with one thread.
fn time<R: Clock + AllocGlobal + Threads + Parks + Sync, const G: usize>(
    rt: &R,
    commands: u32,
    on_threads: bool,
) -> Result<Duration, Fault>
    requires { (1 ≤ G) × (G ≤ 8) }
{
    let limits = limits_of(rt.alloc(), &["ABC"])?;
    let Ok((rings, seats)) = open::<G>(rt.alloc(), &limits) else {
        return Err(Fault::Memory);
    };
    time_at(rt, &rings, seats, &limits, commands, on_threads)
}

/// New rings with their seats.
fn open<const G: usize>(
    alloc: Global,
    limits: &Limits,
) -> Result<(VenueRings<G>, Seats<BookLogic>), OpenError>
    requires { (1 ≤ G) × (G ≤ 8) }
    ensures opened { IfOk result (λ r. (r.0.logic ≡ limits.now) × (r.0.base ≡ []) × (r.0.base_outputs ≡ 0)) }
    ensures seats { IfOk result (λ r. AreNew G r.0 r.1) }
{
    VenueRings::open(alloc, BookLogic::of(limits), &Vec::new(alloc), 0)
}

/// The same at these new rings, whose table of symbols is given.
fn time_at<R: Clock + AllocGlobal + Threads + Parks + Sync, const G: usize>(
    rt: &R,
    rings: &VenueRings<G>,
    seats: Seats<BookLogic>,
    limits: &Limits,
    commands: u32,
    on_threads: bool,
) -> Result<Duration, Fault>
    requires count { (1 ≤ G) × (G ≤ 8) }
    requires opened { (rings.now.logic ≡ limits.now) × (rings.now.base ≡ []) × (rings.now.base_outputs ≡ 0) }
    requires seats { AreNew G rings.now seats }
{
    let mut path = Path::new(rt.alloc(), rings, seats, limits, commands)?;
    if on_threads {
        return path.time_on_threads(rt);
    }
    path.time_on_one_thread(rt)
}

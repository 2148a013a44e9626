//! Measures how many commands a second the book does on one thread, with so many orders resting.
ghost use Rattle.std.specs.Prelude.{◌↔◌, ◌+◌, ◌≤◌, IfOk, IsTrue, OnOk};
ghost use Rattle.std.specs.List.{All};
ghost use Rattle.book.specs.Standing.{Below};
ghost use Rattle.bench.specs.Fits.{Fits};

mod flow;

use crate::fault::Fault;
use crate::rate::times_in;
use book::{Book, MOST_OUTPUTS};
use flow::{Asked, Flow, fits};
use std::alloc::Global;
use std::rt::Clock;
use std::time::{Duration, Instant};
use venue_model::{Limits, Output};

/// The venue's symbols.
const SYMBOLS: [&str; 8] = ["A", "BB", "CCC", "DDDD", "EEEEE", "F6", "G77", "H888"];

/// The table of these symbols.
pub fn limits_of(alloc: Global, symbols: &[&str]) -> Result<Limits, Fault> {
    let mut names = Vec::new(alloc);
    for symbol in symbols {
        let name = String::from_str(alloc, symbol)?;
        if names.push(name).is_err() {
            return Err(Fault::Memory);
        }
    }
    Limits::new(alloc, &names).map_err(|_| Fault::Memory)
}

/// Measures so many commands, 1 to 10,000,000, with so many orders resting, 1 to 4,000; five of a hundred are market
/// orders, where these are asked for. How many outputs there were goes to standard error.
pub fn measure<R: Clock + Print + Eprint + AllocGlobal>(
    rt: &R,
    resting: u32,
    commands: u32,
    asks_market: bool,
) -> Result<(), Fault> {
    let all = resting.saturating_add(commands);
    let (outputs, took) = choose_and_time(rt, resting, all, asks_market)?;
    let rate = times_in(1_000_000, commands, took);
    let part = if asks_market { "market" } else { "book" };
    println!(rt;
        "{part}.{resting}.project: {}.{:03} Morders/s",
        rate / 1_000,
        rate % 1_000
    )?;
    eprintln!(rt; "{outputs} outputs")?;
    Ok(())
}

/// Chooses so many commands in all, by a book of their own, and lets a second book do them. It answers how many outputs
/// those had that came once the book was filled, and how long these commands took; where all outputs aren't as many as
/// those of the first book, there is no figure.
fn choose_and_time<R: Clock + AllocGlobal>(
    rt: &R,
    resting: u32,
    all: u32,
    asks_market: bool,
) -> Result<(u64, Duration), Fault>
    requires { resting ≤ all }
{
    let mut chosen = Vec::new(rt.alloc());
    let expected = choose(rt.alloc(), resting, all, asks_market, &mut chosen)?;
    let (filled, outputs, took) = time(rt, resting, all, &chosen)?;
    if filled.wrapping_add(outputs) != expected {
        return Err(Fault::Wrong);
    }
    Ok((outputs, took))
}

/// Chooses so many commands by what a new book answers to those before, and answers how many outputs they have.
fn choose(
    alloc: Global,
    resting: u32,
    all: u32,
    asks_market: bool,
    chosen: &mut Vec<Asked>,
) -> Result<u64, Fault> {
    let mut flow = Flow::new(alloc, resting, asks_market)?;
    let mut book = new_book(alloc)?;
    let mut out = Vec::with_capacity(alloc, MOST_OUTPUTS)?;
    choose_by(&mut book, &mut flow, all, chosen, &mut out)
}

/// A book of the venue's symbols, which has done nothing.
fn new_book(alloc: Global) -> Result<Book, Fault>
    ensures { IfOk result (λ book. Below 0 book.state.orders) }
{
    let limits = limits_of(alloc, &SYMBOLS)?;
    Ok(Book::new(alloc, &limits)?)
}

/// The same by this book, which has done nothing.
fn choose_by(
    book: &mut Book,
    flow: &mut Flow,
    all: u32,
    chosen: &mut Vec<Asked>,
    out: &mut Vec<Output>,
) -> Result<u64, Fault>
    requires { Below 0 book.old.state.orders }
{
    let mut outputs = 0u64;
    for turn in 0..all {
        let asked = flow.next(turn)?;
        if !fits(&asked) {
            return Err(Fault::Wrong);
        }
        outputs = outputs.wrapping_add(apply(book, turn, &asked, out)?);
        flow.learn(out);
        if chosen.push(asked).is_err() {
            return Err(Fault::Memory);
        }
    }
    Ok(outputs)
}

/// Lets a new book do the chosen commands. It answers how many outputs those had that fill the book, how many the
/// others had, and how long these took.
fn time<R: Clock + AllocGlobal>(
    rt: &R,
    resting: u32,
    all: u32,
    chosen: &[Asked],
) -> Result<(u64, u64, Duration), Fault>
    requires { resting ≤ all }
{
    let mut book = new_book(rt.alloc())?;
    let mut out = Vec::with_capacity(rt.alloc(), MOST_OUTPUTS)?;
    time_by(rt, &mut book, resting, all, chosen, &mut out)
}

/// The same by this book, which has done nothing.
fn time_by<R: Clock>(
    rt: &R,
    book: &mut Book,
    resting: u32,
    all: u32,
    chosen: &[Asked],
    out: &mut Vec<Output>,
) -> Result<(u64, u64, Duration), Fault>
    requires begun { Below 0 book.old.state.orders }
    requires order { resting ≤ all }
{
    if !all_fit(chosen) {
        return Err(Fault::Wrong);
    }
    let filled = run(book, 0, resting, chosen, out)?;
    let begun = Instant::now(rt)?;
    let outputs = run(book, resting, all, chosen, out)?;
    Ok((filled, outputs, begun.elapsed(rt)?))
}

/// Whether the book can do all of them. It is asked before the clock runs.
fn all_fit(chosen: &[Asked]) -> bool
    ensures { IsTrue result ↔ All Fits chosen.now }
{
    chosen.iter().all(fits)
}

/// Does the commands from this place of theirs on, which is the first one's sequence, and answers how many outputs they
/// have.
fn run(
    book: &mut Book,
    from: u32,
    upto: u32,
    chosen: &[Asked],
    out: &mut Vec<Output>,
) -> Result<u64, Fault>
    requires fit { All Fits chosen.now }
    requires behind { Below from book.old.state.orders }
    requires order { from ≤ upto }
    ensures { OnOk result (Below upto book.new.state.orders) }
{
    let mut outputs = 0u64;
    for sequence in from..upto {
        let Some(asked) = chosen.get(sequence as usize) else {
            return Err(Fault::Wrong);
        };
        outputs = outputs.wrapping_add(apply(book, sequence, asked, out)?);
    }
    Ok(outputs)
}

/// Does what is asked at this sequence, and answers how many outputs it has, which come in place of those in `out`.
fn apply(book: &mut Book, sequence: u32, asked: &Asked, out: &mut Vec<Output>) -> Result<u64, Fault>
    requires fits { Fits asked.now }
    requires behind { Below sequence book.old.state.orders }
    ensures { OnOk result (Below (sequence + 1) book.new.state.orders) }
{
    if out.capacity() < MOST_OUTPUTS {
        return Err(Fault::Wrong);
    }
    out.clear();
    book.apply(u64::from(sequence), asked.0, &asked.1, out)?;
    Ok(out.len() as u64)
}

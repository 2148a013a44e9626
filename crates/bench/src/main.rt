//! Measures a part of the venue by itself: FIX read and written, the book, the way through the rings and stages, or
//! blocks kept.
#![tactic(auto)]

ghost use Rattle.std.specs.Prelude.{◌≤◌, IfOk};

mod book_rate;
mod fault;
mod fix_rate;
mod journal_rate;
mod rate;
mod stages_rate;

use crate::fault::Fault;
use std::env;
use std::fs::{File, Files};
use std::process::ExitCode;
use std::rt::{Clock, Env};
use std::thread::Threads;
use workers::Parks;

/// The number from 1 to `most` that a word says.
fn number_to(most: u32, word: &String) -> Result<u32, Fault>
    ensures { IfOk result (λ number. (1 ≤ number) × (number ≤ most)) }
{
    match word.parse::<u32>() {
        Ok(number) if 1 <= number && number <= most => Ok(number),
        _ => Err(Fault::Usage),
    }
}

/// Measures the part that the first word names, as the words behind it say.
fn measure<
    R: Env + Clock + Threads + Parks + Files<File = File> + Print + Eprint + AllocGlobal + Sync,
>(rt: &R, words: &[String]) -> Result<(), Fault> {
    match words {
        [part, word] => measure_one(rt, part.as_str(), word),
        [part, first, second] => measure_two(rt, part.as_str(), first, second),
        _ => Err(Fault::Usage),
    }
}

/// Measures a part that one word describes.
fn measure_one<R: Clock + Files<File = File> + Print + Eprint + AllocGlobal>(
    rt: &R,
    part: &str,
    word: &String,
) -> Result<(), Fault> {
    match part {
        "fix" => fix_rate::measure(rt, number_to(u32::MAX, word)?),
        "journal" => journal_rate::measure(rt, word.as_str()),
        _ => Err(Fault::Usage),
    }
}

/// Measures a part that two numbers describe, the second or the first of which is how many commands there are.
fn measure_two<R: Clock + Threads + Parks + Print + Eprint + AllocGlobal + Sync>(
    rt: &R,
    part: &str,
    first: &String,
    second: &String,
) -> Result<(), Fault> {
    match part {
        "book" | "market" => {
            let (resting, commands) = (number_to(4_000, first)?, number_to(10_000_000, second)?);
            book_rate::measure(rt, resting, commands, part == "market")
        }
        "stages" => stages_rate::measure(rt, number_to(10_000_000, first)?, number_to(8, second)?),
        _ => Err(Fault::Usage),
    }
}

/// Reads the words of the command line, and measures what they ask for.
fn run<R: Env + Clock + Threads + Parks + Files<File = File> + Print + Eprint + AllocGlobal + Sync>(
    rt: &R,
) -> Result<(), Fault> {
    let words: Vec<String> = env::args(rt)?.skip(1).collect(rt.alloc())?;
    measure(rt, &words)
}

fn main(rt: HostRuntime) -> ExitCode {
    match run(&rt) {
        Ok(()) => ExitCode::SUCCESS,
        Err(fault) => {
            let _ = eprintln!(rt; "{fault}");
            fault.status()
        }
    }
}

//! Measures how many orders a second are decoded, and of how many reports the body is written, on one thread.

mod reading;
mod writing;

use crate::fault::Fault;
use crate::rate::{print_messages, times_in};
pub use reading::ORDER;
use reading::{SUM, read_orders};
use std::rt::Clock;
use std::time::Instant;
use venue_model::LONGEST_MESSAGE;
use writing::{reports, write_bodies, writes_first};

/// Measures so many messages. What was read and written in all goes to standard error; where that isn't what it should
/// be, there is no figure.
pub fn measure<R: Clock + Print + Eprint>(rt: &R, messages: u32) -> Result<(), Fault> {
    let sum = measure_reading(rt, messages)?;
    let bytes = measure_writing(rt, messages)?;
    eprintln!(rt; "sum {sum}, bytes {bytes}")?;
    Ok(())
}

/// Decodes the order so many times, and answers the sum of what was read.
fn measure_reading<R: Clock + Print>(rt: &R, messages: u32) -> Result<u64, Fault> {
    let begun = Instant::now(rt)?;
    let sum = read_orders(messages);
    let rate = times_in(100_000, messages, begun.elapsed(rt)?);
    if sum != u64::from(messages).wrapping_mul(SUM) {
        return Err(Fault::Wrong);
    }
    print_messages(rt, "fix.parse", rate)?;
    Ok(sum)
}

/// Writes so many bodies of reports, and answers how many bytes they have.
fn measure_writing<R: Clock + Print>(rt: &R, messages: u32) -> Result<u64, Fault> {
    let reports = reports();
    let mut body = [0; LONGEST_MESSAGE];
    if !writes_first(&mut body, &reports) {
        return Err(Fault::Wrong);
    }
    let begun = Instant::now(rt)?;
    let bytes = write_bodies(&mut body, &reports, messages);
    let rate = times_in(100_000, messages, begun.elapsed(rt)?);
    print_messages(rt, "fix.report", rate)?;
    Ok(bytes)
}

//! Tests of the calls that cut bytes into frames, read orders and write reports, on bytes from outside. And of the
//! book: worked days, with their reports as literal text; a plain list that is asked the same ten thousand times; and
//! each call of levels, book and limits that asks for memory. A crate with tests is proved twice, so they stand here;
//! and in one crate, since the proof of each such crate reads again what stands below it.
#![tactic(auto)]

#[cfg(test)]
mod tests;

//! Tests of the whole venue, threads included: clients come in at ports or over a wire in memory, over a disk in
//! memory; and two of them over TCP, in this process. This crate holds nothing else.
#![tactic(auto)]

#[cfg(test)]
mod tests;

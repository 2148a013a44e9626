//! Tests of rings, stages and gateways together, on one thread and on threads, where what they show is no byte of one
//! client's session: small rings, gateways that meet, entries and outputs of which each comes through once, the end of
//! the rings, and readers that fail. This crate holds nothing else; whole sessions are played files.
#![tactic(auto)]

#[cfg(test)]
mod tests;

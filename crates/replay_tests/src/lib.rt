//! Tests of what is read again: snapshots that are added to a journal, for a disk behind whose call the program stops,
//! and how much of a journal is read; and the events of a journal as calls, over a disk, a folder and outputs in
//! memory. They stand here, since a crate with tests is proved twice.
#![tactic(auto)]

#[cfg(test)]
mod tests;

//! Tests of the journal and of the wires, for what the built programs don't show: disks of which a call fails or behind
//! whose call the program stops, and readers and writers that go by a script. They stand here, and not beside what they
//! test, since a crate with tests is proved twice.
#![tactic(auto)]

#[cfg(test)]
mod tests;

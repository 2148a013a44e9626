//! A run of the program `venued`: its words, and the journal's file that is opened and served over, for one client or
//! for members at ports. All of it is over any folder, disk, wire and writer; `venued` gives it those of the system.
#![tactic(auto)]

mod listening;
mod ports;
mod serving;
mod symbols;
mod words;

pub use listening::{run_for, run_listening};
pub use ports::local_ports;
pub use serving::{run, serve};
pub use symbols::Symbols;
pub use words::{Mode, Words, WordsFault, refuse};

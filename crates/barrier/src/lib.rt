//! The barriers of both rings: how a stage reads entries or outputs behind its barrier and releases their rows, and how
//! a gateway takes outputs. A message goes through here from a ring to who reads it, after it was published.
#![tactic(auto)]

mod availability;
mod commands;
mod outputs;
mod reading;
mod taken;
mod taking;

pub use availability::{available, commands_available};
pub use commands::{read_command, write_command};
pub use outputs::write_text;
pub use reading::read_raw;
pub use ring_words::{
    copy_output, outputs_available, read_output, release, release_kept, release_marshalled,
    release_written,
};
pub use taken::{Head, Take};
pub use taking::take;

//! The one table that holds both rings: its words, the rule over them, and who may step where.
//! Every message goes through it: gateways put entries in, the stages read them, and outputs come back.
#![tactic(auto)]

mod close;
mod heads;
mod laws;
mod meeting;
mod open;
mod places;
mod plays;
mod report;
mod rings;
mod seats;
mod setup;
mod slots;
mod steps;
mod view;

pub use close::Summary;
pub use heads::{Raw, TextHead, whole_word_at, word_at};
pub use laws::{a_row_has_one_sequence_in_use, no_gateway_is_ahead_of_the_journal};
pub use open::OpenError;
pub use report::{PlacedOutput, blank_output};
pub use rings::{Ring, Rings};
pub use seats::Seats;
pub use seats::gateway::GatewaySeat;
pub use seats::marshaller::MarshalSeat;
pub use seats::processor::ProcessSeat;
pub use seats::reader::{
    JournalSeat, Journalling, Reader, ReaderSeat, UnmarshalSeat, Unmarshalling,
};
pub use setup::Setup;
pub use steps::{
    copy_output, outputs_available, put_output, read_output, release, release_kept,
    release_marshalled, release_written,
};
pub use view::{Load, Part, Person, Role, Sent, View};

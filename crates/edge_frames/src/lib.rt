//! Messages of FIX 4.4 cut out of what a stranger sends: the first that happens to the bytes of a member's engine,
//! before any library of FIX reads them. What comes out is canonical; all else is passed over.
#![tactic(auto)]

mod begin;
mod fault;
mod found;
mod front;
mod head;
mod laws;
mod list;
mod number;
mod piece;
mod reason;
mod verdict;

pub use found::{Found, look};
pub use front::Message;
pub use laws::{
    fields_are_the_venues, messages_of_the_venue_come, streams_give_one_answer, streams_go_on,
};
pub use list::FieldPlace;
pub use reason::RejectReason;
pub use verdict::{BadField, Verdict};

//! Frames of FIX 4.4 tag=value in and out of bytes: the first thing that happens to what a client sends,
//! and the last that happens to what it is sent.
#![tactic(auto)]

mod body;
mod fault;
mod field;
mod frame;
mod framer;
mod head;
mod laws;
mod message;
mod opening;
mod stage;
mod trailer;
mod write;

pub use body::Body;
pub use fault::FrameFault;
pub use field::{Field, Fields};
pub use frame::Frame;
pub use framer::Framer;
pub use laws::{fields_are_spelled_once, frames_have_no_fault, streams_are_cut_once};
pub use message::whole;
pub use opening::open_body;
pub use write::{OVERHEAD, write_frame};

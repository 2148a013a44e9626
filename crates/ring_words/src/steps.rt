//! The single steps of both rings, in a file for each who takes them. `sequencer` and `barrier` make calls of them, and
//! name those that need no more than a step: each stage's release, and an output put or read.
mod gateway; // promise 5
mod journaller; // promise 5
mod marshaller; // promise 5
mod processor; // promise 5
mod reader; // promise 5
mod unmarshaller; // promise 5

pub use journaller::release_kept;
pub use marshaller::{copy_output, outputs_available, read_output, release_marshalled};
pub use processor::{put_output, release};
pub use unmarshaller::release_written;

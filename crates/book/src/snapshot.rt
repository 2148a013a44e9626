//! The snapshot of a book: its state as bytes, with the counts of the commands and outputs that led to it.
mod fault;
mod head;
mod numbers;
mod ranges;
mod restoring;
mod row;
mod rows;
mod writing;

pub use fault::RestoreFault;
pub use restoring::Restored;

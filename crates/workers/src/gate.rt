//! What a run calls around each turn of each worker: a test lets its workers meet there.

/// Which worker of a venue one is.
#[derive(Clone, Copy, Debug, PartialEq, Eq)]
pub enum Station {
    Unmarshaller,
    Journaller,
    Processor,
    Marshaller,
    /// The gateway of this number, 1 to 8.
    Gateway(u64),
}

/// Is told of each turn of each worker.
pub trait Gate {
    /// A turn of this worker begins. The number is the next sequence of a stage; of a gateway it is how many turns were
    /// before this one.
    fn enter(&self, worker: Station, seq: u64);

    /// The turn has ended, and this is the number now; that of a gateway's turn is the same as before it.
    fn leave(&self, worker: Station, seq: u64);
}

/// The gate of programs: it does nothing.
#[derive(Clone, Copy, Drop)]
pub struct NoGate;

impl Gate for NoGate {
    fn enter(&self, _worker: Station, _seq: u64) {}

    fn leave(&self, _worker: Station, _seq: u64) {}
}

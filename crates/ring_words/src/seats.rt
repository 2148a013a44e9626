//! The seats: one for each gateway and one for each stage. Only `Rings::open` and `open_behind` make them, and each is
//! used by one thread.
pub(crate) mod gateway;
pub(crate) mod marshaller;
pub(crate) mod processor;
pub(crate) mod reader;

use crate::seats::gateway::GatewaySeat;
use crate::seats::marshaller::MarshalSeat;
use crate::seats::processor::ProcessSeat;
use crate::seats::reader::{JournalSeat, UnmarshalSeat};

/// All seats of one table: the gateways' in the order of their numbers, and the stages'.
#[derive(Drop)]
pub struct Seats<L> {
    pub gateways: Vec<GatewaySeat<L>>,
    pub unmarshal: UnmarshalSeat<L>,
    pub journal: JournalSeat<L>,
    pub process: ProcessSeat<L>,
    pub marshal: MarshalSeat<L>,
}

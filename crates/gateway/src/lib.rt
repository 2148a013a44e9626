//! A client's sessions between its wire and the venue: bytes are read, cut into frames and judged; what is to be
//! answered is answered, an order is held until it is published, and the venue's outputs are handed on. No call of a
//! gateway waits for another thread, and none but `new` takes memory.
#![tactic(auto)]

mod ending;
mod gateway;
mod hearing;
mod held;
mod message;
mod outgoing;
mod refusal;
mod seat;
mod session;

pub use ending::{Reason, Turned};
pub use gateway::Gateway;
pub use wires::{
    ClientWire, GatheringWire, MemPort, MemWire, Nothings, Port, StdWire, StreamWire, TcpPort,
    TcpWire, TryRead, TryWrite, Wire, local_port, tcp_wire,
};

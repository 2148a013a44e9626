//! Wires: where a client's bytes come in and where those to it go out. They know no session, no ring and no FIX.
//! `MemWire` is for tests, `StdWire` for standard input and output, `TcpWire` for a client that came over TCP or
//! another `Stream`.
#![tactic(auto)]

mod buffers;
mod client;
mod counts;
mod flushed;
mod gathering;
mod input;
mod listener;
mod mem;
mod mem_listener;
mod mem_port;
mod mem_stream;
mod port;
mod socket;
mod socket_port;
mod standard;
mod stream;
mod stream_wire;
mod tcp;
mod tcp_port;
mod vanishing;
mod wire;

pub use client::{ClientWire, DirectWire};
pub use counts::Nothings;
pub use flushed::Flushed;
pub use gathering::GatheringWire;
pub use input::Input;
pub use listener::Listener;
pub use mem::MemWire;
pub use mem_listener::MemListener;
pub use mem_port::MemPort;
pub use mem_stream::MemStream;
pub use port::Port;
pub use socket_port::SocketPort;
pub use standard::StdWire;
pub use stream::Stream;
pub use stream_wire::StreamWire;
pub use tcp::{TcpWire, tcp_wire, wire_over};
pub use tcp_port::{LocalListener, TcpPort, local_port};
pub use wire::{TryRead, TryWrite, Wire};

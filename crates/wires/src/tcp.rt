//! The wire of a client that came over TCP.
ghost use Rattle.std.specs.Prelude.{◌≡◌, IfOk, IfErr};
ghost use Rattle.wires.specs.Wires.{uncounted};
ghost use Rattle.wires.specs.GatheringWires.{IsFresh, below_of};
ghost use Rattle.wires.specs.StreamWires.{stream_of};

use crate::gathering::GatheringWire;
use crate::stream::Stream;
use crate::stream_wire::StreamWire;
use crate::vanishing::end_if_it_vanishes;
use crate::wire::Wire;
use std::alloc::{AllocFailed, Global};
use std::io;
use std::net::TcpStream;

/// A wire that gathers in front of a stream.
pub type TcpWire<S = TcpStream> = GatheringWire<StreamWire<S>>;

/// The wire over a stream that never waits, which is given back in its wire where there is no memory. Nothing was read
/// or written: it tells what the stream told.
pub fn wire_over<S: Stream + Drop>(
    alloc: Global,
    stream: S,
) -> Result<TcpWire<S>, AllocFailed<StreamWire<S>>>
    ensures fresh { IfOk result (IsFresh ⟦<StreamWire<S> as Wire>⟧.tells) }
    ensures stream { IfOk result (λ wire. stream_of (below_of wire) ≡ stream) }
    ensures told { IfOk result (λ wire. ⟦<TcpWire<S> as Wire>⟧.tells wire ≡ uncounted (S.gave stream) (S.took stream)) }
    ensures err { IfErr result (λ failed. stream_of failed.value ≡ stream) }
{
    GatheringWire::new(alloc, StreamWire::new(stream))
}

/// The wire over a stream that was accepted: from now on that never waits, sends at once what it is given, and ends
/// where the client's machine has vanished. It is closed where it can't be set so, or there is no memory.
pub fn tcp_wire(alloc: Global, stream: TcpStream) -> io::Result<TcpWire>
    ensures fresh { IfOk result (IsFresh ⟦<StreamWire<TcpStream> as Wire>⟧.tells) }
    ensures stream { IfOk result (λ wire. stream_of (below_of wire) ≡ stream) }
{
    stream.set_nonblocking(true)?;
    stream.set_nodelay(true)?;
    end_if_it_vanishes(&stream)?;
    Ok(wire_over(alloc, stream)?)
}

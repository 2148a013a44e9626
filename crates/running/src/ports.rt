//! The ports of the members of a venue that listens.
ghost use Rattle.std.specs.Prelude.{◌≡◌, ◌+◌, ◌≤◌, vec_len, IfOk};
ghost use Rattle.running.specs.Ports.{ArePorts};

use gateway::{Port, TcpPort, local_port};
use std::alloc::{AllocError, Global};
use std::net::{Net, TcpListener, TcpStream};

/// So many ports of this machine, that of member k is `first` + k - 1. Nobody listens there yet.
pub fn local_ports<'a, R: Net<Listener = TcpListener, Stream = TcpStream>>(
    net: &'a R,
    alloc: Global,
    first: u16,
    count: u8,
) -> Result<Vec<Box<TcpPort<'a, R>>>, AllocError> // promise 12
    requires { first + count ≤ 65536 }
    ensures ports { IfOk result (λ ports. ArePorts ⟦<TcpPort<'a, R> as Port>⟧.tells first ports.items) }
    ensures count { IfOk result (λ ports. vec_len ports ≡ count) }
{
    let mut ports = Vec::with_capacity(alloc, count as usize)?;
    for at in 0..count {
        ports.push(Box::new(alloc, local_port(net, first + at as u16))?)?;
    }
    Ok(ports)
}

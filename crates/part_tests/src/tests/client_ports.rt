//! Clients who come to a port over a listener in memory, one behind the other.
ghost use Rattle.std.specs.Prelude.{◌≡◌, false, IfOk, OnOk};
ghost use Rattle.wires.specs.SocketPorts.{listener_of};

use std::alloc::{AllocError, Global};
use std::process::Abort;
use std::test::Fail;
use wires::{MemListener, MemStream, Port, SocketPort, TcpWire, TryRead, TryWrite, Wire};

/// The port of a member in memory.
type MemoryPort = SocketPort<MemListener, MemStream>;

/// A port at which two clients are to come, who say something each.
fn port_of_two(alloc: Global) -> Result<MemoryPort, AllocError>
    ensures { IfOk result (λ port. (listener_of port).out ≡ false) }
{
    let first = MemStream::new(alloc, b"8=FIX.4.4")?;
    let second = MemStream::new(alloc, b"35=A")?;
    let coming = Vec::from_array(alloc, [second, first])?;
    Ok(SocketPort::over(MemListener::new(alloc, 20_001, coming)))
}

/// Over this wire come just these bytes, and then the end.
fn expect_bytes<A: Abort>(rt: &A, wire: &mut TcpWire<MemStream>, bytes: &[u8]) {
    let mut buf = [0; 16];
    assert_eq!(rt; wire.try_read(&mut buf), TryRead::Got(bytes.len()));
    assert_eq!(rt; buf.get(..bytes.len()), Some(bytes));
    assert_eq!(rt; wire.try_read(&mut buf), TryRead::End);
}

/// The first client is let in, while the second one waits, says its bytes, is told others, and leaves.
fn first_comes<A: Abort>(rt: &A, alloc: Global, port: &mut MemoryPort) -> Result<(), Fail>
    requires { (listener_of port.old).out ≡ false }
    ensures { OnOk result ((listener_of port.new).out ≡ false) }
{
    let Some(mut first) = port.accept(alloc) else {
        return Err(Fail::new("the first client isn't let in"));
    };
    assert!(rt; port.is_wanted());
    expect_bytes(rt, &mut first, b"8=FIX.4.4");
    assert_eq!(rt; first.try_write(b"35=A"), TryWrite::Put(4));
    first.rest(true);
    port.take_back(first);
    Ok(())
}

/// The second client is let in, as the last, says its bytes, and leaves.
fn second_comes<A: Abort>(rt: &A, alloc: Global, port: &mut MemoryPort) -> Result<(), Fail>
    requires { (listener_of port.old).out ≡ false }
    ensures { OnOk result ((listener_of port.new).out ≡ false) }
{
    let Some(mut second) = port.accept(alloc) else {
        return Err(Fail::new("the second client isn't let in"));
    };
    assert!(rt; !port.is_wanted());
    expect_bytes(rt, &mut second, b"35=A");
    port.take_back(second);
    Ok(())
}

/// Whether both wires are back, and the first client alone was told something.
fn are_back(port: &MemoryPort) -> bool {
    let [first, second] = port.listener().gone() else {
        return false;
    };
    first.below().stream().taken() == b"35=A".as_slice()
        && second.below().stream().taken().is_empty()
}

/// Nobody comes before the port is open. A look lets none in, and loses none; the second client waits until the first
/// one's wire is back.
#[test]
fn clients_come_in_one_behind_the_other(rt: HostRuntime) -> Result<(), Fail> {
    let mut port = port_of_two(rt.alloc())?;
    assert_eq!(rt; port.number(), 20_001);
    assert!(rt; !port.is_wanted() && port.accept(rt.alloc()).is_none());
    assert!(rt; port.open() && port.is_wanted() && port.is_wanted());
    first_comes(&rt, rt.alloc(), &mut port)?;
    second_comes(&rt, rt.alloc(), &mut port)?;
    assert!(rt; port.accept(rt.alloc()).is_none());
    assert!(rt; are_back(&port));
    Ok(())
}

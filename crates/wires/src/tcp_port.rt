//! A port of this machine, for clients that come over TCP from the machine itself.
ghost use Rattle.std.specs.Prelude.{◌≡◌, true, false, None};
ghost use Rattle.wires.specs.TcpPorts.{told_local};

use crate::listener::Listener;
use crate::port::Port;
use crate::socket_port::SocketPort;
use crate::tcp::{TcpWire, tcp_wire};
use mio::unix::SourceFd;
use mio::{Interest, Registry, Token};
use std::alloc::Global;
use std::net::{Ipv4Addr, Net, SocketAddr, SocketAddrV4, TcpListener, TcpStream};
use std::os::fd::AsRawFd;

/// Under this token a rest is told that a socket is ready, whichever.
const SOCKET: Token = Token(1);

/// A port of the local host. It tells none of the wires.
pub type TcpPort<'a, R> = SocketPort<LocalListener<'a, R>, TcpStream>;

/// The port of this number of the local host, at which nobody listens yet.
pub fn local_port<'a, R: Net<Listener = TcpListener, Stream = TcpStream>>(
    net: &'a R,
    number: u16,
) -> TcpPort<'a, R>
    ensures { ⟦<TcpPort<'a, R> as Port>⟧.tells result ≡
        record { number = number; is_open = false; came = None; gone = None; out = false } }
{
    SocketPort::over(LocalListener {
        net,
        number,
        listener: None,
        registry: None,
        out: false,
    })
}

/// A listener of the local host. It tells nobody.
#[derive(Drop)]
pub struct LocalListener<'a, R: Net<Listener = TcpListener, Stream = TcpStream>> {
    net: &'a R,
    number: u16,
    listener: Option<TcpListener>,
    registry: Option<Registry>,
    out: bool,
}

impl<R: Net<Listener = TcpListener, Stream = TcpStream>> LocalListener<'_, R> {
    /// A listener there, whose calls don't wait.
    fn listen(&self) -> Option<TcpListener> {
        let at = SocketAddr::V4(SocketAddrV4::new(Ipv4Addr::LOCALHOST, self.number));
        let listener = self.net.bind(at).ok()?;
        listener.set_nonblocking(true).ok()?;
        Some(listener)
    }

    /// Has the rest of the thread that serves this port end where this socket is ready, if there is one. Where that
    /// can't be had, a rest ends by itself.
    fn watch_over<S: AsRawFd>(&self, socket: &S) {
        if let Some(registry) = &self.registry {
            let _ = registry.register(
                &mut SourceFd(&socket.as_raw_fd()),
                SOCKET,
                Interest::READABLE | Interest::WRITABLE,
            );
        }
    }
}

impl<R: Net<Listener = TcpListener, Stream = TcpStream>> Listener for LocalListener<'_, R> {
    type Stream = TcpStream;

    type Wire = TcpWire;

    ghost tells = { told_local };

    ghost looked = { λ x y. Unit {0} };

    fn number(&self) -> u16 {
        self.number
    }

    fn open(&mut self) -> bool {
        self.listener = self.listen();
        self.listener.is_some()
    }

    fn watch(&mut self, registry: &Registry) {
        self.registry = registry.try_clone().ok();
        if let Some(listener) = &self.listener {
            self.watch_over(listener);
        }
    }

    fn accept(&mut self) -> Option<TcpStream> {
        let (stream, _) = self.listener.as_ref()?.accept().ok()?;
        Some(stream)
    }

    fn wire(&mut self, alloc: Global, stream: TcpStream) -> Option<TcpWire> {
        self.watch_over(&stream);
        let wire = tcp_wire(alloc, stream).ok()?;
        self.out = true;
        Some(wire)
    }

    fn take_back(&mut self, _wire: TcpWire)
        requires out { (told_local self.old).out ≡ true }
        ensures { told_local self.new ≡ record (told_local self.old) { out = false } }
    {
        self.out = false;
    }
}

//! A port over a listener: a client that waits is accepted at the first look, and is the next one to be let in.
ghost use Rattle.std.specs.Prelude.{◌≡◌, false};
ghost use Rattle.wires.specs.SocketPorts.{told_reception, new_reception, listener_of, SeesWhoWaits, IsLooked};

use crate::listener::Listener;
use crate::port::Port;
use crate::stream::Stream;
use mio::Registry;
use std::alloc::Global;
use std::marker::Model;

/// A port whose clients connect to this listener. Who was accepted and isn't let in yet is the next one.
#[derive(Drop)]
pub struct SocketPort<L: Listener<Stream = S> + Drop, S: Stream + Drop> {
    listener: L,
    next: Option<S>,
}

impl<L: Listener<Stream = S> + Drop, S: Stream + Drop> Model for SocketPort<L, S> {
    ghost use Rattle.wires.specs.SocketPorts.{Reception, IsNext};

    ghost Value = { Reception L S };

    ghost view = { λ p. record { listener = p.listener; next = p.next } };

    ghost invariant = { λ p. IsNext S.gave S.took (L.tells p.listener) p.next };
}

impl<L: Listener<Stream = S> + Drop, S: Stream + Drop> SocketPort<L, S> {
    /// The port over this listener.
    pub fn over(listener: L) -> SocketPort<L, S>
        ensures { result ≡ new_reception listener }
    {
        SocketPort {
            listener,
            next: None,
        }
    }

    /// The listener.
    pub fn listener(&self) -> &L
        ensures { result.now ≡ listener_of self.now }
    {
        &self.listener
    }
}

impl<L: Listener<Stream = S> + Drop, S: Stream + Drop> Port for SocketPort<L, S> {
    type Wire = L::Wire;

    ghost tells = { told_reception L.tells };

    ghost looked = { IsLooked L.tells L.looked };

    fn number(&self) -> u16 {
        self.listener.number()
    }

    fn open(&mut self) -> bool {
        self.listener.open()
    }

    fn watch(&mut self, registry: &Registry) {
        self.listener.watch(registry);
    }

    fn accept(&mut self, alloc: Global) -> Option<L::Wire> {
        if !self.is_wanted() {
            return None;
        }
        let stream = self.next.take()?;
        self.listener.wire(alloc, stream)
    }

    /// The client that waits is taken out of the system's queue, so that it is known to be there, and is the next.
    fn is_wanted(&mut self) -> bool
        ensures tells { told_reception L.tells self.new ≡ told_reception L.tells self.old }
        ensures looked { result ≡ false → IsLooked L.tells L.looked self.old self.new }
        ensures looks { SeesWhoWaits L.tells L.looked self.old self.new result }
    {
        if self.next.is_none() {
            self.next = self.listener.accept();
        }
        self.next.is_some()
    }

    fn take_back(&mut self, wire: L::Wire) {
        self.listener.take_back(wire);
    }
}

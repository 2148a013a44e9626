//! A listener in memory, for tests: its connections are known before, and the wires of those that have left are kept.
ghost use Rattle.std.specs.Prelude.{◌≡◌, ◌↔◌, ◌++◌, ◌∷◌, [], true, false, None, IfOk, IfSome, IfNone};
ghost use Rattle.std.specs.List.{AllByRecursion};
ghost use Rattle.wires.specs.Listeners.{Accepts, CameLast, MakesWire, as_it_came};
ghost use Rattle.wires.specs.MemListeners.{new_listener, told_lobby, told_wire, IsAsMade, AcceptsMemory, MakesMemoryWire};
ghost use Rattle.wires.specs.GatheringWires.{IsFresh, below_of};
ghost use Rattle.wires.specs.MemStreams.{gave_of, took_of};
ghost use Rattle.wires.specs.StreamWires.{told_stream, stream_of};

use crate::listener::Listener;
use crate::mem_stream::MemStream;
use crate::tcp::{TcpWire, wire_over};
use mio::Registry;
use std::alloc::Global;
use std::marker::Model;

/// A listener in memory.
#[derive(Drop)]
pub struct MemListener {
    number: u16,
    is_open: bool,
    came: usize,
    coming: Vec<MemStream>,
    let_go: usize,
    gone: Vec<TcpWire<MemStream>>,
    out: bool,
}

impl Model for MemListener {
    ghost use Rattle.std.specs.Prelude.{◌≡◌, ◌+◌, ◌<◌, ◌≤◌, length, vec_capacity, true};
    ghost use Rattle.std.specs.List.{AllByRecursion};
    ghost use Rattle.wires.specs.MemListeners.{MemoryListener, IsAsMade};

    ghost Value = { MemoryListener };

    ghost view = { λ l. record {
      number = l.number;
      is_open = l.is_open;
      came = l.came;
      coming = l.coming.items;
      let_go = l.let_go;
      gone = l.gone.items;
      out = l.out;
    } };

    ghost invariant = { λ l. AllByRecursion IsAsMade l.coming.items
        × (l.came + l.let_go + length l.coming.items ≤ vec_capacity l.coming)
        × (l.out ≡ true → length l.gone.items < vec_capacity l.gone) };
}

impl MemListener {
    /// A listener of this number to which these connections are to come, the last one first. Nothing has moved over
    /// them yet.
    pub fn new(alloc: Global, number: u16, coming: Vec<MemStream>) -> MemListener
        requires untouched { AllByRecursion IsAsMade coming.items }
        ensures { result ≡ new_listener number coming.items }
    {
        MemListener {
            number,
            is_open: false,
            came: 0,
            coming,
            let_go: 0,
            gone: Vec::new(alloc),
            out: false,
        }
    }

    /// The wires that were taken back, in that order.
    pub fn gone(&self) -> &[TcpWire<MemStream>]
        ensures { result.now ≡ self.now.gone }
    {
        self.gone.as_slice()
    }
}

impl Listener for MemListener {
    type Stream = MemStream;

    type Wire = TcpWire<MemStream>;

    ghost tells = { told_lobby };

    ghost looked = { λ x y. AcceptsMemory x y None };

    fn number(&self) -> u16 {
        self.number
    }

    fn open(&mut self) -> bool
        ensures opened { self.new ≡ record self.old { is_open = true } }
        ensures may { result ≡ true }
    {
        self.is_open = true;
        true
    }

    fn watch(&mut self, _registry: &Registry)
        ensures { self.new ≡ self.old }
    {}

    fn accept(&mut self) -> Option<MemStream>
        ensures tells { Accepts gave_of took_of (told_lobby self.old) (told_lobby self.new) result }
        ensures looked { IfNone result (AcceptsMemory self.old self.new None) }
        ensures accepts { AcceptsMemory self.old self.new result }
    {
        if !self.is_open {
            return None;
        }
        let stream = self.coming.pop()?;
        self.came += 1;
        Some(stream)
    }

    fn wire(&mut self, alloc: Global, stream: MemStream) -> Option<TcpWire<MemStream>>
        requires one { self.old.out ≡ false }
        requires last { CameLast (told_lobby self.old).came (as_it_came gave_of took_of stream) }
        ensures fresh { IfSome result (λ wire. told_wire wire ≡ as_it_came gave_of took_of stream) }
        ensures over { IfSome result (λ wire. IsFresh (told_stream gave_of took_of) wire × (stream_of (below_of wire) ≡ stream)) }
        ensures tells { MakesWire (told_lobby self.old) (told_lobby self.new) (as_it_came gave_of took_of stream) result }
        ensures makes { MakesMemoryWire self.old self.new result }
    {
        if self.gone.reserve(1).is_ok() {
            if let Ok(wire) = wire_over(alloc, stream) {
                self.out = true;
                return Some(wire);
            }
        }
        self.came -= 1;
        self.let_go += 1;
        None
    }

    fn take_back(&mut self, wire: TcpWire<MemStream>)
        requires out { self.old.out ≡ true }
        ensures { self.new ≡ record self.old { gone = self.old.gone ++ wire ∷ []; out = false } }
    {
        self.gone.push_reserved(wire);
        self.out = false;
    }
}

//! A port in memory, for tests: its clients are known before, and their wires are kept when they have left.
ghost use Rattle.std.specs.Prelude.{◌≡◌, ◌↔◌, ◌++◌, ◌∷◌, [], true, false, None, IfOk, IfErr, IfNone};
ghost use Rattle.std.specs.List.{AllByRecursion};
ghost use Rattle.wires.specs.Ports.{LetsIn, LetsMemoryIn, SeesLeave, IsUnmoved, told_register};
ghost use Rattle.wires.specs.MemWires.{told_memory};

use crate::mem::MemWire;
use crate::port::Port;
use mio::Registry;
use std::alloc::{AllocError, Global};
use std::marker::Model;

/// A port in memory.
#[derive(Drop)]
pub struct MemPort {
    number: u16,
    is_open: bool,
    came: usize,
    coming: Vec<MemWire>,
    gone: Vec<MemWire>,
    out: bool,
}

impl Model for MemPort {
    ghost use Rattle.std.specs.Prelude.{◌+◌, ◌≤◌, length, vec_capacity, if◌then◌else◌};
    ghost use Rattle.std.specs.List.{AllByRecursion};
    ghost use Rattle.wires.specs.Ports.{MemoryPort, IsUnmoved};

    ghost Value = { MemoryPort };

    ghost view = { λ p. record {
      number = p.number;
      is_open = p.is_open;
      came = p.came;
      coming = p.coming.items;
      gone = p.gone.items;
      out = p.out;
    } };

    ghost invariant = { λ p. AllByRecursion IsUnmoved p.coming.items × (p.came + length p.coming.items ≤ vec_capacity p.gone)
        × (length p.gone.items + (if p.out then 1 else 0) ≤ p.came) };
}

impl MemPort {
    /// A port of this number at which these clients are to come, the last one first. Nothing has moved over their wires
    /// yet.
    pub fn new(alloc: Global, number: u16, coming: Vec<MemWire>) -> Result<MemPort, AllocError>
        requires unmoved { AllByRecursion IsUnmoved coming.items }
        ensures { IfOk result (λ port. port ≡
            record { number = number; is_open = false; came = 0; coming = coming.items; gone = []; out = false }) }
    {
        let gone = Vec::with_capacity(alloc, coming.len())?;
        Ok(MemPort {
            number,
            is_open: false,
            came: 0,
            coming,
            gone,
            out: false,
        })
    }

    /// The wires of the clients that have left, in that order.
    pub fn gone(&self) -> &[MemWire]
        ensures { result.now ≡ self.now.gone }
    {
        self.gone.as_slice()
    }
}

impl Port for MemPort {
    type Wire = MemWire;

    ghost tells = { told_register };

    ghost looked = { λ x y. LetsMemoryIn x y None };

    fn number(&self) -> u16 {
        self.number
    }

    fn open(&mut self) -> bool
        ensures opened { self.new ≡ record self.old { is_open = true } }
        ensures may { result ≡ true }
    {
        self.is_open = true;
        true
    }

    fn watch(&mut self, _registry: &Registry)
        ensures { self.new ≡ self.old }
    {}

    fn accept(&mut self, _alloc: Global) -> Option<MemWire>
        requires one { self.old.out ≡ false }
        ensures tells { LetsIn told_memory (told_register self.old) (told_register self.new) result }
        ensures looked { IfNone result (LetsMemoryIn self.old self.new None) }
        ensures lets_in { LetsMemoryIn self.old self.new result }
    {
        if !self.is_open {
            return None;
        }
        let wire = self.coming.pop()?;
        self.came += 1;
        self.out = true;
        Some(wire)
    }

    fn is_wanted(&mut self) -> bool
        ensures tells { self.new ≡ self.old }
        ensures wanted { result ≡ false ↔ LetsMemoryIn self.old self.new None }
    {
        self.is_open && !self.coming.is_empty()
    }

    fn take_back(&mut self, wire: MemWire)
        requires out { self.old.out ≡ true }
        ensures { self.new ≡ record self.old { gone = self.old.gone ++ wire ∷ []; out = false } }
    {
        self.gone.push_reserved(wire);
        self.out = false;
    }
}

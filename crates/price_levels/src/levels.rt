//! The levels: where orders rest, each found by its place. All room is made at the start.
ghost use Rattle.std.specs.Prelude.{◌≡◌, ◌≢◌, ◌<◌, ◌≤◌, ◌+◌, ◌-◌, ◌*◌, ◌^◌, None, Some, length, filter, sum_by, get_or, slice_set, replicate, IfOk, MatchOption};
ghost use Rattle.venue_model.specs.Orders.{leaves};
ghost use Rattle.price_levels.specs.Places.{standing, rests_at, ComesLater, StandsAt, NoneOf, BestOf, PricedBest, NoneBehind, NextBehind, HoldsAt, LeavesSome, CanAmend, reduced, renamed_to, changed, crossing_leaves};

use crate::changes::{change, push, take_out};
use crate::finds::{after, best, crossing_total, depth};
use crate::ladders::Ladders;
use crate::nodes::{Node, VACANT};
use crate::reads::{ReadCounter, Reads};
use std::alloc::{AllocError, Global};
use std::marker::Model;
use venue_model::{Order, Side, Symbol};

/// The place of an order in the levels, from its `push_back` to its `unlink`.
#[derive(Clone, Copy, Debug, PartialEq, Eq)]
pub struct Place {
    number: usize,
}

impl Place {
    /// The place of this number. An order need not stand there.
    pub fn at(number: usize) -> Place
        ensures { result.number ≡ number }
    {
        Place { number }
    }

    /// The number of the place: below the room that was made.
    pub fn number(self) -> usize
        ensures { result ≡ self.number }
    {
        self.number
    }
}

/// What rests at one price of a symbol and side.
#[derive(Clone, Copy, Debug, PartialEq, Eq)]
pub struct Depth {
    /// What its orders have left, in sum.
    pub quantity: u64,
    /// How many orders they are.
    pub orders: u64,
}

/// Resting orders, linked within their price levels. Contracts see the list of places: what stands at each of them.
#[derive(Drop)]
pub struct Levels {
    nodes: Vec<Node>,
    free: Vec<usize>,
    ladders: Ladders,
}

impl Model for Levels {
    ghost use Rattle.std.specs.Prelude.{◌≤◌, length};
    ghost use Rattle.std.specs.Vec.{vec_capacity};
    ghost use Rattle.price_levels.specs.Places.{Places};
    ghost use Rattle.price_levels.specs.Arena.{places_of, IsLevels};
    ghost use Rattle.price_levels.specs.Ladders.{NameLadders, all};

    ghost Value = { Places };

    ghost view = { λ l. places_of l.nodes.items };

    ghost invariant = { λ l. IsLevels l.nodes.items l.free.items (all l.ladders)
        × (length l.nodes.items ≤ vec_capacity l.free) × (length l.nodes.items ≤ l.ladders.room)
        × NameLadders l.ladders.fences l.nodes.items };
}

impl Levels {
    /// Room for this many orders, all places free, and the right to begin counts of what is read of them. It is all
    /// made here; no other call asks for memory. The orders of each of these symbols, and of each side, are found
    /// without regard to those of the others.
    pub fn new(
        alloc: Global,
        symbols: &[Symbol],
        cap: usize,
    ) -> Result<(Levels, ReadCounter), AllocError>
        requires symbols { length symbols.now ≤ 8 }
        requires quantities { cap * 1000000 < 2 ^ 64 }
        ensures { IfOk result (λ made. made.0 ≡ replicate cap None) }
    {
        let levels = Levels::all_free(alloc, symbols, cap)?;
        Ok((levels, ReadCounter::new()))
    }

    /// Room for this many orders, all places free.
    fn all_free(alloc: Global, symbols: &[Symbol], cap: usize) -> Result<Levels, AllocError>
        requires symbols { length symbols.now ≤ 8 }
        requires quantities { cap * 1000000 < 2 ^ 64 }
        ensures { IfOk result (λ l. l ≡ replicate cap None) }
    {
        let nodes = vec![in alloc; VACANT; cap]?;
        let mut free = Vec::with_capacity(alloc, cap)?;
        for place in 0..cap {
            free.push_reserved(place);
        }
        let ladders = Ladders::new(alloc, symbols, cap)?;
        Ok(Levels {
            nodes,
            free,
            ladders,
        })
    }

    /// Puts an order behind the others of its symbol, side and price. It answers the place that it has from now on.
    #[inline(always)]
    pub fn push_back(&mut self, order: Order) -> Place
        requires room { length (standing self.old) < length self.old }
        requires later { ComesLater self.old order }
        requires quantity { order.total ≤ 1000000 }
        ensures within { result.number < length self.old }
        ensures free { get_or self.old result.number None ≡ None }
        ensures places { self.new ≡ slice_set self.old result.number (Some order) }
    {
        self.push_copy(&order)
    }

    /// The same with a copy of an order.
    #[inline(always)]
    pub fn push_copy(&mut self, order: &Order) -> Place
        requires room { length (standing self.old) < length self.old }
        requires later { ComesLater self.old order.now }
        requires quantity { order.now.total ≤ 1000000 }
        ensures within { result.number < length self.old }
        ensures free { get_or self.old result.number None ≡ None }
        ensures places { self.new ≡ slice_set self.old result.number (Some order.now) }
    {
        Place {
            number: push(&mut self.nodes, &mut self.free, &mut self.ladders, order),
        }
    }

    /// Takes the order at a place out. The place is free then.
    #[inline(always)]
    pub fn unlink(&mut self, place: Place) -> Order
        requires { get_or self.old place.number None ≢ None }
        ensures order { get_or self.old place.number None ≡ Some result }
        ensures places { self.new ≡ slice_set self.old place.number None }
    {
        let order = self.nodes[place.number].order.unwrap();
        take_out(
            &mut self.nodes,
            &mut self.free,
            &mut self.ladders,
            place.number,
        );
        order
    }

    /// Reads the order at a place. `reads` counts it.
    pub fn get(&self, place: Place, reads: &mut Reads) -> Order
        requires stands { get_or self.now place.number None ≢ None }
        requires count { reads.old < 2 ^ 64 - 1 }
        ensures order { get_or self.now place.number None ≡ Some result }
        ensures counted { reads.new ≡ reads.old + 1 }
    {
        reads.raise();
        self.nodes[place.number].order.unwrap()
    }

    /// The place of the order of a symbol and side that is ahead of all others, or `None` where there is none. It reads
    /// no order.
    pub fn best(&self, symbol: &Symbol, side: Side) -> Option<Place>
        ensures { MatchOption result (NoneOf symbol.now side self.now) (λ p. BestOf symbol.now side self.now p.number) }
    {
        let (place, _price) = self.best_priced(symbol, side)?;
        Some(place)
    }

    /// The same, and the price of that order. It reads no order.
    #[inline(always)]
    pub fn best_priced(&self, symbol: &Symbol, side: Side) -> Option<(Place, u64)>
        ensures { MatchOption result (NoneOf symbol.now side self.now)
            (λ b. PricedBest symbol.now side self.now b.0.number b.1) }
    {
        let (number, price) = best(&self.nodes, &self.ladders, symbol, side)?;
        Some((Place { number }, price))
    }

    /// The place of the order that comes next behind the one at a place: of those of its symbol and side that it is
    /// ahead of, the one ahead of all others. `None` where it is the last.
    pub fn after(&self, place: Place) -> Option<Place>
        requires { get_or self.now place.number None ≢ None }
        ensures { MatchOption result (NoneBehind self.now place.number) (λ p. NextBehind self.now place.number p.number) }
    {
        let number = after(&self.nodes, &self.ladders, place.number)?;
        Some(Place { number })
    }

    /// A fill at its own price that leaves something of the order at a place.
    pub fn reduce(&mut self, place: Place, by: u64)
        requires { HoldsAt self.old place.number (LeavesSome by) }
        ensures { self.new ≡ changed (reduced by) self.old place.number }
    {
        let order = self.nodes[place.number].order.unwrap();
        let order = order.filled(by, order.price);
        change(&mut self.nodes, &mut self.ladders, place.number, &order);
    }

    /// Gives the order at a place another name and a total that is no more than it was, and more than what was filled
    /// of it. It keeps its place in time.
    pub fn amend(&mut self, place: Place, cl_ord_id: u64, total: u64)
        requires { HoldsAt self.old place.number (CanAmend total) }
        ensures { self.new ≡ changed (renamed_to cl_ord_id total) self.old place.number }
    {
        let order = self.nodes[place.number].order.unwrap();
        let order = Order {
            cl_ord_id,
            total,
            ..order
        };
        change(&mut self.nodes, &mut self.ladders, place.number, &order);
    }

    /// What all resting orders have left that an order of this symbol, side and price would cross. It reads no order.
    pub fn crossing_total(&self, symbol: &Symbol, side: Side, price: u64) -> u64
        ensures { result ≡ crossing_leaves symbol.now side price self.now }
    {
        crossing_total(&self.nodes, &self.ladders, symbol, side, price)
    }

    /// What rests at this price of a symbol and side. It looks at no other level, and reads no order.
    pub fn depth(&self, symbol: &Symbol, side: Side, price: u64) -> Depth
        ensures quantity { result.quantity ≡ sum_by leaves (filter (rests_at symbol.now side price) (standing self.now)) }
        ensures orders { result.orders ≡ length (filter (rests_at symbol.now side price) (standing self.now)) }
    {
        depth(&self.nodes, &self.ladders, symbol, side, price)
    }
}

//! The resting orders: levels, and the index of names, kept together. Each order is found by its client and name, and
//! the one ahead of all others by its level. Contracts see one list, in the order of the stamps.
ghost use Rattle.std.specs.Prelude.{◌≡◌, ◌≢◌, ◌<◌, ◌≤◌, ◌+◌, ◌-◌, ◌^◌, true, not, [], ◌∷◌, ◌++◌, None, Some, length, map, filter, find, sum_by, IfOk, MatchOption, if◌then◌else◌};
ghost use Rattle.venue_model.specs.Orders.{leaves};
ghost use Rattle.venue_model.specs.Match.{crossing};
ghost use Rattle.venue_model.specs.Requests.{is_named, most_resting};
ghost use Rattle.price_levels.specs.Places.{CanAmend, renamed_to};
ghost use Rattle.price_levels.specs.Stamps.{InStamps, Comes};
ghost use Rattle.book.specs.Standing.{InRange, Rests, Below, BehindLevel, NoneNamed};
ghost use Rattle.venue_model.specs.declared.orders.Order.{Order};
ghost use Rattle.book.specs.Firsts.{FillsFirst, FillsNone, NoneCrossed};
ghost use Rattle.book.specs.Depths.{depth_at};
ghost use Rattle.book.specs.Queues.{NoneQueuedOf, IsFirst, NoneQueuedBehind, IsQueuedNext};

use crate::order_index::OrderIndex;
use price_levels::{Depth, Levels, Place, ReadCounter, Reads};
use std::alloc::{AllocError, Global};
use std::marker::Model;
use venue_model::{MOST_RESTING, Order, Side, Symbol};

/// The resting orders, at most 4,096. Contracts see them in the order of their stamps.
#[derive(Drop)]
pub(crate) struct RestingOrders {
    levels: Levels,
    index: OrderIndex,
    count: usize,
}

impl Model for RestingOrders {
    ghost use Rattle.std.specs.Prelude.{List};
    ghost use Rattle.venue_model.specs.declared.orders.Order.{Order};
    ghost use Rattle.price_levels.specs.Stamps.{by_stamp};
    ghost use Rattle.book.specs.Keeping.{AreKept};

    ghost Value = { List Order };

    ghost view = { λ r. by_stamp r.levels };

    ghost invariant = { λ r. AreKept r.levels r.index r.count };
}

impl RestingOrders {
    /// No order rests. All room is made here, for the orders of these symbols apart from one another; no other call
    /// asks for memory. The counter isn't kept: each call that reads an order is handed a count.
    pub(crate) fn new(
        alloc: Global,
        symbols: &[Symbol],
    ) -> Result<(RestingOrders, ReadCounter), AllocError>
        requires { length symbols.now ≤ 8 }
        ensures { IfOk result (λ made. made.0 ≡ []) }
    {
        let (levels, counter) = Levels::new(alloc, symbols, MOST_RESTING)?;
        let index = OrderIndex::new(alloc)?;
        let orders = RestingOrders {
            levels,
            index,
            count: 0,
        };
        Ok((orders, counter))
    }

    /// How many orders rest.
    pub(crate) fn len(&self) -> usize
        ensures { result ≡ length self.now }
    {
        self.count
    }

    /// The client's order of this name. `reads` counts the read of it.
    pub(crate) fn named(&self, client: u8, name: u64, reads: &mut Reads) -> Option<Order>
        requires { reads.old < 2 ^ 64 - 1 }
        ensures order { result ≡ find (is_named client name) self.now }
        ensures reads { MatchOption result (reads.new ≡ reads.old) (λ o. reads.new ≡ reads.old + 1) }
    {
        let number = self.index.find(client, name)?;
        Some(self.levels.get(Place::at(number as usize), reads))
    }

    /// An order comes behind all others.
    #[inline(always)]
    pub(crate) fn push(&mut self, order: &Order)
        requires room { length self.old < most_resting }
        requires rests { Rests order.now }
        requires behind { Below order.now.stamp self.old }
        requires fresh { NoneNamed order.now.client order.now.cl_ord_id self.old }
        ensures { self.new ≡ self.old ++ order.now ∷ [] }
    {
        self.insert(order);
    }

    /// An order of any stamp comes to where its stamp belongs, behind the others of its level.
    #[inline(always)]
    pub(crate) fn insert(&mut self, order: &Order)
        requires room { length self.old < most_resting }
        requires rests { Rests order.now }
        requires later { BehindLevel order.now self.old }
        requires fresh { NoneNamed order.now.client order.now.cl_ord_id self.old }
        ensures comes { Comes order.now self.old self.new }
        ensures stamps { InStamps self.new }
    {
        let number = self.levels.push_copy(order).number();
        self.index
            .insert(order.client, order.cl_ord_id, number as u32);
        self.count += 1;
    }

    /// Takes the client's order of this name out.
    #[inline(always)]
    pub(crate) fn take_out(&mut self, client: u8, name: u64) -> Order
        requires { find (is_named client name) self.old ≢ None }
        ensures order { find (is_named client name) self.old ≡ Some result }
        ensures orders { self.new ≡ filter (λ o. not (is_named client name o)) self.old }
    {
        let number = self.index.remove(client, name);
        self.count -= 1;
        self.levels.unlink(Place::at(number as usize))
    }

    /// Gives the client's order of this name another name and a total that is no more than it was, and more than what
    /// was filled of it. It keeps its place in time.
    pub(crate) fn amend(&mut self, client: u8, name: u64, new_name: u64, total: u64)
        requires there { MatchOption (find (is_named client name) self.old) ⊥ (CanAmend total) }
        requires fresh { NoneNamed client new_name self.old }
        ensures { self.new ≡ map (λ o. if is_named client name o then renamed_to new_name total o else o) self.old }
    {
        let number = self.index.remove(client, name);
        self.levels
            .amend(Place::at(number as usize), new_name, total);
        self.index.insert(client, new_name, number);
    }

    /// Fills the first of the orders that the incoming one crosses, as far as both go. It answers that order as it was,
    /// or `None` where none is crossed. `reads` counts the read of that order.
    pub(crate) fn fill_first(&mut self, incoming: &Order, reads: &mut Reads) -> Option<Order>
        requires reads { reads.old < 2 ^ 64 - 1 }
        requires some { 0 < leaves incoming.now }
        ensures first { MatchOption result (FillsNone incoming.now self.old self.new) (FillsFirst incoming.now self.old self.new) }
        ensures reads { MatchOption result (reads.new ≡ reads.old) (λ o. reads.new ≡ reads.old + 1) }
    {
        let side = incoming.side.opposite();
        let (place, price) = self.levels.best_priced(&incoming.symbol, side)?;
        if !incoming.side.meets(incoming.price, side, price) {
            return None;
        }
        let order = self.levels.get(place, reads);
        let quantity = incoming.leaves();
        if quantity < order.leaves() {
            self.levels.reduce(place, quantity);
            return Some(order);
        }
        self.index.remove(order.client, order.cl_ord_id);
        self.count -= 1;
        self.levels.unlink(place);
        Some(order)
    }

    /// Whether the incoming order crosses none. It reads no order.
    #[inline(always)]
    pub(crate) fn none_crossed(&self, incoming: &Order) -> bool
        ensures { result ≡ true → NoneCrossed incoming.now self.now }
    {
        let side = incoming.side.opposite();
        match self.levels.best_priced(&incoming.symbol, side) {
            Some((_place, price)) => !incoming.side.meets(incoming.price, side, price),
            None => true,
        }
    }

    /// The order of a symbol and side that is ahead of all others, or `None` where there is none.
    pub(crate) fn first_of(
        &self,
        symbol: &Symbol,
        side: Side,
        counter: &ReadCounter,
    ) -> Option<Order>
        ensures { MatchOption result (NoneQueuedOf symbol.now side self.now) (IsFirst symbol.now side self.now) }
    {
        let place = self.levels.best(symbol, side)?;
        Some(self.levels.get(place, &mut counter.begin()))
    }

    /// The order that comes next behind the client's one of this name, of its symbol and side. `None` where it is the
    /// last.
    pub(crate) fn behind(&self, client: u8, name: u64, counter: &ReadCounter) -> Option<Order>
        requires { find (is_named client name) self.now ≢ None }
        ensures { (o : Order) → find (is_named client name) self.now ≡ Some o
            → MatchOption result (NoneQueuedBehind self.now o) (IsQueuedNext self.now o) }
    {
        let number = self.index.find(client, name).unwrap();
        let place = self.levels.after(Place::at(number as usize))?;
        Some(self.levels.get(place, &mut counter.begin()))
    }

    /// What the orders that it crosses have left. It reads no order.
    pub(crate) fn crossing_total(&self, incoming: &Order) -> u64
        ensures { result ≡ sum_by leaves (crossing incoming.now self.now) }
    {
        self.levels
            .crossing_total(&incoming.symbol, incoming.side, incoming.price)
    }

    /// What rests at a price of a symbol and side. It reads no order.
    pub(crate) fn depth(&self, symbol: &Symbol, side: Side, price: u64) -> Depth
        ensures { result ≡ depth_at symbol.now side price self.now }
    {
        self.levels.depth(symbol, side, price)
    }
}

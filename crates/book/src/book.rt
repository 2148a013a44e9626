//! The book: what rests, and each client's greatest accepted ClOrdID.
ghost use Rattle.std.specs.Prelude.{◌≡◌, ◌+◌, ◌*◌, ◌^◌, ◌<◌, ◌≤◌, List, [], ◌∷◌, ◌++◌, None, Some, length, slice_get, IfOk, IsOk};
ghost use Rattle.std.specs.List.Sorted.{IsPermutation};
ghost use Rattle.std.specs.Vec.{vec_len, vec_capacity};
ghost use Rattle.venue_model.specs.Match.{output};
ghost use Rattle.venue_model.specs.Requests.{named};
ghost use Rattle.venue_model.specs.Step.{empty, cause, step, IsCommand};
ghost use Rattle.venue_model.specs.declared.orders.Order.{Order};
ghost use Rattle.book.specs.Books.{FollowsRequest, IsBook};
ghost use Rattle.book.specs.Commands.{ComesNext, ComesTo, AddsOutputs};
ghost use Rattle.book.specs.Depths.{depth_at};
ghost use Rattle.book.specs.Listing.{listing};
ghost use Rattle.book.specs.Reads.{ReadsFew};
ghost use Rattle.book.specs.Standing.{Below};

use crate::listing::next;
use crate::logic::BookLogic;
use crate::reports::{output, put};
use crate::resting::RestingOrders;
use crate::symbol_spots::SymbolSpots;
use price_levels::{Depth, ReadCounter, Reads};
use std::alloc::{AllocError, Global};
use std::marker::Model;
use venue_model::{
    Cause, Command, Limits, MOST_GATEWAYS, Malformed, Order, Output, Report, Side, Symbol,
};

/// The resting orders, each client's greatest accepted ClOrdID, and how many resting orders the last command read.
/// Contracts see the venue's limits, the state, in which the orders stand in the order of their stamps, and that
/// number.
#[derive(Drop)]
pub struct Book {
    pub(crate) logic: BookLogic,
    // (where the symbols of new orders are looked for)
    pub(crate) spots: SymbolSpots,
    pub(crate) orders: RestingOrders,
    pub(crate) greatest: [u64; MOST_GATEWAYS],
    // (no other module sees it, so a command reads orders by the one count that `apply` begins)
    counter: ReadCounter,
    reads: u64,
}

impl Model for Book {
    ghost use Rattle.book.specs.Books.{Book, IsBook};

    ghost Value = { Book };

    ghost view = { λ b. record { limits = b.logic; state = record { orders = b.orders; greatest = b.greatest }; reads = b.reads } };

    ghost invariant = { λ b. IsBook b.logic.symbols b.orders b.greatest };
}

impl Book {
    /// The empty book of a venue with these symbols. Room for all orders that can rest is made here, and no other call
    /// asks for memory.
    pub fn new(alloc: Global, limits: &Limits) -> Result<Book, AllocError>
        ensures { IfOk result (λ b. b ≡ record { limits = limits.now; state = empty; reads = 0 }) }
    {
        Book::of(alloc, BookLogic::of(limits))
    }

    /// The empty book of a venue with this logic: with its symbols. From which entry on market orders are read is no
    /// matter to a book.
    pub fn of(alloc: Global, logic: BookLogic) -> Result<Book, AllocError>
        ensures { IfOk result (λ b. b ≡ record { limits = logic; state = empty; reads = 0 }) }
    {
        let (orders, counter) = RestingOrders::new(alloc, logic.symbols())?;
        Ok(Book::made(logic, orders, [0; MOST_GATEWAYS], counter))
    }

    /// The book of these orders, with the counter that came with them.
    pub(crate) fn made(
        logic: BookLogic,
        orders: RestingOrders,
        greatest: [u64; MOST_GATEWAYS],
        counter: ReadCounter,
    ) -> Book
        requires { IsBook logic.symbols orders greatest }
        ensures { result ≡ record { limits = logic; state = record { orders = orders; greatest = greatest }; reads = 0 } }
    {
        let spots = SymbolSpots::of(logic.symbols());
        Book {
            logic,
            spots,
            orders,
            greatest,
            counter,
            reads: 0,
        }
    }

    /// How many orders rest.
    pub fn resting(&self) -> usize // promise 3
        ensures value { result ≡ length self.now.state.orders }
        ensures most { result ≤ 4096 }
    {
        self.orders.len()
    }

    /// How many resting orders the last command read, of those that it matched or named. Prices and sums that the
    /// levels keep aren't counted.
    pub fn reads(&self) -> u64 // promise 3
        ensures { result ≡ self.now.reads }
    {
        self.reads
    }

    /// Does what the command at this sequence asks, and puts its outputs into `out`, which is empty and has room for
    /// the 8,194 that a command has at most. It always succeeds: no memory is asked for.
    pub fn apply(
        &mut self,
        sequence: u64,
        gateway: u8,
        command: &Command,
        out: &mut Vec<Output>,
    ) -> Result<(), AllocError> // promise 3
        requires sequence { sequence < 2 ^ 48 }
        requires behind { Below sequence self.old.state.orders }
        requires gateway { (1 ≤ gateway) × (gateway ≤ 8) }
        requires command { IsCommand command.now }
        requires room { (out.old.items ≡ []) × (8194 ≤ vec_capacity out.old) }
        ensures succeeds { IsOk result × (vec_capacity out.new ≡ vec_capacity out.old) }
        ensures state { FollowsRequest self.old self.new sequence (record { gateway = gateway; command = command.now }) }
        ensures told { out.new.items ≡ (step self.old.limits.symbols self.old.state sequence (record { gateway = gateway; command = command.now })).outputs }
    {
        let mut reads = self.counter.begin();
        self.obey(sequence, gateway, command, out, &mut reads);
        self.reads = reads.count();
        Ok(())
    }

    /// The resting orders one by one: from `None` the first, from an order that rests the one behind it, and `None`
    /// behind the last. They stand by symbol in the order of the command line, buys before sells, each ahead of the
    /// next. An order is known by its client and ClOrdID; behind one that doesn't rest comes `None`. It takes no
    /// memory. A call looks the order's name up and, behind the last order of a price, searches the price levels once
    /// for that order and once for each later symbol and side (at most 16 in all), until an order is there.
    pub fn after(&self, from: Option<Order>) -> Option<Order> // promise 3
        ensures first { from ≡ None → result ≡ slice_get (listing self.now.limits.symbols self.now.state.orders) 0 }
        ensures next { (before behind : List Order) (o : Order) → from ≡ Some o →
            listing self.now.limits.symbols self.now.state.orders ≡ before ++ o ∷ behind
            → result ≡ slice_get behind 0 }
        ensures once { IsPermutation self.now.state.orders (listing self.now.limits.symbols self.now.state.orders) }
    {
        next(self.logic.symbols(), &self.orders, &from, &self.counter)
    }

    /// The client's resting order of this name. What commands read isn't changed by it.
    pub fn order(&self, client: u8, cl_ord_id: u64) -> Option<Order>
        ensures { result ≡ named self.now.state client cl_ord_id }
    {
        self.orders
            .named(client, cl_ord_id, &mut self.counter.begin())
    }

    /// What rests at a price of a symbol and side. It takes the time of a look for the price, and of going along the
    /// orders there to count them.
    pub fn depth(&self, symbol: &Symbol, side: Side, price: u64) -> Depth
        ensures { result ≡ depth_at symbol.now side price self.now.state.orders }
    {
        self.orders.depth(symbol, side, price)
    }

    /// Does what the command asks, and counts what it reads.
    fn obey(
        &mut self,
        sequence: u64,
        gateway: u8,
        command: &Command,
        out: &mut Vec<Output>,
        reads: &mut Reads,
    )
        requires next { ComesNext gateway sequence self.old.state.orders }
        requires command { IsCommand command.now }
        requires empty { out.old.items ≡ [] }
        requires room { 8194 ≤ vec_capacity out.old }
        requires reads { reads.old ≡ 0 }
        ensures state { ComesTo (step self.old.limits.symbols self.old.state sequence (record { gateway = gateway; command = command.now })).state
            (sequence + 1) self.old self.new }
        ensures told { AddsOutputs (step self.old.limits.symbols self.old.state sequence (record { gateway = gateway; command = command.now })).outputs
            out.old out.new }
        ensures reads { ReadsFew self.old.limits.symbols self.old.state sequence (record { gateway = gateway; command = command.now }) reads.new }
    {
        match command {
            Command::New {
                sending_time,
                order,
            } => self.new_order(cause(gateway, sequence, *sending_time), order, out, reads),
            Command::Cancel {
                sending_time,
                request,
            } => self.cancel(cause(gateway, sequence, *sending_time), request, out, reads),
            Command::Replace {
                sending_time,
                request,
            } => self.replace(cause(gateway, sequence, *sending_time), request, out, reads),
            Command::Malformed {
                sending_time,
                fault,
            } => reject(cause(gateway, sequence, *sending_time), fault, out),
            Command::Void => {}
        }
    }
}

/// Where a command's outputs come from.
fn cause(gateway: u8, sequence: u64, sending_time: u64) -> Cause
    ensures { result ≡ cause gateway sequence sending_time }
{
    Cause {
        gateway,
        sequence,
        sending_time,
    }
}

/// Rejects a message with a fault. There is room.
fn reject(cause: Cause, fault: &Malformed, out: &mut Vec<Output>)
    requires { vec_len out.old < vec_capacity out.old }
    ensures items { out.new.items ≡ out.old.items ++ output cause cause.gateway (Report.SessionReject fault.now) ∷ [] }
    ensures room { vec_capacity out.new ≡ vec_capacity out.old }
{
    let report = Report::SessionReject(*fault);
    put(out, &output(cause, cause.gateway, report));
}

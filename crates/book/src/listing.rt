//! The resting orders one by one, as the book is shown: symbol by symbol, buys before sells, each ahead of the next.
ghost use Rattle.std.specs.Prelude.{◌≡◌, ◌≤◌, ◌%◌, ℕ, List, [], ◌∷◌, ◌++◌, None, Some, length, find, position, slice_get};
ghost use Rattle.std.specs.List.{Contains};
ghost use Rattle.std.specs.List.Sorted.{IsPermutation};
ghost use Rattle.std.specs.Str.{bytes_eq};
ghost use Rattle.venue_model.specs.declared.orders.Order.{Order};
ghost use Rattle.venue_model.specs.Orders.{is_better, ahead};
ghost use Rattle.venue_model.specs.Requests.{Symbols, is_named};
ghost use Rattle.venue_model.specs.Spelling.{AreSymbols};
ghost use Rattle.book.specs.Books.{NamedApart, IsBook};
ghost use Rattle.book.specs.Listing.{listing};
ghost use Rattle.book.specs.Next.{symbol_number, side_order, group_of, comes_before, InTable, NextOf, FirstFrom};

use crate::resting::RestingOrders;
use price_levels::ReadCounter;
use venue_model::{Order, Side, Symbol};

/// Every resting order is listed, each once.
pub fn every_order_is_listed_once() // promise 3
    ensures { (symbols : Symbols) (orders : List Order) (greatest : List ℕ) → AreSymbols symbols →
        IsBook symbols orders greatest → IsPermutation orders (listing symbols orders) }
{}

/// The order that is listed next behind this one, or first.
pub(crate) fn next(
    symbols: &[Symbol],
    orders: &RestingOrders,
    from: &Option<Order>,
    counter: &ReadCounter,
) -> Option<Order>
    requires table { AreSymbols symbols.now }
    requires known { InTable symbols.now orders.now }
    requires apart { NamedApart orders.now }
    ensures first { from.now ≡ None → NextOf symbols.now None orders.now result }
    ensures next { (o : Order) → from.now ≡ Some o → Contains orders.now o
        → NextOf symbols.now (Some o) orders.now result }
{
    match from {
        None => first_from(symbols, orders, 0, counter),
        Some(from) => next_behind(symbols, orders, from.client, from.cl_ord_id, counter),
    }
}

/// The order that is listed next behind the client's one of this name: of its group, or else of the later ones.
fn next_behind(
    symbols: &[Symbol],
    orders: &RestingOrders,
    client: u8,
    name: u64,
    counter: &ReadCounter,
) -> Option<Order>
    requires table { AreSymbols symbols.now }
    requires known { InTable symbols.now orders.now }
    ensures { (o : Order) → find (is_named client name) orders.now ≡ Some o
        → NextOf symbols.now (Some o) orders.now result }
{
    let order = orders.named(client, name, &mut counter.begin())?;
    if let Some(next) = orders.behind(client, name, counter) {
        return Some(next);
    }
    first_from(symbols, orders, group_of(symbols, &order) + 1, counter)
}

/// The first order of this group and the later ones.
fn first_from(
    symbols: &[Symbol],
    orders: &RestingOrders,
    from: usize,
    counter: &ReadCounter,
) -> Option<Order>
    requires table { AreSymbols symbols.now }
    requires known { InTable symbols.now orders.now }
    ensures { FirstFrom symbols.now from orders.now result }
{
    for group in from..2 * symbols.len() {
        if let Some(first) = orders.first_of(&symbols[group / 2], side_of(group), counter) {
            return Some(first);
        }
    }
    None
}

/// The side of a group: buys have even numbers, sells odd ones.
fn side_of(group: usize) -> Side
    ensures { side_order result ≡ group % 2 }
{
    if group % 2 == 0 {
        Side::Buy
    } else {
        Side::Sell
    }
}

/// Whether an order is listed before another: in an earlier group, or ahead of it in one.
pub(crate) fn comes_before(symbols: &[Symbol], order: &Order, other: &Order) -> bool
    requires { AreSymbols symbols.now }
    ensures { result ≡ comes_before symbols.now order.now other.now }
{
    let group = group_of(symbols, order);
    let its_group = group_of(symbols, other);
    group < its_group || (group == its_group && is_ahead(order, other))
}

/// Whether an order is ahead of another of its side: at a better price, or at the same one and earlier.
fn is_ahead(order: &Order, other: &Order) -> bool
    ensures { result ≡ ahead order.now other.now }
{
    is_better(order.side, order.price, other.price)
        || (order.price == other.price && order.stamp < other.stamp)
}

/// Whether a price is better for the other side: a higher bid, a lower offer.
fn is_better(side: Side, price: u64, other: u64) -> bool
    ensures { result ≡ is_better side price other }
{
    match side {
        Side::Buy => other < price,
        Side::Sell => price < other,
    }
}

/// The group of an order: two for each symbol before its own, and one more before a sell.
fn group_of(symbols: &[Symbol], order: &Order) -> usize
    requires { AreSymbols symbols.now }
    ensures { result ≡ group_of symbols.now order.now }
{
    let number = number_of(symbols, &order.symbol);
    match order.side {
        Side::Buy => 2 * number,
        Side::Sell => 2 * number + 1,
    }
}

/// The number of a symbol: its place in the table, or the table's length.
pub(crate) fn number_of(symbols: &[Symbol], symbol: &Symbol) -> usize
    ensures value { result ≡ symbol_number symbols.now symbol.now }
    ensures within { result ≤ length symbols.now }
{
    place_of(symbols, symbol).unwrap_or(symbols.len())
}

/// The place of a symbol in the table.
fn place_of(symbols: &[Symbol], symbol: &Symbol) -> Option<usize>
    ensures { result ≡ position (bytes_eq symbol.now) symbols.now }
{
    symbols.iter().position(|known| symbol.is(known))
}

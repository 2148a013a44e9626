//! What is found among the levels: the best order of a symbol and side, the next one, what an order would cross, and
//! what rests at one price.
ghost use Rattle.std.specs.Prelude.{◌≡◌, ◌≢◌, ◌<◌, ◌^◌, None, MatchOption};
ghost use Rattle.price_levels.specs.Places.{NoneOf, PricedBest, NoneBehind, NextBehind, crossing_leaves};
ghost use Rattle.price_levels.specs.Keys.{key_with, key_crossed, same_key};
ghost use Rattle.price_levels.specs.Arena.{AreLevels, crossed_left, of_side, first_in, holds, places_of, order_at, total_left, total_orders};
ghost use Rattle.price_levels.specs.Ladders.{NameLadders, all};

use crate::keys::Level;
use crate::ladders::{Ladders, Rung};
use crate::levels::Depth;
use crate::nodes::Node;
use venue_model::{Order, Side, Symbol};

/// Whether a level is the one of a symbol, side and price.
fn is_level(level: &Level, symbol: &Symbol, side: Side, price: u64) -> bool
    ensures { result ≡ same_key level.now.key (key_with symbol.now side price) }
{
    level.key.symbol.is(symbol) && level.key.side.is(side) && level.key.price == price
}

/// Whether the level at this place is the one of a symbol, side and price.
pub(crate) fn holds(levels: &[Level], at: usize, symbol: &Symbol, side: Side, price: u64) -> bool
    ensures { result ≡ holds levels.now at (key_with symbol.now side price) }
{
    at < levels.len() && is_level(&levels[at], symbol, side, price)
}

/// Whether a level is one of the symbol and side.
#[inline(always)]
pub(crate) fn is_of(level: &Level, symbol: &Symbol, side: Side) -> bool
    ensures { result ≡ of_side symbol.now side level.now.key }
{
    level.key.symbol.is(symbol) && level.key.side.is(side)
}

/// The place of the first order of the level at this place, and its price, if that is one of the symbol and side.
#[inline(always)]
pub(crate) fn first_in(
    levels: &[Level],
    at: usize,
    symbol: &Symbol,
    side: Side,
) -> Option<(usize, u64)>
    ensures { result ≡ first_in symbol.now side levels.now at }
{
    if levels.len() <= at {
        return None;
    }
    let level = &levels[at];
    if is_of(level, symbol, side) {
        Some((level.first, level.key.price))
    } else {
        None
    }
}

/// The place of the order of a symbol and side that is ahead of all others, and its price.
#[inline(always)]
pub(crate) fn best(
    nodes: &Vec<Node>,
    ladders: &Ladders,
    symbol: &Symbol,
    side: Side,
) -> Option<(usize, u64)>
    requires { AreLevels nodes.now.items (all ladders.now) }
    ensures { MatchOption result (NoneOf symbol.now side (places_of nodes.now.items))
        (λ b. PricedBest symbol.now side (places_of nodes.now.items) b.0 b.1) }
{
    let (_rung, first) = ladders.search_side(symbol, side);
    first
}

/// The place of the order that comes next behind the one at this place.
pub(crate) fn after(nodes: &Vec<Node>, ladders: &Ladders, place: usize) -> Option<usize>
    requires levels { AreLevels nodes.now.items (all ladders.now) }
    requires named { NameLadders ladders.now.fences nodes.now.items }
    requires stands { order_at nodes.now.items place ≢ None }
    ensures { MatchOption result (NoneBehind (places_of nodes.now.items) place)
        (NextBehind (places_of nodes.now.items) place) }
{
    let node = nodes[place];
    if let Some(next) = node.next {
        return Some(next);
    }
    let order = node.order.unwrap();
    let (rung, _holds) = ladders.search_in(node.ladder, &order.symbol, order.side, order.price);
    let next = Rung {
        at: rung.at + 1,
        ..rung
    };
    let (number, _price) = ladders.first_in(next, &order.symbol, order.side)?;
    Some(number)
}

/// Whether an order of this symbol, side and price crosses those of a level.
fn is_crossed(level: &Level, symbol: &Symbol, side: Side, price: u64) -> bool
    ensures { result ≡ key_crossed symbol.now side price level.now.key }
{
    symbol.is(&level.key.symbol) && side.meets(price, level.key.side, level.key.price)
}

/// What the levels have left that it crosses, up to the first that it doesn't.
pub(crate) fn crossed_left(levels: &[Level], symbol: &Symbol, side: Side, price: u64) -> u64
    requires { crossed_left symbol.now side price levels.now < 2 ^ 64 }
    ensures { result ≡ crossed_left symbol.now side price levels.now }
{
    let mut total = 0;
    'levels: for level in levels {
        if !is_crossed(level, symbol, side, price) {
            return total;
        }
        total += level.left;
    }
    total
}

/// What all orders have left that it crosses.
pub(crate) fn crossing_total(
    nodes: &Vec<Node>,
    ladders: &Ladders,
    symbol: &Symbol,
    side: Side,
    price: u64,
) -> u64
    requires { AreLevels nodes.now.items (all ladders.now) }
    ensures { result ≡ crossing_leaves symbol.now side price (places_of nodes.now.items) }
{
    let (from, _first) = ladders.search_side(symbol, side.opposite());
    ladders.crossed_left(from, symbol, side, price)
}

/// What rests in the level of a symbol, side and price.
pub(crate) fn depth(
    nodes: &Vec<Node>,
    ladders: &Ladders,
    symbol: &Symbol,
    side: Side,
    price: u64,
) -> Depth
    requires { AreLevels nodes.now.items (all ladders.now) }
    ensures quantity { result.quantity ≡ total_left (key_with symbol.now side price) (places_of nodes.now.items) }
    ensures orders { result.orders ≡ total_orders (key_with symbol.now side price) (places_of nodes.now.items) }
{
    let ladder = ladders.ladder_of(symbol, side);
    let (rung, holds) = ladders.search_in(ladder, symbol, side, price);
    if !holds {
        return Depth {
            quantity: 0,
            orders: 0,
        };
    }
    let level = ladders.level(rung);
    Depth {
        quantity: level.left,
        orders: level.orders,
    }
}

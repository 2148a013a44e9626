//! Orders that come, leave and change in the arena: nodes, free places and levels together.
ghost use Rattle.std.specs.Prelude.{◌≡◌, ◌≢◌, ◌<◌, ◌≤◌, ◌+◌, ℕ, List, None, Some, length, slice_set, get_or, true};
ghost use Rattle.std.specs.Vec.{vec_len, vec_capacity};
ghost use Rattle.price_levels.specs.Keys.{key_of};
ghost use Rattle.price_levels.specs.Places.{standing, ComesLater};
ghost use Rattle.price_levels.specs.Arena.{IsWithinNodes, IsArena, AreLevels, IsChange, places_of, order_at, nodes_with, nodes_without, level_without, levels_with};
ghost use Rattle.price_levels.specs.Ladders.{NameLadders, StandInLadders, IsOn, all, rung_number};

use crate::keys::{Level, key_of};
use crate::ladders::{Ladders, Rung};
use crate::nodes::{Node, set_next, set_prev};
use venue_model::Order;

/// An order takes a free place behind the last one of its level, whose place is given, or alone, in this ladder.
fn seat(nodes: &mut Vec<Node>, last: Option<usize>, place: usize, order: &Order, ladder: usize)
    requires last { IsWithinNodes nodes.old.items last }
    requires place { place < length nodes.old.items }
    ensures { nodes.new.items ≡ nodes_with nodes.old.items last place order.now ladder }
{
    set_next(nodes, last, Some(place));
    nodes[place] = Node {
        order: Some(*order),
        prev: last,
        next: None,
        ladder,
    };
}

/// An order comes. It answers its place.
#[inline(always)]
pub(crate) fn push(
    nodes: &mut Vec<Node>,
    free: &mut Vec<usize>,
    ladders: &mut Ladders,
    order: &Order,
) -> usize
    requires ladders { StandInLadders nodes.old.items free.old.items ladders.old }
    requires room { (length (standing (places_of nodes.old.items)) < length nodes.old.items)
        × (length nodes.old.items ≤ ladders.old.room) }
    requires later { ComesLater (places_of nodes.old.items) order.now }
    requires quantity { order.now.total ≤ 1000000 }
    ensures ladders { StandInLadders nodes.new.items free.new.items ladders.new }
    ensures free { (result < length nodes.old.items) × (order_at nodes.old.items result ≡ None) }
    ensures places { places_of nodes.new.items ≡ slice_set (places_of nodes.old.items) result (Some order.now) }
    ensures capacity { (vec_capacity free.new ≡ vec_capacity free.old) × (ladders.new.room ≡ ladders.old.room) }
{
    let place = free.pop().unwrap();
    let ladder = ladders.ladder_of(&order.symbol, order.side);
    let (rung, holds) = ladders.search_in(ladder, &order.symbol, order.side, order.price);
    if holds {
        let level = ladders.level(rung);
        let longer = Level {
            last: place,
            left: level.left + order.leaves(),
            orders: level.orders + 1,
            ..level
        };
        ladders.set(rung, longer);
        seat(nodes, Some(level.last), place, order, ladder);
    } else {
        seat(nodes, None, place, order, ladder);
        let alone = Level {
            key: key_of(order),
            first: place,
            last: place,
            left: order.leaves(),
            orders: 1,
        };
        ladders.insert(rung, alone);
    }
    place
}

/// The neighbours of an order that leaves meet, and its place is free.
fn unseat(nodes: &mut Vec<Node>, place: usize, prev: Option<usize>, next: Option<usize>)
    requires place { place < length nodes.old.items }
    requires prev { IsWithinNodes nodes.old.items prev }
    requires next { IsWithinNodes nodes.old.items next }
    ensures { nodes.new.items ≡ nodes_without nodes.old.items place prev next }
{
    set_next(nodes, prev, next);
    set_prev(nodes, next, prev);
    nodes[place].order = None;
}

/// A level loses an order between these neighbours, with what was left of it: the last one takes the level along.
fn shorten(
    ladders: &mut Ladders,
    rung: Rung,
    prev: Option<usize>,
    next: Option<usize>,
    quantity: u64,
)
    requires on { IsOn ladders.old rung }
    ensures levels { (level : Level) → level ≡ get_or (all ladders.old) (rung_number ladders.old rung) level →
        all ladders.new ≡ levels_with (all ladders.old) (rung_number ladders.old rung) (level_without level prev next quantity) }
    ensures fences { ladders.new.fences ≡ ladders.old.fences }
    ensures room { ladders.new.room ≡ ladders.old.room }
{
    let level = ladders.level(rung);
    let shorter = Level {
        left: level.left.saturating_sub(quantity),
        orders: level.orders.saturating_sub(1),
        ..level
    };
    match (prev, next) {
        (None, None) => ladders.remove(rung),
        (None, Some(first)) => ladders.set(rung, Level { first, ..shorter }),
        (Some(last), None) => ladders.set(rung, Level { last, ..shorter }),
        (Some(_), Some(_)) => ladders.set(rung, shorter),
    }
}

/// The order at a place leaves.
#[inline(never)]
pub(crate) fn take_out(
    nodes: &mut Vec<Node>,
    free: &mut Vec<usize>,
    ladders: &mut Ladders,
    place: usize,
)
    requires ladders { StandInLadders nodes.old.items free.old.items ladders.old }
    requires stands { order_at nodes.old.items place ≢ None }
    requires capacity { length nodes.old.items ≤ vec_capacity free.old }
    ensures ladders { StandInLadders nodes.new.items free.new.items ladders.new }
    ensures places { places_of nodes.new.items ≡ slice_set (places_of nodes.old.items) place None }
    ensures capacity { (vec_capacity free.new ≡ vec_capacity free.old) × (ladders.new.room ≡ ladders.old.room) }
{
    let node = &nodes[place];
    let order = node.order.as_ref().unwrap();
    let (rung, _holds) = ladders.search_in(node.ladder, &order.symbol, order.side, order.price);
    let (prev, next) = (node.prev, node.next);
    shorten(ladders, rung, prev, next, order.leaves());
    unseat(nodes, place, prev, next);
    free.push_reserved(place);
}

/// The order at a place is another now, of its level and stamp, with no more to fill.
pub(crate) fn change(nodes: &mut Vec<Node>, ladders: &mut Ladders, place: usize, order: &Order)
    requires levels { AreLevels nodes.old.items (all ladders.old) }
    requires named { NameLadders ladders.old.fences nodes.old.items }
    requires change { IsChange (order_at nodes.old.items place) order.now }
    ensures levels { AreLevels nodes.new.items (all ladders.new) }
    ensures named { NameLadders ladders.new.fences nodes.new.items }
    ensures free { (free : List ℕ) → IsArena nodes.old.items free → IsArena nodes.new.items free }
    ensures places { places_of nodes.new.items ≡ slice_set (places_of nodes.old.items) place (Some order.now) }
    ensures room { ladders.new.room ≡ ladders.old.room }
{
    let node = nodes[place];
    let old = node.order.unwrap();
    let (rung, _holds) = ladders.search_in(node.ladder, &old.symbol, old.side, old.price);
    let level = ladders.level(rung);
    let level = Level {
        left: level.left.saturating_sub(old.leaves()) + order.leaves(),
        ..level
    };
    ladders.set(rung, level);
    nodes[place] = Node {
        order: Some(*order),
        ..node
    };
}

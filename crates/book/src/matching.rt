//! A match: an incoming order fills the orders that it crosses, each ahead of the next, and what is left of it rests or
//! is canceled, as its terms say.
ghost use Rattle.std.specs.Prelude.{◌≡◌, ◌<◌, ◌≤◌, ◌+◌, ◌-◌, ◌*◌, ◌^◌, ℕ, ◌++◌, length, MatchOption, None};
ghost use Rattle.std.specs.Vec.{vec_len, vec_capacity};
ghost use Rattle.venue_model.specs.declared.orders.Order.{Order};
ghost use Rattle.venue_model.specs.Orders.{leaves};
ghost use Rattle.venue_model.specs.Match.{done, rest, trades, matched, match_outputs};
ghost use Rattle.book.specs.Firsts.{FillsFirst};
ghost use Rattle.book.specs.Standing.{InRange, Rests, IsBookList, Below};
ghost use Rattle.book.specs.Books.{NoneNamed};
ghost use Rattle.book.specs.Commands.{CanMatch, MayComeIn, AreLeft, AddsOutputs, MatchReads};
ghost use Rattle.book.specs.Passes.{incoming_after, reports, Over};
ghost use Rattle.book.specs.Reads.{fills, filled_by, IsMatched};

use crate::reports::tell;
use crate::resting::RestingOrders;
use price_levels::Reads;
use std::cmp::min;
use venue_model::{Cause, ExecType, Order, Output, TimeInForce};

/// Fills the order that the incoming one fills next, as far as both go. It answers that order as it was, or `None`
/// where the match is over.
fn next_fill(orders: &mut RestingOrders, incoming: &Order, reads: &mut Reads) -> Option<Order>
    requires standing { IsBookList orders.old }
    requires in_range { InRange incoming.now }
    requires reads { reads.old < 2 ^ 64 - 1 }
    ensures next { MatchOption result (Over incoming.now orders.old × (orders.new ≡ orders.old))
        (λ o. FillsFirst incoming.now orders.old orders.new o × (0 < leaves incoming.now)) }
    ensures reads { MatchOption result (reads.new ≡ reads.old) (λ o. reads.new ≡ reads.old + 1) }
{
    if incoming.leaves() == 0 {
        None
    } else {
        orders.fill_first(incoming, reads)
    }
}

/// Fills the incoming order with this resting one, as far as both go, and tells both sides of it.
fn tell_fill(incoming: &mut Order, order: &Order, cause: Cause, out: &mut Vec<Output>)
    requires in_range { InRange incoming.old }
    requires rests { Rests order.now }
    requires room { vec_len out.old + 2 ≤ vec_capacity out.old }
    ensures next { incoming.new ≡ incoming_after incoming.old order.now }
    ensures told { out.new.items ≡ out.old.items ++ reports cause incoming.old order.now }
    ensures in_range { InRange incoming.new }
    ensures more { vec_len out.new ≡ vec_len out.old + 2 }
    ensures room { vec_capacity out.new ≡ vec_capacity out.old }
{
    let last_px = order.price;
    let quantity = min(order.leaves(), incoming.leaves());
    let exec_type = ExecType::Trade {
        last_qty: quantity,
        last_px,
    };
    tell(out, cause, exec_type, &order.filled(quantity, last_px));
    *incoming = incoming.filled(quantity, last_px);
    tell(out, cause, exec_type, incoming);
}

/// Fills one crossing order after another, until nothing is left of the incoming one or nothing crosses it.
#[inline(never)]
fn sweep(
    orders: &mut RestingOrders,
    incoming: &mut Order,
    cause: Cause,
    out: &mut Vec<Output>,
    reads: &mut Reads,
)
    requires can_match { CanMatch orders.old out.old reads.old }
    requires in_range { InRange incoming.old }
    ensures orders { AreLeft (rest incoming.old orders.old) orders.old orders.new }
    ensures done { incoming.new ≡ done incoming.old orders.old }
    ensures told { AddsOutputs (trades cause incoming.old orders.old) out.old out.new }
    ensures in_range { InRange incoming.new }
    ensures more { vec_len out.new ≤ vec_len out.old + 2 * length orders.old }
    ensures reads { IsMatched (fills incoming.old orders.old) reads.old reads.new }
{
    'fills: while let Some(order) = next_fill(orders, incoming, reads) {
        tell_fill(incoming, &order, cause, out);
    }
}

/// A day order trades with those that it crosses, and what is left of it rests, behind all others.
#[inline(never)]
fn trade_and_rest(
    orders: &mut RestingOrders,
    incoming: &Order,
    cause: Cause,
    out: &mut Vec<Output>,
    reads: &mut Reads,
)
    requires can_match { CanMatch orders.old out.old reads.old }
    requires may_come_in { MayComeIn TimeInForce.Day incoming.now orders.old }
    requires fresh { NoneNamed incoming.now.client incoming.now.cl_ord_id orders.old }
    ensures orders { orders.new ≡ matched TimeInForce.Day incoming.now orders.old }
    ensures told { AddsOutputs (match_outputs cause TimeInForce.Day incoming.now orders.old) out.old out.new }
    ensures standing { IsBookList orders.new }
    ensures below { (sequence : ℕ) → incoming.now.stamp < sequence → Below sequence orders.old
        → Below sequence orders.new }
    ensures reads { IsMatched (filled_by TimeInForce.Day incoming.now orders.old) reads.old reads.new }
{
    let mut left = *incoming;
    sweep(orders, &mut left, cause, out, reads);
    if left.leaves() != 0 {
        orders.push(&left);
    }
}

/// An immediate-or-cancel order trades with those that it crosses, and what is left of it is canceled.
#[inline(never)]
fn trade_and_cancel(
    orders: &mut RestingOrders,
    incoming: &Order,
    cause: Cause,
    out: &mut Vec<Output>,
    reads: &mut Reads,
)
    requires can_match { CanMatch orders.old out.old reads.old }
    requires in_range { InRange incoming.now }
    ensures orders { AreLeft (matched TimeInForce.ImmediateOrCancel incoming.now orders.old) orders.old orders.new }
    ensures told { AddsOutputs (match_outputs cause TimeInForce.ImmediateOrCancel incoming.now orders.old)
        out.old out.new }
    ensures reads { IsMatched (filled_by TimeInForce.ImmediateOrCancel incoming.now orders.old) reads.old reads.new }
{
    let mut left = *incoming;
    sweep(orders, &mut left, cause, out, reads);
    if left.leaves() != 0 {
        tell(out, cause, canceled(), &left);
    }
}

/// A fill-or-kill order trades whole, or it is canceled whole.
#[inline(never)]
fn trade_or_cancel(
    orders: &mut RestingOrders,
    incoming: &Order,
    cause: Cause,
    out: &mut Vec<Output>,
    reads: &mut Reads,
)
    requires can_match { CanMatch orders.old out.old reads.old }
    requires in_range { InRange incoming.now }
    requires some { 0 < leaves incoming.now }
    ensures orders { AreLeft (matched TimeInForce.FillOrKill incoming.now orders.old) orders.old orders.new }
    ensures told { AddsOutputs (match_outputs cause TimeInForce.FillOrKill incoming.now orders.old) out.old out.new }
    ensures reads { MatchReads TimeInForce.FillOrKill incoming.now orders.old reads.old reads.new }
{
    if incoming.leaves() <= orders.crossing_total(incoming) {
        let mut left = *incoming;
        sweep(orders, &mut left, cause, out, reads);
    } else {
        tell(out, cause, canceled(), incoming);
    }
}

/// A new order comes in on these terms, behind all that rest.
#[inline(always)]
pub(crate) fn enter(
    orders: &mut RestingOrders,
    incoming: &Order,
    terms: TimeInForce,
    cause: Cause,
    out: &mut Vec<Output>,
    reads: &mut Reads,
)
    requires can_match { CanMatch orders.old out.old reads.old }
    requires may_come_in { MayComeIn terms incoming.now orders.old }
    requires fresh { NoneNamed incoming.now.client incoming.now.cl_ord_id orders.old }
    ensures orders { orders.new ≡ matched terms incoming.now orders.old }
    ensures told { AddsOutputs (match_outputs cause terms incoming.now orders.old) out.old out.new }
    ensures standing { IsBookList orders.new }
    ensures below { (sequence : ℕ) → incoming.now.stamp < sequence → Below sequence orders.old
        → Below sequence orders.new }
    ensures reads { MatchReads terms incoming.now orders.old reads.old reads.new }
{
    match terms {
        TimeInForce::Day => {
            // (a copy, for speed: the fewer uses an order has, the better the compiler sees what else may change it)
            let order = *incoming;
            if orders.none_crossed(&order) {
                orders.push(&order);
            } else {
                trade_and_rest(orders, incoming, cause, out, reads);
            }
        }
        TimeInForce::ImmediateOrCancel => trade_and_cancel(orders, incoming, cause, out, reads),
        TimeInForce::FillOrKill => trade_or_cancel(orders, incoming, cause, out, reads),
    }
}

/// Canceled by its own terms.
fn canceled() -> ExecType
    ensures { result ≡ ExecType.Canceled None }
{
    ExecType::Canceled {
        orig_cl_ord_id: None,
    }
}

//! Why a request is refused: the first reason that holds.
ghost use Rattle.std.specs.Prelude.{◌≡◌, nat_le, Some, if◌then◌else◌};
ghost use Rattle.venue_model.specs.Requests.{cancel_fits, replace_fits, unfit};

use venue_model::{CxlRejReason, Order, OrderCancelReplaceRequest, OrderCancelRequest};

/// Why a cancel is refused, where this is the order that it names and this the client's greatest ClOrdID.
pub(crate) fn cancel_refusal(
    greatest: u64,
    cancel: &OrderCancelRequest,
    named: &Option<Order>,
) -> Option<CxlRejReason>
    ensures { result ≡ (if nat_le cancel.now.cl_ord_id greatest then Some CxlRejReason.DuplicateClOrdId
        else unfit (cancel_fits cancel.now) named.now) }
{
    if cancel.cl_ord_id <= greatest {
        return Some(CxlRejReason::DuplicateClOrdId);
    }
    match named {
        None => Some(CxlRejReason::UnknownOrder),
        Some(order) if cancel_fits(cancel, order) => None,
        Some(_) => Some(CxlRejReason::BrokerOption),
    }
}

/// Why a replace is refused, where this is the order that it names and this the client's greatest ClOrdID.
pub(crate) fn replace_refusal(
    greatest: u64,
    replace: &OrderCancelReplaceRequest,
    named: &Option<Order>,
) -> Option<CxlRejReason>
    ensures { result ≡ (if nat_le replace.now.cl_ord_id greatest then Some CxlRejReason.DuplicateClOrdId
        else unfit (replace_fits replace.now) named.now) }
{
    if replace.cl_ord_id <= greatest {
        return Some(CxlRejReason::DuplicateClOrdId);
    }
    match named {
        None => Some(CxlRejReason::UnknownOrder),
        Some(order) if replace_fits(replace, order) => None,
        Some(_) => Some(CxlRejReason::BrokerOption),
    }
}

/// A cancel fits an order of its symbol and side.
fn cancel_fits(request: &OrderCancelRequest, order: &Order) -> bool
    ensures { result ≡ cancel_fits request.now order.now }
{
    request.symbol.is(&order.symbol) && request.side.is(order.side)
}

/// A replace fits an order of its symbol and side that is to stay a day order with something left.
fn replace_fits(request: &OrderCancelReplaceRequest, order: &Order) -> bool
    ensures { result ≡ replace_fits request.now order.now }
{
    request.symbol.is(&order.symbol)
        && request.side.is(order.side)
        && request.time_in_force.rests()
        && order.cum < request.quantity
}

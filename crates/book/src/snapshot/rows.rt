//! The rows of a snapshot, one behind the other.
ghost use Rattle.std.specs.Prelude.{◌≡◌, ◌≢◌, ◌*◌, ◌↔◌, [], false, IsTrue, IfSome, IfNone, length};
ghost use Rattle.venue_model.specs.declared.orders.Order.{Order};
ghost use Rattle.venue_model.specs.Spelling.{AreSymbols};
ghost use Rattle.book.specs.Next.{comes_behind};
ghost use Rattle.book.specs.Rows.{row_of};
ghost use Rattle.book.specs.Snapshots.{CountsFit};
ghost use Rattle.book.specs.Spelled.{CanCome, Restores, SpellsNone};
ghost use Rattle.book.specs.Standing.{NoneNamed};

use crate::listing::comes_before;
use crate::resting::RestingOrders;
use crate::snapshot::head::Head;
use crate::snapshot::ranges::has_ranges;
use crate::snapshot::row::Row;
use price_levels::ReadCounter;
use venue_model::{Order, Symbol};

/// Puts the orders of these rows in, where none rests yet. False where the rows spell no orders that could be listed;
/// what rests then is of no matter.
pub(crate) fn put_rows(
    bytes: &[u8],
    head: &Head,
    symbols: &[Symbol],
    orders: &mut RestingOrders,
    counter: &ReadCounter,
) -> bool
    requires rows { length bytes.now ≡ 47 * head.now.resting }
    requires counts { CountsFit head.now.commands head.now.outputs head.now.resting }
    requires table { AreSymbols symbols.now }
    requires empty { orders.old ≡ [] }
    ensures restored { IsTrue result → Restores symbols.now head.now.greatest head.now.commands bytes.now orders.new }
    ensures none { result ≡ false → SpellsNone symbols.now head.now.greatest head.now.commands bytes.now }
{
    let mut rest = bytes;
    let mut last = None;
    for _ in 0..head.resting {
        let (row, behind) = rest.split_at(47);
        let Some(order) = next_order(&Row::read(row), head, symbols, &last, orders, counter) else {
            return false;
        };
        orders.insert(&order);
        last = Some(order);
        rest = behind;
    }
    true
}

/// The order of the next row, if it can be listed behind the last one, and its client has none under its name yet.
fn next_order(
    row: &Row,
    head: &Head,
    symbols: &[Symbol],
    last: &Option<Order>,
    orders: &RestingOrders,
    counter: &ReadCounter,
) -> Option<Order>
    requires { AreSymbols symbols.now }
    ensures row { IfSome result (λ o. row_of symbols.now o ≡ row.now) }
    ensures can { IfSome result (CanCome symbols.now head.now.greatest head.now.commands last.now orders.now) }
    ensures none { IfNone result ((o : Order) →
        CanCome symbols.now head.now.greatest head.now.commands last.now orders.now o → row_of symbols.now o ≢ row.now) }
{
    let order = row.order(symbols)?;
    if has_ranges(&order, &head.greatest, head.commands)
        && comes_behind(symbols, last, &order)
        && is_new(orders, &order, counter)
    {
        Some(order)
    } else {
        None
    }
}

/// Whether an order is listed behind the last one, if there is one.
fn comes_behind(symbols: &[Symbol], last: &Option<Order>, order: &Order) -> bool
    requires { AreSymbols symbols.now }
    ensures { result ≡ comes_behind symbols.now last.now order.now }
{
    match last {
        None => true,
        Some(last) => comes_before(symbols, last, order),
    }
}

/// Whether its client has no resting order under its name.
fn is_new(orders: &RestingOrders, order: &Order, counter: &ReadCounter) -> bool
    ensures { IsTrue result ↔ NoneNamed order.now.client order.now.cl_ord_id orders.now }
{
    orders
        .named(order.client, order.cl_ord_id, &mut counter.begin())
        .is_none()
}

//! Whether the numbers of an order are in range.
ghost use Rattle.std.specs.Prelude.{◌≡◌, ◌≤◌, ◌<◌, ◌*◌, ◌-◌, ◌↔◌, true, false, IsTrue, slice_index};
ghost use Rattle.std.specs.List.{list_any};
ghost use Rattle.std.specs.Str.{bytes_eq};
ghost use Rattle.venue_model.specs.Requests.{Symbols};
ghost use Rattle.venue_model.specs.Step.{IsName, IsAmount};
ghost use Rattle.book.specs.Snapshots.{HasRanges};

use venue_model::{HIGHEST_PRICE, MOST_GATEWAYS, Order};

/// The highest ClOrdID; the lowest is 1.
pub(crate) const HIGHEST_NAME: u64 = 999_999_999_999_999;

/// The largest quantity; the smallest is 1.
const LARGEST_QUANTITY: u64 = 1_000_000;

/// Whether the numbers of an order are in range behind so many commands, for a venue with these greatest ClOrdIDs. Its
/// symbol and its type aren't looked at.
pub(crate) fn has_ranges(order: &Order, greatest: &[u64; MOST_GATEWAYS], commands: u64) -> bool
    ensures yes { IsTrue result → (symbols : Symbols) → list_any (bytes_eq order.now.symbol) symbols ≡ true
        → order.now.is_market ≡ false → HasRanges symbols greatest.now commands order.now }
    ensures no { result ≡ false → (symbols : Symbols) → HasRanges symbols greatest.now commands order.now → ⊥ }
{
    has_name(order, greatest) && has_place(order, commands) && has_amounts(order)
}

/// Whether its client is one of the eight, and its ClOrdID one that this client has had accepted.
fn has_name(order: &Order, greatest: &[u64; MOST_GATEWAYS]) -> bool
    ensures { IsTrue result ↔ ((1 ≤ order.now.client) × (order.now.client ≤ 8) × IsName order.now.cl_ord_id
        × (order.now.cl_ord_id ≤ slice_index greatest.now (order.now.client - 1))) }
{
    1 <= order.client
        && order.client as usize <= MOST_GATEWAYS
        && 1 <= order.cl_ord_id
        && order.cl_ord_id <= HIGHEST_NAME
        && order.cl_ord_id <= greatest[order.client as usize - 1]
}

/// Whether one of so many commands made it, and one of them put it where it stands.
fn has_place(order: &Order, commands: u64) -> bool
    ensures { IsTrue result ↔ ((1 ≤ order.now.id) × (order.now.id ≤ commands) × (order.now.stamp < commands)) }
{
    1 <= order.id && order.id <= commands && order.stamp < commands
}

/// Whether price and total are amounts, and what was filled is less than the total, for no more than the highest price.
fn has_amounts(order: &Order) -> bool
    ensures { IsTrue result ↔ (IsAmount order.now.price × IsAmount order.now.total × (order.now.cum < order.now.total)
        × (order.now.notional ≤ order.now.cum * 1000000)) }
{
    1 <= order.price
        && order.price <= HIGHEST_PRICE
        && 1 <= order.total
        && order.total <= LARGEST_QUANTITY
        && order.cum < order.total
        && order.notional <= order.cum * HIGHEST_PRICE
}

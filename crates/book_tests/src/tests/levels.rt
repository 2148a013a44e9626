//! Levels with room for two orders: both come, are found by price and time, are read, and one leaves.
ghost use Rattle.std.specs.Prelude.{◌≡◌, ◌≢◌, ◌<◌, ◌≤◌, None, get_or, replicate, IfSome};

use crate::tests::asking::abc;
use price_levels::{Levels, Place, ReadCounter};
use std::alloc::{AllocError, Global};
use std::test::Fail;
use venue_model::{Order, Side, Symbol};

/// A buy of 10 at 50, made and put in its place by the command at this sequence.
fn buy(symbol: Symbol, sequence: u64) -> Order
    ensures stamp { result.stamp ≡ sequence }
    ensures total { result.total ≡ 10 }
{
    Order {
        id: sequence.wrapping_add(1),
        client: 1,
        cl_ord_id: sequence.wrapping_add(1),
        symbol,
        side: Side::Buy,
        is_market: false,
        price: 50,
        total: 10,
        cum: 0,
        notional: 0,
        stamp: sequence,
    }
}

/// Full levels: an earlier order, and a later one, and their places.
#[derive(Drop)]
struct Full {
    levels: Levels,
    counter: ReadCounter,
    earlier: Place,
    later: Place,
}

/// Two orders come, the later one behind the other.
fn come(levels: &mut Levels, earlier: Order, later: Order) -> (Place, Place)
    requires free { levels.old ≡ replicate 2 None }
    requires stamps { earlier.stamp < later.stamp }
    requires quantity { earlier.total ≤ 1000000 }
    requires its_quantity { later.total ≤ 1000000 }
{
    let first = levels.push_back(earlier);
    let second = levels.push_back(later);
    (first, second)
}

/// Levels with room for two orders, into which both come.
fn full_levels(alloc: Global, symbol: Symbol) -> Result<Full, AllocError> {
    let (mut levels, counter) = Levels::new(alloc, &[symbol], 2)?;
    let (earlier, later) = come(&mut levels, buy(symbol, 0), buy(symbol, 1));
    Ok(Full {
        levels,
        counter,
        earlier,
        later,
    })
}

/// The places of the best buy, and of the next one behind it.
fn first_two(levels: &Levels, symbol: &Symbol) -> Option<(Place, Place)>
    ensures first { IfSome result (λ two. get_or levels.now two.0.number None ≢ None) }
    ensures second { IfSome result (λ two. get_or levels.now two.1.number None ≢ None) }
{
    let first = levels.best(symbol, Side::Buy)?;
    let second = levels.after(first)?;
    Some((first, second))
}

/// Whether both are found by price and time, none behind them, and none on the other side.
fn are_found(full: &Full, symbol: &Symbol) -> bool {
    let Some((first, second)) = first_two(&full.levels, symbol) else {
        return false;
    };
    first == full.earlier && second == full.later && is_last(&full.levels, symbol, second)
}

fn is_last(levels: &Levels, symbol: &Symbol, place: Place) -> bool
    requires { get_or levels.now place.number None ≢ None }
{
    levels.after(place).is_none() && levels.best(symbol, Side::Sell).is_none()
}

/// Whether the later order is read, and its read is counted.
fn later_is_read(full: &Full, symbol: &Symbol) -> bool {
    let Some((_, second)) = first_two(&full.levels, symbol) else {
        return false;
    };
    let mut reads = full.counter.begin();
    full.levels.get(second, &mut reads).id == 2 && reads.count() == 1
}

/// Whether the earlier order leaves, and the later one is the best then.
fn earlier_leaves(full: &mut Full, symbol: &Symbol) -> bool {
    let Some((first, second)) = first_two(&full.levels, symbol) else {
        return false;
    };
    full.levels.unlink(first).id == 1 && full.levels.best(symbol, Side::Buy) == Some(second)
}

#[test]
fn two_orders_in_levels(rt: HostRuntime) -> Result<(), Fail> {
    let symbol = abc()?;
    let mut full = full_levels(rt.alloc(), symbol)?;
    assert!(rt; are_found(&full, &symbol));
    assert_eq!(rt; full.levels.crossing_total(&symbol, Side::Sell, 50), 20);
    assert!(rt; later_is_read(&full, &symbol));
    assert!(rt; earlier_leaves(&mut full, &symbol));
    Ok(())
}

//! Limits, and the book that has just been made: what each call answers.

use crate::tests::asking::{abc, abc_book, limits, names_of};
use book::{Book, RestoreFault};
use std::alloc::Global;
use std::test::Fail;
use venue_model::{Limits, LimitsFault, Order, Side, Symbol};

/// Why these are no symbols of a venue, if they are none.
fn fault_of(alloc: Global, symbols: &[&str]) -> Result<Option<LimitsFault>, Fail> {
    let names = names_of(alloc, symbols)?;
    Ok(Limits::new(alloc, &names).err())
}

#[test]
fn symbols_refused(rt: HostRuntime) -> Result<(), Fail> {
    let refused: [&[&str]; 6] = [
        &[],
        &["A", "B", "C", "D", "E", "F", "G", "H", "I"],
        &["ABC", "X", "ABC"],
        &["abc"],
        &["ABCDEFGHI"],
        &[""],
    ];
    for symbols in refused {
        assert!(rt; fault_of(rt.alloc(), symbols)? == Some(LimitsFault::BadSymbol));
    }
    assert!(rt; fault_of(rt.alloc(), &["A", "B", "C", "D", "E", "F", "G", "ABCDEFGH"])?.is_none());
    Ok(())
}

/// Whether the symbols have these names, one for each.
fn are_named(symbols: &[Symbol], names: &[&[u8]]) -> bool {
    symbols.len() == names.len()
        && symbols
            .iter()
            .zip(names)
            .all(|(symbol, name)| symbol.as_bytes() == *name)
}

#[test]
fn symbols_in_order(rt: HostRuntime) -> Result<(), Fail> {
    let limits = limits(rt.alloc(), &["X1", "ABC", "ABD"])?;
    let names: [&[u8]; 3] = [b"X1", b"ABC", b"ABD"];
    assert!(rt; are_named(limits.symbols(), &names));
    assert_eq!(rt; limits.cut(), 0);
    Ok(())
}

#[test]
fn symbols_known(rt: HostRuntime) -> Result<(), Fail> {
    let symbol = abc()?;
    let other = Symbol::new(b"AB").ok_or("no symbol")?;
    let limits = limits(rt.alloc(), &["X1", "ABC"])?;
    assert!(rt; limits.has(&symbol));
    assert!(rt; !limits.has(&other));
    Ok(())
}

#[test]
fn empty_book(rt: HostRuntime) -> Result<(), Fail> {
    let book = abc_book(rt.alloc())?;
    assert!(rt; is_empty(&book));
    Ok(())
}

fn is_empty(book: &Book) -> bool {
    book.resting() == 0 && book.reads() == 0 && book.after(None).is_none()
}

#[test]
fn numbers_of_refusals(rt: HostRuntime) {
    assert_eq!(rt; LimitsFault::BadSymbol.number(), 11);
    assert_eq!(rt; LimitsFault::Memory.number(), 12);
    assert_eq!(rt; RestoreFault::BadSnapshot.number(), 61);
    assert_eq!(rt; RestoreFault::Memory.number(), 62);
}

/// An order of 10 at this price.
fn order(side: Side, price: u64, symbol: Symbol) -> Order {
    Order {
        id: 1,
        client: 1,
        cl_ord_id: 1,
        symbol,
        side,
        is_market: false,
        price,
        total: 10,
        cum: 0,
        notional: 0,
        stamp: 0,
    }
}

#[test]
fn orders_that_cross(rt: HostRuntime) -> Result<(), Fail> {
    let other = Symbol::new(b"X1").ok_or("no symbol")?;
    let abc = abc()?;
    let bid = order(Side::Buy, 50, abc);
    assert!(rt; bid.crosses(&order(Side::Sell, 50, abc)));
    assert!(rt; !bid.crosses(&order(Side::Sell, 51, abc)));
    assert!(rt; !bid.crosses(&order(Side::Buy, 50, abc)));
    assert!(rt; !bid.crosses(&order(Side::Sell, 50, other)));
    Ok(())
}

//! A book that a snapshot spells: it lists the same orders, and goes on as the one that it was taken of.
ghost use Rattle.std.specs.Prelude.{IfOk, OnOk};
ghost use Rattle.book.specs.Standing.{Below};

use crate::tests::asking::{
    Ask, Kind, abc, abc_book, ask, command_of, limits, room_for_told, told,
};
use crate::tests::two_books::are_same;
use Kind::{Cancel, Day, ImmediateOrCancel, Replace};
use Side::{Buy, Sell};
use book::{Book, BookLogic, RestoreFault, Restored};
use std::alloc::Global;
use std::test::Fail;
use venue_model::{Limits, Order, Side};

/// A day behind which three orders rest, one of them filled in part, and C3 has a greatest ClOrdID and none.
const DAY: [Ask; 7] = [
    (1, Day, Buy, 10, 50, 1),
    (2, Day, Buy, 10, 50, 1),
    (2, Day, Sell, 5, 60, 2),
    (3, Day, Sell, 7, 61, 3),
    (4, ImmediateOrCancel, Sell, 4, 50, 1),
    (3, Cancel(3), Sell, 7, 61, 4),
    (2, Replace(2), Sell, 6, 62, 3),
];

/// How many bytes the snapshot of three orders has.
const LONG: usize = 82 + 3 * 47;

/// The last byte of the second order's stamp, which is to be below the 7 commands.
const SECOND_STAMP: usize = LONG - 48;

/// An order that trades with all that rest, by price and time.
const SALE: Ask = (5, Day, Sell, 100, 1, 1);

/// The snapshot of the day's book.
fn snapshot_of(alloc: Global, book: &Book, outputs: usize) -> Result<Vec<u8>, Fail> {
    let mut bytes = vec![in alloc; 0_u8; LONG]?;
    if put_snapshot(book, outputs, &mut bytes) {
        Ok(bytes)
    } else {
        Err(Fail::from("other orders"))
    }
}

/// Writes the snapshot of the day's book into a buffer of its length. Answers whether three orders rest there.
fn put_snapshot(book: &Book, outputs: usize, bytes: &mut [u8]) -> bool {
    if book.resting() != 3 || bytes.len() != LONG {
        return false;
    }
    let _ = book.snapshot(7, outputs as u64, bytes);
    true
}

/// Whether both are the same order.
fn is_same(one: &Order, other: &Order) -> bool {
    has_same_names(one, other) && has_same_terms(one, other) && has_same_fills(one, other)
}

fn has_same_names(one: &Order, other: &Order) -> bool {
    one.id == other.id
        && one.client == other.client
        && one.cl_ord_id == other.cl_ord_id
        && one.stamp == other.stamp
}

fn has_same_terms(one: &Order, other: &Order) -> bool {
    one.symbol.is(&other.symbol)
        && one.side == other.side
        && one.is_market == other.is_market
        && one.price == other.price
}

fn has_same_fills(one: &Order, other: &Order) -> bool {
    one.total == other.total && one.cum == other.cum && one.notional == other.notional
}

/// The order that a book lists next behind this one, or first.
fn next(book: &Book, from: &Option<Order>) -> Option<Order> {
    book.after(*from)
}

/// The order that both books list next behind this one, or first, where it is the same.
fn listed_by_both(book: &Book, other: &Book, from: Option<Order>) -> Option<Order> {
    let order = next(book, &from)?;
    let its_order = next(other, &from)?;
    if is_same(&order, &its_order) {
        Some(order)
    } else {
        None
    }
}

/// Whether both books list the same orders.
fn list_the_same(book: &Book, other: &Book) -> bool {
    if book.resting() != other.resting() {
        return false;
    }
    let mut from = None;
    for _ in 0..book.resting() {
        let Some(order) = listed_by_both(book, other, from) else {
            return false;
        };
        from = Some(order);
    }
    true
}

/// The book behind the day, how many outputs it told, and its snapshot.
#[derive(Drop)]
struct Evening {
    book: Book,
    outputs: usize,
    bytes: Vec<u8>,
}

fn end_of_day(alloc: Global) -> Result<Evening, Fail>
    ensures { IfOk result (λ e. Below 7 e.book.state.orders) }
{
    let mut book = abc_book(alloc)?;
    let outputs = count_told(alloc, &mut book)?;
    let bytes = snapshot_of(alloc, &book, outputs)?;
    Ok(Evening {
        book,
        outputs,
        bytes,
    })
}

/// Asks the empty book the day's requests, and counts the outputs that it tells.
fn count_told(alloc: Global, book: &mut Book) -> Result<usize, Fail>
    requires { Below 0 book.old.state.orders }
    ensures { OnOk result (Below 7 book.new.state.orders) }
{
    let out = told(alloc, book, &DAY)?;
    Ok(out.len())
}

/// The book that a snapshot spells.
fn restored_of(alloc: Global, bytes: &[u8]) -> Result<Book, Fail> {
    let limits = limits(alloc, &["ABC"])?;
    match restored_with(alloc, bytes, &limits) {
        Some(book) => Ok(book),
        None => Err(Fail::from("not restored")),
    }
}

fn restored_with(alloc: Global, bytes: &[u8], limits: &Limits) -> Option<Book> {
    Book::restore(alloc, bytes, limits).ok()
}

/// Whether the snapshot of a book has these bytes.
fn has_snapshot(alloc: Global, book: &Book, outputs: usize, bytes: &[u8]) -> Result<bool, Fail> {
    let its_bytes = snapshot_of(alloc, book, outputs)?;
    Ok(&its_bytes[..] == bytes)
}

#[test]
fn restored_lists_the_same(rt: HostRuntime) -> Result<(), Fail> {
    let evening = end_of_day(rt.alloc())?;
    let restored = restored_of(rt.alloc(), &evening.bytes)?;
    assert!(rt; list_the_same(&evening.book, &restored));
    assert_eq!(rt; restored.reads(), 0);
    assert!(rt; has_snapshot(rt.alloc(), &restored, evening.outputs, &evening.bytes)?);
    Ok(())
}

/// Whether both books tell the same of this request at this sequence.
fn tell_the_same(
    alloc: Global,
    book: &mut Book,
    other: &mut Book,
    sequence: u64,
    request: &Ask,
) -> Result<bool, Fail>
    requires book { Below sequence book.old.state.orders }
    requires other { Below sequence other.old.state.orders }
{
    let command = command_of(abc()?, request);
    let mut out = room_for_told(alloc)?;
    let mut its_out = room_for_told(alloc)?;
    ask(book, sequence, request.0, &command, &mut out)?;
    ask(other, sequence, request.0, &command, &mut its_out)?;
    Ok(are_same(&out, &its_out))
}

/// The book that a snapshot spells, where the counts behind it are those of the day.
fn restored_behind(alloc: Global, evening: &Evening) -> Result<Book, Fail>
    ensures { IfOk result (λ b. Below 7 b.state.orders) }
{
    let logic = abc_logic(alloc)?;
    let restored = Restored::of(alloc, &evening.bytes, logic)?;
    if restored.commands == 7 && restored.outputs == evening.outputs as u64 {
        Ok(restored.book)
    } else {
        Err(Fail::from("other counts"))
    }
}

/// The logic of a venue that trades ABC alone.
fn abc_logic(alloc: Global) -> Result<BookLogic, Fail> {
    let limits = limits(alloc, &["ABC"])?;
    Ok(BookLogic::of(&limits))
}

#[test]
fn restored_goes_on(rt: HostRuntime) -> Result<(), Fail> {
    let mut evening = end_of_day(rt.alloc())?;
    let mut restored = restored_behind(rt.alloc(), &evening)?;
    assert!(rt; tell_the_same(rt.alloc(), &mut evening.book, &mut restored, 7, &SALE)?);
    assert!(rt; list_the_same(&evening.book, &restored));
    Ok(())
}

/// Whether the bytes are refused as no snapshot.
fn are_refused(alloc: Global, bytes: &[u8]) -> Result<bool, Fail> {
    let limits = limits(alloc, &["ABC"])?;
    Ok(is_no_snapshot(alloc, bytes, &limits))
}

fn is_no_snapshot(alloc: Global, bytes: &[u8], limits: &Limits) -> bool {
    match Book::restore(alloc, bytes, limits) {
        Ok(_) => false,
        Err(fault) => fault == RestoreFault::BadSnapshot,
    }
}

/// Whether the bytes are refused without the last one.
fn are_refused_short(alloc: Global, bytes: &[u8]) -> Result<bool, Fail> {
    match bytes.split_last() {
        Some((_, front)) => are_refused(alloc, front),
        None => Ok(false),
    }
}

/// Whether the bytes are refused where this one of them is 7.
fn are_refused_with_seven(alloc: Global, bytes: &mut [u8], place: usize) -> Result<bool, Fail> {
    if let Some(byte) = bytes.get_mut(place) {
        *byte = 7;
    }
    are_refused(alloc, bytes)
}

#[test]
fn bad_snapshot(rt: HostRuntime) -> Result<(), Fail> {
    let mut evening = end_of_day(rt.alloc())?;
    assert!(rt; !are_refused(rt.alloc(), &evening.bytes)?);
    assert!(rt; are_refused_short(rt.alloc(), &evening.bytes)?);
    assert!(rt; are_refused_with_seven(rt.alloc(), &mut evening.bytes, SECOND_STAMP)?);
    Ok(())
}

//! Worked days of limit orders: requests, and all reports that come of them.
ghost use Rattle.std.specs.Prelude.{◌+◌, IfOk, OnOk};
ghost use Rattle.book.specs.Standing.{Below};

use crate::tests::asking::{
    Ask, Kind, Told, abc, abc_book, are_told, ask, command_of, room_for_told, told,
};
use Kind::{Cancel, Day, FillOrKill, ImmediateOrCancel, Replace};
use Side::{Buy, Sell};
use book::Book;
use std::alloc::Global;
use std::test::Fail;
use venue_model::{MOST_RESTING, Output, Side, Symbol};

/// A day's requests, and what is told of them.
#[derive(Clone, Copy)]
pub struct Row {
    pub asks: &'static [Ask],
    pub reports: &'static [Told],
}

const FIRST_TRADE: Row = Row {
    asks: &[(1, Day, Buy, 100, 50, 1), (2, Day, Sell, 30, 50, 1)],
    reports: &[
        (
            1,
            b"37=1|17=1|150=0|39=0|11=1|55=ABC|54=1|38=100|44=50|151=100|14=0|6=0|",
        ),
        (
            2,
            b"37=2|17=2|150=0|39=0|11=1|55=ABC|54=2|38=30|44=50|151=30|14=0|6=0|",
        ),
        (
            1,
            b"37=1|17=3|150=F|39=1|11=1|55=ABC|54=1|38=100|44=50|32=30|31=50|151=70|14=30|6=50|",
        ),
        (
            2,
            b"37=2|17=4|150=F|39=2|11=1|55=ABC|54=2|38=30|44=50|32=30|31=50|151=0|14=30|6=50|",
        ),
    ],
};

const TIME_PRIORITY: Row = Row {
    asks: &[
        (1, Day, Buy, 10, 50, 1),
        (2, Day, Buy, 10, 50, 1),
        (3, Day, Sell, 15, 50, 1),
    ],
    reports: &[
        (
            1,
            b"37=1|17=1|150=0|39=0|11=1|55=ABC|54=1|38=10|44=50|151=10|14=0|6=0|",
        ),
        (
            2,
            b"37=2|17=2|150=0|39=0|11=1|55=ABC|54=1|38=10|44=50|151=10|14=0|6=0|",
        ),
        (
            3,
            b"37=3|17=3|150=0|39=0|11=1|55=ABC|54=2|38=15|44=50|151=15|14=0|6=0|",
        ),
        (
            1,
            b"37=1|17=4|150=F|39=2|11=1|55=ABC|54=1|38=10|44=50|32=10|31=50|151=0|14=10|6=50|",
        ),
        (
            3,
            b"37=3|17=5|150=F|39=1|11=1|55=ABC|54=2|38=15|44=50|32=10|31=50|151=5|14=10|6=50|",
        ),
        (
            2,
            b"37=2|17=6|150=F|39=1|11=1|55=ABC|54=1|38=10|44=50|32=5|31=50|151=5|14=5|6=50|",
        ),
        (
            3,
            b"37=3|17=7|150=F|39=2|11=1|55=ABC|54=2|38=15|44=50|32=5|31=50|151=0|14=15|6=50|",
        ),
    ],
};

/// 25 at 50 and 15 at 51 are 2,015 for 40, so 50 each.
const SWEEP_TWO_LEVELS: Row = Row {
    asks: &[
        (1, Day, Sell, 25, 50, 1),
        (1, Day, Sell, 15, 51, 2),
        (2, ImmediateOrCancel, Buy, 100, 51, 1),
    ],
    reports: &[
        (
            1,
            b"37=1|17=1|150=0|39=0|11=1|55=ABC|54=2|38=25|44=50|151=25|14=0|6=0|",
        ),
        (
            1,
            b"37=2|17=2|150=0|39=0|11=2|55=ABC|54=2|38=15|44=51|151=15|14=0|6=0|",
        ),
        (
            2,
            b"37=3|17=3|150=0|39=0|11=1|55=ABC|54=1|38=100|44=51|151=100|14=0|6=0|",
        ),
        (
            1,
            b"37=1|17=4|150=F|39=2|11=1|55=ABC|54=2|38=25|44=50|32=25|31=50|151=0|14=25|6=50|",
        ),
        (
            2,
            b"37=3|17=5|150=F|39=1|11=1|55=ABC|54=1|38=100|44=51|32=25|31=50|151=75|14=25|6=50|",
        ),
        (
            1,
            b"37=2|17=6|150=F|39=2|11=2|55=ABC|54=2|38=15|44=51|32=15|31=51|151=0|14=15|6=51|",
        ),
        (
            2,
            b"37=3|17=7|150=F|39=1|11=1|55=ABC|54=1|38=100|44=51|32=15|31=51|151=60|14=40|6=50|",
        ),
        (
            2,
            b"37=3|17=8|150=4|39=4|11=1|55=ABC|54=1|38=100|44=51|151=0|14=40|6=50|",
        ),
    ],
};

const FILL_OR_KILL: Row = Row {
    asks: &[
        (1, Day, Sell, 99, 50, 1),
        (2, FillOrKill, Buy, 100, 50, 1),
        (1, Day, Sell, 1, 50, 2),
        (2, FillOrKill, Buy, 100, 50, 2),
    ],
    reports: &[
        (
            1,
            b"37=1|17=1|150=0|39=0|11=1|55=ABC|54=2|38=99|44=50|151=99|14=0|6=0|",
        ),
        (
            2,
            b"37=2|17=2|150=0|39=0|11=1|55=ABC|54=1|38=100|44=50|151=100|14=0|6=0|",
        ),
        (
            2,
            b"37=2|17=3|150=4|39=4|11=1|55=ABC|54=1|38=100|44=50|151=0|14=0|6=0|",
        ),
        (
            1,
            b"37=3|17=4|150=0|39=0|11=2|55=ABC|54=2|38=1|44=50|151=1|14=0|6=0|",
        ),
        (
            2,
            b"37=4|17=5|150=0|39=0|11=2|55=ABC|54=1|38=100|44=50|151=100|14=0|6=0|",
        ),
        (
            1,
            b"37=1|17=6|150=F|39=2|11=1|55=ABC|54=2|38=99|44=50|32=99|31=50|151=0|14=99|6=50|",
        ),
        (
            2,
            b"37=4|17=7|150=F|39=1|11=2|55=ABC|54=1|38=100|44=50|32=99|31=50|151=1|14=99|6=50|",
        ),
        (
            1,
            b"37=3|17=8|150=F|39=2|11=2|55=ABC|54=2|38=1|44=50|32=1|31=50|151=0|14=1|6=50|",
        ),
        (
            2,
            b"37=4|17=9|150=F|39=2|11=2|55=ABC|54=1|38=100|44=50|32=1|31=50|151=0|14=100|6=50|",
        ),
    ],
};

const REPLACE_KEEPS_PLACE: Row = Row {
    asks: &[
        (1, Day, Buy, 10, 50, 1),
        (2, Day, Buy, 10, 50, 1),
        (1, Replace(1), Buy, 8, 50, 2),
        (3, Day, Sell, 8, 50, 1),
    ],
    reports: &[
        (
            1,
            b"37=1|17=1|150=0|39=0|11=1|55=ABC|54=1|38=10|44=50|151=10|14=0|6=0|",
        ),
        (
            2,
            b"37=2|17=2|150=0|39=0|11=1|55=ABC|54=1|38=10|44=50|151=10|14=0|6=0|",
        ),
        (
            1,
            b"37=1|17=3|150=5|39=0|11=2|41=1|55=ABC|54=1|38=8|44=50|151=8|14=0|6=0|",
        ),
        (
            3,
            b"37=4|17=4|150=0|39=0|11=1|55=ABC|54=2|38=8|44=50|151=8|14=0|6=0|",
        ),
        (
            1,
            b"37=1|17=5|150=F|39=2|11=2|55=ABC|54=1|38=8|44=50|32=8|31=50|151=0|14=8|6=50|",
        ),
        (
            3,
            b"37=4|17=6|150=F|39=2|11=1|55=ABC|54=2|38=8|44=50|32=8|31=50|151=0|14=8|6=50|",
        ),
    ],
};

const REPLACE_LOSES_PLACE: Row = Row {
    asks: &[
        (1, Day, Buy, 10, 50, 1),
        (2, Day, Buy, 10, 50, 1),
        (1, Replace(1), Buy, 12, 50, 2),
        (3, Day, Sell, 8, 50, 1),
    ],
    reports: &[
        (
            1,
            b"37=1|17=1|150=0|39=0|11=1|55=ABC|54=1|38=10|44=50|151=10|14=0|6=0|",
        ),
        (
            2,
            b"37=2|17=2|150=0|39=0|11=1|55=ABC|54=1|38=10|44=50|151=10|14=0|6=0|",
        ),
        (
            1,
            b"37=1|17=3|150=5|39=0|11=2|41=1|55=ABC|54=1|38=12|44=50|151=12|14=0|6=0|",
        ),
        (
            3,
            b"37=4|17=4|150=0|39=0|11=1|55=ABC|54=2|38=8|44=50|151=8|14=0|6=0|",
        ),
        (
            2,
            b"37=2|17=5|150=F|39=1|11=1|55=ABC|54=1|38=10|44=50|32=8|31=50|151=2|14=8|6=50|",
        ),
        (
            3,
            b"37=4|17=6|150=F|39=2|11=1|55=ABC|54=2|38=8|44=50|32=8|31=50|151=0|14=8|6=50|",
        ),
    ],
};

const REPLACE_CROSSES: Row = Row {
    asks: &[
        (1, Day, Buy, 10, 50, 1),
        (2, Day, Sell, 4, 52, 1),
        (1, Replace(1), Buy, 10, 52, 2),
    ],
    reports: &[
        (
            1,
            b"37=1|17=1|150=0|39=0|11=1|55=ABC|54=1|38=10|44=50|151=10|14=0|6=0|",
        ),
        (
            2,
            b"37=2|17=2|150=0|39=0|11=1|55=ABC|54=2|38=4|44=52|151=4|14=0|6=0|",
        ),
        (
            1,
            b"37=1|17=3|150=5|39=0|11=2|41=1|55=ABC|54=1|38=10|44=52|151=10|14=0|6=0|",
        ),
        (
            2,
            b"37=2|17=4|150=F|39=2|11=1|55=ABC|54=2|38=4|44=52|32=4|31=52|151=0|14=4|6=52|",
        ),
        (
            1,
            b"37=1|17=5|150=F|39=1|11=2|55=ABC|54=1|38=10|44=52|32=4|31=52|151=6|14=4|6=52|",
        ),
    ],
};

/// Neither the replace nor the cancel of an order that was filled has an ExecID: the next report has 7.
const REPLACE_BELOW_FILLED: Row = Row {
    asks: &[
        (1, Day, Buy, 10, 50, 1),
        (2, Day, Sell, 4, 50, 1),
        (1, Replace(1), Buy, 4, 50, 2),
        (2, Cancel(1), Sell, 4, 50, 2),
        (3, Day, Buy, 1, 1, 1),
    ],
    reports: &[
        (
            1,
            b"37=1|17=1|150=0|39=0|11=1|55=ABC|54=1|38=10|44=50|151=10|14=0|6=0|",
        ),
        (
            2,
            b"37=2|17=2|150=0|39=0|11=1|55=ABC|54=2|38=4|44=50|151=4|14=0|6=0|",
        ),
        (
            1,
            b"37=1|17=3|150=F|39=1|11=1|55=ABC|54=1|38=10|44=50|32=4|31=50|151=6|14=4|6=50|",
        ),
        (
            2,
            b"37=2|17=4|150=F|39=2|11=1|55=ABC|54=2|38=4|44=50|32=4|31=50|151=0|14=4|6=50|",
        ),
        (1, b"37=1|11=2|41=1|39=1|434=2|102=2|"),
        (2, b"37=NONE|11=2|41=1|39=8|434=1|102=1|"),
        (
            3,
            b"37=5|17=7|150=0|39=0|11=1|55=ABC|54=1|38=1|44=1|151=1|14=0|6=0|",
        ),
    ],
};

const CLIENT_ORDER_IDS_RISE: Row = Row {
    asks: &[
        (1, Day, Buy, 10, 50, 5),
        (1, Day, Buy, 10, 50, 5),
        (1, Cancel(5), Buy, 10, 50, 4),
    ],
    reports: &[
        (
            1,
            b"37=1|17=1|150=0|39=0|11=5|55=ABC|54=1|38=10|44=50|151=10|14=0|6=0|",
        ),
        (
            1,
            b"37=2|17=2|150=8|39=8|11=5|55=ABC|54=1|38=10|44=50|151=0|14=0|6=0|103=6|",
        ),
        (1, b"37=1|11=4|41=5|39=0|434=1|102=6|"),
    ],
};

/// Of a full book: what is told of one more order, and of one that sells at once.
const BOOK_FULL: Row = Row {
    asks: &[
        (1, Day, Buy, 1, 1, 4097),
        (2, ImmediateOrCancel, Sell, 1, 1, 1),
    ],
    reports: &[
        (
            1,
            b"37=4097|17=4097|150=8|39=8|11=4097|55=ABC|54=1|38=1|44=1|151=0|14=0|6=0|103=0|58=book full|",
        ),
        (
            2,
            b"37=4098|17=4098|150=0|39=0|11=1|55=ABC|54=2|38=1|44=1|151=1|14=0|6=0|",
        ),
        (
            1,
            b"37=1|17=4099|150=F|39=2|11=1|55=ABC|54=1|38=1|44=1|32=1|31=1|151=0|14=1|6=1|",
        ),
        (
            2,
            b"37=4098|17=4100|150=F|39=2|11=1|55=ABC|54=2|38=1|44=1|32=1|31=1|151=0|14=1|6=1|",
        ),
    ],
};

/// Asks an empty book a row's requests, and compares all that it tells.
pub fn play(alloc: Global, row: &Row) -> Result<(), Fail> {
    let mut book = abc_book(alloc)?;
    let out = told(alloc, &mut book, row.asks)?;
    if are_told(&out, 0, row.reports) {
        Ok(())
    } else {
        Err(Fail::from("other reports"))
    }
}

#[test]
fn first_trade(rt: HostRuntime) -> Result<(), Fail> {
    play(rt.alloc(), &FIRST_TRADE)
}

#[test]
fn time_priority(rt: HostRuntime) -> Result<(), Fail> {
    play(rt.alloc(), &TIME_PRIORITY)
}

#[test]
fn sweep_two_levels(rt: HostRuntime) -> Result<(), Fail> {
    play(rt.alloc(), &SWEEP_TWO_LEVELS)
}

#[test]
fn fill_or_kill(rt: HostRuntime) -> Result<(), Fail> {
    play(rt.alloc(), &FILL_OR_KILL)
}

#[test]
fn replace_and_place_in_queue(rt: HostRuntime) -> Result<(), Fail> {
    play(rt.alloc(), &REPLACE_KEEPS_PLACE)?;
    play(rt.alloc(), &REPLACE_LOSES_PLACE)
}

#[test]
fn replace_crosses(rt: HostRuntime) -> Result<(), Fail> {
    play(rt.alloc(), &REPLACE_CROSSES)
}

#[test]
fn replace_below_filled(rt: HostRuntime) -> Result<(), Fail> {
    play(rt.alloc(), &REPLACE_BELOW_FILLED)
}

#[test]
fn client_order_ids_rise(rt: HostRuntime) -> Result<(), Fail> {
    play(rt.alloc(), &CLIENT_ORDER_IDS_RISE)
}

/// A book in which as many orders rest as can, each a buy of 1 at 1.
fn full_book(alloc: Global, out: &mut Vec<Output>) -> Result<Book, Fail>
    ensures { IfOk result (λ b. Below 4096 b.state.orders) }
{
    let symbol = abc()?;
    let mut book = abc_book(alloc)?;
    fill(&mut book, symbol, out)?;
    Ok(book)
}

/// Fills the empty book with buys of 1 at 1.
fn fill(book: &mut Book, symbol: Symbol, out: &mut Vec<Output>) -> Result<(), Fail>
    requires { Below 0 book.old.state.orders }
    ensures { OnOk result (Below 4096 book.new.state.orders) }
{
    for turn in 0..4_096_u64 {
        buy_one(book, symbol, turn, out)?;
    }
    Ok(())
}

/// Asks at this sequence for a buy of 1 at 1.
fn buy_one(
    book: &mut Book,
    symbol: Symbol,
    sequence: u64,
    out: &mut Vec<Output>,
) -> Result<(), Fail>
    requires { Below sequence book.old.state.orders }
    ensures { OnOk result (Below (sequence + 1) book.new.state.orders) }
{
    let buy = command_of(symbol, &(1, Day, Buy, 1, 1, sequence.wrapping_add(1)));
    ask(book, sequence, 1, &buy, out)
}

/// Asks the full book these requests. The first one reads no order, and the second one two at most.
fn reads_few(book: &mut Book, asks: &[Ask], out: &mut Vec<Output>) -> Result<bool, Fail>
    requires { Below 4096 book.old.state.orders }
{
    let symbol = abc()?;
    let [one_more, sale] = asks else {
        return Ok(false);
    };
    ask(book, 4_096, one_more.0, &command_of(symbol, one_more), out)?;
    let is_refused = book.reads() == 0 && are_told(out, 4_096, &BOOK_FULL.reports[..1]);
    ask(book, 4_097, sale.0, &command_of(symbol, sale), out)?;
    Ok(is_refused && book.reads() <= 2 && are_told(out, 4_097, &BOOK_FULL.reports[1..]))
}

#[test]
fn book_full(rt: HostRuntime) -> Result<(), Fail> {
    let mut out = room_for_told(rt.alloc())?;
    let mut book = full_book(rt.alloc(), &mut out)?;
    assert_eq!(rt; book.resting(), MOST_RESTING);
    assert!(rt; reads_few(&mut book, BOOK_FULL.asks, &mut out)?);
    assert_eq!(rt; book.resting(), MOST_RESTING - 1);
    Ok(())
}

//! Worked days of market orders, the messages of such orders that are rejected, and the cut from which on there are any.
ghost use Rattle.std.specs.Prelude.{◌+◌, OnOk};
ghost use Rattle.book.specs.Standing.{Below};

use crate::tests::asking::{Kind, Told, abc_book, are_told, ask, limits, room_for_told};
use crate::tests::worked_rows::{Row, play};
use Kind::{Day, FillOrKill};
use Side::{Buy, Sell};
use book::{Book, BookLogic};
use fix_orders::decode;
use std::alloc::{AllocError, Global};
use std::test::Fail;
use venue_model::{Command, Output, Side};

const MARKET_ORDER_ALONE: Row = Row {
    asks: &[(1, Day, Buy, 100, 0, 1)],
    reports: &[
        (
            1,
            b"37=1|17=1|150=0|39=0|11=1|55=ABC|54=1|38=100|151=100|14=0|6=0|",
        ),
        (
            1,
            b"37=1|17=2|150=4|39=4|11=1|55=ABC|54=1|38=100|151=0|14=0|6=0|",
        ),
    ],
};

const MARKET_ORDER_SWEEPS: Row = Row {
    asks: &[
        (1, Day, Sell, 5, 50, 1),
        (1, Day, Sell, 5, 60, 2),
        (2, Day, Buy, 12, 0, 1),
    ],
    reports: &[
        (
            1,
            b"37=1|17=1|150=0|39=0|11=1|55=ABC|54=2|38=5|44=50|151=5|14=0|6=0|",
        ),
        (
            1,
            b"37=2|17=2|150=0|39=0|11=2|55=ABC|54=2|38=5|44=60|151=5|14=0|6=0|",
        ),
        (
            2,
            b"37=3|17=3|150=0|39=0|11=1|55=ABC|54=1|38=12|151=12|14=0|6=0|",
        ),
        (
            1,
            b"37=1|17=4|150=F|39=2|11=1|55=ABC|54=2|38=5|44=50|32=5|31=50|151=0|14=5|6=50|",
        ),
        (
            2,
            b"37=3|17=5|150=F|39=1|11=1|55=ABC|54=1|38=12|32=5|31=50|151=7|14=5|6=50|",
        ),
        (
            1,
            b"37=2|17=6|150=F|39=2|11=2|55=ABC|54=2|38=5|44=60|32=5|31=60|151=0|14=5|6=60|",
        ),
        (
            2,
            b"37=3|17=7|150=F|39=1|11=1|55=ABC|54=1|38=12|32=5|31=60|151=2|14=10|6=55|",
        ),
        (
            2,
            b"37=3|17=8|150=4|39=4|11=1|55=ABC|54=1|38=12|151=0|14=10|6=55|",
        ),
    ],
};

const MARKET_ORDER_KILLED: Row = Row {
    asks: &[
        (1, Day, Sell, 5, 50, 1),
        (1, Day, Sell, 5, 60, 2),
        (2, FillOrKill, Buy, 12, 0, 1),
    ],
    reports: &[
        (
            1,
            b"37=1|17=1|150=0|39=0|11=1|55=ABC|54=2|38=5|44=50|151=5|14=0|6=0|",
        ),
        (
            1,
            b"37=2|17=2|150=0|39=0|11=2|55=ABC|54=2|38=5|44=60|151=5|14=0|6=0|",
        ),
        (
            2,
            b"37=3|17=3|150=0|39=0|11=1|55=ABC|54=1|38=12|151=12|14=0|6=0|",
        ),
        (
            2,
            b"37=3|17=4|150=4|39=4|11=1|55=ABC|54=1|38=12|151=0|14=0|6=0|",
        ),
    ],
};

/// C1 buys 100 by a market order.
const MARKET_ORDER: &[u8] =
    b"8=FIX.4.4|9=96|35=D|49=C1|56=VENUE|34=2|52=20250102-09:30:00|11=1|55=ABC|54=1|60=20250102-09:30:00|38=100|40=1|10=050|";

/// Messages that ask for a market order in a wrong way, and the body of the Reject that answers each.
const REJECTED: &[(&[u8], &[u8])] = &[
    (
        b"8=FIX.4.4|9=102|35=D|49=C1|56=VENUE|34=2|52=20250102-09:30:00|11=1|55=ABC|54=1|60=20250102-09:30:00|38=100|40=1|44=50|10=097|",
        b"45=2|371=44|372=D|373=2|",
    ),
    (
        b"8=FIX.4.4|9=89|35=D|49=C1|56=VENUE|34=2|52=20250102-09:30:00|11=1|55=ABC|54=1|60=20250102-09:30:00|40=1|10=250|",
        b"45=2|371=38|372=D|373=1|",
    ),
    (
        b"8=FIX.4.4|9=96|35=D|49=C1|56=VENUE|34=2|52=20250102-09:30:00|11=1|55=ABC|54=1|60=20250102-09:30:00|38=100|40=3|10=052|",
        b"45=2|371=44|372=D|373=1|",
    ),
    (
        b"8=FIX.4.4|9=107|35=G|49=C1|56=VENUE|34=2|52=20250102-09:30:00|11=2|41=1|55=ABC|54=1|60=20250102-09:30:00|38=100|40=1|44=50|10=062|",
        b"45=2|371=40|372=G|373=5|",
    ),
];

#[test]
fn market_order_alone(rt: HostRuntime) -> Result<(), Fail> {
    play(rt.alloc(), &MARKET_ORDER_ALONE)
}

#[test]
fn market_order_sweeps(rt: HostRuntime) -> Result<(), Fail> {
    play(rt.alloc(), &MARKET_ORDER_SWEEPS)
}

#[test]
fn market_order_killed(rt: HostRuntime) -> Result<(), Fail> {
    play(rt.alloc(), &MARKET_ORDER_KILLED)
}

/// The bytes of a message.
fn bytes_of(alloc: Global, text: &[u8]) -> Result<Vec<u8>, AllocError> {
    let mut bytes = Vec::with_capacity(alloc, text.len())?;
    for byte in text {
        bytes.push(if *byte == b'|' { 1 } else { *byte })?;
    }
    Ok(bytes)
}

/// Whether an empty book tells C1 this alone of a message.
fn is_answer(alloc: Global, text: &[u8], body: &'static [u8]) -> Result<bool, Fail> {
    let command = command_in(alloc, text)?;
    let mut book = abc_book(alloc)?;
    let mut out = room_for_told(alloc)?;
    tells(&mut book, 0, &command, &mut out, &[(1, body)])
}

/// The command of a message, whose market orders are read.
fn command_in(alloc: Global, text: &[u8]) -> Result<Command, AllocError> {
    let bytes = bytes_of(alloc, text)?;
    Ok(decode(&bytes, true))
}

/// Whether a book tells these reports of C1's command at this sequence, where each earlier one told one.
fn tells(
    book: &mut Book,
    sequence: u64,
    command: &Command,
    out: &mut Vec<Output>,
    reports: &[Told],
) -> Result<bool, Fail>
    requires { Below sequence book.old.state.orders }
    ensures { OnOk result (Below (sequence + 1) book.new.state.orders) }
{
    ask(book, sequence, 1, command, out)?;
    Ok(are_told(out, sequence, reports))
}

#[test]
fn market_orders_rejected(rt: HostRuntime) -> Result<(), Fail> {
    for (text, body) in REJECTED {
        assert!(rt; is_answer(rt.alloc(), text, body)?);
    }
    Ok(())
}

/// What a book tells C1 of the market order at the first sequence, below the cut.
const BELOW_THE_CUT: &[Told] = &[(1, b"45=2|371=44|372=D|373=1|")];

/// What it tells of the same order at the next one, from which on market orders are read.
const FROM_THE_CUT_ON: &[Told] = &[
    (
        1,
        b"37=2|17=2|150=0|39=0|11=1|55=ABC|54=1|38=100|151=100|14=0|6=0|",
    ),
    (
        1,
        b"37=2|17=3|150=4|39=4|11=1|55=ABC|54=1|38=100|151=0|14=0|6=0|",
    ),
];

/// Whether an entry's command is a new order.
fn is_new(command: &Command) -> bool {
    matches!(command, Command::New { .. })
}

/// Whether the book of a logic tells these reports of the market order, which it reads twice.
fn reads_twice(alloc: Global, logic: &BookLogic, bytes: &[u8]) -> Result<bool, Fail> {
    let mut book = Book::of(alloc, *logic)?;
    let mut out = room_for_told(alloc)?;
    tells_twice(&mut book, logic, bytes, &mut out)
}

fn tells_twice(
    book: &mut Book,
    logic: &BookLogic,
    bytes: &[u8],
    out: &mut Vec<Output>,
) -> Result<bool, Fail>
    requires { Below 0 book.old.state.orders }
{
    let is_rejected = tells_of(book, logic, 0, bytes, out, BELOW_THE_CUT)?;
    let is_told = tells_of(book, logic, 1, bytes, out, FROM_THE_CUT_ON)?;
    Ok(is_rejected && is_told)
}

/// Whether a book tells these reports of C1's message, as the logic reads the message at this sequence.
fn tells_of(
    book: &mut Book,
    logic: &BookLogic,
    sequence: u64,
    bytes: &[u8],
    out: &mut Vec<Output>,
    reports: &[Told],
) -> Result<bool, Fail>
    requires { Below sequence book.old.state.orders }
    ensures { OnOk result (Below (sequence + 1) book.new.state.orders) }
{
    let command = logic.read(sequence, bytes);
    tells(book, sequence, &command, out, reports)
}

/// Whether the message is a new order from the cut on alone.
fn is_new_from_the_cut_on(logic: &BookLogic, bytes: &[u8]) -> bool {
    !is_new(&logic.read(0, bytes)) && is_new(&logic.cut_at(0).read(0, bytes))
}

#[test]
fn market_orders_from_the_cut_on(rt: HostRuntime) -> Result<(), Fail> {
    let alloc = rt.alloc();
    let limits = limits(alloc, &["ABC"])?.cut_at(1);
    assert_eq!(rt; limits.cut(), 1);
    let logic = BookLogic::of(&limits);
    let bytes = bytes_of(alloc, MARKET_ORDER)?;
    assert!(rt; reads_twice(alloc, &logic, &bytes)?);
    assert!(rt; is_new_from_the_cut_on(&logic, &bytes));
    Ok(())
}

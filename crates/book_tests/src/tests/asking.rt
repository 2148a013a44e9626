//! How a book is asked, and how what it tells is held against a text with `|` for the byte 01.
ghost use Rattle.std.specs.Prelude.{◌≡◌, ◌+◌, IfOk, OnOk, length};
ghost use Rattle.venue_model.specs.Step.{empty};
ghost use Rattle.book.specs.Standing.{Below};

use book::{Book, MOST_OUTPUTS};
use fix_orders::body_of;
use std::alloc::{AllocError, Global};
use std::test::Fail;
use venue_model::{
    Command, LONGEST_MESSAGE, Limits, MOST_GATEWAYS, NewOrderSingle, OrdType,
    OrderCancelReplaceRequest, OrderCancelRequest, Output, Side, Symbol, TimeInForce,
};

/// 2025-01-02, 09:30:00.
pub const HALF_PAST_NINE: u64 = 20250102093000;

/// What a request asks.
#[derive(Clone, Copy)]
pub enum Kind {
    Day,
    ImmediateOrCancel,
    FillOrKill,
    /// A cancel of the order of this name.
    Cancel(u64),
    /// A replace of the order of this name.
    Replace(u64),
}

/// A request in ABC: client, what it asks, side, quantity, price (0 in a market order, which has none), ClOrdID.
pub type Ask = (u8, Kind, Side, u64, u64, u64);

/// A report: to whom it goes, and its body.
pub type Told = (u8, &'static [u8]);

/// The command of a request.
pub fn command_of(symbol: Symbol, ask: &Ask) -> Command {
    let (_, kind, side, quantity, price, cl_ord_id) = *ask;
    match kind {
        Kind::Day => new_order(symbol, ask, TimeInForce::Day),
        Kind::ImmediateOrCancel => new_order(symbol, ask, TimeInForce::ImmediateOrCancel),
        Kind::FillOrKill => new_order(symbol, ask, TimeInForce::FillOrKill),
        Kind::Cancel(orig_cl_ord_id) => Command::Cancel {
            sending_time: HALF_PAST_NINE,
            request: OrderCancelRequest {
                cl_ord_id,
                orig_cl_ord_id,
                symbol,
                side,
            },
        },
        Kind::Replace(orig_cl_ord_id) => Command::Replace {
            sending_time: HALF_PAST_NINE,
            request: OrderCancelReplaceRequest {
                cl_ord_id,
                orig_cl_ord_id,
                symbol,
                side,
                price,
                quantity,
                time_in_force: TimeInForce::Day,
            },
        },
    }
}

/// The new order of a request.
fn new_order(symbol: Symbol, ask: &Ask, time_in_force: TimeInForce) -> Command {
    let (_, _, side, quantity, price, cl_ord_id) = *ask;
    Command::New {
        sending_time: HALF_PAST_NINE,
        order: NewOrderSingle {
            cl_ord_id,
            symbol,
            side,
            ord_type: match price {
                0 => OrdType::Market,
                price => OrdType::Limit { price },
            },
            quantity,
            time_in_force,
        },
    }
}

/// The symbol ABC.
pub fn abc() -> Result<Symbol, Fail> {
    Ok(Symbol::new(b"ABC").ok_or("no symbol")?)
}

/// The limits of a venue with these symbols.
pub fn limits(alloc: Global, symbols: &[&str]) -> Result<Limits, Fail> {
    let names = names_of(alloc, symbols)?;
    Ok(Limits::new(alloc, &names)?)
}

/// The names of these symbols, or of what is to be refused as one.
pub fn names_of(alloc: Global, symbols: &[&str]) -> Result<Vec<String>, AllocError> {
    let mut names = Vec::with_capacity(alloc, symbols.len())?;
    for symbol in symbols {
        names.push(String::from_str(alloc, symbol)?)?;
    }
    Ok(names)
}

/// The empty book of a venue that trades ABC alone.
pub fn abc_book(alloc: Global) -> Result<Book, Fail>
    ensures { IfOk result (λ b. b.state ≡ empty) }
{
    let limits = limits(alloc, &["ABC"])?;
    Ok(Book::new(alloc, &limits)?)
}

/// Room for what a command tells.
pub fn room_for_told(alloc: Global) -> Result<Vec<Output>, Fail> {
    Ok(Vec::with_capacity(alloc, MOST_OUTPUTS)?)
}

/// Asks the book, and has in `out` what it tells.
pub fn ask(
    book: &mut Book,
    sequence: u64,
    client: u8,
    command: &Command,
    out: &mut Vec<Output>,
) -> Result<(), Fail>
    requires { Below sequence book.old.state.orders }
    ensures { OnOk result (Below (sequence + 1) book.new.state.orders) }
{
    if client < 1
        || MOST_GATEWAYS < client as usize
        || 1 << 48 <= sequence
        || !command.is_in_range()
        || out.capacity() < MOST_OUTPUTS
    {
        return Err(Fail::from("no request"));
    }
    out.clear();
    book.apply(sequence, client, command, out)?;
    Ok(())
}

/// What the book tells of these requests, one after another from the first sequence on.
pub fn told(alloc: Global, book: &mut Book, asks: &[Ask]) -> Result<Vec<Output>, Fail>
    requires { Below 0 book.old.state.orders }
    ensures { OnOk result (Below (length asks.now) book.new.state.orders) }
{
    let symbol = abc()?;
    let mut out = room_for_told(alloc)?;
    let mut all = Vec::new(alloc);
    for place in 0..asks.len() {
        let sequence = place as u64;
        add_told(book, sequence, symbol, &asks[place], &mut out, &mut all)?;
    }
    Ok(all)
}

/// Puts what the book tells of a request at this sequence behind all that it has told.
fn add_told(
    book: &mut Book,
    sequence: u64,
    symbol: Symbol,
    request: &Ask,
    out: &mut Vec<Output>,
    all: &mut Vec<Output>,
) -> Result<(), Fail>
    requires { Below sequence book.old.state.orders }
    ensures { OnOk result (Below (sequence + 1) book.new.state.orders) }
{
    let command = command_of(symbol, request);
    ask(book, sequence, request.0, &command, out)?;
    all.extend_from_slice(out)?;
    Ok(())
}

/// Whether the outputs are these reports. The first one's place in the list of all outputs is `first`, from 0.
pub fn are_told(out: &[Output], first: u64, reports: &[Told]) -> bool {
    if out.len() != reports.len() {
        return false;
    }
    for k in 0..out.len() {
        if !is_report(&out[k], first.wrapping_add(k as u64), &reports[k]) {
            return false;
        }
    }
    true
}

/// Whether the output goes to this client with this body.
fn is_report(output: &Output, place: u64, report: &Told) -> bool {
    let mut buf = [0; LONGEST_MESSAGE];
    let end = body_of(output, place.wrapping_add(1), &mut buf);
    output.to == report.0 && is_text(&buf[..end], report.1)
}

/// Whether the bytes are this text.
fn is_text(bytes: &[u8], text: &[u8]) -> bool {
    bytes.len() == text.len()
        && bytes
            .iter()
            .zip(text)
            .all(|(b, t)| *b == if *t == b'|' { 1 } else { *t })
}

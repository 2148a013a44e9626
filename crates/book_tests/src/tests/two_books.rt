//! The book and a plain list are asked the same, by chance: they tell the same, and the book reads no more than it says.
ghost use Rattle.std.specs.Prelude.{◌≡◌, ◌+◌, IfOk, OnOk};
ghost use Rattle.venue_model.specs.Step.{empty};
ghost use Rattle.book.specs.Standing.{Below};

use crate::tests::asking::{ask, limits, room_for_told};
use crate::tests::by_chance::{Chance, FILLED};
use crate::tests::plain_book::PlainBook;
use crate::tests::tally::Tally;
use book::Book;
use fix_orders::body_of;
use std::alloc::Global;
use std::test::Fail;
use venue_model::{Command, ExecType, LONGEST_MESSAGE, MOST_RESTING, Output, Report, Symbol};

/// How many commands follow once the book is full.
const MIXED: u64 = 10_000;

/// What stands beside the book: the plain list, what both have told last, and how much of each kind.
#[derive(Drop)]
struct Beside {
    plain: PlainBook,
    out: Vec<Output>,
    plainly: Vec<Output>,
    tally: Tally,
}

impl Beside {
    /// The empty list of a venue with these symbols, and nothing told yet.
    fn new(alloc: Global, symbols: &[Symbol]) -> Result<Beside, Fail> {
        let plain = PlainBook::new(alloc, symbols)?;
        let out = room_for_told(alloc)?;
        let plainly = room_for_told(alloc)?;
        Ok(Beside {
            plain,
            out,
            plainly,
            tally: Tally::new(),
        })
    }

    /// Asks the book and the list the same, and compares what they tell. For a new order the book reads no more orders
    /// than it fills, and one.
    fn ask(
        &mut self,
        book: &mut Book,
        sequence: u64,
        client: u8,
        command: &Command,
    ) -> Result<(), Fail>
        requires { Below sequence book.old.state.orders }
        ensures { OnOk result (Below (sequence + 1) book.new.state.orders) }
    {
        ask(book, sequence, client, command, &mut self.out)?;
        self.ask_plainly(sequence, client, command)?;
        let most = fills(&self.out, sequence).wrapping_add(1);
        if matches!(command, Command::New { .. }) && book.reads() > most {
            return Err(Fail::from("the book read more than it filled"));
        }
        Ok(())
    }

    fn ask_plainly(&mut self, sequence: u64, client: u8, command: &Command) -> Result<(), Fail> {
        self.plainly.clear();
        self.plain
            .apply(sequence, client, command, &mut self.plainly)?;
        if !are_same(&self.out, &self.plainly) {
            return Err(Fail::from("the books differ"));
        }
        self.tally.count(&self.plainly);
        Ok(())
    }

    /// Whether as many orders rest in the book as in the list, but fewer than can, and each kind was told thirty times.
    fn is_at_the_end(&self, book: &Book) -> bool {
        book.resting() == self.plain.orders.len()
            && book.resting() < MOST_RESTING
            && self.tally.least() >= 30
    }
}

/// Whether two lists of outputs are the same, in all that clients are told.
pub fn are_same(some: &[Output], others: &[Output]) -> bool {
    some.len() == others.len()
        && some
            .iter()
            .zip(others)
            .all(|(one, other)| is_same(one, other))
}

fn is_same(one: &Output, other: &Output) -> bool {
    goes_with(one, other) && bodies_are_same(one, other)
}

/// Whether both go to the same client, at the same time, and come of the same command.
fn goes_with(one: &Output, other: &Output) -> bool {
    one.to == other.to && one.cause == other.cause && one.sending_time == other.sending_time
}

fn bodies_are_same(one: &Output, other: &Output) -> bool {
    let mut buf = [0; LONGEST_MESSAGE];
    let end = body_of(one, 1, &mut buf);
    has_body(other, &buf[..end])
}

/// Whether an output's body has these bytes.
fn has_body(output: &Output, body: &[u8]) -> bool {
    let mut buf = [0; LONGEST_MESSAGE];
    let end = body_of(output, 1, &mut buf);
    &buf[..end] == body
}

/// How many of the outputs tell of a fill of a resting order.
fn fills(out: &[Output], sequence: u64) -> u64 {
    let mut count = 0_u64;
    for output in out {
        if let Report::Exec(report) = output.report {
            let is_trade = matches!(report.exec_type, ExecType::Trade { .. });
            if is_trade && report.order.stamp != sequence {
                count = count.wrapping_add(1);
            }
        }
    }
    count
}

/// Asks both books until they are full, and ten thousand times more.
fn ask_many(book: &mut Book, beside: &mut Beside, chance: &mut Chance) -> Result<(), Fail>
    requires { Below 0 book.old.state.orders }
{
    for turn in 0..FILLED + MIXED {
        let (client, command) = chance.command(&beside.plain, turn);
        beside.ask(book, turn, client, &command)?;
    }
    Ok(())
}

/// Three symbols of a venue, and one that it doesn't trade.
fn symbols() -> Result<[Symbol; 4], Fail> {
    let one = Symbol::new(b"ABC").ok_or("no symbol")?;
    let two = Symbol::new(b"ABD").ok_or("no symbol")?;
    let three = Symbol::new(b"X1").ok_or("no symbol")?;
    let other = Symbol::new(b"AB").ok_or("no symbol")?;
    Ok([one, two, three, other])
}

/// The empty book of the venue that trades the first three.
fn book_of_three(alloc: Global) -> Result<Book, Fail>
    ensures { IfOk result (λ b. b.state ≡ empty) }
{
    let limits = limits(alloc, &["ABC", "ABD", "X1"])?;
    Ok(Book::new(alloc, &limits)?)
}

/// Asks the empty book and a list beside it. Answers whether as many orders rest in both then, but fewer than can, and
/// each kind of output was told thirty times.
fn told_the_same(alloc: Global, book: &mut Book) -> Result<bool, Fail>
    requires { Below 0 book.old.state.orders }
{
    let symbols = symbols()?;
    let mut beside = Beside::new(alloc, &symbols[..3])?;
    let mut chance = Chance::new(symbols);
    ask_many(book, &mut beside, &mut chance)?;
    Ok(beside.is_at_the_end(book))
}

#[test]
fn two_books(rt: HostRuntime) -> Result<(), Fail> {
    let mut book = book_of_three(rt.alloc())?;
    assert!(rt; told_the_same(rt.alloc(), &mut book)?);
    Ok(())
}

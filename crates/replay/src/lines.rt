//! The lines of a report: one for each resting order, or for each output to a client, and the counts behind them.
ghost use Rattle.std.specs.Prelude.{◌≡◌, ◌+◌, ◌^◌, ◌<◌, ◌≤◌, [], ◌∷◌, ◌++◌, OnOk, length, map, take};
ghost use Rattle.std.specs.List.{flat_map};
ghost use Rattle.std.specs.Io.KnownBytes.{Appends};
ghost use Rattle.fix_frame.specs.Grammar.{print_fields};
ghost use Rattle.fix_orders.specs.Text.{side_code, text};
ghost use Rattle.book.specs.Listing.{listing};
ghost use Rattle.replay.specs.Lines.{order_line, order_terms, order_names, bar, said_fields, output_line, line_to, client_lines, counts_line};

use book::{Book, MOST_RESTING};
use fix_orders::{body_of, msg_type_code, put_bytes, put_field, time_text};
use std::io;
use std::io::Write;
use venue_model::{LONGEST_MESSAGE, Order, Output, Side};

/// Writes the counts of all commands and outputs.
pub(crate) fn write_counts<W: Write>(out: &mut W, commands: u64, outputs: u64) -> io::Result<()>
    ensures { OnOk result (Appends (W.contents out.old) (W.contents out.new) (counts_line commands outputs)) }
{
    writeln!(out, "commands {commands} outputs {outputs}")
}

/// Writes a resting order.
fn write_order<W: Write>(out: &mut W, order: &Order) -> io::Result<()>
    ensures { OnOk result (Appends (W.contents out.old) (W.contents out.new) (order_line order.now)) }
{
    out.write_all(order.symbol.as_bytes())?;
    write_terms(out, order)?;
    write_names(out, order)
}

/// Writes side, price and what is left.
fn write_terms<W: Write>(out: &mut W, order: &Order) -> io::Result<()>
    ensures { OnOk result (Appends (W.contents out.old) (W.contents out.new) (order_terms order.now)) }
{
    let side = side_code(order.side);
    let price = order.price;
    let leaves = order.leaves();
    write!(out, " {side} {price} {leaves}")
}

/// Writes OrderID, client and ClOrdID.
fn write_names<W: Write>(out: &mut W, order: &Order) -> io::Result<()>
    ensures { OnOk result (Appends (W.contents out.old) (W.contents out.new) (order_names order.now)) }
{
    let Order {
        id,
        client,
        cl_ord_id,
        ..
    } = *order;
    writeln!(out, " {id} C{client} {cl_ord_id}")
}

/// Side (54).
fn side_code(side: Side) -> &'static str
    ensures { result.now ≡ side_code side }
{
    match side {
        Side::Buy => "1",
        Side::Sell => "2",
    }
}

/// Writes the output at a place of the list of all outputs, if it goes to the client.
fn write_output<W: Write>(out: &mut W, client: u8, place: u64, output: &Output) -> io::Result<()>
    requires { place + 1 < 2 ^ 64 }
    ensures { OnOk result (Appends (W.contents out.old) (W.contents out.new) (line_to client place output.now)) }
{
    if output.to != client {
        return Ok(());
    }
    write_output_line(out, place, output)
}

/// Writes the line of the output at a place of the list of all outputs: MsgType (35), SendingTime (52) and the body of
/// its report, each field behind a bar in the place of SOH but the first.
pub fn write_output_line<W: Write>(out: &mut W, place: u64, output: &Output) -> io::Result<()>
    requires { place + 1 < 2 ^ 64 }
    ensures { OnOk result (Appends (W.contents out.old) (W.contents out.new) (output_line output.now place)) }
{
    let mut line = [0; 512];
    let end = put_output(&mut line, output, place);
    put_bars(&mut line[..end]);
    out.write_all(&line[..end])?;
    out.write_all(b"\n")
}

/// Puts the output's fields at the buffer's front, and answers where they end.
fn put_output(line: &mut [u8; 512], output: &Output, place: u64) -> usize
    requires { place + 1 < 2 ^ 64 }
    ensures fields { take result line.new ≡ print_fields (said_fields (text output.now place)) }
    ensures within { result ≤ 512 }
{
    let mut body = [0; LONGEST_MESSAGE];
    let len = body_of(output, place + 1, &mut body);
    let end = put_field(line, 0, 35, msg_type_code(output.report.msg_type()));
    let end = put_field(line, end, 52, &time_text(output.sending_time));
    put_bytes(line, end, &body[..len])
}

/// Puts a bar in the place of each SOH.
fn put_bars(line: &mut [u8])
    ensures { line.new ≡ map bar line.old }
{
    for place in 0..line.len() {
        line[place] = bar(line[place]);
    }
}

/// A bar in the place of SOH.
fn bar(byte: u8) -> u8
    ensures { result ≡ bar byte }
{
    if byte == 1 { b'|' } else { byte }
}

/// Writes those outputs that go to the client.
pub(crate) fn write_outputs<W: Write>(out: &mut W, client: u8, outputs: &[Output]) -> io::Result<()>
    ensures { OnOk result (Appends (W.contents out.old) (W.contents out.new) (client_lines client 0 outputs.now)) }
{
    let mut place = 0;
    for output in outputs {
        write_output(out, client, place, output)?;
        place += 1;
    }
    Ok(())
}

/// Writes the resting orders: by symbol, buys before sells, each ahead of the next.
pub(crate) fn write_orders<W: Write>(out: &mut W, book: &Book) -> io::Result<()>
    requires { length book.now.state.orders ≤ 4096 }
    ensures { OnOk result (Appends (W.contents out.old) (W.contents out.new)
        (flat_map order_line (listing book.now.limits.symbols book.now.state.orders))) }
{
    let mut from = None;
    for _ in 0..MOST_RESTING {
        let Some(order) = book.after(from) else {
            return Ok(());
        };
        write_order(out, &order)?;
        from = Some(order);
    }
    Ok(())
}

//! Commands out of frames: the first thing that happens to an entry behind the input ring.
ghost use Rattle.std.specs.Prelude.{◌≡◌, ◌≤◌, List, length, IsTrue, MatchOption};
ghost use Rattle.fix_frame.specs.Grammar.{Field, IsFrame, BeginsWithType, most_in};
ghost use Rattle.fix_frame.specs.Borrowed.{frame_fields};
ghost use Rattle.fix_frame.specs.Bodies.{bytes_left, fields_in};
ghost use Rattle.fix_frame.specs.Runs.{IsRun};
ghost use Rattle.venue_model.specs.Step.{IsCommand};
ghost use Rattle.fix_orders.specs.Formats.{format_of, is_short, value_of};
ghost use Rattle.fix_orders.specs.OrderTags.{tag_number, need_of};
ghost use Rattle.fix_orders.specs.declared.tables.Need.TheVariants.{Required};
ghost use Rattle.fix_orders.specs.Reading.{ref_type_of, side_of, time_in_force_of, command_of, reads};
ghost use Rattle.fix_orders.specs.Findings.{IsReadBy};
ghost use Rattle.fix_orders.specs.Values.{value_in};
ghost use Rattle.fix_orders.specs.Asking.{AreRight, asked_in, new_in, cancel_in, replace_in};

use crate::fields::{OrderFields, first_fault};
use crate::header::take_header;
use crate::number::read_digits;
use crate::tables::{OrderTag, Table};
use crate::time::number_of_time;
use crate::values::Values;
use fix_frame::{Body, Frame, open_body};
use venue_model::{
    Command, Malformed, NewOrderSingle, OrdType, OrderCancelReplaceRequest, OrderCancelRequest,
    RefMsgType, Side, Symbol, TimeInForce,
};

/// The command of an entry's bytes, whatever they are: none but exactly one frame asks anything. Where `market` is
/// false, an order with 40=1 is read by the table of limit orders, as before there were market orders, and so rejected.
pub fn decode(bytes: &[u8], market: bool) -> Command // promise 2
    ensures value { result ≡ reads market bytes.now }
    ensures frame { (fields : List Field) →
        IsFrame most_in bytes.now fields → result ≡ command_of market fields }
    ensures none { ((fields : List Field) → IsFrame most_in bytes.now fields → ⊥) →
        result ≡ Command.Void }
    ensures range { IsCommand result }
{
    match open_body(bytes) {
        Some(body) => command_in(body, market),
        None => Command::Void,
    }
}

/// The command of a frame. Market orders are read where `market` is true.
pub fn command_of(frame: &Frame, market: bool) -> Command
    ensures { result ≡ command_of market (frame_fields frame.now) }
{
    command_in(frame.body(), market)
}

/// The command of a body, which is read once; none where it turns out to be no run of fields.
fn command_in(mut body: Body, market: bool) -> Command
    requires { length (bytes_left body) ≤ most_in }
    ensures run { IsRun (bytes_left body.entry) → result ≡ command_of market (fields_in body.entry) }
    ensures void { (IsRun (bytes_left body.entry) → BeginsWithType (fields_in body.entry) → ⊥) → result ≡ Command.Void }
{
    let Some(header) = take_header(&mut body) else {
        return Command::Void;
    };
    let Some(kind) = type_of(header.msg_type) else {
        return Command::Void;
    };
    let Some((table, found)) = read_fields(kind, body, market) else {
        return Command::Void;
    };
    let sending_time = number_of_time(header.time);
    match first_fault(table, &found) {
        None => asked(table, sending_time, &found.values),
        Some(fault) => Command::Malformed {
            sending_time,
            fault: Malformed {
                reason: fault.reason,
                tag: fault.tag,
                ref_seq: header.number,
                ref_type: table.ref_type(),
            },
        },
    }
}

/// Reads the fields behind a header by their table; none where they are no run of fields. They are read again only
/// where they ask for a market order.
fn read_fields<'a>(
    kind: RefMsgType,
    body: Body<'a>,
    market: bool,
) -> Option<(Table, OrderFields<'a>)>
    requires { length (bytes_left body) ≤ most_in }
    ensures { MatchOption result (IsRun (bytes_left body.entry) → ⊥) (IsReadBy market kind body.entry) }
{
    let mut asks_market = false;
    loop {
        let table = Table::of(kind, asks_market);
        let found = OrderFields::read(table, body)?;
        if asks_market || !market || !found.values.ask_market() {
            return Some((table, found));
        }
        asks_market = true;
    }
}

/// The type of an order message.
fn type_of(msg_type: &[u8]) -> Option<RefMsgType>
    ensures { result ≡ ref_type_of msg_type.now }
{
    match msg_type {
        b"D" => Some(RefMsgType::NewOrderSingle),
        b"F" => Some(RefMsgType::OrderCancelRequest),
        b"G" => Some(RefMsgType::OrderCancelReplaceRequest),
        _ => None,
    }
}

/// What a message without a fault asks, by its values.
fn asked(table: Table, sending_time: u64, values: &Values) -> Command
    requires { AreRight table values.now }
    ensures { result ≡ asked_in table sending_time values.now }
{
    match table {
        Table::LimitOrder => {
            let price = number_at(table, values, OrderTag::Price);
            Command::New {
                sending_time,
                order: new_of(table, OrdType::Limit { price }, values),
            }
        }
        Table::MarketOrder => Command::New {
            sending_time,
            order: new_of(table, OrdType::Market, values),
        },
        Table::CancelRequest => Command::Cancel {
            sending_time,
            request: cancel_of(values),
        },
        Table::ReplaceRequest => Command::Replace {
            sending_time,
            request: replace_of(values),
        },
    }
}

/// NewOrderSingle (35=D), of this OrdType (40).
fn new_of(table: Table, ord_type: OrdType, values: &Values) -> NewOrderSingle
    requires { AreRight table values.now }
    ensures { result ≡ new_in ord_type values.now }
{
    NewOrderSingle {
        cl_ord_id: number_at(table, values, OrderTag::ClOrdId),
        symbol: symbol_of(table, values),
        side: side_of(values.get(OrderTag::Side)),
        ord_type,
        quantity: number_at(table, values, OrderTag::OrderQty),
        time_in_force: time_in_force_of(values.get(OrderTag::TimeInForce)),
    }
}

/// OrderCancelRequest (35=F).
fn cancel_of(values: &Values) -> OrderCancelRequest
    requires { AreRight Table.CancelRequest values.now }
    ensures { result ≡ cancel_in values.now }
{
    let table = Table::CancelRequest;
    OrderCancelRequest {
        cl_ord_id: number_at(table, values, OrderTag::ClOrdId),
        orig_cl_ord_id: number_at(table, values, OrderTag::OrigClOrdId),
        symbol: symbol_of(table, values),
        side: side_of(values.get(OrderTag::Side)),
    }
}

/// OrderCancelReplaceRequest (35=G).
fn replace_of(values: &Values) -> OrderCancelReplaceRequest
    requires { AreRight Table.ReplaceRequest values.now }
    ensures { result ≡ replace_in values.now }
{
    let table = Table::ReplaceRequest;
    OrderCancelReplaceRequest {
        cl_ord_id: number_at(table, values, OrderTag::ClOrdId),
        orig_cl_ord_id: number_at(table, values, OrderTag::OrigClOrdId),
        symbol: symbol_of(table, values),
        side: side_of(values.get(OrderTag::Side)),
        price: number_at(table, values, OrderTag::Price),
        quantity: number_at(table, values, OrderTag::OrderQty),
        time_in_force: time_in_force_of(values.get(OrderTag::TimeInForce)),
    }
}

/// The number of a required tag.
fn number_at(table: Table, values: &Values, tag: OrderTag) -> u64
    requires right { AreRight table values.now }
    requires required { need_of table tag ≡ Required }
    requires number { IsTrue (is_short (format_of table (tag_number tag))) }
    ensures { result ≡ value_of (value_in values.now tag) }
{
    read_digits(values.get(tag))
}

/// Symbol (55).
fn symbol_of(table: Table, values: &Values) -> Symbol
    requires { AreRight table values.now }
    ensures { result ≡ value_in values.now OrderTag.Symbol }
{
    Symbol::of_name(values.get(OrderTag::Symbol))
}

/// Side (54).
fn side_of(value: &[u8]) -> Side
    ensures { result ≡ side_of value.now }
{
    match value {
        b"1" => Side::Buy,
        _ => Side::Sell,
    }
}

/// TimeInForce (59); a day where there is none.
fn time_in_force_of(value: &[u8]) -> TimeInForce
    ensures { result ≡ time_in_force_of value.now }
{
    match value {
        b"3" => TimeInForce::ImmediateOrCancel,
        b"4" => TimeInForce::FillOrKill,
        _ => TimeInForce::Day,
    }
}

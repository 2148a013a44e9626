//! Bodies of reports: what the marshaller writes of an output, and a session sends.
#![tactic(auto, using(crate::specs::BodyLaws::code_fields))]

ghost use Rattle.std.specs.Prelude.{◌≡◌, ◌+◌, ◌*◌, ◌≤◌, [], ◌∷◌, length, take};
ghost use Rattle.std.specs.List.{AllByRecursion};
ghost use Rattle.fix_frame.specs.Grammar.{IsField, print_fields};
ghost use Rattle.fix_orders.specs.Text.{event_fields, orig_fields, price_fields, order_fields, last_fields, filled_fields, refusal_fields, exec_fields, cancel_reject_fields, reject_fields, body_fields, leaves_after, average, named_id, field};
ghost use Rattle.fix_orders.specs.Writing.{PutsFields};

use crate::codes;
use crate::put::{put_field, put_number};
use venue_model::{
    ExecType, ExecutionReport, LONGEST_MESSAGE, Malformed, OrdRejReason, Order, OrderCancelReject,
    Output, Report,
};

/// Writes the body of a report at the front of the buffer, and answers its length. ExecID (17) is one
/// more than the output's place in the list of all outputs.
pub fn body_of(output: &Output, exec_id: u64, buf: &mut [u8; LONGEST_MESSAGE]) -> usize // promise 2
    ensures body { take result buf.new ≡ print_fields (body_fields output.now.report exec_id) }
    ensures fields { AllByRecursion IsField (body_fields output.now.report exec_id) }
    ensures within { result ≤ 320 }
{
    match &output.report {
        Report::Exec(report) => put_execution_report(buf, report, exec_id),
        Report::CancelReject(reject) => put_cancel_reject(buf, reject),
        Report::SessionReject(fault) => put_reject(buf, fault),
    }
}

/// ExecutionReport (35=8).
fn put_execution_report(buf: &mut [u8], report: &ExecutionReport, exec_id: u64) -> usize
    requires { length buf.old ≡ 320 }
    ensures puts { PutsFields buf.old buf.new 0 result
        (exec_fields report.now.exec_type report.now.order exec_id) }
    ensures each { AllByRecursion IsField
        (exec_fields report.now.exec_type report.now.order exec_id) }
    ensures most { result ≤ 320 }
{
    let kind = report.exec_type;
    let order = &report.order;
    let at = put_event(buf, 0, kind, order, exec_id);
    let at = put_orig(buf, at, kind);
    let at = put_order(buf, at, order);
    let at = put_last(buf, at, kind);
    let at = put_filled(buf, at, kind, order);
    put_refusal(buf, at, kind)
}

/// OrderID, ExecID, ExecType, OrdStatus and ClOrdID.
fn put_event(buf: &mut [u8], at: usize, kind: ExecType, order: &Order, exec_id: u64) -> usize
    requires { at + 97 ≤ length buf.old }
    ensures puts { PutsFields buf.old buf.new at result (event_fields kind order.now exec_id) }
    ensures each { AllByRecursion IsField (event_fields kind order.now exec_id) }
    ensures most { result ≤ at + 97 }
{
    let at = put_number(buf, at, 37, order.id);
    let at = put_number(buf, at, 17, exec_id);
    let at = put_field(buf, at, 150, codes::exec_code(kind));
    let at = put_field(buf, at, 39, codes::status_code(kind, order));
    put_number(buf, at, 11, order.cl_ord_id)
}

/// OrigClOrdID, where the report has it.
fn put_orig(buf: &mut [u8], at: usize, kind: ExecType) -> usize
    requires { at + 27 * length (orig_fields kind) ≤ length buf.old }
    ensures puts { PutsFields buf.old buf.new at result (orig_fields kind) }
    ensures each { AllByRecursion IsField (orig_fields kind) }
    ensures most { result ≤ at + 27 * length (orig_fields kind) }
{
    match kind {
        ExecType::Canceled {
            orig_cl_ord_id: Some(orig),
        } => put_number(buf, at, 41, orig),
        ExecType::Replaced { orig_cl_ord_id } => put_number(buf, at, 41, orig_cl_ord_id),
        _ => at,
    }
}

/// Symbol, Side, OrderQty, and Price where there is one.
fn put_order(buf: &mut [u8], at: usize, order: &Order) -> usize
    requires { at + 77 ≤ length buf.old }
    ensures puts { PutsFields buf.old buf.new at result (order_fields order.now) }
    ensures each { AllByRecursion IsField (order_fields order.now) }
    ensures most { result ≤ at + 77 }
{
    let at = put_field(buf, at, 55, order.symbol.as_bytes());
    let at = put_field(buf, at, 54, codes::side_code(order.side));
    let at = put_number(buf, at, 38, order.total);
    put_price(buf, at, order)
}

/// Price, which a market order doesn't have.
fn put_price(buf: &mut [u8], at: usize, order: &Order) -> usize
    requires { at + 27 * length (price_fields order.now) ≤ length buf.old }
    ensures puts { PutsFields buf.old buf.new at result (price_fields order.now) }
    ensures each { AllByRecursion IsField (price_fields order.now) }
    ensures most { result ≤ at + 27 * length (price_fields order.now) }
{
    if order.is_market {
        at
    } else {
        put_number(buf, at, 44, order.price)
    }
}

/// LastQty and LastPx of a trade.
fn put_last(buf: &mut [u8], at: usize, kind: ExecType) -> usize
    requires { at + 27 * length (last_fields kind) ≤ length buf.old }
    ensures puts { PutsFields buf.old buf.new at result (last_fields kind) }
    ensures each { AllByRecursion IsField (last_fields kind) }
    ensures most { result ≤ at + 27 * length (last_fields kind) }
{
    let ExecType::Trade { last_qty, last_px } = kind else {
        return at;
    };
    let at = put_number(buf, at, 32, last_qty);
    put_number(buf, at, 31, last_px)
}

/// LeavesQty, CumQty and AvgPx.
fn put_filled(buf: &mut [u8], at: usize, kind: ExecType, order: &Order) -> usize
    requires { at + 81 ≤ length buf.old }
    ensures puts { PutsFields buf.old buf.new at result (filled_fields kind order.now) }
    ensures each { AllByRecursion IsField (filled_fields kind order.now) }
    ensures most { result ≤ at + 81 }
{
    let at = put_number(buf, at, 151, leaves_after(kind, order));
    let at = put_number(buf, at, 14, order.cum);
    put_number(buf, at, 6, average(order))
}

/// LeavesQty after an event.
fn leaves_after(kind: ExecType, order: &Order) -> u64
    ensures { result ≡ leaves_after kind order.now }
{
    match kind {
        ExecType::Canceled { .. } | ExecType::Rejected { .. } => 0,
        _ => order.leaves(),
    }
}

/// AvgPx.
fn average(order: &Order) -> u64
    ensures { result ≡ average order.now }
{
    if order.cum == 0 {
        0
    } else {
        order.notional / order.cum
    }
}

/// OrdRejReason of a refusal, and Text.
fn put_refusal(buf: &mut [u8], at: usize, kind: ExecType) -> usize
    requires { at + 27 * length (refusal_fields kind) ≤ length buf.old }
    ensures puts { PutsFields buf.old buf.new at result (refusal_fields kind) }
    ensures each { AllByRecursion IsField (refusal_fields kind) }
    ensures most { result ≤ at + 27 * length (refusal_fields kind) }
{
    let ExecType::Rejected { reason } = kind else {
        return at;
    };
    match reason {
        OrdRejReason::BookFull => {
            let at = put_field(buf, at, 103, b"0");
            put_field(buf, at, 58, b"book full")
        }
        OrdRejReason::UnknownSymbol => put_field(buf, at, 103, b"1"),
        OrdRejReason::DuplicateOrder => put_field(buf, at, 103, b"6"),
    }
}

/// OrderCancelReject (35=9).
fn put_cancel_reject(buf: &mut [u8], reject: &OrderCancelReject) -> usize
    requires { length buf.old ≡ 320 }
    ensures puts { PutsFields buf.old buf.new 0 result (cancel_reject_fields reject.now) }
    ensures each { AllByRecursion IsField (cancel_reject_fields reject.now) }
    ensures most { result ≤ 320 }
{
    let at = put_named_id(buf, 0, &reject.order);
    let at = put_number(buf, at, 11, reject.cl_ord_id);
    let at = put_number(buf, at, 41, reject.orig_cl_ord_id);
    let at = put_field(buf, at, 39, codes::named_status(&reject.order));
    let at = put_field(buf, at, 434, codes::response_code(reject.response_to));
    put_field(buf, at, 102, codes::cancel_reject_code(reject.reason))
}

/// OrderID of the order that a refused request names.
fn put_named_id(buf: &mut [u8], at: usize, order: &Option<Order>) -> usize
    requires { at + 27 ≤ length buf.old }
    ensures puts { PutsFields buf.old buf.new at result (field 37 (named_id order.now) ∷ []) }
    ensures each { AllByRecursion IsField (field 37 (named_id order.now) ∷ []) }
    ensures most { result ≤ at + 27 }
{
    match order {
        Some(order) => put_number(buf, at, 37, order.id),
        None => put_field(buf, at, 37, b"NONE"),
    }
}

/// Reject (35=3).
fn put_reject(buf: &mut [u8], fault: &Malformed) -> usize
    requires { length buf.old ≡ 320 }
    ensures puts { PutsFields buf.old buf.new 0 result (reject_fields fault.now) }
    ensures each { AllByRecursion IsField (reject_fields fault.now) }
    ensures most { result ≤ 320 }
{
    let at = put_number(buf, 0, 45, fault.ref_seq as u64);
    let at = put_number(buf, at, 371, fault.tag as u64);
    let at = put_field(buf, at, 372, codes::type_code(fault.ref_type));
    put_field(buf, at, 373, codes::reject_code(fault.reason))
}

//! Codes of reports: how the values of an enum are spelled (docs/PROFILE.md, "Reports").
ghost use Rattle.std.specs.Prelude.{◌≡◌, ◌≢◌, ◌≤◌, ℕ, [], ◌∷◌, length};
ghost use Rattle.fix_frame.specs.Ascii.{soh};
ghost use Rattle.fix_orders.specs.Text.{side_code, exec_code, status_code, resting_status, named_status, response_code, cancel_reject_code, type_code, reject_code, msg_type_code};

use venue_model::{
    CxlRejReason, CxlRejResponseTo, ExecType, Order, OutputType, RefMsgType, SessionRejectReason,
    Side,
};

/// MsgType (35) of an output.
pub fn msg_type_code(kind: OutputType) -> &'static [u8]
    ensures value { result.now ≡ msg_type_code kind }
    ensures byte { (b : ℕ) × (b ≢ soh) × (result.now ≡ b ∷ []) }
    ensures short { length result.now ≤ 1 }
{
    match kind {
        OutputType::ExecutionReport => b"8",
        OutputType::OrderCancelReject => b"9",
        OutputType::Reject => b"3",
    }
}

/// Side (54).
pub fn side_code(side: Side) -> &'static [u8]
    ensures value { result.now ≡ side_code side }
    ensures short { length result.now ≤ 1 }
{
    match side {
        Side::Buy => b"1",
        Side::Sell => b"2",
    }
}

/// ExecType (150).
pub fn exec_code(kind: ExecType) -> &'static [u8]
    ensures value { result.now ≡ exec_code kind }
    ensures short { length result.now ≤ 1 }
{
    match kind {
        ExecType::New => b"0",
        ExecType::Trade { .. } => b"F",
        ExecType::Canceled { .. } => b"4",
        ExecType::Replaced { .. } => b"5",
        ExecType::Rejected { .. } => b"8",
    }
}

/// OrdStatus (39) of an order that rests.
pub fn resting_status(order: &Order) -> &'static [u8]
    ensures value { result.now ≡ resting_status order.now }
    ensures short { length result.now ≤ 1 }
{
    if order.cum == 0 { b"0" } else { b"1" }
}

/// OrdStatus (39) after an event.
pub fn status_code(kind: ExecType, order: &Order) -> &'static [u8]
    ensures value { result.now ≡ status_code kind order.now }
    ensures short { length result.now ≤ 1 }
{
    match kind {
        ExecType::New => b"0",
        ExecType::Trade { .. } if order.leaves() == 0 => b"2",
        ExecType::Trade { .. } => b"1",
        ExecType::Canceled { .. } => b"4",
        ExecType::Replaced { .. } => resting_status(order),
        ExecType::Rejected { .. } => b"8",
    }
}

/// OrdStatus (39) of the order that a refused request names.
pub fn named_status(order: &Option<Order>) -> &'static [u8]
    ensures value { result.now ≡ named_status order.now }
    ensures short { length result.now ≤ 1 }
{
    match order {
        Some(order) => resting_status(order),
        None => b"8",
    }
}

/// CxlRejResponseTo (434).
pub fn response_code(response_to: CxlRejResponseTo) -> &'static [u8]
    ensures value { result.now ≡ response_code response_to }
    ensures short { length result.now ≤ 1 }
{
    match response_to {
        CxlRejResponseTo::Cancel => b"1",
        CxlRejResponseTo::CancelReplace => b"2",
    }
}

/// CxlRejReason (102).
pub fn cancel_reject_code(reason: CxlRejReason) -> &'static [u8]
    ensures value { result.now ≡ cancel_reject_code reason }
    ensures short { length result.now ≤ 1 }
{
    match reason {
        CxlRejReason::UnknownOrder => b"1",
        CxlRejReason::BrokerOption => b"2",
        CxlRejReason::DuplicateClOrdId => b"6",
    }
}

/// RefMsgType (372).
pub fn type_code(kind: RefMsgType) -> &'static [u8]
    ensures value { result.now ≡ type_code kind }
    ensures short { length result.now ≤ 1 }
{
    match kind {
        RefMsgType::NewOrderSingle => b"D",
        RefMsgType::OrderCancelRequest => b"F",
        RefMsgType::OrderCancelReplaceRequest => b"G",
    }
}

/// SessionRejectReason (373).
pub fn reject_code(reason: SessionRejectReason) -> &'static [u8]
    ensures value { result.now ≡ reject_code reason }
    ensures short { length result.now ≤ 2 }
{
    match reason {
        SessionRejectReason::RequiredTagMissing => b"1",
        SessionRejectReason::TagNotDefined => b"2",
        SessionRejectReason::ValueIncorrect => b"5",
        SessionRejectReason::IncorrectFormat => b"6",
        SessionRejectReason::TagAppearsMoreThanOnce => b"13",
    }
}

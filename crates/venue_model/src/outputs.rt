//! Outputs: what the book tells a client, as the processor publishes it and the marshaller writes it.
ghost use Rattle.std.specs.Prelude.{◌≡◌};
ghost use Rattle.venue_model.specs.Texts.{msg_type_of};

use crate::{Malformed, Order};

/// OrdRejReason (103): why a new order is refused.
#[derive(Clone, Copy, Debug, PartialEq, Eq)]
pub enum OrdRejReason {
    /// 0, broker or exchange option: the book is full.
    BookFull,
    /// 1: the venue doesn't have the symbol.
    UnknownSymbol,
    /// 6: ClOrdID isn't above the client's greatest.
    DuplicateOrder,
}

/// CxlRejReason (102): why a cancel or a replace is refused.
#[derive(Clone, Copy, Debug, PartialEq, Eq)]
pub enum CxlRejReason {
    /// 1: the client has no resting order of that name.
    UnknownOrder,
    /// 2, broker or exchange option: the request doesn't fit the order.
    BrokerOption,
    /// 6: ClOrdID isn't above the client's greatest.
    DuplicateClOrdId,
}

/// CxlRejResponseTo (434): which request is refused.
#[derive(Clone, Copy, Debug, PartialEq, Eq)]
pub enum CxlRejResponseTo {
    /// 1: OrderCancelRequest.
    Cancel,
    /// 2: OrderCancelReplaceRequest.
    CancelReplace,
}

/// ExecType (150), with what belongs to it alone.
#[derive(Clone, Copy)]
pub enum ExecType {
    /// 0: the order was accepted.
    New,
    /// F: a fill, with LastQty (32) and LastPx (31).
    Trade { last_qty: u64, last_px: u64 },
    /// 4: canceled, by the request that named it OrigClOrdID (41), or by its own terms.
    Canceled { orig_cl_ord_id: Option<u64> },
    /// 5: replaced by a request that named it OrigClOrdID (41).
    Replaced { orig_cl_ord_id: u64 },
    /// 8: refused.
    Rejected { reason: OrdRejReason },
}

/// ExecutionReport (35=8): what happened, and the order as it stands after that. Of a refused order it is the
/// order as it would have been.
#[derive(Clone, Copy)]
pub struct ExecutionReport {
    pub exec_type: ExecType,
    pub order: Order,
}

/// OrderCancelReject (35=9).
#[derive(Clone, Copy)]
pub struct OrderCancelReject {
    /// The order that the request names, where there is one.
    pub order: Option<Order>,
    /// ClOrdID (11) of the request.
    pub cl_ord_id: u64,
    /// OrigClOrdID (41) of the request.
    pub orig_cl_ord_id: u64,
    /// CxlRejResponseTo (434).
    pub response_to: CxlRejResponseTo,
    /// CxlRejReason (102).
    pub reason: CxlRejReason,
}

/// What an output says.
#[derive(Clone, Copy)]
pub enum Report {
    /// ExecutionReport (35=8).
    Exec(ExecutionReport),
    /// OrderCancelReject (35=9).
    CancelReject(OrderCancelReject),
    /// Reject (35=3), of a message with a fault.
    SessionReject(Malformed),
}

impl Report {
    /// MsgType (35).
    pub fn msg_type(&self) -> OutputType
        ensures { result ≡ msg_type_of self.now }
    {
        match self {
            Report::Exec(_) => OutputType::ExecutionReport,
            Report::CancelReject(_) => OutputType::OrderCancelReject,
            Report::SessionReject(_) => OutputType::Reject,
        }
    }
}

/// MsgType (35) of an output.
#[derive(Clone, Copy, Debug, PartialEq, Eq)]
pub enum OutputType {
    /// 8.
    ExecutionReport,
    /// 9.
    OrderCancelReject,
    /// 3.
    Reject,
}

/// Where outputs come from: the gateway (1 to 8) of a command, its sequence, and SendingTime (52) of its message
/// as a number of 14 digits.
#[derive(Clone, Copy)]
pub struct Cause {
    pub gateway: u8,
    pub sequence: u64,
    pub sending_time: u64,
}

/// A report, the gateway (1 to 8) that it goes to, the sequence of the entry that caused it, and SendingTime (52)
/// of that entry's message as a number of 14 digits.
#[derive(Clone, Copy)]
pub struct Output {
    pub to: u8,
    pub cause: u64,
    pub sending_time: u64,
    pub report: Report,
}

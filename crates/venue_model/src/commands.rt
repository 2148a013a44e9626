//! Commands: what the messages of traders ask of the book, as the unmarshaller reads them.

ghost use Rattle.std.specs.Prelude.{◌≡◌, IsTrue, ◌↔◌};
ghost use Rattle.venue_model.specs.Orders.{is_market, price_of};
ghost use Rattle.venue_model.specs.Requests.{is_day, at_once, terms_of};
ghost use Rattle.venue_model.specs.Step.{IsName, IsAmount, IsPriced, IsCommand};

use crate::{HIGHEST_PRICE, Side, Symbol};

/// TimeInForce (59).
#[derive(Clone, Copy, Debug, PartialEq, Eq)]
pub enum TimeInForce {
    /// 0, or no 59: what isn't filled rests in the book. Of a market order it is canceled (`NewOrderSingle::terms`).
    Day,
    /// 3: what isn't filled at once is canceled.
    ImmediateOrCancel,
    /// 4: it is filled whole at once, or canceled untouched.
    FillOrKill,
}

impl TimeInForce {
    /// Whether what isn't filled of an order on these terms rests: only a day order does.
    pub fn rests(self) -> bool
        ensures { result ≡ is_day self }
    {
        self == TimeInForce::Day
    }

    /// The same terms for an order that never rests: what would rest is canceled.
    fn at_once(self) -> TimeInForce
        ensures { result ≡ at_once self }
    {
        match self {
            TimeInForce::Day => TimeInForce::ImmediateOrCancel,
            _ => self,
        }
    }
}

/// OrdType (40), with Price (44) where an order has one.
#[derive(Clone, Copy, Debug, PartialEq, Eq)]
pub enum OrdType {
    /// 1: it trades at whatever price there is, and never rests.
    Market,
    /// 2: it trades at its price, in ticks, 1 to 1,000,000, or at a better one.
    Limit { price: u64 },
}

impl OrdType {
    /// Whether an order of it has no price.
    pub fn is_market(self) -> bool
        ensures { result ≡ is_market self }
    {
        self == OrdType::Market
    }

    /// The price by which an order of this side crosses others: a limit order's own. A market order has one that all
    /// prices of the other side meet, 1,000,000 where it buys and 0 where it sells.
    pub fn price_of(self, side: Side) -> u64
        ensures { result ≡ price_of side self }
    {
        match (self, side) {
            (OrdType::Limit { price }, _) => price,
            (OrdType::Market, Side::Buy) => HIGHEST_PRICE,
            (OrdType::Market, Side::Sell) => 0,
        }
    }
}

/// NewOrderSingle (35=D).
#[derive(Clone, Copy)]
pub struct NewOrderSingle {
    /// ClOrdID (11), 1 to 999,999,999,999,999.
    pub cl_ord_id: u64,
    /// Symbol (55), known to the venue or not.
    pub symbol: Symbol,
    /// Side (54).
    pub side: Side,
    /// OrdType (40), and Price (44).
    pub ord_type: OrdType,
    /// OrderQty (38), 1 to 1,000,000.
    pub quantity: u64,
    /// TimeInForce (59), as the message has it.
    pub time_in_force: TimeInForce,
}

impl NewOrderSingle {
    /// The terms on which it comes in: those of its message, but what isn't filled at once of a market order is
    /// canceled where its message would have it rest.
    pub fn terms(&self) -> TimeInForce
        ensures { result ≡ terms_of self.now }
    {
        if self.ord_type.is_market() {
            self.time_in_force.at_once()
        } else {
            self.time_in_force
        }
    }
}

/// OrderCancelRequest (35=F). Its OrderQty (38) is read and otherwise unused.
#[derive(Clone, Copy)]
pub struct OrderCancelRequest {
    /// ClOrdID (11) of the request, 1 to 999,999,999,999,999.
    pub cl_ord_id: u64,
    /// OrigClOrdID (41): the ClOrdID of the order to cancel.
    pub orig_cl_ord_id: u64,
    /// Symbol (55) of that order.
    pub symbol: Symbol,
    /// Side (54) of that order.
    pub side: Side,
}

/// OrderCancelReplaceRequest (35=G): another total, another price, or both.
#[derive(Clone, Copy)]
pub struct OrderCancelReplaceRequest {
    /// ClOrdID (11), 1 to 999,999,999,999,999: the order's name from now on.
    pub cl_ord_id: u64,
    /// OrigClOrdID (41): the ClOrdID of the order to replace.
    pub orig_cl_ord_id: u64,
    /// Symbol (55) of that order.
    pub symbol: Symbol,
    /// Side (54) of that order.
    pub side: Side,
    /// Price (44) in ticks, 1 to 1,000,000.
    pub price: u64,
    /// OrderQty (38), 1 to 1,000,000: the new total, what was filled included.
    pub quantity: u64,
    /// TimeInForce (59). Only a day order can be replaced, by a day order.
    pub time_in_force: TimeInForce,
}

/// SessionRejectReason (373): what is wrong with a message's fields.
#[derive(Clone, Copy, Debug, PartialEq, Eq)]
pub enum SessionRejectReason {
    /// 1: a required tag is missing.
    RequiredTagMissing,
    /// 2: the tag isn't defined for this message type.
    TagNotDefined,
    /// 5: the value is incorrect (out of range) for this tag.
    ValueIncorrect,
    /// 6: the value has an incorrect data format.
    IncorrectFormat,
    /// 13: the tag appears more than once.
    TagAppearsMoreThanOnce,
}

/// RefMsgType (372): the type of the message that is answered.
#[derive(Clone, Copy, Debug, PartialEq, Eq)]
pub enum RefMsgType {
    /// D.
    NewOrderSingle,
    /// F.
    OrderCancelRequest,
    /// G.
    OrderCancelReplaceRequest,
}

/// What is wrong with a message that has a right header and is of type D, F or G: its one fault.
#[derive(Clone, Copy)]
pub struct Malformed {
    /// SessionRejectReason (373).
    pub reason: SessionRejectReason,
    /// RefTagID (371), 1 to 99,999.
    pub tag: u32,
    /// RefSeqNum (45): MsgSeqNum (34) of the message, 1 to 999,999,999.
    pub ref_seq: u32,
    /// RefMsgType (372).
    pub ref_type: RefMsgType,
}

/// What an entry asks. Each but `Void` has SendingTime (52) of its message, as the number of its 14 digits
/// YYYYMMDDHHMMSS.
#[derive(Clone, Copy)]
pub enum Command {
    /// A new order.
    New {
        sending_time: u64,
        order: NewOrderSingle,
    },
    /// A resting order out of the book.
    Cancel {
        sending_time: u64,
        request: OrderCancelRequest,
    },
    /// Another price or total for a resting order.
    Replace {
        sending_time: u64,
        request: OrderCancelReplaceRequest,
    },
    /// A message with a fault, which is rejected.
    Malformed {
        sending_time: u64,
        fault: Malformed,
    },
    /// Bytes that are no message with a right header of type D, F or G: they change nothing.
    Void,
}

impl Command {
    /// Whether its numbers are in the ranges of what is read out of messages: ClOrdIDs 1 to 999,999,999,999,999, prices
    /// and quantities 1 to 1,000,000.
    pub fn is_in_range(&self) -> bool
        ensures { IsTrue result ↔ IsCommand self.now }
    {
        match self {
            Command::New { order, .. } => {
                is_name(order.cl_ord_id) && is_price(order.ord_type) && is_amount(order.quantity)
            }
            Command::Cancel { request, .. } => {
                is_name(request.cl_ord_id) && is_name(request.orig_cl_ord_id)
            }
            Command::Replace { request, .. } => {
                is_name(request.cl_ord_id)
                    && is_name(request.orig_cl_ord_id)
                    && is_amount(request.price)
                    && is_amount(request.quantity)
            }
            Command::Malformed { .. } | Command::Void => true,
        }
    }
}

/// Whether the number is one of a ClOrdID.
fn is_name(number: u64) -> bool
    ensures { IsTrue result ↔ IsName number }
{
    1 <= number && number <= 999_999_999_999_999
}

/// Whether the price is one, where there is one.
fn is_price(ord_type: OrdType) -> bool
    ensures { IsTrue result ↔ IsPriced ord_type }
{
    match ord_type {
        OrdType::Market => true,
        OrdType::Limit { price } => is_amount(price),
    }
}

/// Whether the number is a price or a quantity.
fn is_amount(number: u64) -> bool
    ensures { IsTrue result ↔ IsAmount number }
{
    1 <= number && number <= 1_000_000
}

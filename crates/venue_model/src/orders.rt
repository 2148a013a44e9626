//! An order as it rests in the book and as reports show it: what is left of it, what a fill or a replace makes of it,
//! and which orders it crosses.
ghost use Rattle.std.specs.Prelude.{◌≡◌, ◌<◌, ◌+◌, ◌*◌, ◌^◌};
ghost use Rattle.venue_model.specs.Orders.{opposite, same_side, meets, leaves, crosses};
ghost use Rattle.venue_model.specs.Match.{filled};
ghost use Rattle.venue_model.specs.Requests.{amended};

use crate::{OrderCancelReplaceRequest, Symbol};

/// Side (54).
#[derive(Clone, Copy, Debug, PartialEq, Eq)]
pub enum Side {
    /// 1.
    Buy,
    /// 2.
    Sell,
}

impl Side {
    /// The other side.
    pub fn opposite(self) -> Side
        ensures { result ≡ opposite self }
    {
        match self {
            Side::Buy => Side::Sell,
            Side::Sell => Side::Buy,
        }
    }

    /// Whether both are one side. It is what `==` answers.
    pub fn is(self, other: Side) -> bool
        ensures { result ≡ same_side self other }
    {
        self == other
    }

    /// Whether an order of this side and price accepts the price of one of the other side.
    pub fn meets(self, price: u64, other: Side, its_price: u64) -> bool
        ensures { result ≡ meets self price other its_price }
    {
        match (self, other) {
            (Side::Buy, Side::Sell) => its_price <= price,
            (Side::Sell, Side::Buy) => price <= its_price,
            _ => false,
        }
    }
}

/// An accepted order.
#[derive(Clone, Copy)]
pub struct Order {
    /// OrderID (37): one more than the sequence of the entry that made it. A replace keeps it.
    pub id: u64,
    /// The gateway of its client, 1 to 8.
    pub client: u8,
    /// ClOrdID (11): the client's last accepted name for it.
    pub cl_ord_id: u64,
    /// Symbol (55).
    pub symbol: Symbol,
    /// Side (54).
    pub side: Side,
    /// Whether it came in as a market order (40=1): then its reports have no Price (44), and it never rests.
    pub is_market: bool,
    /// Price (44) in ticks, 1 to 1,000,000; of a market order the one that all prices of the other side meet.
    pub price: u64,
    /// OrderQty (38), 1 to 1,000,000.
    pub total: u64,
    /// CumQty (14): how much of it was filled.
    pub cum: u64,
    /// The sum over its fills of quantity times price; AvgPx (6) is this divided by `cum`.
    pub notional: u64,
    /// Its place in time: the sequence of the entry that last put it behind the others at its price.
    pub stamp: u64,
}

impl Order {
    /// LeavesQty (151): what is left to fill, `total` less `cum`.
    pub fn leaves(&self) -> u64
        ensures { result ≡ leaves self.now }
    {
        self.total.saturating_sub(self.cum)
    }

    /// Whether it and an order that rests can trade: they are of one symbol, and of two sides whose prices meet.
    pub fn crosses(&self, resting: &Order) -> bool
        ensures { result ≡ crosses self.now resting.now }
    {
        self.symbol.is(&resting.symbol) && self.side.meets(self.price, resting.side, resting.price)
    }

    /// The order after a fill of this quantity at this price.
    pub fn filled(&self, quantity: u64, price: u64) -> Order
        requires cum { self.now.cum + quantity < 2 ^ 64 }
        requires notional { self.now.notional + quantity * price < 2 ^ 64 }
        ensures { result ≡ filled self.now quantity price }
    {
        Order {
            cum: self.cum + quantity,
            notional: self.notional + quantity * price,
            ..*self
        }
    }

    /// The order with the request's name, price and total.
    pub fn amended(&self, request: &OrderCancelReplaceRequest) -> Order
        ensures { result ≡ amended request.now self.now }
    {
        Order {
            cl_ord_id: request.cl_ord_id,
            price: request.price,
            total: request.quantity,
            ..*self
        }
    }
}

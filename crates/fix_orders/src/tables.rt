//! The tables by which order messages are read, one for each type and one more for market orders, and the tags behind
//! the header with what each table has of them (docs/PROFILE.md, "Order messages").
ghost use Rattle.std.specs.Prelude.{◌≡◌, ◌<◌, MatchOption, IsFalse};
ghost use Rattle.fix_orders.specs.Formats.{ord_type_code};
ghost use Rattle.fix_orders.specs.Reading.{ref_type, table_for, is_among};
ghost use Rattle.fix_orders.specs.OrderTags.{tag_number, tag_place, need_of, order_numbers};

use venue_model::RefMsgType;

/// By which table a message is read: which tags it has, which of them it requires, and what OrdType (40) is.
#[derive(Clone, Copy, Debug, PartialEq, Eq)]
pub enum Table {
    /// NewOrderSingle (35=D) with a price.
    LimitOrder,
    /// NewOrderSingle (35=D) without one.
    MarketOrder,
    /// OrderCancelRequest (35=F).
    CancelRequest,
    /// OrderCancelReplaceRequest (35=G).
    ReplaceRequest,
}

impl Table {
    /// The table for messages of this type. Only a new order can be a market order.
    pub fn of(kind: RefMsgType, asks_market: bool) -> Table
        ensures { result ≡ table_for kind asks_market }
    {
        match kind {
            RefMsgType::NewOrderSingle if asks_market => Table::MarketOrder,
            RefMsgType::NewOrderSingle => Table::LimitOrder,
            RefMsgType::OrderCancelRequest => Table::CancelRequest,
            RefMsgType::OrderCancelReplaceRequest => Table::ReplaceRequest,
        }
    }

    /// The type whose messages it is for.
    pub fn ref_type(self) -> RefMsgType
        ensures { result ≡ ref_type self }
    {
        match self {
            Table::LimitOrder | Table::MarketOrder => RefMsgType::NewOrderSingle,
            Table::CancelRequest => RefMsgType::OrderCancelRequest,
            Table::ReplaceRequest => RefMsgType::OrderCancelReplaceRequest,
        }
    }

    /// What OrdType (40) has to be.
    pub fn ord_type(self) -> &'static [u8]
        ensures { result.now ≡ ord_type_code self }
    {
        match self {
            Table::MarketOrder => b"1",
            _ => b"2",
        }
    }
}

/// A tag that some type of order message has.
#[derive(Clone, Copy, Debug, PartialEq, Eq)]
pub enum OrderTag {
    ClOrdId = 11,
    OrderQty = 38,
    OrdType = 40,
    OrigClOrdId = 41,
    Price = 44,
    Side = 54,
    Symbol = 55,
    TimeInForce = 59,
    TransactTime = 60,
}

/// All of them.
pub const ORDER_TAGS: [OrderTag; 9] = [
    OrderTag::ClOrdId,
    OrderTag::OrderQty,
    OrderTag::OrdType,
    OrderTag::OrigClOrdId,
    OrderTag::Price,
    OrderTag::Side,
    OrderTag::Symbol,
    OrderTag::TimeInForce,
    OrderTag::TransactTime,
];

/// What a table does with a tag.
#[derive(Clone, Copy, Debug, PartialEq, Eq)]
pub enum Need {
    Required,
    Optional,
    Undefined,
}

impl OrderTag {
    /// The tag of this number.
    pub fn of(number: u32) -> Option<OrderTag>
        ensures { MatchOption result (IsFalse (is_among order_numbers number)) (λ tag. tag_number tag ≡ number) }
    {
        match number {
            11 => Some(OrderTag::ClOrdId),
            38 => Some(OrderTag::OrderQty),
            40 => Some(OrderTag::OrdType),
            41 => Some(OrderTag::OrigClOrdId),
            44 => Some(OrderTag::Price),
            54 => Some(OrderTag::Side),
            55 => Some(OrderTag::Symbol),
            59 => Some(OrderTag::TimeInForce),
            60 => Some(OrderTag::TransactTime),
            _ => None,
        }
    }

    /// Its number.
    pub fn number(self) -> u32
        ensures { result ≡ tag_number self }
    {
        self as u32
    }

    /// Its place among all of them.
    pub fn place(self) -> usize
        ensures value { result ≡ tag_place self }
        ensures few { result < 9 }
    {
        match self {
            OrderTag::ClOrdId => 0,
            OrderTag::OrderQty => 1,
            OrderTag::OrdType => 2,
            OrderTag::OrigClOrdId => 3,
            OrderTag::Price => 4,
            OrderTag::Side => 5,
            OrderTag::Symbol => 6,
            OrderTag::TimeInForce => 7,
            OrderTag::TransactTime => 8,
        }
    }

    /// What this table does with it.
    pub fn need(self, table: Table) -> Need
        ensures { result ≡ need_of table self }
    {
        match (self, table) {
            (OrderTag::OrigClOrdId, Table::LimitOrder | Table::MarketOrder) => Need::Undefined,
            (OrderTag::Price, Table::MarketOrder | Table::CancelRequest) => Need::Undefined,
            (OrderTag::OrdType | OrderTag::TimeInForce, Table::CancelRequest) => Need::Undefined,
            (OrderTag::TimeInForce, _) => Need::Optional,
            _ => Need::Required,
        }
    }
}

//! Commands by chance, the same at each run: eight clients, three symbols, and one request of eight with a flaw.
ghost use Rattle.std.specs.Prelude.{◌<◌};

use crate::tests::asking::HALF_PAST_NINE;
use crate::tests::plain_book::PlainBook;
use venue_model::{
    Command, Malformed, NewOrderSingle, OrdType, Order, OrderCancelReplaceRequest,
    OrderCancelRequest, RefMsgType, SessionRejectReason, Side, Symbol, TimeInForce,
};

/// Up to this turn all are new orders that rest, until no more can.
pub const FILLED: u64 = 4_200;

/// Buys that are to rest are below this price, sells at it or above.
const MIDDLE: u64 = 10_000;

/// Why a request is to be refused, if it is.
#[derive(Clone, Copy, PartialEq, Eq)]
enum Flaw {
    None,
    /// Its ClOrdID was used before.
    OldName,
    /// Its symbol isn't the venue's, or not that of the order that it names.
    OtherSymbol,
    /// Its side isn't that of the order that it names.
    OtherSide,
    /// No order rests under the name that it names.
    UnknownOrder,
    /// Its numbers are fine, but a field of its message isn't.
    Malformed,
}

/// Numbers by chance, by a linear congruence, and the symbols that requests name: three of the venue's, and another.
#[derive(Drop)]
pub struct Chance {
    state: u64,
    symbols: [Symbol; 4],
}

impl Chance {
    pub fn new(symbols: [Symbol; 4]) -> Chance {
        Chance { state: 1, symbols }
    }

    /// The next number below this bound.
    fn below(&mut self, bound: u64) -> u64
        requires { 0 < bound }
        ensures { result < bound }
    {
        self.state = self
            .state
            .wrapping_mul(6_364_136_223_846_793_005)
            .wrapping_add(1_442_695_040_888_963_407);
        (self.state >> 33) % bound
    }

    /// The next command and its client. From `FILLED` on, of a hundred some thirty are orders that rest, fifteen trade,
    /// twenty cancel and thirty-five replace.
    pub fn command(&mut self, plain: &PlainBook, turn: u64) -> (u8, Command) {
        let name = turn.wrapping_add(1);
        if turn < FILLED {
            return (self.client(), self.new_order(name, false, Flaw::None));
        }
        let flaw = self.flaw();
        let kind = self.below(100);
        let which = self.below((plain.orders.len() as u64).max(1)) as usize;
        match plain.orders.get(which) {
            Some(order) if kind < 20 => (order.client, self.cancel(order, name, flaw)),
            Some(order) if kind < 55 => (order.client, self.replace(order, name, flaw)),
            _ => (self.client(), self.new_order(name, kind < 70, flaw)),
        }
    }

    fn client(&mut self) -> u8 {
        1 + self.below(8) as u8
    }

    /// A flaw in one request of eight.
    fn flaw(&mut self) -> Flaw {
        match self.below(40) {
            0 => Flaw::OldName,
            1 => Flaw::OtherSymbol,
            2 => Flaw::OtherSide,
            3 => Flaw::UnknownOrder,
            4 => Flaw::Malformed,
            _ => Flaw::None,
        }
    }

    /// One of the venue's symbols, or the other one.
    fn symbol(&mut self, flaw: Flaw) -> Symbol {
        let number = self.below(3) as usize;
        self.symbols[if flaw == Flaw::OtherSymbol { 3 } else { number }]
    }

    /// A price on the side's own side of the middle, or on the other one's where it is to trade.
    fn price(&mut self, side: Side, trades: bool) -> u64 {
        let ticks = self.below(64);
        if (side == Side::Buy) != trades {
            MIDDLE - 1 - ticks
        } else {
            MIDDLE + ticks
        }
    }

    fn quantity(&mut self) -> u64 {
        1 + self.below(100)
    }

    /// The quantity of a market order: one in eight wants more than there is.
    fn market_quantity(&mut self) -> u64 {
        if self.below(8) == 0 {
            1_000_000
        } else {
            self.quantity()
        }
    }

    /// On which terms an order comes in: one of the three where it is to trade.
    fn terms(&mut self, trades: bool) -> TimeInForce {
        match self.below(3) {
            0 if trades => TimeInForce::ImmediateOrCancel,
            1 if trades => TimeInForce::FillOrKill,
            _ => TimeInForce::Day,
        }
    }

    /// A new order, which rests, or which is to trade, one in four of these without a price.
    fn new_order(&mut self, name: u64, trades: bool, flaw: Flaw) -> Command {
        let side = if self.below(2) == 0 {
            Side::Buy
        } else {
            Side::Sell
        };
        let price = self.price(side, trades);
        let is_market = trades && self.below(4) == 0;
        let order = NewOrderSingle {
            cl_ord_id: name_with(name, flaw),
            symbol: self.symbol(flaw),
            side,
            ord_type: if is_market {
                OrdType::Market
            } else {
                OrdType::Limit { price }
            },
            quantity: if is_market {
                self.market_quantity()
            } else {
                self.quantity()
            },
            time_in_force: self.terms(trades),
        };
        if flaw == Flaw::Malformed {
            return malformed();
        }
        Command::New {
            sending_time: HALF_PAST_NINE,
            order,
        }
    }

    /// A cancel of a resting order.
    fn cancel(&mut self, order: &Order, name: u64, flaw: Flaw) -> Command {
        if flaw == Flaw::Malformed {
            return Command::Void;
        }
        Command::Cancel {
            sending_time: HALF_PAST_NINE,
            request: OrderCancelRequest {
                cl_ord_id: name_with(name, flaw),
                orig_cl_ord_id: named_with(order, name, flaw),
                symbol: self.symbol_with(order, flaw),
                side: side_with(order, flaw),
            },
        }
    }

    /// A replace of a resting order: every second one keeps its price, and one in eight is to trade.
    fn replace(&mut self, order: &Order, name: u64, flaw: Flaw) -> Command {
        let kind = self.below(8);
        let other_price = self.price(order.side, kind == 4);
        Command::Replace {
            sending_time: HALF_PAST_NINE,
            request: OrderCancelReplaceRequest {
                cl_ord_id: name_with(name, flaw),
                orig_cl_ord_id: named_with(order, name, flaw),
                symbol: self.symbol_with(order, flaw),
                side: side_with(order, flaw),
                price: if kind < 4 { order.price } else { other_price },
                quantity: self.quantity(),
                time_in_force: if flaw == Flaw::Malformed {
                    TimeInForce::ImmediateOrCancel
                } else {
                    TimeInForce::Day
                },
            },
        }
    }

    fn symbol_with(&self, order: &Order, flaw: Flaw) -> Symbol {
        if flaw == Flaw::OtherSymbol {
            self.symbols[3]
        } else {
            order.symbol
        }
    }
}

fn name_with(name: u64, flaw: Flaw) -> u64 {
    if flaw == Flaw::OldName { 1 } else { name }
}

/// The name of an order, or one that nobody has used before.
fn named_with(order: &Order, unused: u64, flaw: Flaw) -> u64 {
    if flaw == Flaw::UnknownOrder {
        unused
    } else {
        order.cl_ord_id
    }
}

fn side_with(order: &Order, flaw: Flaw) -> Side {
    if flaw == Flaw::OtherSide {
        order.side.opposite()
    } else {
        order.side
    }
}

/// A message without Price.
fn malformed() -> Command {
    Command::Malformed {
        sending_time: HALF_PAST_NINE,
        fault: Malformed {
            reason: SessionRejectReason::RequiredTagMissing,
            tag: 44,
            ref_seq: 2,
            ref_type: RefMsgType::NewOrderSingle,
        },
    }
}

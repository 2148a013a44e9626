//! What eight traders ask by chance: three new orders to one cancel and a bit less than one replace, among so many that
//! rest. Of the new ones some rest and some trade at once, so that about as many rest at the end as at the beginning.
ghost use Rattle.std.specs.Prelude.{◌↔◌, IsTrue};
ghost use Rattle.bench.specs.Fits.{Fits};

use crate::book_rate::SYMBOLS;
use crate::fault::Fault;
use std::alloc::{AllocError, Global};
use venue_model::{
    Command, ExecType, NewOrderSingle, OrdType, Order, OrderCancelReplaceRequest,
    OrderCancelRequest, Output, Report, Side, Symbol, TimeInForce,
};

/// How many orders are known at most. An order's ClOrdID says its place among them: the remainder by this number.
const PLACES: u64 = 4_096;

/// The place of orders that never rest.
const NO_PLACE: u64 = 4_095;

/// SendingTime (52) of all commands.
const TIME: u64 = 20_250_102_093_000;

/// Buyers pay less than this and sellers want at least it, where their orders are to rest.
const MIDDLE: u64 = 10_000;

/// How many prices orders rest at, on each side of the middle.
const PRICES: u64 = 32;

/// OrderQty (38) of all orders.
const QUANTITY: u64 = 100;

/// The client, 1 to 8, and what it asks.
pub type Asked = (u8, Command);

/// Whether the book can do it.
pub fn fits(asked: &Asked) -> bool
    ensures { IsTrue result ↔ Fits asked.now }
{
    let (client, command) = asked;
    1 <= *client && *client <= 8 && command.is_in_range()
}

/// The ClOrdID of the `turn`th command, which says the order's place. Later turns have greater ones.
fn cl_ord_id(turn: u32, place: u64) -> u64 {
    (u64::from(turn) + 1) * PLACES + place % PLACES
}

/// A price at which an order of this side rests.
fn resting_price(side: Side, number: u64) -> u64 {
    let off = number % PRICES;
    match side {
        Side::Buy => MIDDLE - 1 - off,
        Side::Sell => MIDDLE + off,
    }
}

/// A price at which an order of this side trades with all that rest.
fn trading_price(side: Side) -> u64 {
    match side {
        Side::Buy => 2 * MIDDLE,
        Side::Sell => 1,
    }
}

/// The traders, and what they know of their orders.
#[derive(Drop)]
pub struct Flow {
    /// The order that rests at each place.
    known: Vec<Option<Order>>,
    /// How many of them rest, and how many are wanted.
    resting: u32,
    wanted: u32,
    /// Whether some of them ask for market orders.
    asks_market: bool,
    /// What the next number by chance comes of.
    state: u64,
}

impl Flow {
    /// Traders who want so many orders to rest, 1 to 4,000, and who ask for market orders or for none.
    pub fn new(alloc: Global, wanted: u32, asks_market: bool) -> Result<Flow, AllocError> {
        Ok(Flow {
            known: vec![in alloc; None; PLACES as usize]?,
            resting: 0,
            wanted,
            asks_market,
            state: 1,
        })
    }

    /// The next number by chance, below 2^31, by a linear congruence.
    fn chance(&mut self) -> u64 {
        self.state = self
            .state
            .wrapping_mul(6_364_136_223_846_793_005)
            .wrapping_add(1_442_695_040_888_963_407);
        self.state >> 33
    }

    /// The `turn`th command: of a hundred some sixty are new orders, twenty-five cancels and fifteen replaces, once the
    /// book is filled. Five of the new ones are market orders, where there are any.
    pub fn next(&mut self, turn: u32) -> Result<Asked, Fault> {
        let place = self.chance() % u64::from(self.wanted.max(1));
        let kind = self.chance() % 100;
        if turn < self.wanted {
            return self.next_new(turn);
        }
        match self.known_at(place) {
            Some(order) if kind < 25 => Ok(cancel(turn, place, &order)),
            Some(order) if kind < 40 => {
                let price = resting_price(order.side, self.chance());
                Ok(replace(turn, place, &order, price))
            }
            _ if kind >= 95 && self.asks_market => self.next_market(turn),
            _ => self.next_new(turn),
        }
    }

    /// The order that rests at this place, if there is one.
    fn known_at(&self, place: u64) -> Option<Order> {
        *self.known.get(place as usize)?
    }

    /// A new order: it rests where fewer rest than are wanted, else it trades at once.
    fn next_new(&mut self, turn: u32) -> Result<Asked, Fault> {
        let (symbol, side) = self.what()?;
        if self.resting >= self.wanted {
            let price = trading_price(side);
            let ord_type = OrdType::Limit { price };
            return Ok(self.new_order(turn, NO_PLACE, symbol, side, ord_type));
        }
        let Some(place) = self.known.iter().position(|order| order.is_none()) else {
            return Err(Fault::Wrong);
        };
        let price = resting_price(side, self.chance());
        let ord_type = OrdType::Limit { price };
        Ok(self.new_order(turn, place as u64, symbol, side, ord_type))
    }

    /// A market order.
    fn next_market(&mut self, turn: u32) -> Result<Asked, Fault> {
        let (symbol, side) = self.what()?;
        Ok(self.new_order(turn, NO_PLACE, symbol, side, OrdType::Market))
    }

    /// A symbol and a side by chance.
    fn what(&mut self) -> Result<(Symbol, Side), Fault> {
        let Some(symbol) = Symbol::new(SYMBOLS[(self.chance() % 8) as usize].as_bytes()) else {
            return Err(Fault::Wrong);
        };
        let side = if self.chance() % 2 == 0 {
            Side::Buy
        } else {
            Side::Sell
        };
        Ok((symbol, side))
    }

    /// A new order of a client chosen by chance.
    fn new_order(
        &mut self,
        turn: u32,
        place: u64,
        symbol: Symbol,
        side: Side,
        ord_type: OrdType,
    ) -> Asked {
        let time_in_force = match place {
            NO_PLACE => TimeInForce::ImmediateOrCancel,
            _ => TimeInForce::Day,
        };
        let order = NewOrderSingle {
            cl_ord_id: cl_ord_id(turn, place),
            symbol,
            side,
            ord_type,
            quantity: QUANTITY,
            time_in_force,
        };
        let command = Command::New {
            sending_time: TIME,
            order,
        };
        ((1 + self.chance() % 8) as u8, command)
    }

    /// Takes note of what outputs say.
    pub fn learn(&mut self, outputs: &[Output]) {
        for output in outputs {
            self.learn_one(output);
        }
    }

    /// Takes note of what an output says of the order at a place: that it rests, or that it is gone.
    fn learn_one(&mut self, output: &Output) {
        let Report::Exec(report) = &output.report else {
            return;
        };
        let order = report.order;
        let rests = match report.exec_type {
            ExecType::New | ExecType::Replaced { .. } => true,
            ExecType::Trade { .. } if order.cum == order.total => false,
            ExecType::Canceled { .. } => false,
            ExecType::Trade { .. } | ExecType::Rejected { .. } => return,
        };
        let place = order.cl_ord_id % PLACES;
        if place == NO_PLACE {
            return;
        }
        if let Some(known) = self.known.get_mut(place as usize) {
            let before = known.is_some();
            *known = if rests { Some(order) } else { None };
            self.resting = self
                .resting
                .saturating_add(u32::from(rests))
                .saturating_sub(u32::from(before));
        }
    }
}

/// The cancel of an order that rests.
fn cancel(turn: u32, place: u64, order: &Order) -> Asked {
    let request = OrderCancelRequest {
        cl_ord_id: cl_ord_id(turn, place),
        orig_cl_ord_id: order.cl_ord_id,
        symbol: order.symbol,
        side: order.side,
    };
    let command = Command::Cancel {
        sending_time: TIME,
        request,
    };
    (order.client, command)
}

/// The replace of an order that rests, at another price.
fn replace(turn: u32, place: u64, order: &Order, price: u64) -> Asked {
    let request = OrderCancelReplaceRequest {
        cl_ord_id: cl_ord_id(turn, place),
        orig_cl_ord_id: order.cl_ord_id,
        symbol: order.symbol,
        side: order.side,
        price,
        quantity: QUANTITY,
        time_in_force: TimeInForce::Day,
    };
    let command = Command::Replace {
        sending_time: TIME,
        request,
    };
    (order.client, command)
}

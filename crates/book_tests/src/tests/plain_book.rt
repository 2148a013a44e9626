//! A book over a plain list, in the order of the stamps, which is searched from the front for everything: what the book
//! over price levels is held against. It is written from docs/PROFILE.md, has no clauses, and shares nothing with that
//! book but the types of commands and outputs.

use std::alloc::{AllocError, Global};
use venue_model::{
    Command, CxlRejReason, CxlRejResponseTo, ExecType, ExecutionReport, NewOrderSingle,
    OrdRejReason, OrdType, Order, OrderCancelReject, OrderCancelReplaceRequest, OrderCancelRequest,
    Output, Report, Side, Symbol, TimeInForce,
};

/// How many orders rest at most.
const MOST: usize = 4096;

/// Where a command's outputs come from.
#[derive(Clone, Copy)]
struct Origin {
    client: u8,
    sequence: u64,
    time: u64,
}

/// The resting orders, in the order of their stamps; each client's greatest accepted ClOrdID; the venue's symbols.
#[derive(Drop)]
pub struct PlainBook {
    pub orders: Vec<Order>,
    greatest: [u64; 8],
    symbols: Vec<Symbol>,
}

impl PlainBook {
    /// The empty book of a venue that trades these symbols.
    pub fn new(alloc: Global, symbols: &[Symbol]) -> Result<PlainBook, AllocError> {
        Ok(PlainBook {
            orders: Vec::with_capacity(alloc, MOST)?,
            greatest: [0; 8],
            symbols: Vec::from_slice(alloc, symbols)?,
        })
    }

    /// Does what a client's command at this sequence asks, and puts its outputs behind those in `out`.
    pub fn apply(
        &mut self,
        sequence: u64,
        client: u8,
        command: &Command,
        out: &mut Vec<Output>,
    ) -> Result<(), AllocError> {
        match command {
            Command::New {
                sending_time,
                order,
            } => self.new_order(origin_of(client, sequence, *sending_time), order, out),
            Command::Cancel {
                sending_time,
                request,
            } => self.cancel(origin_of(client, sequence, *sending_time), request, out),
            Command::Replace {
                sending_time,
                request,
            } => self.replace(origin_of(client, sequence, *sending_time), request, out),
            Command::Malformed {
                sending_time,
                fault,
            } => put(
                origin_of(client, sequence, *sending_time),
                client,
                Report::SessionReject(*fault),
                out,
            ),
            Command::Void => Ok(()),
        }
    }

    /// A client's greatest accepted ClOrdID.
    fn greatest_of(&self, client: u8) -> u64 {
        match self.greatest.get(place_of(client)) {
            Some(greatest) => *greatest,
            None => 0,
        }
    }

    /// Notes a ClOrdID as accepted.
    fn accept(&mut self, client: u8, cl_ord_id: u64) {
        if let Some(greatest) = self.greatest.get_mut(place_of(client)) {
            *greatest = cl_ord_id;
        }
    }

    /// Where the client's order of this ClOrdID stands.
    fn named(&self, client: u8, cl_ord_id: u64) -> Option<usize> {
        self.orders.iter().position(|order| order.client == client && order.cl_ord_id == cl_ord_id)
    }

    /// The order at this place.
    fn at(&self, place: Option<usize>) -> Option<Order> {
        Some(*self.orders.get(place?)?)
    }

    fn take_out(&mut self, place: usize) {
        if place < self.orders.len() {
            self.orders.remove(place);
        }
    }

    fn new_order(
        &mut self,
        origin: Origin,
        request: &NewOrderSingle,
        out: &mut Vec<Output>,
    ) -> Result<(), AllocError> {
        let order = order_of(origin, request);
        if let Some(reason) = self.new_refusal(origin.client, request) {
            return tell(origin, ExecType::Rejected { reason }, &order, out);
        }
        self.accept(origin.client, request.cl_ord_id);
        tell(origin, ExecType::New, &order, out)?;
        self.enter(origin, &order, terms_of(request), out)
    }

    /// Why a new order is refused.
    fn new_refusal(&self, client: u8, request: &NewOrderSingle) -> Option<OrdRejReason> {
        if request.cl_ord_id <= self.greatest_of(client) {
            Some(OrdRejReason::DuplicateOrder)
        } else if !self.symbols.iter().any(|symbol| symbol.is(&request.symbol)) {
            Some(OrdRejReason::UnknownSymbol)
        } else if terms_of(request) == TimeInForce::Day && self.orders.len() >= MOST {
            Some(OrdRejReason::BookFull)
        } else {
            None
        }
    }

    fn cancel(
        &mut self,
        origin: Origin,
        request: &OrderCancelRequest,
        out: &mut Vec<Output>,
    ) -> Result<(), AllocError> {
        let place = self.named(origin.client, request.orig_cl_ord_id);
        let named = self.at(place);
        let fits = can_cancel(request, &named);
        let reason = self.refusal(origin.client, request.cl_ord_id, place.is_some(), fits);
        if let Some(reason) = reason {
            return refuse_cancel(origin, request, named, reason, out);
        }
        self.accept(origin.client, request.cl_ord_id);
        let (Some(place), Some(order)) = (place, named) else {
            return Ok(());
        };
        self.take_out(place);
        let exec_type = ExecType::Canceled {
            orig_cl_ord_id: Some(request.orig_cl_ord_id),
        };
        let canceled = Order {
            cl_ord_id: request.cl_ord_id,
            ..order
        };
        tell(origin, exec_type, &canceled, out)
    }

    fn replace(
        &mut self,
        origin: Origin,
        request: &OrderCancelReplaceRequest,
        out: &mut Vec<Output>,
    ) -> Result<(), AllocError> {
        let place = self.named(origin.client, request.orig_cl_ord_id);
        let named = self.at(place);
        let fits = can_replace(request, &named);
        let reason = self.refusal(origin.client, request.cl_ord_id, place.is_some(), fits);
        if let Some(reason) = reason {
            return refuse_replace(origin, request, named, reason, out);
        }
        self.accept(origin.client, request.cl_ord_id);
        let (Some(place), Some(order)) = (place, named) else {
            return Ok(());
        };
        self.amend(origin, request, place, &order, out)
    }

    /// Why a cancel or a replace under this ClOrdID is refused, by whether its order rests, and fits it.
    fn refusal(
        &self,
        client: u8,
        cl_ord_id: u64,
        is_there: bool,
        fits: bool,
    ) -> Option<CxlRejReason> {
        if cl_ord_id <= self.greatest_of(client) {
            Some(CxlRejReason::DuplicateClOrdId)
        } else if !is_there {
            Some(CxlRejReason::UnknownOrder)
        } else if !fits {
            Some(CxlRejReason::BrokerOption)
        } else {
            None
        }
    }

    /// Amends the order at this place: it stays there, or it comes in again.
    fn amend(
        &mut self,
        origin: Origin,
        request: &OrderCancelReplaceRequest,
        place: usize,
        order: &Order,
        out: &mut Vec<Output>,
    ) -> Result<(), AllocError> {
        let exec_type = ExecType::Replaced {
            orig_cl_ord_id: request.orig_cl_ord_id,
        };
        let stays = request.price == order.price && request.quantity <= order.total;
        let amended = Order {
            cl_ord_id: request.cl_ord_id,
            price: request.price,
            total: request.quantity,
            stamp: if stays { order.stamp } else { origin.sequence },
            ..*order
        };
        tell(origin, exec_type, &amended, out)?;
        if !stays {
            self.take_out(place);
            return self.enter(origin, &amended, TimeInForce::Day, out);
        }
        if let Some(order) = self.orders.get_mut(place) {
            *order = amended;
        }
        Ok(())
    }

    /// An order comes in on these terms, behind all that rest.
    fn enter(
        &mut self,
        origin: Origin,
        incoming: &Order,
        terms: TimeInForce,
        out: &mut Vec<Output>,
    ) -> Result<(), AllocError> {
        if terms == TimeInForce::FillOrKill && self.crossed_total(incoming) < left(incoming) {
            return tell(origin, canceled(), incoming, out);
        }
        let mut incoming = *incoming;
        for _ in 0..MOST {
            let Some(place) = self.best(&incoming) else {
                break;
            };
            self.fill(origin, &mut incoming, place, out)?;
        }
        if left(&incoming) == 0 {
            return Ok(());
        }
        if terms == TimeInForce::Day {
            return push(&mut self.orders, &incoming);
        }
        tell(origin, canceled(), &incoming, out)
    }

    /// What the orders that it crosses have left.
    fn crossed_total(&self, incoming: &Order) -> u64 {
        let mut total = 0_u64;
        for order in &self.orders {
            if crosses(incoming, order) {
                total = total.wrapping_add(left(order));
            }
        }
        total
    }

    /// Where the order stands that it fills next, if something is left of it: of the best price the first one.
    fn best(&self, incoming: &Order) -> Option<usize> {
        if left(incoming) == 0 {
            return None;
        }
        let mut best = None;
        let mut price = incoming.price;
        for (place, order) in self.orders.iter().enumerate() {
            let is_first = best.is_none() || is_better(order.side, order.price, price);
            if is_first && crosses(incoming, order) {
                best = Some(place);
                price = order.price;
            }
        }
        best
    }

    /// Fills the order at this place, as far as both go, and tells both sides.
    fn fill(
        &mut self,
        origin: Origin,
        incoming: &mut Order,
        place: usize,
        out: &mut Vec<Output>,
    ) -> Result<(), AllocError> {
        let Some(resting) = self.orders.get_mut(place) else {
            return Ok(());
        };
        let last_px = resting.price;
        let last_qty = left(resting).min(left(incoming));
        add(resting, last_qty, last_px);
        add(incoming, last_qty, last_px);
        let filled = *resting;
        let exec_type = ExecType::Trade { last_qty, last_px };
        tell(origin, exec_type, &filled, out)?;
        tell(origin, exec_type, incoming, out)?;
        if left(&filled) == 0 {
            self.take_out(place);
        }
        Ok(())
    }
}

/// The order that a request asks for. All prices of the other side meet that of a market order.
fn order_of(origin: Origin, request: &NewOrderSingle) -> Order {
    let (price, is_market) = match (request.ord_type, request.side) {
        (OrdType::Limit { price }, _) => (price, false),
        (OrdType::Market, Side::Buy) => (1_000_000, true),
        (OrdType::Market, Side::Sell) => (0, true),
    };
    Order {
        id: origin.sequence.wrapping_add(1),
        client: origin.client,
        cl_ord_id: request.cl_ord_id,
        symbol: request.symbol,
        side: request.side,
        price,
        is_market,
        total: request.quantity,
        cum: 0,
        notional: 0,
        stamp: origin.sequence,
    }
}

/// On which terms a new order comes in: nothing of a market order rests.
fn terms_of(request: &NewOrderSingle) -> TimeInForce {
    match (request.ord_type, request.time_in_force) {
        (OrdType::Market, TimeInForce::Day) => TimeInForce::ImmediateOrCancel,
        (_, time_in_force) => time_in_force,
    }
}

/// Whether a price is better for the other side.
fn is_better(side: Side, price: u64, other: u64) -> bool {
    match side {
        Side::Buy => other < price,
        Side::Sell => price < other,
    }
}

fn crosses(incoming: &Order, order: &Order) -> bool {
    let meets = match incoming.side {
        Side::Buy => order.price <= incoming.price,
        Side::Sell => incoming.price <= order.price,
    };
    meets && incoming.side != order.side && incoming.symbol.is(&order.symbol)
}

/// Whether a cancel is of the order's symbol and side.
fn can_cancel(request: &OrderCancelRequest, order: &Option<Order>) -> bool {
    match order {
        Some(order) => request.symbol.is(&order.symbol) && request.side == order.side,
        None => false,
    }
}

/// Whether a replace is of the order's symbol and side, and leaves a day order with something left.
fn can_replace(request: &OrderCancelReplaceRequest, order: &Option<Order>) -> bool {
    match order {
        Some(order) => {
            request.symbol.is(&order.symbol)
                && request.side == order.side
                && request.time_in_force == TimeInForce::Day
                && order.cum < request.quantity
        }
        None => false,
    }
}

fn left(order: &Order) -> u64 {
    order.total.wrapping_sub(order.cum)
}

/// A fill of an order.
fn add(order: &mut Order, quantity: u64, price: u64) {
    order.cum = order.cum.wrapping_add(quantity);
    order.notional = order.notional.wrapping_add(quantity.wrapping_mul(price));
}

/// The place of a client among eight.
fn place_of(client: u8) -> usize {
    usize::from(client.wrapping_sub(1))
}

fn origin_of(client: u8, sequence: u64, time: u64) -> Origin {
    Origin {
        client,
        sequence,
        time,
    }
}

/// Canceled by its own terms.
fn canceled() -> ExecType {
    ExecType::Canceled {
        orig_cl_ord_id: None,
    }
}

fn tell(
    origin: Origin,
    exec_type: ExecType,
    order: &Order,
    out: &mut Vec<Output>,
) -> Result<(), AllocError> {
    let report = ExecutionReport {
        exec_type,
        order: *order,
    };
    put(origin, order.client, Report::Exec(report), out)
}

fn refuse_cancel(
    origin: Origin,
    request: &OrderCancelRequest,
    order: Option<Order>,
    reason: CxlRejReason,
    out: &mut Vec<Output>,
) -> Result<(), AllocError> {
    let reject = OrderCancelReject {
        order,
        cl_ord_id: request.cl_ord_id,
        orig_cl_ord_id: request.orig_cl_ord_id,
        response_to: CxlRejResponseTo::Cancel,
        reason,
    };
    put(origin, origin.client, Report::CancelReject(reject), out)
}

fn refuse_replace(
    origin: Origin,
    request: &OrderCancelReplaceRequest,
    order: Option<Order>,
    reason: CxlRejReason,
    out: &mut Vec<Output>,
) -> Result<(), AllocError> {
    let reject = OrderCancelReject {
        order,
        cl_ord_id: request.cl_ord_id,
        orig_cl_ord_id: request.orig_cl_ord_id,
        response_to: CxlRejResponseTo::CancelReplace,
        reason,
    };
    put(origin, origin.client, Report::CancelReject(reject), out)
}

fn put(origin: Origin, to: u8, report: Report, out: &mut Vec<Output>) -> Result<(), AllocError> {
    let output = Output {
        to,
        cause: origin.sequence,
        sending_time: origin.time,
        report,
    };
    push(out, &output)
}

/// Puts a value behind the others.
fn push<T: Copy>(values: &mut Vec<T>, value: &T) -> Result<(), AllocError> {
    match values.push(*value) {
        Ok(()) => Ok(()),
        Err(_) => Err(AllocError),
    }
}

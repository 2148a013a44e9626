//! What each request does to the book, and what it tells: the refusals in their order, or the match.
ghost use Rattle.std.specs.Prelude.{◌≡◌, ◌≢◌, ⊤, ℕ, ◌+◌, ◌<◌, ◌≤◌, ◌^◌, true, ◌∷◌, length, MatchOption, None, Some};
ghost use Rattle.std.specs.Vec.{vec_len, vec_capacity};
ghost use Rattle.venue_model.specs.Requests.{new_refusal, entering, greatest_of, accepted, State, named, others, on_new, on_cancel, on_replace, cancel_reject, replace_reject, order_replaced, canceled, amended, restamped, keeps_place, amended_in_place, most_resting};
ghost use Rattle.std.specs.List.{list_any};
ghost use Rattle.std.specs.Str.{bytes_eq};
ghost use Rattle.venue_model.specs.Match.{exec, matched, match_outputs};
ghost use Rattle.venue_model.specs.Step.{IsAmount, IsPriced};
ghost use Rattle.book.specs.Standing.{Below};
ghost use Rattle.book.specs.Books.{NoneNamed, IsBook, StandsInBook, StaysInPlace, TakesOut};
ghost use Rattle.book.specs.Commands.{MayComeIn, ComesNext, IsNewName, CanReplace, ComesTo, AddsOutputs, MatchReads};
ghost use Rattle.book.specs.Reads.{fills, named_reads, NewReads, ReplaceReads};

use crate::book::Book;
use crate::matching::enter;
use crate::refusals::{cancel_refusal, replace_refusal};
use crate::reports::{output, put, tell};
use price_levels::Reads;
use venue_model::{
    Cause, CxlRejReason, CxlRejResponseTo, ExecType, MOST_RESTING, NewOrderSingle, OrdRejReason,
    Order, OrderCancelReject, OrderCancelReplaceRequest, OrderCancelRequest, Output, Report,
    Symbol, TimeInForce,
};

impl Book {
    /// A client's greatest accepted ClOrdID.
    fn greatest_of(&self, client: u8) -> u64
        requires from { 1 ≤ client }
        requires to { client ≤ 8 }
        ensures { result ≡ greatest_of self.now.state client }
    {
        self.greatest[client as usize - 1]
    }

    /// The client's resting order of this name. `reads` counts the read of it.
    fn named(&self, client: u8, name: u64, reads: &mut Reads) -> Option<Order>
        requires { reads.old < 2 ^ 32 }
        ensures order { result ≡ named self.now.state client name }
        ensures stands { MatchOption result ⊤ (StandsInBook self.now client) }
        ensures reads { reads.new ≡ reads.old + named_reads result }
    {
        self.orders.named(client, name, reads)
    }

    /// Whether the venue trades the symbol.
    fn trades(&self, symbol: &Symbol) -> bool
        ensures { result ≡ list_any (bytes_eq symbol.now) self.now.limits.symbols }
    {
        self.spots.has(self.logic.symbols(), symbol)
    }

    /// Why a new order is refused: the first reason that holds.
    fn new_refusal(&self, client: u8, order: &NewOrderSingle) -> Option<OrdRejReason>
        requires from { 1 ≤ client }
        requires to { client ≤ 8 }
        ensures { result ≡ new_refusal self.now.limits.symbols self.now.state client order.now }
    {
        if order.cl_ord_id <= self.greatest_of(client) {
            Some(OrdRejReason::DuplicateOrder)
        } else if !self.trades(&order.symbol) {
            Some(OrdRejReason::UnknownSymbol)
        } else if MOST_RESTING <= self.orders.len() && order.terms().rests() {
            Some(OrdRejReason::BookFull)
        } else {
            None
        }
    }

    /// Notes a client's ClOrdID as accepted.
    fn accept(&mut self, client: u8, name: u64)
        requires { IsNewName self.old.state client name }
        ensures value { self.new ≡ record self.old { state = accepted self.old.state client name self.old.state.orders } }
        ensures greatest { greatest_of self.new.state client ≡ name }
        ensures fresh { NoneNamed client name self.old.state.orders }
        ensures book { IsBook self.new.limits.symbols self.new.state.orders self.new.state.greatest }
    {
        self.greatest[client as usize - 1] = name;
    }

    /// Takes the client's order of this name out of the book.
    #[inline(always)]
    fn take_out(&mut self, client: u8, name: u64) -> Order
        requires { named self.old.state client name ≢ None }
        ensures takes { TakesOut client name self.old self.new result }
        ensures below { (sequence : ℕ) → Below sequence self.old.state.orders → Below sequence self.new.state.orders }
        ensures room { length self.new.state.orders < most_resting }
    {
        self.orders.take_out(client, name)
    }

    /// NewOrderSingle: it is refused, or it is acknowledged and matched.
    pub(crate) fn new_order(
        &mut self,
        cause: Cause,
        request: &NewOrderSingle,
        out: &mut Vec<Output>,
        reads: &mut Reads,
    )
        requires next { ComesNext cause.gateway cause.sequence self.old.state.orders }
        requires price { IsPriced request.now.ord_type }
        requires quantity { IsAmount request.now.quantity }
        requires room { vec_len out.old + 8194 ≤ vec_capacity out.old }
        requires reads { reads.old ≡ 0 }
        ensures state { ComesTo (on_new self.old.limits.symbols self.old.state cause request.now).state
            (cause.sequence + 1) self.old self.new }
        ensures told { AddsOutputs (on_new self.old.limits.symbols self.old.state cause request.now).outputs
            out.old out.new }
        ensures reads { NewReads self.old.limits.symbols self.old.state cause request.now reads.new }
    {
        if let Some(reason) = self.new_refusal(cause.gateway, request) {
            let exec_type = ExecType::Rejected { reason };
            tell(out, cause, exec_type, &entering(cause, request));
            return;
        }
        let order = entering(cause, request);
        self.admit(cause, ExecType::New, &order, request.terms(), out, reads);
    }

    /// An order of a symbol of the venue comes in on these terms, under a name that is accepted with it: its client is
    /// told so, and it is matched.
    #[inline(always)]
    fn admit(
        &mut self,
        cause: Cause,
        exec_type: ExecType,
        order: &Order,
        terms: TimeInForce,
        out: &mut Vec<Output>,
        reads: &mut Reads,
    )
        requires name { IsNewName self.old.state order.now.client order.now.cl_ord_id }
        requires known { list_any (bytes_eq order.now.symbol) self.old.limits.symbols ≡ true }
        requires may_come_in { MayComeIn terms order.now self.old.state.orders }
        requires room { vec_len out.old + 8194 ≤ vec_capacity out.old }
        requires reads { reads.old < 2 ^ 32 }
        ensures state { ComesTo (accepted self.old.state order.now.client order.now.cl_ord_id
            (matched terms order.now self.old.state.orders)) (order.now.stamp + 1) self.old self.new }
        ensures told { AddsOutputs (exec cause exec_type order.now
            ∷ match_outputs cause terms order.now self.old.state.orders) out.old out.new }
        ensures reads { MatchReads terms order.now self.old.state.orders reads.old reads.new }
    {
        self.accept(order.client, order.cl_ord_id);
        tell(out, cause, exec_type, order);
        enter(&mut self.orders, order, terms, cause, out, reads);
    }

    /// OrderCancelRequest: it is refused, or the order that it names leaves the book.
    pub(crate) fn cancel(
        &mut self,
        cause: Cause,
        request: &OrderCancelRequest,
        out: &mut Vec<Output>,
        reads: &mut Reads,
    )
        requires next { ComesNext cause.gateway cause.sequence self.old.state.orders }
        requires room { vec_len out.old + 1 ≤ vec_capacity out.old }
        requires reads { reads.old ≡ 0 }
        ensures state { ComesTo (on_cancel self.old.state cause request.now).state (cause.sequence + 1)
            self.old self.new }
        ensures told { AddsOutputs (on_cancel self.old.state cause request.now).outputs out.old out.new }
        ensures reads { reads.new ≡ named_reads (named self.old.state cause.gateway request.now.orig_cl_ord_id) }
    {
        let named = self.named(cause.gateway, request.orig_cl_ord_id, reads);
        let greatest = self.greatest_of(cause.gateway);
        if let Some(reason) = cancel_refusal(greatest, request, &named) {
            put(out, &cancel_reject(cause, request, named, reason));
            return;
        }
        // (told first, from where it is named: its fields needn't be kept while it is taken out)
        let exec_type = ExecType::Canceled {
            orig_cl_ord_id: Some(request.orig_cl_ord_id),
        };
        tell(out, cause, exec_type, &canceled(request, named.unwrap()));
        let _ = self.take_out(cause.gateway, request.orig_cl_ord_id);
        self.accept(cause.gateway, request.cl_ord_id);
    }

    /// OrderCancelReplaceRequest: it is refused, or the order that it names is amended.
    pub(crate) fn replace(
        &mut self,
        cause: Cause,
        request: &OrderCancelReplaceRequest,
        out: &mut Vec<Output>,
        reads: &mut Reads,
    )
        requires next { ComesNext cause.gateway cause.sequence self.old.state.orders }
        requires price { IsAmount request.now.price }
        requires quantity { IsAmount request.now.quantity }
        requires room { vec_len out.old + 8194 ≤ vec_capacity out.old }
        requires reads { reads.old ≡ 0 }
        ensures state { ComesTo (on_replace self.old.state cause request.now).state (cause.sequence + 1)
            self.old self.new }
        ensures told { AddsOutputs (on_replace self.old.state cause request.now).outputs out.old out.new }
        ensures reads { ReplaceReads self.old.state cause request.now reads.new }
    {
        let named = self.named(cause.gateway, request.orig_cl_ord_id, reads);
        let greatest = self.greatest_of(cause.gateway);
        if let Some(reason) = replace_refusal(greatest, request, &named) {
            put(out, &replace_reject(cause, request, named, reason));
            return;
        }
        self.amend(cause, request, &named.unwrap(), out, reads);
    }

    /// Amends this order, which the request names: it stays where it is, or it comes in again behind all others.
    fn amend(
        &mut self,
        cause: Cause,
        request: &OrderCancelReplaceRequest,
        order: &Order,
        out: &mut Vec<Output>,
        reads: &mut Reads,
    )
        requires next { ComesNext cause.gateway cause.sequence self.old.state.orders }
        requires can_replace { CanReplace self.old cause.gateway request.now order.now }
        requires room { vec_len out.old + 8194 ≤ vec_capacity out.old }
        requires reads { reads.old ≡ 1 }
        ensures state { ComesTo (order_replaced self.old.state cause request.now (Some order.now)).state
            (cause.sequence + 1) self.old self.new }
        ensures told { AddsOutputs (order_replaced self.old.state cause request.now (Some order.now)).outputs
            out.old out.new }
        ensures reads { (1 ≤ reads.new) × (reads.new ≤ 1
            + fills (restamped cause (amended request.now order.now)) (others self.old.state cause.gateway request.now.orig_cl_ord_id) + 1) }
        ensures stays { keeps_place request.now order.now ≡ true → reads.new ≡ 1 }
    {
        let exec_type = ExecType::Replaced {
            orig_cl_ord_id: request.orig_cl_ord_id,
        };
        let amended = order.amended(request);
        if keeps_place(request, order) {
            self.accept(cause.gateway, request.cl_ord_id);
            self.amend_in_place(cause.gateway, request);
            tell(out, cause, exec_type, &amended);
        } else {
            let order = restamped(cause, amended);
            self.take_out(cause.gateway, request.orig_cl_ord_id);
            self.admit(cause, exec_type, &order, TimeInForce::Day, out, reads);
        }
    }

    /// Amends the client's order that the request names where it stands, under its new name, which was accepted.
    fn amend_in_place(&mut self, client: u8, request: &OrderCancelReplaceRequest)
        requires named { MatchOption (named self.old.state client request.now.orig_cl_ord_id) ⊥ (StaysInPlace request.now) }
        requires name { request.now.cl_ord_id ≤ greatest_of self.old.state client }
        requires fresh { NoneNamed client request.now.cl_ord_id self.old.state.orders }
        ensures orders { self.new ≡ record self.old {
          state = record self.old.state { orders = amended_in_place self.old.state client request.now };
        } }
        ensures below { (sequence : ℕ) → Below sequence self.old.state.orders → Below sequence self.new.state.orders }
    {
        self.orders.amend(
            client,
            request.orig_cl_ord_id,
            request.cl_ord_id,
            request.quantity,
        );
    }
}

/// A new order as it comes in.
fn entering(cause: Cause, request: &NewOrderSingle) -> Order
    requires { cause.sequence < 2 ^ 48 }
    ensures { result ≡ entering cause request.now }
{
    Order {
        id: cause.sequence + 1,
        client: cause.gateway,
        cl_ord_id: request.cl_ord_id,
        symbol: request.symbol,
        side: request.side,
        price: request.ord_type.price_of(request.side),
        is_market: request.ord_type.is_market(),
        total: request.quantity,
        cum: 0,
        notional: 0,
        stamp: cause.sequence,
    }
}

/// The reject of a cancel.
fn cancel_reject(
    cause: Cause,
    request: &OrderCancelRequest,
    order: Option<Order>,
    reason: CxlRejReason,
) -> Output
    ensures { (s : State) → order ≡ named s cause.gateway request.now.orig_cl_ord_id
        → result ≡ cancel_reject s cause request.now reason }
{
    let reject = OrderCancelReject {
        order,
        cl_ord_id: request.cl_ord_id,
        orig_cl_ord_id: request.orig_cl_ord_id,
        response_to: CxlRejResponseTo::Cancel,
        reason,
    };
    output(cause, cause.gateway, Report::CancelReject(reject))
}

/// The order under the name that the cancel has given it.
fn canceled(request: &OrderCancelRequest, order: Order) -> Order
    ensures { result ≡ canceled request.now order }
{
    Order {
        cl_ord_id: request.cl_ord_id,
        ..order
    }
}

/// The reject of a replace.
fn replace_reject(
    cause: Cause,
    request: &OrderCancelReplaceRequest,
    order: Option<Order>,
    reason: CxlRejReason,
) -> Output
    ensures { (s : State) → order ≡ named s cause.gateway request.now.orig_cl_ord_id
        → result ≡ replace_reject s cause request.now reason }
{
    let reject = OrderCancelReject {
        order,
        cl_ord_id: request.cl_ord_id,
        orig_cl_ord_id: request.orig_cl_ord_id,
        response_to: CxlRejResponseTo::CancelReplace,
        reason,
    };
    output(cause, cause.gateway, Report::CancelReject(reject))
}

/// Whether the order keeps its place in time: its price stays and its total doesn't grow.
fn keeps_place(request: &OrderCancelReplaceRequest, order: &Order) -> bool
    ensures { result ≡ keeps_place request.now order.now }
{
    request.price == order.price && request.quantity <= order.total
}

/// The same order behind all that came before this command.
fn restamped(cause: Cause, order: Order) -> Order
    ensures { result ≡ restamped cause order }
{
    Order {
        stamp: cause.sequence,
        ..order
    }
}

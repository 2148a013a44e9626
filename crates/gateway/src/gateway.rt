//! A gateway: the sessions of one client, at a seat of the rings. Each turn writes, reads, hears, publishes and hands
//! on a little, so that one thread can take the turns of several. Without a session it passes its outputs over, so that
//! the output ring doesn't wait for it.
ghost use Rattle.std.specs.Prelude.{◌≡◌, ◌≢◌, ◌↔◌, ◌≤◌, ◌<◌, ◌^◌, [], None, true, false, length, IfOk, IfErr};
ghost use Rattle.wires.specs.Flushing.{Flushes};

use crate::ending::{Reason, Turned};
use crate::seat::{TryPublish, take, try_publish};
use crate::session::Session;
use barrier::Take;
use book::BookLogic;
use fix_orders::msg_type_code;
use ring_words::{GatewaySeat, Rings};
use std::alloc::{AllocError, Global};
use std::marker::Model;
use venue_model::LONGEST_MESSAGE;
use wires::{Flushed, Input, TryRead, TryWrite, Wire};

/// After so many turns in a row in which the wire took no byte of those that stood to be written a session is over.
const MOST_DEAF: u32 = 100_000;

/// After so many turns in a row that wrote nothing and took no output, behind the client's end, a session is over.
const MOST_IDLE: u32 = 1_000;

/// Writes the bytes that stand to be written until none is left, the wire takes no more, or it fails.
fn flush<W: Wire>(session: &mut Session, wire: &mut W) -> Flushed
    ensures bytes { Flushes session.old.outgoing session.new.outgoing (W.tells wire.old) (W.tells wire.new) result }
    ensures others { session.new ≡ record session.old { outgoing = session.new.outgoing } }
{
    'bytes: while !session.unsent().is_empty() {
        match wire.try_write(session.unsent()) {
            TryWrite::Put(count) => session.sent(count),
            TryWrite::Nothing => return Flushed::Full,
            TryWrite::Failed => return Flushed::Failed,
        }
    }
    Flushed::All
}

/// A gateway: its seat, the session, the bytes read and not yet fed, counts of turns, and room for an output's body.
/// Contracts see an `AtRings`.
#[derive(Drop)]
pub struct Gateway {
    seat: GatewaySeat<BookLogic>,
    session: Session,
    waiting: Input,
    closed: bool,
    deaf: u32,
    idle: u32,
    passed: u64,
    live: bool,
    body: [u8; LONGEST_MESSAGE],
}

impl Model for Gateway {
    ghost use Rattle.gateway.specs.Gateways.{AtRings};

    ghost Value = { AtRings };

    ghost use Rattle.gateway.specs.Gateways.{at_rings, KeepsGateway};

    ghost view = { at_rings };

    ghost invariant = { KeepsGateway };
}

/// What a turn found to hear.
#[derive(Clone, Copy, Debug, PartialEq, Eq)]
enum Found {
    /// A byte was read or fed, or a message published.
    Something,
    /// Nothing.
    Nothing,
    /// The wire failed.
    Failed,
}

impl Gateway {
    ghost use Rattle.ring_words.specs.At.{IsAt, number};
    ghost use Rattle.std.specs.Prelude.{is_some};
    ghost use Rattle.gateway.specs.Gateways.{around, AwaitsClient, Idles, is_pressed};
    ghost use Rattle.gateway.specs.Delivers.{BeginsSession, Proceeds};
    ghost use Rattle.gateway.specs.Gateways.{begun};
    ghost use Rattle.gateway.specs.TurnParts.{Hears, Publishes, Reads, HandsOn, Rests, Stuck};
    ghost use Rattle.gateway.specs.Seats.{HasSeen, StaysSeated, LooksOnce, MayEnter, MayLook, Uses, ledger_of};

    /// The gateway of a seat that `Rings::open` made, or that a gateway gave back. All its room is made here; no
    /// session is begun. Where room is refused, the seat comes back.
    pub fn new(
        alloc: Global,
        seat: GatewaySeat<BookLogic>,
    ) -> Result<Gateway, (AllocError, GatewaySeat<BookLogic>)> // promise 10
        requires { HasSeen seat }
        ensures made { IfOk result (λ g. g ≡ record { front = record (begun (number seat) 0) { live = false }; seat = seat }) }
        ensures back { IfErr result (λ e. e.1 ≡ seat) }
    {
        match Session::new(alloc, seat.number() as u8) {
            Ok(session) => Ok(Gateway {
                seat,
                session,
                waiting: Input::new(),
                closed: false,
                deaf: 0,
                idle: 0,
                passed: 0,
                live: false,
                body: [0; LONGEST_MESSAGE],
            }),
            Err(refused) => Err((refused, seat)),
        }
    }

    /// Begins a new session of the client.
    pub fn begin(&mut self) // promise 10
        ensures new { self.new ≡ record self.old { front = begun (number self.old.seat) self.old.front.passed } }
        ensures begins { BeginsSession self.new }
    {
        self.session.begin();
        self.waiting = Input::new();
        self.closed = false;
        self.deaf = 0;
        self.idle = 0;
        self.live = true;
    }

    /// One turn of the session.
    pub fn turn<W: Wire, const N: usize, const M: usize, const G: usize>(
        &mut self,
        rings: &Rings<BookLogic, N, M, G>,
        wire: &mut W,
    ) -> Turned // promise 10
        requires live { self.old.front.live ≡ true }
        requires at { IsAt rings.now self.old.seat }
        ensures turn { Proceeds N self.old self.new (W.tells wire.old) (W.tells wire.new) result }
        ensures uses { Uses N self.old.seat self.new.seat }
    {
        let stood = self.session.unsent().len();
        let flushed = flush(&mut self.session, wire);
        let wrote = self.session.unsent().len() < stood;
        match flushed {
            Flushed::Failed => return self.over(Reason::WireFailed),
            Flushed::Full => return self.stuck(wrote),
            Flushed::All => self.deaf = 0,
        }
        if let Some(reason) = self.session.closing() {
            return self.over(reason);
        }
        let heard = self.hear(rings, wire);
        if heard == Found::Failed {
            return self.over(Reason::WireFailed);
        }
        let took = self.hand_on(rings);
        self.rest(wrote, heard, took)
    }

    /// Without a session: passes the next output over, whoever it goes to, or finds none. It never answers `Ended`.
    pub fn idle<const N: usize, const M: usize, const G: usize>(
        &mut self,
        rings: &Rings<BookLogic, N, M, G>,
    ) -> Turned // promise 10
        requires off { self.old.front.live ≡ false }
        requires at { IsAt rings.now self.old.seat }
        ensures idles { Idles self.old.front self.new.front (ledger_of N self.old.seat) (ledger_of N self.new.seat) result }
        ensures off { self.new.front.live ≡ false }
        ensures looks { LooksOnce self.old.seat self.new.seat }
    {
        let next = take(rings, &mut self.seat, &mut self.body);
        match next {
            Take::Mine(_head) => {
                self.passed += 1;
                Turned::Worked
            }
            Take::Passed => Turned::Worked,
            Take::Nothing => Turned::Quiet,
        }
    }

    /// Its number, which is that of its client: 1 to 8.
    pub fn number(&self) -> u64
        ensures { result ≡ number self.now.seat }
    {
        self.seat.number()
    }

    /// Whether it waits for its client: for the Logon, or for the rest of a message.
    pub fn awaits_client(&self) -> bool
        ensures { self.now.front.session.closing ≡ None → (result ≡ true ↔ AwaitsClient self.now.front.session) }
    {
        !self.session.is_logged_on() || self.session.is_midway()
    }

    /// Whether a message waits to be published.
    pub fn is_holding(&self) -> bool
        ensures { result ≡ is_some self.now.front.session.held }
    {
        self.session.is_holding()
    }

    /// Whether it has to go on by itself: a message waits for room, bytes stand to be written, or the client has closed
    /// its side.
    pub fn is_pressed(&self) -> bool
        ensures { result ≡ is_pressed self.now.front }
    {
        self.closed || self.session.is_holding() || !self.session.unsent().is_empty()
    }

    /// How many outputs to the client were passed over, since it wasn't logged on.
    pub fn passed(&self) -> u64 // promise 10
        ensures { result ≡ self.now.front.passed }
    {
        self.passed
    }

    /// Gives the seat back, which has published at each place that it claimed.
    pub fn end(self) -> GatewaySeat<BookLogic> // promise 10
        ensures seat { result ≡ self.seat }
        ensures seen { HasSeen result }
    {
        let Gateway { seat, .. } = self;
        seat
    }

    /// Tries to publish the message held; or, if none is, reads where all is fed, and feeds the session.
    fn hear<W: Wire, const N: usize, const M: usize, const G: usize>(
        &mut self,
        rings: &Rings<BookLogic, N, M, G>,
        wire: &mut W,
    ) -> Found
        requires at { IsAt rings.now self.old.seat }
        requires open { self.old.front.session.closing ≡ None }
        requires silent { self.old.front.session.outgoing ≡ [] }
        requires number { self.old.front.session.number < 2 ^ 63 }
        ensures hears { Hears (around N self.old (W.tells wire.old)) (around N self.new (W.tells wire.new)) result }
        ensures stays { StaysSeated self.old.seat self.new.seat }
        ensures enters { MayEnter N self.old.seat self.new.seat }
    {
        if self.session.is_holding() {
            return self.publish(rings);
        }
        let read = self.read(wire);
        if read == Found::Failed || self.waiting.is_empty() {
            return read;
        }
        let fed = self.session.feed(self.waiting.as_slice());
        self.waiting.skip(fed);
        Found::Something
    }

    /// Tries to publish the message held: one that is published is let go of, and one that is refused stays held.
    fn publish<const N: usize, const M: usize, const G: usize>(
        &mut self,
        rings: &Rings<BookLogic, N, M, G>,
    ) -> Found
        requires at { IsAt rings.now self.old.seat }
        requires open { self.old.front.session.closing ≡ None }
        requires held { self.old.front.session.held ≢ None }
        requires silent { self.old.front.session.outgoing ≡ [] }
        requires number { self.old.front.session.number < 2 ^ 63 }
        ensures publishes { Publishes self.old.front self.new.front (ledger_of N self.old.seat) (ledger_of N self.new.seat) result }
        ensures stays { StaysSeated self.old.seat self.new.seat }
        ensures enters { MayEnter N self.old.seat self.new.seat }
    {
        match try_publish(rings, &mut self.seat, self.session.message()) {
            TryPublish::Done => {
                self.session.published();
                Found::Something
            }
            TryPublish::Refused => Found::Nothing,
            TryPublish::Exhausted => {
                self.session.exhausted();
                Found::Nothing
            }
        }
    }

    /// Reads once, where all is fed and the client hasn't closed its side.
    fn read<W: Wire>(&mut self, wire: &mut W) -> Found
        ensures reads { Reads self.old.front self.new.front (W.tells wire.old) (W.tells wire.new) result }
        ensures seat { self.new.seat ≡ self.old.seat }
    {
        if self.closed || !self.waiting.is_empty() {
            return Found::Nothing;
        }
        match self.waiting.fill(wire) {
            TryRead::Got(_) => Found::Something,
            TryRead::Nothing => Found::Nothing,
            TryRead::End => {
                self.closed = true;
                Found::Nothing
            }
            TryRead::Failed => Found::Failed,
        }
    }

    /// Unless the session closes, takes an output, if there is one. It is handed to the client that it goes to, if that
    /// is logged on, and else passed over. Answers whether there was one.
    fn hand_on<const N: usize, const M: usize, const G: usize>(
        &mut self,
        rings: &Rings<BookLogic, N, M, G>,
    ) -> bool
        requires at { IsAt rings.now self.old.seat }
        requires room { length self.old.front.session.outgoing ≤ 512 }
        requires number { self.old.front.session.number < 2 ^ 63 }
        ensures hands_on { HandsOn self.old.front self.new.front (ledger_of N self.old.seat) (ledger_of N self.new.seat) result }
        ensures stays { StaysSeated self.old.seat self.new.seat }
        ensures looks { MayLook self.old.seat self.new.seat }
    {
        if self.session.closing().is_some() {
            return false;
        }
        match take(rings, &mut self.seat, &mut self.body) {
            Take::Mine(head) if self.session.is_logged_on() => {
                let body = &self.body[..head.len];
                self.session.say(msg_type_code(head.kind), head.time, body);
                true
            }
            Take::Mine(_) => {
                self.passed += 1;
                true
            }
            Take::Passed => true,
            Take::Nothing => false,
        }
    }

    /// Ends a turn that wrote all that stood to be written.
    fn rest(&mut self, wrote: bool, heard: Found, took: bool) -> Turned
        requires live { self.old.front.live ≡ true }
        ensures rests { Rests self.old.front self.new.front wrote heard took result }
        ensures seat { self.new.seat ≡ self.old.seat }
    {
        if wrote || took {
            self.idle = 0;
            return Turned::Worked;
        }
        if self.closed && self.session.closing().is_none() {
            self.idle += 1;
            if self.idle == MOST_IDLE {
                self.live = false;
                return Turned::Ended(Reason::Closed);
            }
        }
        if heard == Found::Something {
            Turned::Worked
        } else {
            Turned::Quiet
        }
    }

    /// Ends a turn that couldn't write all.
    fn stuck(&mut self, wrote: bool) -> Turned
        requires live { self.old.front.live ≡ true }
        ensures stuck { Stuck self.old.front self.new.front wrote result }
        ensures seat { self.new.seat ≡ self.old.seat }
    {
        if wrote {
            self.deaf = 0;
            return Turned::Worked;
        }
        self.deaf += 1;
        if self.deaf == MOST_DEAF {
            self.live = false;
            return Turned::Ended(Reason::Stalled);
        }
        Turned::Quiet
    }

    /// Ends the session.
    fn over(&mut self, reason: Reason) -> Turned
        ensures gone { self.new ≡ record self.old { front = record self.old.front { live = false } } }
        ensures says { result ≡ Turned.Ended reason }
    {
        self.live = false;
        Turned::Ended(reason)
    }
}

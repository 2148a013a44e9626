//! A member of the listening venue: its gateway, who is there, and the port at which its clients come in.
ghost use Rattle.std.specs.Prelude.{◌≡◌, true, false, Some, IfSome, is_some};
ghost use Rattle.ring_words.specs.At.{IsAt, number};
ghost use Rattle.venue.specs.Accepting.{IsAwaited};
ghost use Rattle.venue.specs.Leaving.{IsSeenOff};
ghost use Rattle.venue.specs.Visiting.{WasFlushed, at_gateway, client_in, is_here, is_pressed_at, leaver, told_leaver};
ghost use Rattle.venue.specs.Trading.{TookTurn, LookedLast, TradesOn, IsBack, at_port, GivesBack};
ghost use Rattle.venue.specs.TradingLaws.{more_turns};
ghost use Rattle.venue.specs.Headline.{in_box};
ghost use Rattle.venue.specs.Members.{IsDoor};
ghost use Rattle.venue.specs.Turning.{IsAtRest, IsWantedWhere, SendsOn, SentOn, outcome_at};
ghost use Rattle.wires.specs.Clients.{ShutsLast};

use crate::rings::VenueRings;
use crate::silence::{Silence, seconds};
use crate::visitor::Visitor;
use book::BookLogic;
use gateway::{ClientWire, Gateway, Port, Turned};
use mio::Waker;
use ring_words::GatewaySeat;
use std::alloc::Global;
use std::rt::Clock;
use workers::{Gate, Outcome, Parking, Parks, Signalling, Signals, Station, Worker, work};

/// Each so many turns, a millisecond or two, what waits in the client's wire is sent, also where something moves in all
/// of them: while others' outputs come by without a pause, no turn is quiet. Sent more often, it would go out in
/// smaller pieces while many messages are under way.
const SENDS: u16 = 1_024;

/// A gateway, and room for the wire of who comes to it, made before anybody is served. What a wire takes of memory lies
/// in a box, whatever its size.
pub type Door<W> = (Gateway, Box<Visitor<W>>);

/// A member at its rings: its gateway, who is there, and its port, whose client's wire is out just while somebody is
/// there or leaves.
#[derive(Drop)]
struct Member<'a, C: Clock, W: ClientWire + Drop, X: Port<Wire = W> + Drop, const G: usize> {
    clock: &'a C,
    rings: &'a VenueRings<G>,
    signals: &'a Signals,
    alloc: Global,
    gateway: Gateway,
    visitor: Box<Visitor<W>>,
    port: Box<X>,
    /// Since when the client that is there has kept the gateway waiting.
    silence: Silence,
    /// How many turns it has taken, modulo 65,536.
    turns: u16,
    /// Whether the session of the client that is there is ending, and another one waits at the port.
    is_wanted: bool,
    ghost fits: { IsAt rings.now gateway.seat },
    ghost live: { gateway.front.live ≡ is_some (client_in W.tells visitor.value) },
    ghost out: { (X.tells port.value).out ≡ is_here visitor.value },
}

impl<C: Clock, W: ClientWire + Drop, X: Port<Wire = W> + Drop, const G: usize> Member<
    '_,
    C,
    W,
    X,
    G,
> {
    /// Lets the gateway take its turn, and says whether something moved.
    fn take_turn(&mut self) -> bool
        ensures goes { TradesOn
            self.old.rings.now (at_port W.tells X.tells self.old.gateway self.old.visitor.value self.old.port.value)
            self.new.rings.now (at_port W.tells X.tells self.new.gateway self.new.visitor.value self.new.port.value) }
        ensures took { TookTurn (at_gateway W.tells self.old.gateway self.old.visitor.value)
            (at_gateway W.tells self.new.gateway self.new.visitor.value) result }
        ensures leaver { IfSome (leaver self.old.visitor.value) (λ client.
            leaver self.new.visitor.value ≡ Some client) }
        ensures turns { self.new.turns ≡ self.old.turns }
    {
        self.visitor.turn(self.rings, &mut self.gateway) != Turned::Quiet
    }

    /// Goes on with the client that leaves, if there is one, and says whether it has left now: then the port has its
    /// wire back.
    fn see_off(&mut self) -> bool
        ensures goes { TradesOn
            self.old.rings.now (at_port W.tells X.tells self.old.gateway self.old.visitor.value self.old.port.value)
            self.new.rings.now (at_port W.tells X.tells self.new.gateway self.new.visitor.value self.new.port.value) }
        ensures off { IsSeenOff W.tells W.flushed (ShutsLast W.holds W.failed W.was_shut)
            (leaver self.old.visitor.value) (leaver self.new.visitor.value) }
        ensures same { at_gateway W.tells self.new.gateway self.new.visitor.value
            ≡ at_gateway W.tells self.old.gateway self.old.visitor.value }
        ensures turns { self.new.turns ≡ self.old.turns }
    {
        let Some(wire) = self.visitor.see_off() else {
            return false;
        };
        self.port.take_back(wire);
        true
    }

    /// Lets the next client in, if none is there nor leaves, and one waits at the port, and says whether it did.
    fn admit(&mut self) -> bool
        ensures goes { TradesOn
            self.old.rings.now (at_port W.tells X.tells self.old.gateway self.old.visitor.value self.old.port.value)
            self.new.rings.now (at_port W.tells X.tells self.new.gateway self.new.visitor.value self.new.port.value) }
        ensures leaver { leaver self.new.visitor.value ≡ leaver self.old.visitor.value }
        ensures turns { self.new.turns ≡ self.old.turns }
        ensures none { result ≡ false → at_gateway W.tells self.new.gateway self.new.visitor.value
            ≡ at_gateway W.tells self.old.gateway self.old.visitor.value }
        ensures looked { is_here self.new.visitor.value ≡ false → X.looked self.old.port.value self.new.port.value }
    {
        if !self.visitor.is_nobody() {
            return false;
        }
        let Some(wire) = self.port.accept(self.alloc) else {
            return false;
        };
        self.gateway.begin();
        *self.visitor = Visitor::There(wire);
        true
    }

    /// Counts a turn, and sends what waits in the client's wire behind each 1,024th.
    fn send_on(&mut self)
        ensures rings { self.new.rings.now ≡ self.old.rings.now }
        ensures same { at_port W.tells X.tells self.new.gateway self.new.visitor.value self.new.port.value
            ≡ at_port W.tells X.tells self.old.gateway self.old.visitor.value self.old.port.value }
        ensures leaver { leaver self.new.visitor.value ≡ leaver self.old.visitor.value }
        ensures sends { SendsOn W.tells W.flushed self.old.turns self.new.turns
            (client_in W.tells self.new.visitor.value) }
    {
        self.turns = self.turns.wrapping_add(1);
        if self.turns % SENDS == 0 {
            self.visitor.flush();
        }
    }

    /// Lets go of the client that is awaited.
    fn let_go(&mut self)
        requires { IsAwaited (at_gateway W.tells self.old.gateway self.old.visitor.value) true }
        ensures rings { self.new.rings.now ≡ self.old.rings.now }
        ensures same { at_port W.tells X.tells self.new.gateway self.new.visitor.value self.new.port.value
            ≡ at_port W.tells X.tells self.old.gateway self.old.visitor.value self.old.port.value }
        ensures leaver { leaver self.new.visitor.value ≡ leaver self.old.visitor.value }
        ensures turns { self.new.turns ≡ self.old.turns }
    {
        self.visitor.give_up();
    }

    /// Lets go of a client that has kept its gateway waiting for too long, where another one waits at the port.
    fn let_go_of_silent(&mut self)
        ensures rings { self.new.rings.now ≡ self.old.rings.now }
        ensures same { at_port W.tells X.tells self.new.gateway self.new.visitor.value self.new.port.value
            ≡ at_port W.tells X.tells self.old.gateway self.old.visitor.value self.old.port.value }
        ensures leaver { leaver self.new.visitor.value ≡ leaver self.old.visitor.value }
        ensures turns { self.new.turns ≡ self.old.turns }
    {
        if !self.visitor.is_awaited(&self.gateway) {
            self.silence.end();
            return;
        }
        let Some(now) = seconds(self.clock) else {
            return;
        };
        if self.silence.lasts(now) && self.port.is_wanted() {
            self.let_go();
        }
    }

    /// Behind the gateway's turn, in which something moved or not: what waits is sent, if it is time to, a client that
    /// is silent is let go, and the port is looked at where the session is ending.
    fn tend(&mut self, has_moved: bool)
        ensures rings { self.new.rings.now ≡ self.old.rings.now }
        ensures same { at_port W.tells X.tells self.new.gateway self.new.visitor.value self.new.port.value
            ≡ at_port W.tells X.tells self.old.gateway self.old.visitor.value self.old.port.value }
        ensures leaver { leaver self.new.visitor.value ≡ leaver self.old.visitor.value }
        ensures sends { SendsOn W.tells W.flushed self.old.turns self.new.turns
            (client_in W.tells self.new.visitor.value) }
        ensures wanted { IsWantedWhere has_moved self.new.is_wanted self.new.gateway self.new.visitor.value }
    {
        self.send_on();
        self.let_go_of_silent();
        self.is_wanted = !has_moved
            && self.visitor.is_ending(&self.gateway)
            && self.port.is_wanted();
    }

    /// One turn of the gateway, and of the client that leaves; where clients may come, also a look at the port, unless
    /// one is there or leaves. Says whether something moved.
    fn attend(&mut self, may_come: bool) -> bool
        ensures goes { TradesOn
            self.old.rings.now (at_port W.tells X.tells self.old.gateway self.old.visitor.value self.old.port.value)
            self.new.rings.now (at_port W.tells X.tells self.new.gateway self.new.visitor.value self.new.port.value) }
        ensures turn { result ≡ false → TookTurn (at_gateway W.tells self.old.gateway self.old.visitor.value)
            (at_gateway W.tells self.new.gateway self.new.visitor.value) false }
        ensures sent { SentOn W.tells W.flushed (at_gateway W.tells self.old.gateway self.old.visitor.value)
            self.old.turns self.new.turns }
        ensures off { IfSome (leaver self.old.visitor.value) (λ client. IsSeenOff W.tells W.flushed
            (ShutsLast W.holds W.failed W.was_shut) (Some client) (leaver self.new.visitor.value)) }
        ensures looked { may_come ≡ true → is_here self.new.visitor.value ≡ false →
            LookedLast X.looked self.new.port.value }
    {
        let has_moved = self.take_turn();
        self.tend(has_moved);
        let has_left = self.see_off();
        if !may_come {
            return has_moved || has_left;
        }
        let has_come = self.admit();
        has_moved || has_left || has_come
    }

    /// What a turn of this member came to for its thread, in which something moved or not, and which began with a
    /// message held or not.
    fn outcome(&self, held: bool, has_moved: bool) -> Outcome
        ensures { result ≡ outcome_at held has_moved
            (is_pressed_at self.now.gateway self.now.visitor.value) self.now.is_wanted }
    {
        if has_moved {
            return if held {
                Outcome::Worked
            } else {
                Outcome::Moved
            };
        }
        if !self.visitor.is_pressed(&self.gateway) {
            return Outcome::Idle;
        }
        if self.is_wanted {
            Outcome::Moved
        } else {
            Outcome::Pressed
        }
    }
}

impl<C: Clock, W: ClientWire + Drop, X: Port<Wire = W> + Drop, const G: usize> Worker
    for Member<'_, C, W, X, G> {
    ghost goes = { λ x y. TradesOn x.rings.now (at_port W.tells X.tells x.gateway x.visitor.value x.port.value)
        y.rings.now (at_port W.tells X.tells y.gateway y.visitor.value y.port.value) };

    ghost further = { λ x y z. more_turns x.rings.now y.rings.now z.rings.now
        (at_port W.tells X.tells x.gateway x.visitor.value x.port.value)
        (at_port W.tells X.tells y.gateway y.visitor.value y.port.value)
        (at_port W.tells X.tells z.gateway z.visitor.value z.port.value) };

    ghost took = { λ outcome x y.
        (IsAtRest outcome → TookTurn (at_gateway W.tells x.gateway x.visitor.value)
        (at_gateway W.tells y.gateway y.visitor.value) false)
        × IfSome (leaver x.visitor.value) (λ client. IsSeenOff W.tells W.flushed
        (ShutsLast W.holds W.failed W.was_shut) (Some client) (leaver y.visitor.value))
        × SentOn W.tells W.flushed (at_gateway W.tells x.gateway x.visitor.value) x.turns y.turns };

    /// A turn of the member. Clients may come once all workers have begun.
    fn turn(&mut self) -> Outcome {
        let may_come = self.signals.have_all_begun();
        let held = self.gateway.is_holding();
        let has_moved = self.attend(may_come);
        self.outcome(held, has_moved)
    }
}

/// The wire, which has sent what it held, as far as that is taken now.
fn flushed<W: ClientWire + Drop>(mut wire: W) -> W
    ensures told { W.tells result ≡ W.tells wire }
    ensures flushed { W.flushed wire result }
{
    wire.flush();
    wire
}

/// Gives the port back the wire of whoever is there or leaves: what waits in it is sent first, as far as that is taken
/// now.
fn dismiss<W: ClientWire + Drop, X: Port<Wire = W>>(port: &mut X, visitor: Visitor<W>)
    requires out { (X.tells port.old).out ≡ is_here visitor }
    ensures back { GivesBack (X.tells port.old) (X.tells port.new) (told_leaver W.tells visitor)
        (client_in W.tells visitor) }
    ensures flushed { WasFlushed W.tells W.flushed (told_leaver W.tells visitor)
        × WasFlushed W.tells W.flushed (client_in W.tells visitor) }
{
    let Some(wire) = visitor.end() else {
        return;
    };
    port.take_back(flushed(wire));
}

/// A place to rest for the thread of this port, if one can be had, which the port's sockets end too.
fn park_at<R: Parks, X: Port>(rt: &R, port: &mut Box<X>) -> Option<(Parking, Waker)>
    ensures { in_box X.tells port.new ≡ in_box X.tells port.old }
{
    let (parking, waker) = rt.parking()?;
    port.watch(parking.registry());
    Some((parking, waker))
}

/// Lets the member's clients trade, one after another, at its port, which is open, until the signals say stop. Gives
/// its seat back, and its port, which has all their wires.
pub fn trade<
    R: Clock + Parks,
    Q: Gate,
    W: ClientWire + Drop,
    X: Port<Wire = W> + Drop,
    const G: usize,
>(
    rt: &R,
    gate: &Q,
    rings: &VenueRings<G>,
    alloc: Global,
    door: Door<W>,
    mut port: Box<X>,
    signals: &Signals,
) -> (GatewaySeat<BookLogic>, Box<X>) // promise 12
    requires begun { IsDoor rings.now (number door.0.seat) door }
    requires opened { (X.tells port.value).is_open ≡ true }
    requires free { (X.tells port.value).out ≡ false }
    ensures back { IsBack rings.now (number door.0.seat) result.0 (X.tells port.value) (X.tells result.1.value) }
{
    let (gateway, visitor) = door;
    let station = Station::Gateway(gateway.number());
    let parking = park_at(rt, &mut port);
    let mut member = Member {
        clock: rt,
        rings,
        signals,
        alloc,
        gateway,
        visitor,
        port,
        silence: Silence::none(),
        turns: 0,
        is_wanted: false,
    };
    let _ended = work(rt, gate, station, &mut member, parking, signals);
    let Member {
        gateway,
        visitor,
        mut port,
        ..
    } = member;
    dismiss(&mut *port, Box::into_inner(visitor));
    (gateway.end(), port)
}

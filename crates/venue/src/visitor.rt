//! Who is there at a member's gateway. Each client comes in, has its session, and leaves before the next one comes in.
ghost use Rattle.std.specs.Prelude.{◌≡◌, not, Some, IfSome, is_some};
ghost use Rattle.venue.specs.Accepting.{IsAwaited};
ghost use Rattle.gateway.specs.Seats.{StaysSeated};
ghost use Rattle.ring_words.specs.At.{IsAt};
ghost use Rattle.venue.specs.Visiting.{at_gateway, client_in, is_here, leaver, leaving_now, told_leaver, wire_of};
ghost use Rattle.venue.specs.Visiting.{HasTurn, SeesOff, TellsSame, WasFlushed, is_ending_at, is_pressed_at};
ghost use Rattle.wires.specs.Clients.{ShutsLast};

use crate::leaving::Leaving;
use crate::rings::VenueRings;
use gateway::{ClientWire, Gateway, Turned};
use std::mem::replace;

/// Who is there. A wire stays where it lies, and is lent from there, but where its client comes or leaves.
#[derive(Drop)]
pub enum Visitor<W> {
    /// Nobody: the next client may come in.
    Nobody,
    /// A client whose session goes on.
    There(W),
    /// A client whose session has ended.
    Leaving(Leaving<W>),
}

impl<W: ClientWire + Drop> Visitor<W> {
    /// Whether nobody is there, nor leaves.
    pub fn is_nobody(&self) -> bool
        ensures { result ≡ not (is_here self.now) }
    {
        matches!(self, Visitor::Nobody)
    }

    /// One turn of its gateway: of the session of the client that is there, behind which the wire is told whether to
    /// rest, or without a client. Where the session ended the wire is told to rest, so that it sends what it holds, and
    /// the client leaves from now on.
    pub fn turn<const G: usize>(&mut self, rings: &VenueRings<G>, gateway: &mut Gateway) -> Turned // promise 12
        requires at { IsAt rings.now gateway.old.seat }
        requires live { gateway.old.front.live ≡ is_some (client_in W.tells self.old) }
        ensures turn { HasTurn (at_gateway W.tells gateway.old self.old) (at_gateway W.tells gateway.new self.new)
            (told_leaver W.tells self.old) (told_leaver W.tells self.new) result }
        ensures leaver { IfSome (leaver self.old) (λ client. leaver self.new ≡ Some client) }
        ensures live { gateway.new.front.live ≡ is_some (client_in W.tells self.new) }
        ensures here { is_here self.new ≡ is_here self.old }
        ensures stays { StaysSeated gateway.old.seat gateway.new.seat }
    {
        let Visitor::There(wire) = self else {
            return gateway.idle(rings);
        };
        let turned = gateway.turn(rings, wire);
        wire.rest(turned != Turned::Worked);
        if matches!(turned, Turned::Ended(_)) {
            self.leave();
        }
        turned
    }

    /// A client that is there leaves from now on.
    fn leave(&mut self)
        ensures { self.new ≡ leaving_now self.old }
    {
        *self = match replace(self, Visitor::Nobody) {
            Visitor::There(wire) => Visitor::Leaving(Leaving::of(wire)),
            other => other,
        };
    }

    /// Goes on with a client that leaves. Where it has left, its wire is handed out, and nobody is there. (Each turn of
    /// a member asks, so a call would cost more than what it finds.)
    #[inline(always)]
    pub fn see_off(&mut self) -> Option<W> // promise 12
        ensures { SeesOff W.tells W.flushed (ShutsLast W.holds W.failed W.was_shut) self.old self.new result }
    {
        let Visitor::Leaving(client) = self else {
            return None;
        };
        if !client.has_left() {
            return None;
        }
        replace(self, Visitor::Nobody).end()
    }

    /// The wire of whoever is there or leaves.
    pub fn end(self) -> Option<W>
        ensures { result ≡ wire_of self }
    {
        match self {
            Visitor::Nobody => None,
            Visitor::There(wire) => Some(wire),
            Visitor::Leaving(client) => Some(client.end()),
        }
    }

    /// Whether a client is there that its gateway waits for: for its Logon, or for the rest of a message.
    pub fn is_awaited(&self, gateway: &Gateway) -> bool
        ensures { IsAwaited (at_gateway W.tells gateway.now self.now) result }
    {
        match self {
            Visitor::There(_) => gateway.awaits_client(),
            Visitor::Nobody | Visitor::Leaving(_) => false,
        }
    }

    /// Whether the gateway has to go on by itself: with a client that leaves, or with the one that is there.
    pub fn is_pressed(&self, gateway: &Gateway) -> bool // promise 12
        ensures { result ≡ is_pressed_at gateway.now self.now }
    {
        match self {
            Visitor::Nobody => false,
            Visitor::There(_) => gateway.is_pressed(),
            Visitor::Leaving(_) => true,
        }
    }

    /// Whether, behind a turn in which nothing moved, the session of the client that is there is on its way to its end:
    /// the client has closed its side, or doesn't take what it is told.
    pub fn is_ending(&self, gateway: &Gateway) -> bool // promise 12
        ensures { result ≡ is_ending_at gateway.now self.now }
    {
        match self {
            Visitor::There(_) => gateway.is_pressed() && !gateway.is_holding(),
            Visitor::Nobody | Visitor::Leaving(_) => false,
        }
    }

    /// Sends what the wire of a client holds that is there, as far as that is taken now. (Behind a turn in which
    /// nothing moved it was told to rest, and sent it.)
    pub fn flush(&mut self)
        ensures same { TellsSame W.tells self.old self.new }
        ensures flushed { WasFlushed W.tells W.flushed (client_in W.tells self.new) }
    {
        let Visitor::There(wire) = self else {
            return;
        };
        wire.flush();
    }

    /// Lets go of a client that is there: as soon as its session looks for what it sends, the wire has failed.
    pub fn give_up(&mut self)
        ensures { TellsSame W.tells self.old self.new }
    {
        let Visitor::There(wire) = self else {
            return;
        };
        wire.give_up();
    }
}

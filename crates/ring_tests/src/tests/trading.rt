//! Gateways that publish their clients' orders and take in between, each on a thread of its own.
ghost use Rattle.std.specs.Prelude.{◌≡◌};
ghost use Rattle.ring_words.specs.At.{IsAt};
ghost use Rattle.small_venue.specs.Seats.{StaysSpent};

use super::waiting::{TRIES, nap};
use book::BookLogic;
use ring_words::GatewaySeat;
use sequencer::Take;
use small_venue::member::Member;
use small_venue::orders::{Good, order_of, report_of};
use small_venue::venue::TestRings;
use std::rt::Clock;
use std::thread::{Threads, join};
use venue_model::LONGEST_MESSAGE;

pub type Seat = GatewaySeat<BookLogic>;

/// Two gateways' seats, with what each was given.
pub type Two = ((Seat, Given), (Seat, Given));

/// What all gateways do: how many orders each publishes, how long these are good for, and how many outputs there are of
/// all.
#[derive(Clone, Copy)]
pub struct Day {
    pub each: u64,
    pub good: Good,
    pub outputs: u64,
}

/// How many outputs a gateway was given as its own, of which each was its next report word for word, and how many it
/// passed over.
#[derive(Clone, Copy, Debug, PartialEq, Eq)]
pub struct Given {
    pub own: u64,
    pub passed: u64,
}

/// A gateway at work.
#[derive(Drop)]
struct Trader<'a, const N: usize, const M: usize, const G: usize> {
    gateway: Member<'a, N, M, G>,
    /// The client's digit.
    client: u8,
    day: Day,
    sent: u64,
    given: Given,
}

impl<'a, const N: usize, const M: usize, const G: usize> Trader<'a, N, M, G> {
    /// Publishes the client's next order, if there is one and room for it, and says whether it did.
    fn publish(&mut self) -> bool
        ensures { StaysSpent self.old.gateway.seat self.new.gateway.seat }
    {
        if self.sent == self.day.each {
            return false;
        }
        let order = order_of(self.client, self.sent, self.day.good);
        if self.gateway.publish(&order).is_err() {
            return false;
        }
        self.sent = self.sent.wrapping_add(1);
        true
    }

    /// Takes the next output or passes it over, and says whether there was one. Only what is its next report counts as
    /// its own.
    fn take(&mut self) -> bool
        ensures { StaysSpent self.old.gateway.seat self.new.gateway.seat }
    {
        let mut buf = [0; LONGEST_MESSAGE];
        match self.gateway.take(&mut buf) {
            Take::Mine(head) => {
                let due = report_of(self.client, self.given.own, self.day.good);
                let is_due = head.len <= LONGEST_MESSAGE && buf[..head.len].ends_with(&due);
                self.given.own = self.given.own.wrapping_add(u64::from(is_due));
                true
            }
            Take::Passed => {
                self.given.passed = self.given.passed.wrapping_add(1);
                true
            }
            Take::Nothing => false,
        }
    }

    /// Publishes what is next and takes what is next, and says whether it did either.
    fn get_on(&mut self) -> bool
        ensures { StaysSpent self.old.gateway.seat self.new.gateway.seat }
    {
        let is_sent = self.publish();
        self.take() || is_sent
    }
}

/// Publishes the client's orders and takes or passes over all outputs. Gives the seat back, with what was given.
fn trade<C: Clock, const N: usize, const M: usize, const G: usize>(
    clock: &C,
    rings: &TestRings<N, M, G>,
    seat: Seat,
    client: u8,
    day: Day,
) -> (Seat, Given)
    requires { IsAt rings.now seat }
    ensures { StaysSpent seat result.0 }
{
    let mut trader = Trader {
        gateway: Member { rings, seat },
        client,
        day,
        sent: 0,
        given: Given { own: 0, passed: 0 },
    };
    for _ in 0..TRIES {
        if trader.gateway.seat.taken() == day.outputs {
            break;
        }
        if !trader.get_on() {
            nap(clock);
        }
    }
    let Trader { gateway, given, .. } = trader;
    let Member { seat, .. } = gateway;
    (seat, given)
}

/// Lets two gateways trade, each on a thread of its own. Gives the seats back, with what each was given.
pub fn trade_both<R: Threads + Clock + Sync, const N: usize, const M: usize, const G: usize>(
    rt: &R,
    rings: &TestRings<N, M, G>,
    seats: (Seat, Seat),
    clients: [u8; 2],
    day: Day,
) -> Two
    requires one { IsAt rings.now seats.0 }
    requires other { IsAt rings.now seats.1 }
    ensures one { StaysSpent seats.0 result.0.0 }
    ensures other { StaysSpent seats.1 result.1.0 }
{
    let (one, other) = seats;
    join(
        rt,
        move || -> (Seat, Given)
            requires { IsAt rings.now one }
            ensures { StaysSpent one result.0 }
        { trade(rt, rings, one, clients[0], day) },
        move || -> (Seat, Given)
            requires { IsAt rings.now other }
            ensures { StaysSpent other result.0 }
        { trade(rt, rings, other, clients[1], day) },
    )
}

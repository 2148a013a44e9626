//! A gateway's seat at the rings, as its session uses it: one call publishes what the client sent, the other looks for
//! what the venue has for it. Behind them stand the input ring and the output ring.
ghost use Rattle.std.specs.Prelude.{◌≤◌, length};
ghost use Rattle.gateway.specs.Ledgers.{PublishTells, TakeTells};
ghost use Rattle.ring_words.specs.At.{IsAt};
ghost use Rattle.gateway.specs.Seats.{HasSeen, StaysSeated, Enters, Looks, ledger_of};

use barrier::Take;
use book::BookLogic;
use ring_words::{GatewaySeat, Rings};
use sequencer::{ClaimRefusal, try_claim};
use venue_model::LONGEST_MESSAGE;

/// What came of a message that was to be published.
#[derive(Clone, Copy, Debug, PartialEq, Eq)]
pub enum TryPublish {
    /// It is published.
    Done,
    /// It isn't published: the ring was full, or another gateway was faster. It may be tried again.
    Refused,
    /// There is no sequence left for it, now and later.
    Exhausted,
}

/// Tries once to publish a message (1 to 320 bytes). A full input ring and a lost race are refusals.
pub fn try_publish<const N: usize, const M: usize, const G: usize>(
    rings: &Rings<BookLogic, N, M, G>,
    seat: &mut GatewaySeat<BookLogic>,
    message: &[u8],
) -> TryPublish
    requires at { IsAt rings.now seat.old }
    requires seen { HasSeen seat.old }
    requires some { 1 ≤ length message.now }
    requires most { length message.now ≤ 320 }
    ensures stays { StaysSeated seat.old seat.new }
    ensures seen { HasSeen seat.new }
    ensures enters { Enters N seat.old seat.new message.now result }
    ensures tells { PublishTells (ledger_of N seat.old) (ledger_of N seat.new) message.now result }
{
    match try_claim(rings, seat) {
        Ok(claim) => {
            claim.publish(rings, seat, message);
            TryPublish::Done
        }
        Err(ClaimRefusal::Full | ClaimRefusal::Contended) => TryPublish::Refused,
        Err(ClaimRefusal::Exhausted) => TryPublish::Exhausted,
    }
}

/// Takes the next output, or passes it over where it goes to another's client.
#[inline(always)]
pub fn take<const N: usize, const M: usize, const G: usize>(
    rings: &Rings<BookLogic, N, M, G>,
    seat: &mut GatewaySeat<BookLogic>,
    body: &mut [u8; LONGEST_MESSAGE],
) -> Take
    requires at { IsAt rings.now seat.old }
    requires seen { HasSeen seat.old }
    ensures stays { StaysSeated seat.old seat.new }
    ensures seen { HasSeen seat.new }
    ensures looks { Looks seat.old seat.new body.new result }
    ensures tells { TakeTells (ledger_of N seat.old) (ledger_of N seat.new) body.new result }
{
    barrier::take(rings, seat, body)
}

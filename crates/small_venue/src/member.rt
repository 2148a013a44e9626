//! A gateway at small rings, with the rings that it calls.
ghost use Rattle.std.specs.Prelude.{◌≡◌, ◌+◌, ◌≤◌, length, vec_len, IfSome, OnOk};
ghost use Rattle.ring_words.specs.At.{IsAt};
ghost use Rattle.small_venue.specs.Seats.{IsSpent, ComeBackSpent, StaysSpent};

use crate::venue::TestRings;
use book::BookLogic;
use ring_words::GatewaySeat;
use sequencer::{ClaimRefusal, Take, take, try_claim};
use std::alloc::AllocError;
use venue_model::LONGEST_MESSAGE;

/// A gateway at its place.
#[derive(Drop)]
pub struct Member<'a, const N: usize, const M: usize, const G: usize> {
    pub rings: &'a TestRings<N, M, G>,
    pub seat: GatewaySeat<BookLogic>,
    ghost fits: { IsAt rings.now seat },
}

impl<'a, const N: usize, const M: usize, const G: usize> Member<'a, N, M, G> {
    /// Tries once to publish the message, and answers its sequence.
    pub fn publish(&mut self, message: &[u8]) -> Result<u64, ClaimRefusal>
        requires { (1 ≤ length message.now) × (length message.now ≤ 320) }
        ensures { StaysSpent self.old.seat self.new.seat }
    {
        let claim = try_claim(self.rings, &mut self.seat)?;
        Ok(claim.publish(self.rings, &mut self.seat, message))
    }

    /// Takes the next output, or passes it over. A body of its own stands at the buffer's front.
    pub fn take(&mut self, buf: &mut [u8; LONGEST_MESSAGE]) -> Take
        ensures { StaysSpent self.old.seat self.new.seat }
    {
        take(self.rings, &mut self.seat, buf)
    }
}

/// The next two gateways, from the last one on.
pub fn next_two<'a, const N: usize, const M: usize, const G: usize>(
    rings: &'a TestRings<N, M, G>,
    gateways: &mut Vec<GatewaySeat<BookLogic>>,
) -> Option<(Member<'a, N, M, G>, Member<'a, N, M, G>)>
    requires { ComeBackSpent rings.now gateways.old.items }
    ensures left { ComeBackSpent rings.now gateways.new.items }
    ensures count { IfSome result (λ both. vec_len gateways.old ≡ vec_len gateways.new + 2) }
    ensures last { IfSome result (λ both. IsSpent rings.now (vec_len gateways.old) both.1.seat) }
    ensures first { IfSome result (λ both. IsSpent rings.now (vec_len gateways.new + 1) both.0.seat) }
{
    let last = next_member(rings, gateways)?;
    let first = next_member(rings, gateways)?;
    Some((first, last))
}

/// The next gateway, from the last one on.
pub fn next_member<'a, const N: usize, const M: usize, const G: usize>(
    rings: &'a TestRings<N, M, G>,
    gateways: &mut Vec<GatewaySeat<BookLogic>>,
) -> Option<Member<'a, N, M, G>>
    requires { ComeBackSpent rings.now gateways.old.items }
    ensures left { ComeBackSpent rings.now gateways.new.items }
    ensures count { IfSome result (λ member. vec_len gateways.old ≡ vec_len gateways.new + 1) }
    ensures member { IfSome result (λ member. IsSpent rings.now (vec_len gateways.old) member.seat) }
{
    let seat = gateways.pop()?;
    Some(Member { rings, seat })
}

/// Puts the next gateway's seat back to those before it.
pub fn put_back<const N: usize, const M: usize, const G: usize>(
    rings: &TestRings<N, M, G>,
    seats: &mut Vec<GatewaySeat<BookLogic>>,
    seat: GatewaySeat<BookLogic>,
) -> Result<(), AllocError>
    requires others { ComeBackSpent rings.now seats.old.items }
    requires seat { IsSpent rings.now (vec_len seats.old + 1) seat }
    ensures all { OnOk result (ComeBackSpent rings.now seats.new.items) }
    ensures count { OnOk result (vec_len seats.new ≡ vec_len seats.old + 1) }
{
    seats.push(seat)?;
    Ok(())
}

//! Claims of sequences: the first thing that a gateway does with a message for the venue.
ghost use Rattle.std.specs.Prelude.{Some, ◌≡◌, ℕ, ◌↔◌, ◌+◌, ◌^◌, ◌<◌, ◌≤◌, List, IfOk, IfErr, IsTrue, IsFalse};
ghost use Rattle.ring_words.specs.declared.view.Load.{Load};
ghost use Rattle.ring_words.specs.Log.{times_in};
ghost use Rattle.ring_words.specs.Places.{processed};
ghost use Rattle.ring_words.specs.Seats.{looked, loading};
ghost use Rattle.ring_words.specs.At.{IsAt, Steps};
ghost use Rattle.ring_words.specs.Steps.{ClaimsUpTo, HasRoom};
ghost use Rattle.sequencer.specs.ClaimNumber.{claim_number};
ghost use Rattle.sequencer.specs.Claims.{last_processed, ShowsFull, SeesRoom, Claimed, Refused};

use ring_words::{GatewaySeat, Rings};
use std::marker::Model;
use thiserror::Error;
use venue_model::Logic;

/// How many sequences there are.
const SEQUENCES: u64 = 1 << 48;

/// Why no sequence could be claimed. After each the seat's claims are as before.
#[derive(Clone, Copy, Debug, PartialEq, Eq, Error)]
pub enum ClaimRefusal {
    /// 31: in this call the claim word, less the processed word, was the number of rows.
    #[error("ring full")]
    Full = 31,
    /// 32: the claim word had moved past the value that was loaded.
    #[error("claim contended")]
    Contended = 32,
    /// 33: the claim word was 2^48. This is tested first.
    #[error("sequences exhausted")]
    Exhausted = 33,
}

impl ClaimRefusal {
    /// Its number, 31 to 33.
    pub fn number(self) -> u8
        ensures { result ≡ claim_number self }
    {
        self as u8
    }
}

/// A claimed sequence, below 2^48. It must be spent, by `publish`: the stages wait for its message, and only its
/// gateway may put it there. It can't be dropped, so a program that forgets one isn't accepted.
pub struct Claim {
    pub(crate) sequence: u64,
    ghost small: { sequence < 2 ^ 48 },
}

impl Model for Claim {
    ghost Value = { ℕ };

    ghost view = { λ c. c.sequence };
}

/// Whether the sequence `at` has a free row in a ring of so many, by this processed value. It may have been loaded
/// after the claim word, so it may have passed `at`.
fn has_room(at: u64, processed: u64, rows: u64) -> bool
    ensures { IsTrue result ↔ (at < processed + rows) }
{
    at < processed || at - processed < rows
}

/// Whether the processed value that the seat loaded last leaves room for the sequence `at`. Where none was loaded
/// nothing is said to be free.
fn keeps_room<L>(seat: &GatewaySeat<L>, at: u64, rows: u64) -> bool
    ensures room { IsTrue result → (p : ℕ) × (last_processed seat.now.who.loads ≡ Some p) × (at < p + rows) }
    ensures full { IsFalse result → ShowsFull rows (last_processed seat.now.who.loads) at }
{
    match seat.processed() {
        Some(processed) => has_room(at, processed, rows),
        None => false,
    }
}

/// Looks whether the sequence `at` has a free row. The processed word only rises, so an earlier value that leaves room
/// is as good as one loaded now. The word is loaded only where there is no such value, since the processor writes its
/// cache line.
fn sees_room<L: Logic, const N: usize, const M: usize, const G: usize>(
    rings: &Rings<L, N, M, G>,
    seat: &mut GatewaySeat<L>,
    at: u64,
) -> bool
    requires at { IsAt rings.now seat.old }
    ensures room { IsTrue result → (p : ℕ) × ((ls : List Load) × SeesRoom N (last_processed seat.old.who.loads) at p ls
        × Steps seat.old (loading seat.old.who ls) seat.new × (at < p + N)) }
    ensures free { IsTrue result → HasRoom N seat.new.who at }
    ensures full { IsFalse result → (p : ℕ) × Steps seat.old (looked seat.old.who processed p) seat.new × (p + N ≤ at) × ClaimsUpTo seat.old.who (p + N) }
{
    if keeps_room(seat, at, N as u64) {
        return true;
    }
    let processed = rings.load_processed(seat);
    has_room(at, processed, N as u64)
}

/// Tries once to claim the next sequence of the input ring for this gateway: the claim word is loaded; then, where the
/// processed value loaded last shows no room, the processed word; then the claim word is compared and exchanged
/// (docs/RINGS.md, "The twenty kinds of step", 1 to 3).
pub fn try_claim<L: Logic, const N: usize, const M: usize, const G: usize>(
    rings: &Rings<L, N, M, G>,
    seat: &mut GatewaySeat<L>,
) -> Result<Claim, ClaimRefusal> // promise 4
    requires at { IsAt rings.now seat.old }
    ensures claimed { IfOk result (λ claim. Claimed N seat.old claim seat.new) }
    ensures held { IfOk result (λ claim. 0 < times_in claim seat.new.who.claims) }
    ensures refused { IfErr result (λ refusal. Refused N seat.old refusal seat.new) }
{
    let at = rings.load_claim(seat);
    if at == SEQUENCES {
        return Err(ClaimRefusal::Exhausted);
    }
    if !sees_room(rings, seat, at) {
        return Err(ClaimRefusal::Full);
    }
    let found = rings.exchange_claim(seat, at);
    if found != at {
        return Err(ClaimRefusal::Contended);
    }
    Ok(Claim { sequence: at })
}

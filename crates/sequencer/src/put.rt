//! Outputs on their way into the output ring: the processor asks how many there is room for, and puts one after
//! another.
ghost use Rattle.std.specs.Prelude.{◌+◌, ℕ, ◌<◌, ◌≤◌, IfSome, IfNone};
ghost use Rattle.ring_words.specs.At.{IsAt, SamePlace};
ghost use Rattle.ring_words.specs.Steps.{HasOutputRoom};
ghost use Rattle.sequencer.specs.Rooms.{HasLooked, KeepsRoom, KeepsNoRoom, SaysRoom};

use ring_words::{ProcessSeat, Rings};
use venue_model::Logic;

/// How many outputs more the output ring of so many rows has room for, by the taken values that the seat loaded last.
/// None where one wasn't loaded, or they leave nothing.
fn kept_room<L>(seat: &ProcessSeat<L>, gateways: u64, rows: u64) -> Option<u64>
    requires gateways { (1 ≤ gateways) × (gateways ≤ 8) }
    ensures kept { IfSome result (λ room. KeepsRoom gateways rows seat.now.who room) }
    ensures none { IfNone result (KeepsNoRoom gateways rows seat.now.who) }
{
    let mut least = seat.taken(1)?;
    for number in 2..gateways + 1 {
        least = least.min(seat.taken(number)?);
    }
    let ahead = seat.published() - least;
    if ahead < rows {
        Some(rows - ahead)
    } else {
        None
    }
}

/// How many outputs more the output ring has room for: its number of rows, less the amount by which published is above
/// the least taken word. Loads the taken word of each gateway once.
fn look_for_room<L: Logic, const N: usize, const M: usize, const G: usize>(
    rings: &Rings<L, N, M, G>,
    seat: &mut ProcessSeat<L>,
) -> u64
    requires at { IsAt rings.now seat.old }
    ensures step { SamePlace seat.old seat.new }
    ensures looked { HasLooked G M seat.old.who result seat.new.who }
    ensures free { (i : ℕ) → i < result → HasOutputRoom G M seat.new.who (seat.old.who.row.sequence + i) }
{
    let gateways = rings.gateways();
    let mut least = rings.load_taken(seat, 1);
    for gateway in 2..gateways + 1 {
        least = least.min(rings.load_taken(seat, gateway));
    }
    rings.output_rows() - (seat.published() - least)
}

/// How many outputs more the output ring has room for (Disruptor paper, "Sequencing": the producer stays behind the
/// slowest consumer). The taken words only rise, so there is at least as much room as the values loaded last leave. The
/// words are loaded only where these leave nothing or one wasn't loaded, since each gateway writes the cache line of
/// its own. So 0 rests on values loaded in this call.
pub fn room<L: Logic, const N: usize, const M: usize, const G: usize>(
    rings: &Rings<L, N, M, G>,
    seat: &mut ProcessSeat<L>,
) -> u64 // promise 6
    requires at { IsAt rings.now seat.old }
    ensures step { SamePlace seat.old seat.new }
    ensures looked { SaysRoom G M seat.old.who result seat.new.who }
    ensures free { (i : ℕ) → i < result → HasOutputRoom G M seat.new.who (seat.old.who.row.sequence + i) }
{
    match kept_room(seat, rings.gateways(), rings.output_rows()) {
        Some(room) => room,
        None => look_for_room(rings, seat),
    }
}

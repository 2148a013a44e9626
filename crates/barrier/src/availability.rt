//! How far a stage may read. What stands below is published, and stays in its row until the stage releases it.
ghost use Rattle.std.specs.Prelude.{◌≡◌, ◌<◌, ◌≤◌, ◌^◌, length};
ghost use Rattle.ring_words.specs.At.{IsAt, SamePlace};
ghost use Rattle.barrier.specs.Availability.{Shown, BehindBoth};

use ring_words::{ProcessSeat, Reader, ReaderSeat, Rings};
use venue_model::Logic;

/// How many entries the seat of unmarshaller or journaller knows: it may read those from its own word on. Loads the
/// availability words of the next sequences, up to the first that isn't published yet or until a whole ring is known
/// (Disruptor paper, "Sequencing" and "Batching Effect").
pub fn available<L: Logic, R: Reader, const N: usize, const M: usize, const G: usize>(
    rings: &Rings<L, N, M, G>,
    seat: &mut ReaderSeat<L, R>,
) -> u64
    requires at { IsAt rings.now seat.old }
    ensures known { (result ≡ length seat.new.who.seen) × (result ≤ 2 ^ 48) }
    ensures step { SamePlace seat.old seat.new }
    ensures some_row { 0 < N }
    ensures shown { Shown N seat.old.who seat.new.who }
{
    for _ in seat.known()..seat.sequence() + rings.rows() {
        if !rings.load_availability(seat) {
            return seat.known();
        }
    }
    seat.known()
}

/// How many entries the processor knows: it may read the commands of those from its own word on. Loads the
/// unmarshaller's word, then the journaller's, and answers the lesser.
pub fn commands_available<L: Logic, const N: usize, const M: usize, const G: usize>(
    rings: &Rings<L, N, M, G>,
    seat: &mut ProcessSeat<L>,
) -> u64
    requires at { IsAt rings.now seat.old }
    ensures known { (result ≡ length seat.new.who.seen) × (result ≤ 2 ^ 48) }
    ensures step { SamePlace seat.old seat.new }
    ensures behind { BehindBoth seat.old.who seat.new.who }
{
    rings.load_unmarshalled(seat);
    rings.load_journalled(seat);
    seat.known()
}

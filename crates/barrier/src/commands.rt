//! Commands on their way from the unmarshaller to the processor, in the row of their entry.
ghost use Rattle.std.specs.Prelude.{◌≡◌, ◌<◌, ◌≤◌, length};
ghost use mathlib.Core.Option.{some};
ghost use lib.ListN.{get_elem?};
ghost use Rattle.venue_model.specs.History.{Message};
ghost use Rattle.venue_model.specs.Step.{IsCommand};
ghost use Rattle.ring_words.specs.Log.{IsEntry};
ghost use Rattle.command_words.specs.Packing.{command_words, IsPackable};
ghost use Rattle.ring_words.specs.Seats.{wrote};
ghost use Rattle.ring_words.specs.At.{IsAt, Steps};
ghost use Rattle.ring_words.specs.Steps.{MayWrite};
ghost use Rattle.barrier.specs.Commands.{after_command};

use command_words::{COMMAND_WORDS, pack, unpack, words_of};
use ring_words::{ProcessSeat, Rings, UnmarshalSeat};
use venue_model::{Command, Logic};

/// Writes the command of an entry that the unmarshaller knows and hasn't released, with the number of the entry's
/// gateway, into the entry's row. Rows are written in order: the first that isn't released, the one under way again, or
/// when that is written whole the next one.
pub fn write_command<L: Logic, const N: usize, const M: usize, const G: usize>(
    rings: &Rings<L, N, M, G>,
    seat: &mut UnmarshalSeat<L>,
    sequence: u64,
    gateway: u8,
    command: &Command,
)
    requires at { IsAt rings.now seat.old }
    requires from { seat.old.who.sequence ≤ sequence }
    requires to { sequence < length seat.old.who.seen }
    requires gateway { gateway < 16 }
    requires numbers { IsCommand command.now }
    requires row { MayWrite (L.reads rings.now.logic) seat.old.who sequence }
    ensures step { Steps seat.old (wrote seat.old.who sequence (command_words gateway command.now)) seat.new }
    ensures packable { IsPackable gateway command.now }
{
    let packed = pack(gateway, command);
    let words = packed.as_slice();
    rings.store_command(seat, sequence, 0, words[0]);
    for index in 1..words.len() {
        rings.store_command(seat, sequence, index, words[index]);
    }
}

/// Reads the command of an entry that the processor knows and hasn't released, and the number of its gateway.
pub fn read_command<L: Logic, const N: usize, const M: usize, const G: usize>(
    rings: &Rings<L, N, M, G>,
    seat: &mut ProcessSeat<L>,
    sequence: u64,
) -> (u8, Command)
    requires at { IsAt rings.now seat.old }
    requires from { seat.old.who.sequence ≤ sequence }
    requires to { sequence < length seat.old.who.seen }
    ensures command { (e : Message) → get_elem? seat.old.who.seen sequence ≡ some e
        → (result.0 ≡ e.gateway) × (result.1 ≡ L.reads rings.now.logic sequence e) × IsEntry e }
    ensures step { (e : Message) → get_elem? seat.old.who.seen sequence ≡ some e
        → Steps seat.old (after_command N seat.old.who sequence (command_words e.gateway (L.reads rings.now.logic sequence e))) seat.new }
{
    let mut words = [0; COMMAND_WORDS];
    let head = rings.load_command(seat, sequence, 0);
    words[0] = head;
    let count = words_of(head);
    for index in 1..count {
        words[index] = rings.load_command(seat, sequence, index);
    }
    unpack(&words[..count])
}

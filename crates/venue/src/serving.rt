//! The mode `-`: one client's session over a wire, its turns and the polls of the stages taken one behind the other on
//! this thread.
ghost use Rattle.std.specs.Prelude.{◌≡◌, ◌⊎◌, ◌↔◌, ◌≤◌, [], ◌∷◌, true, vec_len, MatchResult};
ghost use Rattle.std.specs.Vec.{vec_capacity};
ghost use Rattle.ring_words.specs.At.{IsAt};
ghost use Rattle.ring_words.specs.Crew.{AreNewGateways};
ghost use Rattle.ring_words.specs.declared.view.Role.TheVariants as roles;
ghost use Rattle.venue_model.specs.Counts.{Rose};
ghost use Rattle.disks.specs.Disk.{Both, LeavesOnly};
ghost use Rattle.stages.specs.Stations.{disk_of};
ghost use Rattle.stages.specs.Crews.{AreAt, AreIdle};
ghost use Rattle.stages.specs.Finishing.{Finished};
ghost use Rattle.venue.specs.Faults.{status_of_end};
ghost use Rattle.venue.specs.Rounds.{Served, DeliversOn};
ghost use Rattle.venue.specs.Headline.{SeenServing, seen};
ghost use Rattle.venue.specs.Serving.{LeavesFrom, IsStatus, MayServe, EndsWith};
ghost use Rattle.venue.specs.VenueRings.{IsFirstSeat};
ghost use Rattle.stages.specs.Devices.{device};
ghost use Rattle.venue.specs.Venues.{venue, IsJournalBehind};

use crate::fault::ServeFault;
use crate::opening::open;
use crate::rings::VenueRings;
use book::BookLogic;
use gateway::{Gateway, Turned, Wire};
use journal::JournalDisk;
use ring_words::{GatewaySeat, Summary};
use stages::{Crew, Turn, Turns};
use std::alloc::{AllocError, Global};
use std::io::Write;
use venue_model::Limits;

/// Serves the client of gateway 1 until its session ends, behind the history of the journal on the disk, and gives the
/// disk back. Market orders are read from the journal's cut on; that of the limits isn't used. Answers the program's
/// status: 0; 1, with the fault's line, where the journal can't be opened or room was refused, before a byte is read or
/// written; 2, with the line of the journal, where that failed. All room is taken before the session begins.
pub fn serve<D: JournalDisk, W: Wire, E: Write>(
    alloc: Global,
    limits: Limits,
    disk: D,
    wire: &mut W,
    err: &mut E,
) -> (u8, D) // promise 11
    ensures status { IsStatus (W.tells wire.old) (W.tells wire.new) (D.failed disk) (D.failed result.1) result.0 }
    ensures untouched { result.0 ≡ 1 → wire.new ≡ wire.old }
    ensures served { EndsWith limits (device D.honest D.tells D.failed) (record { disk = disk; wire = W.tells wire.old })
        (record { disk = result.1; wire = W.tells wire.new }) result.0 }
    ensures seen { SeenServing limits (D.honest disk) (seen (D.tells disk) (W.tells wire.old)) (seen (D.tells result.1) (W.tells wire.new)) result.0 }
    ensures honest { Both (D.honest disk) (D.honest result.1) }
    ensures any_moment { D.honest disk → LeavesFrom (D.tells disk) (D.tells result.1) }
{
    let (rings, mut crew, mut home) = match open(alloc, limits, disk) {
        Ok(opened) => opened,
        Err((fault, disk)) => return (ServeFault::from(fault).say(err), disk),
    };
    let seat = first_seat(&rings, &mut home);
    let mut gateway = match Gateway::new(alloc, seat) {
        Ok(gateway) => gateway,
        Err((_, seat)) => {
            let (_, disk) = finish(rings, crew, home, seat);
            return (ServeFault::Memory.say(err), disk);
        }
    };
    gateway.begin();
    let status = status_of(take_turns(&mut gateway, &rings, &mut crew, wire), err);
    let (_, disk) = finish(rings, crew, home, gateway.end());
    (status, disk)
}

/// The seat of the one gateway, out of its list.
fn first_seat(
    rings: &VenueRings<1>,
    gateways: &mut Vec<GatewaySeat<BookLogic>>,
) -> GatewaySeat<BookLogic>
    requires one { vec_len gateways.old ≡ 1 }
    requires new { AreNewGateways rings.now gateways.old.items }
    ensures seat { IsFirstSeat rings.now result }
    ensures left { (gateways.new.items ≡ []) × (1 ≤ vec_capacity gateways.new) }
{
    match gateways.pop() {
        Some(seat) => seat,
        None => unreachable!(),
    }
}

/// Ends the venue, when its gateway's seat has come back: the rings close, and the disk is given back.
fn finish<D: JournalDisk>(
    rings: VenueRings<1>,
    crew: Crew<D>,
    mut gateways: Vec<GatewaySeat<BookLogic>>,
    seat: GatewaySeat<BookLogic>,
) -> (Summary, D)
    requires crew { AreAt rings crew }
    requires seat { IsAt rings seat × (seat.who.role ≡ roles.Gateway 1) }
    requires spent { seat.who.claims ≡ [] }
    requires room { (gateways.items ≡ []) × (1 ≤ vec_capacity gateways) }
    ensures disk { result.1 ≡ disk_of crew }
    ensures finished { Finished rings (seat ∷ []) crew (D.honest result.1) (D.tells result.1) result.0 }
{
    gateways.push_reserved(seat);
    crew.close(rings, gateways)
}

/// The program's status for the end of the turns, with the fault's line where there is one.
fn status_of<E: Write>(end: Result<(), ServeFault>, err: &mut E) -> u8
    ensures { result ≡ status_of_end end }
{
    match end {
        Ok(()) => 0,
        Err(fault) => fault.say(err),
    }
}

/// Whether nothing moved in a turn, and no stage had anything to do behind it.
fn is_quiet(turned: Turned, polled: Turns) -> bool
    ensures { (result ≡ true) ↔ ((turned ≡ Turned.Quiet) × AreIdle polled) }
{
    turned == Turned::Quiet && polled.are_idle()
}

/// Takes turns, each with a poll of each stage behind it, until the session ends or the journal fails, or after
/// 2^64 - 1 turns. Where the turn was quiet and no stage had anything to do, the wire may wait for the client: all that
/// was read so far has brought about what it brings about, and that is written.
fn take_turns<D: JournalDisk, W: Wire>(
    gateway: &mut Gateway,
    rings: &VenueRings<1>,
    crew: &mut Crew<D>,
    wire: &mut W,
) -> Result<(), ServeFault>
    requires live { gateway.old.front.live ≡ true }
    requires may { MayServe rings.now gateway.old.seat crew.old }
    ensures honest { Both (D.honest (disk_of crew.old)) (D.honest (disk_of crew.new)) }
    ensures any_moment { D.honest (disk_of crew.old) → LeavesOnly (D.tells (disk_of crew.old)) (D.tells (disk_of crew.new))
        (λ file. (D.tells (disk_of crew.old)).may_leave file ⊎ IsJournalBehind rings.now.base file) }
    ensures served { Served (device D.honest D.tells D.failed) (venue rings.now gateway.old crew.old (W.tells wire.old))
        (venue rings.now gateway.new crew.new (W.tells wire.new)) result }
    ensures delivers { DeliversOn (venue rings.now gateway.old crew.old (W.tells wire.old))
        (venue rings.now gateway.new crew.new (W.tells wire.new)) }
    ensures stays { IsAt rings.now gateway.new.seat × (gateway.new.seat.who.role ≡ gateway.old.seat.who.role) × AreAt rings.now crew.new }
    ensures counts { MatchResult result (λ _. D.failed (disk_of crew.new) ≡ D.failed (disk_of crew.old))
        (λ _. Rose (D.failed (disk_of crew.old)) (D.failed (disk_of crew.new))) }
{
    for _round in 0..u64::MAX {
        let turned = gateway.turn(rings, wire);
        if let Turned::Ended(_) = turned {
            return Ok(());
        }
        let polled = crew.poll(rings);
        if polled.journaller == Turn::JournalFailed {
            return Err(ServeFault::JournalFailed);
        }
        wire.rest(is_quiet(turned, polled));
    }
    Ok(())
}

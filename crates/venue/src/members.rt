//! All members of the listening venue: their gateways are made and their ports opened before anybody is served, each
//! trades on a thread of its own, and all seats and ports come back.
ghost use Rattle.std.specs.Prelude.{◌≡◌, ◌+◌, ◌≤◌, ◌<◌, ◌^◌, [], ◌∷◌, ◌++◌, length, vec_len, true, false, IfOk, IfErr, IfSome, IfNone, MatchOption, OnOk};
ghost use Rattle.std.specs.Vec.{vec_capacity};
ghost use Rattle.std.specs.Thread.{IsSync};
ghost use denote.Param.Send.{IsSend};
ghost use Rattle.ring_words.specs.At.{IsAt, number};
ghost use Rattle.ring_words.specs.Crew.{AreNewGateways};
ghost use Rattle.ring_words.specs.declared.view.Role.TheVariants.{Gateway};
ghost use Rattle.venue.specs.Members.{IsDoor, AreDoors, IsLast, AreOpen, AreReady, AreHome};
ghost use Rattle.venue.specs.Headline.{in_box, SamePorts};
ghost use Rattle.venue.specs.Trading.{IsBack};
ghost use Rattle.venue.specs.Faults.{had_served};
ghost use Rattle.venue.specs.Opened.{AreBehind};
ghost use Rattle.venue.specs.VenueRings.{IsNew};
ghost use Rattle.wires.specs.Ports.{unopened};

use crate::fault::ServeFault;
use crate::member::{Door, trade};
use crate::rings::VenueRings;
use crate::visitor::Visitor;
use book::BookLogic;
use gateway::{ClientWire, Gateway, Port};
use ring_words::GatewaySeat;
use std::alloc::Global;
use std::rt::Clock;
use std::thread::{Threads, join};
use workers::{Gate, Parks, Signals};

/// The doors of a venue's members, and an empty list that has room for all seats when they come back.
pub type Doors<W> = (Vec<Door<W>>, Vec<GatewaySeat<BookLogic>>);

/// What comes back of members: their seats and their ports, in the order of their numbers.
#[derive(Drop)]
pub struct Home<X> {
    pub seats: Vec<GatewaySeat<BookLogic>>,
    pub ports: Vec<Box<X>>,
}

/// All members, each with its door and its port, and the lists in which their seats and ports come back, which have
/// room for them.
#[derive(Drop)]
pub struct Members<W: ClientWire + Drop, X> {
    pub doors: Vec<Door<W>>,
    pub ports: Vec<Box<X>>,
    pub home: Home<X>,
}

/// The last seat.
fn last_seat<const G: usize>(
    rings: &VenueRings<G>,
    seats: &mut Vec<GatewaySeat<BookLogic>>,
) -> Option<GatewaySeat<BookLogic>>
    requires { AreNewGateways rings.now seats.old.items }
    ensures left { AreNewGateways rings.now seats.new.items }
    ensures last { IfSome result (λ seat. IsNew rings.now (vec_len seats.old) seat) }
    ensures count { MatchOption result (vec_len seats.old ≡ 0) (λ seat. vec_len seats.old ≡ vec_len seats.new + 1) }
    ensures none { IfNone result (seats.new.items ≡ []) }
    ensures room { vec_capacity seats.new ≡ vec_capacity seats.old }
{
    let _rings = rings;
    let seat = seats.pop()?;
    Some(seat)
}

/// Opens this port. The fault says that the venue can't listen there.
fn open_port<X: Port>(port: &mut Box<X>) -> Result<(), ServeFault>
    ensures tells { unopened (in_box X.tells port.new) ≡ unopened (in_box X.tells port.old) }
    ensures opened { OnOk result ((in_box X.tells port.new).is_open ≡ true) }
    ensures fault { IfErr result (λ fault. had_served fault ≡ false) }
{
    if port.open() {
        return Ok(());
    }
    Err(ServeFault::CannotListen(port.number()))
}

/// Opens all ports. The fault is one at which the venue can't listen: then some are open.
pub fn open_ports<X: Port>(ports: &mut Vec<Box<X>>) -> Result<(), ServeFault>
    ensures ports { SamePorts (in_box X.tells) ports.old.items ports.new.items }
    ensures opened { OnOk result (AreOpen (in_box X.tells) ports.new.items) }
    ensures count { vec_len ports.new ≡ vec_len ports.old }
    ensures fault { IfErr result (λ fault. had_served fault ≡ false) }
{
    for port in ports.iter_mut() {
        open_port(port)?;
    }
    Ok(())
}

/// The doors at these seats, at which nobody is yet. The fault is 44.
pub fn open_doors<W: ClientWire + Drop, const G: usize>(
    alloc: Global,
    rings: &VenueRings<G>,
    mut seats: Vec<GatewaySeat<BookLogic>>,
) -> Result<Doors<W>, ServeFault>
    requires behind { AreBehind rings.now.logic rings.now.base rings.now }
    requires few { length rings.now.base ≤ 2 ^ 48 }
    requires seats { AreNewGateways rings.now seats.items }
    ensures doors { IfOk result (λ r. AreDoors rings.now r.0.items) }
    ensures count { IfOk result (λ r. vec_len r.0 ≡ vec_len seats) }
    ensures home { IfOk result (λ r. (r.1.items ≡ []) × (vec_capacity r.1 ≡ vec_capacity seats)) }
    ensures fault { IfErr result (λ fault. fault ≡ ServeFault.Memory) }
{
    let Some(seat) = last_seat(rings, &mut seats) else {
        return Ok((Vec::new(alloc), seats));
    };
    let (doors, home) = open_doors(alloc, rings, seats)?;
    let doors = with_door(alloc, rings, doors, seat)?;
    Ok((doors, home))
}

/// These doors and one more behind them, of this seat.
fn with_door<W: ClientWire + Drop, const G: usize>(
    alloc: Global,
    rings: &VenueRings<G>,
    mut doors: Vec<Door<W>>,
    seat: GatewaySeat<BookLogic>,
) -> Result<Vec<Door<W>>, ServeFault>
    requires behind { AreBehind rings.now.logic rings.now.base rings.now }
    requires few { length rings.now.base ≤ 2 ^ 48 }
    requires doors { AreDoors rings.now doors.items }
    requires seat { IsNew rings.now (vec_len doors + 1) seat }
    ensures doors { IfOk result (λ r. AreDoors rings.now r.items) }
    ensures count { IfOk result (λ r. vec_len r ≡ vec_len doors + 1) }
    ensures fault { IfErr result (λ fault. fault ≡ ServeFault.Memory) }
{
    let _rings = rings;
    let Ok(gateway) = Gateway::new(alloc, seat) else {
        return Err(ServeFault::Memory);
    };
    let Ok(visitor) = Box::new(alloc, Visitor::Nobody) else {
        return Err(ServeFault::Memory);
    };
    match doors.push((gateway, visitor)) {
        Ok(()) => Ok(doors),
        Err(_) => Err(ServeFault::Memory),
    }
}

/// The last door.
fn last_door<W: ClientWire + Drop, const G: usize>(
    rings: &VenueRings<G>,
    doors: &mut Vec<Door<W>>,
) -> Option<Door<W>>
    requires { AreDoors rings.now doors.old.items }
    ensures left { AreDoors rings.now doors.new.items }
    ensures last { IfSome result (λ door. IsDoor rings.now (vec_len doors.old) door) }
    ensures count { MatchOption result (vec_len doors.old ≡ 0) (λ door. vec_len doors.old ≡ vec_len doors.new + 1) }
{
    let _rings = rings;
    let door = doors.pop()?;
    Some(door)
}

/// What came back, and the next member's seat and port.
fn with_member<X: Port>(home: Home<X>, seat: GatewaySeat<BookLogic>, port: Box<X>) -> Home<X>
    requires room { (vec_len home.seats < vec_capacity home.seats) × (vec_len home.ports < vec_capacity home.ports) }
    ensures seats { result.seats.items ≡ home.seats.items ++ seat ∷ [] }
    ensures ports { result.ports.items ≡ home.ports.items ++ port ∷ [] }
    ensures room { (vec_capacity result.seats ≡ vec_capacity home.seats) × (vec_capacity result.ports ≡ vec_capacity home.ports) }
{
    let Home {
        mut seats,
        mut ports,
    } = home;
    seats.push_reserved(seat);
    ports.push_reserved(port);
    Home { seats, ports }
}

/// The last member, with its port, and the others before it.
#[derive(Drop)]
struct Split<W: ClientWire + Drop, X> {
    others: Members<W, X>,
    door: Door<W>,
    port: Box<X>,
}

/// Takes the last member from the others; or gives the lists back, where there is none.
fn split_last<W: ClientWire + Drop, X: Port<Wire = W> + Drop, const G: usize>(
    rings: &VenueRings<G>,
    members: Members<W, X>,
) -> Result<Split<W, X>, Home<X>>
    requires { AreReady rings.now X.tells members }
    ensures others { IfOk result (λ s. AreReady rings.now X.tells s.others) }
    ensures door { IfOk result (λ s. IsDoor rings.now (vec_len members.doors) s.door) }
    ensures port { IfOk result (λ s. ((X.tells s.port.value).is_open ≡ true) × ((X.tells s.port.value).out ≡ false)) }
    ensures whole { IfOk result (λ s. IsLast members s.others s.port) }
    ensures none { IfErr result (λ home. AreHome rings.now X.tells members home) }
{
    let Members {
        mut doors,
        mut ports,
        home,
    } = members;
    let Some(door) = last_door(rings, &mut doors) else {
        return Err(home);
    };
    let Some(port) = ports.pop() else {
        return Err(home);
    };
    let others = Members { doors, ports, home };
    Ok(Split { others, door, port })
}

/// Lets all members trade, each at its port on a thread of its own, until the signals say stop. While threads run no
/// memory is taken but for connections, and a little as each begins, for its rest.
pub fn trade_all<
    R: Threads + Clock + Parks + Sync,
    Q: Gate + Sync,
    W: ClientWire + Drop + Send,
    X: Port<Wire = W> + Drop + Send,
    const G: usize,
>(
    rt: &R,
    gate: &Q,
    rings: &VenueRings<G>,
    alloc: Global,
    members: Members<W, X>,
    signals: &Signals,
) -> Home<X>
    requires { AreReady rings.now X.tells members }
    ensures { AreHome rings.now X.tells members result }
{
    let Split { others, door, port } = match split_last(rings, members) {
        Ok(split) => split,
        Err(home) => return home,
    };
    let (home, (seat, port)) = join(
        rt,
        move || -> Home<X>
            requires { IsSync R.row × IsSync Q.row × IsSend W.row × IsSend X.row × AreReady rings.now X.tells others }
            ensures { AreHome rings.entry.now X.tells others result }
        { trade_all(rt, gate, rings, alloc, others, signals) },
        move || -> (GatewaySeat<BookLogic>, Box<X>)
            requires { IsSync R.row × IsSync Q.row × IsSend W.row × IsSend X.row × IsDoor rings.now (number door.0.seat) door
                × ((X.tells port.value).is_open ≡ true) × ((X.tells port.value).out ≡ false) }
            ensures { IsBack rings.entry.now (number door.0.seat) result.0 (X.tells port.value) (X.tells result.1.value) }
        { trade(rt, gate, rings, alloc, door, port, signals) },
    );
    with_member(home, seat, port)
}

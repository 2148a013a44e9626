//! The listening mode: gateways at ports of their own, each of them and each stage on a thread of its own, until the
//! venue is told to stop.
ghost use Rattle.std.specs.Prelude.{◌≡◌, ◌≤◌, ◌^◌, false, length, vec_len, IfOk, IfErr};
ghost use Rattle.std.specs.Thread.{IsSync};
ghost use denote.Param.Send.{IsSend};
ghost use Rattle.disks.specs.Disk.{Both};
ghost use Rattle.stages.specs.Stations.{disk_of};
ghost use Rattle.stages.specs.Crews.{AreAt};
ghost use Rattle.stages.specs.Journalling.{WorksOn};
ghost use Rattle.ring_words.specs.Crew.{AreNewGateways};
ghost use Rattle.venue.specs.Members.{AreFree, AreReady, AreHome, AreReturned};
ghost use Rattle.venue.specs.Opened.{AreBehind};
ghost use Rattle.venue.specs.Serving.{LeavesFrom};
ghost use Rattle.stages.specs.Finishing.{Finished};
ghost use Rattle.venue.specs.Faults.{had_served, status_of_end};
ghost use Rattle.venue.specs.Headline.{SamePorts, SeenListening, boundary, in_box};
ghost use Rattle.venue.specs.Stopping.{WasCleared};
ghost use Rattle.venue.specs.Listening.{EndsListening, end_of};
ghost use Rattle.stages.specs.Devices.{device};

use crate::fault::ServeFault;
use crate::members::{Home, Members, open_doors, open_ports, trade_all};
use crate::opening::open;
use crate::rings::VenueRings;
use crate::stop::StopSign;
use crate::watch::{Recovered, watch};
use book::BookLogic;
use gateway::{ClientWire, Port};
use journal::JournalDisk;
use ring_words::{GatewaySeat, Summary};
use stages::Crew;
use std::alloc::Global;
use std::io::Write;
use std::rt::Clock;
use std::thread::{Threads, join};
use venue_model::Limits;
use workers::{Gate, Parks, Signals, run};

/// How many stages there are.
const STAGES: u64 = 4;

/// What the workers leave when they have ended: the stages, and all gateways' seats and ports.
type Left<D, X> = (Crew<D>, Home<X>);

/// Lets stages and members work, each on a thread of its own, until the signals say stop.
fn work_all<
    R: Threads + Clock + Parks + Sync,
    Q: Gate + Sync,
    D: JournalDisk + Drop + Send,
    W: ClientWire + Drop + Send,
    X: Port<Wire = W> + Drop + Send,
    const G: usize,
>(
    rt: &R,
    gate: &Q,
    alloc: Global,
    rings: &VenueRings<G>,
    crew: Crew<D>,
    members: Members<W, X>,
    signals: &Signals,
) -> Left<D, X>
    requires crew { AreAt rings.now crew }
    requires members { AreReady rings.now X.tells members }
    ensures crew { WorksOn 1024 rings.now (device D.honest D.tells D.failed) crew result.0 }
    ensures home { AreHome rings.now X.tells members result.1 }
{
    run(
        rt,
        gate,
        rings,
        crew,
        move || -> Home<X>
            requires { IsSync R.row × IsSync Q.row × IsSend W.row × IsSend X.row × AreReady rings.now X.tells members }
            ensures { AreHome rings.entry.now X.tells members result }
        { trade_all(rt, gate, rings, alloc, members, signals) },
        signals,
    )
}

/// Lets them work under a watch, which says when the venue is ready, and tells them to stop; says whether all of them
/// have begun.
fn serve_members<
    R: Threads + Clock + Parks + Sync,
    Q: Gate + Sync,
    D: JournalDisk + Drop + Send,
    W: ClientWire + Drop + Send,
    X: Port<Wire = W> + Drop + Send,
    S: StopSign,
    O: Write,
    const G: usize,
>(
    rt: &R,
    gate: &Q,
    alloc: Global,
    rings: &VenueRings<G>,
    crew: Crew<D>,
    members: Members<W, X>,
    sign: &mut S,
    out: &mut O,
) -> (Left<D, X>, bool)
    requires gateways { G ≤ 8 }
    requires crew { AreAt rings.now crew }
    requires members { AreReady rings.now X.tells members }
    ensures crew { WorksOn 1024 rings.now (device D.honest D.tells D.failed) crew result.0.0 }
    ensures home { AreHome rings.now X.tells members result.0.1 }
{
    let recovered = Recovered {
        commands: crew.processor.next_seq(),
        outputs: crew.marshaller.next_seq(),
    };
    let all = Signals::new(G as u64 + STAGES);
    let signals = &all;
    join(
        rt,
        move || -> Left<D, X>
            requires { IsSync R.row × IsSync Q.row × IsSend D.row × IsSend W.row × IsSend X.row × (AreAt rings.now crew)
                × AreReady rings.now X.tells members }
            ensures { WorksOn 1024 rings.entry.now (device D.honest D.tells D.failed) crew result.0
                × AreHome rings.entry.now X.tells members result.1 }
        { work_all(rt, gate, alloc, rings, crew, members, signals) },
        move || -> bool { watch(rt, signals, sign, out, recovered) },
    )
}

/// How it ended: a journal that failed goes before a worker without a thread, for which memory was refused.
fn end_of(failed: bool, ready: bool) -> Result<(), ServeFault>
    ensures { result ≡ end_of failed ready }
{
    if failed {
        return Err(ServeFault::JournalFailed);
    }
    if !ready {
        return Err(ServeFault::Memory);
    }
    Ok(())
}

/// The program's status for the end, with the fault's line, or else the line of what had been done when the venue
/// stopped. A line that can't be printed is let go.
fn say_end<O: Write, E: Write>(
    end: Result<(), ServeFault>,
    summary: Summary,
    out: &mut O,
    err: &mut E,
) -> u8
    ensures { result ≡ status_of_end end }
{
    if let Err(fault) = end {
        return fault.say(err);
    }
    let Summary { commands, outputs } = summary;
    let _ = writeln!(
        out,
        "venued: stopped, {commands} commands, {outputs} outputs"
    );
    let _ = out.flush();
    0
}

/// The disk of stages that have served nobody.
fn unserved<D: JournalDisk>(crew: Crew<D>) -> D
    ensures { result ≡ disk_of crew }
{
    let Crew { journaller, .. } = crew;
    let (_, journal) = journaller.end();
    journal.end()
}

/// Ends the venue, when all gateways' seats have come back.
fn close<D: JournalDisk, const G: usize>(
    rings: VenueRings<G>,
    crew: Crew<D>,
    seats: Vec<GatewaySeat<BookLogic>>,
) -> (Summary, D)
    requires crew { AreAt rings crew }
    requires back { AreReturned rings seats.items }
    requires count { vec_len seats ≡ G }
    ensures disk { result.1 ≡ disk_of crew }
    ensures finished { Finished rings.entry seats.items crew (D.honest result.1) (D.tells result.1) result.0 }
{
    crew.close(rings, seats)
}

/// The members of these seats, at these ports, which are open then; or the fault and the ports, at which no client came in: 44,
/// or a port that can't be had.
fn open_members<W: ClientWire + Drop, X: Port<Wire = W> + Drop, const G: usize>(
    alloc: Global,
    rings: &VenueRings<G>,
    seats: Vec<GatewaySeat<BookLogic>>,
    mut ports: Vec<Box<X>>,
) -> Result<Members<W, X>, (ServeFault, Vec<Box<X>>)>
    requires behind { AreBehind rings.now.logic rings.now.base rings.now }
    requires few { length rings.now.base ≤ 2 ^ 48 }
    requires seats { AreNewGateways rings.now seats.items }
    requires ports { (vec_len ports ≡ vec_len seats) × AreFree (in_box X.tells) ports.items }
    ensures ready { IfOk result (AreReady rings.now X.tells) }
    ensures ports { IfOk result (λ m. SamePorts (in_box X.tells) ports.items m.ports.items × (vec_len m.ports ≡ vec_len ports)) }
    ensures back { IfErr result (λ e. SamePorts (in_box X.tells) ports.items e.1.items × (vec_len e.1 ≡ vec_len ports)) }
    ensures fault { IfErr result (λ e. had_served e.0 ≡ false) }
{
    let Ok(room) = Vec::with_capacity(alloc, ports.len()) else {
        return Err((ServeFault::Memory, ports));
    };
    let Ok((doors, seats)) = open_doors(alloc, rings, seats) else {
        return Err((ServeFault::Memory, ports));
    };
    if let Err(fault) = open_ports(&mut ports) {
        return Err((fault, ports));
    }
    let home = Home { seats, ports: room };
    Ok(Members { doors, ports, home })
}

/// Serves `G` members, each at its port, behind the history of the journal on the disk, until the sign to stop is
/// there, and gives disk and ports back. Answers the program's status: 0; 1, with the fault's line, where the journal
/// can't be opened, a port can't be had or room was refused, before anybody was served; 2, with the line of the
/// journal, where that failed. What is left of the sign from before is taken away first. All room but that of
/// connections is taken before the first is let in. Market orders are read from the journal's cut on; that of the
/// limits isn't used.
pub fn listen<
    R: Threads + Clock + Parks + AllocGlobal + Sync,
    Q: Gate + Sync,
    D: JournalDisk + Drop + Send,
    W: ClientWire + Drop + Send,
    X: Port<Wire = W> + Drop + Send,
    S: StopSign,
    O: Write,
    E: Write,
    const G: usize,
>(
    rt: &R,
    gate: &Q,
    limits: Limits,
    ports: Vec<Box<X>>,
    disk: D,
    sign: &mut S,
    out: &mut O,
    err: &mut E,
) -> (u8, D, Vec<Box<X>>) // promise 12
    requires gateways { (1 ≤ G) × (G ≤ 8) }
    requires ports { (vec_len ports ≡ G) × AreFree (in_box X.tells) ports.items }
    ensures ends { EndsListening limits (device D.honest D.tells D.failed) (in_box X.tells) (boundary disk ports.items)
        (boundary result.1 result.2.items) result.0 }
    ensures seen { SeenListening limits (device D.honest D.tells D.failed) (in_box X.tells) (boundary disk ports.items)
        (boundary result.1 result.2.items) result.0 }
    ensures cleared { WasCleared S.cleared sign.old }
    ensures honest { Both (D.honest disk) (D.honest result.1) }
    ensures any_moment { D.honest disk → LeavesFrom (D.tells disk) (D.tells result.1) }
{
    sign.clear();
    let (rings, crew, seats) = match open::<D, G>(rt.alloc(), limits, disk) {
        Ok(opened) => opened,
        Err((fault, disk)) => return (ServeFault::from(fault).say(err), disk, ports),
    };
    let members = match open_members(rt.alloc(), &rings, seats, ports) {
        Ok(members) => members,
        Err((fault, ports)) => return (fault.say(err), unserved(crew), ports),
    };
    let ((crew, home), ready) = serve_members(
        rt,
        gate,
        rt.alloc(),
        &rings,
        crew,
        members,
        sign,
        out,
    );
    let Home { seats, ports } = home;
    let end = end_of(crew.journaller.has_failed(), ready);
    let (summary, disk) = close(rings, crew, seats);
    (say_end(end, summary, out, err), disk, ports)
}

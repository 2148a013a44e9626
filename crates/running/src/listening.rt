//! The listening mode: members at ports of their own are served over the journal's file.
ghost use Rattle.std.specs.Prelude.{◌≡◌, ◌≤◌, true, vec_len, IfNone, IfSome};
ghost use Rattle.venue_model.specs.Counts.{Rose};
ghost use Rattle.disks.specs.Places.{LeavesUnder};
ghost use Rattle.journal.specs.Openings.{LeftOrNew};
ghost use Rattle.venue.specs.Headline.{in_box};
ghost use Rattle.venue.specs.Members.{AreFree};
ghost use Rattle.running.specs.Running.{Runs, ListensIn, back, handed, on_file};

use disks::{FileDisk, Folder, JournalDisk, RawFile};
use gateway::{ClientWire, Port};
use journal::open_journal;
use std::io::Write;
use std::rt::Clock;
use std::thread::Threads;
use venue::{ServeFault, StopSign, listen};
use venue_model::Limits;
use workers::{Gate, NoGate, Parks};

/// Opens the file of the journal, or makes it, and listens over it for `G` members at these ports: the program's
/// status, the disk if the file could be opened, and the ports. The status is that of `listen`, or 1, with the fault's
/// line, where the file couldn't be opened.
pub fn run_listening<
    R: Threads + Clock + Parks + AllocGlobal + Sync,
    Q: Gate + Sync,
    F: RawFile + Send,
    P: Folder<File = F>,
    W: ClientWire + Drop + Send,
    X: Port<Wire = W> + Drop + Send,
    S: StopSign,
    O: Write,
    E: Write,
    const G: usize,
>(
    rt: &R,
    gate: &Q,
    limits: Limits,
    ports: Vec<Box<X>>,
    folder: &mut P,
    sign: &mut S,
    out: &mut O,
    err: &mut E,
) -> (u8, Option<FileDisk<F>>, Vec<Box<X>>) // promise 12
    requires gateways { (1 ≤ G) × (G ≤ 8) }
    requires ports { (vec_len ports ≡ G) × AreFree (in_box X.tells) ports.items }
    ensures unopened { IfNone result.1 ((result.0 ≡ 1) × (result.2 ≡ ports)) }
    ensures cause { P.honest folder.old → (P.tells folder.old).there ≡ true →
        IfNone result.1 (Rose (P.failures folder.old).all (P.failures folder.new).all) }
    ensures honest { P.honest folder.old → IfSome result.1 (λ disk. F.honest disk.file) }
    ensures served { IfSome result.1 (λ disk. ListensIn (P.honest folder.old) limits (on_file F.honest F.tells)
        (in_box X.tells) (handed (P.tells folder.old) ports.items)
        (back (P.tells folder.new) result.2.items disk result.0)) }
    ensures journal { P.honest folder.old →
        IfSome result.1 (λ disk. Runs (P.tells folder.old) (P.tells folder.new) (F.tells disk.file)) }
    ensures any_moment { P.honest folder.old →
        LeavesUnder (P.tells folder.old) (P.tells folder.new) (LeftOrNew (P.tells folder.old)) }
{
    match open_journal(folder) {
        Ok(disk) => {
            let (status, disk, ports) = listen::<R, Q, FileDisk<F>, W, X, S, O, E, G>(
                rt, gate, limits, ports, disk, sign, out, err,
            );
            (status, Some(disk), ports)
        }
        Err(fault) => (ServeFault::from(fault).say(err), None, ports),
    }
}

/// Listens so for as many members as there are ports, 1 to 8.
pub fn run_for<
    R: Threads + Clock + Parks + AllocGlobal + Sync,
    F: RawFile + Send,
    P: Folder<File = F>,
    W: ClientWire + Drop + Send,
    X: Port<Wire = W> + Drop + Send,
    S: StopSign,
    O: Write,
    E: Write,
>(
    rt: &R,
    limits: Limits,
    ports: Vec<Box<X>>,
    folder: &mut P,
    sign: &mut S,
    out: &mut O,
    err: &mut E,
) -> (u8, Option<FileDisk<F>>, Vec<Box<X>>) // promise 12
    requires count { (1 ≤ vec_len ports) × (vec_len ports ≤ 8) }
    requires free { AreFree (in_box X.tells) ports.items }
    ensures unopened { IfNone result.1 ((result.0 ≡ 1) × (result.2 ≡ ports)) }
    ensures cause { P.honest folder.old → (P.tells folder.old).there ≡ true →
        IfNone result.1 (Rose (P.failures folder.old).all (P.failures folder.new).all) }
    ensures honest { P.honest folder.old → IfSome result.1 (λ disk. F.honest disk.file) }
    ensures served { IfSome result.1 (λ disk. ListensIn (P.honest folder.old) limits (on_file F.honest F.tells)
        (in_box X.tells) (handed (P.tells folder.old) ports.items)
        (back (P.tells folder.new) result.2.items disk result.0)) }
    ensures journal { P.honest folder.old →
        IfSome result.1 (λ disk. Runs (P.tells folder.old) (P.tells folder.new) (F.tells disk.file)) }
    ensures any_moment { P.honest folder.old →
        LeavesUnder (P.tells folder.old) (P.tells folder.new) (LeftOrNew (P.tells folder.old)) }
{
    match ports.len() {
        1 => run_listening::<R, NoGate, F, P, W, X, S, O, E, 1>(
            rt, &NoGate, limits, ports, folder, sign, out, err,
        ),
        2 => run_listening::<R, NoGate, F, P, W, X, S, O, E, 2>(
            rt, &NoGate, limits, ports, folder, sign, out, err,
        ),
        3 => run_listening::<R, NoGate, F, P, W, X, S, O, E, 3>(
            rt, &NoGate, limits, ports, folder, sign, out, err,
        ),
        4 => run_listening::<R, NoGate, F, P, W, X, S, O, E, 4>(
            rt, &NoGate, limits, ports, folder, sign, out, err,
        ),
        5 => run_listening::<R, NoGate, F, P, W, X, S, O, E, 5>(
            rt, &NoGate, limits, ports, folder, sign, out, err,
        ),
        6 => run_listening::<R, NoGate, F, P, W, X, S, O, E, 6>(
            rt, &NoGate, limits, ports, folder, sign, out, err,
        ),
        7 => run_listening::<R, NoGate, F, P, W, X, S, O, E, 7>(
            rt, &NoGate, limits, ports, folder, sign, out, err,
        ),
        _ => run_listening::<R, NoGate, F, P, W, X, S, O, E, 8>(
            rt, &NoGate, limits, ports, folder, sign, out, err,
        ),
    }
}

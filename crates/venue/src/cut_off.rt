//! A venue whose disk is cut off at a call, as one that is killed there: what its members were told by then is in the
//! journal. It is `listen` over another disk, so it is a law of `listen`, which no program calls.
ghost use Rattle.std.specs.Prelude.{◌≡◌, ◌≤◌, vec_len};
ghost use Rattle.venue.specs.CutOff.{SeenCutOff};
ghost use Rattle.venue.specs.Headline.{boundary, in_box};
ghost use Rattle.stages.specs.Devices.{device};
ghost use Rattle.venue.specs.Members.{AreFree};

use crate::listening::listen;
use crate::stop::StopSign;
use disks::CutOff;
use gateway::{ClientWire, Port};
use journal::JournalDisk;
use std::io::Write;
use std::rt::Clock;
use std::thread::Threads;
use venue_model::Limits;
use workers::{Gate, Parks};

/// Listens as `listen` does, over a disk that fails behind so many calls, and gives that disk back as it was then, and
/// the ports. No body of `listen` knows how many calls these are: so one which told a member something before that was
/// on the disk could not meet this.
pub fn listen_cut_off<
    R: Threads + Clock + Parks + AllocGlobal + Sync,
    Q: Gate + Sync,
    D: JournalDisk + Drop + Send,
    W: ClientWire + Drop + Send,
    X: Port<Wire = W> + Drop + Send,
    S: StopSign,
    O: Write,
    E: Write,
    const G: usize,
>(
    rt: &R,
    gate: &Q,
    limits: Limits,
    ports: Vec<Box<X>>,
    disk: D,
    calls: u64,
    sign: &mut S,
    out: &mut O,
    err: &mut E,
) -> (u8, D, Vec<Box<X>>) // promise 12
    requires gateways { (1 ≤ G) × (G ≤ 8) }
    requires ports { (vec_len ports ≡ G) × AreFree (in_box X.tells) ports.items }
    ensures { SeenCutOff limits (device D.honest D.tells D.failed) (in_box X.tells) (boundary disk ports.items)
        (boundary result.1 result.2.items) }
{
    let disk = CutOff::behind(disk, calls);
    let (status, disk, ports) = listen::<R, Q, CutOff<D>, W, X, S, O, E, G>(
        rt, gate, limits, ports, disk, sign, out, err,
    );
    let CutOff { disk, .. } = disk;
    (status, disk, ports)
}

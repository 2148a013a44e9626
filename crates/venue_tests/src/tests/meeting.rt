//! A venue of two members: each of its six workers has a thread of its own, so that all of them are at their first
//! turns together.

use super::fresh;
use super::trading_days::limits;
use disks::MemDisk;
use small_venue::meeting::{Entrance, Meeting};
use std::rt::Clock;
use std::test::Fail;
use std::thread::Threads;
use venue::{StopSign, listen};
use wires::{MemPort, MemWire};
use workers::Parks;

/// The venue is to stop when the meeting is over.
#[derive(Drop)]
struct WhenMet<'a>(&'a Meeting);

impl StopSign for WhenMet<'_> {
    fn clear(&mut self) {}

    fn is_up(&mut self) -> bool {
        self.0.is_over()
    }
}

/// The venue's status behind the meeting, and what it printed, at two ports at which nobody comes.
fn serve_two<R: Threads + Clock + Parks + AllocGlobal + Sync>(
    rt: &R,
    meeting: &Meeting,
) -> Result<(u8, Vec<u8>), Fail> {
    let alloc = rt.alloc();
    let disk = fresh(alloc)?;
    let (mut out, mut err) = (Vec::new(alloc), Vec::new(alloc));
    let mut sign = WhenMet(meeting);
    let mut ports = Vec::with_capacity(alloc, 2)?;
    ports.push(Box::new(alloc, MemPort::new(alloc, 1, Vec::new(alloc))?)?)?;
    ports.push(Box::new(alloc, MemPort::new(alloc, 2, Vec::new(alloc))?)?)?;
    let limits = limits(alloc)?;
    let entrance = Entrance { clock: rt, meeting };
    let (status, _, _) = listen::<_, _, MemDisk, MemWire, _, _, _, _, 2>(
        rt, &entrance, limits, ports, disk, &mut sign, &mut out, &mut err,
    );
    Ok((status, out))
}

#[test]
fn side_by_side(rt: HostRuntime) -> Result<(), Fail> {
    let meeting = Meeting::new();
    let (status, out) = serve_two(&rt, &meeting)?;
    assert_eq!(rt; status, 0);
    assert!(rt; meeting.was_held());
    assert_eq!(rt;
        out.as_slice(),
        b"venued: ready, 0 commands, 0 outputs\nvenued: stopped, 0 commands, 0 outputs\n".as_slice()
    );
    Ok(())
}

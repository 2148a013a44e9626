//! A day of the venue, from its opening until all is told.

ghost use Rattle.std.specs.Prelude.{◌≡◌, vec_len, IfOk};
ghost use Rattle.wires.specs.Ports.{told_register};
ghost use Rattle.venue.specs.Members.{AreFree};
ghost use Rattle.venue.specs.Headline.{in_box};

use super::clients::Member;
use super::slow_disk::SlowDisk;
use super::usher::{Plan, Usher, WhenOver};
use disks::MemDisk;
use std::alloc::{AllocError, Global};
use std::rt::Clock;
use std::test::Fail;
use std::thread::Threads;
use venue::listen;
use venue_model::Limits;
use wires::{MemPort, MemWire};
use workers::Parks;

/// The symbols of the venue.
pub fn limits(alloc: Global) -> Result<Limits, Fail> {
    let names = [
        String::from_str(alloc, "ABC")?,
        String::from_str(alloc, "THREE")?,
        String::from_str(alloc, "FOUR")?,
    ];
    match Limits::new(alloc, &names) {
        Ok(limits) => Ok(limits),
        Err(_) => Err(Fail::new("no symbols")),
    }
}

/// What a day leaves.
#[derive(Drop)]
pub struct Day {
    pub status: u8,
    pub disk: MemDisk,
    pub ports: Vec<Box<MemPort>>,
}

/// The ports at which these members' clients come.
fn ports_of(alloc: Global, members: &[Member; 4]) -> Result<Vec<Box<MemPort>>, AllocError>
    ensures count { IfOk result (λ ports. vec_len ports ≡ 4) }
    ensures free { IfOk result (λ ports. AreFree (in_box told_register) ports.items) }
{
    let [first, second, third, fourth] = members;
    let mut ports = Vec::with_capacity(alloc, 4)?;
    ports.push(Box::new(alloc, first.port(alloc)?)?)?;
    ports.push(Box::new(alloc, second.port(alloc)?)?)?;
    ports.push(Box::new(alloc, third.port(alloc)?)?)?;
    ports.push(Box::new(alloc, fourth.port(alloc)?)?)?;
    Ok(ports)
}

/// Lets the venue serve these members over this disk, until all that is planned is told.
pub fn play<R: Threads + Clock + Parks + AllocGlobal + Sync>(
    rt: &R,
    disk: SlowDisk<MemDisk, R>,
    members: &[Member; 4],
    plan: Plan,
) -> Result<Day, Fail> {
    let ports = ports_of(rt.alloc(), members)?;
    let limits = limits(rt.alloc())?;
    Ok(listen_until_over(rt, limits, ports, disk, &Usher::new(rt, plan)))
}

/// Lets the venue serve at these ports until the usher says that the day is over.
fn listen_until_over<R: Threads + Clock + Parks + AllocGlobal + Sync>(
    rt: &R,
    limits: Limits,
    ports: Vec<Box<MemPort>>,
    disk: SlowDisk<MemDisk, R>,
    usher: &Usher<R>,
) -> Day
    requires count { vec_len ports ≡ 4 }
    requires free { AreFree (in_box told_register) ports.items }
{
    let (mut out, mut err) = (Vec::new(rt.alloc()), Vec::new(rt.alloc()));
    let mut sign = WhenOver::of(usher);
    let (status, disk, ports) = listen::<_, _, _, _, _, _, _, _, 4>(
        rt, usher, limits, ports, disk, &mut sign, &mut out, &mut err,
    );
    Day {
        status,
        disk: disk.disk,
        ports,
    }
}

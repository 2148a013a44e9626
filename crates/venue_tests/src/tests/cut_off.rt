//! A venue whose disk is cut off before its first call: nobody is served, and the disk stays as it was.

use super::fresh;
use super::trading_days::limits;
use disks::MemDisk;
use std::rt::Clock;
use std::test::Fail;
use std::thread::Threads;
use venue::{StopSign, listen_cut_off};
use wires::{MemPort, MemWire};
use workers::{NoGate, Parks};

/// The venue is to stop at once.
#[derive(Drop)]
struct AtOnce;

impl StopSign for AtOnce {
    fn clear(&mut self) {}

    fn is_up(&mut self) -> bool {
        true
    }
}

/// The status of a venue with one member whose disk is cut off so, the disk, and the line that was printed.
fn serve_one<R: Threads + Clock + Parks + AllocGlobal + Sync>(
    rt: &R,
    calls: u64,
) -> Result<(u8, MemDisk, Vec<u8>), Fail> {
    let alloc = rt.alloc();
    let disk = fresh(alloc)?;
    let (mut out, mut err) = (Vec::new(alloc), Vec::new(alloc));
    let mut ports = Vec::with_capacity(alloc, 1)?;
    ports.push(Box::new(alloc, MemPort::new(alloc, 1, Vec::new(alloc))?)?)?;
    let limits = limits(alloc)?;
    let (status, disk, _) = listen_cut_off::<_, _, MemDisk, MemWire, _, _, _, _, 1>(
        rt,
        &NoGate,
        limits,
        ports,
        disk,
        calls,
        &mut AtOnce,
        &mut out,
        &mut err,
    );
    Ok((status, disk, err))
}

#[test]
fn cut_off_before_the_first_call(rt: HostRuntime) -> Result<(), Fail> {
    let (status, disk, err) = serve_one(&rt, 0)?;
    assert_eq!(rt; status, 1);
    assert_eq!(rt; err.as_slice(), b"venued: journal fault 41\n".as_slice());
    assert_eq!(rt; disk.calls().len(), fresh(rt.alloc())?.calls().len());
    Ok(())
}

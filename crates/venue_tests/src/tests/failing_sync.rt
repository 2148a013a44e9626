//! A session over a wire in memory whose first order can't be brought to the disk.

use super::trading_days::limits;
use super::{OPENING, fresh};
use disks::Call;
use std::test::Fail;
use venue::serve;
use wires::MemWire;

/// A Logon and an order to buy 100 at 50.
const INPUT: &[u8] =
    b"8=FIX.4.4\x019=63\x0135=A\x0149=C1\x0156=VENUE\x0134=1\x0152=20250102-09:30:00\x0198=0\x01108=0\x01141=Y\x0110=026\x01\
    8=FIX.4.4\x019=102\x0135=D\x0149=C1\x0156=VENUE\x0134=2\x0152=20250102-09:30:00\x0111=1\x0155=ABC\x0154=1\x01\
    60=20250102-09:30:00\x0138=100\x0140=2\x0144=50\x0110=098\x01";

/// The Logon's answer.
const LOGON_IS_TOLD: &[u8] =
    b"8=FIX.4.4\x019=63\x0135=A\x0149=VENUE\x0156=C1\x0134=1\x0152=20250102-09:30:00\x0198=0\x01108=0\x01141=Y\x0110=026\x01";

#[test]
fn first_sync_fails(rt: HostRuntime) -> Result<(), Fail> {
    let mut disk = fresh(rt.alloc())?;
    disk.fail_at(OPENING + 2, 0);
    let mut wire = MemWire::new(rt.alloc(), INPUT)?;
    let mut err = Vec::new(rt.alloc());
    let (status, disk) = serve(rt.alloc(), limits(rt.alloc())?, disk, &mut wire, &mut err);
    assert_eq!(rt; status, 2);
    assert_eq!(rt; wire.taken(), LOGON_IS_TOLD);
    assert_eq!(rt; err.as_slice(), b"venued: journal failed\n".as_slice());
    assert_eq!(rt; disk.calls().last(), Some(&Call::Sync { failed: true }));
    Ok(())
}

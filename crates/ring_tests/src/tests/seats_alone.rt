//! What the stages don't call: rings of sizes that aren't one, and a copy of an output that was put.
ghost use Rattle.std.specs.Prelude.{◌≡◌, ◌≤◌};
ghost use Rattle.ring_words.specs.At.{IsAt};
ghost use Rattle.stages.specs.Crews.{AreAt};

use barrier::{outputs_available, read_output};
use book::BookLogic;
use journal::NullDisk;
use ring_words::{MarshalSeat, OpenError};
use small_venue::crew::open_venue;
use small_venue::member::next_member;
use small_venue::messages::{FIRST_BUY, message};
use small_venue::venue::{TestRings, abc, open};
use stages::Crew;
use std::alloc::Global;
use std::test::Fail;
use venue_model::{Limits, Output, OutputType};

#[test]
fn sizes_refused(rt: HostRuntime) -> Result<(), Fail> {
    let limits = abc(rt.alloc()).ok_or("no memory")?;
    let no_power = Some(OpenError::NotPowerOfTwo);
    assert_eq!(rt; refusal::<3, 2, 1>(rt.alloc(), &limits), no_power);
    assert_eq!(rt; refusal::<2, 1, 1>(rt.alloc(), &limits), no_power);
    assert_eq!(rt; refusal::<2, 8192, 1>(rt.alloc(), &limits), no_power);
    assert_eq!(rt; refusal::<4096, 2, 8>(rt.alloc(), &limits), None);
    Ok(())
}

/// Why rings of these sizes aren't made, if they aren't.
fn refusal<const N: usize, const M: usize, const G: usize>(
    alloc: Global,
    limits: &Limits,
) -> Option<OpenError>
    requires { (1 ≤ G) × (G ≤ 8) }
{
    open::<N, M, G>(alloc, limits).err()
}

/// The next output and its place, if it is there.
fn copy_next<const N: usize, const M: usize, const G: usize>(
    rings: &TestRings<N, M, G>,
    seat: &mut MarshalSeat<BookLogic>,
) -> Option<(u64, Output)>
    requires { IsAt rings.now seat.old }
{
    let next = seat.sequence();
    let upto = outputs_available(rings, seat);
    if upto <= next {
        return None;
    }
    Some((next, read_output(rings, seat, next)))
}

/// Publishes an order, lets the stages before the marshaller poll once, and reads what is put for that, and where.
fn read_first(alloc: Global) -> Result<Option<(u64, Output)>, Fail> {
    let order = message(alloc, FIRST_BUY)?;
    let (rings, stages, mut gateways) = open_venue::<4, 2, 1>(alloc)?;
    let mut gateway = next_member(&rings, &mut gateways).ok_or("no gateway")?;
    gateway.publish(&order).ok().ok_or("no room")?;
    let mut seat = poll_before_the_last(&rings, Box::into_inner(stages));
    Ok(copy_next(&rings, &mut seat))
}

/// Lets the stages before the marshaller poll once, and gives the marshaller's seat.
fn poll_before_the_last<const N: usize, const M: usize, const G: usize>(
    rings: &TestRings<N, M, G>,
    mut stages: Crew<NullDisk>,
) -> MarshalSeat<BookLogic>
    requires { AreAt rings.now stages }
    ensures { IsAt rings.now result }
{
    stages.unmarshaller.poll(rings);
    stages.journaller.poll(rings);
    stages.processor.poll(rings);
    stages.marshaller.end()
}

/// The output is read at its place.
#[test]
fn output_read(rt: HostRuntime) -> Result<(), Fail> {
    let (place, output) = read_first(rt.alloc())?.ok_or("no output")?;
    assert_eq!(rt; place, 0);
    assert_eq!(rt; (output.to, output.cause), (1, 0));
    assert_eq!(rt; output.sending_time, 20_250_102_093_000);
    assert_eq!(rt; output.report.msg_type(), OutputType::ExecutionReport);
    Ok(())
}

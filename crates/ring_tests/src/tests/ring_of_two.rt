//! Two gateways fill a ring of two rows; once the stages have done its first message, the row is claimed again.
ghost use Rattle.std.specs.Prelude.{◌≤◌, length};
ghost use Rattle.stages.specs.Crews.{AreAt};

use journal::NullDisk;
use sequencer::{ClaimRefusal, Take, try_claim};
use small_venue::crew::{Stages, open_venue, poll, turns_of};
use small_venue::member::{Member, next_two};
use small_venue::messages::{FIRST_BUY, THIRD_ACKNOWLEDGED, bytes_of, message};
use small_venue::venue::TestRings;
use stages::Turn;
use stages::Turn::{Did, Idle};
use std::alloc::Global;
use std::process::Abort;
use std::test::Fail;
use venue_model::LONGEST_MESSAGE;

/// Both claim, one after the other, and both publish AB, the other one first: until then the stages find nothing.
/// Answers the sequences.
fn publish_both<const N: usize, const M: usize, const G: usize>(
    rings: &TestRings<N, M, G>,
    one: &mut Member<'_, N, M, G>,
    other: &mut Member<'_, N, M, G>,
    stages: &mut Stages<NullDisk>,
) -> Result<Option<(u64, u64)>, ClaimRefusal>
    requires stages { AreAt rings.now stages.old.value }
    ensures stages { AreAt rings.now stages.new.value }
{
    let first = try_claim(one.rings, &mut one.seat)?;
    let second = match try_claim(other.rings, &mut other.seat) {
        Ok(second) => second,
        Err(refusal) => {
            first.publish(one.rings, &mut one.seat, b"AB");
            return Err(refusal);
        }
    };
    let at = second.publish(other.rings, &mut other.seat, b"AB");
    let turns = poll(rings, stages);
    let before = first.publish(one.rings, &mut one.seat, b"AB");
    if turns != turns_of([Idle; 4]) {
        return Ok(None);
    }
    Ok(Some((before, at)))
}

/// Lets the stages poll once, and says what each did.
fn polls<A: Abort, const N: usize, const M: usize, const G: usize>(
    rt: &A,
    rings: &TestRings<N, M, G>,
    stages: &mut Stages<NullDisk>,
    turns: [Turn; 4],
)
    requires { AreAt rings.now stages.old.value }
    ensures { AreAt rings.now stages.new.value }
{
    assert_eq!(rt; poll(rings, stages), turns_of(turns));
}

/// The gateway publishes the order in the first row again, once there is room, and the stages work it off.
fn publish_again<A: Abort, const N: usize, const M: usize, const G: usize>(
    rt: &A,
    rings: &TestRings<N, M, G>,
    one: &mut Member<'_, N, M, G>,
    stages: &mut Stages<NullDisk>,
    order: &[u8],
)
    requires stages { AreAt rings.now stages.old.value }
    requires order { (1 ≤ length order.now) × (length order.now ≤ 320) }
{
    assert_eq!(rt; one.publish(order), Err(ClaimRefusal::Full));
    polls(rt, rings, stages, [Did(2), Did(2), Did(1), Idle]);
    assert_eq!(rt; one.publish(order), Ok(2));
    polls(rt, rings, stages, [Did(1), Did(1), Did(1), Idle]);
    polls(rt, rings, stages, [Idle, Idle, Did(1), Did(1)]);
    polls(rt, rings, stages, [Idle; 4]);
}

/// The first gateway takes the acknowledgement and no more, and the other one passes it over.
fn take_one<A: Abort, const N: usize, const M: usize, const G: usize>(
    rt: &A,
    one: &mut Member<'_, N, M, G>,
    other: &mut Member<'_, N, M, G>,
    acknowledged: &[u8],
) {
    let mut body = [0; LONGEST_MESSAGE];
    assert!(rt; matches!(one.take(&mut body), Take::Mine(_)));
    assert!(rt; body.starts_with(acknowledged));
    assert_eq!(rt; one.take(&mut body), Take::Nothing);
    assert_eq!(rt; other.take(&mut body), Take::Passed);
}

/// Fills the ring, publishes an order in its first row again, and takes what came of it.
fn fill<A: Abort, const N: usize, const M: usize, const G: usize>(
    rt: &A,
    alloc: Global,
    rings: &TestRings<N, M, G>,
    one: &mut Member<'_, N, M, G>,
    other: &mut Member<'_, N, M, G>,
    stages: &mut Stages<NullDisk>,
) -> Result<(), Fail>
    requires stages { AreAt rings.now stages.old.value }
{
    let order = message(alloc, FIRST_BUY)?;
    let acknowledged = bytes_of(alloc, THIRD_ACKNOWLEDGED)?;
    assert_eq!(rt; publish_both(rings, one, other, stages), Ok(Some((0, 1))));
    publish_again(rt, rings, one, stages, &order);
    take_one(rt, one, other, &acknowledged);
    Ok(())
}

/// Opens the rings, and fills them.
fn open_and_fill<A: Abort, const N: usize, const M: usize, const G: usize>(
    rt: &A,
    alloc: Global,
) -> Result<(), Fail>
    requires { (1 ≤ G) × (G ≤ 8) }
{
    let (rings, mut stages, mut gateways) = open_venue::<N, M, G>(alloc)?;
    let (mut first, mut second) = next_two(&rings, &mut gateways).ok_or("no gateways")?;
    fill(rt, alloc, &rings, &mut first, &mut second, &mut stages)
}

#[test]
fn ring_of_two(rt: HostRuntime) -> Result<(), Fail> {
    open_and_fill::<HostRuntime, 2, 2, 2>(&rt, rt.alloc())
}

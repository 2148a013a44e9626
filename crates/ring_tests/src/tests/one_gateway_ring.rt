//! One gateway publishes one order at sequence 0, each stage polls once, the gateway takes what came of it and finds no
//! more, and the rings are closed behind them.
ghost use Rattle.std.specs.Prelude.{◌≤◌, length};
ghost use Rattle.stages.specs.Crews.{AreAt};
ghost use Rattle.small_venue.specs.Seats.{StaysSpent};

use journal::NullDisk;
use ring_words::Summary;
use sequencer::Take;
use small_venue::crew::{Stages, close, open_venue, poll, turns_of};
use small_venue::member::{Member, next_member, put_back};
use small_venue::messages::{FIRST_ACKNOWLEDGED, FIRST_BUY, bytes_of, message};
use small_venue::venue::TestRings;
use stages::Turn::Did;
use std::alloc::Global;
use std::test::Fail;
use venue_model::LONGEST_MESSAGE;

/// Publishes the order, lets the stages poll, and says whether its acknowledgement comes, and nothing more.
fn is_acknowledged<const N: usize, const M: usize, const G: usize>(
    rings: &TestRings<N, M, G>,
    gateway: &mut Member<'_, N, M, G>,
    stages: &mut Stages<NullDisk>,
    order: &[u8],
    acknowledged: &[u8],
) -> bool
    requires stages { AreAt rings.now stages.old.value }
    requires order { (1 ≤ length order.now) × (length order.now ≤ 320) }
    ensures stages { AreAt rings.now stages.new.value }
    ensures spent { StaysSpent gateway.old.seat gateway.new.seat }
{
    let published = gateway.publish(order);
    let turns = poll(rings, stages);
    let mut body = [0; LONGEST_MESSAGE];
    let taken = gateway.take(&mut body);
    let next = gateway.take(&mut [0; LONGEST_MESSAGE]);
    let seen = (
        published,
        turns,
        matches!(taken, Take::Mine(_)),
        body.starts_with(acknowledged),
        matches!(next, Take::Nothing),
    );
    seen == (Ok(0), turns_of([Did(1); 4]), true, true, true)
}

/// Puts the order through new rings, and closes them. Answers what had been done, where each step succeeded.
fn close_behind<const N: usize, const M: usize, const G: usize>(
    alloc: Global,
    order: &[u8],
    acknowledged: &[u8],
) -> Result<Option<Summary>, Fail>
    requires gateways { (1 ≤ G) × (G ≤ 8) }
    requires order { (1 ≤ length order.now) × (length order.now ≤ 320) }
{
    let (rings, mut stages, mut gateways) = open_venue::<N, M, G>(alloc)?;
    let Some(mut gateway) = next_member(&rings, &mut gateways) else {
        return Ok(None);
    };
    if !is_acknowledged(&rings, &mut gateway, &mut stages, order, acknowledged) {
        return Ok(None);
    }
    let Member { seat, .. } = gateway;
    put_back(&rings, &mut gateways, seat)?;
    let (summary, _) = close(rings, stages, gateways);
    Ok(Some(summary))
}

#[test]
fn one_gateway_ring(rt: HostRuntime) -> Result<(), Fail> {
    let order = message(rt.alloc(), FIRST_BUY)?;
    let acknowledged = bytes_of(rt.alloc(), FIRST_ACKNOWLEDGED)?;
    assert_eq!(rt;
        close_behind::<4, 2, 1>(rt.alloc(), &order, &acknowledged)?,
        Some(Summary {
            commands: 1,
            outputs: 1
        })
    );
    Ok(())
}

//! Seven outputs go through an output ring of two rows: the processor puts more only as both gateways take them or pass
//! them over.
ghost use Rattle.std.specs.Prelude.{◌≤◌};
ghost use Rattle.stages.specs.Crews.{AreAt};

use journal::NullDisk;
use sequencer::Take;
use small_venue::crew::{Stages, open_venue, poll, processed};
use small_venue::member::{Member, next_two};
use small_venue::messages::{BUY_THREE, SELL_ONE, SELL_THREE, SELL_TWO, message};
use small_venue::venue::TestRings;
use stages::Turn;
use stages::Turn::{Did, OutFull};
use std::alloc::Global;
use std::process::Abort;
use std::test::Fail;
use venue_model::LONGEST_MESSAGE;

/// How many outputs the gateway takes, and how many it passes over, until there is none.
fn taken<const N: usize, const M: usize, const G: usize>(
    gateway: &mut Member<'_, N, M, G>,
) -> (u8, u8) {
    let (mut own, mut passed) = (0_u8, 0_u8);
    for _ in 0..3 {
        match gateway.take(&mut [0; LONGEST_MESSAGE]) {
            Take::Mine(_) => own = own.wrapping_add(1),
            Take::Passed => passed = passed.wrapping_add(1),
            Take::Nothing => break,
        }
    }
    (own, passed)
}

/// Both gateways take and pass over so many.
fn take<A: Abort, const N: usize, const M: usize, const G: usize>(
    rt: &A,
    one: &mut Member<'_, N, M, G>,
    other: &mut Member<'_, N, M, G>,
    both: ((u8, u8), (u8, u8)),
) {
    assert_eq!(rt; (taken(one), taken(other)), both);
}

/// Lets the stages poll twice, so that two outputs are marshalled, and answers what the processor did first.
fn process<const N: usize, const M: usize, const G: usize>(
    rings: &TestRings<N, M, G>,
    stages: &mut Stages<NullDisk>,
) -> Turn
    requires stages { AreAt rings.now stages.old.value }
    ensures stages { AreAt rings.now stages.new.value }
{
    let turns = poll(rings, stages);
    poll(rings, stages);
    turns.processor
}

/// The first gateway sells, and takes the acknowledgement.
fn sell<A: Abort, const N: usize, const M: usize, const G: usize>(
    rt: &A,
    alloc: Global,
    rings: &TestRings<N, M, G>,
    one: &mut Member<'_, N, M, G>,
    other: &mut Member<'_, N, M, G>,
    stages: &mut Stages<NullDisk>,
    order: &str,
) -> Result<(), Fail>
    requires stages { AreAt rings.now stages.old.value }
    ensures stages { AreAt rings.now stages.new.value }
{
    let order = message(alloc, order)?;
    assert!(rt; one.publish(&order).is_ok());
    assert_eq!(rt; process(rings, stages), Did(1));
    take(rt, one, other, ((1, 0), (0, 1)));
    Ok(())
}

/// Two outputs more of the last command are put and taken.
fn put_two<A: Abort, const N: usize, const M: usize, const G: usize>(
    rt: &A,
    rings: &TestRings<N, M, G>,
    one: &mut Member<'_, N, M, G>,
    other: &mut Member<'_, N, M, G>,
    stages: &mut Stages<NullDisk>,
)
    requires stages { AreAt rings.now stages.old.value }
    ensures stages { AreAt rings.now stages.new.value }
{
    assert_eq!(rt; process(rings, stages), OutFull);
    assert_eq!(rt; processed(stages), 3);
    take(rt, one, other, ((1, 1), (1, 1)));
}

/// The first gateway sells 1 three times.
fn sell_three<A: Abort, const N: usize, const M: usize, const G: usize>(
    rt: &A,
    alloc: Global,
    rings: &TestRings<N, M, G>,
    one: &mut Member<'_, N, M, G>,
    other: &mut Member<'_, N, M, G>,
    stages: &mut Stages<NullDisk>,
) -> Result<(), Fail>
    requires stages { AreAt rings.now stages.old.value }
    ensures stages { AreAt rings.now stages.new.value }
{
    sell(rt, alloc, rings, one, other, stages, SELL_ONE)?;
    sell(rt, alloc, rings, one, other, stages, SELL_TWO)?;
    sell(rt, alloc, rings, one, other, stages, SELL_THREE)
}

/// The second gateway buys 3, and six outputs of that are put and taken.
fn buy_three<A: Abort, const N: usize, const M: usize, const G: usize>(
    rt: &A,
    alloc: Global,
    rings: &TestRings<N, M, G>,
    one: &mut Member<'_, N, M, G>,
    other: &mut Member<'_, N, M, G>,
    stages: &mut Stages<NullDisk>,
) -> Result<(), Fail>
    requires stages { AreAt rings.now stages.old.value }
    ensures stages { AreAt rings.now stages.new.value }
{
    let order = message(alloc, BUY_THREE)?;
    assert_eq!(rt; other.publish(&order), Ok(3));
    put_two(rt, rings, one, other, stages);
    put_two(rt, rings, one, other, stages);
    put_two(rt, rings, one, other, stages);
    Ok(())
}

/// The first gateway sells 1 three times, and the second one buys 3.
fn trade<A: Abort, const N: usize, const M: usize, const G: usize>(
    rt: &A,
    alloc: Global,
    rings: &TestRings<N, M, G>,
    one: &mut Member<'_, N, M, G>,
    other: &mut Member<'_, N, M, G>,
    stages: &mut Stages<NullDisk>,
) -> Result<(), Fail>
    requires stages { AreAt rings.now stages.old.value }
{
    sell_three(rt, alloc, rings, one, other, stages)?;
    buy_three(rt, alloc, rings, one, other, stages)?;
    assert_eq!(rt; process(rings, stages), Did(1));
    assert_eq!(rt; processed(stages), 4);
    take(rt, one, other, ((0, 1), (1, 0)));
    Ok(())
}

/// Opens the rings, and lets both trade.
fn open_and_trade<A: Abort, const N: usize, const M: usize, const G: usize>(
    rt: &A,
    alloc: Global,
) -> Result<(), Fail>
    requires { (1 ≤ G) × (G ≤ 8) }
{
    let (rings, mut stages, mut gateways) = open_venue::<N, M, G>(alloc)?;
    let (mut first, mut second) = next_two(&rings, &mut gateways).ok_or("no gateways")?;
    trade(rt, alloc, &rings, &mut first, &mut second, &mut stages)
}

#[test]
fn output_ring_of_two(rt: HostRuntime) -> Result<(), Fail> {
    open_and_trade::<HostRuntime, 4, 2, 2>(&rt, rt.alloc())
}

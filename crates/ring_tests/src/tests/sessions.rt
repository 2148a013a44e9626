//! Two clients' sessions, one behind the other: the first orders and leaves, and what the second's order brings it is
//! passed over by its gateway, and counted. And sessions of a client that breaks, is deaf or has closed, each with
//! another session of that client behind it.
ghost use Rattle.std.specs.Prelude.{None, ◌≡◌, ◌≤◌, true, false, [], IfOk, OnOk, IsSome};
ghost use Rattle.ring_words.specs.declared.view.Role.TheVariants as role;
ghost use Rattle.ring_words.specs.Rule.{newcomer};
ghost use Rattle.ring_words.specs.At.{at, IsAt, number};
ghost use Rattle.ring_words.specs.Crew.{AreNewGateways};
ghost use Rattle.stages.specs.Crews.{AreAt};

use book::BookLogic;
use gateway::{Gateway, MemWire, Reason, Turned};
use journal::NullDisk;
use ring_words::GatewaySeat;
use small_venue::crew::{Stages, empty_journal, poll, stages_of};
use small_venue::messages::bytes_of;
use small_venue::venue::{TestRings, abc, open};
use std::alloc::{AllocError, Global};
use std::process::Abort;
use std::test::Fail;
use venue_model::Limits;

/// The client's Logon.
const LOGON: &str = "8=FIX.4.4|9=63|35=A|49=C1|56=VENUE|34=1|\
    52=20250102-09:30:00|98=0|108=0|141=Y|10=026|";

/// The client's Logon and order to buy 100 at 50.
const BUYER: &str = "8=FIX.4.4|9=63|35=A|49=C1|56=VENUE|34=1|\
    52=20250102-09:30:00|98=0|108=0|141=Y|10=026|8=FIX.4.4|\
    9=102|35=D|49=C1|56=VENUE|34=2|52=20250102-09:30:00|11=1|\
    55=ABC|54=1|60=20250102-09:30:00|38=100|40=2|44=50|\
    10=098|";

/// The Logon's answer and the order's acknowledgement.
const BUYER_IS_TOLD: &str = "8=FIX.4.4|9=63|35=A|49=VENUE|56=C1|34=1|\
    52=20250102-09:30:00|98=0|108=0|141=Y|10=026|8=FIX.4.4|\
    9=114|35=8|49=VENUE|56=C1|34=2|52=20250102-09:30:00|37=1|\
    17=1|150=0|39=0|11=1|55=ABC|54=1|38=100|44=50|\
    151=100|14=0|6=0|10=243|";

/// The Logon's answer.
const LOGON_IS_TOLD: &str = "8=FIX.4.4|9=63|35=A|49=VENUE|56=C1|34=1|\
    52=20250102-09:30:00|98=0|108=0|141=Y|10=026|";

/// The client's Logout, once it has the acknowledgement.
const BUYER_LEAVES: &str = "8=FIX.4.4|9=46|35=5|49=C1|56=VENUE|34=3|\
    52=20250102-09:30:00|10=254|";

/// The Logout's answer.
const BUYER_LEFT: &str = "8=FIX.4.4|9=46|35=5|49=VENUE|56=C1|34=3|\
    52=20250102-09:30:00|10=254|";

/// The second client's Logon and order to sell 30 at 50.
const SELLER: &str = "8=FIX.4.4|9=63|35=A|49=C2|56=VENUE|34=1|\
    52=20250102-09:30:00|98=0|108=0|141=Y|10=027|8=FIX.4.4|\
    9=101|35=D|49=C2|56=VENUE|34=2|52=20250102-09:30:00|11=1|\
    55=ABC|54=2|60=20250102-09:30:00|38=30|40=2|44=50|\
    10=053|";

/// The Logon's answer, the order's acknowledgement, and its fill: the outputs 2 and 4 of all.
const SELLER_IS_TOLD: &str = "8=FIX.4.4|9=63|35=A|49=VENUE|56=C2|34=1|\
    52=20250102-09:30:00|98=0|108=0|141=Y|10=027|8=FIX.4.4|\
    9=112|35=8|49=VENUE|56=C2|34=2|52=20250102-09:30:00|37=2|\
    17=2|150=0|39=0|11=1|55=ABC|54=2|38=30|44=50|\
    151=30|14=0|6=0|10=153|8=FIX.4.4|9=125|35=8|49=VENUE|\
    56=C2|34=3|52=20250102-09:30:00|37=2|17=4|150=F|39=2|\
    11=1|55=ABC|54=2|38=30|44=50|32=30|31=50|151=0|\
    14=30|6=50|10=250|";

/// The gateway of a new seat, in a box: all of it is let go by one call.
fn gateway_at<const N: usize, const M: usize, const G: usize>(
    alloc: Global,
    rings: &TestRings<N, M, G>,
    limits: &Limits,
    seat: GatewaySeat<BookLogic>,
) -> Result<Box<Gateway>, Fail>
    requires opened { (rings.now.logic ≡ limits.now) × (rings.now.base ≡ []) × (rings.now.base_outputs ≡ 0) }
    requires new { seat ≡ at rings.now (newcomer (role.Gateway (number seat)) [] 0) }
    ensures { IfOk result (λ g. IsAt rings.now g.value.seat) }
{
    match Gateway::new(alloc, seat) {
        Ok(gateway) => Ok(Box::new(alloc, gateway)?),
        Err((refused, _)) => Err(refused)?,
    }
}

/// Takes one turn of a session, and says why it ended, where it did. Counts the turns in a row in which nothing moved.
fn turn<const N: usize, const M: usize, const G: usize>(
    rings: &TestRings<N, M, G>,
    gateway: &mut Gateway,
    wire: &mut MemWire,
    still: &mut u32,
) -> Option<Reason>
    requires live { gateway.old.front.live ≡ true }
    requires at { IsAt rings.now gateway.old.seat }
    ensures table { IsAt rings.now gateway.new.seat }
    ensures over { IsSome result → gateway.new.front.live ≡ false }
    ensures alive { result ≡ None → gateway.new.front.live ≡ true }
{
    *still = still.wrapping_add(1);
    match gateway.turn(rings, wire) {
        Turned::Ended(reason) => Some(reason),
        Turned::Worked => {
            *still = 0;
            None
        }
        Turned::Quiet => None,
    }
}

/// Serves a session for so many turns at most, with a poll of each stage behind each turn. Where it ended, says why,
/// and in which turn of those in a row in which nothing moved.
fn serve<const N: usize, const M: usize, const G: usize>(
    rings: &TestRings<N, M, G>,
    stages: &mut Stages<NullDisk>,
    gateway: &mut Gateway,
    wire: &mut MemWire,
    turns: usize,
) -> Option<(Reason, u32)>
    requires live { gateway.old.front.live ≡ true }
    requires at { IsAt rings.now gateway.old.seat }
    requires stages { AreAt rings.now stages.old.value }
    ensures stages { AreAt rings.now stages.new.value }
    ensures table { IsAt rings.now gateway.new.seat }
    ensures over { IsSome result → gateway.new.front.live ≡ false }
    ensures alive { result ≡ None → gateway.new.front.live ≡ true }
{
    let mut still = 0;
    for _ in 0..turns {
        if let Some(reason) = turn(rings, gateway, wire, &mut still) {
            return Some((reason, still));
        }
        poll(rings, stages);
    }
    None
}

/// A client that sends this text.
fn wire_of(alloc: Global, text: &str) -> Result<MemWire, AllocError> {
    MemWire::new(alloc, &bytes_of(alloc, text)?)
}

/// The gateway of the last seat of those that are left.
fn last_gateway<const N: usize, const M: usize, const G: usize>(
    alloc: Global,
    rings: &TestRings<N, M, G>,
    limits: &Limits,
    gateways: &mut Vec<GatewaySeat<BookLogic>>,
) -> Result<Box<Gateway>, Fail>
    requires opened { (rings.now.logic ≡ limits.now) × (rings.now.base ≡ []) × (rings.now.base_outputs ≡ 0) }
    requires new { AreNewGateways rings.now gateways.old.items }
    ensures gateway { IfOk result (λ g. IsAt rings.now g.value.seat) }
    ensures left { OnOk result (AreNewGateways rings.now gateways.new.items) }
{
    let Some(seat) = gateways.pop() else {
        return Err(Fail::from("no gateway"));
    };
    gateway_at(alloc, rings, limits, seat)
}

/// The client of this wire was sent this text.
fn is_told<A: Abort>(rt: &A, alloc: Global, wire: &MemWire, told: &str) -> Result<(), Fail> {
    let told = bytes_of(alloc, told)?;
    assert_eq!(rt; wire.taken(), told.as_slice());
    Ok(())
}

/// What the clients send and are sent.
#[derive(Drop)]
struct Wires {
    buying: MemWire,
    leaving: MemWire,
    selling: MemWire,
}

/// The clients: the first one stays until it has left, the second one closes.
fn clients(alloc: Global) -> Result<Wires, AllocError> {
    Ok(Wires {
        buying: wire_of(alloc, BUYER)?.staying_open(),
        leaving: wire_of(alloc, BUYER_LEAVES)?,
        selling: wire_of(alloc, SELLER)?,
    })
}

/// Lets a gateway without a session look three times.
fn idle<const N: usize, const M: usize, const G: usize>(
    rings: &TestRings<N, M, G>,
    gateway: &mut Gateway,
)
    requires off { gateway.old.front.live ≡ false }
    requires at { IsAt rings.now gateway.old.seat }
{
    gateway.idle(rings);
    gateway.idle(rings);
    gateway.idle(rings);
}

/// Serves the first client and then the second, and lets the first gateway be idle behind them. Says whether each
/// session ended as it is to end.
fn serve_both<const N: usize, const M: usize, const G: usize>(
    rings: &TestRings<N, M, G>,
    stages: &mut Stages<NullDisk>,
    buyer: &mut Gateway,
    seller: &mut Gateway,
    wires: &mut Wires,
) -> bool
    requires stages { AreAt rings.now stages.old.value }
    requires buyer { IsAt rings.now buyer.old.seat }
    requires seller { IsAt rings.now seller.old.seat }
{
    buyer.begin();
    let None = serve(rings, stages, buyer, &mut wires.buying, 16) else {
        return false;
    };
    let Some((Reason::LoggedOut, _)) = serve(rings, stages, buyer, &mut wires.leaving, 16) else {
        return false;
    };
    seller.begin();
    let Some((Reason::Closed, _)) = serve(rings, stages, seller, &mut wires.selling, 4_000) else {
        return false;
    };
    idle(rings, buyer);
    true
}

/// Serves two clients so at new rings. Answers how many outputs the first one's gateway passed over, where each session
/// ended as it is to end.
fn trade<const N: usize, const M: usize, const G: usize>(
    alloc: Global,
    limits: &Limits,
    wires: &mut Wires,
) -> Result<Option<u64>, Fail>
    requires { (1 ≤ G) × (G ≤ 8) }
{
    let (rings, seats) = open::<N, M, G>(alloc, limits)?;
    let journal = empty_journal(alloc, NullDisk)?;
    let (mut stages, mut gateways) = stages_of(alloc, &rings, seats, limits, journal)?;
    let mut seller = last_gateway(alloc, &rings, limits, &mut gateways)?;
    let mut buyer = last_gateway(alloc, &rings, limits, &mut gateways)?;
    let served = serve_both(&rings, &mut stages, &mut buyer, &mut seller, wires);
    Ok(served.then_some(buyer.passed()))
}

#[test]
fn reports_without_session_are_passed_over(rt: HostRuntime) -> Result<(), Fail> {
    let mut wires = clients(rt.alloc())?;
    let limits = abc(rt.alloc()).ok_or("no memory")?;
    let passed = trade::<4, 4, 2>(rt.alloc(), &limits, &mut wires)?;
    assert_eq!(rt; passed, Some(1));
    is_told(&rt, rt.alloc(), &wires.buying, BUYER_IS_TOLD)?;
    is_told(&rt, rt.alloc(), &wires.leaving, BUYER_LEFT)?;
    is_told(&rt, rt.alloc(), &wires.selling, SELLER_IS_TOLD)
}

/// Serves a client over this wire until its session ends, and then, over another one, a Logon. Says how the first
/// session ended; how many reports were passed over so far; and what the other wire took.
fn serve_again<const N: usize, const M: usize, const G: usize>(
    alloc: Global,
    limits: &Limits,
    wire: &mut MemWire,
    next: &mut MemWire,
) -> Result<Option<(Reason, u32, u64)>, Fail>
    requires { (1 ≤ G) × (G ≤ 8) }
{
    let (rings, seats) = open::<N, M, G>(alloc, limits)?;
    let journal = empty_journal(alloc, NullDisk)?;
    let (mut stages, mut gateways) = stages_of(alloc, &rings, seats, limits, journal)?;
    let mut gateway = last_gateway(alloc, &rings, limits, &mut gateways)?;
    gateway.begin();
    let Some((reason, still)) = serve(&rings, &mut stages, &mut gateway, wire, 200_000) else {
        return Ok(None);
    };
    gateway.begin();
    let Some((Reason::Closed, _)) = serve(&rings, &mut stages, &mut gateway, next, 4_000) else {
        return Ok(None);
    };
    Ok(Some((reason, still, gateway.passed())))
}

/// The same at rings of four rows for one gateway, and for the symbol ABC.
fn serve_abc_again(
    alloc: Global,
    wire: &mut MemWire,
    next: &mut MemWire,
) -> Result<Option<(Reason, u32, u64)>, Fail> {
    let limits = abc(alloc).ok_or("no memory")?;
    serve_again::<4, 4, 1>(alloc, &limits, wire, next)
}

/// The session over this wire ends so, no report is passed over, the wire took so many bytes of what the buyer is told,
/// and the session behind it is answered.
fn ends<A: Abort>(
    rt: &A,
    alloc: Global,
    wire: &mut MemWire,
    how: (Reason, u32),
    taken: usize,
) -> Result<(), Fail> {
    let mut next = wire_of(alloc, LOGON)?;
    let (reason, still) = how;
    let ended = serve_abc_again(alloc, wire, &mut next)?;
    assert_eq!(rt; ended, Some((reason, still, 0)));
    let told = bytes_of(alloc, BUYER_IS_TOLD)?;
    assert_eq!(rt; Some(wire.taken()), told.get(..taken));
    is_told(rt, alloc, &next, LOGON_IS_TOLD)
}

#[test]
fn broken_deaf_or_closed(rt: HostRuntime) -> Result<(), Fail> {
    let mut breaks = wire_of(rt.alloc(), BUYER)?.breaking_after(100);
    ends(&rt, rt.alloc(), &mut breaks, (Reason::WireFailed, 1), 100)?;
    let mut deaf = wire_of(rt.alloc(), LOGON)?.full_after(0);
    ends(&rt, rt.alloc(), &mut deaf, (Reason::Stalled, 100_000), 0)?;
    let mut closed = wire_of(rt.alloc(), BUYER)?;
    ends(&rt, rt.alloc(), &mut closed, (Reason::Closed, 1_000), 222)
}

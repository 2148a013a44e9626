//! Two members over TCP, with both ends in this process: the venue listens at two ports of this machine, and clients
//! connect to them.
ghost use Rattle.std.specs.Prelude.{◌≡◌, vec_len, IfOk};
ghost use Rattle.std.specs.Thread.{IsSync};
ghost use Rattle.venue.specs.Headline.{in_box};
ghost use Rattle.venue.specs.Members.{AreFree};

use super::fresh;
use super::messages::{from_member, from_venue};
use super::trading_days::limits;
use disks::MemDisk;
use std::alloc::{AllocError, Global};
use std::io::{ErrorKind, Read, Write};
use std::net::{Ipv4Addr, Net, SocketAddr, SocketAddrV4, TcpListener, TcpStream};
use std::rt::Clock;
use std::sync::atomic::{AtomicBool, Ordering};
use std::test::Fail;
use std::thread::{Threads, join};
use std::time::Duration;
use std::{io, thread};
use venue::{StopSign, listen};
use venue_model::Limits;
use wires::{Port, TcpPort, local_port};
use workers::{NoGate, Parks};

/// How many seconds a client waits for bytes at most: that ends a test which hangs.
const PATIENCE: u64 = 20;

/// How many milliseconds who waits sleeps between two looks.
const NAP: u64 = 5;

/// How often the venue looks at most for its stop, and a client for the venue: some twenty seconds.
const MOST_LOOKS: u32 = 4_000;

/// How often other ports are chosen where another program has taken one meanwhile.
const TRIES: u32 = 20;

/// What a client sends, and what it is to hear then, before the next one's turn.
#[derive(Drop)]
struct Step {
    /// 1 or 2.
    member: u8,
    sends: Vec<u8>,
    hears: Vec<u8>,
}

/// The fields behind the header of a Logon and of its answer.
const LOGON: &str = "98=0|108=0|141=Y|";

/// A member logs on.
fn logs_on(alloc: Global, member: u8) -> Result<Step, AllocError> {
    Ok(Step {
        member,
        sends: from_member(alloc, member, 'A', 1, LOGON)?,
        hears: from_venue(alloc, member, 'A', 1, b"98=0\x01108=0\x01141=Y\x01")?,
    })
}

/// A member sends an order of this side and quantity at 50, as its second message, and hears this report.
fn orders(
    alloc: Global,
    member: u8,
    side: u8,
    quantity: u64,
    report: &[u8],
) -> Result<Step, AllocError> {
    let fields = format!(in alloc;
        "11=1|55=ABC|54={side}|60=20250102-09:30:00|38={quantity}|40=2|44=50|"
    )?;
    Ok(Step {
        member,
        sends: from_member(alloc, member, 'D', 2, fields.as_str())?,
        hears: from_venue(alloc, member, '8', 2, report)?,
    })
}

/// A member hears this report, as the venue's third message to it.
fn hears(alloc: Global, member: u8, report: &[u8]) -> Result<Step, AllocError> {
    Ok(Step {
        member,
        sends: Vec::new(alloc),
        hears: from_venue(alloc, member, '8', 3, report)?,
    })
}

/// C1's order to buy 100 is acknowledged.
const BUY: &[u8] =
    b"37=1\x0117=1\x01150=0\x0139=0\x0111=1\x0155=ABC\x0154=1\x0138=100\x0144=50\x01151=100\x0114=0\x016=0\x01";

/// C2's order to sell 30 is acknowledged.
const SELL: &[u8] =
    b"37=2\x0117=2\x01150=0\x0139=0\x0111=1\x0155=ABC\x0154=2\x0138=30\x0144=50\x01151=30\x0114=0\x016=0\x01";

/// 30 are bought, and 70 rest.
const BOUGHT: &[u8] =
    b"37=1\x0117=3\x01150=F\x0139=1\x0111=1\x0155=ABC\x0154=1\x0138=100\x0144=50\x0132=30\x0131=50\x01151=70\x0114=30\x016=50\x01";

/// 30 are sold, and none rests.
const SOLD: &[u8] =
    b"37=2\x0117=4\x01150=F\x0139=2\x0111=1\x0155=ABC\x0154=2\x0138=30\x0144=50\x0132=30\x0131=50\x01151=0\x0114=30\x016=50\x01";

/// The venue is to stop once its clients have heard all, or behind so many looks.
#[derive(Drop)]
struct WhenHeard<'a> {
    heard: &'a AtomicBool,
    looks: u32,
}

impl StopSign for WhenHeard<'_> {
    fn clear(&mut self) {}

    fn is_up(&mut self) -> bool {
        self.looks = self.looks.saturating_add(1);
        self.heard.load(Ordering::SeqCst) || MOST_LOOKS < self.looks
    }
}

/// A port of this machine, by its number.
fn local(number: u16) -> SocketAddr {
    SocketAddr::V4(SocketAddrV4::new(Ipv4Addr::LOCALHOST, number))
}

/// The numbers of two ports that are free now.
fn free_ports<R: Net<Listener = TcpListener, Stream = TcpStream>>(rt: &R) -> io::Result<[u16; 2]> {
    let first = rt.bind(local(0))?;
    let second = rt.bind(local(0))?;
    Ok([first.local_addr()?.port(), second.local_addr()?.port()])
}

/// The ports of these numbers.
fn ports_at<'a, R: Net<Listener = TcpListener, Stream = TcpStream>>(
    rt: &'a R,
    alloc: Global,
    numbers: [u16; 2],
) -> Result<Vec<Box<TcpPort<'a, R>>>, AllocError>
    ensures count { IfOk result (λ ports. vec_len ports ≡ 2) }
    ensures free { IfOk result (λ ports. AreFree (in_box ⟦<TcpPort<'a, R> as Port>⟧.tells) ports.items) }
{
    let [first, second] = numbers;
    let mut ports = Vec::with_capacity(alloc, 2)?;
    ports.push(Box::new(alloc, local_port(rt, first))?)?;
    ports.push(Box::new(alloc, local_port(rt, second))?)?;
    Ok(ports)
}

/// The venue listens at these ports until its clients have heard all: its status, or none where it had no memory.
fn serve_at<
    R: Threads
        + Clock
        + Parks
        + Net<Listener = TcpListener, Stream = TcpStream>
        + AllocGlobal
        + Sync,
>(rt: &R, limits: Limits, disk: MemDisk, numbers: [u16; 2], heard: &AtomicBool) -> Option<u8> {
    let alloc = rt.alloc();
    let (mut out, mut err) = (Vec::new(alloc), Vec::new(alloc));
    let mut sign = WhenHeard { heard, looks: 0 };
    let ports = ports_at(rt, alloc, numbers).ok()?;
    let (status, _, _) = listen::<_, _, _, _, _, _, _, _, 2>(
        rt, &NoGate, limits, ports, disk, &mut sign, &mut out, &mut err,
    );
    Some(status)
}

/// A client at this port, once the venue is there, unless that has ended.
fn connected<R: Clock + Net<Listener = TcpListener, Stream = TcpStream>>(
    rt: &R,
    number: u16,
    ended: &AtomicBool,
) -> io::Result<TcpStream> {
    for _ in 0..MOST_LOOKS {
        if let Ok(stream) = rt.connect(local(number)) {
            stream.set_read_timeout(Some(Duration::from_secs(PATIENCE)))?;
            return Ok(stream);
        }
        if ended.load(Ordering::SeqCst) {
            break;
        }
        thread::sleep(rt, Duration::from_millis(NAP));
    }
    Err(io::Error::from(ErrorKind::NotConnected))
}

/// Whether these bytes come next.
fn are_heard(alloc: Global, stream: &mut TcpStream, bytes: &[u8]) -> io::Result<bool> {
    let mut came = vec![in alloc; 0_u8; bytes.len()]?;
    stream.read_exact(&mut came)?;
    Ok(came.as_slice() == bytes)
}

/// Whether both clients hear just what they are to hear, step by step.
fn talk<R: Clock + Net<Listener = TcpListener, Stream = TcpStream> + AllocGlobal>(
    rt: &R,
    numbers: [u16; 2],
    steps: &[Step],
    ended: &AtomicBool,
) -> io::Result<bool> {
    let [first, second] = numbers;
    let mut one = connected(rt, first, ended)?;
    let mut other = connected(rt, second, ended)?;
    for step in steps {
        let stream = if step.member == 1 {
            &mut one
        } else {
            &mut other
        };
        stream.write_all(&step.sends)?;
        if !are_heard(rt.alloc(), stream, &step.hears)? {
            return Ok(false);
        }
    }
    Ok(true)
}

/// What came of one try: the venue's status, and whether both clients heard just what they were to hear.
fn try_at<
    R: Threads
        + Clock
        + Parks
        + Net<Listener = TcpListener, Stream = TcpStream>
        + AllocGlobal
        + Sync,
>(rt: &R, numbers: [u16; 2], steps: &[Step]) -> Result<(Option<u8>, bool), Fail> {
    let (limits, disk) = (limits(rt.alloc())?, fresh(rt.alloc())?);
    let (heard, ended) = (AtomicBool::new(false), AtomicBool::new(false));
    let (has_heard, has_ended) = (&heard, &ended);
    Ok(join(
        rt,
        move || -> Option<u8>
            requires { IsSync R.row }
        {
            let status = serve_at(rt, limits, disk, numbers, has_heard);
            has_ended.store(true, Ordering::SeqCst);
            status
        },
        move || -> bool
            requires { IsSync R.row }
        {
            let hears = talk(rt, numbers, steps, has_ended).unwrap_or(false);
            has_heard.store(true, Ordering::SeqCst);
            hears
        },
    ))
}

/// Tries at free ports; where another program has taken one meanwhile, the venue answers 1, and others are chosen.
fn play_over_tcp<
    R: Threads
        + Clock
        + Parks
        + Net<Listener = TcpListener, Stream = TcpStream>
        + AllocGlobal
        + Sync,
>(rt: &R, steps: &[Step]) -> Result<(Option<u8>, bool), Fail> {
    for _ in 0..TRIES {
        let numbers = free_ports(rt)?;
        let came = try_at(rt, numbers, steps)?;
        if came.0 != Some(1) {
            return Ok(came);
        }
    }
    Err(Fail::new("no ports are free"))
}

#[test]
fn first_acknowledgement(rt: HostRuntime) -> Result<(), Fail> {
    let alloc = rt.alloc();
    let steps = Vec::from_array(alloc, [logs_on(alloc, 1)?, orders(alloc, 1, 1, 100, BUY)?])?;
    assert_eq!(rt; play_over_tcp(&rt, &steps)?, (Some(0), true));
    Ok(())
}

#[test]
fn first_trade(rt: HostRuntime) -> Result<(), Fail> {
    let alloc = rt.alloc();
    let steps = Vec::from_array(
        alloc,
        [
            logs_on(alloc, 1)?,
            logs_on(alloc, 2)?,
            orders(alloc, 1, 1, 100, BUY)?,
            orders(alloc, 2, 2, 30, SELL)?,
            hears(alloc, 2, SOLD)?,
            hears(alloc, 1, BOUGHT)?,
        ],
    )?;
    assert_eq!(rt; play_over_tcp(&rt, &steps)?, (Some(0), true));
    Ok(())
}

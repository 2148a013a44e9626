//! The members, and what their clients send.
ghost use Rattle.std.specs.Prelude.{◌≡◌, false, IfOk};

use super::messages::from_member;
use std::alloc::{AllocError, Global};
use wires::{MemPort, MemWire};

/// So many orders that are told apart by their ClOrdID alone.
#[derive(Clone, Copy)]
struct Batch {
    count: u64,
    symbol: &'static str,
    side: char,
    quantity: u64,
    price: u64,
}

/// Buys.
const fn buys(count: u64, symbol: &'static str, quantity: u64, price: u64) -> Batch {
    Batch {
        count,
        symbol,
        side: '1',
        quantity,
        price,
    }
}

/// Sells.
const fn sells(count: u64, symbol: &'static str, quantity: u64, price: u64) -> Batch {
    Batch {
        count,
        symbol,
        side: '2',
        quantity,
        price,
    }
}

/// How many bytes a read gives at most, by members.
const PIECES: [usize; 4] = [25, 7, 40, 1];

/// How many Heartbeats the first of two clients sends behind its orders, while it waits for reports.
const HEARTBEATS: u64 = 80;

/// What a client sends.
#[derive(Drop)]
struct Client {
    alloc: Global,
    member: u8,
    /// The next MsgSeqNum.
    number: u64,
    /// The next ClOrdID.
    name: u64,
    all: Vec<u8>,
    orders: Vec<u8>,
}

impl Client {
    /// A client that logs on.
    fn new(alloc: Global, member: u8, name: u64) -> Result<Client, AllocError> {
        let mut client = Client {
            alloc,
            member,
            number: 1,
            name,
            all: Vec::new(alloc),
            orders: Vec::new(alloc),
        };
        client.say('A', "98=0|108=0|141=Y|")?;
        Ok(client)
    }

    /// Says a message, and answers its bytes.
    fn say(&mut self, msg_type: char, fields: &str) -> Result<Vec<u8>, AllocError> {
        let message = from_member(self.alloc, self.member, msg_type, self.number, fields)?;
        self.all.extend_from_slice(&message)?;
        self.number = self.number.wrapping_add(1);
        Ok(message)
    }

    /// Says an order message with the next ClOrdID.
    fn ask(&mut self, msg_type: char, fields: &str) -> Result<(), AllocError> {
        let name = self.name;
        let fields = format!(in self.alloc; "11={name}|60=20250102-09:30:00|{fields}")?;
        let message = self.say(msg_type, fields.as_str())?;
        self.orders.extend_from_slice(&message)?;
        self.name = name.wrapping_add(1);
        Ok(())
    }

    /// Sends these orders.
    fn order(&mut self, batch: Batch) -> Result<(), AllocError> {
        let Batch {
            count,
            symbol,
            side,
            quantity,
            price,
        } = batch;
        let fields = format!(in self.alloc;
            "55={symbol}|54={side}|38={quantity}|40=2|44={price}|"
        )?;
        for _ in 0..count {
            self.ask('D', fields.as_str())?;
        }
        Ok(())
    }

    /// Sends these orders, and a cancel of one that isn't there.
    fn trade(&mut self, batches: &[Batch]) -> Result<(), AllocError> {
        for batch in batches {
            self.order(*batch)?;
        }
        self.ask('F', "41=999|55=ABC|54=1|38=1|")
    }

    /// Waits for a while, and logs out.
    fn leave(&mut self) -> Result<(), AllocError> {
        for _ in 0..HEARTBEATS {
            self.say('0', "")?;
        }
        self.say('5', "")?;
        Ok(())
    }
}

/// A member, with what its clients send.
#[derive(Drop)]
pub struct Member {
    /// 1 to 4.
    pub number: u8,
    /// What the client sends that comes first and leaves, where there are two.
    first: Option<Vec<u8>>,
    /// What the client sends that stays.
    last: Vec<u8>,
    /// The order messages of all, one behind the other.
    pub orders: Vec<u8>,
    /// How many of them are sent before a client leaves.
    pub early: u64,
    /// How many there are.
    pub count: u64,
}

impl Member {
    /// A member with one client, which sends these orders under ClOrdIDs from this one on.
    fn new(alloc: Global, number: u8, name: u64, batches: &[Batch]) -> Result<Member, AllocError> {
        let mut client = Client::new(alloc, number, name)?;
        client.trade(batches)?;
        let count = client.name.wrapping_sub(name);
        Ok(Member {
            number,
            first: None,
            last: client.all,
            orders: client.orders,
            early: count,
            count,
        })
    }

    /// The same member, before whose client comes another one.
    fn behind(self, alloc: Global, batches: &[Batch]) -> Result<Member, AllocError> {
        let mut client = Client::new(alloc, self.number, 1)?;
        client.trade(batches)?;
        let early = client.name.wrapping_sub(1);
        client.leave()?;
        let Client {
            all,
            mut orders,
            ..
        } = client;
        orders.extend_from_slice(&self.orders)?;
        Ok(Member {
            first: Some(all),
            orders,
            early,
            count: self.count.wrapping_add(early),
            ..self
        })
    }

    /// Its port, at which its clients come.
    pub fn port(&self, alloc: Global) -> Result<MemPort, AllocError>
        ensures { IfOk result (λ port. port.out ≡ false) }
    {
        let piece = PIECES[(self.number.wrapping_sub(1) % 4) as usize].max(1);
        let mut coming = Vec::new(alloc);
        coming.push(
            MemWire::new(alloc, &self.last)?
                .in_pieces(piece)
                .staying_open(),
        )?;
        if let Some(first) = &self.first {
            coming.push(MemWire::new(alloc, first)?.in_pieces(piece))?;
        }
        MemPort::new(alloc, u16::from(self.number), coming)
    }
}

/// The first day: in the morning two members buy what the two others sell, and want more. Then the clients of the first
/// two log out, and others come, who buy what the others still sell.
pub fn first_day(alloc: Global) -> Result<[Member; 4], AllocError> {
    let first = [buys(1, "THREE", 2, 60), buys(2, "ABC", 1, 40)];
    let second = [buys(1, "FOUR", 2, 60), buys(1, "ABC", 1, 40)];
    let third = [sells(1, "THREE", 3, 60), sells(25, "ABC", 1, 50)];
    let fourth = [sells(1, "FOUR", 3, 60), sells(2, "ABC", 1, 50)];
    Ok([
        Member::new(alloc, 1, 100, &first)?.behind(alloc, &[buys(3, "ABC", 10, 50)])?,
        Member::new(alloc, 2, 100, &second)?.behind(alloc, &[buys(2, "ABC", 4, 50)])?,
        Member::new(alloc, 3, 100, &third)?,
        Member::new(alloc, 4, 100, &fourth)?,
    ])
}

/// The second day: the last two members sell to what rests of the first two.
pub fn second_day(alloc: Global) -> Result<[Member; 4], AllocError> {
    Ok([
        Member::new(alloc, 1, 500, &[buys(2, "ABC", 1, 30)])?,
        Member::new(alloc, 2, 500, &[buys(2, "ABC", 1, 30)])?,
        Member::new(alloc, 3, 500, &[sells(4, "ABC", 5, 40)])?,
        Member::new(alloc, 4, 500, &[sells(2, "ABC", 5, 40)])?,
    ])
}

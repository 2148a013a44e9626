//! The messages that the gateways publish, made before the clock runs: each gateway buys and cancels by turns, so that
//! the book stays small and each command has one output. A message that weren't right would be answered by a Reject,
//! and no figure printed.
ghost use Rattle.std.specs.Prelude.{◌≤◌};

use crate::fault::Fault;
use std::alloc::{AllocError, Global};
use venue_model::{Entry, LONGEST_MESSAGE};

/// The fields of the gateway's message of this place, from 0: at each even place a day order to buy 1 ABC at 50, else a
/// cancel of the order before it.
fn fields_of(alloc: Global, gateway: u8, place: u64) -> Result<String, AllocError> {
    let (name, number) = (place.saturating_add(1), place.saturating_add(2));
    if place % 2 == 0 {
        format!(in alloc;
            "35=D\x0149=C{gateway}\x0156=VENUE\x0134={number}\x0152=20250102-09:30:00\x0111={name}\x0155=ABC\x0154=1\x0160=20250102-09:30:00\x0138=1\x0140=2\x0144=50\x01"
        )
    } else {
        format!(in alloc;
            "35=F\x0149=C{gateway}\x0156=VENUE\x0134={number}\x0152=20250102-09:30:00\x0141={place}\x0111={name}\x0155=ABC\x0154=1\x0160=20250102-09:30:00\x0138=1\x01"
        )
    }
}

/// The gateway's message of these fields.
fn framed(alloc: Global, gateway: u8, fields: &str) -> Result<Entry, Fault>
    requires { (1 ≤ gateway) × (gateway ≤ 8) }
{
    let body = format!(in alloc; "8=FIX.4.4\x019={}\x01{fields}", fields.len())?;
    let mut sum = 0u8;
    for byte in body.as_bytes() {
        sum = sum.wrapping_add(*byte);
    }
    let message = format!(in alloc; "{body}10={sum:03}\x01")?;
    if message.is_empty() || message.len() > LONGEST_MESSAGE {
        return Err(Fault::Wrong);
    }
    Ok(Entry::new(gateway, message.as_bytes()))
}

/// The first messages of the gateway, so many.
pub fn messages_of(alloc: Global, gateway: u8, count: u64) -> Result<Vec<Entry>, Fault>
    requires { (1 ≤ gateway) × (gateway ≤ 8) }
{
    let mut all = Vec::with_capacity(alloc, count as usize)?;
    for place in 0..count {
        let fields = fields_of(alloc, gateway, place)?;
        let message = framed(alloc, gateway, fields.as_str())?;
        if all.push(message).is_err() {
            return Err(Fault::Memory);
        }
    }
    Ok(all)
}

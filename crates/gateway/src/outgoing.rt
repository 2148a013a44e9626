//! The bytes that stand to be written to the client. A message's frame is written here at once, behind those that stand
//! here; flushes take them off the front.
ghost use Rattle.std.specs.Prelude.{◌≡◌, ◌+◌, ◌≤◌, [], ◌++◌, length, drop};
ghost use Rattle.fix_orders.specs.Text.{Said};
ghost use Rattle.gateway.specs.Standing.{message_text};
ghost use Rattle.gateway.specs.Messages.{IsTypeText, AreFields, Spells};

use crate::message::{Moment, put_fields};
use fix_frame::write_frame;
use std::marker::Model;

/// How many bytes can stand here.
const SIZE: usize = 1024;

/// How many bytes the fields of a message have at most.
const FIELDS: usize = 512;

/// Bytes to write. They lie in place, beside the room in which a message's fields are gathered, and contracts see them
/// as a list.
#[derive(Drop)]
pub struct Outgoing {
    bytes: [u8; 1024],
    len: usize,
    fields: [u8; 512],
    moment: Moment,
}

impl Model for Outgoing {
    ghost use Rattle.std.specs.Prelude.{List, ℕ, ◌≡◌, ◌≤◌, length, take};

    ghost Value = { List ℕ };

    ghost view = { λ o. take o.len o.bytes };

    ghost invariant = { λ o. (length o.bytes ≡ 1024) × (o.len ≤ 1024) };
}

impl Outgoing {
    /// Nothing to write.
    pub fn new() -> Outgoing
        ensures { result ≡ [] }
    {
        Outgoing {
            bytes: [0; SIZE],
            len: 0,
            fields: [0; FIELDS],
            moment: Moment::new(),
        }
    }

    /// The bytes.
    pub fn as_slice(&self) -> &[u8]
        ensures { result.now ≡ self.now }
    {
        &self.bytes[..self.len]
    }

    /// Forgets them all.
    pub fn clear(&mut self)
        ensures { self.new ≡ [] }
    {
        self.len = 0;
    }

    /// Forgets the first ones. Others than these seldom remain, since a wire takes what it is given.
    pub fn skip(&mut self, n: usize)
        requires { n ≤ length self.old }
        ensures { self.new ≡ drop n self.old }
    {
        if n < self.len {
            self.bytes.rotate_left(n);
        }
        self.len -= n;
    }

    /// Puts the frame of a message from the gateway to its client behind what stands here.
    pub fn put_message(&mut self, gateway: u8, number: u64, msg_type: &[u8], time: u64, body: &[u8])
        requires gateway { (1 ≤ gateway) × (gateway ≤ 8) }
        requires kind { IsTypeText msg_type.now }
        requires fields { AreFields body.now }
        requires most { length body.now ≤ 320 }
        requires room { length self.old ≤ 512 }
        ensures text { (said : Said) → Spells msg_type.now time body.now said → self.new ≡ self.old ++ message_text gateway number said }
        ensures few { length self.new ≤ length self.old + 412 }
    {
        self.moment.set(time);
        let end = put_fields(
            &mut self.fields,
            gateway,
            number,
            msg_type,
            &self.moment.text,
            body,
        );
        let len = write_frame(&mut self.bytes[self.len..], &self.fields[..end]);
        self.len += len;
    }
}

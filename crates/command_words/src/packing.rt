//! Commands as words: the unmarshaller packs the command of an entry into the entry's row, and the processor unpacks
//! it. Nothing outside this module knows the words' layout.
//!
//! Word 0 is the head; its fields are given with their bits, from the lowest one on:
//!
//! | kind | gateway | the rest of the head | words 1 to 4 |
//! |---|---|---|---|
//! | 0 void: 3 | 4 | | |
//! | 1 new: 3 | 4 | side 1, TimeInForce 2, quantity 20, price 20 | SendingTime, ClOrdID, Symbol |
//! | 2 cancel: 3 | 4 | side 1 | SendingTime, ClOrdID, OrigClOrdID, Symbol |
//! | 3 replace: 3 | 4 | side 1, TimeInForce 2, quantity 20, price 20 | SendingTime, ClOrdID, OrigClOrdID, Symbol |
//! | 4 malformed: 3 | 4 | reason 3, type of the message 2, tag 32 | SendingTime, MsgSeqNum |
//!
//! The price is 0 where there is none, in a market order. A symbol is one word: its bytes, big-endian, with zeros
//! behind them.
ghost use Rattle.std.specs.Prelude.{◌≡◌, ℕ, ◌^◌, ◌<◌, ◌≤◌, List, ◌∷◌, length, take};
ghost use Rattle.venue_model.specs.Spelling.{IsSpelling};
ghost use Rattle.venue_model.specs.Step.{IsCommand};
ghost use Rattle.venue_model.specs.declared.commands.Command.{Command};
ghost use Rattle.command_words.specs.Packing.{packed_fields, fault_fields, head_word, more_words, command_words, IsPackable};

mod fields;
mod unpacking;

use crate::packing::fields::{
    CANCEL, GATEWAY, MALFORMED, NEW, PRICE, QUANTITY, REASON, REF_TYPE, REPLACE, SIDE, TAG,
    TIME_IN_FORCE, VOID, kind_in, price_number, reason_number, side_number, symbol_word,
    time_in_force_number, type_number,
};
use std::marker::Model;
pub use unpacking::unpack;
use venue_model::{
    Command, Malformed, NewOrderSingle, OrderCancelReplaceRequest, OrderCancelRequest, RefMsgType,
    SessionRejectReason, Side, TimeInForce,
};

/// How many words a command has at most.
pub const COMMAND_WORDS: usize = 5;

/// The words of one command, 1 to 5, in place. Contracts see the words.
#[derive(Drop)]
pub struct PackedCommand {
    words: [u64; COMMAND_WORDS],
    count: usize,
}

impl Model for PackedCommand {
    ghost Value = { List ℕ };

    ghost view = { λ p. take p.count p.words };

    ghost invariant = { λ p. p.count ≤ 5 };
}

impl PackedCommand {
    /// The words, the head first.
    pub fn as_slice(&self) -> &[u64]
        ensures value { result.now ≡ self.now }
        ensures most { length self.now ≤ COMMAND_WORDS }
    {
        &self.words[..self.count]
    }
}

/// The words of a command that came through this gateway, 1 to 8.
#[inline(always)]
pub fn pack(gateway: u8, command: &Command) -> PackedCommand
    requires gateway { gateway < 16 }
    requires numbers { IsCommand command.now }
    ensures words { result ≡ command_words gateway command.now }
    ensures packable { IsPackable gateway command.now }
{
    let head = head_word(gateway, command);
    match command {
        Command::New {
            sending_time,
            order,
        } => new_words(head, *sending_time, order),
        Command::Cancel {
            sending_time,
            request,
        } => cancel_words(head, *sending_time, request),
        Command::Replace {
            sending_time,
            request,
        } => replace_words(head, *sending_time, request),
        Command::Malformed {
            sending_time,
            fault,
        } => malformed_words(head, *sending_time, *fault),
        Command::Void => PackedCommand {
            words: [head, 0, 0, 0, 0],
            count: 1,
        },
    }
}

/// How many words a command with this head has.
pub fn words_of(head: u64) -> usize
    ensures count { (gateway : ℕ) (c : Command) → IsPackable gateway c → head ≡ head_word gateway c
        → result ≡ length (command_words gateway c) }
    ensures range { (1 ≤ result) × (result ≤ COMMAND_WORDS) }
{
    match kind_in(head) {
        NEW => 4,
        CANCEL | REPLACE => 5,
        MALFORMED => 3,
        _ => 1,
    }
}

#[inline(always)]
fn new_words(head: u64, sending_time: u64, order: &NewOrderSingle) -> PackedCommand
    ensures words { result ≡ head ∷ more_words (Command.New sending_time order.now) }
    ensures spelling { IsSpelling order.now.symbol }
{
    PackedCommand {
        words: [
            head,
            sending_time,
            order.cl_ord_id,
            symbol_word(&order.symbol),
            0,
        ],
        count: 4,
    }
}

fn cancel_words(head: u64, sending_time: u64, request: &OrderCancelRequest) -> PackedCommand
    ensures words { result ≡ head ∷ more_words (Command.Cancel sending_time request.now) }
    ensures spelling { IsSpelling request.now.symbol }
{
    PackedCommand {
        words: [
            head,
            sending_time,
            request.cl_ord_id,
            request.orig_cl_ord_id,
            symbol_word(&request.symbol),
        ],
        count: 5,
    }
}

fn replace_words(head: u64, sending_time: u64, request: &OrderCancelReplaceRequest) -> PackedCommand
    ensures words { result ≡ head ∷ more_words (Command.Replace sending_time request.now) }
    ensures spelling { IsSpelling request.now.symbol }
{
    PackedCommand {
        words: [
            head,
            sending_time,
            request.cl_ord_id,
            request.orig_cl_ord_id,
            symbol_word(&request.symbol),
        ],
        count: 5,
    }
}

fn malformed_words(head: u64, sending_time: u64, fault: Malformed) -> PackedCommand
    ensures words { result ≡ head ∷ more_words (Command.Malformed sending_time fault) }
    ensures fits { (fault.tag < 2 ^ 32) × (fault.ref_seq < 2 ^ 32) }
{
    PackedCommand {
        words: [head, sending_time, fault.ref_seq as u64, 0, 0],
        count: 3,
    }
}

/// Word 0 of a command.
#[inline(always)]
fn head_word(gateway: u8, command: &Command) -> u64
    requires gateway { gateway < 16 }
    requires numbers { IsCommand command.now }
    ensures { result ≡ head_word gateway command.now }
{
    let (kind, fields) = match command {
        Command::New { order, .. } => (
            NEW,
            order_fields(
                order.side,
                order.time_in_force,
                order.quantity,
                price_number(order.ord_type),
            ),
        ),
        Command::Cancel { request, .. } => {
            (CANCEL, order_fields(request.side, TimeInForce::Day, 0, 0))
        }
        Command::Replace { request, .. } => (
            REPLACE,
            order_fields(
                request.side,
                request.time_in_force,
                request.quantity,
                request.price,
            ),
        ),
        Command::Malformed { fault, .. } => (
            MALFORMED,
            fault_fields(fault.reason, fault.ref_type, fault.tag),
        ),
        Command::Void => (VOID, 0),
    };
    kind + GATEWAY * gateway as u64 + fields
}

/// The fields of an order that stand in its head.
#[inline(always)]
fn order_fields(side: Side, time_in_force: TimeInForce, quantity: u64, price: u64) -> u64
    requires quantity { quantity ≤ 1000000 }
    requires price { price ≤ 1000000 }
    ensures value { result ≡ packed_fields side time_in_force quantity price }
    ensures small { result < 2 ^ 51 }
{
    SIDE * side_number(side)
        + TIME_IN_FORCE * time_in_force_number(time_in_force)
        + QUANTITY * quantity
        + PRICE * price
}

/// The fields of a fault that stand in its head.
fn fault_fields(reason: SessionRejectReason, ref_type: RefMsgType, tag: u32) -> u64
    ensures value { result ≡ fault_fields reason ref_type tag }
    ensures small { result < 2 ^ 51 }
{
    REASON * reason_number(reason) + REF_TYPE * type_number(ref_type) + TAG * tag as u64
}

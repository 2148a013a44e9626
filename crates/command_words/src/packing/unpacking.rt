//! A command out of its words: the first thing that the processor does with an entry.
ghost use Rattle.std.specs.Prelude.{◌≡◌, ℕ, Some};
ghost use Rattle.venue_model.specs.declared.commands.Command.{Command};
ghost use Rattle.venue_model.specs.declared.commands.NewOrderSingle.{NewOrderSingle};
ghost use Rattle.venue_model.specs.declared.commands.OrderCancelRequest.{OrderCancelRequest};
ghost use Rattle.venue_model.specs.declared.commands.OrderCancelReplaceRequest.{OrderCancelReplaceRequest};
ghost use Rattle.venue_model.specs.declared.commands.Malformed.{Malformed};
ghost use Rattle.command_words.specs.Packing.{command_words, IsPackable};

use crate::packing::fields::{
    CANCEL, MALFORMED, NEW, REPLACE, gateway_in, kind_in, ord_type_in, price_in, quantity_in,
    reason_in, side_in, symbol_in, tag_in, time_in_force_in, type_in,
};
use venue_model::{
    Command, Malformed, NewOrderSingle, OrderCancelReplaceRequest, OrderCancelRequest,
};

/// The command of these words and the number of its gateway. Words that are no command's are read as anything.
#[inline(always)]
pub fn unpack(words: &[u64]) -> (u8, Command)
    ensures { (gateway : ℕ) (c : Command) → IsPackable gateway c → words.now ≡ command_words gateway c → (result.0 ≡ gateway) × (result.1 ≡ c) }
{
    let [head, ..] = *words else {
        return (0, Command::Void);
    };
    let command = match kind_in(head) {
        NEW => new_in(words),
        CANCEL => cancel_in(words),
        REPLACE => replace_in(words),
        MALFORMED => malformed_in(words),
        _ => None,
    };
    (gateway_in(head), command.unwrap_or(Command::Void))
}

/// The new order of these words, the head among them.
#[inline(always)]
fn new_in(words: &[u64]) -> Option<Command>
    ensures { (gateway time : ℕ) (order : NewOrderSingle) → IsPackable gateway (Command.New time order) →
        words.now ≡ command_words gateway (Command.New time order) → result ≡ Some (Command.New time order) }
{
    let [head, sending_time, cl_ord_id, symbol] = *words else {
        return None;
    };
    let symbol = symbol_in(symbol)?;
    Some(Command::New {
        sending_time,
        order: NewOrderSingle {
            cl_ord_id,
            symbol,
            side: side_in(head),
            ord_type: ord_type_in(head),
            quantity: quantity_in(head),
            time_in_force: time_in_force_in(head),
        },
    })
}

/// The cancel of these words.
fn cancel_in(words: &[u64]) -> Option<Command>
    ensures { (gateway time : ℕ) (request : OrderCancelRequest) → IsPackable gateway (Command.Cancel time request) →
        words.now ≡ command_words gateway (Command.Cancel time request) → result ≡ Some (Command.Cancel time request) }
{
    let [head, sending_time, cl_ord_id, orig_cl_ord_id, symbol] = *words else {
        return None;
    };
    let symbol = symbol_in(symbol)?;
    Some(Command::Cancel {
        sending_time,
        request: OrderCancelRequest {
            cl_ord_id,
            orig_cl_ord_id,
            symbol,
            side: side_in(head),
        },
    })
}

/// The replace of these words.
fn replace_in(words: &[u64]) -> Option<Command>
    ensures { (gateway time : ℕ) (request : OrderCancelReplaceRequest) → IsPackable gateway (Command.Replace time request) →
        words.now ≡ command_words gateway (Command.Replace time request) → result ≡ Some (Command.Replace time request) }
{
    let [head, sending_time, cl_ord_id, orig_cl_ord_id, symbol] = *words else {
        return None;
    };
    let symbol = symbol_in(symbol)?;
    Some(Command::Replace {
        sending_time,
        request: OrderCancelReplaceRequest {
            cl_ord_id,
            orig_cl_ord_id,
            symbol,
            side: side_in(head),
            price: price_in(head),
            quantity: quantity_in(head),
            time_in_force: time_in_force_in(head),
        },
    })
}

/// The fault of these words.
fn malformed_in(words: &[u64]) -> Option<Command>
    ensures { (gateway time : ℕ) (fault : Malformed) → IsPackable gateway (Command.Malformed time fault) →
        words.now ≡ command_words gateway (Command.Malformed time fault) → result ≡ Some (Command.Malformed time fault) }
{
    let [head, sending_time, ref_seq] = *words else {
        return None;
    };
    let tag = u32::try_from(tag_in(head)).ok()?;
    let ref_seq = u32::try_from(ref_seq).ok()?;
    Some(Command::Malformed {
        sending_time,
        fault: Malformed {
            reason: reason_in(head),
            tag,
            ref_seq,
            ref_type: type_in(head),
        },
    })
}

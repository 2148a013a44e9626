//! What stands in the words of a command: the kinds, the places of the fields in a head, and the fields as numbers and
//! back.
ghost use Rattle.std.specs.Prelude.{◌≡◌, ℕ, ◌/◌, ◌%◌, ◌<◌, ◌≤◌, List, not, nat_eq, Some};
ghost use Rattle.std.specs.List.{prefix_len};
ghost use Rattle.venue_model.specs.Spelling.{IsSpelling};
ghost use Rattle.venue_model.specs.Step.{IsPriced};
ghost use Rattle.command_words.specs.Packing.{side_number, time_in_force_number, price_number, reason_number, type_number, symbol_word};

use venue_model::{
    LONGEST_SYMBOL, OrdType, RefMsgType, SessionRejectReason, Side, Symbol, TimeInForce,
};

/// The kind of a void command.
pub(super) const VOID: u64 = 0;
/// The kind of a new order.
pub(super) const NEW: u64 = 1;
/// The kind of a cancel.
pub(super) const CANCEL: u64 = 2;
/// The kind of a replace.
pub(super) const REPLACE: u64 = 3;
/// The kind of a message with a fault.
pub(super) const MALFORMED: u64 = 4;

/// Where the gateway's number stands: what one more of it adds to a head. The kind stands below it.
pub(super) const GATEWAY: u64 = 8;
/// Where the side stands.
pub(super) const SIDE: u64 = 128;
/// Where TimeInForce stands.
pub(super) const TIME_IN_FORCE: u64 = 256;
/// Where the quantity stands.
pub(super) const QUANTITY: u64 = 1_024;
/// Where the price stands.
pub(super) const PRICE: u64 = 1_073_741_824;
/// Where the reason of a fault stands.
pub(super) const REASON: u64 = 128;
/// Where the type of the message that has a fault stands.
pub(super) const REF_TYPE: u64 = 1_024;
/// Where the tag of a fault stands.
pub(super) const TAG: u64 = 4_096;

/// The kind of a head.
pub(super) fn kind_in(head: u64) -> u64
    ensures { result ≡ head % 8 }
{
    head % GATEWAY
}

/// The gateway's number in a head.
pub(super) fn gateway_in(head: u64) -> u8
    ensures { result ≡ head / 8 % 16 }
{
    (head / GATEWAY % (SIDE / GATEWAY)) as u8
}

pub(crate) fn side_number(side: Side) -> u64
    ensures value { result ≡ side_number side }
    ensures small { result < 2 }
{
    match side {
        Side::Buy => 0,
        Side::Sell => 1,
    }
}

pub(super) fn time_in_force_number(time_in_force: TimeInForce) -> u64
    ensures value { result ≡ time_in_force_number time_in_force }
    ensures small { result < 3 }
{
    match time_in_force {
        TimeInForce::Day => 0,
        TimeInForce::ImmediateOrCancel => 1,
        TimeInForce::FillOrKill => 2,
    }
}

/// The price, 0 where there is none.
pub(super) fn price_number(ord_type: OrdType) -> u64
    ensures { result ≡ price_number ord_type }
{
    match ord_type {
        OrdType::Market => 0,
        OrdType::Limit { price } => price,
    }
}

pub(crate) fn reason_number(reason: SessionRejectReason) -> u64
    ensures value { result ≡ reason_number reason }
    ensures small { result < 5 }
{
    match reason {
        SessionRejectReason::RequiredTagMissing => 0,
        SessionRejectReason::TagNotDefined => 1,
        SessionRejectReason::ValueIncorrect => 2,
        SessionRejectReason::IncorrectFormat => 3,
        SessionRejectReason::TagAppearsMoreThanOnce => 4,
    }
}

pub(crate) fn type_number(ref_type: RefMsgType) -> u64
    ensures value { result ≡ type_number ref_type }
    ensures small { result < 3 }
{
    match ref_type {
        RefMsgType::NewOrderSingle => 0,
        RefMsgType::OrderCancelRequest => 1,
        RefMsgType::OrderCancelReplaceRequest => 2,
    }
}

pub(super) fn quantity_in(head: u64) -> u64
    ensures { result ≡ head / 1024 % 1048576 }
{
    head / QUANTITY % (PRICE / QUANTITY)
}

pub(super) fn price_in(head: u64) -> u64
    ensures { result ≡ head / 1073741824 }
{
    head / PRICE
}

pub(super) fn ord_type_in(head: u64) -> OrdType
    ensures { (ord_type : OrdType) → IsPriced ord_type → head / 1073741824 ≡ price_number ord_type → result ≡ ord_type }
{
    match price_in(head) {
        0 => OrdType::Market,
        price => OrdType::Limit { price },
    }
}

pub(super) fn side_in(head: u64) -> Side
    ensures { (side : Side) → head / 128 % 2 ≡ side_number side → result ≡ side }
{
    side_of(head / SIDE % (TIME_IN_FORCE / SIDE))
}

/// The side of a number.
pub(crate) fn side_of(number: u64) -> Side
    ensures { (side : Side) → number ≡ side_number side → result ≡ side }
{
    match number {
        0 => Side::Buy,
        _ => Side::Sell,
    }
}

pub(super) fn time_in_force_in(head: u64) -> TimeInForce
    ensures { (time_in_force : TimeInForce) → head / 256 % 4 ≡ time_in_force_number time_in_force → result ≡ time_in_force }
{
    match head / TIME_IN_FORCE % (QUANTITY / TIME_IN_FORCE) {
        0 => TimeInForce::Day,
        1 => TimeInForce::ImmediateOrCancel,
        _ => TimeInForce::FillOrKill,
    }
}

pub(super) fn reason_in(head: u64) -> SessionRejectReason
    ensures { (reason : SessionRejectReason) → head / 128 % 8 ≡ reason_number reason → result ≡ reason }
{
    reason_of(head / REASON % (REF_TYPE / REASON))
}

/// The reason of a number.
pub(crate) fn reason_of(number: u64) -> SessionRejectReason
    ensures { (reason : SessionRejectReason) → number ≡ reason_number reason → result ≡ reason }
{
    match number {
        0 => SessionRejectReason::RequiredTagMissing,
        1 => SessionRejectReason::TagNotDefined,
        2 => SessionRejectReason::ValueIncorrect,
        3 => SessionRejectReason::IncorrectFormat,
        _ => SessionRejectReason::TagAppearsMoreThanOnce,
    }
}

pub(super) fn type_in(head: u64) -> RefMsgType
    ensures { (ref_type : RefMsgType) → head / 1024 % 4 ≡ type_number ref_type → result ≡ ref_type }
{
    type_of(head / REF_TYPE % (TAG / REF_TYPE))
}

/// The type of a number.
pub(crate) fn type_of(number: u64) -> RefMsgType
    ensures { (ref_type : RefMsgType) → number ≡ type_number ref_type → result ≡ ref_type }
{
    match number {
        0 => RefMsgType::NewOrderSingle,
        1 => RefMsgType::OrderCancelRequest,
        _ => RefMsgType::OrderCancelReplaceRequest,
    }
}

pub(super) fn tag_in(head: u64) -> u64
    ensures { result ≡ head / 4096 }
{
    head / TAG
}

/// The bytes of a symbol in one word.
pub(crate) fn symbol_word(symbol: &Symbol) -> u64
    ensures value { result ≡ symbol_word symbol.now }
    ensures spelling { IsSpelling symbol.now }
{
    let name = symbol.as_bytes();
    let mut bytes = [0; LONGEST_SYMBOL];
    bytes[..name.len()].copy_from_slice(name);
    u64::from_be_bytes(bytes)
}

/// The symbol of a word.
pub(crate) fn symbol_in(word: u64) -> Option<Symbol>
    ensures { (name : List ℕ) → IsSpelling name → word ≡ symbol_word name → result ≡ Some name }
{
    let bytes = word.to_be_bytes();
    Symbol::new(&bytes[..name_length(&bytes)])
}

/// How many bytes stand before the first 0.
fn name_length(bytes: &[u8; LONGEST_SYMBOL]) -> usize
    ensures count { result ≡ prefix_len (λ b. not (nat_eq b 0)) bytes.now }
    ensures most { result ≤ 8 }
{
    bytes.iter().take_while(|byte| **byte != 0).count()
}

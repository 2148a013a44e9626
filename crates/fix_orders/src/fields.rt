//! The fields of an order message behind its header, read once: the value of each tag, the least tag at fault for each
//! reason, and the first reason that has one.
ghost use Rattle.std.specs.Prelude.{◌≡◌, ◌<◌, ◌≤◌, ◌++◌, ◌∷◌, [], length, List, ℕ, true, MatchOption};
ghost use Rattle.fix_frame.specs.Grammar.{Field as FixField, IsField, most_in};
ghost use Rattle.fix_frame.specs.Fields.{as_field};
ghost use Rattle.fix_frame.specs.Bodies.{bytes_left, fields_in};
ghost use Rattle.fix_frame.specs.Runs.{IsRun};
ghost use Rattle.fix_orders.specs.declared.tables.Table.{Table};
ghost use Rattle.fix_orders.specs.OrderTags.{tag_number};
ghost use Rattle.fix_orders.specs.Reading.{is_among, least, missing_tags, classes};
ghost use Rattle.fix_orders.specs.Findings.{IsFound, outside, is_other, lesser_if, least_in, is_missing, fault_in};
ghost use Rattle.fix_orders.specs.Text.{field};

use crate::formats::{JudgedValue, format_of, judge};
use crate::tables::{Need, ORDER_TAGS, OrderTag, Table};
use crate::values::Values;
use arrayvec::ArrayVec;
use fix_frame::{Body, Field};
use venue_model::SessionRejectReason;

/// How many fields the body of a message that comes in has at most.
const MOST_FIELDS: usize = 74;

/// The tags that stand in front of these fields or behind them, each once: BeginString, BodyLength, CheckSum and those
/// of the header.
const OUTSIDE: [u32; 8] = [8, 9, 10, 35, 49, 56, 34, 52];

/// What is found of the fields that were read: the values, and of each fault that a field can have the least tag.
#[derive(Drop)]
pub struct OrderFields<'a> {
    pub values: Values<'a>,
    /// The tags that no order message has. A right message has none, so these alone are compared one by one.
    others: ArrayVec<u32, MOST_FIELDS>,
    repeated: Option<u32>,
    undefined: Option<u32>,
    ill_formed: Option<u32>,
    out_of_range: Option<u32>,
}

impl<'a> OrderFields<'a> {
    /// What is found of all the fields that are left of a message, by this table; none where the bytes are no run of
    /// fields.
    pub fn read(table: Table, mut body: Body<'a>) -> Option<OrderFields<'a>>
        requires { length (bytes_left body) ≤ most_in }
        ensures { MatchOption result (IsRun (bytes_left body.entry) → ⊥)
            (λ found. IsRun (bytes_left body.entry) × IsFound table (fields_in body.entry) found) }
    {
        let mut found = OrderFields::new();
        while let Some(field) = body.next() {
            found.take(table, field);
        }
        if body.is_over() { Some(found) } else { None }
    }

    /// What is found of no fields.
    fn new() -> OrderFields<'a>
        ensures { (table : Table) → IsFound table [] result }
    {
        OrderFields {
            values: Values::new(),
            others: ArrayVec::new(),
            repeated: None,
            undefined: None,
            ill_formed: None,
            out_of_range: None,
        }
    }

    /// Takes the next field.
    fn take(&mut self, table: Table, field: Field<'a>)
        requires room { length self.old.others.items < 74 }
        requires field { IsField (as_field field) }
        ensures { (fields : List FixField) → IsFound table fields self.old →
            IsFound table (fields ++ as_field field.entry ∷ []) self.new }
    {
        match OrderTag::of(field.tag) {
            Some(tag) => self.take_value(table, tag, field.value),
            None if is_among(&OUTSIDE, field.tag) => self.take_outside(field.tag),
            None => self.take_other(field.tag),
        }
    }

    /// The same of a tag that some type of order message has.
    fn take_value(&mut self, table: Table, tag: OrderTag, value: &'a [u8])
        requires { IsField (field (tag_number tag) value.now) }
        ensures { (fields : List FixField) → IsFound table fields self.old →
            IsFound table (fields ++ field (tag_number tag) value.now ∷ []) self.new }
    {
        let judged = judge(format_of(table, tag), value);
        let is_repeated = self.values.has(tag);
        let is_undefined = tag.need(table) == Need::Undefined;
        self.values.keep(tag, value);
        if judged == JudgedValue::Right && !is_repeated && !is_undefined {
            return;
        }
        let number = tag.number();
        self.repeated = lesser_if(is_repeated, number, self.repeated);
        self.undefined = lesser_if(is_undefined, number, self.undefined);
        self.ill_formed = lesser_if(judged == JudgedValue::WrongFormat, number, self.ill_formed);
        self.out_of_range = lesser_if(judged == JudgedValue::OutOfRange, number, self.out_of_range);
    }

    /// The same of a tag that the message has outside of these fields.
    fn take_outside(&mut self, tag: u32)
        requires { is_among outside tag ≡ true }
        ensures { (table : Table) (fields : List FixField) (value : List ℕ) → IsField (field tag value) →
            IsFound table fields self.old → IsFound table (fields ++ field tag value ∷ []) self.new }
    {
        self.repeated = lesser_if(true, tag, self.repeated);
    }

    /// The same of a tag that no message has.
    fn take_other(&mut self, tag: u32)
        requires room { length self.old.others.items < 74 }
        requires other { is_other tag ≡ true }
        ensures { (table : Table) (fields : List FixField) (value : List ℕ) → IsField (field tag value) →
            IsFound table fields self.old → IsFound table (fields ++ field tag value ∷ []) self.new }
    {
        self.repeated = lesser_if(is_among(self.others.as_slice(), tag), tag, self.repeated);
        self.undefined = lesser_if(true, tag, self.undefined);
        self.others.push(tag);
    }

    /// The least tag at fault for this reason.
    pub fn least(&self, reason: SessionRejectReason, table: Table) -> Option<u32>
        ensures { (fields : List FixField) → IsFound table fields self.now →
            result ≡ least_in reason table fields }
    {
        match reason {
            SessionRejectReason::TagAppearsMoreThanOnce => self.repeated,
            SessionRejectReason::TagNotDefined => self.undefined,
            SessionRejectReason::RequiredTagMissing => self.least_missing(table),
            SessionRejectReason::IncorrectFormat => self.ill_formed,
            SessionRejectReason::ValueIncorrect => self.out_of_range,
        }
    }

    /// The least required tag that no field has.
    fn least_missing(&self, table: Table) -> Option<u32>
        ensures { (fields : List FixField) → IsFound table fields self.now →
            result ≡ least (missing_tags table fields) }
    {
        let mut found = None;
        for tag in ORDER_TAGS {
            found = self.lesser_missing(table, tag, found);
        }
        found
    }

    /// The lesser of a tag that was found and this one, where it is missing. Most tags of a message aren't.
    fn lesser_missing(&self, table: Table, tag: OrderTag, found: Option<u32>) -> Option<u32>
        ensures { result ≡ lesser_if (is_missing table self.now.values tag) (tag_number tag) found }
    {
        if self.is_missing(table, tag) {
            lesser_if(true, tag.number(), found)
        } else {
            found
        }
    }

    /// Whether the table requires the tag and no field has it.
    fn is_missing(&self, table: Table, tag: OrderTag) -> bool
        ensures { result ≡ is_missing table self.now.values tag }
    {
        !self.values.has(tag) && tag.need(table) == Need::Required
    }
}

/// The lesser of a tag that was found and this one, where it is wrong.
fn lesser_if(wrong: bool, tag: u32, found: Option<u32>) -> Option<u32>
    ensures { result ≡ lesser_if wrong tag found }
{
    match found {
        Some(least) if wrong => Some(tag.min(least)),
        None if wrong => Some(tag),
        _ => found,
    }
}

/// Whether the tag is one of these.
fn is_among(tags: &[u32], tag: u32) -> bool
    ensures { result ≡ is_among tags.now tag }
{
    tags.contains(&tag)
}

/// Why a message is rejected.
#[derive(Clone, Copy)]
pub struct Fault {
    /// SessionRejectReason (373).
    pub reason: SessionRejectReason,
    /// RefTagID (371).
    pub tag: u32,
}

/// The order in which reasons are chosen: 13, 2, 1, 6, 5.
const CLASSES: [SessionRejectReason; 5] = [
    SessionRejectReason::TagAppearsMoreThanOnce,
    SessionRejectReason::TagNotDefined,
    SessionRejectReason::RequiredTagMissing,
    SessionRejectReason::IncorrectFormat,
    SessionRejectReason::ValueIncorrect,
];

/// The one fault by this table of a message with these fields behind its header, if it has any.
pub fn first_fault(table: Table, found: &OrderFields) -> Option<Fault>
    ensures { (fields : List FixField) → IsFound table fields found.now →
        result ≡ fault_in classes table fields }
{
    for reason in CLASSES {
        if let Some(tag) = found.least(reason, table) {
            return Some(Fault { reason, tag });
        }
    }
    None
}

//! The formats and ranges of values, by tag (docs/PROFILE.md, "Formats").
ghost use Rattle.std.specs.Prelude.{◌≡◌, ◌==◌};
ghost use Rattle.std.specs.List.{list_any};
ghost use Rattle.fix_orders.specs.Formats.{format_of, is_symbol};
ghost use Rattle.fix_orders.specs.OrderTags.{tag_number};
ghost use Rattle.fix_orders.specs.Judging.{as_format, IsBounded, judged_value};

use crate::number::read_number;
use crate::tables::{OrderTag, Table};
use crate::time::is_time;
use venue_model::Symbol;

/// What the value of a tag has to be.
#[derive(Clone, Copy, Debug)]
pub enum Format {
    /// A number from 1 to so much.
    NumberTo(u64),
    /// One byte, one of these.
    ByteOf(&'static [u8]),
    Symbol,
    Time,
}

/// What a value is by its format.
#[derive(Clone, Copy, Debug, PartialEq, Eq)]
pub enum JudgedValue {
    Right,
    WrongFormat,
    OutOfRange,
}

/// The format of a tag in this table.
pub fn format_of(table: Table, tag: OrderTag) -> Format
    ensures value { as_format result ≡ format_of table (tag_number tag) }
    ensures bounded { IsBounded result }
{
    match tag {
        OrderTag::ClOrdId | OrderTag::OrigClOrdId => Format::NumberTo(999_999_999_999_999),
        OrderTag::OrderQty | OrderTag::Price => Format::NumberTo(1_000_000),
        OrderTag::OrdType => Format::ByteOf(table.ord_type()),
        OrderTag::Side => Format::ByteOf(b"12"),
        OrderTag::TimeInForce => Format::ByteOf(b"034"),
        OrderTag::Symbol => Format::Symbol,
        OrderTag::TransactTime => Format::Time,
    }
}

/// What a value of this format is.
pub fn judge(format: Format, value: &[u8]) -> JudgedValue
    requires { IsBounded format }
    ensures { result ≡ judged_value (as_format format) value.now }
{
    match format {
        Format::NumberTo(most) => match read_number(value) {
            Some(number) if 1 <= number && number <= most => JudgedValue::Right,
            Some(_) => JudgedValue::OutOfRange,
            None => JudgedValue::WrongFormat,
        },
        Format::ByteOf(bytes) => match value {
            [byte] if is_one_of(bytes, *byte) => JudgedValue::Right,
            [_] => JudgedValue::OutOfRange,
            _ => JudgedValue::WrongFormat,
        },
        Format::Symbol if is_symbol(value) => JudgedValue::Right,
        Format::Time if is_time(value) => JudgedValue::Right,
        Format::Symbol | Format::Time => JudgedValue::WrongFormat,
    }
}

/// Whether the byte is one of these, which are few.
#[inline(always)]
fn is_one_of(bytes: &[u8], byte: u8) -> bool
    ensures { result ≡ list_any (λ b. b == byte) bytes.now }
{
    match bytes {
        [first] => *first == byte,
        [first, second] => *first == byte || *second == byte,
        [first, second, third] => *first == byte || *second == byte || *third == byte,
        _ => bytes.contains(&byte),
    }
}

/// Whether the bytes spell a symbol.
fn is_symbol(value: &[u8]) -> bool
    ensures { result ≡ is_symbol value.now }
{
    Symbol::is_name(value)
}

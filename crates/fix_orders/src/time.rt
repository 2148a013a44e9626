//! Times: SendingTime (52) and TransactTime (60) as 17 bytes, and as a number of 14 digits.
ghost use Rattle.std.specs.Prelude.{◌≡◌, ◌+◌, ◌-◌, ◌*◌, ◌<◌, ◌≤◌, IsTrue, length, slice_index};
ghost use Rattle.std.specs.List.{list_all, zip};
ghost use Rattle.fix_orders.specs.Formats.{time_shape, is_time, number_of_time, time_text, last_digits, fits};

use crate::number::is_digit;
use crate::put::{put_bytes, put_two};

/// YYYYMMDD-HH:MM:SS, where 0 stands for any digit.
const SHAPE: [u8; 17] = *b"00000000-00:00:00";

/// How many bytes a time has.
pub(crate) const TIME: usize = 17;

/// What the bytes of two digits, the first one ten times, add up to above their number.
const TWO_ZEROS: u64 = 528;

/// Whether the bytes are a time.
#[inline(always)]
pub fn is_time(value: &[u8]) -> bool
    ensures { result ≡ is_time value.now }
{
    value.len() == SHAPE.len() && has_shape(value)
}

/// Whether each byte of so many fits the shape. All are looked at, so that the machine can look at many at once.
#[inline(always)]
fn has_shape(value: &[u8]) -> bool
    requires { length value.now ≡ 17 }
    ensures { result ≡ list_all fits (zip time_shape value.now) }
{
    let mut right = true;
    for at in 0..SHAPE.len() {
        right &= fits(SHAPE[at], value[at]);
    }
    right
}

/// Whether the byte fits the shape's byte at its place.
fn fits(shape: u8, byte: u8) -> bool
    ensures { result ≡ fits (shape, byte) }
{
    if shape == b'0' {
        is_digit(byte)
    } else {
        byte == shape
    }
}

/// The number of a time's 14 digits.
pub fn number_of_time(time: &[u8]) -> u64
    requires { IsTrue (is_time time.now) }
    ensures value { result ≡ number_of_time time.now }
    ensures back { time_text result ≡ time.now }
{
    let year = two_at(time, 0) * 100 + two_at(time, 2);
    let date = (year * 100 + two_at(time, 4)) * 100 + two_at(time, 6);
    let minutes = two_at(time, 9) * 100 + two_at(time, 12);
    (date * 10_000 + minutes) * 100 + two_at(time, 15)
}

/// The number of the two digits of a time at this place.
fn two_at(time: &[u8], at: usize) -> u64
    requires time { IsTrue (is_time time.now) }
    requires within { at + 1 < 17 }
    requires tens { slice_index time_shape at ≡ 48 }
    requires ones { slice_index time_shape (at + 1) ≡ 48 }
    ensures value { result ≡ (slice_index time.now at - 48) * 10 + (slice_index time.now (at + 1) - 48) }
    ensures small { result < 100 }
{
    u64::from(time[at]) * 10 + u64::from(time[at + 1]) - TWO_ZEROS
}

/// The time of a number of 14 digits.
pub fn time_text(time: u64) -> [u8; 17]
    ensures { result ≡ time_text time }
{
    let mut text = [0; 17];
    let end = put_two(&mut text, 0, time / 1_000_000_000_000);
    let end = put_two(&mut text, end, time / 10_000_000_000);
    let end = put_two(&mut text, end, time / 100_000_000);
    let end = put_two(&mut text, end, time / 1_000_000);
    let end = put_bytes(&mut text, end, b"-");
    let end = put_two(&mut text, end, time / 10_000);
    let end = put_bytes(&mut text, end, b":");
    let end = put_two(&mut text, end, time / 100);
    let end = put_bytes(&mut text, end, b":");
    put_two(&mut text, end, time);
    text
}

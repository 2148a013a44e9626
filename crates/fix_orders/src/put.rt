//! Fields into a buffer, one behind the other: the last step of all that is written.
ghost use Rattle.std.specs.Prelude.{◌≡◌, ◌+◌, ◌<◌, ◌≤◌, [], ◌∷◌, length};
ghost use Rattle.std.specs.Fmt.{decimal};
ghost use Rattle.fix_frame.specs.Grammar.{IsField};
ghost use Rattle.fix_orders.specs.Formats.{last_digits};
ghost use Rattle.fix_orders.specs.Text.{field, number};
ghost use Rattle.fix_orders.specs.Writing.{Puts, PutsFields};

/// The numbers below 100, one behind the other, in two digits each.
const PAIRS: [u8; 200] = *b"0001020304050607080910111213141516171819\
    2021222324252627282930313233343536373839\
    4041424344454647484950515253545556575859\
    6061626364656667686970717273747576777879\
    8081828384858687888990919293949596979899";

/// Writes the digits of a number from `at` on, and answers where they end. The numbers of tags are known where this is
/// called, and have two digits or three.
#[inline(always)]
fn put_digits(buf: &mut [u8], at: usize, n: u64) -> usize
    requires { at + length (decimal n) ≤ length buf.old }
    ensures { Puts buf.old buf.new at result (decimal n) }
{
    if n < 10_000 {
        put_few(buf, at, n)
    } else {
        put_many(buf, at, n)
    }
}

/// The same, however many there are: four at a time.
fn put_many(buf: &mut [u8], at: usize, n: u64) -> usize
    requires { at + length (decimal n) ≤ length buf.old }
    ensures { Puts buf.old buf.new at result (decimal n) }
{
    if n < 10_000 {
        return put_few(buf, at, n);
    }
    let last = put_many(buf, at, n / 10_000);
    let four = n % 10_000;
    let last = put_two(buf, last, four / 100);
    put_two(buf, last, four)
}

/// The same of four digits at most.
#[inline(always)]
fn put_few(buf: &mut [u8], at: usize, n: u64) -> usize
    requires small { n < 10000 }
    requires room { at + length (decimal n) ≤ length buf.old }
    ensures { Puts buf.old buf.new at result (decimal n) }
{
    if n < 100 {
        return put_short(buf, at, n);
    }
    let last = put_short(buf, at, n / 100);
    put_two(buf, last, n % 100)
}

/// The same of two digits at most.
#[inline(always)]
fn put_short(buf: &mut [u8], at: usize, n: u64) -> usize
    requires small { n < 100 }
    requires room { at + length (decimal n) ≤ length buf.old }
    ensures { Puts buf.old buf.new at result (decimal n) }
{
    if n < 10 {
        return put_digit(buf, at, n);
    }
    put_two(buf, at, n)
}

/// Writes the last two digits of a number from `at` on, and answers where they end.
pub(crate) fn put_two(buf: &mut [u8], at: usize, n: u64) -> usize
    requires { at + 2 ≤ length buf.old }
    ensures { Puts buf.old buf.new at result (last_digits 2 n) }
{
    let pair = 2 * (n % 100) as usize;
    buf[at] = PAIRS[pair];
    buf[at + 1] = PAIRS[pair + 1];
    at + 2
}

/// The same of one digit.
fn put_digit(buf: &mut [u8], at: usize, digit: u64) -> usize
    requires small { digit < 10 }
    requires room { at < length buf.old }
    ensures { Puts buf.old buf.new at result (decimal digit) }
{
    buf[at] = b'0' + digit as u8;
    at + 1
}

/// Writes bytes from `at` on, and answers where they end.
pub fn put_bytes(buf: &mut [u8], at: usize, bytes: &[u8]) -> usize
    requires { at + length bytes.now ≤ length buf.old }
    ensures { Puts buf.old buf.new at result bytes.now }
{
    let end = at + bytes.len();
    buf[at..end].copy_from_slice(bytes);
    end
}

/// Writes a field of these bytes from `at` on, and answers where it ends.
#[tactic(auto, using(crate::specs::WritingLaws::tag_digits))]
pub fn put_field(buf: &mut [u8], at: usize, tag: u32, value: &[u8]) -> usize
    requires tagged { tag ≤ 99999 }
    requires room { at + length value.now + 7 ≤ length buf.old }
    ensures puts { PutsFields buf.old buf.new at result (field tag value.now ∷ []) }
    ensures most { result ≤ at + length value.now + 7 }
{
    let end = put_digits(buf, at, tag as u64);
    let end = put_bytes(buf, end, b"=");
    let end = put_bytes(buf, end, value);
    put_bytes(buf, end, b"\x01")
}

/// Writes a field of a number from `at` on, and answers where it ends.
#[tactic(auto, using(crate::specs::WritingLaws::tag_digits, crate::specs::WritingLaws::number_digits, crate::specs::BodyLaws::number_field))]
pub fn put_number(buf: &mut [u8], at: usize, tag: u32, n: u64) -> usize
    requires tagged { tag ≤ 99999 }
    requires room { at + 27 ≤ length buf.old }
    ensures puts { PutsFields buf.old buf.new at result (number tag n ∷ []) }
    ensures most { result ≤ at + 27 }
    ensures valid { 1 ≤ tag → IsField (number tag n) }
{
    let end = put_digits(buf, at, tag as u64);
    let end = put_bytes(buf, end, b"=");
    let end = put_digits(buf, end, n);
    put_bytes(buf, end, b"\x01")
}

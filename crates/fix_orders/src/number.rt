//! Numbers as FIX spells them: digits, the first not 0 unless it stands alone.
ghost use Rattle.std.specs.Prelude.{◌≡◌, ◌<◌, min, true, IsTrue, IsFalse, MatchOption};
ghost use Rattle.std.specs.List.{list_all};
ghost use Rattle.fix_frame.specs.Ascii.{is_digit};
ghost use Rattle.fix_orders.specs.Formats.{is_number, value_of};

/// Above each number that has a meaning here; greater ones are read as this one.
pub const MOST: u64 = 1_000_000_000_000_000_000;

/// Whether the byte is a digit.
pub fn is_digit(byte: u8) -> bool
    ensures { result ≡ is_digit byte }
{
    byte.is_ascii_digit()
}

/// The number that the bytes are, or `MOST` where it is greater; none where they are no number.
pub fn read_number(value: &[u8]) -> Option<u64>
    ensures { MatchOption result (IsFalse (is_number value.now))
        (λ n. IsTrue (is_number value.now) × (n ≡ min (value_of value.now) MOST)) }
{
    if value.is_empty() || (value.len() > 1 && value[0] == b'0') {
        return None;
    }
    let mut number = 0;
    for byte in value {
        if !is_digit(*byte) {
            return None;
        }
        number = (number * 10 + (*byte - b'0') as u64).min(MOST);
    }
    Some(number)
}

/// The number that these digits are.
pub fn read_digits(digits: &[u8]) -> u64
    requires each { list_all is_digit digits.now ≡ true }
    requires fits { value_of digits.now < MOST }
    ensures { result ≡ value_of digits.now }
{
    let mut number = 0;
    for byte in digits {
        number = number * 10 + (*byte - b'0') as u64;
    }
    number
}

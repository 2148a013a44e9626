//! Numbers in decimal digits, as FIX spells tags, lengths and numbers of a session.
ghost use Rattle.std.specs.Prelude.{◌≡◌, ◌≤◌, ◌<◌, ◌^◌, true, false, length, MatchOption};
ghost use Rattle.std.specs.Str.Parse.{digits_value};
ghost use Rattle.std.specs.List.{list_all};
ghost use Rattle.fix_frame.specs.Ascii.{is_digit};
ghost use Rattle.edge_frames.specs.Fields.{is_digits};
ghost use Rattle.edge_frames.specs.Pieces.{ReadsNumber};

/// Whether each byte is a digit.
pub(crate) fn are_digits(text: &[u8]) -> bool
    ensures { result ≡ list_all is_digit text.now }
{
    text.iter().all(|byte| b'0' <= *byte && *byte <= b'9')
}

/// The number that the text is, of one digit to so many; zeros may stand in front.
pub(crate) fn number(text: &[u8], most: usize) -> Option<u32>
    requires { most ≤ 9 }
    ensures { MatchOption result (is_digits most text.now ≡ false) (ReadsNumber most text.now) }
{
    if text.is_empty() || most < text.len() {
        return None;
    }
    if !are_digits(text) {
        return None;
    }
    Some(value(text))
}

/// The value of so few digits.
fn value(text: &[u8]) -> u32
    requires few { length text.now ≤ 9 }
    requires digits { list_all is_digit text.now ≡ true }
    ensures value { result ≡ digits_value 10 text.now }
    ensures small { result < 10 ^ 9 }
{
    let mut value = 0;
    for byte in text {
        value = value * 10 + u32::from(*byte - b'0');
    }
    value
}

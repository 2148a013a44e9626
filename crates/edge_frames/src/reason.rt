//! Why a field isn't taken.

/// What is wrong with a field of a message that is whole otherwise. The numbers are those of SessionRejectReason (373)
/// of FIX 4.4.
#[derive(Clone, Copy, Debug, PartialEq, Eq)]
pub enum RejectReason {
    /// 0: its tag isn't 1 to 99,999 in digits with no zero in front, or its value would be data.
    InvalidTag = 0,
    /// 4: it has no value.
    NoValue = 4,
    /// 5: a number of the session has more than nine digits.
    OutOfRange = 5,
    /// 6: a byte of its value doesn't print, or a number of the session is none.
    BadFormat = 6,
    /// 99: it is one field more than a message may have.
    TooMany = 99,
}

impl RejectReason {
    ghost use Rattle.std.specs.Prelude.{◌≡◌};
    ghost use Rattle.edge_frames.specs.Reasons.{reject_number};

    /// Its number: 0, 4, 5, 6 or 99.
    pub fn number(self) -> u32
        ensures { result ≡ reject_number self }
    {
        self as u32
    }
}

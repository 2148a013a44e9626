//! How a session ends.
ghost use Rattle.std.specs.Prelude.{◌≡◌};
ghost use Rattle.gateway.specs.EndingNumber.{ending_number};

/// Why a session is over.
#[derive(Clone, Copy, Debug, PartialEq, Eq)]
pub enum Reason {
    /// 51: the client has closed the connection.
    Closed = 51,
    /// 52: the wire failed.
    WireFailed = 52,
    /// 53: the client has sent Logout (35=5), and was answered.
    LoggedOut = 53,
    /// 54: the session refused what the client sent, and has said so in a Logout.
    Refused = 54,
    /// 55: the client took no byte in 100,000 turns.
    Stalled = 55,
    /// 56: the venue's sequences are used up.
    Exhausted = 56,
}

impl Reason {
    /// Its number, 51 to 56.
    pub fn number(self) -> u8
        ensures { result ≡ ending_number self }
    {
        self as u8
    }
}

/// What a turn of a gateway came to.
#[derive(Clone, Copy, Debug, PartialEq, Eq)]
pub enum Turned {
    /// A byte was read, fed or written, a message published, or an output taken or passed over.
    Worked,
    /// Nothing moved.
    Quiet,
    /// The session is over.
    Ended(Reason),
}

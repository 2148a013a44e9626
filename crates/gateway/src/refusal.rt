//! Why a session refuses what a client sent: the text of the Logout that ends it.

ghost use Rattle.std.specs.Prelude.{◌≡◌};

use fix_frame::FrameFault;

/// What Text (58) of a Logout says.
#[derive(Clone, Copy, Debug, PartialEq, Eq)]
pub enum Refusal {
    /// The bytes are no frame.
    Frame(FrameFault),
    /// The header's tags, MsgSeqNum (34) or SendingTime (52) aren't right.
    BadHeader,
    /// SenderCompID (49) or TargetCompID (56) is another's.
    WrongParty,
    /// MsgSeqNum (34) isn't the next.
    WrongNumber,
    /// The first message is no Logon.
    NoLogon,
    /// The Logon's body isn't the one of this profile, or it is a second Logon.
    BadLogon,
    /// The TestRequest's body isn't one TestReqID (112) of 1 to 32 bytes.
    BadTest,
    /// The venue takes no message of this type, or not here.
    BadType,
    /// The venue's sequences are used up.
    Exhausted,
}

impl Refusal {
    ghost use Rattle.gateway.specs.Verdict.{refusal_text};
    ghost use Rattle.gateway.specs.Messages.{IsRefusalText};

    /// The text.
    pub fn text(self) -> &'static [u8]
        ensures value { result.now ≡ refusal_text self }
        ensures valid { IsRefusalText result.now }
    {
        match self {
            Refusal::Frame(FrameFault::BadBegin) => b"bad begin",
            Refusal::Frame(FrameFault::BadLength) => b"bad length",
            Refusal::Frame(FrameFault::BadChecksum) => b"bad checksum",
            Refusal::Frame(FrameFault::TooLong) => b"too long",
            Refusal::Frame(FrameFault::BadField) => b"bad field",
            Refusal::BadHeader => b"bad header",
            Refusal::WrongParty => b"wrong party",
            Refusal::WrongNumber => b"wrong number",
            Refusal::NoLogon => b"no logon",
            Refusal::BadLogon => b"bad logon",
            Refusal::BadTest => b"bad test",
            Refusal::BadType => b"bad type",
            Refusal::Exhausted => b"exhausted",
        }
    }
}

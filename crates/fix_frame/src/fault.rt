//! Why a stream of bytes is no stream of frames.

ghost use Rattle.std.specs.Prelude.{◌≡◌};
ghost use Rattle.fix_frame.specs.FaultNumber.{fault_number};

use thiserror::Error;

/// What is wrong with incoming bytes. A session ends at the first fault, with a Logout of its text in Text
/// (58); the texts are this venue's own (docs/PROFILE.md, "Frames").
#[derive(Clone, Copy, Debug, PartialEq, Eq, Error)]
pub enum FrameFault {
    /// 1: the message doesn't begin with `8=FIX.4.4`.
    #[error("bad begin")]
    BadBegin = 1,
    /// 2: `9=` and a length from 5 on don't follow, or the body doesn't end where the length says.
    #[error("bad length")]
    BadLength = 2,
    /// 3: CheckSum (10) isn't the three digits of the sum.
    #[error("bad checksum")]
    BadChecksum = 3,
    /// 4: the length is above 297.
    #[error("too long")]
    TooLong = 4,
    /// 5: the body is no run of fields, or MsgType (35) isn't its first.
    #[error("bad field")]
    BadField = 5,
}

impl FrameFault {
    /// Its number, 1 to 5.
    pub fn number(self) -> u8
        ensures { result ≡ fault_number self }
    {
        self as u8
    }
}

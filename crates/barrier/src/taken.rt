//! What a gateway finds where it looks for its next output.

use venue_model::OutputType;

/// What stands in front of an output's body: MsgType (35), SendingTime (52) as the number of its 14 digits, and how
/// many bytes the body has, at most 320.
#[derive(Clone, Copy, Debug, PartialEq, Eq)]
pub struct Head {
    pub kind: OutputType,
    pub time: u64,
    pub len: usize,
}

/// What came of a look at the next output.
#[derive(Clone, Copy, Debug, PartialEq, Eq)]
pub enum Take {
    /// It goes to this gateway's client; its body stands at the buffer's front.
    Mine(Head),
    /// It goes to another's client, and is passed over.
    Passed,
    /// There is none yet: the marshalled word that was loaded in this call showed none.
    Nothing,
}

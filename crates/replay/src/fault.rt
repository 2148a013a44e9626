//! Why there is no report or other answer, and the line that says so.
ghost use Rattle.std.specs.Prelude.{◌≡◌};

use journal::JournalFault;
use std::alloc::AllocError;
use std::io::Write;
use thiserror::Error;
use venue_model::LimitsFault;

/// Why there is no report or other answer. The text is the line that the program prints.
#[derive(Clone, Copy, Debug, PartialEq, Eq, Error)]
pub enum ReplayFault {
    /// A word is missing or wrong, or the symbols are none that a venue can have (11).
    #[error("usage: venue-replay JOURNAL book|Cn|snapshot|check SYMBOL... or venue-replay JOURNAL carry NEW")]
    Usage,
    /// 41 to 43: the journal can't be read, 45 and 46: it takes no snapshot or isn't carried over.
    #[error("venue-replay: {0}")]
    Journal(JournalFault),
    /// 12 or 44: memory was refused.
    #[error("venue-replay: no memory")]
    Memory,
    /// The first snapshot that isn't the one of the entries before it stands at this offset.
    #[error("venue-replay: false snapshot at {0}")]
    FalseSnapshot(u64),
    /// A file has the name to which the journal was to be carried over.
    #[error("venue-replay: NEW exists")]
    NewExists,
}

impl From<LimitsFault> for ReplayFault {
    ghost use Rattle.replay.specs.Faults.{of_limits};

    ghost from_gives = { λ fault e. e ≡ of_limits fault };

    fn from(fault: LimitsFault) -> ReplayFault {
        match fault {
            LimitsFault::BadSymbol => ReplayFault::Usage,
            LimitsFault::Memory => ReplayFault::Memory,
        }
    }
}

impl From<JournalFault> for ReplayFault {
    ghost use Rattle.replay.specs.Faults.{report_fault_of};

    ghost from_gives = { λ fault e. e ≡ report_fault_of fault };

    fn from(fault: JournalFault) -> ReplayFault {
        match fault {
            JournalFault::Memory => ReplayFault::Memory,
            _ => ReplayFault::Journal(fault),
        }
    }
}

impl From<AllocError> for ReplayFault {
    ghost use Rattle.replay.specs.declared.fault.ReplayFault.TheVariants.{Memory};

    ghost from_gives = { λ _ e. e ≡ Memory };

    fn from(_refused: AllocError) -> ReplayFault {
        ReplayFault::Memory
    }
}

/// Prints the fault's line, and gives the status for it. A line that can't be printed is let go.
pub fn refuse<E: Write>(fault: ReplayFault, err: &mut E) -> u8
    ensures { result ≡ 1 }
{
    let _ = writeln!(err, "{fault}");
    1
}

//! Why the venue doesn't serve, or stops, and the lines that say so.
ghost use Rattle.std.specs.Prelude.{◌≡◌};

use journal::JournalFault;
use replay::StartFault;
use std::io::Write;
use thiserror::Error;

/// Why the venue doesn't serve, or stops. The text is the line that the program prints.
#[derive(Clone, Copy, Debug, PartialEq, Eq, Error)]
pub enum ServeFault {
    /// 41 to 43: the journal can't be opened.
    #[error("venued: {0}")]
    Journal(JournalFault),
    /// A snapshot in the journal isn't the one of the entries before it: the first of these stands at this offset.
    #[error("venued: false snapshot at {0}")]
    FalseSnapshot(u64),
    /// The venue can't listen on this port: another process does, or the system refuses it.
    #[error("venued: cannot listen on {0}")]
    CannotListen(u16),
    /// 12, 22 or 44: memory was refused, or a thread.
    #[error("venued: no memory")]
    Memory,
    /// 41: the journal failed while the venue served.
    #[error("venued: journal failed")]
    JournalFailed,
}

impl From<JournalFault> for ServeFault {
    ghost use Rattle.venue.specs.Faults.{of_journal};

    ghost from_gives = { λ fault e. e ≡ of_journal fault };

    fn from(fault: JournalFault) -> ServeFault {
        match fault {
            JournalFault::Memory => ServeFault::Memory,
            _ => ServeFault::Journal(fault),
        }
    }
}

impl From<StartFault> for ServeFault {
    ghost use Rattle.venue.specs.Faults.{of_start};

    ghost from_gives = { λ fault e. e ≡ of_start fault };

    fn from(fault: StartFault) -> ServeFault {
        match fault {
            StartFault::Journal(fault) => fault.into(),
            StartFault::FalseSnapshot(offset) => ServeFault::FalseSnapshot(offset),
        }
    }
}

impl ServeFault {
    ghost use Rattle.venue.specs.Faults.{status_of};

    /// Prints the fault's line, and gives the status for it: 2 where the venue served before, else 1. A line that can't
    /// be printed is let go.
    pub fn say<E: Write>(self, err: &mut E) -> u8
        ensures { result ≡ status_of self }
    {
        let _ = writeln!(err, "{self}");
        match self {
            ServeFault::JournalFailed => 2,
            _ => 1,
        }
    }
}

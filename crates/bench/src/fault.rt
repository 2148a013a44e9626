//! Why nothing is measured.
use journal::JournalFault;
use std::alloc::AllocError;
use std::io;
use std::process::ExitCode;
use thiserror::Error;

/// Why nothing is measured. The text is the line that the program prints.
#[derive(Clone, Copy, Debug, Error)]
pub enum Fault {
    /// A word is missing, wrong or too many.
    #[error("usage: bench fix MESSAGES | book RESTING COMMANDS | market RESTING COMMANDS | stages COMMANDS GATEWAYS | journal FOLDER")]
    Usage,
    #[error("bench: no memory")]
    Memory,
    /// The clock can't be read, a line can't be printed, or a file can't be made, written or removed.
    #[error("bench: input or output failed")]
    Device,
    /// A worker found nothing to do for too long.
    #[error("bench: gave up")]
    GaveUp,
    /// What was read, written, done or kept isn't what was asked for.
    #[error("bench: wrong results")]
    Wrong,
    /// What a gateway was answered isn't what is due to it.
    #[error("bench: wrong outputs")]
    WrongOutputs,
}

impl Fault {
    /// The program's status: 2 where what is measured didn't do what it was to do, else 1.
    pub fn status(self) -> ExitCode {
        match self {
            Fault::Usage | Fault::Memory | Fault::Device => ExitCode::from(1),
            Fault::GaveUp | Fault::Wrong | Fault::WrongOutputs => ExitCode::from(2),
        }
    }
}

impl From<AllocError> for Fault {
    fn from(_refused: AllocError) -> Fault {
        Fault::Memory
    }
}

impl From<io::Error> for Fault {
    fn from(_failed: io::Error) -> Fault {
        Fault::Device
    }
}

impl From<JournalFault> for Fault {
    fn from(fault: JournalFault) -> Fault {
        match fault {
            JournalFault::Memory => Fault::Memory,
            _ => Fault::Device,
        }
    }
}

//! Why no book comes of some bytes.
ghost use Rattle.std.specs.Prelude.{◌≡◌};
ghost use Rattle.book.specs.RestoreNumber.{restore_number};

use thiserror::Error;

/// Why the bytes of a snapshot restore no book.
#[derive(Clone, Copy, Debug, PartialEq, Eq, Error)]
pub enum RestoreFault {
    /// 61: they are the snapshot of no state of a book with these symbols.
    #[error("bad snapshot")]
    BadSnapshot = 61,
    /// 62: memory was refused.
    #[error("no memory")]
    Memory = 62,
}

impl RestoreFault {
    /// Its number, 61 or 62.
    pub fn number(self) -> u8
        ensures { result ≡ restore_number self }
    {
        self as u8
    }
}

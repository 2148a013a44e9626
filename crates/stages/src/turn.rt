//! What one poll of a stage came to.

/// What one poll of a stage came to.
#[derive(Clone, Copy, Debug, PartialEq, Eq)]
pub enum Turn {
    /// So many sequences were finished, at least one.
    Did(u64),
    /// The words that were read in this call showed nothing new.
    Idle,
    /// The output ring had no room for some outputs of one command, of the processor alone: they are left, and the next
    /// poll goes on with them.
    OutFull,
    /// 41: an append failed, of the journaller alone. From then on it is always this, and nothing more is handed on.
    JournalFailed,
}

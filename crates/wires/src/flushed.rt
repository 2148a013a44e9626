//! How a flush ends: bytes that stand to be sent go into a wire until it takes no more of them.

/// Why a flush came to its end.
#[derive(Clone, Copy, Debug, PartialEq, Eq)]
pub enum Flushed {
    /// All bytes went out.
    All,
    /// The wire answered Nothing, and bytes remain.
    Full,
    /// The wire failed.
    Failed,
}

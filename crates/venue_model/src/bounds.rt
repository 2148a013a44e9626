//! How much there is of anything at most (docs/PROFILE.md, "Scope and limits").

/// How many bytes a message has at most, from BeginString to the end of CheckSum, and so the body of a report.
pub const LONGEST_MESSAGE: usize = 320;

/// How many gateways there are at most: one for each member.
pub const MOST_GATEWAYS: usize = 8;

/// How many symbols the venue trades at most.
pub const MOST_SYMBOLS: usize = 8;

/// How many bytes spell a symbol at most.
pub const LONGEST_SYMBOL: usize = 8;

/// How many spots a symbol's bytes lead to (`Symbol::spot`): many more than there are symbols.
pub const SYMBOL_SPOTS: usize = 256;

/// The highest price, in ticks; the lowest is 1.
pub const HIGHEST_PRICE: u64 = 1_000_000;

/// How many orders rest at most.
pub const MOST_RESTING: usize = 4_096;

/// How many outputs a command has at most: that it was accepted, two for a fill with each order that rests, and that
/// what is left was canceled.
pub const MOST_OUTPUTS: usize = 2 * MOST_RESTING + 2;

/// How many entries a block of the journal has at most: as many as the input ring has rows.
pub const MOST_IN_BLOCK: usize = 4_096;

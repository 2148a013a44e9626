//! The way into both rings: a gateway claims a sequence, writes its row and makes it available to the stages; the
//! processor puts its outputs. How a gateway takes them is reading, and stands in `barrier`. No call waits or tries
//! again. docs/RINGS.md has the words and the kinds of step.
#![tactic(auto)]

mod claim;
mod publish;
mod put;

pub use barrier::{Head, Take, take};
pub use claim::{Claim, ClaimRefusal, try_claim};
pub use put::room;
pub use ring_words::put_output;

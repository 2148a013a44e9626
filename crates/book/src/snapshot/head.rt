//! The numbers in front of a snapshot.
ghost use Rattle.std.specs.Prelude.{◌≡◌, ◌<◌, ◌≤◌, ◌^◌, ◌↔◌, IsTrue, IfSome, IfNone, length};
ghost use Rattle.std.specs.List.{AllByRecursion, flat_map};
ghost use Rattle.book.specs.Rows.{number_bytes};
ghost use Rattle.book.specs.declared.snapshot.head.Head.{Head};
ghost use Rattle.book.specs.Spelled.{bytes_of_head, FitsBytes, FitsHead, SpellsHead};

use crate::snapshot::numbers::{eight, two};
use crate::snapshot::ranges::HIGHEST_NAME;
use venue_model::{MOST_GATEWAYS, MOST_OUTPUTS, MOST_RESTING};

/// How many commands there are at most.
const MOST_COMMANDS: u64 = 1 << 48;

/// The numbers in front of a snapshot, each big-endian. Any 82 bytes are those of one head.
#[derive(Drop)]
pub(crate) struct Head {
    /// How many commands came before it, 8 bytes.
    pub(crate) commands: u64,
    /// How many outputs they told, 8 bytes.
    pub(crate) outputs: u64,
    /// Each client's greatest accepted ClOrdID, 8 bytes each.
    pub(crate) greatest: [u64; MOST_GATEWAYS],
    /// How many orders rest, 2 bytes.
    pub(crate) resting: u16,
}

impl Head {
    /// The numbers in front of some bytes, or `None` where no snapshot of so many bytes begins with them.
    pub(crate) fn read(bytes: &[u8]) -> Option<Head>
        ensures some { IfSome result (SpellsHead bytes.now) }
        ensures none { IfNone result ((h : Head) → SpellsHead bytes.now h → ⊥) }
    {
        if bytes.len() < 82 {
            return None;
        }
        let head = Head::of(&bytes[..82]);
        if head.fits(bytes.len()) {
            Some(head)
        } else {
            None
        }
    }

    /// The numbers that 82 bytes spell.
    fn of(bytes: &[u8]) -> Head
        requires { length bytes.now ≡ 82 }
        ensures spelled { bytes_of_head result ≡ bytes.now }
        ensures small { FitsBytes result }
    {
        Head {
            commands: eight(&bytes[..8]),
            outputs: eight(&bytes[8..16]),
            greatest: names_of(&bytes[16..80]),
            resting: two(&bytes[80..82]),
        }
    }

    /// Whether they fit one another, and a snapshot of so many bytes.
    fn fits(&self, size: usize) -> bool
        ensures { IsTrue result ↔ FitsHead self.now size }
    {
        self.commands <= MOST_COMMANDS
            && self.outputs <= MOST_OUTPUTS as u64 * self.commands
            && self.resting as usize <= MOST_RESTING
            && size == 82 + 47 * self.resting as usize
            && are_names(&self.greatest)
    }
}

/// The greatest ClOrdIDs that 64 bytes spell.
fn names_of(bytes: &[u8]) -> [u64; MOST_GATEWAYS]
    requires { length bytes.now ≡ 64 }
    ensures spelled { flat_map (number_bytes 8) result ≡ bytes.now }
    ensures small { AllByRecursion (λ name. name < 2 ^ 64) result }
{
    let mut names = [0; MOST_GATEWAYS];
    for place in 0..MOST_GATEWAYS {
        names[place] = eight(&bytes[8 * place..8 * place + 8]);
    }
    names
}

/// Whether none of them is above the highest ClOrdID.
fn are_names(names: &[u64; MOST_GATEWAYS]) -> bool
    ensures { IsTrue result ↔ AllByRecursion (λ name. name ≤ 999999999999999) names.now }
{
    names.iter().all(|name| *name <= HIGHEST_NAME)
}

//! Commands as words: the unmarshaller packs the command of an entry into the entry's row of the input ring, and the
//! processor unpacks it.
#![tactic(auto)]

mod packing;

pub use packing::{COMMAND_WORDS, PackedCommand, pack, unpack, words_of};

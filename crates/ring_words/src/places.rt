//! Where the words lie: control words 8 apart, then the input rows, then the output rows (docs/RINGS.md, "The words").
ghost use Rattle.std.specs.Prelude.{◌≡◌, ◌<◌, ◌≤◌};
ghost use Rattle.ring_words.specs.Places.{taken, in_row, out_row};

use crate::rings::Rings;
use venue_model::Logic;

/// The processed word.
pub(crate) const PROCESSED: usize = 0;
/// The claim word.
pub(crate) const CLAIM: usize = 8;
/// The unmarshaller's word.
pub(crate) const UNMARSHALLED: usize = 16;
/// The journaller's word.
pub(crate) const JOURNALLED: usize = 24;
/// The marshaller's word, the first of those that begin at the number of outputs given: the taken words follow, and
/// published.
pub(crate) const MARSHALLED: usize = 32;
/// How far apart the taken words are. That of gateway k lies k times so far behind marshalled.
pub(crate) const TAKEN_STRIDE: usize = 8;
/// Behind the last of them.
pub(crate) const OUTPUT_WORDS_END: usize = 112;
/// The published word.
pub(crate) const PUBLISHED: usize = 104;
/// Where the rows begin.
pub(crate) const FIRST_ROW: usize = 128;
/// How many words an input row has.
pub(crate) const ROW_WORDS: usize = 64;
/// Where the command's words lie in an input row.
pub(crate) const COMMAND: usize = 48;
/// How many words an output row has.
pub(crate) const OUTPUT_ROW_WORDS: usize = 128;
/// Where the text's words lie in an output row.
pub(crate) const TEXT: usize = 64;

impl<L: Logic, const N: usize, const M: usize, const G: usize> Rings<L, N, M, G> {
    /// The place of this word in the row of a sequence.
    pub(crate) fn row_word(&self, sequence: u64, word: usize) -> usize
        requires { word < 64 }
        ensures place { result ≡ in_row N sequence word }
        ensures inside { result < self.now.table.words }
    {
        let _table = &self.table; // its rule says that there are N rows
        FIRST_ROW + ROW_WORDS * (sequence % N as u64) as usize + word
    }

    /// The place of this word in the row of an output.
    pub(crate) fn output_word(&self, place: u64, word: usize) -> usize
        requires { word < 128 }
        ensures place { result ≡ out_row N M place word }
        ensures inside { result < self.now.table.words }
    {
        let _table = &self.table; // its rule says that there are N and M rows
        FIRST_ROW + ROW_WORDS * N + OUTPUT_ROW_WORDS * (place % M as u64) as usize + word
    }

    /// The place of a gateway's taken word.
    pub(crate) fn taken_word(&self, gateway: u64) -> usize
        requires { (1 ≤ gateway) × (gateway ≤ 8) }
        ensures place { result ≡ taken gateway }
        ensures inside { result < self.now.table.words }
    {
        let _table = &self.table;
        MARSHALLED + TAKEN_STRIDE * gateway as usize
    }
}

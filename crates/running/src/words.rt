//! The words of the command line. They are read before anything is opened or served.
ghost use Rattle.std.specs.Prelude.{◌≡◌, ℕ, List, map, string_bytes, IfOk, IsErrOf, MatchOption};
ghost use Rattle.running.specs.declared.words.Mode.{Mode};
ghost use Rattle.running.specs.Words.{AreWords, IsMode, IsNumberTo, IsInRange};

use crate::symbols::Symbols;
use std::alloc::{AllocError, Global};
use std::io::Write;
use thiserror::Error;
use venue_model::LimitsFault;

/// The greatest PORT: with it gateway 8 listens at 65,535, the last port that there is.
const MOST_PORT: u16 = 65_528;

/// The greatest GATEWAYS.
const MOST_GATEWAYS: u16 = 8;

/// Why a command line can't be served. The text is the line that the program prints.
#[derive(Clone, Copy, Debug, PartialEq, Eq, Error)]
pub enum WordsFault {
    /// 11: a word is missing or wrong, or the symbols are none that a venue can have.
    #[error("usage: venued PORT JOURNAL GATEWAYS SYMBOL...")]
    Usage = 11,
    /// 12: memory was refused.
    #[error("venued: no memory")]
    Memory = 12,
}

impl WordsFault {
    ghost use Rattle.running.specs.Faults.{words_number};

    /// Its number, 11 or 12.
    pub fn number(self) -> u8 // promise 11
        ensures { result ≡ words_number self }
    {
        self as u8
    }
}

impl From<LimitsFault> for WordsFault {
    ghost use Rattle.running.specs.Faults.{fault_of};

    ghost from_gives = { λ fault e. e ≡ fault_of fault };

    fn from(fault: LimitsFault) -> WordsFault {
        match fault {
            LimitsFault::BadSymbol => WordsFault::Usage,
            LimitsFault::Memory => WordsFault::Memory,
        }
    }
}

impl From<AllocError> for WordsFault {
    ghost use Rattle.running.specs.declared.words.WordsFault.TheVariants.{Memory};

    ghost from_gives = { λ _ e. e ≡ Memory };

    fn from(_refused: AllocError) -> WordsFault {
        WordsFault::Memory
    }
}

/// Whom the venue serves, and where.
#[derive(Clone, Copy, Debug, PartialEq, Eq)]
pub enum Mode {
    /// One client, `C1`, over standard input and output: PORT is `-`, and GATEWAYS `1`.
    Standard,
    /// Gateway k, 1 to `gateways`, listens at `port` + k - 1.
    Listening {
        /// PORT, 1 to 65,528.
        port: u16,
        /// GATEWAYS, 1 to 8.
        gateways: u8,
    },
}

/// What `venued PORT JOURNAL GATEWAYS SYMBOL...` says.
#[derive(Drop)]
pub struct Words {
    /// What PORT and GATEWAYS say.
    pub mode: Mode,
    /// The name of the journal's file, one byte or more.
    pub journal: String,
    /// The symbols that the venue trades, in the order of the command line.
    pub symbols: Symbols,
}

impl Words {
    /// Reads the words behind the program's name.
    pub fn read(alloc: Global, words: &[String]) -> Result<Words, WordsFault> // promise 11
        ensures said { IfOk result (λ w.
            AreWords (map string_bytes words.now) w.mode (string_bytes w.journal) w.symbols) }
        ensures range { IfOk result (λ w. IsInRange w.mode) }
        ensures wrong { IsErrOf result WordsFault.Usage
            → (mode : Mode) (journal : List ℕ) (symbols : List (List ℕ))
            → AreWords (map string_bytes words.now) mode journal symbols → ⊥ }
    {
        let [port, journal, gateways, symbols @ ..] = words else {
            return Err(WordsFault::Usage);
        };
        let Some(mode) = mode_of(port.as_str(), gateways.as_str()) else {
            return Err(WordsFault::Usage);
        };
        if journal.is_empty() {
            return Err(WordsFault::Usage);
        }
        let symbols = Symbols::read(alloc, symbols)?;
        let journal = String::from_str(alloc, journal.as_str())?;
        Ok(Words {
            mode,
            journal,
            symbols,
        })
    }
}

/// The mode that PORT and GATEWAYS say, if there is one.
fn mode_of(port: &str, gateways: &str) -> Option<Mode>
    ensures { MatchOption result ((mode : Mode) → IsMode port.now gateways.now mode → ⊥)
        (IsMode port.now gateways.now) }
{
    if port == "-" && gateways == "1" {
        return Some(Mode::Standard);
    }
    let port = number_to(MOST_PORT, port)?;
    let gateways = number_to(MOST_GATEWAYS, gateways)? as u8;
    Some(Mode::Listening { port, gateways })
}

/// The number 1 to `most` that the word is. One with a sign, or with a 0 in front, is none.
fn number_to(most: u16, word: &str) -> Option<u16>
    ensures { MatchOption result ((n : ℕ) → IsNumberTo most word.now n → ⊥) (IsNumberTo most word.now) }
{
    if word.starts_with('+') || word.starts_with('0') {
        return None;
    }
    match word.parse::<u16>() {
        Ok(number) if number <= most => Some(number),
        _ => None,
    }
}

/// Prints the line for wrong words, and gives the status for it. A line that can't be printed is let go.
pub fn refuse<E: Write>(fault: WordsFault, err: &mut E) -> u8 // promise 11
    ensures { result ≡ 1 }
{
    let _ = writeln!(err, "{fault}");
    1
}

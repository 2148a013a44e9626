//! The symbols of a command line, which a venue can have.
ghost use Rattle.std.specs.Prelude.{◌≡◌, map, string_bytes, IfOk, IsErrOf};
ghost use Rattle.venue_model.specs.Spelling.{AreSymbols};
ghost use Rattle.running.specs.Words.{trading};

use crate::words::WordsFault;
use std::alloc::{AllocError, Global};
use std::marker::Model;
use venue_model::{Limits, LimitsFault};

/// The symbols that a venue trades, 1 to 8, in the order of the command line. Contracts see their bytes.
#[derive(Drop)]
pub struct Symbols {
    names: Vec<String>,
}

impl Model for Symbols {
    ghost use Rattle.std.specs.Prelude.{List, ℕ, map, string_bytes};
    ghost use Rattle.venue_model.specs.Spelling.{AreSymbols};

    ghost Value = { List (List ℕ) };

    ghost view = { λ s. map string_bytes s.names.items };

    ghost invariant = { λ s. AreSymbols (map string_bytes s.names.items) };
}

impl Symbols {
    /// The symbols that these words are. `Memory` says nothing of the words.
    pub fn read(alloc: Global, words: &[String]) -> Result<Symbols, WordsFault> // promise 11
        ensures same { IfOk result (λ symbols. symbols ≡ map string_bytes words.now) }
        ensures good { IfOk result (λ _. AreSymbols (map string_bytes words.now)) }
        ensures wrong { IsErrOf result WordsFault.Usage → AreSymbols (map string_bytes words.now) → ⊥ }
    {
        let _limits = Limits::new(alloc, words)?;
        let names = copied(alloc, words)?;
        Ok(Symbols { names })
    }

    /// The table of these symbols, for a venue.
    pub fn limits(&self, alloc: Global) -> Result<Limits, AllocError> // promise 11
        ensures { IfOk result (λ limits. limits ≡ trading self.now) }
    {
        match Limits::new(alloc, &self.names) {
            Ok(limits) => Ok(limits),
            Err(LimitsFault::Memory) => Err(AllocError),
            Err(LimitsFault::BadSymbol) => unreachable!(),
        }
    }
}

/// The same words.
fn copied(alloc: Global, words: &[String]) -> Result<Vec<String>, AllocError>
    ensures { IfOk result (λ copy. map string_bytes copy.items ≡ map string_bytes words.now) }
{
    let mut copy = Vec::with_capacity(alloc, words.len())?;
    for word in words {
        copy.push(String::from_str(alloc, word.as_str())?)?;
    }
    Ok(copy)
}

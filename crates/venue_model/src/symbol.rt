//! The name of what is traded, as orders carry it.
ghost use Rattle.std.specs.Prelude.{◌≡◌, ◌<◌, ◌↔◌, IsTrue, MatchOption};
ghost use Rattle.std.specs.List.{list_all};
ghost use Rattle.std.specs.Str.{bytes_eq};
ghost use Rattle.venue_model.specs.Spelling.{IsSpelling, is_symbol_byte};

use crate::{LONGEST_SYMBOL, SYMBOL_SPOTS};
use std::marker::Model;

/// Symbol (55): 1 to 8 bytes of `A` to `Z` and `0` to `9`, kept in place. Contracts see the bytes.
#[derive(Clone, Copy, PartialEq, Eq, Hash)]
pub struct Symbol {
    bytes: [u8; LONGEST_SYMBOL],
    len: u8,
}

impl Model for Symbol {
    ghost use Rattle.std.specs.Prelude.{List, ℕ, length, take};
    ghost use Rattle.venue_model.specs.Spelling.{KeepsSymbol, padded, padded-take, kept_length};

    ghost Value = { List ℕ };

    ghost view = { λ s. take s.len s.bytes };

    ghost invariant = { λ s. KeepsSymbol s.bytes s.len };

    ghost inverse = { λ name. record { bytes = padded name; len = length name } };

    ghost inverse_ok = { λ s keeps i. record {
      bytes = padded-take s.bytes s.len keeps i;
      len = kept_length s.bytes s.len keeps i;
    } };
}

impl Symbol {
    /// The symbol that the bytes spell, or `None` where they spell none.
    pub fn new(name: &[u8]) -> Option<Symbol>
        ensures { MatchOption result (IsSpelling name.now → ⊥) (λ s. (s ≡ name.now) × IsSpelling name.now) }
    {
        if Symbol::is_name(name) {
            Some(Symbol::of_name(name))
        } else {
            None
        }
    }

    /// The symbol that the bytes spell, where that is known: they aren't looked at again.
    pub fn of_name(name: &[u8]) -> Symbol
        requires { IsSpelling name.now }
        ensures { result ≡ name.now }
    {
        let mut bytes = [0; LONGEST_SYMBOL];
        bytes[..name.len()].copy_from_slice(name);
        Symbol {
            bytes,
            len: name.len() as u8,
        }
    }

    /// Whether the bytes spell a symbol.
    pub fn is_name(name: &[u8]) -> bool
        ensures { IsTrue result ↔ IsSpelling name.now }
    {
        0 < name.len() && name.len() <= LONGEST_SYMBOL && has_name_bytes(name)
    }

    /// Whether both are one symbol. It is what `==` answers, said of the names: their eight bytes tell them apart,
    /// since no zero stands in a name.
    pub fn is(&self, other: &Symbol) -> bool
        ensures { result ≡ bytes_eq self.now other.now }
    {
        self.bytes == other.bytes
    }

    /// Where a table of spots is looked at first for it, 0 to 255: most symbols of a venue have a spot of their own.
    /// Where two have one, whoever keeps such a table looks on. Which spot it is is for speed, and no clause says it.
    #[inline(always)]
    pub fn spot(&self) -> usize
        ensures { result < SYMBOL_SPOTS }
    {
        let bytes = self.as_bytes();
        let (middle, last) = (
            bytes[bytes.len() / 2] as usize,
            bytes[bytes.len() - 1] as usize,
        );
        (8 * middle + last + bytes.len()) % SYMBOL_SPOTS
    }

    /// The bytes that spell it.
    pub fn as_bytes(&self) -> &[u8]
        ensures value { result.now ≡ self.now }
        ensures spelling { IsSpelling self.now }
    {
        &self.bytes[..self.len as usize]
    }
}

/// Whether each byte may stand in a symbol.
fn has_name_bytes(name: &[u8]) -> bool
    ensures { result ≡ list_all is_symbol_byte name.now }
{
    name.iter().all(|b| is_name_byte(*b))
}

/// Whether the byte may stand in a symbol.
fn is_name_byte(byte: u8) -> bool
    ensures { result ≡ is_symbol_byte byte }
{
    byte.is_ascii_uppercase() || byte.is_ascii_digit()
}

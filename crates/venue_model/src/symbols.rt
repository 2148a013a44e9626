//! The table of the symbols that the venue trades, and from which entry on market orders are read: both fixed for a
//! run.
ghost use Rattle.std.specs.Prelude.{◌≡◌, ◌≤◌, ◌^◌, [], ◌∷◌, ◌++◌, map, string_bytes, IfOk, OnOk, IsErrOf};
ghost use Rattle.std.specs.List.{list_any};
ghost use Rattle.std.specs.Str.{bytes_eq};
ghost use Rattle.venue_model.specs.LimitsNumber.{limits_number};
ghost use Rattle.venue_model.specs.Spelling.{AreSymbols, CanJoin};

use crate::{MOST_SYMBOLS, Symbol};
use indexmap::IndexSet;
use std::alloc::Global;
use std::marker::Model;
use thiserror::Error;

/// Why a table of symbols can't be made.
#[derive(Clone, Copy, Debug, PartialEq, Eq, Error)]
pub enum LimitsFault {
    /// 11: there is none, there are more than 8, one is no symbol, or one stands twice.
    #[error("bad symbol")]
    BadSymbol = 11,
    /// 12: memory was refused.
    #[error("no memory")]
    Memory = 12,
}

impl LimitsFault {
    /// Its number, 11 or 12.
    pub fn number(self) -> u8
        ensures { result ≡ limits_number self }
    {
        self as u8
    }
}

/// The symbols (1 to 8) in the order of the command line, numbered by place, and the cut: the first sequence at which
/// market orders are read. Contracts see a record with the list and the cut.
#[derive(Drop)]
pub struct Limits {
    symbols: IndexSet<Symbol>,
    cut: u64,
}

impl Model for Limits {
    ghost use Rattle.venue_model.specs.Requests.{Limits};
    ghost use Rattle.venue_model.specs.Spelling.{AreSymbols};

    ghost Value = { Limits };

    ghost view = { λ l. record { symbols = l.symbols.keys; cut = l.cut } };

    ghost invariant = { λ l. AreSymbols l.symbols.keys };
}

impl Limits {
    /// The table of these names; market orders are read from the first entry on. `Memory` says nothing of the names.
    pub fn new(alloc: Global, names: &[String]) -> Result<Limits, LimitsFault>
        ensures names { IfOk result (λ limits. limits ≡ record { symbols = map string_bytes names.now; cut = 0 }) }
        ensures good { IfOk result (λ _. AreSymbols (map string_bytes names.now)) }
        ensures bad { IsErrOf result LimitsFault.BadSymbol → AreSymbols (map string_bytes names.now) → ⊥ }
    {
        if names.is_empty() || names.len() > MOST_SYMBOLS {
            return Err(LimitsFault::BadSymbol);
        }
        let mut symbols = IndexSet::with_capacity(alloc, names.len()).map_err(
            |_| LimitsFault::Memory,
        )?;
        for name in names {
            add(&mut symbols, name.as_bytes())?;
        }
        Ok(Limits { symbols, cut: 0 })
    }

    /// The same symbols, and market orders are read from the entry of this sequence on (at most 2^48): in a journal
    /// that was begun before there were any, they stay the Rejects that they were.
    pub fn cut_at(self, cut: u64) -> Limits
        requires { cut ≤ 2 ^ 48 }
        ensures { result ≡ record self { cut = cut } }
    {
        Limits { cut, ..self }
    }

    /// The first sequence at which market orders are read.
    pub fn cut(&self) -> u64
        ensures { result ≡ self.now.cut }
    {
        self.cut
    }

    /// The symbols, in order.
    pub fn symbols(&self) -> &[Symbol]
        ensures value { result.now ≡ self.now.symbols }
        ensures table { AreSymbols self.now.symbols }
    {
        self.symbols.as_slice()
    }

    /// Whether the venue trades the symbol.
    pub fn has(&self, symbol: &Symbol) -> bool
        ensures { result ≡ list_any (bytes_eq symbol.now) self.now.symbols }
    {
        self.symbols.contains(symbol)
    }
}

/// Puts a name behind the others, if it is a symbol and none of them.
fn add(symbols: &mut IndexSet<Symbol>, name: &[u8]) -> Result<(), LimitsFault>
    ensures can { OnOk result (CanJoin symbols.old.keys name.now) }
    ensures added { OnOk result (symbols.new.keys ≡ symbols.old.keys ++ name.now ∷ []) }
    ensures bad { IsErrOf result LimitsFault.BadSymbol → CanJoin symbols.old.keys name.now → ⊥ }
{
    let Some(symbol) = Symbol::new(name) else {
        return Err(LimitsFault::BadSymbol);
    };
    match symbols.insert(symbol) {
        Ok(true) => Ok(()),
        Ok(false) => Err(LimitsFault::BadSymbol),
        Err(_) => Err(LimitsFault::Memory),
    }
}

//! Which symbol of the venue stands at the spot where a symbol's bytes lead: most are told by one look there.
ghost use Rattle.std.specs.Prelude.{◌≡◌, ◌<◌, ◌≤◌, length};
ghost use Rattle.std.specs.List.{list_any};
ghost use Rattle.std.specs.Str.{bytes_eq};

use venue_model::{SYMBOL_SPOTS, Symbol};

/// For each spot the number of one of the venue's symbols. That each symbol is found at its own spot is for speed, and
/// no clause says it.
#[derive(Clone, Copy)]
pub(crate) struct SymbolSpots {
    numbers: [u8; SYMBOL_SPOTS],
}

impl SymbolSpots {
    /// The spots of these symbols. Where several lead to one, the last of them stands there.
    pub(crate) fn of(symbols: &[Symbol]) -> SymbolSpots
        requires { length symbols.now ≤ 8 }
    {
        let mut numbers = [0; SYMBOL_SPOTS];
        'symbols: for number in 0..symbols.len() {
            numbers[symbols[number].spot()] = number as u8;
        }
        SymbolSpots { numbers }
    }

    /// Whether the symbol is one of these: the one at its spot, or else any.
    #[inline(always)]
    pub(crate) fn has(&self, symbols: &[Symbol], symbol: &Symbol) -> bool
        ensures { result ≡ list_any (bytes_eq symbol.now) symbols.now }
    {
        match symbols.get(self.numbers[symbol.spot()] as usize) {
            Some(known) if symbol.is(known) => true,
            _ => is_any_of(symbols, symbol),
        }
    }
}

/// Whether the symbol is one of these, by a look at each.
#[cold]
#[inline(never)]
fn is_any_of(symbols: &[Symbol], symbol: &Symbol) -> bool
    ensures { result ≡ list_any (bytes_eq symbol.now) symbols.now }
{
    symbols.iter().any(|known| symbol.is(known))
}

//! What the rings know of the book: the meaning of a history, over the venue's symbols.
ghost use Rattle.std.specs.Prelude.{◌≡◌, ℕ};
ghost use Rattle.venue_model.specs.Spelling.{AreSymbols};
ghost use Rattle.venue_model.specs.Step.{IsCommand};
ghost use Rattle.book.specs.Histories.{reads_at};

use fix_orders::decode;
use std::marker::Model;
use venue_model::{Command, Limits, Logic, MOST_SYMBOLS, Symbol};

/// The meaning of a history of entries for a venue with these limits: each entry's command by the rules of reading,
/// market orders from the cut on, and the outputs of one book of one thread. It is copied freely and takes no memory.
/// Contracts see the limits.
#[derive(Clone, Copy)]
pub struct BookLogic {
    symbols: [Symbol; MOST_SYMBOLS],
    count: usize,
    cut: u64,
}

impl Model for BookLogic {
    ghost use Rattle.std.specs.Prelude.{length, take};
    ghost use Rattle.venue_model.specs.Requests.{Limits};
    ghost use Rattle.book.specs.Tables.{KeepsTable, in_eight, in_eight-take, kept_count};

    ghost Value = { Limits };

    ghost view = { λ l. record { symbols = take l.count l.symbols; cut = l.cut } };

    ghost invariant = { λ l. KeepsTable l.symbols l.count };

    ghost inverse = { λ limits. record { symbols = in_eight limits.symbols; count = length limits.symbols; cut = limits.cut } };

    ghost inverse_ok = { λ l keeps i. record {
      symbols = in_eight-take l.symbols l.count keeps i;
      count = kept_count l.symbols l.count keeps i;
      cut = l.cut;
    } };
}

impl BookLogic {
    /// The logic of a venue with these limits.
    pub fn of(limits: &Limits) -> BookLogic // promise 3
        ensures { result ≡ limits.now }
    {
        let names = limits.symbols();
        let count = names.len();
        let mut symbols = [names[0]; MOST_SYMBOLS];
        symbols[..count].copy_from_slice(names);
        BookLogic {
            symbols,
            count,
            cut: limits.cut(),
        }
    }

    /// The same logic, where market orders are read from the entry of this sequence on (at most 2^48).
    pub fn cut_at(self, cut: u64) -> BookLogic
        ensures { result ≡ record self { cut = cut } }
    {
        BookLogic { cut, ..self }
    }

    /// The symbols, in the order of the command line.
    pub fn symbols(&self) -> &[Symbol] // promise 3
        ensures value { result.now ≡ self.now.symbols }
        ensures table { AreSymbols self.now.symbols }
    {
        &self.symbols[..self.count]
    }

    /// The command of the entry at this sequence, whose message has these bytes, whatever they are. Below the cut a
    /// market order is rejected as it was before there were any.
    pub fn read(&self, sequence: u64, bytes: &[u8]) -> Command // promise 3
        ensures value { (gateway : ℕ) → result ≡ reads_at self.now sequence (record { gateway = gateway; bytes = bytes.now }) }
        ensures range { IsCommand result }
    {
        decode(bytes, self.cut <= sequence)
    }
}

impl Logic for BookLogic { // promise 3
    ghost use Rattle.book.specs.Histories.{reads_at, outputs_of};
    ghost use Rattle.std.proofs.Common.{refl};
    ghost use Rattle.fix_orders.specs.Text.{text_bytes};
    ghost use Rattle.venue_model.specs.HistoryLaws.{grows};

    ghost reads = { reads_at };

    ghost outputs = { outputs_of };

    ghost text = { λ limits o place. text_bytes o place };

    ghost nothing = { λ limits. refl };

    ghost grows = { λ limits. grows (reads_at limits) limits.symbols };
}

//! A history whose entries are gone: it stands in contracts alone.
ghost use Rattle.std.specs.Prelude.{◌≡◌, [], ◌++◌};
ghost use Rattle.venue_model.specs.History.{History};

use crate::Entry;
use std::marker::Model;

/// The entries of a history, in order, as contracts see them. It takes no memory and its calls do nothing, so a history
/// can be spoken of when none of its entries is kept.
#[derive(Drop)]
pub struct Past {
    pub ghost entries: { History },
}

impl Model for Past {
    ghost use Rattle.std.specs.Borrow.{ftrue};

    ghost also_owns = { λ _. ftrue };
}

impl Past {
    /// The empty history.
    pub fn new() -> Past
        ensures { result.entries ≡ [] }
    {
        Past {}
    }

    /// The history of these entries.
    pub fn of(entries: &[Entry]) -> Past
        ensures { result.entries ≡ entries.now }
    {
        let mut past = Past::new();
        past.extend_from_slice(entries);
        past
    }

    /// These entries stand behind those that it had.
    pub fn extend_from_slice(&mut self, _entries: &[Entry])
        ensures { self.new.entries ≡ self.old.entries ++ _entries.now }
    {}
}

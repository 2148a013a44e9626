//! Names of files whose looks follow a script: for tests.
use crate::stop::{Look, Names};

/// Names that show what a script says, and count what they were asked for.
#[derive(Drop)]
pub struct ScriptedNames {
    /// What is still to be shown, the last of these first. Behind them each look fails.
    pub script: Vec<Look>,
    /// How many files were removed. The count stays at `u64::MAX`.
    pub removed: u64,
}

impl Names for ScriptedNames {
    ghost use Rattle.venue.specs.Scripted.{ShowsNext, Removes};

    ghost looked = { λ name look x y. ShowsNext look x y };

    ghost removed = { λ name x y. Removes x y };

    fn look(&mut self, _name: &str) -> Look {
        self.script.pop().unwrap_or(Look::Failed)
    }

    fn remove(&mut self, _name: &str) {
        self.removed = self.removed.saturating_add(1);
    }
}

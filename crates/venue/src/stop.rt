//! How the venue is told to stop: by a file that appears beside its journal, since a program of this language can't
//! catch signals.
ghost use Rattle.std.specs.Prelude.{◌≡◌, ◌≢◌, ◌++◌, IfOk, codes, string_bytes};
ghost use Rattle.venue.specs.Stopping.{LooksForStop};

use std::alloc::AllocError;
use std::fs::{self, Files};

/// What a look at a sign or a name showed.
#[derive(Clone, Copy, Debug, PartialEq, Eq)]
pub enum Look {
    /// It is there.
    There,
    /// It isn't.
    Missing,
    /// Nothing: the look failed.
    Failed,
}

/// What tells a venue to stop. Code over any sign knows these facts of its calls alone.
pub trait StopSign {
    ghost use Rattle.venue.specs.declared.stop.Look.{Look};

    /// That what was left of it was taken away, and nothing else was done.
    ghost cleared: { Self → Self → Type 0 } = { λ x y. Unit {0} };

    /// That one look at it, and nothing else, showed this.
    ghost looked: { Look → Self → Self → Type 0 } = { λ look x y. Unit {0} };

    /// Takes away what is left of it from before.
    fn clear(&mut self)
        ensures { cleared self.old self.new };

    /// Whether it is there now, by one look: a look that fails has seen none.
    fn is_up(&mut self) -> bool
        ensures { LooksForStop looked result self.old self.new };
}

/// The names of files, as far as a file that stops a venue needs them. Code over any names knows these facts of its
/// calls alone.
pub trait Names {
    ghost use Rattle.std.specs.Prelude.{ℕ, List};
    ghost use Rattle.venue.specs.declared.stop.Look.{Look};

    /// That one look at the file of this name, and nothing else, showed this.
    ghost looked: { List ℕ → Look → Self → Self → Type 0 };

    /// That it was asked to remove the file of this name, and nothing else.
    ghost removed: { List ℕ → Self → Self → Type 0 };

    /// Looks whether there is a file of this name.
    fn look(&mut self, name: &str) -> Look
        ensures { looked name.now result self.old self.new };

    /// Removes the file of this name, if it can.
    fn remove(&mut self, name: &str)
        ensures { removed name.now self.old self.new };
}

/// The names that the system has. No clause says what it answers, or does.
#[derive(Drop)]
pub struct SystemNames<'a, R: Files> {
    files: &'a R,
}

impl<R: Files> Names for SystemNames<'_, R> {
    ghost looked = { λ name look x y. Unit {0} };

    ghost removed = { λ name x y. Unit {0} };

    fn look(&mut self, name: &str) -> Look {
        match fs::exists(self.files, name) {
            Ok(true) => Look::There,
            Ok(false) => Look::Missing,
            Err(_) => Look::Failed,
        }
    }

    fn remove(&mut self, name: &str) {
        let _ = fs::remove_file(self.files, name);
    }
}

/// The file that stops the venue: the journal's name with `.stop` behind it.
#[derive(Drop)]
pub struct StopFile<N: Names> {
    pub names: N,
    /// Its name.
    pub path: String,
}

impl<'a, R: Files + AllocGlobal> StopFile<SystemNames<'a, R>> {
    /// The file beside the journal of this name, which is another file than that.
    pub fn beside(files: &'a R, journal: &str) -> Result<StopFile<SystemNames<'a, R>>, AllocError> // promise 12
        ensures named { IfOk result (λ sign. string_bytes sign.path ≡ journal.now ++ codes ".stop") }
        ensures other { IfOk result (λ sign. string_bytes sign.path ≢ journal.now) }
    {
        let path = format!(in files.alloc(); "{journal}.stop")?;
        let names = SystemNames { files };
        Ok(StopFile { names, path })
    }
}

impl<N: Names> StopSign for StopFile<N> { // promise 12
    ghost use Rattle.venue.specs.Stopping.{removed_file, looked_at_file};

    ghost cleared = { λ x y. removed_file N.removed x y };

    ghost looked = { λ look x y. looked_at_file N.looked look x y };

    /// A file that can't be removed stops the venue at once.
    fn clear(&mut self) {
        self.names.remove(self.path.as_str());
    }

    fn is_up(&mut self) -> bool {
        self.names.look(self.path.as_str()) == Look::There
    }
}

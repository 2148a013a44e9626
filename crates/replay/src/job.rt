//! The words of the command line: what is asked of which journal.
ghost use Rattle.std.specs.Prelude.{◌≡◌, ℕ, List, map, string_bytes, IfOk, IsErrOf, IfErr, MatchOption, ◌⊎◌};
ghost use Rattle.replay.specs.declared.job.Word.{Word};
ghost use Rattle.replay.specs.declared.job.Task.{Task};
ghost use Rattle.replay.specs.Words.{AreWords, AreTaskWords, AreWordsBehind, IsSaid};

use crate::fault::ReplayFault;
use std::alloc::Global;
use venue_model::Limits;

/// What a report is of.
#[derive(Clone, Copy, Debug, PartialEq, Eq)]
pub enum Subject {
    /// `book`: the resting orders.
    Book,
    /// `C1` to `C8`: the outputs to the client of this gateway, 1 to 8.
    Client(u8),
}

/// What is asked of a journal. The symbols are those that the venue traded, in the order of its command line.
#[derive(Drop)]
pub enum Task {
    /// `book SYMBOL...` or `Cn SYMBOL...`: a report of this subject.
    Report { subject: Subject, limits: Limits },
    /// `snapshot SYMBOL...`: a snapshot of the state behind all entries is to be added.
    Snapshot { limits: Limits },
    /// `check SYMBOL...`: whether the snapshots are true.
    Check { limits: Limits },
    /// `carry NEW`: the entries are to be carried over to a file of this name, one byte or more.
    Carry { new: String },
}

/// What `venue-replay JOURNAL book|Cn|snapshot|check SYMBOL...` or `venue-replay JOURNAL carry NEW` asks for.
#[derive(Drop)]
pub struct Job {
    /// The name of the journal's file, one byte or more.
    pub journal: String,
    /// What is asked of it.
    pub task: Task,
}

impl Job {
    /// Reads the words behind the program's name.
    pub fn read(alloc: Global, words: &[String]) -> Result<Job, ReplayFault> // promise 13
        ensures said { IfOk result (λ job. AreWords (map string_bytes words.now) (string_bytes job.journal) job.task) }
        ensures wrong { IsErrOf result ReplayFault.Usage → (journal : List ℕ) (task : Task)
            → AreWords (map string_bytes words.now) journal task → ⊥ }
        ensures fault { IfErr result (λ fault. (fault ≡ ReplayFault.Usage) ⊎ (fault ≡ ReplayFault.Memory)) }
    {
        let [journal, rest @ ..] = words else {
            return Err(ReplayFault::Usage);
        };
        if journal.is_empty() {
            return Err(ReplayFault::Usage);
        }
        let task = Task::read(alloc, rest)?;
        let journal = String::from_str(alloc, journal.as_str())?;
        Ok(Job { journal, task })
    }
}

/// The word that says what is asked.
#[derive(Clone, Copy, Debug, PartialEq, Eq)]
enum Word {
    Of(Subject),
    Snapshot,
    Check,
    Carry,
}

impl Task {
    /// Reads the words behind the journal's name.
    fn read(alloc: Global, words: &[String]) -> Result<Task, ReplayFault>
        ensures said { IfOk result (AreTaskWords (map string_bytes words.now)) }
        ensures wrong { IsErrOf result ReplayFault.Usage → (task : Task) → AreTaskWords (map string_bytes words.now) task → ⊥ }
        ensures fault { IfErr result (λ fault. (fault ≡ ReplayFault.Usage) ⊎ (fault ≡ ReplayFault.Memory)) }
    {
        let [word, rest @ ..] = words else {
            return Err(ReplayFault::Usage);
        };
        let Some(said) = word_of(word.as_str()) else {
            return Err(ReplayFault::Usage);
        };
        read_behind(alloc, said, rest)
    }
}

/// Reads the words behind the one that says what is asked.
fn read_behind(alloc: Global, said: Word, words: &[String]) -> Result<Task, ReplayFault>
    ensures said { IfOk result (AreWordsBehind (map string_bytes words.now) said) }
    ensures wrong { IsErrOf result ReplayFault.Usage → (task : Task) → AreWordsBehind (map string_bytes words.now) said task → ⊥ }
    ensures fault { IfErr result (λ fault. (fault ≡ ReplayFault.Usage) ⊎ (fault ≡ ReplayFault.Memory)) }
{
    match said {
        Word::Of(subject) => Ok(Task::Report {
            subject,
            limits: Limits::new(alloc, words)?,
        }),
        Word::Snapshot => Ok(Task::Snapshot {
            limits: Limits::new(alloc, words)?,
        }),
        Word::Check => Ok(Task::Check {
            limits: Limits::new(alloc, words)?,
        }),
        Word::Carry => read_new(alloc, words),
    }
}

/// Reads the one word behind `carry`.
fn read_new(alloc: Global, words: &[String]) -> Result<Task, ReplayFault>
    ensures said { IfOk result (AreWordsBehind (map string_bytes words.now) Word.Carry) }
    ensures wrong { IsErrOf result ReplayFault.Usage → (task : Task) → AreWordsBehind (map string_bytes words.now) Word.Carry task → ⊥ }
    ensures fault { IfErr result (λ fault. (fault ≡ ReplayFault.Usage) ⊎ (fault ≡ ReplayFault.Memory)) }
{
    let [new] = words else {
        return Err(ReplayFault::Usage);
    };
    if new.is_empty() {
        return Err(ReplayFault::Usage);
    }
    Ok(Task::Carry {
        new: String::from_str(alloc, new.as_str())?,
    })
}

/// What the word says, if it is one of those that say what is asked.
fn word_of(word: &str) -> Option<Word>
    ensures { MatchOption result ((said : Word) → IsSaid word.now said → ⊥) (IsSaid word.now) }
{
    match word.as_bytes() {
        b"book" => Some(Word::Of(Subject::Book)),
        [b'C', digit @ b'1'..=b'8'] => Some(Word::Of(Subject::Client(*digit - b'0'))),
        b"snapshot" => Some(Word::Snapshot),
        b"check" => Some(Word::Check),
        b"carry" => Some(Word::Carry),
        _ => None,
    }
}

//! What the program answers in one line where no report is asked, and how that is printed.
ghost use Rattle.std.specs.Prelude.{◌≡◌, ◌⊎◌, OnOk, IfOk, IsErr, IsOk};
ghost use Rattle.std.specs.Io.KnownBytes.{Appends};
ghost use Rattle.replay.specs.Answers.{answer_line};

use crate::fault::{ReplayFault, refuse};
use std::io;
use std::io::Write;

/// The answer to a task that is no report.
#[derive(Clone, Copy, Debug, PartialEq, Eq)]
pub enum Answer {
    /// Each snapshot of the journal is the one of the entries before it.
    SnapshotsTrue,
    /// A snapshot was added, in a block at this offset.
    SnapshotAt(u64),
    /// So many entries were carried over.
    Carried(u64),
}

/// Prints an answer to `out`, and gives the program's status: 0 once the line is printed and flushed, 1 where that
/// fails, without a line. A fault's line goes to `err`, with the status 1; where it can't be printed it is let go.
pub fn tell<O: Write, E: Write>(answer: Result<Answer, ReplayFault>, out: &mut O, err: &mut E) -> u8 // promise 13
    ensures status { (result ≡ 0) ⊎ (result ≡ 1) }
    ensures printed { result ≡ 0 → IfOk answer (λ a. Appends (O.contents out.old) (O.contents out.new) (answer_line a)) }
    ensures refused { IsErr answer → (result ≡ 1) × (out.new ≡ out.old) }
    ensures one_stream { IsOk answer → err.new ≡ err.old }
{
    match answer {
        Ok(answer) => match write_answer(out, answer) {
            Ok(()) => 0,
            Err(_) => 1,
        },
        Err(fault) => refuse(fault, err),
    }
}

/// Writes the answer's line, and flushes.
fn write_answer<O: Write>(out: &mut O, answer: Answer) -> io::Result<()>
    ensures { OnOk result (Appends (O.contents out.old) (O.contents out.new) (answer_line answer)) }
{
    match answer {
        Answer::SnapshotsTrue => writeln!(out, "snapshots true")?,
        Answer::SnapshotAt(offset) => writeln!(out, "snapshot at {offset}")?,
        Answer::Carried(count) => writeln!(out, "carried {count} commands")?,
    }
    out.flush()
}

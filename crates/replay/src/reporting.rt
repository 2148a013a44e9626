//! A report of a journal, in text: what `venue-replay` prints of the book, or of what a client was told.
ghost use Rattle.std.specs.Prelude.{◌≡◌, ◌⊎◌, ◌^◌, ◌≤◌, length, OnOk, IsOk};
ghost use Rattle.std.specs.Io.KnownBytes.{Appends};
ghost use Rattle.venue_model.specs.History.{History};
ghost use Rattle.disks.specs.Disk.{Only, OnlyRead};
ghost use Rattle.replay.specs.Lines.{book_text, client_text};
ghost use Rattle.replay.specs.Reports.{Reports, ReportsBook, ReportsClient};
ghost use Rattle.replay.specs.Replays.{IsReplay};

use crate::fault::refuse;
use crate::job::Subject;
use crate::lines::{write_counts, write_orders, write_outputs};
use crate::recovered::{Recovered, replay};
use crate::replayed::{Replayed, replay_whole};
use journal::JournalDisk;
use std::alloc::Global;
use std::io;
use std::io::Write;
use venue_model::Limits;

/// Prints to `out` the report of the subject of a lent disk's journal, and answers the program's status: the book from
/// the newest snapshot on, or all outputs to a client. The status is 0 once the whole report is printed and flushed. It
/// is 1 where the journal can't be replayed, with the fault's line on `err`, and where a write to `out` or its flush
/// fails, without a line. A line on `err` that can't be printed is let go.
pub(crate) fn report_subject<D: JournalDisk, O: Write, E: Write>(
    alloc: Global,
    subject: Subject,
    limits: &Limits,
    disk: &mut D,
    out: &mut O,
    err: &mut E,
) -> u8
    ensures status { (result ≡ 0) ⊎ (result ≡ 1) }
    ensures printed { result ≡ 0 →
        Reports (D.honest disk.old) (D.tells disk.old).file limits.now subject (O.contents out.old) (O.contents out.new) }
    ensures one_stream { ((result ≡ 1) × (out.new ≡ out.old)) ⊎ (err.new ≡ err.old) }
    ensures counts { result ≡ 0 → D.failed disk.new ≡ D.failed disk.old }
    ensures read { OnlyRead (D.honest disk.old) (D.honest disk.new) (D.tells disk.old) (D.tells disk.new) }
    ensures durable { result ≡ 0 → D.honest disk.old → Only (D.tells disk.new).file (D.tells disk.new).may_leave }
{
    match subject {
        Subject::Book => report_book(alloc, limits, disk, out, err),
        Subject::Client(client) => report_client(alloc, client, limits, disk, out, err),
    }
}

/// The report of the book.
fn report_book<D: JournalDisk, O: Write, E: Write>(
    alloc: Global,
    limits: &Limits,
    disk: &mut D,
    out: &mut O,
    err: &mut E,
) -> u8
    ensures status { (result ≡ 0) ⊎ (result ≡ 1) }
    ensures printed { result ≡ 0 →
        ReportsBook (D.honest disk.old) (D.tells disk.old).file limits.now (O.contents out.old) (O.contents out.new) }
    ensures one_stream { ((result ≡ 1) × (out.new ≡ out.old)) ⊎ (err.new ≡ err.old) }
    ensures counts { result ≡ 0 → D.failed disk.new ≡ D.failed disk.old }
    ensures read { OnlyRead (D.honest disk.old) (D.honest disk.new) (D.tells disk.old) (D.tells disk.new) }
    ensures durable { result ≡ 0 → D.honest disk.old → Only (D.tells disk.new).file (D.tells disk.new).may_leave }
{
    match replay(alloc, disk, limits) {
        Ok(recovered) => status_of(write_book(out, &recovered)),
        Err(fault) => refuse(fault.into(), err),
    }
}

/// The report of the outputs to a client.
fn report_client<D: JournalDisk, O: Write, E: Write>(
    alloc: Global,
    client: u8,
    limits: &Limits,
    disk: &mut D,
    out: &mut O,
    err: &mut E,
) -> u8
    ensures status { (result ≡ 0) ⊎ (result ≡ 1) }
    ensures printed { result ≡ 0 → ReportsClient (D.honest disk.old) (D.tells disk.old).file limits.now client
        (O.contents out.old) (O.contents out.new) }
    ensures one_stream { ((result ≡ 1) × (out.new ≡ out.old)) ⊎ (err.new ≡ err.old) }
    ensures counts { result ≡ 0 → D.failed disk.new ≡ D.failed disk.old }
    ensures read { OnlyRead (D.honest disk.old) (D.honest disk.new) (D.tells disk.old) (D.tells disk.new) }
    ensures durable { result ≡ 0 → D.honest disk.old → Only (D.tells disk.new).file (D.tells disk.new).may_leave }
{
    match replay_whole(alloc, disk, limits) {
        Ok(replayed) => status_of(write_client(out, client, &replayed)),
        Err(fault) => refuse(fault.into(), err),
    }
}

/// The status for it: 0 once it is written and flushed.
fn status_of(written: io::Result<()>) -> u8
    ensures status { (result ≡ 0) ⊎ (result ≡ 1) }
    ensures whole { result ≡ 0 → IsOk written }
{
    match written {
        Ok(()) => 0,
        Err(_) => 1,
    }
}

/// Writes the lines of the resting orders, and the counts, and flushes.
fn write_book<O: Write>(out: &mut O, recovered: &Recovered) -> io::Result<()>
    requires few { length recovered.now.book.state.orders ≤ 4096 }
    requires told { recovered.now.told ≤ 2 ^ 62 }
    ensures { OnOk result (Appends (O.contents out.old) (O.contents out.new) (book_text recovered.now)) }
{
    write_orders(out, &recovered.book)?;
    write_counts(out, recovered.commands, recovered.outputs_told())?;
    out.flush()
}

/// Writes the lines of the outputs to a client, and the counts, and flushes.
fn write_client<O: Write>(out: &mut O, client: u8, replayed: &Replayed) -> io::Result<()>
    ensures { OnOk result ((h : History) → IsReplay replayed.now.book.limits h replayed.now →
        Appends (O.contents out.old) (O.contents out.new) (client_text replayed.now.book.limits h client)) }
{
    write_outputs(out, client, &replayed.outputs)?;
    write_counts(out, replayed.commands, replayed.outputs.len() as u64)?;
    out.flush()
}

//! The mode `-`: one client is served over a wire, behind the history of the journal on a disk or in its file.
ghost use Rattle.std.specs.Prelude.{◌≡◌, IfNone, IfSome, true};
ghost use Rattle.venue_model.specs.Counts.{Rose};
ghost use Rattle.disks.specs.Disk.{Both};
ghost use Rattle.disks.specs.Places.{LeavesUnder};
ghost use Rattle.journal.specs.Openings.{LeftOrNew};
ghost use Rattle.stages.specs.Devices.{device};
ghost use Rattle.venue.specs.Headline.{SeenServing, seen};
ghost use Rattle.venue.specs.Serving.{IsStatus, LeavesFrom, EndsWith};
ghost use Rattle.running.specs.Running.{Runs, ServesIn, back, handed, on_file};
ghost use Rattle.running.specs.Words.{trading};

use crate::words::Words;
use disks::{FileDisk, Folder, JournalDisk, RawFile};
use gateway::Wire;
use journal::open_journal;
use std::alloc::Global;
use std::io::Write;
use venue::ServeFault;

/// Serves C1 over the wire until its session ends, behind the history of the journal on the disk, for a venue with the
/// symbols of these words: the program's status, and the disk. Nothing else of the words is looked at. Market orders
/// are read from the journal's cut on. The status is 0; 1, with the fault's line, where the journal can't be opened or
/// room was refused, before a byte is read or written; 2, with the line of the journal, where that failed. A line that
/// can't be printed is let go.
pub fn serve<D: JournalDisk, W: Wire, E: Write>(
    alloc: Global,
    words: &Words,
    disk: D,
    wire: &mut W,
    err: &mut E,
) -> (u8, D) // promise 11
    ensures status { IsStatus (W.tells wire.old) (W.tells wire.new) (D.failed disk) (D.failed result.1) result.0 }
    ensures untouched { result.0 ≡ 1 → wire.new ≡ wire.old }
    ensures served { EndsWith (trading words.now.symbols) (device D.honest D.tells D.failed)
        (record { disk = disk; wire = W.tells wire.old }) (record { disk = result.1; wire = W.tells wire.new }) result.0 }
    ensures seen { SeenServing (trading words.now.symbols) (D.honest disk) (seen (D.tells disk) (W.tells wire.old))
        (seen (D.tells result.1) (W.tells wire.new)) result.0 }
    ensures honest { Both (D.honest disk) (D.honest result.1) }
    ensures any_moment { D.honest disk → LeavesFrom (D.tells disk) (D.tells result.1) }
{
    let Ok(limits) = words.symbols.limits(alloc) else {
        return (ServeFault::Memory.say(err), disk);
    };
    venue::serve(alloc, limits, disk, wire, err)
}

/// Opens the file of the journal, or makes it, and serves over it: the program's status, and the disk if the file could
/// be opened. The status is that of `serve`, or 1, with the fault's line, where the file couldn't be opened.
pub fn run<F: RawFile, P: Folder<File = F>, W: Wire, E: Write>(
    alloc: Global,
    words: &Words,
    folder: &mut P,
    wire: &mut W,
    err: &mut E,
) -> (u8, Option<FileDisk<F>>) // promise 11
    ensures unopened { IfNone result.1 (result.0 ≡ 1) }
    ensures cause { P.honest folder.old → (P.tells folder.old).there ≡ true →
        IfNone result.1 (Rose (P.failures folder.old).all (P.failures folder.new).all) }
    ensures untouched { result.0 ≡ 1 → wire.new ≡ wire.old }
    ensures status { IfSome result.1 (λ disk.
        IsStatus (W.tells wire.old) (W.tells wire.new) 0 (⟦<FileDisk<F> as JournalDisk>⟧.failed disk) result.0) }
    ensures honest { P.honest folder.old → IfSome result.1 (λ disk. F.honest disk.file) }
    ensures served { IfSome result.1 (λ disk. ServesIn (P.honest folder.old) (trading words.now.symbols)
        (on_file F.honest F.tells) (handed (P.tells folder.old) (W.tells wire.old))
        (back (P.tells folder.new) (W.tells wire.new) disk result.0)) }
    ensures journal { P.honest folder.old →
        IfSome result.1 (λ disk. Runs (P.tells folder.old) (P.tells folder.new) (F.tells disk.file)) }
    ensures any_moment { P.honest folder.old →
        LeavesUnder (P.tells folder.old) (P.tells folder.new) (LeftOrNew (P.tells folder.old)) }
{
    match open_journal(folder) {
        Ok(disk) => {
            let (status, disk) = serve(alloc, words, disk, wire, err);
            (status, Some(disk))
        }
        Err(fault) => (ServeFault::from(fault).say(err), None),
    }
}

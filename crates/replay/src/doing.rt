//! The program as one call: what its words ask of a journal is done over a disk, and said to writers. `main` opens the
//! journal's file in its folder, by `report_file` and what stands beside it.
ghost use Rattle.std.specs.Prelude.{◌≡◌, ◌⊎◌};
ghost use Rattle.disks.specs.Disk.{Only};
ghost use Rattle.replay.specs.Doing.{IsOfOneDisk, DoesTask, LeavesDisk};

use crate::adding::add_snapshot;
use crate::answer::tell;
use crate::checking::check_disk;
use crate::job::{Job, Task};
use crate::reporting::report_subject;
use disks::JournalDisk;
use std::alloc::Global;
use std::io::Write;

/// Does what the job asks of the journal on this disk, whatever name the job has for it, and gives the program's status
/// and the disk back. `book` and `Cn` print a report, and `check` and `snapshot` a line. The status is 0 once all is
/// printed to `out` and flushed. It is 1 where there is no answer, with the fault's line on `err`, and where a write to
/// `out` or its flush fails, without a line. A line on `err` that can't be printed is let go.
pub fn report<D: JournalDisk, O: Write, E: Write>(
    alloc: Global,
    job: &Job,
    disk: D,
    out: &mut O,
    err: &mut E,
) -> (u8, D) // promise 13
    requires one_disk { IsOfOneDisk job.now.task }
    ensures status { (result.0 ≡ 0) ⊎ (result.0 ≡ 1) }
    ensures done { result.0 ≡ 0 → DoesTask (D.honest disk) job.now.task (D.tells disk) (D.tells result.1)
        (O.contents out.old) (O.contents out.new) }
    ensures one_stream { ((result.0 ≡ 1) × (out.new ≡ out.old)) ⊎ (err.new ≡ err.old) }
    ensures counts { result.0 ≡ 0 → D.failed result.1 ≡ D.failed disk }
    ensures leaves { LeavesDisk job.now.task (D.honest disk) (D.honest result.1) (D.tells disk) (D.tells result.1) }
    ensures durable { result.0 ≡ 0 → D.honest disk → Only (D.tells result.1).file (D.tells result.1).may_leave }
{
    let mut disk = disk;
    match &job.task {
        Task::Report { subject, limits } => {
            let status = report_subject(alloc, *subject, limits, &mut disk, out, err);
            (status, disk)
        }
        Task::Check { limits } => {
            let answer = check_disk(alloc, limits, &mut disk);
            (tell(answer, out, err), disk)
        }
        Task::Snapshot { limits } => {
            let (answer, disk) = add_snapshot(alloc, limits, disk);
            (tell(answer, out, err), disk)
        }
        Task::Carry { .. } => unreachable!(),
    }
}

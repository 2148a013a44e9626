//! The program `venue-replay`: it reads its words, and does what they ask over the folder of its journal, standard
//! output and standard error.
#![tactic(auto)]

ghost use Rattle.std.specs.Prelude.{◌≡◌, ◌↔◌};
ghost use Rattle.std.specs.IoError.{error_kind};

use disks::{StandardStreams, SystemFolder};
use journal::JournalFault;
use replay::{
    Job, ReplayFault, Task, carry_file, check_file, refuse, report_file, snapshot_file, tell,
};
use std::io::{BufWriter, ErrorKind, Stderr};
use std::process::ExitCode;
use std::rt::Env;
use std::{env, io};

/// The words of the command line, without the program's name.
fn read_words<R: Env + AllocGlobal>(rt: &R) -> Result<Job, ReplayFault> {
    let all = env::args(rt).map_err(|error| unread(&error))?;
    let words: Vec<String> = all.skip(1).collect(rt.alloc())?;
    Job::read(rt.alloc(), &words)
}

/// Why the command line could not be read: memory, or a word that is no text.
fn unread(error: &io::Error) -> ReplayFault
    ensures { (result ≡ ReplayFault.Memory) ↔ (error_kind error.now ≡ ErrorKind.OutOfMemory) }
{
    match error.kind() {
        ErrorKind::OutOfMemory => ReplayFault::Memory,
        _ => ReplayFault::Usage,
    }
}

/// Does what is asked over the folder of the journal's name and standard output: the program's status.
fn start(rt: &HostRuntime, job: &Job, err: &mut Stderr) -> u8 {
    let Ok(mut out) = BufWriter::new(rt.alloc(), rt.stdout()) else {
        return refuse(ReplayFault::Memory, err);
    };
    let _streams = match StandardStreams::hold(rt) {
        Ok(streams) => streams,
        Err(fault) => return refuse(JournalFault::from(fault).into(), err),
    };
    let Ok(mut folder) = SystemFolder::new(rt, job.journal.as_str()) else {
        return refuse(ReplayFault::Memory, err);
    };
    match &job.task {
        Task::Report { subject, limits } => {
            let (status, _) = report_file(rt.alloc(), *subject, limits, &mut folder, &mut out, err);
            status
        }
        Task::Check { limits } => {
            let (answer, _) = check_file(rt.alloc(), limits, &mut folder);
            tell(answer, &mut out, err)
        }
        Task::Snapshot { limits } => {
            let (answer, _) = snapshot_file(rt.alloc(), limits, &mut folder);
            tell(answer, &mut out, err)
        }
        Task::Carry { new } => {
            let Ok(mut new) = SystemFolder::fresh(rt, new.as_str()) else {
                return refuse(ReplayFault::Memory, err);
            };
            let (answer, _, _) = carry_file(rt.alloc(), &mut folder, &mut new);
            tell(answer, &mut out, err)
        }
    }
}

fn main(rt: HostRuntime) -> ExitCode {
    let mut err = rt.stderr();
    let status = match read_words(&rt) {
        Ok(job) => start(&rt, &job, &mut err),
        Err(fault) => refuse(fault, &mut err),
    };
    ExitCode::from(status)
}

//! The program `venue-events`: it reads its words, and tells what they ask for over the folder of its journal, standard
//! output and standard error.
#![tactic(auto)]

ghost use Rattle.std.specs.Prelude.{◌≡◌, ◌↔◌};
ghost use Rattle.std.specs.IoError.{error_kind};

use disks::{StandardStreams, SystemFolder};
use events::{EventsFault, EventsWords, Looks, Naps, events_file, follow_file, refuse};
use journal::JournalFault;
use std::io::{BufWriter, ErrorKind, Stderr};
use std::process::ExitCode;
use std::rt::Env;
use std::{env, io};

/// The words of the command line, without the program's name.
fn read_words<R: Env + AllocGlobal>(rt: &R) -> Result<EventsWords, EventsFault> {
    let all = env::args(rt).map_err(|error| unread(&error))?;
    let words: Vec<String> = all.skip(1).collect(rt.alloc())?;
    EventsWords::read(rt.alloc(), &words)
}

/// Why the command line could not be read: memory, or a word that is no text.
fn unread(error: &io::Error) -> EventsFault
    ensures { (result ≡ EventsFault.Memory) ↔ (error_kind error.now ≡ ErrorKind.OutOfMemory) }
{
    match error.kind() {
        ErrorKind::OutOfMemory => EventsFault::Memory,
        _ => EventsFault::Usage,
    }
}

/// Tells what is asked over the folder of the journal's name and standard output, by naps between two looks: the
/// program's status.
fn start(rt: &HostRuntime, words: &EventsWords, err: &mut Stderr) -> u8 {
    let Ok(out) = BufWriter::new(rt.alloc(), rt.stdout()) else {
        return refuse(EventsFault::Memory, err);
    };
    let _streams = match StandardStreams::hold(rt) {
        Ok(streams) => streams,
        Err(fault) => return refuse(JournalFault::from(fault).into(), err),
    };
    let Ok(mut folder) = SystemFolder::new(rt, words.journal.as_str()) else {
        return refuse(EventsFault::Memory, err);
    };
    match words.looks {
        Looks::Once => events_file(rt.alloc(), words, &mut folder, out, err).0,
        Looks::Again => {
            let mut naps = Naps::new(rt);
            follow_file(rt.alloc(), words, &mut folder, &mut naps, out, err).0
        }
    }
}

fn main(rt: HostRuntime) -> ExitCode {
    let mut err = rt.stderr();
    let status = match read_words(&rt) {
        Ok(words) => start(&rt, &words, &mut err),
        Err(fault) => refuse(fault, &mut err),
    };
    ExitCode::from(status)
}

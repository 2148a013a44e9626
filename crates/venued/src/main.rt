//! The venue's program: it reads its words, and runs over the folder of its journal, standard input and output.
#![tactic(auto)]

ghost use Rattle.std.specs.Prelude.{◌≡◌, ◌↔◌, IfOk};
ghost use Rattle.running.specs.Words.{IsInRange};
ghost use Rattle.std.specs.IoError.{error_kind};

use disks::{StandardStreams, SystemFolder};
use gateway::{StdWire, Wire};
use journal::JournalFault;
use running::{Mode, Words, WordsFault, local_ports, refuse, run, run_for};
use std::fs::{File, Files};
use std::io::{ErrorKind, Write};
use std::net::{Net, TcpListener, TcpStream};
use std::process::ExitCode;
use std::rt::{Clock, Env};
use std::thread::Threads;
use std::{env, io};
use venue::{ServeFault, StopFile};

/// The words of the command line, without the program's name.
fn read_words<R: Env + AllocGlobal>(rt: &R) -> Result<Words, WordsFault>
    ensures { IfOk result (λ words. IsInRange words.mode) }
{
    let all = env::args(rt).map_err(|error| unread(&error))?;
    let words: Vec<String> = all.skip(1).collect(rt.alloc())?;
    Words::read(rt.alloc(), &words)
}

/// Why the command line could not be read: memory, or a word that is no text.
fn unread(error: &io::Error) -> WordsFault
    ensures { (result ≡ WordsFault.Memory) ↔ (error_kind error.now ≡ ErrorKind.OutOfMemory) }
{
    match error.kind() {
        ErrorKind::OutOfMemory => WordsFault::Memory,
        _ => WordsFault::Usage,
    }
}

/// Runs over the folder of the journal's name, as the words say: the program's status.
fn start<
    R: Threads
        + Clock
        + Net<Listener = TcpListener, Stream = TcpStream>
        + Files<File = File>
        + AllocGlobal
        + Sync,
    W: Wire,
    O: Write,
    E: Write,
>(rt: &R, words: &Words, wire: &mut W, out: &mut O, err: &mut E) -> u8
    requires { IsInRange words.now.mode }
{
    let _streams = match StandardStreams::hold(rt) {
        Ok(streams) => streams,
        Err(fault) => return ServeFault::from(JournalFault::from(fault)).say(err),
    };
    let journal = words.journal.as_str();
    let Ok(mut folder) = SystemFolder::new(rt, journal) else {
        return ServeFault::Memory.say(err);
    };
    let Ok(mut sign) = StopFile::beside(rt, journal) else {
        return ServeFault::Memory.say(err);
    };
    match words.mode {
        Mode::Standard => {
            let (status, _) = run(rt.alloc(), words, &mut folder, wire, err);
            status
        }
        Mode::Listening { port, gateways } => {
            let Ok(limits) = words.symbols.limits(rt.alloc()) else {
                return ServeFault::Memory.say(err);
            };
            let Ok(ports) = local_ports(rt, rt.alloc(), port, gateways) else {
                return ServeFault::Memory.say(err);
            };
            let (status, _, _) = run_for(rt, limits, ports, &mut folder, &mut sign, out, err);
            status
        }
    }
}

fn main(rt: HostRuntime) -> ExitCode {
    let mut err = rt.stderr();
    let mut out = rt.stdout();
    let Ok(mut wire) = StdWire::new(rt.alloc(), rt.stdin(), rt.stdout()) else {
        return ExitCode::from(ServeFault::Memory.say(&mut err));
    };
    let status = match read_words(&rt) {
        Ok(words) => start(&rt, &words, &mut wire, &mut out, &mut err),
        Err(fault) => refuse(fault, &mut err),
    };
    ExitCode::from(status)
}

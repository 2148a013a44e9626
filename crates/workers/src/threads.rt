//! A run: stages, and what is to happen beside them, at the same time.
ghost use Rattle.stages.specs.Crews.{AreAt};
ghost use Rattle.stages.specs.Devices.{device};
ghost use Rattle.stages.specs.Journalling.{WorksOn};
ghost use Rattle.stages.specs.Processes.{sizes};
ghost use Rattle.workers.specs.Running.{StagesEnd};
ghost use denote.Param.Send.{IsSend, IsSync};

use crate::crew::run_stages;
use crate::gate::Gate;
use crate::parking::Parks;
use crate::signals::Signalling;
use book::BookLogic;
use journal::JournalDisk;
use ring_words::Rings;
use stages::Crew;
use std::rt::Clock;
use std::thread::{Threads, join};

/// Lets the stages work, each on a thread of its own, while the others work on this thread and those that they start,
/// and gives the stages back at their rings, with what the others came to. The stages end when the signals say stop,
/// which they do once the others are over, once the journal has failed, or when the caller's own code says so: else
/// only behind 2^64 - 1 polls. No clause says that a run ends.
pub fn run<
    R: Threads + Clock + Parks + Sync,
    Q: Gate + Sync,
    D: JournalDisk + Drop + Send,
    F: FnOnce() -> X,
    X,
    S: Signalling + Sync,
    const N: usize,
    const M: usize,
    const G: usize,
>(
    rt: &R,
    gate: &Q,
    rings: &Rings<BookLogic, N, M, G>,
    crew: Crew<D>,
    others: F,
    signals: &S,
) -> (Crew<D>, X) // promise 12
    requires rings { AreAt rings.now crew }
    requires others { F.pre others }
    ensures crew { WorksOn N rings.now (device D.honest D.tells D.failed) crew result.0
        × StagesEnd (sizes N M G) rings.now.logic (device D.honest D.tells D.failed) (S.told signals.now)
        crew result.0 }
    ensures others { F.post others result.1 }
{
    join(
        rt,
        move || -> Crew<D>
            requires { IsSync R.row × IsSync Q.row × IsSync S.row × IsSend D.row × (AreAt rings.now crew) }
            ensures { WorksOn N rings.entry.now (device D.honest D.tells D.failed) crew result
                × StagesEnd (sizes N M G) rings.entry.now.logic (device D.honest D.tells D.failed)
                (S.told signals.entry.now) crew result }
        { run_stages(rt, gate, rings, crew, signals) },
        move || -> X
            requires { F.pre others }
            ensures { F.post others result × S.stopped signals.entry.now }
        {
            let came_to = others();
            signals.stop();
            came_to
        },
    )
}

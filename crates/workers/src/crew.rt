//! The four stages of one venue, each on a thread of its own.
ghost use Rattle.ring_words.specs.At.{IsAt};
ghost use Rattle.stages.specs.Crews.{AreAt};
ghost use Rattle.stages.specs.Devices.{device};
ghost use Rattle.stages.specs.Journalling.{WorksOn};
ghost use Rattle.stages.specs.Processes.{sizes};
ghost use Rattle.workers.specs.Running.{StageEnds, StagesEnd};
ghost use Rattle.workers.specs.Running.{UnmarshallerWorks, JournallerWorks, ProcessorWorks, MarshallerWorks};
ghost use denote.Param.Send.{IsSend, IsSync};

use crate::gate::{Gate, Station};
use crate::parking::Parks;
use crate::signals::Signalling;
use crate::station::staff;
use crate::worker::Ended;
use book::BookLogic;
use journal::JournalDisk;
use ring_words::Rings;
use stages::{Crew, Journaller, Marshaller, Processor, Stage, Unmarshaller};
use std::rt::Clock;
use std::thread::{Threads, join};

/// Lets two stages work at their stations, each on a thread of its own, until the signals say stop, and says why each
/// took no more polls.
fn side_by_side<
    T: Threads + Clock + Parks + Sync,
    Q: Gate + Sync,
    R: Sync,
    A: Stage<R> + Drop + Send,
    B: Stage<R> + Drop + Send,
    S: Signalling + Sync,
>(
    rt: &T,
    gate: &Q,
    rings: &R,
    one: (Station, A),
    other: (Station, B),
    signals: &S,
) -> ((A, Ended), (B, Ended))
    requires one { A.sits rings.now one.1 }
    requires other { B.sits rings.now other.1 }
    ensures one { A.sits rings.now result.0.0 × A.goes rings.now one.1 result.0.0 }
    ensures one_ends { StageEnds (A.polled rings.now) (S.told signals.now) result.0.1 one.1 result.0.0 }
    ensures other { B.sits rings.now result.1.0 × B.goes rings.now other.1 result.1.0 }
    ensures other_ends { StageEnds (B.polled rings.now) (S.told signals.now) result.1.1 other.1 result.1.0 }
{
    let (one_station, one) = one;
    let (other_station, other) = other;
    join(
        rt,
        move || -> (A, Ended)
            requires { A.sits rings.now one }
            ensures { A.sits rings.entry.now result.0 × A.goes rings.entry.now one result.0
                × StageEnds (A.polled rings.entry.now) (S.told signals.entry.now) result.1 one result.0 }
        { staff(rt, gate, rings, one_station, one, signals) },
        move || -> (B, Ended)
            requires { B.sits rings.now other }
            ensures { B.sits rings.entry.now result.0 × B.goes rings.entry.now other result.0
                × StageEnds (B.polled rings.entry.now) (S.told signals.entry.now) result.1 other result.0 }
        { staff(rt, gate, rings, other_station, other, signals) },
    )
}

/// Lets the stages work, each on a thread of its own, until the signals say stop or the journal fails. Then the
/// signals say stop.
pub(crate) fn run_stages<
    R: Threads + Clock + Parks + Sync,
    Q: Gate + Sync,
    D: JournalDisk + Drop + Send,
    S: Signalling + Sync,
    const N: usize,
    const M: usize,
    const G: usize,
>(rt: &R, gate: &Q, rings: &Rings<BookLogic, N, M, G>, crew: Crew<D>, signals: &S) -> Crew<D>
    requires { AreAt rings.now crew }
    ensures works { WorksOn N rings.now (device D.honest D.tells D.failed) crew result }
    ensures ends { StagesEnd (sizes N M G) rings.now.logic (device D.honest D.tells D.failed) (S.told signals.now)
        crew result }
{
    let Crew {
        unmarshaller,
        journaller,
        processor,
        marshaller,
    } = crew;
    let (((unmarshaller, _), (journaller, _)), ((processor, _), (marshaller, _))) = join(
        rt,
        move || -> ((Unmarshaller, Ended), (Journaller<D>, Ended))
            requires { IsSync R.row × IsSync Q.row × IsSync S.row × IsSend D.row × (IsAt rings.now unmarshaller)
                × (IsAt rings.now journaller.seat) }
            ensures { let told = S.told signals.entry.now in
                UnmarshallerWorks (sizes N M G) rings.entry.now told unmarshaller result.0
                × JournallerWorks (sizes N M G) rings.entry.now (device D.honest D.tells D.failed) told
                journaller result.1 }
        {
            let one = (Station::Unmarshaller, unmarshaller);
            let other = (Station::Journaller, journaller);
            side_by_side(rt, gate, rings, one, other, signals)
        },
        move || -> ((Processor, Ended), (Marshaller, Ended))
            requires { IsSync R.row × IsSync Q.row × IsSync S.row × (IsAt rings.now processor.seat)
                × (IsAt rings.now marshaller) }
            ensures { let told = S.told signals.entry.now in
                ProcessorWorks (sizes N M G) rings.entry.now told processor result.0
                × MarshallerWorks (sizes N M G) rings.entry.now told marshaller result.1 }
        {
            let one = (Station::Processor, processor);
            let other = (Station::Marshaller, marshaller);
            side_by_side(rt, gate, rings, one, other, signals)
        },
    );
    Crew {
        unmarshaller,
        journaller,
        processor,
        marshaller,
    }
}

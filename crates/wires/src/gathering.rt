//! A wire that gathers: it reads ahead of the session, asks for more less often than the session does, and what is
//! written waits until it is sent together, or until a slow client takes it. It stands in front of a wire that never
//! waits, as that of a client that came over TCP.
ghost use Rattle.std.specs.Prelude.{◌≡◌, refl, ◌<◌, ◌≤◌, ◌↔◌, ◌⊎◌, [], true, false, length, IfOk, IfErr, IsTrue};
ghost use Rattle.wires.specs.Wires.{ReadTells, WriteTells, nothings_of};
ghost use Rattle.wires.specs.Gatherings.{IfGot};
ghost use Rattle.wires.specs.GatheringWires.{told_gathering, below_of, ahead_of, waiting_of, quiet_of, late_of, broken_of, IsFresh, HoldsSame, HoldsElse};
ghost use Rattle.wires.specs.GatheringWires.{holding, rested, skipped_of, MaySkip, ReadsGathering, CountsLate, Writes, Sends};
ghost use Rattle.wires.specs.declared.buffers.TheConstants.{GATHERED, BACKLOG, MOST_LATE};

use crate::buffers::{BACKLOG, CAUGHT_UP, MOST_LATE, MOST_SKIPPED, ReadAhead, Waiting};
use crate::client::{ClientWire, DirectWire};
use crate::counts::{Counts, Nothings};
use crate::flushed::Flushed;
use crate::wire::{TryRead, TryWrite, Wire};
use std::alloc::{AllocFailed, Global};
use std::marker::Model;

/// A wire in front of another one. A read hands out what was read ahead, and the wire below is read only where that is
/// nothing. Behind a turn in which something moved the wire below isn't asked either, 32 times in a row at most: the
/// read finds nothing then. While others' outputs come by, most turns move something, and each would ask for nothing.
/// Behind a turn in which nothing moved the wire below is always asked, so nobody rests while bytes have come.
///
/// What is written waits. It is sent by `flush`, by `rest` where that is told to rest, and by a write that finds many
/// bytes waiting, as far as one write of the wire below takes them. So a write never answers `Nothing`. Once a write of
/// the wire below has failed, this wire is broken: each later read and write fails. The wire is broken, too, once a write
/// finds all room taken of which the wire below takes none. And so it is where, once that was so full, too many writes in
/// a row find that its client hasn't caught up, or once its client is given up. Bytes that wait as the wire is dropped are
/// lost. The wire tells the bytes that the wire below tells: those that it handed out of what that gave, and those that
/// went out or wait. Contracts see a `Gathering`.
#[derive(Drop)]
pub struct GatheringWire<W: Wire + Drop> {
    below: W,
    ahead: ReadAhead,
    waiting: Waiting,
    counts: Counts,
    quiet: bool,
    skipped: u32,
    late: u32,
    broken: bool,
}

impl<W: Wire + Drop> Model for GatheringWire<W> {
    ghost use Rattle.wires.specs.Wires.{AreLast};
    ghost use Rattle.wires.specs.GatheringWires.{Gathering, MayBeLate};

    ghost Value = { Gathering W };

    ghost view = { λ g. record {
      below = g.below;
      ahead = g.ahead;
      waiting = g.waiting;
      counts = g.counts;
      quiet = g.quiet;
      skipped = g.skipped;
      late = g.late;
      broken = g.broken;
    } };

    ghost invariant = { λ g. AreLast (W.tells g.below).gave g.ahead × MayBeLate g.late g.broken };
}

impl<W: Wire + Drop> GatheringWire<W> {
    /// A wire in front of this one, which is given back where there is no memory.
    pub fn new(alloc: Global, below: W) -> Result<GatheringWire<W>, AllocFailed<W>>
        ensures fresh { IfOk result (IsFresh W.tells) }
        ensures below { IfOk result (λ wire. below_of wire ≡ below) }
        ensures err { IfErr result (λ failed. failed.value ≡ below) }
    {
        let (Ok(ahead), Ok(waiting)) = (ReadAhead::new(alloc), Waiting::new(alloc)) else {
            return Err(AllocFailed { value: below });
        };
        Ok(GatheringWire {
            below,
            ahead,
            waiting,
            counts: Counts::new(),
            quiet: true,
            skipped: 0,
            late: 0,
            broken: false,
        })
    }

    /// The wire below.
    pub fn below(&self) -> &W
        ensures { result.now ≡ below_of self.now }
    {
        &self.below
    }

    /// Counts a write that comes before the client has caught up since its bytes filled the backlog. Once there were
    /// too many the wire is broken; says whether it is.
    fn is_too_late(&mut self) -> bool
        requires { broken_of self.old ≡ false }
        ensures counts { CountsLate (length (waiting_of self.old)) (late_of self.old) (late_of self.new) }
        ensures breaks { (IsTrue result ↔ late_of self.new ≡ MOST_LATE) × (result ≡ broken_of self.new) }
        ensures others { self.new ≡ record self.old { late = late_of self.new; broken = broken_of self.new } }
    {
        let waits = self.waiting.len();
        if waits < CAUGHT_UP {
            self.late = 0;
        } else if self.late > 0 || waits == BACKLOG {
            self.late += 1;
        }
        self.broken = self.late == MOST_LATE;
        self.broken
    }

    /// Whether the next read asks nobody: nothing is held ahead, the last turn moved something, and not too many reads
    /// in a row have asked nobody.
    fn is_skipping(&self) -> bool
        ensures { IsTrue result ↔ MaySkip (quiet_of self.now) (ahead_of self.now) (skipped_of self.now) }
    {
        !self.quiet && self.skipped < MOST_SKIPPED && self.ahead.is_empty()
    }

    /// Reads where it isn't broken.
    fn read(&mut self, buf: &mut [u8]) -> TryRead
        requires { 0 < length buf.old }
        ensures reads { ReadsGathering (quiet_of self.old) (holding W.tells self.old) (holding W.tells self.new) buf.new result }
        ensures count { IfGot result (λ n. (1 ≤ n) × (n ≤ length buf.new)) }
        ensures held { 0 < length (ahead_of self.old) → below_of self.new ≡ below_of self.old }
        ensures others { HoldsElse self.old self.new }
    {
        if self.is_skipping() {
            self.skipped += 1;
            return TryRead::Nothing;
        }
        self.skipped = 0;
        self.ahead.read(&mut self.below, buf)
    }

    /// Sends what waits, as far as the wire below takes it, and says whether it sends nothing more: nothing waits, or
    /// it is broken.
    fn send_waiting(&mut self) -> bool
        ensures told { told_gathering W.tells self.new ≡ told_gathering W.tells self.old }
        ensures sends { broken_of self.old ≡ false → Sends (holding W.tells self.old) (holding W.tells self.new) }
        ensures all { IsTrue result ↔ (waiting_of self.new ≡ []) ⊎ (broken_of self.new ≡ true) }
        ensures broken { broken_of self.old ≡ true → self.new ≡ self.old }
    {
        if !self.broken {
            self.broken = self.waiting.send(&mut self.below) == Flushed::Failed;
        }
        self.broken || self.waiting.is_empty()
    }
}

impl<W: Wire + Drop> Wire for GatheringWire<W> {
    ghost tells = { told_gathering W.tells };

    fn try_read(&mut self, buf: &mut [u8]) -> TryRead
        requires { 0 < length buf.old }
        ensures tells { ReadTells (told_gathering W.tells self.old) (told_gathering W.tells self.new) buf.new result }
        ensures reads { broken_of self.old ≡ false →
            ReadsGathering (quiet_of self.old) (holding W.tells self.old) (holding W.tells self.new) buf.new result }
        ensures held { 0 < length (ahead_of self.old) → below_of self.new ≡ below_of self.old }
        ensures fails { broken_of self.old ≡ true → (result ≡ TryRead.Failed) × HoldsSame self.old self.new }
    {
        let answer = if self.broken {
            TryRead::Failed
        } else {
            self.read(buf)
        };
        self.counts.count_read(answer);
        answer
    }

    fn try_write(&mut self, bytes: &[u8]) -> TryWrite
        requires { 0 < length bytes.now }
        ensures tells { WriteTells (told_gathering W.tells self.old) (told_gathering W.tells self.new) bytes.now result }
        ensures writes { broken_of self.old ≡ false →
            Writes (holding W.tells self.old) (holding W.tells self.new) bytes.now result }
        ensures room { length (waiting_of self.old) < GATHERED → below_of self.new ≡ below_of self.old }
        ensures fails { broken_of self.old ≡ true → (result ≡ TryWrite.Failed) × HoldsSame self.old self.new }
    {
        let answer = if self.broken || self.is_too_late() {
            TryWrite::Failed
        } else {
            self.waiting.write(&mut self.below, bytes)
        };
        self.broken = answer == TryWrite::Failed;
        self.counts.count_write(answer);
        answer
    }

    fn rest(&mut self, quiet: bool)
        ensures tells { told_gathering W.tells self.new ≡ record (told_gathering W.tells self.old) { quiet = quiet } }
        ensures sends { quiet ≡ true → broken_of self.old ≡ false →
            Sends (rested (holding W.tells self.old) quiet) (holding W.tells self.new) }
        ensures waits { (quiet ≡ false) ⊎ (broken_of self.old ≡ true) →
            holding W.tells self.new ≡ rested (holding W.tells self.old) quiet }
    {
        self.quiet = quiet;
        self.below.rest(quiet);
        if quiet {
            self.send_waiting();
        }
    }

    fn failures(&self) -> u64
        ensures { result ≡ (told_gathering W.tells self.now).failures }
    {
        self.counts.failures
    }

    fn nothings(&self) -> Nothings
        ensures { result ≡ nothings_of (told_gathering W.tells self.now) }
    {
        self.counts.nothings()
    }
}

impl<W: DirectWire + Drop> ClientWire for GatheringWire<W> {
    ghost use Rattle.wires.specs.GatheringWires.{sent_below, FlushesGathering, ShutsBelow};

    ghost sent = { sent_below W.tells };

    ghost holds = { waiting_of };

    ghost failed = { λ g. broken_of g ≡ true };

    ghost flushed = { FlushesGathering W.tells };

    ghost was_shut = { ShutsBelow W.was_shut };

    ghost parts = { λ g. refl };

    fn flush(&mut self) -> bool
        ensures told { told_gathering W.tells self.new ≡ told_gathering W.tells self.old }
        ensures flushed { FlushesGathering W.tells self.old self.new }
        ensures all { IsTrue result ↔ (waiting_of self.new ≡ []) ⊎ (broken_of self.new ≡ true) }
    {
        self.send_waiting()
    }

    fn shut(&mut self)
        requires all { (waiting_of self.old ≡ []) ⊎ (broken_of self.old ≡ true) }
        ensures told { told_gathering W.tells self.new ≡ told_gathering W.tells self.old }
        ensures holds { holding W.tells self.new ≡ holding W.tells self.old }
        ensures shut { ShutsBelow W.was_shut self.old self.new }
    {
        self.below.shut();
    }

    fn give_up(&mut self)
        ensures { self.new ≡ record self.old { broken = true } }
    {
        self.broken = true;
    }
}

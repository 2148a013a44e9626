//! A client whose session has ended. What it was told last still goes out, and its connection is closed in such an
//! order that nothing of that is lost: a connection that is closed while bytes of the client lie unread is reset, and
//! then the client may lose what it hasn't read yet.
ghost use Rattle.std.specs.Prelude.{◌≡◌, ◌⊎◌, true, []};
ghost use Rattle.venue.specs.Leaving.{BeginsLeaving, GoesOnLeaving, ReadsOver, SaysEnd};
ghost use Rattle.wires.specs.Clients.{ShutsLast};

use gateway::{ClientWire, TryRead};

/// For how many turns a client is waited for that doesn't take what it is told, or doesn't close its side: some seconds
/// in an idle venue, and a fraction of one beside others who trade, whose outputs leave no time to rest.
const PATIENCE: u32 = 50_000;

/// The wire of a client that leaves.
#[derive(Drop)]
pub struct Leaving<W> {
    wire: W,
    turns_left: u32,
    is_shut: bool,
}

impl<W: ClientWire + Drop> Leaving<W> {
    /// The client of this wire leaves.
    pub fn of(wire: W) -> Leaving<W> // promise 12
        ensures { BeginsLeaving wire result }
    {
        Leaving {
            wire,
            turns_left: PATIENCE,
            is_shut: false,
        }
    }

    /// Sends what is left, says that this was all, and reads over what the client still sends. Says whether the client
    /// has closed its side too, its wire failed, or it was waited for long enough.
    pub fn has_left(&mut self) -> bool // promise 12
        ensures { GoesOnLeaving W.tells W.flushed (ShutsLast W.holds W.failed W.was_shut) self.old self.new result }
    {
        if self.turns_left == 0 {
            return true;
        }
        self.turns_left -= 1;
        if !self.wire.flush() {
            return false;
        }
        self.shut();
        self.reads_over()
    }

    /// Its wire.
    pub fn end(self) -> W
        ensures { result ≡ self.wire }
    {
        let Leaving { wire, .. } = self;
        wire
    }

    /// Says once that nothing more is sent.
    fn shut(&mut self)
        requires all { (W.holds self.old.wire ≡ []) ⊎ W.failed self.old.wire }
        ensures told { W.tells self.new.wire ≡ W.tells self.old.wire }
        ensures turns { self.new.turns_left ≡ self.old.turns_left }
        ensures says { SaysEnd W.tells (ShutsLast W.holds W.failed W.was_shut) self.old self.new }
        ensures shut { self.new.is_shut ≡ true }
    {
        if !self.is_shut {
            self.is_shut = true;
            self.wire.shut();
        }
    }

    /// Reads over what the client sends, and says whether it has closed its side, or the wire failed.
    fn reads_over(&mut self) -> bool
        ensures reads { ReadsOver (W.tells self.old.wire) (W.tells self.new.wire) result }
        ensures others { (self.new.turns_left ≡ self.old.turns_left) × (self.new.is_shut ≡ self.old.is_shut) }
    {
        let mut over = [0; 512];
        matches!(
            self.wire.try_read(&mut over),
            TryRead::End | TryRead::Failed
        )
    }
}

//! How long a member's client has kept its gateway waiting, for its Logon or for the rest of a message. One that does
//! so for too long is let go, if another one waits at the port: so nobody keeps a member out by saying nothing.
ghost use Rattle.std.specs.Prelude.{◌≡◌, ◌↔◌, ◌-◌, ◌<◌, Some, None, true};
ghost use Rattle.venue.specs.Silences.{begun_at};
ghost use Rattle.venue.specs.declared.silence.TheConstants.{PATIENCE};

use std::rt::Clock;

/// For how many seconds a client may keep its gateway waiting where another one waits at the port.
const PATIENCE: u64 = 10;

/// Since when, in seconds of a clock, the client that is there has kept its gateway waiting, if it does.
#[derive(Clone, Copy, Debug, PartialEq, Eq)]
pub struct Silence {
    pub since: Option<u64>,
}

impl Silence {
    /// No client keeps its gateway waiting.
    pub fn none() -> Silence
        ensures { result.since ≡ None }
    {
        Silence { since: None }
    }

    /// The gateway waits for its client now: says whether it has for too long.
    pub fn lasts(&mut self, now: u64) -> bool
        ensures since { self.new.since ≡ Some (begun_at self.old.since now) }
        ensures lasts { result ≡ true ↔ PATIENCE < now - begun_at self.old.since now }
    {
        let since = self.since.unwrap_or(now);
        self.since = Some(since);
        now.saturating_sub(since) > PATIENCE
    }

    /// It doesn't wait.
    pub fn end(&mut self)
        ensures { self.new.since ≡ None }
    {
        self.since = None;
    }
}

/// The seconds of this clock, if it can be read. They never go back on this machine.
pub fn seconds<C: Clock>(clock: &C) -> Option<u64> {
    let now = clock.monotonic().ok()?;
    Some(now.as_secs())
}

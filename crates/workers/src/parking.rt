//! Where a thread rests that has nothing to do, until another thread wakes it or one of its sockets is ready.
use mio::{Events, Poll, Registry, Token, Waker};
use std::io;
use std::net::Net;
use std::time::Duration;

/// How many events one wait takes note of: those that are left end the next one.
const MOST_EVENTS: usize = 4;

/// Under this token a wait is told that the thread was woken. Other tokens are those of its sockets.
const WOKEN: Token = Token(0);

/// A thread's place to rest.
#[derive(Drop)]
pub struct Parking {
    poll: Poll,
    events: Events,
}

/// What gives threads their places to rest.
pub trait Parks {
    /// A place to rest, and what wakes the thread that rests there; or none, where the system has no descriptors for it
    /// or there is no memory.
    fn parking(&self) -> Option<(Parking, Waker)>;
}

impl<R: Net + AllocGlobal> Parks for R {
    fn parking(&self) -> Option<(Parking, Waker)> {
        let poll = Poll::new(self).ok()?;
        let waker = Waker::new(poll.registry(), WOKEN).ok()?;
        let events = Events::with_capacity(self.alloc(), MOST_EVENTS).ok()?;
        Some((Parking { poll, events }, waker))
    }
}

impl Parking {
    /// Where sockets are registered whose readiness is to end a rest too.
    pub fn registry(&self) -> &Registry {
        self.poll.registry()
    }

    /// Rests until something is ready, for so long at most, and says whether something is.
    pub fn rest(&mut self, longest: Duration) -> io::Result<bool> {
        self.poll.poll(&mut self.events, Some(longest))?;
        Ok(!self.events.is_empty())
    }
}

//! The message that a session holds until it is published. Its bytes lie in place: they are copied once, out of the
//! frame that they came in, and the ring's rows are written from here.
ghost use Rattle.std.specs.Prelude.{◌≡◌, ◌≢◌, ◌≤◌, Some, None, length, is_some};
ghost use Rattle.gateway.specs.Judging.{Holds};

use crate::hearing::Judged;
use std::marker::Model;
use venue_model::LONGEST_MESSAGE;

/// A message, or none. Contracts see an option.
#[derive(Drop)]
pub struct Held {
    bytes: [u8; LONGEST_MESSAGE],
    len: usize,
}

impl Model for Held {
    ghost use Rattle.std.specs.Prelude.{ℕ, List, Option, ◌≡◌, ◌≤◌, length, take};
    ghost use Rattle.gateway.specs.Messages.{message_in};

    ghost Value = { Option (List ℕ) };

    ghost view = { λ h. message_in (take h.len h.bytes) };

    ghost invariant = { λ h. (length h.bytes ≡ 320) × (h.len ≤ 320) };
}

impl Held {
    /// None is held.
    pub fn new() -> Held
        ensures { result ≡ None }
    {
        Held {
            bytes: [0; LONGEST_MESSAGE],
            len: 0,
        }
    }

    /// Whether one is held.
    pub fn is_some(&self) -> bool
        ensures { result ≡ is_some self.now }
    {
        self.len > 0
    }

    /// The message held.
    pub fn message(&self) -> &[u8]
        requires { self.now ≢ None }
        ensures value { self.now ≡ Some result.now }
        ensures some { 1 ≤ length result.now }
        ensures most { length result.now ≤ 320 }
    {
        &self.bytes[..self.len]
    }

    /// Holds this message.
    pub fn hold(&mut self, message: &[u8])
        requires some { 1 ≤ length message.now }
        requires most { length message.now ≤ 320 }
        ensures { self.new ≡ Some message.now }
    {
        self.bytes[..message.len()].copy_from_slice(message);
        self.len = message.len();
    }

    /// Lets go of it.
    pub fn release(&mut self)
        ensures { self.new ≡ None }
    {
        self.len = 0;
    }

    /// Holds this message, if that is what is to be done with it.
    pub fn hold_as(&mut self, message: &[u8], verdict: &Judged)
        requires some { 1 ≤ length message.now }
        requires most { length message.now ≤ 320 }
        ensures { Holds message.now verdict.now self.old self.new }
    {
        if let Judged::Hold = verdict {
            self.hold(message);
        }
    }
}

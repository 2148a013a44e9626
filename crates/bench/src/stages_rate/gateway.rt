//! A gateway with the messages that it publishes, in their order, and the counts of what it is answered.
ghost use Rattle.std.specs.Prelude.{◌≡◌, ⊤};
ghost use Rattle.ring_words.specs.At.{IsAt};

use crate::fault::Fault;
use crate::stages_rate::VenueRings;
use crate::stages_rate::messages::messages_of;
use book::BookLogic;
use ring_words::GatewaySeat;
use sequencer::{Take, take, try_claim};
use std::alloc::Global;
use venue_model::{Entry, LONGEST_MESSAGE};
use workers::{Outcome, Worker};

/// How many turns in a row a gateway may find nothing to do, and no hang: some seconds where it waits for room, in naps
/// of some microseconds.
const MOST_IDLE: u64 = 50_000;

/// The byte that ends each field.
const SOH: u8 = 1;

/// A gateway at the rings. It has published the first of its messages, and counted what the outputs that it took say.
#[derive(Drop)]
pub struct Gateway<'a, const G: usize> {
    rings: &'a VenueRings<G>,
    seat: GatewaySeat<BookLogic>,
    /// How many commands all gateways publish.
    commands: u64,
    messages: Vec<Entry>,
    sent: usize,
    body: [u8; LONGEST_MESSAGE],
    /// How many outputs say that an order was accepted, and how many that one was canceled.
    accepted: u64,
    canceled: u64,
    /// How many turns in a row found nothing to do.
    idle: u64,
    ghost fits: { IsAt rings.now seat },
}

impl<const G: usize> Gateway<'_, G> {
    /// The gateway of a new seat, with its share of the messages: the shares of all gateways differ by one at most, and
    /// are all commands together.
    pub fn new<'a>(
        alloc: Global,
        rings: &'a VenueRings<G>,
        seat: GatewaySeat<BookLogic>,
        commands: u32,
    ) -> Result<Gateway<'a, G>, Fault>
        requires { IsAt rings.now seat }
    {
        let number = seat.number();
        let commands = u64::from(commands);
        let share = (commands + number - 1) / (G as u64).max(1);
        Ok(Gateway {
            rings,
            seat,
            commands,
            messages: messages_of(alloc, number as u8, share)?,
            sent: 0,
            body: [0; LONGEST_MESSAGE],
            accepted: 0,
            canceled: 0,
            idle: 0,
        })
    }

    /// Its number, from 1 on.
    pub fn number(&self) -> u64 {
        self.seat.number()
    }

    /// Whether it has found nothing to do for too long.
    fn has_given_up(&self) -> bool {
        self.idle >= MOST_IDLE
    }

    /// Looks whether it took or passed over an output for each command, and those that it took say what is due: it buys
    /// and cancels by turns.
    pub fn check(&self) -> Result<(), Fault> {
        if self.has_given_up() {
            return Err(Fault::GaveUp);
        }
        let share = self.messages.len() as u64;
        let is_due = self.accepted == share.div_ceil(2) && self.canceled == share / 2;
        if self.seat.taken() != self.commands || !is_due {
            return Err(Fault::WrongOutputs);
        }
        Ok(())
    }

    /// Counts the output of this length, by its ExecType (150): the third field, behind OrderID (37) and ExecID (17).
    fn count(&mut self, len: usize) {
        let body = &self.body[..len.min(LONGEST_MESSAGE)];
        let third = body.split(|byte| *byte == SOH).nth(2);
        if third == Some(b"150=0") {
            self.accepted = self.accepted.saturating_add(1);
        }
        if third == Some(b"150=4") {
            self.canceled = self.canceled.saturating_add(1);
        }
    }

    /// Takes the next output or passes it over, if there is one.
    fn take(&mut self) -> bool {
        match take(self.rings, &mut self.seat, &mut self.body) {
            Take::Mine(head) => self.count(head.len),
            Take::Passed => {}
            Take::Nothing => return false,
        }
        true
    }

    /// Publishes the next message, if a sequence can be claimed for it.
    fn publish(&mut self) -> bool {
        let Some(message) = self.messages.get(self.sent) else {
            return false;
        };
        let Ok(claim) = try_claim(self.rings, &mut self.seat) else {
            return false;
        };
        claim.publish(self.rings, &mut self.seat, message.bytes());
        self.sent += 1;
        true
    }
}

impl<const G: usize> Worker for Gateway<'_, G> {
    ghost goes = { λ x y. ⊤ };

    ghost further = { λ x y z first second. tt };

    /// Takes the next output; where there is none, publishes the next message, or waits for room. It is over once it
    /// has taken or passed over an output for each command.
    fn turn(&mut self) -> Outcome {
        if self.seat.taken() >= self.commands || self.has_given_up() {
            return Outcome::Over;
        }
        if self.take() {
            self.idle = 0;
            return Outcome::Moved;
        }
        if self.publish() {
            self.idle = 0;
            return Outcome::Worked;
        }
        self.idle = self.idle.saturating_add(1);
        if self.sent < self.messages.len() {
            return Outcome::Pressed;
        }
        Outcome::Idle
    }
}

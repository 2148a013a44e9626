//! The pure session: it hears a client's frames one by one, answers them, holds an order message until it is published,
//! and numbers all that is written. It knows no wire and no ring.
ghost use Rattle.std.specs.Prelude.{◌≡◌, ◌≢◌, ◌↔◌, ◌+◌, ◌≤◌, ◌<◌, ◌^◌, [], Some, None, false, IfOk, length, drop, is_some};
ghost use Rattle.fix_orders.specs.Text.{Said};

use crate::ending::Reason;
use crate::hearing::{Heard, Judged, hear};
use crate::held::Held;
use crate::outgoing::Outgoing;
use crate::refusal::Refusal;
use fix_frame::Framer;
use fix_orders::put_field;
use std::alloc::{AllocError, Global};
use std::marker::Model;

/// One session of a gateway's client. Contracts see a `Standing`.
#[derive(Drop)]
pub struct Session {
    gateway: u8,
    framer: Framer,
    midway: bool,
    held: Held,
    accepted: u32,
    time: u64,
    outgoing: Outgoing,
    number: u64,
    logged_on: bool,
    closing: Option<Reason>,
}

impl Model for Session {
    ghost use Rattle.gateway.specs.Standing.{Standing};

    ghost Value = { Standing };

    ghost use Rattle.gateway.specs.SessionFields.{standing, KeepsSession};

    ghost view = { standing };

    ghost invariant = { KeepsSession };
}

impl Session {
    ghost use Rattle.std.specs.Prelude.{List, ℕ};
    ghost use Rattle.fix_frame.specs.Grammar.{IsField};
    ghost use Rattle.fix_orders.specs.Formats.{time_text};
    ghost use Rattle.fix_orders.specs.Text.{field};
    ghost use Rattle.gateway.specs.Answers.{Logon, Heartbeat, Logout};
    ghost use Rattle.gateway.specs.SessionCalls.{fresh, saying, replying, heard, exhausting, Listens};
    ghost use Rattle.std.specs.Prelude.{IfSome};
    ghost use Rattle.gateway.specs.SessionFields.{ClosesItself};
    ghost use Rattle.gateway.specs.Judging.{verdict_of, IsHeld, CanCount, CanEcho};
    ghost use Rattle.gateway.specs.Messages.{IsTypeText, AreFields, Spells, IsRefusalText};

    /// A session of this gateway's client, begun.
    pub fn new(alloc: Global, gateway: u8) -> Result<Session, AllocError>
        requires from { 1 ≤ gateway }
        requires to { gateway ≤ 8 }
        ensures { IfOk result (λ session. session ≡ fresh gateway) }
    {
        Ok(Session {
            gateway,
            framer: Framer::new(alloc)?,
            midway: false,
            held: Held::new(),
            accepted: 0,
            time: 0,
            outgoing: Outgoing::new(),
            number: 1,
            logged_on: false,
            closing: None,
        })
    }

    /// Why the session closes, where it has said its Logout.
    pub fn closing(&self) -> Option<Reason>
        ensures value { result ≡ self.now.closing }
        ensures own { IfSome result ClosesItself }
        ensures few { self.now.accepted ≤ 999999999 }
    {
        self.closing
    }

    /// Whether a message waits to be published.
    pub fn is_holding(&self) -> bool
        ensures { result ≡ is_some self.now.held }
    {
        self.held.is_some()
    }

    /// Whether the client is logged on.
    pub fn is_logged_on(&self) -> bool
        ensures { result ≡ self.now.logged_on }
    {
        self.logged_on
    }

    /// Whether the client is in the middle of a message.
    pub fn is_midway(&self) -> bool
        ensures { self.now.closing ≡ None → (result ≡ false ↔ self.now.under_way ≡ []) }
    {
        self.midway
    }

    /// The bytes that stand to be written.
    pub fn unsent(&self) -> &[u8]
        ensures { result.now ≡ self.now.outgoing }
    {
        self.outgoing.as_slice()
    }

    /// So many of them, the first, are written.
    pub fn sent(&mut self, count: usize)
        requires { count ≤ length self.old.outgoing }
        ensures { self.new ≡ record self.old { outgoing = drop count self.old.outgoing } }
    {
        self.outgoing.skip(count);
    }

    /// Begins a new session of the same client.
    pub fn begin(&mut self)
        ensures { self.new ≡ fresh self.old.gateway }
    {
        self.framer.reset();
        self.midway = false;
        self.held.release();
        self.accepted = 0;
        self.time = 0;
        self.outgoing.clear();
        self.number = 1;
        self.logged_on = false;
        self.closing = None;
    }

    /// Feeds bytes up to the end of the message under way, and does what the session does with a frame that they end
    /// or a fault that they have. Answers how many were fed.
    pub fn feed(&mut self, bytes: &[u8]) -> usize
        requires open { self.old.closing ≡ None }
        requires free { self.old.held ≡ None }
        requires some { 0 < length bytes.now }
        requires room { length self.old.outgoing ≤ 512 }
        requires number { self.old.number < 2 ^ 63 }
        ensures hears { Listens self.old self.new bytes.now result }
        ensures room { length self.new.outgoing ≤ length self.old.outgoing + 412 }
    {
        let fed = match self.framer.feed(bytes) {
            Ok(fed) => fed,
            Err(fault) => {
                self.closing = Some(Reason::Refused);
                let time = self.time;
                self.say_logout(time, Refusal::Frame(fault).text());
                return bytes.len();
            }
        };
        let heard = match self.framer.next() {
            Some(frame) => {
                self.midway = false;
                let heard = hear(&frame, self.gateway, self.accepted, self.time);
                self.held.hold_as(frame.text(), &heard.verdict);
                heard
            }
            None => {
                self.midway = true;
                return fed;
            }
        };
        self.answer(heard);
        fed
    }

    /// Does what the session does with a judged frame, whose message is held if it is to be.
    fn answer(&mut self, frame: Heard)
        requires open { self.old.closing ≡ None }
        requires given { self.old.under_way ≡ [] }
        requires room { length self.old.outgoing ≤ 512 }
        requires number { self.old.number < 2 ^ 63 }
        requires counts { CanCount self.old.accepted frame.verdict }
        requires echo { CanEcho frame.verdict }
        ensures new { (message : List ℕ) → IsHeld message frame.verdict self.old.held →
            self.new ≡ heard (time_text frame.time) message (verdict_of frame.verdict) self.old }
        ensures room { length self.new.outgoing ≤ length self.old.outgoing + 412 }
    {
        let Heard { verdict, time } = frame;
        match verdict {
            Judged::Welcome => {
                self.accepted += 1;
                self.time = time;
                self.logged_on = true;
                self.say_logon(time);
            }
            Judged::Beat(echo) => {
                self.accepted += 1;
                self.time = time;
                self.say_heartbeat(time, echo.as_slice());
            }
            Judged::Pass | Judged::Hold => {
                self.accepted += 1;
                self.time = time;
            }
            Judged::Leave => {
                self.closing = Some(Reason::LoggedOut);
                self.return_logout(time);
            }
            Judged::Refuse(refusal) => {
                self.closing = Some(Reason::Refused);
                self.say_logout(time, refusal.text());
            }
        }
    }

    /// Says the Logon.
    fn say_logon(&mut self, time: u64)
        requires room { length self.old.outgoing ≤ 512 }
        requires number { self.old.number < 2 ^ 63 }
        ensures new { self.new ≡ replying (Logon (time_text time)) self.old }
        ensures room { length self.new.outgoing ≤ length self.old.outgoing + 412 }
    {
        self.say(b"A", time, b"98=0\x01108=0\x01141=Y\x01");
    }

    /// Says the Heartbeat that a TestRequest asks for, with its TestReqID (112).
    fn say_heartbeat(&mut self, time: u64, echo: &[u8])
        requires room { length self.old.outgoing ≤ 512 }
        requires number { self.old.number < 2 ^ 63 }
        requires echo { IsField (field 112 echo.now) }
        requires most { length echo.now ≤ 32 }
        ensures new { self.new ≡ replying (Heartbeat (time_text time) echo.now) self.old }
        ensures room { length self.new.outgoing ≤ length self.old.outgoing + 412 }
    {
        let mut body = [0; 64];
        let end = put_field(&mut body, 0, 112, echo);
        self.say(b"0", time, &body[..end]);
    }

    /// Says the Logout that answers the client's, without a text.
    fn return_logout(&mut self, time: u64)
        requires room { length self.old.outgoing ≤ 512 }
        requires number { self.old.number < 2 ^ 63 }
        ensures new { self.new ≡ replying (Logout (time_text time) []) self.old }
        ensures room { length self.new.outgoing ≤ length self.old.outgoing + 412 }
    {
        self.say(b"5", time, &[]);
    }

    /// Says the Logout, with a text of 1 to 20 bytes.
    fn say_logout(&mut self, time: u64, text: &[u8])
        requires room { length self.old.outgoing ≤ 512 }
        requires number { self.old.number < 2 ^ 63 }
        requires text { IsRefusalText text.now }
        ensures new { self.new ≡ replying (Logout (time_text time) text.now) self.old }
        ensures room { length self.new.outgoing ≤ length self.old.outgoing + 412 }
    {
        let mut body = [0; 32];
        let end = put_field(&mut body, 0, 58, text);
        self.say(b"5", time, &body[..end]);
    }

    /// Says a message: its MsgType (35), SendingTime (52) and body.
    pub fn say(&mut self, msg_type: &[u8], time: u64, body: &[u8])
        requires kind { IsTypeText msg_type.now }
        requires fields { AreFields body.now }
        requires most { length body.now ≤ 320 }
        requires room { length self.old.outgoing ≤ 512 }
        requires number { self.old.number < 2 ^ 63 }
        ensures new { (said : Said) → Spells msg_type.now time body.now said → self.new ≡ saying said self.old }
        ensures room { length self.new.outgoing ≤ length self.old.outgoing + 412 }
    {
        self.outgoing
            .put_message(self.gateway, self.number, msg_type, time, body);
        self.number += 1;
    }

    /// The message held.
    pub fn message(&self) -> &[u8]
        requires { self.now.held ≢ None }
        ensures value { self.now.held ≡ Some result.now }
        ensures some { 1 ≤ length result.now }
        ensures most { length result.now ≤ 320 }
    {
        self.held.message()
    }

    /// The message held is published: it lets go of it.
    pub fn published(&mut self)
        ensures { self.new ≡ record self.old { held = None } }
    {
        self.held.release();
    }

    /// No sequence is left for the message held: it lets go of it, says so, and closes.
    pub fn exhausted(&mut self)
        requires room { length self.old.outgoing ≤ 512 }
        requires number { self.old.number < 2 ^ 63 }
        ensures exhausted { self.new ≡ exhausting self.old }
        ensures room { length self.new.outgoing ≤ length self.old.outgoing + 412 }
    {
        self.held.release();
        self.closing = Some(Reason::Exhausted);
        let time = self.time;
        self.say_logout(time, Refusal::Exhausted.text());
    }
}

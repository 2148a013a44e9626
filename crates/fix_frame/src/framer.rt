//! The framer: cuts the bytes that a client sends into frames, in whatever pieces they come.
ghost use Rattle.std.specs.Prelude.{◌≡◌, ◌<◌, ◌≤◌, length, None, Some, MatchOption, MatchBool, IfOk, IfErr};
ghost use Rattle.std.specs.Borrow.{sem};
ghost use Rattle.std.specs.Vec.{vec_capacity, vec_len};
ghost use Rattle.fix_frame.specs.Framing.{fresh, failed, TakesPiece, Refuses};
ghost use Rattle.fix_frame.specs.Lending.{EndsGiven};
ghost use Rattle.fix_frame.specs.Stream.{IsWhole, BeginsNoFrame, Faults};
ghost use Rattle.fix_frame.specs.Stages.{IsReady, IsUnderWay, framing};
ghost use Rattle.fix_frame.specs.Endings.{IsJudged, TakesFront, FaultsFront};
ghost use Rattle.fix_frame.specs.Grammar.{IsFrame, most_in};
ghost use Rattle.fix_frame.specs.Borrowed.{frame_fields};
ghost use Rattle.fix_frame.specs.declared.fault.FrameFault.{FrameFault};

use crate::fault::FrameFault;
use crate::frame::Frame;
use crate::stage::{Stage, step, stride};
use std::alloc::{AllocError, Global};
use std::marker::Model;

/// How many bytes a frame that comes in has at most.
const MOST_BYTES: usize = 320;

/// Cuts a stream of bytes into frames (FIX 4.4; docs/PROFILE.md, "Frames"). It holds the bytes of the message
/// under way. What it holds after a fault means nothing.
#[derive(Drop)]
pub struct Framer {
    bytes: Vec<u8>,
    stage: Stage,
}

impl Model for Framer {
    ghost use Rattle.fix_frame.specs.Framing.{Framing};

    ghost Value = { Framing };

    ghost use Rattle.std.specs.Prelude.{◌≤◌};
    ghost use Rattle.std.specs.Vec.{vec_capacity};
    ghost use Rattle.fix_frame.specs.Stages.{framing, IsAtStage};

    ghost view = { λ f. framing f.stage f.bytes.items };

    ghost invariant = { λ f. IsAtStage f.stage f.bytes.items × (320 ≤ vec_capacity f.bytes) };
}

impl Framer {
    /// A framer at the start of a stream. All the memory that it ever takes is taken here.
    pub fn new(alloc: Global) -> Result<Framer, AllocError>
        ensures { IfOk result (λ framer. framer ≡ fresh) }
    {
        Ok(Framer {
            bytes: Vec::with_capacity(alloc, MOST_BYTES)?,
            stage: Stage::Given,
        })
    }

    /// Takes the piece, or its front up to the end of the frame under way, and answers how many bytes it took:
    /// none while a frame stands that `next` hasn't given. The fault of a stream is answered until `reset`.
    pub fn feed(&mut self, piece: &[u8]) -> Result<usize, FrameFault> // promise 1
        ensures taken { IfOk result (TakesPiece self.old self.new piece.now) }
        ensures refused { IfErr result (Refuses self.old self.new piece.now) }
        ensures until_reset { (f : FrameFault) → self.old.fault ≡ Some f → result ≡ Err f }
    {
        if let Some(fault) = self.fault() {
            return Err(fault);
        }
        let mut taken = 0;
        while taken < piece.len() {
            if self.is_whole() {
                return Ok(taken);
            }
            taken += self.take(&piece[taken..])?;
        }
        Ok(taken)
    }

    /// The frame that stands, if one does. The next `feed` begins another message.
    pub fn next(&mut self) -> Option<Frame<'_>> // promise 1
        ensures* after { sem 𝓛 (EndsGiven self.entry result) }
        ensures found { MatchOption result (IsWhole self.old.held → ⊥)
            (λ frame. IsFrame most_in self.old.held (frame_fields frame)) }
    {
        let Stage::Whole(body) = self.stage else {
            return None;
        };
        self.stage = Stage::Given;
        Some(Frame::at(self.bytes.as_slice(), body))
    }

    /// Forgets all bytes, and the fault.
    pub fn reset(&mut self)
        ensures { self.new ≡ fresh }
    {
        self.bytes.clear();
        self.stage = Stage::Head(0);
    }

    /// The fault that was answered.
    fn fault(&self) -> Option<FrameFault>
        ensures value { result ≡ self.now.fault }
        ensures judged { self.now.fault ≡ None → IsJudged self.now.held }
    {
        match self.stage {
            Stage::Faulty(fault) => Some(fault),
            Stage::Head(_) | Stage::Rest(..) | Stage::Whole(_) | Stage::Given => None,
        }
    }

    /// Whether a frame stands that `next` hasn't given.
    fn is_whole(&self) -> bool
        ensures { MatchBool result (IsWhole self.now.held) (BeginsNoFrame self.now.held) }
    {
        matches!(self.stage, Stage::Whole(_))
    }

    /// Takes bytes from the front of these, while no frame stands, and answers how many.
    fn take(&mut self, more: &[u8]) -> Result<usize, FrameFault>
        requires right { self.old.fault ≡ None }
        requires partial { BeginsNoFrame self.old.held }
        requires some { 0 < length more.now }
        ensures ok { IfOk result (TakesFront self.old self.new more.now) }
        ensures err { IfErr result (λ f. self.new ≡ failed f) }
        ensures wrong { IfErr result (FaultsFront self.old.held more.now) }
    {
        let begun = started(self.stage, &mut self.bytes);
        let (stage, count) = stride(begun, self.bytes.as_slice(), more);
        self.bytes.extend_from_slice(&more[..count]).unwrap();
        match step(stage, self.bytes.as_slice()) {
            Ok(next) => {
                self.stage = next;
                Ok(count)
            }
            Err(fault) => {
                self.stage = Stage::Faulty(fault);
                Err(fault)
            }
        }
    }
}

/// The stage at which the next byte finds a message: a new one, once a frame was given.
fn started(stage: Stage, bytes: &mut Vec<u8>) -> Stage
    requires { IsReady stage bytes.old.items }
    ensures under_way { IsUnderWay result bytes.new.items }
    ensures held { bytes.new.items ≡ (framing stage bytes.old.items).held }
    ensures room { vec_capacity bytes.new ≡ vec_capacity bytes.old }
{
    let Stage::Given = stage else {
        return stage;
    };
    bytes.clear();
    Stage::Head(0)
}

//! A frame, borrowed from its bytes: what the framer gives, and what a message is when it is read again.
ghost use Rattle.fix_frame.specs.Runs.{IsFramed};
ghost use Rattle.fix_frame.specs.OneProof.{IsFramed-prop};

use crate::body::Body;
use crate::field::Fields;
use crate::trailer::TRAILER;

/// A frame that came in (FIX 4.4; docs/PROFILE.md, "Frames"): its bytes, and the fields of its body. These
/// are all fields but BeginString (8), BodyLength (9) and CheckSum (10), and MsgType (35) is the first.
#[derive(Clone, Copy, Debug)]
pub struct Frame<'a> {
    text: &'a [u8],
    body: &'a [u8],
    ghost framed: { IsFramed text.now body.now } by { IsFramed-prop text.now body.now },
}

impl<'a> Frame<'a> {
    ghost use Rattle.std.specs.Prelude.{◌≡◌, ◌≤◌, length};
    ghost use Rattle.fix_frame.specs.Grammar.{frame_text, IsBody, most_in, fields_of};
    ghost use Rattle.fix_frame.specs.Borrowed.{frame_fields, fields_left};
    ghost use Rattle.fix_frame.specs.Stages.{IsStanding, body_part};
    ghost use Rattle.fix_frame.specs.Bodies.{bytes_left, fields_in};
    ghost use Rattle.fix_frame.specs.Runs.{IsRun};

    /// The frame that these bytes are, where its body begins at `body`.
    pub(crate) fn at(text: &'a [u8], body: usize) -> Frame<'a>
        requires { IsStanding text.now body }
        ensures { frame_fields result ≡ fields_of (body_part text.now body) }
    {
        Frame {
            text,
            body: &text[body..text.len() - TRAILER],
        }
    }

    /// The frame that these bytes are, of this body.
    pub(crate) fn of(text: &'a [u8], body: &'a [u8]) -> Frame<'a>
        requires { IsFramed text.now body.now }
        ensures { frame_fields result ≡ fields_of body.now }
    {
        Frame { text, body }
    }

    /// All its bytes, 26 to 320 of them.
    pub fn text(&self) -> &'a [u8]
        ensures value { result.now ≡ frame_text (frame_fields self.now) }
        ensures body { IsBody most_in (frame_fields self.now) }
    {
        self.text
    }

    /// The fields of its body, in order.
    #[tactic(auto, using(crate::proofs::FieldsOf::few_of_body))]
    pub fn fields(&self) -> Fields<'a>
        ensures value { fields_left result ≡ frame_fields self.now }
        ensures body { IsBody most_in (frame_fields self.now) }
        ensures few { length (frame_fields self.now) ≤ 74 }
    {
        Fields { rest: self.body }
    }
    /// The same, to be read once.
    pub fn body(&self) -> Body<'a>
        ensures run { IsRun (bytes_left result) }
        ensures fields { fields_in result ≡ frame_fields self.now }
        ensures few { length (bytes_left result) ≤ most_in }
    {
        Body { rest: self.body }
    }
}

//! The body of a message, read once: a message's frame is judged but for the fields of its body, and these are judged
//! as they are read.
ghost use Rattle.std.specs.Prelude.{◌<◌, length};
ghost use Rattle.fix_frame.specs.Cuts.{EndsInSoh};
ghost use Rattle.fix_frame.specs.OneProof.{Ends-prop};

use crate::field::{Field, Fields, read_field, read_sized};

/// The bytes of a body from some field on. Whether they are a run of fields shows as they are read: then they are used
/// up.
#[derive(Clone, Copy, Debug)]
pub struct Body<'a> {
    pub(crate) rest: &'a [u8],
    ghost ends: { 0 < length rest.now → EndsInSoh rest.now } by { Ends-prop rest.now },
}

impl<'a> Body<'a> {
    ghost use Rattle.std.specs.Prelude.{◌≡◌, ◌↔◌, [], None, IfSome, MatchOption, IsTrue};
    ghost use Rattle.fix_frame.specs.Fields.{as_field, sized};
    ghost use Rattle.fix_frame.specs.Grammar.{LacksSoh};
    ghost use Rattle.fix_frame.specs.Runs.{IsRun};
    ghost use Rattle.fix_frame.specs.Bodies.{bytes_left, fields_in, TakesOff, EndsBody};
    ghost use Rattle.fix_frame.specs.Borrowed.{fields_left};

    /// The next field, where the bytes begin with one.
    #[inline(always)]
    pub fn next(&mut self) -> Option<Field<'a>>
        ensures { MatchOption result (EndsBody self.old self.new) (λ field. TakesOff self.old self.new (as_field field)) }
    {
        if self.rest.is_empty() {
            return None;
        }
        let (field, rest) = read_field(self.rest)?;
        self.rest = rest;
        Some(field)
    }

    /// The value of the next field, where that has this tag and a value of so many bytes, whose end isn't looked for.
    /// So SOH may stand within what is answered: then no field was taken off.
    #[inline(always)]
    pub fn next_sized(&mut self, tag: u32, size: usize) -> Option<&'a [u8]>
        requires some { 0 < size }
        ensures none { result ≡ None → self.new ≡ self.old }
        ensures size { IfSome result (λ v. length v.now ≡ size) }
        ensures field { IfSome result (λ v. LacksSoh v.now → TakesOff self.old self.new (sized tag v.now)) }
    {
        if self.rest.is_empty() {
            return None;
        }
        let (value, behind) = read_sized(self.rest, tag, size)?;
        self.rest = behind;
        Some(value)
    }

    /// Whether the bytes are used up.
    pub fn is_over(&self) -> bool
        ensures { IsTrue result ↔ (bytes_left self.now ≡ []) }
    {
        self.rest.is_empty()
    }

    /// Its fields, where they are known to be a run.
    pub fn fields(&self) -> Fields<'a>
        requires { IsRun (bytes_left self.now) }
        ensures { fields_left result ≡ fields_in self.now }
    {
        Fields { rest: self.rest }
    }
}

impl<'a> Fields<'a> {
    ghost use Rattle.std.specs.Prelude.{◌≡◌};
    ghost use Rattle.fix_frame.specs.Runs.{IsRun};
    ghost use Rattle.fix_frame.specs.Bodies.{bytes_left, fields_in};
    ghost use Rattle.fix_frame.specs.Borrowed.{fields_left};

    /// The bytes that spell them.
    pub fn body(&self) -> Body<'a>
        ensures run { IsRun (bytes_left result) }
        ensures fields { fields_in result ≡ fields_left self.now }
    {
        Body { rest: self.rest }
    }
}

//! The framer of the edge for programs in C and C++ (`edge/src/framer.h` declares it): one call, which keeps nothing.
#![tactic(auto)]

ghost use Rattle.std.specs.Prelude.{◌≡◌, length};
ghost use Rattle.edge_frames_c.specs.Sights.{sight_of, message_sight, TellsFound};

use edge_frames::{FieldPlace, Found, Message, Verdict, look};
use std::mem::size_of;

/// What a look finds, as C has it.
#[repr(C)]
#[derive(Clone, Copy, Debug)]
pub struct Sight {
    /// 0: no message yet; 1: a message that is taken; 2: one that is refused for a field.
    pub kind: u32,
    /// Of a message that is refused: SessionRejectReason (373), which is 0, 4, 5, 6 or 99. Else 0.
    pub reason: u32,
    /// How many bytes are passed over, in front of the message, or for good where none has come.
    pub passed: usize,
    /// How many bytes the message has; 0 where none has come.
    pub size: usize,
    /// How many of its fields are listed.
    pub fields: usize,
    /// Of a message that is refused: how many fields of its body stand before that for which it is. Else 0.
    pub field: usize,
}

/// C has these two as they are here.
const _: () = prove!(size_of::<FieldPlace>() == 12);

const _: () = prove!(size_of::<Sight>() == 40);

/// Looks for the first message of at most `longest` bytes, as `edge_frames::look` does. It needs no memory and can't
/// fail. C lends `bytes` and `places`, each a pointer that isn't null and a count, and `sight`; none of them overlap.
#[unsafe(no_mangle)]
pub extern "C" fn edge_frames_look(
    bytes: &[u8],
    longest: usize,
    places: &mut [FieldPlace],
    sight: &mut Sight,
)
    ensures { TellsFound longest bytes.now (length places.old) places.new sight.new }
{
    *sight = sight_of(look(bytes, longest, places));
}

/// What was found, as C has it.
fn sight_of(found: Found) -> Sight
    ensures { result ≡ sight_of found }
{
    match found {
        Found::Waits(passed) => Sight {
            kind: 0,
            reason: 0,
            passed,
            size: 0,
            fields: 0,
            field: 0,
        },
        Found::Comes(passed, message) => message_sight(passed, message),
    }
}

/// The same of a message.
fn message_sight(passed: usize, message: Message) -> Sight
    ensures { result ≡ message_sight passed message }
{
    let Message { size, fields, .. } = message;
    match message.verdict {
        Verdict::Taken => Sight {
            kind: 1,
            reason: 0,
            passed,
            size,
            fields,
            field: 0,
        },
        Verdict::Refused(fault) => Sight {
            kind: 2,
            reason: fault.reason.number(),
            passed,
            size,
            fields,
            field: fault.field,
        },
        Verdict::Garbled => Sight {
            kind: 0,
            reason: 0,
            passed,
            size,
            fields,
            field: 0,
        },
    }
}

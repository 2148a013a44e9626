//! Where the fields of a message stand.
ghost use Rattle.std.specs.Prelude.{◌≡◌, ◌≤◌, ◌<◌, ◌+◌, ◌^◌, length, take, drop, slice_range};
ghost use Rattle.edge_frames.specs.Fields.{piece_field};
ghost use Rattle.edge_frames.specs.Lists.{ListsFields, field_at};

use crate::piece::{split, tag_of, value_at};

/// Where a field of a message stands.
#[repr(C)]
#[derive(Clone, Copy, Debug, PartialEq, Eq)]
pub struct FieldPlace {
    /// 1 to 99,999; 0 where the field's digits are no tag.
    pub tag: u32,
    /// How many bytes of the message stand before its value.
    pub at: u32,
    /// How many bytes its value has.
    pub len: u32,
}

/// Writes where the fields of a body stand in its text, as many as there is room for, and answers how many.
pub(crate) fn list(text: &[u8], at: usize, end: usize, places: &mut [FieldPlace]) -> usize
    requires order { at ≤ end }
    requires within { end ≤ length text.now }
    requires short { length text.now < 2 ^ 32 }
    ensures { ListsFields text.now (slice_range text.now at end) (length places.old) places.new result }
{
    let mut from = at;
    let mut count = 0;
    while count < places.len() {
        let Some((piece, _)) = split(&text[from..end]) else {
            return count;
        };
        places[count] = place_of(text, piece, from);
        from += piece.len() + 1;
        count += 1;
    }
    count
}

/// Where the field stands that begins at `from`.
fn place_of(text: &[u8], piece: &[u8], from: usize) -> FieldPlace
    requires there { take (length piece.now) (drop from text.now) ≡ piece.now }
    requires within { from + length piece.now ≤ length text.now }
    requires short { length text.now < 2 ^ 32 }
    ensures { field_at text.now result ≡ piece_field piece.now }
{
    let skip = value_at(piece);
    FieldPlace {
        tag: tag_of(piece),
        at: (from + skip) as u32,
        len: (piece.len() - skip) as u32,
    }
}

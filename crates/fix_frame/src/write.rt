//! Frames that are written: the last thing that happens to a message on its way out.
ghost use Rattle.std.specs.Prelude.{◌≡◌, ℕ, ◌+◌, ◌<◌, ◌≤◌, List, [], ◌∷◌, ◌++◌, length, take, drop};
ghost use Rattle.std.specs.Fmt.{decimal};
ghost use Rattle.fix_frame.specs.Grammar.{Field, IsBody, IsFrame, frame_of, print_fields, most_out};
ghost use Rattle.fix_frame.specs.Writing.{SpellsBody, PutsBytes};

use crate::field::SOH;
use crate::head::OPENING;
use crate::trailer::{three_digits, trailer_of};

/// How many bytes BeginString, BodyLength and CheckSum have together at most.
pub const OVERHEAD: usize = 23;

/// Writes the frame of these body fields, each as `tag=value` and SOH, at the front of `out`, and answers how
/// many bytes it has.
pub fn write_frame(out: &mut [u8], fields: &[u8]) -> usize // promise 1
    requires body { (fs : List Field) × SpellsBody most_out fs fields.now }
    requires room { length fields.now + OVERHEAD ≤ length out.old }
    ensures written { take result out.new ≡ frame_of fields.now }
    ensures frame { (fs : List Field) → SpellsBody most_out fs fields.now →
        IsFrame most_out (take result out.new) fs }
    ensures rest { drop result out.new ≡ drop result out.old }
    ensures within { result ≤ length out.new }
{
    let begun = put(out, 0, OPENING);
    let counted = put_length(out, begun, fields.len());
    let headed = put(out, counted, &[SOH]);
    let summed = put(out, headed, fields);
    let trailer = trailer_of(&out[..summed]);
    put(out, summed, &trailer)
}

/// Writes the bytes from a place on, and answers the place behind them.
fn put(out: &mut [u8], at: usize, bytes: &[u8]) -> usize
    requires { at + length bytes.now ≤ length out.old }
    ensures { PutsBytes out.old out.new at bytes.now result }
{
    let end = at + bytes.len();
    out[at..end].copy_from_slice(bytes);
    end
}

/// The same for a length in decimal digits.
fn put_length(out: &mut [u8], at: usize, count: usize) -> usize
    requires small { count < 1000 }
    requires room { at + 3 ≤ length out.old }
    ensures { PutsBytes out.old out.new at (decimal count) result }
{
    let digits = three_digits(count as u16);
    if count < 10 {
        return put(out, at, &digits[2..]);
    }
    if count < 100 {
        return put(out, at, &digits[1..]);
    }
    put(out, at, &digits)
}

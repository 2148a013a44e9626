//! Fields, tag=value and SOH: what a body is made of, read where it lies.
ghost use Rattle.std.specs.Prelude.{◌≡◌, ◌<◌, ◌+◌, ◌++◌, ◌∷◌, length, take, drop, IfSome, MatchOption, IsTrue, ◌↔◌};
ghost use Rattle.fix_frame.specs.Ascii.{soh, equals_sign};
ghost use Rattle.fix_frame.specs.Cuts.{Lacks, EndsInSoh, BeginsNoField, BeginsField, IsTag, BeginsNoTag};
ghost use Rattle.fix_frame.specs.Runs.{IsRun};
ghost use Rattle.fix_frame.specs.Fields.{as_field, sized};
ghost use Rattle.fix_frame.specs.OneProof.{IsRun-prop};
ghost use Rattle.std.specs.Fmt.{decimal};

/// The byte that ends each field.
pub(crate) const SOH: u8 = 1;

/// A field, borrowed from the bytes that spell it (FIX 4.4, volume 1, "Message Format"; docs/PROFILE.md,
/// "Frames").
#[derive(Clone, Copy, Debug, PartialEq, Eq)]
pub struct Field<'a> {
    /// 1 to 99,999.
    pub tag: u32,
    /// One byte or more, none of them SOH.
    pub value: &'a [u8],
}

/// The fields of a run, from the first on, borrowed from the bytes that spell them.
#[derive(Clone, Copy, Debug)]
pub struct Fields<'a> {
    pub(crate) rest: &'a [u8],
    ghost run: { IsRun rest.now } by { IsRun-prop rest.now },
}

impl<'a> Iterator for Fields<'a> {
    ghost use Rattle.std.specs.Iterator.{YieldsFirstBy, item_count};
    ghost use Rattle.fix_frame.specs.Fields.{as_field};
    ghost use Rattle.fix_frame.specs.Borrowed.{fields_left};

    type Item = Field<'a>;

    ghost next_gives = { YieldsFirstBy as_field fields_left };

    ghost remaining = { item_count fields_left };

    #[inline(always)]
    fn next(&mut self) -> Option<Field<'a>> {
        if self.rest.is_empty() {
            return None;
        }
        let (field, rest) = read_field(self.rest)?;
        self.rest = rest;
        Some(field)
    }
}

/// How many bytes stand before the first SOH. Two are looked at a turn: values are short, and this is where a message's
/// bytes are read one by one.
fn find_soh(bytes: &[u8]) -> usize
    requires { EndsInSoh bytes.now }
    ensures within { result < length bytes.now }
    ensures lacks { Lacks soh (take result bytes.now) }
    ensures ends { bytes.now ≡ take result bytes.now ++ soh ∷ drop (result + 1) bytes.now }
{
    let mut at = 0;
    while bytes[at] != SOH {
        if bytes[at + 1] == SOH {
            return at + 1;
        }
        at += 2;
    }
    at
}

/// The field at the front, and the bytes behind it.
pub(crate) fn read_field(bytes: &[u8]) -> Option<(Field<'_>, &[u8])>
    requires { EndsInSoh bytes.now }
    ensures { MatchOption result (BeginsNoField bytes.now)
        (λ p. BeginsField bytes.now (as_field p.0) p.1.now) }
{
    let (tag, behind) = read_tag(bytes)?;
    let end = find_soh(behind);
    if end == 0 {
        return None;
    }
    let value = &behind[..end];
    Some((Field { tag, value }, &behind[end + 1..]))
}

/// The value of the field at the front and the bytes behind, where the field has this tag and SOH stands behind so many
/// bytes of the value. Whether SOH stands within these isn't looked at.
#[inline(always)]
pub(crate) fn read_sized(bytes: &[u8], tag: u32, size: usize) -> Option<(&[u8], &[u8])>
    requires ends { EndsInSoh bytes.now }
    requires some { 0 < size }
    ensures size { IfSome result (λ p. length p.0.now ≡ size) }
    ensures ends { IfSome result (λ p. 0 < length p.1.now → EndsInSoh p.1.now) }
    ensures field { IfSome result (λ p. Lacks soh p.0.now → BeginsField bytes.now (sized tag p.0.now) p.1.now) }
{
    let (found, behind) = read_tag(bytes)?;
    if found != tag || behind.len() <= size || behind[size] != SOH {
        return None;
    }
    Some((&behind[..size], &behind[size + 1..]))
}

/// Whether the bytes, none or such as SOH ends, are a run of fields.
pub(crate) fn is_run(bytes: &[u8]) -> bool
    requires { 0 < length bytes.now → EndsInSoh bytes.now }
    ensures { IsTrue result ↔ IsRun bytes.now }
{
    let mut rest = bytes;
    while !rest.is_empty() {
        let Some((_, behind)) = read_field(rest) else {
            return false;
        };
        rest = behind;
    }
    true
}

/// The greatest tag that has room for another digit.
const MOST_FRONT: u32 = 9_999;

/// What the bytes of two digits add up to above their number.
const TWO_ZEROS: u32 = 528;

/// The tag at the front, 1 to 99,999 and no zero in front, and what stands behind its equals sign. Almost all tags
/// have two digits, which are read without a loop.
#[inline(always)]
fn read_tag(bytes: &[u8]) -> Option<(u32, &[u8])>
    requires { EndsInSoh bytes.now }
    ensures { MatchOption result (BeginsNoTag bytes.now)
        (λ p. IsTag p.0 × (bytes.now ≡ decimal p.0 ++ equals_sign ∷ p.1.now)) }
{
    match bytes {
        [tens @ b'1'..=b'9', ones @ b'0'..=b'9', b'=', behind @ ..] => {
            let tag = u32::from(*tens) * 10 + u32::from(*ones) - TWO_ZEROS;
            Some((tag, behind))
        }
        _ => read_any_tag(bytes),
    }
}

/// The same, however many digits there are. The SOH at the end is where the search for the sign ends.
fn read_any_tag(bytes: &[u8]) -> Option<(u32, &[u8])>
    requires { EndsInSoh bytes.now }
    ensures { MatchOption result (BeginsNoTag bytes.now)
        (λ p. IsTag p.0 × (bytes.now ≡ decimal p.0 ++ equals_sign ∷ p.1.now)) }
{
    if bytes[0] < b'1' || b'9' < bytes[0] {
        return None;
    }
    let mut tag = 0;
    let mut at = 0;
    while bytes[at] != b'=' {
        let byte = bytes[at];
        if !byte.is_ascii_digit() {
            return None;
        }
        if tag > MOST_FRONT {
            return None;
        }
        tag = tag * 10 + u32::from(byte - b'0');
        at += 1;
    }
    Some((tag, &bytes[at + 1..]))
}

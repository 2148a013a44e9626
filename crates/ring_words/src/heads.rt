//! What stands in the words of a row: the head of a message in the input ring, the head of a text in the output ring,
//! and behind either its bytes.
ghost use Rattle.std.specs.Prelude.{◌≡◌, ◌+◌, ◌*◌, ◌/◌, ◌<◌, ◌≤◌, length};
ghost use Rattle.venue_model.specs.History.{Message};
ghost use Rattle.ring_words.specs.Log.{IsEntry};
ghost use Rattle.ring_words.specs.Raw.{raw_word, eight};
ghost use Rattle.venue_model.specs.Texts.{Text};
ghost use Rattle.ring_words.specs.Texts.{output_type_number, text_head, IsPackableText};
ghost use Rattle.std.specs.Int.{from_be_bytes};
ghost use mir.Syntax.{w64};

use venue_model::OutputType;

/// The word is the gateway's number times this, plus the length in bytes.
const GATEWAY: u64 = 65_536;

/// Whose message stands in a row, and its length in bytes.
#[derive(Clone, Copy, Debug, PartialEq, Eq)]
pub struct Raw {
    /// 1 to 8.
    pub gateway: u8,
    /// 1 to 320.
    pub len: usize,
}

impl Raw {
    /// The head as raw word 0 of its row.
    pub fn to_word(self) -> u64
        requires most { self.len ≤ 320 }
        ensures { result ≡ self.gateway * 65536 + self.len }
    {
        u64::from(self.gateway) * GATEWAY + self.len as u64
    }

    /// The head that was put into this raw word 0.
    pub fn from_word(word: u64) -> Raw
        requires gateway { word / 65536 < 256 }
        ensures gateway { (e : Message) → IsEntry e → word ≡ raw_word e 0 → result.gateway ≡ e.gateway }
        ensures len { (e : Message) → IsEntry e → word ≡ raw_word e 0 → result.len ≡ length e.bytes }
    {
        Raw {
            gateway: (word / GATEWAY) as u8,
            len: (word % GATEWAY) as usize,
        }
    }
}

/// The word is the length in bytes times this, plus the number of the type.
const LENGTH: u64 = 4;

/// MsgType of a text, and the length of its body in bytes.
#[derive(Clone, Copy, Debug, PartialEq, Eq)]
pub struct TextHead {
    pub msg_type: OutputType,
    /// At most 320.
    pub len: usize,
}

impl TextHead {
    /// The head as text word 0 of its row.
    pub fn to_word(self) -> u64
        requires most { self.len ≤ 320 }
        ensures { result ≡ output_type_number self.msg_type + 4 * self.len }
    {
        let number = match self.msg_type {
            OutputType::ExecutionReport => 0,
            OutputType::OrderCancelReject => 1,
            OutputType::Reject => 2,
        };
        number + LENGTH * self.len as u64
    }

    /// The head that was put into this text word 0.
    pub fn from_word(word: u64) -> TextHead
        ensures msg_type { (t : Text) → IsPackableText t → word ≡ text_head t → result.msg_type ≡ t.msg_type }
        ensures len { (t : Text) → IsPackableText t → word ≡ text_head t → result.len ≡ length t.body }
    {
        let msg_type = match word % LENGTH {
            0 => OutputType::ExecutionReport,
            1 => OutputType::OrderCancelReject,
            _ => OutputType::Reject,
        };
        TextHead {
            msg_type,
            len: (word / LENGTH) as usize,
        }
    }
}

/// The last word of some bytes, where fewer than eight are left: they are filled up with zeros.
fn padded(rest: &[u8]) -> u64
    requires { length rest.now < 8 }
    ensures { result ≡ from_be_bytes w64 (eight rest.now 0) }
{
    let mut word = [0; 8];
    word[..rest.len()].copy_from_slice(rest);
    u64::from_be_bytes(word)
}

/// The word `index` of these bytes, eight a word, big-endian.
pub fn word_at(bytes: &[u8], index: usize) -> u64
    requires { 8 * index < length bytes.now }
    ensures { result ≡ from_be_bytes w64 (eight bytes.now index) }
{
    let rest = &bytes[8 * index..];
    match rest.first_chunk() {
        Some(whole) => u64::from_be_bytes(*whole),
        None => padded(rest),
    }
}

/// The same where all eight bytes of it are there.
#[inline(always)]
pub fn whole_word_at(bytes: &[u8], index: usize) -> u64
    requires { 8 * index + 8 ≤ length bytes.now }
    ensures { result ≡ from_be_bytes w64 (eight bytes.now index) }
{
    word_at(&bytes[8 * index..8 * index + 8], 0)
}

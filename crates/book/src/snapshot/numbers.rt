//! Numbers of one to eight bytes, big-endian.
ghost use Rattle.std.specs.Prelude.{◌≡◌, ◌+◌, ◌≤◌, length};
ghost use Rattle.fix_orders.specs.Writing.{Puts};
ghost use Rattle.book.specs.Rows.{number_bytes};

use fix_orders::put_bytes;

/// Writes a number of eight bytes from `at` on, and answers where they end.
#[tactic(auto, unfolding(crate::specs::Rows::number_bytes))]
pub(crate) fn put_eight(buf: &mut [u8], at: usize, n: u64) -> usize
    requires { at + 8 ≤ length buf.old }
    ensures puts { Puts buf.old buf.new at result (number_bytes 8 n) }
    ensures long { result ≡ at + 8 }
{
    put_bytes(buf, at, &n.to_be_bytes())
}

/// The same of four bytes.
#[tactic(auto, unfolding(crate::specs::Rows::number_bytes))]
pub(crate) fn put_four(buf: &mut [u8], at: usize, n: u32) -> usize
    requires { at + 4 ≤ length buf.old }
    ensures puts { Puts buf.old buf.new at result (number_bytes 4 n) }
    ensures long { result ≡ at + 4 }
{
    put_bytes(buf, at, &n.to_be_bytes())
}

/// The same of two bytes.
#[tactic(auto, unfolding(crate::specs::Rows::number_bytes))]
pub(crate) fn put_two(buf: &mut [u8], at: usize, n: u16) -> usize
    requires { at + 2 ≤ length buf.old }
    ensures puts { Puts buf.old buf.new at result (number_bytes 2 n) }
    ensures long { result ≡ at + 2 }
{
    put_bytes(buf, at, &n.to_be_bytes())
}

/// The same of one byte.
#[tactic(auto, unfolding(crate::specs::Rows::number_bytes))]
pub(crate) fn put_one(buf: &mut [u8], at: usize, n: u8) -> usize
    requires { at + 1 ≤ length buf.old }
    ensures puts { Puts buf.old buf.new at result (number_bytes 1 n) }
    ensures long { result ≡ at + 1 }
{
    put_bytes(buf, at, &n.to_be_bytes())
}

/// The number that eight bytes spell.
pub(crate) fn eight(bytes: &[u8]) -> u64
    requires { length bytes.now ≡ 8 }
    ensures { number_bytes 8 result ≡ bytes.now }
{
    match bytes.first_chunk() {
        Some(all) => u64::from_be_bytes(*all),
        None => 0,
    }
}

/// The number that four bytes spell.
pub(crate) fn four(bytes: &[u8]) -> u32
    requires { length bytes.now ≡ 4 }
    ensures { number_bytes 4 result ≡ bytes.now }
{
    match bytes.first_chunk() {
        Some(all) => u32::from_be_bytes(*all),
        None => 0,
    }
}

/// The number that two bytes spell.
pub(crate) fn two(bytes: &[u8]) -> u16
    requires { length bytes.now ≡ 2 }
    ensures { number_bytes 2 result ≡ bytes.now }
{
    match bytes.first_chunk() {
        Some(all) => u16::from_be_bytes(*all),
        None => 0,
    }
}

/// The number that one byte spells.
pub(crate) fn one(bytes: &[u8]) -> u8
    requires { length bytes.now ≡ 1 }
    ensures { number_bytes 1 result ≡ bytes.now }
{
    bytes[0]
}

// Numbers in two, three and four bytes, high byte first, and in two, low byte first: read, and put over what stands there.
// Kept: a function for each width, since each is one call of the library.
ghost use Rattle.std.specs.Prelude.{◌≡◌, ◌+◌, ◌*◌, ◌/◌, ◌%◌, ◌<◌, ◌≤◌, [], ◌∷◌, length, slice_index};
ghost use Rattle.octets.specs.Numbers.{number_at, bytes_of};
ghost use Rattle.octets.specs.Pastes.{pasted};

use crate::pastes::paste;

// Two bytes, the low one first, as most machines have them: where only their sum counts, they need no swap.
pub fn low_first(s: &[u8], at: usize) -> u16
    requires { at + 2 ≤ length s.now }
    ensures number { result ≡ slice_index s.now at + slice_index s.now (at + 1) * 256 }
    ensures bytes { (result % 256 ≡ slice_index s.now at) × (result / 256 ≡ slice_index s.now (at + 1)) }
{
    u16::from_le_bytes([s[at], s[at + 1]])
}

// A word with its two bytes exchanged.
pub fn swapped(v: u16) -> u16
    ensures { result ≡ v % 256 * 256 + v / 256 }
{
    v.swap_bytes()
}

pub fn be16(s: &[u8], at: usize) -> u16
    requires { at + 2 ≤ length s.now }
    ensures { result ≡ number_at s.now at 2 }
{
    u16::from_be_bytes([s[at], s[at + 1]])
}

pub fn be24(s: &[u8], at: usize) -> u32
    requires { at + 3 ≤ length s.now }
    ensures { (result ≡ number_at s.now at 3) × (result < 16777216) }
{
    u32::from_be_bytes([0, s[at], s[at + 1], s[at + 2]])
}

pub fn be32(s: &[u8], at: usize) -> u32
    requires { at + 4 ≤ length s.now }
    ensures { result ≡ number_at s.now at 4 }
{
    u32::from_be_bytes([s[at], s[at + 1], s[at + 2], s[at + 3]])
}

pub fn put16(s: &mut [u8], at: usize, v: u16)
    requires { at + 2 ≤ length s.old }
    ensures { s.new ≡ pasted s.old at (bytes_of 2 v) }
{
    paste(s, at, &v.to_be_bytes());
}

// The low three bytes of a number.
pub fn put24(s: &mut [u8], at: usize, v: u32)
    requires { at + 3 ≤ length s.old }
    ensures { s.new ≡ pasted s.old at (bytes_of 3 v) }
{
    paste(s, at, &v.to_be_bytes()[1..]);
}

pub fn put32(s: &mut [u8], at: usize, v: u32)
    requires { at + 4 ≤ length s.old }
    ensures { s.new ≡ pasted s.old at (bytes_of 4 v) }
{
    paste(s, at, &v.to_be_bytes()[..]);
}

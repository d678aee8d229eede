//! Single fields of the records, and the strings that they name. Numbers are little-endian.
ghost use Rattle.std.specs.Prelude.{◌≡◌, ◌≤◌, ◌<◌, ◌+◌, ◌↔◌, length, take, IsTrue};
ghost use Rattle.hwdb_spec.specs.Format.{number_at, text_at, IsPlace};

use crate::frame::Frame;
use byteorder::{ByteOrder, LittleEndian};
use memchr::memchr;

/// The number in the eight bytes at `i`.
#[tactic(auto, unfolding(hwdb_spec::specs::Format::number_at))]
pub fn u64_at(b: &[u8], i: usize) -> usize
    requires { i + 8 ≤ length b.now }
    ensures { result ≡ number_at 8 i b.now }
{
    LittleEndian::read_u64(&b[i..]) as usize
}

/// The number in the two bytes at `i`.
#[tactic(auto, unfolding(hwdb_spec::specs::Format::number_at))]
pub fn u16_at(b: &[u8], i: usize) -> u16
    requires { i + 2 ≤ length b.now }
    ensures { result ≡ number_at 2 i b.now }
{
    LittleEndian::read_u16(&b[i..])
}

/// The number in the four bytes at `i`.
#[tactic(auto, unfolding(hwdb_spec::specs::Format::number_at))]
pub fn u32_at(b: &[u8], i: usize) -> u32
    requires { i + 4 ≤ length b.now }
    ensures { result ≡ number_at 4 i b.now }
{
    LittleEndian::read_u32(&b[i..])
}

/// The string at `i`: up to the next byte 0.
#[tactic(auto, unfolding(hwdb_spec::specs::Format::text_at))]
pub fn text(b: &[u8], i: usize) -> &[u8]
    requires { i < length b.now }
    ensures { result.now ≡ text_at b.now i }
{
    let rest = &b[i..];
    match memchr(0, rest) {
        Some(n) => &rest[..n],
        None => rest,
    }
}

/// The first bytes of the string at `i`, at most so many. Reads no more than these.
#[tactic(auto, unfolding(hwdb_spec::specs::Format::text_at))]
pub fn text_front(b: &[u8], i: usize, most: usize) -> &[u8]
    requires { i ≤ length b.now }
    ensures { result.now ≡ take most (text_at b.now i) }
{
    let rest = &b[i..];
    let front = &rest[..most.min(rest.len())];
    match memchr(0, front) {
        Some(n) => &front[..n],
        None => front,
    }
}

/// Whether the offset is inside the string section. The section's last byte is 0, so a string ends there. So none is
/// scanned.
pub fn is_place(b: &[u8], f: Frame, i: usize) -> bool
    ensures { IsTrue result ↔ IsPlace f.sizes b.now i }
{
    f.sizes.strings <= i && i < b.len()
}

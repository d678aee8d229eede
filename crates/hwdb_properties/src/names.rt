//! Names that are nearly alike.
ghost use Rattle.std.specs.Prelude.{◌≡◌};
ghost use Rattle.hwdb_spec_commands.specs.Properties;

use crate::cuts::{after_one, first_one};

/// A letter of ASCII in lower case, any other byte as it is.
pub fn lower(byte: u8) -> u8
    ensures { result ≡ Properties.lower byte }
{
    if matches!(byte, b'A'..=b'Z') {
        byte + 32
    } else {
        byte
    }
}

/// Whether two texts are the same but for the case of letters.
pub fn same_letters(one: &[u8], other: &[u8]) -> bool
    ensures { result ≡ Properties.same_letters one.now other.now }
{
    let mut at = 0;
    while at < one.len() && at < other.len() {
        if lower(one[at]) != lower(other[at]) {
            return false;
        }
        at += 1;
    }
    one.len() == other.len()
}

/// Whether two texts are the same but for the order of their first two bytes.
fn same_after_swap(one: &[u8], other: &[u8]) -> bool
    ensures { result ≡ Properties.same_after_swap one.now other.now }
{
    let more = after_one(one);
    let rest = after_one(other);
    same_letters(first_one(one), first_one(rest))
        && same_letters(first_one(more), first_one(other))
        && same_letters(after_one(more), after_one(rest))
}

/// Whether two texts are the same but for their first bytes, for the first byte of one, or for the order of their first two.
fn same_after_one(one: &[u8], other: &[u8]) -> bool
    ensures { result ≡ Properties.same_after_one one.now other.now }
{
    same_letters(after_one(one), after_one(other))
        || same_letters(after_one(one), other)
        || same_letters(one, after_one(other))
        || same_after_swap(one, other)
}

/// Whether two texts differ by one byte at most, or by two that are swapped, and by the case of letters.
pub fn is_near(one: &[u8], other: &[u8]) -> bool
    ensures { result ≡ Properties.is_near one.now other.now }
{
    let mut at = 0;
    while at < one.len() && at < other.len() && lower(one[at]) == lower(other[at]) {
        at += 1;
    }
    same_after_one(&one[at..], &other[at..])
}

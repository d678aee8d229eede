//! The parts of a text before and after a byte.
ghost use Rattle.std.specs.Prelude.{◌≡◌, ◌+◌, drop, take};
ghost use Rattle.std.specs.List.{prefix_len};
ghost use Rattle.hwdb_spec.specs.Folders;
ghost use Rattle.hwdb_spec.specs.Lines.{is_indent};
ghost use Rattle.hwdb_spec_commands.specs.Properties;

use hwdb_text::{begins_with, end_of};

/// Whether two texts are the same. Most that aren't differ in length.
pub fn same(one: &[u8], other: &[u8]) -> bool
    ensures { result ≡ Folders.same one.now other.now }
{
    if one.len() != other.len() {
        return false;
    }
    one.cmp(other).is_eq()
}

/// What is before the first such byte, or the whole text.
pub fn before(byte: u8, text: &[u8]) -> &[u8]
    ensures { result.now ≡ Properties.before byte text.now }
{
    &text[..end_of(byte, text)]
}

/// What is after the first such byte, or nothing.
pub fn after(byte: u8, text: &[u8]) -> &[u8]
    ensures { result.now ≡ Properties.after byte text.now }
{
    let end = end_of(byte, text);
    if end < text.len() {
        &text[end + 1..]
    } else {
        &[]
    }
}

/// What is after the first byte.
pub fn after_one(text: &[u8]) -> &[u8]
    ensures { result.now ≡ drop 1 text.now }
{
    if text.is_empty() { text } else { &text[1..] }
}

/// Its first bytes, as many as are given; the whole text if it has no more.
pub fn front(text: &[u8], size: usize) -> &[u8]
    ensures { result.now ≡ take size text.now }
{
    if size < text.len() {
        &text[..size]
    } else {
        text
    }
}

/// The same, and one byte more.
pub fn front_and_one(text: &[u8], size: usize) -> &[u8]
    ensures { result.now ≡ take (size + 1) text.now }
{
    if size < text.len() {
        &text[..size + 1]
    } else {
        text
    }
}

/// What is after its first bytes, as many as are given.
pub fn past(text: &[u8], size: usize) -> &[u8]
    ensures { result.now ≡ drop size text.now }
{
    if size < text.len() {
        &text[size..]
    } else {
        &[]
    }
}

/// Its first byte, if it has one.
pub fn first_one(text: &[u8]) -> &[u8]
    ensures { result.now ≡ take 1 text.now }
{
    front(text, 1)
}

/// A text without its first byte, if that is the one given.
pub fn without(byte: u8, text: &[u8]) -> &[u8]
    ensures { result.now ≡ Properties.without byte text.now }
{
    if begins_with(byte, text) {
        after_one(text)
    } else {
        text
    }
}

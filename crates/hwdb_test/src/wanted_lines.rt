//! What a line of a test file wants.
ghost use Rattle.std.specs.Prelude.{◌≡◌, drop};
ghost use Rattle.hwdb_spec.specs.Folders;
ghost use Rattle.hwdb_spec.specs.Lines;
ghost use Rattle.hwdb_spec_commands.specs.Wanted;
ghost use Rattle.hwdb_test.specs.Views.{line_at};

use hwdb_properties::{after, before};
use hwdb_text::unindented;

/// A property line of a test file, without its comment.
#[derive(Clone, Copy)]
pub struct WantedLine<'b> {
    /// Its number, from 1.
    pub number: u64,
    /// Its text, with the spaces in front.
    pub text: &'b [u8],
}

/// The line without its leading spaces and tabs.
pub fn property_of<'b>(line: &WantedLine<'b>) -> &'b [u8]
    ensures { result.now ≡ Lines.property (line_at line.now) }
{
    unindented(line.text)
}

/// Whether a text has a `=`.
fn holds_equals(text: &[u8]) -> bool
    ensures { result ≡ Lines.has 61 text.now }
{
    text.iter().any(|byte| *byte == b'=')
}

/// Whether a line has a `=`.
fn has_equals(line: &WantedLine<'_>) -> bool
    ensures { result ≡ Lines.has_equals (line_at line.now) }
{
    holds_equals(property_of(line))
}

/// What is before the first `=`.
fn key_of<'b>(line: &WantedLine<'b>) -> &'b [u8]
    ensures { result.now ≡ Lines.key (line_at line.now) }
{
    before(b'=', property_of(line))
}

/// What is after the first `=`.
pub fn value_of<'b>(line: &WantedLine<'b>) -> &'b [u8]
    ensures { result.now ≡ Lines.value (line_at line.now) }
{
    after(b'=', property_of(line))
}

/// Whether a text is empty.
pub fn is_none(text: &[u8]) -> bool
    ensures { result ≡ Lines.is_none text.now }
{
    text.is_empty()
}

/// Whether a byte is before the first `=`.
fn has_key(line: &WantedLine<'_>) -> bool
    ensures { result ≡ Lines.has_key (line_at line.now) }
{
    !is_none(key_of(line))
}

/// Whether a line wants a value: it is `KEY=VALUE`.
pub fn wants_value(line: &WantedLine<'_>) -> bool
    ensures { result ≡ Wanted.wants_value (line_at line.now) }
{
    if has_equals(line) {
        has_key(line)
    } else {
        false
    }
}

/// Whether a line wants no other properties: it is `=` alone.
pub fn wants_no_others(line: &WantedLine<'_>) -> bool
    ensures { result ≡ Wanted.wants_no_others (line_at line.now) }
{
    if has_equals(line) {
        !has_key(line)
    } else {
        false
    }
}

/// A text without its first byte.
pub fn tail(text: &[u8]) -> &[u8]
    ensures { result.now ≡ drop 1 text.now }
{
    if text.is_empty() {
        return text;
    }
    &text[1..]
}

/// The key that a line speaks of.
pub fn wanted_key<'b>(line: &WantedLine<'b>) -> &'b [u8]
    ensures { result.now ≡ Wanted.wanted_key (line_at line.now) }
{
    if has_equals(line) {
        key_of(line)
    } else {
        tail(property_of(line))
    }
}

/// Whether two texts are the same.
pub fn same(a: &[u8], b: &[u8]) -> bool
    ensures { result ≡ Folders.same a.now b.now }
{
    a.cmp(b).is_eq()
}

/// Whether a line speaks of a key by its name.
pub fn names(key: &[u8], line: &WantedLine<'_>) -> bool
    ensures { result ≡ Wanted.names key.now (line_at line.now) }
{
    same(key, wanted_key(line))
}

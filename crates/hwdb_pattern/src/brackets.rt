//! Brackets, and the items in them: named classes, ranges and single bytes.
//!
//! The rules are those of POSIX.1-2017 fnmatch (XCU 2.13), over bytes. A `]` right after the `[`, or after its `!`, is
//! an ordinary item. A bracket that no `]` closes is no bracket: its `[` is an ordinary byte. That `^` inverts as `!`
//! does is our choice, since POSIX leaves it open.
ghost use Rattle.std.specs.Prelude.{◌≡◌, ◌<◌, ◌≤◌, length, true, IfSome};
ghost use Rattle.std.specs.Option.{option_map};
ghost use Rattle.hwdb_spec.specs.Patterns;
ghost use Rattle.hwdb_spec.specs.Patterns.{item_at, items_from, bracket_at};
ghost use Rattle.hwdb_pattern.specs.Internal.Parts.{bracket_size, items_part, bracket_part};

use crate::classes::{holds, named_class, text_of};

/// A part of a pattern, compared with one byte of a device.
#[derive(Clone, Copy)]
pub(crate) struct Part {
    /// How many bytes of the pattern it takes.
    pub(crate) size: usize,
    /// Whether it admits the byte.
    pub(crate) admits: bool,
}

/// The range at the beginning of the text, or its first byte if no range begins there.
fn plain_item(text: &[u8], byte: u8) -> Part
    requires { 0 < length text.now }
    ensures part { result ≡ items_part byte (Patterns.plain_item text.now) }
    ensures moves { 0 < result.size }
    ensures within { result.size ≤ length text.now }
{
    let low = text[0];
    if text.len() > 2 && text[1] == b'-' && text[2] != b']' {
        Part {
            size: 3,
            admits: low <= byte && byte <= text[2],
        }
    } else {
        Part {
            size: 1,
            admits: byte == low,
        }
    }
}

/// The item at the beginning of the text: a named class, else a range, else one byte.
pub(crate) fn item(text: &[u8], byte: u8) -> Part
    requires { 0 < length text.now }
    ensures part { result ≡ items_part byte (item_at text.now) }
    ensures moves { 0 < result.size }
    ensures within { result.size ≤ length text.now }
{
    if let Some(class) = named_class(text) {
        return Part {
            size: text_of(class).len(),
            admits: holds(class, byte),
        };
    }
    plain_item(text, byte)
}

/// The items up to and including the `]` that closes. None if no `]` closes.
fn items(text: &[u8], byte: u8) -> Option<Part>
    ensures part { result ≡ option_map (items_part byte) (items_from true 0 text.now) }
    ensures within { IfSome result (λ part. part.size ≤ length text.now) }
{
    let mut at = 0;
    let mut admits = false;
    while at < text.len() {
        if at > 0 && text[at] == b']' {
            return Some(Part {
                size: at + 1,
                admits,
            });
        }
        let next = item(&text[at..], byte);
        admits = admits || next.admits;
        at += next.size;
    }
    None
}

/// Whether the byte right after a `[` inverts the bracket.
pub(crate) fn is_inversion(byte: u8) -> bool
    ensures { result ≡ Patterns.is_inversion byte }
{
    byte == b'!' || byte == b'^'
}

/// The closed bracket at the beginning of the text, if one begins there.
pub(crate) fn bracket(text: &[u8], byte: u8) -> Option<Part>
    ensures part { result ≡ option_map (bracket_part byte) (bracket_at text.now) }
    ensures moves { IfSome result (λ part. 0 < part.size) }
    ensures within { IfSome result (λ part. part.size ≤ length text.now) }
{
    if text.len() < 2 {
        return None;
    }
    if text[0] != b'[' {
        return None;
    }
    if is_inversion(text[1]) {
        match items(&text[2..], byte) {
            Some(found) => Some(Part {
                size: 2 + found.size,
                admits: !found.admits,
            }),
            None => None,
        }
    } else {
        match items(&text[1..], byte) {
            Some(found) => Some(Part {
                size: 1 + found.size,
                admits: found.admits,
            }),
            None => None,
        }
    }
}

/// The length in bytes of the closed bracket that begins the text, both ends counted.
///
/// Answers None if the text doesn't begin with `[`, or if no `]` closes that bracket. Reads each byte a fixed number of
/// times, and takes no memory.
pub fn bracket_end(text: &[u8]) -> Option<usize>
    ensures { result ≡ option_map bracket_size (bracket_at text.now) }
{
    match bracket(text, 0) {
        Some(found) => Some(found.size),
        None => None,
    }
}

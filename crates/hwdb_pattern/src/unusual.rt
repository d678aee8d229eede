//! Likely mistakes in a pattern: a `[` that begins no closed bracket, and a range without members.
ghost use Rattle.std.specs.Prelude.{◌≡◌, ◌<◌, ◌≤◌, length, nat_lt, take, true, IfSome, Some, None, if◌then◌else◌};
ghost use Rattle.std.specs.List.{list_any};
ghost use Rattle.hwdb_spec.specs.Patterns;
ghost use Rattle.hwdb_spec.specs.Patterns.{has_reversed, is_reversed, item_at, reversed_from, token_at, tokens};
ghost use Rattle.hwdb_spec.specs.Tree.{closed_part, is_open};

use crate::brackets::{is_inversion, item};
use crate::tokens::{closed_end, token_size};

/// The place, in bytes from 0, of the first `[` that begins no closed bracket; the pattern's length if there is none.
///
/// Reads each byte of the pattern a fixed number of times, and takes no memory.
pub fn open_place(pattern: &[u8]) -> usize
    ensures within { result ≤ length pattern.now }
    ensures before { take result pattern.now ≡ closed_part pattern.now }
    ensures place { result ≡ length (closed_part pattern.now) }
    ensures found { nat_lt result (length pattern.now) ≡ list_any is_open (tokens pattern.now) }
{
    closed_end(pattern)
}

/// Whether the text, at whose beginning an item begins, begins with a reversed range.
fn begins_reversed(text: &[u8]) -> bool
    ensures { result ≡ has_reversed (item_at text.now).spans }
{
    if text.len() < 3 {
        return false;
    }
    if text[1] != b'-' {
        return false;
    }
    if text[2] == b']' {
        return false;
    }
    text[2] < text[0]
}

/// The place of the first reversed range among a bracket's items, or of the `]` that closes if there is none.
fn reversed_item(text: &[u8]) -> usize
    ensures place { result ≡ reversed_from true 0 text.now }
    ensures within { result ≤ length text.now }
{
    let mut at = 0;
    while at < text.len() {
        if at > 0 && text[at] == b']' {
            return at;
        }
        let rest = &text[at..];
        if begins_reversed(rest) {
            return at;
        }
        at += item(rest, 0).size;
    }
    at
}

/// As `reversed_item`, in a text that begins with the bracket.
fn reversed_in_bracket(text: &[u8]) -> usize
    ensures place { result ≡ Patterns.reversed_in_bracket text.now }
    ensures within { result ≤ length text.now }
{
    if text.len() < 2 {
        return 0;
    }
    if is_inversion(text[1]) {
        2 + reversed_item(&text[2..])
    } else {
        1 + reversed_item(&text[1..])
    }
}

/// The place of the first reversed range in a text's first token, which takes `size` bytes. None if it has none.
fn range_in_token(text: &[u8], size: usize) -> Option<usize>
    requires some { 0 < length text.now }
    requires size { size ≡ Patterns.token_size (token_at text.now) }
    requires within { size ≤ length text.now }
    ensures range { result ≡ (if is_reversed (token_at text.now)
        then Some (Patterns.reversed_in_bracket text.now) else None) }
    ensures within { IfSome result (λ range. range < length text.now) }
{
    if text[0] != b'[' {
        return None;
    }
    let range = reversed_in_bracket(text);
    if range + 1 < size { Some(range) } else { None }
}

/// The place, in bytes from 0, of the first reversed range of a pattern; the pattern's length if there is none.
///
/// Takes no memory. Reads each byte a fixed number of times if each `[` begins a closed bracket. For one that doesn't,
/// it looks through the rest of the pattern.
pub fn range_place(pattern: &[u8]) -> usize
    ensures place { result ≡ Patterns.range_place pattern.now }
    ensures found { nat_lt result (length pattern.now)
        ≡ list_any is_reversed (tokens pattern.now) }
{
    let mut at = 0;
    while at < pattern.len() {
        let rest = &pattern[at..];
        let size = token_size(rest);
        if let Some(range) = range_in_token(rest, size) {
            return at + range;
        }
        at += size;
    }
    at
}

//! The tokens of a pattern: stars, question marks, closed brackets and bytes.
ghost use Rattle.std.specs.Prelude.{ℕ, ◌≡◌, ◌≢◌, ◌<◌, ◌≤◌, length, slice_index, false, None, take, drop};
ghost use Rattle.hwdb_spec.specs.Patterns.{bracket_at, token_at};
ghost use Rattle.hwdb_pattern.specs.Internal.Parts.{token_part};
ghost use Rattle.hwdb_spec.specs.Patterns;
ghost use Rattle.hwdb_spec.specs.Tree.{closed_part};
ghost use Rattle.hwdb_pattern.specs.Views.{open_part};

use crate::brackets::{Part, bracket};
use memchr::memchr;

/// The token at the beginning of the text, which isn't a star. If the caller knows that no bracket is closed there,
/// `may_close` is false, and none is looked for.
pub(crate) fn single_token(text: &[u8], byte: u8, may_close: bool) -> Part
    requires some { 0 < length text.now }
    requires no_star { slice_index text.now 0 ≢ 42 }
    requires no_bracket { may_close ≡ false → bracket_at text.now ≡ None }
    ensures part { result ≡ token_part byte (token_at text.now) }
    ensures moves { 0 < result.size }
    ensures within { result.size ≤ length text.now }
{
    if text[0] == b'?' {
        return Part {
            size: 1,
            admits: true,
        };
    }
    if text[0] == b'[' && may_close {
        if let Some(found) = bracket(text, byte) {
            return found;
        }
    }
    Part {
        size: 1,
        admits: byte == text[0],
    }
}

/// How many bytes the token at the beginning of the text takes.
pub(crate) fn token_size(text: &[u8]) -> usize
    requires { 0 < length text.now }
    ensures size { result ≡ Patterns.token_size (token_at text.now) }
    ensures moves { 0 < result }
    ensures within { result ≤ length text.now }
{
    if text[0] == b'*' {
        1
    } else {
        single_token(text, 0, true).size
    }
}

/// How many bytes of the text come before its first `[`; all if there is none.
fn before_bracket(text: &[u8]) -> usize
    ensures within { result ≤ length text.now }
    ensures none { (k : ℕ) → k < result → slice_index text.now k ≢ 91 }
    ensures here { result < length text.now → slice_index text.now result ≡ 91 }
{
    match memchr(b'[', text) {
        Some(at) => at,
        None => text.len(),
    }
}

/// The place of the first `[` that begins no closed bracket; the text's length if there is none.
pub(crate) fn closed_end(text: &[u8]) -> usize
    ensures within { result ≤ length text.now }
    ensures before { take result text.now ≡ closed_part text.now }
    ensures behind { drop result text.now ≡ open_part text.now }
{
    let mut at = before_bracket(text);
    while at < text.len() {
        let Some(found) = bracket(&text[at..], 0) else {
            return at;
        };
        at += found.size;
        at += before_bracket(&text[at..]);
    }
    at
}

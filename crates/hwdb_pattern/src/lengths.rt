//! How far one may go along a text at once: over a run of stars, and over bytes that are the device's own.
ghost use Rattle.std.specs.Prelude.{ℕ, ◌≡◌, ◌≢◌, ◌<◌, ◌≤◌, [], ◌∷◌, length, slice_index, slice_index_or, true, IfSome};
ghost use Rattle.hwdb_spec.specs.Patterns.{tokens};
ghost use Rattle.hwdb_pattern.specs.Views.{open_part};
ghost use Rattle.hwdb_pattern.specs.Internal.Prefixes.{Follows, IsRun};

use crate::tokens::token_size;

/// How many stars are compared at once.
const BLOCK: usize = 64;

/// How many stars begin the text.
fn stars(text: &[u8]) -> usize
    ensures within { result ≤ length text.now }
    ensures some { slice_index_or text.now 0 0 ≡ 42 → 0 < result }
    ensures stars { (k : ℕ) → k < result → slice_index text.now k ≡ 42 }
{
    let block = [b'*'; BLOCK];
    let mut at = 0;
    while text.len() - at >= BLOCK && &text[at..at + BLOCK] == &block[..] {
        at += BLOCK;
    }
    while at < text.len() && text[at] == b'*' {
        at += 1;
    }
    at
}

/// How many bytes the token at the beginning of the text takes, or the run of stars there. After one star the others
/// change nothing.
pub(crate) fn run_size(text: &[u8]) -> usize
    requires { 0 < length text.now }
    ensures moves { 0 < result }
    ensures within { result ≤ length text.now }
    ensures run { IsRun text.now result }
{
    if text[0] == b'*' {
        stars(text)
    } else {
        token_size(text)
    }
}

/// Whether the byte, at the beginning of a text, is a token that matches that byte alone.
pub(crate) fn stands_for_itself(byte: u8) -> bool
    ensures no_star { result ≡ true → byte ≢ 42 }
    ensures no_mark { result ≡ true → byte ≢ 63 }
    ensures no_bracket { result ≡ true → byte ≢ 91 }
{
    byte != b'*' && byte != b'?' && byte != b'['
}

/// The length after all bytes of the text, if each is a token for itself and is the device's next byte after `n` bytes.
pub(crate) fn after_bytes(device: &[u8], n: usize, text: &[u8]) -> Option<usize>
    requires { n ≤ length device.now }
    ensures within { IfSome result (λ m. m ≤ length device.now) }
    ensures closed { IfSome result (λ m. open_part text.now ≡ []) }
    ensures follows { IfSome result (λ m.
        Follows (tokens text.now) device.now (n ∷ []) (m ∷ [])) }
{
    if device.len() - n < text.len() {
        return None;
    }
    let mut at = 0;
    while at < text.len() {
        let byte = text[at];
        if !stands_for_itself(byte) || byte != device[n + at] {
            return None;
        }
        at += 1;
    }
    Some(n + at)
}

//! The tokens of a pattern as a list: each is given by the text that it begins.
ghost use Rattle.std.specs.Prelude.{◌≡◌, ◌≤◌, map, take, IfOk};
ghost use Rattle.hwdb_spec.specs.Patterns.{admits_byte, token_at, tokens};
ghost use Rattle.hwdb_spec.specs.Forms.{is_star, text_size};

use crate::tokens::{single_token, token_size};
use std::alloc::{AllocError, Global};

/// The pattern from each token on. It asks for memory once: a pattern has at most a token for each byte.
pub fn token_texts<'p>(alloc: Global, pattern: &'p [u8]) -> Result<Vec<&'p [u8]>, AllocError>
    ensures { IfOk result (λ texts. map (λ text. token_at text.now) texts.items
        ≡ tokens pattern.now) }
{
    let mut texts = Vec::with_capacity(alloc, pattern.len())?;
    let mut at = 0;
    while at < pattern.len() {
        let rest = &pattern[at..];
        texts.push(rest)?;
        at += token_size(rest);
    }
    Ok(texts)
}

/// Whether a star begins the text.
pub fn begins_star(text: &[u8]) -> bool
    ensures { result ≡ is_star (token_at text.now) }
{
    if text.is_empty() {
        return false;
    }
    if text[0] == b'*' {
        return true;
    }
    false
}

/// Whether the token that begins the text admits the byte.
pub fn begins_with(text: &[u8], byte: u8) -> bool
    ensures { result ≡ admits_byte (token_at text.now) byte }
{
    if text.is_empty() {
        return byte == 0;
    }
    if text[0] == b'*' {
        return false;
    }
    single_token(text, byte, true).admits
}

/// How many bytes of the pattern its first tokens take, so many of them.
pub fn front_size(pattern: &[u8], count: usize) -> usize
    ensures { result ≡ text_size (take count (tokens pattern.now)) }
{
    let mut at = 0;
    let mut left = count;
    while left > 0 && at < pattern.len() {
        at += token_size(&pattern[at..]);
        left -= 1;
    }
    at
}

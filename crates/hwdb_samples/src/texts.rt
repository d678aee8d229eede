//! A short text that a pattern matches.
ghost use Rattle.std.specs.Prelude.{◌≡◌, ◌<◌, ◌++◌, find, length, slice_index_or, IfOk, OnOk};
ghost use Rattle.hwdb_spec.specs.Patterns.{admits_byte, token_at};
ghost use Rattle.hwdb_spec_commands.specs.SampleTexts as spec;

use hwdb_forms::USUAL;
use hwdb_pattern::{begins_star, begins_with, bracket_end, token_texts};
use std::alloc::{AllocError, Global};

/// The byte of a `[` that begins a text, if that begins no bracket.
fn open_literal(text: &[u8]) -> Option<u8>
    requires some { 0 < length text.now }
    requires first { slice_index_or text.now 0 0 ≡ 91 }
    ensures { result ≡ spec.literal_of (token_at text.now) }
{
    match bracket_end(text) {
        Some(_) => None,
        None => Some(b'['),
    }
}

/// The byte of the token that begins a text, if it is one.
pub(crate) fn literal_of(text: &[u8]) -> Option<u8>
    ensures { result ≡ spec.literal_of (token_at text.now) }
{
    if text.is_empty() {
        return Some(0);
    }
    if text[0] == b'*' {
        return None;
    }
    if text[0] == b'?' {
        return None;
    }
    if text[0] == b'[' {
        return open_literal(text);
    }
    Some(text[0])
}

/// Whether the token that begins a text is `?`.
pub(crate) fn is_one(text: &[u8]) -> bool
    ensures { result ≡ spec.is_one (token_at text.now) }
{
    if text.is_empty() {
        return false;
    }
    text[0] == b'?'
}

/// The first of some bytes that the token takes that begins a text, or else 0.
fn first_of(token: &[u8], bytes: &[u8]) -> u8
    ensures { result ≡ spec.or_zero (find (admits_byte (token_at token.now)) bytes.now) }
{
    for byte in bytes {
        if begins_with(token, *byte) {
            return *byte;
        }
    }
    0
}

/// The first usual byte that it takes.
#[tactic(auto, unfolding(hwdb_spec_commands::specs::SampleTexts::usual))]
fn usual_byte(token: &[u8]) -> u8
    ensures { result ≡ spec.usual_byte (token_at token.now) }
{
    first_of(token, USUAL)
}

/// A byte that it takes.
fn byte_of(token: &[u8]) -> u8
    ensures { result ≡ spec.byte_of (token_at token.now) }
{
    match literal_of(token) {
        Some(own) => own,
        None => usual_byte(token),
    }
}

/// Adds what stands for it. The only error, here and below, is `AllocError`.
fn push_piece(text: &mut Vec<u8>, token: &[u8], star: &[u8]) -> Result<(), AllocError>
    ensures { OnOk result (text.new.items
        ≡ text.old.items ++ spec.piece_of star.now (token_at token.now)) }
{
    if begins_star(token) {
        text.extend_from_slice(star)?;
    } else {
        text.push(byte_of(token))?;
    }
    Ok(())
}

/// A text with a byte for each token of a pattern, and this one for each star. Mostly the pattern matches it.
pub(crate) fn text_of(alloc: Global, pattern: &[u8], star: &[u8]) -> Result<Vec<u8>, AllocError>
    ensures { IfOk result (λ text. text.items ≡ spec.text_of star.now pattern.now) }
{
    let mut text = Vec::new(alloc);
    let tokens = token_texts(alloc, pattern)?;
    for token in &tokens {
        push_piece(&mut text, *token, star)?;
    }
    Ok(text)
}

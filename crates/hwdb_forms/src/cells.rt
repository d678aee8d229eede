//! Texts that tokens match, and the bytes that stand before them.
ghost use Rattle.std.specs.Prelude.{◌≡◌, ◌∷◌, [], false, find, if◌then◌else◌, IfOk, None, Option, Some, true};
ghost use Rattle.hwdb_spec.specs.Forms.{all_bytes_from, candidates, is_star};
ghost use Rattle.hwdb_spec.specs.Patterns.{literal, token_at};
ghost use Rattle.hwdb_spec.specs.declared.ByteSet.TheVariants.{Only};
ghost use Rattle.hwdb_spec_commands.specs.FormTexts as spec;
ghost use Rattle.hwdb_spec_commands.specs.SampleTexts.{usual};
ghost use Rattle.hwdb_forms.specs.TextViews.{text_view};

use crate::sets::has;
use crate::walks::own_byte;
use hwdb_pattern::{begins_star, begins_with};
use hwdb_spec::ByteSet;
use std::alloc::{AllocError, Global};

/// Bytes that stand for `?`, a bracket or a star, the first that fits.
pub const USUAL: &[u8] =
    b"0aA_123456789bcdefghijklmnopqrstuvwxyzBCDEFGHIJKLMNOPQRSTUVWXYZ-.:,;/+()&#!=@[]{}<>$%'*?^`|~ ";

/// Whether the token that begins the text takes the byte of the set; a star takes each.
fn takes(token: &[u8], set: ByteSet, byte: u8) -> bool
    ensures { result ≡ spec.takes (token_at token.now) set byte }
{
    if !has(set, byte) {
        return false;
    }
    if begins_star(token) {
        return true;
    }
    begins_with(token, byte)
}

/// The first of some bytes that it takes.
fn first_of(token: &[u8], set: ByteSet, bytes: &[u8]) -> Option<u8>
    ensures { result ≡ find (spec.takes (token_at token.now) set) bytes.now }
{
    for byte in bytes {
        if takes(token, set, *byte) {
            return Some(*byte);
        }
    }
    None
}

/// The first usual byte that it takes.
#[tactic(auto, unfolding(hwdb_spec_commands::specs::SampleTexts::usual))]
fn first_usual(token: &[u8], set: ByteSet) -> Option<u8>
    ensures { result ≡ find (spec.takes (token_at token.now) set) usual }
{
    first_of(token, set, USUAL)
}

/// The byte, if the token takes it.
fn taken(token: &[u8], set: ByteSet, byte: u8) -> Option<u8>
    ensures { result ≡ find (spec.takes (token_at token.now) set) (byte ∷ []) }
{
    if takes(token, set, byte) {
        Some(byte)
    } else {
        None
    }
}

/// The first of all bytes that it takes.
fn first_of_all(token: &[u8], set: ByteSet) -> Option<u8>
    ensures { result ≡ find (spec.takes (token_at token.now) set) (all_bytes_from 256 0) }
{
    let mut byte = 0u8;
    while byte < u8::MAX {
        if takes(token, set, byte) {
            return Some(byte);
        }
        byte += 1;
    }
    taken(token, set, byte)
}

/// The first candidate of the set that it takes.
fn first_candidate(token: &[u8], set: ByteSet) -> Option<u8>
    ensures { result ≡ find (spec.takes (token_at token.now) set) (candidates set) }
{
    if let ByteSet::Only(own) = set {
        return taken(token, set, own);
    }
    first_of_all(token, set)
}

/// As `byte_for`: a search.
fn search(token: &[u8], set: ByteSet) -> Option<u8>
    ensures { result ≡ spec.byte_for (token_at token.now) set }
{
    match first_usual(token, set) {
        Some(byte) => Some(byte),
        None => first_candidate(token, set),
    }
}

/// A byte of the set that the token takes which begins the text: a usual one, or else the first. A byte of its own needs no search.
pub(crate) fn byte_for(token: &[u8], set: ByteSet) -> Option<u8>
    ensures { result ≡ spec.byte_for (token_at token.now) set }
{
    if let ByteSet::Only(own) = set {
        return taken(token, set, own);
    }
    match own_byte(token) {
        Some(own) => taken(token, set, own),
        None => search(token, set),
    }
}

/// The bytes, with room for one more.
fn roomy(alloc: Global, bytes: &[u8]) -> Result<Vec<u8>, AllocError>
    ensures { IfOk result (λ copy. copy.items ≡ bytes.now) }
{
    let mut copy = Vec::with_capacity(alloc, bytes.len() + 1)?;
    copy.extend_from_slice(bytes)?;
    Ok(copy)
}

/// A text of its own, if there is one. The only error, here and below, is `AllocError`.
#[inline(always)]
pub(crate) fn copied(alloc: Global, text: &Option<Vec<u8>>) -> Result<Option<Vec<u8>>, AllocError>
    ensures { IfOk result (λ copy. text_view copy ≡ text_view text.now) }
{
    match text {
        None => Ok(None),
        Some(bytes) => Ok(Some(roomy(alloc, bytes)?)),
    }
}

/// The shorter of two texts, or the one that there is; the first one, if both are as long.
pub(crate) fn shorter(one: Option<Vec<u8>>, other: Option<Vec<u8>>) -> Option<Vec<u8>>
    ensures { text_view result ≡ spec.shorter (text_view one) (text_view other) }
{
    match one {
        None => other,
        Some(text) => match other {
            None => Some(text),
            Some(next) => Some(shorter_of(text, next)),
        },
    }
}

/// The same of two that there are.
fn shorter_of(text: Vec<u8>, other: Vec<u8>) -> Vec<u8>
    ensures { Some result.items ≡ spec.shorter (Some text.items) (Some other.items) }
{
    if other.len() < text.len() {
        other
    } else {
        text
    }
}

/// The text with a byte of the set before it that the token takes, if there are both.
#[inline(always)]
pub(crate) fn with_byte(
    text: Option<Vec<u8>>,
    token: &[u8],
    set: ByteSet,
) -> Result<Option<Vec<u8>>, AllocError>
    ensures { IfOk result (λ longer. text_view longer
        ≡ spec.with_byte (text_view text) (spec.byte_for (token_at token.now) set)) }
{
    match text {
        None => Ok(None),
        Some(bytes) => begun_with(bytes, byte_for(token, set)),
    }
}

/// The text with the byte before it, if there is one.
fn begun_with(text: Vec<u8>, byte: Option<u8>) -> Result<Option<Vec<u8>>, AllocError>
    ensures { IfOk result (λ longer. text_view longer ≡ spec.begun_with byte text.items) }
{
    let Some(byte) = byte else {
        return Ok(None);
    };
    let mut text = text;
    text.insert(0, byte)?;
    Ok(Some(text))
}

/// The cell of one byte of the set: what `byte_cell` of `FormTexts` says. `here` and `after` are of the rest's row, and `next` is of
/// this one.
#[inline(always)]
pub(crate) fn byte_cell(
    alloc: Global,
    set: ByteSet,
    token: &[u8],
    here: &Option<Vec<u8>>,
    after: Option<Vec<u8>>,
    next: &Option<Vec<u8>>,
) -> Result<Option<Vec<u8>>, AllocError>
    ensures { IfOk result (λ text. text_view text
        ≡ spec.byte_cell (is_star (token_at token.now)) (spec.byte_for (token_at token.now) set)
        (text_view here.now) (text_view after) (text_view next.now)) }
{
    if begins_star(token) {
        let taken = with_byte(copied(alloc, here)?, token, set)?;
        let passed = copied(alloc, next)?;
        Ok(shorter(passed, taken))
    } else {
        with_byte(after, token, set)
    }
}

/// The same of any number of bytes.
#[inline(always)]
pub(crate) fn many_cell(
    alloc: Global,
    set: ByteSet,
    token: &[u8],
    here: Option<Vec<u8>>,
    next: &Option<Vec<u8>>,
) -> Result<Option<Vec<u8>>, AllocError>
    ensures { IfOk result (λ text. text_view text
        ≡ spec.many_cell (is_star (token_at token.now)) (spec.byte_for (token_at token.now) set)
        (text_view here) (text_view next.now)) }
{
    let passed = copied(alloc, next)?;
    if begins_star(token) {
        Ok(shorter(here, passed))
    } else {
        Ok(shorter(here, with_byte(passed, token, set)?))
    }
}

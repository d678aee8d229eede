//! Whether a text is as the value of a condition has it, as `token_match_string` of udev-rules.c compares them.
ghost use Rattle.std.specs.Prelude.{◌≡◌, ◌≤◌, ◌+◌, true, [], length, drop, map, IfOk};
ghost use Rattle.std.specs.List.{list_any, position_or_len};
ghost use Rattle.std.specs.Str.{bytes_eq};
ghost use Rattle.hwdb_spec.specs.Lines;
ghost use Rattle.hwdb_spec.specs.Patterns.{matches, tokens};
ghost use Rattle.hwdb_rulerun.specs.Matching;

use hwdb_pattern::{glob, matches_is_tested};
use std::alloc::{AllocError, Global};

/// A letter of ASCII in lower case, any other byte as it is.
fn lower(byte: u8) -> u8
    ensures { result ≡ Matching.lower byte }
{
    if matches!(byte, b'A'..=b'Z') {
        byte + 32
    } else {
        byte
    }
}

/// A text in lower case, if capitals don't count.
fn folded(alloc: Global, folds: bool, text: &[u8]) -> Result<Vec<u8>, AllocError>
    ensures { IfOk result (λ all. all.items ≡ Matching.folded folds text.now) }
{
    if !folds {
        return Vec::from_slice(alloc, text);
    }
    let mut all = Vec::new(alloc);
    for byte in text {
        all.push(lower(*byte))?;
    }
    Ok(all)
}

/// *, ? or [
pub fn is_wild(byte: u8) -> bool
    ensures { result ≡ Matching.is_wild byte }
{
    matches!(byte, b'*' | b'?' | b'[')
}

fn is_glob(value: &[u8]) -> bool
    ensures { result ≡ Matching.is_glob value.now }
{
    for byte in value {
        if is_wild(*byte) {
            return true;
        }
    }
    false
}

/// Whether a text has this byte.
pub fn has_byte(own: u8, text: &[u8]) -> bool
    ensures { result ≡ Lines.has own text.now }
{
    for byte in text {
        if *byte == own {
            return true;
        }
    }
    false
}

fn is_bar(byte: u8) -> bool
    ensures { result ≡ Matching.is_bar byte }
{
    byte == b'|'
}

/// Whether an empty alternative ends at a byte.
fn ends_empty(bar: bool, byte: u8) -> bool
    ensures { result ≡ Matching.ends_empty bar byte }
{
    if is_bar(byte) {
        return bar;
    }
    false
}

/// Whether a text begins with this byte.
pub fn begins_with(byte: u8, text: &[u8]) -> bool
    ensures { result ≡ Lines.begins_with byte text.now }
{
    if text.is_empty() {
        return false;
    }
    text[0] == byte
}

/// Whether one of a value's alternatives is empty.
fn has_empty(value: &[u8]) -> bool
    ensures { result ≡ Matching.has_empty true value.now }
{
    let mut bar = true;
    let mut at = 0;
    while at < value.len() {
        if ends_empty(bar, value[at]) {
            return true;
        }
        bar = is_bar(value[at]);
        at += 1;
    }
    bar
}

/// Whether a class, a collating symbol or an equivalence class may begin here.
fn begins_class(text: &[u8]) -> bool
    ensures { result ≡ Matching.begins_class text.now }
{
    text.starts_with(b"[:") || text.starts_with(b"[.") || text.starts_with(b"[=")
}

/// Whether a text has a bracket in which one may begin.
fn has_class(text: &[u8]) -> bool
    ensures { result ≡ Matching.has_class text.now }
{
    let mut at = 0;
    while at < text.len() {
        if begins_class(&text[at..]) {
            return true;
        }
        at += 1;
    }
    false
}

/// Whether fnmatch reads a value as hwdb(7) does.
fn is_followed(folds: bool, value: &[u8]) -> bool
    ensures { result ≡ Matching.is_followed folds value.now }
{
    if has_byte(b'\\', value) {
        return false;
    }
    if has_class(value) {
        return false;
    }
    if !folds {
        return true;
    }
    !has_byte(b'[', value)
}

/// Whether a text is as fnmatch has it.
fn fits_glob(pattern: &[u8], text: &[u8]) -> bool
    ensures { result ≡ matches (tokens pattern.now) text.now }
{
    matches_is_tested();
    glob(pattern, text)
}

/// Whether two texts are the same.
pub fn is_same(one: &[u8], other: &[u8]) -> bool
    ensures { result ≡ bytes_eq one.now other.now }
{
    one == other
}

/// Whether a text is as an alternative has it; an empty one has none.
fn fits_one(is_glob: bool, text: &[u8], alternative: &[u8]) -> bool
    ensures { result ≡ Matching.fits_one is_glob text.now alternative.now }
{
    if alternative.is_empty() {
        return false;
    }
    if is_glob {
        return fits_glob(alternative, text);
    }
    is_same(alternative, text)
}

/// How long a value's first alternative is.
fn bar_len(value: &[u8]) -> usize
    ensures place { result ≡ position_or_len Matching.is_bar value.now }
    ensures within { result ≤ length value.now }
{
    let mut at = 0;
    while at < value.len() && value[at] != b'|' {
        at += 1;
    }
    at
}

/// What comes after a value's first alternative, and its bar.
#[tactic(auto, using(crate::proofs::MatchLemmas::past_end))]
fn after_bar(value: &[u8]) -> &[u8]
    ensures { result.now ≡ drop (position_or_len Matching.is_bar value.now + 1) value.now }
{
    let len = bar_len(value);
    if len == value.len() {
        return &value[len..];
    }
    &value[len + 1..]
}

/// Whether a text is as one of the alternatives has it.
fn fits_any(is_glob: bool, text: &[u8], value: &[u8]) -> bool
    ensures { result ≡ Matching.fits_any is_glob text.now [] value.now }
{
    let mut rest = value;
    while !rest.is_empty() {
        if fits_one(is_glob, text, &rest[..bar_len(rest)]) {
            return true;
        }
        rest = after_bar(rest);
    }
    false
}

/// Whether an empty text is as the value has it.
fn fits_empty(value: &[u8], text: &[u8]) -> bool
    ensures { result ≡ Matching.fits_empty value.now text.now }
{
    text.is_empty() && has_empty(value)
}

/// Whether a text is as a value has it, whatever the operator is. None if the value isn't followed.
///
/// # Errors
///
/// `AllocError` at any allocation that fails.
pub fn told_fit(
    alloc: Global,
    folds: bool,
    value: &[u8],
    text: &[u8],
) -> Result<Option<bool>, AllocError>
    ensures { IfOk result (λ told. told ≡ Matching.told folds value.now text.now) }
{
    if fits_empty(value, text) {
        return Ok(Some(true));
    }
    let is_glob = is_glob(value);
    if is_glob && !is_followed(folds, value) {
        return Ok(None);
    }
    let value = folded(alloc, folds, value)?;
    let text = folded(alloc, folds, text)?;
    Ok(Some(fits_any(is_glob, &text, &value)))
}

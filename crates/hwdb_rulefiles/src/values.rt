//! Values in quotes, as `udev_rule_parse_value` of udev-rules.c reads them.
ghost use Rattle.std.specs.Prelude.{◌≡◌, ◌≤◌, length, IfOk, false};
ghost use Rattle.hwdb_rulefiles.specs.RulePairs;
ghost use Rattle.hwdb_rulefiles.specs.PairViews.{value_view};

use crate::escapes::unescaped;
use crate::rows::begins_with;
use std::alloc::{AllocError, Global};

/// Whether the byte after this one is part of the value, whatever it is.
fn skips(escaped: bool, byte: u8, rest: &[u8]) -> bool
    ensures { result ≡ RulePairs.skips escaped byte rest.now }
{
    if byte != b'\\' {
        return false;
    }
    escaped || begins_with(b'"', rest)
}

/// Whether a value ends at this byte.
fn ends_value(skip: bool, byte: u8) -> bool
    ensures { result ≡ RulePairs.ends_value skip byte }
{
    if skip {
        return false;
    }
    byte == b'"'
}

/// Whether the byte after this one, which may be skipped itself, is skipped.
fn skips_next(escaped: bool, skip: bool, byte: u8, rest: &[u8]) -> bool
    ensures { result ≡ RulePairs.skips_next escaped skip byte rest.now }
{
    if skip {
        return false;
    }
    skips(escaped, byte, rest)
}

/// How long a value is, up to its quote.
pub fn value_len(escaped: bool, text: &[u8]) -> usize
    ensures value { result ≡ RulePairs.value_len escaped false text.now }
    ensures within { result ≤ length text.now }
{
    let mut at = 0;
    let mut skip = false;
    while at < text.len() {
        if ends_value(skip, text[at]) {
            return at;
        }
        skip = skips_next(escaped, skip, text[at], &text[at + 1..]);
        at += 1;
    }
    at
}

/// A value without the backslashes before its quotes.
fn unquoted(alloc: Global, text: &[u8]) -> Result<Vec<u8>, AllocError>
    ensures { IfOk result (λ value. value.items ≡ RulePairs.unquoted text.now) }
{
    let mut value = Vec::new(alloc);
    for at in 0..text.len() {
        if !skips(false, text[at], &text[at + 1..]) {
            value.push(text[at])?;
        }
    }
    Ok(value)
}

/// What the bytes between the quotes say.
pub fn value_of(alloc: Global, escaped: bool, text: &[u8]) -> Result<Option<Vec<u8>>, AllocError>
    ensures { IfOk result (λ value. value_view value ≡ RulePairs.value_of escaped text.now) }
{
    if escaped {
        return unescaped(alloc, text);
    }
    Ok(Some(unquoted(alloc, text)?))
}

//! Which prefix was meant by one that nobody asks.
ghost use Rattle.std.specs.Prelude.{◌≡◌, ◌/◌, find, if◌then◌else◌, length, map, IfOk};
ghost use Rattle.std.specs.Option.{option_map};
ghost use Rattle.hwdb_spec_commands.specs.FormTable;

use crate::beginnings::prefixes;
use crate::judging::prefix_size;
use std::alloc::{AllocError, Global};
use strsim::generic_levenshtein;

/// The byte in lower case.
fn lower(byte: u8) -> u8
    ensures { result ≡ FormTable.lower byte }
{
    match byte {
        b'A'..=b'Z' => byte + 32,
        _ => byte,
    }
}

/// The text in lower case.
fn in_lower(alloc: Global, text: &[u8]) -> Result<Vec<u8>, AllocError>
    ensures { IfOk result (λ made. made.items ≡ map FormTable.lower text.now) }
{
    let mut made = Vec::new(alloc);
    for byte in text {
        made.push(lower(*byte))?;
    }
    Ok(made)
}

/// How many bytes may differ.
fn most(exact: bool, prefix: &[u8]) -> usize
    ensures { result ≡ (if exact then 0 else length prefix.now / 3) }
{
    if exact { 0 } else { prefix.len() / 3 }
}

/// Whether the text is the prefix but for its case, or nearly.
fn is_near(alloc: Global, exact: bool, text: &[u8], prefix: &[u8]) -> Result<bool, AllocError>
    ensures { IfOk result (λ near. near ≡ FormTable.is_near exact text.now prefix.now) }
{
    let left = in_lower(alloc, text)?;
    let right = in_lower(alloc, prefix)?;
    let distance = generic_levenshtein(alloc, left.as_slice(), right.as_slice())?;
    Ok(distance <= most(exact, prefix))
}

/// The first of the prefixes that the text is near.
fn nearest(
    alloc: Global,
    exact: bool,
    text: &[u8],
    prefixes: &[&'static [u8]],
) -> Result<Option<&'static [u8]>, AllocError>
    ensures { IfOk result (λ found. option_map (λ p. p.now) found
        ≡ find (FormTable.is_near exact text.now) (map (λ p. p.now) prefixes.now)) }
{
    for prefix in prefixes {
        if is_near(alloc, exact, text, prefix)? {
            return Ok(Some(*prefix));
        }
    }
    Ok(None)
}

/// The prefix that was probably meant by the text.
fn likely(alloc: Global, text: &[u8]) -> Result<Option<&'static [u8]>, AllocError>
    ensures { IfOk result (λ found. option_map (λ p. p.now) found ≡ FormTable.likely text.now) }
{
    if is_near(alloc, true, text, b"keyboard:")? {
        return Ok(Some(b"evdev:"));
    }
    if let Some(found) = nearest(alloc, true, text, prefixes())? {
        return Ok(Some(found));
    }
    let found = nearest(alloc, false, text, prefixes())?;
    Ok(found)
}

/// The prefix of texts that udev asks which was probably meant by the pattern's, if one is like it.
///
/// The only error is want of memory.
pub fn likely_prefix(alloc: Global, pattern: &[u8]) -> Result<Option<&'static [u8]>, AllocError>
    ensures { IfOk result (λ found. option_map (λ p. p.now) found
        ≡ FormTable.likely_prefix pattern.now) }
{
    let found = likely(alloc, &pattern[..prefix_size(pattern)])?;
    Ok(found)
}

//! Which of some names is nearest to one that is wanted.
ghost use Rattle.std.specs.Prelude.{◌≡◌, ◌≤◌, IfOk, length, map};
ghost use Rattle.hwdb_spec_commands.specs.DeviceTree as tree;
ghost use Rattle.hwdb_spec_commands.specs.Properties;

use crate::names::lower;
use std::alloc::{AllocError, Global};
use strsim::generic_levenshtein;

/// How many bytes two texts begin with alike.
#[tactic(auto, unfolding(hwdb_spec_commands::specs::DeviceTree::alike))]
fn alike(one: &[u8], other: &[u8]) -> usize
    ensures alike { result ≡ tree.alike one.now other.now }
    ensures within { result ≤ length one.now }
{
    let Some((a, more)) = one.split_first() else {
        return 0;
    };
    let Some((b, rest)) = other.split_first() else {
        return 0;
    };
    if *a != *b {
        return 0;
    }
    1 + alike(more, rest)
}

/// No file has a longer name.
const LONGEST_NAME: usize = 255;

/// Whether a name begins with all that is wanted: then how many bytes that is.
fn begun(wanted: &[u8], name: &[u8]) -> usize
    ensures { result ≡ tree.begun wanted.now name.now }
{
    if name.starts_with(wanted) {
        alike(name, wanted)
    } else {
        0
    }
}

/// How near a name is to the one that is wanted: one that few letters lead to counts before one that begins with it.
fn closeness(alloc: Global, wanted: &[u8], name: &[u8]) -> Result<usize, AllocError>
    ensures { IfOk result (λ n. n ≡ tree.closeness wanted.now name.now) }
{
    if wanted.len() > LONGEST_NAME {
        return Ok(begun(wanted, name));
    }
    let edits = generic_levenshtein(alloc, wanted, name)?;
    if edits > wanted.len() / 3 {
        return Ok(begun(wanted, name));
    }
    Ok((LONGEST_NAME + 1) * (wanted.len() - edits) + alike(name, wanted))
}

/// A text with ASCII's letters in lower case.
fn lowered(alloc: Global, text: &[u8]) -> Result<Vec<u8>, AllocError>
    ensures { IfOk result (λ v. v.items ≡ map Properties.lower text.now) }
{
    let mut low = Vec::new(alloc);
    for byte in text {
        low.push(lower(*byte))?;
    }
    Ok(low)
}

/// How near a name is to the one that is wanted, but for the case of letters.
fn likeness(alloc: Global, wanted: &[u8], name: &[u8]) -> Result<usize, AllocError>
    ensures { IfOk result (λ n. n ≡ tree.likeness wanted.now name.now) }
{
    closeness(alloc, &lowered(alloc, wanted)?, &lowered(alloc, name)?)
}

/// Of a name and one before it the one that is nearer to the name that is wanted: few letters lead to it, or it begins with that. Of two
/// that are as near it is the one before.
///
/// The only error is want of memory. Time grows with the product of both lengths, up to 255 bytes of the wanted one.
pub fn nearer(
    alloc: Global,
    wanted: &[u8],
    before: Vec<u8>,
    name: &[u8],
) -> Result<Vec<u8>, AllocError>
    ensures { IfOk result (λ v. v.items ≡ tree.nearer wanted.now before.items name.now) }
{
    if likeness(alloc, wanted, &before)? < likeness(alloc, wanted, name)? {
        Vec::from_slice(alloc, name)
    } else {
        Ok(before)
    }
}

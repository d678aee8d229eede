//! Some lengths as a list, while they are few.
ghost use Rattle.std.specs.Prelude.{◌≡◌, ◌≢◌, ◌<◌, ◌≤◌, ◌+◌, ◌^◌, ◌↔◌, [], length, slice_index, map, filter, All, Contains, true, false, IsTrue, IfOk, IsOk, IfSome, IfNone};
ghost use Rattle.hwdb_spec.specs.Patterns.{token_at, literal};
ghost use Rattle.hwdb_pattern.specs.Views.{takes, NoneTakes};
ghost use Rattle.hwdb_pattern.specs.Internal.Prefixes.{Steps, stepped};

use crate::places::{is_next, takes_next};
use std::alloc::{AllocError, Global};

/// Whether it is one of the lengths.
pub(crate) fn has(lengths: &[usize], n: usize) -> bool
    ensures { IsTrue result ↔ Contains lengths.now n }
{
    lengths.contains(&n)
}

/// Whether the byte is the device's next one after some of the lengths.
pub(crate) fn is_next_after(lengths: &[usize], device: &[u8], byte: u8) -> bool
    ensures { result ≡ false → NoneTakes (literal byte) device.now lengths.now }
{
    for n in lengths {
        if is_next(byte, device, *n) {
            return true;
        }
    }
    false
}

/// The lengths after one token that isn't a star, in a new list. If the token takes no byte, no memory is asked for.
pub(crate) fn taken(
    alloc: Global,
    before: &[usize],
    device: &[u8],
    text: &[u8],
) -> Result<Vec<usize>, AllocError>
    requires some { 0 < length text.now }
    requires no_star { slice_index text.now 0 ≢ 42 }
    ensures stepped { IfOk result (λ after.
        after.items ≡ stepped (token_at text.now) device.now before.now) }
    ensures free { NoneTakes (token_at text.now) device.now before.now → IsOk result }
{
    let mut after = Vec::new(alloc);
    for n in before {
        if takes_next(text, device, *n) {
            after.push(*n + 1)?;
        }
    }
    Ok(after)
}

/// The least of the lengths.
pub(crate) fn least_of(lengths: &[usize]) -> Option<usize>
    ensures member { IfSome result (λ n. Contains lengths.now n) }
    ensures least { IfSome result (λ n. All (λ m. n ≤ m) lengths.now) }
    ensures none { IfNone result (lengths.now ≡ []) }
{
    if lengths.is_empty() {
        return None;
    }
    let mut least = lengths[0];
    for n in lengths {
        if *n < least {
            least = *n;
        }
    }
    Some(least)
}

/// Keeps the lengths after which the token takes the device's next byte.
fn keep(lengths: &mut Vec<usize>, device: &[u8], text: &[u8])
    requires some { 0 < length text.now }
    requires no_star { slice_index text.now 0 ≢ 42 }
    ensures { lengths.new.items ≡ filter (takes (token_at text.now) device.now) lengths.old.items }
{
    lengths.retain(|n| takes_next(text, device, *n));
}

/// Makes each length one more.
fn advance(lengths: &mut [usize])
    requires { All (λ n. n + 1 < 2 ^ 64) lengths.old }
    ensures { lengths.new ≡ map (λ n. n + 1) lengths.old }
{
    for n in lengths.iter_mut() {
        *n += 1;
    }
}

/// The lengths after one token that isn't a star, in place.
pub(crate) fn step(lengths: &mut Vec<usize>, device: &[u8], text: &[u8])
    requires some { 0 < length text.now }
    requires no_star { slice_index text.now 0 ≢ 42 }
    ensures { Steps (token_at text.now) device.now lengths.old.items lengths.new.items }
{
    keep(lengths, device, text);
    advance(lengths);
}

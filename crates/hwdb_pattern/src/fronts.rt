//! Where tokens stop at a device: their longest front that matches a front of it.
//!
//! The tokens are followed one by one until no prefix of the device is matched. That tells how many tokens there are. A second
//! time tells which prefix is the least.
ghost use Rattle.std.specs.Prelude.{◌≡◌, ◌<◌, ◌≤◌, Contains, length, map, slice_index, take, IfOk};
ghost use Rattle.hwdb_spec.specs.Fronts.{Meets, Stops};
ghost use Rattle.hwdb_spec.specs.Patterns.{token_at};
ghost use Rattle.hwdb_pattern.specs.Fronts.{IsLongest, front_of, token_of};
ghost use Rattle.hwdb_pattern.specs.Internal.FirstTokens.{AreAfter};

use crate::met::Met;
use std::alloc::{AllocError, Global};

/// How many tokens match how many bytes of a device, from the front of both.
#[derive(Clone, Copy, Debug, PartialEq, Eq)]
pub struct Front {
    /// How many tokens match.
    pub tokens: usize,
    /// The least number of bytes of the device that they match.
    pub bytes: usize,
}

/// A text that begins the same token, and has a byte.
fn some_text(text: &[u8]) -> &[u8]
    ensures some { 0 < length result.now }
    ensures same { token_at result.now ≡ token_at text.now }
{
    if text.is_empty() { b"\0" } else { text }
}

/// How many of the first tokens match some prefix of the device, so that one more matches none. Each token is given by a
/// text that it begins. It takes half as long as [`longest_front`]. The only error, here and below, is `AllocError`.
pub fn front_count(alloc: Global, tokens: &[&[u8]], device: &[u8]) -> Result<usize, AllocError>
    ensures within { IfOk result (λ count. count ≤ length tokens.now) }
    ensures longest { IfOk result (λ count.
        IsLongest (map token_of tokens.now) device.now count) }
{
    let mut met = Met::Lone(0);
    let mut count = 0;
    for text in tokens {
        met = met.next_token(alloc, device, some_text(text))?;
        if met.is_empty() {
            return Ok(count);
        }
        count += 1;
    }
    Ok(count)
}

/// Which prefixes of the device these tokens match.
fn met_by(alloc: Global, tokens: &[&[u8]], device: &[u8]) -> Result<Met, AllocError>
    ensures { IfOk result (λ met. AreAfter (map token_of tokens.now) device.now met) }
{
    let mut met = Met::Lone(0);
    for text in tokens {
        met = met.next_token(alloc, device, some_text(text))?;
    }
    Ok(met)
}

/// Where tokens stop, each of which is given by a text that it begins. The longest front of them that matches a front of
/// the device, and the least such front of the device.
///
/// Takes at most as many steps as there are tokens, times the device's length, and a step is a part of an instruction. The
/// memory is one byte for each byte of the device, or none if there is no star. The only error is `AllocError`.
pub fn longest_front(alloc: Global, tokens: &[&[u8]], device: &[u8]) -> Result<Front, AllocError>
    ensures stops { IfOk result (λ f. Stops (map token_of tokens.now) device.now (front_of f)) }
    ensures tokens { IfOk result (λ f. f.tokens ≤ length tokens.now) }
    ensures bytes { IfOk result (λ f. f.bytes ≤ length device.now) }
{
    let count = front_count(alloc, tokens, device)?;
    let met = met_by(alloc, &tokens[..count], device)?;
    let bytes = match met.least(device.len()) {
        Some(bytes) => bytes,
        None => 0,
    };
    Ok(Front {
        tokens: count,
        bytes,
    })
}

//! How near a pattern is to a device.
ghost use Rattle.std.specs.Prelude.{◌≡◌, ◌≤◌, length, map, reverse, IfOk};
ghost use Rattle.hwdb_spec_commands.specs.Near;
ghost use Rattle.hwdb_spec_commands.specs.Near.{front_literals, missing};
ghost use Rattle.hwdb_spec.specs.Patterns.{tokens};
ghost use Rattle.hwdb_pattern.specs.Fronts.{token_of};

use crate::laws::longest_is_computed;
use hwdb_pattern::{begins_star, front_count, token_texts};
use std::alloc::{AllocError, Global};

/// A letter in lower case; any other byte as it is.
pub(crate) fn lower(byte: u8) -> u8
    ensures { result ≡ Near.lower byte }
{
    if matches!(byte, b'A'..=b'Z') {
        byte + 32
    } else {
        byte
    }
}

/// A text with its letters in lower case. The only error, here and below, is `AllocError`.
pub(crate) fn fold_case(alloc: Global, text: &[u8]) -> Result<Vec<u8>, AllocError>
    ensures { IfOk result (λ t. t.items ≡ Near.folded text.now) }
{
    let mut folded = Vec::with_capacity(alloc, text.len())?;
    for byte in text {
        folded.push(lower(*byte))?;
    }
    Ok(folded)
}

/// How many of the tokens aren't stars.
fn literals(tokens: &[&[u8]]) -> usize
    ensures { result ≡ Near.literals (map token_of tokens.now) }
{
    let mut count = 0;
    for token in tokens {
        if !begins_star(token) {
            count += 1;
        }
    }
    count
}

/// How near a pattern is.
#[derive(Clone, Copy)]
pub(crate) struct Nearness {
    /// How many of its literals are missing.
    pub(crate) missing: usize,
    /// How many its longest front has.
    pub(crate) front: usize,
}

/// How near some tokens are to a device. They are turned in between.
fn rate_tokens(
    alloc: Global,
    tokens: &mut [&[u8]],
    device: &[u8],
    reversed: &[u8],
) -> Result<Nearness, AllocError>
    requires { reversed.now ≡ reverse device.now }
    ensures missing { IfOk result
        (λ n. n.missing ≡ missing (map token_of tokens.old) device.now) }
    ensures front { IfOk result
        (λ n. n.front ≡ front_literals (map token_of tokens.old) device.now) }
{
    longest_is_computed();
    let count = front_count(alloc, tokens, device)?;
    let front = literals(&tokens[..count]);
    tokens.reverse();
    let rest = &tokens[..tokens.len() - count];
    let back = front_count(alloc, rest, reversed)?;
    Ok(Nearness {
        missing: literals(&rest[back..]),
        front,
    })
}

/// How near a pattern is to a device. `device` is its text in lower case, and `reversed` that from the right.
pub(crate) fn rate(
    alloc: Global,
    pattern: &[u8],
    device: &[u8],
    reversed: &[u8],
) -> Result<Nearness, AllocError>
    requires { reversed.now ≡ reverse device.now }
    ensures missing { IfOk result
        (λ n. n.missing ≡ missing (tokens (Near.folded pattern.now)) device.now) }
    ensures front { IfOk result
        (λ n. n.front ≡ front_literals (tokens (Near.folded pattern.now)) device.now) }
{
    let text = fold_case(alloc, pattern)?;
    let mut list = token_texts(alloc, &text)?;
    rate_tokens(alloc, &mut list, device, reversed)
}

//! Whether two patterns match no device both, or one all that the other does.
//!
//! Both answers may be no though they could be yes.
ghost use Rattle.std.specs.Prelude.{◌≡◌, ◌∷◌, List, [], length, map, suc, IfOk};
ghost use Rattle.hwdb_spec.specs.Patterns.{Token, token_at};
ghost use Rattle.hwdb_samples.specs.Internal.{IsRow, token_of};
ghost use Rattle.hwdb_spec_commands.specs.Overlaps as spec;

use crate::rules::is_same;
use crate::texts::{is_one, literal_of};
use hwdb_pattern::{begins_star, begins_with, token_texts};
use std::alloc::{AllocError, Global};

/// Whether the byte is a token for itself, wherever it stands.
pub(crate) fn is_plain(byte: u8) -> bool
    ensures { result ≡ spec.is_plain byte }
{
    if byte == b'*' {
        return false;
    }
    if byte == b'?' {
        return false;
    }
    byte != b'['
}

/// Whether two patterns differ before the first wildcard of both. Then no device is matched by both.
pub(crate) fn apart(one: &[u8], other: &[u8]) -> bool
    ensures { result ≡ spec.apart one.now other.now }
{
    let mut at = 0;
    while at < one.len() {
        if at >= other.len() {
            return false;
        }
        if !is_plain(one[at]) {
            return false;
        }
        if !is_plain(other[at]) {
            return false;
        }
        if one[at] != other[at] {
            return true;
        }
        at += 1;
    }
    false
}

/// Whether the token that begins a text takes each byte that the token of another one takes, and both are no stars.
fn takes_all(over: &[u8], under: &[u8]) -> bool
    ensures { result ≡ spec.takes_all (token_at over.now) (token_at under.now) }
{
    match literal_of(under) {
        Some(own) => begins_with(over, own),
        None => is_one(over) && !begins_star(under),
    }
}

/// A cell of a row: whether the rest of a pattern, from a token on, is within a token and what is after it. `here` tells of that rest
/// and what is after the token, `after` of the rest after its first token, and `next` is the cell of that rest.
fn cell(over: &[u8], under: &[u8], here: bool, after: bool, next: bool) -> bool
    ensures { (ps qs : List Token) → here ≡ spec.within qs (token_at under.now ∷ ps)
        → after ≡ spec.within qs ps → next ≡ spec.within (token_at over.now ∷ qs) ps
        → result ≡ spec.within (token_at over.now ∷ qs) (token_at under.now ∷ ps) }
{
    if begins_star(over) {
        if here {
            return true;
        }
        return next;
    }
    if !after {
        return false;
    }
    takes_all(over, under)
}

/// The last cell of a row: whether nothing is within a token and what is after it.
fn end_cell(over: &[u8], here: bool) -> bool
    ensures { (qs : List Token) → here ≡ spec.within qs []
        → result ≡ spec.within (token_at over.now ∷ qs) [] }
{
    if begins_star(over) {
        return here;
    }
    false
}

/// The row of a token before others that have a row: for each place of a pattern whether its rest is within them.
fn next_row(
    alloc: Global,
    over: &[u8],
    under: &[&[u8]],
    row: &[bool],
) -> Result<Vec<bool>, AllocError>
    requires { length row.now ≡ suc (length under.now) }
    ensures size { IfOk result (λ next. length next.items ≡ suc (length under.now)) }
    ensures within { IfOk result (λ next. (qs : List Token)
        → IsRow row.now (map token_of under.now) qs
        → IsRow next.items (map token_of under.now) (token_at over.now ∷ qs)) }
{
    let mut next = vec![in alloc; false; row.len()]?;
    let mut at = under.len();
    next[at] = end_cell(over, row[at]);
    while at > 0 {
        at -= 1;
        next[at] = cell(over, under[at], row[at], row[at + 1], next[at + 1]);
    }
    Ok(next)
}

/// The row of no token.
fn end_row(alloc: Global, under: &[&[u8]]) -> Result<Vec<bool>, AllocError>
    ensures size { IfOk result (λ row. length row.items ≡ suc (length under.now)) }
    ensures within { IfOk result (λ row. IsRow row.items (map token_of under.now) []) }
{
    let mut row = vec![in alloc; false; under.len() + 1]?;
    row[under.len()] = true;
    Ok(row)
}

/// Whether tokens are seen to match each text that others match. Each token is given by a text that it begins.
fn within(alloc: Global, overs: &[&[u8]], unders: &[&[u8]]) -> Result<bool, AllocError>
    ensures { IfOk result (λ yes. yes
        ≡ spec.within (map token_of overs.now) (map token_of unders.now)) }
{
    let mut row = end_row(alloc, unders)?;
    let mut at = overs.len();
    while at > 0 {
        at -= 1;
        row = next_row(alloc, overs[at], unders, &row)?;
    }
    Ok(row[0])
}

/// Whether a pattern is seen to match each device that another one matches. It takes at most as many steps as the one has bytes, times
/// those of the other. The only error, here and below, is `AllocError`.
pub(crate) fn covers(alloc: Global, over: &[u8], under: &[u8]) -> Result<bool, AllocError>
    ensures { IfOk result (λ yes. yes ≡ spec.covers over.now under.now) }
{
    if is_same(over, under) {
        return Ok(true);
    }
    let overs = token_texts(alloc, over)?;
    let unders = token_texts(alloc, under)?;
    within(alloc, &overs, &unders)
}

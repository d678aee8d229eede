//! What decides over the conditions of a line.
ghost use Rattle.std.specs.Prelude.{◌≡◌, ◌++◌, map, IfOk, OnOk};
ghost use Rattle.hwdb_rulefiles.specs.TokenViews.{token_of};
ghost use Rattle.hwdb_rulerun.specs.Causes;
ghost use Rattle.hwdb_rulerun.specs.CauseViews.{token_in};
ghost use Rattle.hwdb_rulerun.specs.Views.{sight_of};

use crate::conditions::{is_own, is_parents, told};
use crate::sights::Sight;
use hwdb_rulefiles::Token;
use std::alloc::{AllocError, Global};

/// Whether an answer is no, if that is looked for, or else no answer.
fn is_meant(fails: bool, answer: Option<bool>) -> bool
    ensures { result ≡ Causes.is_meant fails answer }
{
    match answer {
        None => !fails,
        Some(true) => false,
        Some(false) => fails,
    }
}

/// Whether a condition that isn't about parents is told so.
fn is_told_so(
    alloc: Global,
    fails: bool,
    sight: &Sight<'_>,
    token: &Token,
) -> Result<bool, AllocError>
    ensures { IfOk result (λ so. so
        ≡ Causes.is_told_so fails (sight_of sight.now) (token_of token.now)) }
{
    if !is_own(token.kind) {
        return Ok(false);
    }
    let answer = told(alloc, sight, token)?;
    Ok(is_meant(fails, answer))
}

/// The first of a line's own conditions that is told so.
fn own_cause<'a>(
    alloc: Global,
    fails: bool,
    sight: &Sight<'_>,
    tokens: &'a [Token],
) -> Result<Vec<&'a Token>, AllocError>
    ensures { IfOk result (λ found. map token_in found.items
        ≡ Causes.own_cause fails (sight_of sight.now) (map token_of tokens.now)) }
{
    let mut found = Vec::new(alloc);
    for token in tokens {
        if is_told_so(alloc, fails, sight, token)? {
            found.push(token)?;
            return Ok(found);
        }
    }
    Ok(found)
}

/// All conditions about parents.
fn parents_cause(alloc: Global, tokens: &[Token]) -> Result<Vec<&Token>, AllocError>
    ensures { IfOk result (λ found. map token_in found.items
        ≡ Causes.parents_cause (map token_of tokens.now)) }
{
    let mut found = Vec::new(alloc);
    for token in tokens {
        if is_parents(token.kind) {
            found.push(token)?;
        }
    }
    Ok(found)
}

/// What decides over a line that doesn't hold, if `fails`, or else of which nothing is told: the first of its own conditions that is told so, or
/// all about parents. Each condition is tried once more.
///
/// # Errors
///
/// `AllocError` at any allocation that fails.
pub fn cause<'a>(
    alloc: Global,
    fails: bool,
    sight: &Sight<'_>,
    tokens: &'a [Token],
) -> Result<Vec<&'a Token>, AllocError>
    ensures { IfOk result (λ found. map token_in found.items
        ≡ Causes.cause fails (sight_of sight.now) (map token_of tokens.now)) }
{
    let own = own_cause(alloc, fails, sight, tokens)?;
    if own.is_empty() {
        return parents_cause(alloc, tokens);
    }
    Ok(own)
}

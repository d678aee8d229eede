//! The parent that a line chose, as far as it is known.
ghost use Rattle.std.specs.Prelude.{◌≡◌, ◌≤◌, ◌∷◌, length, map, IfOk};
ghost use Rattle.std.specs.List.{list_any, position_or_len};
ghost use Rattle.hwdb_rulefiles.specs.TokenViews.{token_of};
ghost use Rattle.hwdb_rulefiles.specs.LineViews.{line_of};
ghost use Rattle.hwdb_rulerun.specs.Conditions;
ghost use Rattle.hwdb_rulerun.specs.Views.{seen_of, sight_of};
ghost use Rattle.hwdb_ruleevents.specs.Parents;
ghost use Rattle.hwdb_ruleevents.specs.ParentViews.{chosen_of};

use hwdb_rulefiles::{RuleLine, Token, TokenKind};
use hwdb_rulerun::{Seen, Sight, all_of, has_parents, is_parents};
use std::alloc::{AllocError, Global};

/// What is known of the parent that a line chose.
#[derive(Clone, Copy, Debug)]
pub enum Parent<'a> {
    /// Nothing.
    Anyone,
    /// That it chose none.
    Nobody,
    /// Which one.
    One(Seen<'a>),
}

/// The first device of which all conditions about parents hold.
fn first_told<'a>(
    alloc: Global,
    tokens: &[Token],
    devices: &[Seen<'a>],
) -> Result<Parent<'a>, AllocError>
    ensures { IfOk result (λ p. chosen_of p
        ≡ Parents.first_told (map token_of tokens.now) (map seen_of devices.now)) }
{
    for seen in devices {
        match all_of(alloc, seen, tokens)? {
            None => return Ok(Parent::Anyone),
            Some(true) => return Ok(Parent::One(*seen)),
            Some(false) => {}
        }
    }
    Ok(Parent::Nobody)
}

/// The device, or the first of its parents, of which they hold.
fn nearest_told<'a>(
    alloc: Global,
    sight: &Sight<'a>,
    tokens: &[Token],
) -> Result<Parent<'a>, AllocError>
    ensures { IfOk result (λ p. chosen_of p ≡ Parents.first_told (map token_of tokens.now)
        ((sight_of sight.now).own ∷ (sight_of sight.now).parents)) }
{
    match all_of(alloc, &sight.own, tokens)? {
        None => Ok(Parent::Anyone),
        Some(true) => Ok(Parent::One(sight.own)),
        Some(false) => first_told(alloc, tokens, sight.parents),
    }
}

/// The parent that a line's tokens see when they are run.
pub fn parent_told<'a>(
    alloc: Global,
    sight: &Sight<'a>,
    tokens: &[Token],
    before: Parent<'a>,
) -> Result<Parent<'a>, AllocError>
    ensures { IfOk result (λ p. chosen_of p ≡ Parents.parent_told (sight_of sight.now)
        (map token_of tokens.now) (chosen_of before.entry)) }
{
    if has_parents(tokens) {
        nearest_told(alloc, sight, tokens)
    } else {
        Ok(before)
    }
}

/// How many tokens come before those about parents.
fn first_len(tokens: &[Token]) -> usize
    ensures value { result
        ≡ position_or_len (λ t. Conditions.is_parents t.kind) (map token_of tokens.now) }
    ensures within { result ≤ length tokens.now }
{
    let mut at = 0;
    while at < tokens.len() && !is_parents(tokens[at].kind) {
        at += 1;
    }
    at
}

/// The tokens before those about parents.
#[tactic(auto, using(crate::proofs::ParentLemmas::first_some))]
pub fn first_tokens(tokens: &[Token]) -> &[Token]
    ensures { map token_of result.now ≡ Parents.first_tokens (map token_of tokens.now) }
{
    &tokens[..first_len(tokens)]
}

/// What changes something of any device.
fn acts_always(kind: TokenKind) -> bool
    ensures { result ≡ Parents.acts_always kind }
{
    match kind {
        TokenKind::MatchProgram
        | TokenKind::ImportFile
        | TokenKind::ImportProgram
        | TokenKind::ImportBuiltin
        | TokenKind::ImportDb
        | TokenKind::ImportCmdline
        | TokenKind::ImportParent
        | TokenKind::EscapeNone
        | TokenKind::EscapeReplace
        | TokenKind::DbPersist
        | TokenKind::Watch
        | TokenKind::LinkPriority
        | TokenKind::LogLevel
        | TokenKind::Tag
        | TokenKind::Seclabel
        | TokenKind::Env
        | TokenKind::Attr
        | TokenKind::Sysctl
        | TokenKind::RunBuiltin
        | TokenKind::RunProgram => true,
        _ => false,
    }
}

fn any_acts_always(tokens: &[Token]) -> bool
    ensures { result ≡ list_any (λ t. Parents.acts_always t.kind) (map token_of tokens.now) }
{
    for token in tokens {
        if acts_always(token.kind) {
            return true;
        }
    }
    false
}

/// Whether a line is tried on any device.
pub fn is_for_all(line: &RuleLine) -> bool
    ensures { result ≡ Parents.is_for_all (line_of line.now) }
{
    match &line.goto {
        None => any_acts_always(&line.tokens),
        Some(_) => true,
    }
}

/// The parent after a line, by whether the conditions before those about parents hold.
pub fn by_reached<'a>(
    sure: bool,
    reached: Option<bool>,
    new: Parent<'a>,
    before: Parent<'a>,
) -> Parent<'a>
    ensures { chosen_of result
        ≡ Parents.by_reached sure reached (chosen_of new.entry) (chosen_of before.entry) }
{
    match reached {
        None => Parent::Anyone,
        Some(false) => before,
        Some(true) => { if sure { new } else { Parent::Anyone } }
    }
}

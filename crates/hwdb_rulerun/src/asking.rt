//! Which lookups a line asks, as far as it is known.
ghost use Rattle.std.specs.Prelude.{◌≡◌, ◌++◌, map, nat_eq, false, IfOk, OnOk, if◌then◌else◌};
ghost use Rattle.std.specs.List.{starts_with};
ghost use Rattle.hwdb_rulefiles.specs.TokenViews.{token_of};
ghost use Rattle.hwdb_rulerun.specs.Asking;
ghost use Rattle.hwdb_rulerun.specs.AskedViews.{asked_of};
ghost use Rattle.hwdb_rulerun.specs.Views.{sight_of};

use crate::conditions::line_told;
use crate::sights::Sight;
use hwdb_rulefiles::{Token, TokenKind, first_word};
use std::alloc::{AllocError, Global};

/// A lookup: a command of the builtin hwdb, as it is written.
#[derive(Clone, Copy)]
pub struct Asked<'a> {
    /// Its token.
    pub token: &'a Token,
    /// Whether it is asked, or may be asked.
    pub certain: bool,
}

/// What a line runs after its conditions.
pub fn runs(kind: TokenKind) -> bool
    ensures { result ≡ Asking.runs kind }
{
    match kind {
        TokenKind::MatchProgram
        | TokenKind::ImportFile
        | TokenKind::ImportProgram
        | TokenKind::ImportBuiltin
        | TokenKind::ImportDb
        | TokenKind::ImportCmdline
        | TokenKind::ImportParent
        | TokenKind::MatchResult => true,
        _ => false,
    }
}

fn is_import(kind: TokenKind) -> bool
    ensures { result ≡ Asking.is_import kind }
{
    match kind {
        TokenKind::ImportBuiltin => true,
        _ => false,
    }
}

/// Whether a command is one of the builtin hwdb.
fn is_hwdb(command: &[u8]) -> bool
    ensures { result ≡ Asking.is_hwdb command.now }
{
    let word = first_word(command);
    if word.is_empty() {
        return false;
    }
    b"hwdb".starts_with(word)
}

/// Whether a command is one of the builtin net_id.
pub fn is_net_id(command: &[u8]) -> bool
    ensures { result ≡ Asking.is_net_id command.now }
{
    let word = first_word(command);
    word.starts_with(b"net_i") && b"net_id".starts_with(word)
}

/// Whether a token asks the hardware database.
pub fn is_lookup(token: &Token) -> bool
    ensures { result ≡ Asking.is_lookup (token_of token.now) }
{
    is_import(token.kind) && (is_hwdb(&token.value) || is_net_id(&token.value))
}

/// After something was run, nothing is certain.
fn after(certain: bool, kind: TokenKind) -> bool
    ensures { result ≡ (if Asking.runs kind then false else certain) }
{
    if runs(kind) {
        return false;
    }
    certain
}

/// Puts the lookup of a token after the others.
fn put<'a>(all: &mut Vec<Asked<'a>>, certain: bool, token: &'a Token) -> Result<(), AllocError>
    ensures { OnOk result (map asked_of all.new.items
        ≡ map asked_of all.old.items ++ Asking.told_in certain (token_of token.now)) }
{
    if !is_lookup(token) {
        return Ok(());
    }
    all.push(Asked { token, certain })?;
    Ok(())
}

/// What is told of the tokens of a line whose conditions hold, or may hold.
fn told_runs(alloc: Global, certain: bool, tokens: &[Token]) -> Result<Vec<Asked<'_>>, AllocError>
    ensures { IfOk result (λ all. map asked_of all.items
        ≡ Asking.told_runs certain (map token_of tokens.now)) }
{
    let mut all = Vec::new(alloc);
    let mut sure = certain;
    for token in tokens {
        put(&mut all, sure, token)?;
        sure = after(sure, token.kind);
    }
    Ok(all)
}

/// What is told of the lookups of a line, in their order.
///
/// # Errors
///
/// `AllocError` at any allocation that fails.
pub fn lookups<'a>(
    alloc: Global,
    sight: &Sight<'_>,
    tokens: &'a [Token],
) -> Result<Vec<Asked<'a>>, AllocError>
    ensures { IfOk result (λ all. map asked_of all.items
        ≡ Asking.told (sight_of sight.now) (map token_of tokens.now)) }
{
    match line_told(alloc, sight, tokens)? {
        None => told_runs(alloc, false, tokens),
        Some(true) => told_runs(alloc, true, tokens),
        Some(false) => Ok(Vec::new(alloc)),
    }
}

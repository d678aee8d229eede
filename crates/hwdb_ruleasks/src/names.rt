//! Which attributes rules read.
ghost use Rattle.std.specs.Prelude.{◌≡◌, ◌++◌, flat_map, map, IfOk, OnOk};
ghost use Rattle.hwdb_spec.specs.Assignment.{in_order, text_cmp};
ghost use Rattle.hwdb_rulefiles.specs.LineViews.{line_of};
ghost use Rattle.hwdb_rulefiles.specs.TokenViews.{token_of};
ghost use Rattle.hwdb_ruleevents.specs.FileViews.{lines_of};
ghost use Rattle.hwdb_ruleevents.specs.PieceViews.{piece_of};
ghost use Rattle.hwdb_spec_rules.specs.RuleNames;
ghost use Rattle.hwdb_ruleasks.specs.Views.{IsSetOf, own_text};

use hwdb_ruleevents::{Piece, Variable, is_env, pieces_of};
use hwdb_rulefiles::{RuleLine, Token, TokenKind};
use hwdb_rulerun::{begins_with, is_plain, runs};
use hwdb_spec_commands::ATTRIBUTES;
use hwdb_text::Lines;
use std::alloc::{AllocError, Global};
use std::collections::BTreeSet;

/// Adds the name in a condition's braces, if it is one as it stands. The only error, here and below, is `AllocError`.
fn push_matched<'a>(names: &mut Vec<&'a [u8]>, name: &'a [u8]) -> Result<(), AllocError>
    ensures { OnOk result (map own_text names.new.items
        ≡ map own_text names.old.items ++ RuleNames.matched_name name.now) }
{
    if is_plain(name) {
        names.push(name)?;
    }
    Ok(())
}

/// Adds the name of a condition.
fn push_condition<'a>(
    names: &mut Vec<&'a [u8]>,
    kind: TokenKind,
    name: &'a [u8],
) -> Result<(), AllocError>
    ensures { OnOk result (map own_text names.new.items
        ≡ map own_text names.old.items ++ RuleNames.condition_name kind name.now) }
{
    match kind {
        TokenKind::MatchAttr | TokenKind::ParentsAttr => push_matched(names, name),
        _ => Ok(()),
    }
}

/// Adds the name of a variable.
fn push_variable<'a>(
    names: &mut Vec<&'a [u8]>,
    variable: Variable,
    argument: &'a [u8],
) -> Result<(), AllocError>
    ensures { OnOk result (map own_text names.new.items
        ≡ map own_text names.old.items ++ RuleNames.variable_name variable argument.now) }
{
    match variable {
        Variable::Attr => {
            if !begins_with(b'[', argument) {
                names.push(argument)?;
            }
            Ok(())
        }
        _ => Ok(()),
    }
}

/// Adds the name of a piece of a text.
fn push_piece<'a>(names: &mut Vec<&'a [u8]>, piece: Piece<'a>) -> Result<(), AllocError>
    ensures { OnOk result (map own_text names.new.items
        ≡ map own_text names.old.items ++ RuleNames.piece_name (piece_of piece.entry)) }
{
    match piece {
        Piece::Byte(_) => Ok(()),
        Piece::Stands(variable, argument) => push_variable(names, variable, argument),
    }
}

/// Adds the names of pieces of a text.
fn push_pieces<'a>(names: &mut Vec<&'a [u8]>, pieces: &[Piece<'a>]) -> Result<(), AllocError>
    ensures { OnOk result (map own_text names.new.items ≡ map own_text names.old.items
        ++ flat_map RuleNames.piece_name (map piece_of pieces.now)) }
{
    for piece in pieces {
        push_piece(names, *piece)?;
    }
    Ok(())
}

/// Adds the names of a text.
fn push_text<'a>(
    alloc: Global,
    names: &mut Vec<&'a [u8]>,
    value: &'a [u8],
) -> Result<(), AllocError>
    ensures { OnOk result (map own_text names.new.items
        ≡ map own_text names.old.items ++ RuleNames.text_names value.now) }
{
    let pieces = pieces_of(alloc, value)?;
    push_pieces(names, &pieces)
}

/// Whether a token's value is a text with variables that matters to lookups.
fn has_text(kind: TokenKind) -> bool
    ensures { result ≡ RuleNames.has_text kind }
{
    is_env(kind) || runs(kind)
}

/// Adds the names of a token.
fn push_token<'a>(
    alloc: Global,
    names: &mut Vec<&'a [u8]>,
    token: &'a Token,
) -> Result<(), AllocError>
    ensures { OnOk result (map own_text names.new.items
        ≡ map own_text names.old.items ++ RuleNames.token_names (token_of token.now)) }
{
    push_condition(names, token.kind, &token.attribute)?;
    if has_text(token.kind) {
        push_text(alloc, names, &token.value)?;
    }
    Ok(())
}

/// Adds the names of tokens.
fn push_tokens<'a>(
    alloc: Global,
    names: &mut Vec<&'a [u8]>,
    tokens: &'a [Token],
) -> Result<(), AllocError>
    ensures { OnOk result (map own_text names.new.items ≡ map own_text names.old.items
        ++ flat_map RuleNames.token_names (map token_of tokens.now)) }
{
    for token in tokens {
        push_token(alloc, names, token)?;
    }
    Ok(())
}

/// Adds the names of a file.
fn push_lines<'a>(
    alloc: Global,
    names: &mut Vec<&'a [u8]>,
    lines: &'a [RuleLine],
) -> Result<(), AllocError>
    ensures { OnOk result (map own_text names.new.items
        ≡ map own_text names.old.items ++ RuleNames.file_names (map line_of lines.now)) }
{
    for line in lines {
        push_tokens(alloc, names, &line.tokens)?;
    }
    Ok(())
}

/// Adds the names of files.
fn push_files<'a>(
    alloc: Global,
    names: &mut Vec<&'a [u8]>,
    files: &[&'a [RuleLine]],
) -> Result<(), AllocError>
    ensures { OnOk result (map own_text names.new.items ≡ map own_text names.old.items
        ++ flat_map RuleNames.file_names (map lines_of files.now)) }
{
    for lines in files {
        push_lines(alloc, names, *lines)?;
    }
    Ok(())
}

/// What builtins read.
fn builtin_names<'a>(alloc: Global) -> Result<Vec<&'a [u8]>, AllocError>
    ensures { IfOk result (λ names. map own_text names.items ≡ RuleNames.builtin_names) }
{
    let mut names = Vec::new(alloc);
    for name in Lines::new(ATTRIBUTES.as_bytes()) {
        names.push(name)?;
    }
    names.push(b"bInterfaceClass")?;
    Ok(names)
}

/// Some texts as a set.
fn set_of<'t>(alloc: Global, texts: &[&'t [u8]]) -> Result<BTreeSet<&'t [u8]>, AllocError>
    ensures { IfOk result (λ set. IsSetOf (map own_text texts.now) set) }
{
    let mut set = BTreeSet::new(alloc);
    for text in texts {
        set.insert(*text)?;
    }
    Ok(set)
}

/// Some texts in order, each once.
fn ordered<'t>(alloc: Global, texts: &[&'t [u8]]) -> Result<Vec<&'t [u8]>, AllocError>
    ensures { IfOk result (λ list. map own_text list.items
        ≡ in_order text_cmp (map own_text texts.now)) }
{
    let mut list = Vec::new(alloc);
    let set = set_of(alloc, texts)?;
    for text in set {
        list.push(text)?;
    }
    Ok(list)
}

/// The names of the attributes that rules read, ascending, each once. The time grows with the rules' bytes, and with `n log n` of the names.
///
/// # Errors
///
/// `AllocError` at any allocation that fails.
pub fn names_read<'a>(alloc: Global, files: &[&'a [RuleLine]]) -> Result<Vec<&'a [u8]>, AllocError>
    ensures { IfOk result (λ names. map own_text names.items
        ≡ RuleNames.names_read (map lines_of files.now)) }
{
    let mut names = builtin_names(alloc)?;
    push_files(alloc, &mut names, files)?;
    ordered(alloc, &names)
}

//! The texts of values, as far as they are known.
ghost use Rattle.std.specs.Prelude.{◌≡◌, ◌++◌, map, take, nat_lt, length, IfOk, Option, Some, None};
ghost use Rattle.hwdb_rulefiles.specs.Escapes.{onto};
ghost use Rattle.hwdb_rulefiles.specs.PairViews.{value_view};
ghost use Rattle.hwdb_rulefiles.specs.TokenViews.{token_of};
ghost use Rattle.hwdb_rulerun.specs.Sights.{attribute_of as attribute_in};
ghost use Rattle.hwdb_rulerun.specs.Views.{known_of};
ghost use Rattle.hwdb_ruleevents.specs.ParentViews.{chosen_of};
ghost use Rattle.hwdb_spec_commands.specs.Sysfs;
ghost use Rattle.hwdb_ruleevents.specs.Texts;
ghost use Rattle.hwdb_ruleevents.specs.ChangeViews.{held_of};
ghost use Rattle.hwdb_ruleevents.specs.EffectViews.{knowledge_of};
ghost use Rattle.hwdb_ruleevents.specs.PieceViews.{piece_of};
ghost use Rattle.hwdb_ruleevents.specs.Internal.{if_known};

use crate::changes::{Held, value_in};
use crate::effects::{Commands, Knowledge, is_digit, is_env};
use crate::parents::Parent;
use crate::pieces::{Piece, Variable, pieces_of};
use crate::values::{first, push_written};
use hwdb_rulefiles::{Token, TokenKind};
use hwdb_rulerun::{ATTRIBUTE_SIZE, Known, attribute_of, begins_with, entry_of};
use std::alloc::{AllocError, Global};

/// A text of its own.
fn own(alloc: Global, text: &[u8]) -> Result<Option<Vec<u8>>, AllocError>
    ensures { IfOk result (λ t. value_view t ≡ Some text.now) }
{
    Ok(Some(Vec::from_slice(alloc, text)?))
}

/// A text as `$attr` writes it.
fn written(alloc: Global, text: &[u8]) -> Result<Option<Vec<u8>>, AllocError>
    ensures { IfOk result (λ t. value_view t ≡ Some (Sysfs.written text.now)) }
{
    let mut all = Vec::new(alloc);
    push_written(&mut all, text)?;
    Ok(Some(all))
}

/// An attribute's text.
fn attribute_text(alloc: Global, text: &[u8]) -> Result<Option<Vec<u8>>, AllocError>
    ensures { IfOk result (λ t. value_view t ≡ Texts.attribute_text text.now) }
{
    if text.len() > ATTRIBUTE_SIZE {
        return Ok(None);
    }
    written(alloc, text)
}

/// An attribute of another device.
fn other_told(alloc: Global, known: Known<'_>) -> Result<Option<Vec<u8>>, AllocError>
    ensures { IfOk result (λ t. value_view t ≡ Texts.other_told (known_of known.entry)) }
{
    match known {
        Known::Unknown => Ok(None),
        Known::Missing => own(alloc, b""),
        Known::Text(text) => written(alloc, first(text, ATTRIBUTE_SIZE)),
    }
}

/// An attribute of the parent that a line chose.
fn parent_attribute_told(
    alloc: Global,
    parent: &Parent<'_>,
    name: &[u8],
) -> Result<Option<Vec<u8>>, AllocError>
    ensures { IfOk result (λ t. value_view t
        ≡ Texts.parent_attribute_told (chosen_of parent.now) name.now) }
{
    match parent {
        Parent::Anyone => Ok(None),
        Parent::Nobody => own(alloc, b""),
        Parent::One(seen) => match attribute_of(seen, name) {
            Known::Unknown => Ok(None),
            Known::Missing => own(alloc, b""),
            Known::Text(text) => attribute_text(alloc, text),
        },
    }
}

/// The name of the parent.
fn parent_name_told(alloc: Global, parent: &Parent<'_>) -> Result<Option<Vec<u8>>, AllocError>
    ensures { IfOk result (λ t. value_view t ≡ Texts.parent_name_told (chosen_of parent.now)) }
{
    match parent {
        Parent::Anyone => Ok(None),
        Parent::Nobody => own(alloc, b""),
        Parent::One(seen) => own(alloc, seen.name),
    }
}

/// The driver of the parent.
fn parent_driver_told(alloc: Global, parent: &Parent<'_>) -> Result<Option<Vec<u8>>, AllocError>
    ensures { IfOk result (λ t. value_view t ≡ Texts.parent_driver_told (chosen_of parent.now)) }
{
    match parent {
        Parent::Anyone => Ok(None),
        Parent::Nobody => own(alloc, b""),
        Parent::One(seen) => known_text(alloc, seen.driver),
    }
}

/// An attribute of the device, or else of the parent.
fn own_told<C: Commands>(
    alloc: Global,
    knowledge: &Knowledge<'_, C>,
    name: &[u8],
) -> Result<Option<Vec<u8>>, AllocError>
    ensures { IfOk result (λ t. value_view t
        ≡ Texts.own_told (attribute_in
        (knowledge_of (C.known knowledge.now.commands.now) knowledge.now.facts).sight.own name.now)
        (Texts.parent_attribute_told
        (knowledge_of (C.known knowledge.now.commands.now) knowledge.now.facts).parent name.now)) }
{
    match attribute_of(&knowledge.facts.sight.own, name) {
        Known::Unknown => Ok(None),
        Known::Missing => parent_attribute_told(alloc, &knowledge.facts.parent, name),
        Known::Text(text) => attribute_text(alloc, text),
    }
}

fn attribute_told<C: Commands>(
    alloc: Global,
    knowledge: &Knowledge<'_, C>,
    argument: &[u8],
) -> Result<Option<Vec<u8>>, AllocError>
    ensures { IfOk result (λ t. value_view t
        ≡ Texts.attribute_told
        (knowledge_of (C.known knowledge.now.commands.now) knowledge.now.facts) argument.now) }
{
    if begins_with(b'[', argument) {
        return other_told(
            alloc,
            entry_of(argument, Known::Unknown, knowledge.facts.others),
        );
    }
    own_told(alloc, knowledge, argument)
}

/// A property's text.
fn known_text(alloc: Global, known: Known<'_>) -> Result<Option<Vec<u8>>, AllocError>
    ensures { IfOk result (λ t. value_view t ≡ Texts.known_text (known_of known.entry)) }
{
    match known {
        Known::Unknown => Ok(None),
        Known::Missing => own(alloc, b""),
        Known::Text(text) => own(alloc, text),
    }
}

fn all_digits(text: &[u8]) -> bool
    ensures { result ≡ Texts.all_digits text.now }
{
    for byte in text {
        if !is_digit(*byte) {
            return false;
        }
    }
    true
}

fn last_digits(name: &[u8]) -> &[u8]
    ensures { result.now ≡ Texts.last_digits name.now }
{
    let mut rest = name;
    while !rest.is_empty() {
        if all_digits(rest) {
            return rest;
        }
        rest = &rest[1..];
    }
    rest
}

/// The digits at the end of a name.
fn number(name: &[u8]) -> &[u8]
    ensures { result.now ≡ Texts.number name.now }
{
    if all_digits(name) {
        b""
    } else {
        last_digits(name)
    }
}

/// The text that a variable stands for.
fn meaning_told<C: Commands>(
    alloc: Global,
    knowledge: &Knowledge<'_, C>,
    changes: &[Held],
    variable: Variable,
    argument: &[u8],
) -> Result<Option<Vec<u8>>, AllocError>
    ensures { IfOk result (λ t. value_view t ≡ Texts.meaning_told
        (knowledge_of (C.known knowledge.now.commands.now) knowledge.now.facts)
        (map held_of changes.now) variable argument.now) }
{
    match variable {
        Variable::Kernel => own(alloc, knowledge.facts.sight.own.name),
        Variable::Number => own(alloc, number(knowledge.facts.sight.own.name)),
        Variable::Devpath => own(alloc, knowledge.facts.sight.path),
        Variable::Env => known_text(alloc, value_in(changes, argument)),
        Variable::Attr => attribute_told(alloc, knowledge, argument),
        Variable::Id => parent_name_told(alloc, &knowledge.facts.parent),
        Variable::Driver => parent_driver_told(alloc, &knowledge.facts.parent),
        Variable::Root => own(alloc, b"/dev"),
        Variable::Sys => own(alloc, b"/sys"),
        _ => Ok(None),
    }
}

/// Adds a text, if it is known. Gives whether it is.
fn push_known(out: &mut Vec<u8>, text: Option<Vec<u8>>) -> Result<bool, AllocError>
    ensures { IfOk result (λ known. if_known known out.new.items
        ≡ onto out.old.items (value_view text)) }
{
    match text {
        None => Ok(false),
        Some(text) => {
            out.extend_from_slice(&text)?;
            Ok(true)
        }
    }
}

/// Adds the text of a piece, if it is known. Gives whether it is.
fn push_piece<C: Commands>(
    alloc: Global,
    knowledge: &Knowledge<'_, C>,
    changes: &[Held],
    out: &mut Vec<u8>,
    piece: Piece<'_>,
) -> Result<bool, AllocError>
    ensures { IfOk result (λ known. if_known known out.new.items
        ≡ onto out.old.items (Texts.piece_text (Texts.meaning_told
        (knowledge_of (C.known knowledge.now.commands.now) knowledge.now.facts)
        (map held_of changes.now)) (piece_of piece.entry))) }
{
    match piece {
        Piece::Byte(byte) => {
            out.push(byte)?;
            Ok(true)
        }
        Piece::Stands(variable, argument) => {
            let text = meaning_told(alloc, knowledge, changes, variable, argument)?;
            push_known(out, text)
        }
    }
}

/// The text of pieces, if it is known.
#[tactic(auto, using(crate::proofs::TextLemmas::one_piece))]
fn text_of<C: Commands>(
    alloc: Global,
    knowledge: &Knowledge<'_, C>,
    changes: &[Held],
    pieces: &[Piece<'_>],
) -> Result<Option<Vec<u8>>, AllocError>
    ensures { IfOk result (λ t. value_view t
        ≡ Texts.text_of (Texts.meaning_told
        (knowledge_of (C.known knowledge.now.commands.now) knowledge.now.facts)
        (map held_of changes.now)) (map piece_of pieces.now)) }
{
    let mut out = Vec::new(alloc);
    for piece in pieces {
        if !push_piece(alloc, knowledge, changes, &mut out, *piece)? {
            return Ok(None);
        }
    }
    Ok(Some(out))
}

/// How many bytes a text may have.
fn room(kind: TokenKind) -> usize
    ensures { result ≡ Texts.room kind }
{
    if is_env(kind) { 511 } else { 1023 }
}

fn within(room: usize, text: Option<Vec<u8>>) -> Option<Vec<u8>>
    ensures { value_view result ≡ Texts.within room (value_view text) }
{
    match text {
        None => None,
        Some(text) => { if text.len() > room { None } else { Some(text) } }
    }
}

fn is_verbatim(kind: TokenKind) -> bool
    ensures { result ≡ Texts.is_verbatim kind }
{
    match kind {
        TokenKind::ImportDb => true,
        TokenKind::ImportCmdline => true,
        _ => false,
    }
}

/// The text of a token's value, if it is known.
pub fn text_told<C: Commands>(
    alloc: Global,
    knowledge: &Knowledge<'_, C>,
    changes: &[Held],
    token: &Token,
) -> Result<Option<Vec<u8>>, AllocError>
    ensures { IfOk result (λ t. value_view t ≡ Texts.text_told
        (knowledge_of (C.known knowledge.now.commands.now) knowledge.now.facts)
        (map held_of changes.now) (token_of token.now)) }
{
    if is_verbatim(token.kind) {
        return own(alloc, &token.value);
    }
    let pieces = pieces_of(alloc, &token.value)?;
    let text = text_of(alloc, knowledge, changes, &pieces)?;
    Ok(within(room(token.kind), text))
}

//! The shortest text of a form that tokens match.
//!
//! A row has a cell for each place among the tokens, and for their end: the shortest text of a form's rest that the tokens from there
//! on match, if there is one. Rows are made from the back of a form to its front, each in the place of the one behind it.
ghost use Rattle.std.specs.Prelude.{◌≡◌, ◌+◌, ◌<◌, get_or, if◌then◌else◌, IfOk, length, map, None, OnOk, set as put_at, suc};
ghost use Rattle.hwdb_spec.specs.Forms.{is_star};
ghost use Rattle.hwdb_spec.specs.Patterns.{token_at};
ghost use Rattle.hwdb_spec_commands.specs.FormTable.{asked};
ghost use Rattle.hwdb_spec_commands.specs.FormTexts as spec;
ghost use Rattle.hwdb_forms.specs.Internal.{fields_of, form_of, piece_of, views};
ghost use Rattle.hwdb_forms.specs.TextViews.{row_view, text_view};

use crate::cells::{byte_cell, copied, many_cell, shorter};
use crate::expecting::all_forms;
use crate::pieces::{FormRow, Piece, Table};
use crate::walks::is_dead_at_once;
use hwdb_pattern::begins_star;
use hwdb_spec::ByteSet;
use std::alloc::{AllocError, Global};

/// Takes a text out of a row.
#[inline(always)]
fn take_at(row: &mut Vec<Option<Vec<u8>>>, at: usize) -> Option<Vec<u8>>
    requires { at < length row.old.items }
    ensures text { text_view result ≡ get_or (row_view row.old.items) at None }
    ensures row { row_view row.new.items ≡ put_at (row_view row.old.items) at None }
    ensures long { length row.new.items ≡ length row.old.items }
{
    row[at].take()
}

/// Puts a text into a row.
#[inline(always)]
fn put(row: &mut Vec<Option<Vec<u8>>>, at: usize, text: Option<Vec<u8>>)
    requires { at < length row.old.items }
    ensures row { row_view row.new.items ≡ put_at (row_view row.old.items) at (text_view text) }
    ensures long { length row.new.items ≡ length row.old.items }
{
    row[at] = text;
}

/// The cell of one byte at a place. It is put in the place of the rest's cell, which is given back.
#[inline(always)]
fn put_byte(
    alloc: Global,
    set: ByteSet,
    token: &[u8],
    at: usize,
    row: &mut Vec<Option<Vec<u8>>>,
    after: Option<Vec<u8>>,
) -> Result<Option<Vec<u8>>, AllocError>
    requires { at + 1 < length row.old.items }
    ensures here { IfOk result (λ here. text_view here ≡ get_or (row_view row.old.items) at None) }
    ensures row { OnOk result (row_view row.new.items ≡ put_at (row_view row.old.items) at
        (spec.byte_cell (is_star (token_at token.now)) (spec.byte_for (token_at token.now) set)
        (get_or (row_view row.old.items) at None) (text_view after)
        (get_or (row_view row.old.items) (at + 1) None))) }
    ensures long { OnOk result (length row.new.items ≡ length row.old.items) }
{
    let here = take_at(row, at);
    let text = byte_cell(alloc, set, token, &here, after, &row[at + 1])?;
    put(row, at, text);
    Ok(here)
}

/// The row of one byte of the set, before a rest that has this row.
fn byte_texts(
    alloc: Global,
    set: ByteSet,
    tokens: &[&[u8]],
    row: Vec<Option<Vec<u8>>>,
) -> Result<Vec<Option<Vec<u8>>>, AllocError>
    requires { length row.items ≡ suc (length tokens.now) }
    ensures row { IfOk result (λ new. row_view new.items
        ≡ spec.byte_texts set (views tokens.now) (row_view row.items)) }
    ensures long { IfOk result (λ new. length new.items ≡ suc (length tokens.now)) }
{
    let mut row = row;
    let mut at = tokens.len();
    let mut after = take_at(&mut row, at);
    while at > 0 {
        at -= 1;
        after = put_byte(alloc, set, tokens[at], at, &mut row, after)?;
    }
    Ok(row)
}

/// The cell of any number of bytes at a place. It is put in the place of the rest's cell.
#[inline(always)]
fn put_many(
    alloc: Global,
    set: ByteSet,
    token: &[u8],
    at: usize,
    row: &mut Vec<Option<Vec<u8>>>,
) -> Result<(), AllocError>
    requires { at + 1 < length row.old.items }
    ensures row { OnOk result (row_view row.new.items ≡ put_at (row_view row.old.items) at
        (spec.many_cell (is_star (token_at token.now)) (spec.byte_for (token_at token.now) set)
        (get_or (row_view row.old.items) at None)
        (get_or (row_view row.old.items) (at + 1) None))) }
    ensures long { OnOk result (length row.new.items ≡ length row.old.items) }
{
    let here = take_at(row, at);
    let text = many_cell(alloc, set, token, here, &row[at + 1])?;
    put(row, at, text);
    Ok(())
}

/// The row of any number of bytes of the set.
fn many_texts(
    alloc: Global,
    set: ByteSet,
    tokens: &[&[u8]],
    row: Vec<Option<Vec<u8>>>,
) -> Result<Vec<Option<Vec<u8>>>, AllocError>
    requires { length row.items ≡ suc (length tokens.now) }
    ensures row { IfOk result (λ new. row_view new.items
        ≡ spec.many_texts set (views tokens.now) (row_view row.items)) }
    ensures long { IfOk result (λ new. length new.items ≡ suc (length tokens.now)) }
{
    let mut row = row;
    let mut at = tokens.len();
    while at > 0 {
        at -= 1;
        put_many(alloc, set, tokens[at], at, &mut row)?;
    }
    Ok(row)
}

/// The row of some bytes.
fn fixed_texts(
    alloc: Global,
    bytes: &[u8],
    tokens: &[&[u8]],
    row: Vec<Option<Vec<u8>>>,
) -> Result<Vec<Option<Vec<u8>>>, AllocError>
    requires { length row.items ≡ suc (length tokens.now) }
    ensures row { IfOk result (λ new. row_view new.items
        ≡ spec.fixed_texts bytes.now (views tokens.now) (row_view row.items)) }
    ensures long { IfOk result (λ new. length new.items ≡ suc (length tokens.now)) }
{
    let mut row = row;
    let mut at = bytes.len();
    while at > 0 {
        at -= 1;
        row = byte_texts(alloc, ByteSet::Only(bytes[at]), tokens, row)?;
    }
    Ok(row)
}

/// The row of a number of bytes of the set.
fn counted_texts(
    alloc: Global,
    set: ByteSet,
    count: usize,
    tokens: &[&[u8]],
    row: Vec<Option<Vec<u8>>>,
) -> Result<Vec<Option<Vec<u8>>>, AllocError>
    requires { length row.items ≡ suc (length tokens.now) }
    ensures row { IfOk result (λ new. row_view new.items
        ≡ spec.counted_texts set count (views tokens.now) (row_view row.items)) }
    ensures long { IfOk result (λ new. length new.items ≡ suc (length tokens.now)) }
{
    let mut row = row;
    let mut done = 0;
    while done < count {
        row = byte_texts(alloc, set, tokens, row)?;
        done += 1;
    }
    Ok(row)
}

/// The row of a piece.
fn piece_texts(
    alloc: Global,
    piece: Piece,
    tokens: &[&[u8]],
    row: Vec<Option<Vec<u8>>>,
) -> Result<Vec<Option<Vec<u8>>>, AllocError>
    requires { length row.items ≡ suc (length tokens.now) }
    ensures row { IfOk result (λ new. row_view new.items
        ≡ spec.piece_texts (piece_of piece) (views tokens.now) (row_view row.items)) }
    ensures long { IfOk result (λ new. length new.items ≡ suc (length tokens.now)) }
{
    match piece {
        Piece::Fixed(bytes) => fixed_texts(alloc, bytes, tokens, row),
        Piece::Counted(set, count) => counted_texts(alloc, set, count, tokens, row),
        Piece::Repeated(set) => many_texts(alloc, set, tokens, row),
    }
}

/// The row of some pieces in order.
fn pieces_texts(
    alloc: Global,
    pieces: &[Piece],
    tokens: &[&[u8]],
    row: Vec<Option<Vec<u8>>>,
) -> Result<Vec<Option<Vec<u8>>>, AllocError>
    requires { length row.items ≡ suc (length tokens.now) }
    ensures row { IfOk result (λ new. row_view new.items
        ≡ spec.pieces_texts (map piece_of pieces.now) (views tokens.now) (row_view row.items)) }
    ensures long { IfOk result (λ new. length new.items ≡ suc (length tokens.now)) }
{
    let mut row = row;
    let mut at = pieces.len();
    while at > 0 {
        at -= 1;
        row = piece_texts(alloc, pieces[at], tokens, row)?;
    }
    Ok(row)
}

/// The cell of one thing or another, in the place of the one's.
#[inline(always)]
fn put_either(at: usize, row: &mut Vec<Option<Vec<u8>>>, other: &mut Vec<Option<Vec<u8>>>)
    requires row { at < length row.old.items }
    requires other { at < length other.old.items }
    ensures row { row_view row.new.items ≡ put_at (row_view row.old.items) at
        (spec.shorter (get_or (row_view row.old.items) at None)
        (get_or (row_view other.old.items) at None)) }
    ensures long { length row.new.items ≡ length row.old.items }
    ensures other { row_view other.new.items ≡ put_at (row_view other.old.items) at None }
    ensures far { length other.new.items ≡ length other.old.items }
{
    let first = take_at(row, at);
    let second = take_at(other, at);
    put(row, at, shorter(first, second));
}

/// The row of one thing or another.
fn either_texts(
    tokens: &[&[u8]],
    row: Vec<Option<Vec<u8>>>,
    other: Vec<Option<Vec<u8>>>,
) -> Vec<Option<Vec<u8>>>
    requires row { length row.items ≡ suc (length tokens.now) }
    requires other { length other.items ≡ suc (length tokens.now) }
    ensures row { row_view result.items
        ≡ spec.either_texts (views tokens.now) (row_view row.items) (row_view other.items) }
    ensures long { length result.items ≡ suc (length tokens.now) }
{
    let mut row = row;
    let mut other = other;
    let mut at = tokens.len();
    put_either(at, &mut row, &mut other);
    while at > 0 {
        at -= 1;
        put_either(at, &mut row, &mut other);
    }
    row
}

/// The row of nothing at all.
fn no_texts(alloc: Global, tokens: &[&[u8]]) -> Result<Vec<Option<Vec<u8>>>, AllocError>
    ensures row { IfOk result (λ new. row_view new.items ≡ spec.no_texts (views tokens.now)) }
    ensures long { IfOk result (λ new. length new.items ≡ suc (length tokens.now)) }
{
    let mut row = Vec::with_capacity(alloc, tokens.len() + 1)?;
    row.push(None)?;
    let mut at = 0;
    while at < tokens.len() {
        row.push(None)?;
        at += 1;
    }
    Ok(row)
}

/// The cell of the text's end at a place, by the one after it.
fn put_end(
    alloc: Global,
    token: &[u8],
    at: usize,
    row: &mut Vec<Option<Vec<u8>>>,
) -> Result<(), AllocError>
    requires { at + 1 < length row.old.items }
    ensures row { OnOk result (row_view row.new.items ≡ put_at (row_view row.old.items) at
        (if is_star (token_at token.now) then get_or (row_view row.old.items) (at + 1) None
        else None)) }
    ensures long { OnOk result (length row.new.items ≡ length row.old.items) }
{
    if begins_star(token) {
        let text = copied(alloc, &row[at + 1])?;
        put(row, at, text);
    } else {
        put(row, at, None);
    }
    Ok(())
}

/// The row of the text's end.
fn end_texts(alloc: Global, tokens: &[&[u8]]) -> Result<Vec<Option<Vec<u8>>>, AllocError>
    ensures row { IfOk result (λ new. row_view new.items ≡ spec.end_texts (views tokens.now)) }
    ensures long { IfOk result (λ new. length new.items ≡ suc (length tokens.now)) }
{
    let mut row = no_texts(alloc, tokens)?;
    let mut at = tokens.len();
    put(&mut row, at, Some(Vec::new(alloc)));
    while at > 0 {
        at -= 1;
        put_end(alloc, tokens[at], at, &mut row)?;
    }
    Ok(row)
}

/// A row of its own.
fn copied_row(alloc: Global, row: &[Option<Vec<u8>>]) -> Result<Vec<Option<Vec<u8>>>, AllocError>
    ensures row { IfOk result (λ copy. row_view copy.items ≡ row_view row.now) }
    ensures long { IfOk result (λ copy. length copy.items ≡ length row.now) }
{
    let mut copy = Vec::with_capacity(alloc, row.len())?;
    for text in row {
        copy.push(copied(alloc, text)?)?;
    }
    Ok(copy)
}

/// The row of one of several ways.
fn field_texts(
    alloc: Global,
    ways: &[&[Piece]],
    tokens: &[&[u8]],
    row: &[Option<Vec<u8>>],
) -> Result<Vec<Option<Vec<u8>>>, AllocError>
    requires { length row.now ≡ suc (length tokens.now) }
    ensures row { IfOk result (λ new. row_view new.items
        ≡ spec.field_texts (map (λ way. map piece_of way.now) ways.now) (views tokens.now)
        (row_view row.now)) }
    ensures long { IfOk result (λ new. length new.items ≡ suc (length tokens.now)) }
{
    let mut all = no_texts(alloc, tokens)?;
    let mut at = ways.len();
    while at > 0 {
        at -= 1;
        let one = pieces_texts(alloc, ways[at], tokens, copied_row(alloc, row)?)?;
        all = either_texts(tokens, one, all);
    }
    Ok(all)
}

/// The row of some fields in order.
fn fields_texts(
    alloc: Global,
    fields: &[&[&[Piece]]],
    tokens: &[&[u8]],
) -> Result<Vec<Option<Vec<u8>>>, AllocError>
    ensures row { IfOk result (λ new. row_view new.items
        ≡ spec.fields_texts (fields_of fields.now) (views tokens.now)) }
    ensures long { IfOk result (λ new. length new.items ≡ suc (length tokens.now)) }
{
    let mut row = end_texts(alloc, tokens)?;
    let mut at = fields.len();
    while at > 0 {
        at -= 1;
        row = field_texts(alloc, fields[at], tokens, &row)?;
    }
    Ok(row)
}

/// As `form_text`, without a look at the form's beginning.
fn row_text(alloc: Global, form: FormRow, tokens: &[&[u8]]) -> Result<Option<Vec<u8>>, AllocError>
    ensures { IfOk result (λ found. text_view found
        ≡ spec.text_in (views tokens.now) (form_of form)) }
{
    let behind = fields_texts(alloc, form.fields, tokens)?;
    let mut row = fixed_texts(alloc, form.prefix, tokens, behind)?;
    Ok(take_at(&mut row, 0))
}

/// The shortest text of the form that the tokens match. Most forms are seen at once to have none.
fn form_text(alloc: Global, form: FormRow, tokens: &[&[u8]]) -> Result<Option<Vec<u8>>, AllocError>
    ensures { IfOk result (λ found. text_view found
        ≡ spec.text_in (views tokens.now) (form_of form)) }
{
    if is_dead_at_once(form, tokens) {
        return Ok(None);
    }
    row_text(alloc, form, tokens)
}

/// The shortest text of the forms that the tokens match.
fn text_among(
    alloc: Global,
    forms: &[FormRow],
    tokens: &[&[u8]],
) -> Result<Option<Vec<u8>>, AllocError>
    ensures { IfOk result (λ found. text_view found
        ≡ spec.text_among (map form_of forms.now) (views tokens.now)) }
{
    let mut found = None;
    let mut at = forms.len();
    while at > 0 {
        at -= 1;
        let text = form_text(alloc, forms[at], tokens)?;
        found = shorter(text, found);
    }
    Ok(found)
}

/// The shortest text that udev asks and that the tokens match, if there is one. Tokens are given by the texts that they begin.
///
/// The only error is want of memory. The time is at most the number of tokens times the size of the forms that they may match, and
/// this times the text's length.
pub fn asked_text(alloc: Global, tokens: &[&[u8]]) -> Result<Option<Vec<u8>>, AllocError>
    ensures { IfOk result (λ found. text_view found ≡ spec.text_among asked (views tokens.now)) }
{
    let forms = all_forms(alloc, Table::Asked)?;
    text_among(alloc, &forms, tokens)
}

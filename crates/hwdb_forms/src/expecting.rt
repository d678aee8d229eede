//! What can be written at a place of a pattern.
ghost use Rattle.std.specs.Prelude.{◌≡◌, ℕ, ◌<◌, ◌++◌, ◌∷◌, [], false, filter, map, IfOk};
ghost use Rattle.hwdb_spec.specs.Patterns.{tokens};
ghost use Rattle.hwdb_spec.specs.Forms;
ghost use Rattle.hwdb_spec_commands.specs.FormTable;
ghost use Rattle.hwdb_spec_commands.specs.FormTable.{asked};
ghost use Rattle.hwdb_spec_commands.specs.LikelyForms.{likely};
ghost use Rattle.hwdb_forms.specs.Internal.{AreAfter, Every, HasWays, IsAfter, followed, form_of, forms_of, has_byte, views};

use crate::beginnings::{free, free_prefixes};
use crate::bytes::{Bytes, are_with, joined, no_bytes};
use crate::judging::can_begin;
use crate::likely::likely_known;
use crate::pieces::{FormRow, Table};
use crate::plain::is_wild;
use crate::table::known;
use crate::walks::bytes_along;
use hwdb_pattern::{closed_bracket_stays, open_place, token_texts, tokens_are_the_pattern};
use std::alloc::{AllocError, Global};

/// What is known of the beginning of a pattern: it is the same for each byte after it.
#[derive(Drop)]
struct Following<'a> {
    /// The forms that may go on after it.
    table: Table,
    tokens: Vec<&'a [u8]>,
    /// Whether no `[` is open. Else a `]` after them may close one, and no other byte changes them.
    is_closed: bool,
}

/// Some forms, and those of which only the prefix is said.
fn with_free(
    alloc: Global,
    forms: &[FormRow],
    prefixes: &[&'static [u8]],
) -> Result<Vec<FormRow>, AllocError>
    ensures { IfOk result (λ all. map form_of all.items
        ≡ map form_of forms.now ++ map (λ prefix. FormTable.free prefix.now) prefixes.now) }
{
    let mut all = forms.to_vec(alloc)?;
    for prefix in prefixes {
        all.push(free(prefix))?;
    }
    Ok(all)
}

/// All forms that udev asks.
fn asked_forms(alloc: Global) -> Result<Vec<FormRow>, AllocError>
    ensures { IfOk result (λ forms. map form_of forms.items ≡ asked) }
{
    let forms = with_free(alloc, &known(), free_prefixes())?;
    Ok(forms)
}

/// All forms that it likely asks.
fn likely_forms(alloc: Global) -> Result<Vec<FormRow>, AllocError>
    ensures { IfOk result (λ forms. map form_of forms.items ≡ likely) }
{
    let forms = with_free(alloc, &likely_known(), free_prefixes())?;
    Ok(forms)
}

/// All forms of a table.
pub(crate) fn all_forms(alloc: Global, table: Table) -> Result<Vec<FormRow>, AllocError>
    ensures { IfOk result (λ forms. map form_of forms.items ≡ forms_of table) }
{
    match table {
        Table::Asked => asked_forms(alloc),
        Table::Likely => likely_forms(alloc),
    }
}

/// What is known of the beginning of a pattern.
fn known_after(alloc: Global, table: Table, front: &[u8]) -> Result<Following<'_>, AllocError>
    ensures after { IfOk result (IsAfter front.now) }
    ensures table { IfOk result (λ f. f.table ≡ table) }
{
    let tokens = token_texts(alloc, front)?;
    let is_closed = open_place(front) == front.len();
    Ok(Following {
        table,
        tokens,
        is_closed,
    })
}

/// Whether a text of the table begins with what the beginning of a pattern and the byte after it match.
fn begins_anew(alloc: Global, table: Table, front: &[u8], byte: u8) -> Result<bool, AllocError>
    ensures { IfOk result (λ met. met
        ≡ Forms.can_begin (forms_of table) (tokens (front.now ++ byte ∷ []))) }
{
    let mut text = front.to_vec(alloc)?;
    text.push(byte)?;
    let tokens = token_texts(alloc, &text)?;
    let met = can_begin(alloc, table, &tokens)?;
    Ok(met)
}

/// Which bytes may come after all tokens in a text of one of the forms.
fn bytes_among(alloc: Global, forms: &[FormRow], tokens: &[&[u8]]) -> Result<Bytes, AllocError>
    requires { Every Forms.Form HasWays (map form_of forms.now) }
    ensures { IfOk result (λ bytes. (byte : ℕ) → byte < 256 → has_byte bytes byte
        ≡ Forms.can_match (map form_of forms.now) (followed (views tokens.now) byte)) }
{
    let mut bytes = no_bytes();
    for form in forms {
        let own = bytes_along(alloc, *form, tokens)?;
        bytes = joined(bytes, own);
    }
    Ok(bytes)
}

/// Which bytes may be written after the beginning of a pattern. Of a `]` nothing is told if a `[` is open.
fn bytes_after(alloc: Global, known: &Following<'_>, front: &[u8]) -> Result<Bytes, AllocError>
    requires { IsAfter front.now known.now }
    ensures { IfOk result (AreAfter (forms_of known.now.table) front.now) }
{
    closed_bracket_stays();
    tokens_are_the_pattern();
    let forms = all_forms(alloc, known.table)?;
    let bytes = bytes_among(alloc, &forms, &known.tokens)?;
    Ok(bytes)
}

/// Whether a text of the table begins with what the beginning of a pattern and the byte after it match. `after` is what is known of
/// the bytes there.
fn begins(
    alloc: Global,
    known: &Following<'_>,
    front: &[u8],
    after: Bytes,
    byte: u8,
) -> Result<bool, AllocError>
    requires known { IsAfter front.now known.now }
    requires after { AreAfter (forms_of known.now.table) front.now after }
    requires plain { Forms.is_wild byte ≡ false }
    ensures { IfOk result (λ met. met
        ≡ Forms.can_begin (forms_of known.now.table) (tokens (front.now ++ byte ∷ []))) }
{
    if byte == b']' {
        if !known.is_closed {
            let met = begins_anew(alloc, known.table, front, byte)?;
            return Ok(met);
        }
    }
    Ok(are_with(after, byte))
}

/// Adds the byte if it is no wildcard, and may be written there.
fn put_expected(
    alloc: Global,
    known: &Following<'_>,
    front: &[u8],
    after: Bytes,
    byte: u8,
    bytes: &mut Vec<u8>,
) -> Result<(), AllocError>
    requires known { IsAfter front.now known.now }
    requires after { AreAfter (forms_of known.now.table) front.now after }
    ensures { IfOk result (λ done. bytes.new.items
        ≡ bytes.old.items
        ++ filter (Forms.is_expected (forms_of known.now.table) front.now) (byte ∷ [])) }
{
    if is_wild(byte) {
        return Ok(());
    }
    let met = begins(alloc, known, front, after, byte)?;
    if met {
        bytes.push(byte)?;
    }
    Ok(())
}

/// The bytes that may be written after the beginning of a pattern: some text of the table begins with what both match.
fn expected_by(alloc: Global, table: Table, front: &[u8]) -> Result<Vec<u8>, AllocError>
    ensures { IfOk result (λ bytes. bytes.items ≡ Forms.expected (forms_of table) front.now) }
{
    let known = known_after(alloc, table, front)?;
    let after = bytes_after(alloc, &known, front)?;
    let mut bytes = Vec::new(alloc);
    let mut byte = 0u8;
    while byte < u8::MAX {
        put_expected(alloc, &known, front, after, byte, &mut bytes)?;
        byte += 1;
    }
    put_expected(alloc, &known, front, after, byte, &mut bytes)?;
    Ok(bytes)
}

/// The bytes that may be written after the beginning of a pattern: some text that udev asks begins with what both match. Wildcards
/// aren't among them.
///
/// The only error is want of memory.
pub fn expected(alloc: Global, front: &[u8]) -> Result<Vec<u8>, AllocError>
    ensures { IfOk result (λ bytes. bytes.items ≡ Forms.expected asked front.now) }
{
    expected_by(alloc, Table::Asked, front)
}

/// As `expected`, of a text that udev likely asks.
///
/// The only error is want of memory.
pub fn expected_likely(alloc: Global, front: &[u8]) -> Result<Vec<u8>, AllocError>
    ensures { IfOk result (λ bytes. bytes.items ≡ Forms.expected likely front.now) }
{
    expected_by(alloc, Table::Likely, front)
}

//! The lines of a file, some of which are mended.
ghost use Rattle.std.specs.Prelude.{◌≡◌, ◌≤◌, ◌+◌, ◌++◌, ◌∷◌, [], IfOk, OnOk, drop, flat_map, is_some, length, option_map};
ghost use Rattle.std.specs.List.{prefix_len};
ghost use Rattle.hwdb_spec.specs.Lines.{is};
ghost use Rattle.hwdb_spec_commands.specs.Patches;
ghost use Rattle.hwdb_check.specs.Found.{finds};
ghost use Rattle.hwdb_check.specs.Patching.{change_of, edit_of, edits_of};

use crate::findings::{Found, copy_of};
use crate::mends::has;
use hwdb_properties::same;
use hwdb_text::Lines;
use std::alloc::{AllocError, Global};

/// A line of a file, by its number, and the line that comes in its place, if one does.
#[derive(Drop)]
pub struct Edit<'f> {
    /// Its number, from 1.
    pub number: u64,
    /// The line as it is in the file.
    pub old: &'f [u8],
    /// The line that comes in its place.
    pub new: Option<Vec<u8>>,
}

/// What is done with a line by its findings.
#[derive(Clone, Copy)]
pub enum Change {
    /// It is mended.
    Mend,
    /// If it was mended, it is mended once more.
    MendAgain,
    /// If there are any, its mend is taken back.
    TakeBack,
}

/// Whether a line is mended.
pub fn is_mended(edit: &Edit<'_>) -> bool
    ensures { result ≡ is_some (edit_of edit.now).new }
{
    edit.new.is_some()
}

/// The line as it is after its mend.
pub fn line_of<'e>(edit: &'e Edit<'_>) -> &'e [u8]
    ensures { result.now ≡ Patches.line_of (edit_of edit.now) }
{
    match &edit.new {
        Some(text) => text,
        None => edit.old,
    }
}

/// Whether a newline ends the last line of a file.
pub fn is_ended(bytes: &[u8]) -> bool
    ensures { result ≡ Patches.is_ended bytes.now }
{
    bytes.ends_with(b"\n")
}

/// Adds a line to others. The only error, here and below, is `AllocError`.
pub fn put_edit<'f>(all: &mut Vec<Edit<'f>>, edit: Edit<'f>) -> Result<(), AllocError>
    ensures { OnOk result (edits_of all.new.items
        ≡ edits_of all.old.items ++ edit_of edit.entry ∷ []) }
{
    all.push(edit).map_err(AllocError::from)
}

/// The lines of a file, each as it is.
pub fn unmended<'f>(alloc: Global, bytes: &'f [u8]) -> Result<Vec<Edit<'f>>, AllocError>
    ensures { IfOk result (λ all. edits_of all.items ≡ Patches.unmended bytes.now) }
{
    let mut all = Vec::new(alloc);
    let mut number = 1;
    for old in Lines::new(bytes) {
        let edit = Edit {
            number,
            old,
            new: None,
        };
        put_edit(&mut all, edit)?;
        number += 1;
    }
    Ok(all)
}

/// Such lines, each with a newline after it.
fn whole_text(alloc: Global, edits: &[Edit<'_>]) -> Result<Vec<u8>, AllocError>
    ensures { IfOk result
        (λ text. text.items ≡ flat_map Patches.with_newline (edits_of edits.now)) }
{
    let mut text = Vec::new(alloc);
    for edit in edits {
        text.extend_from_slice(line_of(edit))?;
        text.push(b'\n')?;
    }
    Ok(text)
}

/// The text of such lines. Without `ended` the last one has no newline after it.
pub fn text_of(alloc: Global, ended: bool, edits: &[Edit<'_>]) -> Result<Vec<u8>, AllocError>
    ensures { IfOk result (λ text. text.items ≡ Patches.text_of ended (edits_of edits.now)) }
{
    let mut text = whole_text(alloc, edits)?;
    if !ended {
        let _ = text.pop();
    }
    Ok(text)
}

/// Where the findings of a line end, which begin here.
pub fn own_end(found: &[Found], from: usize, number: u64) -> usize
    requires { from ≤ length found.now }
    ensures end { result
        ≡ from + prefix_len (λ f. is number f.line) (drop from found.now) }
    ensures within { result ≤ length found.now }
    ensures after { from ≤ result }
{
    let mut end = from;
    'own: while end < found.len() {
        if found[end].line != number {
            return end;
        }
        end += 1;
    }
    end
}

/// The first mend among some findings.
pub fn first_mend(found: &[Found]) -> Option<&[u8]>
    ensures { option_map (λ t. t.now) result ≡ Patches.first_mend (finds found.now) }
{
    for one in found {
        if let Some(text) = &one.fix {
            return Some(text);
        }
    }
    None
}

/// Whether a text can come in the place of a line.
fn takes_place(old: &[u8], text: &[u8]) -> bool
    ensures { result ≡ Patches.takes_place old.now text.now }
{
    if text.is_empty() {
        return false;
    }
    if has(b'\n', text) {
        return false;
    }
    !same(text, old)
}

/// A copy of a line.
fn copied<'f>(alloc: Global, edit: &Edit<'f>) -> Result<Edit<'f>, AllocError>
    ensures { IfOk result (λ copy. edit_of copy ≡ edit_of edit.now) }
{
    Ok(Edit {
        number: edit.number,
        old: edit.old,
        new: copy_of(alloc, &edit.new)?,
    })
}

/// A line with another one in its place, if that can be.
fn replaced_by<'f>(
    alloc: Global,
    text: Option<&[u8]>,
    edit: &Edit<'f>,
) -> Result<Edit<'f>, AllocError>
    ensures { IfOk result (λ now. edit_of now
        ≡ Patches.replaced_by (option_map (λ t. t.now) text.entry) (edit_of edit.now)) }
{
    match text {
        Some(text) if takes_place(edit.old, text) => Ok(Edit {
            number: edit.number,
            old: edit.old,
            new: Some(Vec::from_slice(alloc, text)?),
        }),
        _ => copied(alloc, edit),
    }
}

/// A line that was mended once, and once more.
fn mended_again<'f>(alloc: Global, own: &[Found], edit: &Edit<'f>) -> Result<Edit<'f>, AllocError>
    ensures { IfOk result
        (λ now. edit_of now ≡ Patches.mend_again (finds own.now) (edit_of edit.now)) }
{
    if is_mended(edit) {
        return replaced_by(alloc, first_mend(own), edit);
    }
    copied(alloc, edit)
}

/// A line without its mend, if something is found in it.
pub fn taken_back<'f>(alloc: Global, own: &[Found], edit: &Edit<'f>) -> Result<Edit<'f>, AllocError>
    ensures { IfOk result
        (λ now. edit_of now ≡ Patches.take_back (finds own.now) (edit_of edit.now)) }
{
    if own.is_empty() {
        return copied(alloc, edit);
    }
    Ok(Edit {
        number: edit.number,
        old: edit.old,
        new: None,
    })
}

/// A line after what is done with it by its own findings.
fn changed<'f>(
    alloc: Global,
    change: Change,
    own: &[Found],
    edit: &Edit<'f>,
) -> Result<Edit<'f>, AllocError>
    ensures { IfOk result
        (λ now. edit_of now ≡ change_of change (finds own.now) (edit_of edit.now)) }
{
    match change {
        Change::Mend => replaced_by(alloc, first_mend(own), edit),
        Change::MendAgain => mended_again(alloc, own, edit),
        Change::TakeBack => taken_back(alloc, own, edit),
    }
}

/// Lines after what is done with each by its own findings. It takes a step for each line and each finding.
pub fn line_by_line<'f>(
    alloc: Global,
    change: Change,
    found: &[Found],
    edits: &[Edit<'f>],
) -> Result<Vec<Edit<'f>>, AllocError>
    ensures { IfOk result (λ all. edits_of all.items
        ≡ Patches.line_by_line (change_of change) (finds found.now) (edits_of edits.now)) }
{
    let mut all = Vec::new(alloc);
    let mut from = 0;
    for edit in edits {
        let end = own_end(found, from, edit.number);
        let now = changed(alloc, change, &found[from..end], edit)?;
        put_edit(&mut all, now)?;
        from = end;
    }
    Ok(all)
}

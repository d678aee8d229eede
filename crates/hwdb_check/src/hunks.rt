//! A unified patch of the lines of a file, some of which are mended.
ghost use Rattle.std.specs.Prelude.{◌≡◌, ◌++◌, ◌+◌, [], OnOk, flat_map, is_some, take};
ghost use Rattle.std.specs.List.{list_any};
ghost use Rattle.hwdb_spec_commands.specs.Patches;
ghost use Rattle.hwdb_check.specs.Patching.{edit_of, edits_of};

use crate::edits::{Edit, is_ended, is_mended, line_of};
use crate::findings::push_count;
use crate::mends::has;
use hwdb_show::push_name;
use std::alloc::{AllocError, Global};

/// How many unchanged lines a patch shows on each side of a change.
const CONTEXT: usize = 3;

/// What says that no newline ends a line.
const NO_NEWLINE: &[u8] = b"\n\\ No newline at end of file\n";

/// Whether one of some lines is mended.
fn any_mended(edits: &[Edit<'_>]) -> bool
    ensures { result ≡ list_any (λ e. is_some e.new) (edits_of edits.now) }
{
    for edit in edits {
        if is_mended(edit) {
            return true;
        }
    }
    false
}

/// Whether one of the first four of some lines is mended.
fn is_near(edits: &[Edit<'_>]) -> bool
    ensures { result ≡ list_any (λ e. is_some e.new)
        (take (Patches.context + 1) (edits_of edits.now)) }
{
    any_mended(&edits[..edits.len().min(CONTEXT + 1)])
}

/// Whether the first of some lines is shown, if so many lines are left after a change.
fn is_shown(left: usize, edits: &[Edit<'_>]) -> bool
    ensures { result ≡ Patches.is_shown left (edits_of edits.now) }
{
    if left > 0 {
        return true;
    }
    is_near(edits)
}

/// How many lines are left after one.
fn left_after(left: usize, edit: &Edit<'_>) -> usize
    ensures { result ≡ Patches.left_after left (edit_of edit.now) }
{
    if is_mended(edit) {
        CONTEXT
    } else {
        left.saturating_sub(1)
    }
}

/// Adds what ends a line of a patch. The only error, here and below, is `AllocError`.
fn push_end(text: &mut Vec<u8>, bare: u64, number: u64) -> Result<(), AllocError>
    ensures { OnOk result (text.new.items ≡ text.old.items ++ Patches.end_text bare number) }
{
    if number == bare {
        return text.extend_from_slice(NO_NEWLINE);
    }
    text.push(b'\n')?;
    Ok(())
}

/// Adds a line of a patch.
fn push_patch_line(
    text: &mut Vec<u8>,
    sign: u8,
    bare: u64,
    number: u64,
    line: &[u8],
) -> Result<(), AllocError>
    ensures { OnOk result
        (text.new.items ≡ text.old.items ++ Patches.patch_line sign bare number line.now) }
{
    text.push(sign)?;
    text.extend_from_slice(line)?;
    push_end(text, bare, number)
}

/// Adds the old line of a hunk. New lines that are due come before one that stays.
fn push_old_line(
    text: &mut Vec<u8>,
    bare: u64,
    added: &[u8],
    edit: &Edit<'_>,
) -> Result<(), AllocError>
    ensures { OnOk result (text.new.items ≡ text.old.items
        ++ Patches.old_line bare added.now (edit_of edit.now)) }
{
    if is_mended(edit) {
        return push_patch_line(text, b'-', bare, edit.number, edit.old);
    }
    text.extend_from_slice(added)?;
    push_patch_line(text, b' ', bare, edit.number, edit.old)
}

/// Adds the new line of a change to those that are due; none is due after a line that stays.
fn put_added(added: &mut Vec<u8>, bare: u64, edit: &Edit<'_>) -> Result<(), AllocError>
    ensures { OnOk result
        (added.new.items ≡ Patches.added_after bare added.old.items (edit_of edit.now)) }
{
    if is_mended(edit) {
        return push_patch_line(added, b'+', bare, edit.number, line_of(edit));
    }
    added.clear();
    Ok(())
}

/// Adds the lines of a hunk.
fn push_hunk_lines(
    alloc: Global,
    text: &mut Vec<u8>,
    bare: u64,
    hunk: &[Edit<'_>],
) -> Result<(), AllocError>
    ensures { OnOk result (text.new.items
        ≡ text.old.items ++ Patches.hunk_lines bare [] (edits_of hunk.now)) }
{
    let mut added = Vec::new(alloc);
    for edit in hunk {
        push_old_line(text, bare, &added, edit)?;
        put_added(&mut added, bare, edit)?;
    }
    text.extend_from_slice(&added)?;
    Ok(())
}

/// Adds where a hunk begins, and how many lines it has, if it isn't one.
fn push_range(text: &mut Vec<u8>, number: u64, size: usize) -> Result<(), AllocError>
    ensures { OnOk result
        (text.new.items ≡ text.old.items ++ Patches.range_text number size) }
{
    push_count(text, number)?;
    if size != 1 {
        text.push(b',')?;
        push_count(text, size as u64)?;
    }
    Ok(())
}

/// Adds the first line of a hunk.
fn push_hunk_head(text: &mut Vec<u8>, number: u64, size: usize) -> Result<(), AllocError>
    ensures { OnOk result
        (text.new.items ≡ text.old.items ++ Patches.hunk_head number size) }
{
    text.extend_from_slice(b"@@ -")?;
    push_range(text, number, size)?;
    text.extend_from_slice(b" +")?;
    push_range(text, number, size)?;
    text.extend_from_slice(b" @@\n")?;
    Ok(())
}

/// Adds a hunk.
fn push_hunk(
    alloc: Global,
    text: &mut Vec<u8>,
    bare: u64,
    hunk: &[Edit<'_>],
) -> Result<(), AllocError>
    ensures { OnOk result
        (text.new.items ≡ text.old.items ++ Patches.hunk_text bare (edits_of hunk.now)) }
{
    if hunk.is_empty() {
        return Ok(());
    }
    push_hunk_head(text, hunk[0].number, hunk.len())?;
    push_hunk_lines(alloc, text, bare, hunk)
}

/// Adds all hunks of some lines.
fn push_hunks(
    alloc: Global,
    text: &mut Vec<u8>,
    bare: u64,
    edits: &[Edit<'_>],
) -> Result<(), AllocError>
    ensures { OnOk result (text.new.items ≡ text.old.items
        ++ flat_map (Patches.hunk_text bare) (Patches.hunks_from 0 [] (edits_of edits.now))) }
{
    let mut left = 0;
    let mut from = 0;
    let mut at = 0;
    'lines: while at < edits.len() {
        let edit = &edits[at];
        if is_shown(left, &edits[at..]) {
            left = left_after(left, edit);
        } else {
            push_hunk(alloc, text, bare, &edits[from..at])?;
            from = at + 1;
            left = 0;
        }
        at += 1;
    }
    push_hunk(alloc, text, bare, &edits[from..at])
}

/// Adds a path as a patch has it, and ends the line.
fn push_patch_name(alloc: Global, text: &mut Vec<u8>, path: &[u8]) -> Result<(), AllocError>
    ensures { OnOk result (text.new.items ≡ text.old.items ++ Patches.patch_name path.now) }
{
    let mut name = Vec::new(alloc);
    push_name(&mut name, path)?;
    text.extend_from_slice(&name)?;
    if has(b' ', &name) {
        text.push(b'\t')?;
    }
    text.push(b'\n')?;
    Ok(())
}

/// Adds the lines that name a file, before and after a patch.
fn push_names(alloc: Global, text: &mut Vec<u8>, path: &[u8]) -> Result<(), AllocError>
    ensures { OnOk result (text.new.items ≡ text.old.items ++ Patches.names_text path.now) }
{
    text.extend_from_slice(b"--- ")?;
    push_patch_name(alloc, text, path)?;
    text.extend_from_slice(b"+++ ")?;
    push_patch_name(alloc, text, path)
}

/// The number of the last line of a file, if no newline ends it, else 0.
fn bare_of(bytes: &[u8], edits: &[Edit<'_>]) -> u64
    ensures { result ≡ Patches.bare_of bytes.now (edits_of edits.now) }
{
    if is_ended(bytes) {
        return 0;
    }
    edits.len() as u64
}

/// Adds the patch of a file with these lines; nothing if each stays. It takes a step for each line.
pub fn push_patch(
    alloc: Global,
    text: &mut Vec<u8>,
    path: &[u8],
    bytes: &[u8],
    edits: &[Edit<'_>],
) -> Result<(), AllocError>
    ensures { OnOk result (text.new.items ≡ text.old.items
        ++ Patches.patch_of path.now bytes.now (edits_of edits.now)) }
{
    if !any_mended(edits) {
        return Ok(());
    }
    push_names(alloc, text, path)?;
    push_hunks(alloc, text, bare_of(bytes, edits), edits)
}

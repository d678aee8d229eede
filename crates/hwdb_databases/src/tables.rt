//! Changes as tables of Markdown, one for each device or pattern.
ghost use Rattle.std.specs.Prelude.{◌≡◌, ◌++◌, flat_map, map, option_map, OnOk};
ghost use Rattle.hwdb_spec_commands.specs.Tables as spec;
ghost use Rattle.hwdb_databases.specs.Internal.Renaming.{group_in, shown};
ghost use Rattle.hwdb_databases.specs.Views.{assignment_of, change_shown};

use crate::groups::Group;
use crate::pairs::Pair;
use crate::renamed::{groups_of, pattern_in, push_place};
use hwdb_query::StoredAssignment;
use itoa::Buffer;
use std::alloc::{AllocError, Global};

/// Whether Markdown or HTML takes a byte for more than itself.
fn is_markup(byte: u8) -> bool
    ensures { result ≡ spec.is_markup byte }
{
    byte < 32 || b"&<>|*_`[]\\~".contains(&byte)
}

/// Adds a byte as a page shows it. The only error, here and below, is `AllocError`.
fn push_byte(text: &mut Vec<u8>, byte: u8) -> Result<(), AllocError>
    ensures { OnOk result (text.new.items ≡ text.old.items ++ spec.page_byte byte) }
{
    if !is_markup(byte) {
        text.push(byte)?;
        return Ok(());
    }
    let mut number = Buffer::new();
    text.extend_from_slice(b"&#")?;
    text.extend_from_slice(number.format(byte).as_bytes())?;
    text.push(b';')?;
    Ok(())
}

/// Adds bytes as a page shows them.
fn push_bytes(text: &mut Vec<u8>, bytes: &[u8]) -> Result<(), AllocError>
    ensures { OnOk result
        (text.new.items ≡ text.old.items ++ flat_map spec.page_byte bytes.now) }
{
    for byte in bytes {
        push_byte(text, *byte)?;
    }
    Ok(())
}

/// Adds a text as code.
fn push_code(text: &mut Vec<u8>, code: &[u8]) -> Result<(), AllocError>
    ensures { OnOk result (text.new.items ≡ text.old.items ++ spec.code_text code.now) }
{
    text.extend_from_slice(b"<code>")?;
    push_bytes(text, code)?;
    text.extend_from_slice(b"</code>")
}

/// Adds a value, and below it where it is.
fn push_value(alloc: Global, text: &mut Vec<u8>, f: &StoredAssignment<'_>) -> Result<(), AllocError>
    ensures { OnOk result
        (text.new.items ≡ text.old.items ++ spec.value_text (assignment_of f.now)) }
{
    let mut place = Vec::new(alloc);
    push_place(&mut place, f)?;
    push_code(text, f.value)?;
    text.extend_from_slice(b"<br>")?;
    push_code(text, &place)
}

/// The same, if there is one.
fn push_cell(
    alloc: Global,
    text: &mut Vec<u8>,
    f: Option<&StoredAssignment<'_>>,
) -> Result<(), AllocError>
    ensures { OnOk result (text.new.items ≡ text.old.items
        ++ spec.cell_text (option_map (λ f. assignment_of f.now) f.entry)) }
{
    match f {
        Some(f) => push_value(alloc, text, f),
        None => Ok(()),
    }
}

/// Adds a row: a key, what was there, and what is there.
fn push_row(
    alloc: Global,
    text: &mut Vec<u8>,
    key: &[u8],
    old: Option<&StoredAssignment<'_>>,
    new: Option<&StoredAssignment<'_>>,
) -> Result<(), AllocError>
    ensures { OnOk result (text.new.items ≡ text.old.items ++ spec.row_text key.now
        (option_map (λ f. assignment_of f.now) old.entry)
        (option_map (λ f. assignment_of f.now) new.entry)) }
{
    text.extend_from_slice(b"| ")?;
    push_code(text, key)?;
    text.extend_from_slice(b" | ")?;
    push_cell(alloc, text, old)?;
    text.extend_from_slice(b" | ")?;
    push_cell(alloc, text, new)?;
    text.extend_from_slice(b" |\n")
}

/// Adds the row of a change.
fn push_change(alloc: Global, text: &mut Vec<u8>, change: Pair<'_, '_>) -> Result<(), AllocError>
    ensures { OnOk result
        (text.new.items ≡ text.old.items ++ spec.change_row (change_shown change.entry)) }
{
    match change {
        Pair::Old(old) => push_row(alloc, text, old.key, Some(old), None),
        Pair::New(new) => push_row(alloc, text, new.key, None, Some(new)),
        Pair::Both(old, new) => push_row(alloc, text, old.key, Some(old), Some(new)),
    }
}

/// Adds a row for each change.
fn push_rows(alloc: Global, text: &mut Vec<u8>, changes: &[Pair<'_, '_>]) -> Result<(), AllocError>
    ensures { OnOk result (text.new.items
        ≡ text.old.items ++ flat_map spec.change_row (map change_shown changes.now)) }
{
    for change in changes {
        push_change(alloc, text, *change)?;
    }
    Ok(())
}

/// Adds what a table is of, and its head.
fn push_head(text: &mut Vec<u8>, name: &[u8]) -> Result<(), AllocError>
    ensures { OnOk result (text.new.items ≡ text.old.items ++ spec.head_text name.now) }
{
    push_code(text, name)?;
    text.extend_from_slice(b"\n\n| Property | Before | After |\n|---|---|---|\n")
}

/// Adds a table.
fn push_table(
    alloc: Global,
    text: &mut Vec<u8>,
    name: &[u8],
    changes: &[Pair<'_, '_>],
) -> Result<(), AllocError>
    ensures { OnOk result (text.new.items
        ≡ text.old.items ++ spec.table_text name.now (map change_shown changes.now)) }
{
    push_head(text, name)?;
    push_rows(alloc, text, changes)?;
    text.push(b'\n')?;
    Ok(())
}

/// Adds the table of a device, if there is a change.
pub(crate) fn push_device_table(
    alloc: Global,
    text: &mut Vec<u8>,
    device: &[u8],
    changes: &[Pair<'_, '_>],
) -> Result<(), AllocError>
    ensures { OnOk result (text.new.items
        ≡ text.old.items ++ spec.device_table device.now (map change_shown changes.now)) }
{
    if changes.is_empty() {
        return Ok(());
    }
    push_table(alloc, text, device, changes)
}

/// Adds the table of a pattern.
fn push_group(
    alloc: Global,
    text: &mut Vec<u8>,
    group: &Group<'_, '_, '_>,
) -> Result<(), AllocError>
    ensures { OnOk result (text.new.items
        ≡ text.old.items ++ spec.group_table (shown group.now)) }
{
    push_table(alloc, text, pattern_in(group.changes), group.changes)
}

/// Adds the tables of some patterns.
fn push_groups(
    alloc: Global,
    text: &mut Vec<u8>,
    groups: &[Group<'_, '_, '_>],
) -> Result<(), AllocError>
    ensures { OnOk result (text.new.items
        ≡ text.old.items ++ flat_map spec.group_table (map shown groups.now)) }
{
    for group in groups {
        push_group(alloc, text, group)?;
    }
    Ok(())
}

/// Adds a table for each pattern.
pub(crate) fn push_tables(
    alloc: Global,
    text: &mut Vec<u8>,
    changes: &[Pair<'_, '_>],
) -> Result<(), AllocError>
    ensures { OnOk result
        (text.new.items ≡ text.old.items ++ spec.tables_text (map change_shown changes.now)) }
{
    let groups = groups_of(alloc, changes)?;
    push_groups(alloc, text, &groups)
}

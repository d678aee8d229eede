//! The lines of what changed for a device, or at a pattern.
ghost use Rattle.std.specs.Prelude.{◌≡◌, ◌++◌, ◌∷◌, map, OnOk};
ghost use Rattle.hwdb_spec_commands.specs.Renamed.{pattern_line};
ghost use Rattle.hwdb_spec_commands.specs.DeviceDifferences.{device_changes_text, told_change, told_changes};
ghost use Rattle.hwdb_spec_commands.specs.Differences.{origin_text};
ghost use Rattle.hwdb_spec_commands.specs.Differences.Change.{Came, Went, Changed};
ghost use Rattle.hwdb_spec.specs.Lines.{byte};
ghost use Rattle.hwdb_databases.specs.Views.{assignment_of, change_shown};

use crate::lines::push_origin;
use crate::pairs::Pair;
use hwdb_query::StoredAssignment;
use std::alloc::AllocError;

/// Adds a sign, a tab, and an assignment. The only error, here and below, is `AllocError`.
pub(crate) fn push_marked(
    text: &mut Vec<u8>,
    sign: u8,
    f: &StoredAssignment<'_>,
) -> Result<(), AllocError>
    ensures { OnOk result (text.new.items
        ≡ text.old.items ++ sign ∷ (byte "\t" ∷ origin_text (assignment_of f.now))) }
{
    text.push(sign)?;
    text.push(b'\t')?;
    push_origin(text, f)
}

/// Adds the line of what went.
fn push_went(text: &mut Vec<u8>, old: &StoredAssignment<'_>) -> Result<(), AllocError>
    ensures { OnOk result
        (text.new.items ≡ text.old.items ++ told_change (Went (assignment_of old.now))) }
{
    push_marked(text, b'-', old)?;
    text.push(b'\n')?;
    Ok(())
}

/// Adds the line of what came.
fn push_came(text: &mut Vec<u8>, new: &StoredAssignment<'_>) -> Result<(), AllocError>
    ensures { OnOk result
        (text.new.items ≡ text.old.items ++ told_change (Came (assignment_of new.now))) }
{
    push_marked(text, b'+', new)?;
    text.push(b'\n')?;
    Ok(())
}

/// Adds the line of what changed.
fn push_changed(
    text: &mut Vec<u8>,
    old: &StoredAssignment<'_>,
    new: &StoredAssignment<'_>,
) -> Result<(), AllocError>
    ensures { OnOk result
        (text.new.items ≡ text.old.items
        ++ told_change (Changed (assignment_of old.now) (assignment_of new.now))) }
{
    push_marked(text, b'~', old)?;
    text.push(b'\t')?;
    push_origin(text, new)?;
    text.push(b'\n')?;
    Ok(())
}

/// Adds the line of a change.
pub(crate) fn push_told(text: &mut Vec<u8>, change: Pair<'_, '_>) -> Result<(), AllocError>
    ensures { OnOk result
        (text.new.items ≡ text.old.items ++ told_change (change_shown change.entry)) }
{
    match change {
        Pair::Old(old) => push_went(text, old),
        Pair::New(new) => push_came(text, new),
        Pair::Both(old, new) => push_changed(text, old, new),
    }
}

/// Adds a device, or a pattern, on a line.
pub(crate) fn push_heading(text: &mut Vec<u8>, name: &[u8]) -> Result<(), AllocError>
    ensures { OnOk result (text.new.items ≡ text.old.items ++ pattern_line name.now) }
{
    text.extend_from_slice(name)?;
    text.push(b'\n')?;
    Ok(())
}

/// Adds a line for each change.
pub(crate) fn push_all(text: &mut Vec<u8>, changes: &[Pair<'_, '_>]) -> Result<(), AllocError>
    ensures { OnOk result
        (text.new.items ≡ text.old.items ++ told_changes (map change_shown changes.now)) }
{
    for change in changes {
        push_told(text, *change)?;
    }
    Ok(())
}

/// Adds a device on a line, and below it a line for each of its changes, if there are some.
pub(crate) fn push_device(
    text: &mut Vec<u8>,
    device: &[u8],
    changes: &[Pair<'_, '_>],
) -> Result<(), AllocError>
    ensures { OnOk result (text.new.items ≡ text.old.items
        ++ device_changes_text device.now (map change_shown changes.now)) }
{
    if changes.is_empty() {
        return Ok(());
    }
    push_heading(text, device)?;
    push_all(text, changes)
}

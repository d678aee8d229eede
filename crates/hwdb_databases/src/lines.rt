//! The lines of changes.
ghost use Rattle.std.specs.Prelude.{◌≡◌, ◌++◌, OnOk, IfOk};
ghost use Rattle.hwdb_spec_commands.specs.Differences.{origin_text, signed_text, change_text, changes_text, are_some};
ghost use Rattle.hwdb_spec_commands.specs.Differences.Change.{Came, Went, Changed};
ghost use Rattle.hwdb_databases.specs.Views.{assignment_of, change_shown, changes_of};

use crate::pairs::Pair;
use hwdb_query::StoredAssignment;
use hwdb_show::push_name;
use itoa::Buffer;
use std::alloc::AllocError;
use std::cmp::Ordering;

/// Adds `KEY=VALUE`, a tab, and where it comes from.
pub(crate) fn push_origin(text: &mut Vec<u8>, f: &StoredAssignment<'_>) -> Result<(), AllocError>
    ensures { OnOk result (text.new.items ≡ text.old.items ++ origin_text (assignment_of f.now)) }
{
    let mut number = Buffer::new();
    text.extend_from_slice(f.key)?;
    text.push(b'=')?;
    text.extend_from_slice(f.value)?;
    text.push(b'\t')?;
    push_name(text, f.path)?;
    text.push(b':')?;
    text.extend_from_slice(number.format(f.line).as_bytes())?;
    Ok(())
}

/// Adds a sign, a tab, the pattern, a tab, and an assignment.
fn push_signed(text: &mut Vec<u8>, sign: u8, f: &StoredAssignment<'_>) -> Result<(), AllocError>
    ensures { OnOk result
        (text.new.items ≡ text.old.items ++ signed_text sign (assignment_of f.now)) }
{
    text.push(sign)?;
    text.push(b'\t')?;
    text.extend_from_slice(&f.pattern)?;
    text.push(b'\t')?;
    push_origin(text, f)?;
    Ok(())
}

/// Adds the line of what went.
fn push_went(text: &mut Vec<u8>, old: &StoredAssignment<'_>) -> Result<(), AllocError>
    ensures { OnOk result
        (text.new.items ≡ text.old.items ++ change_text (Went (assignment_of old.now))) }
{
    push_signed(text, b'-', old)?;
    text.push(b'\n')?;
    Ok(())
}

/// Adds the line of what came.
fn push_came(text: &mut Vec<u8>, new: &StoredAssignment<'_>) -> Result<(), AllocError>
    ensures { OnOk result
        (text.new.items ≡ text.old.items ++ change_text (Came (assignment_of new.now))) }
{
    push_signed(text, b'+', new)?;
    text.push(b'\n')?;
    Ok(())
}

/// Adds the line of what changed.
fn push_changed(
    text: &mut Vec<u8>,
    old: &StoredAssignment<'_>,
    new: &StoredAssignment<'_>,
) -> Result<(), AllocError>
    ensures { OnOk result
        (text.new.items ≡ text.old.items
        ++ change_text (Changed (assignment_of old.now) (assignment_of new.now))) }
{
    push_signed(text, b'~', old)?;
    text.push(b'\t')?;
    push_origin(text, new)?;
    text.push(b'\n')?;
    Ok(())
}

/// Adds the line of a change.
pub(crate) fn push_line(text: &mut Vec<u8>, change: Pair<'_, '_>) -> Result<(), AllocError>
    ensures { OnOk result
        (text.new.items ≡ text.old.items ++ change_text (change_shown change.entry)) }
{
    match change {
        Pair::Old(old) => push_went(text, old),
        Pair::New(new) => push_came(text, new),
        Pair::Both(old, new) => push_changed(text, old, new),
    }
}

/// Adds the line of what happened at a pattern and key, and answers whether something did.
pub(crate) fn push_pair(text: &mut Vec<u8>, pair: Pair<'_, '_>) -> Result<bool, AllocError>
    ensures text { OnOk result
        (text.new.items ≡ text.old.items ++ changes_text (changes_of pair.entry)) }
    ensures differs { IfOk result (λ differs. differs ≡ are_some (changes_of pair.entry)) }
{
    match pair {
        Pair::Old(old) => push_went(text, old)?,
        Pair::New(new) => push_came(text, new)?,
        Pair::Both(old, new) => match old.value.cmp(new.value) {
            Ordering::Equal => return Ok(false),
            _ => push_changed(text, old, new)?,
        },
    }
    Ok(true)
}

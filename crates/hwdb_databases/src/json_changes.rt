//! Changes as JSON.
ghost use Rattle.std.specs.Prelude.{◌≡◌, ◌++◌, flat_map, map, IfOk, OnOk};
ghost use Rattle.json.specs.Tree.{json_tokens};
ghost use Rattle.hwdb_show.specs.JsonTokens.{tokens_of_member, tokens_of_members};
ghost use Rattle.hwdb_spec_commands.specs.ChangeForms.{change_json, change_members, device_changes_json, given_json, whole_object};
ghost use Rattle.hwdb_spec_commands.specs.Renamed.{changed_pattern};
ghost use Rattle.hwdb_spec_commands.specs.Differences.Change.{Came, Went, Changed};
ghost use Rattle.hwdb_spec_commands.specs.Json.{array_of};
ghost use Rattle.hwdb_databases.specs.Views.{assignment_of, change_shown};
ghost use Rattle.hwdb_databases.specs.Internal.Forms.{change_object, changed_device};

use crate::pairs::Pair;
use hwdb_query::StoredAssignment;
use hwdb_show::{ended, put_member, put_number};
use json::Writer;
use std::alloc::{AllocError, Global};

/// Adds what an assignment gives, and where it comes from. The only error, here and below, is `AllocError`.
fn put_given(json: &mut Writer, f: &StoredAssignment<'_>) -> Result<(), AllocError>
    ensures before { json.new.before ≡ json.old.before }
    ensures tokens { OnOk result
        (json.new.tokens ≡ json.old.tokens ++ json_tokens (given_json (assignment_of f.now))) }
{
    json.begin_object()?;
    put_member(json, "value", f.value)?;
    put_member(json, "path", f.path)?;
    put_number(json, "line", f.line)?;
    json.end_object()
}

/// The same under a name.
fn put_given_at(json: &mut Writer, name: &str, f: &StoredAssignment<'_>) -> Result<(), AllocError>
    ensures before { json.new.before ≡ json.old.before }
    ensures tokens { OnOk result (json.new.tokens
        ≡ json.old.tokens ++ tokens_of_member (name.now, given_json (assignment_of f.now))) }
{
    json.key(name)?;
    put_given(json, f)
}

/// Adds the members of what came.
fn put_came(json: &mut Writer, new: &StoredAssignment<'_>) -> Result<(), AllocError>
    ensures before { json.new.before ≡ json.old.before }
    ensures tokens { OnOk result (json.new.tokens
        ≡ json.old.tokens ++ tokens_of_members (change_members (Came (assignment_of new.now)))) }
{
    put_member(json, "change", b"added")?;
    put_member(json, "key", new.key)?;
    put_given_at(json, "new", new)
}

/// Adds the members of what went.
fn put_went(json: &mut Writer, old: &StoredAssignment<'_>) -> Result<(), AllocError>
    ensures before { json.new.before ≡ json.old.before }
    ensures tokens { OnOk result (json.new.tokens
        ≡ json.old.tokens ++ tokens_of_members (change_members (Went (assignment_of old.now)))) }
{
    put_member(json, "change", b"removed")?;
    put_member(json, "key", old.key)?;
    put_given_at(json, "old", old)
}

/// Adds the members of what changed.
fn put_changed(
    json: &mut Writer,
    old: &StoredAssignment<'_>,
    new: &StoredAssignment<'_>,
) -> Result<(), AllocError>
    ensures before { json.new.before ≡ json.old.before }
    ensures tokens { OnOk result (json.new.tokens ≡ json.old.tokens
        ++ tokens_of_members (change_members
        (Changed (assignment_of old.now) (assignment_of new.now)))) }
{
    put_member(json, "change", b"changed")?;
    put_member(json, "key", old.key)?;
    put_given_at(json, "old", old)?;
    put_given_at(json, "new", new)
}

/// Adds the members of a change.
fn put_members(json: &mut Writer, change: Pair<'_, '_>) -> Result<(), AllocError>
    ensures before { json.new.before ≡ json.old.before }
    ensures tokens { OnOk result (json.new.tokens
        ≡ json.old.tokens ++ tokens_of_members (change_members (change_shown change.entry))) }
{
    match change {
        Pair::Old(old) => put_went(json, old),
        Pair::New(new) => put_came(json, new),
        Pair::Both(old, new) => put_changed(json, old, new),
    }
}

/// Adds a change as an object.
fn put_object(json: &mut Writer, change: Pair<'_, '_>) -> Result<(), AllocError>
    ensures before { json.new.before ≡ json.old.before }
    ensures tokens { OnOk result (json.new.tokens
        ≡ json.old.tokens ++ json_tokens (change_object (change_shown change.entry))) }
{
    json.begin_object()?;
    put_members(json, change)?;
    json.end_object()
}

/// The pattern of a change.
pub(crate) fn pattern_of<'r>(change: Pair<'r, '_>) -> &'r [u8]
    ensures { result.now ≡ changed_pattern (change_shown change.entry) }
{
    match change {
        Pair::Old(old) => &old.pattern,
        Pair::New(new) => &new.pattern,
        Pair::Both(old, _) => &old.pattern,
    }
}

/// Adds the object of a line: the pattern, and the change.
pub(crate) fn put_whole(json: &mut Writer, change: Pair<'_, '_>) -> Result<(), AllocError>
    ensures before { json.new.before ≡ json.old.before }
    ensures tokens { OnOk result (json.new.tokens ≡ json.old.tokens
        ++ json_tokens (whole_object (change_shown change.entry))) }
{
    json.begin_object()?;
    put_member(json, "pattern", pattern_of(change))?;
    put_members(json, change)?;
    json.end_object()
}

/// The line of a change.
fn line_of(alloc: Global, change: Pair<'_, '_>) -> Result<Vec<u8>, AllocError>
    ensures { IfOk result (λ line. line.items ≡ change_json (change_shown change.entry)) }
{
    let mut json = Writer::new(Vec::new(alloc));
    put_whole(&mut json, change)?;
    ended(alloc, json)
}

/// Adds the lines of some changes.
pub(crate) fn push_json(
    alloc: Global,
    text: &mut Vec<u8>,
    changes: &[Pair<'_, '_>],
) -> Result<(), AllocError>
    ensures { OnOk result
        (text.new.items ≡ text.old.items ++ flat_map change_json (map change_shown changes.now)) }
{
    for change in changes {
        let line = line_of(alloc, *change)?;
        text.extend_from_slice(&line)?;
    }
    Ok(())
}

/// Adds the array of some changes.
fn put_array(json: &mut Writer, changes: &[Pair<'_, '_>]) -> Result<(), AllocError>
    ensures before { json.new.before ≡ json.old.before }
    ensures tokens { OnOk result (json.new.tokens ≡ json.old.tokens
        ++ json_tokens (array_of (map change_object (map change_shown changes.now)))) }
{
    json.begin_array()?;
    for change in changes {
        put_object(json, *change)?;
    }
    json.end_array()
}

/// Adds the object of a device.
fn put_device(json: &mut Writer, device: &[u8], changes: &[Pair<'_, '_>]) -> Result<(), AllocError>
    ensures before { json.new.before ≡ json.old.before }
    ensures tokens { OnOk result (json.new.tokens ≡ json.old.tokens
        ++ json_tokens (changed_device device.now (map change_shown changes.now))) }
{
    json.begin_object()?;
    put_member(json, "device", device)?;
    json.key("changes")?;
    put_array(json, changes)?;
    json.end_object()
}

/// Adds the line of a device, if something changed for it.
pub(crate) fn push_device_json(
    alloc: Global,
    text: &mut Vec<u8>,
    device: &[u8],
    changes: &[Pair<'_, '_>],
) -> Result<(), AllocError>
    ensures { OnOk result (text.new.items ≡ text.old.items
        ++ device_changes_json device.now (map change_shown changes.now)) }
{
    if changes.is_empty() {
        return Ok(());
    }
    let mut json = Writer::new(Vec::new(alloc));
    put_device(&mut json, device, changes)?;
    let line = ended(alloc, json)?;
    text.extend_from_slice(&line)?;
    Ok(())
}

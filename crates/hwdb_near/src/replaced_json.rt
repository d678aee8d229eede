//! What is printed of assignments that were replaced, as lines of JSON.
ghost use Rattle.std.specs.Prelude.{◌≡◌, ◌++◌, ◌∷◌, [], codes, flat_map, map, OnOk};
ghost use Rattle.json.specs.Tree.{json_tokens};
ghost use Rattle.hwdb_spec_commands.specs.Json.{answer_members, object_of, text_json};
ghost use Rattle.hwdb_spec_commands.specs.Replacements.{assignment_json, masked_json, replacement_json, replacement_object};
ghost use Rattle.hwdb_show.specs.JsonTokens.{tokens_of_members};
ghost use Rattle.hwdb_near.specs.Views.{assignment_of, replacement_of};

use crate::replacements::Replaced;
use crate::wanted::FileAssignment;
use hwdb_show::{ended, put_member, put_number};
use json::Writer;
use std::alloc::{AllocError, Global};

/// Adds the members of an assignment: its value, and where it is. The only error, here and below, is `AllocError`.
fn put_members(alloc: Global, json: &mut Writer, at: &FileAssignment<'_>) -> Result<(), AllocError>
    ensures before { json.new.before ≡ json.old.before }
    ensures tokens { OnOk result (json.new.tokens ≡ json.old.tokens
        ++ tokens_of_members (answer_members (assignment_of at.now))) }
{
    let path = at.file.path(alloc)?;
    put_member(json, "value", at.given.value)?;
    put_member(json, "path", path.as_bytes())?;
    put_number(json, "line", at.given.line)?;
    put_member(json, "pattern", at.given.pattern)
}

/// Adds the object of an assignment.
fn put_assignment(
    alloc: Global,
    json: &mut Writer,
    at: &FileAssignment<'_>,
) -> Result<(), AllocError>
    ensures before { json.new.before ≡ json.old.before }
    ensures tokens { OnOk result (json.new.tokens
        ≡ json.old.tokens ++ json_tokens (assignment_json (assignment_of at.now))) }
{
    json.begin_object()?;
    put_member(json, "key", at.given.key)?;
    put_members(alloc, json, at)?;
    json.end_object()
}

/// Adds the object of what was replaced, and of what replaced it.
fn put_replaced(
    alloc: Global,
    json: &mut Writer,
    device: &[u8],
    pair: &Replaced<'_>,
) -> Result<(), AllocError>
    ensures before { json.new.before ≡ json.old.before }
    ensures tokens { OnOk result (json.new.tokens ≡ json.old.tokens
        ++ json_tokens (replacement_object device.now (replacement_of pair.now))) }
{
    json.begin_object()?;
    put_member(json, "device", device)?;
    json.key("replaced")?;
    put_assignment(alloc, json, &pair.old)?;
    json.key("by")?;
    put_assignment(alloc, json, &pair.new)?;
    json.end_object()
}

/// Adds the line of what was replaced.
fn push_replaced(
    alloc: Global,
    text: &mut Vec<u8>,
    device: &[u8],
    pair: &Replaced<'_>,
) -> Result<(), AllocError>
    ensures { OnOk result (text.new.items
        ≡ text.old.items ++ replacement_json device.now (replacement_of pair.now)) }
{
    let mut json = Writer::new(Vec::new(alloc));
    put_replaced(alloc, &mut json, device, pair)?;
    let line = ended(alloc, json)?;
    text.extend_from_slice(&line)
}

/// Adds a line for each.
pub(crate) fn push_all_replaced(
    alloc: Global,
    text: &mut Vec<u8>,
    device: &[u8],
    pairs: &[Replaced<'_>],
) -> Result<(), AllocError>
    ensures { OnOk result (text.new.items ≡ text.old.items
        ++ flat_map (replacement_json device.now) (map replacement_of pairs.now)) }
{
    for pair in pairs {
        push_replaced(alloc, text, device, pair)?;
    }
    Ok(())
}

/// Adds the object of a masked file.
fn put_masked(json: &mut Writer, path: &[u8]) -> Result<(), AllocError>
    ensures before { json.new.before ≡ json.old.before }
    ensures tokens { OnOk result (json.new.tokens ≡ json.old.tokens
        ++ json_tokens (object_of ((codes "masked", text_json path.now) ∷ []))) }
{
    json.begin_object()?;
    put_member(json, "masked", path)?;
    json.end_object()
}

/// Adds the line of a masked file.
fn push_masked(alloc: Global, text: &mut Vec<u8>, path: &[u8]) -> Result<(), AllocError>
    ensures { OnOk result (text.new.items ≡ text.old.items ++ masked_json path.now) }
{
    let mut json = Writer::new(Vec::new(alloc));
    put_masked(&mut json, path)?;
    let line = ended(alloc, json)?;
    text.extend_from_slice(&line)
}

/// Adds a line for each masked file.
pub(crate) fn push_all_masked(
    alloc: Global,
    text: &mut Vec<u8>,
    paths: &[Vec<u8>],
) -> Result<(), AllocError>
    ensures { OnOk result (text.new.items
        ≡ text.old.items ++ flat_map masked_json (map (λ p. p.items) paths.now)) }
{
    for path in paths {
        push_masked(alloc, text, path)?;
    }
    Ok(())
}

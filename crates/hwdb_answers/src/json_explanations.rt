//! The lines of JSON that explain a device's properties.
ghost use Rattle.std.specs.Prelude.{◌≡◌, ◌++◌, map, IfOk, OnOk};
ghost use Rattle.json.specs.Tree.{json_tokens};
ghost use Rattle.hwdb_query.specs.Views.{assignment_of_answer, explained_values};
ghost use Rattle.hwdb_spec_commands.specs.Json.{answer_members, array_of, explained_key_json, explanation_json, explanations_json, overridden_json};
ghost use Rattle.hwdb_show.specs.JsonTokens.{tokens_of_members};

use hwdb_query::{Explained, StoredAssignment};
use hwdb_show::{ended, put_member, put_number};
use json::Writer;
use std::alloc::{AllocError, Global};

/// Adds the members of an answer: its value, and where it comes from.
fn put_answer(json: &mut Writer, answer: &StoredAssignment<'_>) -> Result<(), AllocError>
    ensures before { json.new.before ≡ json.old.before }
    ensures tokens { OnOk result (json.new.tokens ≡ json.old.tokens
        ++ tokens_of_members (answer_members (assignment_of_answer answer.now))) }
{
    put_member(json, "value", answer.value)?;
    put_member(json, "path", answer.path)?;
    put_number(json, "line", answer.line)?;
    put_member(json, "pattern", &answer.pattern)
}

/// Adds an answer that is overridden.
fn put_overridden(json: &mut Writer, answer: &StoredAssignment<'_>) -> Result<(), AllocError>
    ensures before { json.new.before ≡ json.old.before }
    ensures tokens { OnOk result (json.new.tokens
        ≡ json.old.tokens ++ json_tokens (overridden_json (assignment_of_answer answer.now))) }
{
    json.begin_object()?;
    put_answer(json, answer)?;
    json.end_object()
}

/// Adds the array of the answers that are overridden.
fn put_all_overridden(json: &mut Writer, answers: &[StoredAssignment<'_>]) -> Result<(), AllocError>
    ensures before { json.new.before ≡ json.old.before }
    ensures tokens { OnOk result (json.new.tokens ≡ json.old.tokens ++ json_tokens
        (array_of (map overridden_json (map assignment_of_answer answers.now)))) }
{
    json.begin_array()?;
    for answer in answers {
        put_overridden(json, answer)?;
    }
    json.end_array()
}

/// Adds the object of a key: its value, where that comes from, and the answers that it overrides.
fn put_explanation(
    json: &mut Writer,
    device: &[u8],
    key: &[u8],
    last: &StoredAssignment<'_>,
    overridden: &[StoredAssignment<'_>],
) -> Result<(), AllocError>
    ensures before { json.new.before ≡ json.old.before }
    ensures tokens { OnOk result (json.new.tokens ≡ json.old.tokens ++ json_tokens
        (explained_key_json device.now key.now (assignment_of_answer last.now)
        (map assignment_of_answer overridden.now))) }
{
    json.begin_object()?;
    put_member(json, "device", device)?;
    put_member(json, "key", key)?;
    put_answer(json, last)?;
    json.key("overrides")?;
    put_all_overridden(json, overridden)?;
    json.end_object()
}

/// Adds the line of a key.
fn push_explanation(
    alloc: Global,
    text: &mut Vec<u8>,
    device: &[u8],
    explained: &Explained<'_>,
) -> Result<(), AllocError>
    ensures { OnOk result (text.new.items ≡ text.old.items
        ++ explanation_json device.now explained.now.key.now
        (map assignment_of_answer explained.now.answers.items)) }
{
    let Some((last, overridden)) = explained.answers.split_first() else {
        return Ok(());
    };
    let mut json = Writer::new(Vec::new(alloc));
    put_explanation(&mut json, device, explained.key, last, overridden)?;
    let line = ended(alloc, json)?;
    text.extend_from_slice(&line)
}

/// A line for each key.
///
/// The only error is want of memory.
pub fn explanation_lines_json(
    alloc: Global,
    device: &[u8],
    explanations: &[Explained<'_>],
) -> Result<Vec<u8>, AllocError>
    ensures { IfOk result (λ text. text.items
        ≡ explanations_json device.now (explained_values explanations.now)) }
{
    let mut text = Vec::new(alloc);
    for explained in explanations {
        push_explanation(alloc, &mut text, device, explained)?;
    }
    Ok(text)
}

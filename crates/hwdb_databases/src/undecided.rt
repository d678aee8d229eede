//! The patterns of which it isn't known whether they match a device that gets something else.
ghost use Rattle.std.specs.Prelude.{◌≡◌, ◌++◌, flat_map, map, IfOk, OnOk};
ghost use Rattle.json.specs.Tree.{json_tokens};
ghost use Rattle.hwdb_show.specs.JsonTokens.{tokens_of_members};
ghost use Rattle.hwdb_spec_commands.specs.Json.{array_of, json_line, text_json};
ghost use Rattle.hwdb_spec_commands.specs.SampleDevices as spec;

use crate::unmet::{push_by_number, push_count};
use hwdb_show::{ended, put_text};
use json::Writer;
use std::alloc::{AllocError, Global};

/// Adds a pattern on a line of its own. The only error, here and below, is `AllocError`.
fn push_pattern(text: &mut Vec<u8>, pattern: &[u8]) -> Result<(), AllocError>
    ensures { OnOk result (text.new.items ≡ text.old.items ++ spec.pattern_line pattern.now) }
{
    text.extend_from_slice(b"  ")?;
    text.extend_from_slice(pattern)?;
    text.push(b'\n')?;
    Ok(())
}

/// Adds how many there are.
fn push_heading(text: &mut Vec<u8>, count: usize) -> Result<(), AllocError>
    ensures { OnOk result (text.new.items ≡ text.old.items ++ spec.undecided_heading count) }
{
    push_count(text, count)?;
    push_by_number(
        text,
        " pattern may give devices something else:\n",
        " patterns may give devices something else:\n",
        count,
    )
}

/// How many there are, and a line for each. Nothing of none.
pub(crate) fn undecided_text(alloc: Global, patterns: &[&[u8]]) -> Result<Vec<u8>, AllocError>
    ensures { IfOk result
        (λ text. text.items ≡ spec.undecided_text (map (λ t. t.now) patterns.now)) }
{
    let mut text = Vec::new(alloc);
    if patterns.is_empty() {
        return Ok(text);
    }
    push_heading(&mut text, patterns.len())?;
    for pattern in patterns {
        push_pattern(&mut text, *pattern)?;
    }
    Ok(text)
}

/// Adds the array of them.
fn put_patterns(json: &mut Writer, patterns: &[&[u8]]) -> Result<(), AllocError>
    ensures before { json.new.before ≡ json.old.before }
    ensures tokens { OnOk result (json.new.tokens ≡ json.old.tokens
        ++ json_tokens (array_of (map text_json (map (λ t. t.now) patterns.now)))) }
{
    json.begin_array()?;
    for pattern in patterns {
        put_text(json, *pattern)?;
    }
    json.end_array()
}

/// Adds the member that has them.
fn put_member(json: &mut Writer, patterns: &[&[u8]]) -> Result<(), AllocError>
    ensures before { json.new.before ≡ json.old.before }
    ensures tokens { OnOk result (json.new.tokens ≡ json.old.tokens
        ++ tokens_of_members (spec.undecided_members (map (λ t. t.now) patterns.now))) }
{
    json.key("undecided")?;
    put_patterns(json, patterns)?;
    Ok(())
}

/// Adds the object.
fn put_undecided(json: &mut Writer, patterns: &[&[u8]]) -> Result<(), AllocError>
    ensures before { json.new.before ≡ json.old.before }
    ensures tokens { OnOk result (json.new.tokens ≡ json.old.tokens
        ++ json_tokens (spec.undecided_object (map (λ t. t.now) patterns.now))) }
{
    json.begin_object()?;
    put_member(json, patterns)?;
    json.end_object()
}

/// Its line.
pub(crate) fn undecided_json(alloc: Global, patterns: &[&[u8]]) -> Result<Vec<u8>, AllocError>
    ensures { IfOk result (λ line.
        line.items ≡ json_line (spec.undecided_object (map (λ t. t.now) patterns.now))) }
{
    let mut json = Writer::new(Vec::new(alloc));
    put_undecided(&mut json, patterns)?;
    ended(alloc, json)
}

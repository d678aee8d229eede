//! What is printed of a line that doesn't hold, as a line of JSON.
ghost use Rattle.std.specs.Prelude.{◌≡◌, ◌++◌, map, IfOk, OnOk, Some};
ghost use Rattle.json.specs.Tree.{json_tokens};
ghost use Rattle.hwdb_show.specs.JsonTokens.{tokens_of_members};
ghost use Rattle.hwdb_spec_commands.specs.Json.{array_of, json_line};
ghost use Rattle.hwdb_spec_commands.specs.Wanted.{failure_json, first_given, given_json, given_members, hint_members, instead_members, others_member, wanted_members};
ghost use Rattle.hwdb_test.specs.Views.{given_at, line_at};

use crate::failures::{DEVICE_HINT, Failure, is_like_pattern, wanted_text};
use crate::given_values::GivenValue;
use crate::wanted_lines::{WantedLine, wants_no_others};
use hwdb_show::{ended, put_count, put_member};
use json::Writer;
use std::alloc::{AllocError, Global};

/// Adds what a line wants of which device. The only error, here and below, is `AllocError`.
fn put_wanted(json: &mut Writer, failure: Failure<'_>) -> Result<(), AllocError>
    ensures before { json.new.before ≡ json.old.before }
    ensures tokens { OnOk result (json.new.tokens ≡ json.old.tokens ++ tokens_of_members
        (wanted_members failure.entry.path.now failure.entry.device.now
        (line_at failure.entry.line.now))) }
{
    put_member(json, "path", failure.path)?;
    put_count(json, "line", failure.line.number)?;
    put_member(json, "device", failure.device)?;
    put_member(json, "wanted", wanted_text(failure.line))
}

/// Adds a property, and which file and line gave it.
fn put_value(json: &mut Writer, given: GivenValue<'_>) -> Result<(), AllocError>
    ensures before { json.new.before ≡ json.old.before }
    ensures tokens { OnOk result (json.new.tokens ≡ json.old.tokens
        ++ tokens_of_members (given_members (Some (given_at given.entry)))) }
{
    put_member(json, "key", given.key)?;
    put_member(json, "value", given.value)?;
    put_member(json, "given_path", given.path)?;
    put_count(json, "given_line", given.line)
}

/// Adds the first of what the device has instead, if it has something.
fn put_first(json: &mut Writer, instead: &[GivenValue<'_>]) -> Result<(), AllocError>
    ensures before { json.new.before ≡ json.old.before }
    ensures tokens { OnOk result (json.new.tokens ≡ json.old.tokens
        ++ tokens_of_members (given_members (first_given (map given_at instead.now)))) }
{
    match instead.split_first() {
        None => Ok(()),
        Some((first, _)) => put_value(json, *first),
    }
}

/// Adds the object of a property.
fn put_given(json: &mut Writer, given: GivenValue<'_>) -> Result<(), AllocError>
    ensures before { json.new.before ≡ json.old.before }
    ensures tokens { OnOk result
        (json.new.tokens ≡ json.old.tokens ++ json_tokens (given_json (given_at given.entry))) }
{
    json.begin_object()?;
    put_value(json, given)?;
    json.end_object()
}

/// Adds the array of some properties.
fn put_all_given(json: &mut Writer, others: &[GivenValue<'_>]) -> Result<(), AllocError>
    ensures before { json.new.before ≡ json.old.before }
    ensures tokens { OnOk result (json.new.tokens ≡ json.old.tokens ++ json_tokens
        (array_of (map given_json (map given_at others.now)))) }
{
    json.begin_array()?;
    for given in others {
        put_given(json, *given)?;
    }
    json.end_array()
}

/// Adds what the device has besides.
fn put_others(json: &mut Writer, others: &[GivenValue<'_>]) -> Result<(), AllocError>
    ensures before { json.new.before ≡ json.old.before }
    ensures tokens { OnOk result (json.new.tokens ≡ json.old.tokens
        ++ tokens_of_members (others_member (map given_at others.now))) }
{
    json.key("others")?;
    put_all_given(json, others)
}

/// Adds what the device has instead.
fn put_instead(
    json: &mut Writer,
    line: &WantedLine<'_>,
    instead: &[GivenValue<'_>],
) -> Result<(), AllocError>
    ensures before { json.new.before ≡ json.old.before }
    ensures tokens { OnOk result (json.new.tokens ≡ json.old.tokens
        ++ tokens_of_members (instead_members (line_at line.now) (map given_at instead.now))) }
{
    if wants_no_others(line) {
        put_others(json, instead)
    } else {
        put_first(json, instead)
    }
}

/// Adds the hint on a device that looks like a pattern.
fn put_hint(json: &mut Writer, device: &[u8]) -> Result<(), AllocError>
    ensures before { json.new.before ≡ json.old.before }
    ensures tokens { OnOk result
        (json.new.tokens ≡ json.old.tokens ++ tokens_of_members (hint_members device.now)) }
{
    if is_like_pattern(device) {
        put_member(json, "hint", DEVICE_HINT)
    } else {
        Ok(())
    }
}

/// Adds the object.
fn put_failure(json: &mut Writer, failure: Failure<'_>) -> Result<(), AllocError>
    ensures before { json.new.before ≡ json.old.before }
    ensures tokens { OnOk result (json.new.tokens ≡ json.old.tokens ++ json_tokens
        (failure_json failure.entry.path.now failure.entry.device.now
        (line_at failure.entry.line.now) (map given_at failure.entry.instead.now))) }
{
    json.begin_object()?;
    put_wanted(json, failure)?;
    put_instead(json, failure.line, failure.instead)?;
    put_hint(json, failure.device)?;
    json.end_object()
}

/// The line of JSON.
fn failure_line(alloc: Global, failure: Failure<'_>) -> Result<Vec<u8>, AllocError>
    ensures { IfOk result (λ text. text.items ≡ json_line
        (failure_json failure.entry.path.now failure.entry.device.now
        (line_at failure.entry.line.now) (map given_at failure.entry.instead.now))) }
{
    let mut json = Writer::new(Vec::new(alloc));
    put_failure(&mut json, failure)?;
    ended(alloc, json)
}

/// Adds the line of JSON.
pub fn push_json(alloc: Global, text: &mut Vec<u8>, failure: Failure<'_>) -> Result<(), AllocError>
    ensures { OnOk result (text.new.items ≡ text.old.items ++ json_line
        (failure_json failure.entry.path.now failure.entry.device.now
        (line_at failure.entry.line.now) (map given_at failure.entry.instead.now))) }
{
    let line = failure_line(alloc, failure)?;
    text.extend_from_slice(&line)?;
    Ok(())
}

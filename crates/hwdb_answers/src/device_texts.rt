//! What is printed of devices: of one, and of several, one after another.
ghost use Rattle.std.specs.Prelude.{◌≡◌, IfOk, map, string_bytes};
ghost use Rattle.hwdb_spec.specs.Answers.{effective_of};
ghost use Rattle.hwdb_spec.specs.Explanations.{explain_text};
ghost use Rattle.hwdb_spec_commands.specs.Json.{device_json, explain_json, json_line};
ghost use Rattle.hwdb_spec.specs.Texts.{query_text};
ghost use Rattle.hwdb_spec.specs.Tree.{answers};
ghost use Rattle.hwdb_answers.specs.Internal.{answer_text, text_behind};
ghost use Rattle.hwdb_spec_commands.specs.Streams.{texts_of};

use crate::explanation::explanation_lines;
use crate::json_explanations::explanation_lines_json;
use crate::json_lines::device_line;
use crate::texts::property_lines;
use hwdb_query::{effective, explain};
use hwdb_reader::Db;
use hwdb_spec_commands::Form;
use std::alloc::{AllocError, Global};

/// A text, and in front of it an empty line if it isn't the first.
pub fn behind(alloc: Global, lines: Vec<u8>, is_first: bool) -> Result<Vec<u8>, AllocError>
    ensures { IfOk result (λ text. text.items ≡ text_behind is_first lines.items) }
{
    if is_first {
        return Ok(lines);
    }
    let mut text = Vec::new(alloc);
    text.push(b'\n')?;
    text.extend_from_slice(&lines)?;
    Ok(text)
}

/// The properties of a device.
fn properties_of(alloc: Global, db: &Db<'_>, device: &[u8]) -> Result<Vec<u8>, AllocError>
    ensures { IfOk result (λ text. text.items ≡ query_text device.now db.now) }
{
    let properties = effective(alloc, db, device)?;
    property_lines(alloc, &properties)
}

/// The line of a device and its properties.
fn properties_json(alloc: Global, db: &Db<'_>, device: &[u8]) -> Result<Vec<u8>, AllocError>
    ensures { IfOk result (λ line. line.items
        ≡ json_line (device_json device.now (effective_of (answers device.now db.now)))) }
{
    let properties = effective(alloc, db, device)?;
    device_line(alloc, device, &properties)
}

/// The properties of a device, and where each comes from.
fn explanation_of(alloc: Global, db: &Db<'_>, device: &[u8]) -> Result<Vec<u8>, AllocError>
    ensures { IfOk result (λ text. text.items ≡ explain_text device.now db.now) }
{
    let explanations = explain(alloc, db, device)?;
    explanation_lines(alloc, &explanations)
}

/// The same as JSON.
fn explanation_json(alloc: Global, db: &Db<'_>, device: &[u8]) -> Result<Vec<u8>, AllocError>
    ensures { IfOk result (λ text. text.items ≡ explain_json device.now db.now) }
{
    let explanations = explain(alloc, db, device)?;
    explanation_lines_json(alloc, device, &explanations)
}

/// What is printed of a device, after those before it.
///
/// The only error is want of memory.
pub fn text_of_device(
    alloc: Global,
    db: &Db<'_>,
    device: &[u8],
    form: Form,
    is_first: bool,
) -> Result<Vec<u8>, AllocError>
    ensures { IfOk result (λ text. text.items ≡ answer_text form is_first device.now db.now) }
{
    match form {
        Form::Query { json: false } => behind(alloc, properties_of(alloc, db, device)?, is_first),
        Form::Query { json: true } => properties_json(alloc, db, device),
        Form::Explain { json: false } => {
            behind(alloc, explanation_of(alloc, db, device)?, is_first)
        }
        Form::Explain { json: true } => explanation_json(alloc, db, device),
    }
}

/// What is printed of devices, one after another.
///
/// The only error is want of memory.
pub fn texts_of_devices(
    alloc: Global,
    db: &Db<'_>,
    devices: &[String],
    form: Form,
) -> Result<Vec<u8>, AllocError>
    ensures { IfOk result
        (λ text. text.items ≡ texts_of form (map string_bytes devices.now) db.now) }
{
    let mut all = Vec::new(alloc);
    let mut left = devices;
    let mut is_first = true;
    'answering: while let Some((device, more)) = left.split_first() {
        let text = text_of_device(alloc, db, device.as_bytes(), form, is_first)?;
        all.extend_from_slice(&text)?;
        left = more;
        is_first = false;
    }
    Ok(all)
}

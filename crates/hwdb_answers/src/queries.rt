//! `query` and `explain`: what a database gives devices, as text or as JSON.
ghost use Rattle.std.specs.Prelude.{[], ◌∷◌, ◌≡◌, List, IfOk, IfErr, OnOk, map, string_bytes};
ghost use Rattle.hwdb_spec.specs.Flushing.{HandsOn};
ghost use Rattle.hwdb_spec_commands.specs.Databases.{IsTextOf};
ghost use Rattle.hwdb_spec.specs.Folders.{Source};
ghost use Rattle.hwdb_spec.specs.Outputs.{CutShortOne, Took, TookOne};
ghost use Rattle.hwdb_spec.specs.Texts.{last_values_text, query_text};
ghost use Rattle.hwdb_spec.specs.Written.{IsCompiled};
ghost use Rattle.hwdb_answers.specs.Lookups.{IfWrite};
ghost use Rattle.hwdb_spec_commands.specs.Streams.{last_texts_of, texts_of};
ghost use Rattle.hwdb_spec_commands.specs.DatabaseErrors.{IsDatabaseRefusal, IsQueryRefusal};

use crate::device_texts::{text_of_device, texts_of_devices};
use hwdb_io::{Sink, write_text};
use hwdb_query::compiled_answers_are_last;
use hwdb_reader::check;
use hwdb_spec::ToolError;
use hwdb_spec_commands::Form;
use std::alloc::Global;

/// Checks the bytes, and answers what is printed of the devices. With `Form::Query` these are the properties of each,
/// ascending by key. With `Form::Explain` each property is followed by the place that it comes from, and by the assignments
/// that it overrides, the last first. As text an empty line is between two devices. Over the database of some files all of
/// this is said by the last assignments that the files have.
pub fn answers(
    alloc: Global,
    bytes: &[u8],
    devices: &[String],
    form: Form,
) -> Result<Vec<u8>, ToolError>
    ensures text { IfOk result (λ text.
        IsTextOf (texts_of form (map string_bytes devices.now)) bytes.now text.items) }
    ensures headline { IfOk result
        (λ text. (etc usr : List Source) → IsCompiled etc usr bytes.now
        → text.items ≡ last_texts_of form (map string_bytes devices.now) etc usr) }
    ensures refusals { IfErr result (IsDatabaseRefusal bytes.now) }
{
    compiled_answers_are_last();
    let db = check(bytes)?;
    Ok(texts_of_devices(alloc, &db, devices, form)?)
}

/// The same of one device.
pub fn answer(alloc: Global, bytes: &[u8], device: &[u8], form: Form) -> Result<Vec<u8>, ToolError>
    ensures text { IfOk result
        (λ text. IsTextOf (texts_of form (device.now ∷ [])) bytes.now text.items) }
    ensures headline { IfOk result
        (λ text. (etc usr : List Source) → IsCompiled etc usr bytes.now
        → text.items ≡ last_texts_of form (device.now ∷ []) etc usr) }
    ensures refusals { IfErr result (IsDatabaseRefusal bytes.now) }
{
    compiled_answers_are_last();
    let db = check(bytes)?;
    Ok(text_of_device(alloc, &db, device, form, true)?)
}

/// The text of the properties that a database gives the device.
pub(crate) fn properties_of(
    alloc: Global,
    bytes: &[u8],
    device: &[u8],
) -> Result<Vec<u8>, ToolError>
    ensures text { IfOk result (λ text. IsTextOf (query_text device.now) bytes.now text.items) }
    ensures headline { IfOk result
        (λ text. (etc usr : List Source) → IsCompiled etc usr bytes.now
        → text.items ≡ last_values_text device.now etc usr) }
    ensures refusals { IfErr result (IsDatabaseRefusal bytes.now) }
{
    answer(alloc, bytes, device, Form::Query { json: false })
}

/// Checks the bytes, and prints the properties of the device to `out`: `KEY=VALUE` for each key, ascending by key. Over the
/// database of some files that is for each key the value of the last assignment of a pattern that matches the device.
pub fn run_query<O: Sink>(
    alloc: Global,
    bytes: &[u8],
    device: &[u8],
    out: &mut O,
) -> Result<(), ToolError>
    ensures printed { OnOk result (TookOne (IsTextOf (query_text device.now) bytes.now)
        (O.taken out.old) (O.taken out.new) (O.failures out.old) (O.failures out.new)) }
    ensures headline { OnOk result ((etc usr : List Source) → IsCompiled etc usr bytes.now
        → Took (last_values_text device.now etc usr)
        (O.taken out.old) (O.taken out.new) (O.failures out.old) (O.failures out.new)) }

    ensures refusals { IfErr result (IsQueryRefusal bytes.now) }
    ensures cut_short { IfErr result (IfWrite
        (CutShortOne (IsTextOf (query_text device.now) bytes.now)
        (O.taken out.old) (O.taken out.new) (O.failures out.old) (O.failures out.new))
        (out.new ≡ out.old)) }
    ensures hands_on { HandsOn (O.is_flushed out.old) (O.is_flushed out.new)
        (O.failures out.old) (O.failures out.new) }
{
    let text = properties_of(alloc, bytes, device)?;
    write_text(out, &text)?;
    Ok(())
}

//! A test file that holds of a database: for each device a record with the properties that the database gives it.
ghost use Rattle.std.specs.Prelude.{◌≡◌, ◌++◌, ℕ, List, None, true, flat_map, map, IfErr, IfOk, OnOk};
ghost use Rattle.hwdb_spec_commands.specs.Recorded;
ghost use Rattle.hwdb_spec_commands.specs.Recorded.{ended, first_unsaid, property_lines, record_lines, unsaid_among, unsaid_of};
ghost use Rattle.hwdb_test.specs.Refusals.{IsInWords, IsUnsaid};
ghost use Rattle.hwdb_test.specs.Laws.{holds_of};
ghost use Rattle.hwdb_test.specs.Views.{device_at, given_at};
ghost use Rattle.hwdb_test.specs.declared.recording.RecordError.TheVariants.{Memory};

use crate::failures::push_place;
use crate::given_values::{GivenValue, found};
use crate::laws::recorded_holds;
use crate::sayable::{is_one_line, names_device, unnamed, unsaid, wants_given};
use hwdb_reader::Db;
use std::alloc::{AllocError, Global};

/// How many bytes a file has at most that is read.
const MAX_FILE: usize = 268_435_456;

/// What is said of a longer text.
const TOO_LONG: &[u8] =
    b"the test file would be longer than 268435456 bytes; record fewer devices at once";

/// Why there is no test file.
#[derive(Drop)]
pub enum RecordError {
    /// No test file can say it, in words.
    Unsaid(Vec<u8>),
    /// An allocation failed.
    Memory,
}

impl From<AllocError> for RecordError {
    ghost from_gives = { λ _ error. error ≡ Memory };

    fn from(_error: AllocError) -> RecordError {
        RecordError::Memory
    }
}

/// The comment above a property. The only error, here and below, is `AllocError`.
fn comment_line(alloc: Global, given: GivenValue<'_>) -> Result<Vec<u8>, AllocError>
    ensures { IfOk result (λ line. line.items ≡ Recorded.comment_line (given_at given.entry)) }
{
    let mut line = Vec::from_slice(alloc, b"# ")?;
    push_place(&mut line, given.path, given.line)?;
    Ok(line)
}

/// The line that wants a property.
fn wanting_line(alloc: Global, given: GivenValue<'_>) -> Result<Vec<u8>, AllocError>
    ensures { IfOk result (λ line. line.items ≡ Recorded.wanting_line (given_at given.entry)) }
{
    let mut line = Vec::from_slice(alloc, b" ")?;
    line.extend_from_slice(given.key)?;
    line.push(b'=')?;
    line.extend_from_slice(given.value)?;
    Ok(line)
}

/// Adds a line with a newline after it.
fn push_ended(text: &mut Vec<u8>, line: &[u8]) -> Result<(), AllocError>
    ensures { OnOk result (text.new.items ≡ text.old.items ++ ended line.now) }
{
    text.extend_from_slice(line)?;
    text.push(b'\n')?;
    Ok(())
}

/// Adds both lines of a property, and answers whether they say it.
fn push_property(
    alloc: Global,
    text: &mut Vec<u8>,
    given: GivenValue<'_>,
) -> Result<bool, AllocError>
    ensures text { OnOk result (text.new.items
        ≡ text.old.items ++ flat_map ended (property_lines (given_at given.entry))) }
    ensures said { IfOk result (λ said. said ≡ Recorded.is_sayable (given_at given.entry)) }
{
    let comment = comment_line(alloc, given)?;
    let line = wanting_line(alloc, given)?;
    push_ended(text, &comment)?;
    push_ended(text, &line)?;
    Ok(is_one_line(&comment) && wants_given(&given, &line))
}

/// Adds the lines of some properties of a device. The first property that they don't say is an error.
fn push_properties(
    alloc: Global,
    text: &mut Vec<u8>,
    device: &[u8],
    found: &[GivenValue<'_>],
) -> Result<(), RecordError>
    ensures text { OnOk result (text.new.items ≡ text.old.items
        ++ flat_map ended (flat_map property_lines (map given_at found.now))) }
    ensures said { OnOk result (first_unsaid device.now (map given_at found.now) ≡ None) }
    ensures errors { IfErr result (IsUnsaid (first_unsaid device.now (map given_at found.now))) }
{
    for given in found {
        if !push_property(alloc, text, *given)? {
            return Err(unsaid(alloc, device, *given));
        }
    }
    Ok(())
}

/// Adds the lines that want what a device has.
fn push_wanting(
    alloc: Global,
    text: &mut Vec<u8>,
    device: &[u8],
    found: &[GivenValue<'_>],
) -> Result<(), RecordError>
    ensures text { OnOk result (text.new.items ≡ text.old.items
        ++ flat_map ended (Recorded.wanting_lines (map given_at found.now))) }
    ensures said { OnOk result (first_unsaid device.now (map given_at found.now) ≡ None) }
    ensures errors { IfErr result (IsUnsaid (first_unsaid device.now (map given_at found.now))) }
{
    if found.is_empty() {
        Ok(push_ended(text, b" =")?)
    } else {
        push_properties(alloc, text, device, found)
    }
}

/// Adds the record of a device that a line names.
fn push_named(
    alloc: Global,
    db: &Db<'_>,
    text: &mut Vec<u8>,
    device: &[u8],
) -> Result<(), RecordError>
    requires { Recorded.names_device (Recorded.lone_line device.now) ≡ true }
    ensures text { OnOk result
        (text.new.items ≡ text.old.items ++ flat_map ended (record_lines db.now device.now)) }
    ensures said { OnOk result (unsaid_of db.now device.now ≡ None) }
    ensures errors { IfErr result (IsUnsaid (unsaid_of db.now device.now)) }
{
    let found = found(alloc, db, device)?;
    push_ended(text, device)?;
    push_wanting(alloc, text, device, &found)?;
    Ok(push_ended(text, b"")?)
}

/// Adds the record of a device. It is an error if no line names it, or wants one of its properties.
fn push_record(
    alloc: Global,
    db: &Db<'_>,
    text: &mut Vec<u8>,
    device: &[u8],
) -> Result<(), RecordError>
    ensures text { OnOk result
        (text.new.items ≡ text.old.items ++ flat_map ended (record_lines db.now device.now)) }
    ensures said { OnOk result (unsaid_of db.now device.now ≡ None) }
    ensures errors { IfErr result (IsUnsaid (unsaid_of db.now device.now)) }
{
    if names_device(device) {
        push_named(alloc, db, text, device)
    } else {
        Err(unnamed(alloc, device))
    }
}

/// The records of some devices. The first device that no test file can say is an error.
fn records(alloc: Global, db: &Db<'_>, devices: &[&[u8]]) -> Result<Vec<u8>, RecordError>
    ensures text { IfOk result (λ text. text.items
        ≡ Recorded.recorded_text db.now (map device_at devices.now)) }
    ensures said { OnOk result (unsaid_among db.now (map device_at devices.now) ≡ None) }
    ensures errors { IfErr result (IsUnsaid (unsaid_among db.now (map device_at devices.now))) }
{
    let mut text = Vec::new(alloc);
    for device in devices {
        push_record(alloc, db, &mut text, *device)?;
    }
    Ok(text)
}

/// The error of a text that is too long.
fn too_long(alloc: Global) -> RecordError
    ensures { IsInWords Recorded.too_long_words result }
{
    match Vec::from_slice(alloc, TOO_LONG) {
        Ok(words) => RecordError::Unsaid(words),
        Err(refused) => RecordError::from(refused),
    }
}

/// The test file of some devices: for each a record of the properties that the database gives it, each below a comment with the file and
/// line that gave it. Each line of it holds of the database.
///
/// It is an error if no test file can say a device or one of its properties, in words of the first; if the text would have more than
/// 268,435,456 bytes; or if an allocation fails. The time is that of a descent of the tree for each device, and the memory is the text.
pub fn record(alloc: Global, db: &Db<'_>, devices: &[&[u8]]) -> Result<Vec<u8>, RecordError>
    ensures text { IfOk result (λ text. text.items
        ≡ Recorded.recorded_text db.now (map device_at devices.now)) }
    ensures said { OnOk result (Recorded.unsaid db.now (map device_at devices.now) ≡ None) }
    ensures holds { IfOk result (λ text. (path : List ℕ) → holds_of db.now path text.items) }
    ensures errors { IfErr result (IsUnsaid (Recorded.unsaid db.now (map device_at devices.now))) }
{
    recorded_holds();
    let text = records(alloc, db, devices)?;
    if text.as_slice().len() > MAX_FILE {
        return Err(too_long(alloc));
    }
    Ok(text)
}

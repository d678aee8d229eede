//! What is printed of a line that doesn't hold.
ghost use Rattle.std.specs.Prelude.{◌≡◌, ◌++◌, flat_map, map, option_map, OnOk, Some};
ghost use Rattle.hwdb_spec.specs.Texts.{place_text};
ghost use Rattle.hwdb_spec.specs.Lines.{has};
ghost use Rattle.hwdb_spec_commands.specs.Reports.{hint_line};
ghost use Rattle.hwdb_spec_commands.specs.Wanted;
ghost use Rattle.hwdb_test.specs.Views.{given_at, line_at};

use crate::given_values::GivenValue;
use crate::json_lines::push_json;
use crate::wanted_lines::{WantedLine, property_of, wants_no_others};
use hwdb_show::push_name;
use itoa::Buffer;
use std::alloc::{AllocError, Global};

/// What is said of a device that looks like a pattern.
pub const DEVICE_HINT: &[u8] =
    b"a match line of a test file is a device string, not a pattern: * and ? stand for themselves";

/// A line that doesn't hold of a device.
#[derive(Clone, Copy)]
pub struct Failure<'a> {
    /// The path of the line's file.
    pub path: &'a [u8],
    /// The device.
    pub device: &'a [u8],
    /// The line.
    pub line: &'a WantedLine<'a>,
    /// The properties that the device is given instead.
    pub instead: &'a [GivenValue<'a>],
}

/// What a line wants, in words.
pub fn wanted_text<'b>(line: &WantedLine<'b>) -> &'b [u8]
    ensures { result.now ≡ Wanted.wanted_text (line_at line.now) }
{
    if wants_no_others(line) {
        b"nothing else"
    } else {
        property_of(line)
    }
}

/// Adds a place: a path, `:`, and a line. The only error, here and below, is `AllocError`.
pub fn push_place(text: &mut Vec<u8>, path: &[u8], line: u64) -> Result<(), AllocError>
    ensures { OnOk result (text.new.items ≡ text.old.items ++ place_text path.now line) }
{
    let mut digits = Buffer::new();
    push_name(text, path)?;
    text.push(b':')?;
    text.extend_from_slice(digits.format(line).as_bytes())?;
    Ok(())
}

/// Adds the line that says what a line wants.
fn push_wanted_line(
    text: &mut Vec<u8>,
    path: &[u8],
    line: &WantedLine<'_>,
) -> Result<(), AllocError>
    ensures { OnOk result
        (text.new.items ≡ text.old.items ++ Wanted.wanted_line path.now (line_at line.now)) }
{
    push_place(text, path, line.number)?;
    text.extend_from_slice(b": wanted ")?;
    text.extend_from_slice(wanted_text(line))?;
    text.push(b'\n')?;
    Ok(())
}

/// Adds the line of the device.
fn push_device_line(text: &mut Vec<u8>, device: &[u8]) -> Result<(), AllocError>
    ensures { OnOk result (text.new.items ≡ text.old.items ++ Wanted.device_line device.now) }
{
    text.extend_from_slice(b"    device: ")?;
    text.extend_from_slice(device)?;
    text.push(b'\n')?;
    Ok(())
}

/// Adds what the device has instead.
fn push_given(text: &mut Vec<u8>, given: Option<GivenValue<'_>>) -> Result<(), AllocError>
    ensures { OnOk result (text.new.items
        ≡ text.old.items ++ Wanted.given_text (option_map given_at given.entry)) }
{
    match given {
        None => {
            text.extend_from_slice(b"nothing")?;
            Ok(())
        }
        Some(given) => {
            text.extend_from_slice(given.key)?;
            text.push(b'=')?;
            text.extend_from_slice(given.value)?;
            text.extend_from_slice(b" by ")?;
            push_place(text, given.path, given.line)
        }
    }
}

/// Adds the line of what the device has instead.
fn push_given_line(text: &mut Vec<u8>, given: Option<GivenValue<'_>>) -> Result<(), AllocError>
    ensures { OnOk result (text.new.items
        ≡ text.old.items ++ Wanted.given_line (option_map given_at given.entry)) }
{
    text.extend_from_slice(b"    given: ")?;
    push_given(text, given)?;
    text.push(b'\n')?;
    Ok(())
}

/// Whether a text has a byte.
pub fn holds_byte(byte: u8, text: &[u8]) -> bool
    ensures { result ≡ has byte text.now }
{
    text.iter().any(|other| *other == byte)
}

/// Whether a device looks like a pattern.
pub fn is_like_pattern(device: &[u8]) -> bool
    ensures { result ≡ Wanted.is_like_pattern device.now }
{
    holds_byte(b'*', device) || holds_byte(b'?', device)
}

/// Adds the line of a hint.
fn push_hint_line(text: &mut Vec<u8>, hint: &[u8]) -> Result<(), AllocError>
    ensures { OnOk result (text.new.items ≡ text.old.items ++ hint_line hint.now) }
{
    text.extend_from_slice(b"    hint: ")?;
    text.extend_from_slice(hint)?;
    text.push(b'\n')?;
    Ok(())
}

/// Adds the hint on a device that looks like a pattern.
fn push_device_hint(text: &mut Vec<u8>, device: &[u8]) -> Result<(), AllocError>
    ensures { OnOk result (text.new.items ≡ text.old.items ++ Wanted.device_hint_line device.now) }
{
    if is_like_pattern(device) {
        push_hint_line(text, DEVICE_HINT)
    } else {
        Ok(())
    }
}

/// Adds three lines on a line that doesn't hold: what it wants, of which device, and what that device has. A hint comes after them if
/// the device looks like a pattern.
fn push_text(
    text: &mut Vec<u8>,
    failure: Failure<'_>,
    given: Option<GivenValue<'_>>,
) -> Result<(), AllocError>
    ensures { OnOk result (text.new.items ≡ text.old.items
        ++ Wanted.failure_text failure.entry.path.now failure.entry.device.now
        (line_at failure.entry.line.now) (option_map given_at given.entry)) }
{
    push_wanted_line(text, failure.path, failure.line)?;
    push_device_line(text, failure.device)?;
    push_given_line(text, given)?;
    push_device_hint(text, failure.device)
}

/// Adds the same for each property that is given instead.
fn push_each(text: &mut Vec<u8>, failure: Failure<'_>) -> Result<(), AllocError>
    ensures { OnOk result (text.new.items ≡ text.old.items ++ flat_map
        (λ g. Wanted.failure_text failure.entry.path.now failure.entry.device.now
        (line_at failure.entry.line.now) (Some g)) (map given_at failure.entry.instead.now)) }
{
    for given in failure.instead {
        push_text(text, failure, Some(*given))?;
    }
    Ok(())
}

/// Adds the same for each property that is given instead, or once if there is none.
fn push_texts(text: &mut Vec<u8>, failure: Failure<'_>) -> Result<(), AllocError>
    ensures { OnOk result (text.new.items ≡ text.old.items
        ++ Wanted.failure_texts failure.entry.path.now failure.entry.device.now
        (line_at failure.entry.line.now) (map given_at failure.entry.instead.now)) }
{
    if failure.instead.is_empty() {
        push_text(text, failure, None)
    } else {
        push_each(text, failure)
    }
}

/// Adds what is printed of a line that doesn't hold: a line of JSON, or some lines for each property that is given instead.
pub fn push_failure(
    alloc: Global,
    json: bool,
    text: &mut Vec<u8>,
    failure: Failure<'_>,
) -> Result<(), AllocError>
    ensures { OnOk result (text.new.items ≡ text.old.items
        ++ Wanted.failures json failure.entry.path.now failure.entry.device.now
        (line_at failure.entry.line.now) (map given_at failure.entry.instead.now)) }
{
    if json {
        push_json(alloc, text, failure)
    } else {
        push_texts(text, failure)
    }
}

//! What a test file can say of a device and its properties, and what is said of the rest.
ghost use Rattle.std.specs.Prelude.{◌≡◌, ◌++◌, ◌∷◌, codes, take, OnOk, IfOk};
ghost use Rattle.hwdb_spec.specs.Lines;
ghost use Rattle.hwdb_spec.specs.Texts.{place_text};
ghost use Rattle.hwdb_spec_commands.specs.Recorded;
ghost use Rattle.hwdb_spec_commands.specs.Recorded.{lone_line, shown_front};
ghost use Rattle.hwdb_spec_commands.specs.Reports.{shown};
ghost use Rattle.hwdb_test.specs.Refusals.{IsInWords};
ghost use Rattle.hwdb_test.specs.Views.{given_at};

use crate::failures::{holds_byte, push_place};
use crate::given_values::GivenValue;
use crate::holding::is_given;
use crate::recording::RecordError;
use crate::wanted_lines::{WantedLine, same, wants_value};
use hwdb_check::push_shown;
use hwdb_properties::before;
use hwdb_text::{LONGEST_MATCH, begins_with, trim};
use std::alloc::{AllocError, Global};

/// Whether a text is one line.
pub fn is_one_line(text: &[u8]) -> bool
    ensures { result ≡ Recorded.is_one_line text.now }
{
    !holds_byte(b'\n', text)
}

/// Whether a line is a comment, or has a byte 0.
fn is_dropped(text: &[u8]) -> bool
    ensures { result ≡ Lines.is_dropped (lone_line text.now) }
{
    begins_with(b'#', text) || holds_byte(0, text)
}

/// A line without its comment, and without the blanks before that.
fn clean_text(text: &[u8]) -> &[u8]
    ensures { result.now ≡ (Lines.clean_line (lone_line text.now)).text }
{
    trim(before(b'#', text))
}

/// Whether a line is read as it is.
fn is_plain(text: &[u8]) -> bool
    ensures { result ≡ Recorded.is_plain (lone_line text.now) }
{
    is_one_line(text) && !is_dropped(text) && same(clean_text(text), text)
}

/// Whether a line begins as a match line does.
fn is_match(text: &[u8]) -> bool
    ensures { result ≡ Lines.is_match (lone_line text.now) }
{
    !text.is_empty() && !begins_with(b' ', text)
}

/// Whether a match line is longer than one may be.
fn is_long(text: &[u8]) -> bool
    ensures { result ≡ Lines.is_long (lone_line text.now) }
{
    text.len() > LONGEST_MATCH
}

/// Whether a line names a device of a record.
pub fn names_device(text: &[u8]) -> bool
    ensures { result ≡ Recorded.names_device (lone_line text.now) }
{
    is_plain(text) && is_match(text) && !is_long(text)
}

/// Whether a line wants a property.
pub fn wants_given(given: &GivenValue<'_>, text: &[u8]) -> bool
    ensures { result ≡ Recorded.wants_given (given_at given.now) (lone_line text.now) }
{
    let line = WantedLine { number: 1, text };
    is_plain(text) && wants_value(&line) && is_given(&line, given)
}

/// How many bytes of a text are shown.
const SHOWN: usize = 160;

/// Adds some bytes, as they are shown, and that more come. The only error, here and below, is `AllocError`.
fn push_cut(text: &mut Vec<u8>, front: &[u8]) -> Result<(), AllocError>
    ensures { OnOk result (text.new.items ≡ text.old.items ++ (shown front.now ++ codes "...")) }
{
    push_shown(text, front)?;
    text.extend_from_slice(b"...")?;
    Ok(())
}

/// The first bytes of a text, at most so many.
fn first_bytes(text: &[u8], most: usize) -> &[u8]
    ensures { result.now ≡ take most text.now }
{
    if text.len() > most {
        &text[..most]
    } else {
        text
    }
}

/// Adds the bytes of a text, as they are shown: those at its front, if it is longer than a line that is shown.
fn push_front(text: &mut Vec<u8>, bytes: &[u8]) -> Result<(), AllocError>
    ensures { OnOk result (text.new.items ≡ text.old.items ++ shown_front bytes.now) }
{
    if bytes.len() > SHOWN {
        push_cut(text, first_bytes(bytes, SHOWN))
    } else {
        push_shown(text, bytes)
    }
}

/// Why no line names a device.
fn unnamed_why(device: &[u8]) -> &'static [u8]
    ensures { result.now ≡ Recorded.unnamed_why device.now }
{
    if device.is_empty() {
        return b"it is empty";
    }
    if holds_byte(b'\n', device) {
        return b"it has a newline";
    }
    if holds_byte(0, device) {
        return b"it has a byte 0";
    }
    if holds_byte(b'#', device) {
        return b"it has a #, which begins a comment";
    }
    if begins_with(b' ', device) {
        return b"it begins with a space";
    }
    if is_long(device) {
        return b"it is longer than 4096 bytes";
    }
    b"it ends with a blank"
}

/// Adds the end of the words of a device that no line names: why, and what to do.
fn push_unnamed_end(text: &mut Vec<u8>, device: &[u8]) -> Result<(), AllocError>
    ensures { OnOk result (text.new.items ≡ text.old.items
        ++ (codes "': " ++ (Recorded.unnamed_why device.now ++ codes "; leave it out"))) }
{
    text.extend_from_slice(b"': ")?;
    text.extend_from_slice(unnamed_why(device))?;
    text.extend_from_slice(b"; leave it out")?;
    Ok(())
}

/// Adds the words of a device that no line names.
fn push_unnamed(text: &mut Vec<u8>, device: &[u8]) -> Result<(), AllocError>
    ensures { OnOk result
        (text.new.items ≡ text.old.items ++ Recorded.unnamed_words device.now) }
{
    text.extend_from_slice(b"no test file can name the device '")?;
    push_front(text, device)?;
    push_unnamed_end(text, device)
}

/// The words of a device that no line names.
fn unnamed_words(alloc: Global, device: &[u8]) -> Result<Vec<u8>, AllocError>
    ensures { IfOk result (λ words. words.items ≡ Recorded.unnamed_words device.now) }
{
    let mut words = Vec::new(alloc);
    push_unnamed(&mut words, device)?;
    Ok(words)
}

/// The error of a device that no line names.
pub fn unnamed(alloc: Global, device: &[u8]) -> RecordError
    ensures { IsInWords (Recorded.unnamed_words device.now) result }
{
    match unnamed_words(alloc, device) {
        Ok(words) => RecordError::Unsaid(words),
        Err(refused) => RecordError::from(refused),
    }
}

/// Adds `KEY=VALUE`, as bytes are shown.
fn push_shown_property(
    alloc: Global,
    text: &mut Vec<u8>,
    given: GivenValue<'_>,
) -> Result<(), AllocError>
    ensures { OnOk result (text.new.items ≡ text.old.items
        ++ shown_front (given.entry.key.now ++ 61 ∷ given.entry.value.now)) }
{
    let mut property = Vec::new(alloc);
    property.extend_from_slice(given.key)?;
    property.push(b'=')?;
    property.extend_from_slice(given.value)?;
    push_front(text, &property)
}

/// Adds the end of the words of a property: why, and what to do.
fn push_unsaid_end(text: &mut Vec<u8>, device: &[u8]) -> Result<(), AllocError>
    ensures { OnOk result (text.new.items ≡ text.old.items ++ Recorded.unsaid_end device.now) }
{
    text.extend_from_slice(b": its line would be read as another one; leave out the device '")?;
    push_front(text, device)?;
    text.extend_from_slice(b"'")?;
    Ok(())
}

/// Adds where a property comes from, and after that this end.
fn push_origin(text: &mut Vec<u8>, device: &[u8], given: GivenValue<'_>) -> Result<(), AllocError>
    ensures { OnOk result (text.new.items ≡ text.old.items ++ (codes "' of "
        ++ (place_text given.entry.path.now given.entry.line ++ Recorded.unsaid_end device.now))) }
{
    text.extend_from_slice(b"' of ")?;
    push_place(text, given.path, given.line)?;
    push_unsaid_end(text, device)
}

/// Adds the words of a property of a device that no line wants.
fn push_unsaid(
    alloc: Global,
    text: &mut Vec<u8>,
    device: &[u8],
    given: GivenValue<'_>,
) -> Result<(), AllocError>
    ensures { OnOk result (text.new.items ≡ text.old.items
        ++ Recorded.unsaid_words device.now (given_at given.entry)) }
{
    text.extend_from_slice(b"no test file can say '")?;
    push_shown_property(alloc, text, given)?;
    push_origin(text, device, given)
}

/// The words of a property of a device that no line wants.
fn unsaid_words(alloc: Global, device: &[u8], given: GivenValue<'_>) -> Result<Vec<u8>, AllocError>
    ensures { IfOk result
        (λ words. words.items ≡ Recorded.unsaid_words device.now (given_at given.entry)) }
{
    let mut words = Vec::new(alloc);
    push_unsaid(alloc, &mut words, device, given)?;
    Ok(words)
}

/// The error of a property of a device that no line wants.
pub fn unsaid(alloc: Global, device: &[u8], given: GivenValue<'_>) -> RecordError
    ensures { IsInWords (Recorded.unsaid_words device.now (given_at given.entry)) result }
{
    match unsaid_words(alloc, device, given) {
        Ok(words) => RecordError::Unsaid(words),
        Err(refused) => RecordError::from(refused),
    }
}

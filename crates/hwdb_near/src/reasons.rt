//! Why a pattern stops, in words: one line, which says what to do.
ghost use Rattle.std.specs.Prelude.{◌≡◌, ◌++◌, Some, codes, drop, option_map, take, OnOk};
ghost use Rattle.hwdb_spec.specs.Folders.{same};
ghost use Rattle.hwdb_spec.specs.Lines;
ghost use Rattle.hwdb_spec_commands.specs.Reports.{shown};
ghost use Rattle.hwdb_spec_commands.specs.FirstParts.{part_before};
ghost use Rattle.hwdb_spec_commands.specs.Near;
ghost use Rattle.hwdb_spec_commands.specs.Near.{byte_text, head_text, on_firsts, other_text, quoted, why_text};

use crate::rating::lower;
use hwdb_pattern::front_size;
use hwdb_show::push_shown;
use hwdb_text::end_of;
use std::alloc::AllocError;

/// The text after so many bytes of it.
pub(crate) fn after(text: &[u8], n: usize) -> &[u8]
    ensures { result.now ≡ drop n text.now }
{
    if n < text.len() { &text[n..] } else { &[] }
}

/// At most so many first bytes of a text.
fn first(text: &[u8], n: usize) -> &[u8]
    ensures { result.now ≡ take n text.now }
{
    if n < text.len() { &text[..n] } else { text }
}

/// Whether a text is empty.
fn is_none(text: &[u8]) -> bool
    ensures { result ≡ Lines.is_none text.now }
{
    text.is_empty()
}

/// The text of the first token of a text.
fn token_text(text: &[u8]) -> &[u8]
    ensures { result.now ≡ Near.token_text text.now }
{
    first(text, front_size(text, 1))
}

/// A text up to its first colon, with it.
fn head_of(text: &[u8]) -> &[u8]
    ensures { result.now ≡ Near.head_of text.now }
{
    first(text, end_of(b':', text) + 1)
}

/// Whether a text has a colon.
fn has_head(text: &[u8]) -> bool
    ensures { result ≡ Near.has_head text.now }
{
    end_of(b':', text) < text.len()
}

/// Whether udev always keeps a byte.
fn is_kept(byte: u8) -> bool
    ensures { result ≡ Near.is_kept byte }
{
    matches!(byte, b'0'..=b'9' | b'A'..=b'Z' | b'a'..=b'z')
        || matches!(byte, b'#' | b'+' | b'-' | b'.' | b':' | b'=' | b'@' | b'_')
}

/// Whether udev may write `_` for a byte of a pattern.
fn is_replaced(byte: u8) -> bool
    ensures { result ≡ Near.is_replaced byte }
{
    !is_kept(byte) && !matches!(byte, b'*' | b'?' | b'[')
}

/// Whether two bytes differ in the case of a letter alone.
fn differ_in_case(a: u8, b: u8) -> bool
    ensures { result ≡ Near.differ_in_case a b }
{
    a != b && lower(a) == lower(b)
}

/// Whether the device has `_`, and the pattern a byte that udev may write so.
fn is_replacement(wanted: &[u8], left: &[u8]) -> bool
    ensures { result ≡ Near.is_replacement wanted.now left.now }
{
    if wanted.is_empty() || left.is_empty() {
        return false;
    }
    is_replaced(wanted[0]) && left[0] == b'_'
}

/// Whether the first bytes of two texts differ in the case of a letter alone.
fn is_other_case(wanted: &[u8], left: &[u8]) -> bool
    ensures { result ≡ on_firsts Near.differ_in_case wanted.now left.now }
{
    if wanted.is_empty() || left.is_empty() {
        return false;
    }
    differ_in_case(wanted[0], left[0])
}

/// Adds words. The only error, here and below, is `AllocError`.
fn push_words(text: &mut Vec<u8>, words: &str) -> Result<(), AllocError>
    ensures { OnOk result (text.new.items ≡ text.old.items ++ words.now) }
{
    text.extend_from_slice(words.as_bytes())?;
    Ok(())
}

/// Adds a text, as it is shown, between two backquotes.
fn push_quoted(text: &mut Vec<u8>, bytes: &[u8]) -> Result<(), AllocError>
    ensures { OnOk result (text.new.items ≡ text.old.items ++ quoted bytes.now) }
{
    text.push(b'`')?;
    push_shown(text, bytes)?;
    text.push(b'`')?;
    Ok(())
}

/// Adds a text between two backquotes, words before it and words after it.
fn push_between(
    text: &mut Vec<u8>,
    before: &str,
    bytes: &[u8],
    after: &str,
) -> Result<(), AllocError>
    ensures { OnOk result
        (text.new.items ≡ text.old.items ++ (before.now ++ (quoted bytes.now ++ after.now))) }
{
    push_words(text, before)?;
    push_quoted(text, bytes)?;
    push_words(text, after)
}

/// What is added if the device has the pattern's letter in the other case.
fn case_words(wanted: &[u8], left: &[u8]) -> &'static str
    ensures { result.now ≡ Near.case_text wanted.now left.now }
{
    if is_other_case(wanted, left) {
        ": the case of letters counts"
    } else {
        ""
    }
}

/// Adds that the device has another byte than the pattern.
fn push_other(text: &mut Vec<u8>, wanted: &[u8], left: &[u8]) -> Result<(), AllocError>
    ensures { OnOk result (text.new.items ≡ text.old.items ++ other_text wanted.now left.now) }
{
    push_between(text, "the device has ", first(left, 1), ", the pattern ")?;
    push_quoted(text, token_text(wanted))?;
    push_words(text, case_words(wanted, left))
}

/// Adds why a pattern stops at a byte of the device.
fn push_byte(text: &mut Vec<u8>, wanted: &[u8], left: &[u8]) -> Result<(), AllocError>
    ensures { OnOk result (text.new.items ≡ text.old.items ++ byte_text wanted.now left.now) }
{
    if is_replacement(wanted, left) {
        let advice = ": write `_` in the pattern";
        return push_between(text, "udev makes `_` of ", first(wanted, 1), advice);
    }
    push_other(text, wanted, left)
}

/// Adds a text, as it is shown, between words.
fn push_among(text: &mut Vec<u8>, before: &str, bytes: &[u8], after: &str) -> Result<(), AllocError>
    ensures { OnOk result (text.new.items
        ≡ text.old.items ++ (before.now ++ (shown bytes.now ++ after.now))) }
{
    push_words(text, before)?;
    push_shown(text, bytes)?;
    push_words(text, after)
}

/// Adds what may be meant by a device without a colon.
fn push_name(text: &mut Vec<u8>, device: &[u8]) -> Result<(), AllocError>
    ensures { OnOk result (text.new.items ≡ text.old.items ++ Near.name_text device.now) }
{
    let advice = "' says what udev asks for a device of this name";
    push_among(text, "; 'hwdb device ", device, advice)
}

/// Adds that a device has no part up to a colon, as a pattern has one.
fn push_headless(text: &mut Vec<u8>, pattern: &[u8], device: &[u8]) -> Result<(), AllocError>
    ensures { OnOk result (text.new.items ≡ text.old.items
        ++ (codes "the device has no prefix like " ++ (quoted (Near.head_of pattern.now)
        ++ Near.name_text device.now))) }
{
    push_words(text, "the device has no prefix like ")?;
    push_quoted(text, head_of(pattern))?;
    push_name(text, device)
}

/// Whether two texts are one.
fn is(text: &[u8], other: &[u8]) -> bool
    ensures { result ≡ same other.now text.now }
{
    other.cmp(text).is_eq()
}

/// What may be missing before a text that begins so.
fn part_before(head: &[u8]) -> Option<&'static str>
    ensures { option_map (λ t. t.now) result ≡ part_before head.now }
{
    if is(head, b"input:") {
        return Some("evdev:");
    }
    if is(head, b"name:") {
        return Some("evdev:");
    }
    if is(head, b"atkbd:") {
        return Some("evdev:");
    }
    if is(head, b"modalias:") {
        return Some("sensor:");
    }
    None
}

/// Adds that a device begins with a part before which another one may be missing.
fn push_headed(text: &mut Vec<u8>, head: &[u8], part: &str) -> Result<(), AllocError>
    ensures { OnOk result
        (text.new.items ≡ text.old.items ++ Near.other_head head.now (Some part.now)) }
{
    let between = ", and most patterns for it have ";
    let advice = " before that; 'hwdb device' says what udev asks";
    push_words(text, "the device begins with ")?;
    push_quoted(text, head)?;
    push_between(text, between, part.as_bytes(), advice)
}

/// Adds why a pattern stops at a device that begins with this part.
fn push_other_head(text: &mut Vec<u8>, head: &[u8]) -> Result<(), AllocError>
    ensures { OnOk result
        (text.new.items ≡ text.old.items ++ Near.other_head head.now (part_before head.now)) }
{
    match part_before(head) {
        Some(part) => push_headed(text, head, part),
        None => {
            let advice = ": begin the pattern with that";
            push_between(text, "the device begins with ", head, advice)
        }
    }
}

/// Adds why a pattern stops before the device's first colon is passed.
fn push_head(
    text: &mut Vec<u8>,
    pattern: &[u8],
    device: &[u8],
    wanted: &[u8],
    left: &[u8],
) -> Result<(), AllocError>
    ensures { OnOk result (text.new.items
        ≡ text.old.items ++ head_text pattern.now device.now wanted.now left.now) }
{
    if has_head(device) {
        return push_other_head(text, head_of(device));
    }
    if has_head(pattern) {
        return push_headless(text, pattern, device);
    }
    push_byte(text, wanted, left)
}

/// How far a pattern and a device go together, and what is left of both.
#[derive(Clone, Copy)]
pub(crate) struct Rest<'a> {
    /// How many bytes of the device the pattern meets.
    pub(crate) met: usize,
    /// What is left of the pattern.
    pub(crate) wanted: &'a [u8],
    /// What is left of the device.
    pub(crate) left: &'a [u8],
}

/// Adds why a pattern stops after so many bytes of a device, by what is left of both.
pub(crate) fn push_why(
    text: &mut Vec<u8>,
    pattern: &[u8],
    device: &[u8],
    rest: Rest<'_>,
) -> Result<(), AllocError>
    ensures { OnOk result (text.new.items ≡ text.old.items ++ why_text pattern.now device.now
        rest.entry.met rest.entry.wanted.now rest.entry.left.now) }
{
    let Rest { met, wanted, left } = rest;
    if is_none(left) {
        let words = "the device ends here, the pattern goes on: end the pattern here";
        return push_words(text, words);
    }
    if is_none(wanted) {
        let words = "the pattern ends here, the device goes on: put `*` after it";
        return push_words(text, words);
    }
    if met <= end_of(b':', device) {
        return push_head(text, pattern, device, wanted, left);
    }
    push_byte(text, wanted, left)
}

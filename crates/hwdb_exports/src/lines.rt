//! The lines of an export, and what they say.
ghost use Rattle.std.specs.Prelude.{◌≡◌, IfOk, drop, map, option_map, take};
ghost use Rattle.std.specs.List.{after_first, before_first, list_any};
ghost use Rattle.hwdb_spec.specs.Folders;
ghost use Rattle.hwdb_spec.specs.Lines.{is};
ghost use Rattle.hwdb_spec_commands.specs.Exports as spec;

use hwdb_text::{Lines, end_of};
use std::alloc::{AllocError, Global};

/// What is after so many bytes of a text.
pub(crate) fn after(text: &[u8], n: usize) -> &[u8]
    ensures { result.now ≡ drop n text.now }
{
    if n < text.len() { &text[n..] } else { b"" }
}

/// What is before the first such byte.
pub(crate) fn before_byte(cut: u8, text: &[u8]) -> &[u8]
    ensures { result.now ≡ before_first (is cut) text.now }
{
    &text[..end_of(cut, text)]
}

/// What is after it.
pub(crate) fn after_byte(cut: u8, text: &[u8]) -> &[u8]
    ensures { result.now ≡ after_first (is cut) text.now }
{
    after(text, end_of(cut, text) + 1)
}

/// Whether two texts are the same.
pub(crate) fn same(one: &[u8], other: &[u8]) -> bool
    ensures { result ≡ Folders.same one.now other.now }
{
    one.cmp(other).is_eq()
}

/// The lines of an export.
pub(crate) fn export_lines<'b>(alloc: Global, bytes: &'b [u8]) -> Result<Vec<&'b [u8]>, AllocError>
    ensures { IfOk result (λ lines. map (λ l. l.now) lines.items ≡ spec.export_lines bytes.now) }
{
    let mut lines = Vec::new(alloc);
    for line in Lines::new(bytes) {
        lines.push(before_byte(b'\r', line))?;
    }
    Ok(lines)
}

/// Whether a device begins with this line.
pub(crate) fn begins_device(line: &[u8]) -> bool
    ensures { result ≡ spec.begins_device line.now }
{
    line.starts_with(b"P: /")
}

/// The lines before the next device.
pub(crate) fn own_lines<'l, 'b>(lines: &'l [&'b [u8]]) -> &'l [&'b [u8]]
    ensures { map (λ l. l.now) result.now ≡ spec.own_lines (map (λ l. l.now) lines.now) }
{
    let mut end = 0;
    while end < lines.len() && !begins_device(lines[end]) {
        end += 1;
    }
    &lines[..end]
}

/// What the first of some lines says that begins so.
pub(crate) fn said_after<'b>(start: &[u8], lines: &[&'b [u8]]) -> Option<&'b [u8]>
    ensures { option_map (λ t. t.now) result
        ≡ spec.said_after start.now (map (λ l. l.now) lines.now) }
{
    for line in lines {
        if line.starts_with(start) {
            return Some(after(line, start.len()));
        }
    }
    None
}

/// Whether a line is among some.
pub(crate) fn has_line(wanted: &[u8], lines: &[&[u8]]) -> bool
    ensures { result ≡ list_any (Folders.same wanted.now) (map (λ l. l.now) lines.now) }
{
    for line in lines {
        if same(wanted, line) {
            return true;
        }
    }
    false
}

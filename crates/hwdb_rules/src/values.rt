//! Values of attributes, as udev writes them into strings.
ghost use Rattle.std.specs.Prelude.{◌≡◌, ◌++◌, ◌≤◌, ◌<◌, drop, get_or, length, take, OnOk};
ghost use Rattle.hwdb_spec.specs.Folders;
ghost use Rattle.hwdb_spec.specs.Lines;
ghost use Rattle.hwdb_spec_commands.specs.Sysfs;
ghost use Rattle.hwdb_spec_commands.specs.Sysfs.{cut_back, cut_short, left_whole, put_in, replaced, written};
ghost use Rattle.hwdb_rules.specs.Internal.{is_cut, kept};

use std::alloc::AllocError;

/// Whether two texts are the same.
pub(crate) fn same(one: &[u8], other: &[u8]) -> bool
    ensures { result ≡ Folders.same one.now other.now }
{
    one.cmp(other).is_eq()
}

/// What is cut from the end of a value.
#[derive(Clone, Copy)]
pub(crate) enum Ends {
    /// Ends of lines.
    Lines,
    /// White space.
    White,
}

/// Whether a byte ends a line.
fn is_line_end(byte: u8) -> bool
    ensures { result ≡ Sysfs.is_line_end byte }
{
    byte == b'\n' || byte == b'\r'
}

/// Whether a byte is white space.
fn is_white(byte: u8) -> bool
    ensures { result ≡ Sysfs.is_white byte }
{
    is_line_end(byte) || byte == b' ' || byte == b'\t'
}

/// Whether a byte is cut from the end.
fn is_cut(ends: Ends, byte: u8) -> bool
    ensures { result ≡ is_cut ends byte }
{
    match ends {
        Ends::Lines => is_line_end(byte),
        Ends::White => is_white(byte),
    }
}

/// A value without what is cut from its end.
pub(crate) fn without_ends(ends: Ends, value: &[u8]) -> &[u8]
    ensures { result.now ≡ cut_back (is_cut ends) value.now }
{
    let mut end = value.len();
    while end > 0 && is_cut(ends, value[end - 1]) {
        end -= 1;
    }
    &value[..end]
}

/// Whether udev leaves a byte as it is.
fn is_left(byte: u8) -> bool
    ensures { result ≡ Sysfs.is_left byte }
{
    matches!(byte, b'0'..=b'9' | b'A'..=b'Z' | b'a'..=b'z') || b"#+-.:=@_/ $%?,".contains(&byte)
}

/// How many bytes a character of UTF-8 has, by its first byte.
fn size_by_first(byte: u8) -> usize
    ensures { result ≡ Sysfs.size_by_first byte }
{
    match byte {
        0..194 => 1,
        194..224 => 2,
        224..240 => 3,
        240..245 => 4,
        245.. => 1,
    }
}

/// Whether the bytes of one character are those of one that Unicode has for no use.
fn is_unused(text: &[u8]) -> bool
    ensures { result ≡ Sysfs.is_unused text.now }
{
    match text {
        [239, 183, c] => matches!(*c, 144..=175),
        [239, 191, c] => matches!(*c, 190..=191),
        [_, b, 191, d] => *b % 16 == 15 && matches!(*d, 190..=191),
        _ => false,
    }
}

/// Whether these are UTF-8, and no such character.
fn is_used(text: &[u8]) -> bool
    ensures { result ≡ Sysfs.is_used text.now }
{
    match str::from_utf8(text) {
        Ok(_) => !is_unused(text),
        Err(_) => false,
    }
}

/// Whether these are one character of more than one byte.
fn is_wide(size: usize, text: &[u8]) -> bool
    ensures { result ≡ Sysfs.is_wide size text.now }
{
    1 < size && text.len() == size && is_used(text)
}

/// At most so many first bytes of a text.
fn first(text: &[u8], n: usize) -> &[u8]
    ensures { result.now ≡ take n text.now }
{
    if n < text.len() { &text[..n] } else { text }
}

/// What is after so many bytes of a text.
pub(crate) fn after(text: &[u8], n: usize) -> &[u8]
    ensures { result.now ≡ drop n text.now }
{
    if n < text.len() { &text[n..] } else { &[] }
}

/// How many of the first bytes of a text are left as they are, if its first byte by itself isn't.
fn left_whole(text: &[u8]) -> usize
    requires { 0 < length text.now }
    ensures size { result ≡ left_whole (get_or text.now 0 0) (drop 1 text.now) }
    ensures within { result ≤ length text.now }
{
    if text.starts_with(b"\\x") {
        return 2;
    }
    let size = size_by_first(text[0]);
    if is_wide(size, first(text, size)) {
        size
    } else {
        0
    }
}

/// The byte in place of one that isn't left.
fn put_for(byte: u8) -> u8
    ensures { result ≡ Sysfs.put_for byte }
{
    if byte == b' ' || matches!(byte, 9..=13) {
        b' '
    } else {
        b'_'
    }
}

/// How many of the first bytes of a text are left as they are; none if its first byte isn't.
fn kept_size(text: &[u8]) -> usize
    requires { 0 < length text.now }
    ensures size { result ≡ kept (get_or text.now 0 0) (drop 1 text.now) }
    ensures within { result ≤ length text.now }
{
    if is_left(text[0]) {
        return 1;
    }
    left_whole(text)
}

/// Adds a text with `_` for each byte that udev doesn't allow. The only error, here and below, is `AllocError`.
fn push_replaced(text: &mut Vec<u8>, value: &[u8]) -> Result<(), AllocError>
    ensures { OnOk result (text.new.items ≡ text.old.items ++ replaced 0 value.now) }
{
    let mut left = value;
    'writing: while let Some((byte, more)) = left.split_first() {
        let size = kept_size(left);
        if size > 0 {
            text.extend_from_slice(first(left, size))?;
            left = after(left, size);
        } else {
            text.push(put_for(*byte))?;
            left = more;
        }
    }
    Ok(())
}

/// Adds a value as it is in a string.
fn push_written(text: &mut Vec<u8>, value: &[u8]) -> Result<(), AllocError>
    ensures { OnOk result (text.new.items ≡ text.old.items ++ written value.now) }
{
    push_replaced(text, without_ends(Ends::White, value))
}

/// How many bytes of a value udev takes.
const LONGEST_VALUE: usize = 511;

/// Adds a value as `$attr{}` gives it: byte 0 in place of one that is too long.
pub(crate) fn push_value(text: &mut Vec<u8>, value: &[u8]) -> Result<(), AllocError>
    ensures { OnOk result (text.new.items ≡ text.old.items ++ put_in value.now) }
{
    if value.len() > LONGEST_VALUE {
        text.push(0)?;
        return Ok(());
    }
    push_written(text, value)
}

/// Adds what a file says of the machine, as `$attr{[dmi/id]..}` gives it.
pub(crate) fn push_cut(text: &mut Vec<u8>, value: &[u8]) -> Result<(), AllocError>
    ensures { OnOk result (text.new.items ≡ text.old.items ++ cut_short value.now) }
{
    push_written(text, first(without_ends(Ends::Lines, value), LONGEST_VALUE))
}

/// Whether udev runs a lookup with this text: no value in it is too long.
pub fn is_run(text: &[u8]) -> bool
    ensures { result ≡ Sysfs.is_run text.now }
{
    !text.contains(&0)
}

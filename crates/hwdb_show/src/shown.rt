//! Lines as they are shown, and the mark below them.
ghost use Rattle.std.specs.Prelude.{◌≡◌, ◌≤◌, ◌++◌, ◌∷◌, [], codes, drop, take, IfOk, OnOk};
ghost use Rattle.hex.specs.Hex.{encode_lower};
ghost use Rattle.hwdb_spec.specs.Patterns.{in_span};
ghost use Rattle.hwdb_spec_commands.specs.Reports;
ghost use Rattle.hwdb_spec_commands.specs.Reports.{back_cut, front_cut, mark_line, shown, shown_byte, shown_line, spaces};

use std::alloc::{AllocError, Global};

/// At most how many bytes of a line are shown (our choice).
const SHOWN: usize = 160;

/// How many bytes before the place are shown of a line whose front is cut (our choice).
const BEFORE: usize = 80;

/// The digits of a byte that isn't printable.
pub(crate) const DIGITS: [u8; 16] = *b"0123456789abcdef";

/// Whether ASCII prints a byte.
pub(crate) fn is_printed(byte: u8) -> bool
    ensures { result ≡ in_span byte (32, 126) }
{
    matches!(byte, 32..=126)
}

/// Adds `\x` and a byte's two hexadecimal digits. The only error, here and below, is `AllocError`.
#[tactic(auto, unfolding(hex::specs::Hex::encode_with))]
pub(crate) fn push_digits(text: &mut Vec<u8>, byte: u8) -> Result<(), AllocError>
    ensures { OnOk result
        (text.new.items ≡ text.old.items ++ (codes "\\x" ++ encode_lower (byte ∷ []))) }
{
    text.push(b'\\')?;
    text.push(b'x')?;
    text.push(DIGITS[(byte / 16) as usize])?;
    text.push(DIGITS[(byte % 16) as usize])?;
    Ok(())
}

/// Adds a byte, as it is shown: itself, or `\x` and its two hexadecimal digits.
pub fn push_byte(text: &mut Vec<u8>, byte: u8) -> Result<(), AllocError>
    ensures { OnOk result (text.new.items ≡ text.old.items ++ shown_byte byte) }
{
    if is_printed(byte) {
        text.push(byte)?;
        return Ok(());
    }
    push_digits(text, byte)
}

/// Adds some bytes, as they are shown.
pub fn push_shown(text: &mut Vec<u8>, bytes: &[u8]) -> Result<(), AllocError>
    ensures { OnOk result (text.new.items ≡ text.old.items ++ shown bytes.now) }
{
    for byte in bytes {
        push_byte(text, *byte)?;
    }
    Ok(())
}

/// Adds as many spaces as another text has bytes.
fn push_spaces(text: &mut Vec<u8>, other: &[u8]) -> Result<(), AllocError>
    ensures { OnOk result (text.new.items ≡ text.old.items ++ spaces other.now) }
{
    for _byte in other {
        text.push(b' ')?;
    }
    Ok(())
}

/// The first bytes of a text, at most so many.
fn first_bytes(text: &[u8], most: usize) -> &[u8]
    ensures { result.now ≡ take most text.now }
{
    if text.len() > most {
        &text[..most]
    } else {
        text
    }
}

/// What is after so many bytes of a text.
fn bytes_after(text: &[u8], start: usize) -> &[u8]
    ensures { result.now ≡ drop start text.now }
{
    if start < text.len() {
        &text[start..]
    } else {
        &[]
    }
}

/// After how many bytes of a line begins what is shown of it.
fn window_start(line: &[u8], at: usize) -> usize
    ensures start { result ≡ Reports.window_start line.now at }
    ensures within { result ≤ at }
{
    if line.len() <= SHOWN {
        return 0;
    }
    if at < SHOWN {
        return 0;
    }
    at - BEFORE
}

/// The bytes of a line that are shown.
fn window(line: &[u8], at: usize) -> &[u8]
    ensures { result.now ≡ Reports.window line.now at }
{
    first_bytes(bytes_after(line, window_start(line, at)), SHOWN)
}

/// Adds `...` in place of what isn't shown of a line before these bytes.
fn push_front_cut(text: &mut Vec<u8>, line: &[u8], at: usize) -> Result<(), AllocError>
    ensures { OnOk result (text.new.items ≡ text.old.items ++ front_cut line.now at) }
{
    if window_start(line, at) > 0 {
        text.extend_from_slice(b"...")?;
    }
    Ok(())
}

/// Adds `...` in place of what isn't shown of a line after these bytes.
fn push_back_cut(text: &mut Vec<u8>, line: &[u8], at: usize) -> Result<(), AllocError>
    ensures { OnOk result (text.new.items ≡ text.old.items ++ back_cut line.now at) }
{
    if bytes_after(line, window_start(line, at)).len() > SHOWN {
        text.extend_from_slice(b"...")?;
    }
    Ok(())
}

/// Adds the line that shows a line with a place: four spaces, and the bytes around the place.
pub fn push_shown_line(text: &mut Vec<u8>, line: &[u8], at: usize) -> Result<(), AllocError>
    ensures { OnOk result (text.new.items ≡ text.old.items ++ shown_line line.now at) }
{
    text.extend_from_slice(b"    ")?;
    push_front_cut(text, line, at)?;
    push_shown(text, window(line, at))?;
    push_back_cut(text, line, at)?;
    text.push(b'\n')?;
    Ok(())
}

/// What is above and before the mark, as it is shown.
fn above_mark(alloc: Global, line: &[u8], at: usize) -> Result<Vec<u8>, AllocError>
    ensures { IfOk result (λ above. above.items ≡ Reports.above_mark line.now at) }
{
    let mut above = Vec::new(alloc);
    push_front_cut(&mut above, line, at)?;
    push_shown(
        &mut above,
        first_bytes(window(line, at), at - window_start(line, at)),
    )?;
    Ok(above)
}

/// Adds the mark below the byte of a line's place.
pub fn push_mark_line(
    alloc: Global,
    text: &mut Vec<u8>,
    line: &[u8],
    at: usize,
) -> Result<(), AllocError>
    ensures { OnOk result (text.new.items ≡ text.old.items ++ mark_line line.now at) }
{
    let above = above_mark(alloc, line, at)?;
    text.extend_from_slice(b"    ")?;
    push_spaces(text, &above)?;
    text.extend_from_slice(b"^\n")?;
    Ok(())
}

//! Words of a shell, as commands that are told have them.
ghost use Rattle.std.specs.Prelude.{◌≡◌, ◌++◌, codes, flat_map, OnOk};
ghost use Rattle.std.specs.List.{list_all};
ghost use Rattle.hwdb_spec_commands.specs.Commands;
ghost use Rattle.hwdb_spec_commands.specs.Commands.{quoted, quoted_byte, shell_word};
ghost use Rattle.hwdb_spec.specs.Lines.{has};

use std::alloc::AllocError;

/// Whether a byte is one of the few that stand for themselves and are no digits or letters.
fn is_bare_mark(byte: u8) -> bool
    ensures { result ≡ has byte (codes "_@%+=:,./-") }
{
    matches!(
        byte,
        b'_' | b'@' | b'%' | b'+' | b'=' | b':' | b',' | b'.' | b'/' | b'-'
    )
}

/// Whether a byte stands for itself in a word of a shell, wherever it is.
fn is_bare_byte(byte: u8) -> bool
    ensures { result ≡ Commands.is_bare_byte byte }
{
    if matches!(byte, 48..=57) {
        return true;
    }
    if matches!(byte, 65..=90) {
        return true;
    }
    if matches!(byte, 97..=122) {
        return true;
    }
    is_bare_mark(byte)
}

/// Whether each byte of a text does.
fn is_bare(text: &[u8]) -> bool
    ensures { result ≡ list_all Commands.is_bare_byte text.now }
{
    let mut bare = true;
    for byte in text {
        bare &= is_bare_byte(*byte);
    }
    bare
}

/// Adds a byte between single quotes. The only error, here and below, is `AllocError`.
fn push_quoted_byte(text: &mut Vec<u8>, byte: u8) -> Result<(), AllocError>
    ensures { OnOk result (text.new.items ≡ text.old.items ++ quoted_byte byte) }
{
    if byte == b'\'' {
        return text.extend_from_slice(b"'\\''");
    }
    text.push(byte)?;
    Ok(())
}

/// Adds some bytes between single quotes.
fn push_quoted_bytes(text: &mut Vec<u8>, bytes: &[u8]) -> Result<(), AllocError>
    ensures { OnOk result
        (text.new.items ≡ text.old.items ++ flat_map quoted_byte bytes.now) }
{
    for byte in bytes {
        push_quoted_byte(text, *byte)?;
    }
    Ok(())
}

/// Adds some bytes, and single quotes around them.
fn push_quoted(text: &mut Vec<u8>, bytes: &[u8]) -> Result<(), AllocError>
    ensures { OnOk result (text.new.items ≡ text.old.items ++ quoted bytes.now) }
{
    text.push(b'\'')?;
    push_quoted_bytes(text, bytes)?;
    text.push(b'\'')?;
    Ok(())
}

/// Adds some bytes as a word of a shell.
pub fn push_word(text: &mut Vec<u8>, bytes: &[u8]) -> Result<(), AllocError>
    ensures { OnOk result (text.new.items ≡ text.old.items ++ shell_word bytes.now) }
{
    if bytes.is_empty() {
        return push_quoted(text, bytes);
    }
    if is_bare(bytes) {
        return text.extend_from_slice(bytes);
    }
    push_quoted(text, bytes)
}

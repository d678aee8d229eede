//! JSON's text with DEL and U+0080 to U+009F escaped.
ghost use Rattle.std.specs.Prelude.{◌≡◌, ◌<◌, ◌+◌, ◌++◌, drop, length, IfOk, OnOk};
ghost use Rattle.std.specs.List.{list_all};
ghost use Rattle.hwdb_show.specs.Escapes.{is_clean};
ghost use Rattle.hwdb_spec_commands.specs.Json;
ghost use Rattle.hwdb_spec_commands.specs.Json.{escaped_after, escaped_code};

use crate::shown::DIGITS;
use std::alloc::{AllocError, Global};

/// Whether a byte is neither DEL nor the first one of U+0080 to U+009F.
fn is_clean(byte: u8) -> bool
    ensures { result ≡ is_clean byte }
{
    byte != 0x7f && byte != 0xc2
}

/// Whether no byte of a text is one of them.
fn all_clean(text: &[u8]) -> bool
    ensures { result ≡ list_all is_clean text.now }
{
    let mut clean = true;
    for byte in text {
        clean &= is_clean(*byte);
    }
    clean
}

/// Whether a character of U+0080 to U+009F begins with a byte, after which come others.
fn begins_control(byte: u8, more: &[u8]) -> bool
    ensures { result ≡ Json.begins_control byte more.now }
{
    byte == 0xc2 && !more.is_empty() && matches!(more[0], 0x80..=0x9f)
}

/// Adds a character below U+0100 as JSON escapes it.
#[tactic(auto, unfolding(hex::specs::Hex::encode_with))]
fn push_code(text: &mut Vec<u8>, code: u8) -> Result<(), AllocError>
    ensures { OnOk result (text.new.items ≡ text.old.items ++ escaped_code code) }
{
    text.extend_from_slice(b"\\u00")?;
    text.push(DIGITS[(code / 16) as usize])?;
    text.push(DIGITS[(code % 16) as usize])?;
    Ok(())
}

/// Adds a byte of JSON's text: nothing if the escape of its character follows.
fn push_byte(text: &mut Vec<u8>, follows: bool, byte: u8) -> Result<(), AllocError>
    ensures { OnOk result
        (text.new.items ≡ text.old.items ++ Json.escaped_byte follows byte) }
{
    if follows {
        return Ok(());
    }
    if byte == 0x7f {
        return push_code(text, byte);
    }
    text.push(byte)?;
    Ok(())
}

/// Adds what is printed of the byte at a place, which is the second one of its character or not. Returns whether the next one is.
fn push_at(text: &mut Vec<u8>, json: &[u8], i: usize, second: bool) -> Result<bool, AllocError>
    requires { i < length json.now }
    ensures { IfOk result (λ next. text.new.items ++ escaped_after next (drop (i + 1) json.now)
        ≡ text.old.items ++ escaped_after second (drop i json.now)) }
{
    if second {
        push_code(text, json[i])?;
        return Ok(false);
    }
    let follows = begins_control(json[i], &json[i + 1..]);
    push_byte(text, follows, json[i])?;
    Ok(follows)
}

/// A text of JSON, as it is printed. A text without such characters isn't copied.
pub fn escaped(alloc: Global, json: Vec<u8>) -> Result<Vec<u8>, AllocError>
    ensures { IfOk result (λ text. text.items ≡ Json.escaped json.items) }
{
    if all_clean(&json) {
        return Ok(json);
    }
    let mut text = Vec::new(alloc);
    let mut second = false;
    'escaping: for i in 0..json.len() {
        second = push_at(&mut text, &json, i, second)?;
    }
    Ok(text)
}

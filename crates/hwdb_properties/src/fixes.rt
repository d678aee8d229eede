//! Names and values as they were likely meant, if that is sure.
ghost use Rattle.std.specs.Prelude.{◌≡◌, ◌++◌, ◌∷◌, [], filter, not, IfOk, OnOk};
ghost use Rattle.hwdb_spec_commands.specs.Fixes;
ghost use Rattle.hwdb_spec_commands.specs.Properties;

use crate::cuts::{first_one, without};
use crate::meant::value_meant;
use crate::names::lower;
use crate::numbers::{is_axis_code, is_hex};
use crate::remarks::{
    axis_row, bare_code, is_axis_name, key_in_letters, property_row, push_lower, without_key,
};
use crate::rows::{after_word, word};
use hwdb_text::begins_with;
use std::alloc::{AllocError, Global};

/// Adds a name with the code of an axis that evtest shows in decimal; nothing if it is none. The only error, here and below, is
/// `AllocError`.
fn push_axis_name(text: &mut Vec<u8>, own: &[u8], code: &[u8]) -> Result<(), AllocError>
    ensures { OnOk result
        (text.new.items ≡ text.old.items ++ Fixes.axis_meant own.now code.now) }
{
    let row = axis_row(code);
    if row.is_empty() {
        return Ok(());
    }
    text.extend_from_slice(own)?;
    text.extend_from_slice(after_word(row))?;
    Ok(())
}

/// Adds a name with a code in hexadecimal digits.
fn push_hex_name(text: &mut Vec<u8>, own: &[u8], code: &[u8]) -> Result<(), AllocError>
    ensures { OnOk result (text.new.items ≡ text.old.items ++ Fixes.hex_meant own.now code.now) }
{
    if is_axis_name(own) && !is_axis_code(code) {
        return push_axis_name(text, own, code);
    }
    text.extend_from_slice(own)?;
    push_lower(text, code)
}

/// Adds a name with a code that its property takes.
fn push_code_name(text: &mut Vec<u8>, own: &[u8], code: &[u8]) -> Result<(), AllocError>
    ensures { OnOk result
        (text.new.items ≡ text.old.items ++ Fixes.code_meant own.now code.now) }
{
    if !is_hex(code) {
        return Ok(());
    }
    push_hex_name(text, own, code)
}

/// Adds a name whose code its property doesn't take, as it was likely meant; nothing if that isn't sure.
pub fn push_meant_name(text: &mut Vec<u8>, name: &[u8]) -> Result<(), AllocError>
    ensures { OnOk result (text.new.items ≡ text.old.items ++ Fixes.name_meant name.now) }
{
    let own = word(property_row(name));
    push_code_name(text, own, bare_code(own, name))
}

/// Whether a byte is a quote.
fn is_quote(byte: u8) -> bool
    ensures { result ≡ Fixes.is_quote byte }
{
    byte == b'"' || byte == b'\''
}

/// Adds a byte, if it is no quote.
fn push_unquoted(text: &mut Vec<u8>, byte: u8) -> Result<(), AllocError>
    ensures { OnOk result (text.new.items
        ≡ text.old.items ++ filter (λ b. not (Fixes.is_quote b)) (byte ∷ [])) }
{
    if !is_quote(byte) {
        text.push(byte)?;
    }
    Ok(())
}

/// A text without its quotes.
fn unquoted(alloc: Global, text: &[u8]) -> Result<Vec<u8>, AllocError>
    ensures { IfOk result (λ bare. bare.items ≡ Fixes.unquoted text.now) }
{
    let mut bare = Vec::new(alloc);
    for byte in text {
        push_unquoted(&mut bare, *byte)?;
    }
    Ok(bare)
}

/// The `!` that a value begins with, if it does.
fn mark_of(text: &[u8]) -> &[u8]
    ensures { result.now ≡ Fixes.mark_of text.now }
{
    if begins_with(b'!', text) {
        first_one(text)
    } else {
        &[]
    }
}

/// Adds a key after such a mark; nothing if there is no key.
fn push_marked(text: &mut Vec<u8>, mark: &[u8], name: &[u8]) -> Result<(), AllocError>
    ensures { OnOk result
        (text.new.items ≡ text.old.items ++ Fixes.marked_key mark.now name.now) }
{
    if name.is_empty() {
        return Ok(());
    }
    text.extend_from_slice(mark)?;
    text.extend_from_slice(name)?;
    Ok(())
}

/// Adds the key that a value is but for quotes, `KEY_` and the case of letters; nothing if it is none.
pub fn push_meant_key(alloc: Global, text: &mut Vec<u8>, value: &[u8]) -> Result<(), AllocError>
    ensures { OnOk result (text.new.items ≡ text.old.items ++ Fixes.key_meant value.now) }
{
    let bare = unquoted(alloc, without(b'!', value))?;
    push_marked(
        text,
        mark_of(value),
        word(key_in_letters(without_key(&bare))),
    )
}

/// The value of a property that was likely meant by a text; an empty text if that isn't sure.
pub fn meant_value<'t>(name: &[u8], text: &'t [u8]) -> &'t [u8]
    ensures { result.now ≡ Properties.value_meant (Properties.property_row name.now) text.now }
{
    value_meant(property_row(name), text)
}

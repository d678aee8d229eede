//! The line of a key that is pressed.
ghost use Rattle.std.specs.Fmt.{decimal};
ghost use Rattle.std.specs.Option.{option_map_or};
ghost use Rattle.std.specs.Prelude.{◌≡◌, ◌++◌, IfOk, OnOk, find, option_map, string_bytes};
ghost use Rattle.hwdb_spec.specs.Folders;
ghost use Rattle.hwdb_spec.specs.Lines.{is, pieces};
ghost use Rattle.hwdb_spec_commands.specs.Properties;
ghost use Rattle.hwdb_spec_commands.specs.Scans as spec;
ghost use Rattle.hwdb_spec_commands.specs.declared.vocabulary.TheConstants.{KEY_NAMES};

use hwdb_properties::{after, before, same};
use hwdb_spec_commands::KEY_NAMES;
use hwdb_text::Lines;
use itoa::Buffer;
use std::alloc::{AllocError, Global};

/// The first row of a table with a number.
fn row_of<'t>(table: &'t [u8], number: &[u8]) -> Option<&'t [u8]>
    ensures { option_map (λ r. r.now) result ≡ find
        (λ row. Folders.same (Properties.after_word row) number.now) (pieces (is 10) table.now) }
{
    for row in Lines::new(table) {
        if same(after(b' ', row), number) {
            return Some(row);
        }
    }
    None
}

/// The name of the key with a number in a table, or the number.
fn name_of<'t>(table: &'t [u8], number: &'t [u8]) -> &'t [u8]
    ensures { result.now ≡ option_map_or Properties.word (find
        (λ row. Folders.same (Properties.after_word row) number.now) (pieces (is 10) table.now))
        number.now }
{
    match row_of(table, number) {
        Some(row) => before(b' ', row),
        None => number,
    }
}

/// The name of a key, or its number. The only error, here and below, is `AllocError`.
fn key_name(alloc: Global, table: &[u8], code: u16) -> Result<Vec<u8>, AllocError>
    ensures { IfOk result (λ name. name.items ≡ spec.key_name table.now code) }
{
    let mut buffer = Buffer::new();
    let number = buffer.format(code).as_bytes();
    Vec::from_slice(alloc, name_of(table, number))
}

/// A scan code in hexadecimal digits.
fn hexadecimal(alloc: Global, code: u32) -> Result<String, AllocError>
    ensures { IfOk result (λ text. string_bytes text ≡ spec.hexadecimal code) }
{
    Ok(format!(in alloc; "{code:x}")?)
}

/// Adds the line to write for a key.
fn push_property(text: &mut Vec<u8>, name: &[u8], code: &[u8]) -> Result<(), AllocError>
    ensures { OnOk result
        (text.new.items ≡ text.old.items ++ spec.property_line name.now code.now) }
{
    text.extend_from_slice(b"KEYBOARD_KEY_")?;
    text.extend_from_slice(code)?;
    text.push(b'=')?;
    text.extend_from_slice(name)?;
    text.push(b'\n')?;
    Ok(())
}

/// Adds the line of a key with its scan code.
fn push_coded(text: &mut Vec<u8>, name: &[u8], code: &[u8]) -> Result<(), AllocError>
    ensures { OnOk result
        (text.new.items ≡ text.old.items ++ spec.coded_line name.now code.now) }
{
    text.extend_from_slice(code)?;
    text.push(b' ')?;
    text.extend_from_slice(name)?;
    text.push(b' ')?;
    push_property(text, name, code)?;
    Ok(())
}

/// Adds the line of a key of which no scan code is known.
fn push_uncoded(text: &mut Vec<u8>, name: &[u8]) -> Result<(), AllocError>
    ensures { OnOk result (text.new.items ≡ text.old.items ++ spec.uncoded_line name.now) }
{
    text.extend_from_slice(b"- ")?;
    text.extend_from_slice(name)?;
    text.extend_from_slice(b" -\n")?;
    Ok(())
}

/// Adds the line of a key with this name.
fn push_named(
    alloc: Global,
    text: &mut Vec<u8>,
    name: &[u8],
    known: Option<u32>,
) -> Result<(), AllocError>
    ensures { OnOk result (text.new.items ≡ text.old.items ++ spec.named_line name.now known) }
{
    match known {
        Some(code) => push_coded(text, name, hexadecimal(alloc, code)?.as_bytes()),
        None => push_uncoded(text, name),
    }
}

/// Adds the line of a key that is pressed.
#[tactic(auto, unfolding(hwdb_spec_commands::specs::Scans::pressed_line))]
pub fn push_pressed(
    alloc: Global,
    text: &mut Vec<u8>,
    known: Option<u32>,
    code: u16,
) -> Result<(), AllocError>
    ensures { OnOk result (text.new.items ≡ text.old.items ++ spec.pressed_line known code) }
{
    let name = key_name(alloc, KEY_NAMES.as_bytes(), code)?;
    push_named(alloc, text, &name, known)
}

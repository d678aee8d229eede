//! Below which prefixes a property is read, and with which others.
ghost use Rattle.std.specs.Prelude.{◌≡◌, ◌++◌, OnOk, codes};
ghost use Rattle.std.specs.List.{list_all};
ghost use Rattle.hwdb_spec.specs.Patterns.{in_span};
ghost use Rattle.hwdb_spec_commands.specs.Properties;
ghost use Rattle.hwdb_spec_commands.specs.Surroundings;
ghost use Rattle.hwdb_spec_commands.specs.declared.vocabulary.TheConstants.{COMPANIONS, KNOWN_BELOW};

use crate::common::is_common;
use crate::cuts::{after_one, front, past, same};
use crate::numbers::is_lower_hex;
use crate::remarks::{name_misuse, property_row};
use crate::rows::{Likeness, after_word, first_row, row_form, word};
use crate::values::is_choice;
use crate::words::is_odd_name;
use hwdb_spec_commands::{COMPANIONS, KNOWN_BELOW};
use std::alloc::AllocError;

/// The words of a row for the prefixes below which its property is read.
fn row_prefixes(row: &[u8]) -> &[u8]
    ensures { result.now ≡ Surroundings.row_prefixes row.now }
{
    word(after_word(after_word(row)))
}

/// Whether a property with this row is read below a prefix.
fn is_read_by_row(row: &[u8], prefix: &[u8]) -> bool
    ensures { result ≡ Surroundings.is_read_by_row row.now prefix.now }
{
    let words = row_prefixes(row);
    same(words, b"*") || is_choice(words, prefix)
}

/// Whether a property that is in no row may be read below a prefix.
fn may_be_read(name: &[u8], prefix: &[u8]) -> bool
    ensures { result ≡ Surroundings.may_be_read name.now prefix.now }
{
    if is_odd_name(name) {
        return name_misuse(name).is_some();
    }
    if !is_choice(KNOWN_BELOW.as_bytes(), prefix) {
        return true;
    }
    name_misuse(name).is_some()
}

/// Whether a property is read below a prefix, which comes without its colon. It takes a look at each row of a table, and at those of
/// another one if the property is in none.
pub fn is_read_below(name: &[u8], prefix: &[u8]) -> bool
    ensures { result ≡ Surroundings.is_read_below name.now prefix.now }
{
    if is_common(name) {
        return true;
    }
    let row = property_row(name);
    if row.is_empty() {
        return may_be_read(name, prefix);
    }
    is_read_by_row(row, prefix)
}

/// Whether all bytes of a text are digits less than 8.
fn are_octal(text: &[u8]) -> bool
    ensures { result ≡ list_all (λ b. in_span b (48, 55)) text.now }
{
    text.iter().all(|byte| matches!(*byte, b'0'..=b'7'))
}

/// Whether a text is two hexadecimal digits of which the first is less than 8.
fn is_seven_bits(text: &[u8]) -> bool
    ensures { result ≡ Surroundings.is_seven_bits text.now }
{
    text.len() == 2 && are_octal(front(text, 1)) && is_lower_hex(text)
}

/// Whether a property has a code as Linux logs it.
pub fn has_logged_code(name: &[u8]) -> bool
    ensures { result ≡ Surroundings.has_logged_code name.now }
{
    if !name.starts_with(b"KEYBOARD_KEY_e0") {
        return false;
    }
    is_seven_bits(past(name, 15))
}

/// The prefixes below which a property is read, with `|` between.
pub fn prefixes_of(name: &[u8]) -> &'static [u8]
    ensures { result.now ≡ Surroundings.row_prefixes (Properties.property_row name.now) }
{
    row_prefixes(property_row(name))
}

/// The row of what a property is read with.
fn companions_row(name: &[u8]) -> &'static [u8]
    ensures { result.now ≡ Properties.row_for COMPANIONS.now name.now }
{
    first_row(COMPANIONS.as_bytes(), name, Likeness::Same)
}

/// The properties with which alone a property is read, with commas between; nothing if it is read without others.
pub fn companions_of(name: &[u8]) -> &'static [u8]
    ensures { result.now ≡ Surroundings.companions_text name.now }
{
    if is_common(name) {
        return &[];
    }
    row_form(companions_row(name))
}

/// A digit less than 8, with the bit before it.
fn with_bit(digit: u8) -> u8
    ensures { result ≡ Surroundings.with_bit digit }
{
    if digit < 50 {
        digit + 8
    } else if digit < 56 {
        digit + 47
    } else {
        digit
    }
}

/// Adds a code with that bit. The only error, here and below, is `AllocError`.
fn push_raised(text: &mut Vec<u8>, code: &[u8]) -> Result<(), AllocError>
    ensures { OnOk result (text.new.items ≡ text.old.items ++ Surroundings.raised code.now) }
{
    if code.is_empty() {
        return Ok(());
    }
    text.push(with_bit(code[0]))?;
    text.extend_from_slice(after_one(code))?;
    Ok(())
}

/// Adds the code that a driver has, of one that Linux logs.
fn push_logged_hint(text: &mut Vec<u8>, name: &[u8]) -> Result<(), AllocError>
    ensures { OnOk result (text.new.items ≡ text.old.items ++ Surroundings.logged_hint name.now) }
{
    let words = "Linux logs e0 before a code: below evdev:atkbd: write KEYBOARD_KEY_";
    text.extend_from_slice(words.as_bytes())?;
    push_raised(text, past(name, 15))?;
    Ok(())
}

/// Adds below which prefixes a property is read.
fn push_prefixes_hint(text: &mut Vec<u8>, name: &[u8]) -> Result<(), AllocError>
    ensures { OnOk result (text.new.items ≡ text.old.items
        ++ (codes "it is read below these prefixes: "
        ++ Surroundings.row_prefixes (Properties.property_row name.now))) }
{
    text.extend_from_slice(b"it is read below these prefixes: ")?;
    text.extend_from_slice(prefixes_of(name))?;
    Ok(())
}

/// Adds where a property is read.
pub fn push_elsewhere_hint(text: &mut Vec<u8>, name: &[u8]) -> Result<(), AllocError>
    ensures { OnOk result
        (text.new.items ≡ text.old.items ++ Surroundings.elsewhere_hint name.now) }
{
    if has_logged_code(name) {
        push_logged_hint(text, name)
    } else {
        push_prefixes_hint(text, name)
    }
}

//! What is said of a property that doesn't fit.
ghost use Rattle.std.specs.Prelude.{◌≡◌, ◌++◌, [], OnOk, codes, map, not};
ghost use Rattle.hwdb_spec.specs.Lines;
ghost use Rattle.hwdb_spec_commands.specs.Properties;
ghost use Rattle.hwdb_spec_commands.specs.Surroundings;
ghost use Rattle.hwdb_spec_commands.specs.declared.vocabulary.TheConstants.{AXIS_CODES, KEY_HINT, KEY_NAMES, KEY_WORDS, KNOWN_BELOW, OLD_PROPERTIES, PROPERTIES};

use crate::common::is_common;
use crate::cuts::{before, front, past, same, without};
use crate::meant::push_row_value_hint;
use crate::names::{lower, same_letters};
use crate::numbers::{is_axis_code, is_hex, is_lower_hex};
use crate::rows::{Likeness, after_word, first_row, row_form, word};
use crate::values::{form_of, is_of_form, odd_value};
use crate::words::is_odd_name;
use hwdb_spec_commands::{
    AXIS_CODES, KEY_HINT, KEY_NAMES, KEY_WORDS, KNOWN_BELOW, Misuse, OLD_PROPERTIES, PROPERTIES,
    ValueForm,
};
use std::alloc::AllocError;

/// The row of a property.
pub fn property_row(name: &[u8]) -> &'static [u8]
    ensures { result.now ≡ Properties.property_row name.now }
{
    first_row(PROPERTIES.as_bytes(), name, Likeness::Same)
}

/// Whether a property has a row.
pub fn is_known(name: &[u8]) -> bool
    ensures { result ≡ not (Lines.is_none (Properties.property_row name.now)) }
{
    !property_row(name).is_empty()
}

/// The row of a property with nearly this name.
fn near_row(name: &[u8]) -> &'static [u8]
    ensures { result.now ≡ Properties.near_row PROPERTIES.now name.now }
{
    first_row(PROPERTIES.as_bytes(), name, Likeness::Near)
}

/// The row of a property that is no longer read.
fn old_row(name: &[u8]) -> &'static [u8]
    ensures { result.now ≡ Properties.row_for OLD_PROPERTIES.now name.now }
{
    first_row(OLD_PROPERTIES.as_bytes(), name, Likeness::Same)
}

/// The first row of a property that has all words of a name.
fn lost_row(name: &[u8]) -> &'static [u8]
    ensures { result.now ≡ Properties.lost_row PROPERTIES.now name.now }
{
    first_row(PROPERTIES.as_bytes(), name, Likeness::Lost)
}

/// The key with this name but for the case of letters.
pub fn key_in_letters(name: &[u8]) -> &'static [u8]
    ensures { result.now ≡ Properties.letters_row KEY_NAMES.now name.now }
{
    first_row(KEY_NAMES.as_bytes(), name, Likeness::Letters)
}

/// The row of a key that people call so.
fn key_word(name: &[u8]) -> &'static [u8]
    ensures { result.now ≡ Properties.letters_row KEY_WORDS.now name.now }
{
    first_row(KEY_WORDS.as_bytes(), name, Likeness::Letters)
}

/// The first key with nearly this name.
fn near_key(name: &[u8]) -> &'static [u8]
    ensures { result.now ≡ Properties.near_row KEY_NAMES.now name.now }
{
    first_row(KEY_NAMES.as_bytes(), name, Likeness::Near)
}

/// Whether the names of a form's properties end with a code.
fn has_code(form: ValueForm) -> bool
    ensures { result ≡ Properties.has_code form }
{
    matches!(form, ValueForm::Axis | ValueForm::Key)
}

/// Whether a row's name is that of all axes.
pub fn is_axis_name(own: &[u8]) -> bool
    ensures { result ≡ Properties.is_axis_name own.now }
{
    same(own, b"EVDEV_ABS_")
}

/// Whether this is a code in lower case, and one of an axis if the row is for axes.
fn is_code_of(own: &[u8], code: &[u8]) -> bool
    ensures { result ≡ Properties.is_code_of own.now code.now }
{
    is_lower_hex(code) && (!is_axis_name(own) || is_axis_code(code))
}

/// Whether what a name has more than its row is such a code.
fn is_code(row: &[u8], name: &[u8]) -> bool
    ensures { result ≡ Properties.is_code row.now name.now }
{
    is_code_of(word(row), past(name, word(row).len()))
}

/// Whether a text is a value by its row.
pub fn is_value(row: &[u8], text: &[u8]) -> bool
    ensures { result ≡ Properties.is_value row.now text.now }
{
    let form = row_form(row);
    text.is_empty() || is_of_form(form_of(form), form, text)
}

/// What is said of a value that isn't of its form.
fn value_misuse(form: ValueForm) -> Misuse
    ensures { result ≡ Properties.value_misuse form }
{
    match form {
        ValueForm::Key => Misuse::UnknownKey,
        _ => Misuse::UnfitValue,
    }
}

/// What is said of a property with this row.
fn row_misuse(row: &[u8], name: &[u8], text: &[u8]) -> Option<Misuse>
    ensures { result ≡ Properties.row_misuse row.now name.now text.now }
{
    let form = form_of(row_form(row));
    if has_code(form) && !is_code(row, name) {
        return Some(Misuse::ScanCode);
    }
    if is_value(row, text) {
        return odd_value(form, text);
    }
    Some(value_misuse(form))
}

/// What is said of a name that is in no row.
pub fn name_misuse(name: &[u8]) -> Option<Misuse>
    ensures { result ≡ Properties.name_misuse name.now }
{
    if !old_row(name).is_empty() {
        return Some(Misuse::OldName);
    }
    if near_row(name).is_empty() {
        return None;
    }
    Some(Misuse::NearName)
}

/// What is said of a property with this name and this value, if it doesn't fit what is known. It takes a look at each
/// row of the tables at most twice.
pub fn misuse_of(name: &[u8], text: &[u8]) -> Option<Misuse>
    ensures { result ≡ Properties.misuse name.now text.now }
{
    if is_common(name) {
        return None;
    }
    let row = property_row(name);
    if row.is_empty() {
        return name_misuse(name);
    }
    row_misuse(row, name, text)
}

/// Adds which word was likely meant. The only error, here and below, is `AllocError`.
fn push_did_you_mean(text: &mut Vec<u8>, name: &[u8]) -> Result<(), AllocError>
    ensures { OnOk result (text.new.items ≡ text.old.items ++ Properties.did_you_mean name.now) }
{
    text.extend_from_slice(b"did you mean ")?;
    text.extend_from_slice(name)?;
    text.push(b'?')?;
    Ok(())
}

/// What is a value of a form; for words that may be chosen, what comes before them.
fn form_text(form: ValueForm) -> &'static str
    ensures { Properties.form_hint form [] ≡ result.now }
{
    match form {
        ValueForm::Any => "write any text",
        ValueForm::Count => "write a number, as 10",
        ValueForm::Integer => "write a whole number, as 15 or -15",
        ValueForm::Turn => "write a number from 1 to 360, or from -360 to -1",
        ValueForm::Byte => "write a number from 0 to 255",
        ValueForm::Decimal => "write a decimal number, as 1.5",
        ValueForm::Matrix => "write three rows of three numbers, as 1, 0, 0; 0, 1, 0; 0, 0, 1",
        ValueForm::Resolutions =>
            "write resolutions above 0 with spaces between, as 400@125 *800@125",
        ValueForm::Axis => "write up to five numbers with colons between, as 0:4095:40",
        ValueForm::Limits =>
            "write two numbers up to 100 with a comma between, as 75,80; a _ is for none",
        ValueForm::Key => KEY_HINT,
        ValueForm::Setting => "write letters, digits and + - . / @ _ alone, as us",
        ValueForm::Choice => "write one of these: ",
    }
}

/// Adds what is a value of a form, whose name is this word.
pub fn push_form_hint(text: &mut Vec<u8>, kind: ValueForm, form: &[u8]) -> Result<(), AllocError>
    ensures { OnOk result
        (text.new.items ≡ text.old.items ++ Properties.form_hint kind form.now) }
{
    text.extend_from_slice(form_text(kind).as_bytes())?;
    if let ValueForm::Choice = kind {
        text.extend_from_slice(form)?;
    }
    Ok(())
}

/// A text without such a byte before it, and without all from the next one on.
pub fn inside(byte: u8, text: &[u8]) -> &[u8]
    ensures { result.now ≡ Properties.inside byte text.now }
{
    before(byte, without(byte, text))
}

/// A text without `key_` before it.
pub fn without_key(text: &[u8]) -> &[u8]
    ensures { result.now ≡ Properties.without_key text.now }
{
    if same_letters(front(text, 4), b"key_") {
        past(text, 4)
    } else {
        text
    }
}

/// What is inside the quotes of a value, without a `!` and without `key_`.
fn bare_key(text: &[u8]) -> &[u8]
    ensures { result.now ≡ Properties.bare_key text.now }
{
    without_key(inside(b'\'', inside(b'"', without(b'!', text))))
}

/// Adds which key was likely meant, or how a key is written.
fn push_bare_hint(text: &mut Vec<u8>, name: &[u8]) -> Result<(), AllocError>
    ensures { OnOk result (text.new.items ≡ text.old.items ++ Properties.bare_hint name.now) }
{
    let own = key_in_letters(name);
    if !own.is_empty() {
        return push_did_you_mean(text, word(own));
    }
    let other = key_word(name);
    if !other.is_empty() {
        return push_did_you_mean(text, after_word(other));
    }
    let near = near_key(name);
    if !near.is_empty() {
        return push_did_you_mean(text, word(near));
    }
    push_form_hint(text, ValueForm::Key, &[])
}

/// The same of a value.
fn push_key_hint(text: &mut Vec<u8>, value: &[u8]) -> Result<(), AllocError>
    ensures { OnOk result (text.new.items ≡ text.old.items ++ Properties.key_hint value.now) }
{
    push_bare_hint(text, bare_key(value))
}

/// Adds what is a value of a property with this name.
fn push_value_hint(text: &mut Vec<u8>, name: &[u8], value: &[u8]) -> Result<(), AllocError>
    ensures { OnOk result
        (text.new.items ≡ text.old.items ++ Properties.value_hint name.now value.now) }
{
    push_row_value_hint(text, property_row(name), name, value)
}

/// The code that ends a name, after its row's own, without a `0x`.
pub fn bare_code<'a>(own: &[u8], name: &'a [u8]) -> &'a [u8]
    ensures { result.now ≡ Properties.bare_code own.now name.now }
{
    let code = past(name, own.len());
    if same(front(code, 2), b"0x") {
        past(code, 2)
    } else {
        code
    }
}

/// Adds a text in lower case.
pub fn push_lower(text: &mut Vec<u8>, letters: &[u8]) -> Result<(), AllocError>
    ensures { OnOk result
        (text.new.items ≡ text.old.items ++ map Properties.lower letters.now) }
{
    for letter in letters {
        text.push(lower(*letter))?;
    }
    Ok(())
}

/// The row of a code that evtest shows in decimal.
pub fn axis_row(code: &[u8]) -> &'static [u8]
    ensures { result.now ≡ Properties.row_for AXIS_CODES.now code.now }
{
    first_row(AXIS_CODES.as_bytes(), code, Likeness::Same)
}

/// Adds a code of an axis that evtest shows in decimal.
fn push_axis_code(text: &mut Vec<u8>, own: &[u8], code: &[u8]) -> Result<(), AllocError>
    ensures { OnOk result (text.new.items ≡ text.old.items
        ++ (codes "evtest shows the code in decimal: write " ++ (own.now ++ code.now))) }
{
    text.extend_from_slice(b"evtest shows the code in decimal: write ")?;
    text.extend_from_slice(own)?;
    text.extend_from_slice(code)?;
    Ok(())
}

/// Adds what to do about a code that no axis has.
fn push_axis_hint(text: &mut Vec<u8>, own: &[u8], code: &[u8]) -> Result<(), AllocError>
    ensures { OnOk result
        (text.new.items ≡ text.old.items ++ Properties.axis_hint own.now code.now) }
{
    let row = axis_row(code);
    if row.is_empty() {
        let hint = "write the code of an axis in hexadecimal, from 00 to 3f";
        text.extend_from_slice(hint.as_bytes())?;
        return Ok(());
    }
    push_axis_code(text, own, after_word(row))
}

/// Adds a name with its code in lower case.
fn push_lower_code(text: &mut Vec<u8>, own: &[u8], code: &[u8]) -> Result<(), AllocError>
    ensures { OnOk result (text.new.items
        ≡ text.old.items ++ (codes "write " ++ (own.now ++ map Properties.lower code.now))) }
{
    text.extend_from_slice(b"write ")?;
    text.extend_from_slice(own)?;
    push_lower(text, code)
}

/// Adds what to do about a code in hexadecimal digits.
fn push_hex_hint(text: &mut Vec<u8>, own: &[u8], code: &[u8]) -> Result<(), AllocError>
    ensures { OnOk result
        (text.new.items ≡ text.old.items ++ Properties.hex_hint own.now code.now) }
{
    if is_axis_name(own) && !is_axis_code(code) {
        return push_axis_hint(text, own, code);
    }
    push_lower_code(text, own, code)
}

/// Adds what to do about a code that isn't one of its property.
fn push_bare_code_hint(text: &mut Vec<u8>, own: &[u8], code: &[u8]) -> Result<(), AllocError>
    ensures { OnOk result
        (text.new.items ≡ text.old.items ++ Properties.bare_code_hint own.now code.now) }
{
    if !is_hex(code) {
        let hint = "write the code in the digits 0 to 9 and a to f alone, without 0x";
        text.extend_from_slice(hint.as_bytes())?;
        return Ok(());
    }
    push_hex_hint(text, own, code)
}

/// Adds how a name is written whose code isn't one.
fn push_code_hint(text: &mut Vec<u8>, own: &[u8], name: &[u8]) -> Result<(), AllocError>
    ensures { OnOk result
        (text.new.items ≡ text.old.items ++ Properties.code_hint own.now name.now) }
{
    push_bare_code_hint(text, own, bare_code(own, name))
}

/// Adds what to do about a name whose code isn't one of its property.
fn push_scan_hint(text: &mut Vec<u8>, name: &[u8]) -> Result<(), AllocError>
    ensures { OnOk result
        (text.new.items ≡ text.old.items ++ Properties.misuse_hint Misuse.ScanCode name.now []) }
{
    push_code_hint(text, word(property_row(name)), name)
}

/// Adds what a matrix is.
fn push_matrix_hint(text: &mut Vec<u8>) -> Result<(), AllocError>
    ensures { OnOk result
        (text.new.items ≡ text.old.items ++ Properties.misuse_hint Misuse.ZeroRow [] []) }
{
    let hint = "write in each row where an axis points, as 1, 0, 0; 0, 1, 0; 0, 0, 1";
    text.extend_from_slice(hint.as_bytes())?;
    Ok(())
}

/// Adds what a matrix of three axes is.
fn push_axes_hint(text: &mut Vec<u8>) -> Result<(), AllocError>
    ensures { OnOk result
        (text.new.items ≡ text.old.items ++ Properties.misuse_hint Misuse.SingularMatrix [] []) }
{
    let hint = "write three axes that don't lie in one plane, as 1, 0, 0; 0, 1, 0; 0, 0, 1";
    text.extend_from_slice(hint.as_bytes())?;
    Ok(())
}

/// Adds what came for a property that is no longer read.
fn push_old_hint(text: &mut Vec<u8>, name: &[u8]) -> Result<(), AllocError>
    ensures { OnOk result
        (text.new.items ≡ text.old.items ++ Properties.misuse_hint Misuse.OldName name.now []) }
{
    text.extend_from_slice(b"this came for it: ")?;
    text.extend_from_slice(after_word(old_row(name)))?;
    Ok(())
}

/// Adds below which prefixes all names are known.
fn push_known_below(text: &mut Vec<u8>) -> Result<(), AllocError>
    ensures { OnOk result (text.new.items ≡ text.old.items
        ++ (codes "below these prefixes all names are known: " ++ KNOWN_BELOW.now)) }
{
    text.extend_from_slice(b"below these prefixes all names are known: ")?;
    text.extend_from_slice(KNOWN_BELOW.as_bytes())?;
    Ok(())
}

/// Adds what to do about a name that is in no row.
fn push_bare_name_hint(text: &mut Vec<u8>, name: &[u8]) -> Result<(), AllocError>
    ensures { OnOk result
        (text.new.items ≡ text.old.items ++ Surroundings.bare_name_hint name.now) }
{
    if is_odd_name(name) {
        text.extend_from_slice(b"write the name alone, in letters, digits and _")?;
        return Ok(());
    }
    push_known_below(text)
}

/// Adds what to do about a property that nothing is known to read.
pub fn push_unknown_hint(text: &mut Vec<u8>, name: &[u8]) -> Result<(), AllocError>
    ensures { OnOk result
        (text.new.items ≡ text.old.items ++ Surroundings.unknown_hint name.now) }
{
    let row = lost_row(name);
    if row.is_empty() {
        push_bare_name_hint(text, name)
    } else {
        push_did_you_mean(text, word(row))
    }
}

/// Adds what a default is.
fn push_default_hint(text: &mut Vec<u8>) -> Result<(), AllocError>
    ensures { OnOk result
        (text.new.items ≡ text.old.items ++ Properties.misuse_hint Misuse.TwoDefaults [] []) }
{
    let hint = "put a * before one of them alone";
    text.extend_from_slice(hint.as_bytes())?;
    Ok(())
}

/// Adds what to do about a misuse of a property with this name and this value.
pub fn push_misuse_hint(
    text: &mut Vec<u8>,
    misuse: Misuse,
    name: &[u8],
    value: &[u8],
) -> Result<(), AllocError>
    ensures { OnOk result (text.new.items
        ≡ text.old.items ++ Properties.misuse_hint misuse name.now value.now) }
{
    match misuse {
        Misuse::NearName => push_did_you_mean(text, word(near_row(name))),
        Misuse::OldName => push_old_hint(text, name),
        Misuse::ScanCode => push_scan_hint(text, name),
        Misuse::UnknownKey => push_key_hint(text, value),
        Misuse::UnfitValue => push_value_hint(text, name, value),
        Misuse::ZeroRow => push_matrix_hint(text),
        Misuse::SingularMatrix => push_axes_hint(text),
        Misuse::TwoDefaults => push_default_hint(text),
    }
}

/// What is printed of a misuse.
pub fn misuse_text(misuse: Misuse) -> &'static str
    ensures { result.now ≡ Properties.misuse_text misuse }
{
    match misuse {
        Misuse::NearName => "a property that nothing is known to read",
        Misuse::OldName => "a property that is no longer read",
        Misuse::ScanCode => "a code that its property doesn't take",
        Misuse::UnknownKey => "a key that isn't known",
        Misuse::UnfitValue => "a value that its property doesn't take",
        Misuse::ZeroRow => "a row of the matrix has zeros alone",
        Misuse::SingularMatrix => "the determinant of the matrix is 0",
        Misuse::TwoDefaults => "more than one resolution is the default",
    }
}

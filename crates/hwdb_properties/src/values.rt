//! Texts that are values of a form.
ghost use Rattle.std.specs.Prelude.{◌≡◌};
ghost use Rattle.std.specs.List.{list_any};
ghost use Rattle.hwdb_spec.specs.Lines;
ghost use Rattle.hwdb_spec.specs.Patterns.{in_span};
ghost use Rattle.hwdb_spec_commands.specs.Properties;

use crate::cuts::{after, before, same, without};
use crate::matrices::is_singular;
use crate::numbers::{
    has_digit, is_byte, is_count, is_decimal, is_integer, is_number, is_percent, is_positive,
    is_setting, is_turn,
};
use crate::rows::{Likeness, first_row};
use hwdb_spec_commands::{KEY_NAMES, Misuse, ValueForm};
use hwdb_text::{Pieces, unindented};

/// Whether a text is three decimals with commas between.
fn is_matrix_row(text: &[u8]) -> bool
    ensures { result ≡ Properties.is_matrix_row text.now }
{
    let rest = after(b',', text);
    is_decimal(unindented(before(b',', text)))
        && is_decimal(unindented(before(b',', rest)))
        && is_decimal(unindented(after(b',', rest)))
}

/// Whether a text is three rows with semicolons between.
fn is_matrix(text: &[u8]) -> bool
    ensures { result ≡ Properties.is_matrix text.now }
{
    let rest = after(b';', text);
    is_matrix_row(before(b';', text))
        && is_matrix_row(before(b';', rest))
        && is_matrix_row(after(b';', rest))
}

/// Whether a row of a matrix has no digit but 0.
pub fn is_zero_row(text: &[u8]) -> bool
    ensures { result ≡ Properties.is_zero_row text.now }
{
    !has_digit(text)
}

/// Whether one of the rows of a matrix is zero.
fn has_zero_row(text: &[u8]) -> bool
    ensures { result ≡ Properties.has_zero_row text.now }
{
    for row in Pieces::new(b';', text) {
        if is_zero_row(row) {
            return true;
        }
    }
    false
}

/// Whether a text has a `@`.
fn has_at(text: &[u8]) -> bool
    ensures { result ≡ Lines.has 64 text.now }
{
    text.iter().any(|byte| *byte == b'@')
}

/// Whether a text is a resolution, or nothing.
fn is_resolution(text: &[u8]) -> bool
    ensures { result ≡ Properties.is_resolution text.now }
{
    let plain = without(b'*', text);
    text.is_empty()
        || is_positive(before(b'@', plain)) && (!has_at(text) || is_positive(after(b'@', plain)))
}

/// Whether a text is resolutions with spaces between.
fn is_resolutions(text: &[u8]) -> bool
    ensures { result ≡ Properties.is_resolutions text.now }
{
    for piece in Pieces::new(b' ', text) {
        if !is_resolution(piece) {
            return false;
        }
    }
    true
}

/// Whether a text has a `*`.
fn has_star(text: &[u8]) -> bool
    ensures { result ≡ Lines.has 42 text.now }
{
    text.iter().any(|byte| *byte == b'*')
}

/// Whether more than one of some resolutions is the default.
fn has_two_defaults(text: &[u8]) -> bool
    ensures { result ≡ Properties.has_two_defaults text.now }
{
    has_star(after(b'*', text))
}

/// Whether a text is a limit of an axis, or nothing.
fn is_limit(text: &[u8]) -> bool
    ensures { result ≡ Properties.is_limit text.now }
{
    text.is_empty() || is_number(without(b'-', text))
}

/// Whether a text is at most five limits with colons between.
fn is_axis(text: &[u8]) -> bool
    ensures { result ≡ Properties.is_axis text.now }
{
    let second = after(b':', text);
    let third = after(b':', second);
    let fourth = after(b':', third);
    is_limit(before(b':', text))
        && is_limit(before(b':', second))
        && is_limit(before(b':', third))
        && is_limit(before(b':', fourth))
        && is_limit(after(b':', fourth))
}

/// Whether a text is a percentage, or `_`.
fn is_charge(text: &[u8]) -> bool
    ensures { result ≡ Properties.is_charge text.now }
{
    same(text, b"_") || is_percent(text)
}

/// Whether a text is two charges with a comma between.
fn is_limits(text: &[u8]) -> bool
    ensures { result ≡ Properties.is_limits text.now }
{
    is_charge(before(b',', text)) && is_charge(after(b',', text))
}

/// Whether a text is the name of a key.
fn is_key_name(text: &[u8]) -> bool
    ensures { result ≡ Properties.is_key_name text.now }
{
    !first_row(KEY_NAMES.as_bytes(), text, Likeness::Same).is_empty()
}

/// Whether a text is the name of a key after `key_`.
fn is_prefixed_key(text: &[u8]) -> bool
    ensures { result ≡ Properties.is_prefixed_key text.now }
{
    text.starts_with(b"key_") && !text.starts_with(b"key_btn_") && is_key_name(&text[4..])
}

/// Whether a text is a key: its name or its number.
fn is_key(text: &[u8]) -> bool
    ensures { result ≡ Properties.is_key text.now }
{
    is_number(text) || is_key_name(text) || is_prefixed_key(text)
}

/// Whether a text is a key, after a `!` or not; or a `!`, or nothing.
fn is_key_or_release(text: &[u8]) -> bool
    ensures { result ≡ Properties.is_of_form ValueForm.Key text.now text.now }
{
    let key = without(b'!', text);
    key.is_empty() || is_key(key)
}

/// Whether a text is one of the words of a form.
pub fn is_choice(form: &[u8], text: &[u8]) -> bool
    ensures { result ≡ Properties.is_choice form.now text.now }
{
    for word in Pieces::new(b'|', form) {
        if same(text, word) {
            return true;
        }
    }
    false
}

/// The form that a word of a row names.
pub fn form_of(name: &[u8]) -> ValueForm
    ensures { result ≡ Properties.form_of name.now }
{
    if same(name, b"any") {
        ValueForm::Any
    } else if same(name, b"count") {
        ValueForm::Count
    } else if same(name, b"integer") {
        ValueForm::Integer
    } else if same(name, b"turn") {
        ValueForm::Turn
    } else if same(name, b"byte") {
        ValueForm::Byte
    } else if same(name, b"decimal") {
        ValueForm::Decimal
    } else if same(name, b"matrix") {
        ValueForm::Matrix
    } else if same(name, b"resolutions") {
        ValueForm::Resolutions
    } else if same(name, b"axis") {
        ValueForm::Axis
    } else if same(name, b"limits") {
        ValueForm::Limits
    } else if same(name, b"key") {
        ValueForm::Key
    } else if same(name, b"setting") {
        ValueForm::Setting
    } else {
        ValueForm::Choice
    }
}

/// Whether a text is of a form, whose name is this word.
pub fn is_of_form(kind: ValueForm, form: &[u8], text: &[u8]) -> bool
    ensures { result ≡ Properties.is_of_form kind form.now text.now }
{
    match kind {
        ValueForm::Any => true,
        ValueForm::Count => is_count(text),
        ValueForm::Integer => is_integer(text),
        ValueForm::Turn => is_turn(text),
        ValueForm::Byte => is_byte(text),
        ValueForm::Decimal => is_decimal(text),
        ValueForm::Matrix => is_matrix(text),
        ValueForm::Resolutions => is_resolutions(text),
        ValueForm::Axis => is_axis(text),
        ValueForm::Limits => is_limits(text),
        ValueForm::Key => is_key_or_release(text),
        ValueForm::Setting => is_setting(text),
        ValueForm::Choice => is_choice(form, text),
    }
}

/// What is said of a matrix.
fn odd_matrix(text: &[u8]) -> Option<Misuse>
    ensures { result ≡ Properties.odd_value ValueForm.Matrix text.now }
{
    if has_zero_row(text) {
        return Some(Misuse::ZeroRow);
    }
    if is_singular(text) {
        return Some(Misuse::SingularMatrix);
    }
    None
}

/// What is said of a text that is of a form.
pub fn odd_value(kind: ValueForm, text: &[u8]) -> Option<Misuse>
    ensures { result ≡ Properties.odd_value kind text.now }
{
    match kind {
        ValueForm::Matrix => odd_matrix(text),
        ValueForm::Resolutions if has_two_defaults(text) => Some(Misuse::TwoDefaults),
        _ => None,
    }
}

//! How a value was likely meant that its property doesn't take.
ghost use Rattle.std.specs.Prelude.{◌≡◌, ◌++◌, ◌∷◌, OnOk, codes};
ghost use Rattle.hwdb_spec.specs.Lines.{byte};
ghost use Rattle.hwdb_spec_commands.specs.Properties;
ghost use Rattle.hwdb_spec_commands.specs.declared.vocabulary.TheConstants.{VALUE_WORDS};

use crate::names::same_letters;
use crate::remarks::{inside, is_value, push_form_hint};
use crate::rows::{Likeness, after_word, first_row, row_form};
use crate::values::form_of;
use hwdb_spec_commands::VALUE_WORDS;
use hwdb_text::Pieces;
use std::alloc::AllocError;

/// What is inside the quotes of a value.
fn bare_value(text: &[u8]) -> &[u8]
    ensures { result.now ≡ Properties.bare_value text.now }
{
    inside(b'\'', inside(b'"', text))
}

/// The first word of a form that is a text but for the case of letters; an empty text if none is.
fn choice_in_letters<'f>(form: &'f [u8], text: &[u8]) -> &'f [u8]
    ensures { result.now ≡ Properties.choice_in_letters form.now text.now }
{
    for word in Pieces::new(b'|', form) {
        if same_letters(text, word) {
            return word;
        }
    }
    &[]
}

/// The row of what people write for a value.
fn word_row(text: &[u8]) -> &'static [u8]
    ensures { result.now ≡ Properties.letters_row VALUE_WORDS.now text.now }
{
    first_row(VALUE_WORDS.as_bytes(), text, Likeness::Letters)
}

/// What a text means that people write for a value.
fn word_meant(text: &[u8]) -> &'static [u8]
    ensures { result.now ≡ Properties.word_meant text.now }
{
    after_word(word_row(text))
}

/// Whether a text is a value of a row, and isn't empty.
fn is_full_value(row: &[u8], text: &[u8]) -> bool
    ensures { result ≡ Properties.is_full_value row.now text.now }
{
    !text.is_empty() && is_value(row, text)
}

/// Adds a property with the value that was likely meant. The only error, here and below, is `AllocError`.
fn push_meant(text: &mut Vec<u8>, name: &[u8], value: &[u8]) -> Result<(), AllocError>
    ensures { OnOk result (text.new.items
        ≡ text.old.items ++ (codes "write " ++ (name.now ++ (byte "=" ∷ value.now)))) }
{
    text.extend_from_slice(b"write ")?;
    text.extend_from_slice(name)?;
    text.push(b'=')?;
    text.extend_from_slice(value)?;
    Ok(())
}

/// The value of a row that was likely meant by a text; an empty text if that isn't known.
pub fn value_meant<'t>(row: &'t [u8], text: &'t [u8]) -> &'t [u8]
    ensures { result.now ≡ Properties.value_meant row.now text.now }
{
    let bare = bare_value(text);
    if is_full_value(row, bare) {
        return bare;
    }
    let choice = choice_in_letters(row_form(row), bare);
    if is_full_value(row, choice) {
        return choice;
    }
    let meant = word_meant(bare);
    if is_full_value(row, meant) {
        return meant;
    }
    &[]
}

/// Adds what to do about a value that isn't of the form of its row.
pub fn push_row_value_hint(
    text: &mut Vec<u8>,
    row: &[u8],
    name: &[u8],
    value: &[u8],
) -> Result<(), AllocError>
    ensures { OnOk result (text.new.items
        ≡ text.old.items ++ Properties.row_value_hint row.now name.now value.now) }
{
    let meant = value_meant(row, value);
    if meant.is_empty() {
        let form = row_form(row);
        return push_form_hint(text, form_of(form), form);
    }
    push_meant(text, name, meant)
}

//! What is nearly the name of a field of the machine's MODALIAS, right after a `*` of a pattern.
ghost use Rattle.std.specs.Prelude.{◌≡◌, ◌≤◌, codes, false, if◌then◌else◌, length, nat_eq, true};
ghost use Rattle.std.specs.List.{list_any, prefix_len, starts_with};
ghost use Rattle.hwdb_spec_commands.specs.Fields;
ghost use Rattle.hwdb_spec_commands.specs.Mends;
ghost use Rattle.hwdb_spec_commands.specs.Properties;
ghost use Rattle.hwdb_spec_commands.specs.declared.vocabulary.TheConstants.{MACHINE_FIELDS};

use crate::mends::{front_of, is_small, rest_of};
use hwdb_properties::{Likeness, first_row};
use hwdb_spec_commands::MACHINE_FIELDS;
use hwdb_text::begins_with;

/// How many small letters a text begins with.
fn small_size(text: &[u8]) -> usize
    ensures place { result ≡ prefix_len Mends.is_small text.now }
    ensures within { result ≤ length text.now }
{
    let mut at = 0;
    while at < text.len() && is_small(text[at]) {
        at += 1;
    }
    at
}

/// The small letters at the front of a text.
fn front_word(text: &[u8]) -> &[u8]
    ensures { result.now ≡ Fields.front_word text.now }
{
    front_of(text, small_size(text))
}

/// Whether a text has a digit or a capital letter.
fn has_value_byte(text: &[u8]) -> bool
    ensures { result ≡ list_any Fields.is_value_byte text.now }
{
    text.iter()
        .any(|byte| matches!(*byte, b'0'..=b'9' | b'A'..=b'Z'))
}

/// The row of a field with this name.
pub fn field_row(word: &[u8]) -> &'static [u8]
    ensures { result.now ≡ Properties.row_for MACHINE_FIELDS.now word.now }
{
    first_row(MACHINE_FIELDS.as_bytes(), word, Likeness::Same)
}

/// The first row of a field with nearly this name.
fn near_field(word: &[u8]) -> &'static [u8]
    ensures { result.now ≡ Properties.near_row MACHINE_FIELDS.now word.now }
{
    first_row(MACHINE_FIELDS.as_bytes(), word, Likeness::Near)
}

/// The name of a field that a word nearly is; an empty text if it is one, begins with one, or is nearly none.
fn nearly_field(word: &[u8]) -> &'static [u8]
    ensures { result.now ≡ Fields.nearly_field word.now }
{
    if !field_row(word).is_empty() {
        return &[];
    }
    if !field_row(front_of(word, 2)).is_empty() {
        return &[];
    }
    near_field(word)
}

/// The name of a field that was likely meant by the front of a text; an empty text if none was.
pub fn meant_field(text: &[u8]) -> &'static [u8]
    ensures { result.now ≡ Fields.meant_field text.now }
{
    let word = front_word(text);
    if word.len() != 3 {
        return &[];
    }
    if !has_value_byte(front_of(rest_of(text, 3), 1)) {
        return &[];
    }
    nearly_field(word)
}

/// Whether a text has a `*` at its front, and after it what is nearly the name of a field.
fn is_odd_at(inside: bool, text: &[u8]) -> bool
    ensures { result ≡ Fields.is_odd_at inside text.now }
{
    let Some((first, more)) = text.split_first() else {
        return false;
    };
    inside && *first == b'*' && !meant_field(more).is_empty()
}

/// Whether `dmi:` is before the next byte of a text, or begins here.
fn is_inside(inside: bool, text: &[u8]) -> bool
    ensures { result ≡ (if inside then true else starts_with nat_eq text.now (codes "dmi:")) }
{
    inside || text.starts_with(b"dmi:")
}

/// The place of the first such name after `dmi:`.
fn field_place(pattern: &[u8]) -> Option<usize>
    ensures { result ≡ Fields.field_place false 0 pattern.now }
{
    let mut inside = false;
    let mut at = 0;
    while at < pattern.len() {
        if is_odd_at(inside, rest_of(pattern, at)) {
            return Some(at + 1);
        }
        inside = is_inside(inside, rest_of(pattern, at));
        at += 1;
    }
    None
}

/// The same of a pattern of an input device or a sensor. Most patterns begin with another byte, which is looked at first.
pub fn odd_field(pattern: &[u8]) -> Option<usize>
    ensures { result ≡ Fields.odd_field pattern.now }
{
    let may_be = begins_with(b'e', pattern) || begins_with(b's', pattern);
    if !may_be {
        return None;
    }
    if pattern.starts_with(b"evdev:") || pattern.starts_with(b"sensor:") {
        return field_place(pattern);
    }
    None
}

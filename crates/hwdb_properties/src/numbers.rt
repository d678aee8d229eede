//! Texts that are numbers.
ghost use Rattle.std.specs.Prelude.{◌≡◌};
ghost use Rattle.std.specs.List.{list_all, list_any};
ghost use Rattle.hwdb_spec.specs.Lines.{is};
ghost use Rattle.hwdb_spec.specs.Patterns.{in_span};
ghost use Rattle.hwdb_spec_commands.specs.Properties;

use crate::cuts::{after, after_one, before, front, past, same, without};
use hwdb_text::begins_with;

/// Whether all bytes of a text are decimal digits.
fn are_digits(text: &[u8]) -> bool
    ensures { result ≡ list_all Properties.is_digit text.now }
{
    text.iter().all(|byte| matches!(*byte, b'0'..=b'9'))
}

/// Whether a text is one decimal digit or more.
pub fn is_count(text: &[u8]) -> bool
    ensures { result ≡ Properties.is_made_of Properties.is_digit text.now }
{
    !text.is_empty() && are_digits(text)
}

/// Whether a byte is a hexadecimal digit in lower case.
fn is_lower_hex_digit(byte: u8) -> bool
    ensures { result ≡ Properties.is_lower_hex_digit byte }
{
    matches!(byte, b'0'..=b'9' | b'a'..=b'f')
}

/// Whether a byte is a hexadecimal digit.
fn is_hex_digit(byte: u8) -> bool
    ensures { result ≡ Properties.is_hex_digit byte }
{
    is_lower_hex_digit(byte) || matches!(byte, b'A'..=b'F')
}

/// Whether a text is one hexadecimal digit or more.
pub fn is_hex(text: &[u8]) -> bool
    ensures { result ≡ Properties.is_made_of Properties.is_hex_digit text.now }
{
    for byte in text {
        if !is_hex_digit(*byte) {
            return false;
        }
    }
    !text.is_empty()
}

/// Whether a text is one hexadecimal digit in lower case or more.
pub fn is_lower_hex(text: &[u8]) -> bool
    ensures { result ≡ Properties.is_made_of Properties.is_lower_hex_digit text.now }
{
    for byte in text {
        if !is_lower_hex_digit(*byte) {
            return false;
        }
    }
    !text.is_empty()
}

/// Whether a byte is a letter, a digit, or one of `+`, `-`, `.`, `/`, `@` and `_`.
fn is_setting_byte(byte: u8) -> bool
    ensures { result ≡ Properties.is_setting_byte byte }
{
    matches!(byte, b'+' | b'-'..=b'9' | b'@'..=b'Z' | b'_' | b'a'..=b'z')
}

/// Whether all bytes of a text are zeros.
fn are_zeros(text: &[u8]) -> bool
    ensures { result ≡ list_all (is 48) text.now }
{
    text.iter().all(|byte| *byte == b'0')
}

/// Whether all bytes of a text are digits less than 4.
fn are_low(text: &[u8]) -> bool
    ensures { result ≡ list_all (λ b. in_span b (48, 51)) text.now }
{
    text.iter().all(|byte| matches!(*byte, b'0'..=b'3'))
}

/// Whether a code in hexadecimal is at most 3f.
pub fn is_axis_code(text: &[u8]) -> bool
    ensures { result ≡ Properties.is_axis_code text.now }
{
    if text.len() < 2 {
        return true;
    }
    let end = text.len() - 2;
    are_zeros(front(text, end)) && are_low(front(past(text, end), 1))
}

/// Whether a text is a letter, a digit or a few signs, or more of them.
pub fn is_setting(text: &[u8]) -> bool
    ensures { result ≡ Properties.is_made_of Properties.is_setting_byte text.now }
{
    for byte in text {
        if !is_setting_byte(*byte) {
            return false;
        }
    }
    !text.is_empty()
}

/// Whether a text is digits, after a `-` or not.
pub fn is_integer(text: &[u8]) -> bool
    ensures { result ≡ Properties.is_integer text.now }
{
    is_count(without(b'-', text))
}

/// Whether a text has a digit from 1 to 9.
pub fn has_digit(text: &[u8]) -> bool
    ensures { result ≡ list_any (λ b. in_span b (49, 57)) text.now }
{
    text.iter().any(|byte| matches!(*byte, b'1'..=b'9'))
}

/// Whether a text is decimal digits, one of which isn't 0.
pub fn is_positive(text: &[u8]) -> bool
    ensures { result ≡ Properties.is_positive text.now }
{
    is_count(text) && has_digit(text)
}

/// Whether a text is a number from 1 to 360, after a `-` or not.
pub fn is_turn(text: &[u8]) -> bool
    ensures { result ≡ Properties.is_turn text.now }
{
    let size = without(b'-', text);
    is_positive(size) && (size.len() < 3 || size.len() == 3 && !size.cmp(b"360".as_slice()).is_gt())
}

/// Whether a text is a number from 0 to 100.
pub fn is_percent(text: &[u8]) -> bool
    ensures { result ≡ Properties.is_percent text.now }
{
    is_count(text) && (text.len() < 3 || same(text, b"100"))
}

/// Whether a text is a number from 0 to 255.
pub fn is_byte(text: &[u8]) -> bool
    ensures { result ≡ Properties.is_byte text.now }
{
    is_count(text) && (text.len() < 3 || text.len() == 3 && !text.cmp(b"255".as_slice()).is_gt())
}

/// Whether a text is digits with a `.` or without.
fn is_unsigned(text: &[u8]) -> bool
    ensures { result ≡ Properties.is_unsigned text.now }
{
    let whole = before(b'.', text);
    let part = after(b'.', text);
    are_digits(whole) && are_digits(part) && !(whole.is_empty() && part.is_empty())
}

/// Whether a text is a decimal number.
pub fn is_decimal(text: &[u8]) -> bool
    ensures { result ≡ Properties.is_decimal text.now }
{
    if begins_with(b'-', text) {
        is_unsigned(after_one(text))
    } else {
        is_unsigned(without(b'+', text))
    }
}

/// Whether a text is a decimal or hexadecimal number.
pub fn is_number(text: &[u8]) -> bool
    ensures { result ≡ Properties.is_number text.now }
{
    is_count(text) || same(before(b'x', text), b"0") && is_hex(after(b'x', text))
}

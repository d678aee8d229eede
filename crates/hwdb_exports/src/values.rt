//! Values as attributes have them, by how udev writes them.
ghost use Rattle.std.specs.Prelude.{◌≡◌, ◌≤◌, ◌==◌, IfOk, IfSome, None, if◌then◌else◌, map};
ghost use Rattle.hwdb_spec_commands.specs.Exports as spec;

use crate::lines::{after, after_byte, before_byte, said_after, same};
use std::alloc::{AllocError, Global};

/// What is between the quotes around a text.
fn unquoted(value: &[u8]) -> &[u8]
    ensures { result.now ≡ spec.unquoted value.now }
{
    if value.len() < 2 {
        return b"";
    }
    &value[1..value.len() - 1]
}

/// A number in hexadecimal digits, four at least.
fn four_digits(alloc: Global, digits: &[u8]) -> Result<Vec<u8>, AllocError>
    ensures { IfOk result (λ text. text.items ≡ spec.four_digits digits.now) }
{
    let mut text = if digits.len() < 4 {
        Vec::from_elem(alloc, b'0', 4 - digits.len())?
    } else {
        Vec::new(alloc)
    };
    text.extend_from_slice(digits)?;
    Ok(text)
}

/// The first of several numbers with slashes between them.
fn first_number(alloc: Global, value: &[u8]) -> Result<Vec<u8>, AllocError>
    ensures { IfOk result (λ text. text.items ≡ spec.first_number value.now) }
{
    four_digits(alloc, before_byte(b'/', value))
}

/// The second one.
fn second_number(alloc: Global, value: &[u8]) -> Result<Vec<u8>, AllocError>
    ensures { IfOk result (λ text. text.items ≡ spec.second_number value.now) }
{
    first_number(alloc, after_byte(b'/', value))
}

/// The third one.
fn third_number(alloc: Global, value: &[u8]) -> Result<Vec<u8>, AllocError>
    ensures { IfOk result (λ text. text.items ≡ spec.third_number value.now) }
{
    second_number(alloc, after_byte(b'/', value))
}

/// A hexadecimal digit's value.
fn digit(byte: u8) -> Option<u8>
    ensures value { result ≡ spec.digit byte }
    ensures small { IfSome result (λ d. d ≤ 15) }
{
    match byte {
        b'0'..=b'9' => Some(byte - 48),
        b'a'..=b'f' => Some(byte - 87),
        _ => None,
    }
}

/// The byte of two digits.
fn byte_of(high: u8, low: u8) -> Option<u8>
    ensures { result ≡ spec.byte_of (spec.digit high) (spec.digit low) }
{
    match (digit(high), digit(low)) {
        (Some(high), Some(low)) => Some(high * 16 + low),
        (Some(_), None) => None,
        (None, _) => None,
    }
}

/// The byte that is coded by what comes after a backslash.
fn coded(rest: &[u8]) -> Option<u8>
    ensures { result ≡ spec.coded rest.now }
{
    match rest {
        [x, high, low, ..] => {
            if *x == b'x' {
                byte_of(*high, *low)
            } else {
                None
            }
        }
        _ => None,
    }
}

/// The byte that is coded at a place, if one is.
fn coded_at(byte: u8, rest: &[u8]) -> Option<u8>
    ensures { result ≡ (if byte == 92 then spec.coded rest.now else None) }
{
    if byte == b'\\' { coded(rest) } else { None }
}

/// A text in which some bytes are coded.
fn decoded(alloc: Global, value: &[u8]) -> Result<Vec<u8>, AllocError>
    ensures { IfOk result (λ text. text.items ≡ spec.decoded 0 value.now) }
{
    let mut text = Vec::new(alloc);
    let mut left = value;
    'bytes: while let Some((byte, rest)) = left.split_first() {
        match coded_at(*byte, rest) {
            Some(byte) => {
                text.push(byte)?;
                left = after(rest, 3);
            }
            None => {
                text.push(*byte)?;
                left = rest;
            }
        }
    }
    Ok(text)
}

/// The name of a product; empty if it is the product's number.
fn product_name(alloc: Global, lines: &[&[u8]], value: &[u8]) -> Result<Vec<u8>, AllocError>
    ensures { IfOk result (λ text. text.items
        ≡ spec.product_name (map (λ l. l.now) lines.now) value.now) }
{
    match said_after(b"E: ID_MODEL_ID=", lines) {
        Some(number) if same(value, number) => Ok(Vec::new(alloc)),
        _ => decoded(alloc, value),
    }
}

/// A value as an attribute has it, by the word for how udev writes it.
pub(crate) fn read_as(
    alloc: Global,
    word: &[u8],
    lines: &[&[u8]],
    value: &[u8],
) -> Result<Vec<u8>, AllocError>
    ensures { IfOk result (λ text. text.items
        ≡ spec.read_as word.now (map (λ l. l.now) lines.now) value.now) }
{
    if same(word, b"quoted") {
        return Vec::from_slice(alloc, unquoted(value));
    }
    if same(word, b"first") {
        return first_number(alloc, value);
    }
    if same(word, b"second") {
        return second_number(alloc, value);
    }
    if same(word, b"third") {
        return third_number(alloc, value);
    }
    if same(word, b"before") {
        return Vec::from_slice(alloc, before_byte(b':', value));
    }
    if same(word, b"after") {
        return Vec::from_slice(alloc, after_byte(b':', value));
    }
    if same(word, b"digits") {
        return Vec::from_slice(alloc, after(value, 3));
    }
    if same(word, b"decoded") {
        return product_name(alloc, lines, value);
    }
    if same(word, b"none") {
        return Vec::from_slice(alloc, b"0");
    }
    if same(word, b"one") {
        return Vec::from_slice(alloc, b"1");
    }
    Vec::from_slice(alloc, value)
}

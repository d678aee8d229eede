//! Matrices whose determinant is 0.
ghost use Rattle.std.specs.Prelude.{◌≡◌, ◌≤◌, if◌then◌else◌};
ghost use Rattle.hwdb_spec_commands.specs.Properties;

use crate::cuts::{after, after_one, before, same, without};
use crate::values::is_zero_row;
use hwdb_spec_commands::{Sign, SignRow};
use hwdb_text::{begins_with, unindented};

/// Whether a number without a sign is 1.
fn is_one(text: &[u8]) -> bool
    ensures { result ≡ Properties.is_one text.now }
{
    same(before(b'.', text), b"1") && is_zero_row(after(b'.', text))
}

/// A sign, if a number without one is 1.
fn sign_if_one(sign: Sign, text: &[u8]) -> Sign
    ensures { result ≡ (if Properties.is_one text.now then sign else Sign.Other) }
{
    if is_one(text) { sign } else { Sign::Other }
}

/// The sign of a number that is 1, 0 or -1.
fn sign_of(text: &[u8]) -> Sign
    ensures { result ≡ Properties.sign_of text.now }
{
    if is_zero_row(text) {
        return Sign::Zero;
    }
    if begins_with(b'-', text) {
        return sign_if_one(Sign::Minus, after_one(text));
    }
    sign_if_one(Sign::Plus, without(b'+', text))
}

/// The signs of the three numbers of a row.
fn row_signs(text: &[u8]) -> SignRow
    ensures { result ≡ Properties.row_signs text.now }
{
    let rest = after(b',', text);
    SignRow {
        x: sign_of(unindented(before(b',', text))),
        y: sign_of(unindented(before(b',', rest))),
        z: sign_of(unindented(after(b',', rest))),
    }
}

/// The sign of a number with the other sign.
fn turned(sign: Sign) -> Sign
    ensures { result ≡ Properties.turned sign }
{
    match sign {
        Sign::Plus => Sign::Minus,
        Sign::Minus => Sign::Plus,
        Sign::Zero => Sign::Zero,
        Sign::Other => Sign::Other,
    }
}

/// The sign of a product with a number that isn't known.
fn unknown_times(sign: Sign) -> Sign
    ensures { result ≡ Properties.unknown_times sign }
{
    match sign {
        Sign::Zero => Sign::Zero,
        Sign::Minus => Sign::Other,
        Sign::Plus => Sign::Other,
        Sign::Other => Sign::Other,
    }
}

/// The sign of a product.
fn times(one: Sign, other: Sign) -> Sign
    ensures { result ≡ Properties.times one other }
{
    match one {
        Sign::Minus => turned(other),
        Sign::Zero => Sign::Zero,
        Sign::Plus => other,
        Sign::Other => unknown_times(other),
    }
}

/// A number for each sign.
fn weight(sign: Sign) -> u8
    ensures is { result ≡ Properties.weight sign }
    ensures small { result ≤ 7 }
{
    match sign {
        Sign::Minus => 0,
        Sign::Zero => 1,
        Sign::Plus => 2,
        Sign::Other => 7,
    }
}

/// The number for the product of three signs.
fn weight_of(a: Sign, b: Sign, c: Sign) -> u8
    ensures is { result ≡ Properties.weight_of a b c }
    ensures small { result ≤ 7 }
{
    weight(times(a, times(b, c)))
}

/// Whether three rows have the determinant 0.
fn is_flat(a: SignRow, b: SignRow, c: SignRow) -> bool
    ensures { result ≡ Properties.is_flat a b c }
{
    let first = weight_of(a.x, b.y, c.z);
    let second = weight_of(a.y, b.z, c.x);
    let third = weight_of(a.z, b.x, c.y);
    let fourth = weight_of(turned(a.z), b.y, c.x);
    let fifth = weight_of(turned(a.y), b.x, c.z);
    let sixth = weight_of(turned(a.x), b.z, c.y);
    first + second + third + fourth + fifth + sixth == 6
}

/// Whether the determinant of a matrix is 0, which is told of numbers that are 1, 0 or -1.
pub fn is_singular(text: &[u8]) -> bool
    ensures { result ≡ Properties.is_singular text.now }
{
    let rest = after(b';', text);
    is_flat(
        row_signs(before(b';', text)),
        row_signs(before(b';', rest)),
        row_signs(after(b';', rest)),
    )
}

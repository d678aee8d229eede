//! Values with `e` before their quote: escapes as in C.
ghost use Rattle.std.specs.Prelude.{◌≡◌, ◌≤◌, ◌<◌, ◌++◌, length, IfOk, IfSome, OnOk, drop, Option, Some, false, IsTrue};
ghost use Rattle.hwdb_rulefiles.specs.Escapes;
ghost use Rattle.hwdb_rulefiles.specs.PairViews.{value_view};
ghost use Rattle.hwdb_rulefiles.specs.EscapeViews.{piece_view, piece_in, IsSmall};

use crate::rows::begins_with;
use std::alloc::{AllocError, Global};

/// What a text begins with: a byte, or a character.
#[derive(Clone, Copy)]
pub struct Piece {
    /// Its number.
    pub code: u32,
    /// Whether it is a character, which is written in UTF-8.
    pub wide: bool,
    /// How many bytes it has in the text.
    pub len: usize,
}

/// A text without its first bytes.
fn after(count: usize, text: &[u8]) -> &[u8]
    ensures { result.now ≡ drop count text.now }
{
    if count < text.len() {
        &text[count..]
    } else {
        b""
    }
}

/// The byte that a letter after a backslash stands for.
fn letter(byte: u8) -> Option<u32>
    ensures value { result ≡ Escapes.letter byte }
    ensures small { IfSome result (λ code. code < 256) }
{
    match byte {
        b'a' => Some(7),
        b'b' => Some(8),
        b'f' => Some(12),
        b'n' => Some(10),
        b'r' => Some(13),
        b't' => Some(9),
        b'v' => Some(11),
        b's' => Some(32),
        b'\\' => Some(92),
        b'"' => Some(34),
        b'\'' => Some(39),
        _ => None,
    }
}

fn first_letter(text: &[u8]) -> Option<u32>
    ensures value { result ≡ Escapes.first Escapes.letter text.now }
    ensures small { IfSome result (λ code. code < 256) }
{
    if text.is_empty() {
        return None;
    }
    letter(text[0])
}

/// The value of a digit of base 16.
fn hex_digit(byte: u8) -> Option<u32>
    ensures value { result ≡ Escapes.hex_digit byte }
    ensures small { IfSome result (λ code. code < 16) }
{
    match byte {
        b'0'..=b'9' => Some((byte - b'0') as u32),
        b'a'..=b'f' => Some((byte - b'a') as u32 + 10),
        b'A'..=b'F' => Some((byte - b'A') as u32 + 10),
        _ => None,
    }
}

fn first_hex(text: &[u8]) -> Option<u32>
    ensures value { result ≡ Escapes.first Escapes.hex_digit text.now }
    ensures small { IfSome result (λ code. code < 16) }
{
    if text.is_empty() {
        return None;
    }
    hex_digit(text[0])
}

/// The value of a digit of base 8.
fn octal_digit(byte: u8) -> Option<u32>
    ensures value { result ≡ Escapes.octal_digit byte }
    ensures small { IfSome result (λ code. code < 8) }
{
    match byte {
        b'0'..=b'7' => Some((byte - b'0') as u32),
        _ => None,
    }
}

fn first_octal(text: &[u8]) -> Option<u32>
    ensures value { result ≡ Escapes.first Escapes.octal_digit text.now }
    ensures small { IfSome result (λ code. code < 8) }
{
    if text.is_empty() {
        return None;
    }
    octal_digit(text[0])
}

fn hex_byte(text: &[u8]) -> Option<u32>
    ensures value { result ≡ Escapes.hex_byte text.now }
    ensures small { IfSome result (λ code. code < 256) }
{
    let Some(high) = first_hex(text) else {
        return None;
    };
    let Some(low) = first_hex(after(1, text)) else {
        return None;
    };
    Some(high * 16 + low)
}

fn hex_four(text: &[u8]) -> Option<u32>
    ensures value { result ≡ Escapes.hex_four text.now }
    ensures small { IfSome result (λ code. code < 65536) }
{
    let Some(high) = hex_byte(text) else {
        return None;
    };
    let Some(low) = hex_byte(after(2, text)) else {
        return None;
    };
    Some(high * 256 + low)
}

fn hex_eight(text: &[u8]) -> Option<u32>
    ensures { result ≡ Escapes.hex_eight text.now }
{
    let Some(high) = hex_four(text) else {
        return None;
    };
    let Some(low) = hex_four(after(4, text)) else {
        return None;
    };
    Some(high * 65536 + low)
}

fn octal_two(text: &[u8]) -> Option<u32>
    ensures value { result ≡ Escapes.octal_two text.now }
    ensures small { IfSome result (λ code. code < 64) }
{
    let Some(high) = first_octal(text) else {
        return None;
    };
    let Some(low) = first_octal(after(1, text)) else {
        return None;
    };
    Some(high * 8 + low)
}

fn octal_three(text: &[u8]) -> Option<u32>
    ensures { result ≡ Escapes.octal_three text.now }
{
    let Some(high) = octal_two(text) else {
        return None;
    };
    let Some(low) = first_octal(after(2, text)) else {
        return None;
    };
    Some(high * 8 + low)
}

fn is_character(code: u32) -> bool
    ensures value { result ≡ Escapes.is_character code }
    ensures small { IsTrue result → code ≤ 1114111 }
{
    if code > 1114111 {
        return false;
    }
    if 55296 <= code && code <= 57343 {
        return false;
    }
    if 64976 <= code && code <= 65007 {
        return false;
    }
    code % 65536 < 65534
}

/// A byte that isn't 0.
fn coded_byte(code: Option<u32>) -> Option<Piece>
    ensures value { piece_view result ≡ Escapes.coded_byte code }
    ensures small { IfSome result (λ p. p.code < 256) }
{
    match code {
        None => None,
        Some(code) => {
            if code == 0 || code > 255 {
                return None;
            }
            Some(Piece {
                code,
                wide: false,
                len: 4,
            })
        }
    }
}

/// A character that isn't 0.
fn coded_character(code: Option<u32>, len: usize) -> Option<Piece>
    ensures value { piece_view result ≡ Escapes.coded_character code len }
    ensures same { IfSome result (λ p. code ≡ Some p.code) }
{
    match code {
        None => None,
        Some(code) => {
            if code == 0 {
                return None;
            }
            Some(Piece {
                code,
                wide: true,
                len,
            })
        }
    }
}

/// A character of 32 bits.
fn valid(code: Option<u32>) -> Option<u32>
    ensures value { result ≡ Escapes.valid code }
    ensures small { IfSome result (λ code. code ≤ 1114111) }
{
    match code {
        None => None,
        Some(code) => { if is_character(code) { Some(code) } else { None } }
    }
}

/// An escape with a number.
fn coded(text: &[u8]) -> Option<Piece>
    ensures value { piece_view result ≡ Escapes.coded text.now }
    ensures small { IfSome result IsSmall }
{
    if begins_with(b'x', text) {
        return coded_byte(hex_byte(after(1, text)));
    }
    if begins_with(b'u', text) {
        return coded_character(hex_four(after(1, text)), 6);
    }
    if begins_with(b'U', text) {
        return coded_character(valid(hex_eight(after(1, text))), 10);
    }
    coded_byte(octal_three(text))
}

/// What comes after a backslash.
fn escape_of(text: &[u8]) -> Option<Piece>
    ensures value { piece_view result ≡ Escapes.escape_of text.now }
    ensures small { IfSome result IsSmall }
{
    match first_letter(text) {
        Some(code) => Some(Piece {
            code,
            wide: false,
            len: 2,
        }),
        None => coded(text),
    }
}

/// The piece that a text begins with.
fn piece_of(byte: u8, rest: &[u8]) -> Option<Piece>
    ensures value { piece_view result ≡ Escapes.piece_of byte rest.now }
    ensures small { IfSome result IsSmall }
{
    if byte == b'\\' {
        return escape_of(rest);
    }
    Some(Piece {
        code: byte as u32,
        wide: false,
        len: 1,
    })
}

/// Appends a character in UTF-8.
fn put_character(out: &mut Vec<u8>, code: u32) -> Result<(), AllocError>
    requires { code ≤ 1114111 }
    ensures { OnOk result (out.new.items ≡ out.old.items ++ Escapes.utf8 code) }
{
    if code < 128 {
        out.push(code as u8)?;
    } else if code < 2048 {
        out.extend_from_slice(&[(192 + code / 64) as u8, (128 + code % 64) as u8])?;
    } else if code < 65536 {
        out.extend_from_slice(&[
            (224 + code / 4096) as u8,
            (128 + code / 64 % 64) as u8,
            (128 + code % 64) as u8,
        ])?;
    } else {
        out.extend_from_slice(&[
            (240 + code / 262144) as u8,
            (128 + code / 4096 % 64) as u8,
            (128 + code / 64 % 64) as u8,
            (128 + code % 64) as u8,
        ])?;
    }
    Ok(())
}

/// Appends what a piece stands for.
fn put(out: &mut Vec<u8>, piece: Piece) -> Result<(), AllocError>
    requires { IsSmall piece }
    ensures { OnOk result (out.new.items ≡ out.old.items ++ Escapes.bytes_of (piece_in piece)) }
{
    if piece.wide {
        return put_character(out, piece.code);
    }
    out.push(piece.code as u8)?;
    Ok(())
}

/// What a text with escapes says; None if one of them isn't an escape of C.
pub fn unescaped(alloc: Global, text: &[u8]) -> Result<Option<Vec<u8>>, AllocError>
    ensures { IfOk result (λ value. value_view value ≡ Escapes.unescaped text.now) }
{
    let mut out = Vec::new(alloc);
    let mut rest = text;
    let mut most = text.len();
    while most > 0 {
        if rest.is_empty() {
            return Ok(Some(out));
        }
        most -= 1;
        let Some(piece) = piece_of(rest[0], &rest[1..]) else {
            return Ok(None);
        };
        put(&mut out, piece)?;
        rest = after(piece.len, rest);
    }
    Ok(Some(out))
}

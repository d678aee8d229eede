//! The parts of a position's text: fields between colons, decimal numbers and hexadecimal texts.
ghost use Rattle.std.specs.Prelude.{◌≡◌, ◌≢◌, ◌<◌, ◌^◌, ℕ, List, [], ◌∷◌, ◌++◌, length, slice_index, IfOk, OnOk, IfSome, MatchOption, Some, None, Ok, string_bytes};
ghost use Rattle.std.specs.Fmt.{decimal};
ghost use Rattle.hex.specs.Hex.{decode_of, encode_lower};

use hex::FromHexError;
use itoa::Buffer;
use std::alloc::{AllocError, Global};

/// The texts before and after the first colon.
pub(crate) fn cut(text: &str) -> Option<(&str, &str)>
    ensures parts { IfSome result (λ x. text.now ≡ x.0.now ++ 58 ∷ x.1.now) }
    ensures found { (xs ys : List ℕ) → text.now ≡ xs ++ 58 ∷ ys
        → ((i : ℕ) → i < length xs → slice_index xs i ≢ 58)
        → MatchOption result ⊥ (λ x. (x.0.now ≡ xs) × (x.1.now ≡ ys)) }
{
    text.split_once(':')
}

/// A number as it is printed: no sign, no leading zero.
pub(crate) fn number(text: &str) -> Option<u64>
    ensures printed { IfSome result (λ n. (text.now ≡ decimal n) × (n < 2 ^ 64)) }
    ensures found { (n : ℕ) → n < 2 ^ 64 → text.now ≡ decimal n → result ≡ Some n }
{
    let Ok(n) = text.parse::<u64>() else {
        return None;
    };
    let mut digits = Buffer::new();
    if digits.format(n) == text {
        Some(n)
    } else {
        None
    }
}

/// The bytes of a hexadecimal text.
pub(crate) fn bytes_of(alloc: Global, text: &str) -> Result<Option<Vec<u8>>, AllocError>
    ensures { IfOk result
        (λ r. MatchOption r ((bytes : List ℕ) → decode_of text.now ≢ Ok bytes)
        (λ v. decode_of text.now ≡ Ok v.items)) }
{
    match hex::decode(alloc, text) {
        Ok(bytes) => Ok(Some(bytes)),
        Err(FromHexError::OutOfMemory) => Err(AllocError),
        Err(_) => Ok(None),
    }
}

/// A number of 16 bits, as it is printed.
pub(crate) fn short_number(text: &str) -> Option<u16>
    ensures printed { IfSome result (λ n. (text.now ≡ decimal n) × (n < 2 ^ 16)) }
    ensures found { (n : ℕ) → n < 2 ^ 16 → text.now ≡ decimal n → result ≡ Some n }
{
    match number(text) {
        Some(n) if n <= 65535 => Some(n as u16),
        _ => None,
    }
}

/// A number of 32 bits, as it is printed.
pub(crate) fn long_number(text: &str) -> Option<u32>
    ensures printed { IfSome result (λ n. (text.now ≡ decimal n) × (n < 2 ^ 32)) }
    ensures found { (n : ℕ) → n < 2 ^ 32 → text.now ≡ decimal n → result ≡ Some n }
{
    match number(text) {
        Some(n) if n <= 4_294_967_295 => Some(n as u32),
        _ => None,
    }
}

/// How many bytes are turned into digits at once.
const PIECE: usize = 64;

/// Adds the hexadecimal digits of some bytes, in lower case.
pub(crate) fn push_hex(text: &mut Vec<u8>, bytes: &[u8]) -> Result<(), AllocError>
    ensures { OnOk result (text.new.items ≡ text.old.items ++ encode_lower bytes.now) }
{
    let mut digits = [0u8; 2 * PIECE];
    let mut rest = bytes;
    while !rest.is_empty() {
        let (piece, behind) = rest.split_at(rest.len().min(PIECE));
        let written = &mut digits[..2 * piece.len()];
        hex::encode_to_slice(piece, written).unwrap();
        text.extend_from_slice(written)?;
        rest = behind;
    }
    Ok(())
}

/// Adds a number in decimal digits.
pub(crate) fn push_number(text: &mut Vec<u8>, number: u32) -> Result<(), AllocError>
    ensures { OnOk result (text.new.items ≡ text.old.items ++ decimal number) }
{
    let mut digits = Buffer::new();
    text.extend_from_slice(digits.format(number).as_bytes())?;
    Ok(())
}

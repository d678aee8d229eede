//! One place of a device: whether a token takes the byte there.
ghost use Rattle.std.specs.Prelude.{◌≡◌, ◌≢◌, ◌<◌, length, slice_index, drop};
ghost use Rattle.hwdb_spec.specs.Patterns.{token_at, literal};
ghost use Rattle.hwdb_pattern.specs.Views.{takes};

use crate::tokens::single_token;

/// Whether the token at the beginning of the text takes the device's byte after `n` bytes.
pub(crate) fn takes_next(text: &[u8], device: &[u8], n: usize) -> bool
    requires some { 0 < length text.now }
    requires no_star { slice_index text.now 0 ≢ 42 }
    ensures { result ≡ takes (token_at text.now) device.now n }
{
    if n < device.len() {
        single_token(text, device[n], true).admits
    } else {
        false
    }
}

/// Whether the byte is the device's next one after `n` bytes.
pub(crate) fn is_next(byte: u8, device: &[u8], n: usize) -> bool
    ensures { result ≡ takes (literal byte) device.now n }
{
    if n < device.len() {
        device[n] == byte
    } else {
        false
    }
}

/// The device's bytes after `n`.
pub(crate) fn bytes_after(device: &[u8], n: usize) -> &[u8]
    ensures { result.now ≡ drop n device.now }
{
    if n < device.len() { &device[n..] } else { &[] }
}

//! Whether a pattern matches a device.
ghost use Rattle.std.specs.Prelude.{◌≡◌, ◌≢◌, false, true, IfOk};
ghost use Rattle.hwdb_spec.specs.Patterns.{matches, tokens};

use hwdb_pattern::{Reach, matches_is_tested};
use std::alloc::{AllocError, Global};

/// Whether the byte, at the beginning of a text, is a token for itself.
fn is_plain(byte: u8) -> bool
    ensures no_star { result ≡ true → byte ≢ 42 }
    ensures no_mark { result ≡ true → byte ≢ 63 }
    ensures no_bracket { result ≡ true → byte ≢ 91 }
{
    byte != b'*' && byte != b'?' && byte != b'['
}

/// Whether a pattern may match a device, by its bytes before the first wildcard. If the answer is no, it doesn't.
fn may_match(pattern: &[u8], device: &[u8]) -> bool
    ensures { result ≡ false → matches (tokens pattern.now) device.now ≡ false }
{
    let mut at = 0;
    while at < pattern.len() && is_plain(pattern[at]) {
        if at == device.len() {
            return false;
        }
        if device[at] != pattern[at] {
            return false;
        }
        at += 1;
    }
    true
}

/// Whether a pattern matches a device, by all prefixes of it that the pattern's beginnings match. The only error, here and
/// below, is `AllocError`.
fn matches_by_prefixes(alloc: Global, pattern: &[u8], device: &[u8]) -> Result<bool, AllocError>
    ensures { IfOk result (λ is_hit. is_hit ≡ matches (tokens pattern.now) device.now) }
{
    matches_is_tested();
    let reach = Reach::start(alloc, device).feed(alloc, pattern)?;
    Ok(reach.accepts(pattern))
}

/// Whether a pattern matches a device. Most that don't are told apart by their first bytes.
pub(crate) fn hits(alloc: Global, pattern: &[u8], device: &[u8]) -> Result<bool, AllocError>
    ensures { IfOk result (λ is_hit. is_hit ≡ matches (tokens pattern.now) device.now) }
{
    if may_match(pattern, device) {
        matches_by_prefixes(alloc, pattern, device)
    } else {
        Ok(false)
    }
}

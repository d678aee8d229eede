//! Whether a pattern matches a device: a greedy search from star to star.
//!
//! Between two stars each token takes one byte. So it is enough to find, for each stretch, the first place that it
//! matches. The search never goes back before it: a later star takes whatever an earlier one could. The last stretch
//! has to end at the device's end.
//!
//! A stretch is tried at each place of the device at most, so the steps are at most the pattern's length times the
//! device's. The bytes that begin a stretch and mean themselves are compared many at once. The last stretch isn't
//! tried before the place from which it leads to the device's end.
//!
//! Such a search would read an open `[` anew each time, up to the pattern's end. So two things are found out before:
//! the place after the last `]`, and the open `[` among the first 4,096 bytes (`opens`). Both take one pass.
ghost use Rattle.std.specs.Prelude.{◌≡◌, ◌<◌, ◌≤◌, ◌+◌, ◌↔◌, List, ℕ, None, drop, false, true, length, slice_index, IsTrue, IfSome, IfNone};
ghost use Rattle.hwdb_spec.specs.Patterns.{Matches, bracket_at, literal, token_at, tokens};
ghost use Rattle.hwdb_pattern.specs.Internal.Search.{AreOpen, ArePlain, NoneCloses, Reaches};

use crate::lengths::stands_for_itself;
use crate::opens::open_brackets;
use crate::tokens::single_token;

/// A place in the pattern and in the device.
#[derive(Clone, Copy)]
struct SearchState {
    /// How many bytes of the pattern were taken.
    at: usize,
    /// How many bytes of the device they matched.
    met: usize,
}

/// Whether a closed bracket may begin at a place. None can from `close` on, since no `]` comes there, nor if the table
/// says so.
fn may_close(pattern: &[u8], at: usize, close: usize, opens: &[bool]) -> bool
    requires closes { NoneCloses pattern.now close }
    requires opens { AreOpen pattern.now opens.now }
    ensures { result ≡ false → bracket_at (drop at pattern.now) ≡ None }
{
    if at >= close {
        return false;
    }
    if at < opens.len() {
        return !opens[at];
    }
    true
}

/// The table from a place on; empty after its end.
fn opens_from(opens: &[bool], at: usize) -> &[bool]
    ensures { result.now ≡ drop at opens.now }
{
    if at < opens.len() { &opens[at..] } else { &[] }
}

/// Takes the tokens before the first star, and for each the next byte of the device. Answers how far that led: to a
/// star, or to the pattern's end. None if a token doesn't take its byte. `close` and `opens` tell at which places no
/// bracket begins.
fn run(pattern: &[u8], device: &[u8], close: usize, opens: &[bool]) -> Option<SearchState>
    requires closes { NoneCloses pattern.now close }
    requires opens { AreOpen pattern.now opens.now }
    ensures within { IfSome result (λ place. place.at ≤ length pattern.now) }
    ensures met { IfSome result (λ place. place.met ≤ length device.now) }
    ensures star { IfSome result (λ place. place.at < length pattern.now
        → slice_index pattern.now place.at ≡ 42) }
    ensures reached { IfSome result (λ place. Reaches pattern.now device.now place.at place.met) }
    ensures refused { IfNone result (Matches (tokens pattern.now) device.now → ⊥) }
{
    let mut at = 0;
    let mut met = 0;
    while at < pattern.len() && pattern[at] != b'*' {
        if met == device.len() {
            return None;
        }
        let is_bracket = may_close(pattern, at, close, opens);
        let next = single_token(&pattern[at..], device[met], is_bracket);
        if !next.admits {
            return None;
        }
        at += next.size;
        met += 1;
    }
    Some(SearchState { at, met })
}

/// Whether the byte at a place is a token that means itself. If not, it may be one still.
fn is_plain(pattern: &[u8], at: usize, close: usize, opens: &[bool]) -> bool
    requires closes { NoneCloses pattern.now close }
    requires opens { AreOpen pattern.now opens.now }
    requires within { at < length pattern.now }
    ensures { result ≡ true
        → token_at (drop at pattern.now) ≡ literal (slice_index pattern.now at) }
{
    if pattern[at] == b'[' {
        return !may_close(pattern, at, close, opens);
    }
    stands_for_itself(pattern[at])
}

/// How many of the pattern's first bytes are tokens that mean themselves.
fn plain_size(pattern: &[u8], close: usize, opens: &[bool]) -> usize
    requires closes { NoneCloses pattern.now close }
    requires opens { AreOpen pattern.now opens.now }
    ensures within { result ≤ length pattern.now }
    ensures plain { ArePlain pattern.now result }
{
    let mut at = 0;
    while at < pattern.len() && is_plain(pattern, at, close, opens) {
        at += 1;
    }
    at
}

/// Whether the device begins with the pattern's first bytes, so many of them, which mean themselves. The last of
/// them is looked at first: it often tells.
fn begins_alike(pattern: &[u8], device: &[u8], plain: usize) -> bool
    requires within { plain ≤ length pattern.now }
    requires plain { ArePlain pattern.now plain }
    ensures { result ≡ false → Matches (tokens pattern.now) device.now → ⊥ }
{
    if device.len() < plain {
        return false;
    }
    if plain > 0 && device[plain - 1] != pattern[plain - 1] {
        return false;
    }
    &device[..plain] == &pattern[..plain]
}

/// As `run`. The pattern's first bytes, so many of them, mean themselves: they are compared at once before.
fn run_alike(
    pattern: &[u8],
    device: &[u8],
    close: usize,
    opens: &[bool],
    plain: usize,
) -> Option<SearchState>
    requires closes { NoneCloses pattern.now close }
    requires opens { AreOpen pattern.now opens.now }
    requires plain_within { plain ≤ length pattern.now }
    requires plain { ArePlain pattern.now plain }
    ensures within { IfSome result (λ place. place.at ≤ length pattern.now) }
    ensures met { IfSome result (λ place. place.met ≤ length device.now) }
    ensures star { IfSome result (λ place. place.at < length pattern.now
        → slice_index pattern.now place.at ≡ 42) }
    ensures reached { IfSome result (λ place. Reaches pattern.now device.now place.at place.met) }
    ensures refused { IfNone result (Matches (tokens pattern.now) device.now → ⊥) }
{
    if !begins_alike(pattern, device, plain) {
        return None;
    }
    run(pattern, device, close, opens)
}

/// How many bytes the devices have that the pattern matches, if it has no star: one for each token.
fn bytes_matched(pattern: &[u8], close: usize, opens: &[bool]) -> Option<usize>
    requires closes { NoneCloses pattern.now close }
    requires opens { AreOpen pattern.now opens.now }
    ensures { IfSome result (λ n. (device : List ℕ) → Matches (tokens pattern.now) device
        → length device ≡ n) }
{
    let mut at = 0;
    let mut count = 0;
    while at < pattern.len() {
        if pattern[at] == b'*' {
            return None;
        }
        let is_bracket = may_close(pattern, at, close, opens);
        at += single_token(&pattern[at..], 0, is_bracket).size;
        count += 1;
    }
    Some(count)
}

/// From which place of the device on the pattern is to be tried. It has to lead to the device's end, and no place
/// before `met` counts.
fn first_try(pattern: &[u8], end: usize, met: usize, close: usize, opens: &[bool]) -> usize
    requires closes { NoneCloses pattern.now close }
    requires opens { AreOpen pattern.now opens.now }
    ensures low { met ≤ result }
    ensures high { met ≤ end → result ≤ end }
    ensures last { met < result → (device : List ℕ) → Matches (tokens pattern.now) device
        → result + length device ≡ end }
{
    match bytes_matched(pattern, close, opens) {
        Some(count) => if met < end && count < end - met {
            end - count
        } else {
            met
        },
        None => met,
    }
}

/// The place after the last `]`. From there on each `[` is an ordinary byte.
fn last_close(pattern: &[u8]) -> usize
    ensures { NoneCloses pattern.now result }
{
    let mut close = 0;
    for (i, byte) in pattern.iter().enumerate() {
        if *byte == b']' {
            close = i + 1;
        }
    }
    close
}

/// Whether the pattern matches the whole device, as fnmatch without flags.
///
/// Takes no memory, and at most as many steps as the pattern's length times the device's, in bytes. There is one
/// exception: for each open `[` after the pattern's first 4,096 bytes, the rest of the pattern is looked at each time.
#[inline(never)]
pub fn glob(pattern: &[u8], device: &[u8]) -> bool
    ensures { IsTrue result ↔ Matches (tokens pattern.now) device.now }
{
    let close = last_close(pattern);
    let opens = open_brackets(pattern);
    let Some(first) = run(pattern, device, close, &opens) else {
        return false;
    };
    if first.at == pattern.len() {
        return first.met == device.len();
    }
    let end = device.len();
    let mut at = first.at + 1;
    let mut met = first_try(
        &pattern[at..],
        end,
        first.met,
        close.saturating_sub(at),
        opens_from(&opens, at),
    );
    let mut plain = plain_size(
        &pattern[at..],
        close.saturating_sub(at),
        opens_from(&opens, at),
    );
    while met <= device.len() {
        let (rest, left) = (&pattern[at..], &device[met..]);
        let open = opens_from(&opens, at);
        match run_alike(rest, left, close.saturating_sub(at), open, plain) {
            None => met += 1,
            Some(next) => {
                if at + next.at < pattern.len() {
                    at += next.at + 1;
                    met = first_try(
                        &pattern[at..],
                        end,
                        met + next.met,
                        close.saturating_sub(at),
                        opens_from(&opens, at),
                    );
                    plain = plain_size(
                        &pattern[at..],
                        close.saturating_sub(at),
                        opens_from(&opens, at),
                    );
                } else if met + next.met == device.len() {
                    return true;
                } else {
                    met += 1;
                }
            }
        }
    }
    false
}

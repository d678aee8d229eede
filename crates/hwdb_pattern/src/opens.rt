//! The places of a pattern at which a `[` begins no closed bracket.
//!
//! Looking for the `]` after each `[` would take the square of the pattern's length, if many are open. So one pass goes
//! from the end to the beginning, and takes a fixed number of steps a byte. An item has at most ten bytes, so the next
//! `AHEAD` places tell about the one before them. The table is an array on the stack: a search takes no memory.
ghost use Rattle.std.specs.Prelude.{◌≡◌, ◌<◌, length, slice_index_or, None, ℕ, suc, drop, true, false};
ghost use Rattle.hwdb_spec.specs.Patterns.{bracket_at, items_from};
ghost use Rattle.hwdb_pattern.specs.Internal.Search.{AreOpen, NeverClose};

use crate::brackets::{is_inversion, item};

/// For how many places of a pattern a search keeps this: as many as the longest pattern of a text file has.
const PLACES: usize = 4096;

/// How many places ahead are known. The first item after a `[` reaches so far: at most a `!` and `[:xdigit:]`.
const AHEAD: usize = 12;

/// What the table says of a place; no if the table ends before it.
fn says(table: &[bool; AHEAD], k: usize) -> bool
    ensures { result ≡ slice_index_or table.now k false }
{
    if k < AHEAD { table[k] } else { false }
}

/// The table of the place one further to the left, with this first member.
fn shifted(first: bool, table: &[bool; AHEAD]) -> [bool; AHEAD]
    ensures first { slice_index_or result 0 false ≡ first }
    ensures others { (k : ℕ) → slice_index_or result (suc k) false ≡ true
        → slice_index_or table.now k false ≡ true }
{
    let mut next = [false; AHEAD];
    next[0] = first;
    for k in 1..AHEAD {
        next[k] = table[k - 1];
    }
    next
}

/// Whether no `]` closes the items that begin the text, after the first item of a bracket. `ahead` tells of the places
/// after the text's first byte.
fn never_close(text: &[u8], ahead: &[bool; AHEAD]) -> bool
    requires some { 0 < length text.now }
    requires ahead { NeverClose (drop 1 text.now) ahead.now }
    ensures { result ≡ true → items_from false 0 text.now ≡ None }
{
    text[0] != b']' && says(ahead, item(text, 0).size - 1)
}

/// Whether no closed bracket begins the text. `ahead` tells of the places after its first byte.
fn begins_none(text: &[u8], ahead: &[bool; AHEAD]) -> bool
    requires some { 0 < length text.now }
    requires ahead { NeverClose (drop 1 text.now) ahead.now }
    ensures { result ≡ true → bracket_at text.now ≡ None }
{
    if text[0] != b'[' || text.len() < 2 {
        return true;
    }
    if !is_inversion(text[1]) {
        return says(ahead, item(&text[1..], 0).size);
    }
    if text.len() < 3 {
        return true;
    }
    says(ahead, item(&text[2..], 0).size + 1)
}

/// At which of the first `PLACES` places a `[` begins no closed bracket. Takes a fixed number of steps for each byte of
/// the pattern.
pub(crate) fn open_brackets(pattern: &[u8]) -> [bool; PLACES]
    ensures { AreOpen pattern.now result }
{
    let mut opens = [false; PLACES];
    let mut ahead = [true; AHEAD];
    let mut at = pattern.len();
    while at > 0 {
        at -= 1;
        let text = &pattern[at..];
        if at < PLACES {
            opens[at] = begins_none(text, &ahead);
        }
        ahead = shifted(never_close(text, &ahead), &ahead);
    }
    opens
}

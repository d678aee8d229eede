//! The value entries of a record, tested from the last to the first.
ghost use Rattle.std.specs.Prelude.{◌≡◌, ◌≤◌, ◌<◌, ◌+◌, ◌*◌, ℕ, List, None, length, IsTrue, MatchOption};
ghost use Rattle.std.specs.declared.cmp.Ordering.TheVariants.{Less};
ghost use Rattle.hwdb_spec.specs.Assignment.{text_cmp};
ghost use Rattle.hwdb_spec.specs.Format.{text_at, number_at, IsValue, ValuesText};
ghost use Rattle.hwdb_reader.specs.Passes.Views.{IsPart, IsOf};
ghost use Rattle.hwdb_reader.specs.Passes.Internal.{values_at, IsInside};

use crate::fields::{text_front, u16_at, u64_at};
use crate::passes::outline::Outline;

/// So many bytes of a key are compared with the next one. Two keys that share as many aren't told apart. So the time
/// has a bound by the number of entries.
pub const KEY: usize = 256;

/// Whether the string at one place is less than the one at the other.
fn is_less(o: Outline<'_>, left: usize, right: usize) -> bool
    requires left { IsInside o left }
    requires right { IsInside o right }
    ensures { IsTrue result → (file : List ℕ) → IsOf o.entry file
        → text_cmp (text_at file left) (text_at file right) ≡ Less }
{
    let first = o.frame.sizes.strings;
    let left = text_front(o.strings, left - first, KEY);
    let right = text_front(o.strings, right - first, KEY);
    left.cmp(right).is_lt()
}

/// Whether the value entry's three strings are in the string section, and its priority isn't 0.
#[inline(always)]
fn is_value(o: Outline<'_>, piece: &[u8], entry: usize) -> bool
    requires { entry + 32 ≤ length piece.now }
    ensures sound { IsTrue result → (file : List ℕ) (at : ℕ) → IsOf o.entry file
        → IsPart file at piece.now → IsValue o.entry.frame.sizes file (at + entry) }
    ensures key { IsTrue result → IsInside o.entry (number_at 8 entry piece.now) }
{
    let key = u64_at(piece, entry);
    let value = u64_at(piece, entry + 8);
    let path = u64_at(piece, entry + 16);
    let priority = u16_at(piece, entry + 28);
    if !o.has(key) || !o.has(value) || !o.has(path) || priority == 0 {
        return false;
    }
    true
}

/// Whether the `n` value entries from `first` on are sound, and their keys ascend.
#[inline(always)]
pub fn are_values(o: Outline<'_>, piece: &[u8], first: usize, n: usize) -> bool
    requires { first + o.frame.sizes.value_size * n ≤ length piece.now }
    ensures { IsTrue result → (file : List ℕ) (at : ℕ) → IsOf o.entry file
        → IsPart file at piece.now
        → ValuesText o.entry.frame.sizes file (at + first) None
        (values_at o.entry.frame.sizes file (at + first) n) }
{
    let mut next: Option<usize> = None;
    let mut i = n;
    let mut entry = first + o.frame.sizes.value_size * n;
    while i > 0 {
        i -= 1;
        entry -= o.frame.sizes.value_size;
        if !is_value(o, piece, entry) {
            return false;
        }
        let key = u64_at(piece, entry);
        if let Some(above) = next {
            if !is_less(o, key, above) {
                return false;
            }
        }
        next = Some(key);
    }
    true
}

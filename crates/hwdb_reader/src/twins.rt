//! Two databases that have most of their strings in common, as before and after an edit.
//!
//! If both have the same bytes from a place of each on, the strings at corresponding places are the same. That is known without a
//! look at them. Such stretches are looked for once.
ghost use Rattle.std.specs.Prelude.{◌≡◌, ◌≤◌, ◌<◌, ◌+◌, ◌-◌, ℕ, All, IfOk, List, drop, get_or, length, take, true};
ghost use Rattle.hwdb_spec.specs.Folders.{same};
ghost use Rattle.hwdb_reader.specs.Internal.Shared.{Agree, AreShared};

use crate::fields::text;
use crate::unread::StoredText;
use crate::view::Node;
use std::alloc::{AllocError, Global};
use std::cmp::Ordering;

/// How many bytes are compared at once.
const PIECE: usize = 1024;

/// How often a string that one database alone has is passed over.
const TRIES: usize = 64;

/// How long a stretch is at least that is remembered.
const LONG: usize = 256;

/// So many places, from one of each database on.
#[derive(Clone, Copy)]
struct Stretch {
    old: usize,
    new: usize,
    count: usize,
}

/// A place of each database.
#[derive(Clone, Copy)]
struct Places {
    old: usize,
    new: usize,
}

/// Two databases, and where they are known to have the same strings.
#[derive(Drop)]
pub struct Twins<'a, 'b> {
    old: &'a [u8],
    new: &'b [u8],
    stretches: Vec<Stretch>,
    /// The longest of them.
    main: Stretch,
    ghost shared: { All (λ s. AreShared old.now new.now s.old s.new s.count) stretches.items },
    ghost main_shared: { AreShared old.now new.now main.old main.new main.count },
}

/// Whether two texts are one.
fn is_same(one: &[u8], other: &[u8]) -> bool
    ensures { result ≡ same one.now other.now }
{
    one == other
}

/// Whether two texts have the same bytes, so many, at a place of each.
fn agree(a: &[u8], x: usize, b: &[u8], y: usize, count: usize) -> bool
    requires old { x + count ≤ length a.now }
    requires new { y + count ≤ length b.now }
    ensures { result ≡ true → take count (drop x a.now) ≡ take count (drop y b.now) }
{
    is_same(&a[x..x + count], &b[y..y + count])
}

/// Goes on while bytes at the beginning of two texts are the same, by steps of so many, up to a limit.
fn front_from(a: &[u8], b: &[u8], from: usize, most: usize, step: usize) -> usize
    requires from { from ≤ most }
    requires old { most ≤ length a.now }
    requires new { most ≤ length b.now }
    requires step { 0 < step }
    requires same { Agree a.now b.now 0 0 from }
    ensures within { result ≤ most }
    ensures same { Agree a.now b.now 0 0 result }
{
    let mut n = from;
    'steps: while most - n >= step {
        if agree(a, n, b, n, step) {
            n += step;
        } else {
            return n;
        }
    }
    n
}

/// How many of the first bytes there are up to the last 0 among them.
fn ended(a: &[u8], n: usize) -> usize
    requires { n ≤ length a.now }
    ensures within { result ≤ n }
    ensures zero { 0 < result → get_or a.now (result - 1) 0 ≡ 0 }
{
    let mut end = n;
    'bytes: while end > 0 {
        if a[end - 1] == 0 {
            return end;
        }
        end -= 1;
    }
    0
}

/// The stretch from a place of each on.
fn stretch_at(a: &[u8], b: &[u8], at: Places) -> Stretch
    requires old { at.old ≤ length a.now }
    requires new { at.new ≤ length b.now }
    ensures shared { AreShared a.now b.now result.old result.new result.count }
    ensures old { result.old + result.count ≤ length a.now }
    ensures new { result.new + result.count ≤ length b.now }
{
    let rest = &a[at.old..];
    let other = &b[at.new..];
    let most = rest.len().min(other.len());
    let pieces = front_from(rest, other, 0, most, PIECE);
    let same = front_from(rest, other, pieces, most, 1);
    let count = ended(rest, same);
    Stretch {
        old: at.old,
        new: at.new,
        count,
    }
}

/// The places after the lesser of two strings.
fn after_lesser(a: &[u8], b: &[u8], at: Places) -> Places
    requires old { at.old ≤ length a.now }
    requires new { at.new ≤ length b.now }
    ensures old { result.old ≤ length a.now }
    ensures new { result.new ≤ length b.now }
{
    if at.old == a.len() {
        return at;
    }
    if at.new == b.len() {
        return at;
    }
    let one = text(a, at.old);
    let other = text(b, at.new);
    match one.cmp(other) {
        Ordering::Less => Places {
            old: at.old + one.len().min(a.len() - at.old - 1) + 1,
            new: at.new,
        },
        _ => Places {
            old: at.old,
            new: at.new + other.len().min(b.len() - at.new - 1) + 1,
        },
    }
}

/// Long stretches from a place of each on. The strings ascend there, if text files made the databases. So a string that one of them
/// alone has is passed over, as it is the lesser one. The only error, here and below, is `AllocError`.
fn stretches_from(
    alloc: Global,
    a: &[u8],
    b: &[u8],
    from: Places,
) -> Result<Vec<Stretch>, AllocError>
    requires old { from.old ≤ length a.now }
    requires new { from.new ≤ length b.now }
    ensures { IfOk result (λ found.
        All (λ s. AreShared a.now b.now s.old s.new s.count) found.items) }
{
    let mut found = Vec::new(alloc);
    let mut at = from;
    for _ in 0..TRIES {
        let stretch = stretch_at(a, b, at);
        if stretch.count >= LONG {
            found.push(stretch)?;
        }
        at = after_lesser(
            a,
            b,
            Places {
                old: stretch.old + stretch.count,
                new: stretch.new + stretch.count,
            },
        );
    }
    Ok(found)
}

/// The longest stretch; an empty one if there is none.
fn longest_of(stretches: &[Stretch]) -> Stretch
    ensures { (a b : List ℕ) → All (λ s. AreShared a b s.old s.new s.count) stretches.now
        → AreShared a b result.old result.new result.count }
{
    let mut longest = Stretch {
        old: 0,
        new: 0,
        count: 0,
    };
    for stretch in stretches {
        if stretch.count > longest.count {
            longest = *stretch;
        }
    }
    longest
}

impl Stretch {
    /// Whether two places are corresponding places of it.
    #[inline(always)]
    fn has(&self, old: usize, new: usize) -> bool
        ensures { result ≡ true → (self.now.old ≤ old) × (old - self.now.old < self.now.count)
            × (new ≡ self.now.new + (old - self.now.old)) }
    {
        if old < self.old {
            return false;
        }
        if new < self.new {
            return false;
        }
        if old - self.old != new - self.new {
            return false;
        }
        old - self.old < self.count
    }
}

impl<'a, 'b> Twins<'a, 'b> {
    ghost use Rattle.std.specs.Prelude.{◌≡◌, true, IfOk};
    ghost use Rattle.hwdb_spec.specs.Folders.{same};
    ghost use Rattle.hwdb_spec.specs.Format.{text_at};
    ghost use Rattle.hwdb_reader.specs.Unread.{file_at, file_of, new_file, old_file, text_of};

    /// Two databases, by a node of each. Reads the strings once that both have.
    pub fn new(alloc: Global, old: Node<'a>, new: Node<'b>) -> Result<Twins<'a, 'b>, AllocError>
        ensures old { IfOk result (λ twins. old_file twins ≡ file_at old.entry) }
        ensures new { IfOk result (λ twins. new_file twins ≡ file_at new.entry) }
    {
        let from = Places {
            old: old.frame.sizes.strings.min(old.bytes.len()),
            new: new.frame.sizes.strings.min(new.bytes.len()),
        };
        let stretches = stretches_from(alloc, old.bytes, new.bytes, from)?;
        let main = longest_of(&stretches);
        Ok(Twins {
            old: old.bytes,
            new: new.bytes,
            stretches,
            main,
        })
    }

    /// Whether it is known that a place of each has the same string. Most are places of the longest stretch.
    #[inline(always)]
    fn is_known(&self, old: usize, new: usize) -> bool
        ensures { result ≡ true → text_at self.now.old.now old ≡ text_at self.now.new.now new }
    {
        if self.main.has(old, new) {
            return true;
        }
        self.is_in_some(old, new)
    }

    /// The same, by all stretches. They ascend: it looks for the last one that begins no later than the old place.
    fn is_in_some(&self, old: usize, new: usize) -> bool
        ensures { result ≡ true → text_at self.now.old.now old ≡ text_at self.now.new.now new }
    {
        let stretches = &self.stretches;
        let mut first = 0;
        let mut end = stretches.len();
        'halves: while end - first > 1 {
            let middle = first + (end - first) / 2;
            if stretches[middle].old <= old {
                first = middle;
            } else {
                end = middle;
            }
        }
        if first == end {
            return false;
        }
        stretches[first].has(old, new)
    }

    /// Whether a text of the old database and one of the new one are the same. Reads them only if their places don't tell that they
    /// are.
    pub fn are_same(&self, old: StoredText<'_>, new: StoredText<'_>) -> bool
        requires old { file_of old ≡ old_file self.now }
        requires new { file_of new ≡ new_file self.now }
        ensures { result ≡ same (text_of old.entry) (text_of new.entry) }
    {
        if self.is_known(old.at, new.at) {
            return true;
        }
        is_same(old.read(), new.read())
    }
}

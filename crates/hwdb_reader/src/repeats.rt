//! Which of two strings is less, in a text in which long stretches occur more than once.
//!
//! Keys can share their endings. To compare each key with the next one, byte by byte, would then take the square of the
//! text's length. So stretches that were found equal are remembered, and passed over when they are met again. They are
//! in a table of a fixed size, on the thread's stack.
//!
//! - If both strings are in a stretch and its copy, their bytes there are equal.
//! - If one string is in a copy of something nearer to the other one, the two nearer places are compared instead.
//! - A stretch that overlaps its copy is a run of a period. Two runs that share enough bytes have the greatest common
//!   divisor of their periods (Fine and Wilf), and become one.
//!
//! The contract is that of a comparison byte by byte. Which stretch is forgotten changes the time alone.
ghost use Rattle.std.specs.Prelude.{◌≡◌, ◌≢◌, ◌≤◌, ◌<◌, ◌+◌, ◌↔◌, ℕ, length, get_or, IsTrue, IfSome, OnSome};
ghost use Rattle.std.specs.declared.cmp.Ordering.TheVariants.{Less};
ghost use Rattle.hwdb_spec.specs.Assignment.{text_cmp};
ghost use Rattle.hwdb_spec.specs.Format.{text_at};
ghost use Rattle.hwdb_reader.specs.Internal.Repeats.{HasPeriod, Agree, AgreeInside, Ends, IsRepeat, StandFor};

use memchr::memchr;
use std::marker::Model;

/// How many repeats are remembered.
const ROOM: usize = 64;

/// How many bytes are compared before the table is looked at.
const SHORT: usize = 64;

/// At most how many bytes are compared at once.
const LONG: usize = 8192;

/// How often a pair of places is exchanged for a nearer one.
const EXCHANGES: usize = 4;

/// Bytes that occur twice: those from `first` to `end`, without a 0, and again `gap` bytes after.
#[derive(Clone, Copy)]
struct Repeat {
    first: usize,
    gap: usize,
    end: usize,
}

/// Two places, and how many bytes are compared there.
#[derive(Clone, Copy)]
struct Compared {
    left: usize,
    right: usize,
    count: usize,
}

/// A place that has so many of the bytes of another place, and the number of the repeat that says so.
#[derive(Clone, Copy)]
struct Copied {
    place: usize,
    count: usize,
    by: usize,
}

/// The byte at a place; 0 after the last.
fn byte_at(b: &[u8], i: usize) -> u8
    ensures { result ≡ get_or b.now i 0 }
{
    if i < b.len() { b[i] } else { 0 }
}

/// Whether so many bytes at two places agree, and none is 0.
fn agree(b: &[u8], pair: Compared) -> bool
    requires left { pair.left + pair.count ≤ length b.now }
    requires right { pair.right + pair.count ≤ length b.now }
    ensures { IsTrue result ↔ Agree b.now pair.left pair.right pair.count }
{
    let left = &b[pair.left..pair.left + pair.count];
    let right = &b[pair.right..pair.right + pair.count];
    if left != right {
        return false;
    }
    match memchr(0, left) {
        Some(_) => false,
        None => true,
    }
}

/// A period of bytes that have both periods: their greatest common divisor (Euclid).
fn common_period(long: usize, short: usize) -> usize
    requires some { 0 < short }
    requires ordered { short ≤ long }
    ensures some { 0 < result }
    ensures shorter { result ≤ short }
    ensures period { (at : ℕ → ℕ) (s e : ℕ) → s + long + short ≤ e
        → HasPeriod at s e long → HasPeriod at s e short → HasPeriod at s e result }
{
    let mut a = long;
    let mut b = short;
    while a % b != 0 {
        let rest = a % b;
        a = b;
        b = rest;
    }
    b
}

/// Two runs as one, if they share as many bytes as the sum of their periods.
fn joined_runs(b: &[u8], one: Repeat, other: Repeat) -> Option<Repeat>
    requires one { IsRepeat b.now one.first one.gap one.end }
    requires other { IsRepeat b.now other.first other.gap other.end }
    ensures { IfSome result (λ r. IsRepeat b.now r.first r.gap r.end) }
{
    if !is_run(one) || !is_run(other) {
        return None;
    }
    let from = one.first.max(other.first);
    let to = (one.end + one.gap).min(other.end + other.gap);
    if to < from || to - from < one.gap || to - from - one.gap < other.gap {
        return None;
    }
    let gap = common_period(one.gap.max(other.gap), one.gap.min(other.gap));
    Some(Repeat {
        first: one.first.min(other.first),
        gap,
        end: (one.end + one.gap).max(other.end + other.gap) - gap,
    })
}

/// Whether a repeat overlaps itself, or touches itself.
fn is_run(repeat: Repeat) -> bool
    ensures { IsTrue result → (0 < repeat.gap) × (repeat.first + repeat.gap ≤ repeat.end) }
{
    repeat.gap != 0 && repeat.first <= repeat.end && repeat.gap <= repeat.end - repeat.first
}

/// Two repeats as one, if they touch.
fn joined(b: &[u8], one: Repeat, other: Repeat) -> Option<Repeat>
    requires one { IsRepeat b.now one.first one.gap one.end }
    requires other { IsRepeat b.now other.first other.gap other.end }
    ensures { IfSome result (λ r. IsRepeat b.now r.first r.gap r.end) }
{
    if one.gap != other.gap {
        return joined_runs(b, one, other);
    }
    if other.end < one.first || one.end < other.first {
        return None;
    }
    Some(Repeat {
        first: one.first.min(other.first),
        gap: one.gap,
        end: one.end.max(other.end),
    })
}

/// The repeats of a text that were found. To contracts: the text.
#[derive(Drop)]
pub struct Repeats<'b> {
    bytes: &'b [u8],
    first: [usize; ROOM],
    gap: [usize; ROOM],
    end: [usize; ROOM],
    used: [u64; ROOM],
    clock: u64,
}

impl<'b> Model for Repeats<'b> {
    ghost use Rattle.std.specs.Prelude.{ℕ, List};
    ghost use Rattle.hwdb_reader.specs.Internal.Repeats.{AreRepeats};

    ghost Value = { List ℕ };

    ghost view = { λ r. r.bytes.now };

    ghost invariant = { λ r. AreRepeats r.bytes.now r.first r.gap r.end };
}

impl<'b> Repeats<'b> {
    /// No repeats yet, of a text.
    pub fn new(bytes: &'b [u8]) -> Repeats<'b>
        ensures { result ≡ bytes.now }
    {
        Repeats {
            bytes,
            first: [0; ROOM],
            gap: [0; ROOM],
            end: [0; ROOM],
            used: [0; ROOM],
            clock: 0,
        }
    }

    /// The repeat under a number.
    fn get(&self, k: usize) -> Repeat
        requires { k < 64 }
        ensures { IsRepeat self.now result.first result.gap result.end }
    {
        Repeat {
            first: self.first[k],
            gap: self.gap[k],
            end: self.end[k],
        }
    }

    /// Notes that the repeat under a number was of use.
    fn touch(&mut self, k: usize)
        requires { k < 64 }
        ensures { self.new ≡ self.old }
    {
        self.clock = self.clock.wrapping_add(1);
        self.used[k] = self.clock;
    }

    /// Puts a repeat under a number.
    fn put(&mut self, k: usize, repeat: Repeat)
        requires below { k < 64 }
        requires sound { IsRepeat self.old repeat.first repeat.gap repeat.end }
        ensures { self.new ≡ self.old }
    {
        self.first[k] = repeat.first;
        self.gap[k] = repeat.gap;
        self.end[k] = repeat.end;
        self.touch(k);
    }

    /// Remembers that bytes agree. They join a repeat that they touch, or replace the one that wasn't used for the
    /// longest time.
    fn remember(&mut self, pair: Compared)
        requires { AgreeInside self.old pair.left pair.right pair.count }
        ensures { self.new ≡ self.old }
    {
        let b = self.bytes;
        let first = pair.left.min(pair.right);
        let gap = pair.left.max(pair.right) - first;
        let repeat = Repeat {
            first,
            gap,
            end: first + pair.count,
        };
        let mut oldest = 0;
        for k in 0..ROOM {
            if let Some(both) = joined(b, self.get(k), repeat) {
                self.put(k, both);
                return;
            }
            if self.used[k] < self.used[oldest] {
                oldest = k;
            }
        }
        self.put(oldest, repeat);
    }

    /// Another place with the bytes at `place`, by the repeat under a number. It is as near to `other`, which is before
    /// `place`, as the repeat allows.
    fn copied_by(&self, k: usize, other: usize, place: usize) -> Option<Copied>
        requires below { k < 64 }
        requires before { other < place }
        ensures { IfSome result (λ c. AgreeInside self.now place c.place c.count
            × (0 < c.count) × (c.by < 64)) }
    {
        let repeat = self.get(k);
        if repeat.gap == 0 || place < repeat.gap {
            return None;
        }
        let before = place - repeat.gap;
        if before < repeat.first || repeat.end <= before {
            return None;
        }
        let count = repeat.end - before;
        if repeat.first <= other && other <= before {
            let near = other + (place - other) % repeat.gap;
            return Some(Copied {
                place: near,
                count,
                by: k,
            });
        }
        Some(Copied {
            place: before,
            count,
            by: k,
        })
    }

    /// The copy of at least so many of the bytes at `place` that is nearest to `other`, which is before them.
    fn nearest(&self, other: usize, place: usize, least: usize) -> Option<Copied>
        requires { other < place }
        ensures { IfSome result (λ c. AgreeInside self.now place c.place c.count
            × (0 < c.count) × (c.by < 64)) }
    {
        let mut best: Option<Copied> = None;
        let mut distance = place - other;
        let mut count = 0;
        for k in 0..ROOM {
            if let Some(copied) = self.copied_by(k, other, place) {
                let away = copied.place.abs_diff(other);
                if copied.count >= least
                    && (away < distance || away == distance && copied.count > count)
                {
                    best = Some(copied);
                    distance = away;
                    count = copied.count;
                }
            }
        }
        best
    }

    /// A pair of nearer places that have these bytes too, at least so many.
    fn exchanged(&mut self, pair: Compared, least: usize) -> Option<Compared>
        ensures same { self.new ≡ self.old }
        ensures stands { IfSome result (λ now. (p q : ℕ)
            → StandFor self.old p q pair.left pair.right pair.count
            → StandFor self.old p q now.left now.right now.count) }
    {
        if pair.left < pair.right {
            let copied = self.nearest(pair.left, pair.right, least)?;
            self.touch(copied.by);
            return Some(Compared {
                left: pair.left,
                right: copied.place,
                count: pair.count.min(copied.count),
            });
        }
        if pair.right < pair.left {
            let copied = self.nearest(pair.right, pair.left, least)?;
            self.touch(copied.by);
            return Some(Compared {
                left: copied.place,
                right: pair.right,
                count: pair.count.min(copied.count),
            });
        }
        None
    }

    /// A pair of places, as near to each other as is known, for two places that differ, both in the text.
    fn reduced(&mut self, left: usize, right: usize, least: usize) -> Compared
        requires left { left < length self.old }
        requires right { right < length self.old }
        requires differ { left ≢ right }
        ensures same { self.new ≡ self.old }
        ensures stands { StandFor self.old left right result.left result.right result.count }
    {
        let mut pair = Compared {
            left,
            right,
            count: self.bytes.len() - left.max(right),
        };
        let mut least = least;
        for _ in 0..EXCHANGES {
            match self.exchanged(pair, least) {
                None => return pair,
                Some(nearer) => {
                    pair = nearer;
                    least = pair.count / 2;
                }
            }
        }
        pair
    }

    /// How many bytes at two places agree, of some that are looked at: all of these, or 0.
    fn advance(&mut self, left: usize, right: usize, size: usize) -> usize
        requires left { left < length self.old }
        requires right { right < length self.old }
        requires differ { left ≢ right }
        requires some { 0 < size }
        ensures same { self.new ≡ self.old }
        ensures agree { AgreeInside self.old left right result }
        ensures ends { size ≡ 1 → result ≡ 0 → Ends self.old left right }
    {
        let mut pair = self.reduced(left, right, size);
        if pair.left == pair.right {
            return pair.count;
        }
        pair.count = pair.count.min(size);
        if !agree(self.bytes, pair) {
            return 0;
        }
        self.remember(pair);
        pair.count
    }

    /// How many bytes at two places agree, if so many are known to.
    fn agreeing(&mut self, left: usize, right: usize, known: usize) -> usize
        requires differ { left ≢ right }
        requires known { AgreeInside self.old left right known }
        ensures same { self.new ≡ self.old }
        ensures agree { AgreeInside self.old left right result }
        ensures ends { Ends self.old (left + result) (right + result) }
    {
        let len = self.bytes.len();
        let mut count = known;
        let mut size = SHORT;
        while size > 0 && left + count < len && right + count < len {
            let more = self.advance(left + count, right + count, size);
            if more == 0 {
                size /= 2;
            } else {
                count += more;
                size = (size * 2).min(LONG);
            }
        }
        count
    }

    /// Whether the string at `left` is less than the one at `right`.
    pub fn is_less(&mut self, left: usize, right: usize) -> bool
        requires left { left < length self.old }
        requires right { right < length self.old }
        ensures same { self.new ≡ self.old }
        ensures less { IsTrue result
            ↔ (text_cmp (text_at self.old left) (text_at self.old right) ≡ Less) }
    {
        let b = self.bytes;
        for n in 0..SHORT {
            let (x, y) = (byte_at(b, left + n), byte_at(b, right + n));
            if x != y || x == 0 {
                return x < y;
            }
        }
        if left == right {
            return false;
        }
        let count = self.agreeing(left, right, SHORT);
        self.remember(Compared { left, right, count });
        byte_at(b, left + count) < byte_at(b, right + count)
    }
}

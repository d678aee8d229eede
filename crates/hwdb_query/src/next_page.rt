//! A page that is filled.
//!
//! A value that isn't kept takes no memory.
ghost use Rattle.std.specs.Prelude.{◌≡◌, ◌<◌, List, [], ◌∷◌, length, take, drop, OnOk, true};
ghost use Rattle.hwdb_query.specs.Internal.Members.{assignment_shown};
ghost use Rattle.hwdb_spec.specs.Tree.{values_of};
ghost use Rattle.hwdb_reader.specs.Views.{entered_tree, entry_shows};
ghost use Rattle.hwdb_spec.specs.Assignment.{Assignment};
ghost use Rattle.hwdb_spec.specs.Answers.{is_after};
ghost use Rattle.hwdb_query.specs.Internal.Members.{own_members};
ghost use Rattle.hwdb_query.specs.Internal.Hits.{parts_position, after_position, new_assignment, IsOf};
ghost use Rattle.hwdb_query.specs.Views.{assignment_of_answer};

use crate::answer::StoredAssignment;
use crate::collector::Collector;
use crate::hit::{Parts, is_earlier, order};
use crate::hit_page::{HitPage, NewHit};
use hwdb_reader::{Entry, Inside, Origin};
use std::alloc::{AllocError, Global};
use std::cmp::Ordering;

/// Whether a position is greater than the one given, if one is given.
fn is_past(after: Option<Parts<'_>>, parts: Parts<'_>) -> bool
    ensures { result ≡ is_after (after_position after.entry) (parts_position parts.entry) }
{
    match after {
        None => true,
        Some(position) => match order(position, parts) {
            Ordering::Less => true,
            _ => false,
        },
    }
}

/// At most how many values of a node are compared with one after them.
const PROBES: usize = 16;

/// Whether the origins of a node's values fall more often than not, from one to the next of a few of them. A wrong answer only
/// costs time.
fn mostly_fall(inside: Inside<'_>) -> bool {
    let count = inside.values();
    let step = count / PROBES + 1;
    let mut falls = 0;
    let mut i = 0;
    'probing: while count - i > step {
        if is_earlier(inside.origin(i + step), inside.origin(i)) {
            falls += 1;
        }
        i += step;
    }
    falls > i / step / 2
}

/// A page that is filled: the least of the hits so far that come after a position.
#[derive(Drop)]
pub(crate) struct NextPage<'a, 'p> {
    pub after: Option<Parts<'p>>,
    pub held: HitPage<'a>,
}

impl<'a, 'p> NextPage<'a, 'p> {
    ghost use Rattle.hwdb_query.specs.Internal.Collected.{PageCollects};

    /// Offers a hit.
    fn offer_hit(&mut self, alloc: Global, hit: NewHit<'a, '_>) -> Result<(), AllocError>
        ensures { OnOk result (PageCollects self.old (new_assignment hit.entry ∷ []) self.new) }
    {
        let parts = Parts {
            priority: hit.priority,
            line: hit.line,
            pattern: hit.pattern,
            key: hit.key,
        };
        if is_past(self.after, parts) {
            self.held.keep(alloc, hit)?;
        }
        Ok(())
    }

    /// Offers what one value assigns at a pattern.
    fn offer(&mut self, alloc: Global, pattern: &[u8], entry: Entry<'a>) -> Result<(), AllocError>
        ensures { OnOk result
            (PageCollects self.old
            (assignment_shown pattern.now (entry_shows entry.entry)) self.new) }
    {
        let Some(key) = entry.key else {
            return Ok(());
        };
        let hit = NewHit {
            priority: entry.priority,
            line: entry.line,
            pattern,
            key,
            value: entry.value,
            path: entry.path,
        };
        self.offer_hit(alloc, hit)
    }

    /// Offers an answer that was found elsewhere.
    pub(crate) fn take(
        &mut self,
        alloc: Global,
        found: &StoredAssignment<'a>,
    ) -> Result<(), AllocError>
        ensures { OnOk result
            (PageCollects self.old (assignment_of_answer found.now ∷ []) self.new) }
    {
        let hit = NewHit {
            priority: found.priority,
            line: found.line,
            pattern: &found.pattern,
            key: found.key,
            value: found.value,
            path: found.path,
        };
        self.offer_hit(alloc, hit)
    }

    /// Whether no hit of an origin is kept: it comes before the position's, or after a full page.
    fn skips(&self, origin: Origin) -> bool
        ensures { result ≡ true → (x : Assignment) → IsOf origin x
            → PageCollects self.now (x ∷ []) self.now }
    {
        if let Some(after) = self.after {
            if is_earlier(origin, after.origin()) {
                return true;
            }
        }
        self.held.is_full_before(origin)
    }

    /// Takes what one value of a node assigns at a pattern. If a value isn't kept for its origin, its texts aren't
    /// looked at.
    fn collect_one(
        &mut self,
        alloc: Global,
        inside: Inside<'a>,
        pattern: &[u8],
        i: usize,
    ) -> Result<(), AllocError>
        requires { i < length (values_of (entered_tree inside)) }
        ensures { OnOk result
            (PageCollects self.old
            (own_members pattern.now (take 1 (drop i (values_of (entered_tree inside.entry)))))
            self.new) }
    {
        if self.skips(inside.origin(i)) {
            return Ok(());
        }
        self.offer(alloc, pattern, inside.value(i))
    }
}

impl<'a, 'p> Collector<'a> for NextPage<'a, 'p> {
    ghost use Rattle.hwdb_query.specs.Internal.Collected.{PageCollects};

    ghost collects = { PageCollects };

    /// The values are in order of their keys, and are gone over from the end whose origins likely come first. A value that
    /// comes before all so far is put into the page. One that comes after a full page is passed over by its origin.
    fn collect(
        &mut self,
        alloc: Global,
        inside: Inside<'a>,
        pattern: &[u8],
    ) -> Result<(), AllocError> {
        inside.law_ascending();
        let count = inside.values();
        let falls = mostly_fall(inside);
        for step in 0..count {
            let i = if falls { count - 1 - step } else { step };
            self.collect_one(alloc, inside, pattern, i)?;
        }
        Ok(())
    }

    fn law_collects(&self) {}
}

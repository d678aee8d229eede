//! The one list of hits of a cursor.
//!
//! It ascends while a page is filled. So the place of a hit is found by halving, and the greatest is dropped from the
//! end. Then it is turned once, so that each hit is taken from the end too, and no other hit moves.
ghost use Rattle.std.specs.Prelude.{◌≡◌, ◌≢◌, ◌<◌, ◌≤◌, ◌+◌, ◌++◌, ℕ, List, [], ◌∷◌, length, take, drop, reverse, map, IfSome, IfOk, IsOk, OnOk, OnErr, Option, Some, None, true, false};
ghost use Rattle.hwdb_spec.specs.Assignment.{Position, Assignment, position_cmp, assignment_cmp, put};
ghost use Rattle.std.specs.List.Sorted.{IsStrictlySortedBy};
ghost use Rattle.hwdb_query.specs.Internal.Hits.{parts_position, new_assignment, placed, PlaceOf, IsLastOfFull, IsOf, IsFirst};
ghost use Rattle.hwdb_query.specs.Views.{assignment_of_hit, assignments_of_hits, Page, Gives};

use crate::hit::{Hit, Parts, is_earlier, order};
use crate::position::Position;
use hwdb_reader::Origin;
use std::alloc::{AllocError, Global};
use std::cmp::Ordering;
use std::marker::Model;
use std::mem;

/// The place of a hit among others, or the one that it would have.
#[derive(Clone, Copy)]
pub(crate) struct Slot {
    pub index: usize,
    pub is_taken: bool,
}

/// The place of a position among hits that ascend, found by halving.
pub(crate) fn place_of(hits: &[Hit<'_>], parts: Parts<'_>) -> Slot
    ensures within { result.index ≤ length hits.now }
    ensures place { IsStrictlySortedBy assignment_cmp (assignments_of_hits hits.now)
        → (x : Assignment) → x.position ≡ parts_position parts.entry
        → PlaceOf x (assignments_of_hits hits.now) result }
{
    let compare = |hit: &Hit<'_>| -> Ordering
        ensures { result
            ≡ position_cmp (assignment_of_hit hit.now).position (parts_position parts.entry) }
    { order(hit.parts(), parts) };
    match hits.binary_search_by(compare) {
        Ok(index) => Slot {
            index,
            is_taken: true,
        },
        Err(index) => Slot {
            index,
            is_taken: false,
        },
    }
}

/// The last of some hits, if there are as many as may be held.
fn last_of_full<'h, 'a>(hits: &'h [Hit<'a>], most: usize) -> Option<&'h Hit<'a>>
    ensures { IfSome result (λ last. IsLastOfFull last.now hits.now most) }
{
    let count = hits.len();
    if count < most || count == 0 {
        return None;
    }
    Some(&hits[count - 1])
}

/// A hit whose pattern isn't copied yet.
#[derive(Clone, Copy)]
pub(crate) struct NewHit<'a, 'p> {
    pub priority: u16,
    pub line: u32,
    pub pattern: &'p [u8],
    pub key: &'a [u8],
    pub value: &'a [u8],
    pub path: &'a [u8],
}

/// The hits that are held, never more than `most`.
#[derive(Drop)]
pub(crate) struct HitPage<'a> {
    hits: Vec<Hit<'a>>,
    most: usize,
}

impl<'a> Model for HitPage<'a> {
    ghost Value = { Page };

    ghost view = { λ s. record { hits = assignments_of_hits s.hits.items; most = s.most } };

    ghost invariant = { λ s. length s.hits.items ≤ s.most };
}

impl<'a> HitPage<'a> {
    /// No hits, and how many may be held.
    pub(crate) fn new(alloc: Global, most: usize) -> HitPage<'a>
        ensures { result ≡ record { hits = []; most = most } }
    {
        HitPage {
            hits: Vec::new(alloc),
            most,
        }
    }

    /// How many hits are held.
    pub(crate) fn len(&self) -> usize
        ensures value { result ≡ length self.now.hits }
        ensures within { result ≤ self.now.most }
    {
        self.hits.len()
    }

    /// Whether as many hits are held as may be, and all come before an origin.
    pub(crate) fn is_full_before(&self, origin: Origin) -> bool
        ensures { result ≡ true → IsStrictlySortedBy assignment_cmp self.now.hits → (x : Assignment)
            → IsOf origin x
            → take self.now.most (put assignment_cmp x self.now.hits) ≡ self.now.hits }
    {
        match last_of_full(&self.hits, self.most) {
            None => false,
            Some(last) => is_earlier(last.origin(), origin),
        }
    }

    /// Whether as many hits are held as may be, and all come before a position.
    fn is_full_below(&self, parts: Parts<'_>) -> bool
        ensures { result ≡ true → IsStrictlySortedBy assignment_cmp self.now.hits
            → (x : Assignment) → x.position ≡ parts_position parts.entry
            → take self.now.most (put assignment_cmp x self.now.hits) ≡ self.now.hits }
    {
        match last_of_full(&self.hits, self.most) {
            None => false,
            Some(last) => order(last.parts(), parts).is_lt(),
        }
    }

    /// The place for a hit with a position, if it is kept. It isn't if its place is taken, or comes after as many as
    /// may be held. Takes no memory.
    fn place_for(&self, parts: Parts<'_>) -> Option<usize>
        ensures within { IfSome result (λ i. (i ≤ length self.now.hits) × (i < self.now.most)) }
        ensures put { IfSome result (λ i. IsStrictlySortedBy assignment_cmp self.now.hits
            → (x : Assignment) → x.position ≡ parts_position parts.entry
            → put assignment_cmp x self.now.hits ≡ placed x self.now.hits i false) }
        ensures none { result ≡ None → IsStrictlySortedBy assignment_cmp self.now.hits
            → (x : Assignment) → x.position ≡ parts_position parts.entry
            → take self.now.most (put assignment_cmp x self.now.hits) ≡ self.now.hits }
    {
        if self.is_full_below(parts) {
            return None;
        }
        let place = place_of(&self.hits, parts);
        if place.is_taken || place.index >= self.most {
            return None;
        }
        Some(place.index)
    }

    /// Puts a hit in its place, and keeps the least of them. If it isn't kept, it takes no memory.
    pub(crate) fn keep(&mut self, alloc: Global, hit: NewHit<'a, '_>) -> Result<(), AllocError>
        ensures most { self.new.most ≡ self.old.most }
        ensures kept { OnOk result (IsStrictlySortedBy assignment_cmp self.old.hits → self.new.hits
            ≡ take self.old.most (put assignment_cmp (new_assignment hit.entry) self.old.hits)) }
        ensures free { IsStrictlySortedBy assignment_cmp self.old.hits → take self.old.most
            (put assignment_cmp (new_assignment hit.entry) self.old.hits)
            ≡ self.old.hits → IsOk result }
    {
        let parts = Parts {
            priority: hit.priority,
            line: hit.line,
            pattern: hit.pattern,
            key: hit.key,
        };
        let Some(index) = self.place_for(parts) else {
            return Ok(());
        };
        let pattern = hit.pattern.to_vec(alloc)?;
        let hit = Hit {
            priority: hit.priority,
            line: hit.line,
            pattern,
            key: hit.key,
            value: hit.value,
            path: hit.path,
        };
        self.hits.truncate(self.most - 1);
        self.hits.insert(index, hit)?;
        Ok(())
    }

    /// Turns the list, so that the first hit is the next to be taken.
    pub(crate) fn turn(&mut self)
        ensures { self.new ≡ record self.old { hits = reverse self.old.hits } }
    {
        self.hits.reverse();
    }

    /// Takes all hits out, with their memory.
    pub(crate) fn take(&mut self, alloc: Global) -> HitPage<'a>
        ensures taken { result ≡ self.old }
        ensures left { self.new ≡ record self.old { hits = [] } }
    {
        let hits = mem::replace(&mut self.hits, Vec::new(alloc));
        HitPage {
            hits,
            most: self.most,
        }
    }

    /// Becomes another list.
    pub(crate) fn set(&mut self, other: HitPage<'a>)
        ensures { self.new ≡ other.entry }
    {
        let HitPage { hits, most } = other;
        self.hits = hits;
        self.most = most;
    }

    /// All hits that are held.
    pub(crate) fn into_hits(self) -> Vec<Hit<'a>>
        ensures { assignments_of_hits result.items ≡ self.entry.hits }
    {
        let HitPage { hits, .. } = self;
        hits
    }

    /// Takes the last hit of the list.
    pub(crate) fn pop(&mut self) -> Option<Hit<'a>>
        ensures most { self.new.most ≡ self.old.most }
        ensures gives { Gives (reverse self.old.hits) (reverse self.new.hits) result }
    {
        self.hits.pop()
    }

    /// The position of the first hit.
    pub(crate) fn first_position(&self, alloc: Global) -> Result<Option<Position>, AllocError>
        ensures { IfOk result (λ p. IsFirst self.now.hits p) }
    {
        let hits: &[Hit<'_>] = &self.hits;
        if hits.is_empty() {
            return Ok(None);
        }
        let position = hits[0].position(alloc)?;
        Ok(Some(position))
    }
}

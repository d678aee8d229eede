//! The assignments that were set, and the last one of each pattern and key among them.
ghost use Rattle.std.specs.Prelude.{◌≡◌, ◌∷◌, refl, map, reverse, IfOk};
ghost use Rattle.std.specs.Ordering.{eq_by_cmp, as_partial_cmp};
ghost use Rattle.std.specs.Cmp.{eq_by_cmp_equiv, partial_equiv_from_equiv, partial_order_from_total};
ghost use Rattle.std.specs.List.Sorted.{IsStrictlySortedBy};
ghost use Rattle.hwdb_spec.specs.Tree.{surviving, entry_of};
ghost use Rattle.std.specs.FinMap.{from_entries};
ghost use Rattle.hwdb_writer.specs.Internal.Entries.{by_place, by_place_total, assignment_of, IsStorableEntry};
ghost use Rattle.std.specs.List.{AllByRecursion};

use crate::keyed::{head_of, next_of};
use std::alloc::{AllocError, Global};
use std::cmp::Ordering;
use std::marker::Model;

/// An assignment that was set. Its texts are borrowed from the bytes of its file, and its path from the caller.
#[derive(Clone, Copy)]
pub struct Setting<'t> {
    pub pattern: &'t [u8],
    pub key: &'t [u8],
    pub value: &'t [u8],
    pub path: &'t [u8],
    pub line: u32,
    pub priority: u16,
}

/// Entries are alike if they have one pattern and one key.
impl<'t> PartialEq for Setting<'t> {
    ghost eq = { eq_by_cmp by_place };

    ghost laws = { partial_equiv_from_equiv (eq_by_cmp_equiv by_place_total) };

    fn eq(&self, other: &Self) -> bool {
        self.cmp(other).is_eq()
    }
}

impl<'t> Eq for Setting<'t> {
    ghost laws = { eq_by_cmp_equiv by_place_total };
}

impl<'t> PartialOrd for Setting<'t> {
    ghost partial_cmp = { as_partial_cmp by_place };

    ghost laws = { partial_order_from_total by_place_total };

    fn partial_cmp(&self, other: &Self) -> Option<Ordering> {
        Some(self.cmp(other))
    }
}

/// By pattern, and then by key.
impl<'t> Ord for Setting<'t> {
    ghost cmp = { by_place };

    ghost total = { by_place_total };

    ghost matches_partial_cmp = { λ x y. refl };

    ghost matches_eq = { λ x y. refl };

    fn cmp(&self, other: &Self) -> Ordering {
        match self.pattern.cmp(other.pattern) {
            Ordering::Equal => self.key.cmp(other.key),
            unequal => unequal,
        }
    }
}

/// A reference to an entry, and the first eight bytes of its pattern and the next eight as numbers. Most comparisons of entries
/// of two files are decided by these, without a look at the entry and its pattern.
#[derive(Drop)]
pub struct HeadedEntry<'s, 't> {
    head: u64,
    next: u64,
    entry: &'s Setting<'t>,
}

impl<'s, 't> Model for HeadedEntry<'s, 't> {
    ghost use Rattle.hwdb_writer.specs.declared.entries.Setting.{Setting as EntryRecord};
    ghost use Rattle.hwdb_writer.specs.Internal.Entries.{coded_entry};
    ghost use Rattle.hwdb_writer.specs.Internal.Keyed.{AreHeads};

    ghost Value = { EntryRecord };

    ghost coded = { coded_entry };

    ghost view = { λ h. h.entry.now };

    ghost invariant = { λ h. AreHeads h.head h.next h.entry.now.pattern.now };
}

impl<'s, 't> HeadedEntry<'s, 't> {
    fn new(entry: &'s Setting<'t>) -> HeadedEntry<'s, 't>
        ensures { result ≡ entry.now }
    {
        HeadedEntry {
            head: head_of(entry.pattern),
            next: next_of(entry.pattern),
            entry,
        }
    }

    pub fn entry(&self) -> &'s Setting<'t>
        ensures { result.now ≡ self.now }
    {
        self.entry
    }
}

impl<'s, 't> PartialEq for HeadedEntry<'s, 't> {
    ghost eq = { eq_by_cmp by_place };

    ghost laws = { partial_equiv_from_equiv (eq_by_cmp_equiv by_place_total) };

    fn eq(&self, other: &Self) -> bool {
        self.cmp(other).is_eq()
    }
}

impl<'s, 't> Eq for HeadedEntry<'s, 't> {
    ghost laws = { eq_by_cmp_equiv by_place_total };
}

impl<'s, 't> PartialOrd for HeadedEntry<'s, 't> {
    ghost partial_cmp = { as_partial_cmp by_place };

    ghost laws = { partial_order_from_total by_place_total };

    fn partial_cmp(&self, other: &Self) -> Option<Ordering> {
        Some(self.cmp(other))
    }
}

/// As the entries.
impl<'s, 't> Ord for HeadedEntry<'s, 't> {
    ghost cmp = { by_place };

    ghost total = { by_place_total };

    ghost matches_partial_cmp = { λ x y. refl };

    ghost matches_eq = { λ x y. refl };

    fn cmp(&self, other: &Self) -> Ordering {
        if self.head < other.head {
            return Ordering::Less;
        }
        if self.head > other.head {
            return Ordering::Greater;
        }
        if self.next < other.next {
            return Ordering::Less;
        }
        if self.next > other.next {
            return Ordering::Greater;
        }
        self.entry.cmp(other.entry)
    }
}

/// References to the entries, the last of them first.
fn last_first<'s, 't>(
    alloc: Global,
    all: &'s [Setting<'t>],
) -> Result<Vec<HeadedEntry<'s, 't>>, AllocError>
    ensures { IfOk result (λ v. v.items ≡ reverse all.now) }
{
    let mut order: Vec<HeadedEntry<'s, 't>> = Vec::with_capacity(alloc, all.len())?;
    for entry in all {
        order.push(HeadedEntry::new(entry))?;
    }
    order.reverse();
    Ok(order)
}

/// The entries by pattern and key; of those with one pattern and key the last. It takes the entries as they were set.
///
/// Reversed first, so that a stable sort has the last one of each pattern and key in front, and the others are left
/// out. References are sorted, which are shorter than entries.
pub fn last_of_each<'s, 't>(
    alloc: Global,
    all: &'s [Setting<'t>],
) -> Result<Vec<HeadedEntry<'s, 't>>, AllocError>
    ensures ascending { IfOk result (λ v. IsStrictlySortedBy by_place v.items) }
    ensures storable { AllByRecursion IsStorableEntry all.now
        → IfOk result (λ v. AllByRecursion IsStorableEntry v.items) }
    ensures same { IfOk result
        (λ v. from_entries (map entry_of (map assignment_of v.items))
        ≡ surviving (map assignment_of all.now)) }
{
    let mut order = last_first(alloc, all)?;
    order.sort()?;
    order.dedup();
    Ok(order)
}

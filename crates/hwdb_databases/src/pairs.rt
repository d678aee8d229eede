//! Two ascending lists of assignments, gone through side by side.
ghost use Rattle.std.specs.Prelude.{◌≡◌, ◌<◌, ◌+◌, ◌++◌, ◌∷◌, [], map, drop, length, IfSome, IfNone, OnSome};
ghost use Rattle.hwdb_spec_commands.specs.Differences.{are_some, change_between};
ghost use Rattle.hwdb_databases.specs.Views.{assignment_of, change_shown, changes_of};
ghost use Rattle.hwdb_databases.specs.Internal.Merging.{by_place, merged};
ghost use Rattle.hwdb_databases.specs.Internal.Pairing.{to_tell, size};

use hwdb_query::StoredAssignment;
use hwdb_reader::Db;
use std::cmp::Ordering;

/// Two databases, from the first of which it is to the second.
#[derive(Clone, Copy)]
pub(crate) struct Sides<'s, 'a> {
    pub old: &'s Db<'a>,
    pub new: &'s Db<'a>,
}

/// What two databases have at a pattern and key.
#[derive(Clone, Copy)]
pub(crate) enum Pair<'r, 'a> {
    /// The old one alone.
    Old(&'r StoredAssignment<'a>),
    /// The new one alone.
    New(&'r StoredAssignment<'a>),
    /// Both.
    Both(&'r StoredAssignment<'a>, &'r StoredAssignment<'a>),
}

/// What is left of the assignments of two databases.
#[derive(Clone, Copy)]
pub(crate) struct Pairs<'r, 'a> {
    before: &'r [StoredAssignment<'a>],
    after: &'r [StoredAssignment<'a>],
    /// How many of the old ones were taken.
    old_taken: usize,
    /// How many of the new ones were taken.
    new_taken: usize,
}

/// Compares by pattern and then by key.
pub(crate) fn by_place(x: &StoredAssignment<'_>, y: &StoredAssignment<'_>) -> Ordering
    ensures { result ≡ by_place (assignment_of x.now) (assignment_of y.now) }
{
    match x.pattern.as_slice().cmp(y.pattern.as_slice()) {
        Ordering::Equal => x.key.cmp(y.key),
        other => other,
    }
}

/// Both, if their values differ.
fn both<'r, 'a>(
    old: &'r StoredAssignment<'a>,
    new: &'r StoredAssignment<'a>,
) -> Option<Pair<'r, 'a>>
    ensures some { IfSome result (λ change. change_between (assignment_of old.now)
        (assignment_of new.now) ≡ change_shown change ∷ []) }
    ensures none { IfNone result
        (change_between (assignment_of old.now) (assignment_of new.now) ≡ []) }
{
    match old.value.cmp(new.value) {
        Ordering::Equal => None,
        _ => Some(Pair::Both(old, new)),
    }
}

/// What happened at a pattern and key, if something did: an old one and a new one have two values.
pub(crate) fn change_in<'r, 'a>(pair: Pair<'r, 'a>) -> Option<Pair<'r, 'a>>
    ensures some { IfSome result (λ change. changes_of pair.entry ≡ change_shown change ∷ []) }
    ensures none { IfNone result (changes_of pair.entry ≡ []) }
{
    match pair {
        Pair::Both(old, new) => both(old, new),
        change => Some(change),
    }
}

/// Whether there is a change.
pub(crate) fn are_any(changes: &[Pair<'_, '_>]) -> bool
    ensures { result ≡ are_some (map change_shown changes.now) }
{
    !changes.is_empty()
}

/// The member number `i`, if there is one.
fn at<'r, 'a>(list: &'r [StoredAssignment<'a>], i: usize) -> Option<&'r StoredAssignment<'a>>
    ensures some { IfSome result (λ x. drop i list.now ≡ x.now ∷ drop (i + 1) list.now) }
    ensures within { OnSome result (i < length list.now) }
    ensures none { IfNone result (drop i list.now ≡ []) }
{
    if i < list.len() { Some(&list[i]) } else { None }
}

impl<'r, 'a> Pairs<'r, 'a> {
    /// Two lists, before anything was taken.
    pub(crate) fn new(
        before: &'r [StoredAssignment<'a>],
        after: &'r [StoredAssignment<'a>],
    ) -> Pairs<'r, 'a>
        ensures { to_tell result
            ≡ merged (map assignment_of before.entry.now) (map assignment_of after.entry.now) }
    {
        Pairs {
            before,
            after,
            old_taken: 0,
            new_taken: 0,
        }
    }

    /// Takes the pair of the least pattern and key that are left.
    pub(crate) fn next(&mut self) -> Option<Pair<'r, 'a>>
        ensures some { IfSome result
            (λ pair. to_tell self.old ≡ changes_of pair ++ to_tell self.new) }
        ensures none { IfNone result (to_tell self.old ≡ []) }
        ensures fewer { OnSome result (size self.new < size self.old) }
    {
        match (
            at(self.before, self.old_taken),
            at(self.after, self.new_taken),
        ) {
            (None, None) => None,
            (Some(old), None) => {
                self.old_taken += 1;
                Some(Pair::Old(old))
            }
            (None, Some(new)) => {
                self.new_taken += 1;
                Some(Pair::New(new))
            }
            (Some(old), Some(new)) => Some(self.take_least(old, new)),
        }
    }

    /// Takes the lesser of the first that are left of both, or both if they have one pattern and key.
    fn take_least(
        &mut self,
        old: &'r StoredAssignment<'a>,
        new: &'r StoredAssignment<'a>,
    ) -> Pair<'r, 'a>
        requires old { drop self.old.old_taken self.old.before.now
            ≡ old.now ∷ drop (self.old.old_taken + 1) self.old.before.now }
        requires new { drop self.old.new_taken self.old.after.now
            ≡ new.now ∷ drop (self.old.new_taken + 1) self.old.after.now }
        requires old_within { self.old.old_taken < length self.old.before.now }
        requires new_within { self.old.new_taken < length self.old.after.now }
        ensures told { to_tell self.old ≡ changes_of result ++ to_tell self.new }
        ensures fewer { size self.new < size self.old }
    {
        match by_place(old, new) {
            Ordering::Less => {
                self.old_taken += 1;
                Pair::Old(old)
            }
            Ordering::Equal => {
                self.old_taken += 1;
                self.new_taken += 1;
                Pair::Both(old, new)
            }
            Ordering::Greater => {
                self.new_taken += 1;
                Pair::New(new)
            }
        }
    }
}

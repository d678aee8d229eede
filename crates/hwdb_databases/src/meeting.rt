//! What changed from one database to another: both are walked side by side, and neither's assignments are held.
ghost use Rattle.std.specs.Prelude.{◌≡◌, ◌<◌, ◌+◌, ◌++◌, ◌∷◌, [], ℕ, List, true, None, Some, drop, filter, length, map, IfNone, IfOk, IfSome, OnOk};
ghost use Rattle.hwdb_spec.specs.Assignment.{text_cmp};
ghost use Rattle.hwdb_spec_commands.specs.Differences.{are_some, change_between, changes_text};
ghost use Rattle.hwdb_spec_commands.specs.Differences.Change.{Came, Went};
ghost use Rattle.hwdb_spec_commands.specs.Reviews.{change_counts, given_change, review_in, reviewed};
ghost use Rattle.hwdb_spec.specs.Tree.{Tree, members_under};
ghost use Rattle.hwdb_reader.specs.Unread.{IsFrom, new_file, old_file, text_of};
ghost use Rattle.hwdb_reader.specs.Views.{tree_of};
ghost use Rattle.hwdb_databases.specs.Views.{held_of, held_shown};
ghost use Rattle.hwdb_databases.specs.Internal.Merging.{by_place, merged};
ghost use Rattle.hwdb_databases.specs.Internal.Trails.{AreKeptOf, path_of};
ghost use Rattle.hwdb_databases.specs.Internal.Meeting.{AreFrom, AreOf, IsMet, IsNext, IsUnderWay, changes_at, changes_by, left_of, unread_of, new_at, old_at, to_meet};

use crate::abreast::Abreast;
use crate::held::{Held, as_given};
use crate::lines::push_pair;
use crate::members::{Members, key_of};
use crate::pairs::Pair;
use crate::reviewing;
use crate::texts::is_same;
use hwdb_reader::{Node, Twins, UnreadEntry};
use hwdb_spec_commands::ReviewArgs;
use std::alloc::{AllocError, Global};
use std::cmp::Ordering;

/// Whose assignment is at the least pattern and key that are left.
#[derive(Clone, Copy)]
pub(crate) enum Side<'a, 'b> {
    /// The old database's alone.
    Old(UnreadEntry<'a>),
    /// The new one's alone.
    New(UnreadEntry<'b>),
    /// That of both.
    Both(UnreadEntry<'a>, UnreadEntry<'b>),
}

/// Two databases that are walked side by side.
#[derive(Clone, Copy)]
pub(crate) struct Walks<'w, 'a, 'b> {
    /// Where they are known to have the same strings.
    pub twins: &'w Twins<'a, 'b>,
    /// What the old one has still to give.
    pub old: &'w Members<'a>,
    /// What the new one has still to give.
    pub new: &'w Members<'b>,
}

/// Compares two texts. Most are one.
pub(crate) fn compare_texts(one: &[u8], other: &[u8]) -> Ordering
    ensures { result ≡ text_cmp one.now other.now }
{
    if is_same(one, other) {
        return Ordering::Equal;
    }
    one.cmp(other)
}

/// Compares the keys of two next assignments.
fn compare_keys(twins: &Twins<'_, '_>, x: &UnreadEntry<'_>, y: &UnreadEntry<'_>) -> Ordering
    requires old { IsFrom (old_file twins.now) x.now }
    requires new { IsFrom (new_file twins.now) y.now }
    ensures { result ≡ text_cmp (drop 1 (text_of x.now.key)) (drop 1 (text_of y.now.key)) }
{
    if twins.are_same(x.key, y.key) {
        return Ordering::Equal;
    }
    compare_texts(key_of(x), key_of(y))
}

/// Compares two next assignments by pattern and then by key. Says how their patterns compare.
fn compare(
    twins: &Twins<'_, '_>,
    patterns: Ordering,
    x: &UnreadEntry<'_>,
    y: &UnreadEntry<'_>,
) -> Ordering
    requires old { IsFrom (old_file twins.now) x.now }
    requires new { IsFrom (new_file twins.now) y.now }
    ensures { (p q : List ℕ) → patterns ≡ text_cmp p q
        → result ≡ by_place (unread_of p x.now) (unread_of q y.now) }
{
    match patterns {
        Ordering::Equal => compare_keys(twins, x, y),
        other => other,
    }
}

/// The change of two next assignments with one pattern and key, if their values differ. The only error, here and below, is
/// `AllocError`.
fn both_here<'a>(
    alloc: Global,
    walks: Walks<'_, 'a, 'a>,
    x: UnreadEntry<'a>,
    y: UnreadEntry<'a>,
) -> Result<Option<Held<'a>>, AllocError>
    requires old { IsFrom (old_file walks.twins.now) x }
    requires new { IsFrom (new_file walks.twins.now) y }
    ensures { IfOk result (λ held. map given_change
        (change_between (unread_of (path_of walks.entry.old.now.walk.trail) x.entry)
        (unread_of (path_of walks.entry.new.now.walk.trail) y.entry)) ≡ held_of held) }
{
    if walks.twins.are_same(x.value, y.value) {
        return Ok(None);
    }
    let went = as_given(walks.old.copied(alloc, &x)?);
    let came = as_given(walks.new.copied(alloc, &y)?);
    Ok(Some(Held::Both(went, came)))
}

/// What happened at the least pattern and key that are left, with the paths that were given, if something did.
fn change_here<'a>(
    alloc: Global,
    walks: Walks<'_, 'a, 'a>,
    side: Side<'a, 'a>,
) -> Result<Option<Held<'a>>, AllocError>
    requires { AreFrom (old_file walks.twins.now) (new_file walks.twins.now) side }
    ensures { IfOk result (λ held. map given_change
        (changes_at walks.entry.old.now walks.entry.new.now side.entry) ≡ held_of held) }
{
    match side {
        Side::Old(x) => {
            let went = walks.old.copied(alloc, &x)?;
            Ok(Some(Held::Old(as_given(went))))
        }
        Side::New(y) => {
            let came = walks.new.copied(alloc, &y)?;
            Ok(Some(Held::New(as_given(came))))
        }
        Side::Both(x, y) => both_here(alloc, walks, x, y),
    }
}

/// Adds a change to some, if it counts.
fn push_held<'a>(
    review: &ReviewArgs,
    all: &mut Vec<Held<'a>>,
    change: Option<Held<'a>>,
) -> Result<(), AllocError>
    ensures { OnOk result (map held_shown all.new.items ≡ map held_shown all.old.items
        ++ filter (change_counts (review_in review.now)) (held_of change.entry)) }
{
    let Some(held) = change else {
        return Ok(());
    };
    if reviewing::change_counts(review, held.pair()) {
        all.push(held)?;
    }
    Ok(())
}

/// Adds the line of the old side's next assignment, which went.
fn tell_old(
    alloc: Global,
    text: &mut Vec<u8>,
    old: &Members<'_>,
    x: UnreadEntry<'_>,
) -> Result<bool, AllocError>
    ensures text { OnOk result (text.new.items ≡ text.old.items
        ++ changes_text
        (Went (unread_of (path_of old.now.walk.trail) x.entry) ∷ [])) }
    ensures some { IfOk result (λ differs. differs ≡ true) }
{
    let made = old.copied(alloc, &x)?;
    push_pair(text, Pair::Old(&made))
}

/// Adds the line of the new side's next assignment, which came.
fn tell_new(
    alloc: Global,
    text: &mut Vec<u8>,
    new: &Members<'_>,
    y: UnreadEntry<'_>,
) -> Result<bool, AllocError>
    ensures text { OnOk result (text.new.items ≡ text.old.items
        ++ changes_text
        (Came (unread_of (path_of new.now.walk.trail) y.entry) ∷ [])) }
    ensures some { IfOk result (λ differs. differs ≡ true) }
{
    let made = new.copied(alloc, &y)?;
    push_pair(text, Pair::New(&made))
}

/// Adds the line of two next assignments with one pattern and key, if their values differ, and answers whether they do.
fn tell_both(
    alloc: Global,
    walks: Walks<'_, '_, '_>,
    text: &mut Vec<u8>,
    x: UnreadEntry<'_>,
    y: UnreadEntry<'_>,
) -> Result<bool, AllocError>
    requires old { IsFrom (old_file walks.twins.now) x }
    requires new { IsFrom (new_file walks.twins.now) y }
    ensures text { OnOk result (text.new.items ≡ text.old.items ++ changes_text
        (change_between (unread_of (path_of walks.entry.old.now.walk.trail) x.entry)
        (unread_of (path_of walks.entry.new.now.walk.trail) y.entry))) }
    ensures some { IfOk result (λ differs. differs
        ≡ are_some (change_between (unread_of (path_of walks.entry.old.now.walk.trail) x.entry)
        (unread_of (path_of walks.entry.new.now.walk.trail) y.entry))) }
{
    if walks.twins.are_same(x.value, y.value) {
        return Ok(false);
    }
    let went = walks.old.copied(alloc, &x)?;
    let came = walks.new.copied(alloc, &y)?;
    push_pair(text, Pair::Both(&went, &came))
}

/// Whether two values differ.
fn differ(twins: &Twins<'_, '_>, old: &UnreadEntry<'_>, new: &UnreadEntry<'_>) -> bool
    requires old { IsFrom (old_file twins.now) old.now }
    requires new { IsFrom (new_file twins.now) new.now }
    ensures { (p q : List ℕ) → result
        ≡ are_some (change_between (unread_of p old.now) (unread_of q new.now)) }
{
    if twins.are_same(old.value, new.value) {
        return false;
    }
    true
}

/// Whether something changed at a pattern and key.
pub(crate) fn is_change(twins: &Twins<'_, '_>, side: Side<'_, '_>) -> bool
    requires { AreFrom (old_file twins.now) (new_file twins.now) side }
    ensures { (p q : List ℕ) → result ≡ are_some (changes_by p q side.entry) }
{
    match side {
        Side::Both(x, y) => differ(twins, &x, &y),
        Side::Old(_) => true,
        Side::New(_) => true,
    }
}

/// Adds the line of what happened at the least pattern and key that are left, and answers whether something did.
pub(crate) fn tell<'a, 'b>(
    alloc: Global,
    walks: Walks<'_, 'a, 'b>,
    text: &mut Vec<u8>,
    side: Side<'a, 'b>,
) -> Result<bool, AllocError>
    requires { AreFrom (old_file walks.twins.now) (new_file walks.twins.now) side }
    ensures text { OnOk result (text.new.items ≡ text.old.items
        ++ changes_text (changes_at walks.entry.old.now walks.entry.new.now side.entry)) }
    ensures some { IfOk result (λ differs. differs
        ≡ are_some (changes_at walks.entry.old.now walks.entry.new.now side.entry)) }
{
    match side {
        Side::Old(x) => tell_old(alloc, text, walks.old, x),
        Side::New(y) => tell_new(alloc, text, walks.new, y),
        Side::Both(x, y) => tell_both(alloc, walks, text, x, y),
    }
}

/// The side of the lesser of two next assignments, or both if they have one pattern and key.
fn lesser<'a, 'b>(
    walks: Walks<'_, 'a, 'b>,
    patterns: Ordering,
    x: UnreadEntry<'a>,
    y: UnreadEntry<'b>,
) -> Side<'a, 'b>
    requires old { walks.old.now.next ≡ Some x }
    requires new { walks.new.now.next ≡ Some y }
    requires patterns { patterns
        ≡ text_cmp (path_of walks.old.now.walk.trail) (path_of walks.new.now.walk.trail) }
    requires old_file { IsFrom (old_file walks.twins.now) x }
    requires new_file { IsFrom (new_file walks.twins.now) y }
    ensures met { IsMet walks.entry.old.now walks.entry.new.now result }
    ensures next { IsNext walks.entry.old.now walks.entry.new.now result }
    ensures files { AreFrom (old_file walks.entry.twins.now) (new_file walks.entry.twins.now)
        result }
{
    match compare(walks.twins, patterns, &x, &y) {
        Ordering::Less => Side::Old(x),
        Ordering::Equal => Side::Both(x, y),
        Ordering::Greater => Side::New(y),
    }
}

/// The side of the least pattern and key that are left, if some are.
pub(crate) fn least<'w, 'a, 'b>(
    twins: &'w Twins<'a, 'b>,
    patterns: Ordering,
    old: &'w Members<'a>,
    new: &'w Members<'b>,
) -> Option<Side<'a, 'b>>
    requires patterns { patterns
        ≡ text_cmp (path_of old.now.walk.trail) (path_of new.now.walk.trail) }
    requires old_walk { (t : Tree) × IsUnderWay t old.now }
    requires new_walk { (t : Tree) × IsUnderWay t new.now }
    requires old_end { IfNone old.now.next (old.now.walk.at ≡ None) }
    requires new_end { IfNone new.now.next (new.now.walk.at ≡ None) }
    requires old_file { IfSome old.now.next (IsFrom (old_file twins.now)) }
    requires new_file { IfSome new.now.next (IsFrom (new_file twins.now)) }
    ensures met { IfSome result (λ side. IsMet old.now new.now side) }
    ensures next { IfSome result (λ side. IsNext old.now new.now side) }
    ensures none { IfNone result (to_meet old.now new.now ≡ []) }
    ensures none_old { IfNone result (left_of old.now ≡ []) }
    ensures files { IfSome result
        (λ side. AreFrom (old_file twins.now) (new_file twins.now) side) }
{
    match (old.next, new.next) {
        (None, None) => None,
        (Some(x), None) => Some(Side::Old(x)),
        (None, Some(y)) => Some(Side::New(y)),
        (Some(x), Some(y)) => Some(lesser(Walks { twins, old, new }, patterns, x, y)),
    }
}

/// Passes over what is next on a side, or on both.
pub(crate) fn pass_over<'a, 'b>(
    side: Side<'a, 'b>,
    old: &mut Members<'a>,
    new: &mut Members<'b>,
) -> Result<(), AllocError>
    requires next { IsNext old.old new.old side }
    requires old_walk { (t : Tree) × IsUnderWay t old.old }
    requires new_walk { (t : Tree) × IsUnderWay t new.old }
    ensures old_left { OnOk result
        (left_of old.old ≡ old_at old.old side.entry ++ left_of old.new) }
    ensures new_left { OnOk result
        (left_of new.old ≡ new_at new.old side.entry ++ left_of new.new) }
    ensures fewer { OnOk result (length (left_of old.new) + length (left_of new.new)
        < length (left_of old.old) + length (left_of new.old)) }
    ensures old_walk { OnOk result ((t : Tree) → IsUnderWay t old.old → IsUnderWay t old.new) }
    ensures new_walk { OnOk result ((t : Tree) → IsUnderWay t new.old → IsUnderWay t new.new) }
    ensures old_end { OnOk result (IfNone old.old.next (old.old.walk.at ≡ None)
        → IfNone old.new.next (old.new.walk.at ≡ None)) }
    ensures new_end { OnOk result (IfNone new.old.next (new.old.walk.at ≡ None)
        → IfNone new.new.next (new.new.walk.at ≡ None)) }
    ensures old_file { OnOk result ((f : List ℕ) → AreOf f old.old → AreOf f old.new) }
    ensures new_file { OnOk result ((f : List ℕ) → AreOf f new.old → AreOf f new.new) }
    ensures old_kept { OnOk result
        (AreKeptOf old.old.walk.trail.segments.items old.new.walk.trail) }
    ensures new_kept { OnOk result
        (AreKeptOf new.old.walk.trail.segments.items new.new.walk.trail) }
{
    match side {
        Side::Old(_) => {
            old.pass()?;
            Ok(())
        }
        Side::New(_) => {
            new.pass()?;
            Ok(())
        }
        Side::Both(_, _) => {
            old.pass()?;
            new.pass()?;
            Ok(())
        }
    }
}

/// The changes from one database to another that count, with the paths that were given.
pub(crate) fn changes_met<'a>(
    alloc: Global,
    review: &ReviewArgs,
    old: Node<'a>,
    new: Node<'a>,
) -> Result<Vec<Held<'a>>, AllocError>
    ensures { IfOk result (λ all. map held_shown all.items ≡ reviewed (review_in review.now)
        (merged (members_under [] (tree_of old.entry)) (members_under [] (tree_of new.entry)))) }
{
    let twins = Twins::new(alloc, old, new)?;
    let mut before = Members::start_at(alloc, false, old)?;
    let mut after = Members::start_at(alloc, false, new)?;
    let mut abreast = Abreast::new(alloc);
    abreast.meet(&twins, &before.walk.trail, &after.walk.trail)?;
    let mut all = Vec::new(alloc);
    'pairs: while let Some(side) = least(&twins, abreast.order, &before, &after) {
        let walks = Walks {
            twins: &twins,
            old: &before,
            new: &after,
        };
        let change = change_here(alloc, walks, side)?;
        push_held(review, &mut all, change)?;
        pass_over(side, &mut before, &mut after)?;
        abreast.meet(&twins, &before.walk.trail, &after.walk.trail)?;
    }
    Ok(all)
}

//! Which changes count, by the name of their file and by their pattern.
ghost use Rattle.std.specs.Prelude.{◌≡◌, ◌++◌, filter, map, nat_eq, string_bytes, IfOk, OnOk};
ghost use Rattle.std.specs.List.{list_any, starts_with};
ghost use Rattle.hwdb_spec.specs.Answers.{is_match};
ghost use Rattle.hwdb_spec_commands.specs.Reviews as spec;
ghost use Rattle.hwdb_spec_commands.specs.Reviews.{review_in};
ghost use Rattle.hwdb_spec_commands.specs.Sides.{file_name};
ghost use Rattle.hwdb_databases.specs.Views.{assignment_of, change_shown, changes_of};
ghost use Rattle.hwdb_databases.specs.Internal.Pairing.{to_tell};

use crate::pairs::{Pair, Pairs, change_in};
use hwdb_pattern::{glob, matches_is_tested};
use hwdb_query::StoredAssignment;
use hwdb_spec_commands::ReviewArgs;
use memchr::memrchr;
use std::alloc::{AllocError, Global};

/// The name of what is at a path: all after its last slash.
pub(crate) fn base_name(path: &[u8]) -> &[u8]
    ensures { result.now ≡ file_name path.now }
{
    match memrchr(b'/', path) {
        Some(at) => &path[at + 1..],
        None => path,
    }
}

/// Whether a glob matches a name.
fn fits(pattern: &[u8], name: &[u8]) -> bool
    ensures { result ≡ is_match name.now pattern.now }
{
    matches_is_tested();
    glob(pattern, name)
}

/// Whether some glob matches the name.
fn is_among(globs: &[String], name: &[u8]) -> bool
    ensures { result ≡ spec.is_among (map string_bytes globs.now) name.now }
{
    for own in globs {
        if fits(own.as_bytes(), name) {
            return true;
        }
    }
    false
}

/// Whether a text begins with one of some.
fn begins_with_one(prefixes: &[String], text: &[u8]) -> bool
    ensures { result ≡ list_any (λ prefix. starts_with nat_eq text.now prefix)
        (map string_bytes prefixes.now) }
{
    for prefix in prefixes {
        if text.starts_with(prefix.as_bytes()) {
            return true;
        }
    }
    false
}

/// Whether a file with the name counts.
fn file_counts(review: &ReviewArgs, name: &[u8]) -> bool
    ensures { result ≡ spec.file_counts (review_in review.now) name.now }
{
    let is_wanted = review.only.is_empty() || is_among(&review.only, name);
    is_wanted && !is_among(&review.without, name)
}

/// Whether a pattern does.
fn pattern_counts(review: &ReviewArgs, pattern: &[u8]) -> bool
    ensures { result ≡ spec.pattern_counts (review_in review.now) pattern.now }
{
    review.prefixes.is_empty() || begins_with_one(&review.prefixes, pattern)
}

/// Whether an assignment passes.
fn passes(review: &ReviewArgs, f: &StoredAssignment<'_>) -> bool
    ensures { result ≡ spec.passes (review_in review.now) (assignment_of f.now) }
{
    file_counts(review, base_name(f.path)) && pattern_counts(review, &f.pattern)
}

/// Whether a change counts.
pub(crate) fn change_counts(review: &ReviewArgs, change: Pair<'_, '_>) -> bool
    ensures { result ≡ spec.change_counts (review_in review.now) (change_shown change.entry) }
{
    match change {
        Pair::Old(old) => passes(review, old),
        Pair::New(new) => passes(review, new),
        Pair::Both(old, new) => passes(review, old) || passes(review, new),
    }
}

/// Adds what happened at a pattern and key, if it is a change that counts. The only error, here and below, is `AllocError`.
fn push_if_counts<'r, 'a>(
    review: &ReviewArgs,
    changes: &mut Vec<Pair<'r, 'a>>,
    pair: Pair<'r, 'a>,
) -> Result<(), AllocError>
    ensures { OnOk result (map change_shown changes.new.items ≡ map change_shown changes.old.items
        ++ filter (spec.change_counts (review_in review.now)) (changes_of pair.entry)) }
{
    let Some(change) = change_in(pair) else {
        return Ok(());
    };
    if change_counts(review, change) {
        changes.push(change)?;
    }
    Ok(())
}

/// The changes that are left, and that count.
pub(crate) fn counting_changes<'r, 'a>(
    alloc: Global,
    review: &ReviewArgs,
    pairs: Pairs<'r, 'a>,
) -> Result<Vec<Pair<'r, 'a>>, AllocError>
    ensures { IfOk result (λ changes. map change_shown changes.items
        ≡ filter (spec.change_counts (review_in review.now)) (to_tell pairs.entry)) }
{
    let mut left = pairs;
    let mut changes = Vec::new(alloc);
    'pairs: while let Some(pair) = left.next() {
        push_if_counts(review, &mut changes, pair)?;
    }
    Ok(changes)
}

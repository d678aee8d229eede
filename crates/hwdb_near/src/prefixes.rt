//! Of some texts with a prefix and of some patterns with it the two that are nearest.
ghost use Rattle.std.specs.Prelude.{◌≡◌, ◌++◌, ◌∷◌, [], filter, map, option_map, IfOk, OnOk};
ghost use Rattle.hwdb_spec_commands.specs.NearAsked.{database_patterns, gathered, pattern_of};
ghost use Rattle.hwdb_spec_commands.specs.NearPrefixes as spec;
ghost use Rattle.hwdb_query.specs.Views.{assignment_of_answer};
ghost use Rattle.hwdb_near.specs.Views.{pattern_at};
ghost use Rattle.hwdb_near.specs.Internal.Closest.{close_of};
ghost use Rattle.hwdb_near.specs.Internal.Ratings.{rated_of};

use crate::databases::patterns_of;
use crate::found::{PatternAt, Rated};
use crate::nearest::nearest_of;
use crate::reports::push_near;
use hwdb_databases::{assignments, assignments_from, members_are_the_map};
use hwdb_query::StoredAssignment;
use hwdb_reader::Db;
use std::alloc::{AllocError, Global};

/// A text, and the nearest pattern to it.
#[derive(Clone, Copy)]
pub(crate) struct Close<'t, 'a> {
    /// The text.
    text: &'t [u8],
    /// The pattern.
    near: Rated<'a>,
}

/// Adds a pattern, if it begins with a prefix. The only error, here and below, is `AllocError`.
fn push_pattern<'a>(
    kept: &mut Vec<PatternAt<'a>>,
    at: PatternAt<'a>,
    prefix: &[u8],
) -> Result<(), AllocError>
    ensures { OnOk result (map pattern_at kept.new.items ≡ map pattern_at kept.old.items
        ++ filter (spec.is_below prefix.now) (pattern_at at.entry ∷ [])) }
{
    if at.pattern.starts_with(prefix) {
        kept.push(at)?;
    }
    Ok(())
}

/// Those of some patterns that begin with a prefix.
fn patterns_below<'a>(
    alloc: Global,
    patterns: &[PatternAt<'a>],
    prefix: &[u8],
) -> Result<Vec<PatternAt<'a>>, AllocError>
    ensures { IfOk result (λ kept. map pattern_at kept.items
        ≡ filter (spec.is_below prefix.now) (map pattern_at patterns.now)) }
{
    let mut kept = Vec::new(alloc);
    for at in patterns {
        push_pattern(&mut kept, *at, prefix)?;
    }
    Ok(kept)
}

/// Adds a text, if it begins with a prefix.
fn push_text<'t>(kept: &mut Vec<&'t [u8]>, text: &'t [u8], prefix: &[u8]) -> Result<(), AllocError>
    ensures { OnOk result (map (λ t. t.now) kept.new.items ≡ map (λ t. t.now) kept.old.items
        ++ filter (spec.has_prefix prefix.now) (text.now ∷ [])) }
{
    if text.starts_with(prefix) {
        kept.push(text)?;
    }
    Ok(())
}

/// Those of some texts that begin with a prefix.
fn texts_below<'t>(
    alloc: Global,
    texts: &[&'t [u8]],
    prefix: &[u8],
) -> Result<Vec<&'t [u8]>, AllocError>
    ensures { IfOk result (λ kept. map (λ t. t.now) kept.items
        ≡ filter (spec.has_prefix prefix.now) (map (λ t. t.now) texts.now)) }
{
    let mut kept: Vec<&'t [u8]> = Vec::new(alloc);
    for text in texts {
        push_text(&mut kept, text, prefix)?;
    }
    Ok(kept)
}

/// Of what was found before and the nearest pattern to one more text, the one that misses fewer literals. Of two that miss as many
/// it is the one before.
fn closer<'t, 'a>(
    before: Option<Close<'t, 'a>>,
    text: &'t [u8],
    found: &[Rated<'a>],
) -> Option<Close<'t, 'a>>
    ensures { option_map close_of result
        ≡ spec.closer (option_map close_of before.entry) text.now (map rated_of found.now) }
{
    let Some((first, _more)) = found.split_first() else {
        return before;
    };
    let now = Close { text, near: *first };
    match before {
        Some(close) if first.missing >= close.near.missing => Some(close),
        _ => Some(now),
    }
}

/// The closest of what was found before and of some texts, each with the nearest of the patterns. It calls itself once for each.
#[tactic(auto, unfolding(hwdb_spec_commands::specs::NearPrefixes::closest_after))]
fn closest_after<'t, 'a>(
    alloc: Global,
    patterns: &[PatternAt<'a>],
    before: Option<Close<'t, 'a>>,
    texts: &[&'t [u8]],
) -> Result<Option<Close<'t, 'a>>, AllocError>
    ensures { IfOk result (λ found. option_map close_of found ≡ spec.closest_after
        (map pattern_at patterns.now) (option_map close_of before.entry)
        (map (λ t. t.now) texts.now)) }
{
    let Some((text, more)) = texts.split_first() else {
        return Ok(before);
    };
    let found = nearest_of(alloc, patterns, text, 1)?;
    let close = closer(before, text, &found.nearest);
    closest_after(alloc, patterns, close, more)
}

/// Adds the report of the closest of some patterns to one of some texts, if there is one.
fn push_closest(
    alloc: Global,
    report: &mut Vec<u8>,
    patterns: &[PatternAt<'_>],
    texts: &[&[u8]],
) -> Result<(), AllocError>
    ensures { OnOk result (report.new.items ≡ report.old.items
        ++ spec.closest_report (map pattern_at patterns.now) (map (λ t. t.now) texts.now)) }
{
    match closest_after(alloc, patterns, None, texts)? {
        Some(close) => push_near(alloc, report, close.text, &close.near),
        None => Ok(()),
    }
}

/// What a database assigns, as far as its patterns begin with the first byte of a prefix; all, if the prefix is empty.
fn assigned_below<'a>(
    alloc: Global,
    db: &Db<'a>,
    prefix: &[u8],
) -> Result<Vec<StoredAssignment<'a>>, AllocError>
    ensures { IfOk result (λ found. filter (spec.is_below prefix.now)
        (gathered (map pattern_of (map assignment_of_answer found.items)))
        ≡ filter (spec.is_below prefix.now) (database_patterns db.now)) }
{
    members_are_the_map();
    db.root().law_tree();
    match prefix.split_first() {
        None => assignments(alloc, db),
        Some((first, _)) => Ok(assignments_from(alloc, db, *first)?),
    }
}

/// Adds the report of the closest pattern of a database with a prefix to one of some texts, if there is one.
fn push_closest_below(
    alloc: Global,
    report: &mut Vec<u8>,
    db: &Db<'_>,
    texts: &[&[u8]],
    prefix: &[u8],
) -> Result<(), AllocError>
    ensures { OnOk result (report.new.items ≡ report.old.items ++ spec.closest_report
        (filter (spec.is_below prefix.now) (database_patterns db.now))
        (map (λ t. t.now) texts.now)) }
{
    let found = assigned_below(alloc, db, prefix)?;
    let patterns = patterns_of(alloc, &found)?;
    let there = patterns_below(alloc, &patterns, prefix)?;
    push_closest(alloc, report, &there, texts)
}

/// Adds the report of the nearest pattern to one of some texts, among the texts and the database's patterns that begin with a prefix. It
/// adds nothing if there are none. Patterns that match aren't told.
///
/// The only error is `AllocError`. Of the database it walks what begins with the prefix's first byte, if a text has the prefix. For each
/// such text these patterns are gone through once.
pub fn push_prefix_report(
    alloc: Global,
    report: &mut Vec<u8>,
    db: &Db<'_>,
    texts: &[&[u8]],
    prefix: &[u8],
) -> Result<(), AllocError>
    ensures report { OnOk result (report.new.items ≡ report.old.items ++ spec.prefix_report
        (database_patterns db.now) (map (λ t. t.now) texts.now) prefix.now) }
{
    let there = texts_below(alloc, texts, prefix)?;
    if there.is_empty() {
        return Ok(());
    }
    push_closest_below(alloc, report, db, &there, prefix)
}

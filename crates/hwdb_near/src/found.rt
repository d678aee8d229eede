//! Patterns, each at its place, and the order of how near they are.
ghost use Rattle.std.specs.Prelude.{◌≡◌, map, refl, take};
ghost use Rattle.std.specs.Ordering.{as_partial_cmp, eq_by_cmp};
ghost use Rattle.std.specs.Cmp.{eq_by_cmp_equiv, partial_equiv_from_equiv, partial_order_from_total};
ghost use Rattle.hwdb_spec.specs.Assignment.{in_order};
ghost use Rattle.hwdb_spec_commands.specs.Near.{near_cmp, place_cmp};
ghost use Rattle.hwdb_near.specs.Views.{pattern_at};
ghost use Rattle.hwdb_near.specs.Internal.Ratings;
ghost use Rattle.hwdb_near.specs.Internal.Ratings.{by_nearness, by_nearness_total, by_place_total, rated_of, text_order};

use std::cmp::Ordering;

/// A pattern, and its place.
#[derive(Clone, Copy)]
pub struct PatternAt<'a> {
    /// The path of its file.
    pub path: &'a [u8],
    /// The place of that file among others.
    pub file: usize,
    /// Its line.
    pub line: u64,
    /// Its text.
    pub pattern: &'a [u8],
}

/// Two are alike if neither comes before the other.
impl<'a> PartialEq for PatternAt<'a> {
    ghost eq = { eq_by_cmp Ratings.by_place };

    ghost laws = { partial_equiv_from_equiv (eq_by_cmp_equiv by_place_total) };

    fn eq(&self, other: &Self) -> bool {
        self.cmp(other).is_eq()
    }
}

impl<'a> Eq for PatternAt<'a> {
    ghost laws = { eq_by_cmp_equiv by_place_total };
}

impl<'a> PartialOrd for PatternAt<'a> {
    ghost partial_cmp = { as_partial_cmp Ratings.by_place };

    ghost laws = { partial_order_from_total by_place_total };

    fn partial_cmp(&self, other: &Self) -> Option<Ordering> {
        Some(self.cmp(other))
    }
}

/// By file and line, and then by text.
impl<'a> Ord for PatternAt<'a> {
    ghost cmp = { Ratings.by_place };

    ghost total = { by_place_total };

    ghost matches_partial_cmp = { λ x y. refl };

    ghost matches_eq = { λ x y. refl };

    fn cmp(&self, other: &Self) -> Ordering {
        by_place(self, other)
    }
}

/// A pattern, and how near it is.
#[derive(Clone, Copy)]
pub(crate) struct Rated<'a> {
    /// How many of its literals are missing.
    pub(crate) missing: usize,
    /// How many its longest front has.
    pub(crate) front: usize,
    /// The pattern.
    pub(crate) at: PatternAt<'a>,
}

/// Two are alike if neither comes before the other.
impl<'a> PartialEq for Rated<'a> {
    ghost eq = { eq_by_cmp by_nearness };

    ghost laws = { partial_equiv_from_equiv (eq_by_cmp_equiv by_nearness_total) };

    fn eq(&self, other: &Self) -> bool {
        self.cmp(other).is_eq()
    }
}

impl<'a> Eq for Rated<'a> {
    ghost laws = { eq_by_cmp_equiv by_nearness_total };
}

impl<'a> PartialOrd for Rated<'a> {
    ghost partial_cmp = { as_partial_cmp by_nearness };

    ghost laws = { partial_order_from_total by_nearness_total };

    fn partial_cmp(&self, other: &Self) -> Option<Ordering> {
        Some(self.cmp(other))
    }
}

/// The nearer first: by what is missing, and then by the place.
impl<'a> Ord for Rated<'a> {
    ghost cmp = { by_nearness };

    ghost total = { by_nearness_total };

    ghost matches_partial_cmp = { λ x y. refl };

    ghost matches_eq = { λ x y. refl };

    fn cmp(&self, other: &Self) -> Ordering {
        order(self, other)
    }
}

/// Which of two patterns comes first by its text and its path.
fn by_text(a: &PatternAt<'_>, b: &PatternAt<'_>) -> Ordering
    ensures { result ≡ text_order (pattern_at a.now) (pattern_at b.now) }
{
    match a.pattern.cmp(b.pattern) {
        Ordering::Equal => a.path.cmp(b.path),
        other => other,
    }
}

/// Which of two patterns comes first by its file, its line and its text.
fn by_place(a: &PatternAt<'_>, b: &PatternAt<'_>) -> Ordering
    ensures { result ≡ place_cmp (pattern_at a.now) (pattern_at b.now) }
{
    match a.file.cmp(&b.file) {
        Ordering::Equal => match a.line.cmp(&b.line) {
            Ordering::Equal => by_text(a, b),
            other => other,
        },
        other => other,
    }
}

/// Which of two patterns is nearer, and of two that are as near which comes first. Texts are compared last, and seldom.
fn order(a: &Rated<'_>, b: &Rated<'_>) -> Ordering
    ensures { result ≡ near_cmp (rated_of a.now) (rated_of b.now) }
{
    match a.missing.cmp(&b.missing) {
        Ordering::Equal => match b.front.cmp(&a.front) {
            Ordering::Equal => by_place(&a.at, &b.at),
            other => other,
        },
        other => other,
    }
}

/// The first of some patterns, by how near they are; each pattern and place once, and so many at most. They are sorted.
pub(crate) fn nearest_first(all: Vec<Rated<'_>>, limit: usize) -> Vec<Rated<'_>>
    ensures { map rated_of result.items
        ≡ take limit (in_order near_cmp (map rated_of all.entry.items)) }
{
    let mut list = all;
    list.sort_unstable();
    list.dedup();
    list.truncate(limit);
    list
}

/// Some patterns by file and line; each pattern and place once. They are sorted.
pub(crate) fn by_file_and_line(all: Vec<PatternAt<'_>>) -> Vec<PatternAt<'_>>
    ensures { map pattern_at result.items ≡ in_order place_cmp (map pattern_at all.entry.items) }
{
    let mut list = all;
    list.sort_unstable();
    list.dedup();
    list
}

//! The patterns of a database.
ghost use Rattle.std.specs.Prelude.{◌≡◌, map, reverse, IfOk, OnOk};
ghost use Rattle.hwdb_query.specs.Views.{assignment_of_answer};
ghost use Rattle.hwdb_spec.specs.Folders;
ghost use Rattle.hwdb_spec_commands.specs.NearAsked;
ghost use Rattle.hwdb_spec_commands.specs.NearAsked.{gather, gathered};
ghost use Rattle.hwdb_near.specs.Views.{pattern_at};

use crate::found::PatternAt;
use hwdb_query::StoredAssignment;
use std::alloc::{AllocError, Global};

/// The pattern of an assignment, at its file and line.
fn pattern_of<'a>(answer: &'a StoredAssignment<'_>) -> PatternAt<'a>
    ensures { pattern_at result ≡ NearAsked.pattern_of (assignment_of_answer answer.now) }
{
    PatternAt {
        path: answer.path,
        file: usize::from(answer.priority),
        line: u64::from(answer.line),
        pattern: &answer.pattern,
    }
}

/// Whether a place comes before another one.
fn is_before(a: &PatternAt<'_>, b: &PatternAt<'_>) -> bool
    ensures { result ≡ NearAsked.is_before (pattern_at a.now) (pattern_at b.now) }
{
    a.file.cmp(&b.file).then(a.line.cmp(&b.line)).is_lt()
}

/// Whether two patterns have one text.
fn same(a: &[u8], b: &[u8]) -> bool
    ensures { result ≡ Folders.same a.now b.now }
{
    a.cmp(b).is_eq()
}

/// Takes one more pattern, which comes before those so far. These are from the last to the first. If the first of them has
/// the same text, the two are one, at the place that comes first. The only error is `AllocError`.
fn gather<'a>(patterns: &mut Vec<PatternAt<'a>>, at: PatternAt<'a>) -> Result<(), AllocError>
    ensures { OnOk result (reverse (map pattern_at patterns.new.items)
        ≡ gather (pattern_at at.entry) (reverse (map pattern_at patterns.old.items))) }
{
    let Some(next) = patterns.pop() else {
        patterns.push(at)?;
        return Ok(());
    };
    if same(at.pattern, next.pattern) {
        let first = if is_before(&next, &at) { next } else { at };
        patterns.push(first)?;
        return Ok(());
    }
    patterns.push(next)?;
    patterns.push(at)?;
    Ok(())
}

/// The patterns of some assignments, which are by pattern: each once, at the first of its places. The only error is `AllocError`.
pub fn patterns_of<'a>(
    alloc: Global,
    found: &'a [StoredAssignment<'_>],
) -> Result<Vec<PatternAt<'a>>, AllocError>
    ensures { IfOk result (λ patterns. map pattern_at patterns.items
        ≡ gathered (map NearAsked.pattern_of (map assignment_of_answer found.now))) }
{
    let mut patterns = Vec::new(alloc);
    let mut left = found.len();
    while left > 0 {
        left -= 1;
        gather(&mut patterns, pattern_of(&found[left]))?;
    }
    patterns.reverse();
    Ok(patterns)
}

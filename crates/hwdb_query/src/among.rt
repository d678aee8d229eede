//! The effective list, the explanation and a page of answers that were collected elsewhere.
ghost use Rattle.std.specs.Prelude.{◌≡◌, List, ℕ, [], filter, map, take, IfOk, OnOk};
ghost use Rattle.hwdb_spec.specs.Assignment.{assignment_cmp, in_order};
ghost use Rattle.hwdb_spec.specs.Answers.{effective_of, is_wanted};
ghost use Rattle.hwdb_spec.specs.Explanations.{explained};
ghost use Rattle.hwdb_spec.specs.Tree.{IsTree, Tree, answers, answers_after, members_under};
ghost use Rattle.hwdb_query.specs.Internal.Collected.{LastCollects, PageCollects};
ghost use Rattle.hwdb_query.specs.Internal.Explaining.{AllCollects};
ghost use Rattle.hwdb_query.specs.Views.{assignment_of_answer, assignments_of_hits, explained_values, given_position, pairs_bytes};

use crate::all_hits::AllHits;
use crate::answer::{Explained, StoredAssignment};
use crate::hit::Hit;
use crate::hit_page::HitPage;
use crate::last_hits::LastHits;
use crate::next_page::NextPage;
use crate::position::Position;
use std::alloc::{AllocError, Global};

/// Takes some answers, one after another.
fn take_all<'a>(last: &mut LastHits<'a>, found: &[StoredAssignment<'a>]) -> Result<(), AllocError>
    ensures { OnOk result
        (LastCollects last.old (map assignment_of_answer found.now) last.new) }
{
    for i in 0..found.len() {
        last.take(&found[i])?;
    }
    Ok(())
}

/// For each key among some answers the value of the last answer with that key, ascending by key. The answers may be in
/// any order: which one is the last goes by priority, line, pattern and key.
///
/// The only error is `AllocError`.
pub fn effective_among<'a>(
    alloc: Global,
    found: &[StoredAssignment<'a>],
) -> Result<Vec<(&'a [u8], &'a [u8])>, AllocError>
    ensures { IfOk result (λ list. pairs_bytes list.items
        ≡ effective_of (in_order assignment_cmp (map assignment_of_answer found.now))) }
{
    let mut last = LastHits::new(alloc);
    take_all(&mut last, found)?;
    last.pairs(alloc)
}

/// The same as [`take_all`], of all answers.
fn take_each<'a>(all: &mut AllHits<'a>, found: &[StoredAssignment<'a>]) -> Result<(), AllocError>
    ensures { OnOk result
        (AllCollects all.old (map assignment_of_answer found.now) all.new) }
{
    for i in 0..found.len() {
        all.take(&found[i])?;
    }
    Ok(())
}

/// For each key among the answers for a device its answers, ascending by key, the last answer first: what `explain` has. The
/// answers are all those of a database, in any order.
///
/// The only error is `AllocError`.
pub fn explained_among<'a>(
    alloc: Global,
    found: &[StoredAssignment<'a>],
) -> Result<Vec<Explained<'a>>, AllocError>
    ensures { IfOk result (λ list. (device : List ℕ) (t : Tree) → IsTree t
        → map assignment_of_answer found.now ≡ filter (is_wanted device) (members_under [] t)
        → explained_values list.items ≡ explained (answers device t)) }
{
    let mut all = AllHits::new(alloc);
    take_each(&mut all, found)?;
    all.by_key(alloc)?.explained(alloc)
}

/// The same as [`take_all`], of a page.
fn take_page<'a>(
    alloc: Global,
    page: &mut NextPage<'a, '_>,
    found: &[StoredAssignment<'a>],
) -> Result<(), AllocError>
    ensures { OnOk result
        (PageCollects page.old (map assignment_of_answer found.now) page.new) }
{
    for i in 0..found.len() {
        page.take(alloc, &found[i])?;
    }
    Ok(())
}

/// The first `most` of the answers for a device after a position, in order: what a cursor yields first. The answers are all those of a
/// database, in any order.
///
/// Holds at most `most` hits. The only error is `AllocError`.
pub fn page_among<'a>(
    alloc: Global,
    found: &[StoredAssignment<'a>],
    after: Option<&Position>,
    most: usize,
) -> Result<Vec<Hit<'a>>, AllocError>
    ensures { IfOk result (λ hits. (device : List ℕ) (t : Tree)
        → map assignment_of_answer found.now ≡ filter (is_wanted device) (members_under [] t)
        → assignments_of_hits hits.items
        ≡ take most (answers_after device (given_position after.entry) t)) }
{
    let after = match after {
        None => None,
        Some(position) => Some(position.parts()),
    };
    let mut page = NextPage {
        after,
        held: HitPage::new(alloc, most),
    };
    take_page(alloc, &mut page, found)?;
    Ok(page.held.into_hits())
}

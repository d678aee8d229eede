//! Assignments that a later line of the same file replaces by another value.
//!
//! If assignments ascend by pattern and key, as in most large files, none is replaced: each is compared with the next one alone.
//!
//! Else two maps are made: the last line with each pattern and key, and the last with each pattern, key and value. An
//! assignment is replaced if the first of these is later than the second: then the last value is another one. So each
//! assignment takes a few looks in a map.
ghost use Rattle.std.specs.Prelude.{◌≡◌, [], map, true, IfOk, OnOk};
ghost use Rattle.std.specs.Borrow.{Bor};
ghost use Rattle.std.specs.List.Sorted.{IsStrictlySortedBy};
ghost use Rattle.std.specs.declared.cmp.Ordering.TheVariants.{Less};
ghost use Rattle.hwdb_text.specs.Views.{given_in};
ghost use Rattle.hwdb_check.specs.Internal.{IsLastOf, IsReplacedBy, IsSameOf, RaisesLast, RaisesLine, RaisesSame, behind, by_place, last_at, own, same_at};

use hwdb_text::Given;
use std::alloc::{AllocError, Global};
use std::cmp::Ordering;
use std::collections::BTreeMap;

/// A pattern and a key.
pub type PatternAndKey<'b> = (&'b [u8], &'b [u8]);

/// A pattern and a key, and the value that they are given.
type Valued<'b> = (PatternAndKey<'b>, &'b [u8]);

/// Reads an assignment. If none after it was read, its line counts as the last one with its pattern and key. One look
/// is enough if assignments come by line.
///
/// The only error, here and below, is `AllocError`.
fn put_last<'b>(
    last: &mut BTreeMap<PatternAndKey<'b>, u64>,
    given: &Given<'b>,
) -> Result<(), AllocError>
    ensures { OnOk result (RaisesLast (given_in own given.now) last.old last.new) }
{
    let place = (given.pattern, given.key);
    let line = given.line as u64;
    let before = last.insert(place, line)?.unwrap_or(0);
    if line < before {
        last.insert(place, before)?;
    }
    Ok(())
}

/// The last line of some assignments with each pattern and key.
fn last_lines<'b>(
    alloc: Global,
    all: &[Given<'b>],
) -> Result<BTreeMap<PatternAndKey<'b>, u64>, AllocError>
    ensures { IfOk result (IsLastOf (map (given_in own) all.now)) }
{
    let mut last = BTreeMap::new(alloc);
    for given in all {
        put_last(&mut last, given)?;
    }
    Ok(last)
}

/// As `put_last`, for its pattern, its key and its value.
fn put_same<'b>(same: &mut BTreeMap<Valued<'b>, u64>, given: &Given<'b>) -> Result<(), AllocError>
    ensures { OnOk result (RaisesSame (given_in own given.now) same.old same.new) }
{
    let place = ((given.pattern, given.key), given.value);
    let line = given.line as u64;
    let before = same.insert(place, line)?.unwrap_or(0);
    if line < before {
        same.insert(place, before)?;
    }
    Ok(())
}

/// The last line of some assignments with each pattern, key and value.
fn same_lines<'b>(alloc: Global, all: &[Given<'b>]) -> Result<BTreeMap<Valued<'b>, u64>, AllocError>
    ensures { IfOk result (IsSameOf (map (given_in own) all.now)) }
{
    let mut same = BTreeMap::new(alloc);
    for given in all {
        put_same(&mut same, given)?;
    }
    Ok(same)
}

/// A line is replaced by another one. That counts if no later line replaces it too.
fn put_line(replaced: &mut BTreeMap<u64, u64>, line: u64, by: u64) -> Result<(), AllocError>
    ensures { OnOk result (RaisesLine line by replaced.old replaced.new) }
{
    let last = replaced.entry(line)?.or_insert(0);
    *last = (*last).max(by);
    Ok(())
}

/// Reads an assignment. Its line is replaced if the last line with its pattern and key comes after the last one that
/// gives its value too. That line gives another value.
fn put_given<'b>(
    replaced: &mut BTreeMap<u64, u64>,
    last: &BTreeMap<PatternAndKey<'b>, u64>,
    same: &BTreeMap<Valued<'b>, u64>,
    given: &Given<'b>,
) -> Result<(), AllocError>
    ensures { OnOk result
        (RaisesLine given.now.line
        (behind (same_at same.now given.now.pattern given.now.key given.now.value)
        (last_at last.now given.now.pattern given.now.key)) replaced.old replaced.new) }
{
    let place = (given.pattern, given.key);
    let by = last.get(&place).copied().unwrap_or(0);
    let kept = same.get(&(place, given.value)).copied().unwrap_or(0);
    if kept < by {
        put_line(replaced, given.line as u64, by)?;
    }
    Ok(())
}

/// As `replaced_lines`, of assignments in any order. It takes a few looks among them for each of them.
fn replaced_among(alloc: Global, all: &[Given<'_>]) -> Result<BTreeMap<u64, u64>, AllocError>
    ensures { IfOk result
        (IsReplacedBy (map (given_in own) all.now) (map (given_in own) all.now)) }
{
    let last = last_lines(alloc, all)?;
    let same = same_lines(alloc, all)?;
    let mut replaced = BTreeMap::new(alloc);
    for given in all {
        put_given(&mut replaced, &last, &same, given)?;
    }
    Ok(replaced)
}

/// Whether an assignment comes before another one, by pattern and then by key.
fn is_before(one: &Given<'_>, other: &Given<'_>) -> bool
    ensures { result ≡ true → by_place one.now other.now ≡ Less }
{
    match one.pattern.cmp(other.pattern) {
        Ordering::Less => true,
        Ordering::Equal => one.key.cmp(other.key).is_lt(),
        Ordering::Greater => false,
    }
}

/// Whether each assignment comes before the next one, by pattern and then by key.
pub fn ascend(all: &[Given<'_>]) -> bool
    ensures { result ≡ true → IsStrictlySortedBy by_place all.now }
{
    let mut at = 1;
    while at < all.len() {
        if !is_before(&all[at - 1], &all[at]) {
            return false;
        }
        at += 1;
    }
    true
}

/// For the number of each line the number of the last line that replaces one of its assignments. If assignments ascend by
/// pattern and key, it takes a comparison for each, and else a few looks among them.
pub fn replaced_lines(alloc: Global, all: &[Given<'_>]) -> Result<BTreeMap<u64, u64>, AllocError>
    ensures { IfOk result
        (IsReplacedBy (map (given_in own) all.now) (map (given_in own) all.now)) }
{
    if ascend(all) {
        return Ok(BTreeMap::new(alloc));
    }
    replaced_among(alloc, all)
}

//! The changes that no device meets.
//!
//! Their patterns are a set. Of each device both databases are asked, and the patterns that answer are taken out of it. So the time is
//! that of the queries, and no pattern is held against each device.
ghost use Rattle.std.specs.Prelude.{◌≡◌, ◌++◌, ◌∷◌, [], map, IfOk, OnOk};
ghost use Rattle.std.specs.Fmt.{decimal};
ghost use Rattle.json.specs.Tree.{json_tokens};
ghost use Rattle.hwdb_show.specs.JsonTokens.{tokens_of_members};
ghost use Rattle.hwdb_spec_commands.specs.ChangeForms.{whole_object};
ghost use Rattle.hwdb_spec_commands.specs.Differences.{changes_text};
ghost use Rattle.hwdb_spec_commands.specs.Json.{array_of, json_line};
ghost use Rattle.hwdb_spec_commands.specs.Unmet as spec;
ghost use Rattle.hwdb_query.specs.Views.{explained_values};
ghost use Rattle.hwdb_databases.specs.Views.{assignment_of, change_shown};
ghost use Rattle.hwdb_databases.specs.Internal.Unmet.{AreLeft, AreNamed, HasTaken, answered, left_by};

use crate::json_changes::{pattern_of, put_whole};
use crate::lines::push_line;
use crate::pairs::{Pair, Sides};
use hwdb_query::{Explained, StoredAssignment, explain};
use hwdb_reader::Db;
use hwdb_show::{ended, put_count};
use itoa::Buffer;
use json::Writer;
use std::alloc::{AllocError, Global};
use std::collections::BTreeSet;

/// The changes of assignments that none of some devices meets.
#[derive(Clone, Copy)]
pub(crate) struct Unmet<'l, 'r, 'a> {
    /// How many changes there are.
    pub all: usize,
    /// How many devices there are.
    pub devices: usize,
    /// The changes that none of these meets.
    pub left: &'l [Pair<'r, 'a>],
}

/// The patterns of some changes. The only error, here and below, is `AllocError`.
fn patterns_of<'r>(
    alloc: Global,
    changes: &[Pair<'r, '_>],
) -> Result<BTreeSet<&'r [u8]>, AllocError>
    ensures { IfOk result (λ still. AreNamed (map change_shown changes.now) still) }
{
    let mut still = BTreeSet::new(alloc);
    for change in changes {
        still.insert(pattern_of(*change))?;
    }
    Ok(still)
}

/// The pattern of an answer.
fn pattern_bytes<'f>(answer: &'f StoredAssignment<'_>) -> &'f [u8]
    ensures { result.now ≡ (assignment_of answer.now).position.pattern }
{
    answer.pattern.as_slice()
}

/// Takes the patterns of some answers out of a set.
fn take_answers(still: &mut BTreeSet<&[u8]>, found: &[StoredAssignment<'_>])
    ensures { HasTaken still.old still.new (map assignment_of found.now) }
{
    for answer in found {
        let _ = still.remove(pattern_bytes(answer));
    }
}

/// The same of the answers of some keys.
fn take_explained(still: &mut BTreeSet<&[u8]>, list: &[Explained<'_>])
    ensures { HasTaken still.old still.new (answered (explained_values list.now)) }
{
    for explained in list {
        take_answers(still, &explained.answers);
    }
}

/// The same of a device's answers.
fn take_met(
    alloc: Global,
    still: &mut BTreeSet<&[u8]>,
    db: &Db<'_>,
    device: &[u8],
) -> Result<(), AllocError>
    ensures { OnOk result (HasTaken still.old still.new (spec.told_to device.now db.now)) }
{
    let list = explain(alloc, db, device)?;
    take_explained(still, &list);
    Ok(())
}

/// The patterns of changes that none of the devices meets.
fn left_patterns<'r>(
    alloc: Global,
    changes: &[Pair<'r, '_>],
    sides: Sides<'_, '_>,
    devices: &[&[u8]],
) -> Result<BTreeSet<&'r [u8]>, AllocError>
    ensures { IfOk result (λ still. AreLeft (map (λ d. d.now) devices.now) sides.entry.old.now
        sides.entry.new.now (map change_shown changes.now) still) }
{
    let mut still = patterns_of(alloc, changes)?;
    for device in devices {
        take_met(alloc, &mut still, sides.old, *device)?;
        take_met(alloc, &mut still, sides.new, *device)?;
    }
    Ok(still)
}

/// Adds a change if its pattern is one of a set.
fn push_if_left<'r, 'a>(
    left: &mut Vec<Pair<'r, 'a>>,
    still: &BTreeSet<&[u8]>,
    change: Pair<'r, 'a>,
) -> Result<(), AllocError>
    ensures { OnOk result (map change_shown left.new.items ≡ map change_shown left.old.items
        ++ left_by still.now (change_shown change.entry ∷ [])) }
{
    if still.contains(pattern_of(change)) {
        left.push(change)?;
    }
    Ok(())
}

/// The changes whose pattern is.
fn left_changes<'r, 'a>(
    alloc: Global,
    changes: &[Pair<'r, 'a>],
    still: &BTreeSet<&[u8]>,
) -> Result<Vec<Pair<'r, 'a>>, AllocError>
    ensures { IfOk result (λ left. map change_shown left.items
        ≡ left_by still.now (map change_shown changes.now)) }
{
    let mut left = Vec::new(alloc);
    for change in changes {
        push_if_left(&mut left, still, *change)?;
    }
    Ok(left)
}

/// Of some changes from one database to another those that none of the devices meets.
///
/// Two descents for each device.
pub(crate) fn unmet_changes<'r, 'a>(
    alloc: Global,
    changes: &[Pair<'r, 'a>],
    sides: Sides<'_, '_>,
    devices: &[&[u8]],
) -> Result<Vec<Pair<'r, 'a>>, AllocError>
    ensures { IfOk result (λ left. map change_shown left.items
        ≡ spec.unmet (map (λ d. d.now) devices.now) sides.entry.old.now sides.entry.new.now
        (map change_shown changes.now)) }
{
    let still = left_patterns(alloc, changes, sides, devices)?;
    left_changes(alloc, changes, &still)
}

/// Adds a number.
pub(crate) fn push_count(text: &mut Vec<u8>, n: usize) -> Result<(), AllocError>
    ensures { OnOk result (text.new.items ≡ text.old.items ++ decimal n) }
{
    let mut number = Buffer::new();
    text.extend_from_slice(number.format(n).as_bytes())?;
    Ok(())
}

/// Adds one text, or another if it is another number.
pub(crate) fn push_by_number(
    text: &mut Vec<u8>,
    one: &str,
    other: &str,
    n: usize,
) -> Result<(), AllocError>
    ensures { OnOk result
        (text.new.items ≡ text.old.items ++ spec.by_number one.now other.now n) }
{
    if n == 1 {
        text.extend_from_slice(one.as_bytes())?;
    } else {
        text.extend_from_slice(other.as_bytes())?;
    }
    Ok(())
}

/// Adds that so many are met, or not, by so many devices.
fn push_met(text: &mut Vec<u8>, unmet: usize, devices: usize) -> Result<(), AllocError>
    ensures { OnOk result (text.new.items ≡ text.old.items ++ spec.met_text unmet devices) }
{
    push_by_number(text, " is", " are", unmet)?;
    push_by_number(
        text,
        " not met by this device\n",
        " met by none of these devices\n",
        devices,
    )
}

/// Adds how many of so many assignments there are.
fn push_amount(text: &mut Vec<u8>, unmet: usize, all: usize) -> Result<(), AllocError>
    ensures { OnOk result (text.new.items ≡ text.old.items ++ spec.amount_text unmet all) }
{
    push_count(text, unmet)?;
    text.extend_from_slice(b" of ")?;
    push_count(text, all)?;
    push_by_number(text, " changed assignment", " changed assignments", all)
}

/// Adds how many of so many assignments so many devices don't meet.
fn push_unmet(
    text: &mut Vec<u8>,
    unmet: usize,
    all: usize,
    devices: usize,
) -> Result<(), AllocError>
    ensures { OnOk result (text.new.items ≡ text.old.items ++ spec.unmet_line unmet all devices) }
{
    push_amount(text, unmet, all)?;
    push_met(text, unmet, devices)
}

/// Adds a line for each change.
pub(crate) fn push_lines(text: &mut Vec<u8>, changes: &[Pair<'_, '_>]) -> Result<(), AllocError>
    ensures { OnOk result
        (text.new.items ≡ text.old.items ++ changes_text (map change_shown changes.now)) }
{
    for change in changes {
        push_line(text, *change)?;
    }
    Ok(())
}

/// What is said of the changes that no device meets, with lines of them if `verbose`. Nothing of none.
pub(crate) fn left_text(
    alloc: Global,
    verbose: bool,
    unmet: Unmet<'_, '_, '_>,
) -> Result<Vec<u8>, AllocError>
    ensures { IfOk result (λ text. text.items ≡ spec.left_text verbose unmet.entry.all
        unmet.entry.devices (map change_shown unmet.entry.left.now)) }
{
    let mut text = Vec::new(alloc);
    if unmet.left.is_empty() {
        return Ok(text);
    }
    push_unmet(&mut text, unmet.left.len(), unmet.all, unmet.devices)?;
    if verbose {
        push_lines(&mut text, unmet.left)?;
    }
    Ok(text)
}

/// Adds the array of the changes that are left.
fn put_array(json: &mut Writer, left: &[Pair<'_, '_>]) -> Result<(), AllocError>
    ensures before { json.new.before ≡ json.old.before }
    ensures tokens { OnOk result (json.new.tokens ≡ json.old.tokens
        ++ json_tokens (array_of (map whole_object (map change_shown left.now)))) }
{
    json.begin_array()?;
    for change in left {
        put_whole(json, *change)?;
    }
    json.end_array()
}

/// Adds the member that has them, if they are asked for.
fn put_which(json: &mut Writer, verbose: bool, left: &[Pair<'_, '_>]) -> Result<(), AllocError>
    ensures before { json.new.before ≡ json.old.before }
    ensures tokens { OnOk result (json.new.tokens ≡ json.old.tokens
        ++ tokens_of_members (spec.which_member verbose (map change_shown left.now))) }
{
    if verbose {
        json.key("changes")?;
        put_array(json, left)?;
    }
    Ok(())
}

/// Adds the object of the changes that are left of so many.
fn put_left(
    json: &mut Writer,
    verbose: bool,
    all: usize,
    left: &[Pair<'_, '_>],
) -> Result<(), AllocError>
    ensures before { json.new.before ≡ json.old.before }
    ensures tokens { OnOk result (json.new.tokens ≡ json.old.tokens
        ++ json_tokens (spec.left_object verbose all (map change_shown left.now))) }
{
    json.begin_object()?;
    put_count(json, "changed", all as u64)?;
    put_count(json, "unmet", left.len() as u64)?;
    put_which(json, verbose, left)?;
    json.end_object()
}

/// Its line.
pub(crate) fn left_json(
    alloc: Global,
    verbose: bool,
    all: usize,
    left: &[Pair<'_, '_>],
) -> Result<Vec<u8>, AllocError>
    ensures { IfOk result (λ line.
        line.items ≡ json_line (spec.left_object verbose all (map change_shown left.now))) }
{
    let mut json = Writer::new(Vec::new(alloc));
    put_left(&mut json, verbose, all, left)?;
    ended(alloc, json)
}

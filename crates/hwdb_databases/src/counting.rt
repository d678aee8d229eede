//! How many changes there are, by file and by key.
ghost use Rattle.std.specs.Prelude.{◌≡◌, map, IfOk, OnOk, Some};
ghost use Rattle.hwdb_spec_commands.specs.ChangeCounts as spec;
ghost use Rattle.hwdb_spec_commands.specs.ChangeCounts.{changed_file, changed_key, counted, no_count, no_stat, with_change, with_changes, with_device, with_told};
ghost use Rattle.hwdb_spec_commands.specs.Checks.{both};
ghost use Rattle.hwdb_spec_commands.specs.Comparisons.{device_changes, has_changed};
ghost use Rattle.hwdb_spec_commands.specs.Differences.{are_some};
ghost use Rattle.hwdb_spec_commands.specs.Reviews.{review_in};
ghost use Rattle.hwdb_databases.specs.Views.{change_shown};
ghost use Rattle.hwdb_databases.specs.Internal.Counts.{count_shown, counts_shown, stat_shown};

use crate::gifts::gifts;
use crate::pairs::{Pair, Pairs, Sides, are_any};
use crate::reviewing::{base_name, counting_changes};
use hwdb_spec_commands::ReviewArgs;
use std::alloc::{AllocError, Global};
use std::collections::BTreeMap;

/// How many assignments came, went and changed. Each count stops at the greatest number.
#[derive(Clone, Copy)]
pub(crate) struct Count {
    pub came: u64,
    pub went: u64,
    pub changed: u64,
}

/// The counts by file, by key and of all; and how many devices have a change.
#[derive(Drop)]
pub(crate) struct Stat<'a> {
    pub files: BTreeMap<&'a [u8], Count>,
    pub keys: BTreeMap<&'a [u8], Count>,
    pub total: Count,
    pub devices: u64,
}

/// One more, at most the greatest number.
fn one_up(n: u64) -> u64
    ensures { result ≡ both n 1 }
{
    n.saturating_add(1)
}

/// None came, went or changed.
fn nothing() -> Count
    ensures { count_shown result ≡ no_count }
{
    Count {
        came: 0,
        went: 0,
        changed: 0,
    }
}

/// One change more.
fn one_more(change: Pair<'_, '_>, count: Count) -> Count
    ensures { count_shown result ≡ spec.one_more (change_shown change.entry) (count_shown count) }
{
    let Count {
        came,
        went,
        changed,
    } = count;
    match change {
        Pair::New(_) => Count {
            came: one_up(came),
            went,
            changed,
        },
        Pair::Old(_) => Count {
            came,
            went: one_up(went),
            changed,
        },
        Pair::Both(_, _) => Count {
            came,
            went,
            changed: one_up(changed),
        },
    }
}

/// The name of a change's file: that of the new assignment, or of one that went.
fn file_of<'a>(change: Pair<'_, 'a>) -> &'a [u8]
    ensures { result.now ≡ changed_file (change_shown change.entry) }
{
    match change {
        Pair::Old(old) => base_name(old.path),
        Pair::New(new) => base_name(new.path),
        Pair::Both(_, new) => base_name(new.path),
    }
}

/// The key of a change.
fn key_of<'a>(change: Pair<'_, 'a>) -> &'a [u8]
    ensures { result.now ≡ changed_key (change_shown change.entry) }
{
    match change {
        Pair::Old(old) => old.key,
        Pair::New(new) => new.key,
        Pair::Both(_, new) => new.key,
    }
}

/// Counts one change more of a name. The only error, here and below, is `AllocError`.
fn count_one<'a>(
    counts: &mut BTreeMap<&'a [u8], Count>,
    name: &'a [u8],
    change: Pair<'_, 'a>,
) -> Result<(), AllocError>
    ensures { OnOk result (counts_shown counts.new
        ≡ counted name.now (change_shown change.entry) (counts_shown counts.old)) }
{
    if let Some(count) = counts.get_mut(name) {
        *count = one_more(change, *count);
        return Ok(());
    }
    counts.insert(name, one_more(change, nothing()))?;
    Ok(())
}

/// Counts one change more.
fn add_change<'a>(stat: &mut Stat<'a>, change: Pair<'_, 'a>) -> Result<(), AllocError>
    ensures { OnOk result
        (stat_shown stat.new ≡ with_change (stat_shown stat.old) (change_shown change.entry)) }
{
    count_one(&mut stat.files, file_of(change), change)?;
    count_one(&mut stat.keys, key_of(change), change)?;
    stat.total = one_more(change, stat.total);
    Ok(())
}

/// Counts some changes more.
fn add_changes<'a>(stat: &mut Stat<'a>, changes: &[Pair<'_, 'a>]) -> Result<(), AllocError>
    ensures { OnOk result (stat_shown stat.new
        ≡ with_changes (stat_shown stat.old) (map change_shown changes.now)) }
{
    for change in changes {
        add_change(stat, *change)?;
    }
    Ok(())
}

/// The counts of no change.
fn empty<'a>(alloc: Global) -> Stat<'a>
    ensures { stat_shown result ≡ no_stat }
{
    Stat {
        files: BTreeMap::new(alloc),
        keys: BTreeMap::new(alloc),
        total: nothing(),
        devices: 0,
    }
}

/// The counts of some changes.
pub(crate) fn stat_of<'a>(alloc: Global, changes: &[Pair<'_, 'a>]) -> Result<Stat<'a>, AllocError>
    ensures { IfOk result
        (λ stat. stat_shown stat ≡ with_changes no_stat (map change_shown changes.now)) }
{
    let mut stat = empty(alloc);
    add_changes(&mut stat, changes)?;
    Ok(stat)
}

/// Counts the device if it has a change.
fn add_device(stat: &mut Stat<'_>, differs: bool)
    ensures { stat_shown stat.new ≡ with_device differs (stat_shown stat.old) }
{
    if differs {
        stat.devices = one_up(stat.devices);
    }
}

/// Counts what changed for a device, and the device if something did.
fn add_told<'a>(stat: &mut Stat<'a>, changes: &[Pair<'_, 'a>]) -> Result<(), AllocError>
    ensures { OnOk result (stat_shown stat.new
        ≡ with_told (stat_shown stat.old) (map change_shown changes.now)) }
{
    add_changes(stat, changes)?;
    add_device(stat, are_any(changes));
    Ok(())
}

/// The same of a device, from one database to another. Answers whether something did.
fn count_device<'a>(
    alloc: Global,
    review: &ReviewArgs,
    stat: &mut Stat<'a>,
    sides: Sides<'_, 'a>,
    device: &[u8],
) -> Result<bool, AllocError>
    ensures stat { OnOk result (stat_shown stat.new ≡ with_told (stat_shown stat.old)
        (device_changes (review_in review.now)
        sides.entry.old.now sides.entry.new.now device.now)) }
    ensures differs { IfOk result (λ differs. differs ≡ are_some
        (device_changes (review_in review.now)
        sides.entry.old.now sides.entry.new.now device.now)) }
{
    let old_ones = gifts(alloc, sides.old, device)?;
    let new_ones = gifts(alloc, sides.new, device)?;
    let changes = counting_changes(alloc, review, Pairs::new(&old_ones, &new_ones))?;
    add_told(stat, &changes)?;
    Ok(are_any(&changes))
}

/// The counts of what changed for some devices, and whether something did.
pub(crate) fn device_stat<'a>(
    alloc: Global,
    review: &ReviewArgs,
    sides: Sides<'_, 'a>,
    devices: &[&[u8]],
) -> Result<(Stat<'a>, bool), AllocError>
    ensures stat { IfOk result (λ found. stat_shown found.0 ≡ spec.stat_of (review_in review.now)
        (Some (map (λ d. d.now) devices.now)) sides.entry.old.now sides.entry.new.now) }
    ensures differ { IfOk result (λ found. found.1 ≡ has_changed (review_in review.now)
        (Some (map (λ d. d.now) devices.now)) sides.entry.old.now sides.entry.new.now) }
{
    let mut stat = empty(alloc);
    let mut differ = false;
    for device in devices {
        differ |= count_device(alloc, review, &mut stat, sides, *device)?;
    }
    Ok((stat, differ))
}

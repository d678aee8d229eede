//! `diff`: what came, went and changed from one database to another, of all that they assign, or for some devices.
ghost use Rattle.std.specs.Prelude.{◌≡◌, ◌++◌, [], ℕ, List, None, Some, false, map, option_map, IfOk, IfErr, OnOk};
ghost use Rattle.hwdb_spec_commands.specs.ChangeCounts as spec;
ghost use Rattle.hwdb_spec_commands.specs.ChangeCounts.{no_stat, stat_form, with_changes};
ghost use Rattle.hwdb_spec_commands.specs.ChangeForms.{changes_form, changes_lines, device_changes_form, device_changes_lines};
ghost use Rattle.hwdb_spec_commands.specs.Comparisons.{assigned_changes, comparison_form, comparison_lines, comparison_said, comparison_text, device_changes, files_diff_form, has_changed};
ghost use Rattle.hwdb_spec.specs.Folders.{Source};
ghost use Rattle.hwdb_spec.specs.Format.{IsDatabase};
ghost use Rattle.hwdb_spec.specs.Tree.{Tree, IsTree};
ghost use Rattle.hwdb_spec.specs.Written.{IsCompiled};
ghost use Rattle.hwdb_spec_commands.specs.Differences.{are_some};
ghost use Rattle.hwdb_spec_commands.specs.Databases.{IsDiffText, IsDifferent};
ghost use Rattle.hwdb_spec_commands.specs.DiffErrors.{IsDiffRefusal};
ghost use Rattle.hwdb_spec_commands.specs.Reviews.{review_in};
ghost use Rattle.hwdb_spec_commands.specs.SampleDevices.{samples_differ, samples_end, samples_form, samples_said, undecided_patterns, undecided_said};
ghost use Rattle.hwdb_databases.specs.Internal.Unmet.{assigned_text, left_end, left_said};
ghost use Rattle.hwdb_databases.specs.Laws.{GiveSame, LeavesNoneOut};
ghost use Rattle.hwdb_databases.specs.Views.{change_shown, held_shown};

use crate::counting::{device_stat, stat_of};
use crate::counts_text::form_of;
use crate::device_lines::push_device;
use crate::gifts::gifts;
use crate::held::{Held, pairs_of};
use crate::json_changes::{push_device_json, push_json};
use crate::laws::samples_are_complete;
use crate::meeting::changes_met;
use crate::ordering::in_order;
use crate::pairs::{Pair, Pairs, Sides, are_any};
use crate::renamed::push_grouped;
use crate::reviewing::counting_changes;
use crate::sampling::sampled_between;
use crate::tables::{push_device_table, push_tables};
use crate::undecided::{undecided_json, undecided_text};
use crate::unmet::{Unmet, left_json, left_text, push_lines, unmet_changes};
use hwdb_reader::{Db, check, law_ascending, law_one_tree};
use hwdb_spec::DiffError;
use hwdb_spec_commands::{Layout, ReviewArgs};
use std::alloc::{AllocError, Global};

/// What changed from one database to another.
#[derive(Drop)]
pub struct Changes {
    /// What is printed of it.
    pub text: Vec<u8>,
    /// What is said besides: what the devices don't meet.
    pub said: Vec<u8>,
    /// Whether there is a change.
    pub differ: bool,
}

/// What is printed of devices, and whether there is a change.
#[derive(Drop)]
struct Told {
    text: Vec<u8>,
    differ: bool,
}

/// Adds changes by record, a line for each, or tables. The only error, here and below, is `AllocError`.
fn push_text(
    alloc: Global,
    layout: Layout,
    text: &mut Vec<u8>,
    changes: &[Pair<'_, '_>],
) -> Result<(), AllocError>
    ensures { OnOk result
        (text.new.items ≡ text.old.items ++ changes_lines layout (map change_shown changes.now)) }
{
    match layout {
        Layout::Grouped => push_grouped(alloc, text, changes),
        Layout::Lines => push_lines(text, changes),
        Layout::Tables => push_tables(alloc, text, changes),
    }
}

/// Changes as text or JSON.
fn form_of_changes(
    alloc: Global,
    review: &ReviewArgs,
    changes: &[Pair<'_, '_>],
) -> Result<Vec<u8>, AllocError>
    ensures { IfOk result (λ text. text.items ≡ changes_form (review_in review.now).json
        (review_in review.now).layout (map change_shown changes.now)) }
{
    let mut text = Vec::new(alloc);
    if review.json {
        push_json(alloc, &mut text, changes)?;
    } else {
        push_text(alloc, review.layout(), &mut text, changes)?;
    }
    Ok(text)
}

/// How many changes there are, as text or JSON.
fn counts_of_changes(
    alloc: Global,
    json: bool,
    changes: &[Pair<'_, '_>],
) -> Result<Vec<u8>, AllocError>
    ensures { IfOk result (λ text. text.items
        ≡ stat_form json None (with_changes no_stat (map change_shown changes.now))) }
{
    let stat = stat_of(alloc, changes)?;
    form_of(alloc, json, false, stat)
}

/// The changes of assignments as they are asked for, or their number.
fn told_of_changes(
    alloc: Global,
    review: &ReviewArgs,
    changes: &[Pair<'_, '_>],
) -> Result<Vec<u8>, AllocError>
    ensures { IfOk result (λ text.
        text.items ≡ assigned_text (review_in review.now) (map change_shown changes.now)) }
{
    if review.stat {
        counts_of_changes(alloc, review.json, changes)
    } else {
        form_of_changes(alloc, review, changes)
    }
}

/// Adds what changed for a device, as text.
fn push_device_lines(
    alloc: Global,
    layout: Layout,
    text: &mut Vec<u8>,
    device: &[u8],
    changes: &[Pair<'_, '_>],
) -> Result<(), AllocError>
    ensures { OnOk result (text.new.items ≡ text.old.items
        ++ device_changes_lines layout device.now (map change_shown changes.now)) }
{
    match layout {
        Layout::Tables => push_device_table(alloc, text, device, changes),
        _ => push_device(text, device, changes),
    }
}

/// The same, or as JSON.
fn push_device_form(
    alloc: Global,
    review: &ReviewArgs,
    text: &mut Vec<u8>,
    device: &[u8],
    changes: &[Pair<'_, '_>],
) -> Result<(), AllocError>
    ensures { OnOk result (text.new.items ≡ text.old.items
        ++ device_changes_form (review_in review.now).json (review_in review.now).layout
        device.now (map change_shown changes.now)) }
{
    if review.json {
        push_device_json(alloc, text, device, changes)
    } else {
        push_device_lines(alloc, review.layout(), text, device, changes)
    }
}

/// Adds what changed for a device from one database to another, and answers whether something did.
fn compare_device(
    alloc: Global,
    review: &ReviewArgs,
    text: &mut Vec<u8>,
    sides: Sides<'_, '_>,
    device: &[u8],
) -> Result<bool, AllocError>
    ensures text { OnOk result (text.new.items ≡ text.old.items
        ++ device_changes_form (review_in review.now).json (review_in review.now).layout
        device.now (device_changes (review_in review.now)
        sides.entry.old.now sides.entry.new.now device.now)) }
    ensures differs { IfOk result (λ differs. differs ≡ are_some (device_changes
        (review_in review.now) sides.entry.old.now sides.entry.new.now device.now)) }
{
    let old_ones = gifts(alloc, sides.old, device)?;
    let new_ones = gifts(alloc, sides.new, device)?;
    let changes = counting_changes(alloc, review, Pairs::new(&old_ones, &new_ones))?;
    push_device_form(alloc, review, text, device, &changes)?;
    Ok(are_any(&changes))
}

/// What changed for some devices from one database to another.
fn lines_of_devices(
    alloc: Global,
    review: &ReviewArgs,
    sides: Sides<'_, '_>,
    devices: &[&[u8]],
) -> Result<Told, AllocError>
    ensures text { IfOk result (λ told. told.text.items ≡ comparison_text (review_in review.now)
        (Some (map (λ d. d.now) devices.now)) sides.entry.old.now sides.entry.new.now) }
    ensures differ { IfOk result (λ told. told.differ ≡ has_changed (review_in review.now)
        (Some (map (λ d. d.now) devices.now)) sides.entry.old.now sides.entry.new.now) }
{
    let mut text = Vec::new(alloc);
    let mut differ = false;
    for device in devices {
        differ |= compare_device(alloc, review, &mut text, sides, *device)?;
    }
    Ok(Told { text, differ })
}

/// How much did.
fn counts_of_devices(
    alloc: Global,
    review: &ReviewArgs,
    sides: Sides<'_, '_>,
    devices: &[&[u8]],
) -> Result<Told, AllocError>
    ensures text { IfOk result (λ told. told.text.items ≡ stat_form (review_in review.now).json
        (Some (map (λ d. d.now) devices.now)) (spec.stat_of (review_in review.now)
        (Some (map (λ d. d.now) devices.now)) sides.entry.old.now sides.entry.new.now)) }
    ensures differ { IfOk result (λ told. told.differ ≡ has_changed (review_in review.now)
        (Some (map (λ d. d.now) devices.now)) sides.entry.old.now sides.entry.new.now) }
{
    let (stat, differ) = device_stat(alloc, review, sides, devices)?;
    let text = form_of(alloc, review.json, true, stat)?;
    Ok(Told { text, differ })
}

/// The changes for devices as they are asked for, or their number.
fn told_of_devices(
    alloc: Global,
    review: &ReviewArgs,
    sides: Sides<'_, '_>,
    devices: &[&[u8]],
) -> Result<Told, AllocError>
    ensures text { IfOk result (λ told. told.text.items ≡ comparison_lines (review_in review.now)
        (Some (map (λ d. d.now) devices.now)) sides.entry.old.now sides.entry.new.now) }
    ensures differ { IfOk result (λ told. told.differ ≡ has_changed (review_in review.now)
        (Some (map (λ d. d.now) devices.now)) sides.entry.old.now sides.entry.new.now) }
{
    if review.stat {
        counts_of_devices(alloc, review, sides, devices)
    } else {
        lines_of_devices(alloc, review, sides, devices)
    }
}

/// What is said of the changes that devices don't meet, for each output: as JSON it is the last line of the first.
fn with_unmet(
    alloc: Global,
    review: &ReviewArgs,
    told: Told,
    unmet: Unmet<'_, '_, '_>,
) -> Result<Changes, AllocError>
    ensures text { IfOk result (λ changes. changes.text.items ≡ told.text.items
        ++ left_end (review_in review.now) unmet.entry.all
        (map change_shown unmet.entry.left.now)) }
    ensures said { IfOk result (λ changes. changes.said.items ≡ left_said (review_in review.now)
        unmet.entry.all unmet.entry.devices (map change_shown unmet.entry.left.now)) }
    ensures differ { IfOk result (λ changes. changes.differ ≡ told.differ) }
{
    let Told { mut text, differ } = told;
    let mut said = Vec::new(alloc);
    if review.json {
        text.extend_from_slice(&left_json(alloc, review.verbose, unmet.all, unmet.left)?)?;
    } else {
        said = left_text(alloc, review.verbose, unmet)?;
    }
    Ok(Changes { text, said, differ })
}

/// What changed for devices, and what they don't meet of these changes of assignments.
fn compared_for(
    alloc: Global,
    review: &ReviewArgs,
    changes: &[Pair<'_, '_>],
    sides: Sides<'_, '_>,
    devices: &[&[u8]],
) -> Result<Changes, AllocError>
    requires { map change_shown changes.now
        ≡ assigned_changes (review_in review.now) sides.old.now sides.new.now }
    ensures text { IfOk result (λ made. made.text.items ≡ comparison_form (review_in review.now)
        (Some (map (λ d. d.now) devices.now)) sides.entry.old.now sides.entry.new.now) }
    ensures said { IfOk result (λ made. made.said.items ≡ comparison_said (review_in review.now)
        (Some (map (λ d. d.now) devices.now)) sides.entry.old.now sides.entry.new.now) }
    ensures differ { IfOk result (λ made. made.differ ≡ has_changed (review_in review.now)
        (Some (map (λ d. d.now) devices.now)) sides.entry.old.now sides.entry.new.now) }
{
    let told = told_of_devices(alloc, review, sides, devices)?;
    let left = unmet_changes(alloc, changes, sides, devices)?;
    let unmet = Unmet {
        all: changes.len(),
        devices: devices.len(),
        left: &left,
    };
    with_unmet(alloc, review, told, unmet)
}

/// What changed of assignments.
fn compared_all(
    alloc: Global,
    review: &ReviewArgs,
    changes: &[Pair<'_, '_>],
) -> Result<Changes, AllocError>
    ensures text { IfOk result (λ made.
        made.text.items ≡ assigned_text (review_in review.now) (map change_shown changes.now)) }
    ensures said { IfOk result (λ made. made.said.items ≡ []) }
    ensures differ { IfOk result
        (λ made. made.differ ≡ are_some (map change_shown changes.now)) }
{
    let text = told_of_changes(alloc, review, changes)?;
    Ok(Changes {
        text,
        said: Vec::new(alloc),
        differ: are_any(changes),
    })
}

/// The changes that count from one database to another.
fn changes_between<'a>(
    alloc: Global,
    review: &ReviewArgs,
    sides: Sides<'_, 'a>,
) -> Result<Vec<Held<'a>>, AllocError>
    requires old { IsTree sides.old.now }
    requires new { IsTree sides.new.now }
    ensures { IfOk result (λ held. map held_shown held.items
        ≡ assigned_changes (review_in review.now) sides.entry.old.now sides.entry.new.now) }
{
    changes_met(alloc, review, sides.old.root(), sides.new.root())
}

/// What changed from one database to another, of all that they assign, or for devices.
fn compared(
    alloc: Global,
    review: &ReviewArgs,
    devices: Option<&[&[u8]]>,
    sides: Sides<'_, '_>,
) -> Result<Changes, AllocError>
    requires old { IsTree sides.old.now }
    requires new { IsTree sides.new.now }
    ensures text { IfOk result (λ made. made.text.items ≡ comparison_form (review_in review.now)
        (option_map (λ ds. map (λ d. d.now) ds.now) devices.entry)
        sides.entry.old.now sides.entry.new.now) }
    ensures said { IfOk result (λ made. made.said.items ≡ comparison_said (review_in review.now)
        (option_map (λ ds. map (λ d. d.now) ds.now) devices.entry)
        sides.entry.old.now sides.entry.new.now) }
    ensures differ { IfOk result (λ made. made.differ ≡ has_changed (review_in review.now)
        (option_map (λ ds. map (λ d. d.now) ds.now) devices.entry)
        sides.entry.old.now sides.entry.new.now) }
{
    let held = changes_between(alloc, review, sides)?;
    let changes = pairs_of(alloc, &held)?;
    match devices {
        Some(some) => compared_for(alloc, review, &changes, sides, some),
        None => compared_all(alloc, review, &changes),
    }
}

/// What is said of undecided patterns, for each output: as JSON it is the last line of the first.
fn with_undecided(
    alloc: Global,
    json: bool,
    told: Told,
    patterns: &[&[u8]],
) -> Result<Changes, AllocError>
    ensures text { IfOk result (λ changes. changes.text.items ≡ told.text.items
        ++ samples_end json (map (λ t. t.now) patterns.now)) }
    ensures said { IfOk result (λ changes.
        changes.said.items ≡ undecided_said json (map (λ t. t.now) patterns.now)) }
    ensures differ { IfOk result (λ changes. changes.differ ≡ told.differ) }
{
    let Told { mut text, differ } = told;
    let mut said = Vec::new(alloc);
    if json {
        text.extend_from_slice(&undecided_json(alloc, patterns)?)?;
    } else {
        said = undecided_text(alloc, patterns)?;
    }
    Ok(Changes { text, said, differ })
}

/// What changed for devices made of patterns, which show that it did.
fn compared_by_samples(
    alloc: Global,
    review: &ReviewArgs,
    sides: Sides<'_, '_>,
) -> Result<Changes, AllocError>
    ensures text { IfOk result (λ made. made.text.items ≡ samples_form (review_in review.now)
        sides.entry.old.now sides.entry.new.now) }
    ensures said { IfOk result (λ made. made.said.items ≡ samples_said (review_in review.now)
        sides.entry.old.now sides.entry.new.now) }
    ensures differ { IfOk result (λ made. made.differ ≡ samples_differ (review_in review.now)
        sides.entry.old.now sides.entry.new.now) }
{
    let found = sampled_between(alloc, sides)?;
    let devices = in_order(alloc, &found.devices)?;
    let undecided = in_order(alloc, &found.undecided)?;
    let told = told_of_devices(alloc, review, sides, &devices)?;
    with_undecided(alloc, review.json, told, &undecided)
}

/// The old database.
fn check_old(old: &[u8]) -> Result<Db<'_>, DiffError>
    ensures accepted { IfOk result (λ db. IsDatabase old.now db) }
    ensures refused { (new : List ℕ) → IfErr result (IsDiffRefusal old.now new) }
{
    match check(old) {
        Ok(db) => Ok(db),
        Err(fault) => Err(DiffError::Old(fault)),
    }
}

/// The new database.
fn check_new(new: &[u8]) -> Result<Db<'_>, DiffError>
    ensures accepted { IfOk result (λ db. IsDatabase new.now db) }
    ensures refused { (old : List ℕ) (t : Tree) → IsDatabase old t
        → IfErr result (IsDiffRefusal old new.now) }
{
    match check(new) {
        Ok(db) => Ok(db),
        Err(fault) => Err(DiffError::New(fault)),
    }
}

/// Checks the bytes of both, and says what came, went and changed from the old database to the new one, as `review` asks for it. That is
/// each pattern and key for which the two differ, by pattern and then by key, or how many there are. Of devices it is what changed in
/// what each of them gets, in their order, and what none of them meets. Over the databases of an old and a new state of two folders
/// the changes are what their files differ in.
///
/// The memory is the changes and the lines, and for each database the nodes of one path. Each is walked once. Devices add four descents
/// for each, and the answers of one.
pub fn diff(
    alloc: Global,
    review: &ReviewArgs,
    devices: Option<&[&[u8]]>,
    old: &[u8],
    new: &[u8],
) -> Result<Changes, DiffError>
    ensures text { IfOk result (λ made. IsDiffText (comparison_form (review_in review.now)
        (option_map (λ ds. map (λ d. d.now) ds.now) devices.entry))
        old.now new.now made.text.items) }
    ensures said { IfOk result (λ made. IsDiffText (comparison_said (review_in review.now)
        (option_map (λ ds. map (λ d. d.now) ds.now) devices.entry))
        old.now new.now made.said.items) }
    ensures differ { IfOk result (λ made. IsDifferent (has_changed (review_in review.now)
        (option_map (λ ds. map (λ d. d.now) ds.now) devices.entry))
        old.now new.now made.differ) }
    ensures headline { IfOk result (λ made. (old_etc old_usr new_etc new_usr : List Source)
        → devices.entry ≡ None → review.now.stat ≡ false
        → IsCompiled old_etc old_usr old.now → IsCompiled new_etc new_usr new.now
        → made.text.items
        ≡ files_diff_form (review_in review.now) old_etc old_usr new_etc new_usr) }
    ensures errors { IfErr result (IsDiffRefusal old.now new.now) }
{
    law_one_tree();
    law_ascending();
    let before = check_old(old)?;
    let after = check_new(new)?;
    let sides = Sides {
        old: &before,
        new: &after,
    };
    Ok(compared(alloc, review, devices, sides)?)
}

/// Checks the bytes of both, and says what changed for devices that are made of the patterns of both, ascending: each of them gets
/// something else from the new database. And of which patterns it isn't known whether they match such a device. If there is neither,
/// and no option leaves a change out, the new database gives each device what the old one does.
///
/// The memory is all that both assign, with their patterns.
pub fn diff_samples(
    alloc: Global,
    review: &ReviewArgs,
    old: &[u8],
    new: &[u8],
) -> Result<Changes, DiffError>
    ensures text { IfOk result (λ made.
        IsDiffText (samples_form (review_in review.now)) old.now new.now made.text.items) }
    ensures said { IfOk result (λ made.
        IsDiffText (samples_said (review_in review.now)) old.now new.now made.said.items) }
    ensures differ { IfOk result (λ made.
        IsDifferent (samples_differ (review_in review.now)) old.now new.now made.differ) }
    ensures complete { IfOk result (λ made. (t u : Tree) → IsDatabase old.now t
        → IsDatabase new.now u → LeavesNoneOut (review_in review.now)
        → made.differ ≡ false → undecided_patterns t u ≡ []
        → (device : List ℕ) → GiveSame t u device) }
    ensures errors { IfErr result (IsDiffRefusal old.now new.now) }
{
    law_one_tree();
    law_ascending();
    samples_are_complete();
    let before = check_old(old)?;
    let after = check_new(new)?;
    let sides = Sides {
        old: &before,
        new: &after,
    };
    Ok(compared_by_samples(alloc, review, sides)?)
}

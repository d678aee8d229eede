//! `device`: what udev asks for a device, and what that gets; or a line for each device. Nothing is written.
ghost use Rattle.std.specs.Prelude.{◌≡◌, ◌++◌, [], Some, option_map, IfErr, IfOk, OnOk};
ghost use Rattle.std.specs.Option.{option_map_or};
ghost use Rattle.hwdb_spec.specs.Lines.{is, pieces};
ghost use Rattle.hwdb_spec_commands.specs.Databases.{IsTextOf};
ghost use Rattle.hwdb_spec_commands.specs.DeviceAsked as spec;
ghost use Rattle.hwdb_spec_commands.specs.DeviceAsked.{device_list, link_row, unread_row};
ghost use Rattle.hwdb_spec_commands.specs.DeviceTexts as texts;
ghost use Rattle.hwdb_spec_commands.specs.DeviceTree as tree;
ghost use Rattle.hwdb_spec_commands.specs.SysfsAnswers.{sight_by};
ghost use Rattle.hwdb_sysfs.specs.Views.{device_of};
ghost use Rattle.hwdb_spec_commands.specs.DatabaseErrors.{IsDatabaseRefusal};
ghost use Rattle.hwdb_spec_program.specs.DeviceErrors.{asked_names};
ghost use Rattle.hwdb_plan.specs.Asking.{asked};
ghost use Rattle.hwdb_plan.specs.Device as plan;
ghost use Rattle.hwdb_plan.specs.Sysfs.{OfCause};
ghost use Rattle.hwdb_plan.specs.Plans.{Follows};
ghost use Rattle.hwdb_tool.specs.Views.{end_of};

use crate::answer::Answer;
use crate::databases::{asked, refused_database};
use crate::every_device::strings_shown;
use crate::missing::{for_rules, place_meant, sysfs_of};
use crate::rules_device::{by_own, by_own_first};
use hwdb_answers::ToolError;
use hwdb_device::{DeviceForm, device_row, device_text};
use hwdb_reader::check;
use hwdb_spec_rules::Whose;
use hwdb_sysfs::{
    Device, DeviceFiles, Sysfs, device_of_path, kernel_name, list_links, read_device,
    unread_of_path,
};
use hwdb_system::{Machine, Refusal, System};
use std::alloc::{AllocError, Global};

/// Which form is printed: of several options `--pattern` counts first, and then `--json`.
pub fn device_form(strings: bool, json: bool, pattern: bool) -> DeviceForm
    ensures { result ≡ spec.device_form strings json pattern }
{
    if pattern {
        DeviceForm::Pattern
    } else if json {
        DeviceForm::Json
    } else if strings {
        DeviceForm::Strings
    } else {
        DeviceForm::Lookups
    }
}

/// What udev asks for the device that a path or a name means below the root, by the rules that count, and what the database there gives
/// it. If none is given, a line for each device that something is asked for. The status is 0.
pub fn device<D: Machine>(
    alloc: Global,
    root: &str,
    given: Option<&str>,
    whose: Whose,
    system: &D,
) -> Result<Answer, Refusal>
    ensures status { IfOk result (λ a. a.status ≡ 0) }
    ensures follows { D.Store.tells → OfCause (λ cause. Follows end_of
        (D.System.reads system.now) (plan.device_plan (sight_by D.answers system.now) cause
        asked_names root.now whose (option_map (λ t. t.now) given.entry)) result) }
{
    match given {
        None => listed(alloc, root, system),
        Some(given) => meant(alloc, root, given.as_bytes(), whose, system),
    }
}

/// If a system tells its files, it tells what sysfs shows.
pub(crate) fn devices_are_told<D: Machine>(_system: &D)
    ensures { D.Store.tells → D.DeviceFiles.tells }
{}

/// A line for each device below the root that something is asked for.
fn listed<D: Machine>(alloc: Global, root: &str, system: &D) -> Result<Answer, Refusal>
    ensures status { IfOk result (λ a. a.status ≡ 0) }
    ensures follows { D.Store.tells → OfCause (λ cause. Follows end_of
        (D.System.reads system.now)
        (plan.devices_plan (sight_by D.answers system.now) cause asked_names root.now) result) }
{
    devices_are_told(system);
    let sys = sysfs_of(alloc, root, system)?;
    let text = list_text(alloc, &sys, system)?;
    Ok(Answer::new(alloc, text, 0))
}

/// The lines of all devices.
pub(crate) fn list_text<F: DeviceFiles>(
    alloc: Global,
    sys: &[u8],
    files: &F,
) -> Result<Vec<u8>, AllocError>
    ensures { F.tells → IfOk result (λ text. text.items
        ≡ device_list (sight_by F.answers files.now) asked_names sys.now) }
{
    let links = list_links(alloc, files, sys)?;
    let mut text = Vec::new(alloc);
    for link in &links {
        push_row(alloc, sys, link, files, &mut text)?;
    }
    Ok(text)
}

/// Adds the line of what a link leads to.
fn push_row<F: DeviceFiles>(
    alloc: Global,
    sys: &[u8],
    link: &[u8],
    files: &F,
    text: &mut Vec<u8>,
) -> Result<(), AllocError>
    ensures { F.tells → OnOk result (text.new.items ≡ text.old.items
        ++ link_row (sight_by F.answers files.now) asked_names sys.now link.now) }
{
    match device_of_path(alloc, files, sys, link)? {
        Some(place) => push_device(alloc, sys, &place, files, text),
        None => push_unread(alloc, sys, link, files, text),
    }
}

/// Adds the line of what can't be read where a link leads.
fn push_unread<F: DeviceFiles>(
    alloc: Global,
    sys: &[u8],
    link: &[u8],
    files: &F,
    text: &mut Vec<u8>,
) -> Result<(), AllocError>
    ensures { F.tells → OnOk result (text.new.items ≡ text.old.items ++ option_map_or
        (unread_row link.now)
        (tree.unread_of_path (sight_by F.answers files.now) sys.now link.now) []) }
{
    match unread_of_path(alloc, files, sys, link)? {
        Some(unread) => push_unread_row(alloc, text, link, &unread.path),
        None => Ok(()),
    }
}

/// The same of this path.
fn push_unread_row(
    alloc: Global,
    text: &mut Vec<u8>,
    link: &[u8],
    path: &[u8],
) -> Result<(), AllocError>
    ensures { OnOk result
        (text.new.items ≡ text.old.items ++ unread_row link.now path.now) }
{
    let name = kernel_name(alloc, link)?;
    text.extend_from_slice(&name)?;
    text.extend_from_slice(b"  cannot read ")?;
    text.extend_from_slice(path)?;
    text.push(b'\n')?;
    Ok(())
}

/// Adds the line of the device at a place.
fn push_device<F: DeviceFiles>(
    alloc: Global,
    sys: &[u8],
    place: &[u8],
    files: &F,
    text: &mut Vec<u8>,
) -> Result<(), AllocError>
    ensures { F.tells → OnOk result (text.new.items ≡ text.old.items ++ texts.device_row
        (tree.device_at (sight_by F.answers files.now) asked_names sys.now place.now)) }
{
    let device = read_device(alloc, &for_rules(files, sys), place)?;
    let row = device_row(alloc, &device)?;
    text.extend_from_slice(&row)?;
    Ok(())
}

/// Where devices are looked for, and who looks.
#[derive(Drop)]
pub struct Below<'b, D> {
    /// The folder in whose place `/` stands.
    pub root: &'b str,
    /// Where sysfs is.
    pub sys: &'b [u8],
    /// The system.
    pub system: &'b D,
}

/// What is printed of the device that is meant, by the rules that count.
pub(crate) fn meant<D: Machine>(
    alloc: Global,
    root: &str,
    given: &[u8],
    whose: Whose,
    system: &D,
) -> Result<Answer, Refusal>
    ensures status { IfOk result (λ a. a.status ≡ 0) }
    ensures follows { D.Store.tells → OfCause (λ cause. Follows end_of
        (D.System.reads system.now) (plan.meant_plan (sight_by D.answers system.now) cause
        asked_names root.now given.now whose) result) }
{
    devices_are_told(system);
    let sys = sysfs_of(alloc, root, system)?;
    let place = place_meant(alloc, root, &sys, given, system)?;
    let below = Below {
        root,
        sys: &sys,
        system,
    };
    by_rules(alloc, &below, Some(&place), whose)
}

/// The same of the device at a place, or without a place of all devices.
pub(crate) fn by_rules<D: Machine>(
    alloc: Global,
    below: &Below<'_, D>,
    place: Option<&[u8]>,
    whose: Whose,
) -> Result<Answer, Refusal>
    ensures status { IfOk result (λ a. a.status ≡ 0) }
    ensures follows { D.Store.tells → Follows end_of (D.System.reads below.now.system.now)
        (plan.by_rules (sight_by D.answers below.now.system.now) asked_names below.now.root.now
        whose below.now.sys.now (option_map (λ p. p.now) place.entry)) result }
{
    match whose {
        Whose::Own(form) => by_own(alloc, below, place, form),
        Whose::OwnFirst(form) => by_own_first(alloc, below, place, form),
        Whose::BuiltIn(form) => by_built_in(alloc, below, place, form),
    }
}

/// The same by the rules that are built in.
pub(crate) fn by_built_in<D: Machine>(
    alloc: Global,
    below: &Below<'_, D>,
    place: Option<&[u8]>,
    form: DeviceForm,
) -> Result<Answer, Refusal>
    ensures status { IfOk result (λ a. a.status ≡ 0) }
    ensures follows { D.Store.tells → Follows end_of (D.System.reads below.now.system.now)
        (plan.by_built_in (sight_by D.answers below.now.system.now) asked_names
        below.now.root.now form below.now.sys.now (option_map (λ p. p.now) place.entry)) result }
{
    let sysfs = for_rules(below.system, below.sys);
    match place {
        Some(place) => device_shown(alloc, below.root, &sysfs, place, form),
        None => strings_shown(alloc, below.root, &sysfs, None),
    }
}

/// The same of one device.
fn device_shown<D: Machine>(
    alloc: Global,
    root: &str,
    sysfs: &Sysfs<'_, D>,
    place: &[u8],
    form: DeviceForm,
) -> Result<Answer, Refusal>
    ensures status { IfOk result (λ a. a.status ≡ 0) }
    ensures follows { D.Store.tells → Follows end_of (D.System.reads sysfs.now.files.now)
        (asked root.now (plan.device_answer form (tree.device_at
        (sight_by D.answers sysfs.now.files.now) (pieces (is 10) sysfs.now.names.now)
        sysfs.now.folder.now place.now))) result }
{
    devices_are_told(sysfs.files);
    let device = read_device(alloc, sysfs, place)?;
    answered(alloc, root, &device, form, sysfs.files)
}

/// What is printed of a device, over the database below the root.
fn answered<D: System>(
    alloc: Global,
    root: &str,
    device: &Device,
    form: DeviceForm,
    system: &D,
) -> Result<Answer, Refusal>
    ensures status { IfOk result (λ a. a.status ≡ 0) }
    ensures follows { D.Store.tells → Follows end_of (D.System.reads system.now)
        (asked root.now (plan.device_answer form (device_of device.now))) result }
{
    let found = asked(alloc, root, system)?;
    match text_over(alloc, &found.bytes, device, form) {
        Ok(text) => Ok(Answer::new(alloc, text, 0)),
        Err(error) => Err(refused_database(alloc, error, found.path.as_bytes())),
    }
}

/// The same over the bytes of a database.
pub(crate) fn text_over(
    alloc: Global,
    bytes: &[u8],
    device: &Device,
    form: DeviceForm,
) -> Result<Vec<u8>, ToolError>
    ensures text { IfOk result (λ text. IsTextOf
        (texts.device_text form (device_of device.now)) bytes.now text.items) }
    ensures refusals { IfErr result (IsDatabaseRefusal bytes.now) }
{
    let db = check(bytes)?;
    Ok(device_text(alloc, &db, device, form)?)
}

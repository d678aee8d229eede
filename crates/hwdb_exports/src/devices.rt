//! What each device of an export stands for.
ghost use Rattle.std.specs.Prelude.{◌≡◌, ◌++◌, ◌∷◌, [], IfOk, None, OnOk, Some, drop, filter_map, flat_map, if◌then◌else◌, map, option_map};
ghost use Rattle.std.specs.Option.{option_map_or};
ghost use Rattle.hwdb_spec_commands.specs.Exports as spec;
ghost use Rattle.hwdb_exports.specs.Internal.{links, of_driver, of_subsystem, own_spots};
ghost use Rattle.hwdb_exports.specs.Views.{AreListed, AreSet, exported};

use crate::lines::{after, begins_device, own_lines, said_after};
use crate::names::put_name;
use crate::rules::{rule_of, told_by};
use crate::spots::{Spot, joined, path_in, put_file, put_link};
use hwdb_spec_commands::EXPORTED;
use hwdb_sysfs::last_name;
use hwdb_text::Lines;
use std::alloc::{AllocError, Global};
use std::collections::BTreeMap;

/// A device of an export.
#[derive(Clone, Copy)]
pub(crate) struct Exported<'l, 'b> {
    /// Its path below sysfs.
    pub path: &'b [u8],
    /// The lines after that one.
    pub lines: &'l [&'b [u8]],
}

/// A line of the file `uevent`, if an export has it.
fn push_line(text: &mut Vec<u8>, start: &[u8], value: Option<&[u8]>) -> Result<(), AllocError>
    ensures { OnOk result (text.new.items ≡ text.old.items ++ option_map_or
        (λ v. start.now ++ v ++ 10 ∷ []) (option_map (λ t. t.now) value.entry) []) }
{
    if let Some(value) = value {
        text.extend_from_slice(start)?;
        text.extend_from_slice(value)?;
        text.push(b'\n')?;
    }
    Ok(())
}

/// The lines of the file `uevent` that rules read.
fn uevent_of(alloc: Global, lines: &[&[u8]]) -> Result<Vec<u8>, AllocError>
    ensures { IfOk result (λ text. text.items
        ≡ spec.exported_uevent (map (λ l. l.now) lines.now)) }
{
    let mut text = Vec::new(alloc);
    push_line(&mut text, b"DEVTYPE=", said_after(b"E: DEVTYPE=", lines))?;
    push_line(&mut text, b"MODALIAS=", said_after(b"E: MODALIAS=", lines))?;
    Ok(text)
}

/// The folder of a subsystem.
fn subsystem_folder(alloc: Global, subsystem: &[u8]) -> Result<Vec<u8>, AllocError>
    ensures { IfOk result (λ path. path.items ≡ spec.subsystem_folder subsystem.now) }
{
    joined(alloc, b"/sys/class/", subsystem)
}

/// The links between a device's folder and that of its subsystem.
fn put_links(
    alloc: Global,
    spots: &mut BTreeMap<Vec<u8>, Spot>,
    folder: &[u8],
    class: &[u8],
    name: &[u8],
) -> Result<(), AllocError>
    ensures { OnOk result (AreSet (links folder.now class.now name.now) spots.old spots.new) }
{
    let own = path_in(alloc, folder, b"subsystem")?;
    put_link(alloc, spots, &own, class)?;
    let link = path_in(alloc, class, name)?;
    put_link(alloc, spots, &link, folder)?;
    let below = path_in(alloc, &link, b"modalias")?;
    let attribute = path_in(alloc, folder, b"modalias")?;
    put_link(alloc, spots, &below, &attribute)
}

/// The subsystem of a device.
fn put_subsystem(
    alloc: Global,
    spots: &mut BTreeMap<Vec<u8>, Spot>,
    path: &[u8],
    subsystem: &[u8],
) -> Result<(), AllocError>
    ensures { OnOk result
        (AreSet (spec.subsystem_spots path.now subsystem.now) spots.old spots.new) }
{
    put_link(alloc, spots, b"/sys/class", b"/sys/class")?;
    let class = subsystem_folder(alloc, subsystem)?;
    put_link(alloc, spots, &class, &class)?;
    let folder = joined(alloc, b"/sys", path)?;
    put_links(alloc, spots, &folder, &class, last_name(path))
}

/// The driver of a device.
fn put_driver(
    alloc: Global,
    spots: &mut BTreeMap<Vec<u8>, Spot>,
    path: &[u8],
    driver: &[u8],
) -> Result<(), AllocError>
    ensures { OnOk result (AreSet (spec.driver_spots path.now driver.now) spots.old spots.new) }
{
    let folder = joined(alloc, b"/sys", path)?;
    let link = path_in(alloc, &folder, b"driver")?;
    let place = joined(alloc, b"/sys/bus/drivers/", driver)?;
    put_link(alloc, spots, &link, &place)
}

/// The file of an attribute, if the device tells it.
fn put_attribute(
    alloc: Global,
    spots: &mut BTreeMap<Vec<u8>, Spot>,
    device: &Exported<'_, '_>,
    rule: &[u8],
) -> Result<(), AllocError>
    ensures { OnOk result (AreSet (filter_map (spec.attribute_spot (exported device.now).path
        (exported device.now).lines) (rule.now ∷ [])) spots.old spots.new) }
{
    let rule = rule_of(rule);
    if let Some(text) = told_by(alloc, &rule, device.lines)? {
        let folder = joined(alloc, b"/sys", device.path)?;
        let path = path_in(alloc, &folder, rule.name)?;
        put_file(alloc, spots, &path, text)?;
    }
    Ok(())
}

/// The files of all attributes that the device tells.
fn put_attributes(
    alloc: Global,
    spots: &mut BTreeMap<Vec<u8>, Spot>,
    device: &Exported<'_, '_>,
) -> Result<(), AllocError>
    ensures { OnOk result (AreSet (filter_map (spec.attribute_spot (exported device.now).path
        (exported device.now).lines) spec.export_rules) spots.old spots.new) }
{
    for rule in Lines::new(EXPORTED.as_bytes()) {
        put_attribute(alloc, spots, device, rule)?;
    }
    Ok(())
}

/// The folder of a device, and its file `uevent`.
fn put_folder(
    alloc: Global,
    spots: &mut BTreeMap<Vec<u8>, Spot>,
    device: &Exported<'_, '_>,
) -> Result<(), AllocError>
    ensures { OnOk result (AreSet (own_spots (exported device.now)) spots.old spots.new) }
{
    let folder = joined(alloc, b"/sys", device.path)?;
    put_link(alloc, spots, &folder, &folder)?;
    let path = path_in(alloc, &folder, b"uevent")?;
    let text = uevent_of(alloc, device.lines)?;
    put_file(alloc, spots, &path, text)
}

/// The subsystem of a device, if it has one.
fn put_own_subsystem(
    alloc: Global,
    spots: &mut BTreeMap<Vec<u8>, Spot>,
    device: &Exported<'_, '_>,
) -> Result<(), AllocError>
    ensures { OnOk result (AreSet (of_subsystem (exported device.now)) spots.old spots.new) }
{
    match said_after(b"E: SUBSYSTEM=", device.lines) {
        Some(subsystem) => put_subsystem(alloc, spots, device.path, subsystem),
        None => Ok(()),
    }
}

/// The driver of a device, if it has one.
fn put_own_driver(
    alloc: Global,
    spots: &mut BTreeMap<Vec<u8>, Spot>,
    device: &Exported<'_, '_>,
) -> Result<(), AllocError>
    ensures { OnOk result (AreSet (of_driver (exported device.now)) spots.old spots.new) }
{
    match said_after(b"E: DRIVER=", device.lines) {
        Some(driver) => put_driver(alloc, spots, device.path, driver),
        None => Ok(()),
    }
}

/// What a device stands for.
fn put_device(
    alloc: Global,
    spots: &mut BTreeMap<Vec<u8>, Spot>,
    device: &Exported<'_, '_>,
) -> Result<(), AllocError>
    ensures { OnOk result (AreSet (spec.spots_of (exported device.now)) spots.old spots.new) }
{
    put_folder(alloc, spots, device)?;
    put_own_subsystem(alloc, spots, device)?;
    put_own_driver(alloc, spots, device)?;
    put_attributes(alloc, spots, device)
}

/// The names of a device and of its subsystem.
fn put_names(
    alloc: Global,
    names: &mut BTreeMap<Vec<u8>, Vec<u8>>,
    device: &Exported<'_, '_>,
) -> Result<(), AllocError>
    ensures { OnOk result (AreListed (spec.entries_of (exported device.now)) names.old names.new) }
{
    if let Some(subsystem) = said_after(b"E: SUBSYSTEM=", device.lines) {
        put_name(alloc, names, b"/sys/class", subsystem)?;
        let class = subsystem_folder(alloc, subsystem)?;
        put_name(alloc, names, &class, last_name(device.path))?;
    }
    Ok(())
}

/// What a device stands for, and its names.
fn put_both(
    alloc: Global,
    device: &Exported<'_, '_>,
    spots: &mut BTreeMap<Vec<u8>, Spot>,
    names: &mut BTreeMap<Vec<u8>, Vec<u8>>,
) -> Result<(), AllocError>
    ensures spots { OnOk result
        (AreSet (spec.spots_of (exported device.now)) spots.old spots.new) }
    ensures names { OnOk result
        (AreListed (spec.entries_of (exported device.now)) names.old names.new) }
{
    put_device(alloc, spots, device)?;
    put_names(alloc, names, device)
}

/// The device that begins with a line, before these lines.
fn device_at<'l, 'b>(line: &'b [u8], rest: &'l [&'b [u8]]) -> Option<Exported<'l, 'b>>
    ensures { option_map exported result ≡ (if spec.begins_device line.now then Some (record {
      path = drop 3 line.now;
      lines = spec.own_lines (map (λ l. l.now) rest.now);
    }) else None) }
{
    if begins_device(line) {
        Some(Exported {
            path: after(line, 3),
            lines: own_lines(rest),
        })
    } else {
        None
    }
}

/// What the devices of some lines stand for, and their names.
#[tactic(auto, unfolding(hwdb_spec_commands::specs::Exports::devices_in))]
pub(crate) fn put_devices(
    alloc: Global,
    lines: &[&[u8]],
    spots: &mut BTreeMap<Vec<u8>, Spot>,
    names: &mut BTreeMap<Vec<u8>, Vec<u8>>,
) -> Result<(), AllocError>
    ensures spots { OnOk result (AreSet (flat_map spec.spots_of
        (spec.devices_in (map (λ l. l.now) lines.now))) spots.old spots.new) }
    ensures names { OnOk result (AreListed (flat_map spec.entries_of
        (spec.devices_in (map (λ l. l.now) lines.now))) names.old names.new) }
{
    let mut at = 0;
    'lines: while at < lines.len() {
        let line = lines[at];
        at += 1;
        if let Some(device) = device_at(line, &lines[at..]) {
            put_both(alloc, &device, spots, names)?;
        }
    }
    Ok(())
}

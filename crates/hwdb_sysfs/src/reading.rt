//! A device and its parents, as sysfs has them.
ghost use Rattle.std.specs.Prelude.{◌≡◌, ◌++◌, ◌∷◌, [], ◌<◌, codes, IfOk, OnOk, filter_map, length, map, option_map, reverse};
ghost use Rattle.std.specs.List.{cons_option};
ghost use Rattle.std.specs.Option.{unwrap_or};
ghost use Rattle.hwdb_spec_commands.specs.DeviceTree as tree;
ghost use Rattle.hwdb_spec.specs.Store as store;
ghost use Rattle.hwdb_spec.specs.Lines.{is, pieces};
ghost use Rattle.hwdb_spec_commands.specs.SysfsAnswers.{seen};
ghost use Rattle.hwdb_sysfs.specs.Internal.{folder_before};
ghost use Rattle.hwdb_sysfs.specs.Views.{ancestor_of, attribute_of, device_of};

use crate::answers::{place_of, text_of, uevent_of};
use crate::device::{Ancestor, Attribute, Device};
use crate::files::DeviceFiles;
use crate::paths::{below, is_below_devices, joined, kernel_name, last_name, path_in};
use hwdb_text::Lines;
use std::alloc::{AllocError, Global};

/// Sysfs, as it is read.
#[derive(Drop)]
pub struct Sysfs<'s, F: DeviceFiles> {
    /// The system's files.
    pub files: &'s F,
    /// Which attributes of a device are read: a name a line.
    pub names: &'s [u8],
    /// Its folder.
    pub folder: &'s [u8],
}

/// What the firmware says of the machine, below sysfs.
const MACHINE: &[u8] = b"/class/dmi/id/modalias";

/// The last name of what a path leads to; empty if it leads nowhere.
fn target_name<F: DeviceFiles>(alloc: Global, files: &F, path: &[u8]) -> Result<Vec<u8>, AllocError>
    ensures { F.tells → IfOk result (λ name. name.items
        ≡ tree.target_name (seen (F.answers files.now)) path.now) }
{
    match place_of(alloc, files, path)? {
        Some(place) => Vec::from_slice(alloc, last_name(&place)),
        None => Ok(Vec::new(alloc)),
    }
}

/// The last name of what a device's link leads to; empty without such a link.
fn link_name<F: DeviceFiles>(
    alloc: Global,
    files: &F,
    folder: &[u8],
    link: &[u8],
) -> Result<Vec<u8>, AllocError>
    ensures { F.tells → IfOk result (λ name. name.items
        ≡ tree.target_name (seen (F.answers files.now)) (store.path_in folder.now link.now)) }
{
    let path = path_in(alloc, folder, link)?;
    target_name(alloc, files, &path)
}

/// An attribute of a device, if it can be read.
fn attribute_at<F: DeviceFiles>(
    alloc: Global,
    files: &F,
    folder: &[u8],
    name: &[u8],
) -> Result<Option<Attribute>, AllocError>
    ensures { F.tells → IfOk result (λ found. option_map attribute_of found
        ≡ tree.attribute_at (seen (F.answers files.now)) folder.now name.now) }
{
    let path = path_in(alloc, folder, name)?;
    match text_of(alloc, files, &path)? {
        Some(value) => Ok(Some(Attribute {
            name: Vec::from_slice(alloc, name)?,
            value,
        })),
        None => Ok(None),
    }
}

/// Adds an attribute of a device, if it can be read.
fn push_attribute<F: DeviceFiles>(
    alloc: Global,
    files: &F,
    folder: &[u8],
    name: &[u8],
    attributes: &mut Vec<Attribute>,
) -> Result<(), AllocError>
    ensures { F.tells → OnOk result (map attribute_of attributes.new.items
        ≡ map attribute_of attributes.old.items
        ++ cons_option (tree.attribute_at (seen (F.answers files.now)) folder.now name.now) []) }
{
    if let Some(attribute) = attribute_at(alloc, files, folder, name)? {
        attributes.push(attribute)?;
    }
    Ok(())
}

/// Those of the named attributes that can be read. A name is a line of `names`.
#[tactic(auto, unfolding(hwdb_spec::specs::Lines::pieces))]
fn attributes_at<F: DeviceFiles>(
    alloc: Global,
    files: &F,
    folder: &[u8],
    names: &[u8],
) -> Result<Vec<Attribute>, AllocError>
    ensures { F.tells → IfOk result (λ v. map attribute_of v.items
        ≡ filter_map (tree.attribute_at (seen (F.answers files.now)) folder.now)
        (pieces (is 10) names.now)) }
{
    let mut attributes = Vec::new(alloc);
    for name in Lines::new(names) {
        push_attribute(alloc, files, folder, name, &mut attributes)?;
    }
    Ok(attributes)
}

/// The device of a folder, whose file `uevent` was read.
fn ancestor_with<F: DeviceFiles>(
    alloc: Global,
    sysfs: &Sysfs<'_, F>,
    folder: &[u8],
    uevent: Vec<u8>,
) -> Result<Ancestor, AllocError>
    ensures { F.tells → IfOk result (λ a. ancestor_of a
        ≡ tree.ancestor_with (seen (F.answers sysfs.now.files.now))
        (pieces (is 10) sysfs.now.names.now) sysfs.now.folder.now folder.now uevent.items) }
{
    Ok(Ancestor {
        path: Vec::from_slice(alloc, below(sysfs.folder, folder))?,
        name: kernel_name(alloc, folder)?,
        subsystem: link_name(alloc, sysfs.files, folder, b"subsystem")?,
        driver: link_name(alloc, sysfs.files, folder, b"driver")?,
        uevent,
        attributes: attributes_at(alloc, sysfs.files, folder, sysfs.names)?,
    })
}

/// The device of a folder, if it is one's.
fn ancestor_at<F: DeviceFiles>(
    alloc: Global,
    sysfs: &Sysfs<'_, F>,
    folder: &[u8],
) -> Result<Option<Ancestor>, AllocError>
    ensures { F.tells → IfOk result (λ found. option_map ancestor_of found
        ≡ tree.ancestor_at (seen (F.answers sysfs.now.files.now))
        (pieces (is 10) sysfs.now.names.now) sysfs.now.folder.now folder.now) }
{
    match uevent_of(alloc, sysfs.files, folder)? {
        Some(uevent) => Ok(Some(ancestor_with(alloc, sysfs, folder, uevent)?)),
        None => Ok(None),
    }
}

/// The device of a folder, if it is one's and below sysfs's folder of devices.
fn ancestor_below<F: DeviceFiles>(
    alloc: Global,
    sysfs: &Sysfs<'_, F>,
    folder: &[u8],
) -> Result<Option<Ancestor>, AllocError>
    ensures { F.tells → IfOk result (λ found. option_map ancestor_of found
        ≡ tree.ancestor_below (seen (F.answers sysfs.now.files.now))
        (pieces (is 10) sysfs.now.names.now) sysfs.now.folder.now folder.now) }
{
    if is_below_devices(sysfs.folder, folder) {
        ancestor_at(alloc, sysfs, folder)
    } else {
        Ok(None)
    }
}

/// Adds the device of a folder, if it is one's.
fn push_ancestor<F: DeviceFiles>(
    alloc: Global,
    sysfs: &Sysfs<'_, F>,
    folder: &[u8],
    chain: &mut Vec<Ancestor>,
) -> Result<(), AllocError>
    ensures { F.tells → OnOk result (map ancestor_of chain.new.items
        ≡ map ancestor_of chain.old.items
        ++ cons_option (tree.ancestor_below (seen (F.answers sysfs.now.files.now))
        (pieces (is 10) sysfs.now.names.now) sysfs.now.folder.now folder.now) []) }
{
    if let Some(ancestor) = ancestor_below(alloc, sysfs, folder)? {
        chain.push(ancestor)?;
    }
    Ok(())
}

/// Adds the device of the folder that ends at a place of a path, if a slash is there.
fn push_above<F: DeviceFiles>(
    alloc: Global,
    sysfs: &Sysfs<'_, F>,
    path: &[u8],
    end: usize,
    chain: &mut Vec<Ancestor>,
) -> Result<(), AllocError>
    requires { end < length path.now }
    ensures { F.tells → OnOk result (map ancestor_of chain.new.items
        ≡ map ancestor_of chain.old.items
        ++ filter_map (tree.ancestor_below (seen (F.answers sysfs.now.files.now))
        (pieces (is 10) sysfs.now.names.now) sysfs.now.folder.now) (folder_before path.now end)) }
{
    if path[end] != b'/' {
        return Ok(());
    }
    push_ancestor(alloc, sysfs, &path[..end], chain)
}

/// A device and its parents, the nearest first.
fn chain_at<F: DeviceFiles>(
    alloc: Global,
    sysfs: &Sysfs<'_, F>,
    place: &[u8],
) -> Result<Vec<Ancestor>, AllocError>
    ensures { F.tells → IfOk result (λ chain. map ancestor_of chain.items
        ≡ filter_map (tree.ancestor_below (seen (F.answers sysfs.now.files.now))
        (pieces (is 10) sysfs.now.names.now) sysfs.now.folder.now)
        (place.now ∷ tree.above (reverse place.now))) }
{
    let mut chain = Vec::new(alloc);
    push_ancestor(alloc, sysfs, place, &mut chain)?;
    let mut end = place.len();
    'bytes: while end > 0 {
        end -= 1;
        push_above(alloc, sysfs, place, end, &mut chain)?;
    }
    Ok(chain)
}

/// What the firmware says of the machine; empty if it says nothing.
fn machine_of<F: DeviceFiles>(alloc: Global, files: &F, sys: &[u8]) -> Result<Vec<u8>, AllocError>
    ensures { F.tells → IfOk result (λ machine. machine.items
        ≡ unwrap_or (tree.text_of (seen (F.answers files.now))
        (sys.now ++ codes "/class/dmi/id/modalias")) []) }
{
    let path = joined(alloc, sys, MACHINE)?;
    match text_of(alloc, files, &path)? {
        Some(machine) => Ok(machine),
        None => Ok(Vec::new(alloc)),
    }
}

/// Reads a device and its parents, at a place below sysfs. What can't be read is left out, as if it weren't there.
///
/// The only error is want of memory. Reads as many small files as there are names, for each part of the path.
pub fn read_device<F: DeviceFiles>(
    alloc: Global,
    sysfs: &Sysfs<'_, F>,
    place: &[u8],
) -> Result<Device, AllocError>
    ensures { F.tells → IfOk result (λ device. device_of device
        ≡ tree.device_at (seen (F.answers sysfs.now.files.now))
        (pieces (is 10) sysfs.now.names.now) sysfs.now.folder.now place.now) }
{
    Ok(Device {
        chain: chain_at(alloc, sysfs, place)?,
        machine: machine_of(alloc, sysfs.files, sysfs.folder)?,
    })
}

//! The device that is meant by a path or a name.
ghost use Rattle.std.specs.Prelude.{ℕ, List, is_some, ◌≡◌, ◌++◌, ◌∷◌, [], None, Some, IfErr, IfOk, OnOk, codes, map, option_map, true};
ghost use Rattle.std.specs.Option.{option_map_or};
ghost use Rattle.hwdb_spec_commands.specs.DeviceTree as tree;
ghost use Rattle.hwdb_spec.specs.Lines.{byte, has};
ghost use Rattle.hwdb_spec.specs.Store as store;
ghost use Rattle.hwdb_spec_commands.specs.SysfsAnswers.{seen};
ghost use Rattle.hwdb_sysfs.specs.Finding.{IsMissing, IsNone, IsNoSysfs, IsUnfound, IsUnread, LeadsAstray};
ghost use Rattle.hwdb_sysfs.specs.Views.{node_of};
ghost use Rattle.hwdb_sysfs.specs.declared.finding.Unfound.TheVariants.{Memory};

use crate::answers::{node_at, place_of, uevent_of};
use crate::files::{DeviceFiles, DeviceNode};
use crate::names::names_in;
use crate::paths::{is_below_devices, joined, last_name, path_in};
use crate::unread::{UnreadPath, unread_of_path};
use hwdb_io::Cause;
use std::alloc::{AllocError, Global};

/// Why no device is found.
#[derive(Drop)]
pub enum Unfound {
    /// There was no memory.
    Memory,
    /// There is no sysfs: this path leads nowhere, for this cause.
    NoSysfs(Vec<u8>, Cause),
    /// What would tell whether a device is there can't be read: this path, for this cause.
    Untold(Vec<u8>, Cause),
    /// The path that was given leads nowhere, for this cause.
    Unread(Cause),
    /// Nothing has the name that was given, or what the path leads to is no device.
    NoDevice,
}

impl From<AllocError> for Unfound {
    ghost from_gives = { λ _ e. e ≡ Memory };

    fn from(_: AllocError) -> Unfound {
        Unfound::Memory
    }
}

/// The place of a folder of sysfs.
fn folder_at<F: DeviceFiles>(alloc: Global, files: &F, path: Vec<u8>) -> Result<Vec<u8>, Unfound>
    ensures found { F.tells → IfOk result (λ place.
        (seen (F.answers files.now)).place path.items ≡ Some place.items) }
    ensures unfound { F.tells → IfErr result (IsMissing (F.answers files.now) path.items) }
{
    match files.real_path(alloc, &path) {
        Ok(place) => Ok(place),
        Err(Cause::Memory) => Err(Unfound::Memory),
        Err(cause) => Err(Unfound::NoSysfs(path, cause)),
    }
}

/// Where sysfs is, below a root. Without its folder of devices it isn't there.
pub fn sysfs_below<F: DeviceFiles>(
    alloc: Global,
    files: &F,
    root: &[u8],
) -> Result<Vec<u8>, Unfound>
    ensures found { F.tells → IfOk result (λ sys.
        tree.sysfs_below (seen (F.answers files.now)) root.now ≡ Some sys.items) }
    ensures unfound { F.tells → IfErr result (IsNoSysfs (F.answers files.now) root.now) }
{
    let sys = folder_at(alloc, files, joined(alloc, root, b"/sys")?)?;
    folder_at(alloc, files, joined(alloc, &sys, b"/devices")?)?;
    Ok(sys)
}

/// A place, if a device is there.
fn device_at<F: DeviceFiles>(
    alloc: Global,
    files: &F,
    sys: &[u8],
    place: Vec<u8>,
) -> Result<Option<Vec<u8>>, AllocError>
    ensures { F.tells → IfOk result (λ found. option_map (λ p. p.items) found
        ≡ tree.device_of_place (seen (F.answers files.now)) sys.now place.items) }
{
    if !is_below_devices(sys, &place) {
        return Ok(None);
    }
    match uevent_of(alloc, files, &place)? {
        Some(_) => Ok(Some(place)),
        None => Ok(None),
    }
}

/// The place that a path leads to, if a device is there.
pub fn device_of_path<F: DeviceFiles>(
    alloc: Global,
    files: &F,
    sys: &[u8],
    path: &[u8],
) -> Result<Option<Vec<u8>>, AllocError>
    ensures { F.tells → IfOk result (λ found. option_map (λ p. p.items) found
        ≡ tree.device_of_path (seen (F.answers files.now)) sys.now path.now) }
{
    match place_of(alloc, files, path)? {
        Some(place) => device_at(alloc, files, sys, place),
        None => Ok(None),
    }
}

/// Adds the folder of each class.
fn push_classes<F: DeviceFiles>(
    alloc: Global,
    files: &F,
    sys: &[u8],
    folders: &mut Vec<Vec<u8>>,
) -> Result<(), AllocError>
    ensures { F.tells → OnOk result (map (λ p. p.items) folders.new.items
        ≡ map (λ p. p.items) folders.old.items
        ++ tree.class_folders (seen (F.answers files.now)) sys.now) }
{
    let classes = joined(alloc, sys, b"/class")?;
    let names = names_in(alloc, files, &classes)?;
    for class in &names {
        folders.push(path_in(alloc, &classes, class)?)?;
    }
    Ok(())
}

/// The folder of a bus's devices.
fn bus_folder(alloc: Global, buses: &[u8], bus: &[u8]) -> Result<Vec<u8>, AllocError>
    ensures { IfOk result (λ folder. folder.items
        ≡ store.path_in buses.now bus.now ++ codes "/devices") }
{
    let mut folder = path_in(alloc, buses, bus)?;
    folder.extend_from_slice(b"/devices")?;
    Ok(folder)
}

/// Adds the folder of each bus's devices.
fn push_buses<F: DeviceFiles>(
    alloc: Global,
    files: &F,
    sys: &[u8],
    folders: &mut Vec<Vec<u8>>,
) -> Result<(), AllocError>
    ensures { F.tells → OnOk result (map (λ p. p.items) folders.new.items
        ≡ map (λ p. p.items) folders.old.items
        ++ tree.bus_folders (seen (F.answers files.now)) sys.now) }
{
    let buses = joined(alloc, sys, b"/bus")?;
    let names = names_in(alloc, files, &buses)?;
    for bus in &names {
        folders.push(bus_folder(alloc, &buses, bus)?)?;
    }
    Ok(())
}

/// The folders with a link to each device of a class, or at a bus.
pub fn folders_with_links<F: DeviceFiles>(
    alloc: Global,
    files: &F,
    sys: &[u8],
) -> Result<Vec<Vec<u8>>, AllocError>
    ensures { F.tells → IfOk result (λ v. map (λ p. p.items) v.items
        ≡ tree.folders_with_links (seen (F.answers files.now)) sys.now) }
{
    let mut folders = Vec::new(alloc);
    push_classes(alloc, files, sys, &mut folders)?;
    push_buses(alloc, files, sys, &mut folders)?;
    Ok(folders)
}

/// Adds the paths of what has a name in a class or at a bus.
fn push_named<F: DeviceFiles>(
    alloc: Global,
    files: &F,
    sys: &[u8],
    name: &[u8],
    paths: &mut Vec<Vec<u8>>,
) -> Result<(), AllocError>
    ensures { F.tells → OnOk result (map (λ p. p.items) paths.new.items
        ≡ map (λ p. p.items) paths.old.items
        ++ tree.named (seen (F.answers files.now)) sys.now name.now) }
{
    let folders = folders_with_links(alloc, files, sys)?;
    for folder in &folders {
        paths.push(path_in(alloc, folder, name)?)?;
    }
    Ok(())
}

/// The first of some paths at which a device is.
#[tactic(auto, unfolding(hwdb_spec_commands::specs::DeviceTree::first_given))]
fn first_device<F: DeviceFiles>(
    alloc: Global,
    files: &F,
    sys: &[u8],
    paths: &[Vec<u8>],
) -> Result<Option<Vec<u8>>, AllocError>
    ensures { F.tells → IfOk result (λ found. option_map (λ p. p.items) found
        ≡ tree.first_given (tree.device_of_path (seen (F.answers files.now)) sys.now)
        (map (λ p. p.items) paths.now)) }
{
    let mut left = paths;
    'paths: while let Some((path, rest)) = left.split_first() {
        if let Some(place) = device_of_path(alloc, files, sys, path)? {
            return Ok(Some(place));
        }
        left = rest;
    }
    Ok(None)
}

/// What can't be read first of some paths at which a device may be.
#[tactic(auto, unfolding(hwdb_spec_commands::specs::DeviceTree::first_given))]
fn first_unread<F: DeviceFiles>(
    alloc: Global,
    files: &F,
    sys: &[u8],
    paths: &[Vec<u8>],
) -> Result<Option<UnreadPath>, AllocError>
    ensures { F.tells → IfOk result (IsUnread (F.answers files.now)
        (tree.first_given (tree.unread_of_path (seen (F.answers files.now)) sys.now)
        (map (λ p. p.items) paths.now))) }
{
    let mut left = paths;
    'paths: while let Some((path, rest)) = left.split_first() {
        if let Some(unread) = unread_of_path(alloc, files, sys, path)? {
            return Ok(Some(unread));
        }
        left = rest;
    }
    Ok(None)
}

/// A path that isn't absolute is one below /dev.
fn absolute(alloc: Global, root: &[u8], given: &[u8]) -> Result<Vec<u8>, AllocError>
    ensures { IfOk result (λ path. path.items ≡ root.now ++ tree.absolute given.now) }
{
    let mut path = Vec::from_slice(alloc, root)?;
    if !given.starts_with(b"/") {
        path.extend_from_slice(b"/dev/")?;
    }
    path.extend_from_slice(given)?;
    Ok(path)
}

/// The paths at which a device is looked for, in order.
fn paths_for<F: DeviceFiles>(
    alloc: Global,
    files: &F,
    root: &[u8],
    sys: &[u8],
    given: &[u8],
) -> Result<Vec<Vec<u8>>, AllocError>
    ensures { F.tells → IfOk result (λ v. map (λ p. p.items) v.items
        ≡ tree.paths_for (seen (F.answers files.now)) root.now sys.now given.now) }
{
    let mut paths = Vec::new(alloc);
    if !given.contains(&b'/') {
        push_named(alloc, files, sys, given, &mut paths)?;
        return Ok(paths);
    }
    if given.starts_with(b"/sys/") {
        paths.push(joined(alloc, root, given)?)?;
        return Ok(paths);
    }
    let path = absolute(alloc, root, given)?;
    push_node(alloc, files, sys, &path, &mut paths)?;
    push_named(alloc, files, sys, last_name(given), &mut paths)?;
    Ok(paths)
}

/// Adds where sysfs has the link to the device of the node that a path leads to, if one is there.
fn push_node<F: DeviceFiles>(
    alloc: Global,
    files: &F,
    sys: &[u8],
    path: &[u8],
    paths: &mut Vec<Vec<u8>>,
) -> Result<(), AllocError>
    ensures { F.tells → OnOk result (map (λ p. p.items) paths.new.items
        ≡ map (λ p. p.items) paths.old.items
        ++ tree.paths_of_node (seen (F.answers files.now)) sys.now path.now) }
{
    if let Some(node) = node_of_path(alloc, files, path)? {
        paths.push(node_path(alloc, sys, node)?)?;
    }
    Ok(())
}

/// The node that a path leads to.
fn node_of_path<F: DeviceFiles>(
    alloc: Global,
    files: &F,
    path: &[u8],
) -> Result<Option<DeviceNode>, AllocError>
    ensures { F.tells → IfOk result (λ found. option_map node_of found
        ≡ tree.at_place (seen (F.answers files.now)) (seen (F.answers files.now)).node path.now) }
{
    match place_of(alloc, files, path)? {
        Some(place) => node_at(files, &place),
        None => Ok(None),
    }
}

/// Where sysfs has the link to the device of a node.
fn node_path(alloc: Global, sys: &[u8], node: DeviceNode) -> Result<Vec<u8>, AllocError>
    ensures { IfOk result (λ path. path.items ≡ tree.node_path sys.now (node_of node)) }
{
    let front = if node.block {
        b"/dev/block/".as_slice()
    } else {
        b"/dev/char/".as_slice()
    };
    let mut path = joined(alloc, sys, front)?;
    let mut digits = itoa::Buffer::new();
    path.extend_from_slice(digits.format(node.number / 256 % 4096).as_bytes())?;
    path.push(b':')?;
    let minor = node.number % 256 + node.number / 1_048_576 % 4096 * 256;
    path.extend_from_slice(digits.format(minor).as_bytes())?;
    Ok(path)
}

/// Finds the device that is meant by a path or a name, in the sysfs below a root. Tells its place.
///
/// Below /sys the path itself is the device's. Another path is a node's, by its numbers, and then by its last name. What has no slash
/// is a name in a class or at a bus. Looks into each class and bus once.
///
/// If no device is found, what can't be read there is told first.
pub fn find_device<F: DeviceFiles>(
    alloc: Global,
    files: &F,
    root: &[u8],
    sys: &[u8],
    given: &[u8],
) -> Result<Vec<u8>, Unfound>
    ensures found { F.tells → IfOk result (λ place.
        tree.device_for (seen (F.answers files.now)) root.now sys.now given.now
        ≡ Some place.items) }
    ensures unfound { F.tells → IfErr result
        (IsUnfound (F.answers files.now) root.now sys.now given.now) }
{
    let paths = paths_for(alloc, files, root, sys, given)?;
    match first_device(alloc, files, sys, &paths)? {
        Some(place) => Ok(place),
        None => Err(why_none(alloc, files, root, sys, given, &paths)),
    }
}

/// Why no device is at these paths, which are those for what was given.
fn why_none<F: DeviceFiles>(
    alloc: Global,
    files: &F,
    root: &[u8],
    sys: &[u8],
    given: &[u8],
    paths: &[Vec<u8>],
) -> Unfound
    ensures { F.tells → map (λ p. p.items) paths.now
        ≡ tree.paths_for (seen (F.answers files.now)) root.now sys.now given.now
        → tree.device_for (seen (F.answers files.now)) root.now sys.now given.now ≡ None
        → IsUnfound (F.answers files.now) root.now sys.now given.now result }
{
    match first_unread(alloc, files, sys, paths) {
        Ok(Some(unread)) => Unfound::Untold(unread.path, unread.cause),
        Ok(None) => why_not_there(alloc, files, root, given),
        Err(AllocError) => Unfound::Memory,
    }
}

/// Why no device is meant, if all was read that would tell of one.
fn why_not_there<F: DeviceFiles>(alloc: Global, files: &F, root: &[u8], given: &[u8]) -> Unfound
    ensures { F.tells → (sys : List ℕ)
        → IsNone (F.answers files.now) root.now sys given.now
        → IsUnfound (F.answers files.now) root.now sys given.now result }
{
    if !given.contains(&b'/') {
        return Unfound::NoDevice;
    }
    match absolute(alloc, root, given) {
        Ok(path) => why_nowhere(alloc, files, &path),
        Err(AllocError) => Unfound::Memory,
    }
}

/// Why a path leads to no device.
fn why_nowhere<F: DeviceFiles>(alloc: Global, files: &F, path: &[u8]) -> Unfound
    ensures { F.tells → LeadsAstray (F.answers files.now) path.now result }
{
    match files.real_path(alloc, path) {
        Ok(_) => Unfound::NoDevice,
        Err(Cause::Memory) => Unfound::Memory,
        Err(cause) => Unfound::Unread(cause),
    }
}

//! What is made of the answers of a file system: what can't be told is as if it weren't there, unless there was no memory.
ghost use Rattle.std.specs.Prelude.{◌≡◌, ◌≢◌, ◌≤◌, None, Ok, IfOk, IfSome, length, option_map};
ghost use Rattle.hwdb_spec.specs.declared.causes.Cause.TheVariants.{Memory};
ghost use Rattle.hwdb_spec_commands.specs.DeviceTree as tree;
ghost use Rattle.hwdb_spec_commands.specs.SysfsAnswers.{seen, told};
ghost use Rattle.hwdb_sysfs.specs.Views.{node_of};

use crate::files::{DeviceFiles, DeviceNode};
use crate::paths::path_in;
use hwdb_io::Cause;
use std::alloc::{AllocError, Global};

/// What can't be told is as if it weren't there, unless that is for want of memory.
fn unless_memory<T>(cause: Cause) -> Result<Option<T>, AllocError>
    ensures { IfOk result (λ found. (found ≡ None) × (cause ≢ Memory)) }
{
    match cause {
        Cause::Memory => Err(AllocError),
        _ => Ok(None),
    }
}

/// The place that a path leads to. None if nothing is there, or if that can't be told.
pub fn place_of<F: DeviceFiles>(
    alloc: Global,
    files: &F,
    path: &[u8],
) -> Result<Option<Vec<u8>>, AllocError>
    ensures { F.tells → IfOk result (λ found. option_map (λ p. p.items) found
        ≡ (seen (F.answers files.now)).place path.now) }
{
    match files.real_path(alloc, path) {
        Ok(place) => Ok(Some(place)),
        Err(cause) => unless_memory(cause),
    }
}

/// The bytes of the small file at a place.
fn page_at<F: DeviceFiles>(
    alloc: Global,
    files: &F,
    place: &[u8],
    is_file: bool,
) -> Result<Option<Vec<u8>>, AllocError>
    requires { F.tells → (F.answers files.now).file place.now ≡ Ok is_file }
    ensures text { F.tells → IfOk result (λ found. option_map (λ p. p.items) found
        ≡ (seen (F.answers files.now)).text place.now) }
    ensures short { IfOk result (λ found. IfSome found (λ p. length p.items ≤ 4096)) }
{
    if !is_file {
        return Ok(None);
    }
    match files.page_of(alloc, place) {
        Ok(text) => Ok(Some(text)),
        Err(cause) => unless_memory(cause),
    }
}

/// The text of the small file at a place, a page at most. Nothing but a regular file is opened: that might wait.
pub fn text_at<F: DeviceFiles>(
    alloc: Global,
    files: &F,
    place: &[u8],
) -> Result<Option<Vec<u8>>, AllocError>
    ensures short { IfOk result (λ found. IfSome found (λ p. length p.items ≤ 4096)) }
    ensures text { F.tells → IfOk result (λ found. option_map (λ p. p.items) found
        ≡ (seen (F.answers files.now)).text place.now) }
{
    match files.is_file(place) {
        Ok(is_file) => page_at(alloc, files, place, is_file),
        Err(cause) => unless_memory(cause),
    }
}

/// The text of the small file that a path leads to.
pub fn text_of<F: DeviceFiles>(
    alloc: Global,
    files: &F,
    path: &[u8],
) -> Result<Option<Vec<u8>>, AllocError>
    ensures { F.tells → IfOk result (λ found. option_map (λ p. p.items) found
        ≡ tree.text_of (seen (F.answers files.now)) path.now) }
{
    match place_of(alloc, files, path)? {
        Some(place) => text_at(alloc, files, &place),
        None => Ok(None),
    }
}

/// The file `uevent` of a folder: what has one is a device.
pub fn uevent_of<F: DeviceFiles>(
    alloc: Global,
    files: &F,
    folder: &[u8],
) -> Result<Option<Vec<u8>>, AllocError>
    ensures { F.tells → IfOk result (λ found. option_map (λ p. p.items) found
        ≡ tree.uevent_of (seen (F.answers files.now)) folder.now) }
{
    let path = path_in(alloc, folder, b"uevent")?;
    text_of(alloc, files, &path)
}

/// The node at a place.
pub fn node_at<F: DeviceFiles>(files: &F, place: &[u8]) -> Result<Option<DeviceNode>, AllocError>
    ensures { F.tells → IfOk result (λ found. option_map node_of found
        ≡ (seen (F.answers files.now)).node place.now) }
{
    match files.node_at(place) {
        Ok(node) => Ok(node),
        Err(cause) => unless_memory(cause),
    }
}

/// What a folder lists, each name with byte 0 after it. None if that can't be told.
pub fn listing_at<F: DeviceFiles>(
    alloc: Global,
    files: &F,
    place: &[u8],
) -> Result<Option<Vec<u8>>, AllocError>
    ensures { F.tells → IfOk result (λ found. option_map (λ p. p.items) found
        ≡ told ((F.answers files.now).listing place.now)) }
{
    match files.listing_of(alloc, place) {
        Ok(listing) => Ok(Some(listing)),
        Err(cause) => unless_memory(cause),
    }
}

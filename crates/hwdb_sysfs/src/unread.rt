//! What can't be read, so that it can't be told whether a device is there.
ghost use Rattle.std.specs.Prelude.{◌≡◌, ◌≢◌, IfOk, IfSome, None, Ok, Some, if◌then◌else◌, option_map, true};
ghost use Rattle.hwdb_spec.specs.declared.causes.Cause.TheVariants.{Memory};
ghost use Rattle.hwdb_spec_commands.specs.DeviceTree as tree;
ghost use Rattle.hwdb_spec_commands.specs.SysfsAnswers.{is_nowhere, seen};
ghost use Rattle.hwdb_sysfs.specs.Finding.{IsUnread};

use crate::files::{DeviceFiles, NO_ENTRY};
use crate::paths::{is_below_devices, path_in};
use hwdb_io::Cause;
use std::alloc::{AllocError, Global};

/// The number of the error that something on the way is no folder (errno, on Linux).
pub const NO_FOLDER: i32 = 20;

/// That of a name that is too long.
const LONG_NAME: i32 = 36;

/// That of more links than Linux follows.
pub const LINK_LOOP: i32 = 40;

/// What can't be read.
#[derive(Drop)]
pub struct UnreadPath {
    /// Its path.
    pub path: Vec<u8>,
    /// Why that is so.
    pub cause: Cause,
}

/// Whether an error says that a path leads nowhere.
fn is_nowhere(cause: Cause) -> bool
    ensures { result ≡ is_nowhere cause }
{
    match cause {
        Cause::System(NO_ENTRY | NO_FOLDER | LONG_NAME | LINK_LOOP) => true,
        _ => false,
    }
}

/// What can't be read at a path for this cause: nothing, if the cause says that it leads nowhere.
fn unless_nowhere(
    alloc: Global,
    path: &[u8],
    cause: Cause,
) -> Result<Option<UnreadPath>, AllocError>
    ensures path { IfOk result (λ found. option_map (λ u. u.path.items) found
        ≡ (if is_nowhere cause then None else Some path.now)) }
    ensures cause { IfOk result (λ found. IfSome found (λ u. u.cause ≡ cause)) }
{
    if is_nowhere(cause) {
        return Ok(None);
    }
    Ok(Some(UnreadPath {
        path: Vec::from_slice(alloc, path)?,
        cause,
    }))
}

/// The same, if there was memory.
fn unread_at(alloc: Global, path: &[u8], cause: Cause) -> Result<Option<UnreadPath>, AllocError>
    ensures memory { IfOk result (λ _. cause ≢ Memory) }
    ensures path { IfOk result (λ found. option_map (λ u. u.path.items) found
        ≡ (if is_nowhere cause then None else Some path.now)) }
    ensures cause { IfOk result (λ found. IfSome found (λ u. u.cause ≡ cause)) }
{
    match cause {
        Cause::Memory => Err(AllocError),
        _ => unless_nowhere(alloc, path, cause),
    }
}

/// What can't be read of the regular file at a place.
fn unread_page<F: DeviceFiles>(
    alloc: Global,
    files: &F,
    place: &[u8],
) -> Result<Option<UnreadPath>, AllocError>
    requires { F.tells → (F.answers files.now).file place.now ≡ Ok true }
    ensures { F.tells → IfOk result (IsUnread (F.answers files.now)
        (tree.closed_at (seen (F.answers files.now)) place.now)) }
{
    match files.page_of(alloc, place) {
        Ok(_) => Ok(None),
        Err(cause) => unread_at(alloc, place, cause),
    }
}

/// What can't be read of the small file at a place.
fn unread_file<F: DeviceFiles>(
    alloc: Global,
    files: &F,
    place: &[u8],
) -> Result<Option<UnreadPath>, AllocError>
    ensures { F.tells → IfOk result (IsUnread (F.answers files.now)
        (tree.closed_at (seen (F.answers files.now)) place.now)) }
{
    match files.is_file(place) {
        Ok(true) => unread_page(alloc, files, place),
        Ok(false) => Ok(None),
        Err(cause) => unread_at(alloc, place, cause),
    }
}

/// What can't be read of the small file that a path leads to.
fn unread_text<F: DeviceFiles>(
    alloc: Global,
    files: &F,
    path: &[u8],
) -> Result<Option<UnreadPath>, AllocError>
    ensures { F.tells → IfOk result (IsUnread (F.answers files.now)
        (tree.lost_or (seen (F.answers files.now))
        (tree.closed_at (seen (F.answers files.now))) path.now)) }
{
    match files.real_path(alloc, path) {
        Ok(place) => unread_file(alloc, files, &place),
        Err(cause) => unread_at(alloc, path, cause),
    }
}

/// What can't be read at a place, so that it can't be told whether a device is there.
fn unread_of_place<F: DeviceFiles>(
    alloc: Global,
    files: &F,
    sys: &[u8],
    place: &[u8],
) -> Result<Option<UnreadPath>, AllocError>
    ensures { F.tells → IfOk result (IsUnread (F.answers files.now)
        (tree.unread_of_place (seen (F.answers files.now)) sys.now place.now)) }
{
    if !is_below_devices(sys, place) {
        return Ok(None);
    }
    let path = path_in(alloc, place, b"uevent")?;
    unread_text(alloc, files, &path)
}

/// What can't be read where a path leads, so that it can't be told whether a device is there. None if that can be told.
///
/// The only error is want of memory.
pub fn unread_of_path<F: DeviceFiles>(
    alloc: Global,
    files: &F,
    sys: &[u8],
    path: &[u8],
) -> Result<Option<UnreadPath>, AllocError>
    ensures { F.tells → IfOk result (IsUnread (F.answers files.now)
        (tree.unread_of_path (seen (F.answers files.now)) sys.now path.now)) }
{
    match files.real_path(alloc, path) {
        Ok(place) => unread_of_place(alloc, files, sys, &place),
        Err(cause) => unread_at(alloc, path, cause),
    }
}

//! New files of updates: whose a new file is, and what killed updates left.
//!
//! An update locks its new file once it has made it, and holds the lock until the file is renamed or removed. Only a
//! process that has locked a file, and has seen after that that the path is still the file's, renames or removes it. So the
//! path stays the file's until then: nothing that is made takes a name that is taken.
//!
//! - A new file that is locked or removed before its maker locks it isn't the maker's: it makes another.
//! - Of two processes that remove leftovers the second can't lock the file, or locks one whose path is no longer its own.
//! - So is a file that was renamed before it was locked: the database isn't removed.

use crate::files::{joined, path_in};
use crate::raw::all_of;
use crate::reads::refused;
use hwdb_io::Cause;
use hwdb_replace::{part_name, part_number};
use hwdb_spec_commands::{Refusal, Unread};
use std::alloc::Global;
use std::fs::{self, File, OpenFile, TryLockError};
use std::io::{self, ErrorKind};
use std::os::unix::fs::MetadataExt;
use std::rt::Files;

/// The number of the error of a file system that knows no locks, as another than 'unsupported' (ENOLCK, on Linux).
const NO_LOCKS: i32 = 37;

/// A file that one process at a time may lock.
pub trait Lockable {
    /// Locks the file until it is closed, unless another process has locked it. Returns whether it did. Never waits.
    fn try_to_lock(&self) -> io::Result<bool>;
}

impl Lockable for File {
    fn try_to_lock(&self) -> io::Result<bool> {
        match self.try_lock() {
            Ok(()) => Ok(true),
            Err(TryLockError::WouldBlock) => Ok(false),
            Err(TryLockError::Error(error)) => Err(error),
        }
    }
}

/// Whether a lock failed since the file system knows none.
fn is_of_no_locks(error: &io::Error) -> bool {
    error.kind() == ErrorKind::Unsupported || error.raw_os_error() == Some(NO_LOCKS)
}

/// Whether a path is that of an open file.
fn is_at<R: Files>(rt: &R, file: &R::File, path: &str) -> io::Result<bool> {
    match fs::symlink_metadata(rt, path) {
        Ok(named) => {
            let open = file.metadata()?;
            Ok(named.dev() == open.dev() && named.ino() == open.ino())
        }
        Err(error) if error.kind() == ErrorKind::NotFound => Ok(false),
        Err(error) => Err(error),
    }
}

/// Locks the file that was made under a path. Returns whether it is the maker's: nobody else locked or removed it before.
pub fn is_ours<R: Files>(rt: &R, file: &R::File, path: &str) -> io::Result<bool>
where
    R::File: Lockable,
{
    match file.try_to_lock() {
        Ok(true) => is_at(rt, file, path),
        Ok(false) => Ok(false),
        // Nobody can lock there, and so nobody removes it.
        Err(error) if is_of_no_locks(&error) => is_at(rt, file, path),
        Err(error) => Err(error),
    }
}

/// Removes a new file that nobody holds.
fn clear_part<R: Files>(rt: &R, path: &str) -> io::Result<()>
where
    R::File: Drop + Lockable,
{
    // A link isn't followed, and an open of a pipe would wait.
    if fs::symlink_metadata(rt, path)?.is_file() {
        let file = File::open(rt, path)?;
        if file.try_to_lock()? && is_at(rt, &file, path)? {
            fs::remove_file(rt, path)?;
        }
    }
    Ok(())
}

/// The listing of a folder, with byte 0 after each name.
fn listing_at<R: Files>(alloc: Global, rt: &R, folder: &str) -> Result<Vec<u8>, Unread> {
    match rt.open_dir(folder) {
        Ok(entries) => all_of(alloc, entries),
        Err(error) => Err(Unread::Failed(Some(Cause::of(&error)))),
    }
}

/// Removes what killed updates left in a folder. What can't be removed stays, and stops nothing.
pub fn clear_parts<R: Files>(alloc: Global, rt: &R, folder: &str) -> Result<(), Refusal>
where
    R::File: Drop + Lockable,
{
    // The slash has a link to a folder followed.
    let path = joined(alloc, folder, "/")?;
    let listing = match listing_at(alloc, rt, path.as_str()) {
        Ok(listing) => listing,
        Err(why) => return Err(refused(alloc, folder, why)),
    };
    for name in listing.split(|byte| *byte == 0) {
        if let Some(number) = part_number(name) {
            let part = path_in(alloc, folder, part_name(number).as_str())?;
            let _ = clear_part(rt, part.as_str());
        }
    }
    Ok(())
}

//! The file system as it is asked for devices: a call of the library for each answer, and nothing decided (docs/assumptions.md).
ghost use Rattle.std.specs.Prelude.{Err};
ghost use Rattle.hwdb_spec.specs.declared.causes.Cause.TheVariants.{Memory};

use crate::files::SystemStore;
use crate::parts::Lockable;
use crate::raw::{StdFiles, all_of, up_to};
use hwdb_io::Cause;
use hwdb_spec_commands::Unread;
use hwdb_sysfs::{DeviceFiles, DeviceNode};
use std::alloc::Global;
use std::fs::{self, File};
use std::io;
use std::os::unix::fs::{FileExt, FileTypeExt, MetadataExt};
use std::rt::Files;
use std::str::from_utf8;

/// How many bytes an attribute of sysfs has at most: a page (sysfs(5)).
const PAGE: u32 = 4096;

/// The number of the error of a file that is too long (errno, on Linux).
const TOO_LONG: i32 = 27;

/// A path as text. The library takes no other.
fn text_of(path: &[u8]) -> Result<&str, Cause> {
    match from_utf8(path) {
        Ok(path) => Ok(path),
        Err(_) => Err(Cause::Name),
    }
}

/// Why a call of the library failed.
fn cause_of(error: io::Error) -> Cause {
    Cause::of(&error)
}

/// Why bytes weren't read.
fn why_unread(why: Unread) -> Cause {
    match why {
        Unread::TooLong => Cause::System(TOO_LONG),
        Unread::Memory => Cause::Memory,
        Unread::Failed(Some(cause)) => cause,
        Unread::Failed(None) => Cause::Unknown,
    }
}

/// The node that `stat` found.
fn node_of(found: &fs::Metadata) -> Option<DeviceNode> {
    let kind = found.file_type();
    if kind.is_block_device() || kind.is_char_device() {
        Some(DeviceNode {
            block: kind.is_block_device(),
            number: found.rdev(),
        })
    } else {
        None
    }
}

impl<'a, R: Files> DeviceFiles for StdFiles<'a, R>
where
    R::File: Drop,
{
    // No contract of the library says what it answers.
    ghost tells = { ⊥ };

    ghost answers = { λ _. record {
      real = λ _. Err Memory;
      node = λ _. Err Memory;
      file = λ _. Err Memory;
      page = λ _. Err Memory;
      listing = λ _. Err Memory;
    } };

    ghost bare = { ⊥ };

    fn real_path(&self, _: Global, path: &[u8]) -> Result<Vec<u8>, Cause> {
        let place = self.real_path_of(text_of(path)?).map_err(cause_of)?;
        Ok(place.into_bytes())
    }

    fn node_at(&self, place: &[u8]) -> Result<Option<DeviceNode>, Cause> {
        let found = fs::metadata(self.runtime(), text_of(place)?).map_err(cause_of)?;
        Ok(node_of(&found))
    }

    fn is_file(&self, place: &[u8]) -> Result<bool, Cause> {
        let found = fs::metadata(self.runtime(), text_of(place)?).map_err(cause_of)?;
        Ok(found.is_file())
    }

    fn page_of(&self, alloc: Global, place: &[u8]) -> Result<Vec<u8>, Cause> {
        let file = File::open(self.runtime(), text_of(place)?).map_err(cause_of)?;
        up_to(alloc, file, PAGE).map_err(why_unread)
    }

    fn listing_of(&self, alloc: Global, place: &[u8]) -> Result<Vec<u8>, Cause> {
        let entries = self.runtime().open_dir(text_of(place)?).map_err(cause_of)?;
        all_of(alloc, entries).map_err(why_unread)
    }
}

impl<'a, R: Files> DeviceFiles for SystemStore<'a, R>
where
    R::File: Drop + FileExt + Lockable,
{
    ghost tells = { ⊥ };

    ghost answers = { λ _. record {
      real = λ _. Err Memory;
      node = λ _. Err Memory;
      file = λ _. Err Memory;
      page = λ _. Err Memory;
      listing = λ _. Err Memory;
    } };

    ghost bare = { ⊥ };

    fn real_path(&self, alloc: Global, path: &[u8]) -> Result<Vec<u8>, Cause> {
        self.files().real_path(alloc, path)
    }

    fn node_at(&self, place: &[u8]) -> Result<Option<DeviceNode>, Cause> {
        self.files().node_at(place)
    }

    fn is_file(&self, place: &[u8]) -> Result<bool, Cause> {
        self.files().is_file(place)
    }

    fn page_of(&self, alloc: Global, place: &[u8]) -> Result<Vec<u8>, Cause> {
        self.files().page_of(alloc, place)
    }

    fn listing_of(&self, alloc: Global, place: &[u8]) -> Result<Vec<u8>, Cause> {
        self.files().listing_of(alloc, place)
    }
}

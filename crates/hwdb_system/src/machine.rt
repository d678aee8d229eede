//! A file system that is asked for devices, too.
use crate::files::SystemStore;
use crate::parts::Lockable;
use crate::rooted::Rooted;
use hwdb_replace::Memory;
use hwdb_sysfs::DeviceFiles;
use std::os::unix::fs::FileExt;
use std::rt::Files;

/// What the program runs over: a [`Rooted`] system that is asked for devices, too.
pub trait Machine: Rooted + DeviceFiles {
    /// If it tells its files, it tells what sysfs shows.
    ghost told: { Self.Store.tells → Self.DeviceFiles.tells };
}

impl<'a, R: Files> Machine for SystemStore<'a, R>
where
    R::File: Drop + FileExt + Lockable,
{
    ghost told = { λ tells. tells };
}

impl Machine for Memory {
    ghost told = { λ tells. tells };
}

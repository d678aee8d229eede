//! What tells a file from one that replaced it.
use std::fs::Metadata;
use std::os::unix::fs::MetadataExt;

/// What tells a file from others, and from itself after a change: its device and inode, its size, and when it was modified.
#[derive(Clone, Copy, Debug, PartialEq, Eq)]
pub struct Identity {
    device: u64,
    inode: u64,
    size: u64,
    /// Since 1970, in seconds and nanoseconds.
    modified: (i64, i64),
}

impl Identity {
    /// That of what `stat` found.
    pub fn of(found: &Metadata) -> Identity {
        Identity {
            device: found.dev(),
            inode: found.ino(),
            size: found.size(),
            modified: (found.mtime(), found.mtime_nsec()),
        }
    }
}

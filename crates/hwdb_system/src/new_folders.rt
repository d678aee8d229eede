//! Folders that are made: each has its mode, whatever the umask is.
use std::fs::{self, DirBuilder, Permissions};
use std::io::{self, ErrorKind};
use std::os::unix::fs::{DirBuilderExt, PermissionsExt};
use std::rt::Files;

/// The mode of a folder that is made: all may look a database up in it.
const FOLDER_MODE: u32 = 0o755;

/// Whether a folder is at the place.
fn is_folder<R: Files>(rt: &R, place: &str) -> bool {
    match fs::metadata(rt, place) {
        Ok(found) => found.is_dir(),
        Err(_) => false,
    }
}

/// Makes a folder, unless one is there. Its mode is set once it is made, since the umask takes from that of the call.
fn make_one<R: Files>(rt: &R, place: &str) -> io::Result<()> {
    let mut builder = DirBuilder::new();
    builder.mode(FOLDER_MODE);
    match builder.create(rt, place) {
        Ok(()) => fs::set_permissions(rt, place, Permissions::from_mode(FOLDER_MODE)),
        Err(_) if is_folder(rt, place) => Ok(()),
        Err(error) => Err(error),
    }
}

/// Makes the folder at the front of a path up to a slash, unless one is there.
fn make_above<R: Files>(rt: &R, place: &str, end: usize) -> io::Result<()> {
    match place.split_at_checked(end) {
        Some((above, rest)) if rest.starts_with('/') => make_one(rt, above),
        _ => Ok(()),
    }
}

/// Makes a folder, and those above it, unless they are there.
pub fn make_folders<R: Files>(rt: &R, place: &str) -> io::Result<()> {
    match make_one(rt, place) {
        Err(error) if error.kind() == ErrorKind::NotFound => {}
        made => return made,
    }
    for end in 1..place.len() {
        make_above(rt, place, end)?;
    }
    make_one(rt, place)
}

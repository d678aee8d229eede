//! What is at a path, opened to be read as it comes.
use crate::roots::Root;
use std::alloc::Global;
use std::fs::File;
use std::io;
use std::rt::Files;

/// Opens what is at a path to be read, whatever it is: a file, a pipe, a device. The path begins with the root, and each link on it leads on
/// inside it; an empty root is none.
///
/// Errors are what the system says, and a loop of links. An open of a pipe waits for its other end.
pub fn open_below<R: Files>(alloc: Global, rt: &R, root: &str, path: &str) -> io::Result<R::File> {
    let place = Root::below(alloc, root)?.place_of(rt, path)?;
    File::open(rt, place.as_str())
}

//! Names and folders of a path.
ghost use Rattle.std.specs.Prelude.{◌≡◌, ◌++◌, IfOk, drop, length};
ghost use Rattle.hwdb_spec_commands.specs.DeviceTree as tree;
ghost use Rattle.hwdb_spec.specs.Store as store;

use hwdb_text::Pieces;
use std::alloc::{AllocError, Global};

/// Two texts as one.
pub fn joined(alloc: Global, front: &[u8], back: &[u8]) -> Result<Vec<u8>, AllocError>
    ensures { IfOk result (λ path. path.items ≡ front.now ++ back.now) }
{
    let mut path = Vec::from_slice(alloc, front)?;
    path.extend_from_slice(back)?;
    Ok(path)
}

/// The path of a name in a folder.
pub fn path_in(alloc: Global, folder: &[u8], name: &[u8]) -> Result<Vec<u8>, AllocError>
    ensures { IfOk result (λ path. path.items ≡ store.path_in folder.now name.now) }
{
    let mut path = Vec::from_slice(alloc, folder)?;
    path.push(b'/')?;
    path.extend_from_slice(name)?;
    Ok(path)
}

/// The last name of a path.
#[tactic(auto, unfolding(hwdb_spec_commands::specs::DeviceTree::last_after, hwdb_spec::specs::Lines::pieces))]
pub fn last_name(path: &[u8]) -> &[u8]
    ensures { result.now ≡ tree.last_name path.now }
{
    let mut last = b"".as_slice();
    for name in Pieces::new(b'/', path) {
        last = name;
    }
    last
}

/// In a name of sysfs a `!` is a `/` of the kernel's name.
fn unescaped(byte: u8) -> u8
    ensures { result ≡ tree.unescaped byte }
{
    if byte == b'!' { b'/' } else { byte }
}

/// The kernel's name of a device: in a name of sysfs each `!` is a `/`.
pub fn kernel_name(alloc: Global, path: &[u8]) -> Result<Vec<u8>, AllocError>
    ensures { IfOk result (λ name. name.items ≡ tree.kernel_name path.now) }
{
    let last = last_name(path);
    let mut name = Vec::new(alloc);
    for byte in last {
        name.push(unescaped(*byte))?;
    }
    Ok(name)
}

/// What a path has below sysfs.
pub fn below<'p>(sys: &[u8], path: &'p [u8]) -> &'p [u8]
    ensures { result.now ≡ drop (length sys.now) path.now }
{
    if sys.len() < path.len() {
        &path[sys.len()..]
    } else {
        b""
    }
}

/// Whether a path is below sysfs's folder of devices.
pub fn is_below_devices(sys: &[u8], path: &[u8]) -> bool
    ensures { result ≡ tree.is_below_devices sys.now path.now }
{
    if path.starts_with(sys) {
        below(sys, path).starts_with(b"/devices/")
    } else {
        false
    }
}

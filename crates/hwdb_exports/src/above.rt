//! The attributes of an input device, by the folder of its node.
ghost use Rattle.std.specs.Prelude.{◌≡◌, ◌++◌, IfOk, codes, option_map};
ghost use Rattle.hwdb_spec_commands.specs.Exports as spec;

use crate::spots::path_in;
use hwdb_sysfs::last_name;
use std::alloc::{AllocError, Global};

/// A path, but for its last name and the slash before that.
fn folder_above(path: &[u8]) -> &[u8]
    ensures { result.now ≡ spec.folder_above path.now }
{
    let last = last_name(path);
    &path[..path.len().saturating_sub(last.len() + 1)]
}

/// A path that ends so, by way of the folder above that of what comes before.
fn by_device(
    alloc: Global,
    path: &[u8],
    ending: &[u8],
    name: &[u8],
) -> Result<Option<Vec<u8>>, AllocError>
    requires { ending.now ≡ codes "/device/" ++ name.now }
    ensures { IfOk result (λ found. option_map (λ p. p.items) found
        ≡ spec.by_device path.now name.now) }
{
    if !path.ends_with(ending) {
        return Ok(None);
    }
    let front = &path[..path.len() - ending.len()];
    Ok(Some(path_in(alloc, folder_above(front), name)?))
}

/// Where a path is looked for.
pub(crate) fn looked_at(alloc: Global, path: &[u8]) -> Result<Vec<u8>, AllocError>
    ensures { IfOk result (λ p. p.items ≡ spec.looked_at path.now) }
{
    if let Some(found) = by_device(alloc, path, b"/device/name", b"name")? {
        return Ok(found);
    }
    if let Some(found) = by_device(alloc, path, b"/device/id/vendor", b"id/vendor")? {
        return Ok(found);
    }
    if let Some(found) = by_device(alloc, path, b"/device/id/product", b"id/product")? {
        return Ok(found);
    }
    Vec::from_slice(alloc, path)
}

//! The name that is near one which no device has.
ghost use Rattle.std.specs.Prelude.{◌≡◌, IfOk, map};
ghost use Rattle.hwdb_spec_commands.specs.DeviceTree as tree;
ghost use Rattle.hwdb_spec_commands.specs.SysfsAnswers.{seen};

use crate::files::DeviceFiles;
use crate::finding::folders_with_links;
use crate::names::names_in;
use hwdb_properties::nearer;
use std::alloc::{AllocError, Global};

/// The nearest of some names, and of one before them.
#[tactic(auto, unfolding(hwdb_spec_commands::specs::DeviceTree::nearest_of))]
fn nearest_of(
    alloc: Global,
    wanted: &[u8],
    before: Vec<u8>,
    names: &[Vec<u8>],
) -> Result<Vec<u8>, AllocError>
    ensures { IfOk result (λ v. v.items
        ≡ tree.nearest_of wanted.now before.items (map (λ n. n.items) names.now)) }
{
    let mut nearest = before;
    let mut left = names;
    'names: while let Some((name, rest)) = left.split_first() {
        nearest = nearer(alloc, wanted, nearest, name)?;
        left = rest;
    }
    Ok(nearest)
}

/// The name in a class or at a bus that is nearest to the one that is wanted, which no device has: few letters lead to it, or it begins
/// with that. Empty if none is near.
///
/// The only error is want of memory. Looks into each class and bus once. Time grows with the names, and with the wanted one's length up
/// to 255 bytes.
#[tactic(auto, unfolding(hwdb_spec_commands::specs::DeviceTree::nearest_of))]
pub fn near_name<F: DeviceFiles>(
    alloc: Global,
    files: &F,
    sys: &[u8],
    wanted: &[u8],
) -> Result<Vec<u8>, AllocError>
    ensures { F.tells → IfOk result (λ v. v.items
        ≡ tree.near_name (seen (F.answers files.now)) sys.now wanted.now) }
{
    let folders = folders_with_links(alloc, files, sys)?;
    let mut nearest = Vec::new(alloc);
    let mut left = folders.as_slice();
    'folders: while let Some((folder, rest)) = left.split_first() {
        let names = names_in(alloc, files, folder)?;
        nearest = nearest_of(alloc, wanted, nearest, &names)?;
        left = rest;
    }
    Ok(nearest)
}

//! What folders list.
ghost use Rattle.std.specs.Prelude.{◌≡◌, ◌∷◌, [], List, ℕ, IfOk, OnOk, false};
ghost use Rattle.hwdb_spec.specs.Folders.{same};
ghost use Rattle.hwdb_spec_commands.specs.Exports as spec;
ghost use Rattle.hwdb_exports.specs.Views.{AreListed, names_at};

use std::alloc::{AllocError, Global};
use std::collections::BTreeMap;

/// The names of a folder, as they are listed.
pub(crate) fn listed(
    alloc: Global,
    names: &BTreeMap<Vec<u8>, Vec<u8>>,
    folder: &[u8],
) -> Result<Vec<u8>, AllocError>
    ensures { IfOk result (λ v. v.items ≡ names_at names.now folder.now) }
{
    match names.get(folder) {
        Some(listing) => Vec::from_slice(alloc, listing),
        None => Ok(Vec::new(alloc)),
    }
}

/// Takes the names of a folder.
fn taken(alloc: Global, names: &mut BTreeMap<Vec<u8>, Vec<u8>>, folder: &[u8]) -> Vec<u8>
    ensures taken { result.items ≡ names_at names.old folder.now }
    ensures left { (other : List ℕ) → same folder.now other ≡ false
        → names_at names.new other ≡ names_at names.old other }
{
    match names.remove(folder) {
        Some(listing) => listing,
        None => Vec::new(alloc),
    }
}

/// Adds a name to a folder.
pub(crate) fn put_name(
    alloc: Global,
    names: &mut BTreeMap<Vec<u8>, Vec<u8>>,
    folder: &[u8],
    name: &[u8],
) -> Result<(), AllocError>
    ensures { OnOk result (AreListed
        (record { folder = folder.now; name = name.now } ∷ []) names.old names.new) }
{
    let mut listing = taken(alloc, names, folder);
    listing.extend_from_slice(name)?;
    listing.push(0)?;
    let folder = Vec::from_slice(alloc, folder)?;
    names.insert(folder, listing)?;
    Ok(())
}

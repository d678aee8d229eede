//! What paths lead to.
ghost use Rattle.std.specs.Prelude.{◌≡◌, ◌++◌, ◌∷◌, [], IfOk, OnOk, option_map};
ghost use Rattle.hwdb_spec.specs.Store as store;
ghost use Rattle.hwdb_spec_commands.specs.Exports as spec;
ghost use Rattle.hwdb_exports.specs.Views.{AreSet, spot_at, spot_of};

use std::alloc::{AllocError, Global};
use std::collections::BTreeMap;

/// What a path leads to.
#[derive(Drop)]
pub struct Spot {
    /// A place.
    pub place: Vec<u8>,
    /// The text of the file there, if it is a file.
    pub text: Option<Vec<u8>>,
}

/// A copy of one text after another.
pub(crate) fn joined(alloc: Global, front: &[u8], back: &[u8]) -> Result<Vec<u8>, AllocError>
    ensures { IfOk result (λ path. path.items ≡ front.now ++ back.now) }
{
    let mut path = Vec::from_slice(alloc, front)?;
    path.extend_from_slice(back)?;
    Ok(path)
}

/// The path of a name in a folder.
pub(crate) fn path_in(alloc: Global, folder: &[u8], name: &[u8]) -> Result<Vec<u8>, AllocError>
    ensures { IfOk result (λ path. path.items ≡ store.path_in folder.now name.now) }
{
    let mut path = Vec::from_slice(alloc, folder)?;
    path.push(b'/')?;
    path.extend_from_slice(name)?;
    Ok(path)
}

/// What a path leads to.
pub(crate) fn found_at<'s>(spots: &'s BTreeMap<Vec<u8>, Spot>, path: &[u8]) -> Option<&'s Spot>
    ensures { option_map (λ s. spot_of s.now) result ≡ spot_at spots.now path.now }
{
    spots.get(path)
}

/// Has a path lead to what is given.
fn put(spots: &mut BTreeMap<Vec<u8>, Spot>, path: Vec<u8>, spot: Spot) -> Result<(), AllocError>
    ensures { OnOk result (AreSet ((path.items, spot_of spot) ∷ []) spots.old spots.new) }
{
    spots.insert(path, spot)?;
    Ok(())
}

/// Has a path lead to a place.
pub(crate) fn put_link(
    alloc: Global,
    spots: &mut BTreeMap<Vec<u8>, Spot>,
    path: &[u8],
    place: &[u8],
) -> Result<(), AllocError>
    ensures { OnOk result (AreSet (spec.link_to path.now place.now ∷ []) spots.old spots.new) }
{
    let path = Vec::from_slice(alloc, path)?;
    let place = Vec::from_slice(alloc, place)?;
    put(spots, path, Spot { place, text: None })
}

/// Puts a file at a path.
pub(crate) fn put_file(
    alloc: Global,
    spots: &mut BTreeMap<Vec<u8>, Spot>,
    path: &[u8],
    text: Vec<u8>,
) -> Result<(), AllocError>
    ensures { OnOk result (AreSet (spec.file_with path.now text.items ∷ []) spots.old spots.new) }
{
    let place = Vec::from_slice(alloc, path)?;
    let path = Vec::from_slice(alloc, path)?;
    put(
        spots,
        path,
        Spot {
            place,
            text: Some(text),
        },
    )
}

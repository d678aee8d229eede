//! The names in a folder.
ghost use Rattle.std.specs.Prelude.{◌≡◌, ◌∷◌, [], IfOk, OnOk, filter, map};
ghost use Rattle.hwdb_spec.specs.Assignment.{in_order, put, put_all, text_cmp};
ghost use Rattle.hwdb_spec_commands.specs.DeviceTree.{names_in};
ghost use Rattle.hwdb_spec_commands.specs.SysfsAnswers.{leads_on, names_listed, seen};

use crate::answers::{listing_at, place_of};
use crate::files::DeviceFiles;
use hwdb_text::Pieces;
use std::alloc::{AllocError, Global};
use std::collections::BTreeSet;

/// Adds a name, unless it is in the set.
fn add_name(alloc: Global, names: &mut BTreeSet<Vec<u8>>, name: &[u8]) -> Result<(), AllocError>
    ensures { OnOk result (map (λ n. n.items) names.new.keys
        ≡ put text_cmp name.now (map (λ n. n.items) names.old.keys)) }
{
    let name = Vec::from_slice(alloc, name)?;
    names.insert(name)?;
    Ok(())
}

/// Whether a name leads on from a folder: it is neither `.` nor `..`.
fn leads_on(name: &[u8]) -> bool
    ensures { result ≡ leads_on name.now }
{
    if name.cmp(b".".as_slice()).is_eq() {
        false
    } else {
        !name.cmp(b"..".as_slice()).is_eq()
    }
}

/// Adds a name that leads on, unless it is in the set.
#[tactic(auto, unfolding(hwdb_spec::specs::Assignment::put_all))]
fn add_entry(alloc: Global, names: &mut BTreeSet<Vec<u8>>, name: &[u8]) -> Result<(), AllocError>
    ensures { OnOk result (map (λ n. n.items) names.new.keys
        ≡ put_all text_cmp (filter leads_on (name.now ∷ [])) (map (λ n. n.items) names.old.keys)) }
{
    if leads_on(name) {
        add_name(alloc, names, name)
    } else {
        Ok(())
    }
}

/// The names of a listing, which has byte 0 after each, as a set.
#[tactic(auto, unfolding(hwdb_spec::specs::Assignment::put_all, hwdb_spec::specs::Lines::pieces))]
fn name_set(alloc: Global, listing: &[u8]) -> Result<BTreeSet<Vec<u8>>, AllocError>
    ensures { IfOk result (λ names. map (λ n. n.items) names.keys
        ≡ in_order text_cmp (names_listed listing.now)) }
{
    let mut names = BTreeSet::new(alloc);
    for name in Pieces::new(0, listing) {
        add_entry(alloc, &mut names, name)?;
    }
    Ok(names)
}

/// The names of a listing, in order.
fn names_of(alloc: Global, listing: &[u8]) -> Result<Vec<Vec<u8>>, AllocError>
    ensures { IfOk result (λ names. map (λ n. n.items) names.items
        ≡ in_order text_cmp (names_listed listing.now)) }
{
    let mut set = name_set(alloc, listing)?;
    let mut names = Vec::new(alloc);
    'names: while let Some(name) = set.pop_first() {
        names.push(name)?;
    }
    Ok(names)
}

/// The names in the folder at a place, in order.
#[tactic(auto, unfolding(hwdb_spec::specs::Assignment::put_all))]
fn names_at<F: DeviceFiles>(
    alloc: Global,
    files: &F,
    place: &[u8],
) -> Result<Vec<Vec<u8>>, AllocError>
    ensures { F.tells → IfOk result (λ names. map (λ n. n.items) names.items
        ≡ in_order text_cmp ((seen (F.answers files.now)).names place.now)) }
{
    match listing_at(alloc, files, place)? {
        Some(listing) => names_of(alloc, &listing),
        None => Ok(Vec::new(alloc)),
    }
}

/// The names in the folder that a path leads to, in order.
#[tactic(auto, unfolding(hwdb_spec::specs::Assignment::put_all))]
pub fn names_in<F: DeviceFiles>(
    alloc: Global,
    files: &F,
    path: &[u8],
) -> Result<Vec<Vec<u8>>, AllocError>
    ensures { F.tells → IfOk result (λ names. map (λ n. n.items) names.items
        ≡ names_in (seen (F.answers files.now)) path.now) }
{
    match place_of(alloc, files, path)? {
        Some(place) => names_at(alloc, files, &place),
        None => Ok(Vec::new(alloc)),
    }
}

//! Files of a folder of text files that are none, by their names.
ghost use Rattle.std.specs.Prelude.{◌≡◌, ◌++◌, ◌∷◌, [], Ok, OnOk, IfErr, IfOk, MatchResult, filter, map, string_bytes};
ghost use Rattle.hwdb_system.specs.Raw.{IsReadAs, entries, ignored_answer};
ghost use Rattle.hwdb_spec_commands.specs.Ignored;
ghost use Rattle.hwdb_spec_commands.specs.Refusals.{IsUnlisted};

use crate::files::joined;
use crate::folders::{ETC_FILES, USR_FILES};
use crate::raw::RawFiles;
use crate::reads::{first_entry, refused};
use hwdb_spec_commands::Refusal;
use hwdb_text::{begins_with, counts};
use std::alloc::{AllocError, Global};

/// The path of a folder of text files below a root.
pub fn text_folder(alloc: Global, root: &str, usr: bool) -> Result<String, AllocError>
    ensures { IfOk result (λ path. string_bytes path ≡ Ignored.text_folder usr root.now) }
{
    joined(alloc, root, if usr { USR_FILES } else { ETC_FILES })
}

/// Whether a name doesn't count, though it doesn't begin with `.`.
pub fn is_ignored(name: &[u8]) -> bool
    ensures { result ≡ Ignored.is_ignored name.now }
{
    if counts(name) {
        return false;
    }
    !begins_with(b'.', name)
}

/// Adds a name, if it is that of an ignored file.
fn push_ignored(alloc: Global, name: &[u8], names: &mut Vec<Vec<u8>>) -> Result<(), AllocError>
    ensures { OnOk result (map (λ n. n.items) names.new.items
        ≡ map (λ n. n.items) names.old.items ++ filter Ignored.is_ignored (name.now ∷ [])) }
{
    if is_ignored(name) {
        names.push(name.to_vec(alloc)?)?;
    }
    Ok(())
}

/// The names of ignored files in a listing, which has byte 0 after each name.
fn ignored_of(alloc: Global, listing: &[u8]) -> Result<Vec<Vec<u8>>, AllocError>
    ensures { IfOk result (λ names. map (λ n. n.items) names.items
        ≡ filter Ignored.is_ignored (entries listing.now)) }
{
    let mut names = Vec::new(alloc);
    let mut left = listing;
    'names: while let Some((name, rest)) = first_entry(left) {
        push_ignored(alloc, name, &mut names)?;
        left = rest;
    }
    Ok(names)
}

/// The names of a folder's ignored files, in the order of its listing; none if the folder isn't there. The only error but for
/// memory is that it can't be listed.
pub fn ignored_in<F: RawFiles>(
    alloc: Global,
    files: &F,
    folder: &str,
) -> Result<Vec<Vec<u8>>, Refusal>
    ensures exact { F.tells → IsReadAs (λ names. map (λ n. n.items) names.items)
        (ignored_answer (F.listing files.now folder.now)) folder.now result }
    ensures refused { IfErr result (IsUnlisted folder.now) }
{
    match files.listing_of(alloc, folder) {
        Ok(Some(listing)) => Ok(ignored_of(alloc, &listing)?),
        Ok(None) => Ok(Vec::new(alloc)),
        Err(why) => Err(refused(alloc, folder, why)),
    }
}

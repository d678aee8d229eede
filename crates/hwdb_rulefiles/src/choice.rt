//! Which rules files count, of the names in the four folders (udev(7)).
ghost use Rattle.std.specs.Prelude.{◌≡◌, ◌++◌, map, IfOk, OnOk};
ghost use Rattle.std.specs.String.{string_bytes};
ghost use Rattle.hwdb_rulefiles.specs.RuleFolders;
ghost use Rattle.hwdb_rulefiles.specs.ChoiceViews.{chosen_of};
ghost use Rattle.hwdb_rulefiles.specs.FolderNames.{entry_of};

use crate::rows::begins_with;
use std::alloc::{AllocError, Global};
use std::collections::BTreeMap;

/// A folder of rules files.
#[derive(Clone, Copy, Debug, PartialEq, Eq)]
pub enum Folder {
    /// `/etc/udev/rules.d`
    Etc,
    /// `/run/udev/rules.d`
    Run,
    /// `/usr/local/lib/udev/rules.d`
    Local,
    /// `/usr/lib/udev/rules.d`
    Usr,
}

/// A rules file that was chosen.
#[derive(Debug, Drop, PartialEq, Eq)]
pub struct ChosenRules {
    /// Its folder.
    pub folder: Folder,
    /// Its name in its folder.
    pub name: String,
}

/// Whether a name counts: it ends in `.rules`, and doesn't begin with `.`.
pub fn counts(name: &[u8]) -> bool
    ensures { result ≡ RuleFolders.counts name.now }
{
    if begins_with(b'.', name) {
        return false;
    }
    name.ends_with(b".rules")
}

/// Puts the names of a folder that count among the others. A name that is there already is taken from this folder.
fn put<'a>(
    names: &mut BTreeMap<&'a str, Folder>,
    list: &'a [String],
    folder: Folder,
) -> Result<(), AllocError>
    ensures { OnOk result (map entry_of names.new.entries
        ≡ RuleFolders.put_all folder (map string_bytes list.now) (map entry_of names.old.entries)) }
{
    for name in list {
        if counts(name.as_bytes()) {
            names.insert(name.as_str(), folder)?;
        }
    }
    Ok(())
}

/// The chosen files by name, of the names that the four folders list, in any order. A file that is empty, or leads to
/// /dev/null, is chosen too, and says nothing: so it masks others of its name.
///
/// # Errors
///
/// `AllocError` at any allocation that fails.
pub fn choose(
    alloc: Global,
    etc: &[String],
    run: &[String],
    local: &[String],
    usr: &[String],
) -> Result<Vec<ChosenRules>, AllocError>
    ensures { IfOk result (λ all. map chosen_of all.items ≡ RuleFolders.choice
        (map string_bytes etc.now) (map string_bytes run.now)
        (map string_bytes local.now) (map string_bytes usr.now)) }
{
    let mut held = BTreeMap::new(alloc);
    put(&mut held, usr, Folder::Usr)?;
    put(&mut held, local, Folder::Local)?;
    put(&mut held, run, Folder::Run)?;
    put(&mut held, etc, Folder::Etc)?;
    listed(alloc, held)
}

/// The names in their order.
fn listed(alloc: Global, held: BTreeMap<&str, Folder>) -> Result<Vec<ChosenRules>, AllocError>
    ensures { IfOk result (λ all. map chosen_of all.items
        ≡ RuleFolders.listed (map entry_of held.entry.entries)) }
{
    let mut all = Vec::new(alloc);
    for (name, folder) in held {
        let name = String::from_str(alloc, name)?;
        all.push(ChosenRules { folder, name })?;
    }
    Ok(all)
}

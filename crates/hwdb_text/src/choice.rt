//! The choice of files: which names count, from which folder each is taken, and their priorities.
//!
//! hwdb(7): the files of both folders are taken together by their names, and one in /etc replaces one of its name in
//! /usr/lib. An index by name gives both, and their order.
ghost use Rattle.std.specs.Prelude.{◌≡◌, ◌<◌, ◌≤◌, [], length, map, All, IfOk, IsOk, OnOk};
ghost use Rattle.std.specs.Result.{IsErrOf};
ghost use Rattle.std.specs.String.{string_bytes};
ghost use Rattle.hwdb_text.specs.Views.{choice_of};
ghost use Rattle.hwdb_spec.specs.Folders.{max_files, path_of, names};
ghost use Rattle.hwdb_spec.specs.Selected.{IsListed};
ghost use Rattle.hwdb_text.specs.Views.{IsStorableChoice};
ghost use Rattle.hwdb_spec.specs.Folders;
ghost use Rattle.hwdb_text.specs.Internal.Choosing.{put_all, entry_of, with_priorities};

use crate::line::{begins_with, end_of};
use hwdb_spec::SelectError;
use std::alloc::{AllocError, Global};
use std::collections::BTreeMap;

/// How many files may be chosen: as many as there are priorities.
const MOST_FILES: usize = 65535;

/// A file that was chosen.
#[derive(Debug, Drop, PartialEq, Eq)]
pub struct Chosen {
    /// Whether it is in /etc; else it is in /usr/lib.
    pub from_etc: bool,
    /// Its name in its folder.
    pub name: String,
    /// One plus the number of chosen files with a smaller name.
    pub priority: u16,
}

/// A chosen file, and what it holds.
#[derive(Clone, Copy)]
pub struct ChosenFile<'a> {
    /// Its folder, name and priority.
    pub choice: &'a Chosen,
    /// What it holds.
    pub bytes: &'a [u8],
}

impl Chosen {
    /// The stored path: the folder, without the root that the program was given, and the name.
    pub fn path(&self, alloc: Global) -> Result<String, AllocError>
        ensures { IfOk result (λ path. string_bytes path ≡ path_of (choice_of self.now)) }
    {
        let mut path = String::new(alloc);
        if self.from_etc {
            path.push_str("/etc/udev/hwdb.d/")?;
            path.push_str(&self.name)?;
            return Ok(path);
        }
        path.push_str("/usr/lib/udev/hwdb.d/")?;
        path.push_str(&self.name)?;
        Ok(path)
    }
}

/// Whether a name counts. It ends in `.hwdb` (hwdb(7)), doesn't begin with `.` and has no byte 0 (our choice). Reads
/// the name once, and takes no memory.
pub fn counts(name: &[u8]) -> bool
    ensures { result ≡ Folders.counts name.now }
{
    if !name.ends_with(b".hwdb") {
        return false;
    }
    if begins_with(b'.', name) {
        return false;
    }
    end_of(0, name) == name.len()
}

/// Puts the names of a folder that count among the others. A name that is there already is taken from this folder.
fn put<'a>(
    names: &mut BTreeMap<&'a str, bool>,
    list: &'a [String],
    from_etc: bool,
) -> Result<(), AllocError>
    ensures names { OnOk result (map entry_of names.new.entries
        ≡ put_all from_etc (map string_bytes list.now) (map entry_of names.old.entries)) }
    ensures free { list.now ≡ [] → IsOk result }
{
    for name in list {
        if counts(name.as_bytes()) {
            names.insert(name.as_str(), from_etc)?;
        }
    }
    Ok(())
}

/// The chosen files by priority (hwdb(7)), of the names that the folders in /etc and in /usr/lib list, in any order.
///
/// The time is that of a sort of the names. Two empty lists take no memory.
///
/// # Errors
///
/// `TooManyFiles` if more than 65,535 files are chosen; `Memory` at any allocation that fails.
pub fn select(alloc: Global, etc: &[String], usr: &[String]) -> Result<Vec<Chosen>, SelectError>
    ensures chosen { IfOk result (λ chosen. map choice_of chosen.items
        ≡ Folders.choice (map string_bytes etc.now) (map string_bytes usr.now)) }
    ensures listed { IfOk result (λ chosen. All
        (IsListed (map string_bytes etc.now) (map string_bytes usr.now))
        (map choice_of chosen.items)) }
    ensures storable { IfOk result (λ chosen. All IsStorableChoice (map choice_of chosen.items)) }
    ensures few { IfOk result (λ _.
        length (names (map string_bytes etc.now) (map string_bytes usr.now)) ≤ max_files) }
    ensures too_many { IsErrOf result SelectError.TooManyFiles
        → max_files < length (names (map string_bytes etc.now) (map string_bytes usr.now)) }
    ensures free { etc.now ≡ [] → usr.now ≡ [] → IsOk result }
{
    let mut held = BTreeMap::new(alloc);
    put(&mut held, usr, false)?;
    put(&mut held, etc, true)?;
    if held.len() > MOST_FILES {
        return Err(SelectError::TooManyFiles);
    }
    Ok(list(alloc, held)?)
}

/// The names with their priorities.
fn list(alloc: Global, held: BTreeMap<&str, bool>) -> Result<Vec<Chosen>, AllocError>
    requires { length held.entries ≤ max_files }
    ensures chosen { IfOk result (λ chosen. map choice_of chosen.items
        ≡ with_priorities 1 (map entry_of held.entry.entries)) }
    ensures free { held.entry.entries ≡ [] → IsOk result }
{
    let mut chosen = Vec::new(alloc);
    let mut priority = 0;
    for (name, from_etc) in held {
        priority += 1;
        let name = String::from_str(alloc, name)?;
        chosen.push(Chosen {
            from_etc,
            name,
            priority,
        })?;
    }
    Ok(chosen)
}

//! The databases of both folders: where each is, and what is asked.
ghost use Rattle.std.specs.Prelude.{◌≡◌, ◌≤◌, ◌++◌, Some, option_map, string_bytes, IfOk, IfSome, length};
ghost use Rattle.hwdb_spec.specs.Store as spec;
ghost use Rattle.hwdb_spec.specs.System as Folder;
ghost use Rattle.hwdb_spec.specs.System.{asked_database, bytes_at};
ghost use Rattle.hwdb_spec.specs.Texts.{max_file};
ghost use Rattle.hwdb_spec_commands.specs.Refusals.{IsOfDatabase};
ghost use Rattle.hwdb_spec_commands.specs.Told.{IsReadTo, IsStop};
ghost use Rattle.hwdb_plan.specs.Asking.{asked, if_read, named};
ghost use Rattle.hwdb_plan.specs.Dump.{database_stop};
ghost use Rattle.hwdb_plan.specs.Plans.{Reaches};
ghost use Rattle.hwdb_plan.specs.Plans.Plan.{Input};

use hwdb_answers::ToolError;
use hwdb_replace::DATABASE;
use hwdb_system::{Refusal, System, joined, path_in};
use std::alloc::{AllocError, Global};

pub(crate) const ETC_FOLDER: &str = "/etc/udev";

pub(crate) const USR_FOLDER: &str = "/usr/lib/udev";

/// A database that was read, and where it is.
#[derive(Drop)]
pub struct FoundDatabase {
    /// Its path, with the root in front.
    pub path: String,
    /// What it holds.
    pub bytes: Vec<u8>,
}

/// The database that is asked: the one of `/etc` below the root, else the one of `/usr/lib`.
pub fn asked<D: System>(alloc: Global, root: &str, system: &D) -> Result<FoundDatabase, Refusal>
    ensures follows { D.Store.tells → Reaches (λ f. string_bytes f.path) (λ f. f.bytes.items)
        (D.System.reads system.now) (asked root.now) result }
    ensures asked { D.Store.tells → IfOk result
        (λ f. asked_database root.now (D.Store.seen system.now) ≡ Some f.bytes.items) }
    ensures within { IfOk result (λ f. length f.bytes.items ≤ max_file) }
{
    if let Some(found) = found_in(alloc, root, ETC_FOLDER, system)? {
        return Ok(found);
    }
    match found_in(alloc, root, USR_FOLDER, system)? {
        Some(found) => Ok(found),
        None => Err(Refusal::NoDatabase),
    }
}

/// The database in a folder below the root, if something is there.
pub(crate) fn found_in<D: System>(
    alloc: Global,
    root: &str,
    folder: &str,
    system: &D,
) -> Result<Option<FoundDatabase>, Refusal>
    ensures told { D.Store.tells → IsReadTo (λ found. option_map (λ f. f.bytes.items) found)
        ((D.System.reads system.now).database
        (spec.path_in (root.now ++ folder.now) spec.database_name))
        (spec.path_in (root.now ++ folder.now) spec.database_name) result }
    ensures found { D.Store.tells → IfOk result (λ found. option_map (λ f. f.bytes.items) found
        ≡ bytes_at (D.Store.seen system.now)
        (spec.path_in (root.now ++ folder.now) spec.database_name)) }
    ensures path { IfOk result (λ found. IfSome found (λ f. string_bytes f.path
        ≡ spec.path_in (root.now ++ folder.now) spec.database_name)) }
    ensures within { IfOk result (λ found. IfSome found (λ f. length f.bytes.items ≤ max_file)) }
{
    let path = database_path(alloc, root, folder)?;
    match system.database(alloc, path.as_str())? {
        Some(bytes) => Ok(Some(FoundDatabase { path, bytes })),
        None => Ok(None),
    }
}

/// The path of the database in a folder below the root.
pub(crate) fn database_path(alloc: Global, root: &str, folder: &str) -> Result<String, AllocError>
    ensures { IfOk result (λ path. string_bytes path
        ≡ spec.path_in (root.now ++ folder.now) spec.database_name) }
{
    let folder = joined(alloc, root, folder)?;
    path_in(alloc, folder.as_str(), DATABASE)
}

/// The database at the path, or if none is given the one that is asked.
pub fn named<D: System>(
    alloc: Global,
    root: &str,
    given: Option<&str>,
    system: &D,
) -> Result<FoundDatabase, Refusal>
    ensures follows { D.Store.tells → Reaches (λ f. string_bytes f.path) (λ f. f.bytes.items)
        (D.System.reads system.now) (named (option_map (λ t. t.now) given.entry) root.now)
        result }
    ensures within { IfOk result (λ f. length f.bytes.items ≤ max_file) }
{
    match given {
        None => asked(alloc, root, system),
        Some(path) => given_at(alloc, path, system),
    }
}

/// What is at a path.
fn given_at<D: System>(alloc: Global, path: &str, system: &D) -> Result<FoundDatabase, Refusal>
    ensures follows { D.Store.tells → Reaches (λ f. string_bytes f.path) (λ f. f.bytes.items)
        (D.System.reads system.now) (λ next. Input path.now (if_read path.now next)) result }
    ensures within { IfOk result (λ f. length f.bytes.items ≤ max_file) }
{
    let bytes = system.input(alloc, path)?;
    let path = String::from_str(alloc, path)?;
    Ok(FoundDatabase { path, bytes })
}

/// The error if the bytes of a database can't be answered from: a fault has their path.
pub(crate) fn refused_database(alloc: Global, error: ToolError, path: &[u8]) -> Refusal
    ensures is { IsOfDatabase error path.now result }
    ensures stops { IsStop (database_stop path.now error) result }
{
    match error {
        ToolError::BadDatabase(fault) => {
            Refusal::of_cause(alloc, ToolError::BadDatabase(fault), path, None)
        }
        error => Refusal::Plain(error),
    }
}

/// The folder of the database that is written.
pub fn database_folder(alloc: Global, root: &str, usr: bool) -> Result<String, AllocError>
    ensures { IfOk result (λ folder. string_bytes folder ≡ Folder.database_folder usr root.now) }
{
    let folder = if usr { USR_FOLDER } else { ETC_FOLDER };
    joined(alloc, root, folder)
}

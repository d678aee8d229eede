//! The text files that the paths of `check` mean: a path of a folder means the text files in it.
ghost use Rattle.std.specs.Prelude.{[], ◌∷◌, ◌++◌, false, ◌≡◌, ◌≤◌, ◌⊎◌, ◌<◌, length, map, string_bytes, IfErr, IfOk};
ghost use Rattle.hwdb_spec_commands.specs.CheckedFiles;
ghost use Rattle.hwdb_spec.specs.Folders.{choice, max_files, names};
ghost use Rattle.hwdb_spec_commands.specs.Given.{any_dash, is_dash};
ghost use Rattle.hwdb_spec.specs.Store as spec;
ghost use Rattle.hwdb_text.specs.Views.{choice_of};
ghost use Rattle.hwdb_spec_commands.specs.declared.refusals.Refusal.TheVariants.{Plain};
ghost use Rattle.hwdb_plan.specs.GivenFolders.{files_at, files_for, named_files};
ghost use Rattle.hwdb_plan.specs.Plans.{ReachesValue};

use crate::given::is_dash;
use hwdb_answers::ToolError;
use hwdb_system::{Refusal, System, path_in};
use hwdb_text::{Chosen, SelectError, select};
use std::alloc::{AllocError, Global};

/// A path without a slash at its end.
pub fn folder_of(path: &str) -> &str
    ensures { result.now ≡ CheckedFiles.folder_of path.now }
{
    match path.strip_suffix("/") {
        Some(folder) => folder,
        None => path,
    }
}

/// A path alone.
pub fn alone(alloc: Global, path: &str) -> Result<Vec<String>, AllocError>
    ensures { IfOk result (λ own. map string_bytes own.items ≡ path.now ∷ []) }
{
    let mut own = Vec::new(alloc);
    own.push(String::from_str(alloc, path)?)?;
    Ok(own)
}

/// The paths of chosen files of a folder.
fn paths_in(alloc: Global, folder: &str, chosen: &[Chosen]) -> Result<Vec<String>, AllocError>
    ensures { IfOk result (λ paths. map string_bytes paths.items
        ≡ map (λ c. spec.path_in folder.now c.name) (map choice_of chosen.now)) }
{
    let mut paths = Vec::new(alloc);
    for file in chosen {
        paths.push(path_in(alloc, folder, file.name.as_str())?)?;
    }
    Ok(paths)
}

/// The files that are chosen of a folder's text files alone.
fn chosen_of(alloc: Global, all: &[String]) -> Result<Vec<Chosen>, Refusal>
    ensures chosen { IfOk result (λ chosen.
        map choice_of chosen.items ≡ choice (map string_bytes all.now) []) }
    ensures few { IfOk result (λ _. length (names (map string_bytes all.now) []) ≤ max_files) }
    ensures refused { IfErr result (λ r. (r ≡ Plain ToolError.Memory)
        ⊎ ((r ≡ Plain ToolError.TooManyFiles)
        × (max_files < length (names (map string_bytes all.now) [])))) }
{
    match select(alloc, all, &[]) {
        Ok(chosen) => Ok(chosen),
        Err(SelectError::TooManyFiles) => Err(Refusal::Plain(ToolError::TooManyFiles)),
        Err(SelectError::Memory) => Err(Refusal::Plain(ToolError::Memory)),
    }
}

/// What a path means, if its folder has these text files.
pub fn files_in(alloc: Global, path: &str, all: &[String]) -> Result<Vec<String>, Refusal>
    ensures files { IfOk result (λ own. map string_bytes own.items
        ≡ CheckedFiles.files_in path.now (map string_bytes all.now)) }
    ensures few { IfOk result (λ _. length (names (map string_bytes all.now) []) ≤ max_files) }
    ensures refused { IfErr result (λ r. (r ≡ Plain ToolError.Memory)
        ⊎ ((r ≡ Plain ToolError.TooManyFiles)
        × (max_files < length (names (map string_bytes all.now) [])))) }
    ensures plain { is_dash path.now ≡ false
        → IfOk result (λ own. any_dash (map string_bytes own.items) ≡ false) }
{
    let chosen = chosen_of(alloc, all)?;
    if all.is_empty() {
        return Ok(alone(alloc, path)?);
    }
    Ok(paths_in(alloc, folder_of(path), &chosen)?)
}

/// What a path means that is no `-`.
fn files_at<D: System>(alloc: Global, path: &str, system: &D) -> Result<Vec<String>, Refusal>
    ensures told { D.Store.tells → ReachesValue (λ own. map string_bytes own.items)
        (D.System.reads system.now) (files_at path.now) result }
    ensures plain { is_dash path.now ≡ false
        → IfOk result (λ own. any_dash (map string_bytes own.items) ≡ false) }
{
    match system.folder_names(alloc, folder_of(path)) {
        Ok(Some(all)) => files_in(alloc, path, &all),
        Ok(None) => Ok(alone(alloc, path)?),
        Err(refusal) => Err(refusal),
    }
}

/// What a path means.
fn files_for<D: System>(alloc: Global, path: &str, system: &D) -> Result<Vec<String>, Refusal>
    ensures told { D.Store.tells → ReachesValue (λ own. map string_bytes own.items)
        (D.System.reads system.now) (files_for path.now) result }
    ensures plain { is_dash path.now ≡ false
        → IfOk result (λ own. any_dash (map string_bytes own.items) ≡ false) }
{
    if is_dash(path) {
        Ok(alone(alloc, path)?)
    } else {
        files_at(alloc, path, system)
    }
}

/// Adds some paths to others.
fn put_all(paths: &mut Vec<String>, own: Vec<String>) -> Result<(), AllocError>
    ensures { IfOk result (λ _. map string_bytes paths.new.items
        ≡ map string_bytes paths.old.items ++ map string_bytes own.items) }
{
    for path in own {
        paths.push(path)?;
    }
    Ok(())
}

/// The text files that the given paths mean, in their order: those of a folder by name. A path means itself if a file is
/// there, or a folder without text files; `-` does.
///
/// Errors are a folder that can't be listed, and one with more than 65,535 text files: that of the first such path.
pub fn named_files<D: System>(
    alloc: Global,
    given: &[String],
    system: &D,
) -> Result<Vec<String>, Refusal>
    ensures told { D.Store.tells → ReachesValue (λ paths. map string_bytes paths.items)
        (D.System.reads system.now) (named_files (map string_bytes given.now) []) result }
    ensures plain { any_dash (map string_bytes given.now) ≡ false
        → IfOk result (λ paths. any_dash (map string_bytes paths.items) ≡ false) }
{
    let mut paths = Vec::new(alloc);
    for path in given {
        let own = files_for(alloc, path.as_str(), system)?;
        put_all(&mut paths, own)?;
    }
    Ok(paths)
}

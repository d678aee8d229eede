//! The files that are compiled: those of two folders, and the chosen ones among them.
ghost use Rattle.std.specs.Prelude.{◌≡◌, ◌≤◌, ℕ, List, map, length, All, IfOk, IfErr, OnOk};
ghost use Rattle.std.specs.String.{string_bytes};
ghost use Rattle.hwdb_spec.specs.Folders.{chosen_of, first_of, max_files};
ghost use Rattle.hwdb_text.specs.Views.{choice_of, IsStorableChoice};
ghost use Rattle.hwdb_compile.specs.Views.{sources, name_of, AreChosenOf};
ghost use Rattle.hwdb_text.specs.Views.{choice_in};
ghost use Rattle.hwdb_spec.specs.CompileErrors.{IsChoiceRefusal};
ghost use Rattle.hwdb_compile.specs.Internal.Reading.{bytes_at};

use hwdb_spec::CompileError;
use hwdb_text::{Chosen, ChosenFile, Fault, select};
use std::alloc::{AllocError, Global};
use std::collections::BTreeMap;

/// A text file of a folder.
#[derive(Drop)]
pub struct SourceFile {
    /// Its name in the folder, as `20-usb.hwdb`.
    pub name: String,
    /// What it holds.
    pub bytes: Vec<u8>,
}

/// A fault, and the file that has it.
#[derive(Drop)]
pub struct FileFault {
    /// The stored path of the file.
    pub path: Vec<u8>,
    /// The fault.
    pub fault: Fault,
}

/// What files are compiled to.
#[derive(Drop)]
pub struct Compiled {
    /// The database.
    pub database: Vec<u8>,
    /// The faults, by the priority of their files, then by line, then by number.
    pub faults: Vec<FileFault>,
    /// How many assignments the files have, or the greatest number if they have more.
    pub given: usize,
}

/// The names of the files.
pub(crate) fn names(alloc: Global, files: &[SourceFile]) -> Result<Vec<String>, AllocError>
    ensures { IfOk result
        (λ names. map string_bytes names.items ≡ map name_of (sources files.now)) }
{
    let mut names = Vec::new(alloc);
    for file in files {
        let name = String::from_str(alloc, &file.name)?;
        names.push(name)?;
    }
    Ok(names)
}

/// Puts the files into the index of names. Each takes the place of an earlier one with its name, and of several in this
/// list the first counts.
fn put_files<'a>(
    index: &mut BTreeMap<&'a str, &'a [u8]>,
    files: &'a [SourceFile],
) -> Result<(), AllocError>
    ensures { OnOk result
        ((name : List ℕ)
        → bytes_at index.new name ≡ first_of name (sources files.now) (bytes_at index.old name)) }
{
    let mut rest = files;
    'files: while let Some((file, before)) = rest.split_last() {
        index.insert(&file.name, &file.bytes)?;
        rest = before;
    }
    Ok(())
}

/// The bytes of a file in the index; none if its name isn't there.
fn bytes_of<'a>(index: &BTreeMap<&str, &'a [u8]>, name: &str) -> &'a [u8]
    ensures { result.now ≡ bytes_at index.now name.now }
{
    match index.get(name) {
        Some(bytes) => bytes,
        None => &[],
    }
}

/// The chosen files by priority, among the files of the folders in /etc and in /usr/lib, which are in any order
/// (hwdb(7)).
///
/// Takes time and memory by the names alone, not by what the files hold.
///
/// # Errors
///
/// - [`CompileError::TooManyFiles`] if more than 65,535 files are chosen.
/// - [`CompileError::Memory`] at any allocation that fails.
pub fn choose(
    alloc: Global,
    etc: &[SourceFile],
    usr: &[SourceFile],
) -> Result<Vec<Chosen>, CompileError>
    ensures chosen { IfOk result
        (λ chosen. map choice_of chosen.items ≡ chosen_of (sources etc.now) (sources usr.now)) }
    ensures few { IfOk result
        (λ _. length (chosen_of (sources etc.now) (sources usr.now)) ≤ max_files) }
    ensures storable { IfOk result (λ chosen. All IsStorableChoice (map choice_of chosen.items)) }
    ensures refused { IfErr result (IsChoiceRefusal (sources etc.now) (sources usr.now)) }
{
    let etc_names = names(alloc, etc)?;
    let usr_names = names(alloc, usr)?;
    Ok(select(alloc, &etc_names, &usr_names)?)
}

/// Each of the files that [`choose`] gave, with what it holds. Of several files of one name in one list the first
/// counts. The bytes are borrowed, not copied.
///
/// # Errors
///
/// The only error is `AllocError`.
pub fn with_bytes<'a>(
    alloc: Global,
    chosen: &'a [Chosen],
    etc: &'a [SourceFile],
    usr: &'a [SourceFile],
) -> Result<Vec<ChosenFile<'a>>, AllocError>
    requires chosen { map choice_of chosen.now ≡ chosen_of (sources etc.now) (sources usr.now) }
    requires few { length (chosen_of (sources etc.now) (sources usr.now)) ≤ max_files }
    ensures files { IfOk result
        (λ files. AreChosenOf (sources etc.now) (sources usr.now) files.items) }
    ensures choices { IfOk result
        (λ files. map choice_in files.items ≡ map choice_of chosen.now) }
{
    let mut index = BTreeMap::new(alloc);
    put_files(&mut index, usr)?;
    put_files(&mut index, etc)?;
    let mut files = Vec::new(alloc);
    for choice in chosen {
        let bytes = bytes_of(&index, &choice.name);
        files.push(ChosenFile { choice, bytes })?;
    }
    Ok(files)
}

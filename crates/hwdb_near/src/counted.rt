//! How many assignments text files have.
ghost use Rattle.std.specs.Prelude.{◌≡◌, ◌++◌, flat_map, map, IfOk, OnOk};
ghost use Rattle.hwdb_compile.specs.Internal.Reading.{assignments_in};
ghost use Rattle.hwdb_compile.specs.Views.{ForFolders};
ghost use Rattle.hwdb_spec_commands.specs.Progress.{given_count};
ghost use Rattle.hwdb_text.specs.Views.{given_in};
ghost use Rattle.hwdb_near.specs.Views.{assignment_of, origin_of};

use crate::each_once::each_once;
use crate::wanted::FileAssignment;
use hwdb_spec::ScanError;
use hwdb_text::{Chosen, ChosenFile, Given, scan};
use std::alloc::{AllocError, Global};

/// Adds what a file gives. The only error is `AllocError`.
fn push_all<'a>(
    found: &mut Vec<FileAssignment<'a>>,
    file: &'a Chosen,
    all: &[Given<'a>],
) -> Result<(), AllocError>
    ensures { OnOk result (map assignment_of found.new.items
        ≡ map assignment_of found.old.items ++ map (given_in (origin_of file.entry.now)) all.now) }
{
    for given in all {
        found.push(FileAssignment {
            file,
            given: *given,
        })?;
    }
    Ok(())
}

/// Adds the assignments of a file, by line and match line.
fn push_file<'a>(
    alloc: Global,
    found: &mut Vec<FileAssignment<'a>>,
    file: ChosenFile<'a>,
) -> Result<(), ScanError>
    ensures { OnOk result (map assignment_of found.new.items
        ≡ map assignment_of found.old.items ++ assignments_in file.entry) }
{
    let scanned = scan(alloc, file.bytes)?;
    push_all(found, file.choice, &scanned.assignments)?;
    Ok(())
}

/// The assignments of chosen files, by priority, line and match line.
fn all_given<'a>(
    alloc: Global,
    files: &[ChosenFile<'a>],
) -> Result<Vec<FileAssignment<'a>>, ScanError>
    ensures { IfOk result
        (λ found. map assignment_of found.items ≡ flat_map assignments_in files.now) }
{
    let mut found = Vec::new(alloc);
    for file in files {
        push_file(alloc, &mut found, *file)?;
    }
    Ok(found)
}

/// How many assignments chosen files have, each pattern of a record counted once.
///
/// # Errors
///
/// `TooManyLines` if a file has more than 4,294,967,295 lines; `Memory` at any allocation that fails.
pub fn count_given(alloc: Global, files: &[ChosenFile<'_>]) -> Result<usize, ScanError>
    ensures { IfOk result (λ n. ForFolders files.now (λ etc usr. n ≡ given_count etc usr)) }
{
    let found = all_given(alloc, files)?;
    let each = each_once(alloc, &found)?;
    Ok(each.as_slice().len())
}

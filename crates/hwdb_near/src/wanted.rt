//! The assignments of text files whose pattern matches a device.
ghost use Rattle.std.specs.Prelude.{◌≡◌, ◌++◌, ◌∷◌, [], flat_map, filter, map, IfOk, OnOk};
ghost use Rattle.hwdb_compile.specs.Internal.Reading.{assignments_in};
ghost use Rattle.hwdb_spec.specs.Answers.{is_wanted};
ghost use Rattle.hwdb_text.specs.Views.{given_in};
ghost use Rattle.hwdb_near.specs.Views.{assignment_of, origin_of};

use crate::matching::hits;
use hwdb_spec::ScanError;
use hwdb_text::{Chosen, ChosenFile, Given, scan};
use std::alloc::{AllocError, Global};

/// An assignment, in the bytes of its file.
#[derive(Clone, Copy)]
pub(crate) struct FileAssignment<'a> {
    /// The file's folder, name and priority.
    pub(crate) file: &'a Chosen,
    /// What the file gives the pattern.
    pub(crate) given: Given<'a>,
}

/// Adds one of a file's assignments, if its pattern matches the device. The only error is `AllocError`.
fn push_given<'a>(
    alloc: Global,
    found: &mut Vec<FileAssignment<'a>>,
    file: &'a Chosen,
    given: Given<'a>,
    device: &[u8],
) -> Result<(), AllocError>
    ensures { OnOk result (map assignment_of found.new.items ≡ map assignment_of found.old.items
        ++ filter (is_wanted device.now)
        (map (given_in (origin_of file.entry.now)) (given.entry ∷ []))) }
{
    if hits(alloc, given.pattern, device)? {
        found.push(FileAssignment { file, given })?;
    }
    Ok(())
}

/// Adds those of them whose pattern matches the device.
fn push_all_given<'a>(
    alloc: Global,
    found: &mut Vec<FileAssignment<'a>>,
    file: &'a Chosen,
    all: &[Given<'a>],
    device: &[u8],
) -> Result<(), AllocError>
    ensures { OnOk result (map assignment_of found.new.items ≡ map assignment_of found.old.items
        ++ filter (is_wanted device.now) (map (given_in (origin_of file.entry.now)) all.now)) }
{
    for given in all {
        push_given(alloc, found, file, *given, device)?;
    }
    Ok(())
}

/// Adds those of a file whose pattern matches the device, by line and match line.
///
/// # Errors
///
/// `TooManyLines` if the file has more than 4,294,967,295 lines; `Memory` at any allocation that fails.
fn push_file<'a>(
    alloc: Global,
    found: &mut Vec<FileAssignment<'a>>,
    file: ChosenFile<'a>,
    device: &[u8],
) -> Result<(), ScanError>
    ensures { OnOk result (map assignment_of found.new.items ≡ map assignment_of found.old.items
        ++ filter (is_wanted device.now) (assignments_in file.entry)) }
{
    let scanned = scan(alloc, file.bytes)?;
    push_all_given(alloc, found, file.choice, &scanned.assignments, device)?;
    Ok(())
}

/// The assignments of chosen files whose pattern matches the device, by priority, line and match line. The errors are those of
/// `push_file`.
pub(crate) fn wanted<'a>(
    alloc: Global,
    files: &[ChosenFile<'a>],
    device: &[u8],
) -> Result<Vec<FileAssignment<'a>>, ScanError>
    ensures { IfOk result (λ found. map assignment_of found.items
        ≡ filter (is_wanted device.now) (flat_map assignments_in files.now)) }
{
    let mut found = Vec::new(alloc);
    for file in files {
        push_file(alloc, &mut found, *file, device)?;
    }
    Ok(found)
}

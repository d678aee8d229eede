//! A file, line by line.
ghost use Rattle.std.specs.Prelude.{◌≡◌, ◌+◌, ◌<◌, ◌≤◌, ◌↔◌, [], length, map, All, IfOk, IfErr, IsOk};
ghost use Rattle.std.specs.Result.{IsErrOf};
ghost use Rattle.hwdb_spec.specs.Lines.{lines};
ghost use Rattle.hwdb_spec.specs.Records.{Origin};
ghost use Rattle.hwdb_text.specs.Views.{origin};
ghost use Rattle.hwdb_text.specs.Views.{assigned, given_in};
ghost use Rattle.hwdb_spec.specs.Records;
ghost use Rattle.hwdb_spec.specs.Folders.{max_lines};
ghost use Rattle.hwdb_text.specs.Views.{IsStorable};

use crate::outcome::{Assignment, Given, Parsed, Scanned};
use crate::pieces::Lines;
use crate::records::Reader;
use hwdb_spec::ScanError;
use std::alloc::{AllocError, Global};

/// The number of the line after line `before`, which is 0 before the first line. Takes no memory.
///
/// # Errors
///
/// `TooManyLines` if `before` is 4,294,967,295, the greatest number that a line can have.
pub fn next_line(before: u32) -> Result<u32, ScanError>
    ensures next { IfOk result (λ number. number ≡ before + 1) }
    ensures fits { IfOk result (λ number. number ≤ max_lines) }
    ensures error { IfErr result (λ e. e ≡ ScanError.TooManyLines) }
    ensures too_many { IsErrOf result ScanError.TooManyLines ↔ (before ≡ max_lines) }
{
    if before == u32::MAX {
        Err(ScanError::TooManyLines)
    } else {
        Ok(before + 1)
    }
}

/// What a `.hwdb` file says (hwdb(7)), by one pass over its bytes, which it borrows from.
///
/// The memory is a record for each assignment and each fault, and the patterns of one record. An empty file takes none.
///
/// # Errors
///
/// `TooManyLines` if the file has more than 4,294,967,295 lines; `Memory` at any allocation that fails.
pub fn scan(alloc: Global, bytes: &[u8]) -> Result<Scanned<'_>, ScanError>
    ensures assignments { IfOk result (λ scanned. (o : Origin)
        → map (given_in o) scanned.assignments.items ≡ Records.assignments o bytes.now) }
    ensures faults { IfOk result (λ scanned. scanned.faults.items ≡ Records.faults bytes.now) }
    ensures storable { IfOk result (λ scanned. (o : Origin)
        → All IsStorable (map (given_in o) scanned.assignments.items)) }
    ensures few { IfOk result (λ _. length (lines bytes.now) ≤ max_lines) }
    ensures too_many { IsErrOf result ScanError.TooManyLines
        → max_lines < length (lines bytes.now) }
    ensures free { bytes.now ≡ [] → IsOk result }
{
    let mut reader = Reader::new(alloc);
    let mut number = 0;
    for text in Lines::new(bytes) {
        number = next_line(number)?;
        reader.line(text, number)?;
    }
    Ok(reader.finish()?)
}

/// A copy of what a property gives a pattern, in a file with this path and priority.
fn copy(
    alloc: Global,
    path: &[u8],
    priority: u16,
    given: &Given<'_>,
) -> Result<Assignment, AllocError>
    ensures { IfOk result (λ copied.
        assigned copied ≡ given_in (origin path.now priority) given.now) }
{
    Ok(Assignment {
        priority,
        line: given.line,
        pattern: Vec::from_slice(alloc, given.pattern)?,
        key: Vec::from_slice(alloc, given.key)?,
        value: Vec::from_slice(alloc, given.value)?,
        path: Vec::from_slice(alloc, path)?,
    })
}

/// Copies of what the properties of a file with this path and priority give.
fn copies(
    alloc: Global,
    path: &[u8],
    priority: u16,
    all: &[Given<'_>],
) -> Result<Vec<Assignment>, AllocError>
    ensures copied { IfOk result (λ copied. map assigned copied.items
        ≡ map (given_in (origin path.now priority)) all.now) }
    ensures free { all.now ≡ [] → IsOk result }
{
    let mut copied = Vec::with_capacity(alloc, all.len())?;
    for given in all {
        copied.push(copy(alloc, path, priority, given)?)?;
    }
    Ok(copied)
}

/// What a `.hwdb` file says, as [`scan`] reads it, in copies. `path` is its stored path, `priority` its place among the
/// chosen files.
///
/// Each assignment has four texts of its own. An empty file takes no memory.
///
/// # Errors
///
/// `TooManyLines` if the file has more than 4,294,967,295 lines; `Memory` at any allocation that fails.
pub fn parse(alloc: Global, path: &[u8], priority: u16, bytes: &[u8]) -> Result<Parsed, ScanError>
    ensures assignments { IfOk result (λ parsed. map assigned parsed.assignments.items
        ≡ Records.assignments (origin path.now priority) bytes.now) }
    ensures faults { IfOk result (λ parsed. parsed.faults.items ≡ Records.faults bytes.now) }
    ensures storable { IfOk result (λ parsed.
        All IsStorable (map assigned parsed.assignments.items)) }
    ensures few { IfOk result (λ _. length (lines bytes.now) ≤ max_lines) }
    ensures too_many { IsErrOf result ScanError.TooManyLines
        → max_lines < length (lines bytes.now) }
    ensures free { bytes.now ≡ [] → IsOk result }
{
    let scanned = scan(alloc, bytes)?;
    let assignments = copies(alloc, path, priority, &scanned.assignments)?;
    Ok(Parsed {
        assignments,
        faults: scanned.faults,
    })
}

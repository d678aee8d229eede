//! The texts of the errors that only callers of the libraries see; the program's are lines.
use hwdb_compile::CompileError;
use hwdb_query::{CursorError, PositionError};
use hwdb_text::{ScanError, SelectError};
use hwdb_writer::StoreError;
use std::alloc::Global;
use std::fmt::Display;
use std::test::Fail;

const MEMORY: &str = "out of memory";

const FILES: &str = "more than 65535 files";

const LINES: &str = "a file has more than 4294967295 lines";

const PAGE: &str = "a page holds at least one hit";

const LARGE: &str = "the database would be larger than the limit";

/// Whether the text of an error is this one.
fn says<E: Display>(alloc: Global, error: &E, text: &str) -> Result<bool, Fail> {
    Ok(format!(in alloc; "{error}")?.as_str() == text)
}

#[test]
fn of_files(rt: HostRuntime) -> Result<(), Fail> {
    assert!(rt; says(rt.alloc(), &SelectError::TooManyFiles, FILES)?);
    assert!(rt; says(rt.alloc(), &SelectError::Memory, MEMORY)?);
    assert!(rt; says(rt.alloc(), &ScanError::TooManyLines, LINES)?);
    assert!(rt; says(rt.alloc(), &ScanError::Memory, MEMORY)?);
    Ok(())
}

#[test]
fn of_databases(rt: HostRuntime) -> Result<(), Fail> {
    for (error, text) in [(StoreError::TooLarge, LARGE), (StoreError::Memory, MEMORY)] {
        assert!(rt; says(rt.alloc(), &error, text)?);
    }
    assert!(rt; says(rt.alloc(), &CursorError::PageZero, PAGE)?);
    assert!(rt; says(rt.alloc(), &CursorError::Memory, MEMORY)?);
    assert!(rt; says(rt.alloc(), &PositionError::BadPosition, "bad position")?);
    assert!(rt; says(rt.alloc(), &PositionError::Memory, MEMORY)?);
    Ok(())
}

#[test]
fn of_compiling(rt: HostRuntime) -> Result<(), Fail> {
    let rows = [
        (CompileError::TooManyFiles, FILES),
        (CompileError::TooManyLines, LINES),
        (CompileError::TooLarge, LARGE),
        (CompileError::Memory, MEMORY),
    ];
    for (error, text) in rows {
        assert!(rt; says(rt.alloc(), &error, text)?);
    }
    Ok(())
}

//! What `near` prints of text files, or of a database.
ghost use Rattle.std.specs.Prelude.{◌≡◌, map, IfErr, IfOk};
ghost use Rattle.hwdb_spec_commands.specs.Databases.{IsTextOf};
ghost use Rattle.hwdb_spec_commands.specs.NearAsked.{database_patterns, near_form, patterns_from};
ghost use Rattle.hwdb_near.specs.Refusals.{IsNearRefusal};
ghost use Rattle.hwdb_near.specs.Views.{pattern_at, source_of};

use crate::databases::patterns_of;
use crate::found::PatternAt;
use crate::patterns::{PatternFile, patterns_of_files};
use crate::printing::{near_json, near_text};
use hwdb_databases::assignments;
use hwdb_reader::check;
use hwdb_spec::NearError;
use std::alloc::{AllocError, Global};

/// What is printed of some patterns, as text or with `json`.
fn printed(
    alloc: Global,
    patterns: &[PatternAt<'_>],
    device: &[u8],
    limit: usize,
    json: bool,
) -> Result<Vec<u8>, AllocError>
    ensures { IfOk result (λ text. text.items
        ≡ near_form json device.now limit (map pattern_at patterns.now)) }
{
    if json {
        near_json(alloc, patterns, device, limit)
    } else {
        near_text(alloc, patterns, device, limit)
    }
}

/// The reports of the patterns of text files that match the device, and of at most so many of those that don't: the nearest.
/// The place of a file is its number, from one on. The only error is `AllocError`.
pub fn near_in_files(
    alloc: Global,
    files: &[PatternFile<'_>],
    device: &[u8],
    limit: usize,
    json: bool,
) -> Result<Vec<u8>, AllocError>
    ensures { IfOk result (λ text. text.items
        ≡ near_form json device.now limit (patterns_from 1 (map source_of files.now))) }
{
    let patterns = patterns_of_files(alloc, files)?;
    printed(alloc, &patterns, device, limit, json)
}

/// The same of the patterns of a database, each at the first file and line that gives it a property. Checks the bytes.
pub fn near_in_database(
    alloc: Global,
    bytes: &[u8],
    device: &[u8],
    limit: usize,
    json: bool,
) -> Result<Vec<u8>, NearError>
    ensures text { IfOk result (λ text. IsTextOf
        (λ tree. near_form json device.now limit (database_patterns tree)) bytes.now text.items) }
    ensures errors { IfErr result (IsNearRefusal bytes.now) }
{
    let db = match check(bytes) {
        Ok(db) => db,
        Err(fault) => return Err(NearError::Database(fault)),
    };
    let found = assignments(alloc, &db)?;
    let patterns = patterns_of(alloc, &found)?;
    Ok(printed(alloc, &patterns, device, limit, json)?)
}

//! `verify`: whether bytes are a database, and how much is in it.
ghost use Rattle.std.specs.Prelude.{◌≡◌, ◌++◌, IfOk, IfErr, OnOk};
ghost use Rattle.hwdb_spec_commands.specs.Databases.{IsSummary};
ghost use Rattle.hwdb_spec_commands.specs.Summary.{count_line, counts_text, depth_warning, summary_text};
ghost use Rattle.hwdb_spec_commands.specs.VerifyErrors.{IsVerifyRefusal};
ghost use Rattle.hwdb_databases.specs.Views.{summary_shown};

use crate::summary::{Counts, summarize};
use hwdb_reader::check;
use hwdb_spec::VerifyError;
use itoa::Buffer;
use std::alloc::{AllocError, Global};

/// Adds the line of a number.
pub(crate) fn push_count(text: &mut Vec<u8>, name: &str, count: u64) -> Result<(), AllocError>
    ensures { OnOk result (text.new.items ≡ text.old.items ++ count_line name.now count) }
{
    let mut number = Buffer::new();
    text.extend_from_slice(name.as_bytes())?;
    text.extend_from_slice(b": ")?;
    text.extend_from_slice(number.format(count).as_bytes())?;
    text.push(b'\n')?;
    Ok(())
}

/// The lines of a summary.
fn counts_of(alloc: Global, counts: Counts) -> Result<Vec<u8>, AllocError>
    ensures { IfOk result (λ text. text.items ≡ counts_text (summary_shown counts)) }
{
    let mut text = Vec::new(alloc);
    push_count(&mut text, "files", counts.files as u64)?;
    push_count(&mut text, "patterns", counts.patterns as u64)?;
    push_count(&mut text, "keys", counts.keys as u64)?;
    push_count(&mut text, "assignments", counts.assignments as u64)?;
    push_count(&mut text, "nodes", counts.nodes)?;
    push_count(&mut text, "depth", counts.depth as u64)?;
    push_count(&mut text, "bytes", counts.bytes as u64)?;
    Ok(text)
}

/// How many nodes one below the other udev of systemd 262 enters, the root counted.
const DEEPEST_FOR_UDEV: usize = 2048;

/// What is said of a database by its depth, if it is too deep for udev.
const TOO_DEEP: &str = "warning: udev of systemd 262 refuses a depth of more than 2048\n";

/// Adds it, if the depth is greater.
fn push_depth_warning(text: &mut Vec<u8>, depth: usize) -> Result<(), AllocError>
    ensures { OnOk result (text.new.items ≡ text.old.items ++ depth_warning depth) }
{
    if depth > DEEPEST_FOR_UDEV {
        text.extend_from_slice(TOO_DEEP.as_bytes())?;
    }
    Ok(())
}

/// The lines of a summary, and a warning if udev can't take the database.
fn lines_of(alloc: Global, counts: Counts) -> Result<Vec<u8>, AllocError>
    ensures { IfOk result (λ text. text.items ≡ summary_text (summary_shown counts)) }
{
    let mut text = counts_of(alloc, counts)?;
    push_depth_warning(&mut text, counts.depth)?;
    Ok(text)
}

/// Checks the bytes, and says how much is in the database. There is a line for each of these numbers: its files,
/// patterns, keys, assignments and nodes, the most nodes on one path, and its bytes. A file, pattern or key counts if it
/// has an assignment. A line after them warns of a database that is too deep for udev.
///
/// The memory is all assignments, and one of their texts each. The time is that of sorting these three times.
pub fn verify(alloc: Global, bytes: &[u8]) -> Result<Vec<u8>, VerifyError>
    ensures text { IfOk result (λ text. IsSummary bytes.now text.items) }
    ensures errors { IfErr result (IsVerifyRefusal bytes.now) }
{
    let db = match check(bytes) {
        Ok(db) => db,
        Err(fault) => return Err(VerifyError::Database(fault)),
    };
    let counts = summarize(alloc, bytes.len(), &db)?;
    Ok(lines_of(alloc, counts)?)
}

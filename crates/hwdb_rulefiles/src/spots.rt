//! Where a finding is in its file.
ghost use Rattle.std.specs.Prelude.{◌≡◌, ◌<◌, ◌^◌, ◌≤◌, map, IfOk};
ghost use Rattle.hwdb_rulefiles.specs.RuleText;
ghost use Rattle.hwdb_rulefiles.specs.RuleSpots;
ghost use Rattle.hwdb_rulefiles.specs.Views.{text_of, reading_of};

use crate::findings::Finding;
use crate::rows::{begins_with, rows_of, unindented};
use crate::whole::Reader;
use std::alloc::{AllocError, Global};

/// A line and a column of a file, both from 1.
#[derive(Clone, Copy, Debug, PartialEq, Eq)]
pub struct Spot {
    /// The line.
    pub line: usize,
    /// The column, in bytes.
    pub column: usize,
}

/// The place, if it is in the row with this index, of which `text` is without blanks.
fn here(reader: &Reader, index: usize, row: &[u8], place: usize, before: Spot) -> Spot
    requires { index < 2 ^ 63 }
    ensures { result ≡ RuleSpots.here (reading_of reader.now) index row.now place before }
{
    let text = unindented(row);
    if begins_with(b'#', text) {
        return before;
    }
    let indent = row.len().saturating_sub(text.len());
    let within = place.saturating_sub(reader.text.len()).min(text.len());
    Spot {
        line: index + 1,
        column: indent + within + 1,
    }
}

/// The spot of a place in the line that begins at a row with this number.
pub fn spot_of(alloc: Global, rows: &[&[u8]], line: usize, place: usize) -> Result<Spot, AllocError>
    ensures { IfOk result (λ s. s ≡ RuleSpots.spot_of (map text_of rows.now) line place) }
{
    let mut reader = Reader::new(alloc);
    let mut spot = Spot { line, column: 1 };
    let mut index = line.saturating_sub(1);
    while index < rows.len() {
        if place < reader.text.len() {
            return Ok(spot);
        }
        spot = here(&reader, index, rows[index], place, spot);
        reader.row(alloc, index + 1, rows[index])?;
        index += 1;
        if !reader.held {
            return Ok(spot);
        }
    }
    Ok(spot)
}

/// The spots of some findings of a file, in their order.
///
/// # Errors
///
/// `AllocError` at any allocation that fails.
pub fn spots_of(alloc: Global, file: &[u8], findings: &[Finding]) -> Result<Vec<Spot>, AllocError>
    ensures { IfOk result (λ all. all.items
        ≡ map (RuleSpots.spot (RuleText.rows file.now)) findings.now) }
{
    let rows = rows_of(alloc, file)?;
    let mut all = Vec::new(alloc);
    for finding in findings {
        all.push(spot_of(alloc, &rows, finding.line, finding.place)?)?;
    }
    Ok(all)
}

//! Printing the hits of a cursor, one line after another.
ghost use Rattle.std.specs.Prelude.{flat_map, ◌≡◌, OnOk, IfErr, IsErrOf};
ghost use Rattle.hwdb_spec.specs.Flushing.{HandsOn};
ghost use Rattle.hwdb_spec.specs.Outputs.{CutShort, Took};
ghost use Rattle.hwdb_answers.specs.Lookups.{IsPrintRefusal, TookLines, one_less};
ghost use Rattle.hwdb_spec_commands.specs.Listings.{line_of, list_page};
ghost use Rattle.hwdb_query.specs.Views.{assignment_of_hit};
ghost use Rattle.hwdb_spec.specs.Texts.{within_limit};

use crate::json_lines::hit_json_line;
use crate::texts::set_hit_line;
use hwdb_io::{Sink, write_text};
use hwdb_query::{Cursor, Hit};
use hwdb_spec::ToolError;
use std::alloc::{AllocError, Global};

/// Makes a text the line of a hit: with tabs between its parts, or as an object of JSON.
///
/// The only error is want of memory.
pub fn set_line(
    alloc: Global,
    line: &mut Vec<u8>,
    hit: &Hit<'_>,
    json: bool,
) -> Result<(), AllocError>
    ensures { OnOk result (line.new.items ≡ line_of json (assignment_of_hit hit.now)) }
{
    if json {
        *line = hit_json_line(alloc, hit)?;
        Ok(())
    } else {
        set_hit_line(line, hit)
    }
}

/// A limit after one more line.
fn one_less(limit: Option<u64>) -> Option<u64>
    ensures { result ≡ one_less limit }
{
    match limit {
        Some(n) => Some(n.saturating_sub(1)),
        None => None,
    }
}

/// Prints a line for each of the first `limit` hits that the cursor has still to yield. It holds at most a page of 64.
pub fn print_hits<O: Sink>(
    alloc: Global,
    hits: &mut Cursor<'_, '_>,
    limit: Option<u64>,
    json: bool,
    out: &mut O,
) -> Result<(), ToolError>
    requires page { hits.old.page ≡ list_page }
    ensures printed { OnOk result
        (Took (flat_map (line_of json) (within_limit limit hits.old.to_come))
        (O.taken out.old) (O.taken out.new) (O.failures out.old) (O.failures out.new)) }
    ensures refusals { IfErr result IsPrintRefusal }
    ensures cut_short { IsErrOf result ToolError.Write
        → CutShort (flat_map (line_of json) (within_limit limit hits.old.to_come))
        (O.taken out.old) (O.taken out.new) (O.failures out.old) (O.failures out.new) }
    ensures whole_lines { IsErrOf result ToolError.Memory
        → TookLines (line_of json) (within_limit limit hits.old.to_come)
        (O.taken out.old) (O.taken out.new) (O.failures out.old) (O.failures out.new) }
    ensures hands_on { HandsOn (O.is_flushed out.old) (O.is_flushed out.new)
        (O.failures out.old) (O.failures out.new) }
{
    let mut line = Vec::new(alloc);
    let mut left = limit;
    'printing: while left != Some(0) {
        let Some(hit) = hits.next()? else {
            return Ok(());
        };
        set_line(alloc, &mut line, &hit, json)?;
        write_text(out, &line)?;
        left = one_less(left);
    }
    Ok(())
}

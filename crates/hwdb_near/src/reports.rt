//! What is printed of patterns as text.
ghost use Rattle.std.specs.Prelude.{◌≡◌, ◌++◌, flat_map, map, OnOk};
ghost use Rattle.hwdb_spec_commands.specs.Near.{marked, match_report, near_report, said_line};
ghost use Rattle.hwdb_near.specs.Views.{pattern_at};
ghost use Rattle.hwdb_near.specs.Internal.Ratings.{rated_of};

use crate::found::{PatternAt, Rated};
use crate::fronts::stops;
use crate::reasons::{Rest, after, push_why};
use hwdb_show::{push_mark_line, push_name, push_shown_line};
use itoa::Buffer;
use std::alloc::{AllocError, Global};

/// Adds the line of a place: its path and line, `: `, and what is said of its pattern.
fn push_said_line(text: &mut Vec<u8>, at: &PatternAt<'_>, said: &[u8]) -> Result<(), AllocError>
    ensures { OnOk result
        (text.new.items ≡ text.old.items ++ said_line (pattern_at at.now) said.now) }
{
    let mut digits = Buffer::new();
    push_name(text, at.path)?;
    text.push(b':')?;
    text.extend_from_slice(digits.format(at.line).as_bytes())?;
    text.push(b':')?;
    text.push(b' ')?;
    text.extend_from_slice(said)?;
    text.push(b'\n')?;
    Ok(())
}

/// Adds a line as it is shown, and the mark below its byte after so many others.
fn push_marked(alloc: Global, text: &mut Vec<u8>, line: &[u8], at: usize) -> Result<(), AllocError>
    ensures { OnOk result (text.new.items ≡ text.old.items ++ marked line.now at) }
{
    push_shown_line(text, line, at)?;
    push_mark_line(alloc, text, line, at)
}

/// Adds the report of a pattern that matches.
fn push_match(text: &mut Vec<u8>, at: &PatternAt<'_>) -> Result<(), AllocError>
    ensures { OnOk result (text.new.items ≡ text.old.items ++ match_report (pattern_at at.now)) }
{
    push_said_line(text, at, b"the pattern matches")?;
    push_shown_line(text, at.pattern, 0)
}

/// Adds the report of a pattern that doesn't match: why it stops, and the pattern and the device, each with a mark.
pub(crate) fn push_near(
    alloc: Global,
    text: &mut Vec<u8>,
    device: &[u8],
    near: &Rated<'_>,
) -> Result<(), AllocError>
    ensures { OnOk result
        (text.new.items ≡ text.old.items ++ near_report device.now (rated_of near.now)) }
{
    let pattern = near.at.pattern;
    let stop = stops(alloc, pattern, device)?;
    let mut why = Vec::new(alloc);
    let rest = Rest {
        met: stop.device,
        wanted: after(pattern, stop.pattern),
        left: after(device, stop.device),
    };
    push_why(&mut why, pattern, device, rest)?;
    push_said_line(text, &near.at, &why)?;
    push_marked(alloc, text, pattern, stop.pattern)?;
    push_marked(alloc, text, device, stop.device)
}

/// Adds the reports of patterns that match.
pub(crate) fn push_matches(text: &mut Vec<u8>, all: &[PatternAt<'_>]) -> Result<(), AllocError>
    ensures { OnOk result
        (text.new.items ≡ text.old.items ++ flat_map match_report (map pattern_at all.now)) }
{
    for at in all {
        push_match(text, at)?;
    }
    Ok(())
}

/// Adds the reports of patterns that don't match.
pub(crate) fn push_nearest(
    alloc: Global,
    text: &mut Vec<u8>,
    device: &[u8],
    all: &[Rated<'_>],
) -> Result<(), AllocError>
    ensures { OnOk result (text.new.items
        ≡ text.old.items ++ flat_map (near_report device.now) (map rated_of all.now)) }
{
    for near in all {
        push_near(alloc, text, device, near)?;
    }
    Ok(())
}

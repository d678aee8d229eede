//! What is printed of patterns as lines of JSON.
ghost use Rattle.std.specs.Prelude.{◌≡◌, ◌++◌, flat_map, length, map, IfOk, OnOk};
ghost use Rattle.json.specs.Tree.{json_tokens};
ghost use Rattle.hwdb_spec_commands.specs.Json.{json_line};
ghost use Rattle.hwdb_spec_commands.specs.Near.{match_json_line, near_json_line, place_json};
ghost use Rattle.hwdb_near.specs.Views.{pattern_at};
ghost use Rattle.hwdb_near.specs.Internal.Ratings.{rated_of};

use crate::found::{PatternAt, Rated};
use crate::fronts::stops;
use hwdb_show::{ended, put_count, put_flag, put_member};
use json::Writer;
use std::alloc::{AllocError, Global};

/// How far a pattern and a device go together, and whether the pattern matches.
#[derive(Clone, Copy)]
struct Agreement {
    pattern: usize,
    device: usize,
    matches: bool,
}

/// Adds the object of a pattern and a device. The only error, here and below, is `AllocError`.
fn put_place(
    json: &mut Writer,
    device: &[u8],
    at: &PatternAt<'_>,
    reach: Agreement,
) -> Result<(), AllocError>
    ensures before { json.new.before ≡ json.old.before }
    ensures tokens { OnOk result (json.new.tokens ≡ json.old.tokens ++ json_tokens
        (place_json device.now (pattern_at at.now)
        reach.pattern reach.device reach.matches)) }
{
    json.begin_object()?;
    put_member(json, "path", at.path)?;
    put_count(json, "line", at.line)?;
    put_member(json, "pattern", at.pattern)?;
    put_count(json, "pattern_byte", reach.pattern as u64)?;
    put_member(json, "device", device)?;
    put_count(json, "device_byte", reach.device as u64)?;
    put_flag(json, "matches", reach.matches)?;
    json.end_object()
}

/// The line of a pattern and a device.
fn place_line(
    alloc: Global,
    device: &[u8],
    at: &PatternAt<'_>,
    reach: Agreement,
) -> Result<Vec<u8>, AllocError>
    ensures { IfOk result (λ line. line.items ≡ json_line (place_json device.now
        (pattern_at at.now) reach.pattern reach.device reach.matches)) }
{
    let mut json = Writer::new(Vec::new(alloc));
    put_place(&mut json, device, at, reach)?;
    ended(alloc, json)
}

/// Adds the line of a pattern that matches.
fn push_match(
    alloc: Global,
    text: &mut Vec<u8>,
    device: &[u8],
    at: &PatternAt<'_>,
) -> Result<(), AllocError>
    ensures { OnOk result (text.new.items
        ≡ text.old.items ++ match_json_line device.now (pattern_at at.now)) }
{
    let reach = Agreement {
        pattern: at.pattern.len(),
        device: device.len(),
        matches: true,
    };
    let line = place_line(alloc, device, at, reach)?;
    text.extend_from_slice(&line)?;
    Ok(())
}

/// Adds the line of a pattern that doesn't match.
fn push_near(
    alloc: Global,
    text: &mut Vec<u8>,
    device: &[u8],
    near: &Rated<'_>,
) -> Result<(), AllocError>
    ensures { OnOk result (text.new.items
        ≡ text.old.items ++ near_json_line device.now (rated_of near.now)) }
{
    let stop = stops(alloc, near.at.pattern, device)?;
    let reach = Agreement {
        pattern: stop.pattern,
        device: stop.device,
        matches: false,
    };
    let line = place_line(alloc, device, &near.at, reach)?;
    text.extend_from_slice(&line)?;
    Ok(())
}

/// Adds the lines of patterns that match.
pub(crate) fn push_matches(
    alloc: Global,
    text: &mut Vec<u8>,
    device: &[u8],
    all: &[PatternAt<'_>],
) -> Result<(), AllocError>
    ensures { OnOk result (text.new.items
        ≡ text.old.items ++ flat_map (match_json_line device.now) (map pattern_at all.now)) }
{
    for at in all {
        push_match(alloc, text, device, at)?;
    }
    Ok(())
}

/// Adds the lines of patterns that don't match.
pub(crate) fn push_nearest(
    alloc: Global,
    text: &mut Vec<u8>,
    device: &[u8],
    all: &[Rated<'_>],
) -> Result<(), AllocError>
    ensures { OnOk result (text.new.items
        ≡ text.old.items ++ flat_map (near_json_line device.now) (map rated_of all.now)) }
{
    for near in all {
        push_near(alloc, text, device, near)?;
    }
    Ok(())
}

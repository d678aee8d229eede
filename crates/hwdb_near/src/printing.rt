//! What `near` prints of some patterns and a device.
ghost use Rattle.std.specs.Prelude.{◌≡◌, map, IfOk};
ghost use Rattle.hwdb_spec_commands.specs.Near;
ghost use Rattle.hwdb_near.specs.Views.{pattern_at};

use crate::found::PatternAt;
use crate::nearest::nearest_of;
use crate::{json_lines, reports};
use std::alloc::{AllocError, Global};

/// The reports of the patterns that match the device, and of at most so many of those that don't: the nearest.
///
/// The only error is `AllocError`. Each pattern is compared with the device once, and those that don't match are sorted.
/// The memory is a record for each pattern, the text, and for one pattern at a time a place for each of its bytes.
pub fn near_text(
    alloc: Global,
    patterns: &[PatternAt<'_>],
    device: &[u8],
    limit: usize,
) -> Result<Vec<u8>, AllocError>
    ensures { IfOk result (λ text. text.items
        ≡ Near.near_text device.now limit (map pattern_at patterns.now)) }
{
    let found = nearest_of(alloc, patterns, device, limit)?;
    let mut text = Vec::new(alloc);
    reports::push_matches(&mut text, &found.matching)?;
    reports::push_nearest(alloc, &mut text, device, &found.nearest)?;
    Ok(text)
}

/// As `near_text`, a line of JSON for each pattern.
pub fn near_json(
    alloc: Global,
    patterns: &[PatternAt<'_>],
    device: &[u8],
    limit: usize,
) -> Result<Vec<u8>, AllocError>
    ensures { IfOk result (λ text. text.items
        ≡ Near.near_json device.now limit (map pattern_at patterns.now)) }
{
    let found = nearest_of(alloc, patterns, device, limit)?;
    let mut text = Vec::new(alloc);
    json_lines::push_matches(alloc, &mut text, device, &found.matching)?;
    json_lines::push_nearest(alloc, &mut text, device, &found.nearest)?;
    Ok(text)
}

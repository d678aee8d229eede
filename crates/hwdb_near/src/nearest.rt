//! Those of some patterns that match a device, and the nearest of those that don't.
ghost use Rattle.std.specs.Prelude.{◌≡◌, ◌++◌, ◌∷◌, [], map, reverse, IfOk, OnOk};
ghost use Rattle.hwdb_spec_commands.specs.Near;
ghost use Rattle.hwdb_spec_commands.specs.Near.{matching, nearest};
ghost use Rattle.hwdb_near.specs.Views.{pattern_at};
ghost use Rattle.hwdb_near.specs.Internal.Ratings.{hitting, misses, rated_of};

use crate::found::{PatternAt, Rated, by_file_and_line, nearest_first};
use crate::matching::hits;
use crate::rating::{fold_case, rate};
use std::alloc::{AllocError, Global};

/// A device's text, as patterns are compared with it.
#[derive(Clone, Copy)]
struct ComparedDevice<'d> {
    /// As it is.
    text: &'d [u8],
    /// In lower case.
    folded: &'d [u8],
    /// In lower case, from the right.
    reversed: &'d [u8],
}

/// What was found.
#[derive(Drop)]
pub(crate) struct FoundPatterns<'a> {
    /// The patterns that match.
    pub(crate) matching: Vec<PatternAt<'a>>,
    /// Those that don't.
    pub(crate) nearest: Vec<Rated<'a>>,
}

impl<'a> FoundPatterns<'a> {
    /// Takes one more pattern. The only error, here and below, is `AllocError`.
    fn put(
        &mut self,
        alloc: Global,
        at: PatternAt<'a>,
        device: ComparedDevice<'_>,
    ) -> Result<(), AllocError>
        requires folded { device.folded.now ≡ Near.folded device.text.now }
        requires reversed { device.reversed.now ≡ reverse device.folded.now }
        ensures matching { OnOk result (map pattern_at self.new.matching.items
            ≡ map pattern_at self.old.matching.items
            ++ hitting device.entry.text.now (pattern_at at.entry ∷ [])) }
        ensures nearest { OnOk result (map rated_of self.new.nearest.items
            ≡ map rated_of self.old.nearest.items
            ++ misses device.entry.text.now (pattern_at at.entry ∷ [])) }
    {
        let is_hit = hits(alloc, at.pattern, device.text)?;
        if is_hit {
            self.matching.push(at)?;
            return Ok(());
        }
        let near = rate(alloc, at.pattern, device.folded, device.reversed)?;
        self.nearest.push(Rated {
            missing: near.missing,
            front: near.front,
            at,
        })?;
        Ok(())
    }
}

/// Those of the patterns that match the device, and each that doesn't with how near it is.
fn all_found<'a>(
    alloc: Global,
    patterns: &[PatternAt<'a>],
    device: &[u8],
) -> Result<FoundPatterns<'a>, AllocError>
    ensures matching { IfOk result (λ f. map pattern_at f.matching.items
        ≡ hitting device.now (map pattern_at patterns.now)) }
    ensures nearest { IfOk result (λ f. map rated_of f.nearest.items
        ≡ misses device.now (map pattern_at patterns.now)) }
{
    let folded = fold_case(alloc, device)?;
    let mut reversed = fold_case(alloc, device)?;
    reversed.reverse();
    let device = ComparedDevice {
        text: device,
        folded: &folded,
        reversed: &reversed,
    };
    let mut found = FoundPatterns {
        matching: Vec::new(alloc),
        nearest: Vec::new(alloc),
    };
    for at in patterns {
        found.put(alloc, *at, device)?;
    }
    Ok(found)
}

/// Those of the patterns that match the device, by file and line, and at most so many of those that don't: the nearest.
pub(crate) fn nearest_of<'a>(
    alloc: Global,
    patterns: &[PatternAt<'a>],
    device: &[u8],
    limit: usize,
) -> Result<FoundPatterns<'a>, AllocError>
    ensures matching { IfOk result (λ f. map pattern_at f.matching.items
        ≡ matching device.now (map pattern_at patterns.now)) }
    ensures nearest { IfOk result (λ f. map rated_of f.nearest.items
        ≡ nearest device.now limit (map pattern_at patterns.now)) }
{
    let FoundPatterns { matching, nearest } = all_found(alloc, patterns, device)?;
    Ok(FoundPatterns {
        matching: by_file_and_line(matching),
        nearest: nearest_first(nearest, limit),
    })
}

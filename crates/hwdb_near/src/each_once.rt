//! Some assignments, each once: a match line that is in its record twice gives each of its assignments twice.
ghost use Rattle.std.specs.Prelude.{◌≡◌, map, IfOk, OnOk};
ghost use Rattle.hwdb_spec_commands.specs.Once.{once};
ghost use Rattle.hwdb_near.specs.Views.{assignment_of};
ghost use Rattle.hwdb_near.specs.Internal.Once.{TakesOnce};

use crate::wanted::FileAssignment;
use std::alloc::{AllocError, Global};
use std::collections::BTreeSet;

/// The priority of a file, a line, a pattern and a key.
type Place<'a> = (u16, (u32, (&'a [u8], &'a [u8])));

/// Takes one more assignment, which comes before those so far. `kept` has these from the last to the first, and `seen` their
/// places. The only error, here and below, is `AllocError`.
fn take<'a>(
    seen: &mut BTreeSet<Place<'a>>,
    kept: &mut Vec<FileAssignment<'a>>,
    at: FileAssignment<'a>,
) -> Result<(), AllocError>
    ensures { OnOk result (TakesOnce seen.old kept.old.items at.entry seen.new kept.new.items) }
{
    let texts = (at.given.pattern, at.given.key);
    let is_new = seen.insert((at.file.priority, (at.given.line, texts)))?;
    if is_new {
        kept.push(at)?;
        return Ok(());
    }
    Ok(())
}

/// Each of some assignments once, in their order. It takes a look in a set for each.
pub(crate) fn each_once<'a>(
    alloc: Global,
    all: &[FileAssignment<'a>],
) -> Result<Vec<FileAssignment<'a>>, AllocError>
    ensures { IfOk result (λ kept. map assignment_of kept.items
        ≡ once (map assignment_of all.now)) }
{
    let mut seen = BTreeSet::new(alloc);
    let mut kept = Vec::new(alloc);
    let mut left = all.len();
    while left > 0 {
        left -= 1;
        take(&mut seen, &mut kept, all[left])?;
    }
    kept.reverse();
    Ok(kept)
}

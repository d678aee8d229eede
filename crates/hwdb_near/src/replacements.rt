//! Which of some assignments a later one replaced.
//!
//! They are gone through from the last to the first. A map has the last one with each pattern and key, so that each takes one
//! look.
ghost use Rattle.std.specs.Prelude.{◌≡◌, map, IfOk, OnOk};
ghost use Rattle.hwdb_spec_commands.specs.Replacements;
ghost use Rattle.hwdb_near.specs.Views.{assignment_of, replacement_of};
ghost use Rattle.hwdb_near.specs.Internal.Places.{Takes};

use crate::wanted::FileAssignment;
use std::alloc::{AllocError, Global};
use std::collections::BTreeMap;

/// A pattern and a key.
type PatternAndKey<'a> = (&'a [u8], &'a [u8]);

/// An assignment, and the one that replaced it.
#[derive(Clone, Copy)]
pub(crate) struct Replaced<'a> {
    /// What was replaced.
    pub(crate) old: FileAssignment<'a>,
    /// What replaced it.
    pub(crate) new: FileAssignment<'a>,
}

/// Takes one more assignment, which comes before those so far. `pairs` has what was replaced of these, from the last to the
/// first. The only error, here and below, is `AllocError`.
fn take<'a>(
    last: &mut BTreeMap<PatternAndKey<'a>, FileAssignment<'a>>,
    pairs: &mut Vec<Replaced<'a>>,
    old: FileAssignment<'a>,
) -> Result<(), AllocError>
    ensures { OnOk result (Takes last.old pairs.old.items old.entry last.new pairs.new.items) }
{
    let place = (old.given.pattern, old.given.key);
    match last.get(&place).copied() {
        Some(new) => {
            pairs.push(Replaced { old, new })?;
        }
        None => {
            last.insert(place, old)?;
        }
    }
    Ok(())
}

/// What was replaced of some assignments, in their order, and by which of them. It takes a look in a map for each.
pub(crate) fn replacements<'a>(
    alloc: Global,
    all: &[FileAssignment<'a>],
) -> Result<Vec<Replaced<'a>>, AllocError>
    ensures { IfOk result (λ pairs. map replacement_of pairs.items
        ≡ Replacements.replacements (map assignment_of all.now)) }
{
    let mut last = BTreeMap::new(alloc);
    let mut pairs = Vec::new(alloc);
    let mut left = all.len();
    while left > 0 {
        left -= 1;
        take(&mut last, &mut pairs, all[left])?;
    }
    pairs.reverse();
    Ok(pairs)
}

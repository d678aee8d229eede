//! The explanation of what a device is told: for each key the answers that it has.
ghost use Rattle.std.specs.Prelude.{◌≡◌, List, IfOk, None};
ghost use Rattle.hwdb_spec.specs.Tree.{answers, IsTreeOfFiles};
ghost use Rattle.hwdb_spec.specs.Folders.{Source, all_assignments};
ghost use Rattle.hwdb_spec.specs.Answers.{last_assignments};
ghost use Rattle.hwdb_spec.specs.Explanations.{explained};
ghost use Rattle.hwdb_query.specs.Views.{explained_values};

use crate::all_hits::AllHits;
use crate::answer::Explained;
use crate::descent::descend;
use hwdb_pattern::matches_is_tested;
use hwdb_reader::Db;
use std::alloc::{AllocError, Global};

/// For each key among the answers for the device its answers, ascending by key, the last answer first: that one counts,
/// and overrides the others. Keys, values and paths are parts of the database's bytes.
///
/// Over the database of some files the answers are the last assignments of each pattern and key that the files have.
///
/// One descent of the tree; the time grows with the number of answers `n` as `n log n`. The memory is a record for each
/// answer. The only error is `AllocError`.
pub fn explain<'a>(
    alloc: Global,
    db: &Db<'a>,
    device: &[u8],
) -> Result<Vec<Explained<'a>>, AllocError>
    ensures list { IfOk result
        (λ list. explained_values list.items ≡ explained (answers device.now db.now)) }
    ensures headline { IfOk result
        (λ list. (etc usr : List Source) → IsTreeOfFiles etc usr db.now
        → explained_values list.items
        ≡ explained (last_assignments device.now None (all_assignments etc usr))) }
{
    matches_is_tested();
    let root = db.root();
    let mut all = AllHits::new(alloc);
    descend(alloc, root, device, &mut all)?;
    all.by_key(alloc)?.explained(alloc)
}

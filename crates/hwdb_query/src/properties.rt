//! The effective list: for each key the value that counts.
ghost use Rattle.std.specs.Prelude.{◌≡◌, List, [], IfOk, OnOk, None};
ghost use Rattle.hwdb_spec.specs.Tree.{answers, IsTreeOfFiles};
ghost use Rattle.hwdb_spec.specs.Folders.{Source, all_assignments};
ghost use Rattle.hwdb_spec.specs.Answers.{last_assignments, effective_of};
ghost use Rattle.hwdb_query.specs.Views.{pairs_bytes};

use crate::descent::descend;
use crate::last_hits::LastHits;
use hwdb_pattern::matches_is_tested;
use hwdb_reader::Db;
use std::alloc::{AllocError, Global};

/// For each key among the answers for the device the value of the last answer with that key, ascending by key. Keys and
/// values are parts of the database's bytes.
///
/// Over the database of some files the answers are the last assignments of each pattern and key that the files have.
///
/// One descent of the tree. The memory is a pair for each key, and a copy of each pattern that has the last answer of
/// one. The only error is `AllocError`.
pub fn effective<'a>(
    alloc: Global,
    db: &Db<'a>,
    device: &[u8],
) -> Result<Vec<(&'a [u8], &'a [u8])>, AllocError>
    ensures list { IfOk result
        (λ list. pairs_bytes list.items ≡ effective_of (answers device.now db.now)) }
    ensures headline { IfOk result
        (λ list. (etc usr : List Source) → IsTreeOfFiles etc usr db.now
        → pairs_bytes list.items
        ≡ effective_of (last_assignments device.now None (all_assignments etc usr))) }
{
    matches_is_tested();
    let root = db.root();
    let mut last = LastHits::new(alloc);
    descend(alloc, root, device, &mut last)?;
    last.pairs(alloc)
}

//! What takes the assignments of a descent.
ghost use Rattle.std.specs.Prelude.{List, [], ◌++◌, OnOk};
ghost use Rattle.hwdb_spec.specs.Assignment.{Assignment};
ghost use Rattle.hwdb_spec.specs.Tree.{values_of};
ghost use Rattle.hwdb_reader.specs.Views.{entered_tree};
ghost use Rattle.hwdb_query.specs.Internal.Members.{own_members};

use hwdb_reader::Inside;
use std::alloc::{AllocError, Global};

/// What takes the assignments of a descent, one node's after another's: a page, the last hit of each key, or all hits.
pub(crate) trait Collector<'a> {
    /// What it becomes when it takes some assignments.
    ghost collects: { Self → List Assignment → Self → Type 0 };

    /// Takes what the values of a node assign at a pattern.
    fn collect(
        &mut self,
        alloc: Global,
        inside: Inside<'a>,
        pattern: &[u8],
    ) -> Result<(), AllocError>
        ensures { OnOk result
            (collects self.old
            (own_members pattern.now (values_of (entered_tree inside.entry))) self.new) };

    /// It stays what it is when it takes nothing, and takes one list after another.
    fn law_collects(&self)
        ensures none { (a : Self) → collects a [] a }
        ensures more { (a b c : Self) (xs ys : List Assignment)
            → collects a xs b → collects b ys c → collects a (xs ++ ys) c };
}

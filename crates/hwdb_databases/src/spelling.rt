//! A path that is read bit by bit, while the walk that it belongs to goes on.
ghost use Rattle.std.specs.Prelude.{◌≡◌, ◌≤◌, List, length, take, OnOk};
ghost use Rattle.hwdb_databases.specs.declared.trail.Segment.{Segment};
ghost use Rattle.hwdb_databases.specs.Internal.Trails.{path_in};
ghost use Rattle.hwdb_databases.specs.Internal.Spellings.{IsSpelling};

use crate::trail::{Segment, push_segment};
use std::alloc::{AllocError, Global};

/// The bytes of the first segments of a way.
#[derive(Drop)]
pub(crate) struct Spelling {
    pub bytes: Vec<u8>,
    /// For each of these segments, how many bytes are before it.
    froms: Vec<usize>,
}

impl Spelling {
    /// No segment was read.
    pub(crate) fn new(alloc: Global) -> Spelling
        ensures { (way : List Segment) → IsSpelling way result }
    {
        Spelling {
            bytes: Vec::new(alloc),
            froms: Vec::new(alloc),
        }
    }

    /// Keeps the bytes of the first segments, at most of so many.
    pub(crate) fn cut(&mut self, count: usize)
        ensures few { length self.new.froms.items ≤ count }
        ensures froms { self.new.froms.items ≡ take count self.old.froms.items }
        ensures spelling { (way : List Segment)
            → IsSpelling way self.old → IsSpelling way self.new }
    {
        if count >= self.froms.len() {
            return;
        }
        let from = self.froms[count];
        self.bytes.truncate(from);
        self.froms.truncate(count);
    }

    /// Reads what is left of a way. The only error is `AllocError`.
    pub(crate) fn read(&mut self, way: &[Segment<'_>]) -> Result<(), AllocError>
        requires { IsSpelling way.now self.old }
        ensures spelling { OnOk result (IsSpelling way.now self.new) }
        ensures bytes { OnOk result (self.new.bytes.items ≡ path_in way.now) }
    {
        'segments: while self.froms.len() < way.len() {
            let segment = way[self.froms.len()];
            self.froms.push(self.bytes.len())?;
            push_segment(&mut self.bytes, &segment)?;
        }
        Ok(())
    }
}

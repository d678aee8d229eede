//! The path of a node, whose end isn't copied before something needs it.
//!
//! A prefix may have millions of stars, and many nodes may share it. Most of them have no value that needs the path.
ghost use Rattle.std.specs.Prelude.{◌≡◌, ◌≤◌, [], length, take, OnOk};
ghost use Rattle.hwdb_query.specs.Internal.LongPaths.{path_of};

use std::alloc::{AllocError, Global};

/// The bytes that were copied, and those after them, a part of the database.
#[derive(Drop)]
pub(crate) struct LongPath<'a> {
    pub copied: Vec<u8>,
    pub tail: &'a [u8],
}

impl<'a> LongPath<'a> {
    /// The empty path.
    pub(crate) fn new(alloc: Global) -> Self
        ensures copied { result.copied.items ≡ [] }
        ensures tail { result.tail.now ≡ [] }
    {
        LongPath {
            copied: Vec::new(alloc),
            tail: b"",
        }
    }

    /// Copies what isn't copied yet.
    pub(crate) fn settle(&mut self) -> Result<(), AllocError>
        ensures copied { OnOk result (self.new.copied.items ≡ path_of self.old) }
        ensures tail { OnOk result (self.new.tail.now ≡ []) }
    {
        self.copied.extend_from_slice(self.tail)?;
        self.tail = b"";
        Ok(())
    }

    /// Leaves the path's first bytes, which are copied then.
    pub(crate) fn cut(&mut self, size: usize) -> Result<(), AllocError>
        requires { size ≤ length (path_of self.old) }
        ensures copied { OnOk result (self.new.copied.items ≡ take size (path_of self.old)) }
        ensures tail { OnOk result (self.new.tail.now ≡ []) }
    {
        if self.copied.len() < size {
            self.settle()?;
        }
        self.copied.truncate(size);
        self.tail = b"";
        Ok(())
    }
}

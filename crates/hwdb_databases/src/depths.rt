//! How deep a database is.
ghost use Rattle.std.specs.Prelude.{◌≡◌, IfOk};
ghost use Rattle.hwdb_spec_commands.specs.Summary.{depth};

use crate::walk::Walk;
use hwdb_reader::Db;
use std::alloc::{AllocError, Global};

/// How many nodes of a database are one below the other at most, the root counted. It is walked once. The only error is
/// `AllocError`.
pub fn depth_of(alloc: Global, db: &Db<'_>) -> Result<usize, AllocError>
    ensures { IfOk result (λ deepest. deepest ≡ depth db.now) }
{
    let _root = db.root();
    let mut walk = Walk::start(alloc, false, db)?;
    'nodes: while let Some(_inside) = walk.at {
        walk.next()?;
    }
    Ok(walk.deepest)
}

//! Whether bytes are a database.
//!
//! The check reads the header, and then walks the nodes from the root. It is done once, before any answer. So a query
//! reads the whole file: an answer from a part of it could be an answer of no database. After it no read tests an
//! offset again, and none can fail.
//!
//! Each node is visited once. Of the strings only the keys of nodes with two values or more are read. Offsets are
//! compared with the sections' ends. No memory is asked for: the open nodes and the table of repeats are on the stack,
//! some 40 KB in all. For databases as `systemd-hwdb` makes them, the time is that of one pass. For hostile ones no
//! bound by the length alone is claimed: docs/speed.md has the shapes and times.
ghost use Rattle.std.specs.Prelude.{◌<◌, IfOk, OnErr, IfErr, length};
ghost use Rattle.hwdb_spec.specs.Tree.{Tree};
ghost use Rattle.hwdb_reader.specs.Views.{node_count};
ghost use Rattle.hwdb_spec.specs.Format.{IsDatabase, Applies};

use crate::header::check_header;
use crate::stars::no_stars;
use crate::view::{Db, Node};
use crate::walk::walk;
use hwdb_spec::DbFault;

/// How many nodes there may be on one path, the root counted. Our choice: a pattern of a text file has at most 4,096
/// bytes.
pub const MAX_LEVELS: usize = 4097;

/// Tests whether the bytes are a database in the format of `hwdb-internal.h`, and answers a view of it. The view
/// borrows the bytes.
///
/// The error is the first of the faults B1 to B5 that applies. If none of these does, it is one of B6 to B11, with its
/// offset in bytes. Takes no memory from the allocator, and a fixed piece of the thread's stack. Visits each node once;
/// docs/speed.md has times.
pub fn check(bytes: &[u8]) -> Result<Db<'_>, DbFault>
    // The view has the tree that the bytes are a database of.
    ensures accepted { IfOk result (λ db. IsDatabase bytes.now db) }
    // A counter from 0 can enter each node once.
    ensures nodes { IfOk result (λ db. node_count db < length bytes.now) }
    // Only bytes that are no database of any tree give an error.
    ensures refused { OnErr result ((t : Tree) → IsDatabase bytes.now t → ⊥) }
    ensures fault { IfErr result (λ e. Applies bytes.now e) }
{
    let frame = check_header(bytes)?;
    let root = frame.sizes.root;
    let strings = frame.sizes.strings;
    let end = walk(bytes, frame, frame.sizes.nodes, root, strings)?;
    if end != strings {
        return Err(DbFault::Place(root as u64));
    }
    Ok(Db {
        root: Node {
            bytes,
            frame,
            levels: MAX_LEVELS,
            offset: root,
            stars: no_stars(),
        },
    })
}

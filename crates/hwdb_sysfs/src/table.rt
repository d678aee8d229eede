//! A tree in memory that tells its answers, for laws and tests: what is at each path.
ghost use Rattle.std.specs.Prelude.{◌≡◌, ◌≤◌, IfOk, Ok, length, option_map};
ghost use Rattle.hwdb_spec_commands.specs.SysfsAnswers.{IsTold};
ghost use Rattle.hwdb_sysfs.specs.Tables.{answers_of, page_if, row_at};

use crate::files::{DeviceFiles, DeviceNode, NO_ENTRY};
use hwdb_io::Cause;
use std::alloc::{AllocError, Global};

/// What a path leads to.
#[derive(Drop)]
pub struct Row {
    /// The path.
    pub path: Vec<u8>,
    /// The path of what it leads to, with no link in it: its own if it is no link.
    pub place: Vec<u8>,
    /// What is there.
    pub thing: Thing,
}

/// What is at a place.
#[derive(Drop)]
pub enum Thing {
    /// A regular file with these bytes.
    File(Vec<u8>),
    /// A folder that lists these names, each with byte 0 after it.
    Folder(Vec<u8>),
    /// A device's node.
    Node(DeviceNode),
}

/// What is at each path. Of two rows of a path the first counts.
#[derive(Drop)]
pub struct Table {
    /// A row for each path.
    pub rows: Vec<Row>,
}

impl Table {
    /// The row of a path.
    fn row(&self, path: &[u8]) -> Option<&Row>
        ensures { option_map (λ r. r.now) result ≡ row_at self.now.rows.items path.now }
    {
        let mut left = self.rows.as_slice();
        'rows: while let Some((row, rest)) = left.split_first() {
            if row.path.as_slice().cmp(path).is_eq() {
                return Some(row);
            }
            left = rest;
        }
        None
    }
}

/// A copy of some bytes.
fn copied(alloc: Global, bytes: &[u8]) -> Result<Vec<u8>, Cause>
    ensures { IsTold (λ v. v.items) (Ok bytes.now) result }
{
    match Vec::from_slice(alloc, bytes) {
        Ok(copy) => Ok(copy),
        Err(AllocError) => Err(Cause::Memory),
    }
}

/// A copy of the bytes of a file of a page at most.
fn copied_page(alloc: Global, bytes: &[u8]) -> Result<Vec<u8>, Cause>
    ensures told { IsTold (λ v. v.items) (page_if bytes.now) result }
    ensures short { IfOk result (λ v. length v.items ≤ 4096) }
{
    if bytes.len() > 4096 {
        return Err(Cause::Unknown);
    }
    copied(alloc, bytes)
}

impl DeviceFiles for Table {
    ghost tells = { Unit {0} };

    ghost answers = { λ t. answers_of t.rows.items };

    ghost bare = { ⊥ };

    fn real_path(&self, alloc: Global, path: &[u8]) -> Result<Vec<u8>, Cause> {
        match self.row(path) {
            Some(row) => copied(alloc, &row.place),
            None => Err(Cause::System(NO_ENTRY)),
        }
    }

    fn node_at(&self, place: &[u8]) -> Result<Option<DeviceNode>, Cause> {
        match self.row(place) {
            Some(
                Row {
                    thing: Thing::Node(node),
                    ..
                },
            ) => Ok(Some(*node)),
            Some(_) => Ok(None),
            None => Err(Cause::System(NO_ENTRY)),
        }
    }

    fn is_file(&self, place: &[u8]) -> Result<bool, Cause> {
        match self.row(place) {
            Some(
                Row {
                    thing: Thing::File(_),
                    ..
                },
            ) => Ok(true),
            Some(_) => Ok(false),
            None => Err(Cause::System(NO_ENTRY)),
        }
    }

    fn page_of(&self, alloc: Global, place: &[u8]) -> Result<Vec<u8>, Cause> {
        match self.row(place) {
            Some(
                Row {
                    thing: Thing::File(bytes),
                    ..
                },
            ) => copied_page(alloc, bytes),
            Some(_) => Err(Cause::Unknown),
            None => Err(Cause::System(NO_ENTRY)),
        }
    }

    fn listing_of(&self, alloc: Global, place: &[u8]) -> Result<Vec<u8>, Cause> {
        match self.row(place) {
            Some(
                Row {
                    thing: Thing::Folder(names),
                    ..
                },
            ) => copied(alloc, names),
            Some(_) => Err(Cause::Unknown),
            None => Err(Cause::System(NO_ENTRY)),
        }
    }
}

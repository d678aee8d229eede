//! Stored nodes and their values as a database has them, but for offsets: strings have numbers, and records have none yet.
ghost use Rattle.std.specs.Prelude.{◌≡◌, ◌++◌, ◌∷◌, [], ◌+◌, ◌*◌, ◌^◌, ◌≤◌, ◌<◌, List, OnOk, IfOk, length, map, flat_map};
ghost use Rattle.std.specs.Bool.{OnTrue, OnFalse};
ghost use Rattle.hwdb_spec.specs.Tree.{Value};
ghost use Rattle.hwdb_spec.specs.Written.{strings_of_value};
ghost use Rattle.hwdb_writer.specs.declared.entries.Setting.{Setting as EntryRecord};
ghost use Rattle.hwdb_writer.specs.Internal.Entries.{value_of};
ghost use Rattle.hwdb_writer.specs.Internal.Membership.{SameMembers};
ghost use Rattle.hwdb_writer.specs.Internal.Stored.{Grows, AreValues, IsUnder, AreKept, IsKept};

use crate::entries::{HeadedEntry, Setting};
use crate::interner::Interner;
use crate::keyed::KeyedStr;
use crate::nodes::BuiltNode;
use crate::records::record_length;
use std::alloc::{AllocError, Global};

/// A value of a node, with its strings by number.
#[derive(Clone, Copy)]
pub struct StoredValue {
    pub key: u32,
    pub value: u32,
    pub path: u32,
    pub line: u32,
    pub priority: u16,
}

/// A node, in a list in which each comes after its children. It has the byte that leads to it, the number of the string
/// after that byte, and how many values and children it has.
#[derive(Clone, Copy)]
pub struct StoredNode {
    pub byte: u8,
    pub children: u16,
    pub prefix: u32,
    pub count: u32,
}

/// The nodes that are closed, the values of all of them one after another, and their strings. The records have `size` bytes, or that is
/// the greatest number.
///
/// Strings have numbers of 4 bytes. If these don't do for one more node, it isn't kept, and the list is full: its records are then too
/// long for any database.
#[derive(Drop)]
pub struct Stored<'t> {
    pub nodes: Vec<StoredNode>,
    pub values: Vec<StoredValue>,
    pub interner: Interner<'t>,
    pub size: usize,
    pub is_full: bool,
}

/// The numbers of the last value's key and path, or 0 if there is none. Most values have the key and path of the value
/// before them.
fn last_key_and_path(values: &[StoredValue]) -> (u32, u32) {
    match values.last() {
        Some(last) => (last.key, last.path),
        None => (0, 0),
    }
}

/// Appends an entry's value.
fn push_value<'t>(
    entry: &Setting<'t>,
    interner: &mut Interner<'t>,
    out: &mut Vec<StoredValue>,
) -> Result<(), AllocError>
    requires few { length interner.old + 3 ≤ 2 ^ 32 }
    ensures few { OnOk result (length interner.new ≤ length interner.old + 3) }
    ensures grows { OnOk result (Grows interner.old interner.new) }
    ensures members { OnOk result (SameMembers interner.new
        (interner.old ++ strings_of_value (value_of entry.now))) }
    ensures values { OnOk result ((xs : List Value)
        → AreValues (IsUnder interner.old) out.old.items xs
        → AreValues (IsUnder interner.new) out.new.items
        (xs ++ value_of entry.now ∷ [])) }
{
    let (near_key, near_path) = last_key_and_path(out);
    let key = interner.intern_near(KeyedStr::spaced(entry.key), near_key)?;
    let value = interner.intern(KeyedStr::new(entry.value))?;
    let path = interner.intern_near(KeyedStr::new(entry.path), near_path)?;
    out.push(StoredValue {
        key,
        value,
        path,
        line: entry.line,
        priority: entry.priority,
    })?;
    Ok(())
}

/// Appends the values of the entries.
fn push_values<'t>(
    entries: &[HeadedEntry<'_, 't>],
    interner: &mut Interner<'t>,
    out: &mut Vec<StoredValue>,
) -> Result<(), AllocError>
    requires few { length interner.old + 3 * length entries.now ≤ 2 ^ 32 }
    ensures few { OnOk result
        (length interner.new ≤ length interner.old + 3 * length entries.now) }
    ensures grows { OnOk result (Grows interner.old interner.new) }
    ensures members { OnOk result (SameMembers interner.new
        (interner.old ++ flat_map strings_of_value (map value_of entries.now))) }
    ensures values { OnOk result ((xs : List Value)
        → AreValues (IsUnder interner.old) out.old.items xs
        → AreValues (IsUnder interner.new) out.new.items
        (xs ++ map value_of entries.now)) }
{
    for headed in entries {
        push_value(headed.entry(), interner, out)?;
    }
    Ok(())
}

/// The number of the last node's string, or 0 if there is none. Many nodes have the string of the node before them.
fn last_prefix(nodes: &[StoredNode]) -> u32 {
    match nodes.last() {
        Some(last) => last.prefix,
        None => 0,
    }
}

/// For how many nodes of so many entries there is room from the start. At most two come for an entry: the one that is opened
/// for it, and the rest of one that is cut. In people's files fewer do, and unused room would lie between what is used again.
fn room_for(entries: usize) -> usize {
    (entries / 2).saturating_add(entries).saturating_add(1)
}

impl<'t> Stored<'t> {
    /// No node, and room for those of so many entries.
    pub fn new(alloc: Global, entries: usize) -> Result<Stored<'t>, AllocError>
        ensures { IfOk result (λ stored. (es : List EntryRecord) → AreKept es [] stored) }
    {
        let nodes = Vec::with_capacity(alloc, room_for(entries))?;
        let values = Vec::with_capacity(alloc, entries)?;
        // Most keys and paths come again, and so does the string of many a node.
        let interner = Interner::new(alloc, entries, entries.saturating_mul(2))?;
        Ok(Stored {
            nodes,
            values,
            interner,
            size: 0,
            is_full: false,
        })
    }

    /// Whether there are numbers for the strings of one more node, which has so many values.
    fn has_numbers(&self, values: usize) -> bool
        ensures yes { OnTrue result (length self.now.interner + 3 * values + 1 ≤ 2 ^ 32) }
        ensures no { OnFalse result (2 ^ 32 < length self.now.interner + 3 * values + 1) }
    {
        let strings = values.saturating_mul(3).saturating_add(self.interner.len());
        strings <= u32::MAX as usize
    }

    /// Adds a node, with its values among the entries.
    pub fn push(
        &mut self,
        node: BuiltNode<'t>,
        entries: &[HeadedEntry<'_, 't>],
    ) -> Result<(), AllocError>
        requires { node.first + node.count ≤ length entries.now }
        ensures { OnOk result (IsKept entries.now node.entry self.old self.new) }
    {
        let length = record_length(node.children as usize, node.count);
        self.size = self.size.saturating_add(length);
        if !self.has_numbers(node.count) {
            self.is_full = true;
            return Ok(());
        }
        let near = last_prefix(&self.nodes);
        let prefix = self.interner.intern_near(KeyedStr::new(node.prefix), near)?;
        let own = &entries[node.first..node.first + node.count];
        push_values(own, &mut self.interner, &mut self.values)?;
        self.nodes.push(StoredNode {
            byte: node.byte,
            prefix,
            count: node.count as u32,
            children: node.children,
        })?;
        Ok(())
    }
}

//! The written form of a tree: its header, nodes section and string section.
ghost use Rattle.std.specs.Prelude.{◌≡◌, ◌<◌, ◌≤◌, ◌++◌, ◌+◌, ◌^◌, OnOk, IfOk, MatchOption, flat_map, length, map, List, ℕ};
ghost use Rattle.std.specs.Result.{IsErrOf};
ghost use Rattle.byteorder.specs.Endian.{little_bytes};
ghost use Rattle.hwdb_spec.specs.Written.{text_size, record_at, written, IsWritten, IsLonger, IsDatabaseOf};
ghost use Rattle.hwdb_writer.specs.declared.entries.Setting.{Setting as EntryRecord};
ghost use Rattle.hwdb_writer.specs.declared.nodes.BuiltNode.{BuiltNode};
ghost use Rattle.hwdb_writer.specs.Internal.Narrow.{IsNarrow};
ghost use Rattle.hwdb_writer.specs.Internal.PostOrder.{tree_of, IsPostOrder};
ghost use Rattle.std.specs.List.{AllByRecursion};
ghost use Rattle.hwdb_spec.specs.Tree.{surviving};
ghost use Rattle.hwdb_writer.specs.Internal.Entries.{assignment_of, IsStorableEntry};
ghost use Rattle.hwdb_writer.specs.Internal.Stored.{IsAt, AreNodes, IsStored, IsLaidOut, IsMade};

use crate::assignments::Assignments;
use crate::builder::post_order;
use crate::entries::{Setting, last_of_each};
use crate::memory::keep_pages;
use crate::records::{
    CHILD_SIZE, HEADER_SIZE, NODE_SIZE, VALUE_SIZE, push_records, push_u64, record_length,
};
use crate::stored::{Stored, StoredNode, StoredValue};
use crate::strings::table_of;
use hwdb_spec::StoreError;
use std::alloc::{AllocError, Global};

/// The version of the tool in the header: our choice.
const TOOL_VERSION: usize = 1;

/// Appends numbers, each in 8 bytes.
fn push_numbers(out: &mut Vec<u8>, numbers: &[usize]) -> Result<(), AllocError>
    ensures { OnOk result (out.new.items ≡ out.old.items ++ flat_map (little_bytes 8) numbers.now) }
{
    for n in numbers {
        push_u64(out, *n)?;
    }
    Ok(())
}

/// The offset of the root's record, after a nodes section of so many bytes.
fn root_place(nodes: &[StoredNode], size: usize) -> usize
    requires { (place : List ℕ → ℕ) × (places : List ℕ)
        × (es : List EntryRecord) × (ns : List BuiltNode)
        × IsPostOrder es ns × AreNodes (IsAt place places) nodes.now ns
        × (size ≡ text_size (tree_of es ns)) × (80 + size < 2 ^ 64) }
    ensures { (place : List ℕ → ℕ) (places : List ℕ) (es : List EntryRecord) (ns : List BuiltNode)
        → IsPostOrder es ns → AreNodes (IsAt place places) nodes.now ns
        → size ≡ text_size (tree_of es ns) → result ≡ record_at 80 (tree_of es ns) }
{
    match nodes.last() {
        Some(root) => HEADER_SIZE + size
            - record_length(root.children as usize, root.count as usize),
        None => HEADER_SIZE,
    }
}

/// The database of the nodes, with these values, places of strings and string section. The nodes section has `size` bytes.
fn database(
    alloc: Global,
    nodes: &[StoredNode],
    values: &[StoredValue],
    places: &[usize],
    size: usize,
    section: &[u8],
) -> Result<Vec<u8>, AllocError>
    requires { (es : List EntryRecord) × (ns : List BuiltNode)
        × IsLaidOut es ns nodes.now values.now places.now size section.now }
    ensures { IfOk result (λ v. (es : List EntryRecord) (ns : List BuiltNode)
        → IsLaidOut es ns nodes.now values.now places.now size section.now
        → v.items ≡ written (tree_of es ns)) }
{
    let end = HEADER_SIZE + size + section.len();
    let mut out = Vec::with_capacity(alloc, end)?;
    out.extend_from_slice(b"KSLPHHRH")?;
    let root_at = root_place(nodes, size);
    push_numbers(&mut out, &[TOOL_VERSION, end, HEADER_SIZE])?;
    push_numbers(&mut out, &[NODE_SIZE, CHILD_SIZE, VALUE_SIZE])?;
    push_numbers(&mut out, &[root_at, size, section.len()])?;
    push_records(alloc, nodes, values, places, &mut out)?;
    out.extend_from_slice(section)?;
    Ok(out)
}

/// The database of the nodes, if it has at most so many bytes. It consumes what it is made of, and frees each part
/// early.
fn database_within(
    alloc: Global,
    stored: Stored<'_>,
    max_bytes: u32,
) -> Result<Option<Vec<u8>>, AllocError>
    requires { (es : List EntryRecord) × (ns : List BuiltNode) × IsStored es ns stored
        × IsNarrow (tree_of es ns) }
    ensures { IfOk result (λ o. (es : List EntryRecord) (ns : List BuiltNode)
        → IsStored es ns stored.entry → IsNarrow (tree_of es ns)
        → let bytes = written (tree_of es ns) in MatchOption o (max_bytes < length bytes)
        (λ v. (v.items ≡ bytes) × (length bytes ≤ max_bytes))) }
{
    let nodes = stored.nodes;
    let values = stored.values;
    let size = stored.size;
    let first = size.saturating_add(HEADER_SIZE);
    let table = table_of(alloc, stored.interner, first)?;
    if table.end > max_bytes as usize {
        return Ok(None);
    }
    let places = table.places;
    let section = table.section;
    let bytes = database(alloc, &nodes, &values, &places, size, &section)?;
    Ok(Some(bytes))
}

/// The nodes of the tight tree of what was set, with strings by number. It consumes what was set. If the records alone are
/// longer than `max_bytes`, that is the error.
fn stored_nodes<'t>(
    alloc: Global,
    all: Vec<Setting<'t>>,
    max_bytes: u32,
) -> Result<Stored<'t>, StoreError>
    requires { AllByRecursion IsStorableEntry all.items }
    ensures stored { IfOk result (λ s. (es : List EntryRecord) × (ns : List BuiltNode)
        × IsStored es ns s
        × IsMade (surviving (map assignment_of all.entry.items)) (tree_of es ns)) }
    ensures too_large { IsErrOf result StoreError.TooLarge
        → IsLonger (surviving (map assignment_of all.entry.items)) max_bytes }
{
    // Room for nodes comes before that for the sort, which is let go of earlier. So the database begins where the sort was.
    let none = Stored::new(alloc, all.len())?;
    let entries = last_of_each(alloc, &all)?;
    let closed = post_order(alloc, &entries, none)?;
    if closed.size > max_bytes as usize {
        return Err(StoreError::TooLarge);
    }
    Ok(closed)
}

/// The database of the tree's map, of at most `max_bytes` bytes. It consumes the tree, so that it takes less memory
/// than [`write`].
///
/// For n assignments it takes some n log n comparisons of strings. Beyond these the time is in proportion to n, and to
/// the bytes of their texts and of the database. Their texts are copied into the database alone. So the memory beside
/// it is in proportion to n, however long they are.
///
/// The errors are `TooLarge` if the database would be longer, and `Memory` at any allocation that fails.
pub fn into_database(
    alloc: Global,
    tree: Assignments<'_>,
    max_bytes: u32,
) -> Result<Vec<u8>, StoreError>
    // The bytes are the written form of the map, which is a database of a tree with that map.
    ensures written { IfOk result (λ v. IsWritten tree.entry v.items) }
    ensures database { IfOk result (λ v. IsDatabaseOf tree.entry v.items) }
    // They are no more than that, and `TooLarge` is answered only if they would be more.
    ensures within { IfOk result (λ v. length v.items ≤ max_bytes) }
    ensures too_large { IsErrOf result StoreError.TooLarge → IsLonger tree.entry max_bytes }
{
    keep_pages(alloc);
    let stored = stored_nodes(alloc, tree.entries, max_bytes)?;
    match database_within(alloc, stored, max_bytes)? {
        Some(bytes) => Ok(bytes),
        None => Err(StoreError::TooLarge),
    }
}

/// The database of the tree's map, of at most `max_bytes` bytes. The tree stays: this is [`into_database`] of a copy of
/// its list.
///
/// The errors are `TooLarge` if the database would be longer, and `Memory` at any allocation that fails.
pub fn write(alloc: Global, tree: &Assignments<'_>, max_bytes: u32) -> Result<Vec<u8>, StoreError>
    // The bytes are the written form of the map, which is a database of a tree with that map.
    ensures written { IfOk result (λ v. IsWritten tree.now v.items) }
    ensures database { IfOk result (λ v. IsDatabaseOf tree.now v.items) }
    // They are no more than that, and `TooLarge` is answered only if they would be more.
    ensures within { IfOk result (λ v. length v.items ≤ max_bytes) }
    ensures too_large { IsErrOf result StoreError.TooLarge → IsLonger tree.now max_bytes }
{
    let copy = tree.copied(alloc)?;
    into_database(alloc, copy, max_bytes)
}

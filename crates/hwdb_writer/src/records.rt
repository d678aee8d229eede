//! The numbers and records of the nodes section, lowest byte first, as in `hwdb-internal.h`.
ghost use Rattle.std.specs.Prelude.{◌≡◌, ◌≤◌, ◌<◌, ◌++◌, ◌∷◌, ◌+◌, ◌*◌, ◌-◌, ◌^◌, List, ℕ, OnOk, length, min, take, drop, flat_map, slice_index_or};
ghost use Rattle.byteorder.specs.Endian.{little_bytes};
ghost use Rattle.hwdb_spec.specs.Tree.{Value};
ghost use Rattle.hwdb_spec.specs.Written.{padding, text_size, node_text, value_text};
ghost use Rattle.hwdb_writer.specs.declared.entries.Setting.{Setting};
ghost use Rattle.hwdb_writer.specs.declared.nodes.BuiltNode.{BuiltNode as NodeRecord};
ghost use Rattle.hwdb_writer.specs.Internal.PostOrder.{IsPostOrder, tree_of};
ghost use Rattle.hwdb_writer.specs.Internal.Stored.{IsAt, AreNodes, AreValues, AreRecords, record_text};

use crate::stored::{StoredNode, StoredValue};
use byteorder::{ByteOrder, LittleEndian};
use std::alloc::{AllocError, Global};

/// How long the header is, in bytes.
pub const HEADER_SIZE: usize = 80;

/// How long a node is, in bytes, without its entries.
pub const NODE_SIZE: usize = 24;

/// How long a child entry is, in bytes.
pub const CHILD_SIZE: usize = 16;

/// How long a value entry is, in bytes.
pub const VALUE_SIZE: usize = 32;

/// Appends a number in 8 bytes.
pub fn push_u64(out: &mut Vec<u8>, n: usize) -> Result<(), AllocError>
    ensures { OnOk result (out.new.items ≡ out.old.items ++ little_bytes 8 n) }
{
    let mut bytes = [0; 8];
    LittleEndian::write_u64(&mut bytes, n as u64);
    out.extend_from_slice(&bytes)
}

/// Appends two numbers, each in 8 bytes. As one call it takes a third of the time of two.
fn push_two(out: &mut Vec<u8>, first: u64, second: u64) -> Result<(), AllocError>
    ensures { OnOk result (out.new.items
        ≡ out.old.items ++ (little_bytes 8 first ++ little_bytes 8 second)) }
{
    let mut bytes = [0; 16];
    LittleEndian::write_u64_into(&[first, second], &mut bytes);
    out.extend_from_slice(&bytes)
}

/// As `push_two`, of three numbers.
fn push_three(out: &mut Vec<u8>, first: u64, second: u64, third: u64) -> Result<(), AllocError>
    ensures { OnOk result (out.new.items ≡ out.old.items
        ++ (little_bytes 8 first ++ little_bytes 8 second ++ little_bytes 8 third)) }
{
    let mut bytes = [0; 24];
    LittleEndian::write_u64_into(&[first, second, third], &mut bytes);
    out.extend_from_slice(&bytes)
}

/// As `push_two`, of four numbers.
fn push_four(
    out: &mut Vec<u8>,
    first: u64,
    second: u64,
    third: u64,
    fourth: u64,
) -> Result<(), AllocError>
    ensures { OnOk result (out.new.items ≡ out.old.items
        ++ (little_bytes 8 first ++ little_bytes 8 second ++ little_bytes 8 third
        ++ little_bytes 8 fourth)) }
{
    let mut bytes = [0; 32];
    LittleEndian::write_u64_into(&[first, second, third, fourth], &mut bytes);
    out.extend_from_slice(&bytes)
}

/// As `push_two`, of seven numbers.
fn push_seven(out: &mut Vec<u8>, numbers: &[u64; 7]) -> Result<(), AllocError>
    ensures { OnOk result (out.new.items ≡ out.old.items ++ flat_map (little_bytes 8) numbers.now) }
{
    let mut bytes = [0; 56];
    LittleEndian::write_u64_into(numbers, &mut bytes);
    out.extend_from_slice(&bytes)
}

/// Appends the fixed fields of a node: the offset of its prefix, and how many entries follow.
pub fn push_node(
    out: &mut Vec<u8>,
    prefix: usize,
    children: u8,
    values: usize,
) -> Result<(), AllocError>
    ensures { OnOk result (out.new.items
        ≡ out.old.items
        ++ (little_bytes 8 prefix ++ children ∷ padding 7 ++ little_bytes 8 values)) }
{
    push_three(out, prefix as u64, children as u64, values as u64)
}

/// Appends a child entry: the child's byte, and the offset of its record.
pub fn push_child(entries: &mut Vec<u8>, byte: u8, place: usize) -> Result<(), AllocError>
    ensures { OnOk result
        (entries.new.items ≡ entries.old.items ++ (byte ∷ padding 7 ++ little_bytes 8 place)) }
{
    push_two(entries, byte as u64, place as u64)
}

/// The length in bytes of a record with so many entries, or the greatest number if it is longer.
pub fn record_length(children: usize, values: usize) -> usize
    ensures { result ≡ min (24 + 16 * children + 32 * values) (2 ^ 64 - 1) }
{
    let children = children.saturating_mul(CHILD_SIZE);
    let values = values.saturating_mul(VALUE_SIZE);
    children.saturating_add(values).saturating_add(NODE_SIZE)
}

/// How much a priority counts in the number of 8 bytes that a line of 4 bytes and a priority of 2 are together.
const AFTER_LINE: u64 = 0x1_0000_0000;

/// The line and the priority of a value, as one number of 8 bytes.
#[inline(always)]
fn origin_of(value: &StoredValue) -> u64
    ensures { result ≡ value.now.line + 2 ^ 32 * value.now.priority }
{
    value.line as u64 + AFTER_LINE * value.priority as u64
}

/// Appends a value entry, with these offsets of strings by number.
fn push_value(value: &StoredValue, places: &[usize], out: &mut Vec<u8>) -> Result<(), AllocError>
    requires key { value.now.key < length places.now }
    requires value { value.now.value < length places.now }
    requires path { value.now.path < length places.now }
    ensures { OnOk result (out.new.items ≡ out.old.items
        ++ (little_bytes 8 (slice_index_or places.now value.now.key 0)
        ++ little_bytes 8 (slice_index_or places.now value.now.value 0)
        ++ little_bytes 8 (slice_index_or places.now value.now.path 0)
        ++ little_bytes 4 value.now.line ++ little_bytes 2 value.now.priority ++ padding 2)) }
{
    let origin = origin_of(value);
    push_four(
        out,
        places[value.key as usize] as u64,
        places[value.value as usize] as u64,
        places[value.path as usize] as u64,
        origin,
    )
}

/// Appends the value entries, with these offsets of strings by number.
fn push_values(
    values: &[StoredValue],
    places: &[usize],
    out: &mut Vec<u8>,
) -> Result<(), AllocError>
    requires { (place : List ℕ → ℕ) × (xs : List Value)
        × AreValues (IsAt place places.now) values.now xs }
    ensures { OnOk result ((place : List ℕ → ℕ) (xs : List Value)
        → AreValues (IsAt place places.now) values.now xs
        → out.new.items ≡ out.old.items ++ flat_map (value_text place) xs) }
{
    for value in values {
        push_value(value, places, out)?;
    }
    Ok(())
}

/// Appends the record of a node with one value and without children. Most nodes are of that kind, and one append takes less than
/// three.
fn push_leaf(
    out: &mut Vec<u8>,
    prefix: usize,
    children: u8,
    value: &StoredValue,
    places: &[usize],
) -> Result<(), AllocError>
    requires key { value.now.key < length places.now }
    requires value { value.now.value < length places.now }
    requires path { value.now.path < length places.now }
    ensures { OnOk result (out.new.items ≡ out.old.items
        ++ (little_bytes 8 prefix ++ children ∷ padding 7 ++ little_bytes 8 1
        ++ little_bytes 8 (slice_index_or places.now value.now.key 0)
        ++ little_bytes 8 (slice_index_or places.now value.now.value 0)
        ++ little_bytes 8 (slice_index_or places.now value.now.path 0)
        ++ little_bytes 4 value.now.line ++ little_bytes 2 value.now.priority ++ padding 2)) }
{
    let origin = origin_of(value);
    let key = places[value.key as usize] as u64;
    let text = places[value.value as usize] as u64;
    let path = places[value.path as usize] as u64;
    push_seven(
        out,
        &[prefix as u64, children as u64, 1, key, text, path, origin],
    )
}

/// Appends the record of a node with these values and child entries.
fn push_fields(
    node: &StoredNode,
    values: &[StoredValue],
    places: &[usize],
    entries: &[u8],
    out: &mut Vec<u8>,
) -> Result<(), AllocError>
    requires known { node.now.prefix < length places.now }
    requires values { (place : List ℕ → ℕ) × (xs : List Value)
        × AreValues (IsAt place places.now) values.now xs }
    requires few { node.now.children < 256 }
    ensures { OnOk result ((place : List ℕ → ℕ) (xs : List Value)
        → AreValues (IsAt place places.now) values.now xs
        → out.new.items ≡ out.old.items
        ++ record_text place (slice_index_or places.now node.now.prefix 0) node.now.children
        (length values.now) entries.now xs) }
{
    let prefix = places[node.prefix as usize];
    let count = node.children as u8;
    if entries.len() == 0 && values.len() == 1 {
        return push_leaf(out, prefix, count, &values[0], places);
    }
    push_node(out, prefix, count, values.len())?;
    out.extend_from_slice(entries)?;
    push_values(values, places, out)
}

/// Appends the record of a node with these values to the records before it. The last of the child entries are those of
/// its children. Its own takes their place.
fn push_record(
    node: &StoredNode,
    values: &[StoredValue],
    places: &[usize],
    children: &mut Vec<u8>,
    out: &mut Vec<u8>,
) -> Result<(), AllocError>
    requires known { node.now.prefix < length places.now }
    requires values { (place : List ℕ → ℕ) × (xs : List Value)
        × AreValues (IsAt place places.now) values.now xs }
    requires room { 16 * node.now.children ≤ length children.old.items }
    requires few { node.now.children < 256 }
    ensures record { OnOk result ((place : List ℕ → ℕ) (xs : List Value)
        → AreValues (IsAt place places.now) values.now xs
        → out.new.items ≡ out.old.items
        ++ record_text place (slice_index_or places.now node.now.prefix 0) node.now.children
        (length values.now)
        (drop (length children.old.items - 16 * node.now.children) children.old.items) xs) }
    ensures entry { OnOk result (children.new.items
        ≡ take (length children.old.items - 16 * node.now.children) children.old.items
        ++ (node.now.byte ∷ padding 7 ++ little_bytes 8 (length out.old.items))) }
{
    let first = children.as_slice().len() - CHILD_SIZE * node.children as usize;
    let at = out.as_slice().len();
    push_fields(node, values, places, &children[first..], out)?;
    children.truncate(first);
    push_child(children, node.byte, at)
}

/// Appends the records of the nodes. The values are those of all nodes, one node's after another's.
pub fn push_records(
    alloc: Global,
    nodes: &[StoredNode],
    values: &[StoredValue],
    places: &[usize],
    out: &mut Vec<u8>,
) -> Result<(), AllocError>
    requires { (place : List ℕ → ℕ) × (es : List Setting) × (ns : List NodeRecord)
        × AreRecords place places.now es ns nodes.now values.now }
    ensures { OnOk result ((place : List ℕ → ℕ) (es : List Setting) (ns : List NodeRecord)
        → AreRecords place places.now es ns nodes.now values.now
        → out.new.items ≡ out.old.items
        ++ node_text place (length out.old.items) (tree_of es ns)) }
{
    let mut children = Vec::new(alloc);
    let mut rest = values;
    for node in nodes {
        let (own, behind) = rest.split_at(node.count as usize);
        push_record(node, own, places, &mut children, out)?;
        rest = behind;
    }
    Ok(())
}

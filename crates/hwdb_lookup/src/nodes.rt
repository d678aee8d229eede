//! The records of nodes, of a file of which some parts were read. Each is checked when it is entered.
ghost use Rattle.std.specs.Prelude.{◌≡◌, ◌≤◌, ◌<◌, ◌+◌, ◌*◌, ◌↔◌, ℕ, List, length, IfOk, OnOk, IfErr, IsTrue, SomeIff};
ghost use Rattle.hwdb_spec.specs.Format.{child_entry, child_byte, child_off, children_count, values_count, value_entries, value_at, record_end, prefix_off, IsPlace, IsValue};
ghost use Rattle.hwdb_lookup.specs.Internal.Parts.{MayBeOf, Halts, size_of};
ghost use Rattle.hwdb_lookup.specs.Internal.Heads.{IsHead, Fits, value_of};

use crate::lazy_node::LazyNode;
use crate::parts::Parts;
use crate::stop::Stop;
use hwdb_reader::{Frame, child_entry_at, u16_at, u32_at, u64_at, value_entry_at};
use hwdb_spec::DbFault;

/// A child entry of a node.
#[derive(Clone, Copy)]
pub struct ChildEntry {
    /// The byte by which the node leads to the child.
    pub byte: u8,
    /// The offset of the child's record.
    pub off: usize,
}

/// A value of a node.
#[derive(Clone, Copy)]
pub struct StoredValue<'a> {
    /// The priority of its file.
    pub priority: u16,
    /// The line of its property.
    pub line: u32,
    /// The stored key.
    pub key: &'a [u8],
    /// The value.
    pub value: &'a [u8],
    /// The stored path of its file.
    pub path: &'a [u8],
}

/// Whether the offset is in the string section.
#[inline(always)]
fn is_string(known: Parts<'_>, frame: Frame, i: usize) -> bool
    ensures { IsTrue result ↔ (frame.sizes.strings ≤ i) × (i < size_of known.entry) }
{
    frame.sizes.strings <= i && i < known.len()
}

/// How many bytes the record has that begins with these, if they are at most so many. No sum wraps.
#[tactic(auto, unfolding(hwdb_spec::specs::Format::record_end))]
fn record_size(b: &[u8], l: Frame, most: usize) -> Option<usize>
    requires { 24 ≤ length b.now }
    ensures { SomeIff result (record_end l.sizes b.now 0 ≤ most) (record_end l.sizes b.now 0) }
{
    let count = b[8] as usize;
    let values = u64_at(b, 16);
    match l.sizes.child_size.checked_mul(count) {
        None => None,
        Some(children) => match l.sizes.node_size.checked_add(children) {
            None => None,
            Some(entries) => match l.sizes.value_size.checked_mul(values) {
                None => None,
                Some(size) => match entries.checked_add(size) {
                    None => None,
                    Some(end) => { if end <= most { Some(end) } else { None } }
                },
            },
        },
    }
}

/// Enters the record at `off`. It has to end before the string section, and its prefix has to be in that.
#[tactic(auto, unfolding(hwdb_spec::specs::Format::record_end))]
pub fn enter<'a>(known: Parts<'a>, frame: Frame, off: usize) -> Result<LazyNode<'a>, Stop>
    requires { frame.sizes.strings ≤ size_of known }
    ensures node { IfOk result (λ n. (n.known ≡ known.entry) × (n.frame ≡ frame)
        × (n.off ≡ off)) }
    ensures head { IfOk result (λ n. (file : List ℕ) → MayBeOf known.entry file → IsHead file n) }
    ensures sound { IfOk result
        (λ n. (file : List ℕ) → MayBeOf known.entry file → Fits frame.sizes file off) }
    ensures stop { IfErr result
        (λ s. Halts known.entry (λ file. Fits frame.sizes file off) s) }
{
    let limit = frame.sizes.strings;
    if limit < off || limit - off < frame.sizes.node_size {
        return Err(Stop::Fault(DbFault::Place(off as u64)));
    }
    let fields = known.part(off, off + 24)?;
    let Some(size) = record_size(fields, frame, limit - off) else {
        return Err(Stop::Fault(DbFault::Place(off as u64)));
    };
    let bytes = known.part(off, off + size)?;
    let children = bytes[8];
    let values = u64_at(bytes, 16);
    // They are the same bytes once more.
    if children != fields[8] || values != u64_at(fields, 16) {
        return Err(Stop::LongPath);
    }
    let prefix = u64_at(bytes, 0);
    if !is_string(known, frame, prefix) {
        return Err(Stop::Fault(DbFault::StringOffset(off as u64)));
    }
    Ok(LazyNode {
        known,
        frame,
        off,
        bytes,
        prefix,
        children: children as usize,
        values,
        end: off + size,
    })
}

impl<'a> LazyNode<'a> {
    /// How many children the node has.
    pub fn children(self) -> usize
        ensures { result ≡ self.entry.children }
    {
        self.children
    }

    /// The child entry `i`, counted from 0.
    #[tactic(auto, unfolding(hwdb_spec::specs::Format::record_end))]
    pub fn child(self, i: usize) -> ChildEntry
        requires { i < self.children }
        ensures { (file : List ℕ) → IsHead file self.entry
            → (result.byte ≡ child_byte file
            (child_entry self.entry.frame.sizes self.entry.off i))
            × (result.off ≡ child_off file
            (child_entry self.entry.frame.sizes self.entry.off i)) }
    {
        let entry = child_entry_at(self.bytes, self.frame, 0, i);
        ChildEntry {
            byte: self.bytes[entry],
            off: u64_at(self.bytes, entry + 8),
        }
    }

    /// The value `i`, counted from 0. Its strings have to be in the string section, and its priority isn't 0.
    pub fn value(self, i: usize) -> Result<StoredValue<'a>, Stop>
        requires { i < self.values }
        ensures read { IfOk result (λ v. (file : List ℕ) → MayBeOf self.entry.known file
            → IsHead file self.entry
            → value_of v ≡ value_at file (value_entries self.entry.frame.sizes file self.entry.off
            + self.entry.frame.sizes.value_size * i)) }
        ensures sound { IfOk result (λ v. (file : List ℕ) → MayBeOf self.entry.known file
            → IsHead file self.entry
            → IsValue self.entry.frame.sizes file
            (value_entries self.entry.frame.sizes file self.entry.off
            + self.entry.frame.sizes.value_size * i)) }
        ensures stop { IfErr result (λ s. Halts self.entry.known (λ file. IsHead file self.entry
            × IsValue self.entry.frame.sizes file
            (value_entries self.entry.frame.sizes file self.entry.off
            + self.entry.frame.sizes.value_size * i)) s) }
    {
        let entry = value_entry_at(self.bytes, self.frame, 0, i);
        let key = u64_at(self.bytes, entry);
        if !is_string(self.known, self.frame, key) {
            return Err(Stop::Fault(DbFault::StringOffset(self.off as u64)));
        }
        let value = u64_at(self.bytes, entry + 8);
        if !is_string(self.known, self.frame, value) {
            return Err(Stop::Fault(DbFault::StringOffset(self.off as u64)));
        }
        let path = u64_at(self.bytes, entry + 16);
        if !is_string(self.known, self.frame, path) {
            return Err(Stop::Fault(DbFault::StringOffset(self.off as u64)));
        }
        let priority = u16_at(self.bytes, entry + 28);
        if priority == 0 {
            return Err(Stop::Fault(DbFault::Priority(self.off as u64)));
        }
        Ok(StoredValue {
            priority,
            line: u32_at(self.bytes, entry + 24),
            key: self.known.text(key)?,
            value: self.known.text(value)?,
            path: self.known.text(path)?,
        })
    }
}

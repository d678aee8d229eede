//! The walk over the nodes section: each node's text is its children's texts, in order, and its record.
//!
//! So a record comes after all below it, the root last, and the texts fill the section without gaps. By that each node
//! has one parent, none is entered twice, and the walk ends. It is a loop over the open nodes of one path: a deep tree
//! takes no more of the thread's stack than a flat one.
ghost use Rattle.std.specs.Prelude.{◌≡◌, ◌≤◌, ◌<◌, ℕ, ◌∷◌, length, SomeIff, IfOk, OnOk, OnErr, IfErr};
ghost use Rattle.hwdb_spec.specs.Format.{record_end, child_entry, children_count, child_byte, child_off, byte_before, max_levels, Visited, NodeFault, IsVisitFault};
ghost use Rattle.hwdb_reader.specs.Internal.Placed.{visit, FieldsAreSound, IsSoundNode};
ghost use Rattle.hwdb_reader.specs.Internal.Walks.{IsSoundRecord, AreOpen, ToCome, GoesOn};

use crate::checker::MAX_LEVELS;
use crate::fields::{is_place, u64_at};
use crate::frame::Frame;
use crate::path::{OpenRecord, Path};
use crate::places::{child_entry_at, record_end_at};
use crate::repeats::Repeats;
use crate::values::check_values;
use hwdb_spec::DbFault;

/// The offset at which the record at `off` ends, if it lies between `from` and `limit`. No sum wraps.
#[tactic(auto, unfolding(hwdb_spec::specs::Format::record_end))]
pub fn record_end_within(b: &[u8], l: Frame, from: usize, off: usize, limit: usize) -> Option<usize>
    requires { limit ≤ length b.now }
    ensures { SomeIff result ((from ≤ off) × (record_end l.sizes b.now off ≤ limit))
        (record_end l.sizes b.now off) }
{
    if off < from || limit < off || limit - off < l.sizes.node_size {
        return None;
    }
    let count = b[off + 8] as usize;
    let values = u64_at(b, off + 16);
    match l.sizes.child_size.checked_mul(count) {
        None => None,
        Some(children) => match (off + l.sizes.node_size).checked_add(children) {
            None => None,
            Some(entries) => match l.sizes.value_size.checked_mul(values) {
                None => None,
                Some(size) => match entries.checked_add(size) {
                    None => None,
                    Some(end) => { if end <= limit { Some(end) } else { None } }
                },
            },
        },
    }
}

/// Tests the prefix and the values of a node whose record has room.
#[inline(always)]
#[tactic(auto, unfolding(hwdb_spec::specs::Format::record_end))]
fn check_fields(b: &[u8], l: Frame, repeats: &mut Repeats<'_>, off: usize) -> Result<(), DbFault>
    requires inside { record_end l.sizes b.now off ≤ length b.now }
    requires text { repeats.old ≡ b.now }
    ensures same { repeats.new ≡ repeats.old }
    ensures ok { OnOk result (FieldsAreSound l.sizes b.now off) }
    ensures err { OnErr result (FieldsAreSound l.sizes b.now off → ⊥) }
    ensures fault { IfErr result
        (λ e. (levels from limit : ℕ)
        → NodeFault l.sizes b.now (visit levels from off limit) e) }
{
    if !is_place(b, l, u64_at(b, off)) {
        return Err(DbFault::StringOffset(off as u64));
    }
    let entries = off + l.sizes.node_size + l.sizes.child_size * b[off + 8] as usize;
    check_values(b, l, repeats, entries, u64_at(b, off + 16))
}

/// Tests the record of the node at `off`. Its text may begin at `from` and has to end at `limit`, and so many levels
/// are left for it. Answers the offset at which the record ends. Inlined, since a call copies the frame for each node.
#[inline(always)]
fn check_record(
    b: &[u8],
    l: Frame,
    repeats: &mut Repeats<'_>,
    levels: usize,
    from: usize,
    off: usize,
    limit: usize,
) -> Result<usize, DbFault>
    requires inside { limit ≤ length b.now }
    requires visited { Visited l.sizes b.now (visit levels from off limit) }
    requires text { repeats.old ≡ b.now }
    ensures same { repeats.new ≡ repeats.old }
    ensures end { IfOk result (λ end. end ≡ record_end l.sizes b.now off) }
    ensures ok { OnOk result (IsSoundRecord l.sizes b.now (visit levels from off limit)) }
    ensures err { OnErr result (IsSoundNode l.sizes b.now (visit levels from off limit) → ⊥) }
    ensures fault { IfErr result (λ e. IsVisitFault l.sizes b.now e) }
{
    let Some(end) = record_end_within(b, l, from, off, limit) else {
        return Err(DbFault::Place(off as u64));
    };
    if levels == 0 {
        return Err(DbFault::Depth(off as u64));
    }
    check_fields(b, l, repeats, off)?;
    Ok(end)
}

/// The byte of the child before child `i` of the node at `off`, or 0.
fn byte_before_at(b: &[u8], l: Frame, off: usize, i: usize) -> u8
    requires inside { record_end l.sizes b.now off ≤ length b.now }
    requires below { i < children_count b.now off }
    ensures { result ≡ byte_before l.sizes b.now off i }
{
    if i == 0 {
        return 0;
    }
    b[child_entry_at(b, l, off, i - 1)]
}

/// The offset of child `i` of the node at `off`. Its byte has to be above that of the child before it.
fn next_child(b: &[u8], l: Frame, off: usize, i: usize) -> Result<usize, DbFault>
    requires inside { record_end l.sizes b.now off ≤ length b.now }
    requires below { i < children_count b.now off }
    ensures place { IfOk result (λ child. child ≡ child_off b.now (child_entry l.sizes off i)) }
    ensures ok { OnOk result
        (byte_before l.sizes b.now off i < child_byte b.now (child_entry l.sizes off i)) }
    ensures err { OnErr result
        (byte_before l.sizes b.now off i < child_byte b.now (child_entry l.sizes off i) → ⊥) }
    ensures fault { IfErr result
        (λ e. (levels from limit : ℕ)
        → NodeFault l.sizes b.now (visit levels from off limit) e) }
{
    let entry = child_entry_at(b, l, off, i);
    let byte = byte_before_at(b, l, off, i);
    if b[entry] <= byte {
        return Err(DbFault::ChildOrder(entry as u64));
    }
    Ok(u64_at(b, entry + 8))
}

/// Goes on from the last open node. Tests its children up to the first that has children itself, and opens that below
/// it. If there is none, the node is done. Answers the offset at which the next text begins.
fn go_on(
    b: &[u8],
    l: Frame,
    repeats: &mut Repeats<'_>,
    path: &mut Path,
    last: OpenRecord,
    begin: usize,
) -> Result<usize, DbFault>
    requires open { AreOpen l.sizes b.now ((last.off, last.done) ∷ path.old) begin }
    requires text { repeats.old ≡ b.now }
    ensures same { repeats.new ≡ repeats.old }
    ensures ok { IfOk result
        (λ next. GoesOn l.sizes b.now ((last.off, last.done) ∷ path.old) begin path.new next) }
    ensures err { OnErr result
        (ToCome l.sizes b.now ((last.off, last.done) ∷ path.old) begin → ⊥) }
    ensures fault { IfErr result (λ e. IsVisitFault l.sizes b.now e) }
{
    let levels = path.levels_left() - 1;
    let mut next = begin;
    for i in last.done..b[last.off + 8] {
        let child = next_child(b, l, last.off, i as usize)?;
        let end = check_record(b, l, repeats, levels, next, child, last.off)?;
        if b[child + 8] != 0 {
            path.push(OpenRecord {
                off: last.off,
                done: i + 1,
            });
            path.push(OpenRecord {
                off: child,
                done: 0,
            });
            return Ok(next);
        }
        if next != child {
            return Err(DbFault::Place(child as u64));
        }
        next = end;
    }
    if next != last.off {
        return Err(DbFault::Place(last.off as u64));
    }
    Ok(record_end_at(b, l, last.off))
}

/// Tests the node at `off` and all below it. Its text may begin at `from` and has to end at `limit`. Answers the offset
/// at which its record ends.
pub fn walk(b: &[u8], l: Frame, from: usize, off: usize, limit: usize) -> Result<usize, DbFault>
    requires inside { limit ≤ length b.now }
    requires visited { Visited l.sizes b.now (visit max_levels from off limit) }
    ensures ok { IfOk result
        (λ end. (end ≡ record_end l.sizes b.now off)
        × IsSoundNode l.sizes b.now (visit max_levels from off limit)) }
    ensures err { OnErr result
        (IsSoundNode l.sizes b.now (visit max_levels from off limit) → ⊥) }
    ensures fault { IfErr result (λ e. IsVisitFault l.sizes b.now e) }
{
    let mut repeats = Repeats::new(b);
    check_record(b, l, &mut repeats, MAX_LEVELS, from, off, limit)?;
    let mut path = Path::new();
    path.push(OpenRecord { off, done: 0 });
    let mut begin = from;
    while let Some(last) = path.pop() {
        begin = go_on(b, l, &mut repeats, &mut path, last, begin)?;
    }
    Ok(begin)
}

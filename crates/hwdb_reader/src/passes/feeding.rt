//! The records of a piece, one after another.
ghost use Rattle.std.specs.Prelude.{◌≡◌, ◌≤◌, ◌<◌, ◌+◌, ℕ, List, length, IfSome, IsTrue};
ghost use Rattle.hwdb_spec.specs.Tree.{Tree};
ghost use Rattle.hwdb_spec.specs.Format.{record_end, IsDatabase};
ghost use Rattle.hwdb_reader.specs.Passes.Views.{IsPart, IsOf, Stands, pending};

use crate::fields::u64_at;
use crate::passes::children::children_height;
use crate::passes::entries::are_values;
use crate::passes::outline::Outline;
use crate::walk::record_end_within;

/// How many nodes there may be on one path, the root counted: as many as a database may have.
const MAX_LEVELS: u16 = 4097;

/// Tests the record at `off` of the piece, and adds its node to the `n` that are done, in place of its children. Answers
/// how many these are now.
#[inline(always)]
#[tactic(auto, unfolding(hwdb_spec::specs::Format::record_end))]
fn take_record(
    o: Outline<'_>,
    piece: &[u8],
    at: usize,
    off: usize,
    offsets: &mut [usize],
    heights: &mut [u16],
    n: usize,
) -> Option<usize>
    requires inside { record_end o.frame.sizes piece.now off ≤ length piece.now }
    requires place { at + length piece.now ≤ o.size }
    requires offsets { n ≤ length offsets.old }
    requires heights { n ≤ length heights.old }
    ensures room { IfSome result (λ m. (m ≤ length offsets.new) × (m ≤ length heights.new)) }
    ensures stand { IfSome result (λ m. (file : List ℕ) → IsOf o.entry file
        → IsPart file at piece.now
        → Stands file (pending offsets.old heights.old n) (at + off)
        → Stands file (pending offsets.new heights.new m)
        (at + record_end o.entry.frame.sizes piece.now off)) }
{
    let count = piece[off + 8] as usize;
    let values = u64_at(piece, off + 16);
    let first = off + o.frame.sizes.node_size + o.frame.sizes.child_size * count;
    if count > n || !o.has(u64_at(piece, off)) || !are_values(o, piece, first, values) {
        return None;
    }
    let Some(height) = children_height(o.frame, piece, off, count, offsets, heights, n) else {
        return None;
    };
    let last = n - count;
    if height >= MAX_LEVELS || last >= offsets.len() || last >= heights.len() {
        return None;
    }
    offsets[last] = at + off;
    heights[last] = height + 1;
    Some(last + 1)
}

/// Goes on over the records that are whole in the piece, which is the file's from `at` on. Answers how many bytes they
/// are: the rest has to come again, at the front of the next piece. `done` counts the nodes that are done, in both
/// tables; at the first piece it is 0.
pub fn feed(
    o: Outline<'_>,
    piece: &[u8],
    at: usize,
    offsets: &mut [usize],
    heights: &mut [u16],
    done: &mut usize,
) -> Option<usize>
    ensures used { IfSome result (λ used. used ≤ length piece.now) }
    ensures stand { IfSome result (λ used. (file : List ℕ) → IsOf o.entry file
        → IsPart file at piece.now
        → Stands file (pending offsets.old heights.old done.old) at
        → Stands file (pending offsets.new heights.new done.new) (at + used)) }
{
    let mut n = *done;
    if n > offsets.len() || n > heights.len() || at > o.size || piece.len() > o.size - at {
        return None;
    }
    let mut off = 0;
    while let Some(end) = record_end_within(piece, o.frame, off, off, piece.len()) {
        let Some(now) = take_record(o, piece, at, off, offsets, heights, n) else {
            return None;
        };
        n = now;
        off = end;
    }
    *done = n;
    Some(off)
}

/// Whether the pass is at its end: the root alone is done, and the strings begin at `at`.
#[tactic(auto, using(crate::proofs::passes::NodeLemmas::root_stands))]
pub fn is_whole(o: Outline<'_>, at: usize, offsets: &[usize], heights: &[u16], done: usize) -> bool
    ensures { IsTrue result → (file : List ℕ) → IsOf o.entry file
        → Stands file (pending offsets.now heights.now done) at
        → (t : Tree) × IsDatabase file t }
{
    done == 1
        && offsets.len() > 0
        && heights.len() > 0
        && offsets[0] == o.frame.sizes.root
        && heights[0] <= MAX_LEVELS
        && at == o.frame.sizes.strings
}

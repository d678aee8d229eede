//! The child entries of a record, compared with the last of the nodes that are done, from the last to the first.
ghost use Rattle.std.specs.Prelude.{◌≡◌, ◌≤◌, ◌<◌, ◌+◌, ◌-◌, ℕ, List, length, IfSome};
ghost use Rattle.hwdb_spec.specs.Format.{record_end, children_count};
ghost use Rattle.hwdb_reader.specs.Passes.Views.{IsPart, IsOf, Stand, pending};
ghost use Rattle.hwdb_reader.specs.Passes.Internal.{ChildrenStand};

use crate::fields::u64_at;
use crate::frame::Frame;
use crate::places::child_entry_at;

/// The greatest height of the children of the record at `off` of the piece, or 0. They have to be the last of the `n`
/// nodes that are done, and their bytes have to ascend from 1.
#[inline(always)]
pub fn children_height(
    frame: Frame,
    piece: &[u8],
    off: usize,
    count: usize,
    offsets: &[usize],
    heights: &[u16],
    n: usize,
) -> Option<u16>
    requires inside { record_end frame.sizes piece.now off ≤ length piece.now }
    requires count { count ≡ children_count piece.now off }
    requires enough { count ≤ n }
    requires offsets { n ≤ length offsets.now }
    requires heights { n ≤ length heights.now }
    ensures { IfSome result (λ height. (file : List ℕ) (at : ℕ) → IsPart file at piece.now
        → Stand frame.sizes file (pending offsets.now heights.now n) (at + off)
        → ChildrenStand frame.sizes file (pending offsets.now heights.now (n - count))
        height 1 (at + off) 0 count) }
{
    let mut height = 0;
    let mut above = 256;
    let mut i = count;
    while i > 0 {
        i -= 1;
        let entry = child_entry_at(piece, frame, off, i);
        let byte = piece[entry] as u16;
        let done = n - count + i;
        if byte >= above || u64_at(piece, entry + 8) != offsets[done] {
            return None;
        }
        above = byte;
        height = heights[done].max(height);
    }
    if above == 0 {
        return None;
    }
    Some(height)
}

//! The check of a file of which parts can be read.
ghost use Rattle.std.specs.Prelude.{◌≡◌, ◌≤◌, ◌+◌, ℕ, List, IfSome, vec_len};
ghost use Rattle.hwdb_reader.specs.Passes.Views.{HasSections, IsRead};
ghost use Rattle.hwdb_lookup.specs.Files.Views.{IsKept};

use crate::files::kept::KeptFile;
use crate::files::passes::is_accepted;
use crate::files::places::{ends_at, fill, read_part};
use hwdb_io::Places;
use hwdb_reader::{Frame, open_outline, open_sections, u64_at};
use std::alloc::Global;

/// How many bytes of a header are read.
const HEADER: usize = 80;

/// What is kept of a file with this header and these strings, whose nodes are tested.
fn keep<P: Places>(
    alloc: Global,
    places: &P,
    header: &[u8],
    size: usize,
    frame: Frame,
    strings: Vec<u8>,
) -> Option<KeptFile>
    requires { frame.sizes.strings + vec_len strings ≡ size }
    ensures kept { IfSome result (λ k. (file : List ℕ) → P.is_of places.now file
        → IsRead header.now size strings.items file → HasSections frame.sizes file
        → IsKept k file) }
    ensures size { IfSome result (λ k. k.size ≡ size) }
{
    let Some(o) = open_outline(header, size, &strings) else {
        return None;
    };
    if !is_accepted(alloc, places, o) {
        return None;
    }
    Some(KeptFile {
        frame,
        size,
        strings,
    })
}

/// Checks a file of at most so many bytes, which is read once. What is kept of it tells its strings.
///
/// Of a file that isn't accepted nothing is said, as in `hwdb_reader::feed`.
pub fn accepted<P: Places>(alloc: Global, places: &P, most: usize) -> Option<KeptFile>
    ensures within { IfSome result (λ k. k.size ≤ most) }
    ensures kept { IfSome result (λ k. (file : List ℕ) → P.is_of places.now file
        → IsKept k file) }
{
    let header = read_part(alloc, places, 0, HEADER)?;
    let size = u64_at(&header, 16);
    if size > most || !ends_at(places, size) {
        return None;
    }
    // A file that was cut asks for no memory.
    if !fill(places, size.saturating_sub(1), &mut [0u8; 1]) {
        return None;
    }
    let Some(frame) = open_sections(&header, size) else {
        return None;
    };
    let first = frame.sizes.strings;
    let strings = read_part(alloc, places, first, size - first)?;
    keep(alloc, places, &header, size, frame, strings)
}

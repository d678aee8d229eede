//! A pass over the nodes of a file, of which the parts are read one after another.
ghost use Rattle.std.specs.Prelude.{◌≡◌, ◌≤◌, ◌<◌, ◌+◌, ℕ, List, length, IfSome, IsTrue};
ghost use Rattle.hwdb_spec.specs.Tree.{Tree};
ghost use Rattle.hwdb_spec.specs.Format.{IsDatabase};
ghost use Rattle.hwdb_reader.specs.Passes.Views.{IsOf, Stands};
ghost use Rattle.hwdb_lookup.specs.Files.Internal.{waiting};

use crate::files::places::fill;
use hwdb_io::Places;
use hwdb_reader::{Outline, feed, is_whole};
use std::alloc::Global;

/// How many bytes of the nodes are read at once. A record that has more isn't accepted.
const PIECE: usize = 131_072;

/// How many nodes may wait for their parents. Debian's database has 1,074 that do.
const ROWS: usize = 8_192;

/// A piece of a file, and the nodes before its end that wait for their parents.
#[derive(Drop)]
pub struct Pass {
    piece: Vec<u8>,
    offsets: Vec<usize>,
    heights: Vec<u16>,
    done: usize,
}

impl Pass {
    /// No node waits.
    fn new(alloc: Global) -> Option<Pass>
        ensures { IfSome result (λ pass. pass.done ≡ 0) }
    {
        let Ok(piece) = vec![in alloc; 0u8; PIECE] else {
            return None;
        };
        let Ok(offsets) = vec![in alloc; 0usize; ROWS] else {
            return None;
        };
        let Ok(heights) = vec![in alloc; 0u16; ROWS] else {
            return None;
        };
        Some(Pass {
            piece,
            offsets,
            heights,
            done: 0,
        })
    }

    /// Goes on over the nodes from `at` on, as far as a piece has them whole. Answers how many bytes they are.
    fn advance<P: Places>(&mut self, places: &P, o: Outline<'_>, at: usize) -> Option<usize>
        ensures { IfSome result (λ used. (file : List ℕ) → P.is_of places.now file
            → IsOf o.entry file → Stands file (waiting self.old) at
            → Stands file (waiting self.new) (at + used)) }
    {
        let n = self
            .piece
            .len()
            .min(o.frame.sizes.strings.saturating_sub(at));
        let piece = &mut self.piece[..n];
        if !fill(places, at, piece) {
            return None;
        }
        feed(
            o,
            piece,
            at,
            &mut self.offsets,
            &mut self.heights,
            &mut self.done,
        )
    }
}

/// Whether the file is a database, as its nodes say.
pub fn is_accepted<P: Places>(alloc: Global, places: &P, o: Outline<'_>) -> bool
    ensures { IsTrue result → (file : List ℕ) → P.is_of places.now file → IsOf o.entry file
        → (t : Tree) × IsDatabase file t }
{
    let Some(mut pass) = Pass::new(alloc) else {
        return false;
    };
    let mut at = o.frame.sizes.nodes;
    'passing: while at < o.frame.sizes.strings {
        match pass.advance(places, o, at) {
            Some(used) if used > 0 && used <= o.size - at => at += used,
            _ => return false,
        }
    }
    is_whole(o, at, &pass.offsets, &pass.heights, pass.done)
}

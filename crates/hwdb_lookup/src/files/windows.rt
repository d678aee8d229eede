//! The windows of a file that were read.
ghost use Rattle.std.specs.Prelude.{◌≡◌, ◌≤◌, ◌<◌, ◌+◌, ◌++◌, ◌∷◌, ℕ, List, [], IsTrue, OnOk, length};
ghost use Rattle.hwdb_lookup.specs.Windows.{IsOfWindows};
ghost use Rattle.hwdb_reader.specs.Passes.Views.{IsPart};
ghost use Rattle.hwdb_lookup.specs.Files.Views.{AreOf, IsKept};

use crate::files::kept::KeptFile;
use crate::files::places::fill;
use crate::windows::{WINDOW, Windows};
use hwdb_io::Places;
use hwdb_reader::Outline;
use std::alloc::{AllocError, Global};

/// How far before a place a window may begin.
const BEFORE: usize = 3072;

/// The windows of a file that were read so far.
#[derive(Drop)]
pub struct ReadWindows {
    /// Their bytes, one window after another.
    pub bytes: Vec<u8>,
    /// Where each is in the file.
    pub places: Vec<usize>,
}

impl ReadWindows {
    /// None was read.
    #[tactic(auto, using(crate::proofs::files::WindowLemmas::none_read))]
    pub fn new(alloc: Global) -> ReadWindows
        ensures { (file : List ℕ) → AreOf result file }
    {
        ReadWindows {
            bytes: Vec::new(alloc),
            places: Vec::new(alloc),
        }
    }

    /// Takes one more window.
    fn push(&mut self, window: &[u8], place: usize) -> Result<(), AllocError>
        requires { length window.now ≡ 4096 }
        ensures of { OnOk result ((file : List ℕ) → IsPart file place window.now
            → AreOf self.old file → AreOf self.new file) }
        ensures place { OnOk result
            (self.new.places.items ≡ self.old.places.items ++ place ∷ []) }
    {
        self.bytes.extend_from_slice(window)?;
        self.places.push(place)?;
        Ok(())
    }

    /// Reads one more window, which has the byte at a place. Every other one begins there, so that a long record is in it.
    /// The rest begin before it: a node's children come before the node.
    pub fn add<P: Places>(&mut self, places: &P, size: usize, place: usize) -> bool
        ensures of { IsTrue result → (file : List ℕ) → P.is_of places.now file
            → AreOf self.old file → AreOf self.new file }
        ensures window { IsTrue result → place < size → (first : ℕ)
            × (self.new.places.items ≡ self.old.places.items ++ first ∷ [])
            × (first ≤ place) × (place < first + 4096) }
    {
        let mut window = [0u8; WINDOW];
        let before = if self.places.len() % 2 == 0 {
            0
        } else {
            BEFORE
        };
        let first = place
            .saturating_sub(before)
            .min(size.saturating_sub(WINDOW));
        if !fill(places, first, &mut window) {
            return false;
        }
        match self.push(&window, first) {
            Ok(()) => true,
            Err(_) => false,
        }
    }

    /// What a lookup is told of the file.
    pub fn of<'a>(&'a self, kept: &'a KeptFile) -> Windows<'a>
        ensures { (file : List ℕ) → IsKept kept.now file → AreOf self.now file
            → IsOfWindows result file }
    {
        Windows {
            outline: Outline {
                frame: kept.frame,
                size: kept.size,
                strings: &kept.strings,
            },
            bytes: &self.bytes,
            places: &self.places,
        }
    }
}

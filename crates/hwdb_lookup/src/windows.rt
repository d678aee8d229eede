//! A file of which the header and the strings were read, and windows of its nodes.
ghost use Rattle.std.specs.Prelude.{◌≡◌, ◌≤◌, ◌<◌, ◌+◌, ◌-◌, ℕ, List, length, take, IfOk, IfErr};
ghost use Rattle.hwdb_spec.specs.Format.{text_at};
ghost use Rattle.hwdb_reader.specs.Passes.Views.{IsPart};
ghost use Rattle.hwdb_lookup.specs.Windows.{IsOfWindows};
ghost use Rattle.hwdb_lookup.specs.Internal.Seen.{IsPause, IsSeen};

use crate::seen::Seen;
use crate::stop::Stop;
use hwdb_reader::{Outline, text, text_front};

/// How many bytes a window has.
pub const WINDOW: usize = 4096;

/// What was read of a file.
#[derive(Clone, Copy)]
pub struct Windows<'a> {
    /// Its layout, its size and its strings.
    pub outline: Outline<'a>,
    /// The bytes of the windows, one after another.
    pub bytes: &'a [u8],
    /// Where each is in the file.
    pub places: &'a [usize],
}

/// The same without the layout, which each node has.
pub fn seen_of(windows: Windows<'_>) -> Seen<'_>
    ensures seen { (file : List ℕ) → IsOfWindows windows.entry file → IsSeen result file }
    ensures size { result.size ≡ windows.entry.outline.size }
    ensures bytes { result.bytes ≡ windows.entry.bytes }
    ensures places { result.places ≡ windows.entry.places }
{
    Seen {
        size: windows.outline.size,
        strings: windows.outline.strings,
        bytes: windows.bytes,
        places: windows.places,
    }
}

impl<'a> Seen<'a> {
    /// The file's bytes from `from` to `to`, of a window that has them.
    pub fn part(self, from: usize, to: usize) -> Result<&'a [u8], Stop>
        requires { from ≤ to }
        ensures long { IfOk result (λ p. length p.now ≡ to - from) }
        ensures read { IfOk result (λ p. (file : List ℕ) → IsSeen self.entry file
            → IsPart file from p.now) }
        ensures stop { IfErr result (λ s. IsPause self.entry s) }
    {
        let size = to - from;
        if size > WINDOW {
            return Err(Stop::LongPath);
        }
        for k in 0..self.places.len() {
            let place = self.places[k];
            if k >= self.bytes.len() / WINDOW {
                break;
            }
            if place <= from && from - place <= WINDOW - size {
                let first = k * WINDOW + (from - place);
                return Ok(&self.bytes[first..first + size]);
            }
        }
        Err(Stop::Missing(from))
    }

    /// The string at `i`: up to the next byte 0.
    pub fn text(self, i: usize) -> Result<&'a [u8], Stop>
        requires { i < self.size }
        ensures read { IfOk result (λ s. (file : List ℕ) → IsSeen self.entry file
            → s.now ≡ text_at file i) }
        ensures stop { IfErr result (λ s. IsPause self.entry s) }
    {
        let first = self.size - self.strings.len();
        if i < first {
            return Err(Stop::LongPath);
        }
        Ok(text(self.strings, i - first))
    }

    /// The first bytes of the string at `i`, at most so many.
    pub fn text_front(self, i: usize, most: usize) -> Result<&'a [u8], Stop>
        requires { i ≤ self.size }
        ensures read { IfOk result (λ s. (file : List ℕ) → IsSeen self.entry file
            → s.now ≡ take most (text_at file i)) }
        ensures within { IfOk result (λ s. i + length s.now ≤ self.entry.size) }
        ensures stop { IfErr result (λ s. IsPause self.entry s) }
    {
        let first = self.size - self.strings.len();
        if i < first {
            return Err(Stop::LongPath);
        }
        Ok(text_front(self.strings, i - first, most))
    }
}

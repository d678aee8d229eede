//! A file whose header was tested, and its strings.
ghost use Rattle.std.specs.Prelude.{◌≡◌, ◌≤◌, ◌<◌, ◌+◌, ◌↔◌, length, IsTrue};

use crate::frame::Frame;

/// What is kept of a file.
#[derive(Clone, Copy)]
pub struct Outline<'a> {
    /// Its layout.
    pub frame: Frame,
    /// How many bytes it has.
    pub size: usize,
    /// Its string section.
    pub strings: &'a [u8],
    ghost ends: { frame.sizes.strings + length strings.now ≡ size },
}

impl<'a> Outline<'a> {
    /// Whether the offset is in the string section.
    pub fn has(self, i: usize) -> bool
        ensures { IsTrue result
            ↔ (self.entry.frame.sizes.strings ≤ i) × (i < self.entry.size) }
    {
        self.frame.sizes.strings <= i && i < self.size
    }
}

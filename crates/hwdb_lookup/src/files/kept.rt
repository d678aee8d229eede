//! What is kept of a file that was accepted.
ghost use Rattle.std.specs.Prelude.{◌≡◌, ◌+◌, vec_len};

use hwdb_reader::Frame;

/// A file that was accepted: its layout, its size and its strings.
#[derive(Drop)]
pub struct KeptFile {
    /// Its layout.
    pub frame: Frame,
    /// How many bytes it has.
    pub size: usize,
    /// Its string section.
    pub strings: Vec<u8>,
    ghost ends: { frame.sizes.strings + vec_len strings ≡ size },
}

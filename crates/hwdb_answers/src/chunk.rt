//! What a reader of lines holds.
ghost use Rattle.std.specs.Prelude.{◌≤◌};
ghost use Rattle.hwdb_io.specs.declared.transfer.TheConstants.{CHUNK};

use hwdb_io::CHUNK;

/// Bytes of a source that were read, of which some were handed on as lines.
#[derive(Drop)]
pub struct LineReader {
    /// What was read at last.
    pub(crate) chunk: [u8; CHUNK],
    /// How many bytes of it were handed on.
    pub(crate) at: usize,
    /// How many bytes were read.
    pub(crate) end: usize,
    ghost handed: { at ≤ end },
    ghost within: { end ≤ CHUNK },
}

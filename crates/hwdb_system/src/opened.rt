//! Files that were opened, of which parts are read.
ghost use Rattle.std.specs.Prelude.{◌≡◌, ◌≤◌, drop, length, take};

use hwdb_io::Places;

/// A file that was opened. It stays this file, whatever takes its path.
pub trait OpenedFile: Places {
    /// Whether its size and the time of its last change are those that it had when it was opened. No promise speaks of it.
    fn is_unchanged(&self) -> bool;
}

/// The bytes that a system in memory has at a path.
#[derive(Drop)]
pub struct OpenedBytes {
    /// The bytes.
    pub bytes: Vec<u8>,
}

/// Copies what bytes have from a place on into the front of the buffer, up to the end of one of them. Answers how many these are.
fn copy_part(bytes: &[u8], from: usize, buf: &mut [u8]) -> usize
    ensures within { result ≤ length buf.new }
    ensures copied { take result buf.new ≡ take (length buf.new) (drop from bytes.now) }
{
    let from = from.min(bytes.len());
    let n = buf.len().min(bytes.len() - from);
    buf[..n].copy_from_slice(&bytes[from..from + n]);
    n
}

impl Places for OpenedBytes {
    ghost is_of = { λ f file. f.bytes.items ≡ file };

    fn part(&self, from: usize, buf: &mut [u8]) -> Option<usize> {
        Some(copy_part(&self.bytes, from, buf))
    }
}

impl OpenedFile for OpenedBytes {
    fn is_unchanged(&self) -> bool {
        true
    }
}

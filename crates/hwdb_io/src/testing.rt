//! A sink over fixed memory, for tests: it tells its bytes, takes no memory and fails as it is told to.
ghost use Rattle.std.specs.Prelude.{◌≡◌, ◌≤◌, Some, take, true};

use crate::adapters::after_failure;
use crate::devices::Sink;
use hwdb_spec::DeviceFailed;

/// A sink into an array.
#[derive(Drop)]
pub struct MemorySink<const N: usize> {
    /// The array.
    pub bytes: [u8; N],
    /// How many bytes of it were taken.
    pub len: usize,
    /// Whether nothing was taken since the last flush.
    pub flushed: bool,
    /// After how many bytes each further write fails.
    pub room: usize,
    /// How many bytes a write takes at most.
    pub per_write: usize,
    /// Whether each flush fails.
    pub flush_fails: bool,
    /// How many calls have failed.
    pub failed: u64,
    ghost within: { len ≤ N },
}

impl<const N: usize> MemorySink<N> {
    /// An empty sink with the array's room, without a failure before it is full.
    pub fn new() -> MemorySink<N>
        ensures empty { result.len ≡ 0 }
        ensures failed { result.failed ≡ 0 }
    {
        MemorySink {
            bytes: [0; N],
            len: 0,
            flushed: true,
            room: N,
            per_write: N,
            flush_fails: false,
            failed: 0,
        }
    }

    /// The bytes that were taken.
    pub fn taken(&self) -> &[u8]
        ensures { result.now ≡ take self.now.len self.now.bytes }
    {
        let all = &self.bytes[..];
        &all[..self.len]
    }
}

impl<const N: usize> Sink for MemorySink<N> {
    ghost taken = { λ s. Some (take s.len s.bytes) };

    ghost is_flushed = { λ s. s.flushed ≡ true };

    ghost failures = { λ s. s.failed };

    fn write(&mut self, buf: &[u8]) -> Result<usize, DeviceFailed> {
        let room = self.room.min(N).saturating_sub(self.len);
        let n = self.per_write.min(buf.len()).min(room);
        if n == 0 && !buf.is_empty() {
            self.failed = after_failure(self.failed);
            return Err(DeviceFailed);
        }
        let end = self.len + n;
        let all = &mut self.bytes[..];
        all[self.len..end].copy_from_slice(&buf[..n]);
        self.len = end;
        self.flushed = false;
        Ok(n)
    }

    fn flush(&mut self) -> Result<(), DeviceFailed> {
        if self.flush_fails {
            self.failed = after_failure(self.failed);
            return Err(DeviceFailed);
        }
        self.flushed = true;
        Ok(())
    }
}

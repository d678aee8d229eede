//! Where bytes come from and where they go to.
ghost use Rattle.std.specs.Prelude.{◌≡◌, ◌<◌, ◌≤◌, ℕ, List, Option, length, IfOk, OnOk};
ghost use Rattle.std.specs.Io.KnownBytes.{Keeps, ReadConsumes, WriteAppends};
ghost use Rattle.hwdb_spec.specs.Failures.{CountsFailures};

use hwdb_spec::{Cause, DeviceFailed};

/// Where bytes come from, shaped as std's `Read`.
pub trait Source {
    /// The bytes that are left, if the source tells them.
    ghost left: { Self → Option (List ℕ) };
    /// How many calls have failed so far, which stays at the greatest `u64`.
    ghost failures: { Self → ℕ };

    /// Reads bytes into the front of `buf` and returns how many; 0, with room in `buf`, is the end.
    fn read(&mut self, buf: &mut [u8]) -> Result<usize, DeviceFailed>
        ensures bound { IfOk result (λ n. n ≤ length buf.new) }
        ensures bytes { ReadConsumes (left self.old) (left self.new) result buf.new }
        ensures cause { CountsFailures (failures self.old) (failures self.new) result };

    /// Why the last call that failed did, if the source knows it. For messages alone: no promise speaks of it.
    fn cause(&self) -> Option<Cause> {
        None
    }
}

/// Where bytes go to, shaped as std's `Write`.
pub trait Sink {
    /// The bytes that were taken, if the sink tells them.
    ghost taken: { Self → Option (List ℕ) };
    /// All bytes that were taken were handed on, and none is held back. After a write that need not be.
    ghost is_flushed: { Self → Type 0 };
    /// How many calls have failed so far, which stays at the greatest `u64`.
    ghost failures: { Self → ℕ };

    /// Takes bytes from the front of `buf` and returns how many. Taking none of something has failed.
    fn write(&mut self, buf: &[u8]) -> Result<usize, DeviceFailed>
        ensures bound { IfOk result (λ n. n ≤ length buf.now) }
        ensures progress { IfOk result (λ n. 0 < length buf.now → 0 < n) }
        ensures bytes { WriteAppends (taken self.old) (taken self.new) result buf.now }
        ensures cause { CountsFailures (failures self.old) (failures self.new) result };

    /// Hands on what was taken but is still held back.
    fn flush(&mut self) -> Result<(), DeviceFailed>
        ensures bytes { Keeps (taken self.old) (taken self.new) }
        ensures flushed { OnOk result (is_flushed self.new) }
        ensures cause { CountsFailures (failures self.old) (failures self.new) result };

    /// Why the last call that failed did, if the sink knows it. For messages alone: no promise speaks of it.
    fn cause(&self) -> Option<Cause> {
        None
    }
}

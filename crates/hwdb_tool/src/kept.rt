//! A text that is kept in memory until it is known what is said with it.
ghost use Rattle.std.specs.Prelude.{◌≡◌, ◌⊎◌, [], None, Some};
ghost use Rattle.hwdb_spec_commands.specs.declared.refusals.Refusal.TheVariants.{Plain};

use hwdb_answers::ToolError;
use hwdb_io::{DeviceFailed, Sink, after_failure};
use hwdb_system::Refusal;
use std::alloc::{AllocError, Global};

/// A sink that keeps what it takes. A write fails if there is no memory for it, and for no other reason.
#[derive(Drop)]
pub struct Kept {
    /// What it took.
    pub bytes: Vec<u8>,
    /// The last refusal of memory, if there was one.
    pub refused: Option<AllocError>,
    /// How many calls have failed.
    pub failed: u64,
    ghost told: { refused ≡ None → failed ≡ 0 },
}

impl Kept {
    /// A sink that has taken nothing.
    pub fn new(alloc: Global) -> Kept
        ensures empty { result.bytes.items ≡ [] }
        ensures failed { result.failed ≡ 0 }
    {
        Kept {
            bytes: Vec::new(alloc),
            refused: None,
            failed: 0,
        }
    }
}

impl Sink for Kept {
    ghost taken = { λ s. Some s.bytes.items };

    // It is where its bytes go to: none is held back.
    ghost is_flushed = { λ s. s.bytes.items ≡ s.bytes.items };

    ghost failures = { λ s. s.failed };

    fn write(&mut self, buf: &[u8]) -> Result<usize, DeviceFailed> {
        match self.bytes.extend_from_slice(buf) {
            Ok(()) => Ok(buf.len()),
            Err(refused) => {
                self.refused = Some(refused);
                self.failed = after_failure(self.failed);
                Err(DeviceFailed)
            }
        }
    }

    fn flush(&mut self) -> Result<(), DeviceFailed> {
        Ok(())
    }
}

/// The error of a run whose texts went to these sinks: what one of them was refused, and else its own.
pub fn unkept(refusal: Refusal, out: &Kept, err: &Kept) -> Refusal
    ensures { ((result ≡ refusal) × (out.now.failed ≡ 0) × (err.now.failed ≡ 0))
        ⊎ (result ≡ Plain ToolError.Memory) }
{
    match (out.refused, err.refused) {
        (Some(refused), _) | (None, Some(refused)) => Refusal::from(refused),
        (None, None) => refusal,
    }
}

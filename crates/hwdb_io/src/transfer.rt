//! Reading a whole source and writing a whole text.
ghost use Rattle.std.specs.Prelude.{◌≡◌, ◌<◌, ◌≤◌, length, IfOk, IfSome, IsErrOf, OnErr, OnOk, vec_len};
ghost use Rattle.std.specs.Io.KnownBytes.{IsAtEnd};
ghost use Rattle.hwdb_spec.specs.Flushing.{HandsOn};
ghost use Rattle.hwdb_spec.specs.Outputs.{CutShort, FailedOnly, Took};

use crate::devices::{Sink, Source};
use hwdb_spec::{DeviceFailed, ReadError};
use std::alloc::Global;

/// The program's limit: a text file or database that it reads, and the database that it writes, has at
/// most so many bytes.
pub const MAX_BYTES: u32 = 268_435_456;

/// Writes all of the text and flushes, so that the sink holds nothing back. Takes no memory. The first call that fails ends it:
/// a prefix of the text was taken then.
pub fn write_text<W: Sink>(sink: &mut W, text: &[u8]) -> Result<(), DeviceFailed>
    ensures took { OnOk result (Took text.now (W.taken sink.old) (W.taken sink.new)
        (W.failures sink.old) (W.failures sink.new)) }
    ensures flushed { OnOk result (W.is_flushed sink.new) }
    ensures cut_short { OnErr result (CutShort text.now (W.taken sink.old) (W.taken sink.new)
        (W.failures sink.old) (W.failures sink.new)) }
    ensures hands_on { HandsOn (W.is_flushed sink.old) (W.is_flushed sink.new)
        (W.failures sink.old) (W.failures sink.new) }
{
    let mut written = 0;
    while written < text.len() {
        written += sink.write(&text[written..])?;
    }
    sink.flush()
}

/// How many bytes are asked for, or kept until they are written, at once.
pub const CHUNK: usize = 65536;

/// Reads all bytes up to the end, at most `max_bytes`. Each read that doesn't end it brings at least one
/// byte, so that it returns also on a source that never ends: as `ReadError::TooLong`.
pub fn read_all<R: Source>(
    alloc: Global,
    source: &mut R,
    max_bytes: u32,
) -> Result<Vec<u8>, ReadError>
    ensures whole { IfOk result (λ v. IfSome (R.left source.old) (λ xs. v.items ≡ xs)) }
    ensures end { IfOk result (λ _. IsAtEnd (R.left source.new)) }
    ensures fits { IfOk result (λ v. vec_len v ≤ max_bytes) }
    ensures failures { FailedOnly ReadError.Failed result
        (R.failures source.old) (R.failures source.new) }

    ensures too_long { IsErrOf result ReadError.TooLong
        → IfSome (R.left source.old) (λ xs. max_bytes < length xs) }
{
    let limit = max_bytes as usize;
    let mut bytes = Vec::new(alloc);
    let mut chunk = [0u8; CHUNK];
    'filling: while bytes.len() <= limit {
        let n = source.read(&mut chunk)?;
        if n == 0 {
            return Ok(bytes);
        }
        if n > limit - bytes.len() {
            return Err(ReadError::TooLong);
        }
        bytes.extend_from_slice(&chunk[..n])?;
    }
    Err(ReadError::TooLong)
}

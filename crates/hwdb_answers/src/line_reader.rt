//! The lines of a source, one after another.
ghost use Rattle.std.specs.Prelude.{[], ◌≡◌, ◌≢◌, ◌<◌, ◌≤◌, ◌+◌, true, false, IfOk, IfErr, IfSome, IfNone, OnOk, IsErrOf, vec_len};
ghost use Rattle.std.specs.Io.KnownBytes.{IsAtEnd};
ghost use Rattle.std.specs.List.{position_or_len};
ghost use Rattle.hwdb_spec.specs.Failures.{CountsFailures};
ghost use Rattle.hwdb_spec.specs.Lines.{byte, is};
ghost use Rattle.hwdb_spec.specs.Outputs.{FailedOnly};
ghost use Rattle.hwdb_answers.specs.Streams.{IsFirstLine, held, to_come};
ghost use Rattle.hwdb_answers.specs.Internal.{IsTaken, IsRefilled};

use crate::chunk::LineReader;
use hwdb_io::{CHUNK, DeviceFailed, ReadError, Source};
use hwdb_text::end_of;
use std::alloc::Global;

impl LineReader {
    /// Nothing was read.
    pub fn new() -> LineReader
        ensures { held result ≡ [] }
    {
        LineReader {
            chunk: [0; CHUNK],
            at: 0,
            end: 0,
        }
    }

    /// Reads on, if all was handed on, and answers whether there was more.
    ///
    /// The only error is that the source fails.
    fn refill<I: Source>(&mut self, source: &mut I) -> Result<bool, DeviceFailed>
        requires handed { held self.old ≡ [] }
        ensures read { IfOk result
            (IsRefilled (I.left source.old) (held self.new) (I.left source.new)) }
        ensures failures { CountsFailures (I.failures source.old) (I.failures source.new) result }
    {
        self.at = 0;
        self.end = 0;
        let n = source.read(&mut self.chunk)?;
        self.end = n;
        Ok(n > 0)
    }

    /// Hands on what is held up to a newline, or all, after a line's beginning, and answers whether that was the whole
    /// line.
    ///
    /// Errors are a line of more bytes than `max_bytes`, and want of memory.
    fn take_line(&mut self, line: &mut Vec<u8>, max_bytes: u32) -> Result<bool, ReadError>
        requires begun { vec_len line.old ≤ max_bytes }
        ensures taken { IfOk result
            (IsTaken line.old.items (held self.old) line.new.items (held self.new)) }
        ensures fits { OnOk result (vec_len line.new ≤ max_bytes) }
        ensures unfailed { IfErr result (λ e. e ≢ ReadError.Failed) }
        ensures too_long { IsErrOf result ReadError.TooLong
            → max_bytes < vec_len line.old + position_or_len (is (byte "\n")) (held self.old) }
    {
        let all = &self.chunk[..];
        let part = &all[self.at..self.end];
        let end = end_of(b'\n', part);
        if end > max_bytes as usize - line.len() {
            return Err(ReadError::TooLong);
        }
        line.extend_from_slice(&part[..end])?;
        if end < part.len() {
            self.at = self.at + end + 1;
            return Ok(true);
        }
        self.at = self.end;
        Ok(false)
    }

    /// The next line, without its newline, if there is one; the last may have none. It reads on only if no whole line
    /// is held. Each byte is searched once and copied once.
    ///
    /// Errors are a source that fails, a line of more bytes than `max_bytes` (so that it returns also on a source that
    /// never ends), and memory.
    pub fn next_line<I: Source>(
        &mut self,
        alloc: Global,
        source: &mut I,
        max_bytes: u32,
    ) -> Result<Option<Vec<u8>>, ReadError>
        ensures line { IfOk result (λ found. IfSome found (λ line. IsFirstLine line.items
            (to_come self.old (I.left source.old)) (to_come self.new (I.left source.new)))) }
        ensures end { IfOk result (λ found. IfNone found
            (IsAtEnd (to_come self.old (I.left source.old)))) }
        ensures fits { IfOk result (λ found. IfSome found (λ line. vec_len line ≤ max_bytes)) }

        ensures too_long { IsErrOf result ReadError.TooLong
            → IfSome (to_come self.old (I.left source.old))
            (λ bytes. max_bytes < position_or_len (is (byte "\n")) bytes) }
        ensures failures { FailedOnly ReadError.Failed result
            (I.failures source.old) (I.failures source.new) }
    {
        let mut line = Vec::new(alloc);
        'reading: while line.len() <= max_bytes as usize {
            if self.take_line(&mut line, max_bytes)? {
                return Ok(Some(line));
            }
            if !self.refill(source)? {
                if line.is_empty() {
                    return Ok(None);
                }
                return Ok(Some(line));
            }
        }
        Err(ReadError::TooLong)
    }
}

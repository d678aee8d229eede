//! Any std reader as a source, and any std writer as a sink. They tell of the bytes what these tell.
ghost use Rattle.std.specs.Prelude.{◌≡◌, true};
ghost use Rattle.std.specs.Io.{ReadsAtMost, WritesAtMost};
ghost use Rattle.std.specs.Io.KnownBytes.{ReadConsumes, WriteAppends};
ghost use Rattle.hwdb_spec.specs.Failures.{after_failure};

use crate::devices::{Sink, Source};
use hwdb_spec::{Cause, DeviceFailed};
use std::io::{self, ErrorKind, Read, Write};

/// The count of failed calls after one more, which stays at its greatest value.
pub fn after_failure(failed: u64) -> u64
    ensures { result ≡ after_failure failed }
{
    failed.saturating_add(1)
}

/// Reads, and tries again if a signal came between.
fn read_on<R: Read>(reader: &mut R, buf: &mut [u8]) -> io::Result<usize>
    ensures bound { ReadsAtMost result buf.new }
    ensures bytes { ReadConsumes (R.remaining reader.old) (R.remaining reader.new) result buf.new }
{
    'tries: for _ in 0..u64::MAX {
        match reader.read(buf) {
            Err(error) if error.kind() == ErrorKind::Interrupted => {}
            done => return done,
        }
    }
    Err(io::Error::from(ErrorKind::Interrupted))
}

/// Writes, and tries again if a signal came between.
pub fn write_on<W: Write>(writer: &mut W, buf: &[u8]) -> io::Result<usize>
    ensures bound { WritesAtMost result buf.now }
    ensures bytes { WriteAppends (W.contents writer.old) (W.contents writer.new) result buf.now }
{
    'tries: for _ in 0..u64::MAX {
        match writer.write(buf) {
            Err(error) if error.kind() == ErrorKind::Interrupted => {}
            done => return done,
        }
    }
    Err(io::Error::from(ErrorKind::Interrupted))
}

/// A reader as a source.
#[derive(Drop)]
pub struct FromRead<R> {
    /// The reader.
    pub inner: R,
    /// How many of its calls have failed; one that a signal interrupted is made again.
    pub failed: u64,
    /// Why the last of these did.
    pub cause: Option<Cause>,
}

impl<R> FromRead<R> {
    /// A reader of which no call has failed.
    pub fn new(inner: R) -> FromRead<R>
        ensures { result.failed ≡ 0 }
    {
        FromRead {
            inner,
            failed: 0,
            cause: None,
        }
    }

    /// Notes a read that failed.
    fn fail(&mut self, error: &io::Error) -> DeviceFailed
        ensures failed { self.new.failed ≡ after_failure self.old.failed }
        ensures same { self.new.inner ≡ self.old.inner }
    {
        self.failed = after_failure(self.failed);
        self.cause = Some(Cause::of(error));
        DeviceFailed
    }
}

impl<R: Read> Source for FromRead<R> {
    ghost left = { λ s. R.remaining s.inner };

    ghost failures = { λ s. s.failed };

    fn read(&mut self, buf: &mut [u8]) -> Result<usize, DeviceFailed> {
        match read_on(&mut self.inner, buf) {
            Ok(n) => Ok(n),
            Err(error) => Err(self.fail(&error)),
        }
    }

    fn cause(&self) -> Option<Cause> {
        self.cause
    }
}

/// A writer as a sink.
#[derive(Drop)]
pub struct ToWrite<W> {
    /// The writer.
    pub inner: W,
    /// How many of its calls have failed; one that a signal interrupted is made again, and a write that took
    /// nothing of something has failed.
    pub failed: u64,
    /// Why the last of these did.
    pub cause: Option<Cause>,
    /// Whether it took nothing since the last flush.
    pub flushed: bool,
}

impl<W> ToWrite<W> {
    /// A writer of which no call has failed, and that has taken nothing.
    pub fn new(inner: W) -> ToWrite<W>
        ensures failed { result.failed ≡ 0 }
        ensures flushed { result.flushed ≡ true }
    {
        ToWrite {
            inner,
            failed: 0,
            cause: None,
            flushed: true,
        }
    }

    /// Notes a call that failed.
    fn fail(&mut self, cause: Cause) -> DeviceFailed
        ensures failed { self.new.failed ≡ after_failure self.old.failed }
        ensures same { self.new.inner ≡ self.old.inner }
    {
        self.failed = after_failure(self.failed);
        self.cause = Some(cause);
        DeviceFailed
    }
}

impl<W: Write> Sink for ToWrite<W> {
    ghost taken = { λ s. W.contents s.inner };

    // No contract of the library says what a writer holds back: this says that its flush was called, and was Ok.
    ghost is_flushed = { λ s. s.flushed ≡ true };

    ghost failures = { λ s. s.failed };

    fn write(&mut self, buf: &[u8]) -> Result<usize, DeviceFailed> {
        self.flushed = false;
        match write_on(&mut self.inner, buf) {
            Ok(n) if n > 0 || buf.is_empty() => Ok(n),
            Ok(_) => Err(self.fail(Cause::Nothing)),
            Err(error) => Err(self.fail(Cause::of(&error))),
        }
    }

    fn flush(&mut self) -> Result<(), DeviceFailed> {
        match self.inner.flush() {
            Ok(()) => {
                self.flushed = true;
                Ok(())
            }
            Err(error) => Err(self.fail(Cause::of(&error))),
        }
    }

    fn cause(&self) -> Option<Cause> {
        self.cause
    }
}

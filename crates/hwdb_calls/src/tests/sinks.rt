//! Sinks that take a few bytes at a time, or none, or whose flush fails.
ghost use Rattle.std.specs.Prelude.{◌≡◌, true, Some, take};

use crate::tests::calls::{ask, list, query};
use crate::tests::compiling::compiled;
use hwdb_answers::ToolError;
use hwdb_io::testing::MemorySink;
use hwdb_io::{Cause, DeviceFailed, Sink, ToWrite, write_text};
use std::alloc::Global;
use std::io::{self, Write};
use std::test::Fail;

/// What a command prints of a small database.
#[derive(Clone, Copy)]
struct Printing {
    lists: bool,
    text: &'static str,
    device: &'static str,
    printed: &'static str,
}

const LIST: Printing = Printing {
    lists: true,
    text: "a*\n K=1\n\nab\n K=2\n",
    device: "ab",
    printed: "1:2:612a:4b\ta*\tK=1\n1:5:6162:4b\tab\tK=2\n",
};

const QUERY: Printing = Printing {
    lists: false,
    text: "usb:v1234*\n ID_X=1\n",
    device: "usb:v1234p5",
    printed: "ID_X=1\n",
};

fn print<O: Sink>(
    alloc: Global,
    row: Printing,
    bytes: &[u8],
    out: &mut O,
) -> Result<(), ToolError> {
    let device = row.device.as_bytes();
    if row.lists {
        list(alloc, bytes, device, None, None, out)
    } else {
        query(alloc, bytes, device, out)
    }
}

/// A sink of which the first flush fails, and no other.
#[derive(Drop)]
struct FirstFlushFails {
    sink: MemorySink<64>,
}

impl FirstFlushFails {
    fn new() -> FirstFlushFails {
        let mut sink: MemorySink<64> = MemorySink::new();
        sink.flush_fails = true;
        FirstFlushFails { sink }
    }
}

impl Sink for FirstFlushFails {
    ghost taken = { λ s. Some (take s.sink.len s.sink.bytes) };

    ghost is_flushed = { λ s. s.sink.flushed ≡ true };

    ghost failures = { λ s. s.sink.failed };

    fn write(&mut self, buf: &[u8]) -> Result<usize, DeviceFailed> {
        self.sink.write(buf)
    }

    fn flush(&mut self) -> Result<(), DeviceFailed> {
        let flushed = self.sink.flush();
        self.sink.flush_fails = false;
        flushed
    }
}

/// A flush that fails is an error, though the next one wouldn't fail.
#[test]
fn first_flush_fails(rt: HostRuntime) -> Result<(), Fail> {
    let alloc = rt.alloc();
    let mut out = FirstFlushFails::new();
    assert_eq!(rt; write_text(&mut out, b"abcde"), Err(DeviceFailed));
    assert_eq!(rt; out.sink.taken(), b"abcde".as_slice());
    assert_eq!(rt; out.sink.flushed, false);
    assert_eq!(rt; write_text(&mut out, b""), Ok(()));
    assert_eq!(rt; out.sink.flushed, true);
    let mut out = FirstFlushFails::new();
    let mut err: MemorySink<8> = MemorySink::new();
    let text = b"a\n K=1\n";
    let seen = ask(alloc, "t.hwdb", text, b"a", &mut out, &mut err);
    assert_eq!(rt; seen, Err(ToolError::Write));
    assert_eq!(rt; out.sink.taken(), b"K=1\n".as_slice());
    Ok(())
}

/// A writer of the library that takes so many bytes at a time.
#[derive(Drop)]
struct ShortWriter {
    sink: MemorySink<64>,
}

impl Write for ShortWriter {
    fn write(&mut self, buf: &[u8]) -> io::Result<usize> {
        Ok(self.sink.write(buf).unwrap_or(0))
    }

    fn flush(&mut self) -> io::Result<()> {
        Ok(())
    }
}

/// What such a writer has taken of what a command prints, and what the call returned.
fn written(
    alloc: Global,
    row: Printing,
    bytes: &[u8],
    per_write: usize,
) -> (ToWrite<ShortWriter>, Result<(), ToolError>) {
    let mut sink: MemorySink<64> = MemorySink::new();
    sink.per_write = per_write;
    let mut out = ToWrite::new(ShortWriter { sink });
    let seen = print(alloc, row, bytes, &mut out);
    (out, seen)
}

/// A writer of the library that writes short gets the whole text all the same.
#[test]
fn short_writes(rt: HostRuntime) -> Result<(), Fail> {
    for row in [LIST, QUERY] {
        let bytes = compiled(rt.alloc(), &[("1.hwdb", row.text)], &[])?;
        for per_write in [1usize, 3, 64] {
            let (out, seen) = written(rt.alloc(), row, &bytes, per_write);
            assert_eq!(rt; seen, Ok(()));
            assert_eq!(rt; out.inner.sink.taken(), row.printed.as_bytes());
        }
    }
    Ok(())
}

/// One that takes nothing has failed.
#[test]
fn full_writer(rt: HostRuntime) -> Result<(), Fail> {
    let bytes = compiled(rt.alloc(), &[("1.hwdb", QUERY.text)], &[])?;
    let (out, seen) = written(rt.alloc(), QUERY, &bytes, 0);
    assert_eq!(rt; seen, Err(ToolError::Write));
    assert_eq!(rt; out.cause, Some(Cause::Nothing));
    Ok(())
}

/// A writer of the library that takes all, and whose flush fails.
#[derive(Drop)]
struct UnflushedWriter;

impl Write for UnflushedWriter {
    fn write(&mut self, buf: &[u8]) -> io::Result<usize> {
        Ok(buf.len())
    }

    fn flush(&mut self) -> io::Result<()> {
        Err(io::Error::from_raw_os_error(28))
    }
}

/// The library's flush is called after a text, and after an empty one too: if it fails the call has failed.
#[test]
fn unflushed_writers(rt: HostRuntime) {
    for text in [b"".as_slice(), b"abcde".as_slice()] {
        let mut out = ToWrite::new(UnflushedWriter);
        assert_eq!(rt; write_text(&mut out, text), Err(DeviceFailed));
        assert_eq!(rt; out.failed, 1);
        assert_eq!(rt; out.cause, Some(Cause::System(28)));
    }
}

//! The keys that a source of events tells, each as its bytes come.
ghost use Rattle.std.specs.Io.KnownBytes.{Consumes, IsAtEnd, Keeps};
ghost use Rattle.std.specs.Prelude.{◌≡◌, ◌-◌, ◌≤◌, ◌<◌, ◌⊎◌, ℕ, IfErr, IfOk, IfSome, List, OnOk, Option, length, take};
ghost use Rattle.hwdb_spec.specs.Failures.{CountsFailures};
ghost use Rattle.hwdb_spec.specs.Flushing.{HandsOn};
ghost use Rattle.hwdb_spec.specs.Outputs.{CutShort, FailedOnly, Took};
ghost use Rattle.hwdb_scan.specs.Enough.{IsNoMoreRead, IsOnePiece, WentOn};
ghost use Rattle.hwdb_scan.specs.Internal.{IsScanning, IsStoppedBy};
ghost use Rattle.hwdb_scan.specs.Scanning.{IsScanError, IsScanned};
ghost use Rattle.hwdb_scan.specs.Views.{after_bytes, bytes_text, scanning_of};

use crate::scanner::Scanner;
use hwdb_io::{CHUNK, Sink, Source, write_text};
use hwdb_spec::ToolError;
use std::alloc::Global;

/// How many bytes are asked for at once, if so many may still be read.
fn piece_size(room: u64) -> usize
    ensures few { result ≤ 65536 }
    ensures within { result ≤ room }
    ensures some { 0 < room → 0 < result }
{
    if room < CHUNK as u64 {
        room as usize
    } else {
        CHUNK
    }
}

/// Reads once, no more than may still be read.
fn read_piece<I: Source>(chunk: &mut [u8], room: u64, input: &mut I) -> Result<usize, ToolError>
    requires size { length chunk.old ≡ 65536 }
    requires room { 0 < room }
    ensures same { length chunk.new ≡ 65536 }
    ensures few { IfOk result (λ n. n ≤ 65536) }
    ensures within { IfOk result (λ n. n ≤ room) }
    ensures read { IfOk result
        (λ n. Consumes (I.left input.old) (I.left input.new) (take n chunk.new)) }
    ensures end { IfOk result (λ n. n ≡ 0 → IsAtEnd (I.left input.new)) }
    ensures kept { IfErr result
        (λ e. (e ≡ ToolError.Read) × Keeps (I.left input.old) (I.left input.new)) }
    ensures failures { CountsFailures (I.failures input.old) (I.failures input.new) result }
{
    let size = piece_size(room);
    match input.read(&mut chunk[..size]) {
        Ok(n) => Ok(n),
        Err(_) => Err(ToolError::Read),
    }
}

/// Writes lines, if there are any.
fn write_lines<O: Sink>(lines: &[u8], out: &mut O) -> Result<(), ToolError>
    ensures took { OnOk result (Took lines.now (O.taken out.old) (O.taken out.new)
        (O.failures out.old) (O.failures out.new)) }
    ensures cut { IfErr result (λ e. (e ≡ ToolError.Write) × CutShort lines.now
        (O.taken out.old) (O.taken out.new) (O.failures out.old) (O.failures out.new)) }
    ensures flushed { OnOk result (O.is_flushed out.old → O.is_flushed out.new) }
    ensures hands_on { HandsOn (O.is_flushed out.old) (O.is_flushed out.new)
        (O.failures out.old) (O.failures out.new) }
{
    if lines.is_empty() {
        return Ok(());
    }
    match write_text(out, lines) {
        Ok(()) => Ok(()),
        Err(_) => Err(ToolError::Write),
    }
}

/// Takes bytes, and prints the lines of the keys that they tell.
fn tell<O: Sink>(
    alloc: Global,
    scanner: &mut Scanner,
    bytes: &[u8],
    out: &mut O,
) -> Result<(), ToolError>
    ensures held { OnOk result
        (scanning_of scanner.new ≡ after_bytes (scanning_of scanner.old) bytes.now) }
    ensures took { OnOk result (Took (bytes_text (scanning_of scanner.old) bytes.now)
        (O.taken out.old) (O.taken out.new) (O.failures out.old) (O.failures out.new)) }
    ensures stopped { IfErr result (λ e. ((e ≡ ToolError.Write)
        × CutShort (bytes_text (scanning_of scanner.old) bytes.now)
        (O.taken out.old) (O.taken out.new) (O.failures out.old) (O.failures out.new))
        ⊎ ((e ≡ ToolError.Memory) × (O.taken out.new ≡ O.taken out.old)
        × (O.failures out.new ≡ O.failures out.old))) }
    ensures flushed { OnOk result (O.is_flushed out.old → O.is_flushed out.new) }
    ensures hands_on { HandsOn (O.is_flushed out.old) (O.is_flushed out.new)
        (O.failures out.old) (O.failures out.new) }
{
    let mut lines = Vec::new(alloc);
    scanner.take(alloc, bytes, &mut lines)?;
    write_lines(&lines, out)
}

/// Reads once, and prints the lines of the keys that these bytes tell. Returns how many bytes came; none at the end.
fn scan_once<I: Source, O: Sink>(
    alloc: Global,
    scanner: &mut Scanner,
    room: u64,
    input: &mut I,
    out: &mut O,
) -> Result<u64, ToolError>
    requires room { 0 < room }
    ensures went { IfOk result (λ n. WentOn room n (I.left input.old) (I.left input.new)
        (O.taken out.old) (O.taken out.new) (scanning_of scanner.old) (scanning_of scanner.new)) }
    ensures stopped { IfErr result (λ e. IsScanError e × ((most : ℕ) (count : Option ℕ)
        (left taken : Option (List ℕ)) → IsScanning most count left (I.left input.old)
        taken (O.taken out.old) (scanning_of scanner.old) room
        → IfSome left (λ bytes.
        IsStoppedBy most count bytes (I.left input.new) taken (O.taken out.new) e))) }
    ensures piece { IsOnePiece (I.left input.old) (I.left input.new)
        (scanning_of scanner.old) (scanning_of scanner.new) result }
    ensures reads { FailedOnly ToolError.Read result (I.failures input.old) (I.failures input.new) }
    ensures writes { FailedOnly ToolError.Write result (O.failures out.old) (O.failures out.new) }
    ensures flushed { OnOk result (O.is_flushed out.old → O.is_flushed out.new) }
    ensures hands_on { HandsOn (O.is_flushed out.old) (O.is_flushed out.new)
        (O.failures out.old) (O.failures out.new) }
{
    let mut chunk = [0u8; CHUNK];
    let n = match read_piece(&mut chunk, room, input) {
        Ok(n) => n,
        Err(error) => return Err(error),
    };
    match tell(alloc, scanner, &chunk[..n], out) {
        Ok(()) => Ok(n as u64),
        Err(error) => Err(error),
    }
}

/// Reads events of an input device up to the source's end, and prints the line of each key that is pressed as soon as its bytes are
/// read. With a count it ends after so many keys, and no more is read then: a read brings at most 65,536 bytes. No more than 2^64 - 1 bytes
/// are read.
///
/// Errors are a failed read, before which the lines of all that was read were printed; a failed write, before which a prefix of all lines
/// was; and memory, before which those of the first bytes were. Memory doesn't grow with the events.
pub fn run_scan<I: Source, O: Sink>(
    alloc: Global,
    count: Option<u64>,
    input: &mut I,
    out: &mut O,
) -> Result<(), ToolError>
    ensures scanned { IfSome (I.left input.old) (λ bytes. IsScanned count bytes
        (I.left input.new) (O.taken out.old) (O.taken out.new) result) }
    ensures enough { IsNoMoreRead count (I.left input.old) (I.left input.new) }
    ensures errors { IfErr result IsScanError }
    ensures reads { FailedOnly ToolError.Read result (I.failures input.old) (I.failures input.new) }
    ensures writes { FailedOnly ToolError.Write result (O.failures out.old) (O.failures out.new) }
    ensures hands_on { HandsOn (O.is_flushed out.old) (O.is_flushed out.new)
        (O.failures out.old) (O.failures out.new) }
{
    let mut scanner = Scanner::new(alloc, count);
    let mut room = u64::MAX;
    'scanning: while room > 0 {
        if scanner.is_done() {
            return Ok(());
        }
        let n = match scan_once(alloc, &mut scanner, room, input, out) {
            Ok(n) => n,
            Err(error) => return Err(error),
        };
        if n == 0 {
            return Ok(());
        }
        room -= n;
    }
    Ok(())
}

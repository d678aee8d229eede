//! Bytes as runs, as they are shown.
ghost use Rattle.std.specs.Prelude.{◌≡◌, ◌++◌, ◌∷◌, [], List, ℕ, flat_map, IfOk, OnOk};
ghost use Rattle.hwdb_spec_commands.specs.Unmatched;

use hwdb_show::push_byte;
use std::alloc::{AllocError, Global};

/// The first byte of a run, and its last one.
type ByteRun = (u8, u8);

/// Reads a byte after a run: it goes on with it, or is a run of its own. The only error, here and below, is
/// `AllocError`.
fn step(runs: &mut Vec<ByteRun>, run: ByteRun, byte: u8) -> Result<ByteRun, AllocError>
    ensures { IfOk result (λ now. (more : List ℕ)
        → runs.new.items ++ Unmatched.runs_from now.0 now.1 more
        ≡ runs.old.items ++ Unmatched.runs_from run.0 run.1 (byte ∷ more)) }
{
    if byte as u16 == run.1 as u16 + 1 {
        return Ok((run.0, byte));
    }
    runs.push(run)?;
    Ok((byte, byte))
}

/// Bytes in order as runs.
pub fn runs_of(alloc: Global, bytes: &[u8]) -> Result<Vec<ByteRun>, AllocError>
    ensures { IfOk result (λ runs. runs.items ≡ Unmatched.runs bytes.now) }
{
    let mut runs = Vec::new(alloc);
    if bytes.is_empty() {
        return Ok(runs);
    }
    let mut run = (bytes[0], bytes[0]);
    for byte in &bytes[1..] {
        run = step(&mut runs, run, *byte)?;
    }
    runs.push(run)?;
    Ok(runs)
}

/// Adds a run.
fn push_run(text: &mut Vec<u8>, run: ByteRun) -> Result<(), AllocError>
    ensures { OnOk result (text.new.items ≡ text.old.items ++ Unmatched.run_text run) }
{
    push_byte(text, run.0)?;
    if run.0 != run.1 {
        text.push(b'-')?;
        push_byte(text, run.1)?;
    }
    Ok(())
}

/// Adds more runs.
fn push_more(text: &mut Vec<u8>, more: &[ByteRun]) -> Result<(), AllocError>
    ensures { OnOk result (text.new.items ≡ text.old.items ++ flat_map Unmatched.or_run more.now) }
{
    for run in more {
        text.extend_from_slice(b" or ")?;
        push_run(text, *run)?;
    }
    Ok(())
}

/// Adds what to do if no byte is named.
pub fn push_compare(text: &mut Vec<u8>) -> Result<(), AllocError>
    ensures { OnOk result (text.new.items ≡ text.old.items ++ Unmatched.compare_hint) }
{
    let hint = "compare it byte by byte with a string that udev asks, upper and lower case too";
    text.extend_from_slice(hint.as_bytes())?;
    Ok(())
}

/// Adds the bytes that could be at a place, if they are at most three runs.
pub fn push_runs(text: &mut Vec<u8>, runs: &[ByteRun]) -> Result<(), AllocError>
    ensures { OnOk result (text.new.items ≡ text.old.items ++ Unmatched.runs_hint runs.now) }
{
    if runs.is_empty() {
        return push_compare(text);
    }
    if runs.len() > 3 {
        return push_compare(text);
    }
    text.extend_from_slice(b"put ")?;
    push_run(text, runs[0])?;
    push_more(text, &runs[1..])?;
    text.extend_from_slice(b" here")?;
    Ok(())
}

//! `scan`: the keys that the events of an input device tell.
ghost use Rattle.std.specs.Prelude.{◌≡◌, ◌≢◌, ◌≤◌, IfOk, OnOk, Option, option_map, string_bytes};
ghost use Rattle.hwdb_spec.specs.Flushing.{HandsOn};
ghost use Rattle.hwdb_spec_commands.specs.Runs.{Told, told_by};
ghost use Rattle.hwdb_spec_commands.specs.ScanAsked as spec;
ghost use Rattle.hwdb_spec_commands.specs.Told.{Reads};
ghost use Rattle.hwdb_plan.specs.Ended.{IsUnscanned, ShowsEnd, outs};
ghost use Rattle.hwdb_plan.specs.Scan.{scan_plan};
ghost use Rattle.hwdb_tool.specs.Scanned.{IsUnscannedFor};
ghost use Rattle.hwdb_spec_commands.specs.declared.job.Task.TheVariants.{Scan};

use crate::verb::{StreamVerb, root_of};
use hwdb_answers::ToolError;
use hwdb_cli::{Job, ScanArgs};
use hwdb_io::{Cause, Sink, Source};
use hwdb_scan::{run_scan, scanned_path, unscanned_text};
use hwdb_system::{Machine, Refusal};
use std::alloc::{AllocError, Global};

/// What `scan` is asked.
#[derive(Clone, Copy)]
pub struct ScanAsked<'a> {
    /// What is in front of the device's path.
    pub root: &'a str,
    /// The device; `-` is standard input.
    pub device: &'a str,
    /// How many keys are told; none if all of them are.
    pub count: Option<u64>,
}

/// Prints a line for each key that the events of `input` tell, as soon as they are read: of all keys, or of as many as are asked for. Errors
/// name what the events are of: the device below the root, or with `-` standard input.
pub fn scan<I: Source, O: Sink>(
    alloc: Global,
    asked: ScanAsked<'_>,
    input: &mut I,
    out: &mut O,
) -> Result<u8, Refusal>
    ensures small { IfOk result (λ status. status ≤ 1) }
    ensures follows { (reads : Reads) (err : Told) → ShowsEnd reads
        (scan_plan asked.entry.root.now asked.entry.device.now asked.entry.count)
        (told_by I.left I.failures input.old) (told_by I.left I.failures input.new)
        (outs err (told_by O.taken O.failures out.old))
        (outs err (told_by O.taken O.failures out.new)) result }
    ensures unfailed { OnOk result (O.failures out.new ≡ O.failures out.old) }
    ensures hands_on { HandsOn (O.is_flushed out.old) (O.is_flushed out.new)
        (O.failures out.old) (O.failures out.new) }
{
    match run_scan(alloc, asked.count, input, out) {
        Ok(()) => Ok(0),
        Err(error) => {
            let cause = input.cause();
            Err(refusal_of(alloc, error, asked.root, asked.device, cause))
        }
    }
}

/// The error of a scan of a device below a root.
fn refusal_of(
    alloc: Global,
    error: ToolError,
    root: &str,
    device: &str,
    cause: Option<Cause>,
) -> Refusal
    ensures read { error ≡ ToolError.Read → IsUnscannedFor root.now device.now result }
    ensures other { error ≢ ToolError.Read → result ≡ Refusal.Plain error }
{
    match error {
        ToolError::Read => unscanned(alloc, root, device, cause),
        error => Refusal::Plain(error),
    }
}

/// The error if a device below a root can't be read.
fn unscanned(alloc: Global, root: &str, device: &str, cause: Option<Cause>) -> Refusal
    ensures { IsUnscannedFor root.now device.now result }
{
    match words_of(alloc, root, device, cause) {
        Ok(text) => Refusal::InWords(text),
        Err(refused) => Refusal::from(refused),
    }
}

/// How errors name what is read: its path, or standard input.
fn name_of(path: &Option<String>) -> &[u8]
    ensures { result.now ≡ spec.scanned_name (option_map string_bytes path.now) }
{
    match path {
        Some(path) => path.as_bytes(),
        None => b"standard input",
    }
}

/// What is said then.
fn words_of(
    alloc: Global,
    root: &str,
    device: &str,
    cause: Option<Cause>,
) -> Result<Vec<u8>, AllocError>
    ensures { IfOk result
        (λ text. IsUnscanned (spec.scanned_path root.now device.now) text.items) }
{
    let path = scanned_path(alloc, root, device)?;
    unscanned_text(alloc, name_of(&path), cause)
}

impl<D: Machine, I: Source, O: Sink, E: Sink> StreamVerb<D, I, O, E> for ScanArgs {
    ghost task = { λ args. Scan args };

    fn run(
        &self,
        alloc: Global,
        job: &Job,
        _system: &D,
        input: &mut I,
        out: &mut O,
        _err: &mut E,
    ) -> Result<u8, Refusal> {
        let (root, device) = (root_of(job), self.device.as_str());
        let asked = ScanAsked {
            root,
            device,
            count: self.count,
        };
        scan(alloc, asked, input, out)
    }
}

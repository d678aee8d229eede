//! What `update` does with the files of both folders.
ghost use Rattle.std.specs.Prelude.{◌≡◌, ◌≢◌, ◌++◌, None, map, IfOk, IfErr, OnOk, IsErrOf};
ghost use Rattle.hwdb_compile.specs.Views.{sources, fault_of};
ghost use Rattle.hwdb_spec.specs.Flushing.{HandsOn};
ghost use Rattle.hwdb_spec.specs.Outputs.{CutShort, Took};
ghost use Rattle.hwdb_spec.specs.Texts.{status_of, faults_text};
ghost use Rattle.hwdb_spec.specs.Folders.{faults_of_files};
ghost use Rattle.hwdb_spec.specs.Store.{InPlace, LeavesOnly, OldOrNew};
ghost use Rattle.hwdb_spec.specs.NotReplaced.{IsLeft, IsSeen, failures_after};
ghost use Rattle.hwdb_spec_commands.specs.Done.{Updated, OldOrWritten};
ghost use Rattle.hwdb_spec_commands.specs.UpdateErrors.{UpdateUndone, OnUnreplaced, IsPlaceRefusal, IsUpdateRefusal};

use crate::texts::fault_lines;
use hwdb_compile::{Compiled, FileFault, SourceFile, compile};
use hwdb_io::{Sink, write_text};
use hwdb_replace::{Store, Unreplaced, replace};
use hwdb_spec::ToolError;
use std::alloc::{AllocError, Global};

/// The status of an update: 1 if `strict` and there is a fault, else 0.
fn status_of(strict: bool, faults: &[FileFault]) -> u8
    ensures { result ≡ status_of strict (map fault_of faults.now) }
{
    if strict && !faults.is_empty() { 1 } else { 0 }
}

/// A text, and after it the lines of some faults.
fn with_fault_lines(
    alloc: Global,
    progress: &[u8],
    faults: &[FileFault],
) -> Result<Vec<u8>, AllocError>
    ensures { IfOk result
        (λ text. text.items ≡ progress.now ++ faults_text (map fault_of faults.now)) }
{
    let lines = fault_lines(alloc, faults)?;
    let mut text = Vec::from_slice(alloc, progress)?;
    text.extend_from_slice(&lines)?;
    Ok(text)
}

/// Writes to `err` what is to be said of the work so far, and the fault lines of what was compiled. Then it puts the database
/// in its place in a folder of the store. Nothing of the store changes before the text is whole. Returns the status: 1 if
/// `strict` and there is a fault line, else 0.
pub fn put_in_place<S: Store, E: Sink>(
    alloc: Global,
    compiled: &Compiled,
    progress: &[u8],
    strict: bool,
    folder: &str,
    store: &mut S,
    err: &mut E,
) -> Result<u8, ToolError>
    ensures told { OnOk result (Took
        (progress.now ++ faults_text (map fault_of compiled.now.faults.items))
        (E.taken err.old) (E.taken err.new) (E.failures err.old) (E.failures err.new)) }
    ensures placed { S.tells → OnOk result (InPlace folder.now compiled.now.database.items
        (S.seen store.old) (S.seen store.new) (S.may_leave store.new)) }
    ensures status { IfOk result
        (λ status. status ≡ status_of strict (map fault_of compiled.now.faults.items)) }
    ensures any_moment { S.tells → LeavesOnly S.moment S.left_since store.old store.new
        (OldOrNew folder.now compiled.now.database.items (S.seen store.old)
        (S.may_leave store.old)) }
    ensures unfailed { OnOk result (S.failures store.new ≡ S.failures store.old) }

    ensures refusals { IfErr result IsPlaceRefusal }
    ensures unreplaced { IfErr result (OnUnreplaced (λ u. Took
        (progress.now ++ faults_text (map fault_of compiled.now.faults.items))
        (E.taken err.old) (E.taken err.new) (E.failures err.old) (E.failures err.new)
        × (S.failures store.new ≡ failures_after u (S.failures store.old)))) }
    ensures seen { S.tells → IfErr result (OnUnreplaced
        (IsSeen folder.now compiled.now.database.items (S.seen store.old) (S.seen store.new))) }
    ensures left { S.tells → IfErr result (OnUnreplaced
        (IsLeft folder.now compiled.now.database.items (S.seen store.old)
        (S.may_leave store.old) (S.may_leave store.new))) }
    ensures cut_short { IsErrOf result ToolError.Write → CutShort
        (progress.now ++ faults_text (map fault_of compiled.now.faults.items))
        (E.taken err.old) (E.taken err.new) (E.failures err.old) (E.failures err.new)
        × (store.new ≡ store.old) }
    ensures untouched { IfErr result
        (λ e. e ≢ ToolError.Write → ((u : Unreplaced) → e ≢ ToolError.Replace u)
        → (err.new ≡ err.old) × (store.new ≡ store.old)) }
    ensures hands_on { HandsOn (E.is_flushed err.old) (E.is_flushed err.new)
        (E.failures err.old) (E.failures err.new) }
{
    let text = with_fault_lines(alloc, progress, &compiled.faults)?;
    write_text(err, &text)?;
    replace(store, folder, &compiled.database)?;
    Ok(status_of(strict, &compiled.faults))
}

/// Compiles the files of the folders in /etc and in /usr/lib, and then does with them what [`put_in_place`] does.
///
/// This is the library's call, for who has the files' bytes. The program reads the files itself.
pub fn run_update<S: Store, E: Sink>(
    alloc: Global,
    etc: &[SourceFile],
    usr: &[SourceFile],
    max_bytes: u32,
    strict: bool,
    folder: &str,
    store: &mut S,
    err: &mut E,
) -> Result<u8, ToolError>
    ensures updated { IfOk result
        (λ status. Updated (sources etc.now) (sources usr.now) None max_bytes strict status
        (E.taken err.old) (E.taken err.new) (λ database. S.tells → InPlace folder.now database
        (S.seen store.old) (S.seen store.new) (S.may_leave store.new))) }
    ensures any_moment { S.tells → LeavesOnly S.moment S.left_since store.old store.new
        (OldOrWritten (sources etc.now) (sources usr.now) folder.now
        (S.seen store.old) (S.may_leave store.old)) }

    ensures refusals { IfErr result
        (IsUpdateRefusal (sources etc.now) (sources usr.now) max_bytes) }
    ensures unreplaced { IfErr result (OnUnreplaced
        (UpdateUndone (sources etc.now) (sources usr.now) None folder.now
        (E.taken err.old) (E.taken err.new) S.tells (S.seen store.old) (S.seen store.new)
        (S.may_leave store.old) (S.may_leave store.new))) }
    ensures counted { IfErr result (OnUnreplaced
        (λ u. (E.failures err.new ≡ E.failures err.old)
        × (S.failures store.new ≡ failures_after u (S.failures store.old)))) }
    ensures unfailed { OnOk result ((E.failures err.new ≡ E.failures err.old)
        × (S.failures store.new ≡ S.failures store.old)) }
    ensures cut_short { IsErrOf result ToolError.Write
        → CutShort (faults_text (faults_of_files (sources etc.now) (sources usr.now)))
        (E.taken err.old) (E.taken err.new) (E.failures err.old) (E.failures err.new)
        × (store.new ≡ store.old) }
    ensures untouched { IfErr result
        (λ e. e ≢ ToolError.Write → ((u : Unreplaced) → e ≢ ToolError.Replace u)
        → (err.new ≡ err.old) × (store.new ≡ store.old)) }
    ensures hands_on { HandsOn (E.is_flushed err.old) (E.is_flushed err.new)
        (E.failures err.old) (E.failures err.new) }
{
    let compiled = compile(alloc, etc, usr, max_bytes)?;
    put_in_place(alloc, &compiled, &[], strict, folder, store, err)
}

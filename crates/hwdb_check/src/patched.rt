//! The patch of text files, and what is said of some in the format that is told.
ghost use Rattle.std.specs.Prelude.{◌≡◌, ◌≤◌, ◌-◌, ◌++◌, [], IfErr, IfOk, OnOk, codes, map, option_map, string_bytes};
ghost use Rattle.std.specs.Fmt.{decimal};
ghost use Rattle.hwdb_spec_commands.specs.CheckErrors.{IsCheckRefusal, IsFileRefusal};
ghost use Rattle.hwdb_spec_commands.specs.Checks;
ghost use Rattle.hwdb_spec_commands.specs.Patches;
ghost use Rattle.hwdb_check.specs.Checks.{source_of};
ghost use Rattle.hwdb_check.specs.Summed.{after_file, patched_of, sources_of};

use crate::files::{TextFile, all_named, check_files};
use crate::findings::{format_of, push_count as push_number};
use crate::hunks::push_patch;
use crate::kinds::Telling;
use crate::sure::mend_file;
use crate::tallies::{both, push_count};
use hwdb_spec_commands::Format;
use hwdb_text::ScanError;
use std::alloc::{AllocError, Global};

/// What is said of some text files.
#[derive(Drop)]
pub struct Said {
    /// What standard error gets.
    pub err: Vec<u8>,
    /// What standard output gets.
    pub out: Vec<u8>,
    /// The exit status.
    pub status: u8,
}

/// The patch of some files, how much is found in them, and how much after that.
#[derive(Drop)]
pub struct Patched {
    /// The patch.
    pub text: Vec<u8>,
    /// How many findings there are.
    pub found: u64,
    /// How many are left.
    pub left: u64,
}

/// The patch of some files, and of one more.
fn with_file(
    alloc: Global,
    so_far: Patched,
    telling: &Telling<'_>,
    file: &TextFile<'_>,
) -> Result<Patched, ScanError>
    ensures patched { IfOk result (λ p. patched_of p ≡ after_file telling.now.format
        (map string_bytes telling.now.allowed.now) (patched_of so_far) (source_of file.now)) }
    ensures errors { IfErr result (IsFileRefusal file.now.bytes.now) }
{
    let path = file.path.as_bytes();
    let own = mend_file(alloc, telling, path, file.bytes)?;
    let mut text = so_far.text;
    push_patch(alloc, &mut text, path, file.bytes, &own.edits)?;
    Ok(Patched {
        text,
        found: both(so_far.found, own.before as u64),
        left: both(so_far.left, own.left as u64),
    })
}

/// The patch of files with the names that findings have.
fn all_patched(
    alloc: Global,
    telling: &Telling<'_>,
    files: &[TextFile<'_>],
) -> Result<Patched, ScanError>
    requires { telling.now.format ≡ Format.Json }
    ensures patched { IfOk result (λ p. patched_of p ≡ Patches.patched
        (map string_bytes telling.now.allowed.now) (map source_of files.now)) }
    ensures errors { IfErr result (IsCheckRefusal (map source_of files.now)) }
{
    let mut all = Patched {
        text: Vec::new(alloc),
        found: 0,
        left: 0,
    };
    for file in files {
        all = with_file(alloc, all, telling, file)?;
    }
    Ok(all)
}

/// How many findings were mended.
fn count_mended(patched: &Patched) -> u64
    ensures { result ≡ patched.now.found - patched.now.left }
{
    patched.found.saturating_sub(patched.left)
}

/// The line for standard error. The only error, here and below, is `AllocError`.
fn mended_line(alloc: Global, patched: &Patched) -> Result<Vec<u8>, AllocError>
    ensures { IfOk result
        (λ line. line.items ≡ Patches.mended_line (patched_of patched.now)) }
{
    let mut line = Vec::new(alloc);
    push_count(&mut line, count_mended(patched), "finding")?;
    line.extend_from_slice(b" mended, ")?;
    push_number(&mut line, patched.left)?;
    line.extend_from_slice(b" left\n")?;
    Ok(line)
}

/// The status: 1 if there is something to mend, else 0.
fn status_of(text: &[u8]) -> u8
    ensures status { result ≡ Patches.patch_status text.now }
    ensures small { result ≤ 1 }
{
    if text.is_empty() { 0 } else { 1 }
}

/// What is said with a patch.
fn said_with(alloc: Global, patched: Patched) -> Result<Said, AllocError>
    ensures out { IfOk result (λ said. said.out.items ≡ (patched_of patched).text) }
    ensures err { IfOk result (λ said. said.err.items ≡ Patches.mended_line (patched_of patched)) }
    ensures status { IfOk result
        (λ said. said.status ≡ Patches.patch_status (patched_of patched).text) }
    ensures small { IfOk result (λ said. said.status ≤ 1) }
{
    let err = mended_line(alloc, &patched)?;
    let status = status_of(&patched.text);
    Ok(Said {
        err,
        out: patched.text,
        status,
    })
}

/// The patch of files with the names that findings have, by what is allowed.
fn patch_named(
    alloc: Global,
    telling: &Telling<'_>,
    files: &[TextFile<'_>],
) -> Result<Patched, ScanError>
    ensures patched { IfOk result (λ p. patched_of p ≡ Patches.patched
        (map string_bytes telling.now.allowed.now) (map source_of files.now)) }
    ensures errors { IfErr result (IsCheckRefusal (map source_of files.now)) }
{
    let with_mends = Telling {
        format: Format::Json,
        allowed: telling.allowed,
        known: telling.known,
        name: telling.name,
    };
    all_patched(alloc, &with_mends, files)
}

/// The patch of some files, and what is said besides.
fn patch_files(
    alloc: Global,
    telling: &Telling<'_>,
    files: &[TextFile<'_>],
) -> Result<Said, ScanError>
    ensures out { IfOk result (λ said. said.out.items
        ≡ (Patches.patched (map string_bytes telling.now.allowed.now)
        (sources_of telling.now.name files.now)).text) }
    ensures err { IfOk result (λ said. said.err.items
        ≡ Patches.mended_line (Patches.patched (map string_bytes telling.now.allowed.now)
        (sources_of telling.now.name files.now))) }
    ensures status { IfOk result (λ said. said.status
        ≡ Patches.patch_status (Patches.patched (map string_bytes telling.now.allowed.now)
        (sources_of telling.now.name files.now)).text) }
    ensures small { IfOk result (λ said. said.status ≤ 1) }
    ensures errors { IfErr result (IsCheckRefusal (map source_of files.now)) }
{
    let files = all_named(alloc, files, telling.name)?;
    let patched = patch_named(alloc, telling, &files)?;
    Ok(said_with(alloc, patched)?)
}

/// What is said of the findings of some files.
fn findings_of(
    alloc: Global,
    telling: &Telling<'_>,
    files: &[TextFile<'_>],
    strict: bool,
) -> Result<Said, ScanError>
    ensures out { IfOk result (λ said. said.out.items ≡ Checks.check_text telling.now.format
        (map string_bytes telling.now.allowed.now) (map (λ t. t.items) telling.now.known.now)
        (sources_of telling.now.name files.now)) }
    ensures err { IfOk result (λ said. said.err.items ≡ []) }
    ensures status { IfOk result (λ said. said.status ≡ Checks.check_status strict
        (Checks.told_tally telling.now.format (map string_bytes telling.now.allowed.now)
        (map (λ t. t.items) telling.now.known.now)
        (sources_of telling.now.name files.now))) }
    ensures small { IfOk result (λ said. said.status ≤ 1) }
    ensures errors { IfErr result (IsCheckRefusal (map source_of files.now)) }
{
    let checked = check_files(alloc, telling, files, strict)?;
    Ok(Said {
        err: Vec::new(alloc),
        out: checked.text,
        status: checked.status,
    })
}

/// What is said of some text files: a patch of what can be mended surely, or the findings as `check_files` tells them.
///
/// A patch has lines in place of others, as `patch` and `git apply` take it. The patched files have no finding that they don't have now, and
/// none that was mended: they are checked again before. The status is 1 if there is something to mend. It takes as long as two checks of the
/// files, and a further one for each further step of mends, up to six; and the memory of one file's lines and findings beside that.
pub fn say_files(
    alloc: Global,
    telling: &Telling<'_>,
    files: &[TextFile<'_>],
    strict: bool,
) -> Result<Said, ScanError>
    ensures out { IfOk result (λ said. said.out.items ≡ Patches.said_out telling.now.format
        (map string_bytes telling.now.allowed.now) (map (λ t. t.items) telling.now.known.now)
        (sources_of telling.now.name files.now)) }
    ensures err { IfOk result (λ said. said.err.items ≡ Patches.said_err telling.now.format
        (map string_bytes telling.now.allowed.now)
        (sources_of telling.now.name files.now)) }
    ensures status { IfOk result (λ said. said.status ≡ Patches.said_status telling.now.format
        strict (map string_bytes telling.now.allowed.now) (map (λ t. t.items) telling.now.known.now)
        (sources_of telling.now.name files.now)) }
    ensures small { IfOk result (λ said. said.status ≤ 1) }
    ensures errors { IfErr result (IsCheckRefusal (map source_of files.now)) }
{
    match telling.format {
        Format::Patch => patch_files(alloc, telling, files),
        Format::Text | Format::Json | Format::Github | Format::Sarif => {
            findings_of(alloc, telling, files, strict)
        }
    }
}

/// The format of what is printed: `--diff` comes before the others, with which the program doesn't take it.
pub fn format_asked(diff: bool, json: bool, word: &Option<String>) -> Format
    ensures { result ≡ Patches.format_asked diff json (option_map string_bytes word.now) }
{
    if diff {
        return Format::Patch;
    }
    format_of(json, word)
}

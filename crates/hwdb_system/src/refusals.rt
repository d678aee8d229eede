//! The lines of errors on standard error.
ghost use Rattle.std.specs.Prelude.{◌≡◌, ◌++◌, ℕ, List, None, Some, codes, IfOk, OnErr, OnOk};
ghost use Rattle.std.specs.Fmt.{decimal};
ghost use Rattle.std.specs.List.{concat};
ghost use Rattle.hwdb_spec.specs.Failures.{IsOneLine};
ghost use Rattle.hwdb_spec.specs.Flushing.{HandsOn};
ghost use Rattle.hwdb_spec.specs.Outputs.{CutShort, Took};
ghost use Rattle.hwdb_spec_commands.specs.Verdicts.{fault_line, remedy};
ghost use Rattle.hwdb_spec.specs.Texts.{db_fault_name, db_fault_offset, at_offset};
ghost use Rattle.hwdb_spec.specs.Errors.{error_text, refusal_of_select};
ghost use Rattle.hwdb_system.specs.Internal.{line_at, said_part, said_parts};
ghost use Rattle.hwdb_spec_commands.specs.Refusals.{IsOfCause, Refused, refusal_line, refusal_text, path_text, file_text, IsAt, IsOfDatabase, IsOfUpdate};
ghost use Rattle.hwdb_spec.specs.declared.errors.ToolError.TheVariants.{Memory, Write};
ghost use Rattle.hwdb_spec_commands.specs.declared.refusals.Refusal.TheVariants.{Plain};

use hwdb_io::{Sink, one_failed_has_failed, write_text};
use hwdb_show::{push_name, write_visible};
use hwdb_spec::{Cause, DbFault, DeviceFailed, ToolError};
use hwdb_spec_commands::Refusal;
use std::alloc::{AllocError, Global};

/// How each line begins, what is between its parts, and how it ends.
const BEGIN: &[u8] = b"hwdb: ";

const BAD: &[u8] = b"bad database: ";

const AT: &[u8] = b" at ";

const COLON: &[u8] = b": ";

const END: &[u8] = b"\n";

/// The place of the name in a line that has none.
const NO_NAME: usize = 99;

/// Writes the line of the error, at once; without memory for the whole line, in parts. Its path is the one that was given,
/// as names are shown, and the words of its cause have no newline. If `err` fails, nothing more can be said.
pub fn refuse_for<E: Sink>(alloc: Global, refusal: &Refusal, err: &mut E)
    ensures line { (words : List ℕ) × IsOneLine words
        × Refused (refusal_line (refusal_text refusal.now words))
        (E.taken err.old) (E.taken err.new) (E.failures err.old) (E.failures err.new) }
    ensures hands_on { HandsOn (E.is_flushed err.old) (E.is_flushed err.new)
        (E.failures err.old) (E.failures err.new) }
{
    match refusal {
        Refusal::At(error, path, cause) => refuse_over(alloc, *error, path, *cause, err),
        Refusal::Plain(error) => refuse_plainly(alloc, *error, err),
        Refusal::NoDatabase => refuse_text(alloc, err, "no database"),
        Refusal::InWords(text) => refuse_words(alloc, err, text),
    }
}

/// Writes the line of an error at a path.
fn refuse_over<E: Sink>(
    alloc: Global,
    error: ToolError,
    path: &[u8],
    cause: Option<Cause>,
    err: &mut E,
)
    ensures line { (words : List ℕ) × IsOneLine words
        × Refused (refusal_line (path_text error path.now cause words))
        (E.taken err.old) (E.taken err.new) (E.failures err.old) (E.failures err.new) }
    ensures hands_on { HandsOn (E.is_flushed err.old) (E.is_flushed err.new)
        (E.failures err.old) (E.failures err.new) }
{
    match error {
        ToolError::Read => refuse_file(alloc, "cannot read ", path, cause, err),
        ToolError::Write => refuse_file(alloc, "cannot write ", path, cause, err),
        ToolError::TooLong => {
            let words = b" is longer than 268435456 bytes".as_slice();
            refuse(alloc, err, &[BEGIN, path, words, END], 1)
        }
        ToolError::BadDatabase(fault) => refuse_database_at(alloc, path, fault, err),
        error => refuse_plainly(alloc, error, err),
    }
}

/// Writes the line of an error at a path: what failed, the path, and the cause if one is known.
fn refuse_file<E: Sink>(alloc: Global, failed: &str, path: &[u8], cause: Option<Cause>, err: &mut E)
    ensures line { (words : List ℕ) × IsOneLine words
        × Refused (refusal_line (failed.now ++ file_text path.now cause words))
        (E.taken err.old) (E.taken err.new) (E.failures err.old) (E.failures err.new) }
    ensures hands_on { HandsOn (E.is_flushed err.old) (E.is_flushed err.new)
        (E.failures err.old) (E.failures err.new) }
{
    let failed = failed.as_bytes();
    match cause {
        None => refuse(alloc, err, &[BEGIN, failed, path, END], 2),
        Some(cause) => {
            let message = cause.message();
            let colon = b": ".as_slice();
            refuse(
                alloc,
                err,
                &[BEGIN, failed, path, colon, message.as_bytes(), END],
                2,
            )
        }
    }
}

/// Writes the line of an error without a path.
fn refuse_plainly<E: Sink>(alloc: Global, error: ToolError, err: &mut E)
    ensures line { Refused (refusal_line (error_text error))
        (E.taken err.old) (E.taken err.new) (E.failures err.old) (E.failures err.new) }
    ensures hands_on { HandsOn (E.is_flushed err.old) (E.is_flushed err.new)
        (E.failures err.old) (E.failures err.new) }
{
    match error {
        ToolError::BadDatabase(fault) => refuse_database(alloc, fault, err),
        ToolError::Memory => refuse_memory(err),
        error => refuse_text(alloc, err, error.words()),
    }
}

/// Writes the line of a fault of the database: its name, and its offset if it has one.
fn refuse_database<E: Sink>(alloc: Global, fault: DbFault, err: &mut E)
    ensures line { Refused (refusal_line
        (codes "bad database: " ++ at_offset (db_fault_name fault) (db_fault_offset fault)))
        (E.taken err.old) (E.taken err.new) (E.failures err.old) (E.failures err.new) }
    ensures hands_on { HandsOn (E.is_flushed err.old) (E.is_flushed err.new)
        (E.failures err.old) (E.failures err.new) }
{
    let name = fault.name().as_bytes();
    match fault.offset() {
        None => refuse(alloc, err, &[BEGIN, BAD, name, END], NO_NAME),
        Some(offset) => {
            let mut digits = itoa::Buffer::new();
            let digits = digits.format(offset).as_bytes();
            refuse(alloc, err, &[BEGIN, BAD, name, AT, digits, END], NO_NAME)
        }
    }
}

/// What to do about a file that is no database.
pub fn remedy(path: &[u8]) -> &'static str
    ensures { result.now ≡ remedy path.now }
{
    if path.ends_with(b".hwdb") {
        "'hwdb check' is for text files"
    } else {
        "make it anew with 'hwdb update'"
    }
}

/// Writes the line of a fault of the database at a path: its name, any offset, the path, and what to do.
fn refuse_database_at<E: Sink>(alloc: Global, path: &[u8], fault: DbFault, err: &mut E)
    ensures line { Refused (refusal_line (fault_line path.now fault))
        (E.taken err.old) (E.taken err.new) (E.failures err.old) (E.failures err.new) }
    ensures hands_on { HandsOn (E.is_flushed err.old) (E.is_flushed err.new)
        (E.failures err.old) (E.failures err.new) }
{
    match fault.offset() {
        None => refuse_name_at(alloc, path, fault.name(), remedy(path), err),
        Some(offset) => {
            let line = FaultLine {
                path,
                name: fault.name(),
                remedy: remedy(path),
            };
            refuse_offset_at(alloc, line, offset, err)
        }
    }
}

/// The same of a fault that has a name alone.
fn refuse_name_at<E: Sink>(alloc: Global, path: &[u8], name: &str, remedy: &str, err: &mut E)
    ensures line { Refused (refusal_line (line_at path.now name.now None remedy.now))
        (E.taken err.old) (E.taken err.new) (E.failures err.old) (E.failures err.new) }
    ensures hands_on { HandsOn (E.is_flushed err.old) (E.is_flushed err.new)
        (E.failures err.old) (E.failures err.new) }
{
    let name = name.as_bytes();
    let remedy = remedy.as_bytes();
    refuse(
        alloc,
        err,
        &[BEGIN, BAD, name, COLON, path, COLON, remedy, END],
        4,
    )
}

/// What is said of a fault of a database.
#[derive(Clone, Copy)]
struct FaultLine<'a> {
    /// The database's path.
    path: &'a [u8],
    /// The fault's name.
    name: &'a str,
    /// What to do.
    remedy: &'a str,
}

/// The same of a fault that has an offset.
fn refuse_offset_at<E: Sink>(alloc: Global, line: FaultLine<'_>, offset: u64, err: &mut E)
    ensures line { let l = line.entry in
        Refused (refusal_line (line_at l.path.now l.name.now (Some offset) l.remedy.now))
        (E.taken err.old) (E.taken err.new) (E.failures err.old) (E.failures err.new) }
    ensures hands_on { HandsOn (E.is_flushed err.old) (E.is_flushed err.new)
        (E.failures err.old) (E.failures err.new) }
{
    let mut digits = itoa::Buffer::new();
    refuse_digits_at(alloc, line, digits.format(offset), err)
}

/// The same, if these are its digits.
fn refuse_digits_at<E: Sink>(alloc: Global, line: FaultLine<'_>, digits: &str, err: &mut E)
    ensures line { let l = line.entry in (offset : ℕ) → digits.now ≡ decimal offset
        → Refused (refusal_line (line_at l.path.now l.name.now (Some offset) l.remedy.now))
        (E.taken err.old) (E.taken err.new) (E.failures err.old) (E.failures err.new) }
    ensures hands_on { HandsOn (E.is_flushed err.old) (E.is_flushed err.new)
        (E.failures err.old) (E.failures err.new) }
{
    let name = line.name.as_bytes();
    let digits = digits.as_bytes();
    let remedy = line.remedy.as_bytes();
    let path = line.path;
    refuse(
        alloc,
        err,
        &[
            BEGIN, BAD, name, AT, digits, COLON, path, COLON, remedy, END,
        ],
        6,
    )
}

/// Writes a line.
fn refuse_text<E: Sink>(alloc: Global, err: &mut E, line: &str)
    ensures line { Refused (refusal_line line.now)
        (E.taken err.old) (E.taken err.new) (E.failures err.old) (E.failures err.new) }
    ensures hands_on { HandsOn (E.is_flushed err.old) (E.is_flushed err.new)
        (E.failures err.old) (E.failures err.new) }
{
    refuse(alloc, err, &[BEGIN, line.as_bytes(), END], NO_NAME)
}

/// Writes lines that may be no text.
fn refuse_words<E: Sink>(alloc: Global, err: &mut E, words: &[u8])
    ensures line { Refused (refusal_line words.now)
        (E.taken err.old) (E.taken err.new) (E.failures err.old) (E.failures err.new) }
    ensures hands_on { HandsOn (E.is_flushed err.old) (E.is_flushed err.new)
        (E.failures err.old) (E.failures err.new) }
{
    refuse(alloc, err, &[BEGIN, words, END], NO_NAME)
}

/// Writes the line of want of memory. Takes none.
pub fn refuse_memory<E: Sink>(err: &mut E)
    ensures line { Refused (refusal_line (codes "out of memory"))
        (E.taken err.old) (E.taken err.new) (E.failures err.old) (E.failures err.new) }
    ensures hands_on { HandsOn (E.is_flushed err.old) (E.is_flushed err.new)
        (E.failures err.old) (E.failures err.new) }
{
    refuse_whole(err, b"hwdb: out of memory\n")
}

/// Writes a line, given in parts, of which the one at a place is a name: at once, so that nothing of another process gets into it; in parts without memory for
/// the whole.
fn refuse<E: Sink>(alloc: Global, err: &mut E, parts: &[&[u8]], name: usize)
    ensures line { Refused (concat (said_parts name 0 parts.now))
        (E.taken err.old) (E.taken err.new) (E.failures err.old) (E.failures err.new) }
    ensures hands_on { HandsOn (E.is_flushed err.old) (E.is_flushed err.new)
        (E.failures err.old) (E.failures err.new) }
{
    match whole(alloc, parts, name) {
        Ok(line) => refuse_whole(err, &line),
        Err(_) => refuse_in_parts(err, parts, name),
    }
}

/// Adds a part: a text, or a name, as names are shown.
fn push_part(line: &mut Vec<u8>, is_name: bool, part: &[u8]) -> Result<(), AllocError>
    ensures { OnOk result (line.new.items ≡ line.old.items ++ said_part is_name part.now) }
{
    if is_name {
        push_name(line, part)
    } else {
        line.extend_from_slice(part)
    }
}

/// The parts as one line.
fn whole(alloc: Global, parts: &[&[u8]], name: usize) -> Result<Vec<u8>, AllocError>
    ensures { IfOk result (λ line. line.items ≡ concat (said_parts name 0 parts.now)) }
{
    let mut line = Vec::new(alloc);
    'joining: for i in 0..parts.len() {
        push_part(&mut line, i == name, parts[i])?;
    }
    Ok(line)
}

/// Writes a whole line.
fn refuse_whole<E: Sink>(err: &mut E, line: &[u8])
    ensures line { Refused line.now
        (E.taken err.old) (E.taken err.new) (E.failures err.old) (E.failures err.new) }
    ensures hands_on { HandsOn (E.is_flushed err.old) (E.is_flushed err.new)
        (E.failures err.old) (E.failures err.new) }
{
    one_failed_has_failed();
    match write_text(err, line) {
        Ok(()) => {}
        Err(_) => {}
    }
}

/// Writes a part. Takes no memory.
fn write_part<E: Sink>(err: &mut E, is_name: bool, part: &[u8]) -> Result<(), DeviceFailed>
    ensures took { OnOk result (Took (said_part is_name part.now)
        (E.taken err.old) (E.taken err.new) (E.failures err.old) (E.failures err.new)) }
    ensures flushed { OnOk result (E.is_flushed err.old → E.is_flushed err.new) }
    ensures cut_short { OnErr result (CutShort (said_part is_name part.now)
        (E.taken err.old) (E.taken err.new) (E.failures err.old) (E.failures err.new)) }
{
    if is_name {
        write_visible(err, true, part)
    } else {
        write_text(err, part)
    }
}

/// Writes the parts of a line, one after another.
fn refuse_in_parts<E: Sink>(err: &mut E, parts: &[&[u8]], name: usize)
    ensures line { Refused (concat (said_parts name 0 parts.now))
        (E.taken err.old) (E.taken err.new) (E.failures err.old) (E.failures err.new) }
    ensures hands_on { HandsOn (E.is_flushed err.old) (E.is_flushed err.new)
        (E.failures err.old) (E.failures err.new) }
{
    one_failed_has_failed();
    'writing: for i in 0..parts.len() {
        match write_part(err, i == name, parts[i]) {
            Ok(()) => {}
            Err(_) => return,
        }
    }
}

//! How much was found: the last line, and the status.
ghost use Rattle.std.specs.Prelude.{◌≡◌, ◌≤◌, ◌++◌, codes, filter, length, IfOk, OnOk};
ghost use Rattle.hwdb_check.specs.Found.{finds, is_of, kept_of};
ghost use Rattle.hwdb_spec_commands.specs.Checks;
ghost use Rattle.hwdb_spec_commands.specs.Checks.{both, tally_of_both, empty_tally, count_text, tally_line, check_status};

use crate::findings::Found;
use hwdb_spec_commands::Tally;
use itoa::Buffer;
use std::alloc::{AllocError, Global};

/// What is in no file.
pub fn empty_tally() -> Tally
    ensures { result ≡ empty_tally }
{
    Tally {
        files: 0,
        assignments: 0,
        faults: 0,
        warnings: 0,
    }
}

/// Two counts together, at most the greatest number.
pub fn both(one: u64, other: u64) -> u64
    ensures { result ≡ both one other }
{
    one.saturating_add(other)
}

/// What is in some files, and in more.
pub fn together(so_far: Tally, found: Tally) -> Tally
    ensures { result ≡ tally_of_both so_far found }
{
    Tally {
        files: both(so_far.files, found.files),
        assignments: both(so_far.assignments, found.assignments),
        faults: both(so_far.faults, found.faults),
        warnings: both(so_far.warnings, found.warnings),
    }
}

/// Whether a finding is a fault, or whether it is a warning.
fn is_of(found: &Found, fault: bool) -> bool
    ensures { result ≡ is_of fault (kept_of found.now) }
{
    if fault { found.fault } else { !found.fault }
}

/// How many of some findings are faults, or how many are warnings.
fn count_of(found: &[Found], fault: bool) -> u64
    ensures { result ≡ length (filter (is_of fault) (finds found.now)) }
{
    let mut count = 0;
    for one in found {
        if is_of(one, fault) {
            count += 1;
        }
    }
    count
}

/// The same with how many faults and warnings these findings are.
pub fn with_found(tally: Tally, found: &[Found]) -> Tally
    ensures { result ≡ Checks.with_found tally (finds found.now) }
{
    Tally {
        files: tally.files,
        assignments: tally.assignments,
        faults: count_of(found, true),
        warnings: count_of(found, false),
    }
}

/// Adds a count, and what is counted. The only error, here and below, is `AllocError`.
pub fn push_count(text: &mut Vec<u8>, count: u64, word: &str) -> Result<(), AllocError>
    ensures { OnOk result (text.new.items ≡ text.old.items ++ count_text count word.now) }
{
    let mut number = Buffer::new();
    text.extend_from_slice(number.format(count).as_bytes())?;
    text.push(b' ')?;
    text.extend_from_slice(word.as_bytes())?;
    if count != 1 {
        text.push(b's')?;
    }
    Ok(())
}

/// Adds a count, what is counted, and a comma.
fn push_count_and(text: &mut Vec<u8>, count: u64, word: &str) -> Result<(), AllocError>
    ensures { OnOk result
        (text.new.items ≡ text.old.items ++ (count_text count word.now ++ codes ", ")) }
{
    push_count(text, count, word)?;
    text.extend_from_slice(b", ")?;
    Ok(())
}

/// Adds how many faults and warnings there are, and ends the line.
fn push_findings(text: &mut Vec<u8>, tally: Tally) -> Result<(), AllocError>
    ensures { OnOk result (text.new.items ≡ text.old.items
        ++ (count_text tally.faults (codes "fault") ++ codes ", "
        ++ (count_text tally.warnings (codes "warning") ++ codes "\n"))) }
{
    push_count_and(text, tally.faults, "fault")?;
    push_count(text, tally.warnings, "warning")?;
    text.push(b'\n')?;
    Ok(())
}

/// The last line.
pub fn tally_line(alloc: Global, tally: Tally) -> Result<Vec<u8>, AllocError>
    ensures { IfOk result (λ text. text.items ≡ tally_line tally) }
{
    let mut text = Vec::new(alloc);
    push_count_and(&mut text, tally.files, "file")?;
    push_count_and(&mut text, tally.assignments, "assignment")?;
    push_findings(&mut text, tally)?;
    Ok(text)
}

/// The status: 1 if there is a fault, or `strict` and a warning, else 0.
pub fn status_of(strict: bool, tally: Tally) -> u8
    ensures status { result ≡ check_status strict tally }
    ensures small { result ≤ 1 }
{
    if tally.faults > 0 || strict && tally.warnings > 0 {
        1
    } else {
        0
    }
}

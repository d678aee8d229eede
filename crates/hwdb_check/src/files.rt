//! Files that are checked, one after another: text files, and rules files by their names.
ghost use Rattle.std.specs.Prelude.{◌≡◌, ◌≤◌, ◌++◌, flat_map, option_map, map, string_bytes, IfOk, IfErr};
ghost use Rattle.hwdb_spec.specs.Lines.{lines};
ghost use Rattle.hwdb_spec_commands.specs.Reports.{text_of_line};
ghost use Rattle.hwdb_spec_commands.specs.AllowedKinds.{file_findings};
ghost use Rattle.hwdb_spec_commands.specs.Findings.{told, told_fault};
ghost use Rattle.hwdb_spec_commands.specs.Checks;
ghost use Rattle.hwdb_spec_commands.specs.Checks.{all_findings, tally_of, text_tally, empty_tally, tally_from, check_text, check_status, ended, tally_line, told_tally};
ghost use Rattle.hwdb_spec_commands.specs.RuleFindings.{findings_of, rule_findings};
ghost use Rattle.hwdb_check.specs.Checks.{source_of};
ghost use Rattle.hwdb_check.specs.Found.{finds};
ghost use Rattle.hwdb_spec_commands.specs.CheckErrors.{IsFileRefusal, IsCheckRefusal};

use crate::baselines::new_findings;
use crate::findings::{Found, push_found};
use crate::kinds::Telling;
use crate::left::left_of;
use crate::line_faults::FileLine;
use crate::line_texts::{find_line, first_start};
use crate::logs::log_of;
use crate::reports::push_fault;
use crate::rules::{is_rules, rule_findings};
use crate::tallies::{empty_tally, status_of, tally_line, together, with_found};
use hwdb_spec::Fault;
use hwdb_spec_commands::{Format, Tally};
use hwdb_text::{ScanError, scan};
use std::alloc::{AllocError, Global};

/// A file that is checked.
#[derive(Clone, Copy)]
pub struct TextFile<'a> {
    /// The path that is printed for it.
    pub path: &'a str,
    /// What it holds.
    pub bytes: &'a [u8],
}

/// A file with the name that findings have: standard input has this one, if it is given.
fn named<'a>(file: TextFile<'a>, name: Option<&'a str>) -> TextFile<'a>
    ensures { source_of result
        ≡ Checks.named (option_map (λ t. t.now) name.entry) (source_of file.entry) }
{
    match name {
        Some(name) if file.path == "-" => TextFile {
            path: name,
            bytes: file.bytes,
        },
        _ => file,
    }
}

/// The same of each file. The only error is `AllocError`.
pub fn all_named<'a>(
    alloc: Global,
    files: &[TextFile<'a>],
    name: Option<&'a str>,
) -> Result<Vec<TextFile<'a>>, AllocError>
    ensures { IfOk result (λ all. map source_of all.items
        ≡ map (Checks.named (option_map (λ t. t.now) name.entry)) (map source_of files.now)) }
{
    let mut all = Vec::new(alloc);
    for file in files {
        all.push(named(*file, name))?;
    }
    Ok(all)
}

/// What `check` says of some files.
#[derive(Drop)]
pub struct Checked {
    /// What is printed.
    pub text: Vec<u8>,
    /// The exit status.
    pub status: u8,
}

/// What is in a file, or in some.
#[derive(Drop)]
pub struct Findings {
    /// The faults and warnings.
    pub found: Vec<Found>,
    /// How much is in them.
    pub tally: Tally,
}

/// What is printed of some faults of a file. If the faults ascend by line, it takes a step for each byte of the file.
///
/// The only error is `AllocError`.
pub fn reports_of(
    alloc: Global,
    format: Format,
    path: &[u8],
    bytes: &[u8],
    faults: &[Fault],
) -> Result<Vec<u8>, AllocError>
    ensures { IfOk result (λ text. text.items
        ≡ flat_map (λ f. told_fault format path.now (text_of_line (lines bytes.now) f.line) f)
        faults.now) }
{
    let mut text = Vec::new(alloc);
    let mut start = first_start();
    for fault in faults {
        let (found, line) = find_line(bytes, start, fault.line);
        start = found;
        let line = FileLine {
            path,
            number: fault.line as u64,
            text: line,
        };
        push_fault(alloc, format, &mut text, &line, *fault)?;
    }
    Ok(text)
}

/// How much is in one file that has so many assignments.
fn one_file(assignments: u64) -> Tally
    ensures { result ≡ Checks.one_file assignments }
{
    Tally {
        files: 1,
        assignments,
        faults: 0,
        warnings: 0,
    }
}

/// What is in a text file.
fn look_over_text(
    alloc: Global,
    telling: &Telling<'_>,
    path: &[u8],
    bytes: &[u8],
) -> Result<Findings, ScanError>
    ensures found { IfOk result (λ c. finds c.found.items
        ≡ file_findings telling.now.format (map string_bytes telling.now.allowed.now)
        path.now bytes.now) }
    ensures tally { IfOk result (λ c. c.tally ≡ text_tally bytes.now) }
    ensures errors { IfErr result (IsFileRefusal bytes.now) }
{
    let scanned = scan(alloc, bytes)?;
    let left = left_of(alloc, telling, path, bytes, &scanned)?;
    let tally = one_file(scanned.assignments.len() as u64);
    Ok(Findings {
        found: left.found,
        tally,
    })
}

/// What is in a rules file.
fn look_over_rules(
    alloc: Global,
    telling: &Telling<'_>,
    path: &[u8],
    bytes: &[u8],
) -> Result<Findings, AllocError>
    ensures found { IfOk result (λ c. finds c.found.items
        ≡ rule_findings (map string_bytes telling.now.allowed.now) path.now bytes.now) }
    ensures tally { IfOk result (λ c. c.tally ≡ Checks.one_file 0) }
{
    Ok(Findings {
        found: rule_findings(alloc, telling, path, bytes)?,
        tally: one_file(0),
    })
}

/// What is in a file, which its name says to be a rules file or a text file.
pub fn look_over(
    alloc: Global,
    telling: &Telling<'_>,
    path: &[u8],
    bytes: &[u8],
) -> Result<Findings, ScanError>
    ensures found { IfOk result (λ c. finds c.found.items
        ≡ findings_of telling.now.format (map string_bytes telling.now.allowed.now)
        path.now bytes.now) }
    ensures tally { IfOk result (λ c. c.tally ≡ tally_of path.now bytes.now) }
    ensures errors { IfErr result (IsFileRefusal bytes.now) }
{
    if is_rules(path) {
        return Ok(look_over_rules(alloc, telling, path, bytes)?);
    }
    look_over_text(alloc, telling, path, bytes)
}

/// What is in each file, one after another.
fn look_over_all(
    alloc: Global,
    telling: &Telling<'_>,
    files: &[TextFile<'_>],
) -> Result<Findings, ScanError>
    ensures found { IfOk result (λ c. finds c.found.items ≡ all_findings telling.now.format
        (map string_bytes telling.now.allowed.now) (map source_of files.now)) }
    ensures tally { IfOk result
        (λ c. c.tally ≡ tally_from empty_tally (map source_of files.now)) }
    ensures errors { IfErr result (IsCheckRefusal (map source_of files.now)) }
{
    let mut all = Vec::new(alloc);
    let mut tally = empty_tally();
    for file in files {
        let mut own = look_over(alloc, telling, file.path.as_bytes(), file.bytes)?;
        all.append(&mut own.found)?;
        tally = together(tally, own.tally);
    }
    Ok(Findings { found: all, tally })
}

/// What is printed of some findings.
fn text_of(alloc: Global, format: Format, found: &[Found]) -> Result<Vec<u8>, AllocError>
    ensures { IfOk result
        (λ text. text.items ≡ flat_map (told format) (finds found.now)) }
{
    let mut text = Vec::new(alloc);
    for one in found {
        push_found(alloc, format, &mut text, one)?;
    }
    Ok(text)
}

/// What is printed of findings and of how much is in their files, and the status.
fn said_of(
    alloc: Global,
    format: Format,
    strict: bool,
    tally: Tally,
    found: &[Found],
) -> Result<Checked, AllocError>
    ensures text { IfOk result (λ c. c.text.items
        ≡ Checks.ended format (Checks.with_found tally (finds found.now))
        (flat_map (told format) (finds found.now))) }
    ensures status { IfOk result (λ c. c.status
        ≡ check_status strict (Checks.with_found tally (finds found.now))) }
    ensures small { IfOk result (λ c. c.status ≤ 1) }
{
    let text = text_of(alloc, format, found)?;
    let tally = with_found(tally, found);
    Ok(Checked {
        text: ended(alloc, format, text, tally)?,
        status: status_of(strict, tally),
    })
}

/// Text, and a last line with how much was found.
fn with_tally(alloc: Global, findings: Vec<u8>, tally: Tally) -> Result<Vec<u8>, AllocError>
    ensures { IfOk result (λ text. text.items ≡ findings.items ++ tally_line tally) }
{
    let mut text = findings;
    text.extend_from_slice(&tally_line(alloc, tally)?)?;
    Ok(text)
}

/// What is printed in all.
fn ended(
    alloc: Global,
    format: Format,
    findings: Vec<u8>,
    tally: Tally,
) -> Result<Vec<u8>, AllocError>
    ensures { IfOk result (λ text. text.items ≡ ended format tally findings.items) }
{
    match format {
        Format::Text | Format::Github => with_tally(alloc, findings, tally),
        Format::Json | Format::Patch => Ok(findings),
        Format::Sarif => log_of(alloc, &findings),
    }
}

/// As `check_files`, of files with the names that findings have.
fn check_named(
    alloc: Global,
    telling: &Telling<'_>,
    files: &[TextFile<'_>],
    strict: bool,
) -> Result<Checked, ScanError>
    ensures text { IfOk result (λ checked. checked.text.items ≡ check_text telling.now.format
        (map string_bytes telling.now.allowed.now) (map (λ t. t.items) telling.now.known.now)
        (map source_of files.now)) }
    ensures status { IfOk result (λ checked. checked.status ≡ check_status strict
        (told_tally telling.now.format (map string_bytes telling.now.allowed.now)
        (map (λ t. t.items) telling.now.known.now) (map source_of files.now))) }
    ensures small { IfOk result (λ checked. checked.status ≤ 1) }
    ensures errors { IfErr result (IsCheckRefusal (map source_of files.now)) }
{
    let all = look_over_all(alloc, telling, files)?;
    let new = new_findings(alloc, telling.known, all.found)?;
    Ok(said_of(alloc, telling.format, strict, all.tally, &new)?)
}

/// What is printed of the faults and warnings of each file, one file after another and line by line, in the format that is told. Of a line
/// faults come first. Of findings with a path, a kind and a line that are known, as many are let pass as are known. Reports end with a line
/// of how much was told in all. Warnings of kinds that are allowed don't count. The status is 1 if a fault is told, or `strict` and a
/// warning, else 0. Findings of the file `-` have the name that is told.
///
/// It is an error if a file has more than 4,294,967,295 lines, or if an allocation fails.
///
/// The memory is the findings and the whole text, and for one file at a time a record for each assignment and each match line. A finding
/// is compared with each known one at most.
pub fn check_files(
    alloc: Global,
    telling: &Telling<'_>,
    files: &[TextFile<'_>],
    strict: bool,
) -> Result<Checked, ScanError>
    ensures text { IfOk result (λ checked. checked.text.items ≡ check_text telling.now.format
        (map string_bytes telling.now.allowed.now) (map (λ t. t.items) telling.now.known.now)
        (map (Checks.named (option_map (λ t. t.now) telling.now.name)) (map source_of files.now))) }
    ensures status { IfOk result (λ checked. checked.status ≡ check_status strict
        (told_tally telling.now.format (map string_bytes telling.now.allowed.now)
        (map (λ t. t.items) telling.now.known.now)
        (map (Checks.named (option_map (λ t. t.now) telling.now.name))
        (map source_of files.now)))) }
    ensures small { IfOk result (λ checked. checked.status ≤ 1) }
    ensures errors { IfErr result (IsCheckRefusal (map source_of files.now)) }
{
    let files = all_named(alloc, files, telling.name)?;
    check_named(alloc, telling, &files, strict)
}

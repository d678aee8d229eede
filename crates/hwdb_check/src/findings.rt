//! What is found in a line, in each format.
ghost use Rattle.std.specs.Prelude.{◌≡◌, ◌++◌, ◌∷◌, [], IfOk, OnOk, codes, option_map, string_bytes};
ghost use Rattle.std.specs.Fmt.{decimal};
ghost use Rattle.std.specs.Str.{bytes_eq};
ghost use Rattle.json.specs.Tree.{json_tokens};
ghost use Rattle.hwdb_spec.specs.Lines.{byte};
ghost use Rattle.hwdb_spec.specs.Texts.{place_text};
ghost use Rattle.hwdb_spec.specs.Visible.{shown_name};
ghost use Rattle.hwdb_spec_commands.specs.Annotations.{annotation};
ghost use Rattle.hwdb_spec_commands.specs.Checks;
ghost use Rattle.hwdb_spec_commands.specs.Findings;
ghost use Rattle.hwdb_spec_commands.specs.Json.{json_line};
ghost use Rattle.hwdb_spec_commands.specs.Logs.{result_line};
ghost use Rattle.hwdb_spec_commands.specs.Reports.{hint_line};
ghost use Rattle.hwdb_show.specs.JsonTokens.{tokens_of_members};
ghost use Rattle.hwdb_check.specs.Found.{finding_of, finds, kept_of};

use crate::annotations::{Annotation, push_annotation};
use crate::logs::push_result;
use hwdb_show::{ended, push_mark_line, push_name, push_shown_line, put_count, put_member};
use hwdb_spec_commands::Format;
use itoa::Buffer;
use json::Writer;
use std::alloc::{AllocError, Global};

/// What is found in a line.
#[derive(Clone, Copy)]
pub struct Finding<'a> {
    /// The path that is printed for its file.
    pub path: &'a [u8],
    /// The line, from 1.
    pub line: u64,
    /// How many bytes of the line come before its place.
    pub place: usize,
    /// Whether it is a fault; else it is a warning.
    pub fault: bool,
    /// The name of its kind.
    pub kind: &'static str,
    /// What is found.
    pub text: &'a [u8],
    /// What to do about it.
    pub hint: &'a [u8],
    /// The line.
    pub source: &'a [u8],
    /// The line as it was likely meant, if that is sure.
    pub fix: &'a Option<Vec<u8>>,
}

/// The same, kept.
#[derive(Drop)]
pub struct Found {
    /// The path that is printed for its file.
    pub path: Vec<u8>,
    /// The line, from 1.
    pub line: u64,
    /// How many bytes of the line come before its place.
    pub place: usize,
    /// Whether it is a fault; else it is a warning.
    pub fault: bool,
    /// The name of its kind.
    pub kind: &'static str,
    /// What is found.
    pub text: Vec<u8>,
    /// What to do about it.
    pub hint: Vec<u8>,
    /// The line.
    pub source: Vec<u8>,
    /// The line as it was likely meant, if that is sure.
    pub fix: Option<Vec<u8>>,
}

/// Lines of JSON, or reports.
pub fn format_if(json: bool) -> Format
    ensures { result ≡ Findings.format_if json }
{
    if json { Format::Json } else { Format::Text }
}

/// Whether a word is this name.
fn is_name(word: &str, name: &str) -> bool
    ensures { result ≡ bytes_eq word.now name.now }
{
    word == name
}

/// The format that a word of `--format` names; reports if it is none of the others.
fn format_named(word: &str) -> Format
    ensures { result ≡ Checks.format_named word.now }
{
    if is_name(word, "json") {
        return Format::Json;
    }
    if is_name(word, "github") {
        return Format::Github;
    }
    if is_name(word, "sarif") {
        return Format::Sarif;
    }
    Format::Text
}

/// The format of findings: `--json` comes before a word of `--format`.
pub fn format_of(json: bool, word: &Option<String>) -> Format
    ensures { result ≡ Checks.format_of json (option_map string_bytes word.now) }
{
    if json {
        return Format::Json;
    }
    match word {
        Some(word) => format_named(word.as_str()),
        None => Format::Text,
    }
}

/// The column after so many bytes of a line, from 1.
fn column_of(place: usize) -> u64
    ensures { result ≡ Findings.column place }
{
    (place as u64).saturating_add(1)
}

/// Its severity.
fn severity_name(fault: bool) -> &'static str
    ensures { result.now ≡ Findings.severity_name fault }
{
    if fault { "error" } else { "warning" }
}

/// Adds a number. The only error, here and below, is `AllocError`.
pub fn push_count(text: &mut Vec<u8>, number: u64) -> Result<(), AllocError>
    ensures { OnOk result (text.new.items ≡ text.old.items ++ decimal number) }
{
    let mut digits = Buffer::new();
    text.extend_from_slice(digits.format(number).as_bytes())?;
    Ok(())
}

/// Adds a path and a line.
pub fn push_place(text: &mut Vec<u8>, path: &[u8], line: u64) -> Result<(), AllocError>
    ensures { OnOk result (text.new.items ≡ text.old.items ++ place_text path.now line) }
{
    push_name(text, path)?;
    text.push(b':')?;
    push_count(text, line)
}

/// Adds its column and severity, after colons.
fn push_severity(text: &mut Vec<u8>, found: &Finding<'_>) -> Result<(), AllocError>
    ensures { OnOk result (text.new.items ≡ text.old.items
        ++ (byte ":" ∷ (decimal (Findings.column found.now.place) ++ (codes ": "
        ++ Findings.severity_name found.now.fault)))) }
{
    text.push(b':')?;
    push_count(text, column_of(found.place))?;
    text.extend_from_slice(b": ")?;
    text.extend_from_slice(severity_name(found.fault).as_bytes())?;
    Ok(())
}

/// Adds what it is, after a colon, and its kind.
fn push_named(text: &mut Vec<u8>, found: &Finding<'_>) -> Result<(), AllocError>
    ensures { OnOk result (text.new.items ≡ text.old.items ++ (codes ": "
        ++ (found.now.text.now ++ (codes " [" ++ (found.now.kind.now ++ codes "]\n"))))) }
{
    text.extend_from_slice(b": ")?;
    text.extend_from_slice(found.text)?;
    text.extend_from_slice(b" [")?;
    text.extend_from_slice(found.kind.as_bytes())?;
    text.extend_from_slice(b"]\n")?;
    Ok(())
}

/// Adds its line, as compilers write it.
fn push_finding_line(text: &mut Vec<u8>, found: &Finding<'_>) -> Result<(), AllocError>
    ensures { OnOk result (text.new.items
        ≡ text.old.items ++ Findings.finding_line (finding_of found.now)) }
{
    push_place(text, found.path, found.line)?;
    push_severity(text, found)?;
    push_named(text, found)
}

/// Adds the line of what to do.
fn push_hint_line(text: &mut Vec<u8>, hint: &[u8]) -> Result<(), AllocError>
    ensures { OnOk result (text.new.items ≡ text.old.items ++ hint_line hint.now) }
{
    text.extend_from_slice(b"    hint: ")?;
    text.extend_from_slice(hint)?;
    text.push(b'\n')?;
    Ok(())
}

/// Adds its report: its line, the line of the file, the mark, and what to do.
fn push_report(alloc: Global, text: &mut Vec<u8>, found: &Finding<'_>) -> Result<(), AllocError>
    ensures { OnOk result
        (text.new.items ≡ text.old.items ++ Findings.report (finding_of found.now)) }
{
    push_finding_line(text, found)?;
    push_shown_line(text, found.source, found.place)?;
    push_mark_line(alloc, text, found.source, found.place)?;
    push_hint_line(text, found.hint)
}

/// Adds the line as it was likely meant, if that is sure.
fn put_fix(json: &mut Writer, fix: &Option<Vec<u8>>) -> Result<(), AllocError>
    ensures before { json.new.before ≡ json.old.before }
    ensures tokens { OnOk result (json.new.tokens ≡ json.old.tokens
        ++ tokens_of_members (Findings.fix_members (option_map (λ t. t.items) fix.now))) }
{
    match fix {
        Some(line) => put_member(json, "fix", line),
        None => Ok(()),
    }
}

/// Adds its object.
fn put_finding(json: &mut Writer, found: &Finding<'_>) -> Result<(), AllocError>
    ensures before { json.new.before ≡ json.old.before }
    ensures tokens { OnOk result (json.new.tokens ≡ json.old.tokens
        ++ json_tokens (Findings.finding_json (finding_of found.now))) }
{
    json.begin_object()?;
    put_member(json, "path", found.path)?;
    put_count(json, "line", found.line)?;
    put_count(json, "column", column_of(found.place))?;
    put_member(json, "kind", found.kind.as_bytes())?;
    put_member(json, "text", found.text)?;
    put_member(json, "hint", found.hint)?;
    put_member(json, "severity", severity_name(found.fault).as_bytes())?;
    put_member(json, "source", found.source)?;
    put_fix(json, found.fix)?;
    json.end_object()
}

/// Its line of JSON.
fn json_of(alloc: Global, found: &Finding<'_>) -> Result<Vec<u8>, AllocError>
    ensures { IfOk result
        (λ line. line.items ≡ json_line (Findings.finding_json (finding_of found.now))) }
{
    let mut json = Writer::new(Vec::new(alloc));
    put_finding(&mut json, found)?;
    ended(alloc, json)
}

/// What is found, and what to do about it.
fn message(alloc: Global, found: &Finding<'_>) -> Result<Vec<u8>, AllocError>
    ensures { IfOk result (λ text. text.items ≡ Findings.message (finding_of found.now)) }
{
    let mut text = Vec::new(alloc);
    text.extend_from_slice(found.text)?;
    text.extend_from_slice(b"; ")?;
    text.extend_from_slice(found.hint)?;
    Ok(text)
}

/// A path, as it is shown.
fn name_of(alloc: Global, path: &[u8]) -> Result<Vec<u8>, AllocError>
    ensures { IfOk result (λ name. name.items ≡ shown_name path.now) }
{
    let mut name = Vec::new(alloc);
    push_name(&mut name, path)?;
    Ok(name)
}

/// Adds its workflow command of GitHub.
fn push_github(alloc: Global, text: &mut Vec<u8>, found: &Finding<'_>) -> Result<(), AllocError>
    ensures { OnOk result (text.new.items ≡ text.old.items
        ++ Findings.told Format.Github (finding_of found.now)) }
{
    let name = name_of(alloc, found.path)?;
    let message = message(alloc, found)?;
    let annotation = Annotation {
        severity: severity_name(found.fault),
        path: &name,
        line: found.line,
        column: column_of(found.place),
        kind: found.kind,
        text: &message,
    };
    push_annotation(text, &annotation)
}

/// Adds its result of a log in SARIF.
fn push_sarif(alloc: Global, text: &mut Vec<u8>, found: &Finding<'_>) -> Result<(), AllocError>
    ensures { OnOk result (text.new.items ≡ text.old.items
        ++ Findings.told Format.Sarif (finding_of found.now)) }
{
    let message = message(alloc, found)?;
    let result = Annotation {
        severity: severity_name(found.fault),
        path: found.path,
        line: found.line,
        column: column_of(found.place),
        kind: found.kind,
        text: &message,
    };
    push_result(
        alloc,
        text,
        &result,
        column_of(found.source.len()),
        found.fix,
    )
}

/// Adds what is printed of it.
pub fn push_finding(
    alloc: Global,
    format: Format,
    text: &mut Vec<u8>,
    found: &Finding<'_>,
) -> Result<(), AllocError>
    ensures { OnOk result
        (text.new.items ≡ text.old.items ++ Findings.told format (finding_of found.now)) }
{
    match format {
        Format::Text => push_report(alloc, text, found),
        Format::Json => text.extend_from_slice(&json_of(alloc, found)?),
        Format::Github => push_github(alloc, text, found),
        Format::Sarif => push_sarif(alloc, text, found),
        Format::Patch => Ok(()),
    }
}

/// A text, if there is one. The only error, here and below, is `AllocError`.
pub fn copy_of(alloc: Global, text: &Option<Vec<u8>>) -> Result<Option<Vec<u8>>, AllocError>
    ensures { IfOk result (λ copy.
        option_map (λ t. t.items) copy ≡ option_map (λ t. t.items) text.now) }
{
    match text {
        Some(bytes) => Ok(Some(Vec::from_slice(alloc, bytes)?)),
        None => Ok(None),
    }
}

/// A finding that is kept.
fn kept(alloc: Global, found: &Finding<'_>) -> Result<Found, AllocError>
    ensures { IfOk result (λ copy. kept_of copy ≡ finding_of found.now) }
{
    Ok(Found {
        path: Vec::from_slice(alloc, found.path)?,
        line: found.line,
        place: found.place,
        fault: found.fault,
        kind: found.kind,
        text: Vec::from_slice(alloc, found.text)?,
        hint: Vec::from_slice(alloc, found.hint)?,
        source: Vec::from_slice(alloc, found.source)?,
        fix: copy_of(alloc, found.fix)?,
    })
}

/// Adds a finding to others.
pub fn put_found(alloc: Global, all: &mut Vec<Found>, found: &Finding<'_>) -> Result<(), AllocError>
    ensures { OnOk result
        (finds all.new.items ≡ finds all.old.items ++ finding_of found.now ∷ []) }
{
    let copy = kept(alloc, found)?;
    all.push(copy).map_err(AllocError::from)
}

/// Adds what is printed of a finding that was kept.
pub fn push_found(
    alloc: Global,
    format: Format,
    text: &mut Vec<u8>,
    found: &Found,
) -> Result<(), AllocError>
    ensures { OnOk result
        (text.new.items ≡ text.old.items ++ Findings.told format (kept_of found.now)) }
{
    let finding = Finding {
        path: &found.path,
        line: found.line,
        place: found.place,
        fault: found.fault,
        kind: found.kind,
        text: &found.text,
        hint: &found.hint,
        source: &found.source,
        fix: &found.fix,
    };
    push_finding(alloc, format, text, &finding)
}

/// Adds a copy of a finding to others.
pub fn put_copy(alloc: Global, all: &mut Vec<Found>, found: &Found) -> Result<(), AllocError>
    ensures { OnOk result (finds all.new.items ≡ finds all.old.items ++ kept_of found.now ∷ []) }
{
    let finding = Finding {
        path: &found.path,
        line: found.line,
        place: found.place,
        fault: found.fault,
        kind: found.kind,
        text: &found.text,
        hint: &found.hint,
        source: &found.source,
        fix: &found.fix,
    };
    put_found(alloc, all, &finding)
}

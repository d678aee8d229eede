//! What is found in a rules file of udev.
ghost use Rattle.std.specs.Prelude.{◌≡◌, ◌++◌, ◌∷◌, [], filter, flat_map, map, string_bytes, IfOk, OnOk};
ghost use Rattle.hwdb_rulefiles.specs.RuleFiles.{parsed};
ghost use Rattle.hwdb_rulefiles.specs.Views.{text_of};
ghost use Rattle.hwdb_spec_commands.specs.RuleFindings;
ghost use Rattle.hwdb_spec_commands.specs.RuleFindings.{found_at, one_found};
ghost use Rattle.hwdb_check.specs.Found.{finds};
ghost use Rattle.hwdb_check.specs.Internal.{texts};

use crate::findings::{Finding, Found, put_found};
use crate::kinds::{Telling, is_among};
use crate::left::words_of;
use hwdb_rulefiles::{Finding as RuleFinding, FindingKind, Spot, parse, rows_of, spot_of};
use std::alloc::{AllocError, Global};

/// Whether a path is that of a rules file.
pub fn is_rules(path: &[u8]) -> bool
    ensures { result ≡ RuleFindings.is_rules path.now }
{
    path.ends_with(b".rules")
}

/// Whether a finding of this kind is told, if these words are allowed.
fn is_told(allowed: &[&[u8]], kind: FindingKind) -> bool
    ensures { result ≡ RuleFindings.is_told (texts allowed.now) kind }
{
    if kind.is_fault() {
        return true;
    }
    !is_among(kind.name().as_bytes(), allowed)
}

/// The row with this number; nothing if there is no such row.
fn row_text<'b>(rows: &[&'b [u8]], number: usize) -> &'b [u8]
    ensures { result.now ≡ RuleFindings.row_text (map text_of rows.now) number }
{
    let index = number.saturating_sub(1);
    if index < rows.len() { rows[index] } else { &[] }
}

/// A row of a rules file.
#[derive(Clone, Copy)]
struct Row<'b> {
    /// The path that is printed for its file.
    path: &'b [u8],
    /// Its text.
    text: &'b [u8],
}

/// Adds what is found at a place in a row to what is found. The only error, here and below, is `AllocError`.
fn put_at(
    alloc: Global,
    found: &mut Vec<Found>,
    row: &Row<'_>,
    spot: Spot,
    kind: FindingKind,
) -> Result<(), AllocError>
    ensures { OnOk result (finds found.new.items ≡ finds found.old.items
        ++ found_at row.now.path.now row.now.text.now spot kind ∷ []) }
{
    let fix = None;
    let told = Finding {
        path: row.path,
        line: spot.line as u64,
        place: spot.column.saturating_sub(1),
        fault: kind.is_fault(),
        kind: kind.name(),
        text: kind.text().as_bytes(),
        hint: kind.hint().as_bytes(),
        source: row.text,
        fix: &fix,
    };
    put_found(alloc, found, &told)
}

/// Adds what is found in some rows.
#[tactic(auto, unfolding(hwdb_spec_commands::specs::RuleFindings::one_found))]
fn put_one(
    alloc: Global,
    found: &mut Vec<Found>,
    path: &[u8],
    rows: &[&[u8]],
    finding: RuleFinding,
) -> Result<(), AllocError>
    ensures { OnOk result (finds found.new.items ≡ finds found.old.items
        ++ one_found path.now (map text_of rows.now) finding) }
{
    let spot = spot_of(alloc, rows, finding.line, finding.place)?;
    let text = row_text(rows, spot.line);
    put_at(alloc, found, &Row { path, text }, spot, finding.kind)
}

/// A rules file, and the words of `--allow`.
#[derive(Clone, Copy)]
struct RuleFile<'a> {
    /// The path that is printed for it.
    path: &'a [u8],
    /// Its rows.
    rows: &'a [&'a [u8]],
    /// The words.
    allowed: &'a [&'a [u8]],
}

/// Adds what is found, if it is told.
fn put_if_told(
    alloc: Global,
    found: &mut Vec<Found>,
    file: &RuleFile<'_>,
    finding: RuleFinding,
) -> Result<(), AllocError>
    ensures { OnOk result (finds found.new.items ≡ finds found.old.items
        ++ flat_map (one_found file.now.path.now (map text_of file.now.rows.now))
        (filter (λ f. RuleFindings.is_told (texts file.now.allowed.now) f.kind) (finding ∷ []))) }
{
    if is_told(file.allowed, finding.kind) {
        put_one(alloc, found, file.path, file.rows, finding)?;
    }
    Ok(())
}

/// All of it.
fn all_told(
    alloc: Global,
    file: &RuleFile<'_>,
    findings: &[RuleFinding],
) -> Result<Vec<Found>, AllocError>
    ensures { IfOk result (λ all. finds all.items
        ≡ flat_map (one_found file.now.path.now (map text_of file.now.rows.now))
        (filter (λ f. RuleFindings.is_told (texts file.now.allowed.now) f.kind) findings.now)) }
{
    let mut all = Vec::new(alloc);
    for finding in findings {
        put_if_told(alloc, &mut all, file, *finding)?;
    }
    Ok(all)
}

/// What is found in a rules file, but for remarks of kinds that are allowed.
///
/// The time is that of reading it, and for each finding that of its line.
pub fn rule_findings(
    alloc: Global,
    telling: &Telling<'_>,
    path: &[u8],
    bytes: &[u8],
) -> Result<Vec<Found>, AllocError>
    ensures { IfOk result (λ all. finds all.items
        ≡ RuleFindings.rule_findings (map string_bytes telling.now.allowed.now)
        path.now bytes.now) }
{
    let allowed = words_of(alloc, telling.allowed)?;
    let parsed = parse(alloc, bytes)?;
    let rows = rows_of(alloc, bytes)?;
    let file = RuleFile {
        path,
        rows: &rows,
        allowed: &allowed,
    };
    all_told(alloc, &file, &parsed.findings)
}

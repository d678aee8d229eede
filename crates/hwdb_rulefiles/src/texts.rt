//! What is printed of findings.
ghost use Rattle.std.specs.Prelude.{◌≡◌, ◌++◌, map, flat_map, IfOk, OnOk};
ghost use Rattle.hwdb_rulefiles.specs.RuleText;
ghost use Rattle.hwdb_rulefiles.specs.RuleTexts;
ghost use Rattle.hwdb_rulefiles.specs.Views.{text_of};

use crate::findings::{Finding, FindingKind};
use crate::parsed::parse;
use crate::rows::rows_of;
use crate::spots::{Spot, spot_of};
use itoa::Buffer;
use std::alloc::{AllocError, Global};

impl FindingKind {
    /// What is wrong, and what udev does.
    pub fn text(self) -> &'static str
        ensures { result.now ≡ RuleTexts.kind_text self }
    {
        match self {
            FindingKind::NoOperator => "no operator comes after a key: udev leaves the line out",
            FindingKind::NoBrace => "the brace after a key isn't closed: udev leaves the line out",
            FindingKind::NoQuote => "the value isn't in quotes: udev leaves the line out",
            FindingKind::NoEnd => "the value has no closing quote: udev leaves the line out",
            FindingKind::WrongEscape => {
                "the value has an escape that C doesn't have: udev leaves the line out"
            }
            FindingKind::UnknownKey => "the key isn't known: udev leaves the line out",
            FindingKind::NoAttribute => {
                "the key needs an attribute in braces: udev leaves the line out"
            }
            FindingKind::SpareAttribute => "the key takes no attribute: udev leaves the line out",
            FindingKind::WrongAttribute => {
                "the key doesn't take this attribute: udev leaves the line out"
            }
            FindingKind::WrongOperator => {
                "the key doesn't take this operator: udev leaves the line out"
            }
            FindingKind::WrongPrefix => {
                "an i is before a value that isn't compared: udev leaves the line out"
            }
            FindingKind::FixedProperty => "udev alone sets this property: it leaves the line out",
            FindingKind::IdleName => "the name is empty or the kernel's: udev leaves the line out",
            FindingKind::UnknownBuiltin => "the builtin isn't known: udev leaves the line out",
            FindingKind::WrongOption => {
                "the value of the option isn't one: udev leaves the line out"
            }
            FindingKind::TakenAsSet => {
                "the key doesn't take this operator: udev takes = in its place"
            }
            FindingKind::UnknownOption => "the option isn't known: udev leaves it out",
            FindingKind::SecondGoto => "the line has a GOTO already: udev leaves this one out",
            FindingKind::SecondLabel => "the line has a LABEL already: udev takes this one",
            FindingKind::NoSeparator => "no comma or blank is between two pairs",
            FindingKind::NoEffect => "the line sets nothing and jumps nowhere: udev leaves it out",
            FindingKind::LongLine => "the line has 16384 bytes or more: udev leaves it out",
            FindingKind::OpenEnd => "the file ends in a backslash: udev leaves its last line out",
            FindingKind::NoLabel => {
                "no LABEL with this name comes after the GOTO: udev leaves the GOTO out"
            }
            FindingKind::LongRow => "the line has 16384 bytes or more: udev leaves the file out",
        }
    }

    /// The name of the kind.
    pub fn name(self) -> &'static str
        ensures { result.now ≡ RuleTexts.kind_name self }
    {
        match self {
            FindingKind::NoOperator => "no-operator",
            FindingKind::NoBrace => "open-brace",
            FindingKind::NoQuote => "no-quote",
            FindingKind::NoEnd => "open-quote",
            FindingKind::WrongEscape => "wrong-escape",
            FindingKind::UnknownKey => "unknown-key",
            FindingKind::NoAttribute => "no-attribute",
            FindingKind::SpareAttribute => "spare-attribute",
            FindingKind::WrongAttribute => "wrong-attribute",
            FindingKind::WrongOperator => "wrong-operator",
            FindingKind::WrongPrefix => "wrong-prefix",
            FindingKind::FixedProperty => "fixed-property",
            FindingKind::IdleName => "idle-name",
            FindingKind::UnknownBuiltin => "unknown-builtin",
            FindingKind::WrongOption => "wrong-option",
            FindingKind::TakenAsSet => "taken-as-set",
            FindingKind::UnknownOption => "unknown-option",
            FindingKind::SecondGoto => "second-goto",
            FindingKind::SecondLabel => "second-label",
            FindingKind::NoSeparator => "no-separator",
            FindingKind::NoEffect => "no-effect",
            FindingKind::LongLine => "long-line",
            FindingKind::OpenEnd => "open-end",
            FindingKind::NoLabel => "no-label",
            FindingKind::LongRow => "long-row",
        }
    }
}

/// Adds `:LINE:COLUMN: `.
fn push_spot(text: &mut Vec<u8>, spot: Spot) -> Result<(), AllocError>
    ensures { OnOk result (text.new.items ≡ text.old.items ++ RuleTexts.spot_text spot) }
{
    let mut number = Buffer::new();
    text.push(b':')?;
    text.extend_from_slice(number.format(spot.line).as_bytes())?;
    text.push(b':')?;
    text.extend_from_slice(number.format(spot.column).as_bytes())?;
    text.extend_from_slice(b": ")?;
    Ok(())
}

/// Adds `TEXT [KIND]` and a newline.
fn push_kind(text: &mut Vec<u8>, kind: FindingKind) -> Result<(), AllocError>
    ensures { OnOk result (text.new.items ≡ text.old.items ++ RuleTexts.kind_line kind) }
{
    text.extend_from_slice(kind.text().as_bytes())?;
    text.extend_from_slice(b" [")?;
    text.extend_from_slice(kind.name().as_bytes())?;
    text.extend_from_slice(b"]\n")?;
    Ok(())
}

/// Adds the line of a finding.
fn push_finding(
    alloc: Global,
    text: &mut Vec<u8>,
    path: &[u8],
    rows: &[&[u8]],
    finding: Finding,
) -> Result<(), AllocError>
    ensures { OnOk result (text.new.items ≡ text.old.items
        ++ RuleTexts.finding_line path.now (map text_of rows.now) finding) }
{
    let spot = spot_of(alloc, rows, finding.line, finding.place)?;
    text.extend_from_slice(path)?;
    push_spot(text, spot)?;
    push_kind(text, finding.kind)
}

/// Adds a line for each of some findings.
fn push_findings(
    alloc: Global,
    text: &mut Vec<u8>,
    path: &[u8],
    rows: &[&[u8]],
    findings: &[Finding],
) -> Result<(), AllocError>
    ensures { OnOk result (text.new.items ≡ text.old.items
        ++ flat_map (RuleTexts.finding_line path.now (map text_of rows.now)) findings.now) }
{
    for finding in findings {
        push_finding(alloc, text, path, rows, *finding)?;
    }
    Ok(())
}

/// A line for each finding of a rules file: `PATH:LINE:COLUMN: TEXT [KIND]`. The path is printed as it is given.
///
/// # Errors
///
/// `AllocError` at any allocation that fails.
pub fn report(alloc: Global, path: &[u8], file: &[u8]) -> Result<Vec<u8>, AllocError>
    ensures { IfOk result (λ text. text.items ≡ RuleTexts.report path.now file.now) }
{
    let parsed = parse(alloc, file)?;
    let rows = rows_of(alloc, file)?;
    let mut text = Vec::new(alloc);
    push_findings(alloc, &mut text, path, &rows, &parsed.findings)?;
    Ok(text)
}

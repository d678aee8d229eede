//! What a rules file says.
ghost use Rattle.std.specs.Prelude.{◌≡◌, ◌++◌, map, IfOk, OnOk, OnErr};
ghost use Rattle.std.specs.List.{filter_map, flat_map};
ghost use Rattle.hwdb_rulefiles.specs.RuleFiles;
ghost use Rattle.hwdb_rulefiles.specs.RuleLines.{read_line};
ghost use Rattle.hwdb_rulefiles.specs.Views.{whole_of};
ghost use Rattle.hwdb_rulefiles.specs.LineViews.{outcome_of, line_of};
ghost use Rattle.hwdb_rulefiles.specs.ParsedViews.{parsed_of};

use crate::findings::{Finding, FindingKind};
use crate::jumps::resolved;
use crate::lines::{Outcome, RuleLine};
use crate::rows::rows_of;
use crate::whole::{WholeLine, long_row, whole_lines};
use std::alloc::{AllocError, Global};

/// What a rules file says.
#[derive(Drop)]
pub struct Parsed {
    /// The lines that udev keeps, in their order.
    pub lines: Vec<RuleLine>,
    /// What is found, by line.
    pub findings: Vec<Finding>,
}

/// What the lines of a file come to.
fn read_all(alloc: Global, lines: &[WholeLine]) -> Result<Vec<Outcome>, AllocError>
    ensures { IfOk result (λ all. map outcome_of all.items
        ≡ map read_line (map whole_of lines.now)) }
{
    let mut all = Vec::new(alloc);
    for line in lines {
        all.push(crate::lines::read_line(alloc, line)?)?;
    }
    Ok(all)
}

impl Parsed {
    fn new(alloc: Global) -> Parsed
        ensures { parsed_of result ≡ RuleFiles.nothing }
    {
        Parsed {
            lines: Vec::new(alloc),
            findings: Vec::new(alloc),
        }
    }

    fn find(&mut self, line: usize, kind: FindingKind) -> Result<(), AllocError>
        ensures { OnOk result (parsed_of self.new
            ≡ RuleFiles.found (parsed_of self.old) line kind) }
    {
        self.findings.push(Finding {
            line,
            place: 0,
            kind,
        })?;
        Ok(())
    }

    /// What a line comes to is put after the others.
    fn put(&mut self, outcome: Outcome) -> Result<(), AllocError>
        ensures { OnOk result (parsed_of self.new
            ≡ RuleFiles.put (parsed_of self.old) (outcome_of outcome)) }
    {
        let Outcome {
            number: _,
            line,
            findings,
        } = outcome;
        self.findings.extend_from_slice(&findings)?;
        match line {
            None => Ok(()),
            Some(line) => {
                self.lines.push(line)?;
                Ok(())
            }
        }
    }
}

/// The lines that are left, and all findings.
fn gathered(alloc: Global, outcomes: Vec<Outcome>) -> Result<Parsed, AllocError>
    ensures { IfOk result (λ p. parsed_of p
        ≡ RuleFiles.gathered (map outcome_of outcomes.items)) }
{
    let mut parsed = Parsed::new(alloc);
    for outcome in outcomes {
        parsed.put(outcome)?;
    }
    Ok(parsed)
}

/// What a rules file says.
///
/// The time is that of one pass over its bytes, and of putting its labels in order.
///
/// # Errors
///
/// `AllocError` at any allocation that fails.
pub fn parse(alloc: Global, file: &[u8]) -> Result<Parsed, AllocError>
    ensures { IfOk result (λ p. parsed_of p ≡ RuleFiles.parsed file.now) }
{
    let rows = rows_of(alloc, file)?;
    if let Some(number) = long_row(&rows) {
        let mut parsed = Parsed::new(alloc);
        parsed.find(number, FindingKind::LongRow)?;
        return Ok(parsed);
    }
    let reader = whole_lines(alloc, &rows)?;
    let outcomes = resolved(alloc, read_all(alloc, &reader.lines)?)?;
    let mut parsed = gathered(alloc, outcomes)?;
    if reader.held {
        parsed.find(reader.first, FindingKind::OpenEnd)?;
    }
    Ok(parsed)
}

//! Jumps: a GOTO without its label is left out, as `rule_resolve_goto` of udev-rules.c has it.
//!
//! One pass from the last line to the first one, with the names that were seen: its time is that of putting them in order.
ghost use Rattle.std.specs.Prelude.{◌≡◌, ◌∷◌, List, map, reverse, IfOk, OnOk, Option};
ghost use Rattle.hwdb_rulefiles.specs.RuleJumps;
ghost use Rattle.hwdb_rulefiles.specs.RuleLines;
ghost use Rattle.hwdb_rulefiles.specs.PairViews.{attribute_of};
ghost use Rattle.hwdb_rulefiles.specs.LineViews.{outcome_of};
ghost use Rattle.hwdb_rulefiles.specs.LineViews.{line_of, line_view};
ghost use Rattle.hwdb_rulefiles.specs.Internal.{AreLabels, knows};

use crate::findings::FindingKind;
use crate::lines::{Outcome, RuleLine, any_acts, with_first};
use std::alloc::{AllocError, Global};
use std::collections::BTreeMap;

/// The name of a line.
fn label_of(outcome: &Outcome) -> Option<&[u8]>
    ensures { attribute_of result ≡ RuleJumps.label_of (outcome_of outcome.now) }
{
    match &outcome.line {
        None => None,
        Some(line) => match &line.label {
            None => None,
            Some(label) => Some(label.as_slice()),
        },
    }
}

/// The name that a line jumps to.
fn goto_of(outcome: &Outcome) -> Option<&[u8]>
    ensures { attribute_of result ≡ RuleJumps.goto_of (outcome_of outcome.now) }
{
    match &outcome.line {
        None => None,
        Some(line) => match &line.goto {
            None => None,
            Some(goto) => Some(goto.as_slice()),
        },
    }
}

/// Whether a line jumps nowhere, or to one of these names.
fn is_kept(labels: &BTreeMap<&[u8], bool>, outcome: &Outcome) -> bool
    ensures { (later : List RuleLines.Outcome) → AreLabels labels.now later
        → result ≡ RuleJumps.is_kept (outcome_of outcome.now) later }
{
    match goto_of(outcome) {
        None => true,
        Some(name) => labels.contains_key(name),
    }
}

/// Puts the name of a line among the names.
fn learn<'b>(labels: &mut BTreeMap<&'b [u8], bool>, outcome: &'b Outcome) -> Result<(), AllocError>
    ensures { OnOk result ((later : List RuleLines.Outcome) → AreLabels labels.old later
        → AreLabels labels.new (outcome_of outcome.now ∷ later)) }
{
    match label_of(outcome) {
        None => Ok(()),
        Some(name) => {
            labels.insert(name, true)?;
            Ok(())
        }
    }
}

/// Which lines keep their jump, from the last one to the first.
fn marks(alloc: Global, outcomes: &[Outcome]) -> Result<Vec<bool>, AllocError>
    ensures { IfOk result (λ marks. reverse marks.items
        ≡ RuleJumps.marks (map outcome_of outcomes.now)) }
{
    let mut labels = BTreeMap::new(alloc);
    let mut marks = Vec::new(alloc);
    let mut at = outcomes.len();
    while at > 0 {
        at -= 1;
        let outcome = &outcomes[at];
        marks.push(is_kept(&labels, outcome))?;
        learn(&mut labels, outcome)?;
    }
    Ok(marks)
}

/// A line without its jump, if something is left of it.
fn left(alloc: Global, line: RuleLine) -> Option<RuleLine>
    ensures { line_view result ≡ RuleJumps.left (line_of line) }
{
    if any_acts(&line.tokens) {
        return Some(RuleLine {
            number: line.number,
            tokens: line.tokens,
            label: line.label,
            goto: None,
        });
    }
    if line.label.is_none() {
        return None;
    }
    Some(RuleLine {
        number: line.number,
        tokens: Vec::new(alloc),
        label: line.label,
        goto: None,
    })
}

/// A line without its jump, if it is there and something is left of it.
fn line_left(alloc: Global, line: Option<RuleLine>) -> Option<RuleLine>
    ensures { line_view result ≡ RuleJumps.line_left (line_view line) }
{
    match line {
        None => None,
        Some(line) => left(alloc, line),
    }
}

/// A line whose jump has no label.
fn without_jump(alloc: Global, outcome: Outcome) -> Result<Outcome, AllocError>
    ensures { IfOk result (λ o. outcome_of o ≡ RuleJumps.without_jump (outcome_of outcome)) }
{
    let Outcome {
        number,
        line,
        findings,
    } = outcome;
    let line = line_left(alloc, line);
    Ok(Outcome {
        number,
        line,
        findings: with_first(alloc, number, FindingKind::NoLabel, &findings)?,
    })
}

/// A line with its jump, or without it.
fn marked(alloc: Global, keeps: bool, outcome: Outcome) -> Result<Outcome, AllocError>
    ensures { IfOk result (λ o. outcome_of o ≡ RuleJumps.marked keeps (outcome_of outcome)) }
{
    if keeps {
        return Ok(outcome);
    }
    without_jump(alloc, outcome)
}

/// The mark of a line; true if there is none.
fn mark_at(marks: &[bool], at: usize) -> bool
    ensures { result ≡ RuleJumps.mark_at marks.now at }
{
    if at < marks.len() { marks[at] } else { true }
}

/// The lines, by their marks.
fn all_marked(
    alloc: Global,
    marks: &[bool],
    outcomes: Vec<Outcome>,
) -> Result<Vec<Outcome>, AllocError>
    ensures { IfOk result (λ all. map outcome_of all.items
        ≡ RuleJumps.all_marked marks.now (map outcome_of outcomes.items)) }
{
    let mut all = Vec::new(alloc);
    for outcome in outcomes {
        let keeps = mark_at(marks, all.len());
        all.push(marked(alloc, keeps, outcome)?)?;
    }
    Ok(all)
}

/// The lines, without jumps that have no label.
pub fn resolved(alloc: Global, outcomes: Vec<Outcome>) -> Result<Vec<Outcome>, AllocError>
    ensures { IfOk result (λ all. map outcome_of all.items
        ≡ RuleJumps.resolved (map outcome_of outcomes.items)) }
{
    let mut marks = marks(alloc, &outcomes)?;
    marks.reverse();
    let all = all_marked(alloc, &marks, outcomes)?;
    Ok(all)
}

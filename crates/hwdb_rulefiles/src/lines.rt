//! What a line says, as `rule_add_line` of udev-rules.c puts it together.
ghost use Rattle.std.specs.Prelude.{◌≡◌, ◌≤◌, ◌++◌, ◌∷◌, length, map, filter, not, IfOk, OnOk, Option};
ghost use Rattle.std.specs.List.{prefix_len, list_any};
ghost use Rattle.hwdb_rulefiles.specs.RuleLines;
ghost use Rattle.hwdb_rulefiles.specs.Views.{whole_of};
ghost use Rattle.hwdb_rulefiles.specs.RuleTokens.{judge as judge_of};
ghost use Rattle.hwdb_rulefiles.specs.PairViews.{attribute_of, part_of, read_of};
ghost use Rattle.hwdb_rulefiles.specs.TokenViews.{token_of, verdict_of};
ghost use Rattle.hwdb_rulefiles.specs.LineViews.{taking_of, line_of, outcome_of};

use crate::findings::{Finding, FindingKind};
use crate::order::in_order;
use crate::pairs::{Pair, Part, pair_of};
use crate::rows::is_white;
use crate::tokens::{Token, TokenKind, Verdict, judge};
use crate::whole::WholeLine;
use std::alloc::{AllocError, Global};

/// A line of rules.
#[derive(Drop)]
pub struct RuleLine {
    /// The number of its first row, from 1.
    pub number: usize,
    /// Its tokens, in udev's order.
    pub tokens: Vec<Token>,
    /// Its name.
    pub label: Option<Vec<u8>>,
    /// The name of the line that it jumps to.
    pub goto: Option<Vec<u8>>,
}

/// What a line of the file comes to.
#[derive(Drop)]
pub struct Outcome {
    /// The number of its first row, from 1.
    pub number: usize,
    /// The line, if it isn't left out.
    pub line: Option<RuleLine>,
    /// What is found in it.
    pub findings: Vec<Finding>,
}

/// What was read of a line.
#[derive(Drop)]
pub struct Taking {
    tokens: Vec<Token>,
    label: Option<Vec<u8>>,
    goto: Option<Vec<u8>>,
    refused: bool,
    findings: Vec<Finding>,
}

fn is_separator(byte: u8) -> bool
    ensures { result ≡ RuleLines.is_separator byte }
{
    is_white(byte) || byte == b','
}

/// A text without the blanks and commas that it begins with.
fn after_separators(text: &[u8]) -> &[u8]
    ensures { result.now ≡ RuleLines.after_separators text.now }
{
    let mut at = 0;
    while at < text.len() && is_separator(text[at]) {
        at += 1;
    }
    &text[at..]
}

impl Taking {
    fn new(alloc: Global) -> Taking
        ensures { taking_of result ≡ RuleLines.nothing }
    {
        Taking {
            tokens: Vec::new(alloc),
            label: None,
            goto: None,
            refused: false,
            findings: Vec::new(alloc),
        }
    }

    fn find(&mut self, line: usize, place: usize, kind: FindingKind) -> Result<(), AllocError>
        ensures { OnOk result (taking_of self.new
            ≡ RuleLines.found (taking_of self.old) line place kind) }
    {
        self.findings.push(Finding { line, place, kind })?;
        Ok(())
    }

    fn refuse(&mut self, line: usize, place: usize, kind: FindingKind) -> Result<(), AllocError>
        ensures { OnOk result (taking_of self.new
            ≡ RuleLines.refused (taking_of self.old) line place kind) }
    {
        self.refused = true;
        self.find(line, place, kind)
    }

    fn add(&mut self, token: Token) -> Result<(), AllocError>
        ensures { OnOk result (taking_of self.new
            ≡ RuleLines.added (taking_of self.old) (token_of token)) }
    {
        self.tokens.push(token)?;
        Ok(())
    }

    fn name(&mut self, line: usize, place: usize, name: Vec<u8>) -> Result<(), AllocError>
        ensures { OnOk result (taking_of self.new
            ≡ RuleLines.named (taking_of self.old) line place name.items) }
    {
        if self.label.is_some() {
            self.find(line, place, FindingKind::SecondLabel)?;
        }
        self.label = Some(name);
        Ok(())
    }

    fn jump(&mut self, line: usize, place: usize, name: Vec<u8>) -> Result<(), AllocError>
        ensures { OnOk result (taking_of self.new
            ≡ RuleLines.jumping (taking_of self.old) line place name.items) }
    {
        if self.goto.is_some() {
            return self.find(line, place, FindingKind::SecondGoto);
        }
        self.goto = Some(name);
        Ok(())
    }

    /// A pair is read.
    fn take(&mut self, line: usize, place: usize, verdict: Verdict) -> Result<(), AllocError>
        ensures { OnOk result (taking_of self.new
            ≡ RuleLines.took (taking_of self.old) line place (verdict_of verdict)) }
    {
        match verdict {
            Verdict::Refused(kind) => self.refuse(line, place, kind),
            Verdict::Ignored(kind) => self.find(line, place, kind),
            Verdict::Taken(token) => self.add(token),
            Verdict::TakenAsSet(token) => {
                self.add(token)?;
                self.find(line, place, FindingKind::TakenAsSet)
            }
            Verdict::Label(name) => self.name(line, place, name),
            Verdict::Goto(name) => self.jump(line, place, name),
        }
    }

    /// A pair begins, before which nothing may be.
    fn separate(&mut self, line: usize, place: usize, is_joined: bool) -> Result<(), AllocError>
        ensures { OnOk result (taking_of self.new
            ≡ RuleLines.separated (taking_of self.old) line place is_joined) }
    {
        if place != 0 && is_joined {
            return self.find(line, place, FindingKind::NoSeparator);
        }
        Ok(())
    }

    /// What is still to be read of a line: nothing, if it is left out.
    fn unless_refused<'b>(&self, more: &'b [u8]) -> Option<&'b [u8]>
        ensures { attribute_of result ≡ (RuleLines.more_of (taking_of self.now) more.now).1 }
    {
        if self.refused {
            return None;
        }
        Some(more)
    }

    /// A pair is read, before `more`.
    fn read_pair<'b>(
        &mut self,
        alloc: Global,
        line: usize,
        place: usize,
        pair: Pair<'b>,
        more: &'b [u8],
    ) -> Result<Option<&'b [u8]>, AllocError>
        ensures taking { OnOk result (taking_of self.new
            ≡ RuleLines.took (taking_of self.old) line place (judge_of (read_of pair.entry))) }
        ensures rest { IfOk result (λ more_left. attribute_of more_left
            ≡ (RuleLines.more_of (taking_of self.new) more.now).1) }
    {
        let verdict = judge(alloc, pair)?;
        self.take(line, place, verdict)?;
        Ok(self.unless_refused(more))
    }

    /// What a text begins with is read.
    fn read_part<'b>(
        &mut self,
        alloc: Global,
        line: usize,
        place: usize,
        part: Part<'b>,
    ) -> Result<Option<&'b [u8]>, AllocError>
        ensures taking { OnOk result (taking_of self.new
            ≡ (RuleLines.part_step (taking_of self.old) line place (part_of part.entry)).0) }
        ensures rest { IfOk result (λ more. attribute_of more
            ≡ (RuleLines.part_step (taking_of self.old) line place (part_of part.entry)).1) }
    {
        match part {
            Part::Broken(kind) => {
                self.refuse(line, place, kind)?;
                Ok(None)
            }
            Part::Read(pair, more) => {
                let left = self.read_pair(alloc, line, place, pair, more)?;
                Ok(left)
            }
        }
    }

    /// The next pair is read, with what is after it; None at the end, or if the line is left out.
    fn step<'b>(
        &mut self,
        alloc: Global,
        line: usize,
        text: &'b [u8],
        rest: &'b [u8],
    ) -> Result<Option<&'b [u8]>, AllocError>
        ensures taking { OnOk result (taking_of self.new
            ≡ (RuleLines.step (taking_of self.old) line text.now rest.now).0) }
        ensures rest { IfOk result (λ more. attribute_of more
            ≡ (RuleLines.step (taking_of self.old) line text.now rest.now).1) }
    {
        let at = after_separators(rest);
        if at.is_empty() {
            return Ok(None);
        }
        let place = text.len().saturating_sub(at.len());
        self.separate(line, place, at.len() == rest.len())?;
        let part = pair_of(alloc, at)?;
        let more = self.read_part(alloc, line, place, part)?;
        Ok(more)
    }
}

/// What is read of a line with this number.
fn read_pairs(alloc: Global, line: usize, text: &[u8]) -> Result<Taking, AllocError>
    ensures { IfOk result (λ t. taking_of t ≡ RuleLines.read_pairs line text.now) }
{
    let mut taking = Taking::new(alloc);
    let mut rest = text;
    let mut most = text.len();
    while most > 0 {
        most -= 1;
        let next = taking.step(alloc, line, text, rest)?;
        match next {
            None => return Ok(taking),
            Some(more) => rest = more,
        }
    }
    Ok(taking)
}

/// Whether a token of this type sets something or runs something.
fn acts(kind: TokenKind) -> bool
    ensures { result ≡ RuleLines.acts kind }
{
    match kind {
        TokenKind::MatchAction
        | TokenKind::MatchDevpath
        | TokenKind::MatchKernel
        | TokenKind::MatchDevlink
        | TokenKind::MatchName
        | TokenKind::MatchEnv
        | TokenKind::MatchConst
        | TokenKind::MatchTag
        | TokenKind::MatchSubsystem
        | TokenKind::MatchDriver
        | TokenKind::MatchAttr
        | TokenKind::MatchSysctl
        | TokenKind::ParentsKernel
        | TokenKind::ParentsSubsystem
        | TokenKind::ParentsDriver
        | TokenKind::ParentsAttr
        | TokenKind::ParentsTag
        | TokenKind::MatchTest
        | TokenKind::MatchResult => false,
        _ => true,
    }
}

/// Whether one of the tokens does.
pub fn any_acts(tokens: &[Token]) -> bool
    ensures { result ≡ RuleLines.any_acts (map token_of tokens.now) }
{
    for token in tokens {
        if acts(token.kind) {
            return true;
        }
    }
    false
}

/// A finding of a whole line, and those of its pairs after it.
pub fn with_first(
    alloc: Global,
    number: usize,
    kind: FindingKind,
    findings: &[Finding],
) -> Result<Vec<Finding>, AllocError>
    ensures { IfOk result (λ all. all.items
        ≡ RuleLines.finding number 0 kind ∷ findings.now) }
{
    let mut all = Vec::new(alloc);
    all.push(Finding {
        line: number,
        place: 0,
        kind,
    })?;
    all.extend_from_slice(findings)?;
    Ok(all)
}

/// What a line comes to of which all was read. What is found comes by its place.
fn outcome_for(alloc: Global, number: usize, taking: Taking) -> Result<Outcome, AllocError>
    ensures { IfOk result (λ o. outcome_of o ≡ RuleLines.outcome_for number (taking_of taking)) }
{
    let findings = taking.findings;
    if taking.refused {
        return Ok(Outcome {
            number,
            line: None,
            findings,
        });
    }
    if taking.label.is_none() && taking.goto.is_none() && !any_acts(&taking.tokens) {
        return Ok(Outcome {
            number,
            line: None,
            findings: with_first(alloc, number, FindingKind::NoEffect, &findings)?,
        });
    }
    let line = RuleLine {
        number,
        tokens: in_order(alloc, taking.tokens)?,
        label: taking.label,
        goto: taking.goto,
    };
    Ok(Outcome {
        number,
        line: Some(line),
        findings,
    })
}

/// What a line of the file comes to.
pub fn read_line(alloc: Global, line: &WholeLine) -> Result<Outcome, AllocError>
    ensures { IfOk result (λ o. outcome_of o ≡ RuleLines.read_line (whole_of line.now)) }
{
    if line.long {
        let mut findings = Vec::new(alloc);
        findings.push(Finding {
            line: line.number,
            place: 0,
            kind: FindingKind::LongLine,
        })?;
        return Ok(Outcome {
            number: line.number,
            line: None,
            findings,
        });
    }
    let taking = read_pairs(alloc, line.number, &line.text)?;
    outcome_for(alloc, line.number, taking)
}

//! Why lines with lookups ask, may ask, or don't.
ghost use Rattle.std.specs.Prelude.{◌≡◌, ◌++◌, ◌∷◌, [], filter, map, take, Option, None, Some, true, false, IfOk, OnOk};
ghost use Rattle.std.specs.List.{list_any, position_or_len};
ghost use Rattle.std.specs.Str.{bytes_eq};
ghost use Rattle.hwdb_rulefiles.specs.LineViews.{line_of};
ghost use Rattle.hwdb_rulefiles.specs.TokenViews.{token_of};
ghost use Rattle.hwdb_rulefiles.specs.Views.{text_of};
ghost use Rattle.hwdb_rulerun.specs.Asking;
ghost use Rattle.hwdb_rulerun.specs.CauseViews.{token_in};
ghost use Rattle.hwdb_rulerun.specs.Telling as RunTelling;
ghost use Rattle.hwdb_rulerun.specs.Views.{sight_of};
ghost use Rattle.hwdb_ruleevents.specs.Reasons;
ghost use Rattle.hwdb_ruleevents.specs.ReasonViews.{cause_of, reason_of};
ghost use Rattle.hwdb_ruleevents.specs.Telling;
ghost use Rattle.hwdb_ruleevents.specs.ChangeViews.{held_of};
ghost use Rattle.hwdb_ruleevents.specs.TellViews.{told_of, turn_of};

use crate::changes::Held;
use crate::telling::{Place, Told, entries, is_no};
use hwdb_rulefiles::{RuleLine, Token};
use hwdb_rulerun::{Sight, cause, is_lookup, line_told, runs};
use std::alloc::{AllocError, Global};

/// What decides over a line.
#[derive(Drop)]
pub enum Cause<'a> {
    /// Jumps to these labels pass over it, at most four.
    Jumped(Vec<&'a [u8]>),
    /// Tokens of its own.
    By(Vec<&'a Token>),
}

/// Whether a line asks, and what decides over that.
#[derive(Drop)]
pub struct Reason<'a> {
    /// The number of its file, from 0.
    pub file: usize,
    /// The number of the line among those of the file, from 0.
    pub line: usize,
    /// Whether it asks, if that is known.
    pub asks: Option<bool>,
    /// What decides over it; no tokens if it asks.
    pub cause: Cause<'a>,
}

/// How many labels are told of a line at most.
const MOST_LABELS: usize = 4;

/// Whether a label is among those that are told.
fn is_told(label: &[u8], labels: &[&[u8]]) -> bool
    ensures { result ≡ list_any (bytes_eq label.now) (map text_of labels.now) }
{
    for told in labels {
        if label == *told {
            return true;
        }
    }
    false
}

/// Adds a label, unless it is there, or enough are.
fn add_label<'a>(labels: &mut Vec<&'a [u8]>, label: &'a [u8]) -> Result<(), AllocError>
    ensures { OnOk result (map text_of labels.new.items
        ≡ Reasons.with_label (map text_of labels.old.items) label.now) }
{
    if labels.len() >= MOST_LABELS || is_told(label, labels) {
        return Ok(());
    }
    labels.push(label)?;
    Ok(())
}

/// What passes over a line: the labels that wait, each once, and no more than `MOST_LABELS`. All are looked at.
fn jumps<'a>(alloc: Global, waiting: &[&'a [u8]]) -> Result<Cause<'a>, AllocError>
    ensures { IfOk result (λ c. cause_of c ≡ Reasons.jumps (map text_of waiting.now)) }
{
    let mut labels = Vec::new(alloc);
    for label in waiting {
        add_label(&mut labels, label)?;
    }
    Ok(Cause::Jumped(labels))
}

/// Whether a line has a lookup.
pub(crate) fn has_lookup(tokens: &[Token]) -> bool
    ensures { result ≡ Reasons.has_lookup (map token_of tokens.now) }
{
    for token in tokens {
        if is_lookup(token) {
            return true;
        }
    }
    false
}

/// What a line runs before its first lookup. The only error, here and below, is `AllocError`.
fn run_first(alloc: Global, tokens: &[Token]) -> Result<Vec<&Token>, AllocError>
    ensures { IfOk result (λ found. map token_in found.items
        ≡ Reasons.run_first (map token_of tokens.now)) }
{
    let mut found = Vec::new(alloc);
    for token in tokens {
        if is_lookup(token) {
            return Ok(found);
        }
        if runs(token.kind) {
            found.push(token)?;
        }
    }
    Ok(found)
}

/// The token whose text isn't known, or what is run before it.
fn open_by<'a>(
    alloc: Global,
    tokens: &'a [Token],
    told: &Told<'a>,
) -> Result<Vec<&'a Token>, AllocError>
    ensures { IfOk result (λ found. map token_in found.items
        ≡ Reasons.open_by (map token_of tokens.now) (told_of told.now)) }
{
    if told.text.is_some() {
        return run_first(alloc, tokens);
    }
    let mut found = Vec::new(alloc);
    found.push(told.token)?;
    Ok(found)
}

/// What is known of a line's conditions, and what decides over them.
#[derive(Drop)]
pub(crate) struct Decided<'a> {
    /// Whether they hold.
    pub(crate) holds: Option<bool>,
    /// What decides.
    pub(crate) by: Vec<&'a Token>,
}

/// What is known of a line's conditions, by the properties that its tokens name.
pub(crate) fn decide<'a>(
    alloc: Global,
    sight: &Sight<'_>,
    changes: &[Held],
    tokens: &'a [Token],
) -> Result<Decided<'a>, AllocError>
    ensures { IfOk result (λ d. (d.holds ≡ RunTelling.line_told (Telling.sight_at
        (sight_of sight.now) (map held_of changes.now) (map token_of tokens.now))
        (map token_of tokens.now)) × (map token_in d.by.items ≡ Reasons.decided_in
        (Telling.sight_at (sight_of sight.now) (map held_of changes.now)
        (map token_of tokens.now)) (map token_of tokens.now))) }
{
    let entries = entries(alloc, changes, tokens)?;
    let seen = Sight {
        action: sight.action,
        path: sight.path,
        own: sight.own,
        parents: sight.parents,
        properties: &entries,
        closed: false,
    };
    let holds = line_told(alloc, &seen, tokens)?;
    let by = cause(alloc, is_no(holds), &seen, tokens)?;
    Ok(Decided { holds, by })
}

/// Why a lookup may not be asked.
fn doubt<'a>(
    alloc: Global,
    waiting: &[&'a [u8]],
    decided: Decided<'a>,
    tokens: &'a [Token],
    told: &Told<'a>,
) -> Result<Cause<'a>, AllocError>
    ensures { IfOk result (λ c. cause_of c ≡ Reasons.doubt (map text_of waiting.now)
        decided.entry.holds (map token_in decided.entry.by.items) (map token_of tokens.now)
        (told_of told.now)) }
{
    if !waiting.is_empty() {
        return jumps(alloc, waiting);
    }
    if decided.holds.is_some() {
        return Ok(Cause::By(open_by(alloc, tokens, told)?));
    }
    Ok(Cause::By(decided.by))
}

/// A reason.
fn reasoned(at: Place, asks: Option<bool>, cause: Cause<'_>) -> Reason<'_>
    ensures { reason_of result ≡ Reasons.reason (turn_of at) asks (cause_of cause.entry) }
{
    Reason {
        file: at.file,
        line: at.line,
        asks,
        cause,
    }
}

/// Of a line that is tried, by its lookups that are told.
fn by_told<'a>(
    alloc: Global,
    at: (Place, &[&'a [u8]]),
    decided: Decided<'a>,
    tokens: &'a [Token],
    told: &[Told<'a>],
) -> Result<Reason<'a>, AllocError>
    ensures { IfOk result (λ r. reason_of r ≡ Reasons.by_told (map text_of at.entry.1.now)
        decided.entry.holds (map token_in decided.entry.by.items) (map token_of tokens.now)
        (turn_of at.entry.0) (map told_of told.now)) }
{
    let (place, waiting) = at;
    match told.split_first() {
        None => {
            let first = run_first(alloc, tokens)?;
            Ok(reasoned(place, Some(false), Cause::By(first)))
        }
        Some((one, _)) => {
            if one.certain {
                return Ok(reasoned(place, Some(true), Cause::By(Vec::new(alloc))));
            }
            let doubt = doubt(alloc, waiting, decided, tokens, one)?;
            Ok(reasoned(place, None, doubt))
        }
    }
}

/// Of a line that some way comes to.
pub(crate) fn by_holds<'a>(
    alloc: Global,
    at: (Place, &[&'a [u8]]),
    decided: Decided<'a>,
    tokens: &'a [Token],
    told: &[Told<'a>],
) -> Result<Reason<'a>, AllocError>
    ensures { IfOk result (λ r. reason_of r ≡ Reasons.by_holds (map text_of at.entry.1.now)
        decided.entry.holds (map token_in decided.entry.by.items) (map token_of tokens.now)
        (turn_of at.entry.0) (map told_of told.now)) }
{
    if is_no(decided.holds) {
        return Ok(reasoned(at.0, Some(false), Cause::By(decided.by)));
    }
    by_told(alloc, at, decided, tokens, told)
}

/// Of a line that no way comes to, if it has a lookup.
pub(crate) fn add_past<'a>(
    alloc: Global,
    reasons: &mut Vec<Reason<'a>>,
    waiting: &[&'a [u8]],
    at: Place,
    line: &RuleLine,
) -> Result<(), AllocError>
    ensures { OnOk result (map reason_of reasons.new.items ≡ map reason_of reasons.old.items
        ++ Reasons.reasons_past (map text_of waiting.now) (turn_of at) (line_of line.now)) }
{
    if !has_lookup(&line.tokens) {
        return Ok(());
    }
    let cause = jumps(alloc, waiting)?;
    reasons.push(reasoned(at, Some(false), cause))?;
    Ok(())
}

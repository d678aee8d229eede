//! The samples of one key of two sides.
ghost use Rattle.std.specs.Prelude.{◌≡◌, ◌++◌, find, map, IfOk, OnOk};
ghost use Rattle.hwdb_spec.specs.Patterns.{token_at};
ghost use Rattle.hwdb_spec_commands.specs.FormTable.{asked};
ghost use Rattle.hwdb_spec_commands.specs.FormTexts.{filled, text_among, widened};
ghost use Rattle.hwdb_spec_commands.specs.SamplesFound as spec;
ghost use Rattle.hwdb_forms.specs.Internal.{views};
ghost use Rattle.hwdb_samples.specs.Levels.{AreLevels};
ghost use Rattle.hwdb_samples.specs.Views.{device_in, found_shown, own_text, rule_texts, sample_texts};

use crate::agreement::{agree, near};
use crate::changes::changed;
use crate::levels::{Level, begins_with, deepen};
use crate::rules::{Rule, given, is_match, same_value};
use crate::texts::text_of;
use hwdb_forms::asked_text;
use hwdb_pattern::{begins_star, token_texts};
use std::alloc::{AllocError, Global};

/// How many tokens a pattern may have of which a text is looked for that udev may ask.
const MOST_TOKENS: usize = 400;

/// A device made of a pattern, which two sides give something else.
#[derive(Debug, Drop)]
pub struct Sample<'t> {
    /// The pattern.
    pub pattern: &'t [u8],
    /// The device.
    pub device: Vec<u8>,
}

/// What is found of two sides.
#[derive(Debug, Drop)]
pub struct Samples<'t> {
    /// Devices that two sides give something else.
    pub shown: Vec<Sample<'t>>,
    /// Patterns of which it isn't known whether two sides give a device that they match something else.
    pub undecided: Vec<&'t [u8]>,
}

/// The rules of two sides.
#[derive(Clone, Copy, Debug)]
pub(crate) struct OldNew<'r, 't> {
    pub old: &'r [Rule<'t>],
    pub new: &'r [Rule<'t>],
}

/// Whether a pattern matches a device, and two sides give it something else.
fn shows(old: &[Rule<'_>], new: &[Rule<'_>], pattern: &[u8], device: &[u8]) -> bool
    ensures { result ≡ spec.shows (map rule_texts old.now) (map rule_texts new.now)
        pattern.now device.now }
{
    is_match(device, pattern) && !same_value(given(device, old), given(device, new))
}

/// The text, if there is one and it shows a change.
fn if_shown(
    old: &[Rule<'_>],
    new: &[Rule<'_>],
    pattern: &[u8],
    text: Option<Vec<u8>>,
) -> Option<Vec<u8>>
    ensures { device_in result
        ≡ find (spec.shows (map rule_texts old.now) (map rule_texts new.now) pattern.now)
        (spec.some_text (device_in text)) }
{
    match text {
        None => None,
        Some(device) => {
            if shows(old, new, pattern, &device) {
                Some(device)
            } else {
                None
            }
        }
    }
}

/// Adds the tokens that stand for a token: a star takes a byte or more.
#[tactic(auto, unfolding(hwdb_spec::specs::Patterns::token_at))]
fn push_widened<'p>(wide: &mut Vec<&'p [u8]>, token: &'p [u8]) -> Result<(), AllocError>
    ensures { OnOk result (views wide.new.items
        ≡ views wide.old.items ++ widened (token_at token.now)) }
{
    if begins_star(token) {
        wide.push(b"?")?;
        wide.push(b"*")?;
    } else {
        wide.push(token)?;
    }
    Ok(())
}

/// The tokens of which each star takes a byte or more.
fn filled<'p>(alloc: Global, tokens: &[&'p [u8]]) -> Result<Vec<&'p [u8]>, AllocError>
    ensures { IfOk result (λ wide. views wide.items ≡ filled (views tokens.now)) }
{
    let mut wide = Vec::new(alloc);
    for token in tokens {
        push_widened(&mut wide, *token)?;
    }
    Ok(wide)
}

/// The shortest text that udev may ask and that the tokens match, if it shows a change.
fn asked_sample(
    alloc: Global,
    old: &[Rule<'_>],
    new: &[Rule<'_>],
    pattern: &[u8],
    tokens: &[&[u8]],
) -> Result<Option<Vec<u8>>, AllocError>
    ensures { IfOk result (λ found. device_in found
        ≡ find (spec.shows (map rule_texts old.now) (map rule_texts new.now) pattern.now)
        (spec.some_text (text_among asked (views tokens.now)))) }
{
    let text = asked_text(alloc, tokens)?;
    Ok(if_shown(old, new, pattern, text))
}

/// A text that shows a change: one without the pattern's stars, or else with a 0 for each.
fn plain_sample(
    alloc: Global,
    old: &[Rule<'_>],
    new: &[Rule<'_>],
    pattern: &[u8],
) -> Result<Option<Vec<u8>>, AllocError>
    ensures { IfOk result (λ found. device_in found
        ≡ find (spec.shows (map rule_texts old.now) (map rule_texts new.now) pattern.now)
        (spec.plain_texts pattern.now)) }
{
    let short = text_of(alloc, pattern, b"")?;
    if shows(old, new, pattern, &short) {
        return Ok(Some(short));
    }
    let longer = text_of(alloc, pattern, b"0")?;
    if shows(old, new, pattern, &longer) {
        return Ok(Some(longer));
    }
    Ok(None)
}

/// The first of four texts that shows a change. The first two are such as udev asks, with what the pattern's stars need or with more.
fn short_sample(
    alloc: Global,
    old: &[Rule<'_>],
    new: &[Rule<'_>],
    pattern: &[u8],
    tokens: &[&[u8]],
) -> Result<Option<Vec<u8>>, AllocError>
    ensures { IfOk result (λ found. device_in found
        ≡ find (spec.shows (map rule_texts old.now) (map rule_texts new.now) pattern.now)
        (spec.some_text (text_among asked (views tokens.now))
        ++ (spec.some_text (text_among asked (filled (views tokens.now)))
        ++ spec.plain_texts pattern.now))) }
{
    if let Some(device) = asked_sample(alloc, old, new, pattern, tokens)? {
        return Ok(Some(device));
    }
    let wide = filled(alloc, tokens)?;
    if let Some(device) = asked_sample(alloc, old, new, pattern, &wide)? {
        return Ok(Some(device));
    }
    plain_sample(alloc, old, new, pattern)
}

/// A sample of a pattern, if one is found: the first text to try that shows a change.
fn sample_of(
    alloc: Global,
    old: &[Rule<'_>],
    new: &[Rule<'_>],
    pattern: &[u8],
) -> Result<Option<Vec<u8>>, AllocError>
    ensures { IfOk result (λ found. device_in found
        ≡ spec.sample_of (map rule_texts old.now) (map rule_texts new.now) pattern.now) }
{
    let tokens = token_texts(alloc, pattern)?;
    if tokens.len() > MOST_TOKENS {
        return plain_sample(alloc, old, new, pattern);
    }
    short_sample(alloc, old, new, pattern, &tokens)
}

/// Looks for a sample of a pattern, among rules that may match its devices. If none is found, and it isn't seen that there is none,
/// the pattern is undecided.
fn look_for<'t>(
    alloc: Global,
    old: &[Rule<'t>],
    new: &[Rule<'t>],
    pattern: &'t [u8],
    found: &mut Samples<'t>,
) -> Result<(), AllocError>
    ensures shown { OnOk result (map sample_texts found.new.shown.items
        ≡ map sample_texts found.old.shown.items ++ spec.shown_by pattern.now (spec.sample_of
        (map rule_texts old.now) (map rule_texts new.now) pattern.now)) }
    ensures undecided { OnOk result (map own_text found.new.undecided.items
        ≡ map own_text found.old.undecided.items ++ spec.undecided_by pattern.now (spec.sample_of
        (map rule_texts old.now) (map rule_texts new.now) pattern.now)
        (spec.agree (map rule_texts old.now) (map rule_texts new.now) pattern.now)) }
{
    match sample_of(alloc, old, new, pattern)? {
        Some(device) => found.shown.push(Sample { pattern, device })?,
        None => {
            if !agree(alloc, old, new, pattern)? {
                found.undecided.push(pattern)?;
            }
        }
    }
    Ok(())
}

/// Looks for a sample of a pattern, among rules of which some may match its devices.
fn examine<'t>(
    alloc: Global,
    old: &[Rule<'t>],
    new: &[Rule<'t>],
    pattern: &'t [u8],
    found: &mut Samples<'t>,
) -> Result<(), AllocError>
    ensures shown { OnOk result (map sample_texts found.new.shown.items
        ≡ map sample_texts found.old.shown.items
        ++ spec.shown_of (map rule_texts old.now) (map rule_texts new.now) pattern.now) }
    ensures undecided { OnOk result (map own_text found.new.undecided.items
        ≡ map own_text found.old.undecided.items
        ++ spec.undecided_of (map rule_texts old.now) (map rule_texts new.now) pattern.now) }
{
    let before = near(alloc, pattern, old)?;
    let after = near(alloc, pattern, new)?;
    look_for(alloc, &before, &after, pattern, found)?;
    Ok(())
}

/// Looks for a sample of a pattern, among the rules of the last level if this is of the pattern, or among all.
fn examine_at<'t>(
    alloc: Global,
    rules: OldNew<'_, 't>,
    pattern: &'t [u8],
    levels: &[Level<'t>],
    found: &mut Samples<'t>,
) -> Result<(), AllocError>
    requires { AreLevels (map rule_texts rules.old.now) (map rule_texts rules.new.now)
        levels.now }
    ensures shown { OnOk result (map sample_texts found.new.shown.items
        ≡ map sample_texts found.old.shown.items
        ++ spec.shown_of (map rule_texts rules.entry.old.now)
        (map rule_texts rules.entry.new.now) pattern.now) }
    ensures undecided { OnOk result (map own_text found.new.undecided.items
        ≡ map own_text found.old.undecided.items
        ++ spec.undecided_of (map rule_texts rules.entry.old.now)
        (map rule_texts rules.entry.new.now) pattern.now) }
{
    if levels.is_empty() {
        examine(alloc, rules.old, rules.new, pattern, found)?;
        return Ok(());
    }
    let last = &levels[levels.len() - 1];
    if begins_with(pattern, last.front) {
        examine(alloc, &last.old, &last.new, pattern, found)?;
        return Ok(());
    }
    examine(alloc, rules.old, rules.new, pattern, found)?;
    Ok(())
}

/// The samples of the rules of one key of two sides, each in the order in which they count, the last one first of all.
///
/// If nothing is shown and nothing is undecided, both sides give each device the same.
pub fn samples_of<'t>(
    alloc: Global,
    old: &[Rule<'t>],
    new: &[Rule<'t>],
) -> Result<Samples<'t>, AllocError>
    ensures { IfOk result (λ found. found_shown found
        ≡ spec.samples_of (map rule_texts old.now) (map rule_texts new.now)) }
{
    let mut found = Samples {
        shown: Vec::new(alloc),
        undecided: Vec::new(alloc),
    };
    let patterns = changed(alloc, old, new)?;
    let mut levels = Vec::new(alloc);
    for pattern in &patterns {
        deepen(alloc, old, new, *pattern, &mut levels)?;
        examine_at(alloc, OldNew { old, new }, *pattern, &levels, &mut found)?;
    }
    Ok(found)
}

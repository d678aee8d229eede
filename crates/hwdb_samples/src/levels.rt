//! The rules that may match the devices of a pattern, for many patterns in their order.
//!
//! Patterns that come one after another begin alike. So rules are kept that may match a device of some front of the last pattern, of a
//! longer and a longer one: for the next pattern only few are gone through. Each level is checked before it is used.
ghost use Rattle.std.specs.Prelude.{◌≡◌, nat_eq, map, IfOk, IfSome, OnOk, List};
ghost use Rattle.std.specs.List.{starts_with};
ghost use Rattle.hwdb_spec_commands.specs.SamplesFound as spec;
ghost use Rattle.hwdb_samples.specs.Levels.{AreLevels, IsLevel};
ghost use Rattle.hwdb_spec_commands.specs.SampleRules.{RuleTexts};
ghost use Rattle.hwdb_samples.specs.Views.{rule_texts};

use crate::agreement::near;
use crate::overlap::is_plain;
use crate::rules::Rule;
use std::alloc::{AllocError, Global};

/// So few rules are gone through at once.
const FEW: usize = 32;

/// The rules of two sides that may match a device of a front.
#[derive(Drop)]
pub(crate) struct Level<'t> {
    pub front: &'t [u8],
    pub old: Vec<Rule<'t>>,
    pub new: Vec<Rule<'t>>,
}

/// Whether a text begins with another one.
pub(crate) fn begins_with(text: &[u8], front: &[u8]) -> bool
    ensures { result ≡ starts_with nat_eq text.now front.now }
{
    text.starts_with(front)
}

/// Takes the levels away that aren't of this pattern.
fn drop_others(levels: &mut Vec<Level<'_>>, pattern: &[u8])
    ensures { (old new : List RuleTexts) → AreLevels old new levels.old.items
        → AreLevels old new levels.new.items }
{
    while !levels.is_empty() && !begins_with(pattern, levels[levels.len() - 1].front) {
        let _ = levels.pop();
    }
}

/// The level after one with these rules, of the next longer front.
fn level_after<'t>(
    alloc: Global,
    front: &'t [u8],
    old: &[Rule<'t>],
    new: &[Rule<'t>],
) -> Result<Level<'t>, AllocError>
    ensures front { IfOk result (λ l. l.front.now ≡ front.now) }
    ensures old { IfOk result
        (λ l. map rule_texts l.old.items ≡ spec.near front.now (map rule_texts old.now)) }
    ensures new { IfOk result
        (λ l. map rule_texts l.new.items ≡ spec.near front.now (map rule_texts new.now)) }
{
    Ok(Level {
        front,
        old: near(alloc, front, old)?,
        new: near(alloc, front, new)?,
    })
}

/// Whether a longer front of the pattern leaves fewer rules.
fn is_worth(pattern: &[u8], size: usize, rules: usize) -> bool {
    if size >= pattern.len() {
        return false;
    }
    rules > FEW && is_plain(pattern[size])
}

/// The level after the last one, of a front that is longer by one byte, if it is worth it.
fn longer_level<'t>(
    alloc: Global,
    pattern: &'t [u8],
    last: &Level<'t>,
) -> Result<Option<Level<'t>>, AllocError>
    ensures { IfOk result (λ next. IfSome next (λ l. (old new : List RuleTexts)
        → IsLevel old new last.now → IsLevel old new l)) }
{
    let size = last.front.len();
    if !is_worth(pattern, size, last.old.len().saturating_add(last.new.len())) {
        return Ok(None);
    }
    if size >= pattern.len() {
        return Ok(None);
    }
    let front = &pattern[..size + 1];
    if !begins_with(front, last.front) {
        return Ok(None);
    }
    let level = level_after(alloc, front, &last.old, &last.new)?;
    Ok(Some(level))
}

/// The first level of a pattern, if it is worth it.
fn first_level<'t>(
    alloc: Global,
    old: &[Rule<'t>],
    new: &[Rule<'t>],
    pattern: &'t [u8],
) -> Result<Option<Level<'t>>, AllocError>
    ensures { IfOk result (λ next. IfSome next (λ l.
        IsLevel (map rule_texts old.now) (map rule_texts new.now) l)) }
{
    if !is_worth(pattern, 0, old.len().saturating_add(new.len())) {
        return Ok(None);
    }
    let level = level_after(alloc, b"", old, new)?;
    Ok(Some(level))
}

/// The next level of a pattern, if it is worth it.
fn next_level<'t>(
    alloc: Global,
    old: &[Rule<'t>],
    new: &[Rule<'t>],
    pattern: &'t [u8],
    levels: &[Level<'t>],
) -> Result<Option<Level<'t>>, AllocError>
    requires { AreLevels (map rule_texts old.now) (map rule_texts new.now) levels.now }
    ensures { IfOk result (λ next. IfSome next (λ l.
        IsLevel (map rule_texts old.now) (map rule_texts new.now) l)) }
{
    if levels.is_empty() {
        return first_level(alloc, old, new, pattern);
    }
    let last = &levels[levels.len() - 1];
    let next = longer_level(alloc, pattern, last)?;
    Ok(next)
}

/// Adds the levels of a pattern.
pub(crate) fn deepen<'t>(
    alloc: Global,
    old: &[Rule<'t>],
    new: &[Rule<'t>],
    pattern: &'t [u8],
    levels: &mut Vec<Level<'t>>,
) -> Result<(), AllocError>
    requires { AreLevels (map rule_texts old.now) (map rule_texts new.now) levels.old.items }
    ensures { OnOk result
        (AreLevels (map rule_texts old.now) (map rule_texts new.now) levels.new.items) }
{
    drop_others(levels, pattern);
    let mut left = pattern.len();
    while left > 0 {
        left -= 1;
        let Some(level) = next_level(alloc, old, new, pattern, levels)? else {
            return Ok(());
        };
        levels.push(level)?;
    }
    Ok(())
}

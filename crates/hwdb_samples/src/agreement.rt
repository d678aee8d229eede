//! Whether two sides give the same to each device that a pattern matches.
//!
//! The rules of each side are gone through in their order, but for those that match none of these devices. A rule that matches all of
//! them gives them one value, and what came before doesn't count. What is left is a value, and rules that may change it.
ghost use Rattle.std.specs.Prelude.{◌≡◌, ◌++◌, ◌∷◌, [], None, map, IfOk, OnOk};
ghost use Rattle.hwdb_spec_commands.specs.SamplesFound as spec;
ghost use Rattle.hwdb_samples.specs.Views.{counted_shown, rule_texts};

use crate::overlap::{apart, covers};
use crate::rules::{Rule, same_rule, same_value};
use std::alloc::{AllocError, Global};

/// A value that all devices have, and rules that may change it.
#[derive(Drop)]
pub(crate) struct Counted<'t> {
    pub base: Option<&'t [u8]>,
    pub rest: Vec<Rule<'t>>,
}

/// Adds a rule if it may match a device that the pattern matches. The only error, here and below, is `AllocError`.
fn push_if_near<'t>(
    near: &mut Vec<Rule<'t>>,
    pattern: &[u8],
    rule: Rule<'t>,
) -> Result<(), AllocError>
    ensures { OnOk result (map rule_texts near.new.items ≡ map rule_texts near.old.items
        ++ spec.near pattern.now (rule_texts rule.entry ∷ [])) }
{
    if !apart(pattern, rule.pattern) {
        near.push(rule)?;
    }
    Ok(())
}

/// The rules that may match one of these devices.
pub(crate) fn near<'t>(
    alloc: Global,
    pattern: &[u8],
    rules: &[Rule<'t>],
) -> Result<Vec<Rule<'t>>, AllocError>
    ensures { IfOk result (λ near. map rule_texts near.items
        ≡ spec.near pattern.now (map rule_texts rules.now)) }
{
    let mut near = Vec::new(alloc);
    for rule in rules {
        push_if_near(&mut near, pattern, *rule)?;
    }
    Ok(near)
}

/// Whether a rule with a value changes nothing.
fn is_idle(counted: &Counted<'_>, value: &[u8]) -> bool
    ensures { result ≡ spec.is_idle (counted_shown counted.now) value.now }
{
    if counted.rest.is_empty() {
        return same_value(counted.base, Some(value));
    }
    false
}

/// What counts after a rule.
fn counted_after<'t>(
    alloc: Global,
    pattern: &[u8],
    before: Counted<'t>,
    rule: Rule<'t>,
) -> Result<Counted<'t>, AllocError>
    ensures { IfOk result (λ after. counted_shown after
        ≡ spec.counted_after pattern.now (counted_shown before.entry) (rule_texts rule.entry)) }
{
    if covers(alloc, rule.pattern, pattern)? {
        return Ok(Counted {
            base: Some(rule.value),
            rest: Vec::new(alloc),
        });
    }
    if is_idle(&before, rule.value) {
        return Ok(before);
    }
    let Counted { base, mut rest } = before;
    rest.push(rule)?;
    Ok(Counted { base, rest })
}

/// What counts of some rules.
fn counted_of<'t>(
    alloc: Global,
    pattern: &[u8],
    rules: &[Rule<'t>],
) -> Result<Counted<'t>, AllocError>
    ensures { IfOk result (λ counted. counted_shown counted
        ≡ spec.counted pattern.now (map rule_texts rules.now)) }
{
    let mut counted = Counted {
        base: None,
        rest: Vec::new(alloc),
    };
    for rule in rules {
        counted = counted_after(alloc, pattern, counted, *rule)?;
    }
    Ok(counted)
}

/// Whether some rules are the same as others.
fn same_rules(one: &[Rule<'_>], other: &[Rule<'_>]) -> bool
    ensures { result ≡ spec.same_rules (map rule_texts one.now) (map rule_texts other.now) }
{
    let mut at = 0;
    while at < one.len() {
        if at >= other.len() {
            return false;
        }
        if !same_rule(&one[at], &other[at]) {
            return false;
        }
        at += 1;
    }
    at == other.len()
}

/// Whether two sides are seen to give the same to each device that the pattern matches.
pub(crate) fn agree(
    alloc: Global,
    old: &[Rule<'_>],
    new: &[Rule<'_>],
    pattern: &[u8],
) -> Result<bool, AllocError>
    ensures { IfOk result (λ yes. yes
        ≡ spec.agree (map rule_texts old.now) (map rule_texts new.now) pattern.now) }
{
    let one = counted_of(alloc, pattern, old)?;
    let other = counted_of(alloc, pattern, new)?;
    Ok(same_value(one.base, other.base) && same_rules(&one.rest, &other.rest))
}

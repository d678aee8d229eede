//! The patterns of rules that one side alone has, or that come in another order.
ghost use Rattle.std.specs.Prelude.{◌≡◌, ◌++◌, ◌∷◌, List, ℕ, [], None, map, IfOk, OnOk};
ghost use Rattle.hwdb_spec.specs.Assignment.{in_order, text_cmp};
ghost use Rattle.hwdb_spec_commands.specs.SamplesFound as spec;
ghost use Rattle.hwdb_samples.specs.Internal.{IsLasts, IsSetOf};
ghost use Rattle.hwdb_spec_commands.specs.SampleRules.{RuleTexts};
ghost use Rattle.hwdb_samples.specs.Views.{own_text, rule_texts};

use crate::rules::{Rule, same_rule, same_value};
use std::alloc::{AllocError, Global};
use std::collections::{BTreeMap, BTreeSet};

/// What the last rule with each pattern gives. The only error, here and below, is `AllocError`.
fn lasts<'t>(alloc: Global, rules: &[Rule<'t>]) -> Result<BTreeMap<&'t [u8], &'t [u8]>, AllocError>
    ensures { IfOk result (λ lasts. IsLasts (map rule_texts rules.now) lasts) }
{
    let mut lasts = BTreeMap::new(alloc);
    for rule in rules {
        lasts.insert(rule.pattern, rule.value)?;
    }
    Ok(lasts)
}

/// Whether a rule is one of those of the other side.
fn is_kept(other: &BTreeMap<&[u8], &[u8]>, rule: Rule<'_>) -> bool
    ensures { (rules : List RuleTexts) → IsLasts rules other.now
        → result ≡ spec.is_kept rules (rule_texts rule.entry) }
{
    match other.get(rule.pattern) {
        Some(value) => same_value(Some(*value), Some(rule.value)),
        None => false,
    }
}

/// Adds a rule that the other side has too to `kept`, and the pattern of another one to `listed`.
fn sort_out<'t>(
    other: &BTreeMap<&'t [u8], &'t [u8]>,
    rule: Rule<'t>,
    kept: &mut Vec<Rule<'t>>,
    listed: &mut Vec<&'t [u8]>,
) -> Result<(), AllocError>
    ensures kept { OnOk result ((rules : List RuleTexts) → IsLasts rules other.now
        → map rule_texts kept.new.items
        ≡ map rule_texts kept.old.items ++ spec.kept rules (rule_texts rule.entry ∷ [])) }
    ensures listed { OnOk result ((rules : List RuleTexts) → IsLasts rules other.now
        → map own_text listed.new.items
        ≡ map own_text listed.old.items ++ spec.lone rules (rule_texts rule.entry ∷ [])) }
{
    if is_kept(other, rule) {
        kept.push(rule)?;
    } else {
        listed.push(rule.pattern)?;
    }
    Ok(())
}

/// The rules of one side that the other one has too. The patterns of the rest are added to `listed`.
fn kept_of<'t>(
    alloc: Global,
    other: &BTreeMap<&'t [u8], &'t [u8]>,
    one: &[Rule<'t>],
    listed: &mut Vec<&'t [u8]>,
) -> Result<Vec<Rule<'t>>, AllocError>
    ensures kept { IfOk result (λ kept. (rules : List RuleTexts) → IsLasts rules other.now
        → map rule_texts kept.items ≡ spec.kept rules (map rule_texts one.now)) }
    ensures listed { IfOk result (λ _. (rules : List RuleTexts) → IsLasts rules other.now
        → map own_text listed.new.items
        ≡ map own_text listed.old.items ++ spec.lone rules (map rule_texts one.now)) }
{
    let mut kept = Vec::new(alloc);
    for rule in one {
        sort_out(other, *rule, &mut kept, listed)?;
    }
    Ok(kept)
}

/// Adds the patterns of some rules.
fn push_patterns<'t>(listed: &mut Vec<&'t [u8]>, rules: &[Rule<'t>]) -> Result<(), AllocError>
    ensures { OnOk result (map own_text listed.new.items
        ≡ map own_text listed.old.items ++ map spec.pattern_of (map rule_texts rules.now)) }
{
    for rule in rules {
        listed.push(rule.pattern)?;
    }
    Ok(())
}

/// Adds the patterns of two rules if they differ.
fn push_differing<'t>(
    listed: &mut Vec<&'t [u8]>,
    one: Rule<'t>,
    other: Rule<'t>,
) -> Result<(), AllocError>
    ensures { OnOk result (map own_text listed.new.items ≡ map own_text listed.old.items
        ++ spec.differing (rule_texts one.entry) (rule_texts other.entry)) }
{
    if !same_rule(&one, &other) {
        listed.push(one.pattern)?;
        listed.push(other.pattern)?;
    }
    Ok(())
}

/// Adds the patterns of both lists at the places where they differ.
fn push_moved<'t>(
    listed: &mut Vec<&'t [u8]>,
    one: &[Rule<'t>],
    other: &[Rule<'t>],
) -> Result<(), AllocError>
    ensures { OnOk result (map own_text listed.new.items ≡ map own_text listed.old.items
        ++ spec.moved (map rule_texts one.now) (map rule_texts other.now)) }
{
    let mut at = 0;
    while at < one.len() {
        if at >= other.len() {
            push_patterns(listed, &one[at..])?;
            return Ok(());
        }
        push_differing(listed, one[at], other[at])?;
        at += 1;
    }
    push_patterns(listed, &other[at..])?;
    Ok(())
}

/// The patterns of rules that one side alone has, or that come in another order.
fn listed<'t>(
    alloc: Global,
    old: &[Rule<'t>],
    new: &[Rule<'t>],
) -> Result<Vec<&'t [u8]>, AllocError>
    ensures { IfOk result (λ listed. map own_text listed.items
        ≡ spec.listed (map rule_texts old.now) (map rule_texts new.now)) }
{
    let before = lasts(alloc, old)?;
    let after = lasts(alloc, new)?;
    let mut listed = Vec::new(alloc);
    let old_kept = kept_of(alloc, &after, old, &mut listed)?;
    let new_kept = kept_of(alloc, &before, new, &mut listed)?;
    push_moved(&mut listed, &old_kept, &new_kept)?;
    Ok(listed)
}

/// Some texts as a set.
fn set_of<'t>(alloc: Global, texts: &[&'t [u8]]) -> Result<BTreeSet<&'t [u8]>, AllocError>
    ensures { IfOk result (λ set. IsSetOf (map own_text texts.now) set) }
{
    let mut set = BTreeSet::new(alloc);
    for text in texts {
        set.insert(*text)?;
    }
    Ok(set)
}

/// Some texts in order, each once.
fn ordered<'t>(alloc: Global, texts: &[&'t [u8]]) -> Result<Vec<&'t [u8]>, AllocError>
    ensures { IfOk result (λ list. map own_text list.items
        ≡ in_order text_cmp (map own_text texts.now)) }
{
    let mut list = Vec::new(alloc);
    let set = set_of(alloc, texts)?;
    for text in set {
        list.push(text)?;
    }
    Ok(list)
}

/// The same patterns, ascending. A device that none of them matches is given the same.
pub(crate) fn changed<'t>(
    alloc: Global,
    old: &[Rule<'t>],
    new: &[Rule<'t>],
) -> Result<Vec<&'t [u8]>, AllocError>
    ensures { IfOk result (λ found. map own_text found.items
        ≡ spec.changed (map rule_texts old.now) (map rule_texts new.now)) }
{
    let listed = listed(alloc, old, new)?;
    ordered(alloc, &listed)
}

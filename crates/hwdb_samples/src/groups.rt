//! The samples of all keys of two sides.
//!
//! The rules of both sides are collected by key, in one pass over each side. Each key is then looked at by itself.
ghost use Rattle.std.specs.Prelude.{◌≡◌, ◌∷◌, List, ℕ, [], IfOk, OnOk, Some, map, if◌then◌else◌};
ghost use Rattle.std.specs.Ordering.{is_eq};
ghost use Rattle.hwdb_spec.specs.Assignment.{text_cmp};
ghost use Rattle.hwdb_spec_commands.specs.SamplesFound as spec;
ghost use Rattle.hwdb_samples.specs.Groups.{AreAllFound, Both, IsFound, both_at, both_in, or_none, rules_at, some_both, with_rules};
ghost use Rattle.hwdb_samples.specs.Views.{key_shown, property_texts};

use crate::rules::Rule;
use crate::samples::{Samples, samples_of};
use std::alloc::{AllocError, Global};
use std::collections::BTreeMap;

/// What a line of a text file gives: a key, and a rule of that key.
#[derive(Clone, Copy, Debug)]
pub struct Property<'t> {
    /// The key.
    pub key: &'t [u8],
    /// The pattern, and the value.
    pub rule: Rule<'t>,
}

/// What is found of a key.
#[derive(Debug, Drop)]
pub struct KeySamples<'t> {
    /// The key.
    pub key: &'t [u8],
    /// What is found.
    pub found: Samples<'t>,
}

/// One of two sides.
#[derive(Clone, Copy, Debug)]
pub(crate) enum Side {
    /// The old one.
    Old,
    /// The new one.
    New,
}

/// The rules of a key.
#[derive(Drop)]
pub(crate) struct Sides<'t> {
    /// Those of the old side.
    pub before: Vec<Rule<'t>>,
    /// Those of the new side.
    pub after: Vec<Rule<'t>>,
}

/// The rules of each key so far.
#[derive(Drop)]
pub(crate) struct Groups<'t> {
    pub sides: BTreeMap<&'t [u8], Sides<'t>>,
}

impl<'t> Sides<'t> {
    /// No rules.
    fn new(alloc: Global) -> Sides<'t>
        ensures { both_in result ≡ ([], []) }
    {
        Sides {
            before: Vec::new(alloc),
            after: Vec::new(alloc),
        }
    }

    /// Adds a rule to a side.
    fn push(&mut self, side: Side, rule: Rule<'t>) -> Result<(), AllocError>
        ensures { OnOk result
            (both_in self.new ≡ with_rules side (rule.entry ∷ []) (both_in self.old)) }
    {
        match side {
            Side::Old => self.before.push(rule)?,
            Side::New => self.after.push(rule)?,
        }
        Ok(())
    }
}

/// What is found of the rules of a key.
fn found_of<'t>(
    alloc: Global,
    key: &'t [u8],
    sides: &Sides<'t>,
) -> Result<KeySamples<'t>, AllocError>
    ensures key { IfOk result (λ s. s.key.now ≡ key.now) }
    ensures found { IfOk result (λ s.
        IsFound sides.now.before.items sides.now.after.items s.found) }
{
    let found = samples_of(alloc, &sides.before, &sides.after)?;
    Ok(KeySamples { key, found })
}

impl<'t> Groups<'t> {
    /// No keys.
    fn new(alloc: Global) -> Groups<'t>
        ensures { result.sides.entries ≡ [] }
    {
        Groups {
            sides: BTreeMap::new(alloc),
        }
    }

    /// Adds a rule to a side of its key.
    fn add(&mut self, alloc: Global, side: Side, property: Property<'t>) -> Result<(), AllocError>
        ensures { OnOk result ((key : List ℕ) → both_at self.new key
            ≡ (if is_eq (text_cmp key property.entry.key.now)
            then Some (with_rules side (property.entry.rule ∷ []) (or_none (both_at self.old key)))
            else both_at self.old key)) }
    {
        if let Some(sides) = self.sides.get_mut(property.key) {
            sides.push(side, property.rule)?;
            return Ok(());
        }
        let mut sides = Sides::new(alloc);
        sides.push(side, property.rule)?;
        self.sides.insert(property.key, sides)?;
        Ok(())
    }

    /// Adds the rules of a side, each to its key.
    fn add_all(
        &mut self,
        alloc: Global,
        side: Side,
        list: &[Property<'t>],
    ) -> Result<(), AllocError>
        ensures { OnOk result ((key : List ℕ) (both : Both)
            → both_at self.old key ≡ some_both both
            → both_at self.new key ≡ some_both (with_rules side (rules_at key list.now) both)) }
    {
        for property in list {
            self.add(alloc, side, *property)?;
        }
        Ok(())
    }

    /// What is found of each key.
    fn samples(self, alloc: Global) -> Result<Vec<KeySamples<'t>>, AllocError>
        ensures { IfOk result (λ list. AreAllFound self.entry list.items) }
    {
        let mut list = Vec::new(alloc);
        for (key, sides) in self.sides {
            let found = found_of(alloc, key, &sides)?;
            list.push(found)?;
        }
        Ok(list)
    }
}

/// The rules of both sides, by key.
fn grouped<'t>(
    alloc: Global,
    old: &[Property<'t>],
    new: &[Property<'t>],
) -> Result<Groups<'t>, AllocError>
    ensures { IfOk result (λ groups. (key : List ℕ)
        → both_at groups key ≡ some_both (rules_at key old.now, rules_at key new.now)) }
{
    let mut groups = Groups::new(alloc);
    groups.add_all(alloc, Side::Old, old)?;
    groups.add_all(alloc, Side::New, new)?;
    Ok(groups)
}

/// The samples of all keys of two sides, ascending by key. Each side has the last property of each pattern and key, by priority, line,
/// pattern and key. The only error is `AllocError`.
///
/// If nothing is shown of any key and nothing is undecided, both sides give each device the same keys and values.
pub fn samples_by_key<'t>(
    alloc: Global,
    old: &[Property<'t>],
    new: &[Property<'t>],
) -> Result<Vec<KeySamples<'t>>, AllocError>
    ensures { IfOk result (λ list. map key_shown list.items
        ≡ spec.samples_by_key (map property_texts old.now) (map property_texts new.now)) }
{
    let groups = grouped(alloc, old, new)?;
    groups.samples(alloc)
}

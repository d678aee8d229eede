//! What is known of properties while rules run.
ghost use Rattle.std.specs.Prelude.{◌≡◌, ◌++◌, map, nat_eq, false, IfOk, OnOk, unwrap_or};
ghost use Rattle.std.specs.List.{starts_with};
ghost use Rattle.hwdb_rulefiles.specs.RuleKeys.{or_else};
ghost use Rattle.hwdb_rulerun.specs.Views.{known_of};
ghost use Rattle.hwdb_ruleevents.specs.Changes;
ghost use Rattle.hwdb_ruleevents.specs.ChangeViews.{change_of, held_of, known_view, value_of};

use hwdb_rulerun::Known;
use std::alloc::{AllocError, Global};

/// A change of properties.
#[derive(Clone, Copy, Debug)]
pub enum Change<'a> {
    /// A property was set, or was taken away.
    Put(&'a [u8], Known<'a>),
    /// One was whose name begins so, and nothing more is known.
    Open(&'a [u8]),
}

/// What is known of a property's value.
#[derive(Drop)]
pub enum Value {
    /// Nothing.
    Unknown,
    /// That it isn't there.
    Missing,
    /// What it is.
    Text(Vec<u8>),
}

/// A change of properties that has its texts.
#[derive(Drop)]
pub enum Held {
    /// A property was set, or was taken away.
    Put(Vec<u8>, Value),
    /// One was whose name begins so, and nothing more is known.
    Open(Vec<u8>),
}

/// A value with a text of its own.
pub fn value_for(alloc: Global, known: Known<'_>) -> Result<Value, AllocError>
    ensures { IfOk result (λ v. value_of v ≡ known_of known.entry) }
{
    match known {
        Known::Unknown => Ok(Value::Unknown),
        Known::Missing => Ok(Value::Missing),
        Known::Text(text) => Ok(Value::Text(Vec::from_slice(alloc, text)?)),
    }
}

/// A change with texts of its own.
fn copied(alloc: Global, change: Change<'_>) -> Result<Held, AllocError>
    ensures { IfOk result (λ h. held_of h ≡ change_of change.entry) }
{
    match change {
        Change::Put(name, value) => {
            let name = Vec::from_slice(alloc, name)?;
            let value = value_for(alloc, value)?;
            Ok(Held::Put(name, value))
        }
        Change::Open(start) => Ok(Held::Open(Vec::from_slice(alloc, start)?)),
    }
}

/// Changes with texts of their own.
pub fn all_held(alloc: Global, changes: &[Change<'_>]) -> Result<Vec<Held>, AllocError>
    ensures { IfOk result (λ all. map held_of all.items ≡ map change_of changes.now) }
{
    let mut all = Vec::new(alloc);
    for change in changes {
        all.push(copied(alloc, *change)?)?;
    }
    Ok(all)
}

/// What is known of a value.
pub fn known(value: &Value) -> Known<'_>
    ensures { known_of result ≡ value_of value.now }
{
    match value {
        Value::Unknown => Known::Unknown,
        Value::Missing => Known::Missing,
        Value::Text(text) => Known::Text(text.as_slice()),
    }
}

/// What a change says of a property.
fn said<'a>(change: &'a Held, name: &[u8]) -> Option<Known<'a>>
    ensures { known_view result ≡ Changes.said (held_of change.now) name.now }
{
    match change {
        Held::Put(own, value) => {
            if own.as_slice() == name {
                Some(known(value))
            } else {
                None
            }
        }
        Held::Open(start) => {
            if name.starts_with(start.as_slice()) {
                Some(Known::Unknown)
            } else {
                None
            }
        }
    }
}

/// What a change says of a property, or else what was found before it.
fn newer<'a>(change: &'a Held, name: &[u8], found: Option<Known<'a>>) -> Option<Known<'a>>
    ensures { known_view result
        ≡ or_else (Changes.said (held_of change.now) name.now) (known_view found.entry) }
{
    match said(change, name) {
        None => found,
        Some(value) => Some(value),
    }
}

/// What changes say of a property. All are looked at: the time grows with the square of how many lines set properties.
#[tactic(auto, using(crate::proofs::ChangeLemmas::both_said, crate::proofs::ChangeLemmas::no_other))]
fn said_in<'a>(changes: &'a [Held], name: &[u8]) -> Option<Known<'a>>
    ensures { known_view result ≡ Changes.said_in (map held_of changes.now) name.now }
{
    let mut found = None;
    for change in changes {
        found = newer(change, name, found);
    }
    found
}

/// What is known of a property.
pub fn value_in<'a>(changes: &'a [Held], name: &[u8]) -> Known<'a>
    ensures { known_of result ≡ Changes.value_in (map held_of changes.now) name.now }
{
    match said_in(changes, name) {
        None => Known::Missing,
        Some(value) => value,
    }
}

/// What may have changed.
fn perhaps(alloc: Global, change: &Held) -> Result<Held, AllocError>
    ensures { IfOk result (λ h. held_of h ≡ Changes.perhaps (held_of change.now)) }
{
    match change {
        Held::Put(name, _) => Ok(Held::Put(Vec::from_slice(alloc, name)?, Value::Unknown)),
        Held::Open(start) => Ok(Held::Open(Vec::from_slice(alloc, start)?)),
    }
}

/// Adds changes that may have been.
fn put_perhaps(alloc: Global, changes: &mut Vec<Held>, new: &[Held]) -> Result<(), AllocError>
    ensures { OnOk result (map held_of changes.new.items
        ≡ map held_of changes.old.items ++ Changes.by_sure false (map held_of new.now)) }
{
    for change in new {
        changes.push(perhaps(alloc, change)?)?;
    }
    Ok(())
}

/// Adds the changes of something that is run, or that may be run.
#[tactic(auto, using(crate::proofs::ChangeLemmas::all_put))]
pub fn put_all(
    alloc: Global,
    changes: &mut Vec<Held>,
    sure: bool,
    mut new: Vec<Held>,
) -> Result<(), AllocError>
    ensures { OnOk result (map held_of changes.new.items
        ≡ map held_of changes.old.items ++ Changes.by_sure sure (map held_of new.items)) }
{
    if !sure {
        return put_perhaps(alloc, changes, &new);
    }
    changes.append(&mut new)?;
    Ok(())
}

//! The properties that a device has in the end.
ghost use Rattle.std.specs.Prelude.{◌≡◌, map, IfOk, OnOk};
ghost use Rattle.hwdb_spec.specs.Assignment.{in_order, put, put_all, text_cmp};
ghost use Rattle.hwdb_spec_commands.specs.DeviceTexts;
ghost use Rattle.hwdb_spec_commands.specs.DeviceTexts.{key_of_gift};
ghost use Rattle.hwdb_query.specs.Views.{pairs_bytes};
ghost use Rattle.hwdb_device.specs.Views.{gifts_in, outcomes_in};

use crate::gifts::{Gift, given_to};
use std::alloc::{AllocError, Global};
use std::collections::BTreeSet;

/// A key, and what it is given.
#[derive(Drop)]
pub(crate) struct Outcome<'f> {
    /// The key.
    pub(crate) key: Vec<u8>,
    /// What it is given, the last first: that one counts.
    pub(crate) given: Vec<Gift<'f>>,
}

/// Adds a key, unless it is in the set. The only error, here and below, is `AllocError`.
fn add_key(alloc: Global, keys: &mut BTreeSet<Vec<u8>>, key: &[u8]) -> Result<(), AllocError>
    ensures { OnOk result (map (λ k. k.items) keys.new.keys
        ≡ put text_cmp key.now (map (λ k. k.items) keys.old.keys)) }
{
    let key = Vec::from_slice(alloc, key)?;
    keys.insert(key)?;
    Ok(())
}

/// Adds the keys of some properties. It calls itself once for each.
#[tactic(auto, unfolding(hwdb_spec::specs::Assignment::put_all))]
fn add_keys(
    alloc: Global,
    keys: &mut BTreeSet<Vec<u8>>,
    gifts: &[Gift<'_>],
) -> Result<(), AllocError>
    ensures { OnOk result (map (λ k. k.items) keys.new.keys
        ≡ put_all text_cmp (map key_of_gift (gifts_in gifts.now))
        (map (λ k. k.items) keys.old.keys)) }
{
    let Some((first, more)) = gifts.split_first() else {
        return Ok(());
    };
    add_key(alloc, keys, first.key)?;
    add_keys(alloc, keys, more)
}

/// The keys of some properties, each once.
fn key_set(alloc: Global, gifts: &[Gift<'_>]) -> Result<BTreeSet<Vec<u8>>, AllocError>
    ensures { IfOk result (λ keys. map (λ k. k.items) keys.keys
        ≡ in_order text_cmp (map key_of_gift (gifts_in gifts.now))) }
{
    let mut keys = BTreeSet::new(alloc);
    add_keys(alloc, &mut keys, gifts)?;
    Ok(keys)
}

/// For each key what it is given, ascending by key. Takes time in proportion to the keys times the properties.
pub(crate) fn outcomes<'f>(
    alloc: Global,
    gifts: &[Gift<'f>],
) -> Result<Vec<Outcome<'f>>, AllocError>
    ensures { IfOk result (λ outcomes. outcomes_in outcomes.items
        ≡ DeviceTexts.results (gifts_in gifts.now)) }
{
    let mut keys = key_set(alloc, gifts)?;
    let mut outcomes = Vec::new(alloc);
    'keys: while let Some(key) = keys.pop_first() {
        let given = given_to(alloc, &key, gifts)?;
        outcomes.push(Outcome { key, given })?;
    }
    Ok(outcomes)
}

/// The value of the first of some properties; empty if there is none.
pub(crate) fn value_given<'f>(given: &[Gift<'f>]) -> &'f [u8]
    ensures { result.now ≡ DeviceTexts.value_given (gifts_in given.now) }
{
    match given.split_first() {
        Some((first, _more)) => first.value,
        None => b"",
    }
}

/// The properties that a device has in the end, ascending by key.
pub(crate) fn pairs_of_outcomes<'o>(
    alloc: Global,
    outcomes: &'o [Outcome<'_>],
) -> Result<Vec<(&'o [u8], &'o [u8])>, AllocError>
    ensures { IfOk result (λ pairs. pairs_bytes pairs.items
        ≡ map DeviceTexts.value_in_end (outcomes_in outcomes.now)) }
{
    let mut pairs: Vec<(&'o [u8], &'o [u8])> = Vec::new(alloc);
    for outcome in outcomes {
        pairs.push((&outcome.key, value_given(&outcome.given)))?;
    }
    Ok(pairs)
}

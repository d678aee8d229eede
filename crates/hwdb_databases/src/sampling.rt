//! Devices made of the patterns of two databases, which get something else from the new one.
//!
//! All that both assign is held, in the order in which it counts, and then gone through key by key (`hwdb_samples`).
ghost use Rattle.std.specs.Prelude.{◌≡◌, ◌++◌, ◌∷◌, [], flat_map, map, IfOk, OnOk};
ghost use Rattle.hwdb_spec_commands.specs.SampleDevices as spec;
ghost use Rattle.hwdb_samples.specs.Views.{key_shown, own_text, property_texts, sample_texts};
ghost use Rattle.hwdb_databases.specs.Internal.Holding.{slot_in};

use crate::holding::{Kept, Slot, keep};
use crate::listing::ordered;
use crate::pairs::Sides;
use hwdb_samples::{KeySamples, Property, Rule, Sample, samples_by_key};
use std::alloc::{AllocError, Global};

/// Devices that show a change, and patterns of which it isn't known whether there is one. Neither are in order.
#[derive(Drop)]
pub(crate) struct Sampled {
    pub devices: Vec<Vec<u8>>,
    pub undecided: Vec<Vec<u8>>,
}

/// Assignments as rules of keys. The only error, here and below, is `AllocError`.
fn rules_of<'t>(
    alloc: Global,
    patterns: &'t [u8],
    slots: &[Slot<'_, 't>],
) -> Result<Vec<Property<'t>>, AllocError>
    ensures { IfOk result (λ rules. map property_texts rules.items
        ≡ map spec.keyed_texts (map (slot_in patterns.now) slots.now)) }
{
    let mut rules = Vec::with_capacity(alloc, slots.len())?;
    for slot in slots {
        let shown = slot.shown(patterns);
        let rule = Rule {
            pattern: shown.pattern,
            value: shown.member.value,
        };
        rules.push(Property {
            key: shown.member.key,
            rule,
        })?;
    }
    Ok(rules)
}

/// Adds copies of the devices of samples.
fn push_devices(
    alloc: Global,
    devices: &mut Vec<Vec<u8>>,
    shown: &[Sample<'_>],
) -> Result<(), AllocError>
    ensures { OnOk result (map (λ t. t.items) devices.new.items
        ≡ map (λ t. t.items) devices.old.items ++ map (λ s. s.1) (map sample_texts shown.now)) }
{
    for sample in shown {
        devices.push(sample.device.to_vec(alloc)?)?;
    }
    Ok(())
}

/// Adds copies of texts.
fn push_texts(alloc: Global, texts: &mut Vec<Vec<u8>>, more: &[&[u8]]) -> Result<(), AllocError>
    ensures { OnOk result (map (λ t. t.items) texts.new.items
        ≡ map (λ t. t.items) texts.old.items ++ map own_text more.now) }
{
    for text in more {
        texts.push(text.to_vec(alloc)?)?;
    }
    Ok(())
}

impl Sampled {
    /// Adds what is found of a key.
    fn push(&mut self, alloc: Global, key: &KeySamples<'_>) -> Result<(), AllocError>
        ensures devices { OnOk result (map (λ t. t.items) self.new.devices.items
            ≡ map (λ t. t.items) self.old.devices.items ++ spec.devices_shown (key_shown key.now)) }
        ensures undecided { OnOk result (map (λ t. t.items) self.new.undecided.items
            ≡ map (λ t. t.items) self.old.undecided.items
            ++ spec.left_undecided (key_shown key.now)) }
    {
        push_devices(alloc, &mut self.devices, &key.found.shown)?;
        push_texts(alloc, &mut self.undecided, &key.found.undecided)?;
        Ok(())
    }
}

/// What is found of all keys.
fn all_found(alloc: Global, list: &[KeySamples<'_>]) -> Result<Sampled, AllocError>
    ensures devices { IfOk result (λ all. map (λ t. t.items) all.devices.items
        ≡ flat_map spec.devices_shown (map key_shown list.now)) }
    ensures undecided { IfOk result (λ all. map (λ t. t.items) all.undecided.items
        ≡ flat_map spec.left_undecided (map key_shown list.now)) }
{
    let mut all = Sampled {
        devices: Vec::new(alloc),
        undecided: Vec::new(alloc),
    };
    for key in list {
        all.push(alloc, key)?;
    }
    Ok(all)
}

/// What is found between two databases.
pub(crate) fn sampled_between(alloc: Global, sides: Sides<'_, '_>) -> Result<Sampled, AllocError>
    ensures devices { IfOk result (λ all. map (λ t. t.items) all.devices.items ≡ flat_map
        spec.devices_shown (spec.found_between sides.entry.old.now sides.entry.new.now)) }
    ensures undecided { IfOk result (λ all. map (λ t. t.items) all.undecided.items ≡ flat_map
        spec.left_undecided (spec.found_between sides.entry.old.now sides.entry.new.now)) }
{
    let before = keep(alloc, sides.old)?;
    let Kept {
        patterns: old_patterns,
        list: old_list,
    } = before;
    let after = keep(alloc, sides.new)?;
    let Kept {
        patterns: new_patterns,
        list: new_list,
    } = after;
    let old_slots = ordered(alloc, sides.old, &old_patterns, &old_list)?;
    let new_slots = ordered(alloc, sides.new, &new_patterns, &new_list)?;
    let old = rules_of(alloc, &old_patterns, &old_slots)?;
    let new = rules_of(alloc, &new_patterns, &new_slots)?;
    let list = samples_by_key(alloc, &old, &new)?;
    all_found(alloc, &list)
}

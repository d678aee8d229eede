//! What is printed without options: each string, what it gets, and the properties in the end.
ghost use Rattle.std.specs.Prelude.{◌≡◌, ◌++◌, [], flat_map, get_or, map, IfOk, OnOk};
ghost use Rattle.hwdb_spec_commands.specs.DeviceTexts;
ghost use Rattle.hwdb_spec_commands.specs.DeviceTexts.{path_of};
ghost use Rattle.hwdb_sysfs.specs.Views.{ancestor_of, device_of};
ghost use Rattle.hwdb_device.specs.Views.{all_found, gift_in, gifts_in, outcome_in, outcomes_in};
ghost use Rattle.hwdb_ruleasks.specs.Views.{found_of};

use crate::gifts::{Gift, all_gifts};
use crate::outcomes::{Outcome, outcomes};
use crate::strings::push_line;
use crate::told::same;
use hwdb_answers::{explanation_lines, push_property};
use hwdb_ruleasks::Found;
use hwdb_show::push_name;
use hwdb_sysfs::{Ancestor, Device};
use std::alloc::{AllocError, Global};

/// The path of the device at a place; empty if there is none.
fn path_in(chain: &[Ancestor], place: usize) -> &[u8]
    ensures { result.now ≡ get_or (map path_of (map ancestor_of chain.now)) place [] }
{
    if place < chain.len() {
        &chain[place].path
    } else {
        b""
    }
}

/// The path of one of a device and its parents, by after how many others it comes.
pub(crate) fn path_at(device: &Device, place: usize) -> &[u8]
    ensures { result.now ≡ DeviceTexts.path_at (device_of device.now) place }
{
    path_in(&device.chain, place)
}

/// What is added if a string gets nothing.
fn unanswered(found: &Found<'_>) -> &'static [u8]
    ensures { result.now ≡ DeviceTexts.unanswered (found_of found.now).told }
{
    if found.told.is_empty() {
        b": nothing"
    } else {
        b""
    }
}

/// Adds which rules file asks a string, and of what. The only error, here and below, is `AllocError`.
fn push_asker(text: &mut Vec<u8>, device: &Device, found: &Found<'_>) -> Result<(), AllocError>
    ensures { OnOk result (text.new.items ≡ text.old.items
        ++ DeviceTexts.asker_line (device_of device.now) (found_of found.now)) }
{
    text.extend_from_slice(b"  ")?;
    text.extend_from_slice(&found.rule)?;
    text.extend_from_slice(b", of ")?;
    push_name(text, path_at(device, found.parent))?;
    push_line(text, unanswered(found))
}

/// Adds a string, who asks it, and what it gets.
fn push_found(
    alloc: Global,
    text: &mut Vec<u8>,
    device: &Device,
    found: &Found<'_>,
) -> Result<(), AllocError>
    ensures { OnOk result (text.new.items ≡ text.old.items
        ++ DeviceTexts.found_text (device_of device.now) (found_of found.now)) }
{
    let lines = explanation_lines(alloc, &found.told)?;
    push_line(text, &found.text)?;
    push_asker(text, device, found)?;
    push_line(text, &lines)
}

/// Adds some strings.
fn push_all_found(
    alloc: Global,
    text: &mut Vec<u8>,
    device: &Device,
    found: &[Found<'_>],
) -> Result<(), AllocError>
    ensures { OnOk result (text.new.items ≡ text.old.items
        ++ flat_map (DeviceTexts.found_text (device_of device.now)) (all_found found.now)) }
{
    for one in found {
        push_found(alloc, text, device, one)?;
    }
    Ok(())
}

/// Adds a property that is overridden, and the string that gives it.
fn push_overridden(text: &mut Vec<u8>, gift: &Gift<'_>) -> Result<(), AllocError>
    ensures { OnOk result
        (text.new.items ≡ text.old.items ++ DeviceTexts.overridden_lines (gift_in gift.now)) }
{
    text.extend_from_slice(b"  overrides ")?;
    push_property(text, gift.key, gift.value)?;
    text.extend_from_slice(b"    ")?;
    push_line(text, gift.text)
}

/// Adds one after another.
fn push_all_overridden(text: &mut Vec<u8>, gifts: &[Gift<'_>]) -> Result<(), AllocError>
    ensures { OnOk result (text.new.items ≡ text.old.items
        ++ flat_map DeviceTexts.overridden_lines (gifts_in gifts.now)) }
{
    for gift in gifts {
        push_overridden(text, gift)?;
    }
    Ok(())
}

/// Adds a property that the device has in the end, and those that it overrides.
fn push_outcome(text: &mut Vec<u8>, outcome: &Outcome<'_>) -> Result<(), AllocError>
    ensures { OnOk result
        (text.new.items ≡ text.old.items ++ DeviceTexts.result_lines (outcome_in outcome.now)) }
{
    let Some((last, overridden)) = outcome.given.split_first() else {
        return Ok(());
    };
    push_property(text, &outcome.key, last.value)?;
    push_all_overridden(text, overridden)
}

/// Adds the properties that the device has in the end.
fn push_outcomes(text: &mut Vec<u8>, outcomes: &[Outcome<'_>]) -> Result<(), AllocError>
    ensures { OnOk result (text.new.items ≡ text.old.items
        ++ flat_map DeviceTexts.result_lines (outcomes_in outcomes.now)) }
{
    for outcome in outcomes {
        push_outcome(text, outcome)?;
    }
    Ok(())
}

/// Adds a heading, and the properties that the device has in the end; or that there are none.
fn push_results(text: &mut Vec<u8>, outcomes: &[Outcome<'_>]) -> Result<(), AllocError>
    ensures { OnOk result
        (text.new.items ≡ text.old.items ++ DeviceTexts.results_text (outcomes_in outcomes.now)) }
{
    if outcomes.is_empty() {
        return text.extend_from_slice(b"no properties\n");
    }
    text.extend_from_slice(b"properties:\n")?;
    push_outcomes(text, outcomes)
}

/// The subsystem of a device.
pub(crate) fn subsystem_of(device: &Device) -> &[u8]
    ensures { result.now ≡ DeviceTexts.subsystem_of (device_of device.now).chain }
{
    match device.chain.split_first() {
        Some((own, _parents)) => &own.subsystem,
        None => b"",
    }
}

/// What needs more than sysfs and is left out, by the device's subsystem.
fn left_out(subsystem: &[u8]) -> &'static [u8]
    ensures { result.now ≡ DeviceTexts.left_out_text subsystem.now }
{
    if same(subsystem, b"block") {
        b"left out: 90-iocost asks by what the disk itself answers\n"
    } else if same(subsystem, b"net") {
        b"left out: udev asks ethtool for the driver; this is the nearest parent's\n"
    } else if same(subsystem, b"tpmrm") {
        b"left out: 60-tpm2-id asks by what the TPM itself answers\n"
    } else {
        b""
    }
}

/// What is printed without options.
pub(crate) fn lookups_text(
    alloc: Global,
    device: &Device,
    found: &[Found<'_>],
) -> Result<Vec<u8>, AllocError>
    ensures { IfOk result (λ text. text.items
        ≡ DeviceTexts.lookups_text (device_of device.now) (all_found found.now)) }
{
    let gifts = all_gifts(alloc, found)?;
    let outcomes = outcomes(alloc, &gifts)?;
    let mut text = Vec::new(alloc);
    push_all_found(alloc, &mut text, device, found)?;
    push_results(&mut text, &outcomes)?;
    text.extend_from_slice(left_out(subsystem_of(device)))?;
    Ok(text)
}

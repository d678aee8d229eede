//! The lines of JSON: one for each string, and one for the result.
ghost use Rattle.std.specs.Prelude.{◌≡◌, ◌++◌, map, IfOk, OnOk};
ghost use Rattle.json.specs.Tree.{json_tokens};
ghost use Rattle.hwdb_spec_commands.specs.DeviceTexts;
ghost use Rattle.hwdb_spec_commands.specs.Json.{json_line};
ghost use Rattle.hwdb_query.specs.Views.{explained_values, pairs_bytes};
ghost use Rattle.hwdb_show.specs.JsonTokens.{tokens_of_members};
ghost use Rattle.hwdb_sysfs.specs.Views.{device_of};
ghost use Rattle.hwdb_device.specs.Views.{all_found};
ghost use Rattle.hwdb_ruleasks.specs.Views.{found_of};

use crate::gifts::all_gifts;
use crate::outcomes::{outcomes, pairs_of_outcomes};
use crate::texts::path_at;
use hwdb_answers::{put_named, put_raw, raw_of};
use hwdb_query::Explained;
use hwdb_ruleasks::{Found, first_value};
use hwdb_show::{ended, put_member};
use hwdb_sysfs::Device;
use json::Writer;
use std::alloc::{AllocError, Global};

/// Adds properties under a name, and those whose keys aren't UTF-8 under `raw`. The only error, here and below, is `AllocError`.
fn put_properties(
    alloc: Global,
    json: &mut Writer,
    name: &str,
    pairs: &[(&[u8], &[u8])],
) -> Result<(), AllocError>
    ensures before { json.new.before ≡ json.old.before }
    ensures tokens { OnOk result (json.new.tokens ≡ json.old.tokens
        ++ tokens_of_members (DeviceTexts.properties_members name.now (pairs_bytes pairs.now))) }
{
    let raw = raw_of(alloc, pairs)?;
    json.key(name)?;
    put_named(json, pairs)?;
    put_raw(json, &raw)
}

/// What a string gives, as properties.
fn pairs_of_told<'t>(
    alloc: Global,
    told: &'t [Explained<'_>],
) -> Result<Vec<(&'t [u8], &'t [u8])>, AllocError>
    ensures { IfOk result (λ pairs. pairs_bytes pairs.items
        ≡ map DeviceTexts.property_of (explained_values told.now)) }
{
    let mut pairs: Vec<(&'t [u8], &'t [u8])> = Vec::new(alloc);
    for one in told {
        pairs.push((one.key, first_value(&one.answers)))?;
    }
    Ok(pairs)
}

/// Adds the object of a string.
fn put_found(
    alloc: Global,
    json: &mut Writer,
    device: &Device,
    found: &Found<'_>,
    pairs: &[(&[u8], &[u8])],
) -> Result<(), AllocError>
    requires { pairs_bytes pairs.now ≡ map DeviceTexts.property_of (found_of found.now).told }
    ensures before { json.new.before ≡ json.old.before }
    ensures tokens { OnOk result (json.new.tokens ≡ json.old.tokens
        ++ json_tokens (DeviceTexts.found_json (device_of device.now) (found_of found.now))) }
{
    json.begin_object()?;
    put_member(json, "rule", &found.rule)?;
    put_member(json, "device", &found.text)?;
    put_member(json, "path", path_at(device, found.parent))?;
    put_properties(alloc, json, "properties", pairs)?;
    json.end_object()
}

/// The line of a string.
fn found_line(alloc: Global, device: &Device, found: &Found<'_>) -> Result<Vec<u8>, AllocError>
    ensures { IfOk result (λ line. line.items
        ≡ json_line (DeviceTexts.found_json (device_of device.now) (found_of found.now))) }
{
    let pairs = pairs_of_told(alloc, &found.told)?;
    let mut json = Writer::new(Vec::new(alloc));
    put_found(alloc, &mut json, device, found, &pairs)?;
    ended(alloc, json)
}

/// Adds the line of a string.
fn push_found_line(
    alloc: Global,
    text: &mut Vec<u8>,
    device: &Device,
    found: &Found<'_>,
) -> Result<(), AllocError>
    ensures { OnOk result (text.new.items ≡ text.old.items
        ++ json_line (DeviceTexts.found_json (device_of device.now) (found_of found.now))) }
{
    let line = found_line(alloc, device, found)?;
    text.extend_from_slice(&line)?;
    Ok(())
}

/// Adds the object of the result.
fn put_result(
    alloc: Global,
    json: &mut Writer,
    device: &Device,
    pairs: &[(&[u8], &[u8])],
) -> Result<(), AllocError>
    ensures before { json.new.before ≡ json.old.before }
    ensures tokens { OnOk result (json.new.tokens ≡ json.old.tokens
        ++ json_tokens (DeviceTexts.result_json (device_of device.now) (pairs_bytes pairs.now))) }
{
    json.begin_object()?;
    put_member(json, "path", path_at(device, 0))?;
    put_properties(alloc, json, "result", pairs)?;
    json.end_object()
}

/// The line of the result.
fn result_line(alloc: Global, device: &Device, found: &[Found<'_>]) -> Result<Vec<u8>, AllocError>
    ensures { IfOk result (λ line. line.items
        ≡ json_line (DeviceTexts.result_json (device_of device.now)
        (DeviceTexts.result_of (DeviceTexts.all_gifts (all_found found.now))))) }
{
    let gifts = all_gifts(alloc, found)?;
    let outcomes = outcomes(alloc, &gifts)?;
    let pairs = pairs_of_outcomes(alloc, &outcomes)?;
    let mut json = Writer::new(Vec::new(alloc));
    put_result(alloc, &mut json, device, &pairs)?;
    ended(alloc, json)
}

/// What `--json` prints.
pub(crate) fn lookups_json(
    alloc: Global,
    device: &Device,
    found: &[Found<'_>],
) -> Result<Vec<u8>, AllocError>
    ensures { IfOk result (λ text. text.items
        ≡ DeviceTexts.lookups_json (device_of device.now) (all_found found.now)) }
{
    let result = result_line(alloc, device, found)?;
    let mut text = Vec::new(alloc);
    for one in found {
        push_found_line(alloc, &mut text, device, one)?;
    }
    text.extend_from_slice(&result)?;
    Ok(text)
}

//! The lines of JSON that are printed. Each is an object.
ghost use Rattle.std.specs.Prelude.{◌≡◌, ◌++◌, ◌∷◌, [], filter, map, not, IfOk, OnOk};
ghost use Rattle.json.specs.Tree.{json_tokens};
ghost use Rattle.hwdb_query.specs.Views.{assignment_of_hit, pairs_bytes};
ghost use Rattle.hwdb_spec.specs.Texts.{canonical};
ghost use Rattle.hwdb_spec_commands.specs.Json.{property_member, pair_json, has_name, raw_members, object_of, array_of, device_json, hit_json, json_line};
ghost use Rattle.hwdb_show.specs.JsonTokens.{tokens_of_members};

use hwdb_query::Hit;
use hwdb_show::{ended, put_member, put_number, put_text};
use json::Writer;
use std::alloc::{AllocError, Global};

/// Adds a property as a member, if its key is UTF-8.
fn put_if_named(json: &mut Writer, key: &[u8], value: &[u8]) -> Result<(), AllocError>
    ensures before { json.new.before ≡ json.old.before }
    ensures tokens { OnOk result (json.new.tokens ≡ json.old.tokens
        ++ tokens_of_members (map property_member (filter has_name ((key.now, value.now) ∷ [])))) }
{
    match str::from_utf8(key) {
        Ok(name) => put_member(json, name, value),
        Err(_) => Ok(()),
    }
}

/// Adds the object of the properties whose keys are UTF-8. The only error, here and below, is `AllocError`.
pub fn put_named(json: &mut Writer, properties: &[(&[u8], &[u8])]) -> Result<(), AllocError>
    ensures before { json.new.before ≡ json.old.before }
    ensures tokens { OnOk result (json.new.tokens ≡ json.old.tokens ++ json_tokens
        (object_of (map property_member (filter has_name (pairs_bytes properties.now))))) }
{
    json.begin_object()?;
    for (key, value) in properties {
        put_if_named(json, key, value)?;
    }
    json.end_object()
}

/// Adds a property as a pair.
fn put_pair(json: &mut Writer, key: &[u8], value: &[u8]) -> Result<(), AllocError>
    ensures before { json.new.before ≡ json.old.before }
    ensures tokens { OnOk result
        (json.new.tokens ≡ json.old.tokens ++ json_tokens (pair_json (key.now, value.now))) }
{
    json.begin_array()?;
    put_text(json, key)?;
    put_text(json, value)?;
    json.end_array()
}

/// Adds a property whose key isn't UTF-8 to others.
fn push_if_raw<'a>(
    raw: &mut Vec<(&'a [u8], &'a [u8])>,
    key: &'a [u8],
    value: &'a [u8],
) -> Result<(), AllocError>
    ensures { OnOk result (pairs_bytes raw.new.items ≡ pairs_bytes raw.old.items
        ++ filter (λ p. not (has_name p)) ((key.now, value.now) ∷ [])) }
{
    match str::from_utf8(key) {
        Ok(_) => Ok(()),
        Err(_) => {
            raw.push((key, value))?;
            Ok(())
        }
    }
}

/// The properties whose keys aren't UTF-8.
pub fn raw_of<'a>(
    alloc: Global,
    properties: &[(&'a [u8], &'a [u8])],
) -> Result<Vec<(&'a [u8], &'a [u8])>, AllocError>
    ensures { IfOk result (λ raw. pairs_bytes raw.items
        ≡ filter (λ p. not (has_name p)) (pairs_bytes properties.now)) }
{
    let mut raw = Vec::new(alloc);
    for (key, value) in properties {
        push_if_raw(&mut raw, key, value)?;
    }
    Ok(raw)
}

/// Adds properties as an array of pairs.
fn put_pairs(json: &mut Writer, properties: &[(&[u8], &[u8])]) -> Result<(), AllocError>
    ensures before { json.new.before ≡ json.old.before }
    ensures tokens { OnOk result (json.new.tokens ≡ json.old.tokens
        ++ json_tokens (array_of (map pair_json (pairs_bytes properties.now)))) }
{
    json.begin_array()?;
    for (key, value) in properties {
        put_pair(json, key, value)?;
    }
    json.end_array()
}

/// Adds properties whose keys aren't UTF-8 under `raw`, if there are any.
pub fn put_raw(json: &mut Writer, raw: &[(&[u8], &[u8])]) -> Result<(), AllocError>
    ensures before { json.new.before ≡ json.old.before }
    ensures tokens { OnOk result (json.new.tokens
        ≡ json.old.tokens ++ tokens_of_members (raw_members (pairs_bytes raw.now))) }
{
    if raw.is_empty() {
        return Ok(());
    }
    json.key("raw")?;
    put_pairs(json, raw)
}

/// Adds the object of a device: its properties under their keys, and those whose keys aren't UTF-8 as pairs.
fn put_device(
    json: &mut Writer,
    device: &[u8],
    properties: &[(&[u8], &[u8])],
    raw: &[(&[u8], &[u8])],
) -> Result<(), AllocError>
    requires { pairs_bytes raw.now
        ≡ filter (λ p. not (has_name p)) (pairs_bytes properties.now) }
    ensures before { json.new.before ≡ json.old.before }
    ensures tokens { OnOk result (json.new.tokens ≡ json.old.tokens
        ++ json_tokens (device_json device.now (pairs_bytes properties.now))) }
{
    json.begin_object()?;
    put_member(json, "device", device)?;
    json.key("properties")?;
    put_named(json, properties)?;
    put_raw(json, raw)?;
    json.end_object()
}

/// The line of a device and its properties.
///
/// The only error is want of memory.
pub fn device_line(
    alloc: Global,
    device: &[u8],
    properties: &[(&[u8], &[u8])],
) -> Result<Vec<u8>, AllocError>
    ensures { IfOk result
        (λ line. line.items ≡ json_line (device_json device.now (pairs_bytes properties.now))) }
{
    let raw = raw_of(alloc, properties)?;
    let mut json = Writer::new(Vec::new(alloc));
    put_device(&mut json, device, properties, &raw)?;
    ended(alloc, json)
}

/// Adds the object of a hit: its position, and each part of it.
fn put_hit(json: &mut Writer, position: &[u8], hit: &Hit<'_>) -> Result<(), AllocError>
    requires { position.now ≡ canonical (assignment_of_hit hit.now).position }
    ensures before { json.new.before ≡ json.old.before }
    ensures tokens { OnOk result (json.new.tokens
        ≡ json.old.tokens ++ json_tokens (hit_json (assignment_of_hit hit.now))) }
{
    json.begin_object()?;
    put_member(json, "position", position)?;
    put_member(json, "path", hit.path)?;
    put_number(json, "line", hit.line)?;
    put_number(json, "priority", u32::from(hit.priority))?;
    put_member(json, "pattern", &hit.pattern)?;
    put_member(json, "key", hit.key)?;
    put_member(json, "value", hit.value)?;
    json.end_object()
}

/// The line of a hit.
///
/// The only error is want of memory.
pub fn hit_json_line(alloc: Global, hit: &Hit<'_>) -> Result<Vec<u8>, AllocError>
    ensures { IfOk result (λ line. line.items ≡ json_line (hit_json (assignment_of_hit hit.now))) }
{
    let mut position = Vec::new(alloc);
    hit.push_position(&mut position)?;
    let mut json = Writer::new(Vec::new(alloc));
    put_hit(&mut json, &position, hit)?;
    ended(alloc, json)
}

//! The counts of changes as lines, and as JSON.
ghost use Rattle.std.specs.Prelude.{◌≡◌, ◌++◌, codes, flat_map, map, IfOk, List, OnOk, Option, ℕ};
ghost use Rattle.std.specs.Fmt.{decimal};
ghost use Rattle.json.specs.Tree.{json_tokens};
ghost use Rattle.hwdb_show.specs.JsonTokens.{tokens_of_member, tokens_of_members};
ghost use Rattle.hwdb_spec_commands.specs.ChangeCounts.{count_members, count_object, counts_line, devices_line, devices_member, stat_form, stat_lines, stat_object, stat_text};
ghost use Rattle.hwdb_spec_commands.specs.Json.{array_of, json_line, object_of};
ghost use Rattle.hwdb_databases.specs.Internal.Counts.{AreAsked, count_shown, counts_shown, stat_shown};

use crate::counting::{Count, Stat};
use hwdb_show::{ended, push_name, put_count, put_member};
use itoa::Buffer;
use json::Writer;
use std::alloc::{AllocError, Global};
use std::collections::BTreeMap;

/// Adds a tab, a sign and a number. The only error, here and below, is `AllocError`.
fn push_signed(text: &mut Vec<u8>, sign: &str, n: u64) -> Result<(), AllocError>
    ensures { OnOk result (text.new.items ≡ text.old.items ++ (sign.now ++ decimal n)) }
{
    let mut number = Buffer::new();
    text.extend_from_slice(sign.as_bytes())?;
    text.extend_from_slice(number.format(n).as_bytes())?;
    Ok(())
}

/// Adds the line of a name.
fn push_line(text: &mut Vec<u8>, name: &[u8], count: Count) -> Result<(), AllocError>
    ensures { OnOk result
        (text.new.items ≡ text.old.items ++ counts_line (name.now, count_shown count)) }
{
    push_name(text, name)?;
    push_signed(text, "\t+", count.came)?;
    push_signed(text, "\t-", count.went)?;
    push_signed(text, "\t~", count.changed)?;
    text.push(b'\n')?;
    Ok(())
}

/// Adds the lines of some names.
fn push_lines(text: &mut Vec<u8>, counts: BTreeMap<&[u8], Count>) -> Result<(), AllocError>
    ensures { OnOk result
        (text.new.items ≡ text.old.items ++ flat_map counts_line (counts_shown counts.entry)) }
{
    for (name, count) in counts {
        push_line(text, name, count)?;
    }
    Ok(())
}

/// Adds the line of the devices that have a change, if devices were asked for.
fn push_devices(text: &mut Vec<u8>, of_devices: bool, n: u64) -> Result<(), AllocError>
    ensures { OnOk result ((devices : Option (List (List ℕ))) → AreAsked of_devices devices
        → text.new.items ≡ text.old.items ++ devices_line devices n) }
{
    if of_devices {
        push_signed(text, "devices\t", n)?;
        text.push(b'\n')?;
    }
    Ok(())
}

/// Lines by file, an empty one, lines by key, an empty one, and the total.
fn lines_of(alloc: Global, of_devices: bool, stat: Stat<'_>) -> Result<Vec<u8>, AllocError>
    ensures { IfOk result (λ text. (devices : Option (List (List ℕ))) → AreAsked of_devices devices
        → text.items ≡ stat_lines devices (stat_shown stat.entry)) }
{
    let mut text = Vec::new(alloc);
    let Stat {
        files,
        keys,
        total,
        devices,
    } = stat;
    push_lines(&mut text, files)?;
    text.push(b'\n')?;
    push_lines(&mut text, keys)?;
    text.push(b'\n')?;
    push_line(&mut text, b"total", total)?;
    push_devices(&mut text, of_devices, devices)?;
    Ok(text)
}

/// The counts as text: nothing if no file has a change.
fn text_of(alloc: Global, of_devices: bool, stat: Stat<'_>) -> Result<Vec<u8>, AllocError>
    ensures { IfOk result (λ text. (devices : Option (List (List ℕ))) → AreAsked of_devices devices
        → text.items ≡ stat_text devices (stat_shown stat.entry)) }
{
    if stat.files.is_empty() {
        return Ok(Vec::new(alloc));
    }
    lines_of(alloc, of_devices, stat)
}

/// Adds the members of a count.
fn put_counts(json: &mut Writer, count: Count) -> Result<(), AllocError>
    ensures before { json.new.before ≡ json.old.before }
    ensures tokens { OnOk result (json.new.tokens
        ≡ json.old.tokens ++ tokens_of_members (count_members (count_shown count))) }
{
    put_count(json, "added", count.came)?;
    put_count(json, "removed", count.went)?;
    put_count(json, "changed", count.changed)
}

/// Adds a name and its counts.
fn put_named(json: &mut Writer, word: &str, name: &[u8], count: Count) -> Result<(), AllocError>
    ensures before { json.new.before ≡ json.old.before }
    ensures tokens { OnOk result (json.new.tokens
        ≡ json.old.tokens ++ json_tokens (count_object word.now (name.now, count_shown count))) }
{
    json.begin_object()?;
    put_member(json, word, name)?;
    put_counts(json, count)?;
    json.end_object()
}

/// Adds the names and their counts.
fn put_all(json: &mut Writer, word: &str, counts: BTreeMap<&[u8], Count>) -> Result<(), AllocError>
    ensures before { json.new.before ≡ json.old.before }
    ensures tokens { OnOk result (json.new.tokens ≡ json.old.tokens
        ++ flat_map (λ n. json_tokens (count_object word.now n)) (counts_shown counts.entry)) }
{
    for (name, count) in counts {
        put_named(json, word, name, count)?;
    }
    Ok(())
}

/// Adds them as an array, under a name.
fn put_array(
    json: &mut Writer,
    member: &str,
    word: &str,
    counts: BTreeMap<&[u8], Count>,
) -> Result<(), AllocError>
    ensures before { json.new.before ≡ json.old.before }
    ensures tokens { OnOk result (json.new.tokens ≡ json.old.tokens ++ tokens_of_member
        (member.now, array_of (map (count_object word.now) (counts_shown counts.entry)))) }
{
    json.key(member)?;
    json.begin_array()?;
    put_all(json, word, counts)?;
    json.end_array()
}

/// Adds the counts of all.
fn put_total(json: &mut Writer, total: Count) -> Result<(), AllocError>
    ensures before { json.new.before ≡ json.old.before }
    ensures tokens { OnOk result (json.new.tokens ≡ json.old.tokens
        ++ tokens_of_member (codes "total", object_of (count_members (count_shown total)))) }
{
    json.key("total")?;
    json.begin_object()?;
    put_counts(json, total)?;
    json.end_object()
}

/// Adds how many devices have a change, if devices were asked for.
fn put_devices(json: &mut Writer, of_devices: bool, n: u64) -> Result<(), AllocError>
    ensures before { json.new.before ≡ json.old.before }
    ensures tokens { OnOk result ((devices : Option (List (List ℕ))) → AreAsked of_devices devices
        → json.new.tokens ≡ json.old.tokens ++ tokens_of_members (devices_member devices n)) }
{
    if of_devices {
        put_count(json, "devices", n)?;
    }
    Ok(())
}

/// Adds the object of all counts.
fn put_stat(json: &mut Writer, of_devices: bool, stat: Stat<'_>) -> Result<(), AllocError>
    ensures before { json.new.before ≡ json.old.before }
    ensures tokens { OnOk result ((devices : Option (List (List ℕ))) → AreAsked of_devices devices
        → json.new.tokens
        ≡ json.old.tokens ++ json_tokens (stat_object devices (stat_shown stat.entry))) }
{
    let Stat {
        files,
        keys,
        total,
        devices,
    } = stat;
    json.begin_object()?;
    put_array(json, "files", "file", files)?;
    put_array(json, "keys", "key", keys)?;
    put_total(json, total)?;
    put_devices(json, of_devices, devices)?;
    json.end_object()
}

/// The counts as a line of JSON.
fn json_of(alloc: Global, of_devices: bool, stat: Stat<'_>) -> Result<Vec<u8>, AllocError>
    ensures { IfOk result (λ line. (devices : Option (List (List ℕ))) → AreAsked of_devices devices
        → line.items ≡ json_line (stat_object devices (stat_shown stat.entry))) }
{
    let mut json = Writer::new(Vec::new(alloc));
    put_stat(&mut json, of_devices, stat)?;
    ended(alloc, json)
}

/// The counts as text or JSON, of devices if devices were asked for.
pub(crate) fn form_of(
    alloc: Global,
    json: bool,
    of_devices: bool,
    stat: Stat<'_>,
) -> Result<Vec<u8>, AllocError>
    ensures { IfOk result (λ text. (devices : Option (List (List ℕ))) → AreAsked of_devices devices
        → text.items ≡ stat_form json devices (stat_shown stat.entry)) }
{
    if json {
        json_of(alloc, of_devices, stat)
    } else {
        text_of(alloc, of_devices, stat)
    }
}

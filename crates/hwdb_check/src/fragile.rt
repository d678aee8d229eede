//! Patterns that name the firmware of a machine beside its model: after an update of the firmware they match no more.
ghost use Rattle.std.specs.Prelude.{◌≡◌, ◌++◌, ◌∷◌, ◌≤◌, false, flat_map, if◌then◌else◌, length, not, IfOk, OnOk, true};
ghost use Rattle.std.specs.List.{list_any};
ghost use Rattle.hwdb_spec.specs.Forms;
ghost use Rattle.hwdb_spec.specs.Lines;
ghost use Rattle.hwdb_spec.specs.Lines.{byte, is, is_none, pieces};
ghost use Rattle.hwdb_spec_commands.specs.Fragile;
ghost use Rattle.hwdb_spec_commands.specs.Properties;
ghost use Rattle.hwdb_spec_commands.specs.Reports.{shown};
ghost use Rattle.hwdb_spec_commands.specs.declared.vocabulary.TheConstants.{PLACEHOLDERS};
ghost use Rattle.hwdb_check.specs.Internal.{line_of};

use crate::line_warnings::{is_match, wild_place};
use crate::mends::{front_of, last_of, rest_of};
use hwdb_properties::{Likeness, before, first_row};
use hwdb_show::push_shown;
use hwdb_spec_commands::PLACEHOLDERS;
use hwdb_text::{Pieces, begins_with};
use std::alloc::{AllocError, Global};

/// What comes after the first `dmi:` of a pattern; nothing if it has none.
fn machine_of(pattern: &[u8]) -> &[u8]
    ensures machine { result.now ≡ Fragile.machine_of pattern.now }
    ensures within { length result.now ≤ length pattern.now }
{
    let mut at = 0;
    while at < pattern.len() {
        let rest = rest_of(pattern, at);
        if rest.starts_with(b"dmi:") {
            return rest_of(rest, 4);
        }
        at += 1;
    }
    &[]
}

/// How many stars a text begins with.
fn stars(text: &[u8]) -> usize
    ensures place { result ≡ Fragile.stars text.now }
    ensures within { result ≤ length text.now }
{
    let mut at = 0;
    while at < text.len() && text[at] == b'*' {
        at += 1;
    }
    at
}

/// A text without the stars that it begins with.
fn bare(text: &[u8]) -> &[u8]
    ensures { result.now ≡ Fragile.bare text.now }
{
    rest_of(text, stars(text))
}

/// The name of the firmware's field that a text begins with; an empty text if it is none.
fn firmware_field(text: &[u8]) -> &'static [u8]
    ensures { result.now ≡ Fragile.firmware_field text.now }
{
    if text.starts_with(b"bvr") {
        return b"bvr";
    }
    if text.starts_with(b"bd") {
        return b"bd";
    }
    if text.starts_with(b"br") {
        return b"br";
    }
    if text.starts_with(b"efr") {
        return b"efr";
    }
    &[]
}

/// Whether a text has a wildcard.
fn has_wild(text: &[u8]) -> bool
    ensures { result ≡ list_any Forms.is_wild text.now }
{
    wild_place(text) < text.len()
}

/// Whether a value is a whole one.
fn is_whole(value: &[u8]) -> bool
    ensures { result ≡ Fragile.is_whole value.now }
{
    !value.is_empty() && !has_wild(value)
}

/// Whether a text is a field of the firmware with a whole value.
fn is_firmware(text: &[u8]) -> bool
    ensures { result ≡ Fragile.is_firmware text.now }
{
    let field = firmware_field(text);
    !field.is_empty() && is_whole(rest_of(text, field.len()))
}

/// Whether a part of a pattern names a firmware.
fn is_versioned(part: &[u8]) -> bool
    ensures { result ≡ Fragile.is_versioned part.now }
{
    is_firmware(bare(part))
}

/// Whether a maker left a value as it was.
fn is_placeholder(word: &[u8]) -> bool
    ensures { result ≡ not (is_none (Properties.row_for PLACEHOLDERS.now word.now)) }
{
    !placeholder_row(word).is_empty()
}

/// The row of such a value.
fn placeholder_row(word: &[u8]) -> &'static [u8]
    ensures { result.now ≡ Properties.row_for PLACEHOLDERS.now word.now }
{
    first_row(PLACEHOLDERS.as_bytes(), word, Likeness::Same)
}

/// Whether a value names something.
fn is_name(value: &[u8]) -> bool
    ensures { result ≡ Fragile.is_name value.now }
{
    let word = before(b'*', bare(value));
    !word.is_empty() && !is_placeholder(word)
}

/// Whether a part of a pattern is a field, and names something.
fn names(field: &[u8], part: &[u8]) -> bool
    ensures { result ≡ Fragile.names field.now part.now }
{
    let text = bare(part);
    text.starts_with(field) && is_name(rest_of(text, field.len()))
}

/// Whether a machine's fields name a firmware.
fn any_is_versioned(machine: &[u8]) -> bool
    ensures { result ≡ list_any Fragile.is_versioned (pieces (is 58) machine.now) }
{
    for part in Pieces::new(b':', machine) {
        if is_versioned(part) {
            return true;
        }
    }
    false
}

/// Whether a machine's fields have this one, and it names something.
fn any_names(field: &[u8], machine: &[u8]) -> bool
    ensures { result ≡ list_any (Fragile.names field.now) (pieces (is 58) machine.now) }
{
    for part in Pieces::new(b':', machine) {
        if names(field, part) {
            return true;
        }
    }
    false
}

/// Whether a machine's fields name its firmware, its vendor and its product.
fn are_fragile(machine: &[u8]) -> bool
    ensures { result ≡ Fragile.are_fragile (pieces (is 58) machine.now) }
{
    any_is_versioned(machine) && any_names(b"svn", machine) && any_names(b"pn", machine)
}

/// Whether a pattern names the firmware of a machine beside its model. Most patterns have no `dmi:`.
#[tactic(auto, unfolding(hwdb_spec_commands::specs::Fragile::is_fragile))]
fn is_fragile(pattern: &[u8]) -> bool
    ensures { result ≡ Fragile.is_fragile pattern.now }
{
    are_fragile(machine_of(pattern))
}

/// Whether a match line names the firmware of a machine beside its model.
pub fn is_fragile_line(clean: &[u8]) -> bool
    ensures { result
        ≡ (if Lines.is_match (line_of 0 clean.now) then Fragile.is_fragile clean.now else false) }
{
    is_match(clean) && is_fragile(clean)
}

/// Whether a text begins with a part that names a firmware, if a part begins there.
fn is_versioned_at(begins: bool, text: &[u8]) -> bool
    ensures { result ≡ Fragile.is_versioned_at begins text.now }
{
    begins && is_versioned(before(b':', text))
}

/// The place of the first of a machine's fields that names a firmware; how many bytes there are, if none does.
fn versioned_place(machine: &[u8]) -> usize
    ensures place { result ≡ Fragile.versioned_place true machine.now }
    ensures within { result ≤ length machine.now }
{
    let mut begins = true;
    let mut at = 0;
    while at < machine.len() {
        let rest = rest_of(machine, at);
        if is_versioned_at(begins, rest) {
            return at;
        }
        begins = begins_with(b':', rest);
        at += 1;
    }
    at
}

/// The place of the first field of a pattern that names a firmware.
#[tactic(auto, unfolding(hwdb_spec_commands::specs::Fragile::fragile_place))]
pub fn fragile_place(pattern: &[u8]) -> usize
    ensures { result ≡ Fragile.fragile_place pattern.now }
{
    let machine = machine_of(pattern);
    pattern.len().saturating_sub(machine.len()) + versioned_place(machine)
}

/// Adds a part of a pattern, with any firmware in place of the one that it names. The only error, here and below, is `AllocError`.
fn push_freed(text: &mut Vec<u8>, part: &[u8]) -> Result<(), AllocError>
    ensures { OnOk result (text.new.items ≡ text.old.items ++ Fragile.freed part.now) }
{
    if !is_versioned(part) {
        return text.extend_from_slice(part);
    }
    text.extend_from_slice(front_of(part, stars(part)))?;
    text.extend_from_slice(firmware_field(bare(part)))?;
    text.push(b'*')?;
    Ok(())
}

/// Adds a colon and such a part.
fn push_part(text: &mut Vec<u8>, part: &[u8]) -> Result<(), AllocError>
    ensures { OnOk result
        (text.new.items ≡ text.old.items ++ (byte ":" ∷ Fragile.freed part.now)) }
{
    text.push(b':')?;
    push_freed(text, part)
}

/// Adds all parts of a machine's fields, each after a colon.
fn push_parts(text: &mut Vec<u8>, machine: &[u8]) -> Result<(), AllocError>
    ensures { OnOk result (text.new.items ≡ text.old.items
        ++ flat_map (λ part. byte ":" ∷ Fragile.freed part) (pieces (is 58) machine.now)) }
{
    for part in Pieces::new(b':', machine) {
        push_part(text, part)?;
    }
    Ok(())
}

/// Adds the colon that a text ends with, if it does.
fn push_last_colon(text: &mut Vec<u8>, machine: &[u8]) -> Result<(), AllocError>
    ensures { OnOk result (text.new.items ≡ text.old.items ++ Fragile.last_colon machine.now) }
{
    if begins_with(b':', last_of(machine)) {
        text.push(b':')?;
    }
    Ok(())
}

/// A pattern with any firmware in place of the one that it names.
#[tactic(auto, unfolding(hwdb_spec_commands::specs::Fragile::outlasting))]
fn outlasting(alloc: Global, pattern: &[u8]) -> Result<Vec<u8>, AllocError>
    ensures { IfOk result (λ text. text.items ≡ Fragile.outlasting pattern.now) }
{
    let machine = machine_of(pattern);
    let size = pattern
        .len()
        .saturating_sub(machine.len())
        .saturating_sub(1);
    let mut text = Vec::new(alloc);
    text.extend_from_slice(front_of(pattern, size))?;
    push_parts(&mut text, machine)?;
    push_last_colon(&mut text, machine)?;
    Ok(text)
}

/// Adds words, and a pattern after them.
pub fn push_before(text: &mut Vec<u8>, words: &str, pattern: &[u8]) -> Result<(), AllocError>
    ensures { OnOk result
        (text.new.items ≡ text.old.items ++ (words.now ++ shown pattern.now)) }
{
    text.extend_from_slice(words.as_bytes())?;
    push_shown(text, pattern)
}

/// Adds what to do about a pattern that names the firmware of a machine beside its model.
pub fn push_fragile_hint(
    alloc: Global,
    text: &mut Vec<u8>,
    pattern: &[u8],
) -> Result<(), AllocError>
    ensures { OnOk result
        (text.new.items ≡ text.old.items ++ Fragile.fragile_hint pattern.now) }
{
    let meant = outlasting(alloc, pattern)?;
    push_before(
        text,
        "after an update of the firmware it matches no more: write ",
        &meant,
    )
}

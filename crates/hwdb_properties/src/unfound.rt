//! What is said if words ask for no key.
ghost use Rattle.std.specs.Prelude.{◌≡◌, ◌++◌, IfOk, OnOk, flat_map, map, string_bytes};
ghost use Rattle.hwdb_spec_commands.specs.DeviceTree.{nearest_of};
ghost use Rattle.hwdb_spec_commands.specs.KeysAsked;
ghost use Rattle.hwdb_spec_commands.specs.declared.vocabulary.TheConstants.{KEY_NAMES, KEY_WORDS};

use crate::nearest::nearer;
use crate::remarks::without_key;
use crate::rows::word;
use hwdb_show::push_name;
use hwdb_spec_commands::{KEY_NAMES, KEY_WORDS};
use hwdb_text::Lines;
use std::alloc::{AllocError, Global};

/// The nearest of the names of a table's rows, and of one before them. The only error, here and below, is want of memory.
#[tactic(auto, unfolding(hwdb_spec_commands::specs::DeviceTree::nearest_of))]
fn nearest_in(
    alloc: Global,
    wanted: &[u8],
    before: Vec<u8>,
    table: &[u8],
) -> Result<Vec<u8>, AllocError>
    ensures { IfOk result (λ v. v.items
        ≡ nearest_of wanted.now before.items (KeysAsked.names_of table.now)) }
{
    let mut nearest = before;
    for row in Lines::new(table) {
        nearest = nearer(alloc, wanted, nearest, word(row))?;
    }
    Ok(nearest)
}

/// The key whose name is nearest to a word, or the name that people use for some. Empty if none is near.
fn near_key(alloc: Global, keys: &[u8], others: &[u8], given: &[u8]) -> Result<Vec<u8>, AllocError>
    ensures { IfOk result
        (λ v. v.items ≡ KeysAsked.near_key keys.now others.now given.now) }
{
    let wanted = without_key(given);
    let nearest = nearest_in(alloc, wanted, Vec::new(alloc), keys)?;
    nearest_in(alloc, wanted, nearest, others)
}

/// Adds what to do.
fn push_advice(text: &mut Vec<u8>, near: &[u8]) -> Result<(), AllocError>
    ensures { OnOk result
        (text.new.items ≡ text.old.items ++ KeysAsked.key_advice near.now) }
{
    if near.is_empty() {
        return text.extend_from_slice(b"'hwdb keys' lists all");
    }
    text.extend_from_slice(b"there is ")?;
    text.extend_from_slice(near)
}

/// Adds the line of a word, of which this is near.
fn push_unfound(text: &mut Vec<u8>, given: &[u8], near: &[u8]) -> Result<(), AllocError>
    ensures { OnOk result (text.new.items
        ≡ text.old.items ++ KeysAsked.unfound_line given.now near.now) }
{
    text.extend_from_slice(b"hwdb: no key: ")?;
    push_name(text, given)?;
    text.extend_from_slice(b": ")?;
    push_advice(text, near)?;
    text.push(b'\n')?;
    Ok(())
}

/// Adds the line of a word that asks for no key.
#[tactic(auto, unfolding(hwdb_spec_commands::specs::KeysAsked::word_told))]
fn push_told(alloc: Global, text: &mut Vec<u8>, given: &[u8]) -> Result<(), AllocError>
    ensures { OnOk result
        (text.new.items ≡ text.old.items ++ KeysAsked.word_told given.now) }
{
    let near = near_key(alloc, KEY_NAMES.as_bytes(), KEY_WORDS.as_bytes(), given)?;
    push_unfound(text, given, &near)
}

/// What is said of words for which this is printed: nothing if it is some key, and else a line for each, with the key that is near.
///
/// The only error is want of memory. Takes time for each word in proportion to all names of keys.
#[tactic(auto, unfolding(hwdb_spec_commands::specs::KeysAsked::keys_told))]
pub fn keys_told(alloc: Global, words: &[String], printed: &[u8]) -> Result<Vec<u8>, AllocError>
    ensures { IfOk result (λ text. text.items
        ≡ KeysAsked.keys_told (map string_bytes words.now) printed.now) }
{
    let mut text = Vec::new(alloc);
    if !printed.is_empty() {
        return Ok(text);
    }
    for given in words {
        push_told(alloc, &mut text, given.as_bytes())?;
    }
    Ok(text)
}

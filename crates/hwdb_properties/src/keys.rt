//! The keys that words ask for, each with its code.
ghost use Rattle.std.specs.Prelude.{◌≡◌, ◌++◌, IfOk, OnOk, flat_map, map, string_bytes, true};
ghost use Rattle.std.specs.List.{list_any};
ghost use Rattle.hwdb_spec.specs.Lines.{is, pieces};
ghost use Rattle.hwdb_spec_commands.specs.KeysAsked;
ghost use Rattle.hwdb_spec_commands.specs.declared.vocabulary.TheConstants.{KEY_NAMES, KEY_WORDS};

use crate::cuts::{front, same};
use crate::names::same_letters;
use crate::remarks::without_key;
use crate::rows::{after_word, word};
use hwdb_spec_commands::{KEY_NAMES, KEY_WORDS};
use hwdb_text::{Lines, Pieces};
use std::alloc::{AllocError, Global};

/// Whether a part is somewhere in a text, but for the case of letters.
pub fn has_part(part: &[u8], text: &[u8]) -> bool
    ensures { result ≡ KeysAsked.has_part part.now text.now }
{
    let mut rest = text;
    while let Some((_, more)) = rest.split_first() {
        if same_letters(part, front(rest, part.len())) {
            return true;
        }
        rest = more;
    }
    part.is_empty()
}

/// Whether the row of a name that people use is for a key.
fn is_called(key: &[u8], row: &[u8]) -> bool
    ensures { result ≡ KeysAsked.is_called key.now row.now }
{
    for own in Pieces::new(b' ', after_word(row)) {
        if same(key, own) {
            return true;
        }
    }
    false
}

/// Whether the row of a name that people use is for a key, and the name has a part.
fn is_called_so(part: &[u8], key: &[u8], row: &[u8]) -> bool
    ensures { result ≡ KeysAsked.is_called_so part.now key.now row.now }
{
    has_part(part, word(row)) && is_called(key, row)
}

/// Whether a row of a table is so.
fn is_called_in(table: &[u8], part: &[u8], key: &[u8]) -> bool
    ensures { result
        ≡ list_any (KeysAsked.is_called_so part.now key.now) (pieces (is 10) table.now) }
{
    for row in Lines::new(table) {
        if is_called_so(part, key, row) {
            return true;
        }
    }
    false
}

/// Whether a part is in a name that people use for a key.
fn has_other_name(key: &[u8], part: &[u8]) -> bool
    ensures { result
        ≡ list_any (KeysAsked.is_called_so part.now key.now) (pieces (is 10) KEY_WORDS.now) }
{
    is_called_in(KEY_WORDS.as_bytes(), part, key)
}

/// Whether a part is in a key's name, or in a name that people use for it.
fn has_name(key: &[u8], part: &[u8]) -> bool
    ensures { result ≡ KeysAsked.has_name key.now part.now }
{
    has_part(part, key) || has_other_name(key, part)
}

/// Whether a word asks for a key.
fn asks_for(key: &[u8], given: &[u8]) -> bool
    ensures { result ≡ KeysAsked.asks_for key.now given.now }
{
    has_name(key, without_key(given))
}

/// Whether one of some words asks for a key.
fn is_one_asked(words: &[String], key: &[u8]) -> bool
    ensures { result ≡ list_any (KeysAsked.asks_for key.now) (map string_bytes words.now) }
{
    for given in words {
        if asks_for(key, given.as_bytes()) {
            return true;
        }
    }
    false
}

/// Whether one of some words asks for a key, or there is none.
fn is_key_asked(words: &[String], key: &[u8]) -> bool
    ensures { result ≡ KeysAsked.is_key_asked (map string_bytes words.now) key.now }
{
    words.is_empty() || is_one_asked(words, key)
}

/// Adds a key's line as JSON. The only error, here and below, is `AllocError`.
fn push_json(text: &mut Vec<u8>, row: &[u8]) -> Result<(), AllocError>
    ensures { OnOk result
        (text.new.items ≡ text.old.items ++ KeysAsked.key_line true row.now) }
{
    text.extend_from_slice(b"{\"name\":\"")?;
    text.extend_from_slice(word(row))?;
    text.extend_from_slice(b"\",\"code\":")?;
    text.extend_from_slice(after_word(row))?;
    text.extend_from_slice(b"}\n")?;
    Ok(())
}

/// Adds a key's line.
fn push_line(text: &mut Vec<u8>, json: bool, row: &[u8]) -> Result<(), AllocError>
    ensures { OnOk result
        (text.new.items ≡ text.old.items ++ KeysAsked.key_line json row.now) }
{
    if json {
        return push_json(text, row);
    }
    text.extend_from_slice(row)?;
    text.push(b'\n')?;
    Ok(())
}

/// Adds a key's line if the key is asked for.
fn push_if_asked(
    text: &mut Vec<u8>,
    json: bool,
    words: &[String],
    row: &[u8],
) -> Result<(), AllocError>
    ensures { OnOk result (text.new.items
        ≡ text.old.items ++ KeysAsked.asked_line json (map string_bytes words.now) row.now) }
{
    if is_key_asked(words, word(row)) {
        push_line(text, json, row)
    } else {
        Ok(())
    }
}

/// Adds the lines of a table's keys that are asked for.
fn push_asked(
    text: &mut Vec<u8>,
    json: bool,
    words: &[String],
    table: &[u8],
) -> Result<(), AllocError>
    ensures { OnOk result (text.new.items ≡ text.old.items
        ++ flat_map (KeysAsked.asked_line json (map string_bytes words.now))
        (pieces (is 10) table.now)) }
{
    for row in Lines::new(table) {
        push_if_asked(text, json, words, row)?;
    }
    Ok(())
}

/// The lines of the keys that words ask for.
pub fn keys_text(alloc: Global, json: bool, words: &[String]) -> Result<Vec<u8>, AllocError>
    ensures { IfOk result
        (λ text. text.items ≡ KeysAsked.keys_text json (map string_bytes words.now)) }
{
    let mut text = Vec::new(alloc);
    push_asked(&mut text, json, words, KEY_NAMES.as_bytes())?;
    Ok(text)
}

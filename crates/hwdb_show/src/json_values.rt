//! Values of JSON, written token by token.
ghost use Rattle.std.specs.Prelude.{◌≡◌, ◌++◌, ◌∷◌, [], map, IfOk, OnOk};
ghost use Rattle.json.specs.Json.{boolean};
ghost use Rattle.json.specs.Print.{print};
ghost use Rattle.json.specs.Tree.{json_tokens};
ghost use Rattle.hwdb_spec.specs.Lines.{byte};
ghost use Rattle.hwdb_spec_commands.specs.Json.{text_json, number_json, array_of, escaped};
ghost use Rattle.hwdb_show.specs.JsonTokens.{tokens_of_member};

use crate::escapes::escaped;
use json::Writer;
use std::alloc::{AllocError, Global};

/// Adds bytes as an array of numbers.
pub fn put_bytes(json: &mut Writer, bytes: &[u8]) -> Result<(), AllocError>
    ensures before { json.new.before ≡ json.old.before }
    ensures tokens { OnOk result (json.new.tokens
        ≡ json.old.tokens ++ json_tokens (array_of (map number_json bytes.now))) }
{
    json.begin_array()?;
    for byte in bytes {
        json.u64(u64::from(*byte))?;
    }
    json.end_array()
}

/// Adds a text: a string if it is UTF-8, else an array of its bytes as numbers.
pub fn put_text(json: &mut Writer, text: &[u8]) -> Result<(), AllocError>
    ensures before { json.new.before ≡ json.old.before }
    ensures tokens { OnOk result
        (json.new.tokens ≡ json.old.tokens ++ json_tokens (text_json text.now)) }
{
    match str::from_utf8(text) {
        Ok(string) => json.string(string),
        Err(_) => put_bytes(json, text),
    }
}

/// Adds a member: a name and a text.
pub fn put_member(json: &mut Writer, name: &str, text: &[u8]) -> Result<(), AllocError>
    ensures before { json.new.before ≡ json.old.before }
    ensures tokens { OnOk result
        (json.new.tokens ≡ json.old.tokens ++ tokens_of_member (name.now, text_json text.now)) }
{
    json.key(name)?;
    put_text(json, text)
}

/// Adds a member: a name and a number.
pub fn put_number(json: &mut Writer, name: &str, n: u32) -> Result<(), AllocError>
    ensures before { json.new.before ≡ json.old.before }
    ensures tokens { OnOk result
        (json.new.tokens ≡ json.old.tokens ++ tokens_of_member (name.now, number_json n)) }
{
    json.key(name)?;
    json.u64(u64::from(n))
}

/// Adds a member: a name and a number.
pub fn put_count(json: &mut Writer, name: &str, n: u64) -> Result<(), AllocError>
    ensures before { json.new.before ≡ json.old.before }
    ensures tokens { OnOk result
        (json.new.tokens ≡ json.old.tokens ++ tokens_of_member (name.now, number_json n)) }
{
    json.key(name)?;
    json.u64(n)
}

/// Adds a member: a name, and whether something is so.
pub fn put_flag(json: &mut Writer, name: &str, holds: bool) -> Result<(), AllocError>
    ensures before { json.new.before ≡ json.old.before }
    ensures tokens { OnOk result
        (json.new.tokens ≡ json.old.tokens ++ tokens_of_member (name.now, boolean holds)) }
{
    json.key(name)?;
    json.boolean(holds)
}

/// The JSON that was written, as it is printed.
pub fn closed(alloc: Global, json: Writer) -> Result<Vec<u8>, AllocError>
    ensures { IfOk result (λ text. text.items ≡ escaped (json.before ++ print json.tokens)) }
{
    escaped(alloc, json.into_inner())
}

/// The JSON that was written, as it is printed, and a newline.
pub fn ended(alloc: Global, json: Writer) -> Result<Vec<u8>, AllocError>
    ensures { IfOk result
        (λ line. line.items ≡ escaped (json.before ++ print json.tokens) ++ byte "\n" ∷ []) }
{
    let mut line = closed(alloc, json)?;
    line.push(b'\n')?;
    Ok(line)
}

//! Findings as a log in SARIF.
ghost use Rattle.std.specs.Prelude.{◌≡◌, ◌++◌, ◌∷◌, [], IfOk, OnOk, Some, codes, drop, flat_map};
ghost use Rattle.std.specs.Option.{option_map};
ghost use Rattle.hex.specs.Hex.{encode_upper};
ghost use Rattle.hwdb_spec.specs.Lines.{byte};
ghost use Rattle.json.specs.Tree.{json_tokens};
ghost use Rattle.hwdb_spec_commands.specs.Json.{object_of, text_json};
ghost use Rattle.hwdb_spec_commands.specs.Logs;

use crate::annotations::Annotation;
use crate::findings::push_count;
use hwdb_show::{closed, put_member};
use json::Writer;
use std::alloc::{AllocError, Global};

/// What a log begins with.
const LOG_HEAD: &str =
    "{\"$schema\":\"https://json.schemastore.org/sarif-2.1.0.json\",\"version\":\"2.1.0\",\"runs\":[{\"tool\":{\"driver\":{\"name\":\"hwdb\"}},\"results\":[\n";

/// What it ends with.
const LOG_END: &str = "]}]}\n";

/// The hexadecimal digits of a URI.
const DIGITS: [u8; 16] = *b"0123456789ABCDEF";

/// Whether a byte of a path stands for itself in a URI.
fn is_plain(byte: u8) -> bool
    ensures { result ≡ Logs.is_plain byte }
{
    matches!(
        byte,
        b'0'..=b'9' | b'A'..=b'Z' | b'a'..=b'z' | b'-' | b'.' | b'_' | b'~' | b'/'
    )
}

/// Adds `%` and a byte's two hexadecimal digits. The only error, here and below, is `AllocError`.
#[tactic(auto, unfolding(hex::specs::Hex::encode_with))]
fn push_escape(text: &mut Vec<u8>, code: u8) -> Result<(), AllocError>
    ensures { OnOk result
        (text.new.items ≡ text.old.items ++ (byte "%" ∷ encode_upper (code ∷ []))) }
{
    text.push(b'%')?;
    text.push(DIGITS[(code / 16) as usize])?;
    text.push(DIGITS[(code % 16) as usize])?;
    Ok(())
}

/// Adds a byte of a path in a URI.
fn push_uri_byte(text: &mut Vec<u8>, byte: u8) -> Result<(), AllocError>
    ensures { OnOk result (text.new.items ≡ text.old.items ++ Logs.uri_byte byte) }
{
    if is_plain(byte) {
        text.push(byte)?;
        return Ok(());
    }
    push_escape(text, byte)
}

/// Adds a path in a URI.
fn push_uri(text: &mut Vec<u8>, path: &[u8]) -> Result<(), AllocError>
    ensures { OnOk result (text.new.items ≡ text.old.items ++ flat_map Logs.uri_byte path.now) }
{
    for byte in path {
        push_uri_byte(text, *byte)?;
    }
    Ok(())
}

/// Adds the line of a finding, after its path.
fn push_line(text: &mut Vec<u8>, line: u64) -> Result<(), AllocError>
    ensures { OnOk result (text.new.items ≡ text.old.items ++ Logs.line_part line) }
{
    text.extend_from_slice("\"},\"region\":{\"startLine\":".as_bytes())?;
    push_count(text, line)
}

/// Adds its column.
fn push_column(text: &mut Vec<u8>, column: u64) -> Result<(), AllocError>
    ensures { OnOk result (text.new.items ≡ text.old.items ++ Logs.column_part column) }
{
    text.extend_from_slice(",\"startColumn\":".as_bytes())?;
    push_count(text, column)?;
    text.extend_from_slice(b"}}}]")?;
    Ok(())
}

/// Adds where a finding is.
fn push_place(text: &mut Vec<u8>, found: &Annotation<'_>) -> Result<(), AllocError>
    ensures { OnOk result (text.new.items ≡ text.old.items
        ++ Logs.place_member found.now.path.now found.now.line found.now.column) }
{
    text.extend_from_slice(
        "\"locations\":[{\"physicalLocation\":{\"artifactLocation\":{\"uri\":\"".as_bytes(),
    )?;
    push_uri(text, found.path)?;
    push_line(text, found.line)?;
    push_column(text, found.column)
}

/// Adds the object of a text.
fn put_object(json: &mut Writer, text: &[u8]) -> Result<(), AllocError>
    ensures before { json.new.before ≡ json.old.before }
    ensures tokens { OnOk result (json.new.tokens ≡ json.old.tokens
        ++ json_tokens (object_of ((codes "text", text_json text.now) ∷ []))) }
{
    json.begin_object()?;
    put_member(json, "text", text)?;
    json.end_object()
}

/// A text as an object.
fn object_of(alloc: Global, text: &[u8]) -> Result<Vec<u8>, AllocError>
    ensures { IfOk result (λ json. json.items ≡ Logs.text_object text.now) }
{
    let mut json = Writer::new(Vec::new(alloc));
    put_object(&mut json, text)?;
    closed(alloc, json)
}

/// Adds what is found.
fn push_message(alloc: Global, text: &mut Vec<u8>, found: &[u8]) -> Result<(), AllocError>
    ensures { OnOk result (text.new.items ≡ text.old.items ++ Logs.message_member found.now) }
{
    let object = object_of(alloc, found)?;
    text.extend_from_slice("\"message\":".as_bytes())?;
    text.extend_from_slice(&object)?;
    Ok(())
}

/// Adds a text.
fn push_text(text: &mut Vec<u8>, more: &str) -> Result<(), AllocError>
    ensures { OnOk result (text.new.items ≡ text.old.items ++ more.now) }
{
    text.extend_from_slice(more.as_bytes())
}

/// Adds the kind of a finding.
fn push_kind(text: &mut Vec<u8>, kind: &str) -> Result<(), AllocError>
    ensures { OnOk result (text.new.items ≡ text.old.items ++ Logs.kind_part kind.now) }
{
    push_text(text, ",{\"ruleId\":\"")?;
    push_text(text, kind)
}

/// Adds its severity.
fn push_severity(text: &mut Vec<u8>, severity: &str) -> Result<(), AllocError>
    ensures { OnOk result (text.new.items ≡ text.old.items ++ Logs.severity_part severity.now) }
{
    push_text(text, "\",\"level\":\"")?;
    push_text(text, severity)?;
    push_text(text, "\",")
}

/// Adds the line that a fix replaces.
fn push_deleted(text: &mut Vec<u8>, line: u64, after: u64) -> Result<(), AllocError>
    ensures { OnOk result (text.new.items ≡ text.old.items ++ Logs.deleted_part line after) }
{
    push_text(
        text,
        "\"},\"replacements\":[{\"deletedRegion\":{\"startLine\":",
    )?;
    push_count(text, line)?;
    push_text(text, ",\"startColumn\":1,\"endColumn\":")?;
    push_count(text, after)
}

/// Adds a text as an object.
fn push_object(alloc: Global, text: &mut Vec<u8>, more: &[u8]) -> Result<(), AllocError>
    ensures { OnOk result (text.new.items ≡ text.old.items ++ Logs.text_object more.now) }
{
    let object = object_of(alloc, more)?;
    text.extend_from_slice(&object)?;
    Ok(())
}

/// Adds the line that comes in its place.
fn push_inserted(alloc: Global, text: &mut Vec<u8>, meant: &[u8]) -> Result<(), AllocError>
    ensures { OnOk result (text.new.items ≡ text.old.items ++ Logs.inserted_part meant.now) }
{
    push_text(text, "},\"insertedContent\":")?;
    push_object(alloc, text, meant)?;
    push_text(text, "}]}]}]")
}

/// Adds the file that a fix changes.
fn push_changed(text: &mut Vec<u8>, path: &[u8]) -> Result<(), AllocError>
    ensures { OnOk result (text.new.items ≡ text.old.items ++ Logs.changed_part path.now) }
{
    push_text(
        text,
        ",\"fixes\":[{\"artifactChanges\":[{\"artifactLocation\":{\"uri\":\"",
    )?;
    push_uri(text, path)
}

/// Adds the fix of a line, which ends before a column.
fn push_fix(
    alloc: Global,
    text: &mut Vec<u8>,
    found: &Annotation<'_>,
    after: u64,
    meant: &[u8],
) -> Result<(), AllocError>
    ensures { OnOk result (text.new.items ≡ text.old.items
        ++ Logs.fix_part found.now.path.now found.now.line after meant.now) }
{
    push_changed(text, found.path)?;
    push_deleted(text, found.line, after)?;
    push_inserted(alloc, text, meant)
}

/// The same, if the line as it was likely meant is UTF-8.
fn push_fix_if(
    alloc: Global,
    text: &mut Vec<u8>,
    found: &Annotation<'_>,
    after: u64,
    meant: &[u8],
) -> Result<(), AllocError>
    ensures { OnOk result (text.new.items ≡ text.old.items
        ++ Logs.fixes_member found.now.path.now found.now.line after (Some meant.now)) }
{
    match str::from_utf8(meant) {
        Ok(_) => push_fix(alloc, text, found, after, meant),
        Err(_) => Ok(()),
    }
}

/// Adds the line as it was likely meant, if that is sure.
fn push_fixes(
    alloc: Global,
    text: &mut Vec<u8>,
    found: &Annotation<'_>,
    after: u64,
    fix: &Option<Vec<u8>>,
) -> Result<(), AllocError>
    ensures { OnOk result (text.new.items ≡ text.old.items
        ++ Logs.fixes_member found.now.path.now found.now.line after
        (option_map (λ t. t.items) fix.now)) }
{
    match fix {
        Some(meant) => push_fix_if(alloc, text, found, after, meant),
        None => Ok(()),
    }
}

/// Adds where it is, its fix, and the end of its line.
fn push_rest(
    alloc: Global,
    text: &mut Vec<u8>,
    found: &Annotation<'_>,
    after: u64,
    fix: &Option<Vec<u8>>,
) -> Result<(), AllocError>
    ensures { OnOk result (text.new.items ≡ text.old.items ++ (byte "," ∷ (Logs.place_member
        found.now.path.now found.now.line found.now.column
        ++ (Logs.fixes_member found.now.path.now found.now.line after
        (option_map (λ t. t.items) fix.now) ++ codes "}\n")))) }
{
    text.push(b',')?;
    push_place(text, found)?;
    push_fixes(alloc, text, found, after, fix)?;
    push_text(text, "}\n")
}

/// Adds the result of a finding, after a comma, on a line of its own. The line of the file ends before a column, and was likely
/// meant as `fix`.
pub fn push_result(
    alloc: Global,
    text: &mut Vec<u8>,
    found: &Annotation<'_>,
    after: u64,
    fix: &Option<Vec<u8>>,
) -> Result<(), AllocError>
    ensures { OnOk result (text.new.items ≡ text.old.items ++ Logs.result_line
        found.now.severity.now found.now.path.now found.now.line found.now.column
        found.now.kind.now found.now.text.now after (option_map (λ t. t.items) fix.now)) }
{
    push_kind(text, found.kind)?;
    push_severity(text, found.severity)?;
    push_message(alloc, text, found.text)?;
    push_rest(alloc, text, found, after, fix)
}

/// The bytes after the first one.
fn after_first(bytes: &[u8]) -> &[u8]
    ensures { result.now ≡ drop 1 bytes.now }
{
    if bytes.is_empty() {
        return bytes;
    }
    &bytes[1..]
}

/// The log of results.
pub fn log_of(alloc: Global, results: &[u8]) -> Result<Vec<u8>, AllocError>
    ensures { IfOk result (λ log. log.items ≡ Logs.log_text results.now) }
{
    let mut log = Vec::new(alloc);
    log.extend_from_slice(LOG_HEAD.as_bytes())?;
    log.extend_from_slice(after_first(results))?;
    log.extend_from_slice(LOG_END.as_bytes())?;
    Ok(log)
}

//! The rows of a file, as `read_line_full` of systemd's fileio.c cuts them.
ghost use Rattle.std.specs.Prelude.{◌≡◌, ◌≤◌, length, map, IfOk, drop};
ghost use Rattle.std.specs.List.{position_or_len, prefix_len};
ghost use Rattle.hwdb_spec.specs.Lines;
ghost use Rattle.hwdb_rulefiles.specs.RuleText;
ghost use Rattle.hwdb_rulefiles.specs.Views.{text_of};

use std::alloc::{AllocError, Global};

/// Whether a text begins with the byte.
pub fn begins_with(byte: u8, text: &[u8]) -> bool
    ensures { result ≡ Lines.begins_with byte text.now }
{
    if text.is_empty() {
        return false;
    }
    text[0] == byte
}

/// Space, tab, newline and carriage return.
pub fn is_white(byte: u8) -> bool
    ensures { result ≡ RuleText.is_white byte }
{
    matches!(byte, b' ' | b'\t' | b'\n' | b'\r')
}

fn ends_row(byte: u8) -> bool
    ensures { result ≡ RuleText.ends_row byte }
{
    matches!(byte, b'\n' | b'\r' | 0)
}

/// A text without the blanks that it begins with.
pub fn unindented(text: &[u8]) -> &[u8]
    ensures { result.now ≡ RuleText.unindented text.now }
{
    let mut at = 0;
    while at < text.len() && is_white(text[at]) {
        at += 1;
    }
    &text[at..]
}

/// How long the first row is.
fn row_len(text: &[u8]) -> usize
    ensures place { result ≡ RuleText.row_len text.now }
    ensures within { result ≤ length text.now }
{
    let mut at = 0;
    while at < text.len() && !ends_row(text[at]) {
        at += 1;
    }
    at
}

/// 1 if a text begins with the byte, else 0.
fn one_if(byte: u8, text: &[u8]) -> usize
    ensures value { result ≡ RuleText.one_if byte text.now }
    ensures within { result ≤ length text.now }
{
    if begins_with(byte, text) { 1 } else { 0 }
}

/// How many bytes of a newline a text begins with.
fn newline_len(text: &[u8]) -> usize
    ensures value { result ≡ RuleText.newline_len text.now }
    ensures within { result ≤ length text.now }
{
    if begins_with(b'\n', text) {
        1 + one_if(b'\r', &text[1..])
    } else if begins_with(b'\r', text) {
        1 + one_if(b'\n', &text[1..])
    } else {
        0
    }
}

/// How many bytes end a row.
fn end_len(text: &[u8]) -> usize
    ensures value { result ≡ RuleText.end_len text.now }
    ensures within { result ≤ length text.now }
{
    let newline = newline_len(text);
    newline + one_if(0, &text[newline..])
}

/// What comes after the first row and its end.
fn after_row(text: &[u8]) -> &[u8]
    ensures { result.now ≡ RuleText.after_row text.now }
{
    let rest = &text[row_len(text)..];
    &rest[end_len(rest)..]
}

/// The rows of a file.
pub fn rows_of(alloc: Global, file: &[u8]) -> Result<Vec<&[u8]>, AllocError>
    ensures { IfOk result (λ rows. map text_of rows.items ≡ RuleText.rows file.now) }
{
    let mut rows = Vec::new(alloc);
    let mut rest = file;
    let mut most = file.len();
    while most > 0 {
        if rest.is_empty() {
            return Ok(rows);
        }
        most -= 1;
        rows.push(&rest[..row_len(rest)])?;
        rest = after_row(rest);
    }
    Ok(rows)
}

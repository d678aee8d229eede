//! Texts in colour.
ghost use Rattle.std.specs.Prelude.{◌≡◌, ◌≢◌, ◌++◌, ℕ, All, List, IfOk, OnOk, false};
ghost use Rattle.hwdb_spec_commands.specs.Colours.{at, first_part, is_same, next_part, painted, part_at, part_in_line, plain, sequence, style_of, styled, turn, without_sequences};

use hwdb_spec_commands::{LinePart, Style, TextKind};
use std::alloc::{AllocError, Global};

/// A part is left at a byte for another one.
fn at(stop: u8, byte: u8, after: LinePart, before: LinePart) -> LinePart
    ensures { result ≡ at stop byte after before }
{
    if byte == stop { after } else { before }
}

/// The part that the first byte of a line is in.
fn first_part(kind: TextKind, byte: u8) -> LinePart
    ensures { result ≡ first_part kind byte }
{
    match kind {
        TextKind::Plain => LinePart::Value,
        TextKind::Properties | TextKind::Counts => LinePart::Key,
        TextKind::Origins => at(b' ', byte, LinePart::Blank, LinePart::Key),
        TextKind::Hits => LinePart::Path,
        TextKind::Reports => at(b' ', byte, LinePart::Blank, LinePart::Path),
        TextKind::Changes => LinePart::Mark,
        TextKind::Records => {
            let other = at(b'#', byte, LinePart::Path, LinePart::Value);
            at(b' ', byte, LinePart::Key, other)
        }
        TextKind::DeviceChanges => {
            let tilde = at(b'~', byte, LinePart::Mark, LinePart::Pattern);
            let other = at(b'-', byte, LinePart::Mark, tilde);
            at(b'+', byte, LinePart::Mark, other)
        }
    }
}

/// The part that a later byte of a line is in, by that of the byte before it.
fn next_part(kind: TextKind, before: LinePart, byte: u8) -> LinePart
    ensures { result ≡ next_part kind before byte }
{
    match (kind, before) {
        (TextKind::Counts, LinePart::Key) => at(b':', byte, LinePart::Value, before),
        (TextKind::Origins, LinePart::Blank) => {
            let other = at(b'/', byte, LinePart::Path, LinePart::Mark);
            at(b' ', byte, LinePart::Blank, other)
        }
        (TextKind::Origins, LinePart::Path) => at(b' ', byte, LinePart::Value, before),
        (TextKind::Origins, LinePart::Mark) => at(b' ', byte, LinePart::Key, before),
        (TextKind::Hits, LinePart::Path) => at(b'\t', byte, LinePart::Pattern, before),
        (TextKind::Reports, LinePart::Blank) => {
            let other = at(b'^', byte, LinePart::Mark, LinePart::Value);
            at(b' ', byte, LinePart::Blank, other)
        }
        (TextKind::Reports, LinePart::Path) => at(b':', byte, LinePart::Number, before),
        (TextKind::Reports, LinePart::Number) => at(b':', byte, LinePart::Fault, before),
        (TextKind::Changes, LinePart::Mark) => at(b'\t', byte, LinePart::Pattern, before),
        (TextKind::Changes, LinePart::Value) => at(b'\t', byte, LinePart::Path, before),
        (TextKind::Changes, LinePart::Path) => at(b'\t', byte, LinePart::Key, before),
        (TextKind::DeviceChanges, LinePart::Mark) => at(b'\t', byte, LinePart::Key, before),
        (TextKind::DeviceChanges, LinePart::Value) => at(b'\t', byte, LinePart::Path, before),
        (TextKind::DeviceChanges, LinePart::Path) => at(b'\t', byte, LinePart::Key, before),
        (_, LinePart::Pattern) => at(b'\t', byte, LinePart::Key, before),
        (_, LinePart::Key) => at(b'=', byte, LinePart::Value, before),
        _ => before,
    }
}

/// The part that a byte is in, by that of the byte before it.
fn part_at(kind: TextKind, before: LinePart, byte: u8) -> LinePart
    ensures { result ≡ part_at kind before byte }
{
    if byte == b'\n' {
        return LinePart::Ended;
    }
    match before {
        LinePart::Ended => first_part(kind, byte),
        _ => next_part(kind, before, byte),
    }
}

/// The style of a part.
fn style_of(part: LinePart) -> Style
    ensures { result ≡ style_of part }
{
    match part {
        LinePart::Key => Style::Key,
        LinePart::Path | LinePart::Number => Style::Path,
        LinePart::Fault => Style::Fault,
        LinePart::Mark => Style::Mark,
        LinePart::Ended | LinePart::Blank | LinePart::Value | LinePart::Pattern => Style::Plain,
    }
}

/// The sequence that sets a style.
fn sequence(style: Style) -> &'static [u8]
    ensures { result.now ≡ sequence style }
{
    match style {
        Style::Plain => b"\x1b[0m",
        Style::Key => b"\x1b[0;36m",
        Style::Path => b"\x1b[0;1m",
        Style::Fault => b"\x1b[0;33m",
        Style::Mark => b"\x1b[0;32m",
    }
}

/// Whether two styles are one.
fn is_same(before: Style, now: Style) -> bool
    ensures { result ≡ is_same before now }
{
    match (before, now) {
        (Style::Plain, Style::Plain) => true,
        (Style::Key, Style::Key) => true,
        (Style::Path, Style::Path) => true,
        (Style::Fault, Style::Fault) => true,
        (Style::Mark, Style::Mark) => true,
        _ => false,
    }
}

/// Adds what comes between two bytes with these styles. The only error is want of memory.
fn push_turn(shown: &mut Vec<u8>, before: Style, now: Style) -> Result<(), AllocError>
    ensures { OnOk result (shown.new.items ≡ shown.old.items ++ turn before now) }
{
    if is_same(before, now) {
        return Ok(());
    }
    shown.extend_from_slice(sequence(now))
}

/// The text in colour: before each run of bytes with one style the sequence that sets it, and none is left set.
///
/// The only error is want of memory. Takes time in proportion to the text.
pub fn painted(alloc: Global, kind: TextKind, text: &[u8]) -> Result<Vec<u8>, AllocError>
    ensures { IfOk result (λ shown. shown.items ≡ painted kind text.now) }
{
    let mut shown = Vec::new(alloc);
    let mut before = LinePart::Ended;
    'painting: for byte in text {
        let part = part_at(kind, before, *byte);
        push_turn(&mut shown, style_of(before), style_of(part))?;
        shown.push(*byte)?;
        before = part;
    }
    push_turn(&mut shown, style_of(before), Style::Plain)?;
    Ok(shown)
}

/// Colours add nothing to a text and take nothing from it: the bytes that get styles are those of the text. Taken out
/// again, the sequences leave it as it was, if it has none of its own. A text of the kind `Plain` gets none.
pub fn colours_are_taken_out()
    ensures bytes { (kind : TextKind) (text : List ℕ) → plain (styled kind text) ≡ text }
    ensures out { (kind : TextKind) (text : List ℕ) → All (λ b. b ≢ 27) text
        → without_sequences false (painted kind text) ≡ text }
    ensures plain { (text : List ℕ) → painted TextKind.Plain text ≡ text }
{}

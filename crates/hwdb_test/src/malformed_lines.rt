//! The malformed lines of a test file: its faults, but for those of lines that want no value.
ghost use Rattle.std.specs.Prelude.{◌≡◌, ◌++◌, [], ◌∷◌, filter, not, IfOk, OnOk};
ghost use Rattle.hwdb_spec.specs.Lines;
ghost use Rattle.hwdb_spec.specs.Lines.{lines};
ghost use Rattle.hwdb_spec_commands.specs.Reports.{text_of_line};
ghost use Rattle.hwdb_spec_commands.specs.Wanted;
ghost use Rattle.hwdb_check.specs.Internal.{line_of};
ghost use Rattle.hwdb_test.specs.Views.{line_at};

use crate::wanted_lines::{WantedLine, is_none, property_of, tail, value_of};
use hwdb_check::{find_line, first_start};
use hwdb_spec::{Fault, FaultKind};
use hwdb_text::{Content, begins_with, content_of};
use std::alloc::{AllocError, Global};

/// Whether a byte is a blank.
fn is_blank(byte: u8) -> bool
    ensures { result ≡ Lines.is_blank byte }
{
    matches!(byte, 9..=13 | 32)
}

/// Whether a text begins with another byte than a blank.
fn begins_dark(text: &[u8]) -> bool
    ensures { result ≡ Wanted.begins_dark text.now }
{
    if text.is_empty() {
        return false;
    }
    !is_blank(text[0])
}

/// Whether a line is `!KEY`.
fn is_unwanted(line: &WantedLine<'_>) -> bool
    ensures { result ≡ Wanted.is_wish FaultKind.NoEquals (line_at line.now) }
{
    let body = property_of(line);
    if begins_with(b'!', body) {
        begins_dark(tail(body))
    } else {
        false
    }
}

/// Whether a line without a value is one of a test file, though it has a fault.
fn is_wish(kind: FaultKind, line: &WantedLine<'_>) -> bool
    ensures { result ≡ Wanted.is_wish kind (line_at line.now) }
{
    match kind {
        FaultKind::NoEquals => is_unwanted(line),
        FaultKind::EmptyKey => is_none(value_of(line)),
        FaultKind::StrayProperty => false,
        FaultKind::NoProperty => false,
        FaultKind::StrayMatch => false,
        FaultKind::ZeroByte => false,
        FaultKind::LongMatch => false,
    }
}

/// Whether a clean line is.
fn is_clean_wish(fault: Fault, text: &[u8]) -> bool
    ensures { result ≡ Wanted.is_wish fault.kind (line_of fault.line text.now) }
{
    let number = fault.line as u64;
    is_wish(fault.kind, &WantedLine { number, text })
}

/// Whether the line of a fault is one all the same.
fn is_excused(fault: Fault, text: &[u8]) -> bool
    ensures { result ≡ Wanted.is_excused fault text.now }
{
    match content_of(text) {
        Content::Comment => false,
        Content::ZeroByte => false,
        Content::Empty => is_clean_wish(fault, &[]),
        Content::Property(clean) => is_clean_wish(fault, clean),
        Content::Match(clean) => is_clean_wish(fault, clean),
    }
}

/// Adds a fault, if its line isn't. The only error, here and below, is `AllocError`.
fn push_if_wrong(list: &mut Vec<Fault>, fault: Fault, text: &[u8]) -> Result<(), AllocError>
    ensures { OnOk result (list.new.items ≡ list.old.items
        ++ filter (λ f. not (Wanted.is_excused f text.now)) (fault ∷ [])) }
{
    if !is_excused(fault, text) {
        list.push(fault)?;
    }
    Ok(())
}

/// The malformed lines of a test file that has these faults.
pub fn malformed_of(alloc: Global, bytes: &[u8], all: &[Fault]) -> Result<Vec<Fault>, AllocError>
    ensures { IfOk result (λ list. list.items ≡ filter
        (λ f. not (Wanted.is_excused f (text_of_line (lines bytes.now) f.line))) all.now) }
{
    let mut list = Vec::new(alloc);
    let mut start = first_start();
    for fault in all {
        let (found, line) = find_line(bytes, start, fault.line);
        start = found;
        push_if_wrong(&mut list, *fault, line)?;
    }
    Ok(list)
}

//! Files of whose lines only the marks of comments have to be looked at, as most large files are.
//!
//! Such a file has no faults and no carriage return. Each of its records has one match line, which is a pattern that udev may ask. Its
//! properties are the common ones, of which nothing is to say. That is seen in the file's assignments. A line of it gets no warning but
//! that of a value that is cut.
ghost use Rattle.std.specs.Prelude.{◌≡◌, ◌<◌, ◌≤◌, ◌+◌, ◌∷◌, drop, get_or, length, map, take, true, IfOk};
ghost use Rattle.std.specs.List.{position_or_len};
ghost use Rattle.hwdb_spec.specs.Lines;
ghost use Rattle.hwdb_spec.specs.Lines.{is};
ghost use Rattle.hwdb_spec.specs.Records;
ghost use Rattle.hwdb_text.specs.Views.{given_in};
ghost use Rattle.hwdb_check.specs.Internal.{own};
ghost use Rattle.hwdb_check.specs.Plain.{AreSteady, IsPlainAssignment, IsPlainFile, IsPlainPattern, IsPlainProperty, IsTame};

use crate::fragile::is_fragile_line;
use crate::judgements::{is_unmatched, said_of};
use crate::line_warnings::{
    begins_with_mark, begins_with_tab, has_return, holds_bracket, is_spaced, is_too_long,
    may_be_too_deep,
};
use crate::replacements::ascend;
use hwdb_properties::is_common;
use hwdb_spec::Fault;
use hwdb_text::{Given, end_of};
use std::alloc::{AllocError, Global};

/// Whether a pattern gets no warning. The only error, here and below, is `AllocError`.
fn is_plain_pattern(alloc: Global, pattern: &[u8]) -> Result<bool, AllocError>
    ensures { IfOk result (λ plain. plain ≡ true → IsPlainPattern pattern.now) }
{
    if begins_with_mark(pattern) {
        return Ok(false);
    }
    if begins_with_tab(pattern) {
        return Ok(false);
    }
    if holds_bracket(pattern) {
        return Ok(false);
    }
    if is_too_long(pattern) {
        return Ok(false);
    }
    if may_be_too_deep(pattern) {
        return Ok(false);
    }
    if is_fragile_line(pattern) {
        return Ok(false);
    }
    let said = said_of(alloc, pattern)?;
    if is_unmatched(said.judgement) {
        return Ok(false);
    }
    Ok(!is_unmatched(said.likelihood))
}

/// Whether a property is a common one, with no blank beside its `=`.
fn is_plain_property(key: &[u8], value: &[u8]) -> bool
    ensures { result ≡ true → IsPlainProperty key.now value.now }
{
    if !is_common(key) {
        return false;
    }
    !is_spaced(key, value)
}

/// Whether an assignment is below a line, and its property and its pattern get no warning.
fn is_plain_given(alloc: Global, above: u32, given: &Given<'_>) -> Result<bool, AllocError>
    ensures below { IfOk result (λ plain. plain ≡ true → above < given.now.line) }
    ensures plain { IfOk result (λ plain. plain ≡ true
        → IsPlainAssignment (given_in own given.now)) }
{
    if given.line <= above {
        return Ok(false);
    }
    if !is_plain_property(given.key, given.value) {
        return Ok(false);
    }
    is_plain_pattern(alloc, given.pattern)
}

/// Whether each assignment is below the line of the one before it, and none gets a warning.
fn are_plain(alloc: Global, all: &[Given<'_>]) -> Result<bool, AllocError>
    ensures { IfOk result (λ plain. plain ≡ true → AreSteady 0 (map (given_in own) all.now)) }
{
    let mut above = 0;
    for given in all {
        if !is_plain_given(alloc, above, given)? {
            return Ok(false);
        }
        above = given.line;
    }
    Ok(true)
}

/// Whether a file with these assignments and these faults is plain.
pub fn is_plain(
    alloc: Global,
    bytes: &[u8],
    assignments: &[Given<'_>],
    faults: &[Fault],
) -> Result<bool, AllocError>
    requires assignments { map (given_in own) assignments.now ≡ Records.assignments own bytes.now }
    requires faults { faults.now ≡ Records.faults bytes.now }
    ensures { IfOk result (λ plain. plain ≡ true → IsPlainFile bytes.now) }
{
    if !faults.is_empty() {
        return Ok(false);
    }
    if has_return(bytes) {
        return Ok(false);
    }
    if !ascend(assignments) {
        return Ok(false);
    }
    hwdb_text::laws::sections_are_the_block();
    are_plain(alloc, assignments)
}

/// Whether a byte is a blank.
fn is_blank(byte: u8) -> bool
    ensures { result ≡ Lines.is_blank byte }
{
    matches!(byte, 9..=13 | 32)
}

/// Whether the byte before a place is a blank. A newline comes before the first line.
fn is_after_blank(text: &[u8], place: usize) -> bool
    requires { place ≤ length text.now }
    ensures { result ≡ true → Lines.is_blank (get_or (10 ∷ text.now) place 0) ≡ true }
{
    if place == 0 {
        return true;
    }
    is_blank(text[place - 1])
}

/// How many bytes of a text, from the beginning of a line on, have no `#` but after blanks: up to the first other one, or to its end.
pub fn tame_size(text: &[u8]) -> usize
    ensures { IsTame 10 (take result text.now) }
{
    let mut at = 0;
    while at < text.len() {
        let place = at + end_of(b'#', &text[at..]);
        if place == text.len() {
            return place;
        }
        if !is_after_blank(text, place) {
            return place;
        }
        at = place + 1;
    }
    at
}

/// How many of the bytes after a line are tame, if so many are from its beginning on. They are looked for if the line has another one.
pub fn tame_after(rest: &[u8], end: usize, tame: usize) -> usize
    requires end { end ≡ position_or_len (is 10) rest.now }
    requires tame { IsTame 10 (take tame rest.now) }
    ensures { IsTame 10 (take result (drop (end + 1) rest.now)) }
{
    if end >= rest.len() {
        return 0;
    }
    if end < tame {
        return tame - end - 1;
    }
    tame_size(&rest[end + 1..])
}

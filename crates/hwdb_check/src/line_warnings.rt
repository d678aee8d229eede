//! Which warnings a line gets, by its clean text.
ghost use Rattle.std.specs.Prelude.{◌≡◌, ◌≤◌, ◌-◌, ℕ, List, [], drop, length, nat_lt, take, true, false, if◌then◌else◌};
ghost use Rattle.std.specs.List.{list_any, position_or_len};
ghost use Rattle.hwdb_spec.specs.Forms;
ghost use Rattle.hwdb_spec.specs.Lines;
ghost use Rattle.hwdb_spec.specs.Lines.{is_indent};
ghost use Rattle.hwdb_spec.specs.Tree.{closed_part};
ghost use Rattle.hwdb_spec_commands.specs.Unmatched;
ghost use Rattle.hwdb_spec_commands.specs.Warnings;
ghost use Rattle.hwdb_spec_commands.specs.Warnings.{warns};
ghost use Rattle.hwdb_check.specs.Internal.{clean_of, line_of, read_line, IsRead};

use crate::fragile::is_fragile_line;
use crate::judgements::is_unmatched;
use crate::misuses::has_known_key;
use hwdb_pattern::{open_place, range_place};
use hwdb_spec::Judgement;
use hwdb_spec_commands::{Misuse, WarningKind};
use hwdb_text::{LONGEST_MATCH, end_of, indent_of};

/// A line that is read.
#[derive(Clone, Copy)]
pub struct Read<'a> {
    /// The path that is printed for its file.
    pub path: &'a [u8],
    /// What its file holds.
    pub bytes: &'a [u8],
    /// Its number, from 1.
    pub number: u64,
    /// Its text.
    pub text: &'a [u8],
    /// Its clean text.
    pub clean: &'a [u8],
    /// Whether it is a match line that its record has already.
    pub repeated: bool,
    /// The last line that replaces one of its assignments by another value; 0 if none does.
    pub replaced_by: u64,
    /// Why it doesn't fit what is known of properties.
    pub misuse: Option<Misuse>,
    /// Whether its property isn't read below any of its patterns.
    pub unread: bool,
    /// Whether its property lacks another one, with which alone it is read.
    pub unpaired: bool,
    /// What is said of it as a pattern.
    pub judgement: Judgement,
    /// What is said of its likelihood, if it is a pattern that matches a text that udev asks.
    pub likelihood: Judgement,
}

/// Whether a text begins with a byte order mark.
pub fn begins_with_mark(text: &[u8]) -> bool
    ensures { result ≡ warns [] WarningKind.ByteOrderMark (line_of 0 []) (line_of 0 text.now) }
{
    text.len() > 2 && text[0] == 239 && text[1] == 187 && text[2] == 191
}

/// Whether a text begins with a tab.
pub fn begins_with_tab(text: &[u8]) -> bool
    ensures { result ≡ warns [] WarningKind.LeadingTab (line_of 0 []) (line_of 0 text.now) }
{
    !text.is_empty() && text[0] == b'\t'
}

/// Whether a text has a carriage return.
pub fn has_return(text: &[u8]) -> bool
    ensures { result ≡ warns [] WarningKind.CarriageReturn (line_of 0 []) (line_of 0 text.now) }
{
    end_of(b'\r', text) < text.len()
}

/// Whether a clean line is a property.
pub fn is_property(clean: &[u8]) -> bool
    ensures { result ≡ Lines.is_property (line_of 0 clean.now) }
{
    !clean.is_empty() && clean[0] == b' '
}

/// Whether a clean line is a match line.
pub fn is_match(clean: &[u8]) -> bool
    ensures { result ≡ Lines.is_match (line_of 0 clean.now) }
{
    !clean.is_empty() && clean[0] != b' '
}

/// The text before the first `[` of a pattern that begins no closed bracket.
pub fn closed(pattern: &[u8]) -> &[u8]
    ensures { result.now ≡ closed_part pattern.now }
{
    &pattern[..open_place(pattern)]
}

/// Whether a `[` of a match line begins no closed bracket.
fn has_open_bracket(clean: &[u8]) -> bool
    ensures { result ≡ warns [] WarningKind.OpenBracket (line_of 0 []) (line_of 0 clean.now) }
{
    is_match(clean) && open_place(clean) < clean.len()
}

/// Whether a text has a `[`.
pub fn holds_bracket(text: &[u8]) -> bool
    ensures { result ≡ Lines.has 91 text.now }
{
    end_of(b'[', text) < text.len()
}

/// Whether a range of a match line has no members, before the first `[` that begins no closed bracket.
fn has_empty_range(clean: &[u8]) -> bool
    ensures { result ≡ warns [] WarningKind.EmptyRange (line_of 0 []) (line_of 0 clean.now) }
{
    if !is_match(clean) {
        return false;
    }
    let part = closed(clean);
    if !holds_bracket(part) {
        return false;
    }
    range_place(part) < part.len()
}

/// Whether a match line has a `[` that begins no closed bracket, or a range without members. Most match lines have no `[`.
fn has_odd_bracket(clean: &[u8]) -> bool
    ensures open { result ≡ false
        → warns [] WarningKind.OpenBracket (line_of 0 []) (line_of 0 clean.now) ≡ false }
    ensures range { result ≡ false
        → warns [] WarningKind.EmptyRange (line_of 0 []) (line_of 0 clean.now) ≡ false }
{
    if !is_match(clean) {
        return false;
    }
    if !holds_bracket(clean) {
        return false;
    }
    if has_open_bracket(clean) {
        return true;
    }
    has_empty_range(clean)
}

/// Whether a text has a space or a tab.
fn has_blank(text: &[u8]) -> bool
    ensures { result ≡ list_any is_indent text.now }
{
    text.iter().any(|byte| *byte == b' ' || *byte == b'\t')
}

/// Whether a key ends with a blank, or a value begins with one.
pub fn is_spaced(key: &[u8], value: &[u8]) -> bool
    ensures { result
        ≡ (if list_any is_indent (drop (length key.now - 1) key.now) then true
        else list_any is_indent (take 1 value.now)) }
{
    let last = key.len().saturating_sub(1);
    let first = value.len().min(1);
    has_blank(&key[last..]) || has_blank(&value[..first])
}

/// Whether a blank is beside the first `=` of a property that has a key.
fn has_spaced_equals(clean: &[u8]) -> bool
    ensures { result ≡ warns [] WarningKind.SpacedEquals (line_of 0 []) (line_of 0 clean.now) }
{
    if !is_property(clean) {
        return false;
    }
    let body = &clean[indent_of(clean)..];
    let equals = end_of(b'=', body);
    if equals == body.len() {
        return false;
    }
    if equals == 0 {
        return false;
    }
    is_spaced(&body[..equals], &body[equals + 1..])
}

/// Whether a text has a `=`.
fn holds_equals(text: &[u8]) -> bool
    ensures { result ≡ Lines.has 61 text.now }
{
    end_of(b'=', text) < text.len()
}

/// Whether a property has a `=`.
pub fn has_equals(clean: &[u8]) -> bool
    ensures { result ≡ Lines.has_equals (line_of 0 clean.now) }
{
    holds_equals(&clean[indent_of(clean)..])
}

/// Whether a `#` comes in a text right after its first bytes, the clean text.
fn is_cut(text: &[u8], clean: &[u8]) -> bool
    ensures { result ≡ Warnings.is_cut (line_of 0 text.now) (line_of 0 clean.now) }
{
    clean.len() < text.len() && text[clean.len()] == b'#'
}

/// Whether a `#` cuts the value of a property, and no blank comes before it.
fn has_cut_value(text: &[u8], clean: &[u8]) -> bool
    ensures { result
        ≡ warns [] WarningKind.CutValue (line_of 0 text.now) (line_of 0 clean.now) }
{
    if !is_property(clean) {
        return false;
    }
    if !is_cut(text, clean) {
        return false;
    }
    has_equals(clean)
}

/// How many bytes of a pattern udev can take from its first wildcard on.
const LONGEST_REST: usize = 2046;

/// Whether a byte is or may begin a wildcard.
fn is_wild(byte: u8) -> bool
    ensures { result ≡ Forms.is_wild byte }
{
    byte == b'*' || byte == b'?' || byte == b'['
}

/// The place of the first `*`, `?` or `[` of a text; its length if it has none.
pub fn wild_place(text: &[u8]) -> usize
    ensures place { result ≡ position_or_len Forms.is_wild text.now }
    ensures within { result ≤ length text.now }
{
    let mut place = 0;
    while place < text.len() && !is_wild(text[place]) {
        place += 1;
    }
    place
}

/// Whether udev can't take a pattern.
fn has_long_rest(pattern: &[u8]) -> bool
    ensures { result ≡ nat_lt Warnings.longest_rest (length (Warnings.wild_rest pattern.now)) }
{
    let rest = &pattern[wild_place(pattern)..];
    rest.len() > LONGEST_REST
}

/// Whether udev can't take a match line that is read.
pub fn is_too_long(clean: &[u8]) -> bool
    ensures { result ≡ Warnings.is_too_long (line_of 0 clean.now) }
{
    if !is_match(clean) {
        return false;
    }
    if clean.len() > LONGEST_MATCH {
        return false;
    }
    has_long_rest(clean)
}

/// How many bytes a match line may have so that no database of it is too deep for udev.
pub const LONGEST_LINE: usize = 2047;

/// Whether a database may be too deep for udev with a match line that is read, which isn't told as too long.
pub fn may_be_too_deep(clean: &[u8]) -> bool
    ensures { result ≡ Warnings.may_be_too_deep (line_of 0 clean.now) }
{
    if is_too_long(clean) {
        return false;
    }
    if !is_match(clean) {
        return false;
    }
    if clean.len() > LONGEST_MATCH {
        return false;
    }
    clean.len() > LONGEST_LINE
}

/// Whether a later line replaces one, if that one's number or 0 is given.
fn is_replaced(by: u64) -> bool
    ensures { result ≡ nat_lt 0 by }
{
    by > 0
}

/// Whether a line gets a warning.
pub fn is_warned(kind: WarningKind, line: &Read<'_>) -> bool
    requires { IsRead line.now }
    ensures { result ≡ warns line.now.bytes.now kind (read_line line.now)
        (line_of line.now.number line.now.clean.now) }
{
    match kind {
        WarningKind::ByteOrderMark => begins_with_mark(line.clean),
        WarningKind::LeadingTab => begins_with_tab(line.clean),
        WarningKind::CarriageReturn => has_return(line.clean),
        WarningKind::OpenBracket => has_open_bracket(line.clean),
        WarningKind::EmptyRange => has_empty_range(line.clean),
        WarningKind::SpacedEquals => has_spaced_equals(line.clean),
        WarningKind::CutValue => has_cut_value(line.text, line.clean),
        WarningKind::RepeatedMatch => line.repeated,
        WarningKind::Replaced(_) => is_replaced(line.replaced_by),
        WarningKind::Misused(_) => line.misuse.is_some(),
        WarningKind::Unread(_) => line.unread,
        WarningKind::Unpaired => line.unpaired,
        WarningKind::Unmatched(_) => is_unmatched(line.judgement),
        WarningKind::Unlikely(_) => is_unmatched(line.likelihood),
        WarningKind::TooLongForUdev => is_too_long(line.clean),
        WarningKind::MayBeTooDeep => may_be_too_deep(line.clean),
        WarningKind::Fragile => is_fragile_line(line.clean),
    }
}

/// Whether a line gets a warning of some kind, told or not. Most lines get none, and aren't asked about again.
pub fn is_warned_at_all(line: &Read<'_>) -> bool
    requires { IsRead line.now }
    ensures { result ≡ false → (allowed : List (List ℕ))
        → Warnings.all_warnings allowed line.now.bytes.now (read_line line.now) (clean_of line.now)
        ≡ [] }
{
    if line.repeated {
        return true;
    }
    if is_replaced(line.replaced_by) {
        return true;
    }
    if line.misuse.is_some() {
        return true;
    }
    if line.unread {
        return true;
    }
    if line.unpaired {
        return true;
    }
    if is_unmatched(line.judgement) {
        return true;
    }
    if is_unmatched(line.likelihood) {
        return true;
    }
    if begins_with_mark(line.clean) {
        return true;
    }
    if begins_with_tab(line.clean) {
        return true;
    }
    if has_return(line.clean) {
        return true;
    }
    if has_odd_bracket(line.clean) {
        return true;
    }
    if has_spaced_equals(line.clean) {
        return true;
    }
    if has_cut_value(line.text, line.clean) {
        return true;
    }
    if is_too_long(line.clean) {
        return true;
    }
    if may_be_too_deep(line.clean) {
        return true;
    }
    is_fragile_line(line.clean)
}

/// The kinds of warnings that a line may get.
pub fn kinds_of(line: &Read<'_>) -> [WarningKind; 17]
    requires { IsRead line.now }
    ensures { result ≡ Warnings.line_kinds line.now.bytes.now (clean_of line.now) }
{
    [
        WarningKind::ByteOrderMark,
        WarningKind::LeadingTab,
        WarningKind::CarriageReturn,
        WarningKind::OpenBracket,
        WarningKind::EmptyRange,
        WarningKind::SpacedEquals,
        WarningKind::CutValue,
        WarningKind::RepeatedMatch,
        WarningKind::Replaced(line.replaced_by),
        WarningKind::Misused(line.misuse.unwrap_or(Misuse::NearName)),
        WarningKind::Unread(has_known_key(line.clean)),
        WarningKind::Unpaired,
        WarningKind::Unmatched(line.judgement),
        WarningKind::Unlikely(line.likelihood),
        WarningKind::TooLongForUdev,
        WarningKind::MayBeTooDeep,
        WarningKind::Fragile,
    ]
}

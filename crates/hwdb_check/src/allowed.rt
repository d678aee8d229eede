//! Comments that let kinds of warnings pass in their record: `# hwdb: allow KIND[,KIND]`.
ghost use Rattle.std.specs.Prelude.{◌≡◌, ◌++◌, List, ℕ, drop, if◌then◌else◌, map, not, IfOk, OnOk};
ghost use Rattle.std.specs.List.{list_any};
ghost use Rattle.hwdb_spec.specs.Folders;
ghost use Rattle.hwdb_spec.specs.Lines.{is, is_none, pieces};
ghost use Rattle.hwdb_text.specs.PiecesLeft.{lines_left};
ghost use Rattle.hwdb_spec_commands.specs.AllowedKinds;
ghost use Rattle.hwdb_spec_commands.specs.AllowedKinds.{names_in, names_to_end};
ghost use Rattle.hwdb_check.specs.Kept;
ghost use Rattle.hwdb_check.specs.Kept.{AreAlike};
ghost use Rattle.hwdb_check.specs.Leaving.{all_names};

use crate::kinds::is_among;
use hwdb_properties::{after, before, same};
use hwdb_spec_commands::KINDS;
use hwdb_text::{Content, Lines, Pieces, content_of, trim, unindented};
use memchr::memmem::find;
use std::alloc::{AllocError, Global};

/// A text without the blanks around it.
pub fn stripped(text: &[u8]) -> &[u8]
    ensures { result.now ≡ AllowedKinds.stripped text.now }
{
    trim(unindented(text))
}

/// Whether a name is one of those in a text, with commas between.
pub fn is_in(name: &[u8], text: &[u8]) -> bool
    ensures { result ≡ list_any (Folders.same name.now) (names_in text.now) }
{
    for piece in Pieces::new(b',', text) {
        if same(name, stripped(piece)) {
            return true;
        }
    }
    false
}

/// A text without its first bytes.
fn past(text: &[u8], size: usize) -> &[u8]
    ensures { result.now ≡ drop size text.now }
{
    if size < text.len() {
        &text[size..]
    } else {
        &[]
    }
}

/// What comes after a word at the front of a text, without the blanks before it; nothing if the text begins otherwise.
fn after_word<'b>(word: &[u8], text: &'b [u8]) -> &'b [u8]
    ensures { result.now ≡ AllowedKinds.after_word word.now text.now }
{
    if !text.starts_with(word) {
        return &[];
    }
    unindented(past(text, word.len()))
}

/// The names in a line's comment that lets kinds pass, as they are written.
pub fn allowed_text(text: &[u8]) -> &[u8]
    ensures { result.now ≡ AllowedKinds.allowed_text text.now }
{
    let comment = before(b'#', after(b'#', text));
    after_word(b"allow ", after_word(b"hwdb:", unindented(comment)))
}

/// Whether a comment of a file lets kinds pass. Most files lack the word of these comments, which is looked for first.
pub fn any_allowed(bytes: &[u8]) -> bool
    ensures { result ≡ list_any (λ text. not (is_none (AllowedKinds.allowed_text text)))
        (pieces (is 10) bytes.now) }
{
    if find(bytes, b"hwdb:").is_none() {
        return false;
    }
    any_line_allowed(bytes)
}

/// The same, line by line.
fn any_line_allowed(bytes: &[u8]) -> bool
    ensures { result ≡ list_any (λ text. not (is_none (AllowedKinds.allowed_text text)))
        (pieces (is 10) bytes.now) }
{
    for text in Lines::new(bytes) {
        if !allowed_text(text).is_empty() {
            return true;
        }
    }
    false
}

/// Whether a line ends a record.
pub fn ends_record(text: &[u8]) -> bool
    ensures { result ≡ AllowedKinds.ends_record text.now }
{
    match content_of(text) {
        Content::Comment => false,
        Content::ZeroByte => false,
        Content::Empty => true,
        Content::Property(_) => false,
        Content::Match(_) => false,
    }
}

/// Adds what a line's comment lets pass, if it does. The only error, here and below, is `AllocError`.
fn put_allowed<'b>(allowed: &mut Vec<&'b [u8]>, text: &'b [u8]) -> Result<(), AllocError>
    ensures { OnOk result (all_names allowed.new.items
        ≡ all_names allowed.old.items ++ names_in (AllowedKinds.allowed_text text.now)) }
{
    let own = allowed_text(text);
    if !own.is_empty() {
        allowed.push(own)?;
    }
    Ok(())
}

/// These texts, and what comments let pass in some lines up to the first one that ends a record.
fn to_end<'b>(
    alloc: Global,
    allowed: &[&'b [u8]],
    lines: Lines<'b>,
) -> Result<Vec<&'b [u8]>, AllocError>
    ensures { IfOk result (λ own. all_names own.items
        ≡ all_names allowed.now ++ names_to_end (lines_left lines.entry)) }
{
    let mut own = Vec::new(alloc);
    own.extend_from_slice(allowed)?;
    for text in lines {
        put_allowed(&mut own, text)?;
        if ends_record(text) {
            return Ok(own);
        }
    }
    Ok(own)
}

/// Adds a text, if this name is one of those in some texts.
fn put_kept<'k>(
    kinds: &mut Vec<&'k [u8]>,
    texts: &[&[u8]],
    name: &[u8],
    text: &'k [u8],
) -> Result<(), AllocError>
    ensures { OnOk result (all_names kinds.new.items ≡ all_names kinds.old.items
        ++ Kept.kept_of (map (λ t. t.now) texts.now) name.now text.now) }
{
    if is_among(name, texts) {
        kinds.push(text)?;
    }
    Ok(())
}

/// The names of kinds that are among those in some texts, each once. The empty name stays, too.
fn kept(alloc: Global, texts: &[&[u8]]) -> Result<Vec<&'static [u8]>, AllocError>
    ensures { IfOk result (λ kinds. all_names kinds.items
        ≡ Kept.kept (map (λ t. t.now) texts.now)) }
{
    let mut kinds = Vec::new(alloc);
    put_kept(&mut kinds, texts, b"", b",")?;
    for kind in Pieces::new(b'\n', KINDS.as_bytes()) {
        put_kept(&mut kinds, texts, kind, kind)?;
    }
    Ok(kinds)
}

/// What is let pass in the record whose first lines these are: it takes room for the kinds alone.
pub fn record_kinds(
    alloc: Global,
    allowed: &[&[u8]],
    lines: Lines<'_>,
) -> Result<Vec<&'static [u8]>, AllocError>
    ensures { IfOk result (λ kinds. AreAlike (all_names kinds.items)
        (all_names allowed.now ++ names_to_end (lines_left lines.entry))) }
{
    let own = to_end(alloc, allowed, lines)?;
    let kinds = kept(alloc, &own)?;
    Ok(kinds)
}

/// What is let pass after a line: in its record, or in the next one, whose first lines are left.
pub fn after_line(
    alloc: Global,
    allowed: &[&[u8]],
    kinds: Vec<&'static [u8]>,
    text: &[u8],
    lines: Lines<'_>,
) -> Result<Vec<&'static [u8]>, AllocError>
    ensures { IfOk result (λ next. (names : List (List ℕ))
        → AreAlike (all_names kinds.entry.items) (all_names allowed.now ++ names)
        → AreAlike (all_names next.items) (all_names allowed.now
        ++ (if AllowedKinds.ends_record text.now then names_to_end (lines_left lines.entry)
        else names))) }
{
    if ends_record(text) {
        return record_kinds(alloc, allowed, lines);
    }
    Ok(kinds)
}

/// Whether this is the name of a kind of warning.
pub fn is_kind(name: &[u8]) -> bool
    ensures { result ≡ AllowedKinds.is_kind name.now }
{
    for kind in Pieces::new(b'\n', KINDS.as_bytes()) {
        if same(name, kind) {
            return true;
        }
    }
    false
}

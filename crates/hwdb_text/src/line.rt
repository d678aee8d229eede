//! One line, read by itself: whether it is dropped, and else its clean text and kind.
ghost use Rattle.std.specs.Prelude.{◌≡◌, ◌≤◌, length, drop};
ghost use Rattle.std.specs.List.{position_or_len, prefix_len};
ghost use Rattle.hwdb_spec.specs.Lines.{is, trimmed};
ghost use Rattle.hwdb_spec.specs.Lines;
ghost use Rattle.hwdb_text.specs.Internal.Contents.{IsContent, IsKind};

use memchr::{memchr, memchr2};

/// What a line says, by itself.
pub enum Content<'b> {
    /// The line begins with `#`.
    Comment,
    /// The line is no comment, and has a byte 0.
    ZeroByte,
    /// The clean line is empty.
    Empty,
    /// A clean property line, with its leading spaces.
    Property(&'b [u8]),
    /// A clean match line.
    Match(&'b [u8]),
}

/// What the line with this text says.
pub fn content_of(text: &[u8]) -> Content<'_>
    ensures { IsContent text.now result }
{
    let Some(place) = memchr2(0, b'#', text) else {
        return kind_of(text);
    };
    if text[place] == 0 {
        return Content::ZeroByte;
    }
    if place == 0 {
        return Content::Comment;
    }
    match memchr(0, &text[place..]) {
        Some(_) => Content::ZeroByte,
        None => kind_of(&text[..place]),
    }
}

/// The kind of a line that isn't dropped, by its text before the first `#`.
fn kind_of(text: &[u8]) -> Content<'_>
    ensures { IsKind (trimmed text.now) result }
{
    let clean = trim(text);
    if clean.is_empty() {
        Content::Empty
    } else if clean[0] == b' ' {
        Content::Property(clean)
    } else {
        Content::Match(clean)
    }
}

/// The place of the first such byte, from 0; the length of the text if there is none. One search by memchr.
pub fn end_of(needle: u8, text: &[u8]) -> usize
    ensures place { result ≡ position_or_len (is needle) text.now }
    ensures within { result ≤ length text.now }
{
    match memchr(needle, text) {
        Some(place) => place,
        None => text.len(),
    }
}

/// Whether the text begins with the byte.
pub fn begins_with(byte: u8, text: &[u8]) -> bool
    ensures { result ≡ Lines.begins_with byte text.now }
{
    if text.is_empty() {
        return false;
    }
    text[0] == byte
}

fn is_blank(byte: u8) -> bool
    ensures { result ≡ Lines.is_blank byte }
{
    matches!(byte, 9..=13 | 32)
}

/// The text without its trailing blanks.
pub fn trim(text: &[u8]) -> &[u8]
    ensures { result.now ≡ trimmed text.now }
{
    let mut end = text.len();
    while end > 0 && is_blank(text[end - 1]) {
        end -= 1;
    }
    &text[..end]
}

/// How many spaces and tabs a line begins with.
pub fn indent_of(text: &[u8]) -> usize
    ensures place { result ≡ prefix_len Lines.is_indent text.now }
    ensures within { result ≤ length text.now }
{
    let mut at = 0;
    while at < text.len() && (text[at] == b' ' || text[at] == b'\t') {
        at += 1;
    }
    at
}

/// A property line without its leading spaces and tabs.
pub fn unindented(text: &[u8]) -> &[u8]
    ensures { result.now ≡ drop (prefix_len Lines.is_indent text.now) text.now }
{
    &text[indent_of(text)..]
}

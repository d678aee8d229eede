//! Patterns that are compared with a form byte by byte, so that no tokens are made and no rows. Their bytes mean themselves,
//! but for stars at places of any number of bytes, and for a star at the end. Most patterns are so.
ghost use Rattle.std.specs.Prelude.{◌≡◌, ◌≤◌, ◌∷◌, [], IfSome, drop, length, map, true};
ghost use Rattle.hwdb_spec.specs.Patterns.{star, tokens};
ghost use Rattle.hwdb_spec.specs.Forms.{is_wild};
ghost use Rattle.hwdb_spec.specs.Forms;
ghost use Rattle.hwdb_forms.specs.Internal.{GoesThrough, IsCut, IsOfMany, IsThrough, IsThroughField, IsThroughWay, fields_of, form_of, passed_counted, passed_fixed, piece_of};
ghost use Rattle.hwdb_forms.specs.declared.leads.Passed.TheVariants.{Yes};

use crate::pieces::{FormRow, Piece};
use crate::sets::has;
use hwdb_spec::ByteSet;

/// Whether the byte is or may begin a wildcard.
pub(crate) fn is_wild(byte: u8) -> bool
    ensures { result ≡ is_wild byte }
{
    byte == b'*' || byte == b'?' || byte == b'['
}

/// Whether the text begins with these bytes, each of which means itself.
pub(crate) fn begins_plainly(bytes: &[u8], text: &[u8]) -> bool
    ensures passed { result ≡ true → passed_fixed bytes.now (tokens text.now) ≡ Yes }
    ensures cut { result ≡ true → IsCut text.now (length bytes.now) }
    ensures within { result ≡ true → length bytes.now ≤ length text.now }
{
    if text.len() < bytes.len() {
        return false;
    }
    let mut at = 0;
    while at < bytes.len() {
        if text[at] != bytes[at] {
            return false;
        }
        if is_wild(text[at]) {
            return false;
        }
        at += 1;
    }
    true
}

/// How many of the text's first bytes, at most so many, are of the set and mean themselves.
#[inline(always)]
fn plain_count(set: ByteSet, most: usize, text: &[u8]) -> usize
    ensures most { result ≤ most }
    ensures within { result ≤ length text.now }
    ensures passed { passed_counted set result (tokens text.now) ≡ Yes }
    ensures cut { IsCut text.now result }
{
    let mut at = 0;
    while at < most {
        if at >= text.len() {
            return at;
        }
        if !has(set, text[at]) {
            return at;
        }
        if is_wild(text[at]) {
            return at;
        }
        at += 1;
    }
    at
}

/// As `plain_count`. The set that most forms have gets a loop of its own.
fn count_plain(set: ByteSet, most: usize, text: &[u8]) -> usize
    ensures most { result ≤ most }
    ensures within { result ≤ length text.now }
    ensures passed { passed_counted set result (tokens text.now) ≡ Yes }
    ensures cut { IsCut text.now result }
{
    match set {
        ByteSet::UpperHex => plain_count(ByteSet::UpperHex, most, text),
        _ => plain_count(set, most, text),
    }
}

/// Whether the text is a star, and no more.
pub(crate) fn is_lone_star(text: &[u8]) -> bool
    ensures { result ≡ true → tokens text.now ≡ star ∷ [] }
{
    text.len() == 1 && text[0] == b'*'
}

/// How many of the text's first bytes are stars, or are of the set and mean themselves. It stops at a byte, and before a
/// star that is the last one.
fn many_count(set: ByteSet, stop: u8, text: &[u8]) -> usize
    ensures within { result ≤ length text.now }
    ensures cut { IsCut text.now result }
    ensures through { GoesThrough (Forms.repeated set) (tokens text.now) result }
{
    let mut at = 0;
    while at < text.len() {
        if is_lone_star(&text[at..]) {
            return at;
        }
        if text[at] == stop {
            return at;
        }
        if !is_of_many(set, text[at]) {
            return at;
        }
        at += 1;
    }
    at
}

/// Whether the byte is a star, or is of the set and means itself.
fn is_of_many(set: ByteSet, byte: u8) -> bool
    ensures { result ≡ true → IsOfMany set byte }
{
    if byte == b'*' {
        return true;
    }
    if is_wild(byte) {
        return false;
    }
    has(set, byte)
}

/// Whether a star begins the text.
fn starts_star(text: &[u8]) -> bool
    ensures star { result ≡ true → tokens text.now ≡ star ∷ tokens (drop 1 text.now) }
    ensures cut { result ≡ true → IsCut text.now 1 }
    ensures within { result ≡ true → 1 ≤ length text.now }
{
    if text.is_empty() {
        return false;
    }
    text[0] == b'*'
}

/// How many of the text's first bytes go through so many bytes of the set. A star before them takes them all and stays; one after
/// some of them takes the rest.
fn through_counted(set: ByteSet, count: usize, text: &[u8]) -> Option<usize>
    ensures { IfSome result (λ taken. IsThrough (Forms.counted set count) text.now taken) }
{
    if starts_star(text) {
        return Some(0);
    }
    let taken = count_plain(set, count, text);
    if taken == count {
        return Some(taken);
    }
    if is_lone_star(&text[taken..]) {
        return Some(taken);
    }
    None
}

/// How many of the text's first bytes go through these bytes, if a star begins it. They are after the star, or the star takes
/// them and stays.
fn through_starred(bytes: &[u8], text: &[u8]) -> Option<usize>
    requires star { tokens text.now ≡ star ∷ tokens (drop 1 text.now) }
    requires cut { IsCut text.now 1 }
    requires within { 1 ≤ length text.now }
    ensures { IfSome result (λ taken. IsThrough (Forms.fixed bytes.now) text.now taken) }
{
    if bytes.is_empty() {
        return Some(0);
    }
    if begins_plainly(bytes, &text[1..]) {
        return Some(1 + bytes.len());
    }
    Some(0)
}

/// How many of the text's first bytes go through these bytes.
fn through_fixed(bytes: &[u8], text: &[u8]) -> Option<usize>
    ensures { IfSome result (λ taken. IsThrough (Forms.fixed bytes.now) text.now taken) }
{
    if begins_plainly(bytes, text) {
        return Some(bytes.len());
    }
    if starts_star(text) {
        return through_starred(bytes, text);
    }
    None
}

/// How many of the text's first bytes go through the piece, after which `stop` may come.
fn through_piece(piece: Piece, stop: u8, text: &[u8]) -> Option<usize>
    ensures { IfSome result (λ taken. IsThrough (piece_of piece) text.now taken) }
{
    match piece {
        Piece::Fixed(bytes) => through_fixed(bytes, text),
        Piece::Counted(set, count) => through_counted(set, count, text),
        Piece::Repeated(set) => Some(many_count(set, stop, text)),
    }
}

/// The first byte of the pieces, if it is told; else a newline.
fn first_byte(pieces: &[Piece]) -> u8 {
    if pieces.is_empty() {
        return b'\n';
    }
    match pieces[0] {
        Piece::Fixed(bytes) if !bytes.is_empty() => bytes[0],
        _ => b'\n',
    }
}

/// The byte at which any number of bytes end: the first one of the pieces after them. If `whole`, they end at none.
fn stop_at(whole: bool, pieces: &[Piece]) -> u8 {
    if whole { b'\n' } else { first_byte(pieces) }
}

/// How many of the text's first bytes go through the pieces. A lone star goes through all.
fn through_way(way: &[Piece], whole: bool, text: &[u8]) -> Option<usize>
    ensures { IfSome result (IsThroughWay (map piece_of way.now) text.now) }
{
    let mut done = 0;
    let mut at = 0;
    while done < way.len() {
        let rest = &text[at..];
        if is_lone_star(rest) {
            return Some(at);
        }
        let piece = way[done];
        match through_piece(piece, stop_at(whole, &way[done + 1..]), rest) {
            Some(taken) => {
                at += taken;
                done += 1;
            }
            None => return None,
        }
    }
    Some(at)
}

/// Whether some of the text's first bytes go through one of the ways.
fn goes_through(field: &[&[Piece]], whole: bool, text: &[u8]) -> bool {
    for way in field {
        if through_way(way, whole, text).is_some() {
            return true;
        }
    }
    false
}

/// Whether some of the text's first bytes go through the first of the fields, or there is no field.
fn goes_on(fields: &[&[&[Piece]]], whole: bool, text: &[u8]) -> bool {
    fields.is_empty() || goes_through(fields[0], whole, text)
}

/// How many of the text's first bytes go through one of the ways: the first one after which the text goes on through the fields.
fn through_ways(field: &[&[Piece]], rest: &[&[&[Piece]]], whole: bool, text: &[u8]) -> Option<usize>
    ensures { IfSome result
        (IsThroughField (map (λ way. map piece_of way.now) field.now) text.now) }
{
    for way in field {
        if let Some(taken) = through_way(way, whole, text) {
            if goes_on(rest, whole, &text[taken..]) {
                return Some(taken);
            }
        }
    }
    None
}

/// As `through_ways`. What comes after a single way isn't asked: there is no other one.
fn through_field(
    field: &[&[Piece]],
    rest: &[&[&[Piece]]],
    whole: bool,
    text: &[u8],
) -> Option<usize>
    ensures { IfSome result
        (IsThroughField (map (λ way. map piece_of way.now) field.now) text.now) }
{
    if field.len() == 1 {
        through_ways(field, &[], whole, text)
    } else {
        through_ways(field, rest, whole, text)
    }
}

/// Whether it is seen byte by byte that the text matches some text of the fields.
fn meets_fields(fields: &[&[&[Piece]]], whole: bool, text: &[u8]) -> bool
    ensures { result ≡ true
        → Forms.head (Forms.fields_row (fields_of fields.now) (tokens text.now)) ≡ true }
{
    let mut done = 0;
    let mut at = 0;
    while done < fields.len() {
        match through_field(fields[done], &fields[done + 1..], whole, &text[at..]) {
            Some(taken) => {
                at += taken;
                done += 1;
            }
            None => return false,
        }
    }
    ends(&text[at..])
}

/// Whether the text is nothing, or a star alone.
pub(crate) fn ends(text: &[u8]) -> bool
    ensures { result ≡ true → Forms.head (Forms.end_row (tokens text.now)) ≡ true }
{
    if text.is_empty() {
        return true;
    }
    is_lone_star(text)
}

/// Whether it is seen byte by byte that the text matches some text of the fields. Any number of bytes end where the next piece may
/// begin, or at a star at the end.
fn meets_either_way(fields: &[&[&[Piece]]], text: &[u8]) -> bool
    ensures { result ≡ true
        → Forms.head (Forms.fields_row (fields_of fields.now) (tokens text.now)) ≡ true }
{
    if meets_fields(fields, false, text) {
        return true;
    }
    meets_fields(fields, true, text)
}

/// Whether it is seen byte by byte that the pattern matches a text of the form.
pub(crate) fn meets_plainly(form: FormRow, pattern: &[u8]) -> bool
    ensures { result ≡ true → Forms.meets_form (tokens pattern.now) (form_of form) ≡ true }
{
    if !begins_plainly(form.prefix, pattern) {
        return false;
    }
    meets_either_way(form.fields, &pattern[form.prefix.len()..])
}

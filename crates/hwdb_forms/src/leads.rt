//! How pieces begin: the tokens before the first star match a piece byte by byte, so that no row is needed for them.
ghost use Rattle.std.specs.Prelude.{◌≡◌, ◌≤◌, ◌++◌, List, length, map};
ghost use Rattle.hwdb_spec.specs.Patterns.{Token};
ghost use Rattle.hwdb_forms.specs.Internal.{Leads, piece_of, piece_size, views};
ghost use Rattle.hwdb_forms.specs.Internal;

use crate::pieces::Piece;
use crate::sets::{meets, meets_byte};
use hwdb_pattern::begins_star;
use hwdb_spec::ByteSet;

/// Whether tokens begin as a piece does.
#[derive(Clone, Copy)]
pub(crate) enum Passed {
    /// They match no text that does.
    No,
    /// It isn't known: a star is there, or no token.
    Unknown,
    /// The first of them, one for each byte of the piece, match it.
    Yes,
}

/// Whether the tokens begin as these bytes.
pub(crate) fn pass_fixed(bytes: &[u8], tokens: &[&[u8]]) -> Passed
    ensures passed { result ≡ Internal.passed_fixed bytes.now (views tokens.now) }
    ensures within { result ≡ Passed.Yes → length bytes.now ≤ length tokens.now }
{
    let mut at = 0;
    while at < bytes.len() {
        if at >= tokens.len() {
            return Passed::Unknown;
        }
        if begins_star(tokens[at]) {
            return Passed::Unknown;
        }
        if !meets_byte(tokens[at], bytes[at]) {
            return Passed::No;
        }
        at += 1;
    }
    Passed::Yes
}

/// Whether the tokens begin as so many bytes of the set.
pub(crate) fn pass_counted(set: ByteSet, count: usize, tokens: &[&[u8]]) -> Passed
    ensures passed { result ≡ Internal.passed_counted set count (views tokens.now) }
    ensures within { result ≡ Passed.Yes → count ≤ length tokens.now }
{
    let mut at = 0;
    while at < count {
        if at >= tokens.len() {
            return Passed::Unknown;
        }
        if begins_star(tokens[at]) {
            return Passed::Unknown;
        }
        if !meets(tokens[at], set) {
            return Passed::No;
        }
        at += 1;
    }
    Passed::Yes
}

/// Whether the tokens begin as the piece.
fn pass(piece: Piece, tokens: &[&[u8]]) -> Passed
    ensures passed { result ≡ Internal.passed (piece_of piece) (views tokens.now) }
    ensures within { result ≡ Passed.Yes → piece_size (piece_of piece) ≤ length tokens.now }
{
    match piece {
        Piece::Fixed(bytes) => pass_fixed(bytes, tokens),
        Piece::Counted(set, count) => pass_counted(set, count, tokens),
        Piece::Repeated(_) => Passed::Unknown,
    }
}

/// How many bytes the piece has, if each of its texts has as many.
fn size(piece: Piece) -> usize
    ensures { result ≡ piece_size (piece_of piece) }
{
    match piece {
        Piece::Fixed(bytes) => bytes.len(),
        Piece::Counted(_, count) => count,
        Piece::Repeated(_) => 0,
    }
}

/// How tokens begin as some pieces do.
#[derive(Clone, Copy)]
pub(crate) struct Lead {
    /// Whether they match no text that the pieces begin.
    pub(crate) is_dead: bool,
    /// How many pieces their first ones match.
    pub(crate) pieces: usize,
    /// How many tokens these are.
    pub(crate) tokens: usize,
}

/// How the tokens begin as the pieces do. More tokens after them change nothing.
pub(crate) fn lead_of(pieces: &[Piece], tokens: &[&[u8]]) -> Lead
    ensures leads { (more : List Token)
        → Leads (map piece_of pieces.now) (views tokens.now ++ more) result }
    ensures pieces { result.pieces ≤ length pieces.now }
    ensures tokens { result.tokens ≤ length tokens.now }
{
    let mut done = 0;
    let mut at = 0;
    while done < pieces.len() {
        let piece = pieces[done];
        let passed = pass(piece, &tokens[at..]);
        if let Passed::Yes = passed {
            at += size(piece);
            done += 1;
        } else {
            return Lead {
                is_dead: is_no(passed),
                pieces: done,
                tokens: at,
            };
        }
    }
    Lead {
        is_dead: false,
        pieces: done,
        tokens: at,
    }
}

fn is_no(passed: Passed) -> bool
    ensures { result ≡ Internal.is_no passed }
{
    matches!(passed, Passed::No)
}

//! A text, cut at a byte: its pieces, and its lines.
ghost use Rattle.std.specs.Iterator.{YieldsFirstRef, item_count};
ghost use Rattle.std.specs.Prelude.{◌≡◌, ◌<◌, ◌≤◌, ◌∷◌, [], IfSome, MatchOption, length};
ghost use Rattle.hwdb_spec.specs.Lines.{is, pieces};
ghost use Rattle.hwdb_text.specs.PiecesLeft.{lines_left, pieces_left};

use crate::line::end_of;

/// What comes before the first such byte of a text, and what comes after it; None at the end.
#[inline(always)]
fn first_piece(cut: u8, text: &[u8]) -> Option<(&[u8], &[u8])>
    ensures piece { MatchOption result (text.now ≡ [])
        (λ parts. pieces (is cut) text.now ≡ parts.0.now ∷ pieces (is cut) parts.1.now) }
    ensures shorter { IfSome result (λ parts. length parts.1.now < length text.now) }
{
    if text.is_empty() {
        return None;
    }
    let end = end_of(cut, text);
    if end < text.len() {
        Some((&text[..end], &text[end + 1..]))
    } else {
        Some((text, b""))
    }
}

/// The pieces of a text between bytes of one value, one after another. An empty last one doesn't count. It takes no
/// memory, and each byte is searched once.
#[derive(Clone, Copy)]
pub struct Pieces<'b> {
    cut: u8,
    rest: &'b [u8],
}

impl<'b> Pieces<'b> {
    /// All pieces of a text, which is cut at these bytes.
    pub fn new(cut: u8, text: &'b [u8]) -> Pieces<'b>
        ensures { pieces_left result ≡ pieces (is cut) text.now }
    {
        Pieces { cut, rest: text }
    }
}

impl<'b> Iterator for Pieces<'b> {
    type Item = &'b [u8];

    ghost next_gives = { YieldsFirstRef pieces_left };

    ghost remaining = { item_count pieces_left };

    #[inline(always)]
    #[tactic(auto, unfolding(hwdb_spec::specs::Lines::pieces))]
    fn next(&mut self) -> Option<&'b [u8]> {
        match first_piece(self.cut, self.rest) {
            Some((piece, rest)) => {
                self.rest = rest;
                Some(piece)
            }
            None => None,
        }
    }
}

/// The lines of a text, one after another, without their newlines. The last one may have none. It takes no memory, and
/// each byte is searched once.
#[derive(Clone, Copy)]
pub struct Lines<'b> {
    rest: &'b [u8],
}

impl<'b> Lines<'b> {
    /// All lines of a text.
    pub fn new(text: &'b [u8]) -> Lines<'b>
        ensures lines { lines_left result ≡ pieces (is 10) text.now }
        ensures few { length (lines_left result) ≤ length text.now }
    {
        Lines { rest: text }
    }
}

impl<'b> Iterator for Lines<'b> {
    type Item = &'b [u8];

    ghost next_gives = { YieldsFirstRef lines_left };

    ghost remaining = { item_count lines_left };

    #[inline(always)]
    #[tactic(auto, unfolding(hwdb_spec::specs::Lines::pieces))]
    fn next(&mut self) -> Option<&'b [u8]> {
        match first_piece(b'\n', self.rest) {
            Some((line, rest)) => {
                self.rest = rest;
                Some(line)
            }
            None => None,
        }
    }
}

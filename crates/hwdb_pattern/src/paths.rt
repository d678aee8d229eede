//! A device on the way along a path that is fed piece by piece, as a tree of patterns is walked.
//!
//! The state of a node's path is the beginning of each of its children's. So a feed makes a new state, and leaves the
//! old one to the next child. Most children are dead by their first byte: `may_take` finds that out without a feed.
ghost use Rattle.std.specs.Prelude.{◌≡◌, ◌≤◌, ◌<◌, ◌↔◌, length, slice_index, List, [], ◌∷◌, ℕ, ◌++◌, false, IsTrue, IfOk, IsOk, IfSome};
ghost use Rattle.hwdb_spec.specs.Patterns.{Matches, tokens};
ghost use Rattle.hwdb_pattern.specs.Internal.Prefixes.{Within, Follows};
ghost use Rattle.hwdb_pattern.specs.Internal.Met.{lengths_of};
ghost use Rattle.hwdb_pattern.specs.Views.{Reached, StandsFor, IsLost, open_part};
ghost use Rattle.hwdb_spec.specs.Tree.{IsLive};

use crate::lengths::{after_bytes, stands_for_itself};
use crate::met::Met;
use crate::search::glob;
use crate::tokens::closed_end;
use std::alloc::{AllocError, Global};
use std::marker::Model;

/// What is known of a device on the way along a path. That is which of its prefixes the path's closed part matches, and
/// the path's open part.
///
/// The closed part ends before the first `[` that begins no closed bracket in the path. Bytes from there on are kept,
/// since a later `]` may still close that bracket.
///
/// It holds the kept bytes. It also holds a list of 32 numbers, or at most one byte for each prefix from the first one
/// that is matched on. Before the path's first star, and right after a star, it holds no memory but the kept bytes.
#[derive(Drop)]
pub struct Reach<'d> {
    device: &'d [u8],
    met: Met,
    kept: Vec<u8>,
}

impl<'d> Model for Reach<'d> {
    ghost Value = { Reached };

    ghost view = { λ r. record
        { device = r.device.now; lengths = lengths_of r.met; kept = r.kept.items } };

    ghost invariant = { λ r. Within r.device.now (lengths_of r.met) };
}

impl<'d> Reach<'d> {
    /// The state of the empty path. Takes no memory.
    pub fn start(alloc: Global, device: &'d [u8]) -> Reach<'d>
        ensures device { result.device ≡ device.now }
        ensures path { StandsFor result [] }
    {
        Reach {
            device,
            met: Met::Lone(0),
            kept: Vec::new(alloc),
        }
    }

    /// The state of the path followed by the piece. The old state stays as it is, since each child of a node goes on
    /// from it.
    ///
    /// The only error is `AllocError`. No memory is asked for if no `[` is open and the piece's first token, not a
    /// star, takes no byte of the device. Takes at most as many steps as the bytes that are kept and fed, times the
    /// device's length.
    pub fn feed(&self, alloc: Global, piece: &[u8]) -> Result<Reach<'d>, AllocError>
        ensures device { IfOk result (λ next. next.device ≡ self.now.device) }
        ensures path { IfOk result (λ next. (path : List ℕ)
            → StandsFor self.now path → StandsFor next (path ++ piece.now)) }
        ensures free { self.now.kept ≡ [] → IsLost self.now piece.now → IsOk result }
    {
        let kept: &[u8] = &self.kept;
        if kept.is_empty() {
            if let Some(length) = self.lone_after(piece) {
                return Ok(Reach {
                    device: self.device,
                    met: Met::Lone(length),
                    kept: Vec::new(alloc),
                });
            }
            return self.follow_text(alloc, piece);
        }
        let mut text = Vec::new(alloc);
        text.extend_from_slice(kept)?;
        text.extend_from_slice(piece)?;
        self.follow_text(alloc, &text)
    }

    /// The state of the path followed by stars alone: as after one star, since the others change nothing. None if a `[`
    /// is open, which keeps them.
    ///
    /// Takes no memory, and a step for each prefix that is matched. Reads none of the stars.
    pub fn after_stars(&self, alloc: Global, stars: &[u8]) -> Option<Reach<'d>>
        requires some { 0 < length stars.now }
        requires stars { (k : ℕ) → k < length stars.now → slice_index stars.now k ≡ 42 }
        ensures device { IfSome result (λ next. next.device ≡ self.now.device) }
        ensures path { IfSome result (λ next. (path : List ℕ)
            → StandsFor self.now path → StandsFor next (path ++ stars.now)) }
    {
        let kept: &[u8] = &self.kept;
        if !kept.is_empty() {
            return None;
        }
        Some(Reach {
            device: self.device,
            met: self.met.along_stars(alloc, self.device, stars),
            kept: Vec::new(alloc),
        })
    }

    /// The length that is matched after the piece, if one alone was matched before it. Each byte of the piece has to be
    /// a token for itself, and the device's next byte.
    fn lone_after(&self, piece: &[u8]) -> Option<usize>
        ensures within { IfSome result (λ n. n ≤ length self.now.device) }
        ensures closed { IfSome result (λ n. open_part piece.now ≡ []) }
        ensures follows { IfSome result (λ n.
            Follows (tokens piece.now) self.now.device self.now.lengths (n ∷ [])) }
    {
        match &self.met {
            Met::Lone(length) => after_bytes(self.device, *length, piece),
            Met::Few(_) | Met::From(_) | Met::Many(_) => None,
        }
    }

    /// The state of the path followed by what the text has after the kept bytes.
    fn follow_text(&self, alloc: Global, text: &[u8]) -> Result<Reach<'d>, AllocError>
        ensures device { IfOk result (λ next. next.device ≡ self.now.device) }
        ensures path { IfOk result (λ next. (path piece : List ℕ)
            → text.now ≡ self.now.kept ++ piece
            → StandsFor self.now path → StandsFor next (path ++ piece)) }
        ensures free { IsLost self.now text.now → IsOk result }
    {
        let end = closed_end(text);
        let met = self.met.along(alloc, self.device, &text[..end])?;
        let mut kept = Vec::new(alloc);
        kept.extend_from_slice(&text[end..])?;
        Ok(Reach {
            device: self.device,
            met,
            kept,
        })
    }

    /// Whether the path is live for the device: its closed part matches some prefix of the device. Takes one step.
    pub fn is_alive(&self) -> bool
        ensures { (path : List ℕ) → StandsFor self.now path
            → (IsTrue result ↔ IsLive path self.now.device) }
    {
        !self.met.is_empty()
    }

    /// Whether the path may still be live after one more byte, by a look at that byte alone. If the answer is no, it
    /// isn't.
    ///
    /// Takes no memory, and at most a step for each prefix that is matched. A walk asks this before it feeds a child.
    pub fn may_take(&self, byte: u8) -> bool
        ensures { result ≡ false → (path : List ℕ) → StandsFor self.now path
            → IsLive (path ++ byte ∷ []) self.now.device → ⊥ }
    {
        if !stands_for_itself(byte) {
            return true;
        }
        let kept: &[u8] = &self.kept;
        if kept.is_empty() {
            self.met.is_next(self.device, byte)
        } else {
            true
        }
    }

    /// Whether the path, read as a pattern, matches the whole device. Takes no memory. If a `[` is open, this is a
    /// search by [`glob`].
    pub fn accepts(&self, path: &[u8]) -> bool
        requires { StandsFor self.now path.now }
        ensures { IsTrue result ↔ Matches (tokens path.now) self.now.device }
    {
        let kept: &[u8] = &self.kept;
        if kept.is_empty() {
            self.met.contains(self.device.len())
        } else {
            glob(path, self.device)
        }
    }
}

//! The nodes of one path, from the root down, whose children aren't all done.
//!
//! They are in a table of a fixed size, on the thread's stack: as many as a database may have levels, 9 bytes each. So
//! the check asks for no memory, and the deepest database takes no more stack than a flat one.
ghost use Rattle.std.specs.Prelude.{◌≡◌, ◌-◌, ◌<◌, [], ◌∷◌, length, MatchOption};
ghost use Rattle.hwdb_spec.specs.Format.{max_levels};

use crate::checker::MAX_LEVELS;
use std::marker::Model;

/// A node whose record was tested.
#[derive(Clone, Copy)]
pub struct OpenRecord {
    /// The offset of its record.
    pub off: usize,
    /// How many of its children were entered.
    pub done: u8,
}

/// The open nodes, each below the one before it. To contracts: their offsets and how many of their children were
/// entered, the last first.
#[derive(Drop)]
pub struct Path {
    offsets: [usize; MAX_LEVELS],
    done: [u8; MAX_LEVELS],
    len: usize,
}

impl Model for Path {
    ghost use Rattle.std.specs.Prelude.{ℕ, List, ◌≤◌};
    ghost use Rattle.hwdb_spec.specs.Format.{max_levels};
    ghost use Rattle.hwdb_reader.specs.Internal.Paths.{open_nodes};

    ghost Value = { List (ℕ × ℕ) };

    ghost view = { λ p. open_nodes p.offsets p.done p.len };

    ghost invariant = { λ p. p.len ≤ max_levels };
}

impl Path {
    /// No open node.
    pub fn new() -> Self
        ensures { result ≡ [] }
    {
        Path {
            offsets: [0; MAX_LEVELS],
            done: [0; MAX_LEVELS],
            len: 0,
        }
    }

    /// How many levels of nodes are left below the open ones.
    pub fn levels_left(&self) -> usize
        ensures { result ≡ max_levels - length self.now }
    {
        MAX_LEVELS - self.len
    }

    /// Puts a node below the open ones.
    pub fn push(&mut self, node: OpenRecord)
        requires { length self.old < max_levels }
        ensures { self.new ≡ (node.off, node.done) ∷ self.old }
    {
        let last = self.len;
        self.offsets[last] = node.off;
        self.done[last] = node.done;
        self.len = last + 1;
    }

    /// Takes the last open node off, if there is one.
    pub fn pop(&mut self) -> Option<OpenRecord>
        ensures { MatchOption result ((self.old ≡ []) × (self.new ≡ []))
            (λ node. self.old ≡ (node.off, node.done) ∷ self.new) }
    {
        if self.len == 0 {
            return None;
        }
        let last = self.len - 1;
        self.len = last;
        Some(OpenRecord {
            off: self.offsets[last],
            done: self.done[last],
        })
    }
}

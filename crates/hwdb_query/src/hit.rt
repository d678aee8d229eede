//! Hits, and the order in which they come.
ghost use Rattle.std.specs.Prelude.{◌≡◌, ◌++◌, ℕ, List, length, IfOk, OnOk, true};
ghost use Rattle.std.specs.declared.cmp.Ordering.TheVariants.{Less};
ghost use Rattle.hwdb_spec.specs.Assignment.{Assignment, position_cmp};
ghost use Rattle.hwdb_spec.specs.Assignment;
ghost use Rattle.hwdb_spec.specs.Texts.{canonical};
ghost use Rattle.hwdb_query.specs.Internal.Hits.{parts_position, IsOf, IsPositionOf};
ghost use Rattle.hwdb_query.specs.Views.{position_value, assignment_of_hit};

use crate::position::Position;
use crate::spelling::{push_hex, push_number};
use hwdb_reader::Origin;
use std::alloc::{AllocError, Global};
use std::cmp::Ordering;

/// An assignment that survived and whose pattern matches a device.
#[derive(Drop)]
pub struct Hit<'a> {
    /// The priority of its file: 1 for the first that was chosen.
    pub priority: u16,
    /// The line of its property, counted from 1.
    pub line: u32,
    /// Its pattern.
    pub pattern: Vec<u8>,
    /// Its key, a part of the database's bytes.
    pub key: &'a [u8],
    /// Its value, a part of the database's bytes.
    pub value: &'a [u8],
    /// The stored path of its file, a part of the database's bytes.
    pub path: &'a [u8],
}

/// What the order looks at.
#[derive(Clone, Copy)]
pub(crate) struct Parts<'p> {
    pub priority: u16,
    pub line: u32,
    pub pattern: &'p [u8],
    pub key: &'p [u8],
}

impl<'p> Parts<'p> {
    /// The priority and line among them.
    pub(crate) fn origin(self) -> Origin
        ensures { IsPositionOf result (parts_position self.entry) }
    {
        Origin {
            priority: self.priority,
            line: self.line,
        }
    }
}

impl<'a> Hit<'a> {
    /// What the order looks at.
    pub(crate) fn parts(&self) -> Parts<'_>
        ensures { parts_position result ≡ (assignment_of_hit self.now).position }
    {
        Parts {
            priority: self.priority,
            line: self.line,
            pattern: &self.pattern,
            key: self.key,
        }
    }

    /// The priority and line of the hit.
    pub(crate) fn origin(&self) -> Origin
        ensures { IsOf result (assignment_of_hit self.now) }
    {
        Origin {
            priority: self.priority,
            line: self.line,
        }
    }

    /// Adds the one text of the hit's position, as [`Position::write`] gives it: `P:L:HP:HK`. These are the priority
    /// and the line in decimal digits, the pattern and the key in hexadecimal digits of lower case.
    ///
    /// The only error is `AllocError`. Memory is asked for the text alone.
    pub fn push_position(&self, text: &mut Vec<u8>) -> Result<(), AllocError>
        ensures { OnOk result (text.new.items
            ≡ text.old.items ++ canonical (assignment_of_hit self.now).position) }
    {
        push_number(text, u32::from(self.priority))?;
        text.push(b':')?;
        push_number(text, self.line)?;
        text.push(b':')?;
        push_hex(text, &self.pattern)?;
        text.push(b':')?;
        push_hex(text, self.key)?;
        Ok(())
    }

    /// The position of the hit: its priority, line, pattern and key, copied. The only error is `AllocError`.
    pub fn position(&self, alloc: Global) -> Result<Position, AllocError>
        ensures { IfOk result (λ p. position_value p ≡ (assignment_of_hit self.now).position) }
    {
        let pattern = self.pattern.to_vec(alloc)?;
        let key = self.key.to_vec(alloc)?;
        Ok(Position {
            priority: self.priority,
            line: self.line,
            pattern,
            key,
        })
    }
}

/// The order of positions: by priority, line, pattern and key.
#[tactic(auto, unfolding(hwdb_spec::specs::Assignment::position_cmp))]
pub(crate) fn order(a: Parts<'_>, b: Parts<'_>) -> Ordering
    ensures { result ≡ position_cmp (parts_position a.entry) (parts_position b.entry) }
{
    a.priority
        .cmp(&b.priority)
        .then(a.line.cmp(&b.line))
        .then(a.pattern.cmp(b.pattern))
        .then(a.key.cmp(b.key))
}

/// Whether an origin comes before another: by priority, then by line.
pub(crate) fn is_earlier(a: Origin, b: Origin) -> bool
    ensures { result ≡ true → (x y : Assignment.Position) → IsPositionOf a x → IsPositionOf b y
        → position_cmp x y ≡ Less }
{
    a.priority
        .cmp(&b.priority)
        .then(a.line.cmp(&b.line))
        .is_lt()
}

//! Positions: the places of assignments in the order of the answers. A position is what a page ends with, and what the
//! next one begins after.
ghost use Rattle.std.specs.Prelude.{◌≡◌, ◌≢◌, ◌<◌, ℕ, List, ◌∷◌, ◌++◌, length, slice_index, IfOk, IfErr, OnErr, IfSome, MatchOption, string_bytes};
ghost use Rattle.hwdb_spec.specs.Assignment;
ghost use Rattle.hwdb_query.specs.Internal.Hits.{parts_position};
ghost use Rattle.hwdb_query.specs.Views.{position_value};
ghost use Rattle.hwdb_spec.specs.Texts.{IsSpelling, HasNumbers, canonical};
ghost use Rattle.hwdb_spec.specs.declared.errors.PositionError.TheVariants.{BadPosition, Memory};

use crate::hit::Parts;
use crate::spelling::{bytes_of, cut, long_number, short_number};
use hwdb_spec::PositionError;
use std::alloc::{AllocError, Global};

/// The place of an assignment in the order: by priority, then line, then the pattern's bytes, then the
/// key's. It needn't be the place of any assignment.
#[derive(Drop)]
pub struct Position {
    /// The priority of the assignment's file.
    pub priority: u16,
    /// The line of its property.
    pub line: u32,
    /// Its pattern.
    pub pattern: Vec<u8>,
    /// Its key.
    pub key: Vec<u8>,
}

/// The four fields of a position's text.
#[derive(Clone, Copy)]
struct Fields<'a> {
    priority: &'a str,
    line: &'a str,
    pattern: &'a str,
    key: &'a str,
}

/// The fields between the first three colons.
fn split_fields(text: &str) -> Option<Fields<'_>>
    ensures parts { IfSome result
        (λ f. text.now
        ≡ f.priority.now ++ 58 ∷ (f.line.now ++ 58 ∷ (f.pattern.now ++ 58 ∷ f.key.now))) }
    ensures found { (p l h k : List ℕ) → text.now ≡ p ++ 58 ∷ (l ++ 58 ∷ (h ++ 58 ∷ k))
        → ((i : ℕ) → i < length p → slice_index p i ≢ 58)
        → ((i : ℕ) → i < length l → slice_index l i ≢ 58)
        → ((i : ℕ) → i < length h → slice_index h i ≢ 58)
        → MatchOption result ⊥
        (λ f. (f.priority.now ≡ p) × (f.line.now ≡ l) × (f.pattern.now ≡ h) × (f.key.now ≡ k)) }
{
    let (priority, rest) = cut(text)?;
    let (line, rest) = cut(rest)?;
    let (pattern, key) = cut(rest)?;
    Some(Fields {
        priority,
        line,
        pattern,
        key,
    })
}

impl Position {
    /// A copy, in memory of its own.
    pub(crate) fn copy(&self, alloc: Global) -> Result<Position, AllocError>
        ensures { IfOk result (λ p. position_value p ≡ position_value self.now) }
    {
        let pattern = self.pattern.to_vec(alloc)?;
        let key = self.key.to_vec(alloc)?;
        Ok(Position {
            priority: self.priority,
            line: self.line,
            pattern,
            key,
        })
    }

    /// What the order looks at.
    pub(crate) fn parts(&self) -> Parts<'_>
        ensures { parts_position result ≡ position_value self.now }
    {
        Parts {
            priority: self.priority,
            line: self.line,
            pattern: &self.pattern,
            key: &self.key,
        }
    }

    /// The one text of the position: `P:L:HP:HK`. These are the priority and the line in decimal digits, the pattern
    /// and the key in hexadecimal digits of lower case.
    ///
    /// The only error is `AllocError`.
    pub fn write(&self, alloc: Global) -> Result<String, AllocError>
        ensures { IfOk result (λ r. string_bytes r ≡ canonical (position_value self.now)) }
    {
        let pattern = hex::encode(alloc, self.pattern.as_slice())?;
        let key = hex::encode(alloc, self.key.as_slice())?;
        let priority = self.priority;
        let line = self.line;
        Ok(format!(in alloc; "{priority}:{line}:{pattern}:{key}")?)
    }

    /// The position that the text spells, if it spells one.
    fn read_fields(alloc: Global, text: &str) -> Result<Option<Position>, AllocError>
        ensures spelled { IfOk result
            (λ r. IfSome r (λ p. IsSpelling (position_value p) text.now)) }
        ensures refused { IfOk result
            (λ r. r ≡ None → (p : Assignment.Position) → IsSpelling p text.now → ⊥) }
        ensures numbers { OnErr result (HasNumbers text.now) }
    {
        let Some(parts) = split_fields(text) else {
            return Ok(None);
        };
        let Some(priority) = short_number(parts.priority) else {
            return Ok(None);
        };
        let Some(line) = long_number(parts.line) else {
            return Ok(None);
        };
        let Some(pattern) = bytes_of(alloc, parts.pattern)? else {
            return Ok(None);
        };
        let Some(key) = bytes_of(alloc, parts.key)? else {
            return Ok(None);
        };
        Ok(Some(Position {
            priority,
            line,
            pattern,
            key,
        }))
    }

    /// The position that the text spells, with hexadecimal digits in either case.
    ///
    /// [`PositionError::BadPosition`] if it spells none: it has a sign, a leading zero or a field more.
    /// [`PositionError::Memory`] if an allocation fails. Memory is asked for the pattern and the key alone, and only
    /// after both numbers are sound.
    pub fn read(alloc: Global, text: &str) -> Result<Position, PositionError>
        ensures spelled { IfOk result (λ p. IsSpelling (position_value p) text.now) }
        ensures refused { IfErr result
            (λ e. e ≡ BadPosition → (p : Assignment.Position) → IsSpelling p text.now → ⊥) }
        ensures numbers { IfErr result (λ e. e ≡ Memory → HasNumbers text.now) }
    {
        match Position::read_fields(alloc, text)? {
            Some(position) => Ok(position),
            None => Err(PositionError::BadPosition),
        }
    }
}

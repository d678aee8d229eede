//! The assignments, seen as a finite map.
//!
//! It is a list, in the order in which they were set, and no map. Setting is one push, and the list is sorted once,
//! when the database is made. The price is that an assignment which a later one replaces takes memory until then.
ghost use Rattle.std.specs.Prelude.{◌≡◌};
ghost use Rattle.hwdb_writer.specs.Internal.Storable.{HasNoZero, IsText};

use crate::entries::Setting;
use hwdb_text::{Assignment, Given};
use std::alloc::{AllocError, Global};
use std::marker::Model;

/// The assignments, by pattern and key: from these to priority, line, value and path. Their texts are borrowed, not
/// copied.
#[derive(Drop)]
pub struct Assignments<'t> {
    /// What was set, one after another.
    pub(crate) entries: Vec<Setting<'t>>,
}

/// These bytes, none of them 0.
fn text_of(bytes: &[u8]) -> &[u8]
    requires { HasNoZero bytes.now }
    ensures same { result.now ≡ bytes.now }
    ensures text { IsText bytes.now }
{
    bytes
}

impl<'t> Model for Assignments<'t> {
    ghost use Rattle.hwdb_spec.specs.Tree.{Map, surviving};
    ghost use Rattle.hwdb_writer.specs.Internal.Codes.{map_code};
    ghost use Rattle.std.specs.Prelude.{map};
    ghost use Rattle.std.specs.List.{AllByRecursion};
    ghost use Rattle.hwdb_writer.specs.Internal.Entries.{assignment_of, IsStorableEntry};

    ghost Value = { Map };

    ghost coded = { map_code };

    ghost view = { λ t. surviving (map assignment_of t.entries.items) };

    ghost invariant = { λ t. AllByRecursion IsStorableEntry t.entries.items };
}

impl<'t> Assignments<'t> {
    ghost use Rattle.std.specs.Prelude.{◌≡◌, ◌≤◌, ◌<◌, ◌∷◌, ℕ, List, length, IfOk, OnOk, OnErr};
    ghost use Rattle.std.specs.FinMap.{empty, insert};
    ghost use Rattle.hwdb_text.specs.Views.{origin};
    ghost use Rattle.hwdb_text.specs.Views.{assigned, given_in};
    ghost use Rattle.hwdb_writer.specs.Internal.Storable.{HasNoZero};
    ghost use Rattle.hwdb_spec.specs.Lines.{max_pattern};

    /// No assignment. Takes no memory.
    pub fn new(alloc: Global) -> Self
        ensures { result ≡ empty }
    {
        Assignments {
            entries: Vec::new(alloc),
        }
    }

    /// Makes room for so many assignments, if there is as much memory. The map stays.
    pub fn make_room(&mut self, assignments: usize)
        ensures { self.new ≡ self.old }
    {
        let _ = self.entries.reserve_exact(assignments);
    }

    /// A copy of the list. The texts stay borrowed.
    pub fn copied(&self, alloc: Global) -> Result<Assignments<'t>, AllocError>
        ensures { IfOk result (λ tree. tree ≡ self.now) }
    {
        Ok(Assignments {
            entries: Vec::from_slice(alloc, &self.entries)?,
        })
    }

    /// Sets the map at one place: the pattern and the key of what a file with this priority and this stored path gives.
    /// The last that is set there stays.
    ///
    /// Patterns have at most 4,096 bytes. Takes a fixed number of steps, on average over the calls. The only error is
    /// `AllocError`: after it the map is what it was.
    pub fn set(&mut self, priority: u16, path: &'t [u8], given: Given<'t>) -> Result<(), AllocError>
        requires short { length given.pattern.now ≤ max_pattern }
        requires pattern { HasNoZero given.pattern.now }
        requires key { HasNoZero given.key.now }
        requires value { HasNoZero given.value.now }
        requires path { HasNoZero path.now }
        requires priority { 0 < priority }
        ensures ok { OnOk result
            (self.new ≡ insert self.old (given.entry.pattern.now, given.entry.key.now)
            (given_in (origin path.now priority) given.entry)) }
        ensures err { OnErr result (self.new ≡ self.old) }
    {
        self.entries.push(Setting {
            pattern: text_of(given.pattern),
            key: given.key,
            value: given.value,
            path,
            line: given.line,
            priority,
        })?;
        Ok(())
    }

    /// Sets the map at one place: the assignment's pattern and key. The last assignment put there stays.
    ///
    /// As [`Assignments::set`], of an assignment by itself.
    pub fn put(&mut self, a: &'t Assignment) -> Result<(), AllocError>
        requires short { length a.now.pattern.items ≤ max_pattern }
        requires pattern { HasNoZero a.now.pattern.items }
        requires key { HasNoZero a.now.key.items }
        requires value { HasNoZero a.now.value.items }
        requires path { HasNoZero a.now.path.items }
        requires priority { 0 < a.now.priority }
        ensures ok { OnOk result (self.new ≡ insert self.old (a.now.pattern.items, a.now.key.items)
            (assigned a.now)) }
        ensures err { OnErr result (self.new ≡ self.old) }
    {
        let given = Given {
            line: a.line,
            pattern: &a.pattern,
            key: &a.key,
            value: &a.value,
        };
        self.set(a.priority, &a.path, given)
    }
}

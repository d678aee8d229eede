//! The assignments of a database, held all at once. Their patterns are one text, so that none of them asks for memory of
//! its own.
ghost use Rattle.std.specs.Prelude.{◌≡◌, ◌++◌, ◌∷◌, [], drop, map, take, IfOk, OnOk};
ghost use Rattle.hwdb_spec.specs.Assignment.{assignment_cmp};
ghost use Rattle.hwdb_spec.specs.Tree.{members_under};
ghost use Rattle.hwdb_databases.specs.Internal.Holding.{AllWithin, all_held, held_in, shown_of, slot_in};
ghost use Rattle.hwdb_databases.specs.Internal.Merging;
ghost use Rattle.hwdb_databases.specs.Internal.Meeting.{member_of};

use crate::members::{Member, Members, read};
use crate::records::Shown;
use hwdb_reader::Db;
use std::alloc::{AllocError, Global};
use std::cmp::Ordering;

/// An assignment. Its pattern is a part of the text with all of them.
#[derive(Clone, Copy)]
pub(crate) struct Held<'a> {
    /// Where its pattern begins.
    from: usize,
    /// How many bytes its pattern has.
    length: usize,
    member: Member<'a>,
}

/// Some assignments.
#[derive(Drop)]
pub(crate) struct Kept<'a> {
    /// Their patterns, one after another.
    pub patterns: Vec<u8>,
    pub list: Vec<Held<'a>>,
}

/// An assignment that is held, beside what it is sorted by first: so a sort moves little, and looks into few of them.
#[derive(Clone, Copy)]
pub(crate) struct Slot<'k, 'a> {
    priority: u16,
    line: u32,
    held: &'k Held<'a>,
}

impl<'a> Held<'a> {
    /// Its pattern, in the text with all of them.
    fn pattern<'p>(&self, patterns: &'p [u8]) -> &'p [u8]
        ensures { result.now ≡ take self.now.length (drop self.now.from patterns.now) }
    {
        let from = self.from.min(patterns.len());
        let rest = &patterns[from..];
        &rest[..self.length.min(rest.len())]
    }
}

impl<'a> Kept<'a> {
    fn new(alloc: Global) -> Kept<'a>
        ensures patterns { result.patterns.items ≡ [] }
        ensures list { result.list.items ≡ [] }
    {
        Kept {
            patterns: Vec::new(alloc),
            list: Vec::new(alloc),
        }
    }

    /// Adds an assignment with this pattern. The only error, here and below, is `AllocError`.
    fn push(&mut self, pattern: &[u8], member: Member<'a>) -> Result<(), AllocError>
        ensures held { OnOk result (AllWithin self.old → all_held self.new
            ≡ all_held self.old ++ member_of pattern.now member.entry ∷ []) }
        ensures within { OnOk result (AllWithin self.old → AllWithin self.new) }
    {
        let from = self.patterns.as_slice().len();
        self.patterns.extend_from_slice(pattern)?;
        self.list.push(Held {
            from,
            length: pattern.len(),
            member,
        })?;
        Ok(())
    }
}

/// All that a database assigns, by pattern and then by key.
pub(crate) fn keep<'a>(alloc: Global, db: &Db<'a>) -> Result<Kept<'a>, AllocError>
    ensures { IfOk result (λ kept. all_held kept ≡ members_under [] db.now) }
{
    let mut members = Members::start(alloc, true, db)?;
    let mut kept = Kept::new(alloc);
    'members: while let Some(entry) = members.next {
        kept.push(members.pattern(), read(&entry))?;
        members.pass()?;
    }
    Ok(kept)
}

/// The same assignments, to be sorted.
pub(crate) fn slots_of<'k, 'a>(
    alloc: Global,
    patterns: &[u8],
    list: &'k [Held<'a>],
) -> Result<Vec<Slot<'k, 'a>>, AllocError>
    ensures { IfOk result (λ slots.
        map (slot_in patterns.now) slots.items ≡ map (held_in patterns.now) list.now) }
{
    let mut slots = Vec::with_capacity(alloc, list.len())?;
    for held in list {
        slots.push(Slot {
            priority: held.member.priority,
            line: held.member.line,
            held,
        })?;
    }
    Ok(slots)
}

impl<'k, 'a> Slot<'k, 'a> {
    /// The assignment with its pattern.
    pub(crate) fn shown<'p>(&self, patterns: &'p [u8]) -> Shown<'p, 'a>
        ensures { shown_of result ≡ slot_in patterns.now self.now }
    {
        let held = self.held;
        let member = held.member;
        Shown {
            pattern: held.pattern(patterns),
            member: Member {
                priority: self.priority,
                line: self.line,
                key: member.key,
                value: member.value,
                path: member.path,
            },
        }
    }
}

/// Compares by pattern and then by key.
fn by_place(patterns: &[u8], x: &Held<'_>, y: &Held<'_>) -> Ordering
    ensures { result ≡ Merging.by_place (held_in patterns.now x.now) (held_in patterns.now y.now) }
{
    match x.pattern(patterns).cmp(y.pattern(patterns)) {
        Ordering::Equal => x.member.key.cmp(y.member.key),
        other => other,
    }
}

/// Compares by priority, line, pattern and key.
#[tactic(auto, unfolding(hwdb_spec::specs::Assignment::assignment_cmp, hwdb_spec::specs::Assignment::position_cmp))]
pub(crate) fn by_position(patterns: &[u8], x: &Slot<'_, '_>, y: &Slot<'_, '_>) -> Ordering
    ensures { result ≡ assignment_cmp (slot_in patterns.now x.now) (slot_in patterns.now y.now) }
{
    match x.priority.cmp(&y.priority) {
        Ordering::Equal => match x.line.cmp(&y.line) {
            Ordering::Equal => by_place(patterns, x.held, y.held),
            other => other,
        },
        other => other,
    }
}

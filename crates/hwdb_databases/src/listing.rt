//! `dump`: a database as text of the form that hwdb(7) describes.
ghost use Rattle.std.specs.Prelude.{◌≡◌, [], None, flat_map, map, OnOk, IfOk, IfErr};
ghost use Rattle.hwdb_spec.specs.Assignment.{assignment_cmp};
ghost use Rattle.hwdb_spec_commands.specs.Dump.{dumped, dump_text, record_text, first_unsaid};
ghost use Rattle.hwdb_spec.specs.Tree.{members_under};
ghost use Rattle.hwdb_spec_commands.specs.Databases.{IsTextOf, IsSayable};
ghost use Rattle.hwdb_spec_commands.specs.DumpErrors.{IsDumpRefusal, IsUnsaidRefusal};
ghost use Rattle.hwdb_databases.specs.Internal.Holding.{held_in, slot_in};

use crate::holding::{Held, Kept, Slot, by_position, keep, slots_of};
use crate::records::push_said;
use hwdb_reader::{Db, check};
use hwdb_spec::DumpError;
use std::alloc::{AllocError, Global};
use std::cmp::Ordering;

/// All that the database assigns, by priority, line, pattern and key. The only error is `AllocError`.
pub(crate) fn ordered<'k, 'a>(
    alloc: Global,
    db: &Db<'a>,
    patterns: &[u8],
    list: &'k [Held<'a>],
) -> Result<Vec<Slot<'k, 'a>>, AllocError>
    requires { map (held_in patterns.now) list.now ≡ members_under [] db.now }
    ensures { IfOk result (λ slots. map (slot_in patterns.now) slots.items ≡ dumped db.now) }
{
    let _root = db.root();
    let mut slots = slots_of(alloc, patterns, list)?;
    let compare = |x: &Slot<'_, '_>, y: &Slot<'_, '_>| -> Ordering
        ensures { result ≡ assignment_cmp (slot_in patterns.entry.now x.now)
            (slot_in patterns.entry.now y.now) }
    { by_position(patterns, x, y) };
    slots.sort_unstable_by(compare);
    Ok(slots)
}

/// The record of each assignment. The first assignment that its record doesn't say is an error.
fn said_records(
    alloc: Global,
    patterns: &[u8],
    slots: &[Slot<'_, '_>],
) -> Result<Vec<u8>, DumpError>
    ensures text { IfOk result (λ text. text.items
        ≡ flat_map record_text (map (slot_in patterns.now) slots.now)) }
    ensures said { OnOk result (first_unsaid (map (slot_in patterns.now) slots.now) ≡ None) }
    ensures unsaid { IfErr result (IsUnsaidRefusal (map (slot_in patterns.now) slots.now)) }
{
    let mut text = Vec::new(alloc);
    for slot in slots {
        let shown = slot.shown(patterns);
        if !push_said(alloc, &mut text, &shown)? {
            return Err(DumpError::Unsayable(shown.pattern.to_vec(alloc)?));
        }
    }
    Ok(text)
}

/// Checks the bytes, and gives the database as text of the form that hwdb(7) describes. There is a record for each
/// assignment, by priority, line, pattern and key. It is a comment with the file and the line, the pattern, the
/// property, and an empty line.
///
/// It is an error if the record of an assignment, read as a file, doesn't say that assignment alone. The error has the
/// first one's pattern.
///
/// The memory is all assignments with their patterns, and the text. The time is that of sorting the assignments, and of some
/// searches of each record. A record that these don't show to say its assignment is read as a file.
pub fn dump(alloc: Global, bytes: &[u8]) -> Result<Vec<u8>, DumpError>
    ensures text { IfOk result (λ text. IsTextOf dump_text bytes.now text.items) }
    ensures sayable { OnOk result (IsSayable bytes.now) }
    ensures errors { IfErr result (IsDumpRefusal bytes.now) }
{
    let db = match check(bytes) {
        Ok(db) => db,
        Err(fault) => return Err(DumpError::Database(fault)),
    };
    let kept = keep(alloc, &db)?;
    let Kept { patterns, list } = kept;
    let slots = ordered(alloc, &db, &patterns, &list)?;
    said_records(alloc, &patterns, &slots)
}

//! What the values of a node assign, as answers.
ghost use Rattle.std.specs.Prelude.{◌≡◌, ◌++◌, map, OnOk, IfOk};
ghost use Rattle.hwdb_spec.specs.Tree.{values_of};
ghost use Rattle.hwdb_reader.specs.Views.{entered_tree, entry_shows};
ghost use Rattle.hwdb_query.specs.Internal.Members.{assignment_shown, own_members};
ghost use Rattle.hwdb_query.specs.Views.{assignment_of_answer};

use crate::answer::StoredAssignment;
use hwdb_reader::{Entry, Inside};
use std::alloc::{AllocError, Global};
use std::rc::Rc;

/// A copy of a pattern, which hits and answers can share.
pub(crate) fn shared(alloc: Global, pattern: &[u8]) -> Result<Rc<Vec<u8>>, AllocError>
    ensures { IfOk result (λ copy. copy.value.items ≡ pattern.now) }
{
    let copy = Rc::new(alloc, pattern.to_vec(alloc)?)?;
    Ok(copy)
}

/// Adds what one value assigns at a pattern.
fn offer<'a>(
    into: &mut Vec<StoredAssignment<'a>>,
    pattern: &Rc<Vec<u8>>,
    entry: Entry<'a>,
) -> Result<(), AllocError>
    ensures { OnOk result (map assignment_of_answer into.new.items
        ≡ map assignment_of_answer into.old.items
        ++ assignment_shown pattern.now.value.items (entry_shows entry.entry)) }
{
    let Some(key) = entry.key else {
        return Ok(());
    };
    into.push(StoredAssignment {
        priority: entry.priority,
        line: entry.line,
        pattern: pattern.clone()?,
        key,
        value: entry.value,
        path: entry.path,
    })?;
    Ok(())
}

/// Adds what the values of a node assign at a pattern, by their keys. The answers share one copy of the pattern.
///
/// The only error is want of memory.
pub fn push_answers<'a>(
    alloc: Global,
    inside: Inside<'a>,
    pattern: &[u8],
    into: &mut Vec<StoredAssignment<'a>>,
) -> Result<(), AllocError>
    ensures { OnOk result (map assignment_of_answer into.new.items
        ≡ map assignment_of_answer into.old.items
        ++ own_members pattern.now (values_of (entered_tree inside.entry))) }
{
    if inside.values() == 0 {
        return Ok(());
    }
    let copy = shared(alloc, pattern)?;
    for i in 0..inside.values() {
        offer(into, &copy, inside.value(i))?;
    }
    Ok(())
}

//! The changes of a pattern, and their properties if they all went, or all came.
ghost use Rattle.std.specs.Prelude.{◌≡◌, ◌++◌, map, option_map, IfOk, OnOk, false, true};
ghost use Rattle.hwdb_spec_commands.specs.Renamed as spec;
ghost use Rattle.hwdb_databases.specs.Views.{assignment_of, change_shown};

use crate::pairs::Pair;
use hwdb_query::StoredAssignment;
use std::alloc::{AllocError, Global};

/// What came, or what went.
fn sided<'r, 'a>(came: bool, change: Pair<'r, 'a>) -> Option<&'r StoredAssignment<'a>>
    ensures { option_map (λ f. assignment_of f.now) result
        ≡ spec.sided came (change_shown change.entry) }
{
    match change {
        Pair::Old(old) => { if came { None } else { Some(old) } }
        Pair::New(new) => { if came { Some(new) } else { None } }
        Pair::Both(_, _) => None,
    }
}

/// Adds a key and its value. The only error, here and below, is `AllocError`.
fn push_pair(text: &mut Vec<u8>, f: &StoredAssignment<'_>) -> Result<(), AllocError>
    ensures { OnOk result
        (text.new.items ≡ text.old.items ++ spec.pair_text (assignment_of f.now)) }
{
    text.extend_from_slice(f.key)?;
    text.push(0)?;
    text.extend_from_slice(f.value)?;
    text.push(0)?;
    Ok(())
}

/// The properties of changes that all came, or that all went.
fn properties(
    alloc: Global,
    came: bool,
    changes: &[Pair<'_, '_>],
) -> Result<Option<Vec<u8>>, AllocError>
    ensures { IfOk result (λ told. option_map (λ text. text.items) told
        ≡ spec.properties came (map change_shown changes.now)) }
{
    let mut text = Vec::new(alloc);
    for change in changes {
        let Some(f) = sided(came, *change) else {
            return Ok(None);
        };
        push_pair(&mut text, f)?;
    }
    Ok(Some(text))
}

/// The changes of a pattern, and their properties if they all went, or all came.
#[derive(Drop)]
pub(crate) struct Group<'g, 'r, 'a> {
    pub changes: &'g [Pair<'r, 'a>],
    pub went: Option<Vec<u8>>,
    pub came: Option<Vec<u8>>,
    ghost went_is: { option_map (λ text. text.items) went
        ≡ spec.properties false (map change_shown changes.now) },
    ghost came_is: { option_map (λ text. text.items) came
        ≡ spec.properties true (map change_shown changes.now) },
}

/// The changes of a pattern.
pub(crate) fn group_of<'g, 'r, 'a>(
    alloc: Global,
    changes: &'g [Pair<'r, 'a>],
) -> Result<Group<'g, 'r, 'a>, AllocError>
    ensures { IfOk result (λ g. g.changes.now ≡ changes.now) }
{
    let went = properties(alloc, false, changes)?;
    let came = properties(alloc, true, changes)?;
    Ok(Group {
        changes,
        went,
        came,
    })
}

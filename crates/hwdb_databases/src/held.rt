//! Changes that are held, each with its assignments.
ghost use Rattle.std.specs.Prelude.{◌≡◌, ◌++◌, ◌∷◌, [], drop, if◌then◌else◌, length, map, nat_eq, IfOk, OnOk};
ghost use Rattle.std.specs.List.{starts_with};
ghost use Rattle.hwdb_spec_commands.specs.Reviews as spec;
ghost use Rattle.hwdb_spec_commands.specs.Sides.{given_front};
ghost use Rattle.hwdb_databases.specs.Views.{assignment_of, change_shown, held_shown};

use crate::pairs::Pair;
use hwdb_query::StoredAssignment;
use std::alloc::{AllocError, Global};

/// What is stored before the path of a text file of a side.
const GIVEN: &[u8] = b"/etc/udev/hwdb.d//";

/// A change, with the assignments that it is of.
#[derive(Drop)]
pub(crate) enum Held<'a> {
    /// What went.
    Old(StoredAssignment<'a>),
    /// What came.
    New(StoredAssignment<'a>),
    /// What it was, and what it is.
    Both(StoredAssignment<'a>, StoredAssignment<'a>),
}

impl<'a> Held<'a> {
    /// The change.
    pub(crate) fn pair(&self) -> Pair<'_, 'a>
        ensures { change_shown result ≡ held_shown self.now }
    {
        match self {
            Held::Old(old) => Pair::Old(old),
            Held::New(new) => Pair::New(new),
            Held::Both(old, new) => Pair::Both(old, new),
        }
    }
}

/// The path of a file as it was given, if a side's text file has it.
pub(crate) fn given_path(path: &[u8]) -> &[u8]
    ensures { result.now ≡ spec.given_path path.now }
{
    if path.starts_with(GIVEN) {
        &path[GIVEN.len()..]
    } else {
        path
    }
}

/// An assignment with that path.
pub(crate) fn as_given(f: StoredAssignment<'_>) -> StoredAssignment<'_>
    ensures { assignment_of result ≡ spec.as_given (assignment_of f.entry) }
{
    let StoredAssignment {
        priority,
        line,
        pattern,
        key,
        value,
        path,
    } = f;
    StoredAssignment {
        priority,
        line,
        pattern,
        key,
        value,
        path: given_path(path),
    }
}

/// The changes that are held. The only error is `AllocError`.
pub(crate) fn pairs_of<'r, 'a>(
    alloc: Global,
    held: &'r [Held<'a>],
) -> Result<Vec<Pair<'r, 'a>>, AllocError>
    ensures { IfOk result (λ pairs. map change_shown pairs.items ≡ map held_shown held.now) }
{
    let mut pairs = Vec::with_capacity(alloc, held.len())?;
    for change in held {
        pairs.push(change.pair())?;
    }
    Ok(pairs)
}

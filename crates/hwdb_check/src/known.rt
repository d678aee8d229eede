//! What is known of a file before its lines are read one by one.
ghost use Rattle.std.specs.Prelude.{◌≡◌, map, IfOk};
ghost use Rattle.hwdb_spec.specs.Records;
ghost use Rattle.hwdb_text.specs.Views.{given_in};
ghost use Rattle.hwdb_check.specs.Internal.{IsKnown, own};
ghost use Rattle.hwdb_check.specs.Plain.{IsPlainFile};

use crate::companions::unpaired_lines;
use crate::repeats::repeated_lines;
use crate::replacements::replaced_lines;
use crate::unread::{UnreadLines, unread_lines};
use hwdb_text::Given;
use std::alloc::{AllocError, Global};
use std::collections::{BTreeMap, BTreeSet};

/// What is known of a file.
#[derive(Drop)]
pub struct Known<'a> {
    /// What it holds.
    pub bytes: &'a [u8],
    /// The numbers of the match lines that their record has already.
    pub repeated: BTreeSet<u64>,
    /// For the number of a line that of the last line that replaces one of its assignments by another value.
    pub replaced: BTreeMap<u64, u64>,
    /// The lines whose property isn't read below any of its patterns.
    pub unread: UnreadLines,
    /// The numbers of the lines whose property lacks another one, with which alone it is read.
    pub unpaired: BTreeSet<u64>,
}

/// What is known of a file with these assignments. The only error is `AllocError`.
pub fn known_of<'a>(
    alloc: Global,
    bytes: &'a [u8],
    assignments: &[Given<'_>],
) -> Result<Known<'a>, AllocError>
    requires { map (given_in own) assignments.now ≡ Records.assignments own bytes.now }
    ensures { IfOk result (λ known. IsKnown known × (known.bytes.now ≡ bytes.now)) }
{
    Ok(Known {
        bytes,
        repeated: repeated_lines(alloc, bytes)?,
        replaced: replaced_lines(alloc, assignments)?,
        unread: unread_lines(alloc, assignments)?,
        unpaired: unpaired_lines(alloc, assignments)?,
    })
}

/// What is known of a plain file: nothing is repeated, replaced, unread or unpaired in it.
pub fn nothing_known<'a>(alloc: Global, bytes: &'a [u8]) -> Known<'a>
    requires { IsPlainFile bytes.now }
    ensures { IsKnown result × (result.bytes.now ≡ bytes.now) }
{
    let repeated = BTreeSet::new(alloc);
    let replaced = BTreeMap::new(alloc);
    let elsewhere = BTreeSet::new(alloc);
    let read = BTreeSet::new(alloc);
    let unpaired = BTreeSet::new(alloc);
    Known {
        bytes,
        repeated,
        replaced,
        unread: UnreadLines { elsewhere, read },
        unpaired,
    }
}

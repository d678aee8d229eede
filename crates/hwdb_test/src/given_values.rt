//! The properties that a database gives a device, and which file and line gave each.
ghost use Rattle.std.specs.Prelude.{◌≡◌, ◌++◌, flat_map, map, take, IfOk, OnOk};
ghost use Rattle.hwdb_query.specs.Views.{assignment_of_answer, explained_values};
ghost use Rattle.hwdb_spec.specs.Answers.{effective_of};
ghost use Rattle.hwdb_spec.specs.Tree.{answers};
ghost use Rattle.hwdb_spec_commands.specs.Wanted.{counting, given_of};
ghost use Rattle.hwdb_test.specs.Internal.{AscendByKey};
ghost use Rattle.hwdb_test.specs.Views.{given_at, pair_at};

use hwdb_query::{Explained, explain, explained_are_effective};
use hwdb_reader::Db;
use std::alloc::{AllocError, Global};

/// A property that a device is given. Its texts are parts of the database's bytes.
#[derive(Clone, Copy)]
pub struct GivenValue<'a> {
    /// The key.
    pub key: &'a [u8],
    /// The value.
    pub value: &'a [u8],
    /// The stored path of the file that gave it.
    pub path: &'a [u8],
    /// The line of that file.
    pub line: u64,
}

/// Adds the value that counts of a key. The only error, here and below, is `AllocError`.
fn push_counting<'a>(
    found: &mut Vec<GivenValue<'a>>,
    explained: &Explained<'a>,
) -> Result<(), AllocError>
    ensures { OnOk result (map given_at found.new.items ≡ map given_at found.old.items
        ++ map (given_of explained.now.key.now)
        (take 1 (map assignment_of_answer explained.now.answers.items))) }
{
    let Some((last, _)) = explained.answers.split_first() else {
        return Ok(());
    };
    found.push(GivenValue {
        key: explained.key,
        value: last.value,
        path: last.path,
        line: u64::from(last.line),
    })?;
    Ok(())
}

/// The values that count of some keys.
fn counting_of<'a>(alloc: Global, list: &[Explained<'a>]) -> Result<Vec<GivenValue<'a>>, AllocError>
    ensures { IfOk result (λ found. map given_at found.items ≡ flat_map
        (λ p. map (given_of p.0) (take 1 p.1)) (explained_values list.now)) }
{
    let mut found = Vec::new(alloc);
    for explained in list {
        push_counting(&mut found, explained)?;
    }
    Ok(found)
}

/// For each key that the device is given the value that counts, ascending by key: one descent of the tree.
pub fn found<'a>(
    alloc: Global,
    db: &Db<'a>,
    device: &[u8],
) -> Result<Vec<GivenValue<'a>>, AllocError>
    ensures counting { IfOk result (λ found. map given_at found.items
        ≡ counting (answers device.now db.now)) }
    ensures effective { IfOk result (λ found. map pair_at found.items
        ≡ effective_of (answers device.now db.now)) }
    ensures ascend { IfOk result (λ found. AscendByKey found.items) }
{
    explained_are_effective();
    let list = explain(alloc, db, device)?;
    counting_of(alloc, &list)
}

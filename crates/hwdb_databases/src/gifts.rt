//! What a database gives a device.
ghost use Rattle.std.specs.Prelude.{◌≡◌, ◌++◌, flat_map, map, take, IfOk, OnOk};
ghost use Rattle.hwdb_spec_commands.specs.DeviceDifferences.{counting_answers, given_to};
ghost use Rattle.hwdb_spec_commands.specs.Reviews.{as_given};
ghost use Rattle.hwdb_query.specs.Views.{assignment_of_answer, explained_values};
ghost use Rattle.hwdb_databases.specs.Views.{assignment_of};

use crate::held::given_path;
use hwdb_query::{Explained, StoredAssignment, explain};
use hwdb_reader::Db;
use std::alloc::{AllocError, Global};
use std::rc::Rc;

/// A copy of a device, or of a pattern, which assignments can share. The only error, here and below, is `AllocError`.
pub(crate) fn shared(alloc: Global, device: &[u8]) -> Result<Rc<Vec<u8>>, AllocError>
    ensures { IfOk result (λ copy. copy.value.items ≡ device.now) }
{
    let copy = Rc::new(alloc, device.to_vec(alloc)?)?;
    Ok(copy)
}

/// Adds the answer that counts of a key, as an assignment to the device.
fn push_gift<'a>(
    gifts: &mut Vec<StoredAssignment<'a>>,
    device: &Rc<Vec<u8>>,
    explained: &Explained<'a>,
) -> Result<(), AllocError>
    ensures { OnOk result (map assignment_of gifts.new.items ≡ map assignment_of gifts.old.items
        ++ map as_given (map (given_to device.now.value.items)
        (take 1 (map assignment_of_answer explained.now.answers.items)))) }
{
    let Some((last, _)) = explained.answers.split_first() else {
        return Ok(());
    };
    gifts.push(StoredAssignment {
        priority: last.priority,
        line: last.line,
        pattern: device.clone()?,
        key: last.key,
        value: last.value,
        path: given_path(last.path),
    })?;
    Ok(())
}

/// The same of some keys.
fn gifts_of<'a>(
    alloc: Global,
    device: &Rc<Vec<u8>>,
    list: &[Explained<'a>],
) -> Result<Vec<StoredAssignment<'a>>, AllocError>
    ensures { IfOk result (λ gifts. map assignment_of gifts.items ≡ flat_map (λ p. map as_given
        (map (given_to device.now.value.items) (take 1 p.1))) (explained_values list.now)) }
{
    let mut gifts = Vec::new(alloc);
    for explained in list {
        push_gift(&mut gifts, device, explained)?;
    }
    Ok(gifts)
}

/// For each key that the database gives the device the answer that counts, ascending by key, as an assignment to the device: that
/// is in the place of the pattern. Paths are those that were given. One descent of the tree.
pub(crate) fn gifts<'a>(
    alloc: Global,
    db: &Db<'a>,
    device: &[u8],
) -> Result<Vec<StoredAssignment<'a>>, AllocError>
    ensures { IfOk result (λ gifts. map assignment_of gifts.items
        ≡ map as_given (map (given_to device.now) (counting_answers device.now db.now))) }
{
    let copy = shared(alloc, device)?;
    let list = explain(alloc, db, device)?;
    gifts_of(alloc, &copy, &list)
}

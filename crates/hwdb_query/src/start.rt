//! The start of a cursor.
ghost use Rattle.std.specs.Prelude.{◌≡◌, ◌<◌, List, IfOk, IfErr};
ghost use Rattle.hwdb_spec.specs.Tree.{answers_after, IsTreeOfFiles, live_nodes};
ghost use Rattle.hwdb_spec.specs.Folders.{Source, all_assignments};
ghost use Rattle.hwdb_spec.specs.Answers.{last_assignments};
ghost use Rattle.hwdb_spec.specs.Last.{AreLast};
ghost use Rattle.hwdb_query.specs.Views.{fresh, given_position};
ghost use Rattle.hwdb_spec.specs.declared.errors.CursorError.TheVariants.{PageZero};

use crate::cursors::Cursor;
use crate::position::Position;
use hwdb_pattern::matches_is_tested;
use hwdb_reader::Db;
use hwdb_spec::CursorError;
use std::alloc::{AllocError, Global};

/// A cursor as [`cursor`] makes it, for a caller whose page isn't 0.
///
/// The only error is want of memory.
pub fn paged_cursor<'a, 'd>(
    alloc: Global,
    db: &Db<'a>,
    device: &'d [u8],
    after: Option<&Position>,
    page: usize,
) -> Result<Cursor<'a, 'd>, AllocError>
    requires { 0 < page }
    ensures begins { IfOk result (λ c. c ≡ fresh
        (answers_after device.now (given_position after.entry) db.now) page
        (live_nodes device.now db.now)) }
    ensures headline { IfOk result
        (λ c. (etc usr : List Source) → IsTreeOfFiles etc usr db.now
        → AreLast device.now (given_position after.entry) (all_assignments etc usr) c.to_come) }
    ensures list { IfOk result
        (λ c. (etc usr : List Source) → IsTreeOfFiles etc usr db.now
        → c.to_come ≡ last_assignments device.now (given_position after.entry)
        (all_assignments etc usr)) }
{
    matches_is_tested();
    let root = db.root();
    let after = match after {
        None => None,
        Some(position) => Some(position.copy(alloc)?),
    };
    Ok(Cursor::start(alloc, root, device, after, page))
}

/// A cursor over the answers of the database for the device, after a position if one is given. It holds nothing yet,
/// and then at most `page` hits at a time.
///
/// Over the database of some files it yields the last assignment of each pattern and key, if the pattern matches the
/// device. They come by file priority, line, pattern and key.
///
/// [`CursorError::PageZero`] if `page` is 0, before memory is asked for. [`CursorError::Memory`] if an allocation
/// fails: a position is copied.
pub fn cursor<'a, 'd>(
    alloc: Global,
    db: &Db<'a>,
    device: &'d [u8],
    after: Option<&Position>,
    page: usize,
) -> Result<Cursor<'a, 'd>, CursorError>
    ensures begins { IfOk result (λ c. c ≡ fresh
        (answers_after device.now (given_position after.entry) db.now) page
        (live_nodes device.now db.now)) }
    ensures headline { IfOk result
        (λ c. (etc usr : List Source) → IsTreeOfFiles etc usr db.now
        → AreLast device.now (given_position after.entry) (all_assignments etc usr) c.to_come) }
    ensures list { IfOk result
        (λ c. (etc usr : List Source) → IsTreeOfFiles etc usr db.now
        → c.to_come ≡ last_assignments device.now (given_position after.entry)
        (all_assignments etc usr)) }
    ensures some { IfOk result (λ _. 0 < page) }
    ensures zero { page ≡ 0 → IfErr result (λ e. e ≡ PageZero) }
    ensures page { IfErr result (λ e. e ≡ PageZero → page ≡ 0) }
{
    if page == 0 {
        return Err(CursorError::PageZero);
    }
    Ok(paged_cursor(alloc, db, device, after, page)?)
}

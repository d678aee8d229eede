//! Whether two databases assign the same: both are walked, one assignment after another.
ghost use Rattle.std.specs.Prelude.{◌≡◌, [], IfOk};
ghost use Rattle.hwdb_spec.specs.Tree.{members_under};
ghost use Rattle.hwdb_databases.specs.Internal.Alike;
ghost use Rattle.hwdb_databases.specs.Internal.Alike.{are_one, is_head};
ghost use Rattle.hwdb_databases.specs.Internal.Meeting.{head_of, unread_of};
ghost use Rattle.hwdb_databases.specs.Internal.Trails.{IsCopied, path_of};

use crate::members::{Members, key_of};
use crate::texts::is_same;
use hwdb_reader::{Db, UnreadEntry};
use std::alloc::{AllocError, Global};

/// Whether two assignments with these patterns are the same.
fn is_one(p: &[u8], x: &UnreadEntry<'_>, q: &[u8], y: &UnreadEntry<'_>) -> bool
    ensures { result ≡ Alike.is_one (unread_of p.now x.now) (unread_of q.now y.now) }
{
    x.priority == y.priority
        && x.line == y.line
        && is_same(p, q)
        && is_same(key_of(x), key_of(y))
        && is_same(x.value.read(), y.value.read())
        && is_same(x.path.read(), y.path.read())
}

/// Whether the next assignment is this one.
fn is_next(pattern: &[u8], x: &UnreadEntry<'_>, members: &Members<'_>) -> bool
    requires { IsCopied members.now.walk.trail }
    ensures { result ≡ is_head (unread_of pattern.now x.now)
        (head_of (path_of members.now.walk.trail) members.now.next) }
{
    match members.next {
        Some(y) => is_one(pattern, x, members.pattern(), &y),
        None => false,
    }
}

/// Whether two databases assign the same. The only error is `AllocError`.
pub(crate) fn are_alike(alloc: Global, old: &Db<'_>, new: &Db<'_>) -> Result<bool, AllocError>
    ensures { IfOk result
        (λ one. one ≡ are_one (members_under [] old.now) (members_under [] new.now)) }
{
    let mut before = Members::start(alloc, true, old)?;
    let mut after = Members::start(alloc, true, new)?;
    'members: while let Some(x) = before.next {
        if !is_next(before.pattern(), &x, &after) {
            return Ok(false);
        }
        before.pass()?;
        after.pass()?;
    }
    Ok(after.next.is_none())
}

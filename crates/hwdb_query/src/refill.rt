//! One filling of a page: one descent of the tree, which keeps the least hits after a position.
ghost use Rattle.std.specs.Prelude.{◌≡◌, List, [], take, reverse, IfOk, OnOk, OnErr};
ghost use Rattle.hwdb_reader.specs.Views.{tree_of};
ghost use Rattle.hwdb_spec.specs.Tree.{answers_after, live_nodes};
ghost use Rattle.hwdb_query.specs.Internal.Hits.{after_position, IsFirst};

use crate::descent::descend;
use crate::hit::Parts;
use crate::hit_page::HitPage;
use crate::next_page::NextPage;
use crate::position::Position;
use hwdb_reader::Node;
use std::alloc::{AllocError, Global};

/// The position of a page's last hit, and how many nodes were entered.
#[derive(Drop)]
pub(crate) struct Filled {
    pub last: Option<Position>,
    pub entered: u64,
}

/// Takes the least hits after the position, a page of them at most, the last one first.
pub(crate) fn fill<'a>(
    alloc: Global,
    root: Node<'a>,
    device: &[u8],
    after: Option<Parts<'_>>,
    held: &mut HitPage<'a>,
) -> Result<Filled, AllocError>
    requires { held.old.hits ≡ [] }
    ensures same { OnErr result (held.new ≡ held.old) }
    ensures most { held.new.most ≡ held.old.most }
    ensures hits { OnOk result
        (held.new.hits
        ≡ reverse (take held.old.most
        (answers_after device.now (after_position after.entry) (tree_of root.entry)))) }
    ensures last { IfOk result (λ f. IsFirst held.new.hits f.last) }
    ensures entered { IfOk result (λ f. f.entered ≡ live_nodes device.now (tree_of root.entry)) }
{
    let mut next = NextPage {
        after,
        held: held.take(alloc),
    };
    let entered = descend(alloc, root, device, &mut next)?;
    let mut filled = next.held;
    filled.turn();
    let last = filled.first_position(alloc)?;
    held.set(filled);
    Ok(Filled { last, entered })
}

//! What a database assigns to the patterns that begin with a byte: of a root without a prefix, as `update` writes it, only the children
//! that this byte leads to are walked.
ghost use Rattle.std.specs.Prelude.{◌≡◌, ◌++◌, ◌∷◌, [], filter, map, IfNone, IfOk, OnOk};
ghost use Rattle.hwdb_spec.specs.Tree.{Tree, members_under};
ghost use Rattle.hwdb_reader.specs.Views.{children_of, entered_tree, tree_of};
ghost use Rattle.hwdb_query.specs.Internal.Members.{members_in};
ghost use Rattle.hwdb_databases.specs.Beginnings.{is_from, members_from};
ghost use Rattle.hwdb_databases.specs.Views.{assignment_of};

use crate::walk::{Walk, assignments, push_rest};
use hwdb_query::StoredAssignment;
use hwdb_reader::{Child, Db, Entered, Inside};
use std::alloc::{AllocError, Global};

/// Adds what the tree of a child of a node without a prefix assigns. The only error, here and below, is `AllocError`.
fn push_child<'a>(
    alloc: Global,
    child: Child<'a>,
    found: &mut Vec<StoredAssignment<'a>>,
) -> Result<(), AllocError>
    ensures { OnOk result (map assignment_of found.new.items ≡ map assignment_of found.old.items
        ++ members_under (child.entry.byte ∷ []) (tree_of child.entry.node)) }
{
    let mut walk = Walk::start_below(alloc, child.byte, child.node)?;
    push_rest(alloc, &mut walk, found)
}

/// Adds what the trees of those children of a node without a prefix assign that a byte leads to.
fn push_children<'a>(
    alloc: Global,
    inside: Inside<'a>,
    first: u8,
    found: &mut Vec<StoredAssignment<'a>>,
) -> Result<(), AllocError>
    ensures { OnOk result (map assignment_of found.new.items ≡ map assignment_of found.old.items
        ++ filter (is_from first) (members_in [] (children_of (entered_tree inside.entry)))) }
{
    for i in 0..inside.children() {
        let child = inside.child(i);
        if child.byte == first {
            push_child(alloc, child, found)?;
        }
    }
    Ok(())
}

/// All that the database assigns to patterns that begin with this byte, by pattern and then by key, as [`assignments`] gives it.
///
/// Enters the root and the nodes below the children that the byte leads to. If the root has a prefix, all nodes.
pub fn assignments_from<'a>(
    alloc: Global,
    db: &Db<'a>,
    first: u8,
) -> Result<Vec<StoredAssignment<'a>>, AllocError>
    ensures list { IfOk result (λ list. map assignment_of list.items ≡ members_from first db.now) }
{
    let root = db.root();
    if let Some((byte, _)) = root.prefix().split_first() {
        if *byte == first {
            return Ok(assignments(alloc, db)?);
        }
        return Ok(Vec::new(alloc));
    }
    let mut found = Vec::new(alloc);
    push_children(alloc, root.enter(&mut Entered::new()), first, &mut found)?;
    Ok(found)
}

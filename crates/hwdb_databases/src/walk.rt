//! The walk over all nodes of a database, each before its children: so what they assign comes by pattern and then by
//! key. Who walks takes one node after another, and keeps of it what is needed.
//!
//! The nodes whose children aren't all done are on a stack of its own, on the heap. So a deep tree takes no more of the
//! thread's stack than a flat one. Each node is entered once.
//!
//! A node's own assignments are those of `hwdb_query`, by one call. The loop isn't: the descent there keeps at each open node what
//! is known of the device, and passes over what can't match. That takes memory. This one enters all nodes and counts how deep they
//! are.
ghost use Rattle.std.specs.Prelude.{◌≡◌, ◌<◌, ◌≤◌, ◌+◌, ◌++◌, ◌^◌, ◌∷◌, ℕ, All, List, [], None, map, max, reverse, length, is_some, true, IfNone, IfOk, IsSomeAnd, OnOk};
ghost use Rattle.hwdb_spec.specs.Tree.{Tree, members_under, prefix_of};
ghost use Rattle.hwdb_reader.specs.Unread.{file_at};
ghost use Rattle.hwdb_reader.specs.Views.{tree_of, entered_tree};
ghost use Rattle.hwdb_databases.specs.Views.{assignment_of};
ghost use Rattle.hwdb_databases.specs.Internal.Trails.{Follows, IsCopied, IsLonger, IsSegmentIn, path_of};
ghost use Rattle.hwdb_databases.specs.Internal.Walks.{IsAtOne, IsOf, IsOpenIn, to_come, StandsOn, left, steps, deepest_to_come, Opened, IsWalkOf, entered_one, named, named_at, named_left, own_of, rest_of, still_left};

use crate::trail::Trail;
use hwdb_query::{StoredAssignment, push_answers};
use hwdb_reader::{Db, Entered, Inside, Node};
use std::alloc::{AllocError, Global};

/// A node that was entered. Some of its children are done.
#[derive(Clone, Copy)]
pub(crate) struct OpenVisit<'a> {
    inside: Inside<'a>,
    /// How many of its children were entered.
    done: usize,
    /// How many segments its path has.
    length: usize,
}

/// How far a walk has come.
#[derive(Drop)]
pub(crate) struct Walk<'a> {
    /// The way to the node that was entered last.
    pub trail: Trail<'a>,
    /// That node; none at the end.
    pub at: Option<Inside<'a>>,
    /// The nodes that aren't done, each below the one before it.
    stack: Vec<OpenVisit<'a>>,
    entered: Entered,
    /// The most nodes that were on one path so far.
    pub deepest: usize,
}

/// Room on the stack for the node that is entered.
const NODE: usize = 1;

impl<'a> Walk<'a> {
    fn new(alloc: Global, copies: bool) -> Walk<'a>
        ensures segments { result.trail.segments.items ≡ [] }
        ensures copied { copies ≡ true → IsCopied result.trail }
        ensures stack { result.stack.items ≡ [] }
        ensures entered { result.entered ≡ 0 }
        ensures deepest { result.deepest ≡ 0 }
    {
        Walk {
            trail: Trail::new(alloc, copies),
            at: None,
            stack: Vec::new(alloc),
            entered: Entered::new(),
            deepest: 0,
        }
    }

    /// A walk over a database that is at the root. Says whether the path's bytes are to be held. The only error, here and below, is
    /// `AllocError`.
    pub(crate) fn start(alloc: Global, copies: bool, db: &Db<'a>) -> Result<Walk<'a>, AllocError>
        ensures walk { IfOk result (λ walk. IsWalkOf db.now walk) }
        ensures all { IfOk result (λ walk.
            own_of (path_of walk.trail) walk.at ++ rest_of walk ≡ members_under [] db.now) }
        ensures end { IfOk result (λ walk. IfNone walk.at (walk.stack.items ≡ [])) }
        ensures copied { copies ≡ true → IfOk result (λ walk. IsCopied walk.trail) }
        ensures named { IfOk result (λ walk.
            named_at walk.at + named_left (reverse walk.stack.items) ≡ named db.now) }
    {
        Walk::start_at(alloc, copies, db.root())
    }

    /// The same over the tree of a node.
    pub(crate) fn start_at(
        alloc: Global,
        copies: bool,
        root: Node<'a>,
    ) -> Result<Walk<'a>, AllocError>
        ensures walk { (t : Tree) → tree_of root.entry ≡ t → IfOk result (λ walk. IsWalkOf t walk) }
        ensures all { (t : Tree) → tree_of root.entry ≡ t → IfOk result (λ walk.
            own_of (path_of walk.trail) walk.at ++ rest_of walk ≡ members_under [] t) }
        ensures end { IfOk result (λ walk. IfNone walk.at (walk.stack.items ≡ [])) }
        ensures file { IfOk result (λ walk. IsOf (file_at root.entry) walk) }
        ensures copied { copies ≡ true → IfOk result (λ walk. IsCopied walk.trail) }
        ensures named { (t : Tree) → tree_of root.entry ≡ t → IfOk result (λ walk.
            named_at walk.at + named_left (reverse walk.stack.items) ≡ named t) }
    {
        root.law_tree();
        let mut walk = Walk::new(alloc, copies);
        walk.enter(None, root)?;
        Ok(walk)
    }

    /// The same over the tree of a node that a byte leads to, if the path above it is empty.
    pub(crate) fn start_below(
        alloc: Global,
        byte: u8,
        node: Node<'a>,
    ) -> Result<Walk<'a>, AllocError>
        ensures walk { IfOk result (λ walk. IsWalkOf (tree_of node.entry) walk) }
        ensures all { IfOk result (λ walk. own_of (path_of walk.trail) walk.at ++ rest_of walk
            ≡ members_under (byte ∷ []) (tree_of node.entry)) }
        ensures end { IfOk result (λ walk. IfNone walk.at (walk.stack.items ≡ [])) }
        ensures copied { IfOk result (λ walk. IsCopied walk.trail) }
    {
        node.law_tree();
        let mut walk = Walk::new(alloc, true);
        walk.enter(Some(byte), node)?;
        Ok(walk)
    }

    /// How many nodes were entered.
    pub(crate) fn nodes(&self) -> u64
        ensures { result ≡ self.now.entered }
    {
        self.entered.count()
    }

    /// Enters a node, which is reached by a byte. The walk's path is that of the node above it. Puts the node on the stack if it has
    /// children, as few nodes do.
    fn enter(&mut self, byte: Option<u8>, node: Node<'a>) -> Result<(), AllocError>
        requires { self.old.entered + 1 < 2 ^ 64 }
        ensures longer { OnOk result
            (IsLonger self.old.trail.segments.items self.new.trail.segments.items
            byte (prefix_of (tree_of node.entry))) }
        ensures follows { OnOk result (Follows self.old.trail self.new.trail) }
        ensures at { OnOk result
            (IsSomeAnd self.new.at (λ inside. entered_tree inside ≡ tree_of node.entry)) }
        ensures stack { OnOk result
            (Opened self.old.stack.items self.new.stack.items (tree_of node.entry)
            (length self.new.trail.segments.items)) }
        ensures counted { OnOk result (self.new.entered ≡ self.old.entered + 1) }
        ensures deepest { OnOk result
            (self.new.deepest ≡ max self.old.deepest (length self.old.stack.items + 1)) }
        ensures file { OnOk result (IsAtOne (file_at node.entry) self.new.at) }
        ensures files { OnOk result ((f : List ℕ) → file_at node.entry ≡ f
            → All (IsOpenIn f) self.old.stack.items → All (IsOpenIn f) self.new.stack.items) }
        ensures segments { OnOk result ((f : List ℕ) → file_at node.entry ≡ f
            → All (IsSegmentIn f) self.old.trail.segments.items
            → All (IsSegmentIn f) self.new.trail.segments.items) }
    {
        self.trail.push(byte, node)?;
        let inside = node.enter(&mut self.entered);
        self.at = Some(inside);
        self.stack.reserve(NODE)?;
        self.deepest = self.deepest.max(self.stack.len() + 1);
        if inside.children() == 0 {
            return Ok(());
        }
        let length = self.trail.segments.len();
        self.stack.push(OpenVisit {
            inside,
            done: 0,
            length,
        })?;
        Ok(())
    }

    /// Goes on from the node on top of the stack: enters its next child, if there is one, else takes it off. Answers whether there is.
    fn go_on(&mut self) -> Result<bool, AllocError>
        requires some { 0 < length self.old.stack.items }
        requires none { self.old.at ≡ None }
        requires stands { StandsOn self.old.trail.segments.items (reverse self.old.stack.items) }
        requires room { self.old.entered + left (reverse self.old.stack.items) < 2 ^ 64 }
        requires reached { length self.old.stack.items ≤ self.old.deepest }
        ensures found { IfOk result (λ found. found ≡ is_some self.new.at) }
        ensures rest { OnOk result (own_of (path_of self.new.trail) self.new.at
            ++ to_come self.new.trail.segments.items (reverse self.new.stack.items)
            ≡ to_come self.old.trail.segments.items (reverse self.old.stack.items)) }
        ensures follows { OnOk result (Follows self.old.trail self.new.trail) }
        ensures stands { OnOk result
            (StandsOn self.new.trail.segments.items (reverse self.new.stack.items)) }
        ensures counted { OnOk result
            (self.new.entered ≡ self.old.entered + entered_one self.new.at) }
        ensures left { OnOk result (entered_one self.new.at + left (reverse self.new.stack.items)
            ≡ left (reverse self.old.stack.items)) }
        ensures named { OnOk result
            (named_at self.new.at + named_left (reverse self.new.stack.items)
            ≡ named_left (reverse self.old.stack.items)) }
        ensures fewer { OnOk result
            (steps (reverse self.new.stack.items) < steps (reverse self.old.stack.items)) }
        ensures deepest { OnOk result
            (max self.new.deepest (deepest_to_come (reverse self.new.stack.items))
            ≡ max self.old.deepest (deepest_to_come (reverse self.old.stack.items))) }
        ensures reached { OnOk result (length self.new.stack.items ≤ self.new.deepest) }
        ensures file { OnOk result
            ((f : List ℕ) → All (IsOpenIn f) self.old.stack.items → IsAtOne f self.new.at) }
        ensures files { OnOk result ((f : List ℕ)
            → All (IsOpenIn f) self.old.stack.items → All (IsOpenIn f) self.new.stack.items) }
        ensures segments { OnOk result ((f : List ℕ) → All (IsOpenIn f) self.old.stack.items
            → All (IsSegmentIn f) self.old.trail.segments.items
            → All (IsSegmentIn f) self.new.trail.segments.items) }
    {
        let last = self.stack.len() - 1;
        let open = &mut self.stack[last];
        self.trail.cut(open.length);
        if open.done == open.inside.children() {
            self.stack.pop();
            return Ok(false);
        }
        let child = open.inside.child_in_file(open.done);
        open.done += 1;
        self.enter(Some(child.byte), child.node)?;
        Ok(true)
    }

    /// Goes on to the next node, each before its children; to none at the end.
    pub(crate) fn next(&mut self) -> Result<(), AllocError>
        requires { (t : Tree) × IsWalkOf t self.old }
        ensures walk { OnOk result ((t : Tree) → IsWalkOf t self.old → IsWalkOf t self.new) }
        ensures rest { OnOk result
            (own_of (path_of self.new.trail) self.new.at ++ rest_of self.new ≡ rest_of self.old) }
        ensures follows { OnOk result (Follows self.old.trail self.new.trail) }
        ensures end { OnOk result (IfNone self.new.at (self.new.stack.items ≡ [])) }
        ensures left { OnOk result
            (entered_one self.new.at + still_left self.new ≡ still_left self.old) }
        ensures named { OnOk result
            (named_at self.new.at + named_left (reverse self.new.stack.items)
            ≡ named_left (reverse self.old.stack.items)) }
        ensures file { OnOk result
            ((f : List ℕ) → All (IsOpenIn f) self.old.stack.items → IsAtOne f self.new.at) }
        ensures files { OnOk result ((f : List ℕ)
            → All (IsOpenIn f) self.old.stack.items → All (IsOpenIn f) self.new.stack.items) }
        ensures segments { OnOk result ((f : List ℕ) → All (IsOpenIn f) self.old.stack.items
            → All (IsSegmentIn f) self.old.trail.segments.items
            → All (IsSegmentIn f) self.new.trail.segments.items) }
    {
        self.at = None;
        'nodes: while !self.stack.is_empty() {
            if self.go_on()? {
                return Ok(());
            }
        }
        Ok(())
    }
}

/// Adds what the nodes assign that a walk is at, or hasn't entered.
pub(crate) fn push_rest<'a>(
    alloc: Global,
    walk: &mut Walk<'a>,
    found: &mut Vec<StoredAssignment<'a>>,
) -> Result<(), AllocError>
    requires walk { (t : Tree) × IsWalkOf t walk.old }
    requires end { IfNone walk.old.at (walk.old.stack.items ≡ []) }
    requires copied { IsCopied walk.old.trail }
    ensures { OnOk result (map assignment_of found.new.items ≡ map assignment_of found.old.items
        ++ (own_of (path_of walk.old.trail) walk.old.at ++ rest_of walk.old)) }
{
    'nodes: while let Some(inside) = walk.at {
        push_answers(alloc, inside, walk.trail.path(), found)?;
        walk.next()?;
    }
    Ok(())
}

/// All that the database assigns, by pattern and then by key. Keys, values and paths are parts of the database's bytes.
///
/// The time grows with the number of nodes and with the bytes of the patterns. The memory is a record for each
/// assignment, and a copy of each pattern that has one. The only error is `AllocError`.
pub fn assignments<'a>(alloc: Global, db: &Db<'a>) -> Result<Vec<StoredAssignment<'a>>, AllocError>
    ensures list { IfOk result (λ list. map assignment_of list.items ≡ members_under [] db.now) }
{
    let mut walk = Walk::start(alloc, true, db)?;
    let mut found = Vec::new(alloc);
    push_rest(alloc, &mut walk, &mut found)?;
    Ok(found)
}

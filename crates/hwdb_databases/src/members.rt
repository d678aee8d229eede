//! The assignments of a database, one after another while it is walked. None but the next one is held, without a copy of
//! its pattern, and without a look at its texts.
ghost use Rattle.std.specs.Prelude.{◌≡◌, ◌++◌, ℕ, List, [], None, Some, true, false, drop, is_some, IfNone, IfOk, IfSome, OnOk};
ghost use Rattle.hwdb_spec.specs.Tree.{Tree, members_under, values_of};
ghost use Rattle.hwdb_reader.specs.Unread.{IsFrom, file_at, file_in, text_of};
ghost use Rattle.hwdb_reader.specs.Views.{entered_tree, tree_of};
ghost use Rattle.hwdb_query.specs.Internal.Members.{own_members};
ghost use Rattle.hwdb_databases.specs.Views.{assignment_of};
ghost use Rattle.hwdb_databases.specs.Internal.Trails.{AreKeptOf, AreThere, IsCopied, path_of};
ghost use Rattle.hwdb_databases.specs.Internal.Meeting.{AreOf, IsUnderWay, after_next, head_of, left_of, member_of, unread_of};

use crate::trail::push_path;
use crate::walk::Walk;
use hwdb_query::StoredAssignment;
use hwdb_reader::{Db, Inside, Node, UnreadEntry};
use std::alloc::{AllocError, Global};
use std::rc::Rc;

/// An assignment without its pattern.
#[derive(Clone, Copy)]
pub(crate) struct Member<'a> {
    pub priority: u16,
    pub line: u32,
    pub key: &'a [u8],
    pub value: &'a [u8],
    pub path: &'a [u8],
}

/// The assignments that a walk has still to give.
#[derive(Drop)]
pub(crate) struct Members<'a> {
    pub walk: Walk<'a>,
    /// How many values of the node that the walk is at were looked at.
    looked: usize,
    /// The next assignment. Its pattern is the walk's path.
    pub next: Option<UnreadEntry<'a>>,
}

/// The key of an assignment: the stored key after its first byte.
pub(crate) fn key_of<'a>(entry: &UnreadEntry<'a>) -> &'a [u8]
    ensures { result.now ≡ drop 1 (text_of entry.now.key) }
{
    let stored = entry.key.read();
    &stored[stored.len().min(1)..]
}

/// An assignment with its texts.
pub(crate) fn read<'a>(entry: &UnreadEntry<'a>) -> Member<'a>
    ensures { (pattern : List ℕ) → member_of pattern result ≡ unread_of pattern entry.now }
{
    Member {
        priority: entry.priority,
        line: entry.line,
        key: key_of(entry),
        value: entry.value.read(),
        path: entry.path.read(),
    }
}

impl<'a> Members<'a> {
    /// All that a database assigns. Says whether the patterns' bytes are to be held. The only error, here and below, is `AllocError`.
    pub(crate) fn start(alloc: Global, copies: bool, db: &Db<'a>) -> Result<Members<'a>, AllocError>
        ensures all { IfOk result (λ members. left_of members ≡ members_under [] db.now) }
        ensures walk { IfOk result (λ members. IsUnderWay db.now members) }
        ensures end { IfOk result (λ members. IfNone members.next (members.walk.at ≡ None)) }
        ensures file { IfOk result (λ members. (f : List ℕ) × AreOf f members) }
        ensures copied { copies ≡ true → IfOk result (λ members. IsCopied members.walk.trail) }
    {
        Members::start_at(alloc, copies, db.root())
    }

    /// The same, over the tree of a node.
    pub(crate) fn start_at(
        alloc: Global,
        copies: bool,
        root: Node<'a>,
    ) -> Result<Members<'a>, AllocError>
        ensures all { (t : Tree) → tree_of root.entry ≡ t
            → IfOk result (λ members. left_of members ≡ members_under [] t) }
        ensures walk { (t : Tree) → tree_of root.entry ≡ t
            → IfOk result (λ members. IsUnderWay t members) }
        ensures end { IfOk result (λ members. IfNone members.next (members.walk.at ≡ None)) }
        ensures file { IfOk result (λ members. AreOf (file_at root.entry) members) }
        ensures copied { copies ≡ true → IfOk result (λ members. IsCopied members.walk.trail) }
    {
        let walk = Walk::start_at(alloc, copies, root)?;
        let mut members = Members {
            walk,
            looked: 0,
            next: None,
        };
        members.pass()?;
        Ok(members)
    }

    /// The pattern of the next assignment.
    pub(crate) fn pattern(&self) -> &[u8]
        requires { IsCopied self.now.walk.trail }
        ensures { result.now ≡ path_of self.now.walk.trail }
    {
        self.walk.trail.path()
    }

    /// The assignment, with a copy of the pattern of the next one.
    pub(crate) fn copied(
        &self,
        alloc: Global,
        entry: &UnreadEntry<'a>,
    ) -> Result<StoredAssignment<'a>, AllocError>
        ensures { IfOk result
            (λ made. assignment_of made ≡ unread_of (path_of self.now.walk.trail) entry.now) }
    {
        let mut path = Vec::new(alloc);
        push_path(&mut path, &self.walk.trail.segments)?;
        let pattern = Rc::new(alloc, path)?;
        let member = read(entry);
        Ok(StoredAssignment {
            priority: member.priority,
            line: member.line,
            pattern,
            key: member.key,
            value: member.value,
            path: member.path,
        })
    }

    /// Looks for the next assignment among those values of a node that weren't looked at, and answers whether there is one.
    fn look(&mut self, inside: Inside<'a>) -> bool
        ensures rest { head_of (path_of self.new.walk.trail) self.new.next
            ++ own_members (path_of self.new.walk.trail)
            (drop self.new.looked (values_of (entered_tree inside.entry)))
            ≡ own_members (path_of self.old.walk.trail)
            (drop self.old.looked (values_of (entered_tree inside.entry))) }
        ensures none { result ≡ false → own_members (path_of self.old.walk.trail)
            (drop self.old.looked (values_of (entered_tree inside.entry))) ≡ [] }
        ensures found { result ≡ is_some self.new.next }
        ensures same { self.new.walk ≡ self.old.walk }
        ensures file { IfSome self.new.next (IsFrom (file_in inside.entry)) }
    {
        self.next = None;
        for i in self.looked..inside.values() {
            let entry = inside.unread(i);
            if entry.has_key() {
                self.looked = i + 1;
                self.next = Some(entry);
                return true;
            }
        }
        false
    }

    /// Passes over the next assignment, to the one after it.
    pub(crate) fn pass(&mut self) -> Result<(), AllocError>
        requires { (t : Tree) × IsUnderWay t self.old }
        ensures walk { OnOk result ((t : Tree) → IsUnderWay t self.old → IsUnderWay t self.new) }
        ensures left { OnOk result (left_of self.new ≡ after_next self.old) }
        ensures end { OnOk result (IfNone self.new.next (self.new.walk.at ≡ None)) }
        ensures file { OnOk result ((f : List ℕ) → AreOf f self.old → AreOf f self.new) }
        ensures there { OnOk result (AreThere self.new.walk.trail) }
        ensures kept { OnOk result
            (AreKeptOf self.old.walk.trail.segments.items self.new.walk.trail) }
        ensures copied { OnOk result (IsCopied self.old.walk.trail → IsCopied self.new.walk.trail) }
    {
        self.walk.trail.kept = self.walk.trail.segments.len();
        'nodes: while let Some(inside) = self.walk.at {
            if self.look(inside) {
                return Ok(());
            }
            self.walk.next()?;
            self.looked = 0;
        }
        self.next = None;
        Ok(())
    }
}

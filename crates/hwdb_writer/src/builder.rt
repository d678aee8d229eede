//! The nodes of the tight tree of entries in order, made from the left to the right (the builder of BurntSushi's fst).
//!
//! A tight tree has a node at each place at which patterns part or end, and at no other. A map has one such tree at
//! most, so that its database is one byte string. As the entries are sorted, nothing to the left of the last pattern
//! changes any more. So open are only the nodes on the path to that pattern. The next pattern shares a beginning with
//! it. What is below that beginning is closed. A node that the beginning ends inside is cut in two.
//!
//! The closed nodes come in the order of the database, each after its children. So the file is written in one pass, and
//! no node is moved. Each pattern is compared with the one before it, and each node is opened once and closed once. So
//! the time is that of one look at the patterns' bytes.
//!
//! The memory is a list of nodes of a fixed size, with strings by number. An open node borrows its bytes from a pattern, and its
//! values are a range of the entries. The open nodes are on a stack of their own, not the thread's: long patterns need no deep
//! recursion. The price is the sort before it, and that no pattern can be added later.
ghost use Rattle.std.specs.Prelude.{◌≡◌, ◌≤◌, ◌<◌, ◌++◌, ◌∷◌, [], ◌+◌, ◌-◌, ◌^◌, List, ℕ, length, map, take, drop, reverse, slice_index, All, IfOk, OnOk};
ghost use Rattle.std.specs.Bool.{OnTrue, OnFalse};
ghost use Rattle.std.specs.List.{AllByRecursion};
ghost use Rattle.std.specs.List.Sorted.{IsStrictlySortedBy};
ghost use Rattle.hwdb_writer.specs.declared.entries.Setting.{Setting as EntryRecord};
ghost use Rattle.hwdb_writer.specs.Internal.Entries.{by_place, IsStorableEntry};
ghost use Rattle.hwdb_writer.specs.Internal.Stored.{AreKept, IsTreeOf};
ghost use Rattle.hwdb_writer.specs.Internal.Spine.{Frame, IsClosable, IsClosedTo, IsBuilt, IsNext, IsFinished, MeetAt, Closes, Cuts, Opens, Counts};
ghost use Rattle.hwdb_writer.specs.declared.builder.OpenBranch.{OpenBranch as OpenRecord};

use crate::entries::HeadedEntry;
use crate::nodes::BuiltNode;
use crate::stored::Stored;
use byteorder::{BigEndian, ByteOrder};
use std::alloc::{AllocError, Global};

/// A node that isn't closed yet, and the length of its path in the pattern that was added last.
#[derive(Clone, Copy)]
struct OpenBranch<'t> {
    node: BuiltNode<'t>,
    end: usize,
}

/// The nodes so far.
#[derive(Drop)]
struct Builder<'a, 's, 't> {
    /// The entries, whose values the nodes have.
    entries: &'a [HeadedEntry<'s, 't>],
    /// The pattern that was added last.
    path: &'t [u8],
    /// The node at the end of that pattern.
    top: OpenBranch<'t>,
    /// The nodes above it, from the root on.
    above: Vec<OpenBranch<'t>>,
    /// The nodes that are closed, each after its children.
    closed: Stored<'t>,
}

/// How many bytes are compared at once, as one number.
const WORD: usize = 8;

/// Whether both, of eight bytes each, are equal.
fn same_words(a: &[u8], b: &[u8]) -> bool
    requires first { length a.now ≡ 8 }
    requires second { length b.now ≡ 8 }
    ensures { OnTrue result (a.now ≡ b.now) }
{
    BigEndian::read_u64(a) == BigEndian::read_u64(b)
}

/// How long the longest common beginning of whole words is.
fn common_words(a: &[u8], b: &[u8]) -> usize
    ensures alike { take result a.now ≡ take result b.now }
    ensures first { result ≤ length a.now }
    ensures second { result ≤ length b.now }
{
    let both = a.len().min(b.len());
    let mut n = 0;
    while both - n >= WORD && same_words(&a[n..n + WORD], &b[n..n + WORD]) {
        n += WORD;
    }
    n
}

/// How long the longest common beginning is.
fn common(a: &[u8], b: &[u8]) -> usize
    ensures meeting { MeetAt result a.now b.now }
    ensures first { result ≤ length a.now }
    ensures second { result ≤ length b.now }
{
    let mut n = common_words(a, b);
    while n < a.len() && n < b.len() && a[n] == b[n] {
        n += 1;
    }
    n
}

/// For how many open nodes there is room from the start. glibc keeps short lists that are let go of for lists as short. One of
/// these would lie between what the database's memory is made of.
const OPEN_NODES: usize = 64;

impl<'a, 's, 't> Builder<'a, 's, 't> {
    /// A root alone. What is closed later is put after what `closed` has: nothing yet.
    fn new(
        alloc: Global,
        entries: &'a [HeadedEntry<'s, 't>],
        closed: Stored<'t>,
    ) -> Result<Builder<'a, 's, 't>, AllocError>
        requires { AreKept entries.now [] closed }
        ensures { IfOk result (λ made. (fs : List Frame) × IsBuilt entries.now 0 made fs) }
    {
        let above = Vec::with_capacity(alloc, OPEN_NODES)?;
        Ok(Builder {
            entries,
            path: &[],
            top: OpenBranch {
                node: BuiltNode::new(0, &[], 0),
                end: 0,
            },
            above,
            closed,
        })
    }

    /// Closes the top node: it is one more child of the node above it, which then is the top node.
    fn close(&mut self) -> Result<(), AllocError>
        requires inside { self.old.top.node.first + self.old.top.node.count
            ≤ length self.old.entries.now }
        requires few { (above : List OpenRecord) (g : OpenRecord)
            → self.old.above.items ≡ above ++ g ∷ [] → g.node.children < 256 }
        ensures { OnOk result (Closes self.old self.new) }
    {
        self.closed.push(self.top.node, self.entries)?;
        if let Some(parent) = self.above.pop() {
            self.top = parent;
            self.top.node.children += 1;
        }
        Ok(())
    }

    /// Cuts the top node after so many bytes of its path. The rest from the next byte on is a closed node, the only
    /// child of the node that is left.
    fn cut(&mut self, at: usize) -> Result<(), AllocError>
        requires inside { at < self.old.top.end }
        requires prefix { self.old.top.end ≤ at + length self.old.top.node.prefix.now }
        requires values { self.old.top.node.first + self.old.top.node.count
            ≤ length self.old.entries.now }
        ensures { OnOk result (Cuts at self.old self.new) }
    {
        let node = self.top.node;
        let (front, back) = node
            .prefix
            .split_at(node.prefix.len() - (self.top.end - at));
        let rest = BuiltNode {
            byte: back[0],
            prefix: &back[1..],
            first: node.first,
            count: node.count,
            children: node.children,
        };
        self.closed.push(rest, self.entries)?;
        self.top = OpenBranch {
            node: BuiltNode {
                byte: node.byte,
                prefix: front,
                first: 0,
                count: 0,
                children: 1,
            },
            end: at,
        };
        Ok(())
    }

    /// Whether the path of the node above the top node has so many bytes.
    fn reaches(&self, at: usize) -> bool
        ensures yes { OnTrue result ((above : List OpenRecord) × (g : OpenRecord)
            × (self.now.above.items ≡ above ++ g ∷ []) × (at ≤ g.end)) }
        ensures no { OnFalse result ((above : List OpenRecord) (g : OpenRecord)
            → self.now.above.items ≡ above ++ g ∷ [] → g.end < at) }
    {
        match self.above.last() {
            Some(parent) => at <= parent.end,
            None => false,
        }
    }

    /// Closes or cuts what is open, until the path of the top node has so many bytes.
    fn close_to(&mut self, at: usize) -> Result<(), AllocError>
        requires closable { (es : List EntryRecord) × (fs : List Frame)
            × IsClosable es self.old fs }
        requires within { at ≤ self.old.top.end }
        ensures { OnOk result ((es : List EntryRecord) (fs : List Frame)
            → IsClosable es self.old fs
            → (gs : List Frame) × IsClosedTo es at self.old self.new fs gs) }
    {
        while at < self.top.end {
            if self.reaches(at) {
                self.close()?;
            } else {
                self.cut(at)?;
            }
        }
        Ok(())
    }

    /// Opens a node below the top node, for the rest of the pattern after the top node's path. Its values begin with
    /// this entry.
    fn open(&mut self, pattern: &'t [u8], first: usize) -> Result<(), AllocError>
        requires { self.old.top.end < length pattern.now }
        ensures { OnOk result (Opens pattern.now first self.old self.new) }
    {
        let rest = &pattern[self.top.end..];
        self.above.push(self.top)?;
        self.path = pattern;
        self.top = OpenBranch {
            node: BuiltNode::new(rest[0], &rest[1..], first),
            end: pattern.len(),
        };
        Ok(())
    }

    /// The next entry is one more value of the top node.
    fn add_value(&mut self)
        requires { self.old.top.node.count + 1 < 2 ^ 64 }
        ensures { Counts self.old self.new }
    {
        self.top.node.count += 1;
    }

    /// Adds the entry with this number and this pattern.
    fn add(&mut self, pattern: &'t [u8], number: usize) -> Result<(), AllocError>
        requires fits { number + 1 < 2 ^ 64 }
        requires next { (es : List EntryRecord) × (fs : List Frame) × (e : EntryRecord)
            × IsBuilt es number self.old fs × IsNext es number e × (e.pattern.now ≡ pattern.now) }
        ensures { OnOk result ((es : List EntryRecord) (fs : List Frame) (e : EntryRecord)
            → IsBuilt es number self.old fs → IsNext es number e → e.pattern.now ≡ pattern.now
            → (gs : List Frame) × IsBuilt es (number + 1) self.new gs) }
    {
        let at = common(self.path, pattern);
        if at < pattern.len() {
            self.close_to(at)?;
            self.open(pattern, number)?;
        }
        self.add_value();
        Ok(())
    }

    /// Closes all nodes.
    fn finish(mut self) -> Result<Stored<'t>, AllocError>
        requires { (es : List EntryRecord) × (fs : List Frame) × IsClosable es self fs }
        ensures { IfOk result (λ closed. (es : List EntryRecord) (fs : List Frame)
            → IsClosable es self.entry fs → IsFinished es fs closed) }
    {
        self.close_to(0)?;
        self.close()?;
        Ok(self.closed)
    }
}

/// The nodes of the tree of the entries, each after its children. They are put into `closed`, which has none yet. The entries
/// are in order, and no two have one pattern and one key.
///
/// One pass over the entries' patterns. A node's values are stored when it is closed, soon after its entries were looked at. The
/// only error is `AllocError`.
pub fn post_order<'t>(
    alloc: Global,
    entries: &[HeadedEntry<'_, 't>],
    closed: Stored<'t>,
) -> Result<Stored<'t>, AllocError>
    requires ascending { IsStrictlySortedBy by_place entries.now }
    requires storable { AllByRecursion IsStorableEntry entries.now }
    requires none { AreKept entries.now [] closed }
    ensures { IfOk result (IsTreeOf entries.now) }
{
    let mut builder = Builder::new(alloc, entries, closed)?;
    for (number, headed) in entries.iter().enumerate() {
        let entry = headed.entry();
        builder.add(entry.pattern, number)?;
    }
    let closed = builder.finish()?;
    Ok(closed)
}

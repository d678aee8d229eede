//! The view of a database that was accepted. The types' invariants say that its bytes are a database. So no read tests
//! an offset again or copies a text, and each slice is a part of the bytes.
//!
//! A value's texts take as many steps as they have bytes, up to the 0 that ends each. All other reads take a fixed
//! number of steps. None takes memory, and none fails.
ghost use Rattle.std.specs.Prelude.{◌<◌};
ghost use Rattle.hwdb_reader.specs.Internal.Placed.{Placed};
ghost use Rattle.hwdb_reader.specs.Internal.Stars.{AreStars};

use crate::fields::{text, text_front, u64_at};
use crate::frame::Frame;
use crate::places::{child_entry_at, read_origin, read_unread, read_value, value_entry_at};
use crate::stars::{StarRun, long_stars};
use crate::unread::{StoredText, UnreadEntry};
use std::marker::Model;

/// Counts the nodes that were entered, from 0 on. By it a contract can say that a walk reads a part of the tree alone.
#[derive(Drop)]
pub struct Entered {
    count: u64,
}

impl Model for Entered {
    ghost use Rattle.std.specs.Prelude.{ℕ};

    ghost Value = { ℕ };

    ghost view = { λ e. e.count };
}

impl Entered {
    ghost use Rattle.std.specs.Prelude.{◌≡◌};

    /// A counter that has counted nothing.
    pub fn new() -> Self
        ensures { result ≡ 0 }
    {
        Entered { count: 0 }
    }

    /// How many nodes were entered.
    pub fn count(&self) -> u64
        ensures { result ≡ self.now }
    {
        self.count
    }
}

/// A node of a checked database, seen from outside: its prefix alone.
#[derive(Clone, Copy)]
pub struct Node<'a> {
    pub(crate) bytes: &'a [u8],
    pub(crate) frame: Frame,
    pub(crate) levels: usize,
    pub(crate) offset: usize,
    /// Where stars are known to be.
    pub(crate) stars: StarRun,
    ghost placed: { ∥ Placed frame.sizes bytes.now levels offset ∥₁ },
    ghost starry: { AreStars bytes.now stars.from stars.end },
}

/// A node that was entered: its children and its values.
#[derive(Clone, Copy)]
pub struct Inside<'a> {
    pub(crate) node: Node<'a>,
}

/// A checked database: [`check`](crate::check) alone makes one. To contracts it is its tree.
#[derive(Drop)]
pub struct Db<'a> {
    pub(crate) root: Node<'a>,
}

impl<'a> Model for Db<'a> {
    ghost use Rattle.hwdb_spec.specs.Tree.{Tree};
    ghost use Rattle.hwdb_reader.specs.Internal.Codes.{tree_code};
    ghost use Rattle.hwdb_reader.specs.Views.{tree_of};

    ghost Value = { Tree };

    ghost coded = { tree_code };

    ghost view = { λ d. tree_of d.root };
}

/// A child of a node.
#[derive(Clone, Copy)]
pub struct Child<'a> {
    /// The byte by which the node leads to the child, never 0.
    pub byte: u8,
    /// The child itself.
    pub node: Node<'a>,
}

/// A value of a node.
#[derive(Clone, Copy)]
pub struct Entry<'a> {
    /// The priority of its file, never 0.
    pub priority: u16,
    /// The line of its property.
    pub line: u32,
    /// The stored key without its one leading space. None if it doesn't begin with one: then the entry is no
    /// assignment.
    pub key: Option<&'a [u8]>,
    /// The value.
    pub value: &'a [u8],
    /// The stored path of its file.
    pub path: &'a [u8],
    ghost positive: { 0 < priority },
}

/// The place in the files that a value comes from.
#[derive(Clone, Copy)]
pub struct Origin {
    /// The priority of its file, never 0.
    pub priority: u16,
    /// The line of its property.
    pub line: u32,
}

impl<'a> Db<'a> {
    ghost use Rattle.std.specs.Prelude.{◌≡◌};
    ghost use Rattle.hwdb_spec.specs.Tree.{IsTree};
    ghost use Rattle.hwdb_reader.specs.Views.{tree_of};

    /// The root.
    pub fn root(&self) -> Node<'a>
        ensures root { tree_of result ≡ self.now }
        ensures tree { IsTree self.now }
    {
        self.root.law_tree();
        self.root
    }
}

impl<'a> Node<'a> {
    ghost use Rattle.std.specs.Prelude.{ℕ, ◌≡◌, ◌<◌, ◌≤◌, ◌+◌, ◌^◌, length, slice_index, take, drop, IfSome};
    ghost use Rattle.hwdb_spec.specs.Tree.{prefix_of, IsTree};
    ghost use Rattle.hwdb_reader.specs.Views.{node_count};
    ghost use Rattle.hwdb_reader.specs.Views.{tree_of, entered_tree};
    ghost use Rattle.hwdb_reader.specs.Unread.{file_at, file_in, file_of, text_of};

    /// In the node's tree stored keys and bytes ascend, and its nodes can be counted.
    pub fn law_tree(&self)
        ensures ascending { IsTree (tree_of self.now) }
        ensures nodes { node_count (tree_of self.now) < 2 ^ 64 }
    {}

    /// The bytes of the path between the node's own byte and its children's.
    pub fn prefix(&self) -> &'a [u8]
        ensures { result.now ≡ prefix_of (tree_of self.now) }
    {
        text(self.bytes, u64_at(self.bytes, self.offset))
    }

    /// The prefix, which isn't read.
    pub fn stored_prefix(&self) -> StoredText<'a>
        ensures text { text_of result ≡ prefix_of (tree_of self.now) }
        ensures file { file_of result ≡ file_at self.now }
    {
        StoredText {
            bytes: self.bytes,
            at: u64_at(self.bytes, self.offset),
        }
    }

    /// The prefix's bytes from a place on, at most so many. Reads no more than these.
    pub fn prefix_part(&self, at: usize, most: usize) -> &'a [u8]
        requires { at ≤ length (prefix_of (tree_of self.now)) }
        ensures part { result.now ≡ take most (drop at (prefix_of (tree_of self.now))) }
        ensures fits { at + length result.now < 2 ^ 64 }
    {
        text_front(self.bytes, u64_at(self.bytes, self.offset) + at, most)
    }

    /// The same node. It and those below it know where a long run of stars is, if the database has one: see
    /// [`Node::stars_to_end`]. Looks at some 16 bytes of the database, and reads the runs that it finds there.
    pub fn with_stars(self) -> Node<'a>
        ensures { tree_of result ≡ tree_of self.entry }
    {
        let Node {
            bytes,
            frame,
            levels,
            offset,
            stars: _,
        } = self;
        Node {
            bytes,
            frame,
            levels,
            offset,
            stars: long_stars(bytes, frame.sizes.strings),
        }
    }

    /// The prefix's bytes from a place on, if it is known that these are stars alone. Reads none of them.
    pub fn stars_to_end(&self, at: usize) -> Option<&'a [u8]>
        requires { at ≤ length (prefix_of (tree_of self.now)) }
        ensures rest { IfSome result (λ rest. rest.now ≡ drop at (prefix_of (tree_of self.now))) }
        ensures some { IfSome result (λ rest. 0 < length rest.now) }
        ensures stars { IfSome result (λ rest.
            (k : ℕ) → k < length rest.now → slice_index rest.now k ≡ 42) }
    {
        let from = u64_at(self.bytes, self.offset) + at;
        let StarRun { from: first, end } = self.stars;
        if from < first || end <= from {
            return None;
        }
        if end >= self.bytes.len() || self.bytes[end] != 0 {
            return None;
        }
        Some(&self.bytes[from..end])
    }

    /// Goes into the node, and counts it: the only way to its children and values.
    pub fn enter(self, entered: &mut Entered) -> Inside<'a>
        requires { entered.old + 1 < 2 ^ 64 }
        ensures same { entered_tree result ≡ tree_of self.entry }
        ensures counted { entered.new ≡ entered.old + 1 }
        ensures file { file_in result ≡ file_at self.entry }
    {
        entered.count += 1;
        Inside { node: self }
    }
}

impl<'a> Inside<'a> {
    ghost use Rattle.std.specs.Prelude.{◌≡◌, ◌<◌, Some, length, slice_get, option_map};
    ghost use Rattle.hwdb_spec.specs.Tree.{IsTree};
    ghost use Rattle.hwdb_reader.specs.Views.{children_of, shown};
    ghost use Rattle.hwdb_spec.specs.Tree.{values_of};
    ghost use Rattle.hwdb_reader.specs.Views.{tree_of, entered_tree, entry_shows};
    ghost use Rattle.hwdb_reader.specs.Unread.{IsFrom, file_at, file_in, value_in};

    /// How many children the node has.
    pub fn children(&self) -> usize
        ensures { result ≡ length (children_of (entered_tree self.now)) }
    {
        self.node.bytes[self.node.offset + 8] as usize
    }

    /// The child number `i`, counted from 0, ascending by byte.
    pub fn child(&self, i: usize) -> Child<'a>
        requires { i < length (children_of (entered_tree self.now)) }
        ensures { slice_get (children_of (entered_tree self.now)) i
            ≡ Some (result.byte, tree_of result.node) }
    {
        self.child_in_file(i)
    }

    /// The same child. Its database is this node's.
    pub fn child_in_file(&self, i: usize) -> Child<'a>
        requires { i < length (children_of (entered_tree self.now)) }
        ensures child { slice_get (children_of (entered_tree self.now)) i
            ≡ Some (result.byte, tree_of result.node) }
        ensures file { file_at result.node ≡ file_in self.now }
    {
        let node = self.node;
        let entry = child_entry_at(node.bytes, node.frame, node.offset, i);
        Child {
            byte: node.bytes[entry],
            node: Node {
                bytes: node.bytes,
                frame: node.frame,
                levels: node.levels - 1,
                offset: u64_at(node.bytes, entry + 8),
                stars: node.stars,
            },
        }
    }

    /// In the node's tree stored keys and bytes ascend.
    pub fn law_ascending(&self)
        ensures { IsTree (entered_tree self.now) }
    {}

    /// How many values the node has.
    pub fn values(&self) -> usize
        ensures { result ≡ length (values_of (entered_tree self.now)) }
    {
        u64_at(self.node.bytes, self.node.offset + 16)
    }

    /// The priority and line of the value number `i`, counted from 0, without a look at its texts.
    pub fn origin(&self, i: usize) -> Origin
        requires { i < length (values_of (entered_tree self.now)) }
        ensures priority { option_map (λ v. v.priority)
            (slice_get (values_of (entered_tree self.now)) i) ≡ Some result.priority }
        ensures line { option_map (λ v. v.line)
            (slice_get (values_of (entered_tree self.now)) i) ≡ Some result.line }
        ensures positive { 0 < result.priority }
    {
        let entry = value_entry_at(self.node.bytes, self.node.frame, self.node.offset, i);
        read_origin(self.node.bytes, entry)
    }

    /// The value number `i`, counted from 0, ascending by stored key.
    pub fn value(&self, i: usize) -> Entry<'a>
        requires { i < length (values_of (entered_tree self.now)) }
        ensures { option_map shown (slice_get (values_of (entered_tree self.now)) i)
            ≡ Some (entry_shows result) }
    {
        let node = self.node;
        let entry = value_entry_at(node.bytes, node.frame, node.offset, i);
        read_value(node.bytes, node.frame, entry)
    }

    /// The value number `i`, counted from 0, without a look at its texts.
    pub fn unread(&self, i: usize) -> UnreadEntry<'a>
        requires { i < length (values_of (entered_tree self.now)) }
        ensures value { slice_get (values_of (entered_tree self.now)) i ≡ Some (value_in result) }
        ensures file { IsFrom (file_in self.now) result }
    {
        let node = self.node;
        let entry = value_entry_at(node.bytes, node.frame, node.offset, i);
        read_unread(node.bytes, node.frame, entry)
    }
}

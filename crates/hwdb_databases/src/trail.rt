//! The way from a database's root to a node, as a list of segments. Who asks for no path reads none of them.
ghost use Rattle.std.specs.Prelude.{◌≡◌, ◌≤◌, ◌++◌, ℕ, All, List, [], length, min, take, true, OnOk};
ghost use Rattle.hwdb_spec.specs.Tree.{prefix_of};
ghost use Rattle.hwdb_reader.specs.Unread.{file_at, new_file, old_file, text_of};
ghost use Rattle.hwdb_reader.specs.Views.{tree_of};
ghost use Rattle.hwdb_databases.specs.Internal.Trails.{AreAlike, Follows, IsCopied, IsLonger, IsSegmentIn, bytes_of, byte_in, path_in, path_of};

use hwdb_reader::{Node, StoredText, Twins};
use std::alloc::{AllocError, Global};

/// A node on the way: the byte by which it is reached, and its prefix.
#[derive(Clone, Copy)]
pub(crate) struct Segment<'a> {
    /// None for the root.
    pub byte: Option<u8>,
    pub prefix: StoredText<'a>,
    /// How many bytes are before it, if the path's bytes are held.
    pub from: usize,
}

/// The way to a node.
#[derive(Drop)]
pub(crate) struct Trail<'a> {
    pub segments: Vec<Segment<'a>>,
    /// How many of the first segments were kept while the walk went on. A lesser number is right too: then more is read again.
    pub kept: usize,
    /// Whether the path's bytes are held, too.
    copies: bool,
    path: Vec<u8>,
}

/// Adds the byte by which a node is reached. The only error, here and below, is `AllocError`.
fn push_byte(text: &mut Vec<u8>, byte: Option<u8>) -> Result<(), AllocError>
    ensures { OnOk result (text.new.items ≡ text.old.items ++ byte_in byte) }
{
    match byte {
        Some(byte) => {
            text.push(byte)?;
            Ok(())
        }
        None => Ok(()),
    }
}

/// Adds the bytes of a segment.
pub(crate) fn push_segment(text: &mut Vec<u8>, segment: &Segment<'_>) -> Result<(), AllocError>
    ensures { OnOk result (text.new.items ≡ text.old.items ++ bytes_of segment.now) }
{
    push_byte(text, segment.byte)?;
    text.extend_from_slice(segment.prefix.read())?;
    Ok(())
}

/// Adds the path of some segments.
pub(crate) fn push_path(text: &mut Vec<u8>, segments: &[Segment<'_>]) -> Result<(), AllocError>
    ensures { OnOk result (text.new.items ≡ text.old.items ++ path_in segments.now) }
{
    for segment in segments {
        push_segment(text, segment)?;
    }
    Ok(())
}

/// Whether two segments have the same byte. A wrong `false` only costs time, here and below: then more is read.
fn have_one_byte(old: &Segment<'_>, new: &Segment<'_>) -> bool
    ensures { result ≡ true → byte_in old.now.byte ≡ byte_in new.now.byte }
{
    match (old.byte, new.byte) {
        (None, None) => true,
        (Some(x), Some(y)) => x == y,
        _ => false,
    }
}

/// Whether two segments are known to have the same bytes.
fn are_same(twins: &Twins<'_, '_>, old: &Segment<'_>, new: &Segment<'_>) -> bool
    requires old { IsSegmentIn (old_file twins.now) old.now }
    requires new { IsSegmentIn (new_file twins.now) new.now }
    ensures { result ≡ true → bytes_of old.now ≡ bytes_of new.now }
{
    if have_one_byte(old, new) {
        return twins.are_same(old.prefix, new.prefix);
    }
    false
}

/// How many of the first segments have the same bytes, if so many have. A lesser number is right too.
pub(crate) fn alike(
    twins: &Twins<'_, '_>,
    from: usize,
    old: &[Segment<'_>],
    new: &[Segment<'_>],
) -> usize
    requires alike { AreAlike from old.now new.now }
    requires old_file { All (IsSegmentIn (old_file twins.now)) old.now }
    requires new_file { All (IsSegmentIn (new_file twins.now)) new.now }
    ensures { AreAlike result old.now new.now }
{
    let most = old.len().min(new.len());
    let mut n = from;
    'segments: while n < most {
        if !are_same(twins, &old[n], &new[n]) {
            return n;
        }
        n += 1;
    }
    n
}

impl<'a> Trail<'a> {
    /// The way to no node. Says whether the path's bytes are to be held.
    pub(crate) fn new(alloc: Global, copies: bool) -> Trail<'a>
        ensures segments { result.segments.items ≡ [] }
        ensures kept { result.kept ≡ 0 }
        ensures copies { result.copies ≡ copies }
        ensures copied { copies ≡ true → IsCopied result }
    {
        Trail {
            segments: Vec::new(alloc),
            kept: 0,
            copies,
            path: Vec::new(alloc),
        }
    }

    /// The path's bytes.
    pub(crate) fn path(&self) -> &[u8]
        requires { IsCopied self.now }
        ensures { result.now ≡ path_of self.now }
    {
        &self.path
    }

    /// Holds the bytes of a segment, if they are to be held.
    fn copy(&mut self, byte: Option<u8>, prefix: StoredText<'a>) -> Result<(), AllocError>
        ensures path { OnOk result (self.old.copies ≡ true
            → self.new.path.items ≡ self.old.path.items ++ (byte_in byte ++ text_of prefix.entry)) }
        ensures segments { self.new.segments ≡ self.old.segments }
        ensures kept { self.new.kept ≡ self.old.kept }
        ensures copies { self.new.copies ≡ self.old.copies }
    {
        if !self.copies {
            return Ok(());
        }
        push_byte(&mut self.path, byte)?;
        self.path.extend_from_slice(prefix.read())?;
        Ok(())
    }

    /// Goes on to a node, which is reached by a byte.
    pub(crate) fn push(&mut self, byte: Option<u8>, node: Node<'a>) -> Result<(), AllocError>
        ensures longer { OnOk result (IsLonger self.old.segments.items self.new.segments.items
            byte (prefix_of (tree_of node.entry))) }
        ensures kept { self.new.kept ≡ self.old.kept }
        ensures copies { self.new.copies ≡ self.old.copies }
        ensures follows { OnOk result (Follows self.old self.new) }
        ensures file { OnOk result ((f : List ℕ) → file_at node.entry ≡ f
            → All (IsSegmentIn f) self.old.segments.items
            → All (IsSegmentIn f) self.new.segments.items) }
    {
        let prefix = node.stored_prefix();
        let from = self.path.len();
        self.copy(byte, prefix)?;
        self.segments.push(Segment { byte, prefix, from })?;
        Ok(())
    }

    /// Cuts the path's bytes to those of so many segments, if they are held.
    fn cut_path(&mut self, count: usize)
        requires { count ≤ length self.old.segments.items }
        ensures path { IsCopied self.old
            → self.new.path.items ≡ path_in (take count self.old.segments.items) }
        ensures segments { self.new.segments ≡ self.old.segments }
        ensures kept { self.new.kept ≡ self.old.kept }
        ensures copies { self.new.copies ≡ self.old.copies }
    {
        if !self.copies {
            return;
        }
        if count >= self.segments.len() {
            return;
        }
        let from = self.segments[count].from;
        self.path.truncate(from);
    }

    /// Goes back to the node that so many segments lead to.
    pub(crate) fn cut(&mut self, count: usize)
        requires { count ≤ length self.old.segments.items }
        ensures segments { self.new.segments.items ≡ take count self.old.segments.items }
        ensures kept { self.new.kept ≡ min self.old.kept count }
        ensures copies { self.new.copies ≡ self.old.copies }
        ensures follows { Follows self.old self.new }
    {
        self.cut_path(count);
        self.segments.truncate(count);
        self.kept = self.kept.min(count);
    }
}

//! One descent of the tree along the paths that are live for a device.
//!
//! A path is live if its closed part matches some prefix of the device. If it isn't, the node isn't entered: no pattern
//! at or below it matches. So a lookup looks at a small part of a database. Of some 90 children on its way, 10 are fed
//! to the matcher. The others are dead by their first byte, which costs a few instructions and no memory.
//!
//! What is known of the device along the path (`Reach`) is kept for each open node: the next child goes on from there.
//! So a common beginning of many patterns is matched once. In return a descent holds a state for each node of one path.
//! A state has at most 32 numbers, or a byte for each prefix of the device from the first one on that the path matches.
//!
//! It is a loop and no recursion. The nodes whose children may still be live are on a stack of its own, on the heap. A
//! recursion would take a sixth fewer instructions. But a deep tree would then take more of the thread's stack than a
//! flat one. Each step enters a live node or closes one, so the loop ends.
ghost use Rattle.std.specs.Prelude.{◌≡◌, ◌<◌, ◌≤◌, ◌+◌, ◌++◌, ◌∷◌, ◌^◌, ℕ, List, [], length, take, drop, filter, reverse, IfOk, IfSome, OnOk};
ghost use Rattle.hwdb_pattern.specs.Laws.{MatchesIsTested, LiveIsTested, DeadStaysDead, DeadMatchesNothing};
ghost use Rattle.hwdb_pattern.specs.Views.{StandsFor};
ghost use Rattle.hwdb_spec.specs.Tree.{prefix_of, members_under, live_nodes, values_of, IsLive};
ghost use Rattle.hwdb_reader.specs.Views.{node_count};
ghost use Rattle.hwdb_reader.specs.Views.{tree_of, entered_tree};
ghost use Rattle.hwdb_spec.specs.Answers.{is_wanted};
ghost use Rattle.hwdb_query.specs.Internal.Members.{own_members};
ghost use Rattle.hwdb_query.specs.Internal.Descents.{device_of, kids_of, to_come, live_to_come, left, steps, StandsAt, StandsOn, IsFed, IsSeen, IsFound, IsNext, IsSameNode, Opened};
ghost use Rattle.hwdb_query.specs.Internal.LongPaths.{path_of};

use crate::collector::Collector;
use crate::long_path::LongPath;
use hwdb_pattern::{
    Reach, dead_matches_nothing, dead_stays_dead, live_is_tested, matches_is_tested,
};
use hwdb_reader::{Child, Entered, Inside, Node};
use std::alloc::{AllocError, Global};

/// What is known of patterns and paths, for the proofs of the descent.
fn path_laws()
    ensures matched { MatchesIsTested }
    ensures live { LiveIsTested }
    ensures longer { DeadStaysDead }
    ensures below { DeadMatchesNothing }
{
    matches_is_tested();
    live_is_tested();
    dead_stays_dead();
    dead_matches_nothing();
}

/// Collects what the values of a node assign at a pattern, if it matches the device.
fn collect_accepted<'a, C: Collector<'a>>(
    alloc: Global,
    inside: Inside<'a>,
    reach: &Reach<'_>,
    pattern: &[u8],
    into: &mut C,
) -> Result<(), AllocError>
    requires { StandsFor reach.now pattern.now }
    ensures { OnOk result (C.collects into.old
        (filter (is_wanted reach.now.device)
        (own_members pattern.now (values_of (entered_tree inside.entry)))) into.new) }
{
    into.law_collects();
    matches_is_tested();
    if !reach.accepts(pattern) {
        return Ok(());
    }
    into.collect(alloc, inside, pattern)
}

/// Collects what the values of a node assign at its path, if it matches the device. A node without values doesn't need
/// its path.
fn collect_matching<'a, C: Collector<'a>>(
    alloc: Global,
    inside: Inside<'a>,
    reach: &Reach<'_>,
    path: &mut LongPath<'_>,
    into: &mut C,
) -> Result<(), AllocError>
    requires { StandsFor reach.now (path_of path.old) }
    ensures path { OnOk result (path_of path.new ≡ path_of path.old) }
    ensures collected { OnOk result (C.collects into.old
        (filter (is_wanted reach.now.device)
        (own_members (path_of path.old) (values_of (entered_tree inside.entry)))) into.new) }
{
    if inside.values() == 0 {
        into.law_collects();
        return Ok(());
    }
    path.settle()?;
    collect_accepted(alloc, inside, reach, &path.copied, into)
}

/// A node that was entered. Some of its children are done.
#[derive(Drop)]
struct OpenNode<'a, 'd> {
    inside: Inside<'a>,
    /// What is known of the device at its path.
    reach: Reach<'d>,
    /// How many of its children are done.
    done: usize,
    /// How many bytes its path has.
    length: usize,
}

/// A child whose path is live, and what is known of the device there.
#[derive(Drop)]
struct Live<'a, 'd> {
    child: Child<'a>,
    reach: Reach<'d>,
    /// The end of its path.
    tail: &'a [u8],
}

/// What is known of the device at a prefix's end, and the end of the path there.
#[derive(Drop)]
struct Seen<'a, 'd> {
    reach: Reach<'d>,
    tail: &'a [u8],
}

/// How many open nodes a descent asks memory for at once, when it enters the root: few paths have more.
const DEPTH: usize = 16;

/// How many bytes of a prefix are fed at first. Most prefixes have fewer.
const PIECE: usize = 64;

/// Goes over the rest of a node's prefix at once, if it is known that these are stars alone. None if it isn't known, or
/// if a `[` is open.
fn over_stars<'a, 'd>(
    alloc: Global,
    node: Node<'a>,
    reach: &Reach<'d>,
    fed: usize,
) -> Option<Seen<'a, 'd>>
    requires { fed ≤ length (prefix_of (tree_of node)) }
    ensures device { IfSome result (λ seen. seen.reach.device ≡ reach.now.device) }
    ensures tail { IfSome result (λ seen.
        seen.tail.now ≡ drop fed (prefix_of (tree_of node.entry))) }
    ensures stands { IfSome result (λ seen. (path : List ℕ)
        → StandsFor reach.now path → StandsFor seen.reach (path ++ seen.tail.now)) }
    ensures live { IfSome result (λ seen. (path : List ℕ)
        → StandsFor reach.now path → IsLive (path ++ seen.tail.now) seen.reach.device) }
{
    let Some(tail) = node.stars_to_end(fed) else {
        return None;
    };
    let Some(reach) = reach.after_stars(alloc, tail) else {
        return None;
    };
    if reach.is_alive() {
        Some(Seen { reach, tail })
    } else {
        None
    }
}

/// Goes on along a node's prefix, of which the first bytes are fed. The answer is what is known of the device at the
/// prefix's end, if the path there is live; the path and the answer's tail become that. Else anything may come after the
/// old path.
///
/// Each piece doubles what is fed. So a path that is dead soon takes few steps, however long the prefix is. Not inlined,
/// since few prefixes are so long.
#[inline(never)]
fn along_prefix<'a, 'd>(
    alloc: Global,
    node: Node<'a>,
    reach: Reach<'d>,
    path: &mut Vec<u8>,
    fed: usize,
) -> Result<Option<Seen<'a, 'd>>, AllocError>
    requires fed { fed ≤ length (prefix_of (tree_of node)) }
    requires stands { StandsFor reach path.old.items }
    ensures path { OnOk result
        (take (length path.old.items) path.new.items ≡ path.old.items) }
    ensures fed { IfOk result (IsFed reach.entry.device path.old.items
        (drop fed (prefix_of (tree_of node.entry))) path.new.items) }
{
    path_laws();
    let mut reach = reach;
    let mut fed = fed;
    'feeding: while reach.is_alive() {
        if let Some(seen) = over_stars(alloc, node, &reach, fed) {
            return Ok(Some(seen));
        }
        let piece = node.prefix_part(fed, fed.max(PIECE));
        if piece.is_empty() {
            return Ok(Some(Seen { reach, tail: piece }));
        }
        path.extend_from_slice(piece)?;
        reach = reach.feed(alloc, piece)?;
        fed += piece.len();
    }
    Ok(None)
}

/// How far a descent has come.
#[derive(Drop)]
struct Descent<'a, 'd> {
    /// The path of the node that was entered last.
    path: LongPath<'a>,
    /// The nodes that aren't done, each below the one before it.
    stack: Vec<OpenNode<'a, 'd>>,
    entered: Entered,
}

impl<'a, 'd> OpenNode<'a, 'd> {
    /// What is known of the device at a child's path, if that path is live; the path and the answer's tail become the
    /// child's. If it isn't live, anything may come after the node's own path.
    fn look_at(
        &self,
        alloc: Global,
        child: Child<'a>,
        path: &mut Vec<u8>,
    ) -> Result<Option<Seen<'a, 'd>>, AllocError>
        requires { StandsAt self.now.reach.device path.old.items self.now }
        ensures path { OnOk result
            (take self.now.length path.new.items ≡ take self.now.length path.old.items) }
        ensures within { OnOk result (self.now.length ≤ length path.new.items) }
        ensures seen { IfOk result (IsSeen self.now.reach.device
            (take self.now.length path.old.items) (child.entry.byte, tree_of child.entry.node)
            path.new.items) }
    {
        path_laws();
        if !self.reach.may_take(child.byte) {
            return Ok(None);
        }
        path.truncate(self.length);
        path.push(child.byte)?;
        let front = child.node.prefix_part(0, PIECE);
        path.extend_from_slice(front)?;
        let reach = self.reach.feed(alloc, &path[self.length..])?;
        if front.len() == PIECE {
            return along_prefix(alloc, child.node, reach, path, front.len());
        }
        if reach.is_alive() {
            Ok(Some(Seen { reach, tail: b"" }))
        } else {
            Ok(None)
        }
    }

    /// The next child whose path is live, among those that aren't done. The path and the answer's tail become the
    /// child's, or the node's own if there is none.
    fn next_seen(
        &mut self,
        alloc: Global,
        path: &mut Vec<u8>,
    ) -> Result<Option<Live<'a, 'd>>, AllocError>
        requires { StandsAt self.old.reach.device path.old.items self.old }
        ensures same { OnOk result (IsSameNode self.old self.new) }
        ensures found { IfOk result (IsFound self.old.reach.device
            (take self.old.length path.old.items) (kids_of self.old) (kids_of self.new)
            path.new.items) }
    {
        let inside = self.inside;
        let children = inside.children();
        let mut done = self.done;
        while done < children {
            let child = inside.child(done);
            done += 1;
            if let Some(seen) = self.look_at(alloc, child, path)? {
                self.done = done;
                let Seen { reach, tail } = seen;
                return Ok(Some(Live { child, reach, tail }));
            }
        }
        self.done = done;
        path.truncate(self.length);
        Ok(None)
    }

    /// The next child whose path is live, among those that aren't done. The path becomes the child's, or the node's own
    /// if there is none.
    fn next_live(
        &mut self,
        alloc: Global,
        path: &mut LongPath<'a>,
    ) -> Result<Option<Live<'a, 'd>>, AllocError>
        requires { StandsAt self.old.reach.device (path_of path.old) self.old }
        ensures same { OnOk result (IsSameNode self.old self.new) }
        ensures found { IfOk result (IsNext self.old.reach.device
            (take self.old.length (path_of path.old)) (kids_of self.old) (kids_of self.new)
            (path_of path.new)) }
    {
        path.cut(self.length)?;
        let Some(live) = self.next_seen(alloc, &mut path.copied)? else {
            return Ok(None);
        };
        path.tail = live.tail;
        Ok(Some(live))
    }
}

impl<'a, 'd> Descent<'a, 'd> {
    fn new(alloc: Global) -> Self
        ensures path { result.path.copied.items ≡ [] }
        ensures tail { result.path.tail.now ≡ [] }
        ensures stack { result.stack.items ≡ [] }
        ensures entered { result.entered ≡ 0 }
    {
        Descent {
            path: LongPath::new(alloc),
            stack: Vec::new(alloc),
            entered: Entered::new(),
        }
    }

    /// Enters the node at the descent's path, and collects what its values assign to the device. Puts it on the stack
    /// if it has children.
    fn enter<C: Collector<'a>>(
        &mut self,
        alloc: Global,
        node: Node<'a>,
        reach: Reach<'d>,
        into: &mut C,
    ) -> Result<(), AllocError>
        requires stands { StandsFor reach (path_of self.old.path) }
        requires room { self.old.entered + 1 < 2 ^ 64 }
        ensures path { OnOk result (path_of self.new.path ≡ path_of self.old.path) }
        ensures stack { OnOk result
            (Opened self.old.stack.items self.new.stack.items (tree_of node.entry) reach.entry
            (length (path_of self.old.path))) }
        ensures collected { OnOk result (C.collects into.old
            (filter (is_wanted reach.entry.device)
            (own_members (path_of self.old.path) (values_of (tree_of node.entry)))) into.new) }
        ensures counted { OnOk result (self.new.entered ≡ self.old.entered + 1) }
    {
        let inside = node.enter(&mut self.entered);
        collect_matching(alloc, inside, &reach, &mut self.path, into)?;
        if inside.children() == 0 {
            return Ok(());
        }
        self.path.settle()?;
        let length = self.path.copied.len();
        self.stack.push(OpenNode {
            inside,
            reach,
            done: 0,
            length,
        })?;
        Ok(())
    }

    /// Enters the root, if its path is live.
    fn enter_root<C: Collector<'a>>(
        &mut self,
        alloc: Global,
        root: Node<'a>,
        device: &'d [u8],
        into: &mut C,
    ) -> Result<(), AllocError>
        requires path { self.old.path.copied.items ≡ [] }
        requires tail { self.old.path.tail.now ≡ [] }
        requires stack { self.old.stack.items ≡ [] }
        requires entered { self.old.entered ≡ 0 }
        ensures stands { OnOk result
            (StandsOn device.now (path_of self.new.path) (reverse self.new.stack.items)) }
        ensures collected { OnOk result ((end : C)
            → C.collects into.new (to_come device.now (path_of self.new.path)
            (reverse self.new.stack.items)) end
            → C.collects into.old (filter (is_wanted device.now)
            (members_under [] (tree_of root.entry))) end) }
        ensures counted { OnOk result (self.new.entered
            + live_to_come device.now (path_of self.new.path) (reverse self.new.stack.items)
            ≡ live_nodes device.now (tree_of root.entry)) }
        ensures room { OnOk result (self.new.entered + left (reverse self.new.stack.items)
            ≤ node_count (tree_of root.entry)) }
    {
        path_laws();
        into.law_collects();
        self.path.copied.extend_from_slice(root.prefix())?;
        let start = Reach::start(alloc, device);
        let reach = start.feed(alloc, &self.path.copied)?;
        if !reach.is_alive() {
            return Ok(());
        }
        self.stack.reserve(DEPTH)?;
        self.enter(alloc, root, reach, into)?;
        Ok(())
    }

    /// Goes on from the node on top of the stack. Enters its next child whose path is live, or takes it off the stack
    /// if there is none.
    fn go_on<C: Collector<'a>>(&mut self, alloc: Global, into: &mut C) -> Result<(), AllocError>
        requires some { 0 < length self.old.stack.items }
        requires stands { StandsOn (device_of (reverse self.old.stack.items))
            (path_of self.old.path) (reverse self.old.stack.items) }
        requires room { self.old.entered + left (reverse self.old.stack.items) < 2 ^ 64 }
        ensures stands { OnOk result (StandsOn (device_of (reverse self.old.stack.items))
            (path_of self.new.path) (reverse self.new.stack.items)) }
        ensures collected { OnOk result ((end : C)
            → C.collects into.new (to_come (device_of (reverse self.old.stack.items))
            (path_of self.new.path) (reverse self.new.stack.items)) end
            → C.collects into.old (to_come (device_of (reverse self.old.stack.items))
            (path_of self.old.path) (reverse self.old.stack.items)) end) }
        ensures counted { OnOk result (self.new.entered
            + live_to_come (device_of (reverse self.old.stack.items)) (path_of self.new.path)
            (reverse self.new.stack.items)
            ≡ self.old.entered + live_to_come (device_of (reverse self.old.stack.items))
            (path_of self.old.path) (reverse self.old.stack.items)) }
        ensures room { OnOk result (self.new.entered + left (reverse self.new.stack.items)
            ≤ self.old.entered + left (reverse self.old.stack.items)) }
        ensures fewer { OnOk result (steps (reverse self.new.stack.items)
            < steps (reverse self.old.stack.items)) }
    {
        into.law_collects();
        let last = self.stack.len() - 1;
        let found = self.stack[last].next_live(alloc, &mut self.path)?;
        let Some(live) = found else {
            self.stack.pop();
            return Ok(());
        };
        self.enter(alloc, live.child.node, live.reach, into)?;
        Ok(())
    }
}

/// Collects what the tree below the root assigns to the device. Answers how many nodes were entered.
pub(crate) fn descend<'a, C: Collector<'a>>(
    alloc: Global,
    root: Node<'a>,
    device: &[u8],
    into: &mut C,
) -> Result<u64, AllocError>
    ensures collected { OnOk result (C.collects into.old
        (filter (is_wanted device.now) (members_under [] (tree_of root.entry))) into.new) }
    ensures entered { IfOk result (λ count. count ≡ live_nodes device.now (tree_of root.entry)) }
{
    root.law_tree();
    into.law_collects();
    let mut descent = Descent::new(alloc);
    descent.enter_root(alloc, root.with_stars(), device, into)?;
    'descending: while !descent.stack.is_empty() {
        descent.go_on(alloc, into)?;
    }
    Ok(descent.entered.count())
}

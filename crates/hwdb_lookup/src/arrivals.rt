//! Nodes whose paths are live for a device, and their children.
ghost use Rattle.std.specs.Prelude.{◌≡◌, ◌≤◌, ◌<◌, ℕ, List, Option, Some, None, length, IfOk, IfSome, IfErr};
ghost use Rattle.hwdb_pattern.specs.Laws.{MatchesIsTested, DeadMatchesNothing, DeadStaysDead};
ghost use Rattle.hwdb_pattern.specs.Views.{StandsFor};
ghost use Rattle.hwdb_spec.specs.Assignment.{Assignment};
ghost use Rattle.hwdb_spec.specs.Format.{text_at};
ghost use Rattle.hwdb_lookup.specs.Internal.Parts.{MayBeOf, Halts, size_of};
ghost use Rattle.hwdb_lookup.specs.Internal.Heads.{IsHead};
ghost use Rattle.hwdb_lookup.specs.Internal.Descents.{IsFed, IsArrival, HasCome, Rest, IsNext};

use crate::lazy_node::LazyNode;
use crate::parts::Parts;
use crate::stop::Stop;
use hwdb_pattern::{Reach, dead_matches_nothing, dead_stays_dead, matches_is_tested};
use std::alloc::Global;

/// What is known of patterns and paths, for the proofs of the descent.
pub fn path_laws()
    ensures matched { MatchesIsTested }
    ensures longer { DeadStaysDead }
    ensures below { DeadMatchesNothing }
{
    matches_is_tested();
    dead_stays_dead();
    dead_matches_nothing();
}

/// A node whose path is live. Some of its children are done.
#[derive(Drop)]
pub struct OpenNode<'a, 'd> {
    /// The node.
    pub node: LazyNode<'a>,
    /// How many levels of nodes there may be below it.
    pub levels: usize,
    /// How many of its children are done.
    pub done: usize,
    /// Its path.
    pub path: Vec<u8>,
    /// What is known of the device at its path.
    pub reach: Reach<'d>,
}

/// A child that may be live.
#[derive(Clone, Copy)]
pub struct Candidate {
    /// The byte by which its parent leads to it.
    pub byte: u8,
    /// The offset of its record.
    pub off: usize,
    /// How many of its parent's children are done with it.
    pub done: usize,
}

/// How many bytes of a prefix are fed at first. Most prefixes have fewer.
const PIECE: usize = 64;

/// The longest path that is gone on from, in bytes: 16 times the longest pattern of a text file. Each open node has a copy
/// of its path, and nodes may share a long prefix: so this bounds the memory of a lookup in a hostile file.
const MAX_PATH: usize = 65_536;

/// Goes on along the prefix at an offset. The answer is what is known of the device at its end, if the path there is
/// live. The path becomes that.
///
/// Each piece doubles what is fed. So a path that is dead soon takes few steps, however long the prefix is. A live path
/// that is too long stops the lookup.
fn along_prefix<'d>(
    alloc: Global,
    known: Parts<'_>,
    prefix: usize,
    reach: Reach<'d>,
    path: &mut Vec<u8>,
) -> Result<Option<Reach<'d>>, Stop>
    requires place { prefix < size_of known }
    requires stands { StandsFor reach path.old.items }
    ensures fed { IfOk result (λ o. (file : List ℕ) → MayBeOf known.entry file
        → IsFed reach.entry.device path.old.items (text_at file prefix) path.new.items o) }
    ensures stands { IfOk result (λ o. IfSome o (λ r. StandsFor r path.new.items)) }
    ensures device { IfOk result (λ o. IfSome o (λ r. r.device ≡ reach.entry.device)) }
    ensures stop { IfErr result (λ s. Halts known.entry (λ _. Unit {0}) s) }
{
    path_laws();
    let mut reach = reach;
    let mut at = prefix;
    'feeding: while reach.is_alive() {
        let piece = known.text_front(at, (at - prefix).max(PIECE))?;
        if piece.is_empty() {
            return Ok(Some(reach));
        }
        if path.len() > MAX_PATH {
            return Err(Stop::LongPath);
        }
        path.extend_from_slice(piece)?;
        reach = reach.feed(alloc, piece)?;
        at += piece.len();
    }
    Ok(None)
}

/// The node at a path that was fed up to its prefix, with none of its children done, if its whole path is live.
pub fn arrive<'a, 'd>(
    alloc: Global,
    node: LazyNode<'a>,
    levels: usize,
    path: Vec<u8>,
    reach: Reach<'d>,
) -> Result<Option<OpenNode<'a, 'd>>, Stop>
    requires { StandsFor reach path.items }
    ensures arrival { IfOk result (λ o. IsArrival node.entry levels reach.entry.device o) }
    ensures come { IfOk result (λ o. (file : List ℕ) → MayBeOf node.entry.known file
        → HasCome reach.entry.device path.items (text_at file node.entry.prefix) o) }
    ensures stop { IfErr result (λ s. Halts node.entry.known (λ _. Unit {0}) s) }
{
    let mut path = path;
    let Some(reach) = along_prefix(alloc, node.known, node.prefix, reach, &mut path)? else {
        return Ok(None);
    };
    Ok(Some(OpenNode {
        node,
        levels,
        done: 0,
        path,
        reach,
    }))
}

impl<'a, 'd> OpenNode<'a, 'd> {
    /// The next child that may be live, among those that aren't done.
    pub fn next(&self) -> Result<Option<Candidate>, Stop>
        requires { StandsFor self.now.reach self.now.path.items }
        ensures next { IfOk result (λ k. (file : List ℕ) (from : ℕ) (assigned : List Assignment)
            → MayBeOf self.now.node.known file → Rest file self.now self.now.done from assigned
            → IsNext file self.now from assigned k) }
        ensures stop { IfErr result (λ s. Halts self.now.node.known (λ _. Unit {0}) s) }
    {
        path_laws();
        let children = self.node.children();
        let mut done = self.done;
        while done < children {
            let child = self.node.child(done);
            done += 1;
            if self.reach.may_take(child.byte) {
                return Ok(Some(Candidate {
                    byte: child.byte,
                    off: child.off,
                    done,
                }));
            }
        }
        Ok(None)
    }
}

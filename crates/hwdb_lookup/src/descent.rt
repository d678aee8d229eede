//! A descent along the paths that are live for a device, in a file of which some blocks were read.
//!
//! It is a loop over the nodes whose children aren't all done, on a stack on the heap. Each step enters a node or
//! closes one. The records that are entered have no more bytes than the file, so it ends: in a database no two records
//! share a byte, and if nodes are shared the bytes run out.
ghost use Rattle.std.specs.Prelude.{◌≡◌, ◌≤◌, ◌<◌, ◌+◌, ◌++◌, ◌∷◌, ℕ, List, [], length, filter, map, option_map, IfOk, OnOk, IfErr};
ghost use Rattle.hwdb_pattern.specs.Views.{StandsFor};
ghost use Rattle.hwdb_query.specs.Views.{assignment_of_answer};
ghost use Rattle.hwdb_spec.specs.Assignment.{Assignment};
ghost use Rattle.hwdb_spec.specs.Answers.{is_wanted};
ghost use Rattle.hwdb_lookup.specs.Internal.Parts.{MayBeOf, Halts, size_of};
ghost use Rattle.hwdb_spec.specs.Tree.{Tree, Value, key_of, members_under};
ghost use Rattle.hwdb_spec.specs.Format.{IsDatabase, layout_of};
ghost use Rattle.hwdb_lookup.specs.Internal.Heads.{AreValues, own_members, value_of};
ghost use Rattle.hwdb_lookup.specs.Internal.Saids.{AllLaid, AreSaid, IsFit, IsOffered, StaySaid};
ghost use Rattle.hwdb_spec.specs.declared.Layout.{Layout};
ghost use Rattle.hwdb_lookup.specs.Internal.Descents.{AllStand, stack_of, found_in, Comes, ComesOn, Enters, Lands};

use crate::arrivals::{OpenNode, arrive, path_laws};
use crate::lazy_node::LazyNode;
use crate::nodes::{StoredValue, enter};
use crate::parts::Parts;
use crate::stop::Stop;
use hwdb_pattern::Reach;
use hwdb_query::StoredAssignment;
use hwdb_reader::Frame;
use hwdb_spec::DbFault;
use std::alloc::{AllocError, Global};
use std::rc::Rc;

/// The key in a stored key, which begins with a space then.
#[inline(always)]
fn key_in<'a>(stored: &'a [u8]) -> Option<&'a [u8]>
    ensures { option_map (λ k. k.now) result ≡ key_of stored.now }
{
    match stored {
        [b' ', key @ ..] => Some(key),
        _ => None,
    }
}

/// Adds what one value assigns at a pattern: nothing if its stored key doesn't begin with a space.
fn offer<'a>(
    into: &mut Vec<StoredAssignment<'a>>,
    pattern: &Rc<Vec<u8>>,
    value: StoredValue<'a>,
) -> Result<(), AllocError>
    ensures collected { OnOk result (map assignment_of_answer into.new.items
        ≡ map assignment_of_answer into.old.items
        ++ own_members pattern.now.value.items (value_of value.entry ∷ [])) }
    ensures offered { OnOk result (IsOffered value.entry into.old.items into.new.items) }
{
    let Some(key) = key_in(value.key) else {
        return Ok(());
    };
    into.push(StoredAssignment {
        priority: value.priority,
        line: value.line,
        pattern: pattern.clone()?,
        key,
        value: value.value,
        path: value.path,
    })?;
    Ok(())
}

/// A copy of a pattern, which the assignments of a node share.
fn shared(alloc: Global, pattern: &[u8]) -> Result<Rc<Vec<u8>>, AllocError>
    ensures { IfOk result (λ copy. copy.value.items ≡ pattern.now) }
{
    let copy = Rc::new(alloc, pattern.to_vec(alloc)?)?;
    Ok(copy)
}

/// How much more room a path gets than it needs, in bytes. Most prefixes of nodes have fewer.
const MORE: usize = 32;

/// A path and one more byte, with room for a prefix.
fn one_further(alloc: Global, path: &[u8], byte: u8) -> Result<Vec<u8>, AllocError>
    ensures { IfOk result (λ further. further.items ≡ path.now ++ byte ∷ []) }
{
    let mut further = Vec::with_capacity(alloc, path.len().saturating_add(MORE))?;
    further.extend_from_slice(path)?;
    further.push(byte)?;
    Ok(further)
}

/// Adds what the values of a node assign at a pattern.
fn collect<'a>(
    alloc: Global,
    node: LazyNode<'a>,
    pattern: &[u8],
    into: &mut Vec<StoredAssignment<'a>>,
) -> Result<(), Stop>
    ensures collected { OnOk result ((file : List ℕ) (values : List Value)
        → MayBeOf node.entry.known file → AreValues file node.entry values
        → map assignment_of_answer into.new.items
        ≡ map assignment_of_answer into.old.items ++ own_members pattern.now values) }
    ensures said { OnOk result (IsFit node.entry
        → StaySaid node.entry.known node.entry.frame.sizes into.old.items into.new.items) }
    ensures stop { IfErr result (λ s. Halts node.entry.known
        (λ file. (values : List Value) × AreValues file node.entry values) s) }
{
    let shared = shared(alloc, pattern)?;
    for i in 0..node.values {
        offer(into, &shared, node.value(i)?)?;
    }
    Ok(())
}

/// Adds what the values of a node assign at its path, if that matches the device.
fn collect_matching<'a>(
    alloc: Global,
    open: &OpenNode<'a, '_>,
    into: &mut Vec<StoredAssignment<'a>>,
) -> Result<(), Stop>
    requires { StandsFor open.now.reach open.now.path.items }
    ensures collected { OnOk result ((file : List ℕ) (values : List Value)
        → MayBeOf open.now.node.known file → AreValues file open.now.node values
        → map assignment_of_answer into.new.items ≡ map assignment_of_answer into.old.items
        ++ filter (is_wanted open.now.reach.device) (own_members open.now.path.items values)) }
    ensures said { OnOk result (IsFit open.now.node → StaySaid open.now.node.known
        open.now.node.frame.sizes into.old.items into.new.items) }
    ensures stop { IfErr result (λ s. Halts open.now.node.known
        (λ file. (values : List Value) × AreValues file open.now.node values) s) }
{
    path_laws();
    if open.node.values == 0 {
        return Ok(());
    }
    if !open.reach.accepts(&open.path) {
        return Ok(());
    }
    collect(alloc, open.node, &open.path, into)
}

/// How many nodes there may be on one path, the root counted: as many as a database may have.
const MAX_LEVELS: usize = 4097;

/// How many open nodes a descent asks memory for at once: few paths have more.
const DEPTH: usize = 16;

/// How far a descent has come.
#[derive(Drop)]
pub struct Descent<'a, 'd> {
    /// The nodes that aren't done, each below the one before it.
    pub stack: Vec<OpenNode<'a, 'd>>,
    /// What was found so far.
    pub found: Vec<StoredAssignment<'a>>,
    /// How many bytes the records may have that are still to be entered.
    pub left: usize,
}

impl<'a, 'd> Descent<'a, 'd> {
    /// Puts a node on the stack.
    fn open(&mut self, node: OpenNode<'a, 'd>) -> Result<(), AllocError>
        ensures stack { OnOk result (stack_of self.new ≡ node.entry ∷ stack_of self.old) }
        ensures length { OnOk result
            (length self.new.stack.items ≡ length self.old.stack.items + 1) }
        ensures found { OnOk result (self.new.found ≡ self.old.found) }
        ensures left { OnOk result (self.new.left ≡ self.old.left) }
    {
        self.stack.push(node)?;
        Ok(())
    }

    /// Collects what the values of a node assign, and puts it on the stack if it has children.
    fn land(&mut self, alloc: Global, known: Parts<'a>, open: OpenNode<'a, 'd>) -> Result<(), Stop>
        requires stands { StandsFor open.reach open.path.items }
        requires same { open.node.known ≡ known }
        requires all { AllStand known (stack_of self.old) }
        ensures all { OnOk result (AllStand known.entry (stack_of self.new)) }
        ensures lands { OnOk result (Lands open.entry self.old self.new) }
        ensures said { OnOk result (IsFit open.entry.node → StaySaid known.entry
            open.entry.node.frame.sizes self.old.found.items self.new.found.items) }
        ensures laid { OnOk result ((l : Layout) → open.entry.node.frame.sizes ≡ l
            → AllLaid l (stack_of self.old) → AllLaid l (stack_of self.new)) }
        ensures steps { OnOk result
            (length self.new.stack.items ≤ length self.old.stack.items + 1) }
        ensures left { OnOk result (self.new.left ≡ self.old.left) }
        ensures stop { IfErr result (λ s. Halts known.entry
            (λ file. (values : List Value) × AreValues file open.entry.node values) s) }
    {
        collect_matching(alloc, &open, &mut self.found)?;
        if open.node.children == 0 {
            return Ok(());
        }
        self.open(open)?;
        Ok(())
    }

    /// Visits the node at `off`, if its path is live. So many levels may be at and below it, and its path was fed up to
    /// its prefix.
    fn visit(
        &mut self,
        alloc: Global,
        known: Parts<'a>,
        frame: Frame,
        levels: usize,
        off: usize,
        path: Vec<u8>,
        reach: Reach<'d>,
    ) -> Result<(), Stop>
        requires inside { frame.sizes.strings ≤ size_of known }
        requires stands { StandsFor reach path.items }
        requires all { AllStand known (stack_of self.old) }
        ensures all { OnOk result (AllStand known.entry (stack_of self.new)) }
        ensures comes { OnOk result ((file : List ℕ) (all : List Assignment)
            → MayBeOf known.entry file
            → Enters file frame.sizes levels off path.items reach.entry.device self.old all
            → Comes file reach.entry.device self.new all) }
        ensures said { OnOk result (StaySaid known.entry frame.sizes
            self.old.found.items self.new.found.items) }
        ensures laid { OnOk result ((l : Layout) → frame.sizes ≡ l
            → AllLaid l (stack_of self.old) → AllLaid l (stack_of self.new)) }
        ensures steps { OnOk result (self.new.left + length self.new.stack.items + 23
            ≤ self.old.left + length self.old.stack.items) }
        ensures stop { IfErr result (λ s. Halts known.entry (λ file. (all : List Assignment)
            × Enters file frame.sizes levels off path.items reach.entry.device self.old all)
            s) }
    {
        path_laws();
        if levels == 0 {
            return Err(Stop::Fault(DbFault::Depth(off as u64)));
        }
        let node = enter(known, frame, off)?;
        let size = node.end - off;
        if self.left < size {
            return Err(Stop::Fault(DbFault::Place(off as u64)));
        }
        self.left -= size;
        let Some(open) = arrive(alloc, node, levels - 1, path, reach)? else {
            return Ok(());
        };
        self.land(alloc, known, open)
    }

    /// Goes on from the node on top of the stack. Visits its next child that may be live. If there is none, the node is
    /// done, and is taken off.
    fn go_on(&mut self, alloc: Global, known: Parts<'a>) -> Result<(), Stop>
        requires some { 0 < length self.old.stack.items }
        requires all { AllStand known (stack_of self.old) }
        ensures all { OnOk result (AllStand known.entry (stack_of self.new)) }
        ensures comes { OnOk result ((file device : List ℕ) (all : List Assignment)
            → MayBeOf known.entry file
            → Comes file device self.old all → Comes file device self.new all) }
        ensures said { OnOk result ((l : Layout) → AllLaid l (stack_of self.old)
            → StaySaid known.entry l self.old.found.items self.new.found.items) }
        ensures laid { OnOk result ((l : Layout)
            → AllLaid l (stack_of self.old) → AllLaid l (stack_of self.new)) }
        ensures steps { OnOk result (self.new.left + length self.new.stack.items
            < self.old.left + length self.old.stack.items) }
        ensures stop { IfErr result (λ s. Halts known.entry (λ file. (device : List ℕ)
            × (all : List Assignment) × Comes file device self.old all) s) }
    {
        let last = self.stack.len() - 1;
        let open = &mut self.stack[last];
        let Some(next) = open.next()? else {
            self.stack.pop();
            return Ok(());
        };
        open.done = next.done;
        let path = one_further(alloc, &open.path, next.byte)?;
        let reach = open.reach.feed(alloc, &[next.byte])?;
        let frame = open.node.frame;
        let levels = open.levels;
        self.visit(alloc, known, frame, levels, next.off, path, reach)
    }
}

/// The assignments of a file whose patterns match the device, node by node.
pub fn descend<'a>(
    alloc: Global,
    known: Parts<'a>,
    frame: Frame,
    device: &[u8],
) -> Result<Vec<StoredAssignment<'a>>, Stop>
    requires { frame.sizes.strings ≤ size_of known }
    ensures found { IfOk result (λ found. (file : List ℕ) (t : Tree) → MayBeOf known.entry file
        → frame.sizes ≡ layout_of file → IsDatabase file t
        → map assignment_of_answer found.items
        ≡ filter (is_wanted device.now) (members_under [] t)) }
    ensures said { IfOk result (λ found. AreSaid known.entry frame.sizes found.items) }
    ensures stop { IfErr result (λ s. Halts known.entry
        (λ file. (t : Tree) × (frame.sizes ≡ layout_of file) × IsDatabase file t) s) }
{
    let mut descent = Descent {
        stack: Vec::with_capacity(alloc, DEPTH)?,
        found: Vec::new(alloc),
        left: known.len(),
    };
    let start = Reach::start(alloc, device);
    descent.visit(
        alloc,
        known,
        frame,
        MAX_LEVELS,
        frame.sizes.root,
        Vec::new(alloc),
        start,
    )?;
    'open: while !descent.stack.is_empty() {
        descent.go_on(alloc, known)?;
    }
    Ok(descent.found)
}

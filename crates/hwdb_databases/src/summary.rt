//! How much is in a database.
ghost use Rattle.std.specs.Prelude.{◌≡◌, ◌+◌, ◌++◌, ◌<◌, ◌≤◌, ◌^◌, ℕ, List, [], ◌∷◌, length, map, IfOk, OnOk, if◌then◌else◌};
ghost use Rattle.hwdb_spec_commands.specs.Summary.{different, summary_of};
ghost use Rattle.hwdb_spec.specs.Tree.{values_of};
ghost use Rattle.hwdb_reader.specs.Views.{entered_tree, entry_shows};
ghost use Rattle.hwdb_query.specs.Internal.Members.{assignment_shown, own_members};
ghost use Rattle.hwdb_databases.specs.Views.{summary_shown};
ghost use Rattle.hwdb_databases.specs.Internal.Walks.{named_here};

use crate::walk::Walk;
use hwdb_reader::{Db, Entry, Inside};
use std::alloc::{AllocError, Global};

/// How much is in a database.
#[derive(Clone, Copy)]
pub(crate) struct Counts {
    pub files: usize,
    pub patterns: usize,
    pub keys: usize,
    pub assignments: usize,
    pub nodes: u64,
    pub depth: usize,
    pub bytes: usize,
}

/// What was counted of the nodes so far.
#[derive(Drop)]
struct Tally<'a> {
    /// The file of each assignment.
    files: Vec<&'a [u8]>,
    /// The key of each assignment.
    keys: Vec<&'a [u8]>,
    /// How many nodes assign something. No two nodes have one path, so that these are as many patterns.
    patterns: usize,
}

impl<'a> Tally<'a> {
    fn new(alloc: Global) -> Tally<'a>
        ensures files { result.files.items ≡ [] }
        ensures keys { result.keys.items ≡ [] }
        ensures patterns { result.patterns ≡ 0 }
    {
        Tally {
            files: Vec::new(alloc),
            keys: Vec::new(alloc),
            patterns: 0,
        }
    }

    /// Counts what a value assigns. The only error, here and below, is `AllocError`.
    fn add_value(&mut self, entry: Entry<'a>) -> Result<(), AllocError>
        ensures files { OnOk result ((pattern : List ℕ) → map (λ t. t.now) self.new.files.items
            ≡ map (λ t. t.now) self.old.files.items
            ++ map (λ f. f.path) (assignment_shown pattern (entry_shows entry.entry))) }
        ensures keys { OnOk result ((pattern : List ℕ) → map (λ t. t.now) self.new.keys.items
            ≡ map (λ t. t.now) self.old.keys.items
            ++ map (λ f. f.position.key) (assignment_shown pattern (entry_shows entry.entry))) }
        ensures patterns { OnOk result (self.new.patterns ≡ self.old.patterns) }
    {
        let Some(key) = entry.key else {
            return Ok(());
        };
        self.files.push(entry.path)?;
        self.keys.push(key)?;
        Ok(())
    }

    /// Counts what the values of a node assign.
    fn add(&mut self, inside: Inside<'a>) -> Result<(), AllocError>
        requires { self.old.patterns ≤ length self.old.keys.items }
        ensures files { OnOk result ((pattern : List ℕ) → map (λ t. t.now) self.new.files.items
            ≡ map (λ t. t.now) self.old.files.items ++ map (λ f. f.path)
            (own_members pattern (values_of (entered_tree inside.entry)))) }
        ensures keys { OnOk result ((pattern : List ℕ) → map (λ t. t.now) self.new.keys.items
            ≡ map (λ t. t.now) self.old.keys.items ++ map (λ f. f.position.key)
            (own_members pattern (values_of (entered_tree inside.entry)))) }
        ensures patterns { OnOk result (self.new.patterns
            ≡ self.old.patterns + named_here (values_of (entered_tree inside.entry))) }
        ensures few { OnOk result (self.new.patterns ≤ length self.new.keys.items) }
    {
        let before = self.keys.len();
        for i in 0..inside.values() {
            self.add_value(inside.value(i))?;
        }
        if self.keys.len() <= before {
            return Ok(());
        }
        self.patterns += 1;
        Ok(())
    }
}

/// The texts without those that equal the one before them.
fn without_repeats<'l>(texts: Vec<&'l [u8]>) -> Vec<&'l [u8]>
    ensures { different (map (λ t. t.now) result.items)
        ≡ different (map (λ t. t.now) texts.entry.items) }
{
    let mut left = texts;
    left.dedup();
    left
}

/// How many of the texts differ from each other. Most equal the one before them, so that few are left to be sorted.
pub(crate) fn count_different(texts: Vec<&[u8]>) -> Result<usize, AllocError>
    ensures { IfOk result (λ n. n ≡ different (map (λ t. t.now) texts.entry.items)) }
{
    let mut ordered = without_repeats(texts);
    ordered.sort()?;
    ordered.dedup();
    Ok(ordered.len())
}

/// How much is in the database of so many bytes. No path is read, however long it is.
pub(crate) fn summarize(alloc: Global, bytes: usize, db: &Db<'_>) -> Result<Counts, AllocError>
    ensures { IfOk result (λ counts. summary_shown counts ≡ summary_of bytes db.now) }
{
    let _root = db.root();
    let mut walk = Walk::start(alloc, false, db)?;
    let mut tally = Tally::new(alloc);
    'nodes: while let Some(inside) = walk.at {
        tally.add(inside)?;
        walk.next()?;
    }
    let assignments = tally.keys.len();
    Ok(Counts {
        files: count_different(tally.files)?,
        patterns: tally.patterns,
        keys: count_different(tally.keys)?,
        assignments,
        nodes: walk.nodes(),
        depth: walk.deepest,
        bytes,
    })
}

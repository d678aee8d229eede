//! `status`: how the database that is asked is, beside the one that the text files make.
ghost use Rattle.std.specs.Prelude.{◌≡◌, ◌<◌, ◌+◌, ◌++◌, ◌^◌, ℕ, List, [], Some, false, length, map, option_map, IfOk, OnOk};
ghost use Rattle.hwdb_spec_commands.specs.Differences.{differences};
ghost use Rattle.hwdb_spec.specs.Folders.{same};
ghost use Rattle.hwdb_spec.specs.Format.{IsDatabase};
ghost use Rattle.hwdb_spec.specs.Tree.{IsTree, Map, Tree, map_of, members_under};
ghost use Rattle.hwdb_spec.specs.Written.{IsDatabaseOf};
ghost use Rattle.hwdb_spec_commands.specs.Status;
ghost use Rattle.hwdb_spec_commands.specs.Status.{IsAmount, IsState, IsStateOf, stale_by};
ghost use Rattle.hwdb_spec_commands.specs.Summary.{different, summary_of};
ghost use Rattle.hwdb_reader.specs.Unread.{new_file, old_file};
ghost use Rattle.hwdb_reader.specs.Views.{tree_of};
ghost use Rattle.hwdb_databases.specs.Views.{amount_shown, state_shown};
ghost use Rattle.hwdb_databases.specs.Internal.Alike;
ghost use Rattle.hwdb_databases.specs.Internal.Alike.{IsHow};
ghost use Rattle.hwdb_databases.specs.Internal.Counting.{IsHeldFrom, files_in, first_kept};
ghost use Rattle.hwdb_databases.specs.Internal.Meeting.{AreFrom, changes_at, old_by};

use crate::abreast::Abreast;
use crate::alike::are_alike;
use crate::amounts::{Amount, amount_of};
use crate::inventory::Inventory;
use crate::meeting::{Side, Walks, is_change, least, pass_over, tell};
use crate::members::Members;
use crate::texts::is_same;
use hwdb_reader::{Db, Node, Twins, check, law_ascending, reopen};
use std::alloc::{AllocError, Global};

/// The state of the database that is asked.
#[derive(Drop)]
pub enum State {
    /// There is none.
    Missing,
    /// Its bytes are no database.
    Broken,
    /// Its bytes are those that the text files make.
    Fresh,
    /// They are others that say the same.
    Alike,
    /// They are a database that says something else.
    Stale {
        /// How many changes there are from it to what the text files make.
        changes: usize,
        /// The line of the first, as `diff` prints it; nothing if there is none.
        first: Vec<u8>,
    },
}

/// How the database that is asked is, and how much is in it.
#[derive(Drop)]
pub struct Standing {
    pub state: State,
    /// None if there is no database.
    pub holds: Option<Amount>,
}

/// How many changes were met, and the line of the first.
#[derive(Drop)]
struct ChangeCount {
    changes: usize,
    first: Vec<u8>,
}

impl ChangeCount {
    /// Counts what happened at the least pattern and key that are left of two databases, and keeps the line of the first change.
    /// The only error, here and below, is `AllocError`.
    fn count<'a, 'b>(
        &mut self,
        alloc: Global,
        walks: Walks<'_, 'a, 'b>,
        side: Side<'a, 'b>,
    ) -> Result<(), AllocError>
        requires few { self.old.changes + 1 < 2 ^ 64 }
        requires files { AreFrom (old_file walks.twins.now) (new_file walks.twins.now) side }
        ensures changes { OnOk result (self.new.changes ≡ self.old.changes
            + length (changes_at walks.entry.old.now walks.entry.new.now side.entry)) }
        ensures first { OnOk result (self.new.first.items ≡ first_kept self.old.first.items
            (changes_at walks.entry.old.now walks.entry.new.now side.entry)) }
    {
        if !is_change(walks.twins, side) {
            return Ok(());
        }
        self.changes += 1;
        if self.first.is_empty() {
            tell(alloc, walks, &mut self.first, side)?;
        }
        Ok(())
    }
}

/// Counts the old database's assignment on a side, if it has one there.
fn count_old<'a>(held: &mut Inventory<'a>, side: Side<'a, '_>) -> Result<(), AllocError>
    requires few { held.old.assignments + length (old_by [] side) < 2 ^ 64 }
    requires last { (f : List ℕ) × (g : List ℕ) × IsHeldFrom f held.old × AreFrom f g side }
    ensures files { OnOk result ((p : List ℕ) (rest : List (List ℕ))
        → different (files_in held.new ++ rest) ≡ different
        (files_in held.old ++ (map (λ f. f.path) (old_by p side.entry) ++ rest))) }
    ensures assignments { OnOk result ((p : List ℕ) → held.new.assignments
        ≡ held.old.assignments + length (old_by p side.entry)) }
    ensures last { OnOk result ((f g : List ℕ)
        → IsHeldFrom f held.old → AreFrom f g side.entry → IsHeldFrom f held.new) }
{
    match side {
        Side::Old(x) => held.add(x.path),
        Side::New(_) => Ok(()),
        Side::Both(x, _) => held.add(x.path),
    }
}

/// How a database of so many bytes is beside another one. Both are walked side by side, from their roots on.
fn walked(alloc: Global, size: usize, old: Node<'_>, new: Node<'_>) -> Result<Standing, AllocError>
    requires old { IsTree (tree_of old) }
    requires new { IsTree (tree_of new) }
    requires few { length (members_under [] (tree_of old))
        + length (members_under [] (tree_of new)) < 2 ^ 64 }
    ensures state { IfOk result (λ s. state_shown s.state ≡ stale_by
        (differences (map_of (tree_of old.entry)) (map_of (tree_of new.entry)))) }
    ensures holds { IfOk result (λ s. option_map amount_shown s.holds
        ≡ Some (Status.amount_of (summary_of size (tree_of old.entry)))) }
{
    let twins = Twins::new(alloc, old, new)?;
    let mut before = Members::start_at(alloc, false, old)?;
    let mut after = Members::start_at(alloc, false, new)?;
    let mut abreast = Abreast::new(alloc);
    abreast.meet(&twins, &before.walk.trail, &after.walk.trail)?;
    let mut held = Inventory::new(alloc);
    let mut tally = ChangeCount {
        changes: 0,
        first: Vec::new(alloc),
    };
    'pairs: while let Some(side) = least(&twins, abreast.order, &before, &after) {
        let walks = Walks {
            twins: &twins,
            old: &before,
            new: &after,
        };
        tally.count(alloc, walks, side)?;
        count_old(&mut held, side)?;
        pass_over(side, &mut before, &mut after)?;
        abreast.meet(&twins, &before.walk.trail, &after.walk.trail)?;
    }
    let amount = held.amount(size)?;
    let ChangeCount { changes, first } = tally;
    Ok(Standing {
        state: State::Stale { changes, first },
        holds: Some(amount),
    })
}

/// The changes of a database to another one, and how much is in it.
fn counted(alloc: Global, size: usize, old: &Db<'_>, new: &Db<'_>) -> Result<Standing, AllocError>
    requires old { IsTree old.now }
    requires new { IsTree new.now }
    requires few { length (members_under [] old.now) + length (members_under [] new.now) < 2 ^ 64 }
    ensures state { IfOk result (λ s. state_shown s.state
        ≡ stale_by (differences (map_of old.now) (map_of new.now))) }
    ensures holds { IfOk result (λ s. option_map amount_shown s.holds
        ≡ Some (Status.amount_of (summary_of size old.now))) }
{
    walked(alloc, size, old.root(), new.root())
}

/// Whether no change was counted.
fn is_unchanged(state: &State) -> bool
    ensures { result ≡ Alike.is_unchanged (state_shown state.now) }
{
    match state {
        State::Stale { changes, .. } => *changes == 0,
        _ => false,
    }
}

/// How a database is beside another one, if each assignment is looked at.
fn looked_at(alloc: Global, state: State, old: &Db<'_>, new: &Db<'_>) -> Result<State, AllocError>
    requires old { IsTree old.now }
    requires new { IsTree new.now }
    requires counted { state_shown state
        ≡ stale_by (differences (map_of old.now) (map_of new.now)) }
    ensures { IfOk result (λ s. IsHow (map_of old.now) (map_of new.now) (state_shown s)) }
{
    let same = are_alike(alloc, old, new)?;
    if same {
        return Ok(State::Alike);
    }
    Ok(state)
}

/// How a database is beside another one, by the changes that were counted. If there is none, they may say the same. A change is of a
/// value alone, and so each assignment is looked at.
fn settled(alloc: Global, state: State, old: &Db<'_>, new: &Db<'_>) -> Result<State, AllocError>
    requires old { IsTree old.now }
    requires new { IsTree new.now }
    requires counted { state_shown state
        ≡ stale_by (differences (map_of old.now) (map_of new.now)) }
    ensures { IfOk result (λ s. IsHow (map_of old.now) (map_of new.now) (state_shown s)) }
{
    if is_unchanged(&state) {
        return looked_at(alloc, state, old, new);
    }
    Ok(state)
}

/// How a database of so many bytes is beside another one.
fn compared(alloc: Global, size: usize, old: &Db<'_>, new: &Db<'_>) -> Result<Standing, AllocError>
    requires old { IsTree old.now }
    requires new { IsTree new.now }
    requires few { length (members_under [] old.now) + length (members_under [] new.now) < 2 ^ 64 }
    ensures state { IfOk result
        (λ s. IsHow (map_of old.now) (map_of new.now) (state_shown s.state)) }
    ensures holds { IfOk result (λ s. option_map amount_shown s.holds
        ≡ Some (Status.amount_of (summary_of size old.now))) }
{
    let Standing { state, holds } = counted(alloc, size, old, new)?;
    let state = settled(alloc, state, old, new)?;
    Ok(Standing { state, holds })
}

/// How a database of so many bytes is beside the bytes of another one, which is a database.
fn stale(alloc: Global, size: usize, old: &Db<'_>, made: &[u8]) -> Result<Standing, AllocError>
    requires tree { IsTree old.now }
    requires few { length (members_under [] old.now) + length (members_under [] old.now) < size }
    requires made { (t : Tree) × IsDatabase made.now t }
    ensures state { IfOk result (λ s. (m : Map) → IsDatabaseOf m made.now
        → IsHow (map_of old.now) m (state_shown s.state)) }
    ensures holds { IfOk result (λ s. option_map amount_shown s.holds
        ≡ Some (Status.amount_of (summary_of size old.now))) }
{
    law_ascending();
    let new = reopen(made);
    compared(alloc, size, old, &new)
}

/// How bytes are that aren't those that were made.
fn standing_of_others(alloc: Global, bytes: &[u8], made: &[u8]) -> Result<Standing, AllocError>
    requires other { same bytes.now made.now ≡ false }
    requires made { (t : Tree) × IsDatabase made.now t }
    ensures state { IfOk result (λ s. (m : Map) → IsDatabaseOf m made.now
        → IsStateOf made.now m bytes.now (state_shown s.state)) }
    ensures holds { IfOk result (λ s. IsAmount (Some bytes.now) (option_map amount_shown s.holds)) }
{
    law_ascending();
    match check(bytes) {
        Ok(old) => stale(alloc, bytes.len(), &old, made),
        Err(_) => Ok(Standing {
            state: State::Broken,
            holds: Some(Amount::Uncounted { bytes: bytes.len() }),
        }),
    }
}

/// How bytes are that were made.
fn fresh(alloc: Global, bytes: &[u8]) -> Result<Standing, AllocError>
    ensures state { IfOk result (λ s. state_shown s.state ≡ Status.State.Fresh) }
    ensures holds { IfOk result (λ s. IsAmount (Some bytes.now) (option_map amount_shown s.holds)) }
{
    let amount = amount_of(alloc, bytes)?;
    Ok(Standing {
        state: State::Fresh,
        holds: Some(amount),
    })
}

/// How some bytes are beside those that were made.
fn standing_of_bytes(alloc: Global, bytes: &[u8], made: &[u8]) -> Result<Standing, AllocError>
    requires { (t : Tree) × IsDatabase made.now t }
    ensures state { IfOk result (λ s. (m : Map) → IsDatabaseOf m made.now
        → IsStateOf made.now m bytes.now (state_shown s.state)) }
    ensures holds { IfOk result (λ s. IsAmount (Some bytes.now) (option_map amount_shown s.holds)) }
{
    if is_same(bytes, made) {
        fresh(alloc, bytes)
    } else {
        standing_of_others(alloc, bytes, made)
    }
}

/// How the database that is asked is, if there is one, beside the one that the text files make, and how much is in it.
///
/// The bytes that were asked are checked, those that were made aren't. If both are the same, they are walked once, else side by side.
pub fn standing_of(alloc: Global, asked: Option<&[u8]>, made: &[u8]) -> Result<Standing, AllocError>
    requires { (t : Tree) × IsDatabase made.now t }
    ensures state { IfOk result (λ s. (m : Map) → IsDatabaseOf m made.now
        → IsState made.now m (option_map (λ b. b.now) asked.entry) (state_shown s.state)) }
    ensures holds { IfOk result (λ s. IsAmount (option_map (λ b. b.now) asked.entry)
        (option_map amount_shown s.holds)) }
{
    match asked {
        Some(bytes) => standing_of_bytes(alloc, bytes, made),
        None => Ok(Standing {
            state: State::Missing,
            holds: None,
        }),
    }
}

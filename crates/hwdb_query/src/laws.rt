//! Laws over the definitions alone. Each function does nothing: its contract is the law.
ghost use Rattle.std.specs.Prelude.{◌≡◌, ◌<◌, ◌+◌, ◌-◌, ◌⊎◌, ℕ, List, [], length, min, true, false};
ghost use Rattle.hwdb_spec.specs.Format.{IsDatabase};
ghost use Rattle.hwdb_spec.specs.Tree.{Map, map_of, Tree, answers};
ghost use Rattle.hwdb_spec.specs.Written.{IsDatabaseOf};
ghost use Rattle.hwdb_query.specs.Laws.{AreAnswers, FillingsOfARun, AllCompiledAnswersAreLast, CompiledAnswersAreLast, LastAssignmentsAreLast, OneListIsLast, SpellsOne, CanonicalSpells, ExplainedAreEffective, AllAreExplained};
ghost use Rattle.hwdb_query.specs.Views.{Progress, after_next};
ghost use Rattle.hwdb_query.specs.Rows.{EffectiveRow, ExplainedRow, LastRows};

use hwdb_pattern::matches_is_tested;
use hwdb_reader::{Db, law_ascending, law_one_tree};

/// The answers are, in order, those members of the database's map whose pattern matches the device.
pub fn answers_are_the_maps(db: &Db<'_>)
    ensures { (device : List ℕ)
        → AreAnswers device db.now (answers device db.now) }
{
    matches_is_tested();
    let _root = db.root();
}

/// The text that is written of a position spells it, and a text spells one position at most. So it spells no other, and
/// reading it gives the position again.
pub fn positions_are_read_back()
    ensures one { SpellsOne }
    ensures canonical { CanonicalSpells }
{}

/// Bytes that are a database of a map show this map and no other. So a reader that accepts compiled bytes sees the map
/// that was compiled.
pub fn databases_show_one_map()
    ensures { (m : Map) (bytes : List ℕ) (t : Tree) → IsDatabaseOf m bytes → IsDatabase bytes t
        → map_of t ≡ m }
{
    law_one_tree();
}

/// The answers in a database of some files' map are the last assignments that the files have. So a reader that accepts
/// compiled bytes, whatever it does then, has these to answer.
pub fn compiled_answers_are_last()
    ensures after { CompiledAnswersAreLast }
    ensures all { AllCompiledAnswersAreLast }
{
    matches_is_tested();
    law_one_tree();
    law_ascending();
}

/// `last_assignments`, by which contracts compute, is the list that `AreLast` tells in words. It ascends strictly. Its
/// members are exactly the assignments that are the last of their pattern and key, match the device and come after the
/// position. No other list is so.
pub fn last_assignments_are_last()
    ensures are { LastAssignmentsAreLast }
    ensures one { OneListIsLast }
{
    matches_is_tested();
}

/// The last assignments of files, at worked rows.
#[tactic(auto, using(crate::proofs::ComputedRows::last_rows_hold, crate::proofs::ComputedRows::effective_row_holds, crate::proofs::ComputedRows::explained_row_holds))]
pub fn last_rows()
    ensures last { LastRows }
    ensures effective { EffectiveRow }
    ensures explained { ExplainedRow }
{}

/// The explanation of some answers tells the effective list of them. In order it has the list's keys, each with the
/// value of its first answer, and each key has one.
#[tactic(auto, using(crate::proofs::ExplainedLemmas::explained_are_effective, crate::proofs::ExplainedLemmas::all_are_explained))]
pub fn explained_are_effective()
    ensures properties { ExplainedAreEffective }
    ensures present { AllAreExplained }
{}

/// What a call of `next` changes of a cursor. With a hit held, or at the end, nothing is entered. A page that is filled
/// holds what is to come, as much as it may, but for the hit that is given. And the live nodes were entered.
pub fn after_each_next()
    ensures held { (p : Progress) → 0 < p.held → (after_next p).held + 1 ≡ p.held }
    ensures filled { (p : Progress) → p.held ≡ 0 → p.ended ≡ false
        → (after_next p).held ≡ min p.page (length p.to_come) - 1 }
    ensures open { (p : Progress) → 0 < length p.to_come → p.ended ≡ false
        → (after_next p).ended ≡ false }
    ensures end { (p : Progress) → p.held ≡ 0 → p.to_come ≡ []
        → ((after_next p).held ≡ 0) × ((after_next p).ended ≡ true) }
    ensures stays { (p : Progress) → (0 < p.held) ⊎ (p.ended ≡ true)
        → ((after_next p).entered ≡ p.entered) × ((after_next p).ended ≡ p.ended) }
    ensures entered { (p : Progress) → p.held ≡ 0 → p.ended ≡ false
        → (after_next p).entered ≡ p.live }
{}

/// How many fillings a cursor takes that is read to its end. It is one for each page, the last one perhaps not whole,
/// and one more that finds the end.
#[tactic(auto, using(crate::proofs::FillLemmas::fillings_of_a_run))]
pub fn fillings_of_a_run()
    ensures { FillingsOfARun }
{}

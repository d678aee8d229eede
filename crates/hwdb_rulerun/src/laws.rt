//! What is proved of the definitions alone. These functions do nothing: what each of them ensures is a law.
ghost use Rattle.hwdb_rulerun.specs.Laws.{ToldIsSo, ParentsAreSo, LookupsAreCovered};
ghost use Rattle.hwdb_rulerun.specs.Causes.{CauseIsThere};
ghost use Rattle.hwdb_rulerun.specs.Rows.{MatchRows, ConditionRows, LookupRows};

/// What is told of a line's conditions is so, whatever isn't known.
#[tactic(auto, using(crate::proofs::ToldLemmas::told_is_so))]
pub fn told_is_so()
    ensures { ToldIsSo }
{}

/// What is told of all conditions about parents and one device is so.
#[tactic(auto, using(crate::proofs::ToldLemmas::parents_are_so))]
pub fn parents_are_so()
    ensures { ParentsAreSo }
{}

/// No lookup that a line asks is missed, and each that is certain is asked.
#[tactic(auto, using(crate::proofs::CoverLemmas::lookups_are_covered))]
pub fn lookups_are_covered()
    ensures { LookupsAreCovered }
{}

/// Values and texts.
#[tactic(auto, using(crate::proofs::ComputedRows::match_rows_hold))]
pub fn match_rows()
    ensures { MatchRows }
{}

/// Conditions of lines.
#[tactic(auto, using(crate::proofs::ComputedRows::condition_rows_hold))]
pub fn condition_rows()
    ensures { ConditionRows }
{}

/// If a line doesn't hold, or nothing is told of it, something decides over that.
#[tactic(auto, using(crate::proofs::CauseLemmas::cause_is_there))]
pub fn cause_is_there()
    ensures { CauseIsThere }
{}

/// Lookups of lines, and causes.
#[tactic(auto, using(crate::proofs::ComputedRows::lookup_rows_hold))]
pub fn lookup_rows()
    ensures { LookupRows }
{}

//! Laws over the definitions alone. Each function does nothing: its contract is the law.
ghost use Rattle.hwdb_check.specs.Comments.{BareAreTold, CommentRows, FaultsStay, LeftAreTold, LinesAreMarked, RecordsAreApart};
ghost use Rattle.hwdb_check.specs.Passing.{AsManyPass, BaselineRows, NothingPasses};
ghost use Rattle.hwdb_check.specs.Sure.{LinesStay, MendsAreSure, PatchRows, SaidRows, TriedRows, WorseRows};
ghost use Rattle.hwdb_check.specs.RuleLaws.{RuleFileRows, RuleKindsAreNamed};
ghost use Rattle.hwdb_check.specs.Laws.{FieldRows, FragileRows, KindsAreNamed, LikelihoodIsJudged, MendRows, MendsAreLikely, PatternsAreJudged, RunsAreAll, TooDeepRows, TooLongRows, UnmatchedRows};

use hwdb_forms::forms_are_tested;

/// A pattern that can match nothing is told, with the bytes that can follow the place where it goes wrong.
#[tactic(auto, using(crate::proofs::LawLemmas::judged_patterns, crate::proofs::LawLemmas::all_runs, crate::proofs::LawLemmas::unmatched_rows))]
pub fn patterns_are_judged()
    ensures judged { PatternsAreJudged }
    ensures runs { RunsAreAll }
    ensures rows { UnmatchedRows }
{}

/// A pattern that matches a text that udev asks is told as unlikely exactly if it matches none that udev likely asks, with the bytes that
/// can likely follow; or if it has what is nearly the name of a field.
#[tactic(auto, using(crate::proofs::LawLemmas::judged_likelihood, crate::proofs::LawLemmas::field_rows))]
pub fn likelihood_is_judged()
    ensures judged { LikelihoodIsJudged }
    ensures fields { FieldRows }
{
    forms_are_tested();
}

/// A pattern that a hint writes is one that udev likely asks.
#[tactic(auto, using(crate::proofs::LawLemmas::likely_mends, crate::proofs::LawLemmas::mend_rows))]
pub fn mends_are_likely()
    ensures likely { MendsAreLikely }
    ensures rows { MendRows }
{
    forms_are_tested();
}

/// Which match lines are told as too long for udev, and where.
#[tactic(auto, using(crate::proofs::LawLemmas::too_long_rows))]
pub fn long_lines_are_told()
    ensures { TooLongRows }
{}

/// Of which match lines is told that a database may be too deep for udev with them, and where.
#[tactic(auto, using(crate::proofs::LawLemmas::too_deep_rows))]
pub fn deep_lines_are_told()
    ensures { TooDeepRows }
{}

/// Which patterns name the firmware of a machine beside its model, where, and what they are with any firmware.
#[tactic(auto, using(crate::proofs::LawLemmas::fragile_rows))]
pub fn fragile_patterns_are_told()
    ensures { FragileRows }
{}

/// Each kind of warning has its own name, but both of what udev can't take have one.
#[tactic(auto, using(crate::proofs::LawLemmas::named_kinds))]
pub fn kinds_are_named()
    ensures { KindsAreNamed }
{}

/// The kinds of rules files that `--allow` takes are those of no fault. And worked rows: what is told of a rules file, and where.
#[tactic(auto, using(crate::proofs::RuleLemmas::named_rule_kinds, crate::proofs::RuleLemmas::rule_file_rows))]
pub fn rule_kinds_are_named()
    ensures kinds { RuleKindsAreNamed }
    ensures rows { RuleFileRows }
{}

/// A comment lets kinds of warnings pass in its own record: what is on one side of a line that ends a record doesn't depend on the other
/// side. Each line is looked at once. Its other warnings are left, and so are all faults: each is told with its line, before the warnings.
pub fn comments_are_told()
    ensures lines { LinesAreMarked }
    ensures apart { RecordsAreApart }
    ensures left { LeftAreTold }
    ensures bare { BareAreTold }
    ensures faults { FaultsStay }
    ensures rows { CommentRows }
{
    hwdb_text::laws::sections_are_the_lines();
    hwdb_text::laws::faults_ascend();
}

/// A baseline lets as many findings with one path, kind and line pass as it has, and these are the first ones. Without it each is told.
#[tactic(auto, using(crate::proofs::PassLemmas::as_many, crate::proofs::PassLemmas::nothing_passes, crate::proofs::PassLemmas::baseline_rows))]
pub fn baselines_let_pass()
    ensures passed { AsManyPass }
    ensures without { NothingPasses }
    ensures rows { BaselineRows }
{}

/// What a patch mends is sure: the patched text, checked again, has no finding that the old one hasn't, and none that was mended. It has the
/// lines of the file, in the place of some of which come others. This is so whatever is told of texts.
pub fn patches_are_sure()
    ensures sure { MendsAreSure }
    ensures stay { LinesStay }
    ensures worse { WorseRows }
    ensures mended { TriedRows }
    ensures patches { PatchRows }
    ensures said { SaidRows }
{
    hwdb_text::laws::lines_are_the_file();
}

//! Laws of plans. Each function does nothing: its contract is the law.
ghost use Rattle.hwdb_plan.specs.Advice.{AdviceRows, AdvisedIsNoMore, AdvisedIsSaid, AdvisedRows};
ghost use Rattle.hwdb_plan.specs.Laws.{AnswersLeaveAll, DoneIsOne, OnlyAskedMatters, OverIsNoMore, OverIsOver, PlansEndAlike};
ghost use Rattle.hwdb_plan.specs.TextLaws.{SaidIsAfter, SaidIsNoMore, ShowsAfter};

use hwdb_query::positions_are_read_back;
use hwdb_reader::law_one_tree;
use hwdb_replace::Store;
use hwdb_writer::law_one_written_form;

/// Every plan has one end, but for which fault of one database, or of files that are too much, is told.
pub fn plans_end_alike()
    ensures { PlansEndAlike }
{
    law_one_tree();
    law_one_written_form();
    positions_are_read_back();
}

/// An end that is no error is the only one.
pub fn done_is_one()
    ensures { DoneIsOne }
{
    law_one_tree();
    law_one_written_form();
    positions_are_read_back();
}

/// A crash leaves what there was, if a plan answers.
pub fn answers_leave_all<D: Store>(store: &D)
    ensures { AnswersLeaveAll (D.may_leave store.now) }
{
    law_one_tree();
    law_one_written_form();
    positions_are_read_back();
}

/// With `--text` a plan ends as it does over files of which one has these bytes.
#[tactic(auto, using(crate::proofs::LawLemmas::over_is_over))]
pub fn over_is_over()
    ensures { OverIsOver }
{}

/// And in nothing else.
#[tactic(auto, using(crate::proofs::LawLemmas::over_is_no_more))]
pub fn over_is_no_more()
    ensures { OverIsNoMore }
{}

/// A text after the rest is after what the plan ends in.
#[tactic(auto, using(crate::specs::Lemmas::OverText::said_is_after))]
pub fn said_is_after()
    ensures { SaidIsAfter }
{}

/// And the plan ends in nothing else.
#[tactic(auto, using(crate::specs::Lemmas::OverText::said_is_no_more))]
pub fn said_is_no_more()
    ensures { SaidIsNoMore }
{}

/// Who shows what a plan ends in, and then says the text, shows that.
#[tactic(auto, using(crate::specs::Lemmas::OverText::shows_after))]
pub fn shows_after()
    ensures { ShowsAfter }
{}

/// What a plan doesn't ask doesn't matter.
#[tactic(auto, using(crate::proofs::LawLemmas::only_asked))]
pub fn only_asked_matters()
    ensures { OnlyAskedMatters }
{}

/// A line on what to try next is said of what the plan ends in.
#[tactic(auto, using(crate::specs::Lemmas::Advice::advised_is_said))]
pub fn advised_is_said()
    ensures { AdvisedIsSaid }
{}

/// And the plan ends in nothing else.
#[tactic(auto, using(crate::specs::Lemmas::Advice::advised_is_no_more))]
pub fn advised_is_no_more()
    ensures { AdvisedIsNoMore }
{}

/// Worked rows: which line it is, and what has it.
#[tactic(auto, using(crate::proofs::AdviceLemmas::advice_rows, crate::proofs::AdviceLemmas::advised_rows))]
pub fn advice_rows()
    ensures lines { AdviceRows }
    ensures ends { AdvisedRows }
{}

//! What a terminal changes of a run: a line for who gets nothing, and else nothing.
ghost use Rattle.hwdb_laws.specs.ShownPlans.{LineRows, ShownErrorRows, ShownRows, UnadvisedIsPlain, UnseenIsPlain};

/// Without a terminal the plan of words is theirs, and on one that of words which have no line on what to try next.
#[tactic(auto, using(crate::proofs::ShownLemmas::unseen_is_plain, crate::proofs::ShownLemmas::unadvised_is_plain))]
pub fn shown_is_plain()
    ensures unseen { UnseenIsPlain }
    ensures unadvised { UnadvisedIsPlain }
{}

/// Worked rows: which words have a line, the plans with it and without, and that an error stays as it is.
pub fn shown_rows()
    ensures lines { LineRows }
    ensures plans { ShownRows }
    ensures errors { ShownErrorRows }
{}

//! Worked rows of the definitions. These functions do nothing: what each of them ensures is so.
ghost use Rattle.hwdb_spec_rules.specs.Rows.{AskedRows, NameRows, SightRows, WhyRows, WordRows};

/// The names that rules read.
#[tactic(auto, using(crate::proofs::ComputedRows::name_rows_hold))]
pub fn name_rows()
    ensures { NameRows }
{}

/// What is known before any rule is tried.
#[tactic(auto, using(crate::proofs::ComputedRows::sight_rows_hold))]
pub fn sight_rows()
    ensures { SightRows }
{}

/// The strings that rules ask.
#[tactic(auto, using(crate::proofs::ComputedRows::asked_rows_hold))]
pub fn asked_rows()
    ensures { AskedRows }
{}

/// Why lines ask, may ask, or don't.
#[tactic(auto, using(crate::proofs::ComputedRows::why_rows_hold))]
pub fn why_rows()
    ensures { WhyRows }
{}

/// Words that ask for the machine's own rules.
#[tactic(auto, using(crate::proofs::ComputedRows::word_rows_hold))]
pub fn word_rows()
    ensures { WordRows }
{}

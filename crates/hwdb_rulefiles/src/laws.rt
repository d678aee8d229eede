//! More about the definitions, at worked rows. These functions do nothing: what each of them ensures is a law.
ghost use Rattle.hwdb_rulefiles.specs.RuleRows.{LineRows, RefusedRows, RemarkRows, OrderRows, ValueRows, JumpRows, SystemRows, ChoiceRows, SpotRows};
ghost use Rattle.hwdb_rulefiles.specs.RuleLaws.{FirstFolderCounts, EmptyFileMasks, MoreChangesNothing};

/// Rows, and lines that go on.
#[tactic(auto, using(crate::proofs::ComputedRows::line_rows_hold))]
pub fn line_rows()
    ensures { LineRows }
{}

/// What refuses a whole line.
#[tactic(auto, using(crate::proofs::ComputedRows::refused_rows_hold))]
pub fn refused_rows()
    ensures { RefusedRows }
{}

/// What is kept with a remark.
#[tactic(auto, using(crate::proofs::ComputedRows::remark_rows_hold))]
pub fn remark_rows()
    ensures { RemarkRows }
{}

/// The order of tokens.
#[tactic(auto, using(crate::proofs::ComputedRows::order_rows_hold))]
pub fn order_rows()
    ensures { OrderRows }
{}

/// Values in quotes.
#[tactic(auto, using(crate::proofs::ComputedRows::value_rows_hold))]
pub fn value_rows()
    ensures { ValueRows }
{}

/// Jumps and labels.
#[tactic(auto, using(crate::proofs::ComputedRows::jump_rows_hold))]
pub fn jump_rows()
    ensures { JumpRows }
{}

/// Lines as in systemd's rules.
#[tactic(auto, using(crate::proofs::ComputedRows::system_rows_hold))]
pub fn system_rows()
    ensures { SystemRows }
{}

/// Which files are chosen.
#[tactic(auto, using(crate::proofs::ComputedRows::choice_rows_hold))]
pub fn choice_rows()
    ensures { ChoiceRows }
{}

/// A name is taken from the first folder that has it.
#[tactic(auto, using(crate::proofs::LawLemmas::first_counts))]
pub fn first_folder_counts()
    ensures { FirstFolderCounts }
{}

/// An empty file masks those of its name in later folders.
#[tactic(auto, using(crate::proofs::LawLemmas::empty_masks))]
pub fn empty_file_masks()
    ensures { EmptyFileMasks }
{}

/// To look for more rows or pieces than there are bytes changes nothing.
#[tactic(auto, using(crate::proofs::FuelLemmas::more_changes_nothing))]
pub fn more_changes_nothing()
    ensures { MoreChangesNothing }
{}

/// Where findings are, and how they are printed.
#[tactic(auto, using(crate::proofs::ComputedRows::spot_rows_hold))]
pub fn spot_rows()
    ensures { SpotRows }
{}

//! More about the definitions, in words of their own. These functions do nothing: what each of them ensures is a law.
ghost use Rattle.hwdb_text.specs.Rows.{FaultRows, AssignmentRows, ChoiceRows, PathRows};
ghost use Rattle.hwdb_text.specs.Laws.{LinesAreTheFile, LinesHoldNoNewline, LinesCountUp, SectionsAreTheBlock, SectionsAreTheLines, NamesAreThoseThatCount, NamesAscend, OneAscendingList, FaultsAreAll, FaultsAscend, OneListOfFaults, PrioritiesCountUp, AssignmentsStandByLine, OneValueALine};

/// The lines of a file are all of it. Each with a newline after it, they are the file, with a newline after its last
/// line.
#[tactic(auto, using(crate::proofs::JoinLemmas::lines_are_the_file, crate::proofs::JoinLemmas::lines_hold_no_newline, crate::proofs::JoinLemmas::lines_count_up))]
pub fn lines_are_the_file()
    ensures joined { LinesAreTheFile }
    ensures cut { LinesHoldNoNewline }
    ensures numbered { LinesCountUp }
{}

/// The sections of a block, joined, are the block.
#[tactic(auto, using(crate::proofs::JoinLemmas::sections_are_the_block))]
pub fn sections_are_the_block()
    ensures { SectionsAreTheBlock }
{}

/// The sections of clean lines, joined, are the lines that aren't empty: each is in one section, in its order.
#[tactic(auto, using(crate::proofs::JoinLemmas::sections_are_the_lines))]
pub fn sections_are_the_lines()
    ensures { SectionsAreTheLines }
{}

/// A name is chosen if it counts and one of the folders lists it, and no others are.
#[tactic(auto, using(crate::proofs::NameSetLemmas::names_are_those_that_count))]
pub fn names_are_those_that_count()
    ensures { NamesAreThoseThatCount }
{}

/// The chosen names ascend by their bytes, so that none is there twice.
#[tactic(auto, using(crate::proofs::NameSetLemmas::names_ascend))]
pub fn names_ascend()
    ensures { NamesAscend }
{}

/// A set of names has one ascending list.
#[tactic(auto, using(crate::proofs::NameSetLemmas::one_ascending_list))]
pub fn one_ascending_list()
    ensures { OneAscendingList }
{}

/// The faults of a file are all that its lines and records have, each as often as they have it.
#[tactic(auto, using(crate::proofs::FaultOrderLemmas::faults_are_all))]
pub fn faults_are_all()
    ensures { FaultsAreAll }
{}

/// They ascend by line and then by number, so that none is there twice.
#[tactic(auto, using(crate::proofs::FaultSetLemmas::faults_ascend))]
pub fn faults_ascend()
    ensures { FaultsAscend }
{}

/// A set of faults has one ascending list.
#[tactic(auto, using(crate::proofs::FaultSetLemmas::one_list_of_faults))]
pub fn one_list_of_faults()
    ensures { OneListOfFaults }
{}

/// The priorities are 1, 2, 3 and so on.
#[tactic(auto, using(crate::proofs::OrderLemmas::priorities_count_up))]
pub fn priorities_count_up()
    ensures { PrioritiesCountUp }
{}

/// The assignments of a file are in the order of their properties' lines.
#[tactic(auto, using(crate::proofs::OrderLemmas::assignments_stand_by_line))]
pub fn assignments_stand_by_line()
    ensures { AssignmentsStandByLine }
{}

/// The assignments of one line of a file have one key and one value: they differ in their patterns alone.
pub fn one_value_a_line()
    ensures { OneValueALine }
{}

/// The faults of files, at worked rows.
#[tactic(auto, using(crate::proofs::ComputedRows::fault_rows_hold))]
pub fn fault_rows()
    ensures { FaultRows }
{}

/// The assignments of files, at worked rows.
#[tactic(auto, using(crate::proofs::ComputedRows::assignment_rows_hold))]
pub fn assignment_rows()
    ensures { AssignmentRows }
{}

/// The choice of files, at worked rows.
#[tactic(auto, using(crate::proofs::ComputedRows::choice_rows_hold))]
pub fn choice_rows()
    ensures { ChoiceRows }
{}

/// The stored paths, at worked rows.
#[tactic(auto, using(crate::proofs::ComputedRows::path_rows_hold))]
pub fn path_rows()
    ensures { PathRows }
{}

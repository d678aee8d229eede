//! Laws over the definitions alone. Each function does nothing: its contract is the law.
ghost use Rattle.hwdb_near.specs.Laws.{LastAndReplacedAreAll, LongestIsComputed, NoneReplacesItself, PatternsAreOfFiles, StopsAreComputed};
ghost use Rattle.hwdb_near.specs.Rows.{FileRows, GatheredRows, HeadRows, MarkRows, MaskedRows, MatchingRows, NearestRows, OrderRows, PlaceRows, RatedRows, RepeatedRows, ReplacedFileRows, ReplacedRows, ReplacedTextRows, StopRows, WordRows};

use hwdb_databases::members_are_the_map;
use hwdb_pattern::matches_is_tested;
use hwdb_query::databases_show_one_map;
use hwdb_reader::law_ascending;

/// Tokens stop at one place alone, which `stop_of` computes.
#[tactic(auto, using(crate::proofs::ComputedLemmas::stop_computed))]
pub fn stops_are_computed()
    ensures { StopsAreComputed }
{
    matches_is_tested();
}

/// So is how many tokens their longest front has.
pub(crate) fn longest_is_computed()
    ensures { LongestIsComputed }
{
    matches_is_tested();
}

/// The patterns of a database of some files are those of the last assignments that the files have.
pub fn patterns_are_of_files()
    ensures files { PatternsAreOfFiles }
{
    databases_show_one_map();
    law_ascending();
    members_are_the_map();
}

/// Those of some assignments that count, and those that a later one replaced, are together all of them.
pub fn last_and_replaced_are_all()
    ensures { LastAndReplacedAreAll }
{}

/// No assignment is told as replaced by what the same line gives its pattern.
#[tactic(auto, using(crate::proofs::OnceLemmas::none_replaces_itself))]
pub fn none_replaces_itself()
    ensures { NoneReplacesItself }
{}

/// Worked rows of what was replaced, and of what is masked.
pub fn replaced_rows()
    ensures replaced { ReplacedRows }
    ensures files { ReplacedFileRows }
    ensures repeated { RepeatedRows }
    ensures masked { MaskedRows }
    ensures text { ReplacedTextRows }
{}

/// Worked rows: what the definitions give when they are computed.
pub fn worked_rows()
    ensures stops { StopRows }
    ensures rated { RatedRows }
    ensures nearest { NearestRows }
    ensures matching { MatchingRows }
    ensures order { OrderRows }
    ensures marks { MarkRows }
    ensures words { WordRows }
    ensures heads { HeadRows }
    ensures files { FileRows }
    ensures places { PlaceRows }
    ensures gathered { GatheredRows }
{}

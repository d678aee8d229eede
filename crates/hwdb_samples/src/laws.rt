//! Laws of the definitions, and worked rows: these functions do nothing, and what each of them ensures is so.
ghost use Rattle.hwdb_samples.specs.KeyRows.{KeyRuleRows, PropertyRows, TurnRows, ValueRows};
ghost use Rattle.hwdb_samples.specs.Keys.{RulesGiveValues, SameRulesGiveAll};
ghost use Rattle.hwdb_samples.specs.Laws.{AddedAreSettled, NothingIsSame, NothingIsSameOfAll, RemovedAreSettled, SamplesFit, SamplesShow, ShortestIsSample};
ghost use Rattle.hwdb_samples.specs.Rows.{AgreeRows, ApartRows, AskedRows, ChangedRows, CoverRows, FoundRows, GivenRows, KeyedRows, LaterRows, NearRows, RuleRows, SameRows, ShownRows, TextRows};

use hwdb_forms::texts_fit;
use hwdb_pattern::matches_is_tested;

/// What samples say of the rules of one key: each shows a change, and if nothing is found nothing changes. The pattern of each rule
/// that one side alone has is settled.
pub fn law_found()
    ensures shown { SamplesShow }
    ensures complete { NothingIsSame }
    ensures removed { RemovedAreSettled }
    ensures added { AddedAreSettled }
{
    matches_is_tested();
}

/// If nothing is found of any key, nothing changes for any device.
pub fn law_nothing_found()
    ensures { NothingIsSameOfAll }
{
    matches_is_tested();
}

/// If a text that udev may ask shows a change, the sample is such a text: the shortest one, if it shows it.
pub fn law_samples_fit()
    ensures fit { SamplesFit }
    ensures shortest { ShortestIsSample }
{
    texts_fit();
}

/// What a device gets of all keys is what the rules of each key give it.
#[tactic(auto, using(crate::proofs::KeyLemmas::rules_give_values, crate::proofs::KeyLemmas::same_rules_give_all))]
pub fn law_rules_give()
    ensures values { RulesGiveValues }
    ensures all { SameRulesGiveAll }
{}

/// What rules give devices.
#[tactic(auto, using(crate::proofs::ComputedRows::given_rows_hold, crate::proofs::ComputedRows::later_rows_hold))]
pub fn given_rows()
    ensures given { GivenRows }
    ensures later { LaterRows }
{}

/// What two sides give, and what shows it.
#[tactic(auto, using(crate::proofs::ComputedRows::same_rows_hold, crate::proofs::ComputedRows::rule_rows_hold, crate::proofs::ComputedRows::shown_rows_hold))]
pub fn side_rows()
    ensures same { SameRows }
    ensures rule { RuleRows }
    ensures shown { ShownRows }
{}

/// Texts of patterns, and how patterns meet.
#[tactic(auto, using(crate::proofs::ComputedRows::text_rows_hold, crate::proofs::ComputedRows::apart_rows_hold, crate::proofs::ComputedRows::cover_rows_hold, crate::proofs::ComputedRows::near_rows_hold))]
pub fn pattern_rows()
    ensures text { TextRows }
    ensures apart { ApartRows }
    ensures cover { CoverRows }
    ensures near { NearRows }
{}

/// What is found of two sides.
#[tactic(auto, using(crate::proofs::ComputedRows::agree_rows_hold, crate::proofs::ComputedRows::changed_rows_hold, crate::proofs::ComputedRows::found_rows_hold, crate::proofs::ComputedRows::keyed_rows_hold, crate::proofs::ComputedRows::asked_rows_hold))]
pub fn sample_rows()
    ensures agree { AgreeRows }
    ensures changed { ChangedRows }
    ensures found { FoundRows }
    ensures keyed { KeyedRows }
    ensures asked { AskedRows }
{}

/// Which assignments count, and what devices get of all keys.
#[tactic(auto, using(crate::proofs::ComputedRows::turn_rows_hold, crate::proofs::ComputedRows::property_rows_hold, crate::proofs::ComputedRows::value_rows_hold, crate::proofs::ComputedRows::key_rule_rows_hold))]
pub fn key_rows()
    ensures turn { TurnRows }
    ensures properties { PropertyRows }
    ensures values { ValueRows }
    ensures rules { KeyRuleRows }
{}

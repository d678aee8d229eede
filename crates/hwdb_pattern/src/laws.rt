//! Laws over the definitions alone. Each function does nothing: its contract is the law, for callers whose proofs need
//! it.
ghost use Rattle.hwdb_pattern.specs.Laws.{StaysClosed, ClosedPartAndRest, ClosedPartIsCutAlike, DeadMatchesNothing, DeadStaysDead, LiveIsTested, MatchesIsTested, TokensAreThePattern};
ghost use Rattle.hwdb_pattern.specs.Rows.{BracketRows, ClosedRows, LiveRows, MatchRows, StarRows, TokenRows};

/// A closed bracket of a text is the same bracket in every longer text that begins with it.
#[tactic(auto, using(crate::proofs::LongerPathLemmas::bracket_longer))]
pub fn closed_bracket_stays()
    ensures { StaysClosed }
{}

/// The tokens of a pattern are cut from the whole of it: their texts, joined, are the pattern.
#[tactic(auto, using(crate::proofs::JoinLemmas::tokens_are_the_pattern))]
pub fn tokens_are_the_pattern()
    ensures { TokensAreThePattern }
{}

/// The closed part of a path, read as a pattern, has exactly the path's tokens before the first open `[`. After it
/// comes the path's open part.
#[tactic(auto, using(crate::proofs::ClosedPartLemmas::closed_is_cut_alike, crate::proofs::ClosedPartLemmas::part_and_rest))]
pub fn closed_part_is_cut_alike()
    ensures tokens { ClosedPartIsCutAlike }
    ensures rest { ClosedPartAndRest }
{}

/// If a path isn't live for a device, no longer path is.
pub fn dead_stays_dead()
    ensures { DeadStaysDead }
{}

/// If a path isn't live for a device, no pattern that begins with it matches the device.
#[tactic(auto, using(crate::proofs::GrowthLemmas::match_front))]
pub fn dead_matches_nothing()
    ensures { DeadMatchesNothing }
{}

/// The computing test `matches` is true exactly if the tokens match.
#[tactic(auto, using(crate::proofs::LiveLemmas::matches_tested))]
pub fn matches_is_tested()
    ensures { MatchesIsTested }
{}

/// The computing test `is_live` is true exactly if the path is live.
#[tactic(auto, using(crate::proofs::LiveLemmas::live_tested))]
pub fn live_is_tested()
    ensures { LiveIsTested }
{}

/// Worked rows: what the definitions give when they are computed.
pub fn worked_rows()
    ensures cut { TokenRows }
    ensures closed { BracketRows }
    ensures matched { MatchRows }
    ensures starred { StarRows }
    ensures parted { ClosedRows }
    ensures live { LiveRows }
{}

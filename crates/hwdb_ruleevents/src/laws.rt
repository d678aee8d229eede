//! What is proved of the definitions alone. These functions do nothing: what each of them ensures is a law.
ghost use Rattle.hwdb_ruleevents.specs.Laws.{EventsAreCovered, EventsAreExact};
ghost use Rattle.hwdb_ruleevents.specs.Rows.{JumpRows, PropertyRows, TextRows, WrittenRows, ParentRows};

use hwdb_rulerun::{parents_are_so, told_is_so};

/// No lookup that the rules ask is missed, and each that is certain is asked.
pub fn events_are_covered()
    ensures { EventsAreCovered }
{
    told_is_so();
    parents_are_so();
}

/// If all that is told is certain, it is what the rules ask.
pub fn events_are_exact()
    ensures { EventsAreExact }
{
    told_is_so();
    parents_are_so();
}

/// Jumps.
#[tactic(auto, using(crate::proofs::EventRows::jump_rows_hold))]
pub fn jump_rows()
    ensures { JumpRows }
{}

/// Properties that rules set.
#[tactic(auto, using(crate::proofs::EventRows::property_rows_hold))]
pub fn property_rows()
    ensures { PropertyRows }
{}

/// The texts of commands.
#[tactic(auto, using(crate::proofs::EventRows::text_rows_hold))]
pub fn text_rows()
    ensures { TextRows }
{}

/// Attributes, as they are written into texts.
#[tactic(auto, using(crate::proofs::EventRows::written_rows_hold))]
pub fn written_rows()
    ensures { WrittenRows }
{}

/// The parent that a line chose.
#[tactic(auto, using(crate::proofs::EventRows::parent_rows_hold))]
pub fn parent_rows()
    ensures { ParentRows }
{}

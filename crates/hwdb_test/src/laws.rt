//! More about the definitions, in words of their own. These functions do nothing: what each of them ensures is a law.
ghost use Rattle.hwdb_test.specs.Laws.{CountingAreEffective, FailingIsTold, HoldingIsSilent, RecordedHolds, RecordedIsRead, ZeroIfAllHold};
ghost use Rattle.hwdb_test.specs.Rows.{AssignRows, FileRows, HoldRows, JsonRows, MalformedRows, TextRows};

use hwdb_query::explained_are_effective;

/// What is told of a device is its effective list.
pub fn counting_are_effective()
    ensures { CountingAreEffective }
{
    explained_are_effective();
}

/// A line that fails is told, and of one that holds nothing is said.
#[tactic(auto, using(crate::proofs::LawLemmas::failing_is_told, crate::proofs::LawLemmas::holding_is_silent))]
pub fn failing_is_told()
    ensures told { FailingIsTold }
    ensures silent { HoldingIsSilent }
{}

/// The status is 0 exactly if each wanted line holds.
#[tactic(auto, using(crate::proofs::LawLemmas::zero_if_all_hold))]
pub fn zero_if_all_hold()
    ensures { ZeroIfAllHold }
{}

/// A test file that says what a database gives some devices holds of it. What is read of it is a record for each device, in their order.
pub fn recorded_holds()
    ensures holds { RecordedHolds }
    ensures read { RecordedIsRead }
{
    counting_are_effective();
}

/// The definitions at worked rows.
pub fn worked_rows()
    ensures holds { HoldRows }
    ensures files { FileRows }
    ensures assigns { AssignRows }
    ensures malformed { MalformedRows }
    ensures texts { TextRows }
    ensures json { JsonRows }
{}

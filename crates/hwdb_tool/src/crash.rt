//! What a crash, a start and a query after it make of a run.
ghost use Rattle.hwdb_tool.specs.Crash.{CrashOfRunThenQuery, CrashThenQuery, FaultsLeaveAll, KillLeavesWhatStood, KillThenQuery, CrashThenQueryOfAll};

use hwdb_query::{compiled_answers_are_last, last_assignments_are_last};
use hwdb_system::System;

/// After a crash at any moment of a run, and a start, the database's place has what it might have had, or the new one.
/// A query of that prints for each key the value of the last assignment of the folders' files. Files that the run left out
/// don't count; it leaves out none without `--skip-unreadable`.
pub fn crash_then_query<D: System>(old: &D, new: &D)
    ensures crash { CrashThenQuery (D.may_fail old.now) (D.Store.may_leave old.now) }
    ensures of_all { CrashThenQueryOfAll (D.may_fail old.now) (D.Store.may_leave old.now) }
    ensures faults { FaultsLeaveAll (D.may_fail old.now) (D.Store.may_leave old.now) }
    ensures run { CrashOfRunThenQuery D.Store.moment D.Store.left_since D.Store.seen
        D.Store.may_leave (D.may_fail old.now) old.now new.now }
{
    compiled_answers_are_last();
    last_assignments_are_last();
}

/// A kill between two calls of a run leaves what was there then, which a crash at that moment may leave, too. So the
/// database's place has what it might have had before. Or a query prints for each key the value of the last assignment.
pub fn kill_then_query<D: System>(old: &D, middle: &D, new: &D)
    ensures stood { KillLeavesWhatStood D.Store.tells D.Store.moment D.Store.left_since
        D.Store.seen old.now middle.now new.now }
    ensures run { KillThenQuery D.Store.tells D.Store.moment D.Store.left_since D.Store.seen
        D.Store.may_leave (D.may_fail old.now) old.now middle.now new.now }
{
    crash_then_query(old, new);
}

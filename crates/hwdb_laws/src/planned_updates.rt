//! What two updates with the same words have in common. It follows from the laws of all plans. What is no update keeps all files.
ghost use Rattle.hwdb_laws.specs.PlannedUpdates.{PlannedCrashesKeepFiles, PlannedRunsKeepFiles, PlannedUpdateIsNoError, PlannedUpdatesAreOne, PlannedUpdatesEndInOneError};
ghost use Rattle.hwdb_spec_commands.specs.Runs.{files_by};

use hwdb_plan::{done_is_one, plans_end_alike};
use hwdb_system::System;

/// Over one input, two updates with the same words that are done have one status, and leave one database in place. Standard error takes one
/// text, if no file is left out. If one is done, the other one ends with an error only for want of memory, or since a write failed. If both end
/// with an error of what is read, it is one error, and no file changed.
pub fn planned_updates_are_one<D: System>(first: &D, first_then: &D, second: &D, second_then: &D)
    ensures one { let files = files_by D.Store.seen D.System.may_fail D.Store.may_leave
        D.Store.failures in PlannedUpdatesAreOne (files first.now) (files first_then.now)
        (files second.now) (files second_then.now) }
    ensures done { let files = files_by D.Store.seen D.System.may_fail D.Store.may_leave
        D.Store.failures in PlannedUpdateIsNoError (files first.now) (files first_then.now)
        (files second.now) (files second_then.now) }
    ensures error { let files = files_by D.Store.seen D.System.may_fail D.Store.may_leave
        D.Store.failures in PlannedUpdatesEndInOneError (files first.now) (files first_then.now)
        (files second.now) (files second_then.now) }
{
    done_is_one();
    plans_end_alike();
}

/// A run with words that have a plan changes no file, and a crash of it leaves what there was.
pub fn planned_runs_keep_files<D: System>(before: &D, now: &D)
    ensures kept { let files = files_by D.Store.seen D.System.may_fail D.Store.may_leave
        D.Store.failures in PlannedRunsKeepFiles (files before.now) (files now.now) }
    ensures crash { PlannedCrashesKeepFiles (D.Store.may_leave before.now) }
{}

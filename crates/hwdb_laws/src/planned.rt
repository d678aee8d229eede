//! What two runs with the same words have in common, if the words have a plan. It follows from the laws of all plans.
ghost use Rattle.hwdb_laws.specs.PlannedErrors.{PlannedErrorsAreOne};
ghost use Rattle.hwdb_laws.specs.PlannedRuns.{PlannedDoneIsNoError, PlannedRunsAreOne};

use hwdb_plan::{done_is_one, over_is_no_more, over_is_over, plans_end_alike};

/// Over one input, what words with a plan leave on both outputs is one, and so is the status, if no run of them ends with an error. If one run
/// of them ends with none, another one ends with an error only for want of memory, or since an output or standard input failed.
pub fn answers_are_one()
    ensures one { PlannedRunsAreOne }
    ensures done { PlannedDoneIsNoError }
{
    done_is_one();
    over_is_over();
    over_is_no_more();
}

/// Over one input, two runs of words with a plan that end with an error end with one, and both outputs have the same then. That is so of errors
/// that come of what is read: there was memory, and no call of an output or of standard input failed. Which fault of one database, or which reason of
/// files that are too much for one, is told is left open, and so are the system's words of a cause.
pub fn errors_are_one()
    ensures { PlannedErrorsAreOne }
{
    plans_end_alike();
    over_is_over();
    over_is_no_more();
}

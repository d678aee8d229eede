//! Which words have a plan: all that ask for a job, if they have no `--text`.
ghost use Rattle.hwdb_laws.specs.PlannedJobs.{JobsArePlanned, NoneHaveBoth};

/// Words that ask for a job without `--text` have a plan, or they ask for an update, which has plans of its own. No command is left out, and
/// no words have both.
pub fn jobs_are_planned()
    ensures each { JobsArePlanned }
    ensures one { NoneHaveBoth }
{}

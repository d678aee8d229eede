//! What two runs of the program with the same words have in common, and what an error of one says is so. Each function does nothing: its
//! contract is the law. No law has a case for a command.
ghost use Rattle.hwdb_laws.specs.ProgramRuns.{DoneJobIsNoError, InputIsLong, InputIsRead, JobsAreOne, JobsEndInOneError, LineIsLong};

use hwdb_plan::{done_is_one, over_is_no_more, over_is_over, plans_end_alike};

/// Two runs of the program with the same words, which begin in one world, end alike if what the words ask for is done in both: with one status,
/// and both outputs have the same. If it is done in one run, the other one ends with an error only for want of memory, or since an output or
/// standard input failed.
pub fn jobs_are_one()
    ensures one { JobsAreOne }
    ensures done { DoneJobIsNoError }
{
    done_is_one();
    over_is_over();
    over_is_no_more();
}

/// Two such runs that end with an error of what is read end with one status and one error, and before its line both outputs have the same.
pub fn words_end_in_one()
    ensures { JobsEndInOneError }
{
    plans_end_alike();
    over_is_over();
    over_is_no_more();
}

/// What an error says of standard input is so: a call of it failed, or it has more bytes than a file may have. Or a line of it that is to be
/// answered has. Or it is an error of a file with that name, with which the plan ends whatever standard input has.
pub fn input_errors_are_so()
    ensures read { InputIsRead }
    ensures long { InputIsLong }
    ensures line { LineIsLong }
{
    over_is_over();
    over_is_no_more();
}

//! Laws over definitions alone: rows of what they give when they are computed, with expected values from outside. And what follows from the
//! laws of all plans for the words of a run.
//!
//! A definition that computes can be turned together with its function, and no contract notices. A row does: its value is a standard's, or
//! of udev's own log, of a manual page, or worked out by hand. Nothing names this crate, so that no other one waits for it.
//!
//! | File of `specs/` | Rows of |
//! |---|---|
//! | `SysfsRows` | what a file system answers of sysfs |
//! | `FormRows` | the forms of strings that udev asks |
//! | `CheckRows` | what `check` says |
//! | `ChangeRows` | what `diff` says |
//! | `WantedRows` | what `test` says, and what `test --record` prints |
//! | `StatusRows` | what `status` says, and `update` without text files |
//! | `OverTextRows` | which words don't fit `--text` |
//! | `SaidRows` | what `verify`, `update --verbose`, `explain` and `near` say |
//! | `ErrorRows` | lines of errors, and what an error of a call is to the program |
//! | `AnswerRows` | what a database, or text files, answer |
//! | `CompareRows` | what `diff` prints of two databases |
//! | `ColourRows` | which bytes have which colour |
//! | `CommandRows` | what a command needs of its words |
//! | `PlaceRows` | where files are, and what calls of a store leave |
//! | `WordRows` | what is read of the command line |
//! | `DeviceRows` | what `device` prints |
//! | `TaskRows` | what tasks read, and what `explain --text` says besides |
//! | `PlanRows` | which plans words ask for |
//! | `OwnRulesRows` | which rules files `check --rules` reads, and which words it takes |
//! | `KeyRows` | keys with their codes, and which of them words ask for |
//!
//! `rows` shows them. `planned` shows `PlannedRuns` and `PlannedErrors`: two runs with the same words are one, if the words have a plan.
//! `planned_jobs` shows that all words that ask for a job have one, or ask for an update, and `planned_updates` that two updates are one.
//! `shown` shows what a terminal changes (`ShownPlans`). `program_runs` shows of runs of the program that they are one, and `told` that what is read for them follows from the contents.
#![tactic(auto)]

mod planned;
mod planned_jobs;
mod planned_updates;
mod program_runs;
mod rows;
mod shown;
mod told;

pub use planned::{answers_are_one, errors_are_one};
pub use planned_jobs::jobs_are_planned;
pub use planned_updates::{planned_runs_keep_files, planned_updates_are_one};
pub use program_runs::{input_errors_are_so, jobs_are_one, words_end_in_one};
pub use rows::{
    answer_rows, change_rows, check_rows, colour_rows, compare_rows, device_rows, error_rows,
    explain_rows, form_rows, key_rows, likely_rows, near_rows, over_text_rows, own_rules_rows,
    place_rows, plan_rows, status_rows, sysfs_rows, task_rows, update_rows, verify_rows,
    wanted_rows, word_rows,
};
pub use shown::{shown_is_plain, shown_rows};
pub use told::told_is_one;

//! What `program` does, by the words that it is given: the definitions of its contract, beside those of commands
//! (`hwdb_spec_commands`).
//!
//! `specs/` is read from top to bottom in this order.
//!
//! | File | Says |
//! |---|---|
//! | `Hiding` | what `update --usr --verbose` says if /etc's database hides the new one |
//! | `Words` | what words ask for |
//! | `NamedDatabases` | what errors of `verify` and `dump` say of the database |
//! | `NearErrors` | what is said of an error of `near` |
//! | `Tested` | what `test` prints of test files over a database |
//! | `TestErrors` | which errors come of trying test files |
//! | `DeviceErrors` | what `device` asks sysfs, and its errors |
//! | `HidingPlan` | that line as a plan, before the plans of an update |
//! | `GivenDatabases` | the databases that words name to `verify`, `dump` and `diff`: `-` is standard input |
//! | `ComparedDatabases` | what an error of `diff` says of a side |
//! | `Program` | what the program does, by the job that its words ask for |
//! | `TaskRefusals` | which errors end a task, and what each leaves: the promise of `program` |
//! | `ProgramPlan` | the plan of a run, as its words compute it |
//! | `Rows` | what some of these give: nobody has to believe them |
#![tactic(auto)]

mod rows;

pub use rows::hiding_rows;

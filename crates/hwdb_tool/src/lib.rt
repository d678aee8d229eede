//! The program `hwdb`: a module for each command, and `program`, which does what the words ask for.
//!
//! | Module | What it does |
//! |---|---|
//! | `dispatch` | the program: which task its words ask for, its status and its error lines |
//! | `verb` | what each command does by the words after its name; `answer`: what it prints, and its status |
//! | `printing` | the one place where that is printed |
//! | `outlet` | where standard output goes to: a sink whose reader may go away |
//! | `coloured` | one that shows what it takes in colour, and as a terminal is shown it |
//! | `advising` | what is said on a terminal if a command prints nothing; `kept`: its texts until that is known |
//! | `update_command` | `update`; `progress`: what it says of its files; `hiding`: of a database that hides the new one; `emptied`: of one that is lost |
//! | `query_command` | `query` and `explain`, of the devices of the words or of standard input; `in_parts`: of a database whose strings alone are held |
//! | `answers` | `list` and `ask` |
//! | `input_devices` | `query -` and `explain -`: the devices that standard input names |
//! | `reloading` | the database that answers them, and the one that replaces it |
//! | `check_command` | `check` |
//! | `check_rules` | `check --rules` |
//! | `test_command` | `test`; `record_command`: `test --record` |
//! | `near_command` | `near` |
//! | `device_command` | `device`; `missing`: what is said if there is no sysfs, or no such device |
//! | `every_device` | `device --all` |
//! | `reported` | `device --from`: an export of udev's database in place of sysfs |
//! | `diff_command` | `diff` |
//! | `verify_command` | `verify`; `verdicts`: its words on bytes that are no database |
//! | `dump_command` | `dump` |
//! | `keys_command` | `keys` |
//! | `scan_command` | `scan` |
//! | `status_command` | `status`; `commands`: the command that makes a database anew |
//! | `over_text` | `--text`: the text files in place of a database; `besides`: what `explain` tells of them that no database can |
//! | `databases` | the database that a command asks for |
//! | `given` | files that words name, or standard input |
//! | `given_folders` | the text files that the paths of `check` mean |
//! | `laws` | what an update and a query after it say together, and that the order of a listing doesn't matter |
//! | `crash` | what a crash, a start and a query make of a run |
//! | `failures` | what failed calls and faulty words leave undone, and what comes before a job is done |
//!
//! What the tasks ask of a file system is in `hwdb_system`, what they print in `hwdb_answers`, and their devices are in `hwdb_io`. The
//! calls of these are here too.
#![tactic(auto)]

mod advising;
mod answer;
mod answers;
mod besides;
mod check_command;
mod check_rules;
mod coloured;
mod commands;
mod crash;
mod databases;
mod device_command;
mod diff_command;
mod dispatch;
mod dump_command;
mod emptied;
mod every_device;
mod failures;
mod given;
mod given_folders;
mod hiding;
mod in_parts;
mod input_devices;
mod kept;
mod keys_command;
mod laws;
mod missing;
mod near_command;
mod outlet;
mod over_text;
mod printing;
mod progress;
mod query_command;
mod record_command;
mod reloading;
mod reported;
mod rules_device;
mod scan_command;
mod sides;
mod status_command;
mod test_command;
mod update_command;
mod verb;
mod verdicts;
mod verify_command;

pub use answer::Answer;
pub use answers::{ask_file, list};
pub use check_command::check;
pub use coloured::{Coloured, kind_of, terminals_get_no_control, write_shown};
pub use crash::{crash_then_query, kill_then_query};
pub use device_command::{device, device_form};
pub use diff_command::{DiffAsked, diff};
pub use dispatch::program;
pub use dump_command::dump;
pub use every_device::devices;
pub use failures::{counts_tell_failures, faultless_words_begin, faulty_update_leaves_all};
pub use hiding::update_telling;
pub use hwdb_answers::{ToolError, ask, run_list, run_query, run_update};
pub use hwdb_check::{KINDS, RULE_KINDS};
pub use hwdb_cli::{Job, Task, WordsFault, diff_fault, format_fault, kind_fault, read_words};
pub use hwdb_io::{
    Cause, DeviceFailed, FromRead, Sink, Source, ToWrite, read_all, testing, write_text,
};
pub use hwdb_scan::scanned_path;
pub use hwdb_spec_commands::TextKind;
pub use hwdb_system::{Refusal, System, SystemStore, open_below};
pub use laws::{listings_give_one_reading, update_then_query};
pub use near_command::near;
pub use outlet::Outlet;
pub use over_text::text_shows_over;
pub use query_command::{Lookup, look_up};
pub use record_command::record;
pub use status_command::status;
pub use test_command::test;
pub use verb::root_of;
pub use verify_command::verify;

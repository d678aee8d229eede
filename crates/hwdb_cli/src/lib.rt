//! The command line of `hwdb`: what its words ask for.
//!
//! A command has a module of its name: its words, as `clap` is given them, and how its task is read off `clap`'s matches.
//! `command` puts them together, after systemd-hwdb(8), and `args` reads a job. `drafts` and `matched` have what several
//! commands need. `tips` leaves out what misleads in the text of a fault, and `help` the options that do nothing for a command.
//! `kinds` says which word after `--allow` or `--format` names none.
#![tactic(auto)]

mod args;
mod ask;
mod check;
mod command;
mod device;
mod diff;
mod drafts;
mod dump;
mod explain;
mod help;
mod keys;
mod kinds;
mod list;
mod matched;
mod near;
mod query;
mod scan;
mod status;
mod test;
mod tips;
mod update;
mod verify;

pub use args::read_words;
pub use command::hwdb_command;
pub use hwdb_spec_commands::{
    AskArgs, CheckArgs, DeviceArgs, DiffArgs, DumpArgs, ExplainArgs, Job, KeysArgs, ListArgs,
    NearArgs, QueryArgs, RecordArgs, ReviewArgs, ScanArgs, StatusArgs, Task, TestArgs, UpdateArgs,
    VerifyArgs, WordsFault,
};
pub use kinds::{diff_fault, format_fault, kind_fault};

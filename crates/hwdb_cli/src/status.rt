//! `status`: its words, and its task.
ghost use Rattle.std.specs.Prelude.{codes};
ghost use Rattle.clap.specs.Walk.{rows_of};
ghost use Rattle.clap.specs.Matches.{found_of};
ghost use Rattle.hwdb_cli.specs.Drafts.{IsDraft};
ghost use Rattle.hwdb_spec_commands.specs.Jobs.{IsTask};
ghost use Rattle.hwdb_spec_commands.specs.CommandLine.{status_app};

use crate::drafts::{Draft, json_option, shared, with_argument};
use crate::matched::has_flag;
use clap::ArgMatches;
use hwdb_spec_commands::{StatusArgs, Task};
use std::alloc::{AllocError, Global};

/// What the short help says of it.
pub const SHORT: &str = "says whether the database is what the text files make";

/// What help begins with.
const ABOUT: &str = "Says which database is asked, and whether it is what the text files make";

/// What help ends with.
const AFTER: &str =
    "Exit status: 0 if it is and hides none; 1 if it isn't, hides one or there is none, and on errors.\nExample: hwdb status";

/// The command.
pub fn command<'a>(alloc: Global) -> Draft<'a>
    ensures { IsDraft status_app result }
{
    let command = shared(alloc, "status", ABOUT, AFTER);
    with_argument(command, json_option(alloc))
}

/// The task of `status`.
pub fn task(inner: &ArgMatches<'_>) -> Task
    ensures { IsTask (codes "status") (rows_of (found_of inner.now)) result }
{
    let json = has_flag(inner, "json");
    Task::Status(StatusArgs { json })
}

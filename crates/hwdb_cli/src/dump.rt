//! `dump`: its words, and its task.
ghost use Rattle.std.specs.Prelude.{IfOk, codes};
ghost use Rattle.clap.specs.Walk.{rows_of};
ghost use Rattle.clap.specs.Matches.{found_of};
ghost use Rattle.hwdb_cli.specs.Drafts.{IsDraft};
ghost use Rattle.hwdb_spec_commands.specs.Jobs.{IsTask};
ghost use Rattle.hwdb_spec_commands.specs.CommandLine.{dump_app};

use crate::drafts::{Draft, database_argument, shared, text_option, with_argument};
use crate::matched::{copied, text_of};
use clap::ArgMatches;
use hwdb_spec_commands::{DumpArgs, Task};
use std::alloc::{AllocError, Global};

/// What the short help says of it.
pub const SHORT: &str = "prints a database as a text file";

/// What help begins with.
const ABOUT: &str = "Prints a database as a text file";

/// What help ends with.
const AFTER: &str = "Exit status: 0 on success, 1 on errors.\nExample: hwdb dump > all.hwdb";

/// The command.
pub fn command<'a>(alloc: Global) -> Draft<'a>
    ensures { IsDraft dump_app result }
{
    let command = shared(alloc, "dump", ABOUT, AFTER);
    let with_text = with_argument(command, text_option(alloc));
    with_argument(with_text, database_argument(alloc))
}

/// The task of `dump`.
pub fn task(alloc: Global, inner: &ArgMatches<'_>) -> Result<Task, AllocError>
    ensures { IfOk result (IsTask (codes "dump") (rows_of (found_of inner.now))) }
{
    let database = copied(alloc, text_of(inner, "DATABASE"))?;
    Ok(Task::Dump(DumpArgs { database }))
}

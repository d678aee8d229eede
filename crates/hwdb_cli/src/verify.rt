//! `verify`: its words, and its task.
ghost use Rattle.std.specs.Prelude.{◌≡◌, IfOk, codes, option_map};
ghost use Rattle.clap.specs.Walk.{rows_of};
ghost use Rattle.clap.specs.Matches.{found_of};
ghost use Rattle.hwdb_cli.specs.Drafts.{IsDraft};
ghost use Rattle.hwdb_spec_commands.specs.Jobs.{IsTask, word_misfit};
ghost use Rattle.hwdb_spec_commands.specs.CommandLine.{verify_app};

use crate::drafts::{Draft, database_argument, shared, text_option, with_argument};
use crate::matched::{copied, text_of};
use clap::ArgMatches;
use hwdb_spec_commands::{Task, VerifyArgs};
use std::alloc::{AllocError, Global};

/// What the short help says of it.
pub const SHORT: &str = "says whether a file is a database";

/// What help begins with.
const ABOUT: &str = "Says whether a file is a database that can be read, and how much is in it";

/// What help ends with.
const AFTER: &str =
    "Exit status: 0 if it is a database; 1 if it is none, and on errors.\nExample: hwdb verify /etc/udev/hwdb.bin";

/// The command.
pub fn command<'a>(alloc: Global) -> Draft<'a>
    ensures { IsDraft verify_app result }
{
    let command = shared(alloc, "verify", ABOUT, AFTER);
    let with_text = with_argument(command, text_option(alloc));
    with_argument(with_text, database_argument(alloc))
}

/// The task of `verify`.
pub fn task(alloc: Global, inner: &ArgMatches<'_>) -> Result<Task, AllocError>
    ensures { IfOk result (IsTask (codes "verify") (rows_of (found_of inner.now))) }
{
    let database = copied(alloc, text_of(inner, "DATABASE"))?;
    Ok(Task::Verify(VerifyArgs { database }))
}

/// What is said of a database beside `--text`, also for `dump`.
pub fn misfit(inner: &ArgMatches<'_>) -> Option<&'static str>
    ensures { option_map (λ t. t.now) result ≡ word_misfit (rows_of (found_of inner.now)) }
{
    match text_of(inner, "DATABASE") {
        Some(_) => Some("--text and DATABASE are two sources: leave out one of them"),
        None => None,
    }
}

//! `update`: its words, and its task.
ghost use Rattle.std.specs.Prelude.{codes};
ghost use Rattle.clap.specs.Walk.{rows_of};
ghost use Rattle.clap.specs.Matches.{found_of};
ghost use Rattle.hwdb_cli.specs.Drafts.{IsDraft};
ghost use Rattle.hwdb_spec_commands.specs.Jobs.{IsTask};
ghost use Rattle.hwdb_spec_commands.specs.CommandLine.{update_app};

use crate::drafts::{Draft, flag, shared, with_argument};
use crate::matched::has_flag;
use clap::ArgMatches;
use hwdb_spec_commands::{Task, UpdateArgs};
use std::alloc::Global;

/// What the short help says of it.
pub const SHORT: &str = "compiles the text files into the database";

/// What help begins with.
const ABOUT: &str =
    "Compiles the text files of /etc/udev/hwdb.d and /usr/lib/udev/hwdb.d into /etc/udev/hwdb.bin";

/// What help ends with.
const AFTER: &str =
    "Exit status: 0 on success, 1 on errors, and with --strict if a line had a fault or a file was left out.\nWith --check that of 'hwdb status'.\nExample: hwdb --root /mnt update --strict";

/// The command.
pub fn command<'a>(alloc: Global) -> Draft<'a>
    ensures { IsDraft update_app result }
{
    let help = "Say which files are taken, and how many assignments they have";
    let skip_help = "Leave out a text file that can't be read, and say so";
    let check_help = "Write and say nothing: the status is that of 'hwdb status'";
    let command = shared(alloc, "update", ABOUT, AFTER);
    let with_verbose = with_argument(command, flag(alloc, "verbose", help));
    let with_skip = with_argument(with_verbose, flag(alloc, "skip-unreadable", skip_help));
    with_argument(with_skip, flag(alloc, "check", check_help))
}

/// The task of `update`.
pub fn task(inner: &ArgMatches<'_>) -> Task
    ensures { IsTask (codes "update") (rows_of (found_of inner.now)) result }
{
    if has_flag(inner, "check") {
        return Task::Fresh;
    }
    Task::Update(UpdateArgs {
        verbose: has_flag(inner, "verbose"),
        skip_unreadable: has_flag(inner, "skip-unreadable"),
    })
}

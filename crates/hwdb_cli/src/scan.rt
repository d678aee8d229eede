//! `scan`: its words, and its task.
ghost use Rattle.std.specs.Prelude.{IfOk, IfSome, codes};
ghost use Rattle.clap.specs.Walk.{one_of, rows_of};
ghost use Rattle.clap.specs.Matches.{found_of};
ghost use Rattle.hwdb_cli.specs.Drafts.{IsArgument, IsDraft};
ghost use Rattle.hwdb_spec_commands.specs.Jobs.{HasValue, IsLimit, IsNumber, IsTask};
ghost use Rattle.hwdb_spec_commands.specs.CommandLine.{count_rule, scan_app};

use crate::drafts::{Draft, needed_word, option, shared, with_argument};
use crate::matched::value_of;
use clap::builder::ValueParser;
use clap::{Arg, ArgAction, ArgMatches};
use hwdb_spec_commands::{ScanArgs, Task};
use std::alloc::{AllocError, Global};

/// What the short help says of it.
pub const SHORT: &str = "prints the scan code of each key that is pressed";

/// What help begins with.
const ABOUT: &str =
    "Prints the scan code of each key that is pressed on an input device, the key it makes, and the line to write for it";

/// What help ends with.
const AFTER: &str =
    "Exit status: 0 at the end of the input or after N keys, 1 on errors.\nExample: hwdb scan --count 1 event3";

/// The command.
pub fn command<'a>(alloc: Global) -> Draft<'a>
    ensures { IsDraft scan_app result }
{
    let help =
        "The device's node, as event3 or /dev/input/event3; a file of recorded events, or - for standard input";
    let command = shared(alloc, "scan", ABOUT, AFTER);
    let with_count = with_argument(command, count_option(alloc));
    with_argument(
        with_count,
        needed_word(alloc, "DEVICE", help, ArgAction::Set),
    )
}

/// `--count`.
fn count_option<'a>(alloc: Global) -> Arg<'a>
    ensures { IsArgument count_rule result }
{
    let help = "End after N keys";
    option(alloc, "count", "N", help).value_parser(ValueParser::unsigned(0, u64::MAX))
}

/// The number that `--count` gives.
fn count_of(inner: &ArgMatches<'_>) -> Option<u64>
    requires { IfSome (one_of (codes "count") (rows_of (found_of inner.now))) IsNumber }
    ensures { IsLimit (one_of (codes "count") (rows_of (found_of inner.now))) result }
{
    inner.get_one::<u64>("count")
}

/// The task of `scan`.
pub fn task(alloc: Global, inner: &ArgMatches<'_>) -> Result<Task, AllocError>
    requires device { HasValue (codes "DEVICE") (rows_of (found_of inner.now)) }
    requires count { IfSome (one_of (codes "count") (rows_of (found_of inner.now))) IsNumber }
    ensures { IfOk result (IsTask (codes "scan") (rows_of (found_of inner.now))) }
{
    let count = count_of(inner);
    let device = value_of(alloc, inner, "DEVICE")?;
    Ok(Task::Scan(ScanArgs { device, count }))
}

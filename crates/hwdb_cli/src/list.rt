//! `list`: its words, and its task.
ghost use Rattle.std.specs.Prelude.{IfOk, IfSome, codes};
ghost use Rattle.clap.specs.Walk.{one_of, rows_of};
ghost use Rattle.clap.specs.Matches.{found_of};
ghost use Rattle.hwdb_cli.specs.Drafts.{IsArgument, IsDraft};
ghost use Rattle.hwdb_spec_commands.specs.Jobs.{HasValue, IsLimit, IsNumber, IsTask};
ghost use Rattle.hwdb_spec_commands.specs.CommandLine.{limit_rule, list_app};

use crate::drafts::{
    Draft, device_argument, json_option, option, shared, text_option, with_argument,
};
use crate::matched::{copied, has_flag, text_of, value_of};
use clap::builder::ValueParser;
use clap::{Arg, ArgMatches};
use hwdb_spec_commands::{ListArgs, Task};
use std::alloc::{AllocError, Global};

/// What the short help says of it.
pub const SHORT: &str = "prints each assignment that matches a device";

/// What help begins with.
const ABOUT: &str =
    "Prints each assignment of the database that matches a device, with its position";

/// What help ends with.
const AFTER: &str =
    "Exit status: 0 on success, even if nothing matches; 1 on errors.\nExample: hwdb list --limit 10 --after 3:17:: usb:v1D6Bp0002";

/// The command.
pub fn command<'a>(alloc: Global) -> Draft<'a>
    ensures { IsDraft list_app result }
{
    let help = "Print only what stands after this position, as list prints it";
    let command = shared(alloc, "list", ABOUT, AFTER);
    let with_after = with_argument(command, option(alloc, "after", "POS", help));
    let with_limit = with_argument(with_after, limit_option(alloc));
    let with_text = with_argument(with_limit, text_option(alloc));
    let with_json = with_argument(with_text, json_option(alloc));
    with_argument(with_json, device_argument(alloc))
}

/// `--limit`.
fn limit_option<'a>(alloc: Global) -> Arg<'a>
    ensures { IsArgument limit_rule result }
{
    let help = "Print at most N lines; 0 prints nothing";
    option(alloc, "limit", "N", help).value_parser(ValueParser::unsigned(0, u64::MAX))
}

/// The number that `--limit` gives.
pub fn limit_of(inner: &ArgMatches<'_>) -> Option<u64>
    requires { IfSome (one_of (codes "limit") (rows_of (found_of inner.now))) IsNumber }
    ensures { IsLimit (one_of (codes "limit") (rows_of (found_of inner.now))) result }
{
    inner.get_one::<u64>("limit")
}

/// The task of `list`.
pub fn task(alloc: Global, inner: &ArgMatches<'_>) -> Result<Task, AllocError>
    requires device { HasValue (codes "MODALIAS") (rows_of (found_of inner.now)) }
    requires limit { IfSome (one_of (codes "limit") (rows_of (found_of inner.now))) IsNumber }
    ensures { IfOk result (IsTask (codes "list") (rows_of (found_of inner.now))) }
{
    let after = copied(alloc, text_of(inner, "after"))?;
    let limit = limit_of(inner);
    let device = value_of(alloc, inner, "MODALIAS")?;
    let json = has_flag(inner, "json");
    Ok(Task::List(ListArgs {
        after,
        limit,
        device,
        json,
    }))
}

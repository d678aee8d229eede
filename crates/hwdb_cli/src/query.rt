//! `query`: its words, and its task.
ghost use Rattle.std.specs.Prelude.{IfOk, codes};
ghost use Rattle.clap.specs.Walk.{rows_of};
ghost use Rattle.clap.specs.Matches.{found_of};
ghost use Rattle.hwdb_cli.specs.Drafts.{IsDraft};
ghost use Rattle.hwdb_spec_commands.specs.Jobs.{HasValue, IsTask};
ghost use Rattle.hwdb_spec_commands.specs.CommandLine.{query_app};

use crate::drafts::{Draft, flag, json_option, needed_word, shared, text_option, with_argument};
use crate::matched::{has_flag, values_of};
use clap::{ArgAction, ArgMatches};
use hwdb_spec_commands::{QueryArgs, Task};
use std::alloc::{AllocError, Global};

/// What the short help says of it.
pub const SHORT: &str = "prints the properties that a device gets";

/// What help begins with.
const ABOUT: &str = "Prints the properties that the database gives each device, as KEY=VALUE lines";

/// What help ends with.
const AFTER: &str =
    "If nothing is printed, hwdb near shows the patterns that almost match, and hwdb check what is wrong in text files.\nExit status: 0 on success, even if nothing matches; 1 on errors.\nExample: hwdb query usb:v1D6Bp0002";

/// The command.
pub fn command<'a>(alloc: Global) -> Draft<'a>
    ensures { IsDraft query_app result }
{
    let help =
        "The device strings, or - for the lines of standard input; one that begins with - stands after --";
    let command = shared(alloc, "query", ABOUT, AFTER);
    let with_text = with_argument(command, text_option(alloc));
    let reload = "With -, read a database that was replaced anew, before the next line is answered";
    let with_reload = with_argument(with_text, flag(alloc, "reload", reload));
    let with_json = with_argument(with_reload, json_option(alloc));
    let devices = needed_word(alloc, "MODALIAS", help, ArgAction::Append);
    with_argument(with_json, devices)
}

/// The task of `query`.
pub fn task(alloc: Global, inner: &ArgMatches<'_>) -> Result<Task, AllocError>
    requires { HasValue (codes "MODALIAS") (rows_of (found_of inner.now)) }
    ensures { IfOk result (IsTask (codes "query") (rows_of (found_of inner.now))) }
{
    let devices = values_of(alloc, inner, "MODALIAS")?;
    let json = has_flag(inner, "json");
    Ok(Task::Query(QueryArgs { devices, json }))
}

//! `explain`: its words, and its task.
ghost use Rattle.std.specs.Prelude.{IfOk, codes};
ghost use Rattle.clap.specs.Walk.{rows_of};
ghost use Rattle.clap.specs.Matches.{found_of};
ghost use Rattle.hwdb_cli.specs.Drafts.{IsDraft};
ghost use Rattle.hwdb_spec_commands.specs.Jobs.{HasValue, IsTask};
ghost use Rattle.hwdb_spec_commands.specs.CommandLine.{explain_app};

use crate::drafts::{Draft, json_option, needed_word, shared, text_option, with_argument};
use crate::matched::{has_flag, value_of};
use clap::{ArgAction, ArgMatches};
use hwdb_spec_commands::{ExplainArgs, Task};
use std::alloc::{AllocError, Global};

/// What the short help says of it.
pub const SHORT: &str = "prints them, and where each comes from";

/// What help begins with.
const ABOUT: &str =
    "Prints the properties that the database gives a device, and where each comes from";

/// What help ends with.
const AFTER: &str =
    "With --text it also says which matching lines a later one replaced, and which files are masked.\nExit status: 0 on success, even if nothing matches; 1 on errors.\nExample: hwdb explain usb:v1D6Bp0002";

/// The command.
pub fn command<'a>(alloc: Global) -> Draft<'a>
    ensures { IsDraft explain_app result }
{
    let help =
        "The device string, or - for the lines of standard input; one that begins with - stands after --";
    let command = shared(alloc, "explain", ABOUT, AFTER);
    let with_text = with_argument(command, text_option(alloc));
    let with_json = with_argument(with_text, json_option(alloc));
    let device = needed_word(alloc, "MODALIAS", help, ArgAction::Set);
    with_argument(with_json, device)
}

/// The task of `explain`.
pub fn task(alloc: Global, inner: &ArgMatches<'_>) -> Result<Task, AllocError>
    requires { HasValue (codes "MODALIAS") (rows_of (found_of inner.now)) }
    ensures { IfOk result (IsTask (codes "explain") (rows_of (found_of inner.now))) }
{
    let device = value_of(alloc, inner, "MODALIAS")?;
    let json = has_flag(inner, "json");
    Ok(Task::Explain(ExplainArgs { device, json }))
}

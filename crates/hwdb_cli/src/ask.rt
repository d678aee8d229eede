//! `ask`: its words, and its task.
ghost use Rattle.std.specs.Prelude.{IfOk, codes};
ghost use Rattle.clap.specs.Walk.{rows_of};
ghost use Rattle.clap.specs.Matches.{found_of};
ghost use Rattle.hwdb_cli.specs.Drafts.{IsDraft};
ghost use Rattle.hwdb_spec_commands.specs.Jobs.{HasValue, IsTask};
ghost use Rattle.hwdb_spec_commands.specs.CommandLine.{ask_app};

use crate::drafts::{Draft, device_argument, needed_word, shared, with_argument};
use crate::matched::value_of;
use clap::{ArgAction, ArgMatches};
use hwdb_spec_commands::{AskArgs, Task};
use std::alloc::{AllocError, Global};

/// What the short help says of it.
pub const SHORT: &str = "prints the properties that one text file gives";

/// What help begins with.
const ABOUT: &str = "Prints the properties that one text file gives a device, as KEY=VALUE lines";

/// What help ends with.
const AFTER: &str =
    "If nothing is printed, hwdb near shows the patterns that almost match, and hwdb check what is wrong in text files.\nExit status: 0 on success, even if nothing matches; 1 on errors.\nExample: hwdb ask 60-keyboard.hwdb evdev:input:b0003v04B3p3018";

/// The command.
pub fn command<'a>(alloc: Global) -> Draft<'a>
    ensures { IsDraft ask_app result }
{
    let help = "A text file, or - for standard input; the root doesn't change its path";
    let command = shared(alloc, "ask", ABOUT, AFTER);
    let file = needed_word(alloc, "FILE", help, ArgAction::Set);
    let with_file = with_argument(command, file);
    with_argument(with_file, device_argument(alloc))
}

/// The task of `ask`.
pub fn task(alloc: Global, inner: &ArgMatches<'_>) -> Result<Task, AllocError>
    requires file { HasValue (codes "FILE") (rows_of (found_of inner.now)) }
    requires device { HasValue (codes "MODALIAS") (rows_of (found_of inner.now)) }
    ensures { IfOk result (IsTask (codes "ask") (rows_of (found_of inner.now))) }
{
    let file = value_of(alloc, inner, "FILE")?;
    let device = value_of(alloc, inner, "MODALIAS")?;
    Ok(Task::Ask(AskArgs { file, device }))
}

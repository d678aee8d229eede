//! `keys`: its words, and its task.
ghost use Rattle.std.specs.Prelude.{IfOk, codes};
ghost use Rattle.clap.specs.Walk.{rows_of};
ghost use Rattle.clap.specs.Matches.{found_of};
ghost use Rattle.hwdb_cli.specs.Drafts.{IsDraft};
ghost use Rattle.hwdb_spec_commands.specs.Jobs.{IsTask};
ghost use Rattle.hwdb_spec_commands.specs.CommandLine.{keys_app};

use crate::drafts::{Draft, json_option, shared, with_argument, word};
use crate::matched::{any_values_of, has_flag};
use clap::{ArgAction, ArgMatches};
use hwdb_spec_commands::{KeysArgs, Task};
use std::alloc::{AllocError, Global};

/// What the short help says of it.
pub const SHORT: &str = "prints the keys that KEYBOARD_KEY_.. takes";

/// What help begins with.
const ABOUT: &str = "Prints the keys that a value of KEYBOARD_KEY_.. may be, each with its code";

/// What help ends with.
const AFTER: &str =
    "Exit status: 0 if a key was found, 1 if none was, and on errors.\nExample: hwdb keys super";

/// The command.
pub fn command<'a>(alloc: Global) -> Draft<'a>
    ensures { IsDraft keys_app result }
{
    let help =
        "A part of a key's name, or of a name that people use for it; without one all keys are printed";
    let command = shared(alloc, "keys", ABOUT, AFTER);
    let with_json = with_argument(command, json_option(alloc));
    with_argument(with_json, word(alloc, "WORD", help, ArgAction::Append))
}

/// The task of `keys`.
pub fn task(alloc: Global, inner: &ArgMatches<'_>) -> Result<Task, AllocError>
    ensures { IfOk result (IsTask (codes "keys") (rows_of (found_of inner.now))) }
{
    let words = any_values_of(alloc, inner, "WORD")?;
    let json = has_flag(inner, "json");
    Ok(Task::Keys(KeysArgs { words, json }))
}

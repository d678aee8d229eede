//! `test`: its words, and its task; and that of `test --record`.
ghost use Rattle.std.specs.Prelude.{◌≡◌, IfOk, codes, option_map};
ghost use Rattle.clap.specs.Walk.{rows_of};
ghost use Rattle.clap.specs.Matches.{found_of};
ghost use Rattle.hwdb_cli.specs.Drafts.{IsArgument, IsDraft};
ghost use Rattle.hwdb_spec_commands.specs.Jobs.{HasValue, IsTask, option_misfit};
ghost use Rattle.hwdb_spec_commands.specs.CommandLine.{database_option_rule, test_app};

use crate::drafts::{
    Draft, flag, json_option, needed_word, option, shared, text_option, with_argument,
};
use crate::matched::{copied, has_flag, text_of, values_of};
use clap::{Arg, ArgAction, ArgMatches};
use hwdb_spec_commands::{RecordArgs, Task, TestArgs};
use std::alloc::{AllocError, Global};

/// What the short help says of it.
pub const SHORT: &str = "says whether devices get what test files want";

/// What help begins with.
const ABOUT: &str = "Says whether a database gives devices the properties that test files want";

/// What help ends with.
const AFTER: &str =
    "With --record the words are device strings. A lone - stands for those of standard input, a line each.\nExit status: 0 if each wanted line holds; 1 if one doesn't, and on errors.\nExample: hwdb test --database new.bin keyboard.test";

/// The command.
pub fn command<'a>(alloc: Global) -> Draft<'a>
    ensures { IsDraft test_app result }
{
    let help = "A test file, or - for standard input";
    let record_help = "Print a test file of what the devices have, which holds";
    let command = shared(alloc, "test", ABOUT, AFTER);
    let with_record = with_argument(command, flag(alloc, "record", record_help));
    let with_database = with_argument(with_record, database_option(alloc));
    let with_text = with_argument(with_database, text_option(alloc));
    let with_json = with_argument(with_text, json_option(alloc));
    let files = needed_word(alloc, "FILE", help, ArgAction::Append);
    with_argument(with_json, files)
}

/// `--database`.
fn database_option<'a>(alloc: Global) -> Arg<'a>
    ensures { IsArgument database_option_rule result }
{
    let help = "Ask this database, in place of that of /etc/udev or /usr/lib/udev";
    option(alloc, "database", "DATABASE", help)
}

/// The task of `test`, or of `test --record`.
pub fn task(alloc: Global, inner: &ArgMatches<'_>) -> Result<Task, AllocError>
    requires { HasValue (codes "FILE") (rows_of (found_of inner.now)) }
    ensures { IfOk result (IsTask (codes "test") (rows_of (found_of inner.now))) }
{
    let words = values_of(alloc, inner, "FILE")?;
    let database = copied(alloc, text_of(inner, "database"))?;
    let json = has_flag(inner, "json");
    if has_flag(inner, "record") {
        return Ok(Task::Record(RecordArgs {
            devices: words,
            database,
            json,
        }));
    }
    Ok(Task::Test(TestArgs {
        files: words,
        database,
        json,
    }))
}

/// What is said of a database beside `--text`.
pub fn misfit(inner: &ArgMatches<'_>) -> Option<&'static str>
    ensures { option_map (λ t. t.now) result ≡ option_misfit (rows_of (found_of inner.now)) }
{
    match text_of(inner, "database") {
        Some(_) => Some("--text and --database are two sources: leave out one of them"),
        None => None,
    }
}

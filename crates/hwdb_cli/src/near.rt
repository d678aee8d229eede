//! `near`: its words, and its task.
ghost use Rattle.std.specs.Prelude.{◌≡◌, IfOk, IfSome, codes, option_map};
ghost use Rattle.clap.specs.Walk.{one_of, rows_of};
ghost use Rattle.clap.specs.Matches.{found_of};
ghost use Rattle.hwdb_cli.specs.Drafts.{IsArgument, IsDraft};
ghost use Rattle.hwdb_spec_commands.specs.Jobs.{HasValue, IsNumber, IsTask, files_misfit};
ghost use Rattle.hwdb_spec_commands.specs.CommandLine.{limit_rule, near_app};

use crate::drafts::{Draft, json_option, needed_word, option, shared, text_option, with_argument};
use crate::list::limit_of;
use crate::matched::{has_flag, value_count, values_of};
use clap::builder::ValueParser;
use clap::{Arg, ArgAction, ArgMatches};
use hwdb_spec_commands::{NearArgs, Task};
use std::alloc::{AllocError, Global};

/// What the short help says of it.
pub const SHORT: &str = "prints the patterns that almost matched a device";

/// What help begins with.
const ABOUT: &str =
    "Prints the patterns that match a device, and the nearest that don't, with the place where each stops";

/// What help ends with.
const AFTER: &str =
    "Exit status: 0 on success, even if there is no pattern; 1 on errors.\nExample: hwdb near 60-keyboard.hwdb usb:v1D6Bp0002";

/// What help says of its words.
pub const ARGUMENTS: &str =
    "  [FILE]...   Text files, or - for standard input; without one the database is asked\n  <MODALIAS>  The device string";

/// The command.
pub fn command<'a>(alloc: Global) -> Draft<'a>
    ensures { IsDraft near_app result }
{
    let help = "Text files, and after them the device string";
    let command = shared(alloc, "near", ABOUT, AFTER);
    let with_limit = with_argument(command, limit_option(alloc));
    let with_text = with_argument(with_limit, text_option(alloc));
    let with_json = with_argument(with_text, json_option(alloc));
    let words = needed_word(alloc, "MODALIAS", help, ArgAction::Append);
    with_argument(with_json, words)
}

/// `--limit`.
fn limit_option<'a>(alloc: Global) -> Arg<'a>
    ensures { IsArgument limit_rule result }
{
    let help = "Print at most N patterns that don't match, in place of 3";
    option(alloc, "limit", "N", help).value_parser(ValueParser::unsigned(0, u64::MAX))
}

/// The task of `near`: of its words the last is the device, and the others are files.
pub fn task(alloc: Global, inner: &ArgMatches<'_>) -> Result<Task, AllocError>
    requires words { HasValue (codes "MODALIAS") (rows_of (found_of inner.now)) }
    requires limit { IfSome (one_of (codes "limit") (rows_of (found_of inner.now))) IsNumber }
    ensures { IfOk result (IsTask (codes "near") (rows_of (found_of inner.now))) }
{
    let mut files = values_of(alloc, inner, "MODALIAS")?;
    let device = files.pop().unwrap();
    let limit = limit_of(inner);
    let json = has_flag(inner, "json");
    Ok(Task::Near(NearArgs {
        files,
        device,
        limit,
        json,
    }))
}

/// What is said of files beside `--text`.
pub fn misfit(inner: &ArgMatches<'_>) -> Option<&'static str>
    ensures { option_map (λ t. t.now) result ≡ files_misfit (rows_of (found_of inner.now)) }
{
    if value_count(inner, "MODALIAS") > 1 {
        return Some("--text and FILE are two sources: leave out one of them");
    }
    None
}

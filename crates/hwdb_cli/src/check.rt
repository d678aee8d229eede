//! `check`: its words, and its task.
ghost use Rattle.std.specs.Prelude.{IfOk, codes};
ghost use Rattle.clap.specs.Walk.{rows_of};
ghost use Rattle.clap.specs.Matches.{found_of};
ghost use Rattle.hwdb_cli.specs.Drafts.{IsArgument, IsDraft};
ghost use Rattle.hwdb_spec_commands.specs.Jobs.{IsTask};
ghost use Rattle.hwdb_spec_commands.specs.CommandLine.{allow_rule, baseline_rule, check_app, diff_rule, format_rule, name_rule, rules_rule};

use crate::drafts::{Draft, flag, json_option, option, shared, with_argument, word};
use crate::matched::{any_values_of, copied, has_flag, text_of};
use clap::{Arg, ArgAction, ArgMatches};
use hwdb_spec_commands::{CheckArgs, Task};
use std::alloc::{AllocError, Global};

/// What the short help says of it.
pub const SHORT: &str = "says what is wrong in text files, or rules files";

/// What help begins with.
const ABOUT: &str =
    "Says what is wrong in text files and rules files, or hardly meant, and writes no database";

/// What help ends with.
const AFTER: &str =
    "Exit status: 0 if nothing is wrong; 1 if there is a fault, with --strict also if there is a warning; with --diff 1 if something can be mended; 2 on errors.\nExample: hwdb check 60-keyboard.hwdb";

/// The command.
pub fn command<'a>(alloc: Global) -> Draft<'a>
    ensures { IsDraft check_app result }
{
    let help =
        "A text file, a folder of them, a rules file (NAME.rules), or - for standard input; without one the text files of /etc/udev/hwdb.d and /usr/lib/udev/hwdb.d";
    let command = shared(alloc, "check", ABOUT, AFTER);
    let with_rules = with_argument(command, rules_option(alloc));
    let with_allow = with_argument(with_rules, allow_option(alloc));
    let with_baseline = with_argument(with_allow, baseline_option(alloc));
    let with_name = with_argument(with_baseline, name_option(alloc));
    let with_diff = with_argument(with_name, diff_option(alloc));
    let with_format = with_argument(with_diff, format_option(alloc));
    let with_json = with_argument(with_format, json_option(alloc));
    with_argument(with_json, word(alloc, "FILE", help, ArgAction::Append))
}

/// `--rules`.
fn rules_option<'a>(alloc: Global) -> Arg<'a>
    ensures { IsArgument rules_rule result }
{
    let help =
        "Check rules files: without FILE the system's own in udev/rules.d of /etc, /run, /usr/local/lib and /usr/lib; - is one, too";
    flag(alloc, "rules", help)
}

/// `--allow`.
fn allow_option<'a>(alloc: Global) -> Arg<'a>
    ensures { IsArgument allow_rule result }
{
    let help = "Leave out warnings of these kinds, with commas between; may come more than once";
    option(alloc, "allow", "KIND", help).action(ArgAction::Append)
}

/// `--baseline`.
fn baseline_option<'a>(alloc: Global) -> Arg<'a>
    ensures { IsArgument baseline_rule result }
{
    let help =
        "Leave out what this file has, which check --json printed once, as often as it is there";
    option(alloc, "baseline", "FILE", help)
}

/// `--name`.
fn name_option<'a>(alloc: Global) -> Arg<'a>
    ensures { IsArgument name_rule result }
{
    let help = "The path that findings of standard input have";
    option(alloc, "name", "NAME", help)
}

/// `--diff`.
fn diff_option<'a>(alloc: Global) -> Arg<'a>
    ensures { IsArgument diff_rule result }
{
    let help = "Print a patch of all sure mends instead, as patch -p0 and git apply -p0 take it";
    flag(alloc, "diff", help)
}

/// `--format`.
fn format_option<'a>(alloc: Global) -> Arg<'a>
    ensures { IsArgument format_rule result }
{
    let help =
        "Print findings as text, json, github (annotations) or sarif; --json is --format json";
    option(alloc, "format", "FORMAT", help)
}

/// The task of `check`.
pub fn task(alloc: Global, inner: &ArgMatches<'_>) -> Result<Task, AllocError>
    ensures { IfOk result (IsTask (codes "check") (rows_of (found_of inner.now))) }
{
    let files = any_values_of(alloc, inner, "FILE")?;
    let allowed = any_values_of(alloc, inner, "allow")?;
    let rules = has_flag(inner, "rules");
    let json = has_flag(inner, "json");
    let diff = has_flag(inner, "diff");
    let format = copied(alloc, text_of(inner, "format"))?;
    let name = copied(alloc, text_of(inner, "name"))?;
    let baseline = copied(alloc, text_of(inner, "baseline"))?;
    Ok(Task::Check(CheckArgs {
        files,
        rules,
        allowed,
        json,
        format,
        diff,
        name,
        baseline,
    }))
}

//! `diff`: its words, and its task.
ghost use Rattle.std.specs.Prelude.{◌≡◌, IfOk, codes};
ghost use Rattle.clap.specs.Simple.{App};
ghost use Rattle.clap.specs.Walk.{rows_of};
ghost use Rattle.clap.specs.Matches.{found_of};
ghost use Rattle.hwdb_cli.specs.Drafts.{IsArgument, IsDraft};
ghost use Rattle.hwdb_spec_commands.specs.Jobs.{HasValue, IsTask, review_of};
ghost use Rattle.hwdb_spec_commands.specs.CommandLine.{devices_option_rule, diff_app, values_rule, with_choice, with_review};
ghost use Rattle.hwdb_spec_commands.specs.Reviews.{review_in};

use crate::drafts::{Draft, flag, json_option, needed_word, option, shared, with_argument};
use crate::matched::{any_values_of, copied, has_flag, text_of, value_of};
use clap::{Arg, ArgAction, ArgMatches};
use hwdb_spec_commands::{DiffArgs, ReviewArgs, Task};
use std::alloc::{AllocError, Global};

/// What the short help says of it.
pub const SHORT: &str = "prints what changed between databases or text files";

/// What help begins with.
const ABOUT: &str =
    "Prints what changed from one database, text file, folder or root to another: assignments, or what devices get";

/// What help ends with.
const AFTER: &str =
    "Exit status: 0 if nothing changed, 1 if something did, 2 on errors.\nExample: hwdb diff --stat debian12/ debian13/";

/// What help says of a side.
const OLD: &str =
    "The old side: a database, or - for standard input, FILE.hwdb, a folder of such files, or a root";

/// What it says of `--samples`.
const SAMPLES: &str =
    "Compare what devices get that are made of the patterns of both sides, so that they show what changed";

/// The command.
pub fn command<'a>(alloc: Global) -> Draft<'a>
    ensures { IsDraft diff_app result }
{
    let command = shared(alloc, "diff", ABOUT, AFTER);
    let with_devices = with_argument(command, devices_option(alloc));
    let with_samples = with_argument(with_devices, flag(alloc, "samples", SAMPLES));
    let with_options = with_review(alloc, with_samples);
    let old = needed_word(alloc, "OLD", OLD, ArgAction::Set);
    let with_old = with_argument(with_options, old);
    let new = needed_word(alloc, "NEW", "The new one", ArgAction::Set);
    with_argument(with_old, new)
}

/// With the options that say which changes count.
fn with_choice<'a>(alloc: Global, command: Draft<'a>) -> Draft<'a>
    ensures { (app : App) → IsDraft app command.entry → IsDraft (with_choice app) result }
{
    let only_help = "Compare only files whose name matches this, as 60-*; may come more than once";
    let not_help = "Leave out files whose name matches this, as 20-*; may come more than once";
    let prefix_help =
        "Compare only patterns, or devices, that begin with this, as evdev:; may come more than once";
    let with_only = with_argument(command, globs_option(alloc, "only", "GLOB", only_help));
    let with_not = with_argument(with_only, globs_option(alloc, "not", "GLOB", not_help));
    with_argument(with_not, globs_option(alloc, "prefix", "TEXT", prefix_help))
}

/// With those that say how changes are told, too.
fn with_review<'a>(alloc: Global, command: Draft<'a>) -> Draft<'a>
    ensures { (app : App) → IsDraft app command.entry → IsDraft (with_review app) result }
{
    let verbose_help = "With --devices, say which changed assignments none of them meets";
    let stat_help = "Print how many assignments came, went and changed, by file and by key";
    let format_help =
        "Print changes grouped by record, as lines, one for each with its pattern, or as markdown: tables";
    let with_verbose = with_argument(command, flag(alloc, "verbose", verbose_help));
    let with_globs = with_choice(alloc, with_verbose);
    let with_stat = with_argument(with_globs, flag(alloc, "stat", stat_help));
    let with_format = with_argument(with_stat, option(alloc, "format", "FORMAT", format_help));
    with_argument(with_format, json_option(alloc))
}

/// `--devices`.
fn devices_option<'a>(alloc: Global) -> Arg<'a>
    ensures { IsArgument devices_option_rule result }
{
    let help =
        "Compare what the devices of a file get, a line each, or of - for standard input; may come more than once";
    option(alloc, "devices", "FILE", help).action(ArgAction::Append)
}

/// An option that may come more than once.
fn globs_option<'a>(alloc: Global, name: &'a str, value: &'a str, help: &'a str) -> Arg<'a>
    ensures { IsArgument (values_rule name.entry.now) result }
{
    option(alloc, name, value, help).action(ArgAction::Append)
}

/// How it is asked to compare.
fn review(alloc: Global, inner: &ArgMatches<'_>) -> Result<ReviewArgs, AllocError>
    ensures { IfOk result (λ r. review_in r ≡ review_of (rows_of (found_of inner.now))) }
{
    let format = copied(alloc, text_of(inner, "format"))?;
    let only = any_values_of(alloc, inner, "only")?;
    let without = any_values_of(alloc, inner, "not")?;
    let prefixes = any_values_of(alloc, inner, "prefix")?;
    Ok(ReviewArgs {
        json: has_flag(inner, "json"),
        stat: has_flag(inner, "stat"),
        format,
        verbose: has_flag(inner, "verbose"),
        samples: has_flag(inner, "samples"),
        only,
        without,
        prefixes,
    })
}

/// The task of `diff`.
pub fn task(alloc: Global, inner: &ArgMatches<'_>) -> Result<Task, AllocError>
    requires old { HasValue (codes "OLD") (rows_of (found_of inner.now)) }
    requires new { HasValue (codes "NEW") (rows_of (found_of inner.now)) }
    ensures { IfOk result (IsTask (codes "diff") (rows_of (found_of inner.now))) }
{
    let old = value_of(alloc, inner, "OLD")?;
    let new = value_of(alloc, inner, "NEW")?;
    let devices = any_values_of(alloc, inner, "devices")?;
    let review = review(alloc, inner)?;
    Ok(Task::Diff(DiffArgs {
        old,
        new,
        devices,
        review,
    }))
}

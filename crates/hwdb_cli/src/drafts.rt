//! A command while it is put together: its options and arguments, and those that several commands have.
ghost use Rattle.std.specs.Prelude.{Some, true};
ghost use Rattle.clap.specs.Walk.{Rule};
ghost use Rattle.clap.specs.Simple.{App, new_app, new_rule, with_rule, with_subcommand};
ghost use Rattle.hwdb_spec_commands.specs.CommandLine.{color_rule, database_rule, device_rule, json_rule, root_rule, strict_rule, text_rule, with_shared};
ghost use Rattle.hwdb_cli.specs.Drafts.{IsArgument, IsDraft};

use clap::{Arg, ArgAction, Command};
use std::alloc::{AllocError, Global};

/// A command, or that there was no memory to make it. What is added to one that wasn't made is let go. So a
/// command is written down without a way out after each of its parts.
pub type Draft<'a> = Result<Command<'a>, AllocError>;

/// The command with one more argument.
pub fn with_argument<'a>(draft: Draft<'a>, argument: Arg<'a>) -> Draft<'a>
    ensures { (a : App) (r : Rule) → IsDraft a draft.entry → IsArgument r argument.entry
        → IsDraft (with_rule a r) result }
{
    match draft {
        Ok(command) => command.arg(argument),
        Err(refused) => Err(refused),
    }
}

/// The command with one more subcommand.
pub fn with_command<'a>(draft: Draft<'a>, subcommand: Draft<'a>) -> Draft<'a>
    ensures { (a : App) (b : App) → IsDraft a draft.entry → IsDraft b subcommand.entry
        → IsDraft (with_subcommand a b.top) result }
{
    let command = draft?;
    command.subcommand(subcommand?)
}

/// An option without a value, `--name`.
pub fn flag<'a>(alloc: Global, name: &'a str, help: &'a str) -> Arg<'a>
    ensures { IsArgument
        (record (new_rule name.entry.now) {
          long = Some name.entry.now;
          action = Some ArgAction.SetTrue;
        }) result }
{
    Arg::new(alloc, name)
        .long(name)
        .help(help)
        .action(ArgAction::SetTrue)
}

/// An option with a value, `--name`; help calls its value `value`.
pub fn option<'a>(alloc: Global, name: &'a str, value: &'a str, help: &'a str) -> Arg<'a>
    ensures { IsArgument
        (record (new_rule name.entry.now) {
          value_names = 1;
          long = Some name.entry.now;
          action = Some ArgAction.Set;
        }) result }
{
    Arg::new(alloc, name)
        .long(name)
        .value_name(value)
        .help(help)
        .action(ArgAction::Set)
}

/// A word with a place, which may be left out.
pub fn word<'a>(alloc: Global, name: &'a str, help: &'a str, action: ArgAction) -> Arg<'a>
    ensures { IsArgument (record (new_rule name.entry.now) { action = Some action }) result }
{
    Arg::new(alloc, name).help(help).action(action)
}

/// A word that has to be there.
pub fn needed_word<'a>(alloc: Global, name: &'a str, help: &'a str, action: ArgAction) -> Arg<'a>
    ensures { IsArgument
        (record (new_rule name.entry.now) { required = true; action = Some action }) result }
{
    Arg::new(alloc, name)
        .help(help)
        .required(true)
        .action(action)
}

/// `--strict`.
fn strict_option<'a>(alloc: Global) -> Arg<'a>
    ensures { IsArgument strict_rule result }
{
    let help =
        "With update: end with status 1 if a line had a fault or a file was left out; with check: if there is a warning";
    flag(alloc, "strict", help).short('s')
}

/// `--root`.
fn root_option<'a>(alloc: Global) -> Arg<'a>
    ensures { IsArgument root_rule result }
{
    let help = "Put PATH in front of the paths of folders and databases";
    option(alloc, "root", "PATH", help).short('r')
}

/// `--color`.
fn color_option<'a>(alloc: Global) -> Arg<'a>
    ensures { IsArgument color_rule result }
{
    let help = "Color the output: auto, always or never; auto does so on a terminal";
    option(alloc, "color", "WHEN", help)
}

/// `--json`.
pub fn json_option<'a>(alloc: Global) -> Arg<'a>
    ensures { IsArgument json_rule result }
{
    flag(alloc, "json", "Print JSON, one object a line")
}

/// `--text`.
pub fn text_option<'a>(alloc: Global) -> Arg<'a>
    ensures { IsArgument text_rule result }
{
    let help =
        "Ask the text files of both folders, as update would compile them now, in place of a database";
    flag(alloc, "text", help)
}

/// The device.
pub fn device_argument<'a>(alloc: Global) -> Arg<'a>
    ensures { IsArgument device_rule result }
{
    let help = "The device string; one that begins with - stands after --";
    needed_word(alloc, "MODALIAS", help, ArgAction::Set)
}

/// The database, which may be left out.
pub fn database_argument<'a>(alloc: Global) -> Arg<'a>
    ensures { IsArgument database_rule result }
{
    let help =
        "A database, or - for standard input; without one that of /etc/udev, or of /usr/lib/udev";
    word(alloc, "DATABASE", help, ArgAction::Set)
}

/// A command with the options that are before and after its word; help begins with `about` and ends with `after`.
pub fn shared<'a>(alloc: Global, name: &'a str, about: &'a str, after: &'a str) -> Draft<'a>
    ensures { IsDraft (with_shared (new_app name.entry.now)) result }
{
    let command = Command::new(alloc, name).about(about).after_help(after);
    let usr = flag(alloc, "usr", "With update: write /usr/lib/udev/hwdb.bin");
    let with_usr = with_argument(Ok(command), usr);
    let with_strict = with_argument(with_usr, strict_option(alloc));
    let with_root = with_argument(with_strict, root_option(alloc));
    with_argument(with_root, color_option(alloc))
}

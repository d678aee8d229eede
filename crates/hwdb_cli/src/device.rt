//! `device`: its words, and its task.
ghost use Rattle.std.specs.Prelude.{◌≡◌, IfOk, codes, option_map};
ghost use Rattle.clap.specs.Walk.{rows_of};
ghost use Rattle.clap.specs.Matches.{found_of};
ghost use Rattle.hwdb_cli.specs.Drafts.{IsArgument, IsDraft};
ghost use Rattle.hwdb_spec_commands.specs.Jobs.{IsTask, list_misfit};
ghost use Rattle.hwdb_spec_commands.specs.CommandLine.{device_app, from_rule, udev_rule};

use crate::drafts::{Draft, flag, json_option, option, shared, text_option, with_argument, word};
use crate::matched::{copied, has_flag, text_of};
use clap::{Arg, ArgAction, ArgMatches};
use hwdb_spec_commands::{DeviceArgs, Task};
use std::alloc::{AllocError, Global};

/// What the short help says of it.
pub const SHORT: &str = "prints what udev asks for a device, and what it gets";

/// What help begins with.
const ABOUT: &str =
    "Prints the strings that udev asks the database for a device, and what each gives; without DEVICE lists the devices";

/// What help ends with.
const AFTER: &str =
    "Exit status: 0 on success, even if nothing is asked; 1 on errors.\nExample: hwdb device event3";

/// The command.
pub fn command<'a>(alloc: Global) -> Draft<'a>
    ensures { IsDraft device_app result }
{
    let why =
        "Tell of each line of the machine's own rules that asks whether it does, and what decides";
    let strings = "Print the strings alone, one a line";
    let pattern = "Print records to begin with, which fit the device; before --json and --strings";
    let all = "With --strings: print those of all devices, each once";
    let path = "A device: its name, as event3, its ids, as 046d:c31c, a part of what it is called, \
        its node below /dev, or its path below /sys";
    let command = shared(alloc, "device", ABOUT, AFTER);
    let with_from = with_argument(command, from_option(alloc));
    let with_udev = with_argument(with_from, udev_option(alloc));
    let with_why = with_argument(with_udev, flag(alloc, "why", why));
    let with_text = with_argument(with_why, text_option(alloc));
    let with_strings = with_argument(with_text, flag(alloc, "strings", strings));
    let with_json = with_argument(with_strings, json_option(alloc));
    let with_pattern = with_argument(with_json, flag(alloc, "pattern", pattern));
    let with_all = with_argument(with_pattern, flag(alloc, "all", all));
    with_argument(with_all, word(alloc, "DEVICE", path, ArgAction::Set))
}

/// `--from`.
fn from_option<'a>(alloc: Global) -> Arg<'a>
    ensures { IsArgument from_rule result }
{
    let help =
        "Take devices from a file in place of sysfs: what 'udevadm info --export-db' printed; - for standard input";
    option(alloc, "from", "FILE", help)
}

/// `--udev`.
fn udev_option<'a>(alloc: Global) -> Arg<'a>
    ensures { IsArgument udev_rule result }
{
    let help =
        "By which rules: the machine's own, system, or those of systemd 257 and 262, built-in; else its own if it has any";
    option(alloc, "udev", "WHICH", help)
}

/// The task of `device`.
pub fn task(alloc: Global, inner: &ArgMatches<'_>) -> Result<Task, AllocError>
    ensures { IfOk result (IsTask (codes "device") (rows_of (found_of inner.now))) }
{
    let path = copied(alloc, text_of(inner, "DEVICE"))?;
    let strings = has_flag(inner, "strings");
    let json = has_flag(inner, "json");
    let pattern = has_flag(inner, "pattern");
    let all = has_flag(inner, "all");
    let from = copied(alloc, text_of(inner, "from"))?;
    let udev = copied(alloc, text_of(inner, "udev"))?;
    let why = has_flag(inner, "why");
    Ok(Task::Device(DeviceArgs {
        path,
        strings,
        json,
        pattern,
        all,
        from,
        udev,
        why,
    }))
}

/// What is said of a list of devices with `--text`.
pub fn misfit(inner: &ArgMatches<'_>) -> Option<&'static str>
    ensures { option_map (λ t. t.now) result ≡ list_misfit (rows_of (found_of inner.now)) }
{
    if text_of(inner, "DEVICE").is_some() || has_flag(inner, "all") {
        return None;
    }
    Some("--text needs DEVICE or --all: a list of devices asks no database")
}

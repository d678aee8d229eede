//! Help: what `clap` says of a command, without options that do nothing for it; and a short one for a line without a
//! command.
use crate::{
    ask, check, device, diff, dump, explain, keys, list, near, query, scan, status, test, update,
    verify,
};
use std::alloc::{AllocError, Global};

/// What is said if no command is given, before the commands.
const MISSING: &str = "error: a command is missing

Usage: hwdb [OPTIONS] <COMMAND>

";

/// The same, after them.
const MORE: &str = "
For more information, try 'hwdb help', or 'hwdb help COMMAND'.
";

/// Each command, and what it does.
const COMMANDS: [(&str, &str); 15] = [
    ("update", update::SHORT),
    ("query", query::SHORT),
    ("explain", explain::SHORT),
    ("list", list::SHORT),
    ("near", near::SHORT),
    ("device", device::SHORT),
    ("ask", ask::SHORT),
    ("status", status::SHORT),
    ("check", check::SHORT),
    ("test", test::SHORT),
    ("diff", diff::SHORT),
    ("verify", verify::SHORT),
    ("dump", dump::SHORT),
    ("keys", keys::SHORT),
    ("scan", scan::SHORT),
];

/// How the usage begins, before the name that the program was called by.
const USAGE: &str = "Usage: ";

/// What comes after a command's name in its usage.
const OPTIONS: &str = " [OPTIONS]";

/// What comes after the program's name in the usage of all commands.
const ANY_COMMAND: &str = " [OPTIONS] <COMMAND>";

/// How the lines of the options begin that each command takes, but that don't do something for each.
const USR_LINE: &str = "      --usr ";

const STRICT_LINE: &str = "  -s, --strict ";

const COLOR_LINE: &str = "      --color ";

/// How the words of `near` are shown, of which the last is the device string.
const NEAR_WORDS: &str = "<MODALIAS>...";

/// The short help.
///
/// The only error is want of memory.
pub fn short_help(alloc: Global) -> Result<String, AllocError> {
    let mut text = String::from_str(alloc, MISSING)?;
    for (name, does) in COMMANDS {
        writeln!(text, "  {name:<7}  {does}")?;
    }
    text.push_str(MORE)?;
    Ok(text)
}

/// A command's help without the options that do nothing for it.
///
/// The only error is want of memory.
pub fn fitting_help(alloc: Global, text: &str) -> Result<String, AllocError> {
    let command = command_of(text);
    let mut shown = String::new(alloc);
    for line in text.split("\n") {
        if !is_idle(line, command) {
            push_line(&mut shown, line, command)?;
            shown.push_str("\n")?;
        }
    }
    // The text ends in a newline, and an empty line is after it.
    let _ = shown.pop();
    Ok(shown)
}

/// Adds a line of a command's help. `near` takes files and a device, which `clap` shows as words of one kind.
fn push_line(shown: &mut String, line: &str, command: &str) -> Result<(), AllocError> {
    if command != "near" {
        return shown.push_str(line);
    }
    match line.split_once(NEAR_WORDS) {
        Some(("  ", _)) => shown.push_str(near::ARGUMENTS),
        Some((before, after)) => {
            shown.push_str(before)?;
            shown.push_str("[FILE]... <MODALIAS>")?;
            shown.push_str(after)
        }
        None => shown.push_str(line),
    }
}

/// The command that the usage names: the last word before the options. It is empty in the help of all commands.
fn command_of(text: &str) -> &str {
    match text.split_once(USAGE) {
        Some((_, usage)) if !usage.contains(ANY_COMMAND) => match usage.split_once(OPTIONS) {
            Some((names, _)) => last_word(names),
            None => "",
        },
        _ => "",
    }
}

fn last_word(names: &str) -> &str {
    match names.rsplit_once(' ') {
        Some((_, last)) => last,
        None => names,
    }
}

/// Whether a line of help shows an option that does nothing for the command.
fn is_idle(line: &str, command: &str) -> bool {
    match command {
        "" => false,
        "update" => line.starts_with(COLOR_LINE),
        "check" => line.starts_with(USR_LINE),
        _ => line.starts_with(USR_LINE) || line.starts_with(STRICT_LINE),
    }
}

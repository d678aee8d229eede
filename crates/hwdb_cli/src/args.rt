//! What the words ask for, by the exact matches that `clap` finds.
ghost use Rattle.std.specs.Prelude.{◌≡◌, ◌≢◌, ◌⊎◌, ◌&&◌, IfErr, IfOk, None, [], codes, false, is_some, map, option_map, string_bytes, true};
ghost use Rattle.std.specs.Option.{option_or, unwrap_or};
ghost use Rattle.clap.specs.Walk.{first_of, rows_of};
ghost use Rattle.clap.specs.Matches.{found_of};
ghost use Rattle.clap.specs.Simple.{matches_of, subcommand_of};
ghost use Rattle.clap.specs.Takes.{takes};
ghost use Rattle.clap.specs.Faults.{fault_of};
ghost use Rattle.clap.specs.Values.{kind_of};
ghost use Rattle.hwdb_spec_commands.specs.CommandLine.{hwdb_app};
ghost use Rattle.hwdb_spec_commands.specs.Jobs.{IsCommand, IsJob, IsJobOf, IsTask, has_flag, text_taker};
ghost use Rattle.hwdb_spec_commands.specs.WordFaults.{IsToldOf, IsToldOfOne};
ghost use Rattle.hwdb_spec_commands.specs.declared.job.WordsFault.TheVariants.{Memory};

use crate::command::hwdb_command;
use crate::help::{fitting_help, short_help};
use crate::matched::{copied, has_flag, text_of};
use crate::tips::{with_command_tip, with_device_words, with_fitting_tip};
use crate::{
    ask, check, device, diff, dump, explain, keys, list, near, query, scan, status, test, update,
    verify,
};
use clap::error::ErrorKind;
use clap::{ArgMatches, Error};
use hwdb_spec_commands::{Job, Task, WordsFault};
use std::alloc::{AllocError, Global};

/// The task of the subcommand with its matches.
fn task_of(alloc: Global, name: &str, inner: &ArgMatches<'_>) -> Result<Task, AllocError>
    requires { IsCommand name.now (rows_of (found_of inner.now)) }
    ensures { IfOk result (IsTask name.now (rows_of (found_of inner.now))) }
{
    match name {
        "query" => query::task(alloc, inner),
        "explain" => explain::task(alloc, inner),
        "ask" => ask::task(alloc, inner),
        "list" => list::task(alloc, inner),
        "near" => near::task(alloc, inner),
        "device" => device::task(alloc, inner),
        "check" => check::task(alloc, inner),
        "test" => test::task(alloc, inner),
        "diff" => diff::task(alloc, inner),
        "verify" => verify::task(alloc, inner),
        "dump" => dump::task(alloc, inner),
        "keys" => keys::task(alloc, inner),
        "scan" => scan::task(alloc, inner),
        "status" => Ok(status::task(inner)),
        _ => Ok(update::task(inner)),
    }
}

/// Whether the command takes `--text`: if so, what is said of its other words if they don't fit that.
fn text_taker(name: &str, inner: &ArgMatches<'_>) -> Option<Option<&'static str>>
    ensures { option_map (λ m. option_map (λ t. t.now) m) result
        ≡ text_taker name.now (rows_of (found_of inner.now)) }
{
    match name {
        "query" | "explain" | "list" => Some(None),
        "near" => Some(near::misfit(inner)),
        "device" => Some(device::misfit(inner)),
        "test" => Some(test::misfit(inner)),
        "verify" | "dump" => Some(verify::misfit(inner)),
        _ => None,
    }
}

/// Whether the text files are asked, and what is said of other words that don't fit that.
fn text_asked(name: &str, inner: &ArgMatches<'_>) -> (bool, Option<&'static str>)
    ensures text { result.0 ≡ (is_some (text_taker name.now (rows_of (found_of inner.now)))
        && has_flag (codes "text") (rows_of (found_of inner.now))) }
    ensures misfit { option_map (λ t. t.now) result.1
        ≡ unwrap_or (text_taker name.now (rows_of (found_of inner.now))) None }
{
    match text_taker(name, inner) {
        Some(misfit) => (has_flag(inner, "text"), misfit),
        None => (false, None),
    }
}

/// A text that may be given before and after the command: the one after it counts first.
fn shared_text(
    alloc: Global,
    top: &ArgMatches<'_>,
    inner: &ArgMatches<'_>,
    id: &str,
) -> Result<Option<String>, AllocError>
    ensures { IfOk result (λ r. option_map string_bytes r
        ≡ option_or (first_of id.now (rows_of (found_of inner.now)))
        (first_of id.now (rows_of (found_of top.now)))) }
{
    match text_of(inner, id) {
        Some(text) => Ok(Some(String::from_str(alloc, text)?)),
        None => Ok(copied(alloc, text_of(top, id))?),
    }
}

/// The job of the whole command line.
fn job_of(
    alloc: Global,
    top: &ArgMatches<'_>,
    name: &str,
    inner: &ArgMatches<'_>,
) -> Result<Job, AllocError>
    requires { IsCommand name.now (rows_of (found_of inner.now)) }
    ensures { IfOk result
        (IsJob (rows_of (found_of top.now)) name.now (rows_of (found_of inner.now))) }
{
    let task = task_of(alloc, name, inner)?;
    let root = shared_text(alloc, top, inner, "root")?;
    let color = shared_text(alloc, top, inner, "color")?;
    let usr = has_flag(inner, "usr") || has_flag(top, "usr");
    let strict = has_flag(inner, "strict") || has_flag(top, "strict");
    let (text, misfit) = text_asked(name, inner);
    let reload = has_flag(inner, "reload");
    Ok(Job {
        usr,
        strict,
        text,
        misfit,
        reload,
        root,
        color,
        task,
    })
}

/// Whether what the words ask for is a text: help, or the version.
fn is_asked_for(kind: ErrorKind) -> bool
    ensures yes { result ≡ true
        → (kind ≡ ErrorKind.DisplayHelp) ⊎ (kind ≡ ErrorKind.DisplayVersion) }
    ensures no { result ≡ false
        → (kind ≢ ErrorKind.DisplayHelp) × (kind ≢ ErrorKind.DisplayVersion) }
{
    matches!(kind, ErrorKind::DisplayHelp | ErrorKind::DisplayVersion)
}

/// What is told of words that the command doesn't take.
fn refusal_of(alloc: Global, error: &Error, words: &[String]) -> WordsFault
    ensures memory { kind_of error.now ≡ ErrorKind.OutOfMemory → result ≡ Memory }
    ensures told { IsToldOf (kind_of error.now) result }
{
    match error.kind() {
        ErrorKind::OutOfMemory => WordsFault::Memory,
        kind => match text_of_fault(alloc, error, words) {
            Err(refused) => WordsFault::from(refused),
            Ok(text) if is_asked_for(kind) => WordsFault::Help { text },
            Ok(text) => WordsFault::Usage { text },
        },
    }
}

/// The text of help, of the version, or of a fault of the words.
fn text_of_fault(alloc: Global, error: &Error, words: &[String]) -> Result<String, AllocError>
    ensures { IfOk result (λ text. string_bytes text ≢ []) }
{
    let text = error.to_string(alloc)?;
    let told = match error.kind() {
        ErrorKind::DisplayHelp => fitting_help(alloc, text.as_str())?,
        ErrorKind::MissingSubcommand => short_help(alloc)?,
        ErrorKind::MissingRequiredArgument => with_device_words(alloc, text.as_str())?,
        ErrorKind::UnknownArgument => with_fitting_tip(alloc, text.as_str(), words)?,
        ErrorKind::InvalidSubcommand => with_command_tip(alloc, text.as_str())?,
        _ => text,
    };
    some_text(alloc, told)
}

/// The text, or where help is if it is empty: `clap` promises no text.
fn some_text(alloc: Global, text: String) -> Result<String, AllocError>
    ensures { IfOk result (λ text. string_bytes text ≢ []) }
{
    if text.is_empty() {
        return String::from_str(alloc, "For more information, try '--help'.\n");
    }
    Ok(text)
}

/// What the words ask for; the first is the program's name. Words that the command doesn't take give
/// `WordsFault::Usage` with a text that says why. `--help`, `help` and `--version` give `WordsFault::Help`. But `help`
/// with a word that names no command gives `WordsFault::Usage`.
pub fn read_words(alloc: Global, words: &[String]) -> Result<Job, WordsFault>
    ensures job { IfOk result
        (IsJobOf (matches_of hwdb_app (map string_bytes words.now))
        (subcommand_of hwdb_app (map string_bytes words.now))) }
    ensures whole { IfOk result (λ _. fault_of hwdb_app (map string_bytes words.now) ≡ []) }
    ensures told { IfErr result (IsToldOfOne (fault_of hwdb_app (map string_bytes words.now))) }
    ensures taken { IfErr result
        (λ e. takes hwdb_app (map string_bytes words.now) ≡ true → e ≡ Memory) }
{
    let command = hwdb_command(alloc)?;
    let matches = match command.try_get_matches_from(words) {
        Ok(matches) => matches,
        Err(error) => return Err(refusal_of(alloc, &error, words)),
    };
    match matches.subcommand() {
        Some((name, inner)) => {
            let job = job_of(alloc, &matches, name, inner)?;
            Ok(job)
        }
        None => unreachable!(),
    }
}

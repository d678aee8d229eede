//! `check --rules`: rules files that are read and looked over, of which the machine's own are found.
ghost use Rattle.std.specs.List.{list_any};
ghost use Rattle.std.specs.Prelude.{◌≡◌, false, is_some, map, option_map, string_bytes};
ghost use Rattle.hwdb_plan.specs.Baseline.{over_baseline};
ghost use Rattle.hwdb_plan.specs.Check.{asked_plan, checked_plan, rules_plan, said_of};
ghost use Rattle.hwdb_plan.specs.Files.{OfInput};
ghost use Rattle.hwdb_plan.specs.OwnRules as plan;
ghost use Rattle.hwdb_plan.specs.OverText.{if_fit};
ghost use Rattle.hwdb_plan.specs.Plans.{Follows};
ghost use Rattle.hwdb_plan.specs.Plans.Plan.{Done};
ghost use Rattle.hwdb_spec_commands.specs.Checks as spec;
ghost use Rattle.hwdb_spec_commands.specs.Given.{any_dash};
ghost use Rattle.hwdb_spec_commands.specs.Jobs.{text_if};
ghost use Rattle.hwdb_spec_commands.specs.Refusals.{IsInWords};
ghost use Rattle.hwdb_tool.specs.CheckAsked.{baseline_of, files_of, name_of, named_as, say_of};
ghost use Rattle.hwdb_tool.specs.Views.{end_of};

use crate::answer::Answer;
use crate::check_command::{check_as_asked, check_read, known_at, nothing_named, with_paths};
use crate::given::{any_dash, is_dash};
use crate::verb::text_of;
use hwdb_check::{Telling, format_asked, is_rules};
use hwdb_cli::CheckArgs;
use hwdb_io::Source;
use hwdb_system::{Refusal, TextFolders, own_rules};
use std::alloc::Global;

/// Whether a path is no rules file's, and not standard input.
fn is_other(path: &str) -> bool
    ensures { result ≡ spec.is_other path.now }
{
    if is_dash(path) {
        return false;
    }
    !is_rules(path.as_bytes())
}

/// Whether one of the paths is so.
fn any_other(given: &[String]) -> bool
    ensures { result ≡ list_any spec.is_other (map string_bytes given.now) }
{
    let mut left = given;
    'paths: while let Some((path, rest)) = left.split_first() {
        if is_other(path.as_str()) {
            return true;
        }
        left = rest;
    }
    false
}

/// Whether one of the files is no rules file, or the name that is given for standard input is none's.
fn names_other(name: Option<&str>, given: &[String]) -> bool
    ensures { result ≡ spec.names_other (option_map (λ t. t.now) name.entry)
        (map string_bytes given.now) }
{
    match name {
        Some(name) => any_other(given) || !is_rules(name.as_bytes()),
        None => any_other(given),
    }
}

/// The error of that.
fn other_named(alloc: Global) -> Refusal
    ensures { IsInWords spec.other_named result }
{
    let words =
        b"--rules takes rules files alone: FILE and the NAME of --name end in .rules, and - is standard input";
    match Vec::from_slice(alloc, words) {
        Ok(text) => Refusal::InWords(text),
        Err(refused) => Refusal::from(refused),
    }
}

/// The name of standard input as a rules file: the one that is given, or one of ours if a file is that.
fn rules_name<'a>(name: Option<&'a str>, given: &[String]) -> Option<&'a str>
    ensures { option_map (λ t. t.now) result ≡ spec.rules_name
        (option_map (λ t. t.now) name.entry) (map string_bytes given.now) }
{
    match name {
        Some(name) => Some(name),
        None if any_dash(given) => Some("standard-input.rules"),
        None => None,
    }
}

/// What is said of the machine's own rules files.
fn check_own<D: TextFolders>(
    alloc: Global,
    root: &str,
    telling: &Telling<'_>,
    strict: bool,
    system: &D,
) -> Result<Answer, Refusal>
    ensures { D.Store.tells → Follows end_of (D.System.reads system.now)
        (plan.own_rules root.now (λ sources. Done (said_of telling.now.format strict
        (map string_bytes telling.now.allowed.now) (option_map (λ t. t.now) telling.now.name)
        (map (λ t. t.items) telling.now.known.now) sources))) result }
{
    let read = own_rules(alloc, root, system)?;
    let files = with_paths(alloc, &read.paths, &read.texts)?;
    let (name, known) = (telling.name, telling.known);
    let (format, allowed) = (telling.format, telling.allowed);
    check_read(alloc, &files, name, known, format, allowed, strict)
}

/// The same, by what the words ask for.
fn check_own_known<D: TextFolders>(
    alloc: Global,
    root: &str,
    args: &CheckArgs,
    strict: bool,
    system: &D,
) -> Result<Answer, Refusal>
    ensures { D.Store.tells → Follows end_of (D.System.reads system.now)
        (over_baseline (baseline_of args.now) (λ known. plan.own_rules root.now
        (λ sources. Done (say_of args.now strict (name_of args.now) known sources)))) result }
{
    let known = known_at(alloc, text_of(&args.baseline), system)?;
    let telling = Telling {
        format: format_asked(args.diff, args.json, &args.format),
        allowed: &args.allowed,
        known: &known,
        name: text_of(&args.name),
    };
    check_own(alloc, root, &telling, strict, system)
}

/// The same. A name is an error: no file is standard input.
fn check_own_asked<D: TextFolders>(
    alloc: Global,
    root: &str,
    args: &CheckArgs,
    strict: bool,
    system: &D,
) -> Result<Answer, Refusal>
    ensures { D.Store.tells → Follows end_of (D.System.reads system.now)
        (if_fit (text_if (is_some (name_of args.now)) spec.nothing_named)
        (over_baseline (baseline_of args.now) (λ known. plan.own_rules root.now
        (λ sources. Done (say_of args.now strict (name_of args.now) known sources))))) result }
{
    if args.name.is_some() {
        return Err(nothing_named(alloc));
    }
    check_own_known(alloc, root, args, strict, system)
}

/// What is said of the rules files that words name.
fn check_named_rules<D: TextFolders, I: Source>(
    alloc: Global,
    root: &str,
    args: &CheckArgs,
    strict: bool,
    system: &D,
    input: &mut I,
) -> Result<Answer, Refusal>
    ensures follows { D.Store.tells → OfInput (I.left input.old) (I.failures input.old)
        (I.failures input.new) (λ told. Follows end_of (D.System.reads system.now)
        (if_fit (text_if (spec.names_other (name_of args.now) (files_of args.now))
        spec.other_named) (checked_plan told (files_of args.now) root.now (named_as args.now)
        (baseline_of args.now) (say_of args.now strict (named_as args.now)))) result) }
    ensures unread { any_dash (files_of args.now) ≡ false → input.new ≡ input.old }
{
    let name = text_of(&args.name);
    if names_other(name, &args.files) {
        return Err(other_named(alloc));
    }
    let own = rules_name(name, &args.files);
    let form = format_asked(args.diff, args.json, &args.format);
    let known = text_of(&args.baseline);
    let files = &args.files;
    let allowed = &args.allowed;
    check_as_asked(
        alloc, root, files, own, known, form, allowed, strict, system, input,
    )
}

/// What is said of rules files: of the machine's own, if words name none.
fn check_rules<D: TextFolders, I: Source>(
    alloc: Global,
    root: &str,
    args: &CheckArgs,
    strict: bool,
    system: &D,
    input: &mut I,
) -> Result<Answer, Refusal>
    ensures follows { D.Store.tells → OfInput (I.left input.old) (I.failures input.old)
        (I.failures input.new) (λ told. Follows end_of (D.System.reads system.now)
        (rules_plan told (files_of args.now) root.now (name_of args.now)
        (baseline_of args.now) (say_of args.now strict)) result) }
    ensures unread { any_dash (files_of args.now) ≡ false → input.new ≡ input.old }
{
    if args.files.is_empty() {
        check_own_asked(alloc, root, args, strict, system)
    } else {
        check_named_rules(alloc, root, args, strict, system, input)
    }
}

/// What is said without the option.
fn check_texts<D: TextFolders, I: Source>(
    alloc: Global,
    root: &str,
    args: &CheckArgs,
    strict: bool,
    system: &D,
    input: &mut I,
) -> Result<Answer, Refusal>
    ensures follows { D.Store.tells → OfInput (I.left input.old) (I.failures input.old)
        (I.failures input.new) (λ told. Follows end_of (D.System.reads system.now)
        (checked_plan told (files_of args.now) root.now (name_of args.now)
        (baseline_of args.now) (say_of args.now strict (name_of args.now))) result) }
    ensures unread { any_dash (files_of args.now) ≡ false → input.new ≡ input.old }
{
    let form = format_asked(args.diff, args.json, &args.format);
    let (name, known) = (text_of(&args.name), text_of(&args.baseline));
    let (files, allowed) = (&args.files, &args.allowed);
    check_as_asked(
        alloc, root, files, name, known, form, allowed, strict, system, input,
    )
}

/// What is said of the files that the words ask for: with the option of rules files.
pub(crate) fn check_words<D: TextFolders, I: Source>(
    alloc: Global,
    root: &str,
    args: &CheckArgs,
    strict: bool,
    system: &D,
    input: &mut I,
) -> Result<Answer, Refusal>
    ensures follows { D.Store.tells → OfInput (I.left input.old) (I.failures input.old)
        (I.failures input.new) (λ told. Follows end_of (D.System.reads system.now)
        (asked_plan told args.now.rules (files_of args.now) root.now (name_of args.now)
        (baseline_of args.now) (say_of args.now strict)) result) }
    ensures unread { any_dash (files_of args.now) ≡ false → input.new ≡ input.old }
{
    if args.rules {
        check_rules(alloc, root, args, strict, system, input)
    } else {
        check_texts(alloc, root, args, strict, system, input)
    }
}

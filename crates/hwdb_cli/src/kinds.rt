//! The kinds of warnings that `check --allow` names, and the formats that `check --format` and `diff --format` do.
use crate::tips::ALIKE;
use hwdb_spec_commands::{CheckArgs, FORMATS, ReviewArgs, Task};
use std::alloc::{AllocError, Global};
use strsim::jaro;

/// What `check --format` takes.
const CHECK_FORMATS: &str = "text, json, github, sarif";

/// What `diff --format` takes.
const DIFF_FORMATS: &str = "grouped, lines, markdown";

/// Whether a name is one of those in some lists, a line each.
fn is_kind(name: &str, kinds: &[&str]) -> bool {
    for list in kinds {
        for kind in list.split("\n") {
            if kind == name {
                return true;
            }
        }
    }
    false
}

/// How alike a name is to a kind's, or to what is before the first `-` of that: from 0 to 1.
fn likeness(alloc: Global, name: &str, kind: &str) -> Result<f64, AllocError> {
    let whole = jaro(alloc, name, kind)?;
    let Some((first, _)) = kind.split_once('-') else {
        return Ok(whole);
    };
    let of_first = jaro(alloc, name, first)?;
    Ok(if of_first > whole { of_first } else { whole })
}

/// The kind whose name is most like another one, if one is like it.
fn likely_kind<'k>(
    alloc: Global,
    name: &str,
    kinds: &[&'k str],
) -> Result<Option<&'k str>, AllocError> {
    let mut most = ALIKE;
    let mut found = None;
    for list in kinds {
        for kind in list.split("\n") {
            let alike = likeness(alloc, name, kind)?;
            if alike >= most {
                most = alike;
                found = Some(kind);
            }
        }
    }
    Ok(found)
}

/// What is said of a name that is none of a command's formats, which are these.
fn format_text(
    alloc: Global,
    name: &str,
    formats: &str,
    command: &str,
) -> Result<String, AllocError> {
    let mut text = String::new(alloc);
    writeln!(text, "error: --format takes no '{name}'\n")?;
    writeln!(text, "  [possible values: {formats}]\n")?;
    writeln!(text, "For more information, try 'hwdb {command} --help'.")?;
    Ok(text)
}

/// The word after `--format`, if it names none of the formats of `check`.
fn unknown_of_check(args: &CheckArgs) -> Option<&str> {
    let Some(name) = &args.format else {
        return None;
    };
    if FORMATS.contains(&name.as_str()) {
        return None;
    }
    Some(name.as_str())
}

/// The same of `diff`.
fn unknown_of_diff(args: &ReviewArgs) -> Option<&str> {
    let Some(name) = &args.format else {
        return None;
    };
    match name.as_str() {
        "grouped" => None,
        "lines" => None,
        "markdown" => None,
        other => Some(other),
    }
}

/// What is said of a name that is none of a kind.
fn fault_of(alloc: Global, name: &str, kinds: &[&str]) -> Result<String, AllocError> {
    let mut text = String::new(alloc);
    writeln!(text, "error: --allow takes no '{name}'\n")?;
    if let Some(kind) = likely_kind(alloc, name, kinds)? {
        writeln!(text, "  tip: a similar kind exists: '{kind}'\n")?;
    }
    text.push_str("hwdb-format(7) has all kinds.\n")?;
    Ok(text)
}

/// The first name in a word, with commas between, that is no kind's.
fn unknown_in<'w>(word: &'w str, kinds: &[&str]) -> Option<&'w str> {
    for piece in word.split(",") {
        let name = piece.trim();
        if !is_kind(name, kinds) {
            return Some(name);
        }
    }
    None
}

/// What is said of the first name after `--allow` that is no kind of warning. It says which kind the name is like, if there
/// is one. None if each is one, or the task has no such words. Each of `kinds` has a name a line.
///
/// The only error is want of memory.
pub fn kind_fault(
    alloc: Global,
    task: &Task,
    kinds: &[&str],
) -> Result<Option<String>, AllocError> {
    let Task::Check(args) = task else {
        return Ok(None);
    };
    for word in &args.allowed {
        if let Some(name) = unknown_in(word.as_str(), kinds) {
            return Ok(Some(fault_of(alloc, name, kinds)?));
        }
    }
    Ok(None)
}

/// What is said of `diff --samples` beside files of devices.
fn samples_fault(alloc: Global) -> Result<String, AllocError> {
    let mut text = String::new(alloc);
    text.push_str("error: --samples makes the devices itself: leave out --devices\n\n")?;
    text.push_str("For more information, try 'hwdb diff --help'.\n")?;
    Ok(text)
}

/// What is said of words beside `check --diff` that say how findings are told, and of `diff --devices` beside `--samples`. None if there
/// are none, or the task has no such flag.
///
/// The only error is want of memory.
pub fn diff_fault(alloc: Global, task: &Task) -> Result<Option<String>, AllocError> {
    if let Task::Diff(args) = task {
        if args.review.samples && !args.devices.is_empty() {
            return Ok(Some(samples_fault(alloc)?));
        }
    }
    let Task::Check(args) = task else {
        return Ok(None);
    };
    if !args.diff || (!args.json && args.format.is_none() && args.baseline.is_none()) {
        return Ok(None);
    }
    let mut text = String::new(alloc);
    text.push_str(
        "error: --diff tells no findings: leave out --json, --format and --baseline\n\n",
    )?;
    text.push_str("For more information, try 'hwdb check --help'.\n")?;
    Ok(Some(text))
}

/// What is said of the word after `--format`, if it names none. None if it names one, or the task has no such word.
///
/// The only error is want of memory.
pub fn format_fault(alloc: Global, task: &Task) -> Result<Option<String>, AllocError> {
    if let Task::Check(args) = task {
        if let Some(name) = unknown_of_check(args) {
            return Ok(Some(format_text(alloc, name, CHECK_FORMATS, "check")?));
        }
    }
    if let Task::Diff(args) = task {
        if let Some(name) = unknown_of_diff(&args.review) {
            return Ok(Some(format_text(alloc, name, DIFF_FORMATS, "diff")?));
        }
    }
    Ok(None)
}

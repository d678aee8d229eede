//! The advice in the text of a fault. `clap` takes any name that is a little alike for the one that was meant, and any
//! word that begins with `-` for a device. What misleads is left out here.
use std::alloc::{AllocError, Global};
use strsim::jaro;

/// How alike an unknown option and a known one have to be, from 0 to 1, so that the known one is proposed. Our choice:
/// `--stric` and `--strict` are alike by 0.94, `--foo` and `--root` by 0.72.
pub(crate) const ALIKE: f64 = 0.8;

/// How the advice to take an argument for a device begins, and that to take it for another option.
const VALUE_TIP: &str = "  tip: to pass ";

const LIKE_TIP: &str = "  tip: a similar argument exists: ";

/// How any advice begins.
const TIP: &str = "  tip: ";

/// The option with which the words of `test` are device strings.
const RECORD: &str = " --record ";

/// Where the commands are, for whoever named one that isn't there.
const COMMANDS_TIP: &str = "  tip: to see all commands, use 'hwdb help'";

/// The text of an unexpected argument's fault, with advice that fits. It names the known option that it is like, or
/// says how it is passed as a value. `words` are those of the command line. The usage that `clap` makes of a misleading
/// tip goes with it.
///
/// The only error is want of memory.
pub fn with_fitting_tip(alloc: Global, text: &str, words: &[String]) -> Result<String, AllocError> {
    let argument = quoted(text);
    let mut advised = String::new(alloc);
    let mut is_misled = false;
    for paragraph in text.split("\n\n") {
        if let Some(tip) = paragraph.strip_prefix(LIKE_TIP) {
            is_misled = !is_like(alloc, quoted(tip), argument)?;
        }
        if paragraph.starts_with(VALUE_TIP) {
            push_value_tip(&mut advised, paragraph, words, argument)?;
        } else if !(is_misled && is_advice(paragraph)) {
            push(&mut advised, paragraph)?;
        }
    }
    Ok(advised)
}

/// The text of an unknown command's fault, with advice: the known command that it is like, or where all of them are.
///
/// The only error is want of memory.
pub fn with_command_tip(alloc: Global, text: &str) -> Result<String, AllocError> {
    match text.split_once("\n\n") {
        Some((fault, rest)) if !rest.starts_with(TIP) => {
            format!(in alloc; "{fault}\n\n{COMMANDS_TIP}\n\n{rest}")
        }
        _ => String::from_str(alloc, text),
    }
}

/// The text of a missing argument's fault. With `--record` the words of `test` are device strings: they are called as those of `query` are.
///
/// The only error is want of memory.
pub fn with_device_words(alloc: Global, text: &str) -> Result<String, AllocError> {
    if !text.contains(RECORD) {
        return String::from_str(alloc, text);
    }
    let mut told = String::new(alloc);
    let mut is_first = true;
    for piece in text.split("<FILE>") {
        if !is_first {
            told.push_str("<MODALIAS>")?;
        }
        told.push_str(piece)?;
        is_first = false;
    }
    Ok(told)
}

/// Whether a paragraph is a tip or the usage.
fn is_advice(paragraph: &str) -> bool {
    paragraph.starts_with(TIP) || paragraph.starts_with("Usage: ")
}

/// Adds a paragraph.
fn push(text: &mut String, paragraph: &str) -> Result<(), AllocError> {
    if !text.is_empty() {
        text.push_str("\n\n")?;
    }
    text.push_str(paragraph)
}

/// Adds the advice how the argument is passed as a value. It is that of the option before it, if there is one, else as
/// the tip says.
fn push_value_tip(
    text: &mut String,
    tip: &str,
    words: &[String],
    argument: &str,
) -> Result<(), AllocError> {
    let Some(option) = option_before(words, argument) else {
        return push(text, tip);
    };
    push(text, VALUE_TIP)?;
    write!(
        text,
        "'{argument}' as the value of '{option}', use '{option}={argument}'"
    )
}

/// What comes first in quotes; nothing if nothing does.
fn quoted(text: &str) -> &str {
    match text.split_once('\'') {
        Some((_, rest)) => match rest.split_once('\'') {
            Some((inside, _)) => inside,
            None => "",
        },
        None => "",
    }
}

/// The option whose value the argument was meant to be: the one directly before it, written out.
fn option_before(words: &[String], argument: &str) -> Option<&'static str> {
    let mut before = "";
    for word in words {
        if word.as_str() == argument {
            return written_out(before);
        }
        before = word.as_str();
    }
    None
}

/// An option that takes a value, written out; None for any other word.
fn written_out(word: &str) -> Option<&'static str> {
    match word {
        "--root" | "-r" => Some("--root"),
        "--after" => Some("--after"),
        "--limit" => Some("--limit"),
        "--color" => Some("--color"),
        _ => None,
    }
}

/// Whether two options are much like each other, whatever `-` is before them.
fn is_like(alloc: Global, option: &str, other: &str) -> Result<bool, AllocError> {
    let option = option.trim_start_matches('-');
    let other = other.trim_start_matches('-');
    Ok(jaro(alloc, option, other)? >= ALIKE)
}

//! What a scan reads, and what is said if it can't be read.
ghost use Rattle.std.specs.Prelude.{◌≡◌, ◌++◌, ℕ, IfOk, List, OnOk, codes, option_map, string_bytes};
ghost use Rattle.hwdb_spec.specs.Failures.{IsOneLine};
ghost use Rattle.hwdb_spec.specs.Lines.{has};
ghost use Rattle.hwdb_spec_commands.specs.Commands.{shell_word};
ghost use Rattle.hwdb_spec_commands.specs.ScanAsked as spec;

use hwdb_io::Cause;
use hwdb_show::{push_name, push_word};
use hwdb_text::begins_with;
use std::alloc::{AllocError, Global};

/// The numbers of errors that say that a file may not be read, isn't there, or is a folder (errno, on Linux).
const NOT_PERMITTED: i32 = 1;

const NO_ENTRY: i32 = 2;

const NO_ACCESS: i32 = 13;

const IS_FOLDER: i32 = 21;

/// Whether a text has a `/`.
fn has_slash(text: &[u8]) -> bool
    ensures { result ≡ has 47 text.now }
{
    text.iter().any(|own| *own == b'/')
}

/// The path that a word means: one without a `/` is the name of a node.
fn node_path(alloc: Global, device: &str) -> Result<String, AllocError>
    ensures { IfOk result (λ path. string_bytes path ≡ spec.node_path device.now) }
{
    if has_slash(device.as_bytes()) {
        return String::from_str(alloc, device);
    }
    let mut path = String::from_str(alloc, "/dev/input/")?;
    path.push_str(device)?;
    Ok(path)
}

/// A path below a root, if one is given.
fn path_below(alloc: Global, root: &str, path: &str) -> Result<String, AllocError>
    ensures { IfOk result (λ below. string_bytes below ≡ spec.path_below root.now path.now) }
{
    if root.is_empty() {
        return String::from_str(alloc, path);
    }
    let mut below = String::from_str(alloc, root)?;
    if !begins_with(b'/', path.as_bytes()) {
        below.push_str("/")?;
    }
    below.push_str(path)?;
    Ok(below)
}

/// The path that is read below a root; None for `-`, which is standard input. The only error, here and below, is want of memory.
pub fn scanned_path(alloc: Global, root: &str, device: &str) -> Result<Option<String>, AllocError>
    ensures { IfOk result
        (λ path. option_map string_bytes path ≡ spec.scanned_path root.now device.now) }
{
    if device == "-" {
        return Ok(None);
    }
    let path = node_path(alloc, device)?;
    let below = path_below(alloc, root, path.as_str())?;
    Ok(Some(below))
}

/// Whether a cause is that somebody else may read it.
fn is_denied(cause: Cause) -> bool
    ensures { result ≡ spec.is_denied cause }
{
    match cause {
        Cause::System(NOT_PERMITTED | NO_ACCESS) => true,
        _ => false,
    }
}

/// Whether it is that nothing has such a name.
fn is_missing(cause: Cause) -> bool
    ensures { result ≡ spec.is_missing cause }
{
    match cause {
        Cause::System(NO_ENTRY) => true,
        _ => false,
    }
}

/// Whether it is that a folder is there.
fn is_of_folder(cause: Cause) -> bool
    ensures { result ≡ spec.is_of_folder cause }
{
    match cause {
        Cause::System(IS_FOLDER) => true,
        _ => false,
    }
}

/// Adds the command that reads a path as root.
fn push_command(text: &mut Vec<u8>, path: &[u8]) -> Result<(), AllocError>
    ensures { OnOk result (text.new.items
        ≡ text.old.items ++ (codes "; run it as root: sudo hwdb scan " ++ shell_word path.now)) }
{
    text.extend_from_slice(b"; run it as root: sudo hwdb scan ")?;
    push_word(text, path)?;
    Ok(())
}

/// Adds what to do if a path can't be read for some cause.
fn push_advice(text: &mut Vec<u8>, path: &[u8], cause: Cause) -> Result<(), AllocError>
    ensures { OnOk result (text.new.items ≡ text.old.items ++ spec.advice_for path.now cause) }
{
    if is_denied(cause) {
        return push_command(text, path);
    }
    if is_missing(cause) {
        text.extend_from_slice(b"; 'hwdb device' lists the devices")?;
        return Ok(());
    }
    if is_of_folder(cause) {
        text.extend_from_slice(b"; give a device in it, as event4: 'hwdb device' lists them")?;
    }
    Ok(())
}

/// Adds a cause with these words, and what to do.
fn push_cause(text: &mut Vec<u8>, path: &[u8], cause: Cause, words: &[u8]) -> Result<(), AllocError>
    ensures { OnOk result
        (text.new.items ≡ text.old.items ++ spec.cause_text path.now cause words.now) }
{
    text.extend_from_slice(b": ")?;
    text.extend_from_slice(words)?;
    push_advice(text, path, cause)
}

/// What is said if this can't be read, or not to its end: its name, the cause in the system's words, and what to do.
pub fn unscanned_text(
    alloc: Global,
    name: &[u8],
    cause: Option<Cause>,
) -> Result<Vec<u8>, AllocError>
    ensures { IfOk result (λ text. (words : List ℕ) × IsOneLine words
        × (text.items ≡ spec.unscanned_text name.now cause words)) }
{
    let mut text = Vec::from_slice(alloc, b"cannot read ")?;
    push_name(&mut text, name)?;
    if let Some(cause) = cause {
        push_cause(&mut text, name, cause, cause.message().as_bytes())?;
    }
    Ok(text)
}

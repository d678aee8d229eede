//! Whether standard output is coloured: by `--color`, and without it by what standard output is and by the environment.
use hwdb_tool::{Sink, TextKind, kind_of, read_words, write_text};
use std::env::{self, VarError};
use std::io::IsTerminal;

/// Who sets it wants no colours (no-color.org).
const NO_COLOR: &str = "NO_COLOR";

/// What the terminal is.
const TERM: &str = "TERM";

/// The terminal that knows no sequences.
const DUMB: &str = "dumb";

const NOT_TAKEN: &str = "error: --color takes 'auto', 'always' or 'never'

For more information, try '--help'.
";

/// Whether the environment asks for no colours.
fn is_unwanted(rt: &HostRuntime) -> bool {
    match env::var(rt, NO_COLOR) {
        Ok(text) => !text.is_empty(),
        Err(VarError::NotPresent) => false,
        Err(_) => true,
    }
}

/// Whether the environment names a terminal that knows sequences.
fn is_capable(rt: &HostRuntime) -> bool {
    match env::var(rt, TERM) {
        Ok(text) => text.as_str() != DUMB,
        Err(_) => false,
    }
}

/// Whether output is coloured if the words don't say it.
fn is_automatic(rt: &HostRuntime) -> bool {
    rt.stdout().is_terminal() && is_capable(rt) && !is_unwanted(rt)
}

/// Whether output is coloured, by what `--color` says; None if that is none of its values.
fn is_coloured(rt: &HostRuntime, color: &Option<String>) -> Option<bool> {
    let Some(when) = color else {
        return Some(is_automatic(rt));
    };
    match when.as_str() {
        "auto" => Some(is_automatic(rt)),
        "always" => Some(true),
        "never" => Some(false),
        _ => None,
    }
}

/// What kind of text is coloured for these words: `Plain` if nothing is. None if `--color` has none of its values, which is
/// said on standard error.
pub fn coloured_kind<E: Sink>(rt: &HostRuntime, words: &[String], err: &mut E) -> Option<TextKind> {
    let Ok(job) = read_words(rt.alloc(), words) else {
        return Some(TextKind::Plain);
    };
    match is_coloured(rt, &job.color) {
        Some(true) => Some(kind_of(&job.task)),
        Some(false) => Some(TextKind::Plain),
        None => {
            let _ = write_text(err, NOT_TAKEN.as_bytes());
            None
        }
    }
}

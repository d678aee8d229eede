//! The variable of the environment that has an update do nothing, as systemd-hwdb has it from its version 254 on.
use crate::MEMORY;
use hwdb_tool::{Sink, Task, WordsFault, read_words, write_text};
use std::env::{self, VarError};

/// Image builders set it: they make the database once, when all packages are there.
const NAME: &str = "SYSTEMD_HWDB_UPDATE_BYPASS";

const SKIPPED: &str = "hwdb: $SYSTEMD_HWDB_UPDATE_BYPASS is enabled, skipping execution\n";

const UNCLEAR: &str =
    "hwdb: $SYSTEMD_HWDB_UPDATE_BYPASS is neither true nor false, and doesn't count\n";

/// What the variable says.
#[derive(Clone, Copy)]
enum Switch {
    Off,
    On,
    Unclear,
    /// There was no memory, so that it can't be told.
    Unknown,
}

/// What a text says, as systemd's getenv_bool reads it: upper and lower case are alike.
fn switch_of(text: &str) -> Switch {
    if is_one_of(text, &["1", "yes", "y", "true", "t", "on"]) {
        Switch::On
    } else if is_one_of(text, &["0", "no", "n", "false", "f", "off"]) {
        Switch::Off
    } else {
        Switch::Unclear
    }
}

/// Whether a text is one of some words, in whatever case.
fn is_one_of(text: &str, words: &[&str]) -> bool {
    for word in words {
        if text.eq_ignore_ascii_case(word) {
            return true;
        }
    }
    false
}

/// What a switch says to these words: nothing, unless they ask for an update.
fn for_update(rt: &HostRuntime, words: &[String], switch: Switch) -> Switch {
    match read_words(rt.alloc(), words) {
        Ok(job) => match job.task {
            Task::Update(_) => switch,
            _ => Switch::Off,
        },
        Err(WordsFault::Memory) => Switch::Unknown,
        Err(_) => Switch::Off,
    }
}

/// What the variable says to these words.
fn switch_for(rt: &HostRuntime, words: &[String]) -> Switch {
    match env::var(rt, NAME) {
        Ok(text) => match switch_of(text.as_str()) {
            Switch::Off => Switch::Off,
            switch => for_update(rt, words, switch),
        },
        Err(VarError::NotPresent) => Switch::Off,
        Err(VarError::NotUnicode) => for_update(rt, words, Switch::Unclear),
        Err(VarError::OutOfMemory) => Switch::Unknown,
    }
}

/// The status of a run that ends here: of an update that the environment has do nothing, or if there is no memory. What it
/// comes from is said on standard error.
pub fn status_of_bypass<E: Sink>(rt: &HostRuntime, words: &[String], err: &mut E) -> Option<u8> {
    let (line, status) = match switch_for(rt, words) {
        Switch::Off => return None,
        Switch::On => (SKIPPED, Some(0)),
        Switch::Unclear => (UNCLEAR, None),
        Switch::Unknown => (MEMORY, Some(1)),
    };
    let _ = write_text(err, line.as_bytes());
    status
}

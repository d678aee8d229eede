//! Whether `check --allow` names kinds of warnings, and `check --format` a format; and whether other words fit `check --diff`.
use crate::MEMORY;
use hwdb_tool::{
    KINDS, RULE_KINDS, Sink, Task, diff_fault, format_fault, kind_fault, read_words, write_text,
};
use std::alloc::{AllocError, Global};

/// What is said of the first such word that names none, or that doesn't fit.
fn fault_of(alloc: Global, task: &Task) -> Result<Option<String>, AllocError> {
    if let Some(text) = kind_fault(alloc, task, &[KINDS, RULE_KINDS])? {
        return Ok(Some(text));
    }
    if let Some(text) = format_fault(alloc, task)? {
        return Ok(Some(text));
    }
    diff_fault(alloc, task)
}

/// The status of a run that ends here: if a word after `--allow` names no kind or one after `--format` no format, if other words don't fit
/// `--diff`, or if there is no memory.
/// What it comes from is said on standard error.
pub fn status_of_names<E: Sink>(rt: &HostRuntime, words: &[String], err: &mut E) -> Option<u8> {
    let Ok(job) = read_words(rt.alloc(), words) else {
        return None;
    };
    match fault_of(rt.alloc(), &job.task) {
        Ok(None) => None,
        Ok(Some(text)) => {
            let _ = write_text(err, text.as_bytes());
            Some(1)
        }
        Err(_) => {
            let _ = write_text(err, MEMORY.as_bytes());
            Some(1)
        }
    }
}

//! Commands that are told: the one that makes a database anew, and the one that removes it.
ghost use Rattle.std.specs.Prelude.{◌≡◌, ◌++◌, IfOk, OnOk};
ghost use Rattle.hwdb_spec_commands.specs.Commands;
ghost use Rattle.hwdb_spec_commands.specs.Commands.{no_option, root_words};

use crate::hiding::database_path;
use hwdb_show::push_word;
use hwdb_text::begins_with;
use std::alloc::{AllocError, Global};

/// Adds a root as an option of the command, if one was given.
fn push_root(words: &mut Vec<u8>, root: &str) -> Result<(), AllocError>
    ensures { OnOk result (words.new.items ≡ words.old.items ++ root_words root.now) }
{
    if root.is_empty() {
        return Ok(());
    }
    words.extend_from_slice(b" --root=")?;
    push_word(words, root.as_bytes())
}

/// The command that makes the database of a folder anew.
pub(crate) fn update_words(alloc: Global, usr: bool, root: &str) -> Result<Vec<u8>, AllocError>
    ensures { IfOk result (λ words. words.items ≡ Commands.update_words usr root.now) }
{
    let mut words = Vec::from_slice(alloc, b"hwdb update")?;
    if usr {
        words.extend_from_slice(b" --usr")?;
    }
    push_root(&mut words, root)?;
    Ok(words)
}

/// A path that no command takes for an option.
fn no_option(alloc: Global, path: &[u8]) -> Result<Vec<u8>, AllocError>
    ensures { IfOk result (λ plain. plain.items ≡ no_option path.now) }
{
    if begins_with(b'-', path) {
        let mut plain = Vec::from_slice(alloc, b"./")?;
        plain.extend_from_slice(path)?;
        return Ok(plain);
    }
    Vec::from_slice(alloc, path)
}

/// The command that removes the database of /etc.
pub(crate) fn removing_words(alloc: Global, root: &str) -> Result<Vec<u8>, AllocError>
    ensures { IfOk result (λ words. words.items ≡ Commands.removing_words root.now) }
{
    let path = database_path(alloc, root, false)?;
    let removed = no_option(alloc, path.as_bytes())?;
    let mut words = Vec::from_slice(alloc, b"rm ")?;
    push_word(&mut words, &removed)?;
    Ok(words)
}

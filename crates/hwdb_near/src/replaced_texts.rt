//! What is printed of assignments that were replaced, as text.
ghost use Rattle.std.specs.Prelude.{◌≡◌, ◌++◌, codes, flat_map, map, OnOk};
ghost use Rattle.hwdb_spec.specs.Explanations.{origin_line};
ghost use Rattle.hwdb_spec_commands.specs.Replacements.{assignment_text, replacement_text};
ghost use Rattle.hwdb_spec_commands.specs.Status.{said_line};
ghost use Rattle.hwdb_spec.specs.Texts.{property_text};
ghost use Rattle.hwdb_near.specs.Views.{assignment_of, replacement_of};

use crate::replacements::Replaced;
use crate::wanted::FileAssignment;
use hwdb_show::push_name;
use itoa::Buffer;
use std::alloc::{AllocError, Global};

/// Adds `KEY=VALUE` and a newline. The only error, here and below, is `AllocError`.
fn push_property(text: &mut Vec<u8>, key: &[u8], value: &[u8]) -> Result<(), AllocError>
    ensures { OnOk result (text.new.items ≡ text.old.items ++ property_text (key.now, value.now)) }
{
    text.extend_from_slice(key)?;
    text.push(b'=')?;
    text.extend_from_slice(value)?;
    text.push(b'\n')?;
    Ok(())
}

/// Adds where an assignment is: four spaces, its path, `:`, its line, two spaces, its pattern.
fn push_origin(alloc: Global, text: &mut Vec<u8>, at: &FileAssignment<'_>) -> Result<(), AllocError>
    ensures { OnOk result
        (text.new.items ≡ text.old.items ++ origin_line (assignment_of at.now)) }
{
    let path = at.file.path(alloc)?;
    let mut digits = Buffer::new();
    text.extend_from_slice(b"    ")?;
    push_name(text, path.as_bytes())?;
    text.push(b':')?;
    text.extend_from_slice(digits.format(at.given.line).as_bytes())?;
    text.extend_from_slice(b"  ")?;
    text.extend_from_slice(at.given.pattern)?;
    text.push(b'\n')?;
    Ok(())
}

/// Adds an assignment after a word.
fn push_assignment(
    alloc: Global,
    text: &mut Vec<u8>,
    word: &[u8],
    at: &FileAssignment<'_>,
) -> Result<(), AllocError>
    ensures { OnOk result (text.new.items
        ≡ text.old.items ++ assignment_text word.now (assignment_of at.now)) }
{
    text.extend_from_slice(word)?;
    push_property(text, at.given.key, at.given.value)?;
    push_origin(alloc, text, at)
}

/// Adds what was replaced, and what replaced it.
fn push_replaced(alloc: Global, text: &mut Vec<u8>, pair: &Replaced<'_>) -> Result<(), AllocError>
    ensures { OnOk result
        (text.new.items ≡ text.old.items ++ replacement_text (replacement_of pair.now)) }
{
    push_assignment(alloc, text, b"replaced ", &pair.old)?;
    push_assignment(alloc, text, b"  by ", &pair.new)
}

/// Adds each of them.
pub(crate) fn push_all_replaced(
    alloc: Global,
    text: &mut Vec<u8>,
    pairs: &[Replaced<'_>],
) -> Result<(), AllocError>
    ensures { OnOk result (text.new.items
        ≡ text.old.items ++ flat_map replacement_text (map replacement_of pairs.now)) }
{
    for pair in pairs {
        push_replaced(alloc, text, pair)?;
    }
    Ok(())
}

/// Adds the line of a masked file.
fn push_masked(text: &mut Vec<u8>, path: &[u8]) -> Result<(), AllocError>
    ensures { OnOk result
        (text.new.items ≡ text.old.items ++ said_line (codes "masked") path.now) }
{
    text.extend_from_slice(b"masked")?;
    text.extend_from_slice(b": ")?;
    push_name(text, path)?;
    text.push(b'\n')?;
    Ok(())
}

/// Adds a line for each masked file.
pub(crate) fn push_all_masked(text: &mut Vec<u8>, paths: &[Vec<u8>]) -> Result<(), AllocError>
    ensures { OnOk result (text.new.items ≡ text.old.items
        ++ flat_map (said_line (codes "masked")) (map (λ p. p.items) paths.now)) }
{
    for path in paths {
        push_masked(text, path)?;
    }
    Ok(())
}

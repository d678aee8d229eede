//! The lines of `explain`: a device's properties, and where each value comes from.
ghost use Rattle.std.specs.Prelude.{◌≡◌, ◌++◌, map, flat_map, IfOk, OnOk};
ghost use Rattle.hwdb_spec.specs.Explanations.{origin_line, overridden_text, explanation_text, explanations_text};
ghost use Rattle.hwdb_query.specs.Views.{assignment_of_answer, explained_values};

use crate::texts::{push_place, push_property};
use hwdb_query::{Explained, StoredAssignment};
use std::alloc::{AllocError, Global};

/// Adds where an answer comes from: four spaces, its path, `:`, its line, two spaces, its pattern.
fn push_origin(text: &mut Vec<u8>, answer: &StoredAssignment<'_>) -> Result<(), AllocError>
    ensures { OnOk result
        (text.new.items ≡ text.old.items ++ origin_line (assignment_of_answer answer.now)) }
{
    text.extend_from_slice(b"    ")?;
    push_place(text, answer.path, answer.line)?;
    text.extend_from_slice(b"  ")?;
    text.extend_from_slice(&answer.pattern)?;
    text.push(b'\n')?;
    Ok(())
}

/// Adds an answer that is overridden: its `KEY=VALUE` after ` overrides `, and where it comes from.
fn push_overridden(text: &mut Vec<u8>, answer: &StoredAssignment<'_>) -> Result<(), AllocError>
    ensures { OnOk result
        (text.new.items ≡ text.old.items ++ overridden_text (assignment_of_answer answer.now)) }
{
    text.extend_from_slice(b"  overrides ")?;
    push_property(text, answer.key, answer.value)?;
    push_origin(text, answer)
}

/// Adds one after another.
fn push_all_overridden(
    text: &mut Vec<u8>,
    answers: &[StoredAssignment<'_>],
) -> Result<(), AllocError>
    ensures { OnOk result (text.new.items
        ≡ text.old.items ++ flat_map overridden_text (map assignment_of_answer answers.now)) }
{
    for answer in answers {
        push_overridden(text, answer)?;
    }
    Ok(())
}

/// Adds what is told of a key: `KEY=VALUE`, where that comes from, and the answers that it overrides.
fn push_explanation(text: &mut Vec<u8>, explained: &Explained<'_>) -> Result<(), AllocError>
    ensures { OnOk result
        (text.new.items ≡ text.old.items ++ explanation_text explained.now.key.now
        (map assignment_of_answer explained.now.answers.items)) }
{
    let Some((last, overridden)) = explained.answers.split_first() else {
        return Ok(());
    };
    push_property(text, explained.key, last.value)?;
    push_origin(text, last)?;
    push_all_overridden(text, overridden)
}

/// What is told of each key, one after another.
pub fn explanation_lines(
    alloc: Global,
    explanations: &[Explained<'_>],
) -> Result<Vec<u8>, AllocError>
    ensures { IfOk result
        (λ text. text.items ≡ explanations_text (explained_values explanations.now)) }
{
    let mut text = Vec::new(alloc);
    for explained in explanations {
        push_explanation(&mut text, explained)?;
    }
    Ok(text)
}

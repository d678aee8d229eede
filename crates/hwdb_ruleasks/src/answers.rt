//! What strings get.
ghost use Rattle.std.specs.Prelude.{◌≡◌, ◌++◌, map, IfOk, OnOk};
ghost use Rattle.hwdb_spec_commands.specs.Lookups;
ghost use Rattle.hwdb_query.specs.Views.{assignment_of_answer, explained_values};
ghost use Rattle.hwdb_rules.specs.Views.{questions_of};
ghost use Rattle.hwdb_spec_rules.specs.DeviceCommands;
ghost use Rattle.hwdb_ruleasks.specs.Views.{found_of, tells_of};

use hwdb_query::{Explained, StoredAssignment, explain};
use hwdb_reader::Db;
use hwdb_rules::Question;
use std::alloc::{AllocError, Global};

/// A string that was asked: which line of which rules file asked it, of which parent, and what it gets.
#[derive(Drop)]
pub struct Found<'a> {
    /// The rules file's name without `.rules`, and the line's number. `perhaps` stands before it if it may not be asked.
    pub rule: Vec<u8>,
    /// 0 for the device itself, 1 for its next parent.
    pub parent: usize,
    /// The string.
    pub text: Vec<u8>,
    /// What it gets: for each key its answers, the last first.
    pub told: Vec<Explained<'a>>,
}

/// What a string gets of a database; nothing without one. One descent of the tree.
///
/// # Errors
///
/// `AllocError` at any allocation that fails.
pub fn told<'a>(
    alloc: Global,
    db: Option<&Db<'a>>,
    text: &[u8],
) -> Result<Vec<Explained<'a>>, AllocError>
    ensures { IfOk result (λ told. explained_values told.items ≡ tells_of db.entry text.now) }
{
    match db {
        Some(db) => explain(alloc, db, text),
        None => Ok(Vec::new(alloc)),
    }
}

/// The value of the first of some answers; empty if there is none.
pub fn first_value<'t>(answers: &'t [StoredAssignment<'_>]) -> &'t [u8]
    ensures { result.now ≡ Lookups.first_value (map assignment_of_answer answers.now) }
{
    match answers.split_first() {
        Some((first, _more)) => first.value,
        None => b"",
    }
}

/// The first answer of some strings. It calls itself once for each string. The only error is `AllocError`.
pub(crate) fn first_told<'a>(
    alloc: Global,
    db: Option<&Db<'a>>,
    questions: &[Question],
) -> Result<Vec<Explained<'a>>, AllocError>
    ensures { IfOk result (λ t. explained_values t.items
        ≡ DeviceCommands.first_told (tells_of db.entry) (questions_of questions.now)) }
{
    let Some((first, more)) = questions.split_first() else {
        return Ok(Vec::new(alloc));
    };
    let told = told(alloc, db, &first.text)?;
    if told.is_empty() {
        return first_told(alloc, db, more);
    }
    Ok(told)
}

/// Asks strings one after another, up to the first that has an answer. It calls itself once for each string.
///
/// # Errors
///
/// `AllocError` at any allocation that fails.
#[tactic(auto, unfolding(hwdb_spec_commands::specs::Lookups::asked_in))]
pub fn ask_questions<'a>(
    alloc: Global,
    db: Option<&Db<'a>>,
    found: &mut Vec<Found<'a>>,
    rule: &[u8],
    questions: &[Question],
) -> Result<(), AllocError>
    ensures { OnOk result (map found_of found.new.items ≡ map found_of found.old.items
        ++ Lookups.asked_in (tells_of db.entry) rule.now (questions_of questions.now)) }
{
    let Some((first, more)) = questions.split_first() else {
        return Ok(());
    };
    let told = told(alloc, db, &first.text)?;
    let is_last = !told.is_empty();
    found.push(Found {
        rule: Vec::from_slice(alloc, rule)?,
        parent: first.parent,
        text: Vec::from_slice(alloc, &first.text)?,
        told,
    })?;
    if is_last {
        return Ok(());
    }
    ask_questions(alloc, db, found, rule, more)
}

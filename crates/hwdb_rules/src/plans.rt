//! Strings that are to be asked.
ghost use Rattle.std.specs.Prelude.{◌≡◌, ◌++◌, ◌∷◌, [], OnOk};
ghost use Rattle.hwdb_spec_commands.specs.Lookups.{ask_one, question_at};
ghost use Rattle.hwdb_rules.specs.Views.{plans_of, questions_of};
ghost use Rattle.hwdb_rules.specs.Internal.{found_at, one_plan, one_question};

use crate::ancestors::At;
use crate::values::is_run;
use std::alloc::{AllocError, Global};

/// A string, and which parent it comes from: after how many others.
#[derive(Drop)]
pub struct Question {
    /// 0 for the device itself, 1 for its next parent.
    pub parent: usize,
    /// The string.
    pub text: Vec<u8>,
}

/// Strings of a rules file that are asked one after another, up to the first that has an answer.
#[derive(Drop)]
pub struct Plan {
    /// The file's name, without `.rules`.
    pub rule: &'static str,
    /// The strings.
    pub questions: Vec<Question>,
}

/// Adds a string. The only error, here and below, is `AllocError`.
pub(crate) fn add_question(
    questions: &mut Vec<Question>,
    parent: usize,
    text: Vec<u8>,
) -> Result<(), AllocError>
    ensures { OnOk result (questions_of questions.new.items
        ≡ questions_of questions.old.items ++ one_question parent text.items) }
{
    questions.push(Question { parent, text })?;
    Ok(())
}

/// Adds a string of a parent, if udev runs its lookup.
pub(crate) fn ask(
    questions: &mut Vec<Question>,
    at: At<'_>,
    text: Vec<u8>,
) -> Result<(), AllocError>
    ensures { OnOk result (questions_of questions.new.items
        ≡ questions_of questions.old.items ++ question_at (found_at at.entry) text.items) }
{
    if !is_run(&text) {
        return Ok(());
    }
    add_question(questions, at.place, text)
}

/// Adds strings of a rules file.
pub(crate) fn add_plan(
    plans: &mut Vec<Plan>,
    rule: &'static str,
    questions: Vec<Question>,
) -> Result<(), AllocError>
    ensures { OnOk result (plans_of plans.new.items
        ≡ plans_of plans.old.items ++ one_plan rule.now (questions_of questions.items)) }
{
    plans.push(Plan { rule, questions })?;
    Ok(())
}

/// Adds one string of a rules file.
pub(crate) fn add_one(
    alloc: Global,
    plans: &mut Vec<Plan>,
    rule: &'static str,
    at: At<'_>,
    text: Vec<u8>,
) -> Result<(), AllocError>
    ensures { OnOk result (plans_of plans.new.items ≡ plans_of plans.old.items
        ++ ask_one rule.now (found_at at.entry) text.items) }
{
    let mut questions = Vec::new(alloc);
    ask(&mut questions, at, text)?;
    add_plan(plans, rule, questions)
}

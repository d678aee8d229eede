//! `near`: the patterns that almost matched a device, of text files or of the database below the root. Nothing is written.
ghost use Rattle.std.specs.Prelude.{◌≡◌, false, map, string_bytes, IfOk, []};
ghost use Rattle.hwdb_check.specs.Checks;
ghost use Rattle.hwdb_near.specs.Views;
ghost use Rattle.hwdb_spec.specs.Folders.{Source};
ghost use Rattle.hwdb_spec_commands.specs.Given.{any_dash};
ghost use Rattle.hwdb_spec_commands.specs.NearAsked.{near_form, near_limit, patterns_from};
ghost use Rattle.hwdb_spec_program.specs.NearErrors.{error_of};
ghost use Rattle.hwdb_plan.specs.Asking.{asked};
ghost use Rattle.hwdb_plan.specs.Files.{OfInput, given_files};
ghost use Rattle.hwdb_plan.specs.Near.{near_database, near_plan};
ghost use Rattle.hwdb_plan.specs.Plans.{Follows};
ghost use Rattle.hwdb_plan.specs.Plans.End.{Answers};
ghost use Rattle.hwdb_plan.specs.Plans.Plan.{Done};
ghost use Rattle.hwdb_tool.specs.Views.{end_of};
ghost use Rattle.hwdb_spec_commands.specs.declared.job.Task.TheVariants.{Near};

use crate::answer::Answer;
use crate::check_command::{given_texts, with_paths};
use crate::databases::{asked, refused_database};
use crate::verb::{Verb, root_of};
use hwdb_answers::ToolError;
use hwdb_cli::{Job, NearArgs};
use hwdb_io::Source;
use hwdb_near::{NearError, PatternFile, near_in_database, near_in_files};
use hwdb_system::{Machine, Refusal, System};
use std::alloc::{AllocError, Global};

/// How many of the nearest patterns are told, unless a number is given.
const TOLD: usize = 3;

/// What is asked: the patterns nearest to a device, how many of them, and in which form.
#[derive(Clone, Copy)]
pub struct NearQuestion<'a> {
    /// What is in front of the paths of databases.
    pub root: &'a str,
    /// The device.
    pub device: &'a [u8],
    /// How many are told at most.
    pub limit: usize,
    /// Whether as JSON.
    pub json: bool,
}

/// The patterns of the given text files that match the device, and the nearest that don't. The file `-` is what `input` has left.
/// If no file is given, those of the database below the root. The status is 0.
pub fn near<D: System, I: Source>(
    alloc: Global,
    given: &[String],
    question: NearQuestion<'_>,
    system: &D,
    input: &mut I,
) -> Result<Answer, Refusal>
    ensures status { IfOk result (λ a. a.status ≡ 0) }
    ensures follows { D.Store.tells → OfInput (I.left input.old) (I.failures input.old)
        (I.failures input.new) (λ told. Follows end_of (D.System.reads system.now)
        (near_plan told (map string_bytes given.now) question.entry.root.now
        (near_form question.entry.json question.entry.device.now question.entry.limit)) result) }
    ensures unread { any_dash (map string_bytes given.now) ≡ false → input.new ≡ input.old }
{
    if given.is_empty() {
        near_asked(alloc, question, system)
    } else {
        near_given(alloc, given, question, system, input)
    }
}

/// How many of the nearest patterns are told.
fn count_of(limit: Option<u64>) -> usize
    ensures { result ≡ near_limit limit }
{
    match limit {
        None => TOLD,
        Some(limit) => limit as usize,
    }
}

/// The same of the patterns of the database.
fn near_asked<D: System>(
    alloc: Global,
    question: NearQuestion<'_>,
    system: &D,
) -> Result<Answer, Refusal>
    ensures status { IfOk result (λ a. a.status ≡ 0) }
    ensures follows { D.Store.tells → Follows end_of (D.System.reads system.now)
        (asked question.entry.root.now (near_database
        (near_form question.entry.json question.entry.device.now question.entry.limit))) result }
{
    let found = asked(alloc, question.root, system)?;
    match near_in_database(
        alloc,
        &found.bytes,
        question.device,
        question.limit,
        question.json,
    ) {
        Ok(text) => Ok(Answer::new(alloc, text, 0)),
        Err(error) => {
            let error = error_of(error);
            Err(refused_database(alloc, error, found.path.as_bytes()))
        }
    }
}

/// What the program says of an error of the comparison.
fn error_of(error: NearError) -> ToolError
    ensures { result ≡ error_of error }
{
    match error {
        NearError::Database(fault) => ToolError::BadDatabase(fault),
        NearError::Memory => ToolError::Memory,
    }
}

/// The same of the patterns of the given files.
fn near_given<D: System, I: Source>(
    alloc: Global,
    given: &[String],
    question: NearQuestion<'_>,
    system: &D,
    input: &mut I,
) -> Result<Answer, Refusal>
    ensures status { IfOk result (λ a. a.status ≡ 0) }
    ensures follows { D.Store.tells → OfInput (I.left input.old) (I.failures input.old)
        (I.failures input.new) (λ told. Follows end_of (D.System.reads system.now)
        (given_files (map string_bytes given.now) told (map string_bytes given.now)
        (λ sources. Done (Answers 0 [] (near_form question.entry.json question.entry.device.now
        question.entry.limit (patterns_from 1 sources))))) result) }
    ensures unread { any_dash (map string_bytes given.now) ≡ false → input.new ≡ input.old }
{
    let texts = given_texts(alloc, given, given, system, input)?;
    let files = with_paths(alloc, given, &texts)?;
    let compared = compared(alloc, &files)?;
    let told = near_in_files(
        alloc,
        &compared,
        question.device,
        question.limit,
        question.json,
    )?;
    Ok(Answer::new(alloc, told, 0))
}

/// The text files, as they are compared.
fn compared<'a>(
    alloc: Global,
    files: &[hwdb_check::TextFile<'a>],
) -> Result<Vec<PatternFile<'a>>, AllocError>
    ensures { IfOk result (λ list. map Views.source_of list.items
        ≡ map Checks.source_of files.now) }
{
    let mut list = Vec::new(alloc);
    for file in files {
        list.push(PatternFile {
            path: file.path.as_bytes(),
            bytes: file.bytes,
        })?;
    }
    Ok(list)
}

impl<D: Machine, I: Source> Verb<D, I> for NearArgs {
    ghost task = { λ args. Near args };

    fn answer(
        &self,
        alloc: Global,
        job: &Job,
        system: &D,
        input: &mut I,
    ) -> Result<Answer, Refusal> {
        let question = NearQuestion {
            root: root_of(job),
            device: self.device.as_bytes(),
            limit: count_of(self.limit),
            json: self.json,
        };
        near(alloc, &self.files, question, system, input)
    }
}

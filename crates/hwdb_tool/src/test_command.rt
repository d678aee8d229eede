//! `test`: test files that are tried over a database. Nothing is written.
ghost use Rattle.std.specs.Prelude.{◌≡◌, ◌≤◌, All, false, length, map, option_map, string_bytes, IfErr, IfOk};
ghost use Rattle.hwdb_check.specs.Checks.{source_of};
ghost use Rattle.hwdb_spec_commands.specs.Given.{any_dash};
ghost use Rattle.hwdb_spec_commands.specs.Runs.{OnOut};
ghost use Rattle.hwdb_spec_program.specs.Tested.{IsVerdict};
ghost use Rattle.hwdb_spec_program.specs.TestErrors.{IsTrialRefusal};
ghost use Rattle.hwdb_plan.specs.Asking.{named};
ghost use Rattle.hwdb_plan.specs.Files.{OfInput};
ghost use Rattle.hwdb_plan.specs.Plans.{Follows};
ghost use Rattle.hwdb_plan.specs.Test.{test_plan, tested};
ghost use Rattle.hwdb_spec.specs.Folders.{Source};
ghost use Rattle.hwdb_spec.specs.Texts.{max_file};
ghost use Rattle.hwdb_tool.specs.Views.{end_of, texts_in};
ghost use Rattle.hwdb_spec_commands.specs.declared.job.Task.TheVariants.{Test};

use crate::answer::Answer;
use crate::check_command::{given_texts, with_paths};
use crate::databases::{named, refused_database};
use crate::verb::{Verb, root_of, text_of};
use hwdb_answers::ToolError;
use hwdb_check::TextFile;
use hwdb_cli::{Job, TestArgs};
use hwdb_io::Source;
use hwdb_reader::check;
use hwdb_system::{Machine, Refusal, System};
use hwdb_test::test_files;
use std::alloc::Global;

/// What is tested: the database at a path, or without a path the one that is asked below a root; and in which form it is told.
#[derive(Clone, Copy)]
pub struct TestQuestion<'a> {
    /// What is in front of the paths of databases.
    pub root: &'a str,
    /// The path.
    pub database: Option<&'a str>,
    /// Whether as JSON.
    pub json: bool,
}

/// What the given test files say of the database at the path, or without a path of the one that is asked. `-` is what `input` has
/// left. The status is 1 if a wanted line doesn't hold, else 0.
///
/// All files are read first, in their order, and then the database: the error is the first that comes so.
pub fn test<D: System, I: Source>(
    alloc: Global,
    given: &[String],
    question: TestQuestion<'_>,
    system: &D,
    input: &mut I,
) -> Result<Answer, Refusal>
    ensures follows { D.Store.tells → OfInput (I.left input.old) (I.failures input.old)
        (I.failures input.new) (λ told. Follows end_of (D.System.reads system.now)
        (test_plan told (map string_bytes given.now)
        (option_map (λ t. t.now) question.entry.database)
        question.entry.root.now question.entry.json) result) }
    ensures unread { any_dash (map string_bytes given.now) ≡ false → input.new ≡ input.old }
{
    let texts = given_texts(alloc, given, given, system, input)?;
    let files = with_paths(alloc, given, &texts)?;
    tried(alloc, question, &files, system)
}

/// The same of files that were read.
fn tried<D: System>(
    alloc: Global,
    question: TestQuestion<'_>,
    files: &[TextFile<'_>],
    system: &D,
) -> Result<Answer, Refusal>
    ensures follows { D.Store.tells
        → All (λ (s : Source). length s.bytes ≤ max_file) (map source_of files.now)
        → Follows end_of (D.System.reads system.now)
        (named (option_map (λ t. t.now) question.entry.database) question.entry.root.now
        (tested question.entry.json (map source_of files.now))) result }
{
    let found = named(alloc, question.root, question.database, system)?;
    match tried_over(alloc, question.json, files, &found.bytes) {
        Ok(answer) => Ok(answer),
        Err(error) => Err(refused_database(alloc, error, found.path.as_bytes())),
    }
}

/// The same over bytes that were read. It is an error if these are no database, or if a file has more than 4,294,967,295 lines.
fn tried_over(
    alloc: Global,
    json: bool,
    files: &[TextFile<'_>],
    bytes: &[u8],
) -> Result<Answer, ToolError>
    ensures tested { IfOk result (λ a. OnOut
        (IsVerdict json (map source_of files.now) a.status bytes.now) (texts_in a)) }
    ensures refused { IfErr result (IsTrialRefusal (map source_of files.now) bytes.now) }
{
    let db = match check(bytes) {
        Ok(db) => db,
        Err(fault) => return Err(ToolError::BadDatabase(fault)),
    };
    match test_files(alloc, &db, json, files) {
        Ok(tested) => Ok(Answer::new(alloc, tested.text, tested.status)),
        Err(error) => Err(ToolError::from(error)),
    }
}

impl<D: Machine, I: Source> Verb<D, I> for TestArgs {
    ghost task = { λ args. Test args };

    fn answer(
        &self,
        alloc: Global,
        job: &Job,
        system: &D,
        input: &mut I,
    ) -> Result<Answer, Refusal> {
        let question = TestQuestion {
            root: root_of(job),
            database: text_of(&self.database),
            json: self.json,
        };
        test(alloc, &self.files, question, system, input)
    }
}

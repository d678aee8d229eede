//! `verify`: a database that is read whole.
ghost use Rattle.std.specs.Prelude.{◌≡◌, ℕ, false, List, Some, option_map, IfOk};
ghost use Rattle.hwdb_spec_commands.specs.Verdicts.{verdict_text};
ghost use Rattle.hwdb_spec_commands.specs.Refusals.{IsInWords};
ghost use Rattle.hwdb_spec_program.specs.GivenDatabases.{names_input};
ghost use Rattle.hwdb_spec_program.specs.NamedDatabases.{IsOfVerify};
ghost use Rattle.hwdb_tool.specs.Views.{end_of};
ghost use Rattle.hwdb_spec_commands.specs.Told.{IsStop, Reads};
ghost use Rattle.hwdb_spec_commands.specs.Told.Stop.{Says};
ghost use Rattle.hwdb_plan.specs.Input.{OverInput, OverNamed};
ghost use Rattle.hwdb_plan.specs.Verify.{summary, verify_plan, verify_stop};
ghost use Rattle.hwdb_plan.specs.Plans.{Follows};
ghost use Rattle.hwdb_spec.specs.declared.errors.VerifyError.{VerifyError};
ghost use Rattle.hwdb_spec_commands.specs.declared.job.Task.TheVariants.{Verify};

use crate::answer::Answer;
use crate::databases::named;
use crate::given::{INPUT, names_input, read_input};
use crate::verb::{Verb, root_of, text_of};
use crate::verdicts::verdict;
use hwdb_answers::ToolError;
use hwdb_cli::{Job, VerifyArgs};
use hwdb_databases::VerifyError;
use hwdb_io::Source;
use hwdb_reader::DbFault;
use hwdb_system::{Machine, Refusal, System};
use std::alloc::Global;

/// How much is in the database at the path, or if none is given in the one that is asked. `-` is what `input` has left. Bytes
/// that are none are an error, which says what is wrong with them.
pub fn verify<D: System, I: Source>(
    alloc: Global,
    root: &str,
    given: Option<&str>,
    system: &D,
    input: &mut I,
) -> Result<Answer, Refusal>
    ensures status { IfOk result (λ a. a.status ≡ 0) }
    ensures follows { D.Store.tells → OverNamed (option_map (λ t. t.now) given.entry)
        (I.left input.old) (I.failures input.old) (I.failures input.new)
        (D.System.reads system.now)
        (λ given reads. Follows end_of reads (verify_plan given root.now) result) }
    ensures unread { names_input (option_map (λ t. t.now) given.entry) ≡ false
        → input.new ≡ input.old }
{
    if names_input(given) {
        verify_input(alloc, input)
    } else {
        verify_stored(alloc, root, given, system)
    }
}

/// The same of what `input` has left.
fn verify_input<I: Source>(alloc: Global, input: &mut I) -> Result<Answer, Refusal>
    ensures status { IfOk result (λ a. a.status ≡ 0) }
    ensures follows { (root : List ℕ) (reads : Reads) → OverInput
        (I.left input.old) (I.failures input.old) (I.failures input.new) reads
        (λ path reads. Follows end_of reads (verify_plan (Some path) root) result) }
{
    let bytes = read_input(alloc, input)?;
    summed(alloc, INPUT, &bytes)
}

/// The same of the database at the path, or if none is given of the one that is asked.
#[tactic(auto, using(hwdb_plan::specs::Lemmas::Steps::stopped))]
fn verify_stored<D: System>(
    alloc: Global,
    root: &str,
    given: Option<&str>,
    system: &D,
) -> Result<Answer, Refusal>
    ensures status { IfOk result (λ a. a.status ≡ 0) }
    ensures follows { D.Store.tells → Follows end_of (D.System.reads system.now)
        (verify_plan (option_map (λ t. t.now) given.entry) root.now) result }
{
    let found = named(alloc, root, given, system)?;
    summed(alloc, found.path.as_bytes(), &found.bytes)
}

/// The same of the bytes at a path.
fn summed(alloc: Global, path: &[u8], bytes: &[u8]) -> Result<Answer, Refusal>
    ensures status { IfOk result (λ a. a.status ≡ 0) }
    ensures follows { (reads : Reads) → Follows end_of reads (summary path.now bytes.now) result }
{
    match hwdb_databases::verify(alloc, bytes) {
        Ok(text) => Ok(Answer::new(alloc, text, 0)),
        Err(error) => Err(refusal_of(alloc, error, path)),
    }
}

/// The error if the bytes at the path can't be verified.
fn refusal_of(alloc: Global, error: VerifyError, path: &[u8]) -> Refusal
    ensures refusal { IsOfVerify error path.now result }
    ensures stops { IsStop (verify_stop path.now error) result }
{
    match error {
        VerifyError::Database(fault) => refused_verdict(alloc, fault, path),
        VerifyError::Memory => Refusal::from(ToolError::Memory),
    }
}

/// The error of a fault.
fn refused_verdict(alloc: Global, fault: DbFault, path: &[u8]) -> Refusal
    ensures refusal { IsInWords (verdict_text path.now fault) result }
    ensures stops { IsStop (Says (verdict_text path.now fault)) result }
{
    match verdict(alloc, path, fault) {
        Ok(text) => Refusal::InWords(text),
        Err(refused) => Refusal::from(refused),
    }
}

impl<D: Machine, I: Source> Verb<D, I> for VerifyArgs {
    ghost task = { λ args. Verify args };

    fn answer(
        &self,
        alloc: Global,
        job: &Job,
        system: &D,
        input: &mut I,
    ) -> Result<Answer, Refusal> {
        verify(alloc, root_of(job), text_of(&self.database), system, input)
    }
}

//! `dump`: a database that is read and printed as a text file.
ghost use Rattle.std.specs.Prelude.{◌≡◌, ℕ, false, List, Some, option_map, IfOk};
ghost use Rattle.hwdb_spec_commands.specs.Refusals.{IsInWords};
ghost use Rattle.hwdb_spec_program.specs.GivenDatabases.{names_input};
ghost use Rattle.hwdb_spec_program.specs.NamedDatabases.{IsOfDump};
ghost use Rattle.hwdb_tool.specs.Views.{end_of};
ghost use Rattle.hwdb_spec_commands.specs.Told.{IsStop, Reads};
ghost use Rattle.hwdb_spec_commands.specs.Told.Stop.{Says};
ghost use Rattle.hwdb_plan.specs.Dump.{dump_plan, dump_stop, text_form};
ghost use Rattle.hwdb_plan.specs.Input.{OverInput, OverNamed};
ghost use Rattle.hwdb_plan.specs.Plans.{Follows};
ghost use Rattle.hwdb_spec_commands.specs.Asked.{unsayable_text};
ghost use Rattle.hwdb_spec.specs.declared.errors.DumpError.{DumpError};
ghost use Rattle.hwdb_spec_commands.specs.declared.job.Task.TheVariants.{Dump};

use crate::answer::Answer;
use crate::databases::named;
use crate::given::{INPUT, names_input, read_input};
use crate::verb::{Verb, root_of, text_of};
use hwdb_answers::ToolError;
use hwdb_check::push_shown;
use hwdb_cli::{DumpArgs, Job};
use hwdb_databases::DumpError;
use hwdb_io::Source;
use hwdb_reader::law_one_tree;
use hwdb_show::push_name;
use hwdb_system::{Machine, Refusal, System};
use std::alloc::{AllocError, Global};

/// The database at the path, or if none is given the one that is asked, as a text file. `-` is what `input` has left. Errors are bytes
/// that are no database, and one with an assignment that no text file can say.
pub fn dump<D: System, I: Source>(
    alloc: Global,
    root: &str,
    given: Option<&str>,
    system: &D,
    input: &mut I,
) -> Result<Answer, Refusal>
    ensures status { IfOk result (λ a. a.status ≡ 0) }
    ensures follows { D.Store.tells → OverNamed (option_map (λ t. t.now) given.entry)
        (I.left input.old) (I.failures input.old) (I.failures input.new)
        (D.System.reads system.now)
        (λ given reads. Follows end_of reads (dump_plan given root.now) result) }
    ensures unread { names_input (option_map (λ t. t.now) given.entry) ≡ false
        → input.new ≡ input.old }
{
    if names_input(given) {
        dump_input(alloc, input)
    } else {
        dump_stored(alloc, root, given, system)
    }
}

/// The same of what `input` has left.
fn dump_input<I: Source>(alloc: Global, input: &mut I) -> Result<Answer, Refusal>
    ensures status { IfOk result (λ a. a.status ≡ 0) }
    ensures follows { (root : List ℕ) (reads : Reads) → OverInput
        (I.left input.old) (I.failures input.old) (I.failures input.new) reads
        (λ path reads. Follows end_of reads (dump_plan (Some path) root) result) }
{
    let bytes = read_input(alloc, input)?;
    texted(alloc, INPUT, &bytes)
}

/// The same of the database at the path, or if none is given of the one that is asked.
#[tactic(auto, using(hwdb_plan::specs::Lemmas::Steps::stopped))]
fn dump_stored<D: System>(
    alloc: Global,
    root: &str,
    given: Option<&str>,
    system: &D,
) -> Result<Answer, Refusal>
    ensures status { IfOk result (λ a. a.status ≡ 0) }
    ensures follows { D.Store.tells → Follows end_of (D.System.reads system.now)
        (dump_plan (option_map (λ t. t.now) given.entry) root.now) result }
{
    let found = named(alloc, root, given, system)?;
    texted(alloc, found.path.as_bytes(), &found.bytes)
}

/// The same of the bytes at a path.
fn texted(alloc: Global, path: &[u8], bytes: &[u8]) -> Result<Answer, Refusal>
    ensures status { IfOk result (λ a. a.status ≡ 0) }
    ensures follows { (reads : Reads) → Follows end_of reads (text_form path.now bytes.now) result }
{
    law_one_tree();
    match hwdb_databases::dump(alloc, bytes) {
        Ok(text) => Ok(Answer::new(alloc, text, 0)),
        Err(error) => Err(refusal_of(alloc, error, path)),
    }
}

/// The error if the bytes at the path can't be dumped.
fn refusal_of(alloc: Global, error: DumpError, path: &[u8]) -> Refusal
    ensures refusal { IsOfDump error path.now result }
    ensures stops { IsStop (dump_stop path.now error) result }
{
    match error {
        DumpError::Database(fault) => {
            Refusal::of_cause(alloc, ToolError::BadDatabase(fault), path, None)
        }
        DumpError::Unsayable(pattern) => refused_pattern(alloc, path, &pattern),
        DumpError::Memory => Refusal::from(ToolError::Memory),
    }
}

/// The error of a database with an assignment of this pattern that no text says.
fn refused_pattern(alloc: Global, path: &[u8], pattern: &[u8]) -> Refusal
    ensures refusal { IsInWords (unsayable_text path.now pattern.now) result }
    ensures stops { IsStop (Says (unsayable_text path.now pattern.now)) result }
{
    match unsayable(alloc, path, pattern) {
        Ok(text) => Refusal::InWords(text),
        Err(refused) => Refusal::from(refused),
    }
}

/// The words of it.
fn unsayable(alloc: Global, path: &[u8], pattern: &[u8]) -> Result<Vec<u8>, AllocError>
    ensures { IfOk result (λ text. text.items ≡ unsayable_text path.now pattern.now) }
{
    let mut text = Vec::new(alloc);
    push_name(&mut text, path)?;
    text.extend_from_slice(b": no text file can say an assignment of the pattern ")?;
    push_shown(&mut text, pattern)?;
    Ok(text)
}

impl<D: Machine, I: Source> Verb<D, I> for DumpArgs {
    ghost task = { λ args. Dump args };

    fn answer(
        &self,
        alloc: Global,
        job: &Job,
        system: &D,
        input: &mut I,
    ) -> Result<Answer, Refusal> {
        dump(alloc, root_of(job), text_of(&self.database), system, input)
    }
}

//! `--text`: a task over the text files of both folders, as an update would compile them now. Nothing is written.
ghost use Rattle.std.specs.Prelude.{◌≡◌, ◌≤◌, ℕ, List, false, length, true, IfOk, OnOk};
ghost use Rattle.hwdb_plan.specs.Ended.{outs};
ghost use Rattle.hwdb_plan.specs.OverText.{basis, basis_now};
ghost use Rattle.hwdb_plan.specs.Plans.{ReachesValue};
ghost use Rattle.hwdb_spec.specs.Flushing.{HandsOn};
ghost use Rattle.hwdb_spec.specs.Folders.{Source};
ghost use Rattle.hwdb_spec_commands.specs.OverText.{text_besides};
ghost use Rattle.hwdb_spec.specs.Texts.{max_file};
ghost use Rattle.hwdb_spec_program.specs.Program.{asks_text, reads_input, root_of};
ghost use Rattle.hwdb_spec_program.specs.ProgramPlan.{ShowsPlan, program_plan};
ghost use Rattle.hwdb_spec_commands.specs.Refusals.{IsInWords};
ghost use Rattle.hwdb_spec_commands.specs.Runs.{told_by};
ghost use Rattle.hwdb_spec_commands.specs.Status.{IsMade};
ghost use Rattle.hwdb_spec_commands.specs.SysfsAnswers.{sight_by};
ghost use Rattle.hwdb_spec_program.specs.Words.{AskFor};
ghost use Rattle.hwdb_tool.specs.TextPlans.{TextShowsOver, besides_for, plan_over};

use crate::besides::text_besides;
use crate::dispatch::run;
use crate::printing::say;
use crate::status_command::compiled;
use crate::verb::root_of;
use hwdb_cli::{Job, Task};
use hwdb_io::{Sink, Source};
use hwdb_plan::{only_asked_matters, over_is_no_more, over_is_over};
use hwdb_system::{Machine, Overlay, Refusal, System, selected, with_texts};
use std::alloc::Global;

/// Whether the job answers from the text files: an update never does.
pub fn asks_text(job: &Job) -> bool
    ensures { result ≡ asks_text job.now }
{
    job.text && !matches!(job.task, Task::Update(_))
}

/// The error of words that don't fit `--text`, of which this is said.
pub(crate) fn misused(alloc: Global, text: &str) -> Refusal
    ensures { IsInWords text.now result }
{
    match Vec::from_slice(alloc, text.as_bytes()) {
        Ok(text) => Refusal::InWords(text),
        Err(refused) => Refusal::from(refused),
    }
}

/// What `--text` answers from.
#[derive(Drop)]
struct Basis {
    /// The database that an update would write now.
    database: Vec<u8>,
    /// What the task says besides.
    besides: Vec<u8>,
}

/// The database that an update would write now of the text files of both folders below the root, and what the task says besides.
/// Errors are, in this order: the text files can't be read, and they can't be compiled.
fn made<D: System>(alloc: Global, task: &Task, root: &str, system: &D) -> Result<Basis, Refusal>
    ensures told { D.Store.tells → ReachesValue (λ m. basis m.besides.items m.database.items)
        (D.System.reads system.now) (basis_now root.now (besides_for task.now)) result }
    ensures made { D.Store.tells → IfOk result (λ m. (of_etc of_usr : List Source)
        × IsMade root.now (D.Store.seen system.now) of_etc of_usr m.database.items
        × (m.besides.items ≡ text_besides task.now of_etc of_usr)) }
{
    let selection = selected(alloc, root, system)?;
    let files = with_texts(alloc, &selection.chosen, &selection.texts)?;
    let made = compiled(alloc, &files)?;
    let besides = text_besides(alloc, task, &files, &selection.listed)?;
    Ok(Basis {
        database: made.database,
        besides,
    })
}

/// With `--text` a command shows what `over` of its plan ends in.
pub fn text_shows_over()
    ensures { TextShowsOver }
{
    only_asked_matters();
    over_is_over();
}

/// Does the job's task over the files as they are, but that the database has these bytes. Returns the status.
fn run_over<D: Machine, I: Source, O: Sink, E: Sink>(
    alloc: Global,
    job: &Job,
    database: &[u8],
    system: &D,
    input: &mut I,
    out: &mut O,
    err: &mut E,
) -> Result<u8, Refusal>
    requires { asks_text job.now ≡ true }
    ensures status { IfOk result (λ status. status ≤ 1) }
    ensures unread { reads_input job.now.task ≡ false → input.new ≡ input.old }
    ensures follows { D.Store.tells → length database.now ≤ max_file → (words : List (List ℕ))
        → AskFor words job.now → ShowsPlan (plan_over (root_of job.now) database.now words)
        (D.System.reads system.now) (sight_by D.answers system.now)
        (told_by I.left I.failures input.old) (told_by I.left I.failures input.new)
        (outs (told_by E.taken E.failures err.old) (told_by O.taken O.failures out.old))
        (outs (told_by E.taken E.failures err.new) (told_by O.taken O.failures out.new)) result }
    ensures unfailed { OnOk result (O.failures out.new ≡ O.failures out.old) }
    ensures out_hands_on { HandsOn (O.is_flushed out.old) (O.is_flushed out.new)
        (O.failures out.old) (O.failures out.new) }
    ensures err_hands_on { HandsOn (E.is_flushed err.old) (E.is_flushed err.new)
        (E.failures err.old) (E.failures err.new) }
{
    text_shows_over();
    let root = root_of(job);
    let mut shown = Overlay::new(system, root, database);
    run(alloc, job, &mut shown, input, out, err)
}

/// Does the job over the files as they are, but that the database has the bytes that an update would write now. After that `out` gets what
/// is said besides. Returns the status.
///
/// Errors are, in this order: words don't fit `--text`, the text files can't be read, they can't be compiled, and those of the task.
/// Beside the task's own time it takes that of an update without its sync.
pub fn run_over_text<D: Machine, I: Source, O: Sink, E: Sink>(
    alloc: Global,
    job: &Job,
    system: &D,
    input: &mut I,
    out: &mut O,
    err: &mut E,
) -> Result<u8, Refusal>
    requires { asks_text job.now ≡ true }
    ensures status { IfOk result (λ status. status ≤ 1) }
    ensures unread { reads_input job.now.task ≡ false → input.new ≡ input.old }
    ensures follows { D.Store.tells → (words : List (List ℕ)) → AskFor words job.now
        → ShowsPlan (λ a. program_plan a words) (D.System.reads system.now)
        (sight_by D.answers system.now)
        (told_by I.left I.failures input.old) (told_by I.left I.failures input.new)
        (outs (told_by E.taken E.failures err.old) (told_by O.taken O.failures out.old))
        (outs (told_by E.taken E.failures err.new) (told_by O.taken O.failures out.new)) result }
    ensures out_hands_on { HandsOn (O.is_flushed out.old) (O.is_flushed out.new)
        (O.failures out.old) (O.failures out.new) }
    ensures err_hands_on { HandsOn (E.is_flushed err.old) (E.is_flushed err.new)
        (E.failures err.old) (E.failures err.new) }
{
    over_is_no_more();
    if let Some(text) = job.misfit {
        return Err(misused(alloc, text));
    }
    let root = root_of(job);
    let made = made(alloc, &job.task, root, system)?;
    let status = run_over(alloc, job, &made.database, system, input, out, err)?;
    say(&made.besides, out)?;
    Ok(status)
}

//! The verbs of the program: what a command does by the words after its name, as the plan of these words says.
ghost use Rattle.std.specs.Prelude.{◌≡◌, ◌≤◌, false, option_map, string_bytes, IfOk, OnOk};
ghost use Rattle.hwdb_plan.specs.Ended.{outs};
ghost use Rattle.hwdb_spec.specs.Flushing.{HandsOn};
ghost use Rattle.hwdb_spec_commands.specs.Runs.{told_by};
ghost use Rattle.hwdb_spec_commands.specs.SysfsAnswers.{sight_by};
ghost use Rattle.hwdb_spec_commands.specs.declared.job.Task.{Task};
ghost use Rattle.hwdb_spec_program.specs.Program.{reads_input, root_of};
ghost use Rattle.hwdb_tool.specs.Verbs.{AnswersAsked, ShowsAsked};

use crate::answer::Answer;
use crate::printing::printed;
use hwdb_cli::Job;
use hwdb_io::{Sink, Source};
use hwdb_system::{Machine, Refusal};
use std::alloc::Global;

/// What the words of a command ask for that prints one answer.
pub(crate) trait Verb<D: Machine, I: Source> {
    /// The task of these words.
    ghost task: { Self → Task };

    /// The answer. Errors are those of the command. Nothing is read of `input` unless the words name it.
    fn answer(&self, alloc: Global, job: &Job, system: &D, input: &mut I) -> Result<Answer, Refusal>
        requires { job.now.task ≡ task self.now }
        ensures follows { D.Store.tells → AnswersAsked job.now (D.System.reads system.now)
            (sight_by D.answers system.now) (told_by I.left I.failures input.old)
            (told_by I.left I.failures input.new) result }
        ensures unread { reads_input (task self.now) ≡ false → input.new ≡ input.old };
}

/// What the words of a command ask for that prints as it goes.
pub(crate) trait StreamVerb<D: Machine, I: Source, O: Sink, E: Sink> {
    /// The task of these words.
    ghost task: { Self → Task };

    /// Prints to `out`, and to `err` what is said besides. Returns the status. Errors are those of the command, and of both outputs.
    fn run(
        &self,
        alloc: Global,
        job: &Job,
        system: &D,
        input: &mut I,
        out: &mut O,
        err: &mut E,
    ) -> Result<u8, Refusal>
        requires { job.now.task ≡ task self.now }
        ensures status { IfOk result (λ status. status ≤ 1) }
        ensures follows { D.Store.tells → ShowsAsked job.now (D.System.reads system.now)
            (sight_by D.answers system.now) (told_by I.left I.failures input.old)
            (told_by I.left I.failures input.new)
            (outs (told_by E.taken E.failures err.old) (told_by O.taken O.failures out.old))
            (outs (told_by E.taken E.failures err.new) (told_by O.taken O.failures out.new))
            result }
        ensures unread { reads_input (task self.now) ≡ false → input.new ≡ input.old }
        ensures unfailed { OnOk result (O.failures out.new ≡ O.failures out.old) }
        ensures out_hands_on { HandsOn (O.is_flushed out.old) (O.is_flushed out.new)
            (O.failures out.old) (O.failures out.new) }
        ensures err_hands_on { HandsOn (E.is_flushed err.old) (E.is_flushed err.new)
            (E.failures err.old) (E.failures err.new) };
}

/// Prints the answer of a verb: first to `err`, and then to `out`. Returns its status.
pub(crate) fn print_answer<V: Verb<D, I>, D: Machine, I: Source, O: Sink, E: Sink>(
    alloc: Global,
    job: &Job,
    verb: &V,
    system: &D,
    input: &mut I,
    out: &mut O,
    err: &mut E,
) -> Result<u8, Refusal>
    requires { job.now.task ≡ V.task verb.now }
    ensures status { IfOk result (λ status. status ≤ 1) }
    ensures follows { D.Store.tells → ShowsAsked job.now (D.System.reads system.now)
        (sight_by D.answers system.now) (told_by I.left I.failures input.old)
        (told_by I.left I.failures input.new)
        (outs (told_by E.taken E.failures err.old) (told_by O.taken O.failures out.old))
        (outs (told_by E.taken E.failures err.new) (told_by O.taken O.failures out.new)) result }
    ensures unread { reads_input (V.task verb.now) ≡ false → input.new ≡ input.old }
    ensures unfailed { OnOk result (O.failures out.new ≡ O.failures out.old) }
    ensures out_hands_on { HandsOn (O.is_flushed out.old) (O.is_flushed out.new)
        (O.failures out.old) (O.failures out.new) }
    ensures err_hands_on { HandsOn (E.is_flushed err.old) (E.is_flushed err.new)
        (E.failures err.old) (E.failures err.new) }
{
    let answer = verb.answer(alloc, job, system, input);
    printed(answer, out, err)
}

/// What is in front of the paths of folders and databases.
pub fn root_of(job: &Job) -> &str
    ensures { result.now ≡ root_of job.now }
{
    match &job.root {
        Some(root) => root.as_str(),
        None => "",
    }
}

/// The text of an option, if it was given.
pub(crate) fn text_of(option: &Option<String>) -> Option<&str>
    ensures { option_map (λ t. t.now) result ≡ option_map string_bytes option.now }
{
    match option {
        Some(text) => Some(text.as_str()),
        None => None,
    }
}

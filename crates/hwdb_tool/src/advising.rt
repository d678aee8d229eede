//! What is said on a terminal if a command prints nothing: what to try next.
ghost use Rattle.std.specs.Prelude.{◌≡◌, ◌≤◌, ◌&&◌, ℕ, IfOk, IfSome, List, Some, codes, false, true};
ghost use Rattle.hwdb_plan.specs.Advice.{advice_of, with_advice};
ghost use Rattle.hwdb_plan.specs.Ended.{outs};
ghost use Rattle.hwdb_plan.specs.Plans.{Follows};
ghost use Rattle.hwdb_spec.specs.Flushing.{HandsOn};
ghost use Rattle.hwdb_spec_commands.specs.Given.{is_dash};
ghost use Rattle.hwdb_spec_commands.specs.Runs.{told_by};
ghost use Rattle.hwdb_spec_commands.specs.SysfsAnswers.{sight_by};
ghost use Rattle.hwdb_spec_program.specs.Program.{IsUpdate, reads_input};
ghost use Rattle.hwdb_spec_program.specs.ProgramPlan.{OfAround, ShowsPlan, program_plan, shown_plan};
ghost use Rattle.hwdb_spec_program.specs.Words.{AskFor};
ghost use Rattle.hwdb_tool.specs.Advising.{IsWholeTask, is_advised, task_advice};
ghost use Rattle.hwdb_tool.specs.Views.{end_of};

use crate::answer::Answer;
use crate::dispatch::run;
use crate::given::is_dash;
use crate::kept::{Kept, unkept};
use crate::over_text::{asks_text, run_over_text};
use crate::printing::printed;
use hwdb_cli::{Job, Task};
use hwdb_io::{Sink, Source};
use hwdb_plan::advised_is_said;
use hwdb_system::{Machine, Refusal};
use std::alloc::{AllocError, Global};

/// What is said of a device that no pattern matches.
const NO_MATCH: &str = "hwdb: no pattern matches: 'hwdb near' says where each stops\n";

/// The same if no pattern is near one.
const NOT_NEAR: &str = "hwdb: no pattern is near: 'hwdb device' says what udev asks for a device\n";

/// The same if nothing is asked for devices.
const NOT_ASKED: &str =
    "hwdb: nothing is asked: 'hwdb device' lists the devices for which something is, --root DIR those below another root\n";

/// Whether something is said of a task that prints nothing.
#[tactic(auto, using(crate::proofs::ExplainWords::explain_whole, crate::proofs::NearWords::near_whole, crate::proofs::DeviceWords::device_whole,))]
fn is_advised(task: &Task) -> bool
    ensures is { result ≡ is_advised task.now }
    ensures whole { result ≡ true → IsWholeTask task.now }
{
    match task {
        Task::Explain(args) => !is_dash(args.device.as_str()),
        Task::Near(_) => true,
        Task::Device(_) => true,
        _ => false,
    }
}

/// What is said of the device of `explain`.
fn explain_advice(alloc: Global, device: &str) -> Result<Vec<u8>, AllocError>
    requires { is_dash device.now ≡ false }
    ensures { IfOk result (λ line. Some line.items ≡ advice_of (codes "explain") device.now) }
{
    Vec::from_slice(alloc, NO_MATCH.as_bytes())
}

/// What is said of a task that prints nothing.
fn task_advice(alloc: Global, task: &Task) -> Result<Vec<u8>, AllocError>
    requires { is_advised task.now ≡ true }
    ensures { IfOk result (λ line. Some line.items ≡ task_advice task.now) }
{
    match task {
        Task::Explain(args) => explain_advice(alloc, args.device.as_str()),
        Task::Near(_) => Vec::from_slice(alloc, NOT_NEAR.as_bytes()),
        Task::Device(_) => Vec::from_slice(alloc, NOT_ASKED.as_bytes()),
        _ => Ok(Vec::new(alloc)),
    }
}

/// An answer with this line, if it prints nothing.
fn advised(answer: Answer, line: Vec<u8>) -> Answer
    ensures { end_of result ≡ with_advice line.items (end_of answer) }
{
    if answer.err.is_empty() && answer.out.is_empty() {
        return Answer::with_error(line, answer.out, answer.status);
    }
    answer
}

/// Does a task that isn't an update, over the files as they are or over the text files.
fn run_either<D: Machine, I: Source, O: Sink, E: Sink>(
    alloc: Global,
    job: &Job,
    system: &mut D,
    input: &mut I,
    out: &mut O,
    err: &mut E,
) -> Result<u8, Refusal>
    requires { IsUpdate job.now.task → ⊥ }
    ensures status { IfOk result (λ status. status ≤ 1) }
    ensures follows { D.Store.tells → (words : List (List ℕ)) → AskFor words job.now
        → ShowsPlan (λ a. program_plan a words) (D.System.reads system.old)
        (sight_by D.answers system.old)
        (told_by I.left I.failures input.old) (told_by I.left I.failures input.new)
        (outs (told_by E.taken E.failures err.old) (told_by O.taken O.failures out.old))
        (outs (told_by E.taken E.failures err.new) (told_by O.taken O.failures out.new)) result }
    ensures unread { reads_input job.now.task ≡ false → input.new ≡ input.old }
    ensures kept { system.new ≡ system.old }
{
    if asks_text(job) {
        return run_over_text(alloc, job, system, input, out, err);
    }
    run(alloc, job, system, input, out, err)
}

/// What a task prints that ends in one answer.
fn kept_answer<D: Machine, I: Source>(
    alloc: Global,
    job: &Job,
    system: &mut D,
    input: &mut I,
) -> Result<Answer, Refusal>
    requires said { is_advised job.now.task ≡ true }
    requires whole { IsWholeTask job.now.task }
    ensures follows { D.Store.tells → (words : List (List ℕ)) → AskFor words job.now
        → OfAround (sight_by D.answers system.old)
        (I.left input.old) (I.failures input.old) (I.failures input.new)
        (λ a. IfSome (program_plan a words)
        (λ p. Follows end_of (D.System.reads system.old) p result)) }
    ensures unread { reads_input job.now.task ≡ false → input.new ≡ input.old }
    ensures kept { system.new ≡ system.old }
{
    let mut out = Kept::new(alloc);
    let mut err = Kept::new(alloc);
    match run_either(alloc, job, system, input, &mut out, &mut err) {
        Ok(status) => Ok(Answer::with_error(err.bytes, out.bytes, status)),
        Err(refusal) => Err(unkept(refusal, &out, &err)),
    }
}

/// The same with what is said then.
fn advised_answer<D: Machine, I: Source>(
    alloc: Global,
    job: &Job,
    system: &mut D,
    input: &mut I,
) -> Result<Answer, Refusal>
    requires said { is_advised job.now.task ≡ true }
    requires whole { IsWholeTask job.now.task }
    ensures follows { D.Store.tells → (words : List (List ℕ)) → AskFor words job.now
        → OfAround (sight_by D.answers system.old)
        (I.left input.old) (I.failures input.old) (I.failures input.new)
        (λ a. IfSome (shown_plan true a words)
        (λ p. Follows end_of (D.System.reads system.old) p result)) }
    ensures unread { reads_input job.now.task ≡ false → input.new ≡ input.old }
    ensures kept { system.new ≡ system.old }
{
    advised_is_said();
    let line = task_advice(alloc, &job.task)?;
    let answer = kept_answer(alloc, job, system, input)?;
    Ok(advised(answer, line))
}

/// Does a task whose standard error is a terminal, and says what to try next if it prints nothing. Its texts are kept in memory until both are
/// whole.
pub fn run_advised<D: Machine, I: Source, O: Sink, E: Sink>(
    alloc: Global,
    job: &Job,
    system: &mut D,
    input: &mut I,
    out: &mut O,
    err: &mut E,
) -> Result<u8, Refusal>
    requires said { is_advised job.now.task ≡ true }
    requires whole { IsWholeTask job.now.task }
    ensures status { IfOk result (λ status. status ≤ 1) }
    ensures follows { D.Store.tells → (words : List (List ℕ)) → AskFor words job.now
        → ShowsPlan (λ a. shown_plan true a words) (D.System.reads system.old)
        (sight_by D.answers system.old)
        (told_by I.left I.failures input.old) (told_by I.left I.failures input.new)
        (outs (told_by E.taken E.failures err.old) (told_by O.taken O.failures out.old))
        (outs (told_by E.taken E.failures err.new) (told_by O.taken O.failures out.new)) result }
    ensures unread { reads_input job.now.task ≡ false → input.new ≡ input.old }
    ensures kept { system.new ≡ system.old }
    ensures out_hands_on { HandsOn (O.is_flushed out.old) (O.is_flushed out.new)
        (O.failures out.old) (O.failures out.new) }
    ensures err_hands_on { HandsOn (E.is_flushed err.old) (E.is_flushed err.new)
        (E.failures err.old) (E.failures err.new) }
{
    let answer = advised_answer(alloc, job, system, input);
    printed(answer, out, err)
}

/// Whether something is said of a task that prints nothing: on a terminal, if the task has a line.
pub fn wants_advice(at_terminal: bool, task: &Task) -> bool
    ensures is { result ≡ (at_terminal && is_advised task.now) }
    ensures whole { result ≡ true → IsWholeTask task.now }
{
    at_terminal && is_advised(task)
}

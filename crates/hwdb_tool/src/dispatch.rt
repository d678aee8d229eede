//! The program: its words, its files, its status and its error lines.
ghost use Rattle.std.specs.Prelude.{◌≡◌, ◌<◌, ◌≤◌, ◌⊎◌, false, map, string_bytes, IfOk, IfErr, List, OnOk, ℕ};
ghost use Rattle.hwdb_plan.specs.Ended.{outs};
ghost use Rattle.hwdb_plan.specs.Putting.{OldOrPut};
ghost use Rattle.hwdb_plan.specs.Update.{update_plan};
ghost use Rattle.hwdb_spec.specs.Flushing.{HandsOn, HasHandedOn};
ghost use Rattle.hwdb_spec.specs.Store as spec;
ghost use Rattle.hwdb_spec_commands.specs.SysfsAnswers.{sight_by};
ghost use Rattle.hwdb_spec_commands.specs.Runs.{files_by, told_by, world_by};
ghost use Rattle.hwdb_spec_commands.specs.WordFaults.{AreWrong};
ghost use Rattle.hwdb_spec_program.specs.Words.{AskFor};
ghost use Rattle.hwdb_spec_commands.specs.declared.job.Job.{Job};
ghost use Rattle.hwdb_spec_commands.specs.declared.args.UpdateArgs.{UpdateArgs};
ghost use Rattle.hwdb_spec_commands.specs.declared.job.Task.TheVariants.{Update};
ghost use Rattle.hwdb_spec_program.specs.Program.{IsUpdate, OldOrAskedFor, OldOrDone, looks_below_root, reads_input, root_of};
ghost use Rattle.hwdb_spec_program.specs.ProgramPlan.{OldOrAsked, RunsPlan, ShowsPlan, shown_plan, update_of};
ghost use Rattle.hwdb_spec_program.specs.TaskRefusals.{AreFaulty, AreRefused, AreTold, IsRootUnread, IsSaid, refused_status};
ghost use Rattle.hwdb_spec_commands.specs.Refusals.{HasReason};
ghost use Rattle.hwdb_spec_commands.specs.declared.refusals.Refusal.TheVariants.{Plain};
ghost use Rattle.hwdb_tool.specs.Updating.{UpdatesAsAsked};
ghost use Rattle.hwdb_tool.specs.Verbs.{ShowsAsked};

use crate::advising::{run_advised, wants_advice};
use crate::hiding::update_asked;
use crate::outlet::Outlet;
use crate::over_text::{asks_text, run_over_text};
use crate::status_command::Fresh;
use crate::verb::{StreamVerb, print_answer};
use hwdb_answers::ToolError;
use hwdb_cli::{Job, Task, WordsFault, read_words};
use hwdb_io::{Sink, Source, write_text};
use hwdb_system::{Machine, Refusal, Rooted, refuse_for, refuse_memory};
use std::alloc::Global;

/// Does what the words say, and returns the status. The first word is the program's name.
///
/// The status is 0 on success. It is 1 if `check`, `test` or `diff` finds something, the database of `status` isn't fresh or hides
/// one, or `--strict` says so. After an error it is 1 as well, and 2 for `diff`; the error's line goes to `err`.
///
/// Words that the command doesn't take, and that ask for no help, are an error. If the reader of `out` went away the status is
/// 0, and nothing is said. Only a command that is given `-` reads of `input`.
///
/// `at_terminal` says whether `err` is a terminal. There `explain`, `near` and `device` say what to try next if they print nothing.
pub fn program<D: Machine, I: Source, O: Outlet, E: Sink>(
    alloc: Global,
    words: &[String],
    system: &mut D,
    input: &mut I,
    out: &mut O,
    err: &mut E,
    at_terminal: bool,
) -> u8
    ensures status { result ≤ 2 }
    ensures wrong_words { AreWrong (map string_bytes words.now) → result ≡ 1 }
    ensures follows { D.Store.tells → let world = world_by (sight_by D.answers)
        (files_by D.Store.seen D.System.may_fail D.Store.may_leave D.Store.failures)
        (told_by I.left I.failures) (told_by O.Sink.taken O.Sink.failures) (told_by E.taken
        E.failures) in RunsPlan at_terminal (O.reader_gone out.new) (map string_bytes words.now)
        (D.System.reads system.old) (world system.old input.old out.old err.old)
        (world system.new input.new out.new err.new) result }
    ensures any_crash { D.Store.tells → (causes : List (List ℕ))
        × spec.LeavesOnly D.Store.moment D.Store.left_since system.old system.new
        (OldOrAsked (update_of (map string_bytes words.now)) (D.System.reads system.old) causes
        (D.Store.seen system.old) (D.Store.may_leave system.old)) }
    ensures told { D.Store.tells → AreFaulty (map string_bytes words.now) → result ≡ 0
        → let world = world_by (sight_by D.answers)
        (files_by D.Store.seen D.System.may_fail D.Store.may_leave D.Store.failures)
        (told_by I.left I.failures) (told_by O.Sink.taken O.Sink.failures)
        (told_by E.taken E.failures) in AreTold (O.reader_gone out.new) (map string_bytes words.now)
        (world system.old input.old out.old err.old) (world system.new input.new out.new err.new) }
    ensures untold { D.Store.tells → AreFaulty (map string_bytes words.now) → 0 < result
        → let world = world_by (sight_by D.answers)
        (files_by D.Store.seen D.System.may_fail D.Store.may_leave D.Store.failures)
        (told_by I.left I.failures) (told_by O.Sink.taken O.Sink.failures)
        (told_by E.taken E.failures) in AreRefused (map string_bytes words.now) result
        (world system.old input.old out.old err.old) (world system.new input.new out.new err.new) }
    ensures any_moment { D.Store.tells
        → spec.LeavesOnly D.Store.moment D.Store.left_since system.old system.new
        (OldOrAskedFor (D.System.may_fail system.old) (map string_bytes words.now)
        (D.Store.seen system.old) (D.Store.may_leave system.old)) }
    ensures unread { ((job : Job) → AskFor (map string_bytes words.now) job
        → reads_input job.task ≡ false) → input.new ≡ input.old }
    ensures out_hands_on { HandsOn (O.Sink.is_flushed out.old) (O.Sink.is_flushed out.new)
        (O.Sink.failures out.old) (O.Sink.failures out.new) }
    ensures err_handed_on { HasHandedOn (E.is_flushed err.old) (E.is_flushed err.new)
        (E.failures err.old) (E.failures err.new) }
{
    match read_words(alloc, words) {
        Ok(job) => match enter_root(&job, system) {
            Ok(()) => match run_job(alloc, &job, system, input, out, err, at_terminal) {
                Ok(status) => status,
                Err(refusal) => refuse_job(alloc, refusal, refused_status(&job.task), out, err),
            },
            Err(refusal) => {
                refuse_for(alloc, &refusal, err);
                refused_status(&job.task)
            }
        },
        Err(WordsFault::Help { text }) => match write_text(out, text.as_bytes()) {
            Ok(()) => 0,
            Err(error) => refuse_job(alloc, Refusal::from(error), 1, out, err),
        },
        Err(WordsFault::Usage { text }) => {
            let _ = write_text(err, text.as_bytes());
            1
        }
        Err(WordsFault::Memory) => {
            refuse_memory(err);
            1
        }
    }
}

/// Has the system find its files below the root that was given, if the task looks for any there. A root that can't be
/// read is an error.
fn enter_root<D: Rooted>(job: &Job, system: &mut D) -> Result<(), Refusal>
    ensures same { D.Store.tells → system.new ≡ system.old }
    ensures refused { IfErr result (IsRootUnread job.now) }
    ensures reason { IfErr result
        (HasReason (D.System.may_fail system.old) ⊥ (D.Store.seen system.old)) }
{
    match &job.root {
        Some(root) if looks_below_root(&job.task) => system.enter(root.as_str()),
        _ => Ok(()),
    }
}

/// Whether the task looks for files below the root.
fn looks_below_root(task: &Task) -> bool
    ensures { result ≡ looks_below_root task.now }
{
    match task {
        Task::Ask(_) | Task::Diff(_) | Task::Keys(_) => false,
        Task::Scan(args) => args.device.as_str() != "-",
        Task::Check(args) => args.files.is_empty(),
        Task::Near(args) => args.files.is_empty(),
        Task::Verify(args) => args.database.is_none(),
        Task::Dump(args) => args.database.is_none(),
        Task::Test(args) => args.database.is_none(),
        Task::Record(args) => args.database.is_none(),
        _ => true,
    }
}

/// Writes the line of the error, and returns the status. If writing to `out` failed, the line says so. If the reader closed the
/// pipe, as `head` does, nothing is said, and the status is 0.
fn refuse_job<O: Outlet, E: Sink>(
    alloc: Global,
    refusal: Refusal,
    status: u8,
    out: &O,
    err: &mut E,
) -> u8
    requires { 0 < status }
    ensures status { (result ≡ 0) ⊎ (result ≡ status) }
    ensures said { result ≡ 0 → refusal ≡ Plain ToolError.Write }
    ensures gone { result ≡ 0 → O.reader_gone out.now }
    ensures quiet { result ≡ 0 → err.new ≡ err.old }
    ensures line { 0 < result → IsSaid refusal
        (told_by E.taken E.failures err.old) (told_by E.taken E.failures err.new) }
    ensures hands_on { HandsOn (E.is_flushed err.old) (E.is_flushed err.new)
        (E.failures err.old) (E.failures err.new) }
{
    match (refusal, out.cause()) {
        (Refusal::Plain(ToolError::Write), Some(cause)) => {
            if out.is_reader_gone() {
                return 0;
            }
            let refusal = Refusal::write(alloc, b"standard output", Some(cause));
            refuse_for(alloc, &refusal, err);
        }
        (refusal, _) => refuse_for(alloc, &refusal, err),
    }
    status
}

/// The status if the task ends with an error: 2 of `diff` and `check`, whose 1 says that something changed or was found.
/// Else it is 1.
fn refused_status(task: &Task) -> u8
    ensures is { result ≡ refused_status task.now }
    ensures small { result ≤ 2 }
    ensures some { 0 < result }
{
    match task {
        Task::Diff(_) | Task::Check(_) => 2,
        _ => 1,
    }
}

/// Does the job, and returns the status: 1 if `check`, `test` or `diff` finds something or `--strict` says so, else 0. If `err` is a
/// terminal, it says what to try next of a command that prints nothing.
fn run_job<D: Machine, I: Source, O: Sink, E: Sink>(
    alloc: Global,
    job: &Job,
    system: &mut D,
    input: &mut I,
    out: &mut O,
    err: &mut E,
    at_terminal: bool,
) -> Result<u8, Refusal>
    ensures status { IfOk result (λ status. status ≤ 1) }
    ensures follows { D.Store.tells → (words : List (List ℕ)) → AskFor words job.now
        → ShowsPlan (λ a. shown_plan at_terminal a words) (D.System.reads system.old)
        (sight_by D.answers system.old)
        (told_by I.left I.failures input.old) (told_by I.left I.failures input.new)
        (outs (told_by E.taken E.failures err.old) (told_by O.taken O.failures out.old))
        (outs (told_by E.taken E.failures err.new) (told_by O.taken O.failures out.new)) result }
    ensures updates { let files = files_by D.Store.seen D.System.may_fail D.Store.may_leave
        D.Store.failures in D.Store.tells → UpdatesAsAsked job.now (D.System.reads system.old)
        (files system.old) (files system.new) (told_by E.taken E.failures err.old)
        (told_by E.taken E.failures err.new) result }
    ensures any_crash { D.Store.tells → (u : UpdateArgs) → job.now.task ≡ Update u
        → (causes : List (List ℕ))
        × spec.LeavesOnly D.Store.moment D.Store.left_since system.old system.new
        (OldOrPut (D.System.reads system.old) (update_plan (root_of job.now) job.now.usr
        job.now.strict u.verbose u.skip_unreadable causes)
        (D.Store.seen system.old) (D.Store.may_leave system.old)) }
    ensures any_moment { D.Store.tells
        → spec.LeavesOnly D.Store.moment D.Store.left_since system.old system.new
        (OldOrDone (D.System.may_fail system.old) job.now
        (D.Store.seen system.old) (D.Store.may_leave system.old)) }
    ensures unread { reads_input job.now.task ≡ false → input.new ≡ input.old }
    ensures kept { (IsUpdate job.now.task → ⊥) → system.new ≡ system.old }
    ensures update { IsUpdate job.now.task → out.new ≡ out.old }
    ensures out_hands_on { HandsOn (O.is_flushed out.old) (O.is_flushed out.new)
        (O.failures out.old) (O.failures out.new) }
    ensures err_hands_on { HandsOn (E.is_flushed err.old) (E.is_flushed err.new)
        (E.failures err.old) (E.failures err.new) }
{
    if wants_advice(at_terminal, &job.task) {
        return run_advised(alloc, job, system, input, out, err);
    }
    if asks_text(job) {
        return run_over_text(alloc, job, system, input, out, err);
    }
    run(alloc, job, system, input, out, err)
}

/// Does the job's task over the files as they are, and returns the status: 1 if `check`, `test` or `diff` finds something or `--strict`
/// says so, else 0.
pub fn run<D: Machine, I: Source, O: Sink, E: Sink>(
    alloc: Global,
    job: &Job,
    system: &mut D,
    input: &mut I,
    out: &mut O,
    err: &mut E,
) -> Result<u8, Refusal>
    ensures status { IfOk result (λ status. status ≤ 1) }
    ensures follows { D.Store.tells → ShowsAsked job.now (D.System.reads system.old)
        (sight_by D.answers system.old)
        (told_by I.left I.failures input.old) (told_by I.left I.failures input.new)
        (outs (told_by E.taken E.failures err.old) (told_by O.taken O.failures out.old))
        (outs (told_by E.taken E.failures err.new) (told_by O.taken O.failures out.new)) result }
    ensures updates { let files = files_by D.Store.seen D.System.may_fail D.Store.may_leave
        D.Store.failures in D.Store.tells → UpdatesAsAsked job.now (D.System.reads system.old)
        (files system.old) (files system.new) (told_by E.taken E.failures err.old)
        (told_by E.taken E.failures err.new) result }
    ensures any_crash { D.Store.tells → (u : UpdateArgs) → job.now.task ≡ Update u
        → (causes : List (List ℕ))
        × spec.LeavesOnly D.Store.moment D.Store.left_since system.old system.new
        (OldOrPut (D.System.reads system.old) (update_plan (root_of job.now) job.now.usr
        job.now.strict u.verbose u.skip_unreadable causes)
        (D.Store.seen system.old) (D.Store.may_leave system.old)) }
    ensures any_moment { D.Store.tells
        → spec.LeavesOnly D.Store.moment D.Store.left_since system.old system.new
        (OldOrDone (D.System.may_fail system.old) job.now
        (D.Store.seen system.old) (D.Store.may_leave system.old)) }
    ensures unread { reads_input job.now.task ≡ false → input.new ≡ input.old }
    ensures kept { (IsUpdate job.now.task → ⊥) → system.new ≡ system.old }
    ensures update { IsUpdate job.now.task → out.new ≡ out.old }
    ensures unfailed { OnOk result (O.failures out.new ≡ O.failures out.old) }
    ensures out_hands_on { HandsOn (O.is_flushed out.old) (O.is_flushed out.new)
        (O.failures out.old) (O.failures out.new) }
    ensures err_hands_on { HandsOn (E.is_flushed err.old) (E.is_flushed err.new)
        (E.failures err.old) (E.failures err.new) }
{
    match &job.task {
        Task::Update(args) => update_asked(alloc, job, args, system, input, out, err),
        Task::Query(args) => args.run(alloc, job, system, input, out, err),
        Task::Explain(args) => args.run(alloc, job, system, input, out, err),
        Task::List(args) => args.run(alloc, job, system, input, out, err),
        Task::Scan(args) => args.run(alloc, job, system, input, out, err),
        Task::Ask(args) => print_answer(alloc, job, args, system, input, out, err),
        Task::Check(args) => print_answer(alloc, job, args, system, input, out, err),
        Task::Near(args) => print_answer(alloc, job, args, system, input, out, err),
        Task::Test(args) => print_answer(alloc, job, args, system, input, out, err),
        Task::Record(args) => print_answer(alloc, job, args, system, input, out, err),
        Task::Device(args) => print_answer(alloc, job, args, system, input, out, err),
        Task::Diff(args) => print_answer(alloc, job, args, system, input, out, err),
        Task::Status(args) => print_answer(alloc, job, args, system, input, out, err),
        Task::Fresh => print_answer(alloc, job, &Fresh, system, input, out, err),
        Task::Keys(args) => print_answer(alloc, job, args, system, input, out, err),
        Task::Verify(args) => print_answer(alloc, job, args, system, input, out, err),
        Task::Dump(args) => print_answer(alloc, job, args, system, input, out, err),
    }
}

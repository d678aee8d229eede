//! What `update --usr --verbose` says before it updates, if /etc's database, which is asked first, hides the new one.
ghost use Rattle.std.specs.Prelude.{◌≡◌, ◌≤◌, ◌++◌, [], ℕ, List, IfOk, OnOk, string_bytes};
ghost use Rattle.hwdb_spec.specs.Flushing.{HandsOn};
ghost use Rattle.hwdb_spec_commands.specs.Runs.{files_by, told_by};
ghost use Rattle.hwdb_spec_program.specs.Hiding.{hiding_line, hiding_text};
ghost use Rattle.hwdb_spec.specs.Store as spec;
ghost use Rattle.hwdb_spec_program.specs.HidingPlan.{UpdatesTelling, hiding_plan};
ghost use Rattle.hwdb_plan.specs.Plans.{Ends};
ghost use Rattle.hwdb_plan.specs.Plans.End.{Answers};
ghost use Rattle.hwdb_plan.specs.Putting.{OldOrPut};
ghost use Rattle.hwdb_plan.specs.Update.{update_plan};
ghost use Rattle.hwdb_tool.specs.Emptying.{SaysOnly};
ghost use Rattle.hwdb_spec_commands.specs.Done.{OldOrUpdatedLess};
ghost use Rattle.hwdb_spec_commands.specs.Asked.{database_path};
ghost use Rattle.hwdb_spec.specs.Visible.{shown_name};
ghost use Rattle.hwdb_plan.specs.Ended.{outs};
ghost use Rattle.hwdb_spec_commands.specs.SysfsAnswers.{sight_by};
ghost use Rattle.hwdb_spec_commands.specs.declared.args.UpdateArgs.{UpdateArgs};
ghost use Rattle.hwdb_spec_commands.specs.declared.job.Task.TheVariants.{Update};
ghost use Rattle.hwdb_spec_program.specs.Program.{OldOrDone, root_of};
ghost use Rattle.hwdb_tool.specs.Updating.{UpdatesAsAsked};
ghost use Rattle.hwdb_tool.specs.Verbs.{ShowsAsked};

use crate::databases::database_folder;
use crate::printing::say;
use crate::update_command::{UpdateAsked, update};
use crate::verb::root_of;
use hwdb_cli::{Job, UpdateArgs};
use hwdb_io::{Sink, Source};
use hwdb_replace::DATABASE;
use hwdb_show::push_name;
use hwdb_system::{Machine, Refusal, System, path_in};
use std::alloc::{AllocError, Global};

/// The path of the database of a folder below the root.
pub(crate) fn database_path(alloc: Global, root: &str, usr: bool) -> Result<String, AllocError>
    ensures { IfOk result (λ path. string_bytes path ≡ database_path usr root.now) }
{
    let folder = database_folder(alloc, root, usr)?;
    path_in(alloc, folder.as_str(), DATABASE)
}

/// Adds the path of the database of a folder below the root, as names are shown.
fn push_path(alloc: Global, line: &mut Vec<u8>, root: &str, usr: bool) -> Result<(), AllocError>
    ensures { OnOk result
        (line.new.items ≡ line.old.items ++ shown_name (database_path usr root.now)) }
{
    let path = database_path(alloc, root, usr)?;
    push_name(line, path.as_bytes())?;
    Ok(())
}

/// The line of a database of /usr/lib that one of /etc hides.
fn hiding_line(alloc: Global, root: &str) -> Result<Vec<u8>, AllocError>
    ensures { IfOk result (λ line. line.items ≡ hiding_line root.now) }
{
    let mut line = Vec::new(alloc);
    push_path(alloc, &mut line, root, false)?;
    line.extend_from_slice(b" hides ")?;
    push_path(alloc, &mut line, root, true)?;
    line.extend_from_slice(b": it is asked first\n")?;
    Ok(line)
}

/// That line, if it is to be said; else nothing.
fn hiding_text<D: System>(
    alloc: Global,
    root: &str,
    usr: bool,
    verbose: bool,
    system: &D,
) -> Result<Vec<u8>, AllocError>
    ensures is { D.Store.tells → IfOk result
        (λ text. text.items ≡ hiding_text usr verbose root.now (D.Store.seen system.now)) }
    ensures follows { D.Store.tells → IfOk result (λ text. Ends (D.System.reads system.now)
        (hiding_plan usr verbose root.now) (Answers 0 text.items [])) }
{
    if !usr || !verbose {
        return Ok(Vec::new(alloc));
    }
    let path = database_path(alloc, root, false)?;
    if system.is_there(alloc, path.as_str())? {
        hiding_line(alloc, root)
    } else {
        Ok(Vec::new(alloc))
    }
}

/// Says it.
fn tell_hiding<D: System, E: Sink>(
    alloc: Global,
    asked: UpdateAsked<'_>,
    system: &D,
    err: &mut E,
) -> Result<(), Refusal>
    ensures says { D.Store.tells → SaysOnly (D.System.reads system.now)
        (hiding_plan asked.entry.usr asked.entry.verbose asked.entry.root.now)
        (told_by E.taken E.failures err.old) (told_by E.taken E.failures err.new) result }
    ensures unfailed { OnOk result (E.failures err.new ≡ E.failures err.old) }
    ensures hands_on { HandsOn (E.is_flushed err.old) (E.is_flushed err.new)
        (E.failures err.old) (E.failures err.new) }
{
    let text = hiding_text(alloc, asked.root, asked.usr, asked.verbose, system)?;
    say(&text, err)
}

/// Says it, and then updates, as [`update`] does. After an error the old database is as it was, and there is no new file.
pub fn update_telling<D: System, E: Sink>(
    alloc: Global,
    asked: UpdateAsked<'_>,
    system: &mut D,
    err: &mut E,
) -> Result<u8, Refusal>
    ensures status { IfOk result (λ status. status ≤ 1) }
    ensures follows { let left = files_by D.Store.seen D.System.may_fail D.Store.may_leave
        D.Store.failures in let u = asked.entry in D.Store.tells
        → UpdatesTelling (D.System.reads system.old) u.root.now
        u.usr u.strict u.verbose u.skip (left system.old) (left system.new)
        (told_by E.taken E.failures err.old) (told_by E.taken E.failures err.new) result }
    ensures any_crash { let u = asked.entry in D.Store.tells → (words : List (List ℕ))
        × spec.LeavesOnly D.Store.moment D.Store.left_since system.old system.new
        (OldOrPut (D.System.reads system.old)
        (update_plan u.root.now u.usr u.strict u.verbose u.skip words)
        (D.Store.seen system.old) (D.Store.may_leave system.old)) }
    ensures any_moment { let u = asked.entry in D.Store.tells
        → spec.LeavesOnly D.Store.moment D.Store.left_since system.old system.new
        (OldOrUpdatedLess (D.System.may_fail system.old) u.root.now u.usr u.skip
        (D.Store.seen system.old) (D.Store.may_leave system.old)) }
    ensures hands_on { HandsOn (E.is_flushed err.old) (E.is_flushed err.new)
        (E.failures err.old) (E.failures err.new) }
{
    tell_hiding(alloc, asked, system, err)?;
    update(alloc, asked, system, err)
}

/// `update`, as its words ask for it: says what hides the new database, and then updates. Its words have no plan that ends in what it
/// shows. So that holds of whatever the run reads and prints, neither of which it touches.
pub(crate) fn update_asked<D: Machine, I: Source, O: Sink, E: Sink>(
    alloc: Global,
    job: &Job,
    args: &UpdateArgs,
    system: &mut D,
    _input: &I,
    _out: &O,
    err: &mut E,
) -> Result<u8, Refusal>
    requires { job.now.task ≡ Update args.now }
    ensures status { IfOk result (λ status. status ≤ 1) }
    ensures follows { D.Store.tells → ShowsAsked job.now (D.System.reads system.old)
        (sight_by D.answers system.old)
        (told_by I.left I.failures _input.now) (told_by I.left I.failures _input.now)
        (outs (told_by E.taken E.failures err.old) (told_by O.taken O.failures _out.now))
        (outs (told_by E.taken E.failures err.new) (told_by O.taken O.failures _out.now)) result }
    ensures updates { let files = files_by D.Store.seen D.System.may_fail D.Store.may_leave
        D.Store.failures in D.Store.tells → UpdatesAsAsked job.now (D.System.reads system.old)
        (files system.old) (files system.new) (told_by E.taken E.failures err.old)
        (told_by E.taken E.failures err.new) result }
    ensures any_crash { D.Store.tells → (u : UpdateArgs) → job.now.task ≡ Update u
        → (causes : List (List ℕ))
        × spec.LeavesOnly D.Store.moment D.Store.left_since system.old system.new
        (OldOrPut (D.System.reads system.old) (update_plan (root_of job.now) job.now.usr
        job.now.strict u.verbose u.skip_unreadable causes)
        (D.Store.seen system.old) (D.Store.may_leave system.old)) }
    ensures any_moment { D.Store.tells
        → spec.LeavesOnly D.Store.moment D.Store.left_since system.old system.new
        (OldOrDone (D.System.may_fail system.old) job.now
        (D.Store.seen system.old) (D.Store.may_leave system.old)) }
    ensures hands_on { HandsOn (E.is_flushed err.old) (E.is_flushed err.new)
        (E.failures err.old) (E.failures err.new) }
{
    let asked = UpdateAsked {
        root: root_of(job),
        usr: job.usr,
        strict: job.strict,
        verbose: args.verbose,
        skip: args.skip_unreadable,
    };
    update_telling(alloc, asked, system, err)
}

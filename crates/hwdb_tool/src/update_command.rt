//! `update`: the text files of both folders, compiled into the database of one.
ghost use Rattle.std.specs.Prelude.{◌≡◌, ◌≢◌, ◌≤◌, ℕ, List, length, map, option_map, string_bytes, All, IfOk, IfErr};
ghost use Rattle.hwdb_spec.specs.Flushing.{HandsOn};
ghost use Rattle.hwdb_spec_commands.specs.Progress.{given_where};
ghost use Rattle.hwdb_spec.specs.Store as spec;
ghost use Rattle.hwdb_spec.specs.Texts.{max_file, status_of};
ghost use Rattle.hwdb_spec.specs.Folders.{Choice, Source};
ghost use Rattle.hwdb_plan.specs.Putting.{OldOrPut, PutsEnd, SaysThenPuts};
ghost use Rattle.hwdb_plan.specs.Put.{put_plan};
ghost use Rattle.hwdb_plan.specs.Update.{left_out_plan, put_files, update_plan};
ghost use Rattle.hwdb_spec_commands.specs.Told.{Reads};
ghost use Rattle.hwdb_system.specs.Selections.{IsSelectionOf};
ghost use Rattle.hwdb_text.specs.Views.{IsStorableChoice, choice_of};
ghost use Rattle.hwdb_compile.specs.Views.{ForFolders};
ghost use Rattle.hwdb_text.specs.Views.{choice_in};
ghost use Rattle.hwdb_spec_commands.specs.Runs.{files_by, told_by};
ghost use Rattle.hwdb_spec_commands.specs.UpdateErrors.{IsUpdateRefusal, OnUnreplaced};
ghost use Rattle.hwdb_spec_commands.specs.Done.{OldOrWritten, OldOrUpdated, OldOrUpdatedLess};
ghost use Rattle.hwdb_spec_commands.specs.LeftOutTold.{AreTold};
ghost use Rattle.hwdb_tool.specs.Emptying.{PutsFiles, status_by};
ghost use Rattle.hwdb_tool.specs.Internal.{IsOfSelection};
ghost use Rattle.hwdb_spec_commands.specs.LeftOut.{status_less};
ghost use Rattle.hwdb_spec_commands.specs.Undone.{IsUnwritable};

use crate::databases::database_folder;
use crate::emptied::loss_if;
use crate::printing::say;
use crate::progress::progress;
use hwdb_answers::{ToolError, put_in_place};
use hwdb_compile::compile_chosen;
use hwdb_io::{MAX_BYTES, Sink};
use hwdb_replace::{DATABASE, Unreplaced};
use hwdb_system::{Refusal, Selection, System, path_in, selected_readable, with_texts};
use hwdb_text::ChosenFile;
use std::alloc::Global;

/// What an update asks for.
#[derive(Clone, Copy)]
pub struct UpdateAsked<'a> {
    /// What is in front of the paths of folders and databases.
    pub root: &'a str,
    /// Whether /usr/lib's database is made, and not /etc's.
    pub usr: bool,
    /// Whether a fault line gives status 1.
    pub strict: bool,
    /// Whether it is said which files are read, and what they assign.
    pub verbose: bool,
    /// Whether files that can't be read are left out.
    pub skip: bool,
}

/// Compiles chosen files, says of them what is to be said, and puts their database in its place in a folder of the
/// store. Their fault lines are said. If the names of /usr/lib's files are given, it is said before which files they are and how
/// much they assign. Before all that comes what is lost. Returns the status: 1 if `strict` and there is a fault line, else 0.
fn update_files<S: System, E: Sink>(
    alloc: Global,
    files: &[ChosenFile<'_>],
    loss: &[u8],
    listed: Option<&[String]>,
    strict: bool,
    folder: &str,
    store: &mut S,
    err: &mut E,
) -> Result<u8, ToolError>
    requires { All IsStorableChoice (map choice_in files.now) }
    ensures follows { let left = files_by S.Store.seen S.System.may_fail S.Store.may_leave
        S.Store.failures in S.Store.tells → PutsFiles result loss.now
        (option_map (λ l. map string_bytes l.now) listed.entry) strict folder.now files.now
        (left store.old) (left store.new)
        (told_by E.taken E.failures err.old) (told_by E.taken E.failures err.new) }
    ensures status { IfOk result (λ status. status ≤ 1) }
    ensures any_moment { S.Store.tells → ForFolders files.now (λ etc usr.
        spec.LeavesOnly S.Store.moment S.Store.left_since store.old store.new
        (OldOrWritten etc usr folder.now (S.Store.seen store.old) (S.Store.may_leave store.old))) }
    ensures any_crash { let names = option_map (λ l. map string_bytes l.now) listed.entry in
        S.Store.tells → (w : Reads) (less : ℕ → ℕ) → ForFolders files.now (λ etc usr.
        spec.LeavesOnly S.Store.moment S.Store.left_since store.old store.new (OldOrPut w
        (put_plan loss.now etc usr names (λ faults. less (status_of strict faults)) folder.now)
        (S.Store.seen store.old) (S.Store.may_leave store.old))) }

    ensures refusals { IfErr result
        (λ e. ForFolders files.now (λ etc usr. IsUpdateRefusal etc usr max_file e)) }
    ensures unwritten { S.Store.tells → IfErr result (OnUnreplaced
        (λ _. IsUnwritable folder.now (S.Store.seen store.old)
        (S.Store.failures store.old) (S.Store.failures store.new))) }
    ensures untouched { IfErr result
        (λ e. e ≢ ToolError.Write → ((u : Unreplaced) → e ≢ ToolError.Replace u)
        → (err.new ≡ err.old) × (store.new ≡ store.old)) }
    ensures hands_on { HandsOn (E.is_flushed err.old) (E.is_flushed err.new)
        (E.failures err.old) (E.failures err.new) }
{
    let compiled = compile_chosen(alloc, files, MAX_BYTES)?;
    let told = progress(alloc, files, listed, &compiled)?;
    let mut said = Vec::from_slice(alloc, loss)?;
    said.extend_from_slice(&told)?;
    put_in_place(alloc, &compiled, &said, strict, folder, store, err)
}

/// The names of /usr/lib's files, if `verbose`.
fn listing(verbose: bool, listed: &[String]) -> Option<&[String]>
    ensures { option_map (λ l. map string_bytes l.now) result
        ≡ given_where verbose (map string_bytes listed.now) }
{
    if verbose { Some(listed) } else { None }
}

/// Compiles chosen text files of both folders into the database of one, which takes the old one's place once it is whole
/// on the disk. Their fault lines go to `err`, and before these, if `verbose`, which files they are, which of them mask
/// others, and how much they assign. If there are none, it says first which database is lost by that. Returns the status: 1 if `strict`
/// and there is a fault, else 0. After an error the old database is as it was, and there is no new file.
fn update_selected<D: System, E: Sink>(
    alloc: Global,
    selection: &Selection,
    asked: UpdateAsked<'_>,
    system: &mut D,
    err: &mut E,
) -> Result<u8, Refusal>
    requires whole { length selection.now.texts.items ≡ length selection.now.chosen.items }
    requires storable { All IsStorableChoice (map choice_of selection.now.chosen.items) }
    ensures status { IfOk result (λ status. status ≤ 1) }
    ensures follows { let left = files_by D.Store.seen D.System.may_fail D.Store.may_leave
        D.Store.failures in let u = asked.entry in D.Store.tells → (of_etc of_usr : List Source)
        (less : ℕ → ℕ) → IsSelectionOf of_etc of_usr selection.now → PutsEnd (D.System.reads
        system.old) (put_files u.root.now u.usr u.verbose (λ faults. less (status_of u.strict
        faults)) of_etc of_usr) (left system.old) (left system.new) (told_by E.taken E.failures
        err.old) (told_by E.taken E.failures err.new) (status_by less result) }
    ensures any_moment { let u = asked.entry in
        (files : spec.Contents) → IsOfSelection u.root.now files selection.now
        → D.Store.tells → spec.LeavesOnly D.Store.moment D.Store.left_since system.old system.new
        (OldOrUpdated u.root.now u.usr files
        (D.Store.seen system.old) (D.Store.may_leave system.old)) }
    ensures any_crash { let u = asked.entry in D.Store.tells → (of_etc of_usr : List Source)
        (less : ℕ → ℕ) → IsSelectionOf of_etc of_usr selection.now
        → spec.LeavesOnly D.Store.moment D.Store.left_since system.old system.new
        (OldOrPut (D.System.reads system.old) (put_files u.root.now u.usr u.verbose
        (λ faults. less (status_of u.strict faults)) of_etc of_usr)
        (D.Store.seen system.old) (D.Store.may_leave system.old)) }
    ensures hands_on { HandsOn (E.is_flushed err.old) (E.is_flushed err.new)
        (E.failures err.old) (E.failures err.new) }
{
    let files = with_texts(alloc, &selection.chosen, &selection.texts)?;
    let folder = database_folder(alloc, asked.root, asked.usr)?;
    let path = path_in(alloc, folder.as_str(), DATABASE)?.into_bytes();
    let loss = loss_if(
        alloc,
        asked.root,
        asked.usr,
        files.as_slice().is_empty(),
        system,
    )?;
    match update_files(
        alloc,
        &files,
        &loss,
        listing(asked.verbose, &selection.listed),
        asked.strict,
        folder.as_str(),
        system,
        err,
    ) {
        Ok(status) => Ok(status),
        Err(error) => Err(Refusal::of_update(error, path, system.cause())),
    }
}

/// The status if this was said of files that are left out, if it would be this one for the others alone.
fn status_less(strict: bool, said: &[u8], status: u8) -> u8
    ensures is { (root : List ℕ) (left_out : List Choice) → AreTold root left_out said.now
        → result ≡ status_less strict left_out status }
    ensures small { status ≤ 1 → result ≤ 1 }
{
    if said.is_empty() {
        return status;
    }
    if strict { 1 } else { status }
}

/// Compiles the text files of both folders into the database of one, as `update_selected` does. If `skip`, a chosen one
/// that can't be read is left out: its line goes to `err` first, and if `strict` the status is 1.
pub fn update<D: System, E: Sink>(
    alloc: Global,
    asked: UpdateAsked<'_>,
    system: &mut D,
    err: &mut E,
) -> Result<u8, Refusal>
    ensures status { IfOk result (λ status. status ≤ 1) }
    ensures follows { let left = files_by D.Store.seen D.System.may_fail D.Store.may_leave
        D.Store.failures in let u = asked.entry in D.Store.tells → (words : List (List ℕ))
        × SaysThenPuts (D.System.reads system.old) (left_out_plan u.root.now u.skip words)
        (update_plan u.root.now u.usr u.strict u.verbose u.skip words)
        (left system.old) (left system.new)
        (told_by E.taken E.failures err.old) (told_by E.taken E.failures err.new) result }
    ensures any_moment { let u = asked.entry in D.Store.tells
        → spec.LeavesOnly D.Store.moment D.Store.left_since system.old system.new
        (OldOrUpdatedLess (D.System.may_fail system.old) u.root.now u.usr u.skip
        (D.Store.seen system.old) (D.Store.may_leave system.old)) }
    ensures any_crash { let u = asked.entry in D.Store.tells → (words : List (List ℕ))
        × spec.LeavesOnly D.Store.moment D.Store.left_since system.old system.new
        (OldOrPut (D.System.reads system.old)
        (update_plan u.root.now u.usr u.strict u.verbose u.skip words)
        (D.Store.seen system.old) (D.Store.may_leave system.old)) }
    ensures hands_on { HandsOn (E.is_flushed err.old) (E.is_flushed err.new)
        (E.failures err.old) (E.failures err.new) }
{
    let readable = selected_readable(alloc, asked.root, asked.skip, system)?;
    say(&readable.said, err)?;
    let selection = &readable.selection;
    let status = update_selected(alloc, selection, asked, system, err)?;
    Ok(status_less(asked.strict, &readable.said, status))
}

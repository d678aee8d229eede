//! `status`: the database that is asked, beside the one that the text files make. Nothing is written.
ghost use Rattle.std.specs.Prelude.{◌≡◌, ◌≤◌, ◌++◌, ℕ, List, All, None, Some, codes, false, if◌then◌else◌, length, map, option_map, string_bytes, true, IfErr, IfOk, IfSome, OnOk};
ghost use Rattle.hwdb_compile.specs.Views.{ForFolders};
ghost use Rattle.hwdb_text.specs.Views.{choice_in};
ghost use Rattle.hwdb_system.specs.Internal.{IsNameSet};
ghost use Rattle.hwdb_spec.specs.Format.{IsDatabase};
ghost use Rattle.hwdb_spec_commands.specs.Status;
ghost use Rattle.hwdb_spec.specs.Assignment.{ascending};
ghost use Rattle.hwdb_spec_commands.specs.Reading.{AreUnread};
ghost use Rattle.hwdb_spec_commands.specs.Status.{IsAmount, has_database, hidden_database, is_well, masked_of};
ghost use Rattle.hwdb_databases.specs.Views.{amount_shown, report_shown, state_shown};
ghost use Rattle.hwdb_spec_commands.specs.Asked;
ghost use Rattle.hwdb_spec_commands.specs.Commands;
ghost use Rattle.hwdb_spec.specs.System as Folder;
ghost use Rattle.hwdb_spec.specs.System.{bytes_at};
ghost use Rattle.hwdb_spec.specs.Texts.{max_file};
ghost use Rattle.hwdb_spec.specs.Tree.{Map, Tree};
ghost use Rattle.hwdb_spec.specs.Written.{IsDatabaseOf};
ghost use Rattle.hwdb_text.specs.Views.{IsStorableChoice, choice_of};
ghost use Rattle.hwdb_spec_commands.specs.StatusErrors.{IsNotCompiled};
ghost use Rattle.hwdb_spec_commands.specs.Told.{IsReadTo};
ghost use Rattle.hwdb_plan.specs.Plans.{Follows, ReachesValue};
ghost use Rattle.hwdb_plan.specs.Readable.{ReachesOf};
ghost use Rattle.hwdb_plan.specs.Status.{databases_of, ignored_below, in_places, made_now, report_plan, seen_at, status_plan};
ghost use Rattle.hwdb_tool.specs.Statuses.{AreMadeOf, IsNow, ignored_path, now_with, places};
ghost use Rattle.hwdb_tool.specs.Views.{end_of};
ghost use Rattle.hwdb_spec.specs.declared.errors.ToolError.{ToolError};
ghost use Rattle.hwdb_spec_commands.specs.declared.job.Task.TheVariants as Task;
ghost use Rattle.hwdb_spec_commands.specs.declared.refusals.Refusal.TheVariants.{Plain};

use crate::answer::Answer;
use crate::commands::{removing_words, update_words};
use crate::databases::{ETC_FOLDER, USR_FOLDER, found_in};
use crate::hiding::database_path;
use crate::progress::masks;
use crate::verb::{Verb, root_of};
use hwdb_answers::ToolError;
use hwdb_cli::{Job, StatusArgs};
use hwdb_compile::{Compiled, compile_chosen};
use hwdb_databases::{
    Amount, Report, Standing, State, amount_of, in_order, is_well, report_in, standing_of,
};
use hwdb_io::{MAX_BYTES, Source};
use hwdb_reader::law_one_tree;
use hwdb_system::{Machine, Refusal, System, TextFolders, name_set, selected, with_texts};
use hwdb_text::{Chosen, ChosenFile};
use std::alloc::{AllocError, Global};
use std::collections::BTreeSet;

/// The database that is asked, the one that it hides, and of which folders there is one.
#[derive(Drop)]
struct AskedDatabase {
    etc: bool,
    usr: bool,
    bytes: Option<Vec<u8>>,
    hidden: Option<Vec<u8>>,
}

/// The paths of files that aren't read.
#[derive(Drop)]
struct UnreadFiles {
    /// Of text files that others mask.
    masked: Vec<Vec<u8>>,
    /// Of files that are none, by their names.
    ignored: Vec<Vec<u8>>,
}

/// What the text files make, whether there are none, and which of them aren't read.
#[derive(Drop)]
struct MadeNow {
    database: Vec<u8>,
    bare: bool,
    unread: UnreadFiles,
}

/// The path of a text file of /usr/lib.
fn masked_path(alloc: Global, name: &str) -> Result<Vec<u8>, AllocError>
    ensures { IfOk result
        (λ path. path.items ≡ codes "/usr/lib/udev/hwdb.d/" ++ name.now) }
{
    let mut path = Vec::from_slice(alloc, b"/usr/lib/udev/hwdb.d/")?;
    path.extend_from_slice(name.as_bytes())?;
    Ok(path)
}

/// Adds the path of the text file of /usr/lib that a chosen one masks, if it does.
fn push_masked(
    alloc: Global,
    paths: &mut Vec<Vec<u8>>,
    file: &Chosen,
    set: &BTreeSet<&str>,
) -> Result<(), AllocError>
    ensures { OnOk result ((listed : List (List ℕ)) → IsNameSet listed set.now
        → map (λ p. p.items) paths.new.items
        ≡ map (λ p. p.items) paths.old.items ++ masked_of listed (choice_of file.now)) }
{
    if masks(file, set) {
        paths.push(masked_path(alloc, file.name.as_str())?)?;
    }
    Ok(())
}

/// The paths of text files of /usr/lib that chosen ones mask. The only error is `AllocError`.
pub(crate) fn masked_paths(
    alloc: Global,
    files: &[ChosenFile<'_>],
    listed: &[String],
) -> Result<Vec<Vec<u8>>, AllocError>
    ensures { IfOk result (λ paths. map (λ p. p.items) paths.items
        ≡ Status.masked_paths (map string_bytes listed.now) (map choice_in files.now)) }
{
    let set = name_set(alloc, listed)?;
    let mut paths = Vec::new(alloc);
    for file in files {
        push_masked(alloc, &mut paths, file.choice, &set)?;
    }
    Ok(paths)
}

/// The path of an ignored file of a folder.
fn ignored_path(alloc: Global, usr: bool, name: &[u8]) -> Result<Vec<u8>, AllocError>
    ensures { IfOk result (λ path. path.items ≡ ignored_path usr name.now) }
{
    let folder = if usr {
        "/usr/lib/udev/hwdb.d/"
    } else {
        "/etc/udev/hwdb.d/"
    };
    let mut path = Vec::from_slice(alloc, folder.as_bytes())?;
    path.extend_from_slice(name)?;
    Ok(path)
}

/// Adds the paths of ignored files of a folder, in the order of their names, each once.
fn push_ignored(
    alloc: Global,
    paths: &mut Vec<Vec<u8>>,
    usr: bool,
    names: &[Vec<u8>],
) -> Result<(), AllocError>
    ensures { OnOk result (map (λ p. p.items) paths.new.items ≡ map (λ p. p.items) paths.old.items
        ++ map (ignored_path usr) (ascending (map (λ n. n.items) names.now))) }
{
    let ordered = in_order(alloc, names)?;
    for name in &ordered {
        paths.push(ignored_path(alloc, usr, name)?)?;
    }
    Ok(())
}

/// The paths of ignored files of both folders below the root, those of /etc first.
fn ignored_paths<D: TextFolders>(
    alloc: Global,
    root: &str,
    system: &D,
) -> Result<Vec<Vec<u8>>, Refusal>
    ensures told { D.Store.tells → ReachesValue (λ paths. map (λ p. p.items) paths.items)
        (D.System.reads system.now) (ignored_below root.now) result }
    ensures refused { D.Store.tells
        → IfErr result (AreUnread root.now (D.Store.seen system.now)) }
{
    let etc = system.ignored_names(alloc, root, false)?;
    let usr = system.ignored_names(alloc, root, true)?;
    let mut paths = Vec::new(alloc);
    push_ignored(alloc, &mut paths, false, &etc)?;
    push_ignored(alloc, &mut paths, true, &usr)?;
    Ok(paths)
}

/// Compiles chosen text files.
pub fn compiled(alloc: Global, files: &[ChosenFile<'_>]) -> Result<Compiled, Refusal>
    requires { All IsStorableChoice (map choice_in files.now) }
    ensures made { IfOk result
        (λ c. ForFolders files.now (λ etc usr. AreMadeOf etc usr c.database.items)) }
    ensures sound { IfOk result (λ c. (t : Tree) × IsDatabase c.database.items t) }
    ensures refused { IfErr result
        (λ r. ForFolders files.now (λ etc usr. IsNotCompiled etc usr r)) }
    ensures plain { IfErr result (λ r. (error : ToolError) × (r ≡ Plain error)) }
{
    match compile_chosen(alloc, files, MAX_BYTES) {
        Ok(compiled) => Ok(compiled),
        Err(error) => Err(Refusal::from(ToolError::from(error))),
    }
}

/// The database of /usr/lib, if there is one.
fn usr_database<D: System>(
    alloc: Global,
    root: &str,
    system: &D,
) -> Result<Option<Vec<u8>>, Refusal>
    ensures told { D.Store.tells → IsReadTo (λ found. option_map (λ b. b.items) found)
        ((D.System.reads system.now).database (Asked.database_path true root.now))
        (Asked.database_path true root.now) result }
    ensures bytes { D.Store.tells → IfOk result (λ found. option_map (λ b. b.items) found
        ≡ bytes_at (D.Store.seen system.now) (Asked.database_path true root.now)) }
    ensures within { IfOk result (λ found. IfSome (option_map (λ b. b.items) found)
        (λ b. length b ≤ max_file)) }
{
    match found_in(alloc, root, USR_FOLDER, system)? {
        Some(found) => Ok(Some(found.bytes)),
        None => Ok(None),
    }
}

/// The database of /usr/lib, if there is none of /etc.
fn asked_in_usr<D: System>(alloc: Global, root: &str, system: &D) -> Result<AskedDatabase, Refusal>
    ensures told { D.Store.tells → ReachesValue (λ a. places a.etc a.usr
        (option_map (λ b. b.items) a.bytes) (option_map (λ b. b.items) a.hidden))
        (D.System.reads system.now) (λ next. seen_at (Asked.database_path true root.now)
        (λ usr. next (in_places None usr))) result }
    ensures etc { IfOk result (λ a. a.etc ≡ false) }
    ensures usr { D.Store.tells → IfOk result
        (λ a. a.usr ≡ has_database true root.now (D.Store.seen system.now)) }
    ensures bytes { D.Store.tells → IfOk result (λ a. option_map (λ b. b.items) a.bytes
        ≡ bytes_at (D.Store.seen system.now) (Asked.database_path true root.now)) }
    ensures within { IfOk result (λ a. IfSome (option_map (λ b. b.items) a.bytes)
        (λ b. length b ≤ max_file)) }
    ensures hidden { IfOk result (λ a. option_map (λ b. b.items) a.hidden ≡ None) }
{
    let bytes = usr_database(alloc, root, system)?;
    Ok(AskedDatabase {
        etc: false,
        usr: bytes.is_some(),
        bytes,
        hidden: None,
    })
}

/// The database of /etc, which has these bytes, and the one of /usr/lib that it hides.
fn asked_in_etc<D: System>(
    alloc: Global,
    root: &str,
    bytes: Vec<u8>,
    system: &D,
) -> Result<AskedDatabase, Refusal>
    ensures told { D.Store.tells → ReachesValue (λ a. places a.etc a.usr
        (option_map (λ b. b.items) a.bytes) (option_map (λ b. b.items) a.hidden))
        (D.System.reads system.now) (λ next. seen_at (Asked.database_path true root.now)
        (λ usr. next (in_places (Some bytes.items) usr))) result }
    ensures etc { IfOk result (λ a. a.etc ≡ true) }
    ensures usr { D.Store.tells → IfOk result
        (λ a. a.usr ≡ has_database true root.now (D.Store.seen system.now)) }
    ensures bytes { IfOk result (λ a. option_map (λ b. b.items) a.bytes ≡ Some bytes.items) }
    ensures hidden { D.Store.tells → IfOk result (λ a. option_map (λ b. b.items) a.hidden
        ≡ bytes_at (D.Store.seen system.now) (Asked.database_path true root.now)) }
    ensures within { IfOk result (λ a. IfSome (option_map (λ b. b.items) a.hidden)
        (λ b. length b ≤ max_file)) }
{
    let hidden = usr_database(alloc, root, system)?;
    Ok(AskedDatabase {
        etc: true,
        usr: hidden.is_some(),
        bytes: Some(bytes),
        hidden,
    })
}

/// The database that is asked, if there is one, and the one that it hides.
fn asked_database<D: System>(
    alloc: Global,
    root: &str,
    system: &D,
) -> Result<AskedDatabase, Refusal>
    ensures told { D.Store.tells → ReachesValue (λ a. places a.etc a.usr
        (option_map (λ b. b.items) a.bytes) (option_map (λ b. b.items) a.hidden))
        (D.System.reads system.now) (databases_of root.now) result }
    ensures etc { D.Store.tells → IfOk result
        (λ a. a.etc ≡ has_database false root.now (D.Store.seen system.now)) }
    ensures usr { D.Store.tells → IfOk result
        (λ a. a.usr ≡ has_database true root.now (D.Store.seen system.now)) }
    ensures bytes { D.Store.tells → IfOk result (λ a. option_map (λ b. b.items) a.bytes
        ≡ Folder.asked_database root.now (D.Store.seen system.now)) }
    ensures within { IfOk result (λ a. IfSome (option_map (λ b. b.items) a.bytes)
        (λ b. length b ≤ max_file)) }
    ensures hidden { D.Store.tells → IfOk result (λ a. option_map (λ b. b.items) a.hidden
        ≡ hidden_database root.now (D.Store.seen system.now)) }
    ensures hidden_within { IfOk result (λ a. IfSome (option_map (λ b. b.items) a.hidden)
        (λ b. length b ≤ max_file)) }
{
    match found_in(alloc, root, ETC_FOLDER, system)? {
        Some(found) => asked_in_etc(alloc, root, found.bytes, system),
        None => asked_in_usr(alloc, root, system),
    }
}

/// The path of the database of a folder.
fn path_in_folder(alloc: Global, root: &str, usr: bool) -> Result<Option<Vec<u8>>, AllocError>
    ensures { IfOk result (λ path. option_map (λ p. p.items) path
        ≡ Some (Asked.database_path usr root.now)) }
{
    Ok(Some(database_path(alloc, root, usr)?.into_bytes()))
}

/// The path of the database that is asked, by whether there is one of /etc and one of /usr/lib.
fn path_asked(
    alloc: Global,
    root: &str,
    etc: bool,
    usr: bool,
) -> Result<Option<Vec<u8>>, AllocError>
    ensures { IfOk result
        (λ path. option_map (λ p. p.items) path ≡ Status.path_asked root.now etc usr) }
{
    if etc {
        path_in_folder(alloc, root, false)
    } else if usr {
        path_in_folder(alloc, root, true)
    } else {
        Ok(None)
    }
}

/// The path of the one of /usr/lib, if that of /etc hides it.
fn path_hidden(
    alloc: Global,
    root: &str,
    etc: bool,
    usr: bool,
) -> Result<Option<Vec<u8>>, AllocError>
    ensures { IfOk result
        (λ path. option_map (λ p. p.items) path ≡ Status.path_hidden root.now etc usr) }
{
    if etc && usr {
        path_in_folder(alloc, root, true)
    } else {
        Ok(None)
    }
}

/// The command that makes the database of /usr/lib anew, and removes the one that hides it.
fn update_and_remove(alloc: Global, root: &str) -> Result<Vec<u8>, AllocError>
    ensures { IfOk result (λ words. words.items ≡ Commands.update_words true root.now
        ++ (codes " && " ++ Commands.removing_words root.now)) }
{
    let removing = removing_words(alloc, root)?;
    let mut words = update_words(alloc, true, root)?;
    words.extend_from_slice(b" && ")?;
    words.extend_from_slice(&removing)?;
    Ok(words)
}

/// The command after which the asked database is fresh and hides none, by whether there is one of /etc and one of /usr/lib.
fn renewing_words(alloc: Global, root: &str, etc: bool, usr: bool) -> Result<Vec<u8>, AllocError>
    ensures { IfOk result (λ words. words.items ≡ Status.renewing_words root.now etc usr) }
{
    match (etc, usr) {
        (true, true) => update_and_remove(alloc, root),
        (false, true) => update_words(alloc, true, root),
        (_, false) => update_words(alloc, false, root),
    }
}

/// Whether a database assigns something.
fn assigns(amount: Option<Amount>) -> bool
    ensures { result ≡ Status.assigns (option_map amount_shown amount) }
{
    match amount {
        Some(Amount::Counted { assignments, .. }) => assignments > 0,
        _ => false,
    }
}

/// Whether a database assigns nothing, or is none, and hides one that assigns something.
fn hides_in_vain(state: &State, hidden: Option<Amount>) -> bool
    ensures { result ≡ Status.hides_in_vain (state_shown state.now)
        (option_map amount_shown hidden) }
{
    match state {
        State::Stale { .. } => false,
        _ => assigns(hidden),
    }
}

/// The command that is told if there are no text files: one that removes a database of /etc that hides another one in vain.
fn unhiding_words(
    alloc: Global,
    root: &str,
    state: &State,
    hidden: Option<Amount>,
) -> Result<Option<Vec<u8>>, AllocError>
    ensures { IfOk result (λ words. option_map (λ w. w.items) words
        ≡ Status.unhiding_words root.now (state_shown state.now) (option_map amount_shown hidden)) }
{
    if hides_in_vain(state, hidden) {
        let words = removing_words(alloc, root)?;
        Ok(Some(words))
    } else {
        Ok(None)
    }
}

/// The command that is told if there are text files: none if the asked database is fresh and hides none.
fn renewing_if(
    alloc: Global,
    root: &str,
    etc: bool,
    usr: bool,
    state: &State,
) -> Result<Option<Vec<u8>>, AllocError>
    ensures { IfOk result (λ words. option_map (λ w. w.items) words
        ≡ (if is_well false (state_shown state.now) (Status.path_hidden root.now etc usr)
        then None else Some (Status.renewing_words root.now etc usr))) }
{
    if is_well(false, state, etc && usr) {
        Ok(None)
    } else {
        let words = renewing_words(alloc, root, etc, usr)?;
        Ok(Some(words))
    }
}

/// What is seen of the asked database, and how much is in the one that it hides.
#[derive(Drop)]
struct Seen {
    standing: Standing,
    hidden: Option<Amount>,
}

/// The command that is told, if there is one.
fn remedy_of(
    alloc: Global,
    root: &str,
    asked: &AskedDatabase,
    bare: bool,
    seen: &Seen,
) -> Result<Option<Vec<u8>>, AllocError>
    ensures { IfOk result (λ words. option_map (λ w. w.items) words
        ≡ Status.remedy_of root.now asked.now.etc asked.now.usr bare
        (state_shown seen.now.standing.state) (option_map amount_shown seen.now.hidden)) }
{
    let state = &seen.standing.state;
    if bare {
        unhiding_words(alloc, root, state, seen.hidden)
    } else {
        renewing_if(alloc, root, asked.etc, asked.usr, state)
    }
}

/// The report of what is there.
fn report_of(
    alloc: Global,
    root: &str,
    asked: &AskedDatabase,
    seen: Seen,
    made: MadeNow,
) -> Result<Report, AllocError>
    ensures { IfOk result (λ report. report_shown report ≡ Status.report_of root.now
        asked.now.etc asked.now.usr
        (option_map amount_shown seen.standing.holds) (option_map amount_shown seen.hidden)
        (map (λ p. p.items) made.unread.masked.items)
        (map (λ p. p.items) made.unread.ignored.items)
        made.bare (state_shown seen.standing.state)) }
{
    let remedy = remedy_of(alloc, root, asked, made.bare, &seen)?;
    let Seen { standing, hidden } = seen;
    let MadeNow { bare, unread, .. } = made;
    Ok(Report {
        database: path_asked(alloc, root, asked.etc, asked.usr)?,
        holds: standing.holds,
        hides: path_hidden(alloc, root, asked.etc, asked.usr)?,
        hidden,
        masked: unread.masked,
        ignored: unread.ignored,
        bare,
        state: standing.state,
        remedy,
    })
}

/// The bytes that there may be.
fn bytes_of(bytes: &Option<Vec<u8>>) -> Option<&[u8]>
    ensures { option_map (λ b. b.now) result ≡ option_map (λ b. b.items) bytes.now }
{
    match bytes {
        Some(bytes) => Some(bytes.as_slice()),
        None => None,
    }
}

/// How much is in bytes that there may be.
fn amount_if(alloc: Global, bytes: &Option<Vec<u8>>) -> Result<Option<Amount>, AllocError>
    ensures { IfOk result (λ amount. IsAmount (option_map (λ b. b.items) bytes.now)
        (option_map amount_shown amount)) }
{
    match bytes {
        Some(bytes) => Ok(Some(amount_of(alloc, bytes.as_slice())?)),
        None => Ok(None),
    }
}

/// How a report is told.
#[derive(Clone, Copy)]
struct Telling {
    /// Whether as JSON.
    json: bool,
    /// Whether by the status alone.
    quiet: bool,
}

/// What is reported of the asked database, beside what the text files make.
fn reported<D: System>(
    alloc: Global,
    root: &str,
    telling: Telling,
    made: MadeNow,
    system: &D,
) -> Result<Answer, Refusal>
    requires { (t : Tree) × IsDatabase made.database.items t }
    ensures follows { D.Store.tells → (m : Map) → IsDatabaseOf m made.database.items
        → Follows end_of (D.System.reads system.now)
        (report_plan root.now telling.json telling.quiet
        (now_with m made.database.items made.bare (map (λ p. p.items) made.unread.masked.items)
        (map (λ p. p.items) made.unread.ignored.items))) result }
{
    law_one_tree();
    let asked = asked_database(alloc, root, system)?;
    let standing = standing_of(alloc, bytes_of(&asked.bytes), &made.database)?;
    let hidden = amount_if(alloc, &asked.hidden)?;
    let seen = Seen { standing, hidden };
    let report = report_of(alloc, root, &asked, seen, made)?;
    let text = report_in(alloc, &report, telling.json, telling.quiet)?;
    Ok(Answer::new(alloc, text, report.status()))
}

/// What the text files of both folders make now. Their texts are let go of, so that their memory is there for what is read next.
fn made_now<D: TextFolders>(alloc: Global, root: &str, system: &D) -> Result<MadeNow, Refusal>
    ensures told { D.Store.tells → ReachesOf (λ now. IsNow now.database.items now.bare
        (map (λ p. p.items) now.unread.masked.items)
        (map (λ p. p.items) now.unread.ignored.items))
        (D.System.reads system.now) (made_now root.now) result }
    ensures sound { IfOk result (λ now. (t : Tree) × IsDatabase now.database.items t) }
{
    let selection = selected(alloc, root, system)?;
    let ignored = ignored_paths(alloc, root, system)?;
    let files = with_texts(alloc, &selection.chosen, &selection.texts)?;
    let made = compiled(alloc, &files)?;
    let masked = masked_paths(alloc, &files, &selection.listed)?;
    Ok(MadeNow {
        database: made.database,
        bare: files.as_slice().is_empty(),
        unread: UnreadFiles { masked, ignored },
    })
}

/// Which database is asked, which one it hides, how much is in each, and which text files are masked or ignored: as lines, or with
/// `json` as a line of JSON. It says too whether the asked one says what the text files of both folders below the root say now. The
/// status is 0 if it does and hides none, and there are text files, else 1. If `quiet` the status alone is told.
///
/// Errors are, in this order: the text files can't be read, they can't be compiled, the database that is asked can't be read, and
/// the one that it hides can't be read. The time is that of an update without its sync, and of a walk over each database.
pub fn status<D: TextFolders>(
    alloc: Global,
    root: &str,
    json: bool,
    quiet: bool,
    system: &D,
) -> Result<Answer, Refusal>
    ensures follows { D.Store.tells → Follows end_of (D.System.reads system.now)
        (status_plan root.now json quiet) result }
{
    let made = made_now(alloc, root, system)?;
    reported(alloc, root, Telling { json, quiet }, made, system)
}

impl<D: Machine, I: Source> Verb<D, I> for StatusArgs {
    ghost task = { λ args. Task.Status args };

    fn answer(
        &self,
        alloc: Global,
        job: &Job,
        system: &D,
        _input: &mut I,
    ) -> Result<Answer, Refusal> {
        status(alloc, root_of(job), self.json, false, system)
    }
}

/// The words of `update --check`.
pub(crate) struct Fresh;

impl<D: Machine, I: Source> Verb<D, I> for Fresh {
    ghost task = { λ _. Task.Fresh };

    fn answer(
        &self,
        alloc: Global,
        job: &Job,
        system: &D,
        _input: &mut I,
    ) -> Result<Answer, Refusal> {
        status(alloc, root_of(job), false, true, system)
    }
}

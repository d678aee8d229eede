//! What `update` says if there are no text files: which database that may assign something is replaced by an empty one, or hidden by it.
ghost use Rattle.std.specs.Prelude.{◌≡◌, ◌≤◌, ◌++◌, [], List, Some, codes, false, length, option_map, true, IfOk, IfSome, OnOk};
ghost use Rattle.hwdb_spec_commands.specs.Asked;
ghost use Rattle.hwdb_spec_commands.specs.Commands.{removing_words, update_words};
ghost use Rattle.hwdb_spec_commands.specs.Emptied;
ghost use Rattle.hwdb_spec_commands.specs.Emptied.{IsLost, line_if};
ghost use Rattle.hwdb_spec.specs.Folders.{Choice};
ghost use Rattle.hwdb_plan.specs.Plans.{ReachesValue};
ghost use Rattle.hwdb_plan.specs.Update.{loss_of, lost_in};
ghost use Rattle.hwdb_plan.specs.Lemmas.Update.{IsLostBy, IsLostIf};
ghost use Rattle.hwdb_spec_commands.specs.Status.{is_bare};
ghost use Rattle.hwdb_spec.specs.Store as spec;
ghost use Rattle.hwdb_spec.specs.System.{bytes_at};
ghost use Rattle.hwdb_spec.specs.Texts.{max_file};
ghost use Rattle.hwdb_databases.specs.Views.{amount_shown};
ghost use Rattle.hwdb_tool.specs.Emptying;

use crate::commands::{removing_words, update_words};
use crate::databases::{ETC_FOLDER, FoundDatabase, USR_FOLDER, found_in};
use crate::hiding::database_path;
use hwdb_databases::{Amount, amount_of};
use hwdb_reader::law_one_tree;
use hwdb_show::push_name;
use hwdb_system::{Refusal, System};
use std::alloc::{AllocError, Global};

const EMPTIED: &str = " becomes empty: there are no text files. Bring them back, and then run: ";

const HIDES: &str = " is empty and hides ";

const TO_USE: &str = ": there are no text files. To use that one, run: ";

/// Whether this much is nothing, in a database.
fn is_nothing(amount: Amount) -> bool
    ensures { result ≡ Emptying.is_nothing (amount_shown amount) }
{
    match amount {
        Amount::Counted { assignments, .. } => assignments == 0,
        Amount::Uncounted { .. } => false,
    }
}

/// Whether something is lost if these bytes are replaced or hidden.
fn is_lost_of(alloc: Global, bytes: &[u8]) -> Result<bool, AllocError>
    ensures lost { IfOk result (λ lost. IsLost (Some bytes.now) lost) }
    ensures by { IfOk result (IsLostBy bytes.now) }
{
    law_one_tree();
    let amount = amount_of(alloc, bytes)?;
    Ok(!is_nothing(amount))
}

/// The same of a database that was found, if there is one.
fn is_lost_if(alloc: Global, found: &Option<FoundDatabase>) -> Result<bool, AllocError>
    ensures lost { IfOk result (λ lost. IsLost (option_map (λ f. f.bytes.items) found.now) lost) }
    ensures by { IfOk result (IsLostIf (option_map (λ f. f.bytes.items) found.now)) }
{
    match found {
        Some(found) => is_lost_of(alloc, found.bytes.as_slice()),
        None => Ok(false),
    }
}

/// Whether something is lost in the place of a database. What is there is read, and let go of.
fn is_lost_in<D: System>(
    alloc: Global,
    root: &str,
    folder: &str,
    system: &D,
) -> Result<bool, Refusal>
    ensures follows { D.Store.tells → ReachesValue (λ lost. lost) (D.System.reads system.now)
        (lost_in (spec.path_in (root.now ++ folder.now) spec.database_name)) result }
    ensures within { D.Store.tells → OnOk result (IfSome (bytes_at (D.Store.seen system.now)
        (spec.path_in (root.now ++ folder.now) spec.database_name)) (λ b. length b ≤ max_file)) }
{
    let found = found_in(alloc, root, folder, system)?;
    let lost = is_lost_if(alloc, &found)?;
    Ok(lost)
}

/// Adds that it becomes empty, and the command that makes it anew.
fn push_to_renew(
    alloc: Global,
    words: &mut Vec<u8>,
    root: &str,
    usr: bool,
) -> Result<(), AllocError>
    ensures { OnOk result (words.new.items ≡ words.old.items
        ++ (codes " becomes empty: there are no text files. Bring them back, and then run: "
        ++ update_words usr root.now)) }
{
    let command = update_words(alloc, usr, root)?;
    words.extend_from_slice(EMPTIED.as_bytes())?;
    words.extend_from_slice(&command)?;
    Ok(())
}

/// What is said of a database that is replaced by an empty one.
fn emptied_words(alloc: Global, root: &str, usr: bool) -> Result<Vec<u8>, AllocError>
    ensures { IfOk result (λ words. words.items ≡ Emptied.emptied_words root.now usr) }
{
    let mut words = database_path(alloc, root, usr)?.into_bytes();
    push_to_renew(alloc, &mut words, root, usr)?;
    Ok(words)
}

/// Adds that there are no text files, and the command that removes the empty database.
fn push_to_use(alloc: Global, words: &mut Vec<u8>, root: &str) -> Result<(), AllocError>
    ensures { OnOk result (words.new.items ≡ words.old.items
        ++ (codes ": there are no text files. To use that one, run: "
        ++ removing_words root.now)) }
{
    let command = removing_words(alloc, root)?;
    words.extend_from_slice(TO_USE.as_bytes())?;
    words.extend_from_slice(&command)?;
    Ok(())
}

/// Adds that it hides the one of /usr/lib, and the same.
fn push_hides(alloc: Global, words: &mut Vec<u8>, root: &str) -> Result<(), AllocError>
    ensures { OnOk result (words.new.items ≡ words.old.items
        ++ (codes " is empty and hides " ++ (Asked.database_path true root.now
        ++ (codes ": there are no text files. To use that one, run: "
        ++ removing_words root.now)))) }
{
    let usr = database_path(alloc, root, true)?;
    words.extend_from_slice(HIDES.as_bytes())?;
    words.extend_from_slice(usr.as_bytes())?;
    push_to_use(alloc, words, root)
}

/// What is said of a database of /usr/lib that an empty one hides.
fn hidden_words(alloc: Global, root: &str) -> Result<Vec<u8>, AllocError>
    ensures { IfOk result (λ words. words.items ≡ Emptied.hidden_words root.now) }
{
    let mut words = database_path(alloc, root, false)?.into_bytes();
    push_hides(alloc, &mut words, root)?;
    Ok(words)
}

/// What is said as a line, in which names are shown.
fn loss_line(alloc: Global, words: &[u8]) -> Result<Vec<u8>, AllocError>
    ensures { IfOk result (λ line. line.items ≡ Emptied.loss_line words.now) }
{
    let mut line = Vec::new(alloc);
    push_name(&mut line, words)?;
    line.push(b'\n')?;
    Ok(line)
}

/// The line of a database that is emptied, if it is to be said.
fn emptied_if(alloc: Global, root: &str, usr: bool, lost: bool) -> Result<Vec<u8>, AllocError>
    ensures { IfOk result
        (λ text. text.items ≡ line_if lost (Emptied.emptied_words root.now usr)) }
{
    if lost {
        let words = emptied_words(alloc, root, usr)?;
        loss_line(alloc, &words)
    } else {
        Ok(Vec::new(alloc))
    }
}

/// The same of one that is hidden.
fn hidden_if(alloc: Global, root: &str, lost: bool) -> Result<Vec<u8>, AllocError>
    ensures { IfOk result (λ text. text.items ≡ line_if lost (Emptied.hidden_words root.now)) }
{
    if lost {
        let words = hidden_words(alloc, root)?;
        loss_line(alloc, &words)
    } else {
        Ok(Vec::new(alloc))
    }
}

/// The lines of an update of /etc's.
fn loss_in_etc(
    alloc: Global,
    root: &str,
    etc_lost: bool,
    usr_lost: bool,
) -> Result<Vec<u8>, AllocError>
    ensures { IfOk result
        (λ text. text.items ≡ Emptied.loss_text root.now false etc_lost usr_lost) }
{
    let mut text = emptied_if(alloc, root, false, etc_lost)?;
    let hidden = hidden_if(alloc, root, usr_lost)?;
    text.extend_from_slice(&hidden)?;
    Ok(text)
}

/// The lines of what is lost, by whether /etc's and /usr/lib's are.
fn loss_text(
    alloc: Global,
    root: &str,
    usr: bool,
    etc_lost: bool,
    usr_lost: bool,
) -> Result<Vec<u8>, AllocError>
    ensures { IfOk result
        (λ text. text.items ≡ Emptied.loss_text root.now usr etc_lost usr_lost) }
{
    if usr {
        emptied_if(alloc, root, true, usr_lost)
    } else {
        loss_in_etc(alloc, root, etc_lost, usr_lost)
    }
}

/// What is lost if the new database is empty. Both places are read, one after the other.
fn loss_of_empty<D: System>(
    alloc: Global,
    root: &str,
    usr: bool,
    system: &D,
) -> Result<Vec<u8>, Refusal>
    ensures follows { D.Store.tells → ReachesValue (λ text. text.items)
        (D.System.reads system.now) (loss_of [] root.now usr) result }
{
    let etc_lost = is_lost_in(alloc, root, ETC_FOLDER, system)?;
    let usr_lost = is_lost_in(alloc, root, USR_FOLDER, system)?;
    let text = loss_text(alloc, root, usr, etc_lost, usr_lost)?;
    Ok(text)
}

/// What is lost, if there are no text files; else nothing is read or said.
pub(crate) fn loss_if<D: System>(
    alloc: Global,
    root: &str,
    usr: bool,
    bare: bool,
    system: &D,
) -> Result<Vec<u8>, Refusal>
    ensures follows { (chosen : List Choice) → bare ≡ is_bare chosen → D.Store.tells
        → ReachesValue (λ text. text.items) (D.System.reads system.now)
        (loss_of chosen root.now usr) result }
{
    if bare {
        loss_of_empty(alloc, root, usr, system)
    } else {
        Ok(Vec::new(alloc))
    }
}

//! `query`, `explain` and `list` of a database of which the strings alone are held. The file is checked while it is read. After that the few
//! records are read that the devices need.
//!
//! The file is opened once, so that another one that takes its path meanwhile isn't read. None says nothing: the file isn't
//! accepted, a call failed, there was no memory, or the file itself was changed meanwhile. Then the whole file is read, which
//! tells the error if there is one.
ghost use Rattle.std.specs.Prelude.{◌≡◌, ◌≤◌, ℕ, List, Some, Ok, length, map, string_bytes, IfSome};
ghost use Rattle.hwdb_answers.specs.Asked.{IsWantedText};
ghost use Rattle.hwdb_spec.specs.Texts.{max_file};
ghost use Rattle.hwdb_plan.specs.Answers.{answer_plan};
ghost use Rattle.hwdb_plan.specs.Plans.{Ends};
ghost use Rattle.hwdb_tool.specs.Internal.{IsAskedAt};
ghost use Rattle.hwdb_tool.specs.Listing.{EndsInLines, asked_list_plan};
ghost use Rattle.hwdb_tool.specs.Views.{end_of};

use crate::answer::Answer;
use crate::hiding::database_path;
use hwdb_answers::{Form, ListAsked, Wanted, text_kept};
use hwdb_io::MAX_BYTES;
use hwdb_lookup::accepted;
use hwdb_system::{OpenedFile, System};
use std::alloc::Global;

/// For more devices than these the whole file is read: the records that many need are most of it.
const FEW: usize = 8;

/// The path of the database that is asked, if something is there.
fn asked_path<D: System>(alloc: Global, root: &str, system: &D) -> Option<String>
    ensures { D.Store.tells → IfSome result
        (λ path. IsAskedAt (D.System.reads system.now) root.now (string_bytes path)) }
{
    let Ok(etc) = database_path(alloc, root, false) else {
        return None;
    };
    match system.is_there(alloc, etc.as_str()) {
        Ok(true) => return Some(etc),
        Ok(false) => {}
        Err(_) => return None,
    }
    let Ok(usr) = database_path(alloc, root, true) else {
        return None;
    };
    match system.is_there(alloc, usr.as_str()) {
        Ok(true) => Some(usr),
        _ => None,
    }
}

/// What is printed, if the file is accepted, and isn't changed until then.
fn text_of_opened<F: OpenedFile>(alloc: Global, file: &F, wanted: Wanted<'_>) -> Option<Vec<u8>>
    ensures { IfSome result (λ text. (bytes : List ℕ) → F.is_of file.now bytes
        → (length bytes ≤ max_file) × IsWantedText wanted.entry bytes text.items) }
{
    let kept = accepted(alloc, file, MAX_BYTES as usize)?;
    let text = text_kept(alloc, file, &kept, wanted)?;
    if !file.is_unchanged() {
        return None;
    }
    Some(text)
}

/// What is printed, if the file at the path can be opened, and is accepted.
fn text_in_parts<D: System>(
    alloc: Global,
    path: &str,
    wanted: Wanted<'_>,
    system: &D,
) -> Option<Vec<u8>>
    ensures { D.Store.tells → IfSome result (λ text. (bytes : List ℕ)
        × ((D.System.reads system.now).database path.now ≡ Ok (Some bytes))
        × IsWantedText wanted.entry bytes text.items) }
{
    let file = system.open_database(alloc, path)?;
    text_of_opened(alloc, &file, wanted)
}

/// What is printed of the devices, if it can be told without all of the database in memory.
pub fn answer_in_parts<D: System>(
    alloc: Global,
    root: &str,
    devices: &[String],
    form: Form,
    system: &D,
) -> Option<Answer>
    ensures status { IfSome result (λ a. a.status ≡ 0) }
    ensures follows { D.Store.tells → IfSome result (λ a. Ends (D.System.reads system.now)
        (answer_plan root.now form (map string_bytes devices.now)) (end_of a)) }
{
    if devices.len() > FEW {
        return None;
    }
    let path = asked_path(alloc, root, system)?;
    let wanted = Wanted::Devices { devices, form };
    let text = text_in_parts(alloc, path.as_str(), wanted, system)?;
    Some(Answer::new(alloc, text, 0))
}

/// The lines of hits, if they can be told so.
pub fn list_in_parts<D: System>(
    alloc: Global,
    root: &str,
    asked: ListAsked<'_>,
    system: &D,
) -> Option<Vec<u8>>
    ensures { D.Store.tells → IfSome result (λ text. EndsInLines (D.System.reads system.now)
        (asked_list_plan root.now asked.entry) text.items) }
{
    let path = asked_path(alloc, root, system)?;
    text_in_parts(alloc, path.as_str(), Wanted::Hits(asked), system)
}

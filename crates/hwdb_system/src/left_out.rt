//! Chosen text files that can't be read: an update may leave them out, and says so.
ghost use Rattle.std.specs.Prelude.{◌≡◌, ◌≢◌, ◌⊎◌, ◌++◌, ◌∷◌, [], ℕ, List, All, Err, IfErr, IfOk, OnOk, cond, false, filter, length, map, not, string_bytes, true};
ghost use Rattle.hwdb_spec.specs.Folders.{lists};
ghost use Rattle.hwdb_text.specs.Views.{IsStorableChoice, choice_of};
ghost use Rattle.hwdb_spec.specs.Selected.{AreNamed, AreSelected};
ghost use Rattle.hwdb_system.specs.Internal.{IsNameSet};
ghost use Rattle.hwdb_plan.specs.Folders.{choose};
ghost use Rattle.hwdb_plan.specs.Readable.{LeftOut, ReachesOf, is_read_error, look, none_left_out, others, read_names, readable_texts};
ghost use Rattle.hwdb_system.specs.Selections.{AreLeftOutBy, IsReadableOf, IsSelectionBut};
ghost use Rattle.hwdb_system.specs.LeftOut.{AreFound, AreToldOf, IsNoted, IsNotedOf};
ghost use Rattle.hwdb_spec_commands.specs.LeftOutTold.{AreSelectedLess, AreUnreadLess, left_out_line};
ghost use Rattle.hwdb_spec_commands.specs.LeftOut.{less};
ghost use Rattle.hwdb_spec_commands.specs.Reading.{AreUnread, AreUnreadIn, IsChosenUnread};
ghost use Rattle.hwdb_spec_commands.specs.Refusals.{HasReason, IsUnreadable, file_text};
ghost use Rattle.hwdb_spec_commands.specs.declared.refusals.Refusal.TheVariants.{Plain};

use crate::folders::{ETC_FILES, Selection, USR_FILES, listed, read_file, selected_of};
use crate::system::System;
use hwdb_io::Cause;
use hwdb_show::push_name;
use hwdb_spec::ToolError;
use hwdb_spec_commands::Refusal;
use hwdb_text::{Chosen, select};
use std::alloc::{AllocError, Global};
use std::collections::BTreeSet;

/// The chosen files that can be read, and the lines of those that are left out.
#[derive(Drop)]
pub struct ReadableSelection {
    pub selection: Selection,
    pub said: Vec<u8>,
}

/// Some names as a set.
///
/// The only error is want of memory.
pub fn name_set<'a>(alloc: Global, names: &'a [String]) -> Result<BTreeSet<&'a str>, AllocError>
    ensures { IfOk result (IsNameSet (map string_bytes names.now)) }
{
    let mut set = BTreeSet::new(alloc);
    for name in names {
        set.insert(name.as_str())?;
    }
    Ok(set)
}

/// Adds a name, unless it is in the set.
fn push_other(
    alloc: Global,
    kept: &mut Vec<String>,
    name: &String,
    left_out: &BTreeSet<&str>,
) -> Result<(), AllocError>
    ensures { OnOk result ((gone : List (List ℕ)) → IsNameSet gone left_out.now
        → map string_bytes kept.new.items ≡ map string_bytes kept.old.items
        ++ cond (not (lists (string_bytes name.now) gone)) (string_bytes name.now ∷ []) []) }
{
    if !left_out.contains(name.as_str()) {
        let name = String::from_str(alloc, name)?;
        kept.push(name)?;
    }
    Ok(())
}

/// The names that aren't in the set.
fn others(
    alloc: Global,
    names: &[String],
    left_out: &BTreeSet<&str>,
) -> Result<Vec<String>, AllocError>
    ensures { IfOk result (λ kept. (gone : List (List ℕ)) → IsNameSet gone left_out.now
        → map string_bytes kept.items
        ≡ filter (λ name. not (lists name gone)) (map string_bytes names.now)) }
{
    let mut kept = Vec::new(alloc);
    for name in names {
        push_other(alloc, &mut kept, name, left_out)?;
    }
    Ok(kept)
}

/// Adds a path, and the words of the cause if one is known.
fn push_file(said: &mut Vec<u8>, path: &[u8], cause: Option<Cause>) -> Result<(), AllocError>
    ensures { OnOk result ((words : List ℕ)
        × (said.new.items ≡ said.old.items ++ file_text path.now cause words)) }
{
    push_name(said, path)?;
    match cause {
        None => Ok(()),
        Some(cause) => {
            said.extend_from_slice(b": ")?;
            said.extend_from_slice(cause.message().as_bytes())?;
            Ok(())
        }
    }
}

/// Adds the line of a file that is left out.
fn push_line(said: &mut Vec<u8>, path: &[u8], cause: Option<Cause>) -> Result<(), AllocError>
    ensures { OnOk result ((words : List ℕ)
        × (said.new.items ≡ said.old.items ++ left_out_line path.now cause words)) }
{
    said.extend_from_slice(b"hwdb: cannot read ")?;
    push_file(said, path, cause)?;
    said.extend_from_slice(b"; left out\n")?;
    Ok(())
}

/// Adds the line of an error at reading a file, which is left out. Any other error is handed on.
fn note(said: &mut Vec<u8>, refusal: Refusal) -> Result<(), Refusal>
    ensures noted { OnOk result (IsNoted refusal said.old.items said.new.items) }
    ensures refused { IfErr result (λ r. (r ≡ Plain ToolError.Memory) ⊎ (r ≡ refusal)) }
    ensures other { IfErr result (λ r. is_read_error r ≡ false) }
{
    match refusal {
        Refusal::At(ToolError::Read, path, cause) => {
            push_line(said, &path, cause)?;
            Ok(())
        }
        refusal => Err(refusal),
    }
}

/// The names of chosen files that can't be read, and their lines.
#[derive(Drop)]
pub struct Unreadable {
    pub names: Vec<String>,
    pub said: Vec<u8>,
}

/// Adds a chosen file, if it can't be read. Any other error is handed on.
fn push_unread(
    alloc: Global,
    found: &mut Unreadable,
    file: &Chosen,
    read: Result<Vec<u8>, Refusal>,
) -> Result<(), Refusal>
    ensures noted { OnOk result (IsNotedOf read (string_bytes file.now.name)
        (map string_bytes found.old.names.items) (map string_bytes found.new.names.items)
        found.old.said.items found.new.said.items) }
    ensures refused { IfErr result (λ r. (r ≡ Plain ToolError.Memory) ⊎ (read ≡ Err r)) }
    ensures other { IfErr result (λ r. is_read_error r ≡ false) }
{
    match read {
        Ok(_) => Ok(()),
        Err(refusal) => {
            note(&mut found.said, refusal)?;
            let name = String::from_str(alloc, &file.name)?;
            found.names.push(name).map_err(AllocError::from)?;
            Ok(())
        }
    }
}

/// Looks which of the chosen files can't be read, by reading each of them.
fn find_unreadable<D: System>(
    alloc: Global,
    root: &str,
    chosen: &[Chosen],
    system: &D,
) -> Result<Unreadable, Refusal>
    ensures told { IfOk result (λ u. AreToldOf
        (IsUnreadable (D.System.may_fail system.now) (D.Store.seen system.now)) root.now
        (map choice_of chosen.now) (map string_bytes u.names.items) u.said.items) }
    ensures follows { D.Store.tells → (words : List (List ℕ)) × ReachesOf
        (λ u. AreLeftOutBy root.now (map string_bytes u.names.items) u.said.items)
        (D.System.reads system.now)
        (look root.now (map choice_of chosen.now) words none_left_out) result }
    ensures refused { IfErr result (λ r. (r ≡ Plain ToolError.Memory)
        ⊎ IsChosenUnread root.now (map choice_of chosen.now) r) }
    ensures reason { IfErr result (HasReason
        (IsUnreadable (D.System.may_fail system.now) (D.Store.seen system.now)) ⊥
        (D.Store.seen system.now)) }
    ensures unread { IfErr result (λ r. r ≢ Plain ToolError.Write) }
{
    let mut found = Unreadable {
        names: Vec::new(alloc),
        said: Vec::new(alloc),
    };
    for file in chosen {
        let read = read_file(alloc, root, file, system);
        push_unread(alloc, &mut found, file, read)?;
    }
    Ok(found)
}

/// Chooses among the text files with these names, and looks which of the chosen ones can't be read.
fn unreadable_of<D: System>(
    alloc: Global,
    root: &str,
    etc: &[String],
    usr: &[String],
    system: &D,
) -> Result<Unreadable, Refusal>
    ensures follows { D.Store.tells → (words : List (List ℕ)) × ReachesOf
        (λ u. AreLeftOutBy root.now (map string_bytes u.names.items) u.said.items)
        (D.System.reads system.now)
        (λ next. choose (map string_bytes etc.now) (map string_bytes usr.now)
        (λ chosen. look root.now chosen words none_left_out next)) result }
    ensures found { AreNamed root.now (D.Store.seen system.now) (D.Store.seen system.now)
        (map string_bytes etc.now) (map string_bytes usr.now)
        → IfOk result (λ u. AreFound (D.System.may_fail system.now) root.now
        (D.Store.seen system.now) (map string_bytes u.names.items) u.said.items) }
    ensures refused { AreNamed root.now (D.Store.seen system.now) (D.Store.seen system.now)
        (map string_bytes etc.now) (map string_bytes usr.now)
        → IfErr result (AreUnreadIn true root.now (D.Store.seen system.now)) }
    ensures reason { AreNamed root.now (D.Store.seen system.now) (D.Store.seen system.now)
        (map string_bytes etc.now) (map string_bytes usr.now)
        → IfErr result (HasReason (D.System.may_fail system.now) ⊥ (D.Store.seen system.now)) }
    ensures unread { IfErr result (λ r. r ≢ Plain ToolError.Write) }
{
    let chosen = select(alloc, etc, usr)?;
    find_unreadable(alloc, root, &chosen, system)
}

/// The names of the text files in both folders, and of those that are left out.
#[derive(Clone, Copy)]
struct ListedBut<'a> {
    etc: &'a [String],
    usr: &'a [String],
    but: &'a [String],
}

/// Chooses among the text files with these names but for some, and reads the chosen ones.
fn selected_but<D: System>(
    alloc: Global,
    root: &str,
    listed: ListedBut<'_>,
    system: &D,
) -> Result<Selection, Refusal>
    ensures follows { let l = listed.entry in AreNamed root.now (D.Store.seen system.now)
        (D.Store.seen system.now) (map string_bytes l.etc.now) (map string_bytes l.usr.now)
        → D.Store.tells → (left : LeftOut) → map (λ c. c.name) left.files ≡ map string_bytes
        l.but.now → ReachesOf (IsSelectionBut left) (D.System.reads system.now) (read_names
        root.now (others left.files (map string_bytes l.etc.now)) (others left.files
        (map string_bytes l.usr.now)) left) result }
    ensures count { IfOk result (λ s. length s.texts.items ≡ length s.chosen.items) }
    ensures storable { IfOk result (λ s. All IsStorableChoice (map choice_of s.chosen.items)) }
    ensures selected { let l = listed.entry in AreNamed root.now (D.Store.seen system.now)
        (D.Store.seen system.now) (map string_bytes l.etc.now) (map string_bytes l.usr.now)
        → D.Store.tells → IfOk result (λ s. AreSelected root.now
        (less (map string_bytes l.but.now) root.now (D.Store.seen system.now))
        (map string_bytes s.listed.items) (map choice_of s.chosen.items)
        (map (λ t. t.items) s.texts.items)) }
    ensures refused { let l = listed.entry in AreNamed root.now (D.Store.seen system.now)
        (D.Store.seen system.now) (map string_bytes l.etc.now) (map string_bytes l.usr.now)
        → D.Store.tells → IfErr result (AreUnread root.now
        (less (map string_bytes l.but.now) root.now (D.Store.seen system.now))) }
    ensures reason { let l = listed.entry in AreNamed root.now (D.Store.seen system.now)
        (D.Store.seen system.now) (map string_bytes l.etc.now) (map string_bytes l.usr.now)
        → IfErr result (HasReason (D.System.may_fail system.now) ⊥ (D.Store.seen system.now)) }
    ensures unread { IfErr result (λ r. r ≢ Plain ToolError.Write) }
{
    let left_out = name_set(alloc, listed.but)?;
    let etc = others(alloc, listed.etc, &left_out)?;
    let usr = others(alloc, listed.usr, &left_out)?;
    selected_of(alloc, root, &etc, usr, system)
}

/// Chooses among the text files of both folders below the root, and reads the chosen ones. Chosen ones that can't be
/// read are left out. What a file that is left out masks is left out too.
fn selected_less<D: System>(
    alloc: Global,
    root: &str,
    system: &D,
) -> Result<ReadableSelection, Refusal>
    ensures follows { D.Store.tells → (words : List (List ℕ)) × ReachesOf
        (IsReadableOf root.now) (D.System.reads system.now)
        (readable_texts true root.now words) result }
    ensures count { IfOk result
        (λ r. length r.selection.texts.items ≡ length r.selection.chosen.items) }
    ensures storable { IfOk result
        (λ r. All IsStorableChoice (map choice_of r.selection.chosen.items)) }
    ensures selected { D.Store.tells → IfOk result (λ r. AreSelectedLess true
        (D.System.may_fail system.now) root.now (D.Store.seen system.now)
        (map string_bytes r.selection.listed.items) (map choice_of r.selection.chosen.items)
        (map (λ t. t.items) r.selection.texts.items) r.said.items) }
    ensures refused { D.Store.tells → IfErr result (AreUnreadLess true
        (D.System.may_fail system.now) root.now (D.Store.seen system.now)) }
    ensures reason { D.Store.tells → IfErr result
        (HasReason (D.System.may_fail system.now) ⊥ (D.Store.seen system.now)) }
    ensures unread { IfErr result (λ r. r ≢ Plain ToolError.Write) }
{
    let etc = listed(alloc, root, ETC_FILES, system)?;
    let usr = listed(alloc, root, USR_FILES, system)?;
    let found = unreadable_of(alloc, root, &etc, &usr, system)?;
    let listed = ListedBut {
        etc: &etc,
        usr: &usr,
        but: &found.names,
    };
    let selection = selected_but(alloc, root, listed, system)?;
    Ok(ReadableSelection {
        selection,
        said: found.said,
    })
}

/// Chooses among the text files of both folders below the root, and reads the chosen ones, as [`selected`](crate::selected) does. If
/// `skip`, a chosen one that can't be read is left out.
pub fn selected_readable<D: System>(
    alloc: Global,
    root: &str,
    skip: bool,
    system: &D,
) -> Result<ReadableSelection, Refusal>
    ensures follows { D.Store.tells → (words : List (List ℕ)) × ReachesOf
        (IsReadableOf root.now) (D.System.reads system.now)
        (readable_texts skip root.now words) result }
    ensures count { IfOk result
        (λ r. length r.selection.texts.items ≡ length r.selection.chosen.items) }
    ensures storable { IfOk result
        (λ r. All IsStorableChoice (map choice_of r.selection.chosen.items)) }
    ensures selected { D.Store.tells → IfOk result (λ r. AreSelectedLess skip
        (D.System.may_fail system.now) root.now (D.Store.seen system.now)
        (map string_bytes r.selection.listed.items) (map choice_of r.selection.chosen.items)
        (map (λ t. t.items) r.selection.texts.items) r.said.items) }
    ensures refused { D.Store.tells → IfErr result (AreUnreadLess skip
        (D.System.may_fail system.now) root.now (D.Store.seen system.now)) }
    ensures reason { D.Store.tells → IfErr result
        (HasReason (D.System.may_fail system.now) ⊥ (D.Store.seen system.now)) }
    ensures unread { IfErr result (λ r. r ≢ Plain ToolError.Write) }
{
    let etc = listed(alloc, root, ETC_FILES, system)?;
    let usr = listed(alloc, root, USR_FILES, system)?;
    match selected_of(alloc, root, &etc, usr, system) {
        Ok(selection) => Ok(ReadableSelection {
            selection,
            said: Vec::new(alloc),
        }),
        Err(refusal) => {
            if skip {
                selected_less(alloc, root, system)
            } else {
                Err(refusal)
            }
        }
    }
}

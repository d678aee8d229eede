//! The text files of both folders, chosen and read.
ghost use Rattle.std.specs.Prelude.{◌≡◌, ◌≢◌, ◌≤◌, ◌⊎◌, ◌++◌, [], Some, All, map, string_bytes, IfOk, IfErr, length, vec_len};
ghost use Rattle.hwdb_spec.specs.Folders.{path_of};
ghost use Rattle.hwdb_spec.specs.System.{AreNamesIn, bytes_at};
ghost use Rattle.hwdb_spec.specs.Texts.{max_file};
ghost use Rattle.hwdb_text.specs.Views.{IsStorableChoice, choice_of};
ghost use Rattle.hwdb_text.specs.Views.{bytes_in, choice_in};
ghost use Rattle.hwdb_spec.specs.Store.{Contents};
ghost use Rattle.hwdb_spec.specs.Selected.{AreNamed, AreSelected, AreTexts};
ghost use Rattle.hwdb_spec_commands.specs.Refusals.{HasReason, IsUnlisted, IsUnread, IsUnreadable};
ghost use Rattle.hwdb_spec_commands.specs.Reading.{AreUnread, IsChosenUnread, IsFirstUnread};
ghost use Rattle.hwdb_spec_commands.specs.Told.{IsListedTo, IsReadTo};
ghost use Rattle.hwdb_spec_commands.specs.declared.refusals.Refusal.TheVariants.{Plain};
ghost use Rattle.hwdb_plan.specs.Folders.{paths_of, read_texts, texts_of_folders, texts_of_names};
ghost use Rattle.hwdb_plan.specs.Plans.{ReachesValue};
ghost use Rattle.hwdb_system.specs.Selections.{IsAmong, texts_in};

use crate::files::joined;
use crate::system::System;
use hwdb_spec::ToolError;
use hwdb_spec_commands::Refusal;
use hwdb_text::{Chosen, ChosenFile, select};
use std::alloc::{AllocError, Global};

pub const ETC_FILES: &str = "/etc/udev/hwdb.d";

pub const USR_FILES: &str = "/usr/lib/udev/hwdb.d";

/// The chosen files of both folders, by priority, what each holds, and the names of all text files in /usr/lib.
#[derive(Drop)]
pub struct Selection {
    pub listed: Vec<String>,
    pub chosen: Vec<Chosen>,
    pub texts: Vec<Vec<u8>>,
}

/// Chooses among the text files of both folders below the root, and reads the chosen ones: a masked one isn't read.
pub fn selected<D: System>(alloc: Global, root: &str, system: &D) -> Result<Selection, Refusal>
    ensures told { D.Store.tells → ReachesValue texts_in (D.System.reads system.now)
        (texts_of_folders root.now) result }
    ensures count { IfOk result (λ s. length s.texts.items ≡ length s.chosen.items) }
    ensures storable { IfOk result (λ s. All IsStorableChoice (map choice_of s.chosen.items)) }
    ensures selected { D.Store.tells → IfOk result
        (λ s. AreSelected root.now (D.Store.seen system.now) (map string_bytes s.listed.items)
        (map choice_of s.chosen.items) (map (λ t. t.items) s.texts.items)) }
    ensures refused { D.Store.tells → IfErr result (AreUnread root.now (D.Store.seen system.now)) }
    ensures reason { D.Store.tells → IfErr result
        (HasReason (D.System.may_fail system.now) ⊥ (D.Store.seen system.now)) }
    ensures unread { IfErr result (λ r. r ≢ Plain ToolError.Write) }
{
    let etc_names = listed(alloc, root, ETC_FILES, system)?;
    let usr_names = listed(alloc, root, USR_FILES, system)?;
    selected_of(alloc, root, &etc_names, usr_names, system)
}

/// Chooses among the text files with these names, and reads the chosen ones.
pub fn selected_of<D: System>(
    alloc: Global,
    root: &str,
    etc: &[String],
    usr: Vec<String>,
    system: &D,
) -> Result<Selection, Refusal>
    ensures told { D.Store.tells → ReachesValue texts_in (D.System.reads system.now)
        (texts_of_names root.now (map string_bytes etc.now) (map string_bytes usr.items)) result }
    ensures among { IfOk result (IsAmong (map string_bytes etc.now) (map string_bytes usr.items)) }
    ensures count { IfOk result (λ s. length s.texts.items ≡ length s.chosen.items) }
    ensures storable { IfOk result (λ s. All IsStorableChoice (map choice_of s.chosen.items)) }
    ensures selected { (files : Contents)
        → AreNamed root.now (D.Store.seen system.now) files
        (map string_bytes etc.now) (map string_bytes usr.items)
        → D.Store.tells → IfOk result
        (λ s. AreSelected root.now files (map string_bytes s.listed.items)
        (map choice_of s.chosen.items) (map (λ t. t.items) s.texts.items)) }
    ensures refused { (files : Contents)
        → AreNamed root.now (D.Store.seen system.now) files
        (map string_bytes etc.now) (map string_bytes usr.items)
        → D.Store.tells → IfErr result (AreUnread root.now files) }
    ensures reason { (files : Contents)
        → AreNamed root.now (D.Store.seen system.now) files
        (map string_bytes etc.now) (map string_bytes usr.items)
        → IfErr result (HasReason (D.System.may_fail system.now) ⊥ (D.Store.seen system.now)) }
    ensures unread { IfErr result (λ r. r ≢ Plain ToolError.Write) }
{
    let chosen = select(alloc, etc, &usr)?;
    let texts = read_chosen(alloc, root, &chosen, system)?;
    Ok(Selection {
        listed: usr,
        chosen,
        texts,
    })
}

/// The names of the text files in a folder below the root.
pub fn listed<D: System>(
    alloc: Global,
    root: &str,
    folder: &str,
    system: &D,
) -> Result<Vec<String>, Refusal>
    ensures told { D.Store.tells → IsListedTo (λ names. map string_bytes names.items)
        ((D.System.reads system.now).names (root.now ++ folder.now)) (root.now ++ folder.now)
        result }
    ensures names { D.Store.tells → IfOk result (λ names. AreNamesIn (root.now ++ folder.now)
        (D.Store.seen system.now) (map string_bytes names.items)) }
    ensures refused { IfErr result (IsUnlisted (root.now ++ folder.now)) }
    ensures reason { IfErr result
        (HasReason (D.System.may_fail system.now) ⊥ (D.Store.seen system.now)) }
    ensures unread { IfErr result (λ r. r ≢ Plain ToolError.Write) }
{
    let path = joined(alloc, root, folder)?;
    system.names(alloc, path.as_str())
}

/// What a chosen file holds.
pub fn read_file<D: System>(
    alloc: Global,
    root: &str,
    file: &Chosen,
    system: &D,
) -> Result<Vec<u8>, Refusal>
    ensures told { D.Store.tells → IsReadTo (λ v. v.items)
        ((D.System.reads system.now).text (root.now ++ path_of (choice_of file.now)))
        (root.now ++ path_of (choice_of file.now)) result }
    ensures read { D.Store.tells → IfOk result (λ bytes. bytes_at (D.Store.seen system.now)
        (root.now ++ path_of (choice_of file.now)) ≡ Some bytes.items) }
    ensures within { IfOk result (λ bytes. vec_len bytes ≤ max_file) }
    ensures refused { IfErr result (IsUnread (root.now ++ path_of (choice_of file.now))) }
    ensures reason { IfErr result (HasReason
        (IsUnreadable (D.System.may_fail system.now) (D.Store.seen system.now)) ⊥
        (D.Store.seen system.now)) }
    ensures unread { IfErr result (λ r. r ≢ Plain ToolError.Write) }
{
    let stored = file.path(alloc)?;
    let path = joined(alloc, root, stored.as_str())?;
    system.text(alloc, path.as_str())
}

/// What the chosen files hold, in their order.
#[tactic(auto, using(crate::proofs::SelectionPlanLemmas::none_reached))]
fn read_chosen<D: System>(
    alloc: Global,
    root: &str,
    chosen: &[Chosen],
    system: &D,
) -> Result<Vec<Vec<u8>>, Refusal>
    ensures told { D.Store.tells → ReachesValue (λ texts. map (λ t. t.items) texts.items)
        (D.System.reads system.now)
        (read_texts (paths_of root.now (map choice_of chosen.now)) []) result }
    ensures count { IfOk result (λ texts. length texts.items ≡ length chosen.now) }
    ensures read { D.Store.tells → IfOk result (λ texts. AreTexts root.now (D.Store.seen system.now)
        (map choice_of chosen.now) (map (λ t. t.items) texts.items)) }
    ensures within { IfOk result (λ texts. All (λ t. length t.items ≤ max_file) texts.items) }
    ensures refused { IfErr result (λ r. (r ≡ Plain ToolError.Memory)
        ⊎ IsChosenUnread root.now (map choice_of chosen.now) r) }
    ensures first { D.Store.tells → IfErr result (λ r. (r ≡ Plain ToolError.Memory)
        ⊎ IsFirstUnread root.now (D.Store.seen system.now) (map choice_of chosen.now) r) }
    ensures reason { IfErr result (HasReason
        (IsUnreadable (D.System.may_fail system.now) (D.Store.seen system.now)) ⊥
        (D.Store.seen system.now)) }
    ensures unread { IfErr result (λ r. r ≢ Plain ToolError.Write) }
{
    let mut texts = Vec::new(alloc);
    for file in chosen {
        let bytes = read_file(alloc, root, file, system)?;
        texts.push(bytes).map_err(AllocError::from)?;
    }
    Ok(texts)
}

/// The chosen files, each with the text that was read of it.
pub fn with_texts<'a>(
    alloc: Global,
    chosen: &'a [Chosen],
    texts: &'a [Vec<u8>],
) -> Result<Vec<ChosenFile<'a>>, AllocError>
    requires { length texts.now ≡ length chosen.now }
    ensures choices { IfOk result
        (λ files. map choice_in files.items ≡ map choice_of chosen.now) }
    ensures bytes { IfOk result
        (λ files. map bytes_in files.items ≡ map (λ t. t.items) texts.now) }
{
    let mut files = Vec::new(alloc);
    for choice in chosen {
        let bytes = &texts[files.len()];
        files.push(ChosenFile { choice, bytes })?;
    }
    Ok(files)
}

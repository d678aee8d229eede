//! A store in memory as the program's file system, for tests: it tells its contents.
ghost use Rattle.std.specs.Prelude.{◌≡◌, ◌≤◌, ◌⊎◌, ◌++◌, ℕ, List, Some, IfOk, IfErr, IfSome, IsUtf8, OnOk, false, map, option_map, option_to_list, string_bytes, true, vec_len};
ghost use Rattle.hwdb_spec.specs.Texts.{max_file};
ghost use Rattle.hwdb_replace.specs.Memory.{seen_of};
ghost use Rattle.hwdb_system.specs.Internal.{IsMisnamed, IsOfName, bytes_after, is_told, is_told_file, made_by, name_in, names_after, step_name};
ghost use Rattle.hwdb_spec_commands.specs.Refusals.{HasReason, IsUnlisted, IsUnread, IsUnreadAt, IsUnreadable};
ghost use Rattle.hwdb_system.specs.Raw.{IsMisnamedAt};
ghost use Rattle.hwdb_system.specs.Reads.{file_told, found_told, memory_reads};
ghost use Rattle.hwdb_system.specs.Lemmas.MemoryReads.{memory_agrees};
ghost use Rattle.hwdb_spec_commands.specs.Told.{IsListedTo, IsReadTo, names_told};

use crate::files::text_of;
use crate::folders::{Selection, selected};
use crate::ignored::{is_ignored, text_folder};
use crate::opened::OpenedBytes;
use crate::rooted::Rooted;
use crate::rule_folders::rules_folder;
use crate::system::System;
use crate::text_folders::TextFolders;
use crate::texts_below::TextsBelow;
use hwdb_io::{Cause, MAX_BYTES};
use hwdb_replace::memory::state_of;
use hwdb_replace::{Memory, Step};
use hwdb_rulefiles::Folder;
use hwdb_spec::ToolError;
use hwdb_spec_commands::Refusal;
use hwdb_sysfs::NO_ENTRY;
use hwdb_text::counts;
use std::alloc::{AllocError, Global};

/// The path under which a step puts a file.
fn made_by(step: &Step) -> Option<&[u8]>
    ensures { option_map (λ p. p.now) result ≡ made_by step.now }
{
    match step {
        Step::Changed { path, .. } => Some(path),
        Step::Moved { to, .. } => Some(to),
        _ => None,
    }
}

/// The name of a path in a folder.
fn name_in<'a>(folder: &str, path: &'a [u8]) -> Option<&'a [u8]>
    ensures { option_map (λ name. name.now) result ≡ name_in folder.now path.now }
{
    match path.strip_prefix(folder.as_bytes()) {
        Some(rest) => rest.strip_prefix(b"/"),
        None => None,
    }
}

/// What is under a path after these steps, unless it is too long.
fn file_after(alloc: Global, steps: &[Step], path: &[u8]) -> Result<Option<Vec<u8>>, Refusal>
    ensures told { IsReadTo (λ found. option_map (λ v. v.items) found)
        (found_told (bytes_after steps.now path.now)) path.now result }
    ensures bytes { IfOk result
        (λ found. bytes_after steps.now path.now ≡ option_map (λ b. b.items) found) }
    ensures within { IfOk result (λ found. IfSome found (λ b. vec_len b ≤ max_file)) }
    ensures refused { IfErr result (IsUnread path.now) }
    ensures unread { IfErr result (IsUnreadAt (seen_of steps.now) path.now) }
    ensures reason { IfErr result (HasReason IsMisnamed ⊥ (seen_of steps.now)) }
{
    let state = state_of(alloc, steps, path)?;
    match state.now {
        None => Ok(None),
        Some(file) if file.bytes.len() > MAX_BYTES as usize => {
            Err(Refusal::of_cause(alloc, ToolError::TooLong, path, None))
        }
        Some(file) => Ok(Some(file.bytes.to_vec(alloc)?)),
    }
}

/// A file that has to be there.
fn read_after(alloc: Global, steps: &[Step], path: &[u8]) -> Result<Vec<u8>, Refusal>
    ensures told { IsReadTo (λ v. v.items) (file_told (bytes_after steps.now path.now))
        path.now result }
    ensures bytes { IfOk result (λ b. bytes_after steps.now path.now ≡ Some b.items) }
    ensures within { IfOk result (λ b. vec_len b ≤ max_file) }
    ensures refused { IfErr result (IsUnread path.now) }
    ensures unread { IfErr result (IsUnreadAt (seen_of steps.now) path.now) }
    ensures reason { IfErr result
        (HasReason (IsUnreadable IsMisnamed (seen_of steps.now)) ⊥ (seen_of steps.now)) }
{
    match file_after(alloc, steps, path)? {
        Some(bytes) => Ok(bytes),
        None => {
            let cause = Some(Cause::System(NO_ENTRY));
            Err(Refusal::of_cause(alloc, ToolError::Read, path, cause))
        }
    }
}

/// Whether a name is that of an ignored file, or that of a text file.
fn is_told(name: &[u8], ignored: bool) -> bool
    ensures { result ≡ is_told ignored name.now }
{
    if ignored {
        is_ignored(name)
    } else {
        counts(name)
    }
}

/// Whether a file with this name, one of those, is in its folder, if its path is this one.
fn is_told_file(
    alloc: Global,
    steps: &[Step],
    name: &[u8],
    path: &[u8],
    ignored: bool,
) -> Result<bool, AllocError>
    ensures { IfOk result (λ b. b ≡ is_told_file ignored steps.now name.now path.now) }
{
    if !is_told(name, ignored) || name.contains(&b'/') {
        return Ok(false);
    }
    let state = state_of(alloc, steps, path)?;
    Ok(state.now.is_some())
}

/// The name of such a file that a step puts in a folder, if it is there after all steps.
#[tactic(auto, using(crate::proofs::MemoryLemmas::unmade, crate::proofs::MemoryLemmas::unnamed, crate::proofs::MemoryLemmas::kept_name, crate::proofs::MemoryLemmas::left_name))]
fn named_by<'a>(
    alloc: Global,
    steps: &[Step],
    folder: &str,
    step: &'a Step,
    ignored: bool,
) -> Result<Option<&'a [u8]>, AllocError>
    ensures { IfOk result (λ found. option_map (λ n. n.now) found
        ≡ step_name ignored steps.now folder.now step.now) }
{
    let Some(path) = made_by(step) else {
        return Ok(None);
    };
    let Some(name) = name_in(folder, path) else {
        return Ok(None);
    };
    if is_told_file(alloc, steps, name, path, ignored)? {
        return Ok(Some(name));
    }
    Ok(None)
}

/// Puts the name of the text file that a step has in a folder after the others.
#[tactic(auto, using(crate::proofs::MemoryLemmas::put_name))]
fn push_name(
    alloc: Global,
    steps: &[Step],
    folder: &str,
    step: &Step,
    names: &mut Vec<String>,
) -> Result<(), Refusal>
    ensures pushed { OnOk result (map string_bytes names.new.items
        ≡ map string_bytes names.old.items
        ++ option_to_list (step_name false steps.now folder.now step.now)) }
    ensures utf8 { OnOk result (IfSome (step_name false steps.now folder.now step.now) IsUtf8) }
    ensures misnamed { IfErr result (λ r. (r ≡ Refusal.Plain ToolError.Memory)
        ⊎ ((name : List ℕ) × (step_name false steps.now folder.now step.now ≡ Some name)
        × IsMisnamedAt folder.now name r)) }
    ensures refused { IfErr result (IsUnlisted folder.now) }
    ensures reason { IfErr result IsOfName }
{
    if let Some(name) = named_by(alloc, steps, folder, step, false)? {
        let name = text_of(alloc, folder, name)?;
        names.push(name).map_err(AllocError::from)?;
    }
    Ok(())
}

/// Puts the name of the ignored file that a step has in a folder after the others.
#[tactic(auto, using(crate::proofs::MemoryLemmas::put_name))]
fn push_ignored(
    alloc: Global,
    steps: &[Step],
    folder: &str,
    step: &Step,
    names: &mut Vec<Vec<u8>>,
) -> Result<(), AllocError>
    ensures { OnOk result (map (λ n. n.items) names.new.items
        ≡ map (λ n. n.items) names.old.items
        ++ option_to_list (step_name true steps.now folder.now step.now)) }
{
    if let Some(name) = named_by(alloc, steps, folder, step, true)? {
        names.push(name.to_vec(alloc)?)?;
    }
    Ok(())
}

/// The names of the text files that are in a folder after these steps, in their order. The first that isn't UTF-8 is an error.
fn names_after(alloc: Global, steps: &[Step], folder: &str) -> Result<Vec<String>, Refusal>
    ensures told { IsListedTo (λ names. map string_bytes names.items)
        (names_told (names_after false steps.now folder.now)) folder.now result }
    ensures refused { IfErr result (IsUnlisted folder.now) }
    ensures reason { IfErr result IsOfName }
{
    let mut names = Vec::new(alloc);
    for step in steps {
        push_name(alloc, steps, folder, step, &mut names)?;
    }
    Ok(names)
}

/// The names of the ignored files that are in a folder after these steps, in their order.
fn ignored_after(alloc: Global, steps: &[Step], folder: &str) -> Result<Vec<Vec<u8>>, AllocError>
    ensures { IfOk result (λ names. map (λ n. n.items) names.items
        ≡ names_after true steps.now folder.now) }
{
    let mut names = Vec::new(alloc);
    for step in steps {
        push_ignored(alloc, steps, folder, step, &mut names)?;
    }
    Ok(names)
}

impl System for Memory {
    type Opened = OpenedBytes;

    ghost may_fail = { λ _ path. IsMisnamed path };

    ghost reads = { λ m. memory_reads m.steps.items };

    ghost agrees = { λ m tells. memory_agrees m.steps.items };

    // It has files alone.
    ghost is_regular = { λ _ _. Unit {0} };

    fn names(&self, alloc: Global, folder: &str) -> Result<Vec<String>, Refusal> {
        names_after(alloc, &self.steps, folder)
    }

    fn folder_names(&self, alloc: Global, path: &str) -> Result<Option<Vec<String>>, Refusal> {
        if self.is_there(alloc, path)? {
            return Ok(None);
        }
        let names = self.names(alloc, path)?;
        Ok(Some(names))
    }

    fn text(&self, alloc: Global, path: &str) -> Result<Vec<u8>, Refusal> {
        read_after(alloc, &self.steps, path.as_bytes())
    }

    fn input(&self, alloc: Global, path: &str) -> Result<Vec<u8>, Refusal> {
        read_after(alloc, &self.steps, path.as_bytes())
    }

    fn database(&self, alloc: Global, path: &str) -> Result<Option<Vec<u8>>, Refusal> {
        file_after(alloc, &self.steps, path.as_bytes())
    }

    fn is_there(&self, alloc: Global, path: &str) -> Result<bool, AllocError> {
        let state = state_of(alloc, &self.steps, path.as_bytes())?;
        Ok(state.now.is_some())
    }

    fn open_database(&self, alloc: Global, path: &str) -> Option<OpenedBytes> {
        match file_after(alloc, &self.steps, path.as_bytes()) {
            Ok(Some(bytes)) => Some(OpenedBytes { bytes }),
            _ => None,
        }
    }
}

impl TextFolders for Memory {
    fn ignored_names(&self, alloc: Global, root: &str, usr: bool) -> Result<Vec<Vec<u8>>, Refusal> {
        let folder = text_folder(alloc, root, usr)?;
        Ok(ignored_after(alloc, &self.steps, folder.as_str())?)
    }

    fn names_beside_rules(
        &self,
        alloc: Global,
        root: &str,
        folder: Folder,
    ) -> Result<Vec<Vec<u8>>, Refusal> {
        let folder = rules_folder(alloc, root, folder)?;
        Ok(ignored_after(alloc, &self.steps, folder.as_str())?)
    }
}

// It has no links.
impl TextsBelow for Memory {
    fn selected_below(&self, alloc: Global, root: &str) -> Result<Selection, Refusal> {
        selected(alloc, root, self)
    }
}

impl Rooted for Memory {
    fn enter(&mut self, _root: &str) -> Result<(), Refusal> {
        Ok(())
    }
}

//! The machine's own rules files, chosen and read.
ghost use Rattle.std.specs.Prelude.{◌≡◌, ◌≤◌, ◌⊎◌, ◌++◌, ◌∷◌, [], ℕ, All, List, Ok, Some, map, length, option_map, option_to_list, string_bytes, IfErr, IfOk, IfSome, IsUtf8, OnOk};
ghost use Rattle.hwdb_spec.specs.Texts.{max_file};
ghost use Rattle.hwdb_rulefiles.specs.ChoiceViews.{chosen_of};
ghost use Rattle.hwdb_spec_commands.specs.RulePaths;
ghost use Rattle.hwdb_spec_commands.specs.Told.{IsListedTo, IsReadTo, rules_told};
ghost use Rattle.hwdb_plan.specs.Folders.{read_texts};
ghost use Rattle.hwdb_plan.specs.OwnRules as plan;
ghost use Rattle.hwdb_plan.specs.Plans.{ReachesValue};
ghost use Rattle.hwdb_system.specs.OwnRules.{rules_name, sources_in};
ghost use Rattle.hwdb_system.specs.Raw.{IsMisnamedAt};

use crate::files::{joined, path_in, text_of};
use crate::system::System;
use crate::text_folders::TextFolders;
use hwdb_rulefiles::{ChosenRules, Folder, choose, counts};
use hwdb_spec::ToolError;
use hwdb_spec_commands::Refusal;
use std::alloc::{AllocError, Global};

/// The path of a folder of rules files below a root.
pub fn rules_folder(alloc: Global, root: &str, folder: Folder) -> Result<String, AllocError>
    ensures { IfOk result
        (λ path. string_bytes path ≡ RulePaths.rules_folder root.now folder) }
{
    match folder {
        Folder::Etc => joined(alloc, root, "/etc/udev/rules.d"),
        Folder::Run => joined(alloc, root, "/run/udev/rules.d"),
        Folder::Local => joined(alloc, root, "/usr/local/lib/udev/rules.d"),
        Folder::Usr => joined(alloc, root, "/usr/lib/udev/rules.d"),
    }
}

/// A name, if it is that of a rules file.
fn rules_name(name: &[u8]) -> Option<&[u8]>
    ensures { option_map (λ n. n.now) result ≡ rules_name name.now }
{
    if counts(name) { Some(name) } else { None }
}

/// Puts a name after the others, if it is that of a rules file.
fn push_rules(
    alloc: Global,
    folder: &str,
    name: &[u8],
    found: &mut Vec<String>,
) -> Result<(), Refusal>
    ensures pushed { OnOk result (map string_bytes found.new.items
        ≡ map string_bytes found.old.items ++ option_to_list (rules_name name.now)) }
    ensures utf8 { OnOk result (IfSome (rules_name name.now) IsUtf8) }
    ensures misnamed { IfErr result (λ r. (r ≡ Refusal.Plain ToolError.Memory)
        ⊎ ((other : List ℕ) × (rules_name name.now ≡ Some other)
        × IsMisnamedAt folder.now other r)) }
{
    if let Some(name) = rules_name(name) {
        let name = text_of(alloc, folder, name)?;
        found.push(name).map_err(AllocError::from)?;
    }
    Ok(())
}

/// The names of rules files among these. The first of them that isn't UTF-8 is an error.
fn rules_among(alloc: Global, folder: &str, names: &[Vec<u8>]) -> Result<Vec<String>, Refusal>
    ensures { IsListedTo (λ found. map string_bytes found.items)
        (rules_told (Ok (map (λ n. n.items) names.now))) folder.now result }
{
    let mut found = Vec::new(alloc);
    for name in names {
        push_rules(alloc, folder, name, &mut found)?;
    }
    Ok(found)
}

/// The names of the rules files in a folder; none if it isn't there.
fn rules_in<D: TextFolders>(
    alloc: Global,
    root: &str,
    folder: Folder,
    system: &D,
) -> Result<Vec<String>, Refusal>
    ensures { D.Store.tells → IsListedTo (λ names. map string_bytes names.items)
        (rules_told ((D.System.reads system.now).ignored
        (RulePaths.rules_folder root.now folder)))
        (RulePaths.rules_folder root.now folder) result }
{
    let names = system.names_beside_rules(alloc, root, folder)?;
    let path = rules_folder(alloc, root, folder)?;
    rules_among(alloc, path.as_str(), &names)
}

/// The rules files that count of all four folders below the root.
fn chosen_rules<D: TextFolders>(
    alloc: Global,
    root: &str,
    system: &D,
) -> Result<Vec<ChosenRules>, Refusal>
    ensures { D.Store.tells → ReachesValue (λ chosen. map chosen_of chosen.items)
        (D.System.reads system.now) (plan.rules_chosen root.now) result }
{
    let etc_names = rules_in(alloc, root, Folder::Etc, system)?;
    let run_names = rules_in(alloc, root, Folder::Run, system)?;
    let local_names = rules_in(alloc, root, Folder::Local, system)?;
    let usr_names = rules_in(alloc, root, Folder::Usr, system)?;
    let chosen = choose(alloc, &etc_names, &run_names, &local_names, &usr_names)?;
    Ok(chosen)
}

/// The path of a chosen file below the root, as it is printed.
fn rules_path(alloc: Global, file: &ChosenRules) -> Result<String, AllocError>
    ensures { IfOk result
        (λ path. string_bytes path ≡ RulePaths.rules_path (chosen_of file.now)) }
{
    let folder = rules_folder(alloc, "", file.folder)?;
    path_in(alloc, folder.as_str(), file.name.as_str())
}

/// Those of some chosen files.
fn rules_paths(alloc: Global, chosen: &[ChosenRules]) -> Result<Vec<String>, AllocError>
    ensures { IfOk result (λ paths. map string_bytes paths.items
        ≡ map RulePaths.rules_path (map chosen_of chosen.now)) }
{
    let mut paths = Vec::new(alloc);
    for file in chosen {
        paths.push(rules_path(alloc, file)?)?;
    }
    Ok(paths)
}

/// What is at a path below the root.
fn read_below<D: System>(
    alloc: Global,
    root: &str,
    path: &str,
    system: &D,
) -> Result<Vec<u8>, Refusal>
    ensures told { D.Store.tells → IsReadTo (λ v. v.items)
        ((D.System.reads system.now).text (root.now ++ path.now)) (root.now ++ path.now) result }
    ensures within { IfOk result (λ bytes. length bytes.items ≤ max_file) }
{
    let whole = joined(alloc, root, path)?;
    system.text(alloc, whole.as_str())
}

/// What is at each of these paths, in their order.
#[tactic(auto, using(crate::proofs::OwnRulesLemmas::none_read))]
fn read_all_below<D: System>(
    alloc: Global,
    root: &str,
    paths: &[String],
    system: &D,
) -> Result<Vec<Vec<u8>>, Refusal>
    ensures told { D.Store.tells → ReachesValue (λ texts. map (λ t. t.items) texts.items)
        (D.System.reads system.now) (read_texts (map (λ (path : List ℕ). root.now ++ path)
        (map string_bytes paths.now)) []) result }
    ensures count { IfOk result (λ texts. length texts.items ≡ length paths.now) }
    ensures within { IfOk result (λ texts. All (λ t. length t.items ≤ max_file) texts.items) }
{
    let mut texts = Vec::new(alloc);
    for path in paths {
        let bytes = read_below(alloc, root, path.as_str(), system)?;
        texts.push(bytes).map_err(AllocError::from)?;
    }
    Ok(texts)
}

/// Rules files with what each holds.
#[derive(Drop)]
pub struct RulesRead {
    /// Their paths below the root.
    pub paths: Vec<String>,
    /// What each holds.
    pub texts: Vec<Vec<u8>>,
}

impl RulesRead {
    /// Whether there are none.
    #[tactic(auto, unfolding(hwdb_plan::specs::OwnRules::has_none, hwdb_plan::specs::OwnRules::sources_of))]
    pub fn is_empty(&self) -> bool
        ensures { result ≡ plan.has_none (sources_in self.now) }
    {
        let Some(_) = self.paths.split_first() else {
            return true;
        };
        let Some(_) = self.texts.split_first() else {
            return true;
        };
        false
    }
}

/// Chooses among the machine's own rules files below the root, and reads the chosen ones: a masked one isn't read.
///
/// Errors are a folder that can't be listed, a rules file's name that isn't UTF-8, and a chosen file that can't be read.
pub fn own_rules<D: TextFolders>(
    alloc: Global,
    root: &str,
    system: &D,
) -> Result<RulesRead, Refusal>
    ensures told { D.Store.tells → ReachesValue sources_in (D.System.reads system.now)
        (plan.own_rules root.now) result }
    ensures count { IfOk result (λ r. length r.texts.items ≡ length r.paths.items) }
    ensures within { IfOk result (λ r. All (λ t. length t.items ≤ max_file) r.texts.items) }
{
    let chosen = chosen_rules(alloc, root, system)?;
    let paths = rules_paths(alloc, &chosen)?;
    let texts = read_all_below(alloc, root, &paths, system)?;
    Ok(RulesRead { paths, texts })
}

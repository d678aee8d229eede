//! Sysfs and a device in it, and what is said if there is none.
ghost use Rattle.std.specs.Option.{option_map_or};
ghost use Rattle.std.specs.Prelude.{◌≡◌, ◌++◌, ◌∷◌, ◌⊎◌, [], map, List, Some, ℕ, IfErr, IfOk, OnOk};
ghost use Rattle.hwdb_spec_commands.specs.DeviceAsked as spec;
ghost use Rattle.hwdb_spec_commands.specs.DeviceFound as found;
ghost use Rattle.hwdb_spec_commands.specs.DeviceFound.{only, places_meant};
ghost use Rattle.hwdb_spec_commands.specs.DeviceTree as tree;
ghost use Rattle.hwdb_spec.specs.Failures.{IsOneLine};
ghost use Rattle.hwdb_spec.specs.Lines.{is, pieces};
ghost use Rattle.hwdb_spec_commands.specs.SysfsAnswers.{Answers, seen, sight_by};
ghost use Rattle.hwdb_sysfs.specs.Finding as finding;
ghost use Rattle.hwdb_spec_commands.specs.Refusals.{IsInWords};
ghost use Rattle.hwdb_spec_program.specs.DeviceErrors.{IsNoDevice, IsNoSysfs, IsWorded, SaysSeveral, asked_names};
ghost use Rattle.hwdb_spec.specs.declared.errors.ToolError.TheVariants.{Memory};
ghost use Rattle.hwdb_spec_commands.specs.declared.refusals.Refusal.TheVariants.{Plain};

use hwdb_device::{fitting, near_given, several_text};
use hwdb_io::Cause;
use hwdb_rules::ATTRIBUTES;
use hwdb_show::push_name;
use hwdb_sysfs::{DeviceFiles, Sysfs, Unfound, find_device, sysfs_below};
use hwdb_system::Refusal;
use std::alloc::{AllocError, Global};

/// Sysfs in a folder, of which is read what rules ask for.
pub(crate) fn for_rules<'s, F: DeviceFiles>(files: &'s F, folder: &'s [u8]) -> Sysfs<'s, F>
    ensures files { result.files.now ≡ files.now }
    ensures names { pieces (is 10) result.names.now ≡ asked_names }
    ensures folder { result.folder.now ≡ folder.now }
{
    Sysfs {
        files,
        names: ATTRIBUTES.as_bytes(),
        folder,
    }
}

/// Where sysfs is below the root.
pub fn sysfs_of<F: DeviceFiles>(alloc: Global, root: &str, files: &F) -> Result<Vec<u8>, Refusal>
    ensures found { F.tells → IfOk result (λ sys.
        tree.sysfs_below (sight_by F.answers files.now) root.now ≡ Some sys.items) }
    ensures refused { F.tells → IfErr result (IsNoSysfs root.now (sight_by F.answers files.now)) }
    ensures worded { IfErr result IsWorded }
{
    match sysfs_below(alloc, files, root.as_bytes()) {
        Ok(sys) => Ok(sys),
        Err(why) => Err(unmounted(alloc, why)),
    }
}

/// What is said if there is no sysfs, for this reason.
fn unmounted(alloc: Global, why: Unfound) -> Refusal
    ensures said { (answers : Answers) (root : List ℕ) → finding.IsNoSysfs answers root why
        → IsNoSysfs root (seen answers) result }
    ensures worded { IsWorded result }
{
    match why {
        Unfound::NoSysfs(path, cause) => no_sysfs(alloc, &path, cause),
        Unfound::Untold(path, cause) => unread(alloc, &path, cause),
        Unfound::Memory | Unfound::Unread(_) | Unfound::NoDevice => Refusal::from(AllocError),
    }
}

/// The same, for this cause.
fn no_sysfs(alloc: Global, path: &[u8], cause: Cause) -> Refusal
    ensures { (words : List ℕ) × IsOneLine words
        × IsInWords (spec.no_sysfs_text path.now words) result }
{
    let message = cause.message();
    no_sysfs_for(alloc, path, message.as_bytes())
}

/// The same, with the words of the cause.
fn no_sysfs_for(alloc: Global, path: &[u8], words: &[u8]) -> Refusal
    ensures { IsInWords (spec.no_sysfs_text path.now words.now) result }
{
    match no_sysfs_text(alloc, path, words) {
        Ok(text) => Refusal::InWords(text),
        Err(refused) => Refusal::from(refused),
    }
}

/// The words of it.
fn no_sysfs_text(alloc: Global, path: &[u8], words: &[u8]) -> Result<Vec<u8>, AllocError>
    ensures { IfOk result (λ text. text.items ≡ spec.no_sysfs_text path.now words.now) }
{
    let mut text = Vec::from_slice(alloc, b"no sysfs: ")?;
    push_name(&mut text, path)?;
    text.extend_from_slice(b": ")?;
    text.extend_from_slice(words)?;
    text.extend_from_slice(b": mount it, or name another root")?;
    Ok(text)
}

/// The place of the device that is meant.
pub fn place_meant<F: DeviceFiles>(
    alloc: Global,
    root: &str,
    sys: &[u8],
    given: &[u8],
    files: &F,
) -> Result<Vec<u8>, Refusal>
    ensures found { F.tells → IfOk result (λ place. only (places_meant
        (sight_by F.answers files.now) asked_names root.now sys.now given.now)
        ≡ Some place.items) }
    ensures refused { F.tells → IfErr result
        (IsNoDevice root.now sys.now given.now (sight_by F.answers files.now)) }
    ensures worded { IfErr result IsWorded }
{
    match find_device(alloc, files, root.as_bytes(), sys, given) {
        Ok(place) => Ok(place),
        Err(why) => place_else(alloc, sys, given, why, files),
    }
}

/// The place of the device that is meant, if no whole name is one's for this reason.
fn place_else<F: DeviceFiles>(
    alloc: Global,
    sys: &[u8],
    given: &[u8],
    why: Unfound,
    files: &F,
) -> Result<Vec<u8>, Refusal>
    ensures found { F.tells → (root : List ℕ)
        → finding.IsUnfound (F.answers files.now) root sys.now given.now why
        → IfOk result (λ place. only (places_meant (sight_by F.answers files.now) asked_names
        root sys.now given.now) ≡ Some place.items) }
    ensures refused { F.tells → (root : List ℕ)
        → finding.IsUnfound (F.answers files.now) root sys.now given.now why
        → IfErr result (IsNoDevice root sys.now given.now (sight_by F.answers files.now)) }
    ensures worded { IfErr result IsWorded }
{
    match only_meant(alloc, sys, given, &why, files)? {
        Some(place) => Ok(place),
        None => Err(unmeant(alloc, sys, given, why, files)),
    }
}

/// The place of the only device that is meant, if no whole name is one's for this reason; nothing if none is. Several are an error.
pub(crate) fn only_meant<F: DeviceFiles>(
    alloc: Global,
    sys: &[u8],
    given: &[u8],
    why: &Unfound,
    files: &F,
) -> Result<Option<Vec<u8>>, Refusal>
    ensures meant { F.tells → (root : List ℕ)
        → finding.IsUnfound (F.answers files.now) root sys.now given.now why.now
        → IfOk result (λ o. places_meant (sight_by F.answers files.now) asked_names root sys.now
        given.now ≡ option_map_or (λ place. place.items ∷ []) o []) }
    ensures several { F.tells → (root : List ℕ)
        → finding.IsUnfound (F.answers files.now) root sys.now given.now why.now
        → IfErr result (λ r. (r ≡ Plain Memory)
        ⊎ SaysSeveral root sys.now given.now (sight_by F.answers files.now) r) }
    ensures worded { IfErr result IsWorded }
{
    let mut places = places_else(alloc, sys, given, why, files)?;
    if places.len() > 1 {
        return Err(several(alloc, sys, given, &places, files));
    }
    match places.pop() {
        Some(place) => Ok(Some(place)),
        None => Ok(None),
    }
}

/// The places of the devices that are meant, if no whole name is one's for this reason. There are none if what would tell of a whole name
/// can't be read.
fn places_else<F: DeviceFiles>(
    alloc: Global,
    sys: &[u8],
    given: &[u8],
    why: &Unfound,
    files: &F,
) -> Result<Vec<Vec<u8>>, AllocError>
    ensures { F.tells → (root : List ℕ)
        → finding.IsUnfound (F.answers files.now) root sys.now given.now why.now
        → IfOk result (λ places. map (λ p. p.items) places.items
        ≡ places_meant (sight_by F.answers files.now) asked_names root sys.now given.now) }
{
    match why {
        Unfound::Memory => Err(AllocError),
        Unfound::Untold(..) | Unfound::NoSysfs(..) => Ok(Vec::new(alloc)),
        Unfound::Unread(_) | Unfound::NoDevice => { fitting(alloc, &for_rules(files, sys), given) }
    }
}

/// What is said of several devices.
fn several<F: DeviceFiles>(
    alloc: Global,
    sys: &[u8],
    given: &[u8],
    places: &[Vec<u8>],
    files: &F,
) -> Refusal
    ensures said { F.tells → IsInWords (found.several_text (sight_by F.answers files.now)
        asked_names sys.now given.now (map (λ p. p.items) places.now)) result }
    ensures worded { IsWorded result }
{
    match several_text(alloc, &for_rules(files, sys), given, places) {
        Ok(text) => Refusal::InWords(text),
        Err(refused) => Refusal::from(refused),
    }
}

/// What is said if no device is meant, for this reason.
fn unmeant<F: DeviceFiles>(
    alloc: Global,
    sys: &[u8],
    given: &[u8],
    why: Unfound,
    files: &F,
) -> Refusal
    ensures said { F.tells → (root : List ℕ)
        → finding.IsUnfound (F.answers files.now) root sys.now given.now why
        → places_meant (sight_by F.answers files.now) asked_names root sys.now given.now ≡ []
        → IsNoDevice root sys.now given.now (sight_by F.answers files.now) result }
    ensures worded { IsWorded result }
{
    match why {
        Unfound::Untold(path, cause) => unread(alloc, &path, cause),
        Unfound::Unread(cause) => {
            let message = cause.message();
            let sysfs = for_rules(files, sys);
            no_device(alloc, &sysfs, given, true, message.as_bytes())
        }
        Unfound::NoDevice => not_there(alloc, sys, given, files),
        Unfound::Memory | Unfound::NoSysfs(..) => Refusal::from(AllocError),
    }
}

/// What is said if a path can't be read that would tell whether a device is there.
fn unread(alloc: Global, path: &[u8], cause: Cause) -> Refusal
    ensures { (words : List ℕ) × IsOneLine words
        × IsInWords (spec.unread_text path.now words) result }
{
    let message = cause.message();
    unread_for(alloc, path, message.as_bytes())
}

/// The same, with the words of the cause.
fn unread_for(alloc: Global, path: &[u8], words: &[u8]) -> Refusal
    ensures { IsInWords (spec.unread_text path.now words.now) result }
{
    match unread_text(alloc, path, words) {
        Ok(text) => Refusal::InWords(text),
        Err(refused) => Refusal::from(refused),
    }
}

/// The words of it.
fn unread_text(alloc: Global, path: &[u8], words: &[u8]) -> Result<Vec<u8>, AllocError>
    ensures { IfOk result (λ text. text.items ≡ spec.unread_text path.now words.now) }
{
    let mut text = Vec::from_slice(alloc, b"cannot read ")?;
    push_name(&mut text, path)?;
    text.extend_from_slice(b": ")?;
    text.extend_from_slice(words)?;
    Ok(text)
}

/// What is said if what was given leads to no device, and not nowhere.
fn not_there<F: DeviceFiles>(alloc: Global, sys: &[u8], given: &[u8], files: &F) -> Refusal
    ensures said { F.tells → (root : List ℕ)
        → finding.IsUnfound (F.answers files.now) root sys.now given.now Unfound.NoDevice
        → places_meant (sight_by F.answers files.now) asked_names root sys.now given.now ≡ []
        → IsNoDevice root sys.now given.now (sight_by F.answers files.now) result }
    ensures worded { IsWorded result }
{
    no_device(alloc, &for_rules(files, sys), given, false, b"")
}

/// What is said of what was given: whether it leads nowhere, why, and what is near.
pub(crate) fn no_device<F: DeviceFiles>(
    alloc: Global,
    sysfs: &Sysfs<'_, F>,
    given: &[u8],
    nowhere: bool,
    words: &[u8],
) -> Refusal
    ensures said { F.tells → IsInWords (spec.no_device_text nowhere given.now words.now
        (found.near_given (sight_by F.answers sysfs.now.files.now)
        (pieces (is 10) sysfs.now.names.now) sysfs.now.folder.now given.now)) result }
    ensures worded { IsWorded result }
{
    match near_text(alloc, sysfs, given, nowhere, words) {
        Ok(text) => Refusal::InWords(text),
        Err(refused) => Refusal::from(refused),
    }
}

/// The words of it.
fn near_text<F: DeviceFiles>(
    alloc: Global,
    sysfs: &Sysfs<'_, F>,
    given: &[u8],
    nowhere: bool,
    words: &[u8],
) -> Result<Vec<u8>, AllocError>
    ensures { F.tells → IfOk result (λ text. text.items
        ≡ spec.no_device_text nowhere given.now words.now
        (found.near_given (sight_by F.answers sysfs.now.files.now)
        (pieces (is 10) sysfs.now.names.now) sysfs.now.folder.now given.now)) }
{
    let near = near_given(alloc, sysfs, given)?;
    no_device_text(alloc, given, nowhere, words, &near)
}

/// The same, with what is near.
fn no_device_text(
    alloc: Global,
    given: &[u8],
    nowhere: bool,
    words: &[u8],
    near: &[u8],
) -> Result<Vec<u8>, AllocError>
    ensures { IfOk result (λ text. text.items
        ≡ spec.no_device_text nowhere given.now words.now near.now) }
{
    let mut text = Vec::from_slice(alloc, b"no device: ")?;
    push_name(&mut text, given)?;
    text.extend_from_slice(b": ")?;
    push_cause(&mut text, nowhere, words)?;
    push_hint(&mut text, near)?;
    Ok(text)
}

/// Adds why a path leads nowhere.
fn push_cause(text: &mut Vec<u8>, nowhere: bool, words: &[u8]) -> Result<(), AllocError>
    ensures { OnOk result (text.new.items
        ≡ text.old.items ++ spec.cause_part nowhere words.now) }
{
    if nowhere {
        text.extend_from_slice(words)?;
        text.extend_from_slice(b": ")?;
    }
    Ok(())
}

/// Adds what to do.
fn push_hint(text: &mut Vec<u8>, near: &[u8]) -> Result<(), AllocError>
    ensures { OnOk result (text.new.items ≡ text.old.items ++ spec.near_hint near.now) }
{
    if near.is_empty() {
        return text.extend_from_slice(b"'hwdb device' lists all");
    }
    text.extend_from_slice(b"there is ")?;
    push_name(text, near)
}

//! What is read, from the answers of a file system: which of them gives which result, and which error.
ghost use Rattle.std.specs.Prelude.{◌≡◌, ◌≢◌, ◌≤◌, ◌<◌, ◌⊎◌, ◌++◌, ◌∷◌, [], true, false, Ok, OnOk, filter, length, map, string_bytes, ℕ, List, Result, Err, IfOk, IfErr, IfSome, MatchOption, Some, option_map, vec_len};
ghost use Rattle.hwdb_spec.specs.Texts.{max_file};
ghost use Rattle.hwdb_spec.specs.Folders.{counts};
ghost use Rattle.hwdb_system.specs.Raw.{AreFolderNamesAs, AreNamesAs, IsMisnamedAt, IsTold, is_folder, entries, kinds_at, missing_cause, names_answer, IsOfMemory, IsReadAs, IsRefusedFor, at_place, bytes_of, bytes_at, database_answer, failed, text_answer, text_at, text_of_kind, there_answer};
ghost use Rattle.hwdb_spec_commands.specs.declared.unread.Unread.{Unread};
ghost use Rattle.hwdb_spec.specs.declared.causes.Cause.TheVariants.{Memory};
ghost use Rattle.hwdb_spec_commands.specs.Refusals.{IsUnread, IsUnlisted};

use crate::files::text_of;
use crate::raw::{Kind, RawFiles};
use hwdb_io::Cause;
use hwdb_spec::ToolError;
use hwdb_spec_commands::{Refusal, Unread};
use hwdb_sysfs::NO_ENTRY;
use hwdb_text::{counts, end_of};
use std::alloc::{AllocError, Global};

/// The error of what couldn't be read at a path.
pub fn refused(alloc: Global, path: &str, why: Unread) -> Refusal
    ensures unread { IsUnread path.now result }
    ensures exact { IsOfMemory path.now result ⊎ IsRefusedFor why path.now result }
{
    match why {
        Unread::TooLong => Refusal::of_cause(alloc, ToolError::TooLong, path.as_bytes(), None),
        Unread::Failed(cause) => Refusal::of_cause(alloc, ToolError::Read, path.as_bytes(), cause),
        Unread::Memory => Refusal::Plain(ToolError::Memory),
    }
}

/// The error of a call that told nothing, but for this cause.
fn untold(alloc: Global, path: &str, cause: Cause) -> Refusal
    ensures unread { IsUnread path.now result }
    ensures exact { IsOfMemory path.now result ⊎ IsRefusedFor (failed cause) path.now result }
{
    refused(alloc, path, Unread::Failed(Some(cause)))
}

/// Why what isn't there can't be read: a link leads there, if something has the path's name.
fn missing_cause<F: RawFiles>(files: &F, path: &str, cause: Cause) -> Cause
    ensures { F.tells → (result ≡ Memory)
        ⊎ (result ≡ missing_cause cause (F.entry files.now path.now)) }
{
    match cause {
        Cause::System(number) if number == NO_ENTRY => match files.has_entry(path) {
            Ok(true) => Cause::Link,
            Err(Cause::Memory) => Cause::Memory,
            _ => cause,
        },
        _ => cause,
    }
}

/// What is at a place where a path leads.
fn kind_at<F: RawFiles>(files: &F, path: &str, place: &str) -> Result<Kind, Cause>
    ensures { F.tells → IsTold (λ k. k)
        (kinds_at (F.entry files.now path.now) (F.kind files.now) place.now) result }
{
    match files.kind_of(place) {
        Ok(kind) => Ok(kind),
        Err(cause) => Err(missing_cause(files, path, cause)),
    }
}

/// What is at a place, if it is no regular file.
fn other_than_file(kind: Kind) -> Option<Cause>
    ensures { (c : Result (List ℕ) Unread)
        → MatchOption result (bytes_of kind c ≡ c) (λ cause. bytes_of kind c ≡ Err (failed cause)) }
{
    match kind {
        Kind::File => None,
        Kind::Folder => Some(Cause::Folder),
        Kind::Pipe => Some(Cause::Pipe),
        Kind::Socket => Some(Cause::Socket),
        Kind::Null | Kind::Device => Some(Cause::Device),
    }
}

/// The bytes of whatever can be read at a place: a file, a pipe, a device. Errors name the path that leads there.
pub fn any_bytes<F: RawFiles>(
    alloc: Global,
    files: &F,
    place: &str,
    path: &str,
) -> Result<Vec<u8>, Refusal>
    ensures exact { F.tells → IsReadAs (λ v. v.items)
        (F.contents files.now place.now) path.now result }
    ensures within { IfOk result (λ bytes. vec_len bytes ≤ max_file) }
    ensures refused { IfErr result (IsUnread path.now) }
{
    match files.contents_of(alloc, place) {
        Ok(bytes) => Ok(bytes),
        Err(why) => Err(refused(alloc, path, why)),
    }
}

/// The bytes of a regular file. What else is there isn't opened: an open would wait for the other end of a pipe.
fn bytes_of<F: RawFiles>(
    alloc: Global,
    files: &F,
    place: &str,
    path: &str,
    kind: Kind,
) -> Result<Vec<u8>, Refusal>
    ensures exact { F.tells → IsReadAs (λ v. v.items)
        (bytes_of kind (F.contents files.now place.now)) path.now result }
    ensures within { IfOk result (λ bytes. vec_len bytes ≤ max_file) }
    ensures refused { IfErr result (IsUnread path.now) }
{
    match other_than_file(kind) {
        None => any_bytes(alloc, files, place, path),
        Some(cause) => Err(untold(alloc, path, cause)),
    }
}

/// The bytes of a text file of this kind. The null device is an empty one.
fn text_of_kind<F: RawFiles>(
    alloc: Global,
    files: &F,
    place: &str,
    path: &str,
    kind: Kind,
) -> Result<Vec<u8>, Refusal>
    ensures exact { F.tells → IsReadAs (λ v. v.items)
        (text_of_kind kind (F.contents files.now place.now)) path.now result }
    ensures within { IfOk result (λ bytes. vec_len bytes ≤ max_file) }
    ensures refused { IfErr result (IsUnread path.now) }
{
    match kind {
        Kind::Null => Ok(Vec::new(alloc)),
        kind => bytes_of(alloc, files, place, path, kind),
    }
}

/// The bytes of a text file at a place. A root's own /dev/null counts by its place: a root may have no devices.
fn text_at<F: RawFiles>(
    alloc: Global,
    files: &F,
    place: &str,
    path: &str,
) -> Result<Vec<u8>, Refusal>
    ensures exact { F.tells → IsReadAs (λ v. v.items)
        (text_at (F.null_at files.now) (kinds_at (F.entry files.now path.now) (F.kind files.now))
        (F.contents files.now) place.now) path.now result }
    ensures within { IfOk result (λ bytes. vec_len bytes ≤ max_file) }
    ensures refused { IfErr result (IsUnread path.now) }
{
    if files.is_null(place) {
        return Ok(Vec::new(alloc));
    }
    match kind_at(files, path, place) {
        Ok(kind) => text_of_kind(alloc, files, place, path, kind),
        Err(cause) => Err(untold(alloc, path, cause)),
    }
}

/// All bytes of a text file that was chosen. /dev/null is an empty one: a link to it masks a file.
pub fn text_bytes<F: RawFiles>(alloc: Global, files: &F, path: &str) -> Result<Vec<u8>, Refusal>
    ensures exact { F.tells → IsReadAs (λ v. v.items)
        (text_answer (F.place files.now path.now) (F.entry files.now path.now)
        (F.null_at files.now) (F.kind files.now) (F.contents files.now)) path.now result }
    ensures within { IfOk result (λ bytes. vec_len bytes ≤ max_file) }
    ensures refused { IfErr result (IsUnread path.now) }
{
    match files.place_of(path) {
        Ok(place) => text_at(alloc, files, place.as_str(), path),
        Err(cause) => Err(untold(alloc, path, cause)),
    }
}

/// The bytes of a database at a place.
fn database_at<F: RawFiles>(
    alloc: Global,
    files: &F,
    place: &str,
    path: &str,
) -> Result<Vec<u8>, Refusal>
    ensures exact { F.tells → IsReadAs (λ v. v.items)
        (bytes_at (kinds_at (F.entry files.now path.now) (F.kind files.now))
        (F.contents files.now) place.now) path.now result }
    ensures within { IfOk result (λ bytes. vec_len bytes ≤ max_file) }
    ensures refused { IfErr result (IsUnread path.now) }
{
    match kind_at(files, path, place) {
        Ok(kind) => bytes_of(alloc, files, place, path, kind),
        Err(cause) => Err(untold(alloc, path, cause)),
    }
}

/// The bytes of a database that has a name.
fn database_there<F: RawFiles>(alloc: Global, files: &F, path: &str) -> Result<Vec<u8>, Refusal>
    ensures exact { F.tells → IsReadAs (λ v. v.items) (at_place (F.place files.now path.now)
        (bytes_at (kinds_at (F.entry files.now path.now) (F.kind files.now))
        (F.contents files.now))) path.now result }
    ensures within { IfOk result (λ bytes. vec_len bytes ≤ max_file) }
    ensures refused { IfErr result (IsUnread path.now) }
{
    match files.place_of(path) {
        Ok(place) => database_at(alloc, files, place.as_str(), path),
        Err(cause) => Err(untold(alloc, path, cause)),
    }
}

/// All bytes of a database, or None if nothing has its name, not even a link. What can't be told is there, and is read.
pub fn database_bytes<F: RawFiles>(
    alloc: Global,
    files: &F,
    path: &str,
) -> Result<Option<Vec<u8>>, Refusal>
    ensures exact { F.tells → IsReadAs (λ found. option_map (λ v. v.items) found)
        (database_answer (F.entry files.now path.now) (F.place files.now path.now)
        (F.kind files.now) (F.contents files.now)) path.now result }
    ensures within { IfOk result (λ found. IfSome found (λ b. vec_len b ≤ max_file)) }
    ensures refused { IfErr result (IsUnread path.now) }
{
    if !is_there(files, path)? {
        return Ok(None);
    }
    match database_there(alloc, files, path) {
        Ok(bytes) => Ok(Some(bytes)),
        Err(refusal) => Err(refusal),
    }
}

/// Opens a database, of which parts are read then. None if that fails. What is no regular file isn't opened: an open would
/// wait for the other end of a pipe.
pub fn open_database<F: RawFiles>(files: &F, path: &str) -> Option<F::Opened>
    ensures opened { F.tells → IfSome result (λ file. (bytes : List ℕ)
        → database_answer (F.entry files.now path.now) (F.place files.now path.now)
        (F.kind files.now) (F.contents files.now) ≡ Ok (Some bytes)
        → F.Opened.is_of file bytes) }
{
    let Ok(place) = files.place_of(path) else {
        return None;
    };
    match files.kind_of(place.as_str()) {
        Ok(Kind::File) => files.opened_at(place.as_str()),
        _ => None,
    }
}

/// What can't be told is there, unless that is for want of memory.
fn unless_memory(cause: Cause) -> Result<bool, AllocError>
    ensures { IfOk result (λ there. (there ≡ true) × (cause ≢ Memory)) }
{
    match cause {
        Cause::Memory => Err(AllocError),
        _ => Ok(true),
    }
}

/// Whether something has the name of a path. What can't be told is there. The only error is want of memory.
pub fn is_there<F: RawFiles>(files: &F, path: &str) -> Result<bool, AllocError>
    ensures { F.tells → IfOk result (λ there. there ≡ there_answer (F.entry files.now path.now)) }
{
    match files.has_entry(path) {
        Ok(there) => Ok(there),
        Err(cause) => unless_memory(cause),
    }
}

/// The names of a folder's text files, in the order of its listing; none if the folder isn't there. Its other entries
/// never matter.
///
/// Errors are a folder that can't be listed, and the first text file's name that isn't UTF-8, with its path.
pub fn names_in<F: RawFiles>(alloc: Global, files: &F, folder: &str) -> Result<Vec<String>, Refusal>
    ensures exact { F.tells → AreNamesAs (λ names. map string_bytes names.items)
        (names_answer (F.listing files.now folder.now)) folder.now result }
    ensures refused { IfErr result (IsUnlisted folder.now) }
{
    match files.listing_of(alloc, folder) {
        Ok(Some(listing)) => names_of(alloc, folder, &listing),
        Ok(None) => Ok(Vec::new(alloc)),
        Err(why) => Err(refused(alloc, folder, why)),
    }
}

/// What can't be told is no folder, unless that is for want of memory.
fn none_unless_memory(cause: Cause) -> Result<bool, AllocError>
    ensures { IfOk result (λ folder. (folder ≡ false) × (cause ≢ Memory)) }
{
    match cause {
        Cause::Memory => Err(AllocError),
        _ => Ok(false),
    }
}

/// Whether what has this kind is a folder.
fn is_folder_kind(kind: Kind) -> bool
    ensures { result ≡ is_folder (Ok kind) }
{
    matches!(kind, Kind::Folder)
}

/// Whether a folder is at a place. The only error is want of memory.
fn is_folder<F: RawFiles>(files: &F, place: &str) -> Result<bool, AllocError>
    ensures { F.tells → IfOk result (λ folder. folder ≡ is_folder (F.kind files.now place.now)) }
{
    match files.kind_of(place) {
        Ok(kind) => Ok(is_folder_kind(kind)),
        Err(cause) => none_unless_memory(cause),
    }
}

/// The names of the text files of the folder at a path, in the order of its listing; None if no folder is there.
pub fn folder_names<F: RawFiles>(
    alloc: Global,
    files: &F,
    path: &str,
) -> Result<Option<Vec<String>>, Refusal>
    ensures exact { F.tells → AreFolderNamesAs (λ names. map string_bytes names.items)
        (is_folder (F.kind files.now path.now))
        (names_answer (F.listing files.now path.now)) path.now result }
    ensures refused { IfErr result (IsUnlisted path.now) }
{
    if !is_folder(files, path)? {
        return Ok(None);
    }
    match names_in(alloc, files, path) {
        Ok(names) => Ok(Some(names)),
        Err(refusal) => Err(refusal),
    }
}

/// The first name of a listing, and what comes after it; None at the end.
pub(crate) fn first_entry(listing: &[u8]) -> Option<(&[u8], &[u8])>
    ensures entry { MatchOption result (listing.now ≡ [])
        (λ parts. entries listing.now ≡ parts.0.now ∷ entries parts.1.now) }
    ensures shorter { IfSome result (λ parts. length parts.1.now < length listing.now) }
{
    if listing.is_empty() {
        return None;
    }
    let end = end_of(0, listing);
    if end < listing.len() {
        Some((&listing[..end], &listing[end + 1..]))
    } else {
        Some((listing, b""))
    }
}

/// Adds a name, if it is a text file's.
fn push_counted(
    alloc: Global,
    folder: &str,
    name: &[u8],
    names: &mut Vec<String>,
) -> Result<(), Refusal>
    ensures pushed { OnOk result (map string_bytes names.new.items
        ≡ map string_bytes names.old.items ++ filter counts (name.now ∷ [])) }
    ensures misnamed { IfErr result (λ refusal. (refusal ≡ Refusal.Plain ToolError.Memory)
        ⊎ ((counts name.now ≡ true) × IsMisnamedAt folder.now name.now refusal)) }
    ensures refused { IfErr result (IsUnlisted folder.now) }
{
    if counts(name) {
        let name = text_of(alloc, folder, name)?;
        names.push(name).map_err(AllocError::from)?;
    }
    Ok(())
}

/// The names of text files in a listing, which has byte 0 after each name.
fn names_of(alloc: Global, folder: &str, listing: &[u8]) -> Result<Vec<String>, Refusal>
    ensures exact { AreNamesAs (λ names. map string_bytes names.items)
        (Ok (filter counts (entries listing.now))) folder.now result }
    ensures refused { IfErr result (IsUnlisted folder.now) }
{
    let mut names = Vec::new(alloc);
    let mut left = listing;
    'names: while let Some((name, rest)) = first_entry(left) {
        push_counted(alloc, folder, name, &mut names)?;
        left = rest;
    }
    Ok(names)
}

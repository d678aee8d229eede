//! The file system as a store that is updated, and as a system that is read.
ghost use Rattle.std.specs.Prelude.{◌≡◌, ◌⊎◌, ◌++◌, [], None, IfOk, IfErr, IsUtf8, string_bytes};
ghost use Rattle.hwdb_spec.specs.Failures.{after_failure, CountsFailures};
ghost use Rattle.hwdb_spec.specs.Store as spec;
ghost use Rattle.hwdb_system.specs.Internal.{IsOfName};
ghost use Rattle.hwdb_system.specs.Raw.{IsMisnamedAt};
ghost use Rattle.hwdb_system.specs.Reads.{no_reads};
ghost use Rattle.hwdb_spec_commands.specs.Refusals.{IsUnlisted};

use crate::folders::{Selection, selected};
use crate::identity::Identity;
use crate::ignored::{ignored_in, text_folder};
use crate::new_folders::make_folders;
use crate::parts::{Lockable, clear_parts, is_ours};
use crate::raw::{StdFiles, StdOpened};
use crate::reads::{
    any_bytes, database_bytes, folder_names, is_there, names_in, open_database, text_bytes,
};
use crate::rooted::Rooted;
use crate::roots::Root;
use crate::rule_folders::rules_folder;
use crate::system::System;
use crate::text_folders::TextFolders;
use crate::texts_below::TextsBelow;
use hwdb_io::{Cause, after_failure, write_on};
use hwdb_replace::{CallFailed, DATABASE_MODE, PART_MODE, Store};
use hwdb_rulefiles::Folder;
use hwdb_spec::ToolError;
use hwdb_spec_commands::Refusal;
use std::alloc::{AllocError, Global};
use std::fs::{self, File, OpenFile, OpenOptions, Permissions};
use std::io::{self, ErrorKind};
use std::os::unix::fs::{FileExt, OpenOptionsExt, PermissionsExt};
use std::rt::Files;
use std::str::from_utf8;

/// The path of a name in a folder, whatever its bytes are.
fn bytes_of_path(alloc: Global, folder: &str, name: &[u8]) -> Result<Vec<u8>, AllocError>
    ensures { IfOk result (λ path. path.items ≡ spec.path_in folder.now name.now) }
{
    let mut path = Vec::from_slice(alloc, folder.as_bytes())?;
    path.push(b'/')?;
    path.extend_from_slice(name)?;
    Ok(path)
}

/// A name in a folder, as text. One that isn't UTF-8 is an error, with its path.
pub fn text_of(alloc: Global, folder: &str, name: &[u8]) -> Result<String, Refusal>
    ensures text { IfOk result (λ text. string_bytes text ≡ name.now) }
    ensures utf8 { IfOk result (λ _. IsUtf8 name.now) }
    ensures refused { IfErr result (IsUnlisted folder.now) }
    ensures reason { IfErr result IsOfName }
    ensures exact { IfErr result (λ refusal. (refusal ≡ Refusal.Plain ToolError.Memory)
        ⊎ IsMisnamedAt folder.now name.now refusal) }
{
    match from_utf8(name) {
        Ok(name) => Ok(String::from_str(alloc, name)?),
        Err(_) => {
            let path = bytes_of_path(alloc, folder, name)?;
            Err(Refusal::At(ToolError::Read, path, Some(Cause::Name)))
        }
    }
}

/// Two texts as one path.
pub fn joined(alloc: Global, front: &str, back: &str) -> Result<String, AllocError>
    ensures { IfOk result (λ path. string_bytes path ≡ front.now ++ back.now) }
{
    let mut path = String::from_str(alloc, front)?;
    path.push_str(back)?;
    Ok(path)
}

/// The path of a name in a folder.
pub fn path_in(alloc: Global, folder: &str, name: &str) -> Result<String, AllocError>
    ensures { IfOk result (λ path. string_bytes path ≡ spec.path_in folder.now name.now) }
{
    let mut path = joined(alloc, folder, "/")?;
    path.push_str(name)?;
    Ok(path)
}

/// The file system as a store, a call of the library for each of its calls. It tells nothing of its contents: no
/// contract of the library says what is under a path.
#[derive(Drop)]
pub struct SystemStore<'a, R: Files> {
    alloc: Global,
    rt: &'a R,
    root: Root,
    /// The path that was spelled last, and the file that was made last, while it is under its first name.
    path: String,
    file: Option<R::File>,
    /// How many calls have failed; a write that a signal interrupted is made again, and one that took nothing of
    /// something has failed.
    failed: u64,
    /// Why the first of these did; or that the last name which was tried for the new file is taken.
    cause: Option<Cause>,
}

impl<'a, R: Files> SystemStore<'a, R>
where
    R::File: Drop + FileExt + Lockable,
{
    /// The files that the runtime reaches.
    pub fn new(alloc: Global, rt: &'a R) -> Self {
        SystemStore {
            alloc,
            rt,
            root: Root::none(alloc),
            path: String::new(alloc),
            file: None,
            failed: 0,
            cause: None,
        }
    }

    /// The same files, as they are seen below a root.
    fn below(&self, root: &str) -> Result<SystemStore<'a, R>, AllocError> {
        let mut below = SystemStore::new(self.alloc, self.rt);
        below.root = Root::below(self.alloc, root)?;
        Ok(below)
    }

    /// What the file system answers.
    pub fn files(&self) -> StdFiles<'_, R> {
        StdFiles::new(self.alloc, self.rt, &self.root)
    }

    /// Spells the path of a name in a folder. For a name that was spelled before it takes no memory.
    fn spell(&mut self, folder: &str, name: &str) -> io::Result<()>
        ensures { self.new.failed ≡ self.old.failed }
    {
        let place = self.root.folder_of(self.rt, folder)?;
        self.path.clear();
        self.path.push_str(place)?;
        self.path.push_str("/")?;
        self.path.push_str(name)?;
        Ok(())
    }

    /// Makes and opens a file, its owner's alone.
    fn open_new(&mut self, folder: &str, name: &str) -> io::Result<R::File>
        ensures { self.new.failed ≡ self.old.failed }
    {
        self.spell(folder, name)?;
        let mut options = OpenOptions::new();
        options.write(true).create_new(true).mode(PART_MODE);
        options.open(self.rt, self.path.as_str())
    }

    /// A new file, unless another process locked it or removed it before.
    fn ours(&self, opened: io::Result<R::File>) -> io::Result<Option<R::File>> {
        let file = opened?;
        match is_ours(self.rt, &file, self.path.as_str()) {
            Ok(true) => Ok(Some(file)),
            Ok(false) => Ok(None),
            Err(error) => {
                let _ = fs::remove_file(self.rt, self.path.as_str());
                Err(error)
            }
        }
    }

    /// Renames a file in its folder.
    fn renamed(&mut self, folder: &str, from: &str, to: &str) -> io::Result<()>
        ensures { self.new.failed ≡ self.old.failed }
    {
        self.spell(folder, to)?;
        let to = String::from_str(self.alloc, self.path.as_str())?;
        self.spell(folder, from)?;
        fs::rename(self.rt, self.path.as_str(), to.as_str())
    }

    /// Removes a file.
    fn removed(&mut self, folder: &str, name: &str) -> io::Result<()>
        ensures { self.new.failed ≡ self.old.failed }
    {
        self.spell(folder, name)?;
        fs::remove_file(self.rt, self.path.as_str())
    }

    /// Makes a folder, and those above it, if they aren't there.
    fn made(&mut self, folder: &str) -> io::Result<()>
        ensures { self.new.failed ≡ self.old.failed }
    {
        let place = self.root.folder_of(self.rt, folder)?;
        make_folders(self.rt, place)
    }

    /// Removes what killed updates left in a folder. What can't be removed stays.
    fn cleared(&mut self, folder: &str) -> Result<(), Refusal>
        ensures { self.new.failed ≡ self.old.failed }
    {
        match self.root.folder_of(self.rt, folder) {
            Ok(place) => clear_parts(self.alloc, self.rt, place),
            Err(error) => Err(Refusal::read(self.alloc, folder.as_bytes(), Cause::of(&error))),
        }
    }

    /// Has what is in a folder last.
    fn synced(&mut self, folder: &str) -> io::Result<()>
        ensures { self.new.failed ≡ self.old.failed }
    {
        let place = self.root.folder_of(self.rt, folder)?;
        File::open(self.rt, place)?.sync_all()
    }

    /// Counts a call if it failed, and notes why the first one did.
    fn counted<T>(&mut self, done: io::Result<T>) -> Result<T, CallFailed>
        ensures { CountsFailures self.old.failed self.new.failed result }
    {
        match done {
            Ok(value) => Ok(value),
            Err(error) => Err(self.fail(Cause::of(&error))),
        }
    }

    /// Counts a failed call.
    fn fail(&mut self, cause: Cause) -> CallFailed
        ensures { self.new.failed ≡ after_failure self.old.failed }
    {
        if self.failed == 0 {
            self.cause = Some(cause);
        }
        self.failed = after_failure(self.failed);
        CallFailed
    }
}

impl<'a, R: Files> Store for SystemStore<'a, R>
where
    R::File: Drop + FileExt + Lockable,
{
    ghost tells = { ⊥ };

    ghost tells_own = { ⊥ };

    ghost theirs = { λ _ _. ⊥ };

    ghost is_own = { λ _ _. Unit {0} };

    ghost tells_more = { λ tells. tells };

    ghost tears = { ⊥ };

    ghost seen = { λ _ _. None };

    ghost may_leave = { λ _ _ _. ⊥ };

    ghost is_whole = { λ _ _. Unit {0} };

    ghost is_folder = { λ _ _. Unit {0} };

    ghost part = { λ _. [] };

    ghost moment = { λ _. 0 };

    ghost left_since = { λ _ _ _ _. ⊥ };

    ghost failures = { λ s. s.failed };

    ghost only_now = { λ s p v left. left };

    ghost from_now = { λ s p v left. left };

    ghost earlier = { λ s t u p v le left. left };

    ghost stands = { λ s p tells. absurd tells };

    fn clear_parts(&mut self, folder: &str) {
        let _ = self.cleared(folder);
    }

    fn make_folder(&mut self, folder: &str) -> Result<(), CallFailed> {
        let made = self.made(folder);
        self.counted(made)
    }

    fn create_new(&mut self, folder: &str, name: &str) -> Result<bool, CallFailed> {
        match self.open_new(folder, name) {
            Err(error) if error.kind() == ErrorKind::AlreadyExists => {
                self.cause = Some(Cause::of(&error));
                Ok(false)
            }
            opened => {
                let made = self.ours(opened);
                self.file = self.counted(made)?;
                Ok(self.file.is_some())
            }
        }
    }

    fn write(&mut self, buf: &[u8]) -> Result<usize, CallFailed> {
        let written = match &mut self.file {
            Some(file) => write_on(file, buf),
            None => Ok(0),
        };
        match written {
            Ok(n) if n > 0 || buf.is_empty() => Ok(n),
            Ok(_) => Err(self.fail(Cause::Nothing)),
            Err(error) => Err(self.fail(Cause::of(&error))),
        }
    }

    fn set_mode(&mut self) -> Result<(), CallFailed> {
        let set = match &self.file {
            Some(file) => file.set_permissions(Permissions::from_mode(DATABASE_MODE)),
            None => Ok(()),
        };
        self.counted(set)
    }

    fn sync(&mut self) -> Result<(), CallFailed> {
        let synced = match &self.file {
            Some(file) => file.sync_all(),
            None => Ok(()),
        };
        self.counted(synced)
    }

    fn rename(&mut self, folder: &str, from: &str, to: &str) -> Result<(), CallFailed> {
        let renamed = self.renamed(folder, from, to);
        // The lock on the file ends with the name that it is for.
        if renamed.is_ok() {
            self.file = None;
        }
        self.counted(renamed)
    }

    fn sync_folder(&mut self, folder: &str) -> Result<(), CallFailed> {
        let synced = self.synced(folder);
        self.counted(synced)
    }

    fn remove(&mut self, folder: &str, name: &str) -> Result<(), CallFailed> {
        let removed = self.removed(folder, name);
        self.file = None;
        self.counted(removed)
    }
}

impl<'a, R: Files> System for SystemStore<'a, R>
where
    R::File: Drop + FileExt + Lockable,
{
    type Opened = StdOpened<R::File>;

    ghost may_fail = { λ _ _. Unit {0} };

    // No contract of the library says what it answers.
    ghost reads = { λ _. no_reads };

    ghost is_regular = { λ _ _. Unit {0} };

    ghost agrees = { λ s tells. absurd tells };

    fn names(&self, alloc: Global, folder: &str) -> Result<Vec<String>, Refusal> {
        names_in(alloc, &self.files(), folder)
    }

    fn folder_names(&self, alloc: Global, path: &str) -> Result<Option<Vec<String>>, Refusal> {
        folder_names(alloc, &self.files(), path)
    }

    fn text(&self, alloc: Global, path: &str) -> Result<Vec<u8>, Refusal> {
        text_bytes(alloc, &self.files(), path)
    }

    fn input(&self, alloc: Global, path: &str) -> Result<Vec<u8>, Refusal> {
        any_bytes(alloc, &self.files(), path, path)
    }

    fn database(&self, alloc: Global, path: &str) -> Result<Option<Vec<u8>>, Refusal> {
        database_bytes(alloc, &self.files(), path)
    }

    fn is_there(&self, _: Global, path: &str) -> Result<bool, AllocError> {
        is_there(&self.files(), path)
    }

    fn cause(&self) -> Option<Cause> {
        self.cause
    }

    fn identity(&self, path: &str) -> Option<Identity> {
        self.files().identity_of(path)
    }

    fn open_database(&self, _: Global, path: &str) -> Option<StdOpened<R::File>> {
        open_database(&self.files(), path)
    }
}

impl<'a, R: Files> TextFolders for SystemStore<'a, R>
where
    R::File: Drop + FileExt + Lockable,
{
    fn ignored_names(&self, alloc: Global, root: &str, usr: bool) -> Result<Vec<Vec<u8>>, Refusal> {
        let folder = text_folder(alloc, root, usr)?;
        ignored_in(alloc, &self.files(), folder.as_str())
    }

    fn names_beside_rules(
        &self,
        alloc: Global,
        root: &str,
        folder: Folder,
    ) -> Result<Vec<Vec<u8>>, Refusal> {
        let folder = rules_folder(alloc, root, folder)?;
        ignored_in(alloc, &self.files(), folder.as_str())
    }
}

impl<'a, R: Files> TextsBelow for SystemStore<'a, R>
where
    R::File: Drop + FileExt + Lockable,
{
    fn selected_below(&self, alloc: Global, root: &str) -> Result<Selection, Refusal> {
        let below = self.below(root)?;
        selected(alloc, root, &below)
    }
}

impl<'a, R: Files> Rooted for SystemStore<'a, R>
where
    R::File: Drop + FileExt + Lockable,
{
    fn enter(&mut self, root: &str) -> Result<(), Refusal> {
        self.root.enter(self.rt, root)
    }
}

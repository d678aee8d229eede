//! A store in memory that others share: before each call they go on, as far as they may.
ghost use Rattle.std.specs.Prelude.{◌≡◌, ◌⊎◌, List, Option, Some, [], length, IfOk, IfSome, OnOk};
ghost use Rattle.hwdb_spec.specs.Failures.{CountsFailures};
ghost use Rattle.hwdb_spec.specs.Store.{Stored, Contents, IsPartPath, path_in, database_name, database_file, database_mode};
ghost use Rattle.hwdb_spec.specs.Sharing.{AreTheirs, MayDo, OldOursOrTheirs, OursOrTheirs};
ghost use Rattle.hwdb_replace.specs.Memory.{event, seen_of, left_of, is_whole_of, since_of};
ghost use Rattle.hwdb_replace.specs.Sharing.{WentOn, left_with, since_with, only_now_with, from_now_with, earlier_with};

use crate::calls::{CallFailed, Store};
use crate::memory::{File, Memory, Step, is_same, path_in};
use crate::replacement::{DATABASE, DATABASE_MODE, part_name, replace};
use hwdb_spec::Unreplaced;
use std::alloc::{AllocError, Global};

/// Others that change the files of a store between two calls.
pub trait Others {
    /// The files that they may put in the database's place: theirs, whole.
    ghost whole: { Stored → Type 0 };

    /// How many steps they take before the next call.
    fn pace(&self) -> u32;

    /// Their next step, while the file under a path is somebody's own.
    fn next(&mut self, own: &[u8]) -> Option<Step>
        ensures { IfSome result (λ step. MayDo whole own.now (event step)) };
}

/// A store in memory, and others that share it.
#[derive(Drop)]
pub struct Shared<O: Others> {
    /// The store.
    pub memory: Memory,
    /// Who shares it.
    pub others: O,
}

impl<O: Others> Shared<O> {
    /// The others take a step. It doesn't happen if there is no memory for it.
    fn go_on(&mut self)
        ensures went { (xs : List Step)
            → WentOn O.whole self.old.memory.part.items xs self.old.memory.steps.items
            → WentOn O.whole self.old.memory.part.items xs self.new.memory.steps.items }
        ensures part { self.new.memory.part.items ≡ self.old.memory.part.items }
        ensures failed { self.new.memory.failed ≡ self.old.memory.failed }
    {
        if let Some(step) = self.others.next(&self.memory.part) {
            self.memory.pass(step);
        }
    }

    /// The others go on.
    fn wait(&mut self)
        ensures went { WentOn O.whole self.old.memory.part.items
            self.old.memory.steps.items self.new.memory.steps.items }
        ensures part { self.new.memory.part.items ≡ self.old.memory.part.items }
        ensures failed { self.new.memory.failed ≡ self.old.memory.failed }
    {
        let pace = self.others.pace();
        'steps: for _ in 0..pace {
            self.go_on();
        }
    }

    /// The new file's name isn't one's own any more.
    fn let_go(&mut self)
        ensures steps { self.new.memory.steps.items ≡ self.old.memory.steps.items }
        ensures failed { self.new.memory.failed ≡ self.old.memory.failed }
    {
        self.memory.part.clear();
    }
}

impl<O: Others> Store for Shared<O> {
    ghost tells = { ⊥ };

    ghost tells_own = { Unit {0} };

    ghost tears = { ⊥ };

    ghost seen = { λ s p. seen_of s.memory.steps.items p };

    ghost may_leave = { λ s p v. left_with O.whole s.memory.steps.items p v };

    ghost is_whole = { λ s p. is_whole_of s.memory.steps.items p };

    ghost theirs = { λ p v. AreTheirs O.whole p v };

    ghost is_own = { λ s p. s.memory.part.items ≡ p };

    ghost is_folder = { λ _ _. Unit {0} };

    ghost part = { λ s. s.memory.part.items };

    ghost moment = { λ s. length s.memory.steps.items };

    ghost left_since = { λ s t p v. since_with O.whole s.memory.steps.items t p v };

    ghost failures = { λ s. s.memory.failed };

    ghost tells_more = { λ tells. absurd tells };

    ghost only_now = { λ s p v left. only_now_with O.whole s.memory.steps.items p v left };

    ghost from_now = { λ s p v left. from_now_with O.whole s.memory.steps.items p v left };

    ghost earlier = { λ s t u p v le left. earlier_with O.whole s.memory.steps.items t u p v le left };

    ghost stands = { λ s p tells. absurd tells };

    fn clear_parts(&mut self, folder: &str) {
        self.wait();
        self.memory.clear_parts(folder);
    }

    fn make_folder(&mut self, folder: &str) -> Result<(), CallFailed> {
        self.wait();
        self.memory.make_folder(folder)
    }

    fn create_new(&mut self, folder: &str, name: &str) -> Result<bool, CallFailed> {
        self.wait();
        self.memory.create_new(folder, name)
    }

    fn write(&mut self, buf: &[u8]) -> Result<usize, CallFailed> {
        self.wait();
        self.memory.write(buf)
    }

    fn set_mode(&mut self) -> Result<(), CallFailed> {
        self.wait();
        self.memory.set_mode()
    }

    fn sync(&mut self) -> Result<(), CallFailed> {
        self.wait();
        self.memory.sync()
    }

    fn rename(&mut self, folder: &str, from: &str, to: &str) -> Result<(), CallFailed> {
        self.wait();
        match self.memory.rename(folder, from, to) {
            Ok(()) => {
                self.let_go();
                Ok(())
            }
            Err(error) => Err(error),
        }
    }

    fn sync_folder(&mut self, folder: &str) -> Result<(), CallFailed> {
        self.wait();
        self.memory.sync_folder(folder)
    }

    fn remove(&mut self, folder: &str, name: &str) -> Result<(), CallFailed> {
        self.wait();
        let removed = self.memory.remove(folder, name);
        self.let_go();
        removed
    }
}

/// Replaces the database while others go on.
///
/// At each moment, theirs too, one of these is in its place, whole: the old file, ours, or one of theirs. A crash leaves one of
/// them. After Ok the old one doesn't come back.
pub fn replace_beside<O: Others>(
    store: &mut Shared<O>,
    folder: &str,
    bytes: &[u8],
) -> Result<(), Unreplaced>
    ensures moments { (v : Option Stored)
        → since_of store.new.memory.steps.items (length store.old.memory.steps.items)
        (path_in folder.now database_name) v
        → OldOursOrTheirs O.whole (database_file bytes.now)
        (left_of store.old.memory.steps.items (path_in folder.now database_name)) v }
    ensures last { OnOk result ((v : Option Stored)
        → left_of store.new.memory.steps.items (path_in folder.now database_name) v
        → OursOrTheirs O.whole (database_file bytes.now) v) }
    ensures put { OnOk result (since_of store.new.memory.steps.items
        (length store.old.memory.steps.items) (path_in folder.now database_name)
        (Some (database_file bytes.now)) ⊎ O.whole (database_file bytes.now)) }
{
    replace(store, folder, bytes)
}

/// Others that put a file in the database's place, before each call.
#[derive(Drop)]
pub struct Rival {
    alloc: Global,
    /// The database's folder.
    pub folder: String,
    /// The bytes of their file.
    pub bytes: Vec<u8>,
}

impl Rival {
    /// Who puts these bytes in the database's place of a folder.
    pub fn new(alloc: Global, folder: String, bytes: Vec<u8>) -> Rival {
        Rival {
            alloc,
            folder,
            bytes,
        }
    }

    /// The rename of their new file, unless its path is somebody's own.
    fn rename(&self, own: &[u8]) -> Result<Option<Step>, AllocError>
        ensures { IfOk result (λ found. IfSome found
            (λ step. MayDo (λ file. file.mode ≡ database_mode) own.now (event step))) }
    {
        let from = path_in(self.alloc, self.folder.as_str(), part_name(0).as_str())?;
        let to = path_in(self.alloc, self.folder.as_str(), DATABASE)?;
        if is_same(&from, own) || is_same(&to, own) {
            return Ok(None);
        }
        let file = File {
            bytes: self.bytes.to_vec(self.alloc)?,
            mode: DATABASE_MODE,
        };
        Ok(Some(Step::Moved {
            from,
            to,
            file,
            loose: false,
        }))
    }
}

impl Others for Rival {
    ghost whole = { λ file. file.mode ≡ database_mode };

    fn pace(&self) -> u32 {
        1
    }

    fn next(&mut self, own: &[u8]) -> Option<Step> {
        match self.rename(own) {
            Ok(found) => found,
            Err(_) => None,
        }
    }
}

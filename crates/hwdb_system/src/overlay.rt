//! A file system with another database in its place: what `--text` answers from.
ghost use Rattle.std.specs.Prelude.{◌≡◌, ◌≤◌, ◌<◌, ◌⊎◌, [], false, length, refl, IfOk, IfErr, Result, vec_len};
ghost use Rattle.std.specs.Str.{bytes_eq};
ghost use Rattle.hwdb_spec_commands.specs.Asked.{database_path};
ghost use Rattle.hwdb_spec.specs.Failures.{CountsFailures};
ghost use Rattle.hwdb_spec_commands.specs.OverText.{with_database};
ghost use Rattle.hwdb_spec_commands.specs.Refusals.{IsAt};
ghost use Rattle.hwdb_spec.specs.Texts.{max_file};
ghost use Rattle.hwdb_system.specs.Reads.{with_read};
ghost use Rattle.hwdb_system.specs.Lemmas.OverReads.{read_over};
ghost use Rattle.hwdb_system.specs.Raw.{told_bytes};
ghost use Rattle.hwdb_spec_commands.specs.Told.{IsReadTo};
ghost use Rattle.hwdb_spec_commands.specs.declared.refusals.Refusal.TheVariants.{Plain};
ghost use Rattle.hwdb_spec.specs.declared.errors.ToolError.TheVariants.{Memory, TooLong};

use crate::folders::{Selection, selected};
use crate::machine::Machine;
use crate::rooted::Rooted;
use crate::system::System;
use crate::text_folders::TextFolders;
use crate::texts_below::TextsBelow;
use hwdb_io::{Cause, MAX_BYTES, after_failure};
use hwdb_replace::{CallFailed, Store};
use hwdb_rulefiles::Folder;
use hwdb_spec::ToolError;
use hwdb_spec_commands::Refusal;
use hwdb_sysfs::{DeviceFiles, DeviceNode};
use std::alloc::{AllocError, Global};

/// Where the database is that is asked first, below a root.
const DATABASE_PATH: &str = "/etc/udev/hwdb.bin";

/// A file system as it is, but that the database of `/etc` below a root has these bytes, whatever is there. It is read, and
/// never written: each call that would change a file fails.
#[derive(Drop)]
pub struct Overlay<'a, D> {
    system: &'a D,
    root: &'a str,
    bytes: &'a [u8],
    /// How many calls have failed.
    failed: u64,
}

/// The error of a call that would change a file, which counts as failed.
fn refused<T>(failed: &mut u64) -> Result<T, CallFailed>
    ensures error { IfOk result (λ _. ⊥) }
    ensures cause { CountsFailures failed.old failed.new result }
{
    *failed = after_failure(*failed);
    Err(CallFailed)
}

/// What was listed, or that there was no memory: the one error that says nothing of what is there. No command lists the
/// database's own path as a folder.
fn listed_or_none<T>(listed: Result<T, Refusal>) -> Result<T, Refusal>
    ensures same { IfOk result (λ names. listed ≡ Result.Ok names) }
    ensures memory { IfErr result (λ r. r ≡ Plain Memory) }
{
    match listed {
        Ok(names) => Ok(names),
        Err(_) => Err(Refusal::Plain(ToolError::Memory)),
    }
}

impl<'a, D> Overlay<'a, D> {
    /// The file system with these bytes as the database of `/etc` below the root.
    pub fn new(system: &'a D, root: &'a str, bytes: &'a [u8]) -> Overlay<'a, D>
        ensures { result ≡ record {
          system = system.entry;
          root = root.entry;
          bytes = bytes.entry;
          failed = 0;
        } }
    {
        Overlay {
            system,
            root,
            bytes,
            failed: 0,
        }
    }

    /// Whether a path is that of the database.
    fn is_database(&self, path: &str) -> bool
        ensures { result ≡ bytes_eq path.now (database_path false self.now.root.now) }
    {
        match path.strip_prefix(self.root) {
            Some(rest) => rest == DATABASE_PATH,
            None => false,
        }
    }

    /// The database's bytes, copied. More of them than a file may have are an error.
    fn copy(&self, alloc: Global, path: &str) -> Result<Vec<u8>, Refusal>
        ensures told { IsReadTo (λ v. v.items) (told_bytes self.now.bytes.now) path.now result }
        ensures bytes { IfOk result (λ b. b.items ≡ self.now.bytes.now) }
        ensures within { IfOk result (λ b. vec_len b ≤ max_file) }
        ensures refused { IfErr result (λ r. (r ≡ Plain Memory)
            ⊎ (IsAt TooLong path.now r × (max_file < length self.now.bytes.now))) }
    {
        if self.bytes.len() > MAX_BYTES as usize {
            return Err(Refusal::of_cause(alloc, ToolError::TooLong, path.as_bytes(), None));
        }
        Ok(self.bytes.to_vec(alloc)?)
    }
}

impl<'a, D: System> Store for Overlay<'a, D> {
    ghost tells = { D.Store.tells };

    ghost tells_own = { D.Store.tells };

    ghost tells_more = { λ tells. tells };

    ghost tears = { ⊥ };

    ghost seen = { λ o p. with_database o.root.now o.bytes.now (D.Store.seen o.system.now) p };

    // Nothing is changed: a crash leaves what is there.
    ghost may_leave = { λ o p v. v ≡ with_database o.root.now o.bytes.now (D.Store.seen o.system.now) p };

    ghost is_whole = { λ _ _. Unit {0} };

    ghost theirs = { λ _ _. ⊥ };

    ghost is_own = { λ _ _. Unit {0} };

    ghost is_folder = { λ _ _. Unit {0} };

    ghost part = { λ _. [] };

    ghost moment = { λ _. 0 };

    ghost left_since = { λ o t p v. v ≡ with_database o.root.now o.bytes.now (D.Store.seen o.system.now) p };

    ghost failures = { λ o. o.failed };

    ghost only_now = { λ o p v left. left };

    ghost from_now = { λ o p v left. left };

    ghost earlier = { λ o t u p v le left. left };

    ghost stands = { λ o p tells. refl };

    fn clear_parts(&mut self, _: &str) {}

    fn make_folder(&mut self, _: &str) -> Result<(), CallFailed> {
        refused(&mut self.failed)
    }

    fn create_new(&mut self, _: &str, _: &str) -> Result<bool, CallFailed> {
        refused(&mut self.failed)
    }

    fn write(&mut self, _: &[u8]) -> Result<usize, CallFailed> {
        refused(&mut self.failed)
    }

    fn set_mode(&mut self) -> Result<(), CallFailed> {
        refused(&mut self.failed)
    }

    fn sync(&mut self) -> Result<(), CallFailed> {
        refused(&mut self.failed)
    }

    fn rename(&mut self, _: &str, _: &str, _: &str) -> Result<(), CallFailed> {
        refused(&mut self.failed)
    }

    fn sync_folder(&mut self, _: &str) -> Result<(), CallFailed> {
        refused(&mut self.failed)
    }

    fn remove(&mut self, _: &str, _: &str) -> Result<(), CallFailed> {
        refused(&mut self.failed)
    }
}

impl<'a, D: System> System for Overlay<'a, D> {
    // None is opened: the database that is asked is in memory.
    type Opened = D::Opened;

    ghost may_fail = { λ o p. D.System.may_fail o.system.now p };

    ghost reads = { λ o. with_read o.root.now o.bytes.now (D.System.reads o.system.now) };

    ghost agrees = { λ o tells. read_over o.root.now o.bytes.now (D.System.reads o.system.now)
        (D.Store.seen o.system.now) (D.System.may_fail o.system.now)
        (D.System.agrees o.system.now tells) };

    ghost is_regular = { λ o p. (p ≡ database_path false o.root.now) ⊎ D.System.is_regular o.system.now p };

    fn names(&self, alloc: Global, folder: &str) -> Result<Vec<String>, Refusal> {
        let listed = self.system.names(alloc, folder);
        // What is said of a folder isn't said of the database.
        if self.is_database(folder) {
            return listed_or_none(listed);
        }
        listed
    }

    fn folder_names(&self, alloc: Global, path: &str) -> Result<Option<Vec<String>>, Refusal> {
        if self.is_database(path) {
            return Ok(None);
        }
        self.system.folder_names(alloc, path)
    }

    fn text(&self, alloc: Global, path: &str) -> Result<Vec<u8>, Refusal> {
        if self.is_database(path) {
            return self.copy(alloc, path);
        }
        self.system.text(alloc, path)
    }

    fn input(&self, alloc: Global, path: &str) -> Result<Vec<u8>, Refusal> {
        if self.is_database(path) {
            return self.copy(alloc, path);
        }
        self.system.input(alloc, path)
    }

    fn database(&self, alloc: Global, path: &str) -> Result<Option<Vec<u8>>, Refusal> {
        if self.is_database(path) {
            return match self.copy(alloc, path) {
                Ok(bytes) => Ok(Some(bytes)),
                Err(refusal) => Err(refusal),
            };
        }
        self.system.database(alloc, path)
    }

    fn is_there(&self, alloc: Global, path: &str) -> Result<bool, AllocError> {
        if self.is_database(path) {
            return Ok(true);
        }
        self.system.is_there(alloc, path)
    }

    fn cause(&self) -> Option<Cause> {
        self.system.cause()
    }
}

impl<'a, D: TextFolders> TextFolders for Overlay<'a, D> {
    // The database isn't in these folders.
    fn ignored_names(&self, alloc: Global, root: &str, usr: bool) -> Result<Vec<Vec<u8>>, Refusal> {
        self.system.ignored_names(alloc, root, usr)
    }

    fn names_beside_rules(
        &self,
        alloc: Global,
        root: &str,
        folder: Folder,
    ) -> Result<Vec<Vec<u8>>, Refusal> {
        self.system.names_beside_rules(alloc, root, folder)
    }
}

// No command that answers from text files has sides.
impl<'a, D: TextFolders> TextsBelow for Overlay<'a, D> {
    fn selected_below(&self, alloc: Global, root: &str) -> Result<Selection, Refusal> {
        selected(alloc, root, self)
    }
}

// It is made after the root was entered.
impl<'a, D: TextFolders> Rooted for Overlay<'a, D> {
    fn enter(&mut self, _: &str) -> Result<(), Refusal> {
        Ok(())
    }
}

impl<'a, D: DeviceFiles> DeviceFiles for Overlay<'a, D> {
    ghost tells = { D.tells };

    ghost answers = { λ o. D.answers o.system.now };

    ghost bare = { D.bare };

    fn real_path(&self, alloc: Global, path: &[u8]) -> Result<Vec<u8>, Cause> {
        self.system.real_path(alloc, path)
    }

    fn node_at(&self, place: &[u8]) -> Result<Option<DeviceNode>, Cause> {
        self.system.node_at(place)
    }

    fn is_file(&self, place: &[u8]) -> Result<bool, Cause> {
        self.system.is_file(place)
    }

    fn page_of(&self, alloc: Global, place: &[u8]) -> Result<Vec<u8>, Cause> {
        self.system.page_of(alloc, place)
    }

    fn listing_of(&self, alloc: Global, place: &[u8]) -> Result<Vec<u8>, Cause> {
        self.system.listing_of(alloc, place)
    }
}

impl<'a, D: Machine> Machine for Overlay<'a, D> {
    ghost told = { D.told };
}

//! A store in memory, for tests. It tells its contents, keeps what each moment may leave, tears what isn't on the disk,
//! and fails as it is told to.
ghost use Rattle.std.specs.Prelude.{◌≡◌, ◌≤◌, ◌++◌, ◌∷◌, [], ℕ, length, take, map, false, Some, None, IfOk, IfSome, IsOkAnd, IsTrue, OnOk, OnErr, option_map};
ghost use Rattle.std.specs.Str.{bytes_eq};
ghost use Rattle.hwdb_spec.specs.Failures.{after_failure, CountsFailures};
ghost use Rattle.hwdb_spec.specs.Store.{Stored, IsPartPath, path_in, database_mode};
ghost use Rattle.hwdb_spec.specs.Crashes.{begin, changed};
ghost use Rattle.hwdb_replace.specs.Memory.{stored, lent, state_of, after, seen_of, left_of, is_whole_of, since_of, only_now_of, from_now_of, earlier_of, stands_of, IsChange, IsMove, IsSync, IsRemoval, IsClearing, IsCreation, IsPassed};

use crate::calls::{CallFailed, Store};
use crate::replacement::{DATABASE_MODE, PART_MODE, part_name, part_number};
use std::alloc::{AllocError, Global};

/// A file of the store.
#[derive(Drop)]
pub struct File {
    /// Its bytes.
    pub bytes: Vec<u8>,
    /// Who may read and write it.
    pub mode: u32,
}

impl File {
    /// A copy with so many bytes more, and this mode.
    fn with(&self, alloc: Global, bytes: &[u8], mode: u32) -> Result<File, AllocError>
        ensures { IfOk result (λ f. stored f
            ≡ record { bytes = self.now.bytes.items ++ bytes.now; mode = mode }) }
    {
        let mut all = self.bytes.to_vec(alloc)?;
        all.extend_from_slice(bytes)?;
        Ok(File { bytes: all, mode })
    }
}

/// What happened to the files.
#[derive(Drop)]
pub enum Step {
    /// A file was made or changed; it isn't on the disk.
    Changed {
        path: Vec<u8>,
        file: File,
    },
    /// A file is on the disk, though its name may not be.
    Synced {
        path: Vec<u8>,
    },
    /// A file, which isn't on the disk if it is loose, has another name.
    Moved {
        from: Vec<u8>,
        to: Vec<u8>,
        file: File,
        loose: bool,
    },
    /// A file was removed.
    Removed {
        path: Vec<u8>,
    },
    /// All names are on the disk.
    Kept,
}

/// What is under a path, and what a crash may leave there.
#[derive(Drop)]
pub struct PathState<'a> {
    /// What a read gives.
    pub now: Option<&'a File>,
    /// Whether that isn't on the disk.
    pub loose: bool,
    /// What stood there since the names were on the disk: a crash may bring it back.
    pub before: Vec<Option<&'a File>>,
    /// Whether some of that wasn't on the disk: a crash may leave anything.
    pub torn: bool,
}

/// Files under paths, and how they came there.
#[derive(Drop)]
pub struct Memory {
    alloc: Global,
    /// What happened, one step a call.
    pub steps: Vec<Step>,
    /// The path of the file that was made last.
    pub part: Vec<u8>,
    /// How many bytes a write takes at most; 0 counts as 1.
    pub per_write: usize,
    /// The numbers of the calls that fail, counted from 0.
    pub fails: [Option<u64>; 2],
    /// How many calls there were.
    pub calls: u64,
    /// How many have failed.
    pub failed: u64,
}

/// Whether two paths are one.
pub fn is_same(a: &[u8], b: &[u8]) -> bool
    ensures { result ≡ bytes_eq a.now b.now }
{
    a == b
}

impl<'a> PathState<'a> {
    /// What another file under the path makes of it.
    fn change(&mut self, now: Option<&'a File>, loose: bool) -> Result<(), AllocError>
        ensures { OnOk result (lent self.new
            ≡ changed (option_map (λ f. stored f.now) now.entry) loose (lent self.old)) }
    {
        self.before.push(self.now)?;
        self.now = now;
        self.loose = loose;
        self.torn = self.torn || loose;
        Ok(())
    }
}

impl<'a> PathState<'a> {
    /// What one step more makes of it.
    fn step(&mut self, alloc: Global, path: &[u8], step: &'a Step) -> Result<(), AllocError>
        ensures { OnOk result (lent self.new ≡ after path.now (lent self.old) step.now) }
    {
        match step {
            Step::Changed { path: of, file } => {
                if is_same(path, of) {
                    self.change(Some(file), true)?;
                }
            }
            Step::Synced { path: of } => {
                if is_same(path, of) {
                    self.loose = false;
                }
            }
            Step::Moved {
                from,
                to,
                file,
                loose,
            } => {
                if is_same(path, to) {
                    self.change(Some(file), *loose)?;
                } else if is_same(path, from) {
                    self.change(None, false)?;
                }
            }
            Step::Removed { path: of } => {
                if is_same(path, of) {
                    self.change(None, false)?;
                }
            }
            Step::Kept => {
                self.before = Vec::new(alloc);
                self.torn = self.torn && self.loose;
            }
        }
        Ok(())
    }
}

/// What these steps make of a path: what is there, and what a crash may leave.
pub fn state_of<'a>(
    alloc: Global,
    steps: &'a [Step],
    path: &[u8],
) -> Result<PathState<'a>, AllocError>
    ensures { IfOk result (λ s. lent s ≡ state_of path.now begin steps.now) }
{
    let mut state = PathState {
        now: None,
        loose: false,
        before: Vec::new(alloc),
        torn: false,
    };
    for step in steps {
        state.step(alloc, path, step)?;
    }
    Ok(state)
}

/// The path of a name in a folder.
pub fn path_in(alloc: Global, folder: &str, name: &str) -> Result<Vec<u8>, AllocError>
    ensures { IfOk result (λ path. path.items ≡ path_in folder.now name.now) }
{
    let mut path = Vec::from_slice(alloc, folder.as_bytes())?;
    path.push(b'/')?;
    path.extend_from_slice(name.as_bytes())?;
    Ok(path)
}

impl Memory {
    /// A store without files.
    pub fn new(alloc: Global) -> Memory
        ensures { result.steps.items ≡ [] }
    {
        Memory {
            alloc,
            steps: Vec::new(alloc),
            part: Vec::new(alloc),
            per_write: usize::MAX,
            fails: [None, None],
            calls: 0,
            failed: 0,
        }
    }

    /// Counts a failed call.
    fn fail(&mut self) -> CallFailed
        ensures failed { self.new.failed ≡ after_failure self.old.failed }
        ensures steps { self.new.steps.items ≡ self.old.steps.items }
        ensures part { self.new.part.items ≡ self.old.part.items }
    {
        self.failed = self.failed.saturating_add(1);
        CallFailed
    }

    /// Takes a step, unless it couldn't be made or the call is to fail.
    fn take(&mut self, step: Result<Step, CallFailed>) -> Result<(), CallFailed>
        ensures taken { OnOk result (IsOkAnd step
            (λ s. self.new.steps.items ≡ self.old.steps.items ++ s ∷ [])) }
        ensures same { OnErr result (self.new.steps.items ≡ self.old.steps.items) }
        ensures part { self.new.part.items ≡ self.old.part.items }
        ensures cause { CountsFailures self.old.failed self.new.failed result }
    {
        let is_to_fail = self.is_to_fail();
        match step {
            Ok(step) if !is_to_fail => match self.steps.push(step) {
                Ok(()) => Ok(()),
                Err(_) => Err(self.fail()),
            },
            _ => Err(self.fail()),
        }
    }

    /// Another one's step happens, unless there is no memory for it.
    pub fn pass(&mut self, step: Step)
        ensures steps { IsPassed self.old.steps.items self.new.steps.items step }
        ensures part { self.new.part.items ≡ self.old.part.items }
        ensures failed { self.new.failed ≡ self.old.failed }
    {
        let _ = self.steps.push(step);
    }

    /// Counts a call, and returns whether it is to fail.
    fn is_to_fail(&mut self) -> bool
        ensures failed { self.new.failed ≡ self.old.failed }
        ensures steps { self.new.steps.items ≡ self.old.steps.items }
        ensures part { self.new.part.items ≡ self.old.part.items }
    {
        let number = Some(self.calls);
        self.calls = self.calls.saturating_add(1);
        self.fails[0] == number || self.fails[1] == number
    }

    /// A call that changes nothing.
    fn count(&mut self) -> Result<(), CallFailed>
        ensures steps { self.new.steps.items ≡ self.old.steps.items }
        ensures part { self.new.part.items ≡ self.old.part.items }
        ensures cause { CountsFailures self.old.failed self.new.failed result }
    {
        if self.is_to_fail() {
            return Err(self.fail());
        }
        Ok(())
    }
}

impl Memory {
    /// The new file with so many bytes more.
    fn longer(&self, bytes: &[u8]) -> Result<Step, CallFailed>
        ensures { IfOk result (λ s. (f : Stored)
            × (seen_of self.now.steps.items self.now.part.items ≡ Some f)
            × IsChange s self.now.part.items
            record { bytes = f.bytes ++ bytes.now; mode = f.mode }) }
    {
        let state = state_of(self.alloc, &self.steps, &self.part)?;
        match state.now {
            Some(file) => {
                let file = file.with(self.alloc, bytes, file.mode)?;
                let path = self.part.to_vec(self.alloc)?;
                Ok(Step::Changed { path, file })
            }
            None => Err(CallFailed),
        }
    }

    /// The new file with the database's mode.
    fn readable(&self) -> Result<Step, CallFailed>
        ensures { IfOk result (λ s. (f : Stored)
            × (seen_of self.now.steps.items self.now.part.items ≡ Some f)
            × IsChange s self.now.part.items
            record { bytes = f.bytes; mode = database_mode }) }
    {
        let state = state_of(self.alloc, &self.steps, &self.part)?;
        match state.now {
            Some(file) => {
                let file = file.with(self.alloc, b"", DATABASE_MODE)?;
                let path = self.part.to_vec(self.alloc)?;
                Ok(Step::Changed { path, file })
            }
            None => Err(CallFailed),
        }
    }

    /// A file's rename.
    fn renamed(&self, folder: &str, from: &str, to: &str) -> Result<Step, CallFailed>
        ensures { IfOk result (λ s. (f : Stored)
            × (seen_of self.now.steps.items (path_in folder.now from.now) ≡ Some f)
            × IsMove s (path_in folder.now from.now) (path_in folder.now to.now) f
            (state_of (path_in folder.now from.now) begin self.now.steps.items).loose) }
    {
        let from = path_in(self.alloc, folder, from)?;
        let to = path_in(self.alloc, folder, to)?;
        let state = state_of(self.alloc, &self.steps, &from)?;
        match state.now {
            Some(file) => {
                let file = file.with(self.alloc, b"", file.mode)?;
                let loose = state.loose;
                let from = from.to_vec(self.alloc)?;
                Ok(Step::Moved {
                    from,
                    to,
                    file,
                    loose,
                })
            }
            None => Err(CallFailed),
        }
    }

    /// The new file's sync.
    fn synced(&self) -> Result<Step, CallFailed>
        ensures { IfOk result (λ s. IsSync s self.now.part.items) }
    {
        let path = self.part.to_vec(self.alloc)?;
        Ok(Step::Synced { path })
    }

    /// A file's removal.
    fn removed(&self, folder: &str, name: &str) -> Result<Step, CallFailed>
        ensures { IfOk result (λ s. IsRemoval s (path_in folder.now name.now)) }
    {
        let path = path_in(self.alloc, folder, name)?;
        Ok(Step::Removed { path })
    }

    /// A new file, empty, unless something is under its path.
    fn create(&self, path: &[u8]) -> Result<Option<Step>, CallFailed>
        ensures { IfOk result
            (λ o. IsCreation o path.now (seen_of self.now.steps.items path.now)) }
    {
        let state = state_of(self.alloc, &self.steps, path)?;
        if state.now.is_some() {
            return Ok(None);
        }
        let file = File {
            bytes: Vec::new(self.alloc),
            mode: PART_MODE,
        };
        let path = path.to_vec(self.alloc)?;
        Ok(Some(Step::Changed { path, file }))
    }
}

impl Memory {
    /// Whether a path is one that a new file in a folder may have.
    fn is_part(&self, folder: &str, path: &[u8]) -> Result<bool, AllocError>
        ensures { IfOk result (λ is. IsTrue is → IsPartPath folder.now path.now) }
    {
        let Some(name) = path.rsplit(|byte| *byte == b'/').next() else {
            return Ok(false);
        };
        let Some(number) = part_number(name) else {
            return Ok(false);
        };
        let part = path_in(self.alloc, folder, part_name(number).as_str())?;
        Ok(path == part.as_slice())
    }

    /// The path that a step puts a file under, if it is a new file's in that folder.
    fn part_of(&self, folder: &str, step: &Step) -> Result<Option<Vec<u8>>, AllocError>
        ensures { IfOk result (λ found. IfSome found (λ path. IsPartPath folder.now path.items)) }
    {
        let path = match step {
            Step::Changed { path, .. } => path,
            Step::Moved { to, .. } => to,
            _ => return Ok(None),
        };
        if self.is_part(folder, path)? {
            return Ok(Some(path.to_vec(self.alloc)?));
        }
        Ok(None)
    }

    /// Removes the new file in a folder that a step made.
    fn clear(&mut self, folder: &str, at: usize)
        ensures cleared { IsClearing folder.now self.old.steps.items self.new.steps.items }
        ensures failed { self.new.failed ≡ self.old.failed }
    {
        let Some(step) = self.steps.get(at) else {
            return;
        };
        if let Ok(Some(path)) = self.part_of(folder, step) {
            let _ = self.steps.push(Step::Removed { path });
        }
    }
}

impl Store for Memory {
    ghost tells = { Unit {0} };

    ghost tells_own = { Unit {0} };

    // Nobody else is there.
    ghost theirs = { λ _ _. ⊥ };

    ghost is_own = { λ m p. m.part.items ≡ p };

    ghost tells_more = { λ tells. tells };

    ghost tears = { Unit {0} };

    ghost seen = { λ m p. seen_of m.steps.items p };

    ghost may_leave = { λ m p v. left_of m.steps.items p v };

    ghost is_whole = { λ m p. is_whole_of m.steps.items p };

    // It has no folders: a file can be made under each path.
    ghost is_folder = { λ _ _. Unit {0} };

    ghost part = { λ m. m.part.items };

    ghost moment = { λ m. length m.steps.items };

    ghost left_since = { λ m t p v. since_of m.steps.items t p v };

    ghost failures = { λ m. m.failed };

    ghost only_now = { λ m p v left. only_now_of m.steps.items p v left };

    ghost from_now = { λ m p v left. from_now_of m.steps.items p v left };

    ghost earlier = { λ m t u p v le left. earlier_of m.steps.items t u p v le left };

    ghost stands = { λ m p tells. stands_of m.steps.items p };

    fn clear_parts(&mut self, folder: &str) {
        let made = self.steps.len();
        'steps: for at in 0..made {
            self.clear(folder, at);
        }
    }

    fn make_folder(&mut self, _: &str) -> Result<(), CallFailed> {
        self.count()
    }

    fn create_new(&mut self, folder: &str, name: &str) -> Result<bool, CallFailed> {
        let Ok(path) = path_in(self.alloc, folder, name) else {
            return Err(self.fail());
        };
        match self.create(&path) {
            Ok(None) => {
                self.count()?;
                Ok(false)
            }
            Ok(Some(step)) => {
                self.part = path;
                self.take(Ok(step))?;
                Ok(true)
            }
            Err(_) => Err(self.fail()),
        }
    }

    fn write(&mut self, buf: &[u8]) -> Result<usize, CallFailed> {
        let n = self.per_write.max(1).min(buf.len());
        let step = self.longer(&buf[..n]);
        self.take(step)?;
        Ok(n)
    }

    fn set_mode(&mut self) -> Result<(), CallFailed> {
        let step = self.readable();
        self.take(step)?;
        Ok(())
    }

    fn sync(&mut self) -> Result<(), CallFailed> {
        let step = self.synced();
        self.take(step)?;
        Ok(())
    }

    fn rename(&mut self, folder: &str, from: &str, to: &str) -> Result<(), CallFailed> {
        let step = self.renamed(folder, from, to);
        self.take(step)?;
        Ok(())
    }

    fn sync_folder(&mut self, _: &str) -> Result<(), CallFailed> {
        self.take(Ok(Step::Kept))?;
        Ok(())
    }

    fn remove(&mut self, folder: &str, name: &str) -> Result<(), CallFailed> {
        let step = self.removed(folder, name);
        self.take(step)?;
        Ok(())
    }
}

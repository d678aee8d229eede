//! A store of files, as an update sees it: each call may fail, and a crash may come at each moment.
ghost use Rattle.std.specs.Prelude.{◌≡◌, ◌<◌, ◌≤◌, ◌⊎◌, ℕ, List, [], Option, Some, true, length, take, IfOk, OnOk, OnErr, MatchResult};
ghost use Rattle.hwdb_spec.specs.Failures.{CountsFailures};
ghost use Rattle.hwdb_spec.specs.Store.{Stored, Contents, path_in, Same, SameBut, Cleared, Created, Written, ModeSet, Removed, Renamed, NoMore, NoMoreBut, NoMoreCreated, NoMoreRenamed, OldOrCleared, Always, Elapses, part_name, part_mode, most_parts, database_name};

use std::alloc::AllocError;

/// A call of a store that failed, for whatever reason.
#[derive(Clone, Copy, Debug)]
pub struct CallFailed;

impl From<AllocError> for CallFailed {
    fn from(_: AllocError) -> CallFailed {
        CallFailed
    }
}

/// Files in folders, by POSIX's calls. The file that was made last is the one that is written.
///
/// A store in memory tells its contents. The file system doesn't: no contract of std says what is under a path.
///
/// Others may change files between two calls. So a new file is one's own from the call that made it until it is renamed or
/// removed. Only its maker writes, renames or removes it. The calls require that.
pub trait Store {
    /// Whether the store tells its contents, which nobody else changes.
    ghost tells: { Type 0 };
    /// Whether the store tells what is under the path of one's own new file, whatever others do meanwhile.
    ghost tells_own: { Type 0 };
    /// Whether a crash tears what isn't on the disk: it may leave anything of it.
    ghost tears: { Type 0 };
    /// What a read of each path gives.
    ghost seen: { Self → Contents };
    /// What a crash at this moment may leave under a path, and what it may if others go on before it.
    ghost may_leave: { Self → List ℕ → Option Stored → Type 0 };
    /// The file that is under a path is on the disk, its bytes and its mode; its name may not be.
    ghost is_whole: { Self → List ℕ → Type 0 };
    /// What others may put under a path, at any time.
    ghost theirs: { List ℕ → Option Stored → Type 0 };
    /// The file that was made last is under the path, and is one's own.
    ghost is_own: { Self → List ℕ → Type 0 };
    /// A folder is there, so that files can be made in it.
    ghost is_folder: { Self → List ℕ → Type 0 };
    /// The path of the file that was made last: what is written goes there.
    ghost part: { Self → List ℕ };
    /// The moment, as a number that doesn't fall.
    ghost moment: { Self → ℕ };
    /// What a crash at some moment from that one on might have left, during a call or between two.
    ghost left_since: { Self → ℕ → List ℕ → Option Stored → Type 0 };
    /// How many calls have failed so far, which stays at the greatest `u64`.
    ghost failures: { Self → ℕ };

    /// Takes away what killed updates left in a folder: new files that nobody holds. What can't be taken away stays. That is
    /// no failed call.
    fn clear_parts(&mut self, folder: &str)
        ensures seen { tells → Cleared folder.now (seen self.old) (seen self.new) }
        ensures crash { NoMore (OldOrCleared folder.now (may_leave self.old)) (may_leave self.new) }
        ensures time { Elapses (moment self.old) (moment self.new)
            (left_since self.old) (left_since self.new)
            (OldOrCleared folder.now (may_leave self.old)) }
        ensures cause { failures self.new ≡ failures self.old };

    /// Makes a folder, and those above it, if they aren't there: files can be made in it. No file changes.
    fn make_folder(&mut self, folder: &str) -> Result<(), CallFailed>
        ensures there { OnOk result (is_folder self.new folder.now) }
        ensures seen { tells → Same (seen self.old) (seen self.new) }
        ensures crash { NoMore (may_leave self.old) (may_leave self.new) }
        ensures time { Elapses (moment self.old) (moment self.new)
            (left_since self.old) (left_since self.new) (may_leave self.new) }
        ensures cause { CountsFailures (failures self.old) (failures self.new) result };

    /// Makes a new file with this name in a folder that is there, unless something has it, and returns whether it did. The
    /// file is empty, and its owner's alone.
    fn create_new(&mut self, folder: &str, name: &str) -> Result<bool, CallFailed>
        requires there { is_folder self.old folder.now }
        requires named { (number : ℕ) × (number < most_parts) × (name.now ≡ part_name number) }
        ensures folder { is_folder self.new folder.now }
        ensures own { IfOk result
            (λ made. made ≡ true → is_own self.new (path_in folder.now name.now)) }
        ensures made { tells_own → IfOk result (λ made. made ≡ true
            → (part self.new ≡ path_in folder.now name.now)
            × (seen self.new (path_in folder.now name.now)
            ≡ Some record { bytes = []; mode = part_mode })) }
        ensures seen { tells → MatchResult result
            (λ made. Created made (path_in folder.now name.now) (part self.new)
            (seen self.old) (seen self.new)) (λ _. Same (seen self.old) (seen self.new)) }
        ensures crash { MatchResult result
            (λ made. NoMoreCreated made (path_in folder.now name.now)
            (may_leave self.old) (may_leave self.new))
            (λ _. NoMore (may_leave self.old) (may_leave self.new)) }
        ensures time { Elapses (moment self.old) (moment self.new)
            (left_since self.old) (left_since self.new) (may_leave self.new) }
        ensures cause { CountsFailures (failures self.old) (failures self.new) result };

    /// Adds bytes from the front of `buf` to the file that was made last, and returns how many. Adding none of something has failed.
    fn write(&mut self, buf: &[u8]) -> Result<usize, CallFailed>
        ensures bound { IfOk result (λ n. n ≤ length buf.now) }
        ensures progress { IfOk result (λ n. 0 < length buf.now → 0 < n) }
        ensures own { (p : List ℕ) → is_own self.old p → is_own self.new p }
        ensures written { tells_own → IfOk result
            (λ n. Written (part self.old) (take n buf.now) (seen self.old) (seen self.new)) }
        ensures torn { tears → OnOk result
            ((left : Option Stored) → may_leave self.new (part self.old) left) }
        ensures others { tells → SameBut (part self.old) (seen self.old) (seen self.new) }
        ensures part { part self.new ≡ part self.old }
        ensures crash { NoMoreBut (part self.old) (may_leave self.old) (may_leave self.new) }
        ensures time { Elapses (moment self.old) (moment self.new)
            (left_since self.old) (left_since self.new) (may_leave self.new) }
        ensures cause { CountsFailures (failures self.old) (failures self.new) result };

    /// Gives the file that was made last the database's mode: everybody may read it.
    fn set_mode(&mut self) -> Result<(), CallFailed>
        ensures own { (p : List ℕ) → is_own self.old p → is_own self.new p }
        ensures set { tells_own → OnOk result
            (ModeSet (part self.old) 292 (seen self.old) (seen self.new)) }
        ensures others { tells → SameBut (part self.old) (seen self.old) (seen self.new) }
        ensures part { part self.new ≡ part self.old }
        ensures crash { NoMoreBut (part self.old) (may_leave self.old) (may_leave self.new) }
        ensures time { Elapses (moment self.old) (moment self.new)
            (left_since self.old) (left_since self.new) (may_leave self.new) }
        ensures cause { CountsFailures (failures self.old) (failures self.new) result };

    /// Has the file that was made last on the disk, its bytes and its mode.
    fn sync(&mut self) -> Result<(), CallFailed>
        ensures whole { OnOk result (is_whole self.new (part self.old)) }
        ensures own { (p : List ℕ) → is_own self.old p → is_own self.new p }
        ensures own_whole { OnOk result
            ((p : List ℕ) → is_own self.old p → is_whole self.new p) }
        ensures own_seen { tells_own
            → seen self.new (part self.old) ≡ seen self.old (part self.old) }
        ensures seen { tells → Same (seen self.old) (seen self.new) }
        ensures part { part self.new ≡ part self.old }
        ensures crash { NoMore (may_leave self.old) (may_leave self.new) }
        ensures time { Elapses (moment self.old) (moment self.new)
            (left_since self.old) (left_since self.new) (may_leave self.new) }
        ensures cause { CountsFailures (failures self.old) (failures self.new) result };

    /// Gives one's own file, which is on the disk, the database's name in its folder, whatever has that.
    fn rename(&mut self, folder: &str, from: &str, to: &str) -> Result<(), CallFailed>
        requires own { is_own self.old (path_in folder.now from.now) }
        requires whole { is_whole self.old (path_in folder.now from.now) }
        requires named { to.now ≡ database_name }
        ensures own { OnErr result ((p : List ℕ) → is_own self.old p → is_own self.new p) }
        ensures there { tells_own → OnOk result
            (seen self.new (path_in folder.now to.now)
            ≡ seen self.old (path_in folder.now from.now)) }
        ensures put { tells_own → OnOk result
            (may_leave self.new (path_in folder.now to.now)
            (seen self.old (path_in folder.now from.now))) }
        ensures seen { tells → MatchResult result
            (λ _. Renamed (path_in folder.now from.now) (path_in folder.now to.now)
            (seen self.old) (seen self.new)) (λ _. Same (seen self.old) (seen self.new)) }
        ensures whole { OnOk result (is_whole self.old (path_in folder.now from.now)
            → is_whole self.new (path_in folder.now to.now)) }
        ensures undone { tears → OnOk result
            (may_leave self.new (path_in folder.now to.now)
            (seen self.old (path_in folder.now to.now))) }
        ensures crash { MatchResult result
            (λ _. NoMoreRenamed (path_in folder.now from.now) (path_in folder.now to.now)
            (seen self.old (path_in folder.now from.now))
            (is_whole self.old (path_in folder.now from.now))
            (may_leave self.old) (may_leave self.new))
            (λ _. NoMore (may_leave self.old) (may_leave self.new)) }
        ensures time { Elapses (moment self.old) (moment self.new)
            (left_since self.old) (left_since self.new) (may_leave self.new) }
        ensures cause { CountsFailures (failures self.old) (failures self.new) result };

    /// Has the names in a folder on the disk: what is under them, and is whole there, a crash leaves.
    fn sync_folder(&mut self, folder: &str) -> Result<(), CallFailed>
        ensures durable { tells → OnOk result
            ((name : List ℕ) → is_whole self.old (path_in folder.now name)
            → Always (path_in folder.now name) (seen self.old (path_in folder.now name))
            (may_leave self.new)) }
        ensures last { tells_own → OnOk result
            ((name : List ℕ) → is_whole self.old (path_in folder.now name)
            → (v : Option Stored) → may_leave self.new (path_in folder.now name) v
            → (v ≡ seen self.old (path_in folder.now name))
            ⊎ theirs (path_in folder.now name) v) }
        ensures seen { tells → Same (seen self.old) (seen self.new) }
        ensures crash { NoMore (may_leave self.old) (may_leave self.new) }
        ensures time { Elapses (moment self.old) (moment self.new)
            (left_since self.old) (left_since self.new) (may_leave self.new) }
        ensures cause { CountsFailures (failures self.old) (failures self.new) result };

    /// Takes one's own file away.
    fn remove(&mut self, folder: &str, name: &str) -> Result<(), CallFailed>
        requires own { is_own self.old (path_in folder.now name.now) }
        ensures seen { tells → MatchResult result
            (λ _. Removed (path_in folder.now name.now) (seen self.old) (seen self.new))
            (λ _. Same (seen self.old) (seen self.new)) }
        ensures crash { NoMoreBut (path_in folder.now name.now)
            (may_leave self.old) (may_leave self.new) }
        ensures time { Elapses (moment self.old) (moment self.new)
            (left_since self.old) (left_since self.new) (may_leave self.new) }
        ensures cause { CountsFailures (failures self.old) (failures self.new) result };

    /// Who tells all contents tells those of one's own file.
    ghost tells_more: { tells → tells_own };
    /// At this moment a crash leaves what it may leave now.
    ghost only_now: { (store : Self) (p : List ℕ) (v : Option Stored)
        → left_since store (moment store) p v → may_leave store p v };
    /// What a crash leaves that it may leave now counts from this moment on.
    ghost from_now: { (store : Self) (p : List ℕ) (v : Option Stored)
        → may_leave store p v → left_since store (moment store) p v };
    /// What a crash since some moment might have left, one since an earlier moment might, too.
    ghost earlier: { (store : Self) (t u : ℕ) (p : List ℕ) (v : Option Stored)
        → t ≤ u → left_since store u p v → left_since store t p v };
    /// What is under a path a crash may leave there: a kill at this moment does.
    ghost stands: { (store : Self) (p : List ℕ) → tells → may_leave store p (seen store p) };
}

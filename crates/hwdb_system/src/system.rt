//! What the program asks of a file system.
ghost use Rattle.std.specs.Prelude.{◌≡◌, ◌≤◌, ℕ, List, None, Some, false, Ok, IfOk, IfErr, IfSome, OnOk, is_some, map, option_map, string_bytes, vec_len};
ghost use Rattle.hwdb_spec.specs.Texts.{max_file};
ghost use Rattle.hwdb_spec.specs.System.{AreNamesIn, bytes_at};
ghost use Rattle.hwdb_spec_commands.specs.GivenFolders.{IsUnlistedFolder};
ghost use Rattle.hwdb_spec_commands.specs.Reading.{IsFolderAt};
ghost use Rattle.hwdb_spec_commands.specs.Refusals.{HasReason, IsUnlisted, IsUnread, IsUnreadAt, IsUnreadable};
ghost use Rattle.hwdb_spec_commands.specs.Told.{AreReadsOf, IsListedTo, IsReadTo, Reads};

use crate::identity::Identity;
use crate::opened::OpenedFile;
use hwdb_io::Cause;
use hwdb_replace::Store;
use hwdb_spec_commands::Refusal;
use std::alloc::{AllocError, Global};

/// Files that the program reads, in a [`Store`] whose database it replaces.
///
/// Each call reads, and changes nothing. Errors are what can't be read, with its path and the cause, and want of
/// memory.
pub trait System: Store {
    /// A database that was opened.
    type Opened: OpenedFile + Drop;

    /// Reading what is at a path, or listing it, may fail, for whatever reason.
    ghost may_fail: { Self → List ℕ → Type 0 };

    /// What each read and each listing gives.
    ghost reads: { Self → Reads };

    /// A regular file is at the path, or the null device: no folder, pipe, socket or other device. A link is followed.
    ghost is_regular: { Self → List ℕ → Type 0 };

    /// The names of a folder's text files, in no order; none if the folder isn't there. Other entries of the
    /// folder never matter. A text file's name that isn't UTF-8 is an error, too.
    fn names(&self, alloc: Global, folder: &str) -> Result<Vec<String>, Refusal>
        ensures told { Self.tells → IsListedTo (λ names. map string_bytes names.items)
            ((reads self.now).names folder.now) folder.now result }
        ensures names { Self.tells → IfOk result
            (λ names. AreNamesIn folder.now (Self.seen self.now) (map string_bytes names.items)) }
        ensures refused { IfErr result (IsUnlisted folder.now) }
        ensures reason { IfErr result
            (HasReason (may_fail self.now) ⊥ (Self.seen self.now)) };

    /// The names of the text files of the folder at a path, in no order; None if no folder is there. A folder that can't be
    /// listed is an error.
    fn folder_names(&self, alloc: Global, path: &str) -> Result<Option<Vec<String>>, Refusal>
        ensures told { Self.tells → IsListedTo
            (λ found. option_map (λ names. map string_bytes names.items) found)
            ((reads self.now).folder path.now) path.now result }
        ensures names { Self.tells → IfOk result (λ found. IsFolderAt path.now (Self.seen self.now)
            (option_map (λ names. map string_bytes names.items) found)) }
        ensures refused { IfErr result (IsUnlisted path.now) }
        ensures folder { Self.tells → IfErr result
            (IsUnlistedFolder (Self.seen self.now) path.now) }
        ensures reason { IfErr result
            (HasReason (may_fail self.now) ⊥ (Self.seen self.now)) };

    /// The bytes of a text file that a folder lists. What is no regular file is an error: an open of a pipe would wait.
    fn text(&self, alloc: Global, path: &str) -> Result<Vec<u8>, Refusal>
        ensures told { Self.tells → IsReadTo (λ v. v.items) ((reads self.now).text path.now)
            path.now result }
        ensures regular { OnOk result (is_regular self.now path.now) }
        ensures bytes { Self.tells → IfOk result
            (λ bytes. bytes_at (Self.seen self.now) path.now ≡ Some bytes.items) }
        ensures within { IfOk result (λ bytes. vec_len bytes ≤ max_file) }
        ensures refused { IfErr result (IsUnread path.now) }
        ensures unread { Self.tells → IfErr result
            (IsUnreadAt (Self.seen self.now) path.now) }
        ensures reason { IfErr result (HasReason
            (IsUnreadable (may_fail self.now) (Self.seen self.now)) ⊥ (Self.seen self.now)) };

    /// The bytes of whatever can be read at a path: a file, a pipe, a device.
    fn input(&self, alloc: Global, path: &str) -> Result<Vec<u8>, Refusal>
        ensures told { Self.tells → IsReadTo (λ v. v.items) ((reads self.now).input path.now)
            path.now result }
        ensures bytes { Self.tells → IfOk result
            (λ bytes. bytes_at (Self.seen self.now) path.now ≡ Some bytes.items) }
        ensures within { IfOk result (λ bytes. vec_len bytes ≤ max_file) }
        ensures refused { IfErr result (IsUnread path.now) }
        ensures unread { Self.tells → IfErr result
            (IsUnreadAt (Self.seen self.now) path.now) }
        ensures reason { IfErr result (HasReason
            (IsUnreadable (may_fail self.now) (Self.seen self.now)) ⊥ (Self.seen self.now)) };

    /// The bytes of a database, or None if nothing is at the path. What is no regular file is an error.
    fn database(&self, alloc: Global, path: &str) -> Result<Option<Vec<u8>>, Refusal>
        ensures told { Self.tells → IsReadTo (λ found. option_map (λ v. v.items) found)
            ((reads self.now).database path.now) path.now result }
        ensures regular { IfOk result (λ found. IfSome found (λ _. is_regular self.now path.now)) }
        ensures bytes { Self.tells → IfOk result
            (λ found. bytes_at (Self.seen self.now) path.now ≡ option_map (λ b. b.items) found) }
        ensures within { IfOk result (λ found. IfSome found (λ b. vec_len b ≤ max_file)) }
        ensures refused { IfErr result (IsUnread path.now) }
        ensures unread { Self.tells → IfErr result
            (IsUnreadAt (Self.seen self.now) path.now) }
        ensures reason { IfErr result
            (HasReason (may_fail self.now) ⊥ (Self.seen self.now)) };

    /// Whether something is at the path of a database, so that it is read; a link is something. If that can't be told,
    /// something is. The only error is want of memory.
    fn is_there(&self, alloc: Global, path: &str) -> Result<bool, AllocError>
        ensures told { Self.tells → IfOk result
            (λ there. there ≡ false → (reads self.now).database path.now ≡ Ok None) }
        ensures there { Self.tells → IfOk result
            (λ there. there ≡ is_some (bytes_at (Self.seen self.now) path.now)) };

    /// Why the first call that failed did, if the system knows it. For messages alone: no promise speaks of it.
    fn cause(&self) -> Option<Cause> {
        None
    }

    /// What tells the file at a path from one that replaces it; None if nothing is there, or it can't be told. In a system that
    /// tells its files nothing is replaced.
    fn identity(&self, _path: &str) -> Option<Identity>
        ensures { Self.tells → result ≡ None }
    {
        None
    }

    /// Opens a database, of which parts are read then: of the one file that is at the path now. A part is one of the bytes that a
    /// read of the whole gives. None says nothing of what is there. What is no regular file isn't opened.
    fn open_database(&self, alloc: Global, path: &str) -> Option<Self::Opened>
        ensures regular { IfSome result (λ _. is_regular self.now path.now) }
        ensures opened { Self.tells → IfSome result (λ file. (bytes : List ℕ)
            × ((reads self.now).database path.now ≡ Ok (Some bytes))
            × (bytes_at (Self.seen self.now) path.now ≡ Some bytes)
            × Self.Opened.is_of file bytes) }
    {
        None
    }

    /// What is told is what is there.
    ghost agrees: { (s : Self) → Self.Store.tells
        → AreReadsOf (reads s) (Self.Store.seen s) (may_fail s) };
}
